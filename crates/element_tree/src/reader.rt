ghost use Rattle.std.specs.Prelude.{◌≡◌, ℕ, ◌+◌, ◌<◌, ◌≤◌, ◌^◌, ◌==◌, List, [], ◌∷◌, ◌++◌, length};
ghost use Rattle.std.specs.Prelude.{drop, OnOk, IfOk, is_ok, if◌then◌else◌};
ghost use Rattle.std.specs.List.{list_all};
ghost use Rattle.element_tree.specs.Bytes.{is_space};
ghost use Rattle.reading.specs.Reading.{Gives};
ghost use Rattle.element_tree.specs.Documents.{is_memory, text_step, end_step, start_step, step_of};
ghost use Rattle.element_tree.specs.Documents.{step, cut_fault, finish, read_on, markup};
ghost use Rattle.element_tree.specs.Views.{state};
ghost use Rattle.element_tree.specs.Within.{AreWithin};

use crate::bytes::is_space;
use crate::fault::MarkupFault;
use crate::limits::{MAX_DEPTH, MAX_ELEMENTS};
use crate::names::Names;
use crate::node::Node;
use crate::tag::{is_end_tag, start_tag};
use crate::token::{Kind, cut_token};
use std::alloc::Global;

#[derive(Drop)]
pub struct Reader<'a> {
    pub alloc: Global,
    pub at: usize,
    pub nodes: Vec<Node>,
    pub unended: Names<'a>,
}

fn is_blank(text: &[u8]) -> bool
    ensures { result ≡ list_all is_space text.now }
{
    text.iter().all(|b| is_space(*b))
}

#[tactic(auto, unfolding(crate::specs::Documents::cut_fault))]
fn cut_fault(at: usize, rest: &[u8]) -> MarkupFault
    ensures { result ≡ cut_fault at rest.now }
{
    if rest.starts_with(b"<!")
        && !rest.starts_with(b"<!--")
        && !b"<!--".as_slice().starts_with(rest)
    {
        MarkupFault::Unsupported(at)
    } else {
        MarkupFault::Truncated(at)
    }
}

impl<'a> Reader<'a> {
    #[tactic(auto, unfolding(crate::specs::Documents::text_step), using(crate::proofs::WithinLaws::within_later))]
    fn text(&mut self, token: &[u8]) -> Result<(), MarkupFault>
        ensures at { self.new.at ≡ self.old.at }
        ensures within { AreWithin self.old.at self.old.nodes.items
            → AreWithin (self.old.at + length token.now) self.new.nodes.items }
        ensures exact { Gives is_memory (λ _. state self.new) result
            (text_step token.now (state self.old)) }
    {
        if self.unended.len() == 0 && !is_blank(token) {
            return Err(MarkupFault::Malformed(self.at));
        }
        Ok(())
    }

    #[tactic(auto, unfolding(crate::specs::Documents::end_step), using(crate::proofs::WithinLaws::within_later))]
    fn end(&mut self, token: &[u8]) -> Result<(), MarkupFault>
        ensures at { self.new.at ≡ self.old.at }
        ensures within { AreWithin self.old.at self.old.nodes.items
            → AreWithin (self.old.at + length token.now) self.new.nodes.items }
        ensures exact { Gives is_memory (λ _. state self.new) result
            (end_step token.now (state self.old)) }
    {
        match self.unended.pop() {
            Some(name) if is_end_tag(name, token) => Ok(()),
            _ => Err(MarkupFault::Malformed(self.at)),
        }
    }

    #[tactic(auto, unfolding(crate::specs::Documents::start_step), using(crate::proofs::WithinLaws::within_later, crate::proofs::WithinLaws::within_push))]
    fn start(&mut self, token: &'a [u8]) -> Result<(), MarkupFault>
        requires { 1 ≤ length token.now }
        ensures at { self.new.at ≡ self.old.at }
        ensures within { AreWithin self.old.at self.old.nodes.items
            → AreWithin (self.old.at + length token.now) self.new.nodes.items }
        ensures exact { Gives is_memory (λ _. state self.new) result
            (start_step token.now (state self.old)) }
    {
        let Some((name, empty)) = start_tag(self.alloc, token)? else {
            return Err(MarkupFault::Malformed(self.at));
        };
        let depth = self.unended.len();
        if depth == 0 && self.nodes.len() != 0 {
            return Err(MarkupFault::Malformed(self.at));
        }
        if depth >= MAX_DEPTH {
            return Err(MarkupFault::TooDeep(self.at));
        }
        if self.nodes.len() >= MAX_ELEMENTS {
            return Err(MarkupFault::TooMany(self.at));
        }
        let node = Node {
            place: self.at,
            len: token.len(),
            depth: depth as u8,
        };
        self.nodes.push(node)?;
        if !empty {
            self.unended.push(name)?;
        }
        Ok(())
    }

    #[tactic(auto, using(crate::proofs::WithinLaws::within_later))]
    fn step_of(&mut self, kind: Kind, token: &'a [u8]) -> Result<(), MarkupFault>
        requires { 1 ≤ length token.now }
        ensures at { self.new.at ≡ self.old.at }
        ensures within { AreWithin self.old.at self.old.nodes.items
            → AreWithin (self.old.at + length token.now) self.new.nodes.items }
        ensures exact { Gives is_memory (λ _. state self.new) result
            (step_of kind token.now (state self.old)) }
    {
        match kind {
            Kind::Text => self.text(token),
            Kind::Aside => Ok(()),
            Kind::End => self.end(token),
            Kind::Start => self.start(token),
        }
    }

    fn step(&mut self, kind: Kind, token: &'a [u8]) -> Result<(), MarkupFault>
        requires long { 1 ≤ length token.now }
        requires room { self.old.at + length token.now < 2 ^ 64 }
        ensures at { OnOk result (self.new.at ≡ self.old.at + length token.now) }
        ensures within { OnOk result (AreWithin self.old.at self.old.nodes.items
            → AreWithin self.new.at self.new.nodes.items) }
        ensures exact { Gives is_memory (λ _. state self.new) result
            (step (kind, token.now) (state self.old)) }
    {
        self.step_of(kind, token)?;
        self.at += token.len();
        Ok(())
    }

    #[tactic(auto, unfolding(crate::specs::Documents::finish))]
    fn finish(self, rest: &[u8]) -> Result<Vec<Node>, MarkupFault>
        ensures exact { Gives is_memory (λ v. v.items) result (finish rest.now (state self.entry)) }
        ensures nodes { IfOk result (λ v. v.items ≡ self.entry.nodes.items) }
    {
        if !rest.is_empty() {
            return Err(cut_fault(self.at, rest));
        }
        if self.unended.len() != 0 || self.nodes.len() == 0 {
            return Err(MarkupFault::Truncated(self.at));
        }
        Ok(self.nodes)
    }
}

fn read_on<'a>(reader: Reader<'a>, bytes: &'a [u8]) -> Result<Vec<Node>, MarkupFault>
    requires room { reader.at + length bytes.now < 2 ^ 64 }
    requires start { AreWithin reader.at reader.nodes.items }
    ensures exact { Gives is_memory (λ v. v.items) result (read_on bytes.now (state reader.entry)) }
    ensures within { IfOk result (λ v. AreWithin (reader.entry.at + length bytes.now) v.items) }
{
    let mut reader = reader;
    let mut rest = bytes;
    while let Some((kind, token, after)) = cut_token(rest) {
        reader.step(kind, token)?;
        rest = after;
    }
    reader.finish(rest)
}

// The elements of a document.
#[tactic(auto, unfolding(crate::specs::Documents::markup), using(crate::proofs::WithinLaws::within_nil))]
pub fn read_nodes(alloc: Global, bytes: &[u8]) -> Result<Vec<Node>, MarkupFault>
    ensures exact { Gives is_memory (λ v. v.items) result (markup bytes.now) }
    ensures within { IfOk result (λ v. AreWithin (length bytes.now) v.items) }
{
    let (at, rest) = if bytes.starts_with(b"\xEF\xBB\xBF") {
        (3, bytes.split_at(3).1)
    } else {
        (0, bytes)
    };
    let reader = Reader {
        alloc,
        at,
        nodes: Vec::new(alloc),
        unended: Names::new(alloc),
    };
    read_on(reader, rest)
}

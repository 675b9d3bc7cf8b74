ghost use Rattle.std.specs.Prelude.{◌≡◌, ℕ, ◌+◌, ◌<◌, ◌≤◌, List, [], ◌∷◌, length, take, drop};
ghost use Rattle.std.specs.Prelude.{option_map, MatchOption, slice_index_or, IfSome, IfOk, IfErr};
ghost use Rattle.std.specs.Bool.{OnFalse};
ghost use Rattle.std.specs.List.{position_or_len};
ghost use Rattle.reading.specs.Reading.{Gives};
ghost use Rattle.element_tree.specs.Bytes.{skip_space, is_name_end};
ghost use Rattle.element_tree.specs.Tags.{value_of};
ghost use Rattle.element_tree.specs.Documents.{is_memory, markup};
ghost use Rattle.element_tree.specs.Contents.{mark_len, after_mark, IsDocument, IsNoDocument};
ghost use Rattle.element_tree.specs.Faults.{IsFirstFault, at_front};
ghost use Rattle.element_tree.specs.Shown.{ShowsContent};
ghost use Rattle.element_tree.specs.Trees.{no_node, node_of, tag_of, after_tag, name_of};
ghost use Rattle.element_tree.specs.Trees.{after_name, attributes_of, trim_end, trim};
ghost use Rattle.element_tree.specs.Trees.{text_before_end, text_of, siblings, children, younger};
ghost use Rattle.element_tree.specs.Trees.{from};

use crate::bytes::{is_space, len_before, name_len, skip_space};
use crate::fault::MarkupFault;
use crate::node::Node;
use crate::reader::read_nodes;
use crate::tag::value_of;
use std::alloc::Global;
use std::marker::Model;

/// The elements of a document, which lends its bytes. They are numbered from 0 in the order of
/// their start tags; 0 is the root. The calls that take a number ask that there is such an element.
#[derive(Drop)]
pub struct Tree<'a> {
    source: &'a [u8],
    nodes: Vec<Node>,
}

impl<'a> Model for Tree<'a> {
    ghost use Rattle.std.specs.Prelude.{length};
    ghost use Rattle.element_tree.specs.Document.{Document};
    ghost use Rattle.element_tree.specs.Within.{AreWithin};

    ghost Value = { Document };

    ghost view = { λ t. record { source = t.source.now; nodes = t.nodes.items } };

    ghost invariant = { λ t. AreWithin (length t.source.now) t.nodes.items };
}

/// The tree of a document, or its first fault. At most `MAX_ELEMENTS` elements, at most `MAX_DEPTH`
/// deep; tags have their form (a profile of CommonRoad XML, `specs/Documents.antt`). Entities are
/// kept as they are written.
#[tactic(auto, using(crate::proofs::Wholes::markup_whole, crate::proofs::FirstFaults::first_answered, crate::proofs::Accepts::none_refused, crate::proofs::ShownLaws::document_shown))]
pub fn read_tree<'a>(alloc: Global, bytes: &'a [u8]) -> Result<Tree<'a>, MarkupFault>
    ensures exact { Gives is_memory (λ t. t.nodes) result (markup bytes.now) }
    ensures source { IfOk result (λ t. t.source ≡ bytes.now) }

    // Any fault but want of memory is that of the first token that has one: all tokens before it
    // were read.
    ensures first { IfErr result (λ f. OnFalse (is_memory f)
        (IsFirstFault (at_front bytes.now) (after_mark bytes.now) f)) }

    // What is accepted is the tokens of some content, joined, and the tree shows its elements; what
    // is refused is of no content.
    ensures spelled { IfOk result
        (λ t. IsDocument (mark_len bytes.now) (after_mark bytes.now) t.nodes) }
    ensures refused { IfErr result
        (λ f. OnFalse (is_memory f) (IsNoDocument (mark_len bytes.now) (after_mark bytes.now))) }

    // Of each element the calls tell what the content says, whatever content the document is the
    // tokens of: its tag with its name and its attributes, its text, the elements directly in it,
    // and those after it in the same element.
    ensures shown { IfOk result (λ t. ShowsContent t) }
{
    let nodes = read_nodes(alloc, bytes)?;
    Ok(Tree {
        source: bytes,
        nodes,
    })
}

impl<'a> Tree<'a> {
    /// How many elements there are. Their numbers are those below it.
    pub fn count(&self) -> u32
        ensures { result ≡ length self.now.nodes }
    {
        self.nodes.len() as u32
    }

    /// The place of the element's `<`, in bytes from the document's first.
    pub fn place(&self, node: u32) -> usize
        requires { node < length self.now.nodes }
        ensures { result ≡ (node_of self.now node).place }
    {
        self.nodes[node as usize].place
    }

    #[tactic(auto, using(crate::proofs::WithinLaws::node_within))]
    fn tag_and_rest(&self, node: u32) -> (&'a [u8], &'a [u8])
        requires { node < length self.now.nodes }
        ensures tag { result.0.now ≡ tag_of self.now node }
        ensures rest { result.1.now ≡ after_tag self.now node }
    {
        let node = &self.nodes[node as usize];
        let (_, rest) = self.source.split_at(node.place);
        rest.split_at(node.len)
    }

    /// The element's name, a slice of the document.
    pub fn name(&self, node: u32) -> &'a [u8]
        requires { node < length self.now.nodes }
        ensures { result.now ≡ name_of self.now node }
    {
        let (tag, _) = self.tag_and_rest(node);
        split_name(tag).0
    }

    /// The value of the element's attribute of this name, between its quotes and as it is written.
    /// None where it has none.
    pub fn attribute(&self, node: u32, name: &[u8]) -> Option<&'a [u8]>
        requires { node < length self.now.nodes }
        ensures { option_map (λ x. x.now) result ≡ value_of name.now (attributes_of self.now node) }
    {
        let (tag, _) = self.tag_and_rest(node);
        value_of(name, split_name(tag).1)
    }

    /// The first of the elements directly in this one. None where there is none.
    #[tactic(auto, unfolding(crate::specs::Trees::children, crate::specs::Trees::younger))]
    pub fn first_child(&self, node: u32) -> Option<u32>
        requires { node < length self.now.nodes }
        ensures children { from self.now result ≡ children self.now node }
        ensures within { IfSome result (λ c. (node < c) × (c < length self.now.nodes)) }
    {
        let index = node as usize;
        let depth = usize::from(self.nodes[index].depth);
        let found = next_at(self.nodes.as_slice(), depth + 1, index + 1)?;
        Some(found as u32)
    }

    /// The next element directly in the same element. None where there is none.
    #[tactic(auto, unfolding(crate::specs::Trees::younger))]
    pub fn next_sibling(&self, node: u32) -> Option<u32>
        requires { node < length self.now.nodes }
        ensures younger { from self.now result ≡ younger self.now node }
        ensures within { IfSome result (λ c. (node < c) × (c < length self.now.nodes)) }
    {
        let index = node as usize;
        let depth = usize::from(self.nodes[index].depth);
        let found = next_at(self.nodes.as_slice(), depth, index + 1)?;
        Some(found as u32)
    }
}

// The name in a start tag, and the bytes after it.
fn split_name(tag: &[u8]) -> (&[u8], &[u8])
    ensures name { result.0.now
        ≡ take (position_or_len is_name_end (drop 1 tag.now)) (drop 1 tag.now) }
    ensures rest { result.1.now
        ≡ drop (position_or_len is_name_end (drop 1 tag.now)) (drop 1 tag.now) }
{
    if tag.is_empty() {
        return (&[], &[]);
    }
    let (_, rest) = tag.split_at(1);
    rest.split_at(name_len(rest))
}

// The first element from an index on at this depth, if none before it is less deep.
#[tactic(auto, using(crate::proofs::Siblings::less_deep, crate::proofs::Siblings::as_deep, crate::proofs::Siblings::deeper, crate::proofs::Siblings::none_left))]
fn next_at(nodes: &[Node], depth: usize, from: usize) -> Option<usize>
    requires { from ≤ length nodes.now }
    ensures found { MatchOption result (siblings depth from (drop from nodes.now) ≡ [])
        (λ c. siblings depth from (drop from nodes.now)
        ≡ c ∷ siblings depth (c + 1) (drop (c + 1) nodes.now)) }
    ensures at { IfSome result (λ c. (from ≤ c) × (c < length nodes.now)
        × ((slice_index_or nodes.now c no_node).depth ≡ depth)) }
{
    for i in from..nodes.len() {
        let found = usize::from(nodes[i].depth);
        if found < depth {
            return None;
        }
        if found == depth {
            return Some(i);
        }
    }
    None
}

#[tactic(auto, using(crate::proofs::Trims::trim_more, crate::proofs::Trims::trim_stop, crate::proofs::Trims::trim_none))]
fn trim_end(bytes: &[u8]) -> &[u8]
    ensures { result.now ≡ trim_end bytes.now }
{
    let mut rest = bytes;
    while let [front @ .., last] = rest {
        if !is_space(*last) {
            return rest;
        }
        rest = front;
    }
    rest
}

// The text before an end tag, if nothing else stands before it.
#[tactic(auto, unfolding(crate::specs::Trees::text_before_end))]
fn text_before_end(bytes: &[u8]) -> Option<&[u8]>
    ensures { option_map (λ x. x.now) result ≡ text_before_end bytes.now }
{
    let (text, rest) = bytes.split_at(len_before(bytes, b'<'));
    if rest.starts_with(b"</") {
        Some(trim_end(skip_space(text)))
    } else {
        None
    }
}

impl<'a> Tree<'a> {
    /// The element's text as it is written, without white space at both ends. None where the
    /// element holds an element, a comment or an instruction.
    #[tactic(auto, unfolding(crate::specs::Trees::text_of))]
    pub fn text(&self, node: u32) -> Option<&'a [u8]>
        requires { node < length self.now.nodes }
        ensures { option_map (λ x. x.now) result ≡ text_of self.now node }
    {
        let (tag, rest) = self.tag_and_rest(node);
        if tag.ends_with(b"/>") {
            return Some(&[]);
        }
        text_before_end(rest)
    }
}

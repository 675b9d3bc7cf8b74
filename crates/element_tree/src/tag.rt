ghost use Rattle.std.specs.Prelude.{◌≡◌, ℕ, ◌<◌, ◌≤◌, List, [], ◌∷◌, length, option_map};
ghost use Rattle.std.specs.Prelude.{MatchOption, IfSome, IfOk, slice_index};
ghost use Rattle.std.specs.Prelude.{map};
ghost use Rattle.std.specs.List.{list_any, IsAllAdjacentAnswer};
ghost use Rattle.std.specs.Ordering.{is_lt, nat_cmp};
ghost use Rattle.std.specs.Cmp.Lexicographic.{slice_cmp};
ghost use Rattle.element_tree.specs.Bytes.{is_space, is_start, is_open};
ghost use Rattle.element_tree.specs.Tags.{name_at, after_byte, value_in, value_at, attribute_at};
ghost use Rattle.element_tree.specs.Tags.{value_of, are_distinct, is_empty_at, start_tag};
ghost use Rattle.element_tree.specs.Tags.{is_end_tag};
ghost use Rattle.element_tree.specs.Pieces.{pieces};

use crate::bytes::{is_quote, is_space, is_start, len_before, name_len, skip_space};
use preorder::NoMemory;
use std::alloc::Global;

fn first_is_start(bytes: &[u8]) -> bool
    ensures { result ≡ is_start (slice_index bytes.now 0) }
{
    match bytes {
        [first, ..] => is_start(*first),
        [] => false,
    }
}

fn first_is_space(bytes: &[u8]) -> bool
    ensures { result ≡ is_space (slice_index bytes.now 0) }
{
    match bytes {
        [first, ..] => is_space(*first),
        [] => false,
    }
}

// A name, and the bytes after it.
#[tactic(auto, unfolding(crate::specs::Tags::name_at))]
pub fn name_at(bytes: &[u8]) -> Option<(&[u8], &[u8])>
    ensures { option_map (λ x. (x.0.now, x.1.now)) result ≡ name_at bytes.now }
{
    if !first_is_start(bytes) {
        return None;
    }
    Some(bytes.split_at(name_len(bytes)))
}

#[tactic(auto, unfolding(crate::specs::Tags::after_byte))]
fn after_byte(byte: u8, bytes: &[u8]) -> Option<&[u8]>
    ensures { option_map (λ x. x.now) result ≡ after_byte byte bytes.now }
{
    if bytes.is_empty() {
        None
    } else if bytes[0] == byte {
        Some(bytes.split_at(1).1)
    } else {
        None
    }
}

fn has_open(bytes: &[u8]) -> bool
    ensures { result ≡ list_any is_open bytes.now }
{
    bytes.iter().any(|b| *b == b'<')
}

#[tactic(auto, unfolding(crate::specs::Tags::value_in))]
fn value_in(quote: u8, bytes: &[u8]) -> Option<(&[u8], &[u8])>
    ensures { option_map (λ x. (x.0.now, x.1.now)) result ≡ value_in quote bytes.now }
{
    let len = len_before(bytes, quote);
    if len >= bytes.len() {
        return None;
    }
    let (value, rest) = bytes.split_at(len);
    if has_open(value) {
        return None;
    }
    Some((value, rest.split_at(1).1))
}

#[tactic(auto, unfolding(crate::specs::Tags::value_at))]
fn value_at(bytes: &[u8]) -> Option<(&[u8], &[u8])>
    ensures { option_map (λ x. (x.0.now, x.1.now)) result ≡ value_at bytes.now }
{
    if bytes.is_empty() || !is_quote(bytes[0]) {
        return None;
    }
    value_in(bytes[0], bytes.split_at(1).1)
}

#[tactic(auto, unfolding(crate::specs::Tags::attribute_at))]
fn cut_attribute(bytes: &[u8]) -> Option<((&[u8], &[u8]), &[u8])>
    ensures { option_map (λ x. ((x.0.0.now, x.0.1.now), x.1.now)) result
        ≡ attribute_at bytes.now }
{
    if !first_is_space(bytes) {
        return None;
    }
    let (name, rest) = name_at(skip_space(bytes))?;
    let rest = after_byte(b'=', skip_space(rest))?;
    let (value, rest) = value_at(skip_space(rest))?;
    Some(((name, value), rest))
}

// The first attribute and the bytes after it.
#[tactic(auto, using(crate::proofs::Attributes::attributes_at, crate::proofs::Attributes::attributes_none))]
fn attribute_at(bytes: &[u8]) -> Option<((&[u8], &[u8]), &[u8])>
    ensures attributes { MatchOption result (pieces attribute_at bytes.now ≡ ([], bytes.now))
        (λ x. pieces attribute_at bytes.now
        ≡ (
          (x.0.0.now, x.0.1.now) ∷ (pieces attribute_at x.1.now).0,
          (pieces attribute_at x.1.now).1,
        )) }
    ensures shorter { IfSome result (λ x. length x.1.now < length bytes.now) }
{
    cut_attribute(bytes)
}

// The value of the first attribute of this name.
#[tactic(auto, unfolding(crate::specs::Tags::value_of))]
pub fn value_of<'a>(name: &[u8], bytes: &'a [u8]) -> Option<&'a [u8]>
    ensures { option_map (λ x. x.now) result ≡ value_of name.now (pieces attribute_at bytes.now).0 }
{
    let mut rest = bytes;
    while let Some(((found, value), after)) = attribute_at(rest) {
        if found == name {
            return Some(value);
        }
        rest = after;
    }
    None
}

// The names of the attributes, in their order, and what stands behind the attributes.
fn attribute_names(alloc: Global, bytes: &[u8]) -> Result<(Vec<&[u8]>, &[u8]), NoMemory>
    ensures { IfOk result (λ x. (map (λ n. n.now) x.0.items
        ≡ map (λ a. a.0) (pieces attribute_at bytes.now).0)
        × (x.1.now ≡ (pieces attribute_at bytes.now).1)) }
{
    let mut names = Vec::new(alloc);
    let mut rest = bytes;
    while let Some(((name, _), after)) = attribute_at(rest) {
        names.push(name)?;
        rest = after;
    }
    Ok((names, rest))
}

// Whether each name comes before the next.
fn are_rising(names: &[&[u8]]) -> bool
    ensures { IsAllAdjacentAnswer (λ x y b. b ≡ is_lt (slice_cmp nat_cmp x.now y.now)) names.now
        result }
{
    names.is_sorted_by(|name, next| name.cmp(next).is_lt())
}

// Whether no attribute of these names has the name of another: sorted, the same names stand side
// by side.
fn are_distinct(mut names: Vec<&[u8]>) -> bool
    ensures { (attributes : List (List ℕ × List ℕ))
        → map (λ n. n.now) names.entry.items ≡ map (λ a. a.0) attributes
        → result ≡ are_distinct attributes }
{
    names.sort_unstable();
    are_rising(names.as_slice())
}

// The name of a start tag, and whether its element is empty.
#[tactic(auto, unfolding(crate::specs::Tags::start_tag))]
pub fn start_tag(alloc: Global, bytes: &[u8]) -> Result<Option<(&[u8], bool)>, NoMemory>
    requires { 1 ≤ length bytes.now }
    ensures { IfOk result (λ tag. option_map (λ x. (x.0.now, x.1)) tag ≡ start_tag bytes.now) }
{
    let Some((name, rest)) = name_at(bytes.split_at(1).1) else {
        return Ok(None);
    };
    let (names, rest) = attribute_names(alloc, rest)?;
    let Some(empty) = is_empty_at(rest) else {
        return Ok(None);
    };
    if are_distinct(names) {
        Ok(Some((name, empty)))
    } else {
        Ok(None)
    }
}

#[tactic(auto, unfolding(crate::specs::Tags::is_empty_at))]
fn is_empty_at(bytes: &[u8]) -> Option<bool>
    ensures { result ≡ is_empty_at bytes.now }
{
    let rest = skip_space(bytes);
    if rest == b">".as_slice() {
        Some(false)
    } else if rest == b"/>".as_slice() {
        Some(true)
    } else {
        None
    }
}

// Whether these bytes are an end tag of this name.
#[tactic(auto, unfolding(crate::specs::Tags::is_end_tag))]
pub fn is_end_tag(name: &[u8], bytes: &[u8]) -> bool
    ensures { result ≡ is_end_tag name.now bytes.now }
{
    if !bytes.starts_with(b"</") {
        return false;
    }
    match name_at(bytes.split_at(2).1) {
        None => false,
        Some((found, rest)) => found == name && skip_space(rest) == b">".as_slice(),
    }
}

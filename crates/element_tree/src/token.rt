ghost use Rattle.std.specs.Prelude.{◌≡◌, ℕ, ◌+◌, ◌<◌, ◌≤◌, List, [], ◌∷◌, length, take, drop};
ghost use Rattle.std.specs.Prelude.{option_map, MatchOption, IfSome};
ghost use Rattle.element_tree.specs.Tokens.{token_at, cut_token, ended};
ghost use Rattle.element_tree.specs.Pieces.{pieces};
ghost use Rattle.element_tree.specs.Bytes.{len_to_close};

use crate::bytes::{len_before, len_to, len_to_close};

#[derive(Clone, Copy, Debug, PartialEq, Eq)]
pub enum Kind {
    Text,
    Aside,
    End,
    Start,
}

#[tactic(auto, unfolding(crate::specs::Tokens::ended))]
fn ended(kind: Kind, skip: usize, mark: &[u8], bytes: &[u8]) -> Option<(Kind, usize)>
    requires { skip ≤ length bytes.now }
    ensures exact { result ≡ ended kind skip mark.now bytes.now }
    ensures within { IfSome result (λ t. t.1 ≤ length bytes.now) }
{
    let len = len_to(bytes.split_at(skip).1, mark)?;
    Some((kind, skip + len))
}

fn start(bytes: &[u8]) -> Option<(Kind, usize)>
    requires { 1 ≤ length bytes.now }
    ensures exact { result
        ≡ option_map (λ len. (Kind.Start, 1 + len)) (len_to_close None (drop 1 bytes.now)) }
    ensures within { IfSome result (λ t. t.1 ≤ length bytes.now) }
{
    let len = len_to_close(bytes.split_at(1).1)?;
    Some((Kind::Start, 1 + len))
}

// The kind and the length of the first token, if it has its end.
#[tactic(auto, unfolding(crate::specs::Tokens::token_at))]
fn token_at(bytes: &[u8]) -> Option<(Kind, usize)>
    ensures exact { result ≡ token_at bytes.now }
    ensures within { IfSome result (λ t. t.1 ≤ length bytes.now) }
{
    if bytes.is_empty() {
        None
    } else if bytes[0] != b'<' {
        Some((Kind::Text, len_before(bytes, b'<')))
    } else if bytes.starts_with(b"<!--") {
        ended(Kind::Aside, 4, b"-->", bytes)
    } else if bytes.starts_with(b"<!") {
        None
    } else if bytes.starts_with(b"<?") {
        ended(Kind::Aside, 2, b"?>", bytes)
    } else if bytes.starts_with(b"</") {
        ended(Kind::End, 2, b">", bytes)
    } else {
        start(bytes)
    }
}

// The first token and the bytes after it.
#[tactic(auto, unfolding(crate::specs::Tokens::cut_token), using(crate::proofs::Tokens::cut_at, crate::proofs::Tokens::cut_none, crate::proofs::Tokens::token_long))]
pub fn cut_token(bytes: &[u8]) -> Option<(Kind, &[u8], &[u8])>
    ensures tokens { MatchOption result (pieces cut_token bytes.now ≡ ([], bytes.now))
        (λ x. pieces cut_token bytes.now
        ≡ ((x.0, x.1.now) ∷ (pieces cut_token x.2.now).0, (pieces cut_token x.2.now).1)) }
    ensures some { IfSome result (λ x. 0 < length x.1.now) }
    ensures whole { IfSome result (λ x. length x.1.now + length x.2.now ≡ length bytes.now) }
{
    let (kind, len) = token_at(bytes)?;
    let (token, rest) = bytes.split_at(len);
    Some((kind, token, rest))
}

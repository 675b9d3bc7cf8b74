ghost use Rattle.std.specs.Prelude.{◌≡◌, ◌↔◌, ◌<◌, ◌≤◌, length, take, IsTrue, IsSome, IfSome};
ghost use Rattle.std.specs.List.{list_all};
ghost use Rattle.preorder.specs.Name.{is_letter, is_name_byte, is_name};

use crate::limits::MAX_NAME;
use std::marker::Model;

/// A name: 1 to `MAX_NAME` bytes, the first an ASCII letter or `_`, the others ASCII letters,
/// digits or `_`.
#[derive(Clone, Copy)]
pub struct Name {
    bytes: [u8; MAX_NAME],
    len: usize,
}

impl Model for Name {
    ghost use Rattle.std.specs.Prelude.{◌≡◌, List, ℕ, length, take};
    ghost use Rattle.preorder.specs.Name.{filled};

    ghost Value = { List ℕ };

    ghost use Rattle.preorder.specs.NameInside.{IsWhole, same_inside};

    ghost view = { λ n. take n.len n.bytes };

    ghost invariant = { IsWhole };

    ghost inverse = { λ text. record { bytes = filled text; len = length text } };

    ghost inverse_ok = { same_inside };
}

fn is_letter(byte: u8) -> bool
    ensures { result ≡ is_letter byte }
{
    byte.is_ascii_alphabetic() || byte == b'_'
}

fn is_name_byte(byte: u8) -> bool
    ensures { result ≡ is_name_byte byte }
{
    is_letter(byte) || byte.is_ascii_digit()
}

fn has_name_bytes(text: &[u8]) -> bool
    ensures { result ≡ list_all is_name_byte text.now }
{
    text.iter().all(|byte| is_name_byte(*byte))
}

#[tactic(auto, unfolding(crate::specs::Name::is_name))]
fn is_name(text: &[u8]) -> bool
    ensures exact { result ≡ is_name text.now }
    ensures short { IsTrue result → length text.now ≤ MAX_NAME }
{
    0 < text.len() && text.len() <= MAX_NAME && is_letter(text[0]) && has_name_bytes(text)
}

impl Name {
    /// The name with these bytes. None where they are no name.
    pub fn new(text: &[u8]) -> Option<Name>
        ensures name { IsSome result ↔ IsTrue (is_name text.now) }
        ensures value { IfSome result (λ name. name ≡ text.now) }
    {
        if !is_name(text) {
            return None;
        }
        let mut bytes = [0; MAX_NAME];
        let len = text.len();
        bytes[..len].copy_from_slice(text);
        Some(Name { bytes, len })
    }

    /// Its bytes.
    pub fn as_slice(&self) -> &[u8]
        ensures value { result.now ≡ self.now }
        ensures name { IsTrue (is_name self.now) }
    {
        &self.bytes[..self.len]
    }
}

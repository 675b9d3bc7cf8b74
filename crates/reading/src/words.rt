ghost use Rattle.std.specs.Prelude.{◌≡◌, min, map, IfOk, option_map, ◌+◌, ◌^◌, ◌≤◌};
ghost use Rattle.reading.specs.Words.{words, number_of};

use std::alloc::{AllocError, Global};

/// The words of a line, in order. Spaces and tabs stand between them.
pub fn words_of(alloc: Global, line: &[u8]) -> Result<Vec<&[u8]>, AllocError>
    ensures { IfOk result (λ v. map (λ w. w.now) v.items ≡ words line.now) }
{
    line.split(|b| *b == b' ' || *b == b'\t')
        .filter(|word| !word.is_empty())
        .collect(alloc)
}

/// More than any number that a file may hold.
pub const PAST: u64 = 1_000_000_000_000_000_001;

/// The number that a word of digits is, where `PAST` stands for each number beyond it. None where
/// the word is empty or has a byte that is no digit.
#[tactic(auto, unfolding(crate::specs::Words::number_of))]
pub fn number_in(word: &[u8]) -> Option<u64>
    ensures { result ≡ option_map (λ n. min n PAST) (number_of word.now) }
{
    if word.is_empty() {
        return None;
    }
    let mut value = 0;
    for b in word {
        if !b.is_ascii_digit() {
            return None;
        }
        value = (value * 10 + u64::from(*b - b'0')).min(PAST);
    }
    Some(value)
}

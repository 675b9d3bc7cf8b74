ghost use Rattle.std.specs.Prelude.{◌≡◌, ◌+◌, ◌<◌, ◌≤◌, ℕ, List, not, length};
ghost use Rattle.std.specs.List.{position};
ghost use Rattle.std.specs.Fmt.{decimal};
ghost use Rattle.rule_language.specs.Bytes.{is_zero_digit};
ghost use Rattle.rule_language.specs.Parts.{without_zeros, part_fits, kind_of};

use expressions::{Expr, MAX_BRACKETS, MAX_LINE, decimal_len, nesting, written_len};
use preorder::Name;

/// A weighted part of a rule. What it measures counts at each step, or where it is final once at
/// the end.
#[derive(Drop)]
pub struct Part {
    /// From 1 to `MAX_WEIGHT` in a well-formed book.
    pub weight: u64,
    /// What it measures.
    pub expr: Expr,
    /// Whether it counts once at the end.
    pub at_end: bool,
}

fn first_other(digits: &[u8]) -> Option<usize>
    ensures { result ≡ position (λ b. not (is_zero_digit b)) digits.now }
{
    digits.iter().position(|b| *b != b'0')
}

// Digits without the zeros before them.
#[tactic(auto, unfolding(crate::specs::Parts::without_zeros), using(crate::proofs::Zeros::rest_of))]
pub fn without_zeros(digits: &[u8]) -> &[u8]
    ensures { result.now ≡ without_zeros digits.now }
{
    match first_other(digits) {
        Some(at) => &digits[at..],
        None => b"0",
    }
}

fn kind_len(at_end: bool) -> usize
    ensures { result ≡ length (kind_of at_end) }
{
    if at_end { 5 } else { 4 }
}

// Whether the line of a part fits, by the length of its weight in decimal.
#[tactic(auto, unfolding(crate::specs::Parts::part_fits))]
pub fn line_fits(at_end: bool, name: &Name, weight_len: usize, expr: &Expr) -> bool
    ensures { (weight : List ℕ) → length weight ≡ weight_len
        → result ≡ part_fits at_end name.now weight expr.now }
{
    weight_len <= MAX_LINE
        && kind_len(at_end) + name.as_slice().len() + weight_len + written_len(expr) + 3 <= MAX_LINE
        && nesting(expr) <= MAX_BRACKETS
}

/// Whether the written line of this part of a rule of that name has at most `MAX_LINE` bytes and at
/// most `MAX_BRACKETS` brackets inside each other.
pub fn written_fits(name: &Name, part: &Part) -> bool
    ensures { result ≡ part_fits part.now.at_end name.now (decimal part.now.weight) part.now.expr }
{
    line_fits(part.at_end, name, decimal_len(part.weight), &part.expr)
}

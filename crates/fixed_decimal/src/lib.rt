//! Decimals in texts, as whole numbers of a unit that is a power of ten.
//! The layers above use `parse_fixed` by its clause `exact`: the answer is `fixed` of the text.
//! Definitions: the grammar in specs/Decimals, values in Rounding, `fixed` in Reading and Answers.
#![tactic(auto)]

mod digits;
mod limits;
mod parts;
mod rounding;

ghost use Rattle.std.specs.Prelude.{◌≡◌, ◌≤◌, ◌++◌, length, unsigned_abs, IfOk};
ghost use Rattle.fixed_decimal.specs.Decimals.{Decimal, Spells};
ghost use Rattle.fixed_decimal.specs.Rounding.{number, power, IsRounded};
ghost use Rattle.fixed_decimal.specs.Answers.{fixed, rounded, IsAnswer};

pub use limits::{MAX_BYTES, MAX_EXPONENT, MAX_PLACES, MAX_VALUE};
use parts::split;
use rounding::rounded;

/// Why a text is no number of the unit: the first of these that holds.
#[derive(Clone, Copy, Debug, PartialEq, Eq)]
pub enum DecimalFault {
    /// The text has more than `MAX_BYTES` bytes.
    TooLong,
    /// The text is no decimal: it has not the form that `parse_fixed` reads.
    Malformed,
    /// The exponent's size is over `MAX_EXPONENT`, or the rounded value's size over `MAX_VALUE`.
    OutOfRange,
}

// The answer by its definition alone: what else is promised of it follows from that.
#[tactic(auto, unfolding(crate::specs::Answers::fixed))]
fn fixed(text: &[u8], places: u8) -> Result<i64, DecimalFault>
    ensures { result ≡ fixed text.now places }
{
    if text.len() > MAX_BYTES {
        return Err(DecimalFault::TooLong);
    }
    match split(text) {
        None => Err(DecimalFault::Malformed),
        Some(parts) => rounded(parts, places),
    }
}

/// The value of the text in units of 10^-places, rounded to the nearest whole number, halves away
/// from 0. It is at most `MAX_VALUE` in size.
///
/// The text is `[+|-] digits [. digits] [e|E [+|-] digits]`, where the digits before and after the
/// point may be missing, but not both. Digits are `0` to `9`. There are at most `MAX_PLACES`
/// places.
///
/// It fails with `TooLong` where the text has more than `MAX_BYTES` bytes; else with `Malformed`
/// where it is no decimal; else with `OutOfRange` where the exponent is over `MAX_EXPONENT` in
/// size, or the value, once rounded, over `MAX_VALUE`.
pub fn parse_fixed(text: &[u8], places: u8) -> Result<i64, DecimalFault>
    requires { places ≤ MAX_PLACES }
    ensures exact { result ≡ fixed text.now places }
    ensures decimal { length text.now ≤ MAX_BYTES → (d : Decimal) → Spells text.now d
        → result ≡ rounded d places }
    ensures answer { IsAnswer text.now places result }
    ensures nearest { IfOk result (λ n. (d : Decimal) → Spells text.now d
        → IsRounded (number (d.whole_part ++ d.fraction)) (power d places) (unsigned_abs n)) }
    ensures range { IfOk result (λ n. unsigned_abs n ≤ MAX_VALUE) }
{
    fixed(text, places)
}

ghost use Rattle.std.specs.Prelude.{◌≡◌, ◌≤◌, ◌+◌, ◌+ℤ◌, ◌-ℤ◌, pos, unsigned_abs, length};
ghost use Rattle.fixed_decimal.specs.Decimals.{IsDigits};
ghost use Rattle.fixed_decimal.specs.Parts.{as_decimal, IsShort};
ghost use Rattle.fixed_decimal.specs.Rounding.{number, signed, power, size, IsCapped};
ghost use Rattle.fixed_decimal.specs.Answers.{rounded};
ghost use Rattle.fixed_decimal.specs.declared.limits.TheConstants.{MAX_BYTES, MAX_VALUE};

use crate::DecimalFault;
use crate::digits::{Digits, whole_number};
use crate::limits::MAX_EXPONENT;
use crate::parts::Parts;

// The number of this size and sign.
fn signed(negative: bool, size: u64) -> i64
    requires { size ≤ MAX_VALUE }
    ensures value { result ≡ signed negative size }
    ensures size { unsigned_abs result ≡ size }
{
    if negative {
        -(size as i64)
    } else {
        size as i64
    }
}

// The power less this many.
fn less(power: i64, count: usize) -> i64
    requires power { unsigned_abs power ≤ MAX_EXPONENT }
    requires count { count ≤ MAX_BYTES }
    ensures value { result ≡ power -ℤ pos count }
    ensures size { unsigned_abs result ≤ MAX_EXPONENT + MAX_BYTES }
{
    power - count as i64
}

// The power and this many.
fn more(power: i64, count: u8) -> i64
    requires { unsigned_abs power ≤ MAX_EXPONENT + MAX_BYTES }
    ensures { result ≡ power +ℤ pos count }
{
    power + i64::from(count)
}

// The exponent's size, None where it is too large.
fn exponent_size(digits: &[u8]) -> Option<u64>
    requires digits { IsDigits digits.now }
    requires short { length digits.now ≤ MAX_BYTES }
    ensures { IsCapped MAX_EXPONENT (number digits.now) result }
{
    match whole_number(digits) {
        Some(size) if size <= MAX_EXPONENT => Some(size),
        _ => None,
    }
}

// The power of 10 by which all digits as one number count.
#[tactic(auto, unfolding(crate::specs::Rounding::power))]
fn power(parts: Parts<'_>, exponent: u64, places: u8) -> i64
    requires parts { IsShort (as_decimal parts) }
    requires exponent { exponent ≡ number parts.exponent.now }
    requires limit { exponent ≤ MAX_EXPONENT }
    ensures { result ≡ power (as_decimal parts.entry) places }
{
    let written = signed(parts.exponent_negative, exponent);
    more(less(written, parts.fraction.len()), places)
}

// The size of the value.
#[tactic(auto, unfolding(crate::specs::Rounding::size, crate::specs::Parts::all_digits))]
fn size(parts: Parts<'_>, exponent: u64, places: u8) -> Option<u64>
    requires parts { IsShort (as_decimal parts) }
    requires exponent { exponent ≡ number parts.exponent.now }
    requires limit { exponent ≤ MAX_EXPONENT }
    ensures { IsCapped MAX_VALUE (size (as_decimal parts.entry) places) result }
{
    let digits = Digits {
        front: parts.whole_part,
        back: parts.fraction,
    };
    digits.scaled(power(parts, exponent, places))
}

// The answer to a decimal.
#[tactic(auto, unfolding(crate::specs::Answers::rounded, crate::specs::Answers::is_out_of_range, crate::specs::Rounding::value))]
pub fn rounded(parts: Parts<'_>, places: u8) -> Result<i64, DecimalFault>
    requires { IsShort (as_decimal parts) }
    ensures { result ≡ rounded (as_decimal parts.entry) places }
{
    match exponent_size(parts.exponent) {
        None => Err(DecimalFault::OutOfRange),
        Some(exponent) => match size(parts, exponent, places) {
            None => Err(DecimalFault::OutOfRange),
            Some(size) => Ok(signed(parts.negative, size)),
        },
    }
}

ghost use Rattle.std.specs.Prelude.{◌≡◌, not, ◌&&◌, true, false, length, take_while, MatchOption};
ghost use Rattle.std.specs.List.{list_all};
ghost use Rattle.std.specs.Char.{is_ascii_digit};
ghost use Rattle.fixed_decimal.specs.Parts.{as_decimal};
ghost use Rattle.fixed_decimal.specs.Reading.{first_digits, after_digits, is_negative, unsigned};
ghost use Rattle.fixed_decimal.specs.Reading.{fraction, after_fraction};
ghost use Rattle.fixed_decimal.specs.Reading.{is_number, is_exponent, exponent_negative, exponent};
ghost use Rattle.fixed_decimal.specs.Reading.{lacks_digits, is_decimal, decimal_of};

// The parts of a decimal in its text. The exponent is empty where none is written.
#[derive(Clone, Copy)]
pub struct Parts<'a> {
    pub negative: bool,
    pub whole_part: &'a [u8],
    pub fraction: &'a [u8],
    pub exponent_negative: bool,
    pub exponent: &'a [u8],
}

// How many digits the text begins with.
fn digit_count(text: &[u8]) -> usize
    ensures { result ≡ length (take_while is_ascii_digit text.now) }
{
    text.iter().take_while(|b| b.is_ascii_digit()).count()
}

#[tactic(auto, unfolding(crate::specs::Reading::first_digits), using(crate::proofs::Scanning::counted))]
fn first_digits(text: &[u8]) -> &[u8]
    ensures { result.now ≡ first_digits text.now }
{
    &text[..digit_count(text)]
}

#[tactic(auto, unfolding(crate::specs::Reading::after_digits), using(crate::proofs::Scanning::counted))]
fn after_digits(text: &[u8]) -> &[u8]
    ensures { result.now ≡ after_digits text.now }
{
    &text[digit_count(text)..]
}

#[tactic(auto, unfolding(crate::specs::Reading::is_negative))]
fn is_negative(text: &[u8]) -> bool
    ensures { result ≡ is_negative text.now }
{
    match text {
        [first, _rest @ ..] => *first == b'-',
        [] => false,
    }
}

#[tactic(auto, unfolding(crate::specs::Reading::unsigned))]
fn unsigned(text: &[u8]) -> &[u8]
    ensures { result.now ≡ unsigned text.now }
{
    match text {
        [first, rest @ ..] if *first == b'+' || *first == b'-' => rest,
        _ => text,
    }
}

#[tactic(auto, unfolding(crate::specs::Reading::fraction))]
fn fraction(text: &[u8]) -> &[u8]
    ensures { result.now ≡ fraction text.now }
{
    match text {
        [first, rest @ ..] if *first == b'.' => first_digits(rest),
        _ => &[],
    }
}

#[tactic(auto, unfolding(crate::specs::Reading::after_fraction))]
fn after_fraction(text: &[u8]) -> &[u8]
    ensures { result.now ≡ after_fraction text.now }
{
    match text {
        [first, rest @ ..] if *first == b'.' => after_digits(rest),
        _ => text,
    }
}

fn are_digits(text: &[u8]) -> bool
    ensures { result ≡ list_all is_ascii_digit text.now }
{
    text.iter().all(|b| b.is_ascii_digit())
}

#[tactic(auto, unfolding(crate::specs::Reading::is_number))]
fn is_number(digits: &[u8]) -> bool
    ensures { result ≡ is_number digits.now }
{
    !digits.is_empty() && are_digits(digits)
}

#[tactic(auto, unfolding(crate::specs::Reading::is_exponent))]
fn is_exponent(text: &[u8]) -> bool
    ensures { result ≡ is_exponent text.now }
{
    match text {
        [] => true,
        [first, rest @ ..] => (*first == b'e' || *first == b'E') && is_number(unsigned(rest)),
    }
}

#[tactic(auto, unfolding(crate::specs::Reading::exponent_negative))]
fn exponent_negative(text: &[u8]) -> bool
    ensures { result ≡ exponent_negative text.now }
{
    match text {
        [_first, rest @ ..] => is_negative(rest),
        [] => false,
    }
}

#[tactic(auto, unfolding(crate::specs::Reading::exponent))]
fn exponent(text: &[u8]) -> &[u8]
    ensures { result.now ≡ exponent text.now }
{
    match text {
        [_first, rest @ ..] => unsigned(rest),
        [] => text,
    }
}

// Whether there is no digit before the point and none after it.
fn lacks_digits(before: &[u8], after: &[u8]) -> bool
    ensures { result ≡ lacks_digits before.now after.now }
{
    before.is_empty() && after.is_empty()
}

// Whether a text is a decimal, by its digits before and after the point and by what follows them.
fn are_parts(whole_part: &[u8], fraction: &[u8], tail: &[u8]) -> bool
    ensures { result ≡ (not (lacks_digits whole_part.now fraction.now) && is_exponent tail.now) }
{
    !lacks_digits(whole_part, fraction) && is_exponent(tail)
}

// The parts of a decimal, None where the text is no decimal.
#[tactic(auto, unfolding(crate::specs::Reading::is_decimal, crate::specs::Reading::decimal_of, crate::specs::Reading::after_whole, crate::specs::Reading::exponent_part))]
pub fn split(text: &[u8]) -> Option<Parts<'_>>
    ensures { MatchOption result (is_decimal text.now ≡ false)
        (λ p. (is_decimal text.now ≡ true) × (as_decimal p ≡ decimal_of text.now)) }
{
    let mantissa = unsigned(text);
    let whole_part = first_digits(mantissa);
    let behind = after_digits(mantissa);
    let fraction = fraction(behind);
    let tail = after_fraction(behind);
    if !are_parts(whole_part, fraction, tail) {
        return None;
    }
    Some(Parts {
        negative: is_negative(text),
        whole_part,
        fraction,
        exponent_negative: exponent_negative(tail),
        exponent: exponent(tail),
    })
}

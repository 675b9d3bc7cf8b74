ghost use Rattle.std.specs.Prelude.{◌≡◌, ◌<◌, ◌≤◌, ◌-◌, ◌*◌, ◌^◌, pos, neg_ℤ};
ghost use Rattle.std.specs.Prelude.{length, take, slice_index};
ghost use Rattle.fixed_decimal.specs.Bytes.{zero_digit};
ghost use Rattle.fixed_decimal.specs.Decimals.{IsDigits};
ghost use Rattle.fixed_decimal.specs.Parts.{all_digits, IsNumeral};
ghost use Rattle.fixed_decimal.specs.Rounding.{number, scaled, IsCapped};
ghost use Rattle.fixed_decimal.specs.declared.limits.TheConstants.{MAX_BYTES};

use crate::limits::MAX_VALUE;

// Digits in two pieces, one behind the other.
#[derive(Clone, Copy)]
pub struct Digits<'a> {
    pub front: &'a [u8],
    pub back: &'a [u8],
}

// The value with this many zeros behind it.
fn with_zeros(value: u64, zeros: usize) -> Option<u64>
    requires { value ≤ MAX_VALUE }
    ensures { IsCapped MAX_VALUE (value * 10 ^ zeros) result }
{
    if value == 0 {
        return Some(0);
    }
    let mut shifted = value;
    for _i in 0..zeros {
        if shifted > MAX_VALUE / 10 {
            return None;
        }
        shifted *= 10;
    }
    Some(shifted)
}

impl Digits<'_> {
    #[tactic(auto, unfolding(crate::specs::Parts::all_digits))]
    fn count(self) -> usize
        requires { IsNumeral self }
        ensures { result ≡ length (all_digits self.entry) }
    {
        self.front.len() + self.back.len()
    }

    #[tactic(auto, unfolding(crate::specs::Parts::all_digits))]
    fn at(self, index: usize) -> u8
        requires index { index < length (all_digits self) }
        requires digits { IsNumeral self }
        ensures value { result ≡ slice_index (all_digits self.entry) index - zero_digit }
        ensures small { result < 10 }
    {
        if index < self.front.len() {
            self.front[index] - b'0'
        } else {
            self.back[index - self.front.len()] - b'0'
        }
    }

    // The number of the first digits.
    #[tactic(auto, using(crate::proofs::Numbers::number_more, crate::proofs::Numbers::number_front))]
    fn leading(self, count: usize) -> Option<u64>
        requires count { count ≤ length (all_digits self) }
        requires digits { IsNumeral self }
        ensures { IsCapped MAX_VALUE (number (take count (all_digits self.entry))) result }
    {
        let mut value: u64 = 0;
        for i in 0..count {
            value = value * 10 + u64::from(self.at(i));
            if value > MAX_VALUE {
                return None;
            }
        }
        Some(value)
    }

    // The number of the digits with the last ones cut off, rounded, halves up.
    fn cut(self, last: usize) -> Option<u64>
        requires last { 0 < last }
        requires digits { IsNumeral self }
        ensures { IsCapped MAX_VALUE (scaled (number (all_digits self.entry)) (neg_ℤ (pos last)))
            result }
    {
        let count = self.count();
        if last > count {
            return Some(0);
        }
        let kept = count - last;
        match self.leading(kept) {
            None => None,
            Some(value) => {
                if self.at(kept) < 5 {
                    return Some(value);
                }
                if value == MAX_VALUE {
                    return None;
                }
                Some(value + 1)
            }
        }
    }

    // The number of the digits with zeros behind them.
    fn extended(self, zeros: usize) -> Option<u64>
        requires { IsNumeral self }
        ensures { IsCapped MAX_VALUE (scaled (number (all_digits self.entry)) (pos zeros)) result }
    {
        match self.leading(self.count()) {
            None => None,
            Some(value) => with_zeros(value, zeros),
        }
    }

    // The number of the digits times 10 to the power, rounded, halves up.
    pub fn scaled(self, power: i64) -> Option<u64>
        requires { IsNumeral self }
        ensures { IsCapped MAX_VALUE (scaled (number (all_digits self.entry)) power) result }
    {
        let size = power.unsigned_abs() as usize;
        if power < 0 {
            self.cut(size)
        } else {
            self.extended(size)
        }
    }
}

// The number of all digits.
pub fn whole_number(digits: &[u8]) -> Option<u64>
    requires digits { IsDigits digits.now }
    requires short { length digits.now ≤ MAX_BYTES }
    ensures { IsCapped MAX_VALUE (number digits.now) result }
{
    let alone = Digits {
        front: digits,
        back: &[],
    };
    alone.leading(digits.len())
}

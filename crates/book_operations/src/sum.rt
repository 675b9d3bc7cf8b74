ghost use Rattle.std.specs.Prelude.{◌≡◌, ◌/◌};
ghost use Rattle.std.specs.Option.{option_map};
ghost use Rattle.book_operations.specs.Summing.{after_summand, sums_up};

use crate::images::is_new;
use crate::same::are_times;
use rule_language::{Part, Rule};

fn quotient(a: u64, b: u64) -> u64
    ensures { result ≡ a / b }
{
    a.checked_div(b).unwrap_or(0)
}

// The parts after those that are the summand's, in order, with the weights times a number of at
// least 1.
fn after_summand<'a>(summand: &[Part], parts: &'a [Part]) -> Option<&'a [Part]>
    ensures { option_map (λ x. x.now) result ≡ after_summand summand.now parts.now }
{
    let (Some(part), Some(other)) = (summand.first(), parts.first()) else {
        return None;
    };
    let times = quotient(other.weight, part.weight);
    let count = summand.len();
    if times >= 1 && count <= parts.len() && are_times(times, summand, &parts[..count]) {
        Some(&parts[count..])
    } else {
        None
    }
}

/// Whether the parts are a sum of the rules whose names the others lack: in order the parts of
/// each, of which there is at least one, with their weights times one number of at least 1.
pub fn sums_up(others: &[Rule], rules: &[Rule], parts: &[Part]) -> bool
    ensures { result ≡ sums_up others.now rules.now parts.now }
{
    match rules {
        [] => parts.is_empty(),
        [rule, rules @ ..] if is_new(others, rule) => {
            match after_summand(rule.parts.as_slice(), parts) {
                Some(rest) => sums_up(others, rules, rest),
                None => false,
            }
        }
        [_rule, rules @ ..] => sums_up(others, rules, parts),
    }
}

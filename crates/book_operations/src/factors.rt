ghost use Rattle.std.specs.Prelude.{◌≡◌, ◌≤◌, IsTrue, IfSome, map};
ghost use Rattle.std.specs.Option.{unwrap_or};
ghost use Rattle.std.specs.Str.{bytes_eq};
ghost use Rattle.rule_language.specs.declared.limits.TheConstants.{MAX_WEIGHT as LARGEST};
ghost use Rattle.book_operations.specs.Merging.{weight_in, factor_in, are_factors, are_known};
ghost use Rattle.book_operations.specs.Merging.{is_weight, are_weights, is_merged};

use crate::images::place_of;
use preorder::Name;
use reading::number_in;
use rule_language::{MAX_WEIGHT, Rule};

fn same_word(word: &[u8], other: &[u8]) -> bool
    ensures { result ≡ bytes_eq word.now other.now }
{
    word == other
}

/// By what the words `W1 A1 W2 A2 ..` multiply the rule of this name.
pub fn factor_in(words: &[&[u8]], name: &[u8]) -> Option<u64>
    ensures { result ≡ factor_in (map (λ w. w.now) words.now) name.now }
{
    match words {
        [weight, other, _words @ ..] if same_word(other, name) => number_in(weight),
        [_weight, _other, words @ ..] => factor_in(words, name),
        _ => None,
    }
}

/// Whether the words are weights and names in turn, and no name stands twice.
pub fn are_factors(words: &[&[u8]]) -> bool
    ensures { result ≡ are_factors (map (λ w. w.now) words.now) }
{
    match words {
        [] => true,
        [_weight] => false,
        [weight, name, words @ ..] => {
            number_in(weight).is_some()
                && Name::new(name).is_some()
                && factor_in(words, name).is_none()
                && are_factors(words)
        }
    }
}

/// Whether each name is that of a rule.
pub fn are_known(rules: &[Rule], words: &[&[u8]]) -> bool
    ensures { result ≡ are_known rules.now (map (λ w. w.now) words.now) }
{
    match words {
        [_weight, name, words @ ..] => place_of(rules, name).is_some() && are_known(rules, words),
        _ => true,
    }
}

/// Whether it is from 1 to `MAX_WEIGHT`.
pub fn is_weight(weight: u64) -> bool
    ensures { result ≡ is_weight weight }
{
    1 <= weight && weight <= MAX_WEIGHT
}

fn weight_or_none(word: &[u8]) -> u64
    ensures { result ≡ unwrap_or (weight_in word.now) 0 }
{
    number_in(word).unwrap_or(0)
}

/// Whether each weight is from 1 to `MAX_WEIGHT`.
pub fn are_weights(words: &[&[u8]]) -> bool
    ensures { result ≡ are_weights (map (λ w. w.now) words.now) }
{
    match words {
        [weight, _name, words @ ..] => is_weight(weight_or_none(weight)) && are_weights(words),
        _ => true,
    }
}

/// The factor of the rule of this name, which is not too large where no weight is.
pub fn small_factor(words: &[&[u8]], name: &[u8]) -> Option<u64>
    requires { IsTrue (are_weights (map (λ w. w.now) words.now)) }
    ensures small { IfSome result (λ times. times ≤ LARGEST) }
    ensures exact { result ≡ factor_in (map (λ w. w.now) words.now) name.now }
{
    factor_in(words, name)
}

/// Whether the words name the rule.
pub fn is_merged(words: &[&[u8]], rule: &Rule) -> bool
    ensures { result ≡ is_merged (map (λ w. w.now) words.now) rule.now }
{
    factor_in(words, rule.name.as_slice()).is_some()
}

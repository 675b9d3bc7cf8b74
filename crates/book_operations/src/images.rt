ghost use Rattle.std.specs.Prelude.{◌≡◌, ◌<◌, ◌≤◌, ℕ, not, length, IfSome, IfOk, IfErr, OnOk};
ghost use Rattle.std.specs.List.{position};
ghost use Rattle.rule_language.specs.Books.{place_of};
ghost use Rattle.book_operations.specs.Images.{HasEqual, IsNew, is_new, AreImages, LacksEqual};
ghost use Rattle.book_operations.specs.Images.{HasNewName};
ghost use Rattle.book_operations.specs.Same.{has_equal};

use crate::fault::DeriveFault;
use crate::same::has_equal;
use preorder::{List, NoMemory};
use rule_language::{Named, Rule};
use std::alloc::Global;

/// The place of the rule of this name.
#[tactic(auto, unfolding(rule_language::specs::Books::place_of))]
pub fn place_of(rules: &[Rule], name: &[u8]) -> Option<usize>
    ensures inside { IfSome result (λ i. i < length rules.now) }
    ensures exact { result ≡ place_of name.now rules.now }
{
    rules.iter().position(|rule| rule.is_named(name))
}

/// Whether none of the others has the rule's name.
pub fn is_new(others: &[Rule], rule: &Rule) -> bool
    ensures { result ≡ is_new others.now rule.now }
{
    place_of(others, rule.name.as_slice()).is_none()
}

/// The first rule whose name the others lack.
pub fn first_new(rules: &[Rule], others: &[Rule]) -> Option<usize>
    ensures inside { IfSome result (λ i. i < length rules.now) }
    ensures exact { result ≡ position (is_new others.now) rules.now }
{
    rules.iter().position(|rule| is_new(others, rule))
}

fn first_unequal(rules: &[Rule], others: &[Rule]) -> Option<usize>
    ensures inside { IfSome result (λ i. i < length rules.now) }
    ensures exact { result ≡ position (λ rule. not (has_equal others.now rule)) rules.now }
{
    rules.iter().position(|rule| !has_equal(others, rule))
}

/// Whether each rule is one of the others, with name and parts.
pub fn keep_rules(rules: &[Rule], others: &[Rule]) -> Result<(), DeriveFault>
    ensures ok { OnOk result ((r : ℕ) → r < length rules.now → HasEqual rules.now others.now r) }
    ensures err { IfErr result (LacksEqual rules.now others.now) }
{
    match first_unequal(rules, others) {
        Some(place) => Err(DeriveFault::RulesDiffer(rules[place].name)),
        None => Ok(()),
    }
}

/// Whether each rule's name is that of one of the others.
pub fn keep_names(rules: &[Rule], others: &[Rule]) -> Result<(), DeriveFault>
    ensures ok { OnOk result ((r : ℕ) → r < length rules.now → ¬ IsNew rules.now others.now r) }
    ensures err { IfErr result (HasNewName rules.now others.now) }
{
    match first_new(rules, others) {
        Some(place) => Err(DeriveFault::RulesDiffer(rules[place].name)),
        None => Ok(()),
    }
}

/// What each rule becomes among the others: the rule of its name, or where they lack it the first
/// with a new name.
pub fn images_of(alloc: Global, rules: &[Rule], others: &[Rule]) -> Result<List<usize>, NoMemory>
    requires some { 1 ≤ length others.now }
    ensures { IfOk result (AreImages rules.now others.now) }
{
    let new = first_new(others, rules).unwrap_or(0);
    let mut images = List::new(alloc);
    for rule in rules {
        images.push(place_of(others, rule.name.as_slice()).unwrap_or(new))?;
    }
    Ok(images)
}

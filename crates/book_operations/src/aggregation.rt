ghost use Rattle.std.specs.Prelude.{◌≡◌, ℕ, ◌<◌, ◌≤◌, ◌&&◌, List, not, length, IfSome, IfOk, IfErr};
ghost use Rattle.std.specs.Prelude.{OnOk, MatchOption, IsTrue};
ghost use Rattle.std.specs.List.{position};
ghost use Rattle.std.specs.Option.{unwrap_or};
ghost use Rattle.preorder.specs.Preorder.{rules_of, same};
ghost use Rattle.rule_language.specs.Books.{IsBook};
ghost use Rattle.book_operations.specs.First.{IsFirst};
ghost use Rattle.book_operations.specs.Images.{IsNew, is_new};
ghost use Rattle.book_operations.specs.Same.{has_equal};
ghost use Rattle.book_operations.specs.Aggregation.{MergesRules, DiffersInRules, MergedAreOneClass};
ghost use Rattle.book_operations.specs.Aggregation.{SplitsClass, IsSumBy, IsNoSum, IsAggregation};
ghost use Rattle.book_operations.specs.Aggregation.{IsAggregationFault};
ghost use Rattle.book_operations.specs.Measures.{CarriesMeasured};
ghost use Rattle.book_operations.specs.Tests.{KeepsPreferencesOf, ShowsLoss};

use crate::fault::DeriveFault;
use crate::images::{first_new, images_of, is_new};
use crate::refinement::keep_pairs;
use crate::same::has_equal;
use crate::sum::sums_up;
use preorder::Preorder;
use rule_language::{Book, Rule};
use std::alloc::Global;

// The first rule after this one whose name the others lack.
fn next_new(rules: &[Rule], others: &[Rule], after: usize) -> Option<usize>
    requires { after < length rules.now }
    ensures { MatchOption result
        ((k : ℕ) → after < k → k < length rules.now → ¬ IsNew rules.now others.now k)
        (IsFirst (length rules.now) (λ k. (after < k) × IsNew rules.now others.now k)) }
{
    for next in after + 1..rules.len() {
        if is_new(others, &rules[next]) {
            return Some(next);
        }
    }
    None
}

// The first rule that has its name among the others, with other parts.
fn first_changed(rules: &[Rule], others: &[Rule]) -> Option<usize>
    ensures inside { IfSome result (λ i. i < length rules.now) }
    ensures exact { result ≡ position (λ rule. not (is_new others.now rule)
        && not (has_equal others.now rule)) rules.now }
{
    rules
        .iter()
        .position(|rule| !is_new(others, rule) && !has_equal(others, rule))
}

// The place of the first merged rule and that of the new rule, where the rules differ as those of a
// merge do.
fn merged_and_new(rules: &[Rule], others: &[Rule]) -> Result<(usize, usize), DeriveFault>
    requires some { 1 ≤ length rules.now }
    ensures ok { OnOk result (MergesRules rules.now others.now) }
    ensures merged { IfOk result (λ pair. IsFirst (length rules.now)
        (IsNew rules.now others.now) pair.0) }
    ensures inside { IfOk result (λ pair. pair.1 < length others.now) }
    ensures new { IfOk result (λ pair. pair.1 ≡ unwrap_or
        (position (is_new rules.now) others.now) 0) }
    ensures err { IfErr result (DiffersInRules rules.now others.now) }
{
    let Some(merged) = first_new(rules, others) else {
        return Err(DeriveFault::RulesDiffer(rules[0].name));
    };
    let Some(new) = first_new(others, rules) else {
        return Err(DeriveFault::RulesDiffer(rules[merged].name));
    };
    let Some(_other) = next_new(rules, others, merged) else {
        return Err(DeriveFault::RulesDiffer(rules[merged].name));
    };
    if let Some(second) = next_new(others, rules, new) {
        return Err(DeriveFault::RulesDiffer(others[second].name));
    }
    if let Some(changed) = first_changed(rules, others) {
        return Err(DeriveFault::RulesDiffer(rules[changed].name));
    }
    Ok((merged, new))
}

// The first rule after this one whose name the others lack and that is not the same.
fn first_apart(order: &Preorder, rules: &[Rule], others: &[Rule], merged: usize) -> Option<usize>
    requires width { rules_of order.now ≡ length rules.now }
    requires merged { merged < length rules.now }
    ensures { MatchOption result
        ((k : ℕ) → merged < k → k < length rules.now → IsNew rules.now others.now k
        → IsTrue (same order.now merged k))
        (IsFirst (length rules.now) (λ k. (merged < k) × IsNew rules.now others.now k
        × ¬ IsTrue (same order.now merged k))) }
{
    for later in merged + 1..rules.len() {
        if is_new(others, &rules[later]) && !order.same(merged, later) {
            return Some(later);
        }
    }
    None
}

// Whether the merged rules, of which this is the first, are of one class.
fn keep_class(parent: &Book, child: &Book, merged: usize) -> Result<(), DeriveFault>
    requires parent { IsBook parent.now }
    requires first { IsFirst (length parent.now.rules)
        (IsNew parent.now.rules child.now.rules) merged }
    ensures ok { OnOk result (MergedAreOneClass parent.now child.now) }
    ensures err { IfErr result (SplitsClass parent.now child.now) }
{
    let rules = parent.rules.as_slice();
    match first_apart(&parent.order(), rules, child.rules.as_slice(), merged) {
        Some(later) => Err(DeriveFault::NotOneClass(rules[merged].name, rules[later].name)),
        None => Ok(()),
    }
}

// Whether the new rule is the sum of the merged rules.
fn keep_sum(parent: &Book, child: &Book, new: usize) -> Result<(), DeriveFault>
    requires parent { IsBook parent.now }
    requires inside { new < length child.now.rules }
    requires new { new ≡ unwrap_or (position (is_new parent.now.rules) child.now.rules) 0 }
    ensures ok { OnOk result ((times : List ℕ → ℕ) × IsSumBy parent.now child.now times) }
    ensures err { IfErr result (IsNoSum parent.now child.now) }
{
    let rule = &child.rules.as_slice()[new];
    if !sums_up(
        child.rules.as_slice(),
        parent.rules.as_slice(),
        rule.parts.as_slice(),
    ) {
        return Err(DeriveFault::NotASum(rule.name));
    }
    Ok(())
}

/// Whether the child has one new rule in place of two or more of the parent's that are of one
/// class, as their sum, all other rules, and each strict pair.
pub fn test_aggregation(alloc: Global, parent: &Book, child: &Book) -> Result<(), DeriveFault>
    requires parent { IsBook parent.now }
    requires child { IsBook child.now }
    ensures accepts { OnOk result (IsAggregation parent.now child.now) }

    // What is measured of an accepted child carries what is measured of the parent, where the new
    // rule's value is the sum.
    ensures carries { OnOk result ((times : List ℕ → ℕ) → IsSumBy parent.now child.now times
        → CarriesMeasured parent.now child.now times) }

    // What is accepted keeps the parent's preferences, where the new rule's value is the sum.
    ensures keeps { OnOk result ((times : List ℕ → ℕ) → IsSumBy parent.now child.now times
        → KeepsPreferencesOf parent.now child.now times) }

    // What is refused has a first fault.
    ensures refuses { IfErr result (IsAggregationFault parent.now child.now) }

    // The two vectors of a lost pair show a preference that the child loses.
    ensures shows { IfErr result (λ fault. (times : List ℕ → ℕ) → IsSumBy parent.now child.now times
        → ShowsLoss parent.now child.now times fault) }
{
    let (merged, new) = merged_and_new(parent.rules.as_slice(), child.rules.as_slice())?;
    keep_class(parent, child, merged)?;
    keep_sum(parent, child, new)?;
    let images = images_of(alloc, parent.rules.as_slice(), child.rules.as_slice())?;
    keep_pairs(alloc, parent, child, images.as_slice())
}

ghost use Rattle.std.specs.Prelude.{◌≡◌, ℕ, ◌<◌, All, length, slice_index, MatchOption, IsTrue};
ghost use Rattle.std.specs.Prelude.{IfErr, OnOk};
ghost use Rattle.preorder.specs.Preorder.{rules_of, above};
ghost use Rattle.rule_language.specs.Books.{IsBook};
ghost use Rattle.book_operations.specs.First.{IsFirst, IsFirstPair};
ghost use Rattle.book_operations.specs.Images.{AreImages, IsRaised};
ghost use Rattle.book_operations.specs.Measures.{CarriesMeasured};
ghost use Rattle.book_operations.specs.Tests.{AddedAreLowest, HasRulesOf, KeepsPreferencesOf};
ghost use Rattle.book_operations.specs.Tests.{RaisesAdded, ShowsLoss, IsAugmentation};
ghost use Rattle.book_operations.specs.Tests.{IsAugmentationFault, once};

use crate::fault::DeriveFault;
use crate::images::{images_of, is_new, keep_rules};
use crate::refinement::{keep_pairs, one_at};
use preorder::Preorder;
use rule_language::{Book, Rule};
use std::alloc::Global;

// The first of the images that is not above the rule.
fn first_not_above(order: &Preorder, images: &[usize], rule: usize) -> Option<usize>
    requires inside { All (λ i. i < rules_of order.now) images.now }
    requires rule { rule < rules_of order.now }
    ensures { MatchOption result
        ((old : ℕ) → old < length images.now → IsTrue
        (above order.now (slice_index images.now old) rule))
        (IsFirst (length images.now) (λ old. ¬ IsTrue
        (above order.now (slice_index images.now old) rule))) }
{
    for old in 0..images.len() {
        if !order.above(images[old], rule) {
            return Some(old);
        }
    }
    None
}

// The first rule that is none of the others and is not below each of the images, with the first of
// these that is not above it.
fn first_raised(
    order: &Preorder,
    rules: &[Rule],
    others: &[Rule],
    images: &[usize],
) -> Option<(usize, usize)>
    requires width { rules_of order.now ≡ length rules.now }
    requires inside { All (λ i. i < rules_of order.now) images.now }
    ensures { MatchOption result
        ((new old : ℕ) → new < length rules.now → old < length images.now
        → ¬ IsRaised rules.now others.now order.now images.now new old)
        (λ pair. IsFirstPair (length rules.now) (length images.now)
        (IsRaised rules.now others.now order.now images.now) pair.0 pair.1) }
{
    for new in 0..rules.len() {
        if is_new(others, &rules[new]) {
            if let Some(old) = first_not_above(order, images, new) {
                return Some((new, old));
            }
        }
    }
    None
}

// Whether each rule of the child with a new name is below each rule of the parent.
fn keep_lowest(
    alloc: Global,
    parent: &Book,
    child: &Book,
    images: &[usize],
) -> Result<(), DeriveFault>
    requires parent { IsBook parent.now }
    requires child { IsBook child.now }
    requires kept { HasRulesOf child.now parent.now }
    requires images { AreImages parent.now.rules child.now.rules images.now }
    ensures ok { OnOk result (AddedAreLowest parent.now child.now) }
    ensures err { IfErr result (RaisesAdded parent.now child.now) }
    ensures shows { IfErr result (ShowsLoss parent.now child.now once) }
{
    let rules = child.rules.as_slice();
    let others = parent.rules.as_slice();
    if let Some((new, old)) = first_raised(&child.order(), rules, others, images) {
        return Err(DeriveFault::NotLowest(
            rules[new].name,
            others[old].name,
            one_at(alloc, rules.len(), new)?,
            one_at(alloc, rules.len(), images[old])?,
        ));
    }
    Ok(())
}

/// Whether the child has the parent's rules, each of its strict pairs, and the other rules below
/// them.
pub fn test_augmentation(alloc: Global, parent: &Book, child: &Book) -> Result<(), DeriveFault>
    requires parent { IsBook parent.now }
    requires child { IsBook child.now }
    ensures accepts { OnOk result (IsAugmentation parent.now child.now) }

    // What is measured of an accepted child carries what is measured of the parent.
    ensures carries { OnOk result (CarriesMeasured parent.now child.now once) }

    // What is accepted keeps the parent's preferences.
    ensures keeps { OnOk result (KeepsPreferencesOf parent.now child.now once) }

    // What is refused has a first fault.
    ensures refuses { IfErr result (IsAugmentationFault parent.now child.now) }

    // The two vectors of a lost pair, and of a new rule that is not lowest, show a preference that
    // the child loses.
    ensures shows { IfErr result (ShowsLoss parent.now child.now once) }
{
    keep_rules(parent.rules.as_slice(), child.rules.as_slice())?;
    let images = images_of(alloc, parent.rules.as_slice(), child.rules.as_slice())?;
    keep_pairs(alloc, parent, child, images.as_slice())?;
    keep_lowest(alloc, parent, child, images.as_slice())
}

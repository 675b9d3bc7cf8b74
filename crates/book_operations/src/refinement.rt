ghost use Rattle.std.specs.Prelude.{◌≡◌, ◌<◌, ℕ, List, length, IfOk, IfErr, OnOk};
ghost use Rattle.preorder.specs.Violation.{IsWidth};
ghost use Rattle.rule_language.specs.Books.{IsBook};
ghost use Rattle.book_operations.specs.Derivation.{one_at};
ghost use Rattle.book_operations.specs.Images.{AreImages};
ghost use Rattle.book_operations.specs.Measures.{CarriesMeasured};
ghost use Rattle.book_operations.specs.Tests.{OthersAreLowest, IsCounted, MergesClasses};
ghost use Rattle.book_operations.specs.Tests.{KeepsPreferencesOf, KeepsStrictPairs, LosesPair};
ghost use Rattle.book_operations.specs.Tests.{ShowsLoss, IsRefinement, IsRefinementFault, once};

use crate::fault::DeriveFault;
use crate::images::{images_of, keep_names, keep_rules};
use crate::pairs::first_lost;
use preorder::{NoMemory, Violation};
use rule_language::Book;
use std::alloc::Global;

/// The vector that is 1 at the rule and 0 elsewhere.
pub fn one_at(alloc: Global, width: usize, rule: usize) -> Result<Violation, NoMemory>
    requires width { IsWidth width }
    requires rule { rule < width }
    ensures { IfOk result (λ v. v ≡ one_at width rule) }
{
    let mut values = Violation::zeros(alloc, width)?;
    values.add_at(rule, 1);
    Ok(values)
}

/// Whether each strict pair of the parent is one of the child, where the parent's rules become
/// those at the images.
pub fn keep_pairs(
    alloc: Global,
    parent: &Book,
    child: &Book,
    images: &[usize],
) -> Result<(), DeriveFault>
    requires parent { IsBook parent.now }
    requires child { IsBook child.now }
    requires images { AreImages parent.now.rules child.now.rules images.now }
    requires classes { MergesClasses parent.now child.now }
    ensures ok { OnOk result (KeepsStrictPairs parent.now child.now) }
    ensures keeps { OnOk result (OthersAreLowest parent.now child.now → (times : List ℕ → ℕ)
        → IsCounted parent.now child.now times → KeepsPreferencesOf parent.now child.now times) }
    ensures err { IfErr result (LosesPair parent.now child.now) }
    ensures shows { IfErr result (λ fault. (times : List ℕ → ℕ)
        → IsCounted parent.now child.now times → ShowsLoss parent.now child.now times fault) }
{
    let rules = parent.rules.as_slice();
    if let Some((upper, lower)) = first_lost(&parent.order(), &child.order(), images) {
        return Err(DeriveFault::StrictLost(
            rules[upper].name,
            rules[lower].name,
            one_at(alloc, rules.len(), lower)?,
            one_at(alloc, rules.len(), upper)?,
        ));
    }
    Ok(())
}

/// Whether the child has the parent's rules and no others, and each of its strict pairs.
pub fn test_refinement(alloc: Global, parent: &Book, child: &Book) -> Result<(), DeriveFault>
    requires parent { IsBook parent.now }
    requires child { IsBook child.now }
    ensures accepts { OnOk result (IsRefinement parent.now child.now) }

    // What is measured of an accepted child carries what is measured of the parent.
    ensures carries { OnOk result (CarriesMeasured parent.now child.now once) }

    // What is accepted keeps the parent's preferences.
    ensures keeps { OnOk result (KeepsPreferencesOf parent.now child.now once) }

    // What is refused has a first fault.
    ensures refuses { IfErr result (IsRefinementFault parent.now child.now) }

    // The two vectors of a lost pair show a preference that the child loses.
    ensures shows { IfErr result (ShowsLoss parent.now child.now once) }
{
    keep_rules(parent.rules.as_slice(), child.rules.as_slice())?;
    keep_names(child.rules.as_slice(), parent.rules.as_slice())?;
    let images = images_of(alloc, parent.rules.as_slice(), child.rules.as_slice())?;
    keep_pairs(alloc, parent, child, images.as_slice())
}

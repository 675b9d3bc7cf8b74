ghost use Rattle.std.specs.Prelude.{◌↔◌, IsTrue, IfOk, IfErr, OnOk};
ghost use Rattle.rule_language.specs.Books.{IsBook};
ghost use Rattle.book_operations.specs.Kinds.{IsOfKind, IsStep, CarriesAs, KeepsAs, IsStepFault, ShowsAs};
ghost use Rattle.book_operations.specs.Tests.{HasNamesOf};
ghost use Rattle.book_operations.specs.declared.kind.Accepted.{Accepted};

use crate::aggregation::test_aggregation;
use crate::augmentation::test_augmentation;
use crate::fault::DeriveFault;
use crate::images::first_new;
use crate::refinement::test_refinement;
use rule_language::Book;
use std::alloc::Global;

/// What a child is to its parent.
#[derive(Clone, Copy, Debug, PartialEq, Eq)]
pub enum Accepted {
    /// The same rules, with further statements.
    Refinement,
    /// One rule in place of several of one class, as their weighted sum.
    Aggregation,
    /// Further rules below all others.
    Augmentation,
}

// Whether each name of the book's rules is that of one of the other's.
fn has_names(other: &Book, book: &Book) -> bool
    ensures { IsTrue result ↔ HasNamesOf other.now book.now }
{
    match first_new(book.rules.as_slice(), other.rules.as_slice()) {
        Some(_place) => false,
        None => true,
    }
}

// What a child is to be by the names of its rules.
fn kind_of(parent: &Book, child: &Book) -> Accepted
    ensures { IsOfKind parent.now child.now result }
{
    if !has_names(child, parent) {
        Accepted::Aggregation
    } else if !has_names(parent, child) {
        Accepted::Augmentation
    } else {
        Accepted::Refinement
    }
}

/// The test of this kind.
pub fn test_kind(
    alloc: Global,
    kind: Accepted,
    parent: &Book,
    child: &Book,
) -> Result<(), DeriveFault>
    requires parent { IsBook parent.now }
    requires child { IsBook child.now }
    ensures accepts { OnOk result (IsStep parent.now child.now kind) }
    ensures carries { OnOk result (CarriesAs parent.now child.now kind) }
    ensures keeps { OnOk result (KeepsAs parent.now child.now kind) }
    ensures refuses { IfErr result (IsStepFault parent.now child.now kind) }
    ensures shows { IfErr result (ShowsAs parent.now child.now kind) }
{
    match kind {
        Accepted::Refinement => test_refinement(alloc, parent, child),
        Accepted::Aggregation => test_aggregation(alloc, parent, child),
        Accepted::Augmentation => test_augmentation(alloc, parent, child),
    }
}

/// Whether the child is a step from its parent, by the test that the names of its rules call for: a
/// refinement where both have the same names, an augmentation where the child has all of the
/// parent's and more, and else an aggregation.
pub fn accept(alloc: Global, parent: &Book, child: &Book) -> Result<Accepted, DeriveFault>
    requires parent { IsBook parent.now }
    requires child { IsBook child.now }
    ensures kind { IfOk result (IsOfKind parent.now child.now) }
    ensures accepts { IfOk result (IsStep parent.now child.now) }

    // What is measured of an accepted child carries what is measured of the parent.
    ensures carries { IfOk result (CarriesAs parent.now child.now) }

    // What is accepted keeps the parent's preferences.
    ensures keeps { IfOk result (KeepsAs parent.now child.now) }

    // What is refused has a first fault by the test of its kind, and its two vectors show a
    // preference that is lost.
    ensures refuses { IfErr result (λ fault. (kind : Accepted) × IsOfKind parent.now child.now kind
        × IsStepFault parent.now child.now kind fault × ShowsAs parent.now child.now kind fault) }
{
    let kind = kind_of(parent, child);
    test_kind(alloc, kind, parent, child)?;
    Ok(kind)
}

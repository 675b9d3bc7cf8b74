//! What derived books say of trajectories: of two of which one beats the other by a book, it does
//! so by each book that a script derives from it, and by each child that a test accepts.
//!
//! The layer above uses that what an accepted child keeps of vectors it keeps of trajectories.
//! The definitions stand in `specs/Driven.antt`, and in `book_operations` (`specs/Scripts.antt`)
//! and `violation_measures` (`specs/Vectors.antt`).
#![tactic(auto)]

ghost use Rattle.std.specs.Prelude.{ℕ, List};
ghost use Rattle.reading.specs.Lines.{lines_of};
ghost use Rattle.rule_language.specs.Books.{IsBook};
ghost use Rattle.rule_language.specs.declared.book.Book.{Book};
ghost use Rattle.book_operations.specs.Kinds.{IsStep, CarriesAs, KeepsAs};
ghost use Rattle.book_operations.specs.declared.kind.Accepted.{Accepted};
ghost use Rattle.derived_trajectories.specs.Driven.{CarriesDriven, KeepsTrajectories};
ghost use Rattle.book_operations.specs.Scripts.{IsDerivedBy, CarriesThrough, KeepsThrough, BeatsIn};
ghost use Rattle.violation_measures.specs.Sources.{Features};
ghost use Rattle.violation_measures.specs.Vectors.{trajectory_vector};
ghost use Rattle.violation_measures.specs.declared.bound.Bound.{Bound};
ghost use Rattle.violation_measures.specs.declared.step.Step.{Step};

/// Where a script derives the last book from the first, the vector of a trajectory by the last
/// carries its vector by the first, for any source of features. So where the script keeps
/// preferences, as one that `apply_script` accepts does, of two trajectories of which one beats the
/// other by the first book, it does so by the last.
pub fn derived_books_keep_trajectories()
    ensures carried { (f : Features) (script : List ℕ) (first last : Bound) (steps : List Step)
        → IsBook first.book → IsDerivedBy script first.book last.book
        → CarriesThrough 1 (lines_of script) first.book (trajectory_vector f first steps)
        (trajectory_vector f last steps) }
    ensures kept { (f : Features) (script : List ℕ) (first last : Bound) (steps others : List Step)
        → IsBook first.book → IsDerivedBy script first.book last.book
        → KeepsThrough 1 (lines_of script) first.book last.book
        → BeatsIn first.book (trajectory_vector f first steps) (trajectory_vector f first others)
        → BeatsIn last.book (trajectory_vector f last steps) (trajectory_vector f last others) }
{}

/// Where what is measured of a child carries what is measured of its parent, as it does where a
/// test accepts the child, the vector of any trajectory by the child carries its vector by the
/// parent, for any source of features to which both are bound. So of two trajectories of which one
/// beats the other by the parent, it does so by the child.
pub fn accepted_children_keep_trajectories()
    ensures carried { (parent child : Book) (kind : Accepted) → CarriesAs parent child kind
        → CarriesDriven parent child kind }
    ensures kept { (parent child : Book) (kind : Accepted) → IsStep parent child kind
        → CarriesAs parent child kind → KeepsAs parent child kind
        → KeepsTrajectories parent child }
{}

ghost use Rattle.std.specs.Prelude.{◌≡◌, ℕ, List, false};
ghost use Rattle.rule_language.specs.declared.book.Book.{Book};
ghost use Rattle.book_operations.specs.Kinds.{IsOfKind, IsStep, IsStepFault};
ghost use Rattle.book_operations.specs.declared.kind.Accepted.{Accepted};
ghost use Rattle.book_operations.specs.Scripts.{is_memory, IsDerivedBy, IsScriptFault};
ghost use Rattle.book_operations.specs.declared.fault.DeriveFault.{DeriveFault};

/// A child is of one kind. What its test accepts has no fault, and what it refuses has one first
/// fault.
pub fn one_verdict()
    ensures one_kind { (parent child : Book) (a b : Accepted) → IsOfKind parent child a
        → IsOfKind parent child b → a ≡ b }
    ensures no_fault { (parent child : Book) (kind : Accepted) (fault : DeriveFault)
        → IsStep parent child kind → is_memory fault ≡ false
        → ¬ IsStepFault parent child kind fault }
    ensures one_fault { (parent child : Book) (kind : Accepted) (a b : DeriveFault)
        → is_memory a ≡ false → is_memory b ≡ false → IsStepFault parent child kind a
        → IsStepFault parent child kind b → a ≡ b }
{}

/// A script derives at most one book from a book, and none where it has a fault. It has at most one
/// first fault.
pub fn one_outcome()
    ensures one_book { (script : List ℕ) (first a b : Book) → IsDerivedBy script first a
        → IsDerivedBy script first b → a ≡ b }
    ensures no_fault { (script : List ℕ) (first last : Book) (fault : DeriveFault)
        → IsDerivedBy script first last → is_memory fault ≡ false
        → ¬ IsScriptFault script first fault }
    ensures one_fault { (script : List ℕ) (first : Book) (a b : DeriveFault) → is_memory a ≡ false
        → is_memory b ≡ false → IsScriptFault script first a → IsScriptFault script first b
        → a ≡ b }
{}

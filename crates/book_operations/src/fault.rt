ghost use Rattle.std.specs.Prelude.{◌≡◌};
ghost use Rattle.book_operations.specs.Scripts.{line_fault};

use preorder::{Name, NoMemory, Violation};
use rule_language::BookFault;

/// Why a child book, or a script, is refused. A number is that of the first faulty line of a
/// script, counted from 1. Of the faults of a line, the one that stands first here is named, but
/// for a part that does not fit its written line.
#[derive(Drop)]
pub enum DeriveFault {
    /// The line has not the form of one of a script, or more than `MAX_LINE` bytes, or the part
    /// that it makes does not fit its written line (`written_fits`). A part that a `merge` makes is
    /// looked at last of all. A script that is not UTF-8 is refused with the number 1.
    Syntax(usize),
    /// A name is that of no rule of the book.
    UnknownRule(usize),
    /// A rule of the book has the new name.
    DuplicateName(usize),
    /// A weight, or a weight that is multiplied, is 0 or over `MAX_WEIGHT`.
    BadWeight(usize),
    /// The book has `MAX_RULES` rules.
    TooManyRules(usize),
    /// The new rule would have more than `MAX_PARTS` parts.
    TooManyParts(usize),
    /// The rule of this name is in one of the books only, or has other parts in the other.
    RulesDiffer(Name),
    /// The two rules are merged and neither is at least the other, or one alone.
    NotOneClass(Name, Name),
    /// The parts of the new rule are not, in order, those of the merged rules with the weights of
    /// each multiplied by one whole number.
    NotASum(Name),
    /// The first rule is above the second in the parent, and not in the child. The first vector is
    /// 1 at the second rule alone, and the second vector is 1 at the first rule alone, in the
    /// parent's order.
    StrictLost(Name, Name, Violation, Violation),
    /// The first rule is new, and the second, an old one, is not above it in the child. The first
    /// vector is 1 at the new rule alone, and the second vector is 1 at the old rule alone, in the
    /// child's order.
    NotLowest(Name, Name, Violation, Violation),
    /// Memory could not be had.
    NoMemory,
}

impl From<NoMemory> for DeriveFault {
    ghost use Rattle.std.specs.Prelude.{◌≡◌};
    ghost use Rattle.book_operations.specs.declared.fault.DeriveFault.TheVariants as faults;

    ghost from_gives = { λ _ e. e ≡ faults.NoMemory };

    fn from(_e: NoMemory) -> DeriveFault {
        DeriveFault::NoMemory
    }
}

/// The fault of a line of a book, as that of a line of a script.
pub fn line_fault(fault: BookFault) -> DeriveFault
    ensures { result ≡ line_fault fault }
{
    match fault {
        BookFault::NotUtf8 | BookFault::NoRules => DeriveFault::Syntax(1),
        BookFault::Syntax(number) => DeriveFault::Syntax(number),
        BookFault::UnknownName(number) => DeriveFault::UnknownRule(number),
        BookFault::DuplicateName(number) => DeriveFault::DuplicateName(number),
        BookFault::BadWeight(number) => DeriveFault::BadWeight(number),
        BookFault::TooManyRules(number) => DeriveFault::TooManyRules(number),
        BookFault::TooManyParts(number) => DeriveFault::TooManyParts(number),
        BookFault::NoMemory => DeriveFault::NoMemory,
    }
}

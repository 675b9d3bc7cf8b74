ghost use Rattle.std.specs.Prelude.{◌≡◌};
ghost use Rattle.expressions.specs.declared.fault.ExprFault.TheVariants as faults;

use preorder::NoMemory;
use std::alloc::AllocError;

/// Why a text is no expression.
#[derive(Clone, Copy, Debug, PartialEq, Eq)]
pub enum ExprFault {
    /// It is the text of none: it has not the form, a number is past its limit, or too many
    /// brackets stand inside each other.
    Syntax,
    /// Memory could not be had.
    NoMemory,
}

impl From<NoMemory> for ExprFault {
    ghost from_gives = { λ _ e. e ≡ faults.NoMemory };

    fn from(_error: NoMemory) -> ExprFault {
        ExprFault::NoMemory
    }
}

impl From<AllocError> for ExprFault {
    ghost from_gives = { λ _ e. e ≡ faults.NoMemory };

    fn from(_error: AllocError) -> ExprFault {
        ExprFault::NoMemory
    }
}

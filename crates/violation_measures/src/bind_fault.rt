use preorder::NoMemory;

/// Why a book can't be bound to a source of features. The number is that of the rule, counted from
/// 0.
#[derive(Clone, Copy, Debug, Drop, PartialEq, Eq)]
pub enum BindFault {
    /// The rule has no part.
    BareRule(usize),
    /// A part of the rule names a feature that the source doesn't know.
    UnknownFeature(usize),
    /// The interval of a subexpression of a part passes 10^18 in size.
    RangeTooLarge(usize),
    /// Memory could not be had.
    NoMemory,
}

impl From<NoMemory> for BindFault {
    ghost use Rattle.std.specs.Prelude.{◌≡◌};
    ghost use Rattle.violation_measures.specs.declared.bind_fault.BindFault.TheVariants as fault;

    ghost from_gives = { λ _ e. e ≡ fault.NoMemory };

    fn from(_e: NoMemory) -> BindFault {
        BindFault::NoMemory
    }
}

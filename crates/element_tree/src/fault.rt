use preorder::NoMemory;
use std::alloc::AllocFailed;

/// Why a document is refused. A place is that of the token that has the fault, and where there is
/// none left that of the end; it counts bytes from the first, a byte order mark included.
#[derive(Clone, Copy, Debug, PartialEq, Eq)]
pub enum MarkupFault {
    /// A start tag without its form or with an attribute twice, an end tag that is not that of the
    /// innermost open element, a second root, or text other than white space outside the root.
    Malformed(usize),
    /// The bytes end before a token or the root has ended, or hold no element.
    Truncated(usize),
    /// A start tag inside `MAX_DEPTH` open elements.
    TooDeep(usize),
    /// A start tag after `MAX_ELEMENTS` elements.
    TooMany(usize),
    /// A `<!` that begins no comment: a declaration or a `CDATA` section.
    Unsupported(usize),
    /// Memory could not be had.
    NoMemory,
}

impl From<NoMemory> for MarkupFault {
    ghost use Rattle.std.specs.Prelude.{◌≡◌};
    ghost use Rattle.element_tree.specs.declared.fault.MarkupFault.TheVariants as fault;

    ghost from_gives = { λ _ e. e ≡ fault.NoMemory };

    fn from(_error: NoMemory) -> MarkupFault {
        MarkupFault::NoMemory
    }
}

impl<T: Drop> From<AllocFailed<T>> for MarkupFault {
    ghost use Rattle.std.specs.Prelude.{◌≡◌};
    ghost use Rattle.element_tree.specs.declared.fault.MarkupFault.TheVariants as fault;

    ghost from_gives = { λ _ e. e ≡ fault.NoMemory };

    fn from(_error: AllocFailed<T>) -> MarkupFault {
        MarkupFault::NoMemory
    }
}

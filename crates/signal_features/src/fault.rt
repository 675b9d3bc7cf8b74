ghost use Rattle.std.specs.Prelude.{◌≡◌};
ghost use Rattle.signal_features.specs.declared.fault.SignalFault.TheVariants as faults;

use preorder::NoMemory;

/// What there are too many of.
#[derive(Clone, Copy, Debug, PartialEq, Eq)]
pub enum SignalKind {
    /// More speed signs than `MAX_SIGNS`.
    Sign,
    /// More lights than `MAX_LIGHTS`.
    Light,
}

/// Why the signals of a document are refused.
#[derive(Clone, Copy, Debug, PartialEq, Eq)]
pub enum SignalFault {
    /// One more of its kind, where there are as many before it as there may be.
    TooMany(SignalKind),
    /// Memory could not be had.
    NoMemory,
}

impl From<NoMemory> for SignalFault {
    ghost from_gives = { λ _ e. e ≡ faults.NoMemory };

    fn from(_error: NoMemory) -> SignalFault {
        SignalFault::NoMemory
    }
}

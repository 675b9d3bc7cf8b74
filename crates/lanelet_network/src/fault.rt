use std::alloc::{AllocError, AllocFailed};

/// Why the network has no answer.
#[derive(Clone, Copy, Debug, Drop, PartialEq, Eq)]
pub enum NetworkFault {
    /// No lanelet has the id.
    UnknownLanelet,
    /// There is no memory for it.
    NoMemory,
}

impl From<AllocError> for NetworkFault {
    ghost use Rattle.std.specs.Prelude.{◌≡◌};
    ghost use Rattle.lanelet_network.specs.declared.fault.NetworkFault.TheVariants as fault;

    ghost from_gives = { λ _ e. e ≡ fault.NoMemory };

    fn from(_error: AllocError) -> NetworkFault {
        NetworkFault::NoMemory
    }
}

impl<T: Drop> From<AllocFailed<T>> for NetworkFault {
    ghost use Rattle.std.specs.Prelude.{◌≡◌};
    ghost use Rattle.lanelet_network.specs.declared.fault.NetworkFault.TheVariants as fault;

    ghost from_gives = { λ _ e. e ≡ fault.NoMemory };

    fn from(_error: AllocFailed<T>) -> NetworkFault {
        NetworkFault::NoMemory
    }
}

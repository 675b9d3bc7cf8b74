//! Where a program's files come from and where its text goes.
//!
//! Two traits whose faults are counted, an object in memory for each, and adapters over the
//! runtime.
//! The layer above uses that a fault comes only where the count of faults rose. The definitions
//! stand in `specs/Outside.antt`, and those of the objects in memory in `specs/Memory.antt`.
#![tactic(auto)]

ghost use Rattle.std.specs.Prelude.{◌≡◌, ℕ, ◌≤◌, List, IfOk, vec_len};
ghost use Rattle.std.specs.declared.option.Option.{Option};
ghost use Rattle.outside_io.specs.declared.LoadFault.TheVariants as load;
ghost use Rattle.outside_io.specs.Outside.{Files, HasCause, LoadAnswers, RecordsFailure};
ghost use Rattle.outside_io.specs.Outside.{SaveAnswers, WriteAnswers};

mod file_store;
mod memory_sink;
mod memory_store;
mod std_sink;

pub use file_store::FileStore;
pub use memory_sink::MemorySink;
pub use memory_store::MemoryStore;
use std::alloc::{AllocError, AllocFailed, Global};
pub use std_sink::StdSink;

/// The most bytes that a file may have.
pub const MAX_FILE: usize = 16_777_216;

/// Why a load gave no bytes.
#[derive(Clone, Copy, Debug, PartialEq, Eq)]
pub enum LoadFault {
    /// The load failed, and the store counted it.
    Failed,
    /// More than `MAX_FILE` bytes are held.
    TooLong,
    /// Memory could not be had.
    NoMemory,
}

impl From<AllocError> for LoadFault {
    ghost from_gives = { λ _ fault. fault ≡ load.NoMemory };

    fn from(_error: AllocError) -> LoadFault {
        LoadFault::NoMemory
    }
}

impl<T: Drop> From<AllocFailed<T>> for LoadFault {
    ghost from_gives = { λ _ fault. fault ≡ load.NoMemory };

    fn from(_error: AllocFailed<T>) -> LoadFault {
        LoadFault::NoMemory
    }
}

/// Why a save didn't take all bytes.
#[derive(Clone, Copy, Debug, PartialEq, Eq)]
pub enum SaveFault {
    /// The save failed, and the store counted it.
    Failed,
    /// Memory could not be had.
    NoMemory,
}

/// Why a write didn't take all bytes.
#[derive(Clone, Copy, Debug, PartialEq, Eq)]
pub enum SinkFault {
    /// The write failed, and the sink counted it.
    Failed,
}

/// Where files are kept.
pub trait Store {
    /// The files, where the store tells them.
    ghost held: { Self → Option Files };

    /// How often a call has failed.
    ghost faults: { Self → ℕ };

    /// The names whose load failed, the oldest first.
    ghost failed: { Self → List (List ℕ) };

    /// All bytes held under the name, at most `MAX_FILE`.
    fn load(&mut self, alloc: Global, name: &str) -> Result<Vec<u8>, LoadFault>
        ensures held { held self.new ≡ held self.old }
        ensures bytes { LoadAnswers (held self.old) name.now result }
        ensures size { IfOk result (λ bytes. vec_len bytes ≤ MAX_FILE) }
        ensures failed { RecordsFailure (failed self.old) (failed self.new) name.now result }
        ensures cause { HasCause (faults self.old) (faults self.new) LoadFault.Failed result };

    /// The name holds the bytes. Where it fails, the name holds a front of them or what it held.
    fn save(&mut self, name: &str, bytes: &[u8]) -> Result<(), SaveFault>
        ensures saved { SaveAnswers (held self.old) (held self.new) name.now bytes.now result }
        ensures failed { failed self.new ≡ failed self.old }
        ensures cause { HasCause (faults self.old) (faults self.new) SaveFault.Failed result };
}

/// Where text goes.
pub trait Sink {
    /// What was written, where the sink tells it.
    ghost written: { Self → Option (List ℕ) };

    /// How often a call has failed.
    ghost faults: { Self → ℕ };

    /// Appends the bytes, or some front of them where it fails. It takes no memory.
    fn write(&mut self, bytes: &[u8]) -> Result<(), SinkFault>
        ensures bytes { WriteAnswers (written self.old) (written self.new) bytes.now result }
        ensures cause { HasCause (faults self.old) (faults self.new) SinkFault.Failed result };
}

ghost use Rattle.command_outcome.specs.Ends.{LoadsBytes, Saves, shelf};

use crate::outcome::{Role, Stop, refuse};
use outside_io::{LoadFault, SaveFault, Store};
use std::alloc::Global;

/// The bytes of the file in this role. A file that is too long is refused.
pub fn load_bytes<S: Store>(
    alloc: Global,
    store: &mut S,
    role: Role,
    name: &str,
) -> Result<Vec<u8>, Stop>
    ensures { LoadsBytes role name.now (shelf S.held S.faults S.failed store.old)
        (shelf S.held S.faults S.failed store.new) result }
{
    match store.load(alloc, name) {
        Ok(bytes) => Ok(bytes),
        Err(LoadFault::NoMemory) => Err(Stop::NoMemory),
        Err(LoadFault::Failed) => Err(Stop::Unread(role)),
        Err(LoadFault::TooLong) => Err(refuse(alloc, role, "too-long")),
    }
}

/// Saves the bytes under the name.
pub fn save_bytes<S: Store>(store: &mut S, name: &str, bytes: &[u8]) -> Result<(), Stop>
    ensures { Saves name.now bytes.now (shelf S.held S.faults S.failed store.old)
        (shelf S.held S.faults S.failed store.new) result }
{
    match store.save(name, bytes) {
        Ok(()) => Ok(()),
        Err(SaveFault::NoMemory) => Err(Stop::NoMemory),
        Err(SaveFault::Failed) => Err(Stop::Unsaved),
    }
}

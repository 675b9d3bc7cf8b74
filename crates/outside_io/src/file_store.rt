ghost use Rattle.std.specs.Prelude.{◌≡◌, ◌≢◌, ◌↔◌, ◌≤◌, ◌<◌, [], None, IfOk, IfSome, IsErrOf, OnOk};
ghost use Rattle.std.specs.Prelude.{length, vec_len};
ghost use Rattle.std.specs.Io.KnownBytes.{Appends};
ghost use Rattle.std.specs.IoError.{error_kind};
ghost use Rattle.outside_io.specs.Memory.{names_of};

use crate::{LoadFault, MAX_FILE, SaveFault, Store};
use std::alloc::Global;
use std::io::{ErrorKind, Read, Write};
use std::rt::Files;
use std::{fs, io};

// The most bytes that one write is given.
const PIECE: usize = 65_536;

/// The files of the system, through the runtime. It doesn't tell what they hold.
#[derive(Drop)]
pub struct FileStore<'a, R: Files> {
    rt: &'a R,
    alloc: Global,
    faults: u64,
    failed: Vec<Vec<u8>>,
}

impl<'a, R: Files> FileStore<'a, R> {
    /// The files that the runtime reaches. No call has failed yet. It takes no memory.
    pub fn new(rt: &'a R, alloc: Global) -> FileStore<'a, R>
        ensures faults { result.faults ≡ 0 }
        ensures failed { names_of result.failed.items ≡ [] }
    {
        FileStore {
            rt,
            alloc,
            faults: 0,
            failed: Vec::new(alloc),
        }
    }
}

impl<'a, R: Files> Store for FileStore<'a, R> {
    ghost held = { λ _. None };

    ghost faults = { λ s. s.faults };

    ghost failed = { λ s. names_of s.failed.items };

    fn load(&mut self, alloc: Global, name: &str) -> Result<Vec<u8>, LoadFault> {
        let record = name.as_bytes().to_vec(self.alloc)?;
        self.failed.push(record)?;
        match read_file(self.rt, alloc, name) {
            Err(LoadFault::Failed) => {
                self.faults = self.faults.saturating_add(1);
                Err(LoadFault::Failed)
            }
            answer => {
                let _ = self.failed.pop();
                answer
            }
        }
    }

    fn save(&mut self, name: &str, bytes: &[u8]) -> Result<(), SaveFault> {
        match write_file(self.rt, name, bytes) {
            Ok(()) => Ok(()),
            Err(_) => {
                self.faults = self.faults.saturating_add(1);
                Err(SaveFault::Failed)
            }
        }
    }
}

// Want of memory exactly where the error tells it.
fn fault_of(error: &io::Error) -> LoadFault
    ensures no_memory { (result ≡ LoadFault.NoMemory)
        ↔ (error_kind error.now ≡ ErrorKind.OutOfMemory) }
    ensures failed { result ≢ LoadFault.NoMemory → result ≡ LoadFault.Failed }
{
    match error.kind() {
        ErrorKind::OutOfMemory => LoadFault::NoMemory,
        _ => LoadFault::Failed,
    }
}

// The bytes of a file that is not too long.
fn read_file<R: Files>(rt: &R, alloc: Global, name: &str) -> Result<Vec<u8>, LoadFault>
    ensures size { IfOk result (λ bytes. vec_len bytes ≤ MAX_FILE) }
{
    match fs::open(rt, name) {
        Ok(file) => read_all(alloc, file),
        Err(error) => Err(fault_of(&error)),
    }
}

// All bytes that the reader has left, if they are not too many. It takes one byte more at most.
fn read_all<F: Read + Drop>(alloc: Global, file: F) -> Result<Vec<u8>, LoadFault>
    ensures size { IfOk result (λ bytes. vec_len bytes ≤ MAX_FILE) }
    ensures all { IfSome (F.remaining file) (λ left. IfOk result (λ bytes. bytes.items ≡ left)) }
    ensures too_long { IfSome (F.remaining file) (λ left. IsErrOf result LoadFault.TooLong
        → MAX_FILE < length left) }
{
    let mut bytes = Vec::new(alloc);
    match file.take(MAX_FILE as u64 + 1).read_to_end(&mut bytes) {
        Ok(_) if bytes.len() <= MAX_FILE => Ok(bytes),
        Ok(_) => Err(LoadFault::TooLong),
        Err(error) => Err(fault_of(&error)),
    }
}

// The file is made anew, and holds the bytes.
fn write_file<R: Files>(rt: &R, name: &str, bytes: &[u8]) -> io::Result<()> {
    let mut file = fs::create(rt, name)?;
    write_in_pieces(&mut file, bytes)
}

// Writes all bytes, in pieces. A write that takes nothing of a piece is an error.
fn write_in_pieces<W: Write>(file: &mut W, bytes: &[u8]) -> io::Result<()>
    ensures { OnOk result (Appends (W.contents file.old) (W.contents file.new) bytes.now) }
{
    let mut rest = bytes;
    while !rest.is_empty() {
        let most = rest.len().min(PIECE);
        file.write_all(&rest[..most])?;
        rest = &rest[most..];
    }
    Ok(())
}

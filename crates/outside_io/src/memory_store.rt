ghost use Rattle.std.specs.Prelude.{◌≡◌, ◌↔◌, ℕ, ◌≤◌, ◌<◌, ◌≢◌, ◌⊎◌, List, [], Some, None, OnOk};
ghost use Rattle.std.specs.Prelude.{OnErr, IfOk, IsErrOf, IsTrue, vec_len, length, map};
ghost use Rattle.std.specs.Option.{option_map};
ghost use Rattle.outside_io.specs.Memory.{after_load, after_save, files_of, load_fails, save_fails};
ghost use Rattle.outside_io.specs.Outside.{HasCause, LoadAnswers, RecordsFailure, SaveAnswers};
ghost use Rattle.std.specs.FinMap as finite;

use crate::{LoadFault, MAX_FILE, SaveFault, Store};
use preorder::NoMemory;
use std::alloc::Global;
use std::collections::VecDeque;
use std::marker::Model;

/// A store in memory.
#[derive(Drop)]
pub struct MemoryStore {
    alloc: Global,
    // The newest first: the first entry of a name is its file.
    entries: VecDeque<(Vec<u8>, Vec<u8>)>,
    faults: u64,
    failed: Vec<Vec<u8>>,
    loads: u64,
    load_to_fail: Option<u64>,
    saves: u64,
    save_to_fail: Option<(u64, usize)>,
}

impl Model for MemoryStore {
    ghost use Rattle.outside_io.specs.Memory.{Memory, coded_memory, files_of, names_of};

    ghost Value = { Memory };

    ghost coded = { coded_memory };

    ghost view = { λ s. record { files = files_of s.entries.items; faults = s.faults; failed = names_of s.failed.items; loads = s.loads; load_to_fail = s.load_to_fail; saves = s.saves; save_to_fail = s.save_to_fail } };
}

impl MemoryStore {
    /// A store that holds nothing. It takes no memory.
    pub fn new(alloc: Global) -> MemoryStore
        ensures { result ≡ record {
          files = finite.empty;
          faults = 0;
          failed = [];
          loads = 0;
          load_to_fail = None;
          saves = 0;
          save_to_fail = None;
        } }
    {
        MemoryStore {
            alloc,
            entries: VecDeque::new(alloc),
            faults: 0,
            failed: Vec::new(alloc),
            loads: 0,
            load_to_fail: None,
            saves: 0,
            save_to_fail: None,
        }
    }

    /// The name holds the bytes, and nothing else changes. Where it is refused the store is as it
    /// was.
    pub fn put(&mut self, name: &str, bytes: &[u8]) -> Result<(), NoMemory>
        ensures ok { OnOk result
            (self.new
            ≡ record self.old { files = finite.insert self.old.files name.now bytes.now }) }
        ensures err { OnErr result (self.new ≡ self.old) }
    {
        let name = name.as_bytes().to_vec(self.alloc)?;
        let bytes = bytes.to_vec(self.alloc)?;
        self.entries.push_front((name, bytes))?;
        Ok(())
    }

    /// The bytes that the name holds. None where it isn't held.
    pub fn get(&self, name: &str) -> Option<&[u8]>
        ensures { option_map (λ bytes. bytes.now) result ≡ finite.get self.now.files name.now }
    {
        find(&self.entries, name.as_bytes())
    }

    /// The nth load of the store's life, counted from 1, is to fail. A later call replaces an
    /// earlier one.
    pub fn fail_load(&mut self, nth: u64)
        ensures { self.new ≡ record self.old { load_to_fail = Some nth } }
    {
        self.load_to_fail = Some(nth);
    }

    /// The nth save of the store's life, counted from 1, is to fail: the name then holds the first
    /// `kept` bytes, or all where there are fewer.
    /// A later call replaces an earlier one.
    pub fn fail_save(&mut self, nth: u64, kept: usize)
        ensures { self.new ≡ record self.old { save_to_fail = Some (nth, kept) } }
    {
        self.save_to_fail = Some((nth, kept));
    }

    /// How many loads there were, failed ones among them. It stays at `u64::MAX`.
    pub fn loads(&self) -> u64
        ensures { result ≡ self.now.loads }
    {
        self.loads
    }

    /// How many saves there were, failed ones among them. It stays at `u64::MAX`.
    pub fn saves(&self) -> u64
        ensures { result ≡ self.now.saves }
    {
        self.saves
    }
}

// The first entry of the name.
fn find<'a>(entries: &'a VecDeque<(Vec<u8>, Vec<u8>)>, name: &[u8]) -> Option<&'a [u8]>
    ensures { option_map (λ bytes. bytes.now) result
        ≡ finite.get (files_of entries.now.items) name.now }
{
    for (key, bytes) in entries {
        if name == key.as_slice() {
            return Some(bytes.as_slice());
        }
    }
    None
}

// A copy of a file that is not too long.
fn copied(alloc: Global, bytes: &[u8]) -> Result<Vec<u8>, LoadFault>
    ensures copy { IfOk result (λ copy. copy.items ≡ bytes.now) }
    ensures size { IfOk result (λ copy. vec_len copy ≤ MAX_FILE) }
    ensures too_long { IsErrOf result LoadFault.TooLong ↔ (MAX_FILE < length bytes.now) }
    ensures not_failed { result ≢ Err LoadFault.Failed }
{
    if bytes.len() > MAX_FILE {
        return Err(LoadFault::TooLong);
    }
    match bytes.to_vec(alloc) {
        Ok(copy) => Ok(copy),
        Err(_) => Err(LoadFault::NoMemory),
    }
}

impl Store for MemoryStore {
    ghost held = { λ s. Some s.files };

    ghost faults = { λ s. s.faults };

    ghost failed = { λ s. s.failed };

    fn load(&mut self, alloc: Global, name: &str) -> Result<Vec<u8>, LoadFault>
        ensures held { Some self.new.files ≡ Some self.old.files }
        ensures bytes { LoadAnswers (Some self.old.files) name.now result }
        ensures size { IfOk result (λ bytes. vec_len bytes ≤ MAX_FILE) }
        ensures failed { RecordsFailure self.old.failed self.new.failed name.now result }
        ensures cause { HasCause self.old.faults self.new.faults LoadFault.Failed result }
        ensures fails { (result ≡ Err LoadFault.NoMemory)
            ⊎ (IsErrOf result LoadFault.Failed ↔ IsTrue (load_fails self.old name.now)) }
        ensures after { self.new ≡ after_load self.old name.now result }
    {
        self.loads = self.loads.saturating_add(1);
        let record = name.as_bytes().to_vec(self.alloc)?;
        self.failed.push(record)?;
        if self.load_to_fail != Some(self.loads)
            && let Some(bytes) = find(&self.entries, name.as_bytes())
        {
            let _ = self.failed.pop();
            return copied(alloc, bytes);
        }
        self.faults = self.faults.saturating_add(1);
        Err(LoadFault::Failed)
    }

    fn save(&mut self, name: &str, bytes: &[u8]) -> Result<(), SaveFault>
        ensures saved { SaveAnswers (Some self.old.files)
            (Some self.new.files) name.now bytes.now result }
        ensures failed { self.new.failed ≡ self.old.failed }
        ensures cause { HasCause self.old.faults self.new.faults SaveFault.Failed result }
        ensures fails { (result ≡ Err SaveFault.NoMemory)
            ⊎ (IsErrOf result SaveFault.Failed ↔ IsTrue (save_fails self.old)) }
        ensures after { self.new ≡ after_save self.old name.now bytes.now result }
    {
        self.saves = self.saves.saturating_add(1);
        let (named, kept) = match self.save_to_fail {
            Some((nth, kept)) if nth == self.saves => (true, kept.min(bytes.len())),
            _ => (false, bytes.len()),
        };
        if self.put(name, &bytes[..kept]).is_err() {
            return Err(SaveFault::NoMemory);
        }
        if named {
            self.faults = self.faults.saturating_add(1);
            return Err(SaveFault::Failed);
        }
        Ok(())
    }
}

ghost use Rattle.std.specs.Prelude.{◌≡◌, ◌↔◌, ℕ, ◌≤◌, List, [], Some, IfOk, IsTrue, IsErr, length};
ghost use Rattle.outside_io.specs.Memory.{write_fails, after_write};
ghost use Rattle.outside_io.specs.Outside.{HasCause, WriteAnswers};

use crate::{Sink, SinkFault};
use preorder::NoMemory;
use std::alloc::Global;
use std::marker::Model;

/// A sink in memory with room for so many bytes.
#[derive(Drop)]
pub struct MemorySink {
    bytes: Vec<u8>,
    room: usize,
    faults: u64,
    writes: u64,
    write_to_fail: Option<(u64, usize)>,
}

impl Model for MemorySink {
    ghost use Rattle.std.specs.Prelude.{◌≤◌, vec_len, vec_capacity};
    ghost use Rattle.outside_io.specs.Memory.{Paper};

    ghost Value = { Paper };

    ghost view = { λ s. record { written = s.bytes.items; room = s.room; faults = s.faults; writes = s.writes; write_to_fail = s.write_to_fail } };

    ghost invariant = { λ s. (vec_len s.bytes ≤ s.room) × (s.room ≤ vec_capacity s.bytes) };
}

impl MemorySink {
    /// A sink to which nothing was written.
    pub fn with_room(alloc: Global, room: usize) -> Result<MemorySink, NoMemory>
        ensures { IfOk result (λ sink. sink ≡ record {
          written = [];
          room = room;
          faults = 0;
          writes = 0;
          write_to_fail = None;
        }) }
    {
        let bytes = Vec::with_capacity(alloc, room)?;
        Ok(MemorySink {
            bytes,
            room,
            faults: 0,
            writes: 0,
            write_to_fail: None,
        })
    }

    /// All bytes written.
    pub fn written(&self) -> &[u8]
        ensures { result.now ≡ self.now.written }
    {
        self.bytes.as_slice()
    }

    /// The nth write of the sink's life, counted from 1, is to fail after so many bytes. A later
    /// call replaces an earlier one.
    pub fn fail_write(&mut self, nth: u64, kept: usize)
        ensures { self.new ≡ record self.old { write_to_fail = Some (nth, kept) } }
    {
        self.write_to_fail = Some((nth, kept));
    }
}

impl Sink for MemorySink {
    ghost written = { λ s. Some s.written };

    ghost faults = { λ s. s.faults };

    fn write(&mut self, bytes: &[u8]) -> Result<(), SinkFault>
        ensures bytes { WriteAnswers (Some self.old.written)
            (Some self.new.written) bytes.now result }
        ensures cause { HasCause self.old.faults self.new.faults SinkFault.Failed result }
        ensures fails { IsErr result ↔ IsTrue (write_fails self.old bytes.now) }
        ensures after { self.new ≡ after_write self.old bytes.now }
    {
        self.writes = self.writes.saturating_add(1);
        let left = self.room - self.bytes.len();
        let (named, kept) = match self.write_to_fail {
            Some((nth, kept)) if nth == self.writes => (true, kept.min(bytes.len())),
            _ => (false, bytes.len()),
        };
        let taken = kept.min(left);
        self.bytes.extend_from_slice(&bytes[..taken]).unwrap();
        if named || left < bytes.len() {
            self.faults = self.faults.saturating_add(1);
            return Err(SinkFault::Failed);
        }
        Ok(())
    }
}

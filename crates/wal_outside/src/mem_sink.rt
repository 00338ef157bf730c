// Sinks over bytes in memory.
ghost use Rattle.std.specs.Prelude.{◌≡◌, [], Some};
ghost use Rattle.wal_outside.specs.Memory.{mem_held, sure_held, sink_calls};
ghost use Rattle.wal_outside.specs.Schedules.{IsFresh};

use crate::pieces::Pieces;
use crate::schedule::Schedule;
use crate::sink::{Sink, WriteFault};
use std::alloc::Global;

/// A sink that keeps its bytes in memory, takes them in pieces and fails at given calls.
#[derive(Drop)]
pub struct MemSink {
    held: Vec<u8>,
    pieces: Pieces,
    schedule: Schedule,
}

impl MemSink {
    /// A sink that holds nothing yet. Its calls take at most as many bytes as `pieces` lists, in
    /// turn, and the whole piece once the list is over; a call that takes nothing of a piece that
    /// has bytes is a fault. The calls whose numbers are in `failing` fail; the first call has the
    /// number 1.
    pub fn new(alloc: Global, pieces: Vec<usize>, failing: Vec<u64>) -> Self
        ensures held { mem_held result ≡ [] }
        ensures pieces { result.pieces.lengths.items ≡ pieces.items }
        ensures schedule { IsFresh result.schedule failing.items }
    {
        MemSink {
            held: Vec::new(alloc),
            pieces: Pieces::new(pieces),
            schedule: Schedule::new(failing),
        }
    }

    /// The bytes that were written.
    pub fn held(&self) -> &[u8]
        ensures { result.now ≡ mem_held self.now }
    {
        self.held.as_slice()
    }

    /// How many calls there were.
    pub fn calls(&self) -> u64
        ensures { result ≡ sink_calls self.now }
    {
        self.schedule.calls
    }
}

impl Sink for MemSink {
    ghost view = { λ s. record { held = Some (mem_held s); faults = s.schedule.faults } };

    fn write(&mut self, piece: &[u8]) -> Result<usize, WriteFault> {
        if self.schedule.next_fails() {
            self.schedule.count_fault();
            return Err(WriteFault::Failed);
        }
        let count = self.pieces.next_length(piece.len());
        if count == 0 && !piece.is_empty() {
            self.schedule.count_fault();
            return Ok(0);
        }
        self.held.extend_from_slice(&piece[..count])?;
        Ok(count)
    }
}

/// A sink that keeps its bytes in memory and never fails.
#[derive(Drop)]
pub struct SureSink {
    held: Vec<u8>,
}

impl SureSink {
    /// A sink that holds nothing yet.
    pub fn new(alloc: Global) -> Self
        ensures { sure_held result ≡ [] }
    {
        SureSink {
            held: Vec::new(alloc),
        }
    }

    /// The bytes that were written.
    pub fn held(&self) -> &[u8]
        ensures { result.now ≡ sure_held self.now }
    {
        self.held.as_slice()
    }
}

impl Sink for SureSink {
    ghost view = { λ s. record { held = Some (sure_held s); faults = 0 } };

    fn write(&mut self, piece: &[u8]) -> Result<usize, WriteFault> {
        self.held.extend_from_slice(piece)?;
        Ok(piece.len())
    }
}

// Sources over bytes in memory.
ghost use Rattle.std.specs.Prelude.{◌≡◌, ℕ, ◌+◌, ◌-◌, ◌≤◌, length, take, drop, min, Some};
ghost use Rattle.wal_outside.specs.Memory.{mem_left, sure_left, source_calls};
ghost use Rattle.wal_outside.specs.Schedules.{IsFresh};

use crate::pieces::Pieces;
use crate::schedule::Schedule;
use crate::source::{Failed, Source};

/// A source over bytes in memory, which gives them in pieces and fails at given calls.
#[derive(Drop)]
pub struct MemSource {
    bytes: Vec<u8>,
    at: usize,
    pieces: Pieces,
    schedule: Schedule,
}

impl MemSource {
    /// A source that gives `bytes`. Its calls give at most as many bytes as `pieces` lists, in turn,
    /// but one at least, and all that they can once the list is over. The calls whose numbers are in
    /// `failing` fail; the first call has the number 1.
    pub fn new(bytes: Vec<u8>, pieces: Vec<usize>, failing: Vec<u64>) -> Self
        ensures left { mem_left result ≡ bytes.items }
        ensures pieces { result.pieces.lengths.items ≡ pieces.items }
        ensures schedule { IsFresh result.schedule failing.items }
    {
        MemSource {
            bytes,
            at: 0,
            pieces: Pieces::new(pieces),
            schedule: Schedule::new(failing),
        }
    }

    /// The bytes that are left to be read.
    pub fn left(&self) -> &[u8]
        ensures { result.now ≡ mem_left self.now }
    {
        rest_of(&self.bytes, self.at)
    }

    /// How many calls there were.
    pub fn calls(&self) -> u64
        ensures { result ≡ source_calls self.now }
    {
        self.schedule.calls
    }
}

impl Source for MemSource {
    ghost view = { λ s. record { left = Some (mem_left s); calls = source_calls s; faults = s.schedule.faults } };

    fn read(&mut self, buf: &mut [u8]) -> Result<usize, Failed> {
        if self.schedule.next_fails() {
            self.schedule.count_fault();
            return Err(Failed);
        }
        let most = self.pieces.next_length(buf.len()).max(1);
        let count = give(rest_of(&self.bytes, self.at), most, buf);
        self.at += count;
        Ok(count)
    }
}

/// A source over bytes in memory that never fails.
#[derive(Drop)]
pub struct SureSource {
    bytes: Vec<u8>,
    at: usize,
    calls: u64,
}

impl SureSource {
    /// A source that gives `bytes`.
    pub fn new(bytes: Vec<u8>) -> Self
        ensures { sure_left result ≡ bytes.items }
    {
        SureSource {
            bytes,
            at: 0,
            calls: 0,
        }
    }

    /// The bytes that are left to be read.
    pub fn left(&self) -> &[u8]
        ensures { result.now ≡ sure_left self.now }
    {
        rest_of(&self.bytes, self.at)
    }
}

impl Source for SureSource {
    ghost view = { λ s. record { left = Some (sure_left s); calls = s.calls; faults = 0 } };

    fn read(&mut self, buf: &mut [u8]) -> Result<usize, Failed> {
        self.calls = self.calls.saturating_add(1);
        let count = give(rest_of(&self.bytes, self.at), buf.len(), buf);
        self.at += count;
        Ok(count)
    }
}

// The bytes from a place on.
fn rest_of(bytes: &[u8], at: usize) -> &[u8]
    ensures { result.now ≡ drop at bytes.now }
{
    &bytes[at.min(bytes.len())..]
}

// Copies the first bytes, at most `most`, to the beginning of `buf`, and gives how many these are.
fn give(bytes: &[u8], most: usize, buf: &mut [u8]) -> usize
    ensures count { result ≡ min (min most (length bytes.now)) (length buf.old) }
    ensures copied { take result buf.new ≡ take result bytes.now }
{
    let count = most.min(bytes.len()).min(buf.len());
    buf[..count].copy_from_slice(&bytes[..count]);
    count
}

// Bytes that were read and not yet passed.
ghost use Rattle.std.specs.Prelude.{◌≡◌, ◌<◌, ◌≤◌, [], length, drop};
ghost use Rattle.wal_outside.specs.Causes.{CountsFault};
ghost use Rattle.script_cut.specs.Passing.{Fills, is_failed_fill};

use std::marker::Model;
use wal_outside::{Failed, Source};

/// How many bytes are asked for at once.
pub(crate) const PIECE: usize = 8192;

/// The bytes that were read and not yet passed.
#[derive(Drop)]
pub(crate) struct Window {
    bytes: [u8; PIECE],
    start: usize,
    end: usize,
}

impl Model for Window {
    ghost use Rattle.std.specs.Prelude.{ℕ, ◌≤◌, List, take, drop};

    ghost Value = { List ℕ };

    ghost view = { λ w. drop w.start (take w.end w.bytes) };

    ghost invariant = { λ w. (w.start ≤ w.end) × (w.end ≤ 8192) };
}

impl Window {
    pub(crate) fn new() -> Self
        ensures { result ≡ [] }
    {
        Window {
            bytes: [0; PIECE],
            start: 0,
            end: 0,
        }
    }

    pub(crate) fn bytes(&self) -> &[u8]
        ensures { result.now ≡ self.now }
    {
        &self.bytes[self.start..self.end]
    }

    /// Lets go of the first bytes.
    pub(crate) fn pass(&mut self, count: usize)
        requires { count ≤ length self.old }
        ensures { self.new ≡ drop count self.old }
    {
        self.start += count;
    }

    /// Reads at most `most` bytes, once, where none is held.
    pub(crate) fn fill<S: Source>(&mut self, from: &mut S, most: usize) -> Result<(), Failed>
        requires { 0 < most }
        ensures filled { Fills (S.view from.old) result self.new (S.view from.new) }
        ensures within { length self.new ≤ most }
        ensures faults { CountsFault (is_failed_fill result) (S.view from.old).faults (S.view from.new).faults }
    {
        self.start = 0;
        self.end = 0;
        let wanted = most.min(PIECE);
        let count = from.read(&mut self.bytes[..wanted])?;
        self.end = count;
        Ok(())
    }
}

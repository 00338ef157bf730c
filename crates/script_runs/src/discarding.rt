//! A sink that keeps nothing.

ghost use Rattle.std.specs.Prelude.{None};

use wal_outside::{Sink, WriteFault};

/// Takes all that is handed over, and keeps none of it.
#[derive(Drop)]
pub(crate) struct Discarding;

impl Sink for Discarding {
    ghost view = { λ s. record { held = None; faults = 0 } };

    fn write(&mut self, piece: &[u8]) -> Result<usize, WriteFault> {
        Ok(piece.len())
    }
}

// Where bytes are written.
ghost use Rattle.std.specs.Prelude.{◌≡◌};
ghost use Rattle.std.specs.Io.{WritesAtMost};
ghost use Rattle.wal_outside.specs.Calls.{Writes};
ghost use Rattle.wal_outside.specs.Views.{SinkView};
ghost use Rattle.wal_outside.specs.declared.sink.WriteFault.TheVariants.{Memory};

use std::alloc::{AllocError, AllocFailed};

/// Why a write was refused.
#[derive(Clone, Copy, Debug, PartialEq, Eq)]
pub enum WriteFault {
    /// A call of the outside failed.
    Failed,
    /// There was no memory for it.
    Memory,
}

/// Where answers are printed.
pub trait Sink {
    // the bytes that were written, where they are reported, and how many faults there were; this count never falls, and stops
    // at its last value
    ghost view: { Self → SinkView };

    /// Appends a prefix of the piece to what was written, and gives its length.
    ///
    /// # Errors
    /// `Failed` where the call failed, and `Memory` where it had none: nothing was appended. The
    /// count of faults rose at `Failed`, and where nothing was taken of a piece that has bytes. Else
    /// it stays.
    fn write(&mut self, piece: &[u8]) -> Result<usize, WriteFault>
        ensures bound { WritesAtMost result piece.now }
        ensures written { Writes (view self.old) result piece.now (view self.new) };
}

impl From<AllocError> for WriteFault {
    ghost from_gives = { λ _ e. e ≡ Memory };

    fn from(_error: AllocError) -> WriteFault {
        WriteFault::Memory
    }
}

impl<T: Drop> From<AllocFailed<T>> for WriteFault {
    ghost from_gives = { λ _ e. e ≡ Memory };

    fn from(_error: AllocFailed<T>) -> WriteFault {
        WriteFault::Memory
    }
}

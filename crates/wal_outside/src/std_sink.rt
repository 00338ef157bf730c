// A sink over std's writers.
ghost use Rattle.std.specs.Prelude.{◌≡◌, ℕ};
ghost use Rattle.std.specs.Io.{WritesAtMost};
ghost use Rattle.std.specs.Io.KnownBytes.{WriteAppends};

use crate::sink::{Sink, WriteFault};
use std::io;
use std::io::{ErrorKind, Write};

/// A sink over a writer, as over standard output.
#[derive(Drop)]
pub struct StdSink<W> {
    writer: W,
    faults: u64,
}

impl<W: Write> StdSink<W> {
    /// A sink that hands its bytes to the writer.
    pub fn new(writer: W) -> Self {
        StdSink { writer, faults: 0 }
    }

    /// How many faults there were.
    pub fn faults(&self) -> u64
        ensures { result ≡ self.now.faults }
    {
        self.faults
    }
}

impl<W: Write> Sink for StdSink<W> {
    // what the writer reports
    ghost view = { λ s. record { held = W.contents s.writer; faults = s.faults } };

    fn write(&mut self, piece: &[u8]) -> Result<usize, WriteFault> {
        match write_some(&mut self.writer, piece) {
            Ok(count) => {
                if count == 0 && !piece.is_empty() {
                    self.faults = self.faults.saturating_add(1);
                }
                Ok(count)
            }
            Err(error) if error.kind() == ErrorKind::OutOfMemory => Err(WriteFault::Memory),
            Err(_) => {
                self.faults = self.faults.saturating_add(1);
                Err(WriteFault::Failed)
            }
        }
    }
}

// One write, made again where it was interrupted.
fn write_some<W: Write>(writer: &mut W, piece: &[u8]) -> io::Result<usize>
    ensures bound { WritesAtMost result piece.now }
    ensures bytes { WriteAppends (W.contents writer.old) (W.contents writer.new) result piece.now }
{
    'tries: for _ in 0..u64::MAX {
        match writer.write(piece) {
            Err(error) if error.kind() == ErrorKind::Interrupted => {}
            answer => return answer,
        }
    }
    Err(io::Error::from(ErrorKind::Interrupted))
}

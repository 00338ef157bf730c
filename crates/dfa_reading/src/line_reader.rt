//! Readers of a file's lines, one for each format.

use crate::fault::FileFault;
use crate::listed::Listed;
use digit_tuple::faults::OutOfMemory;
use std::alloc::Global;

/// What was read of a file in some format so far.
pub trait LineReader: Drop {
    ghost use Rattle.std.specs.Prelude.{◌≡◌, ℕ, List, Option, None, Some, if◌then◌else◌, IfOk, IsTrue};
    ghost use Rattle.dfa_reading.specs.Reading.{Draft, finish as finished};
    ghost use Rattle.dfa_reading.specs.DraftViews.{Gives};

    // what was read; how the format adds a line to it; and that it is the prefix of a file in that format
    ghost was_read: { Self → Draft };

    ghost adds: { Self → ℕ → Draft → List ℕ → Option Draft };

    ghost is_prefix: { Self → Type 0 };

    /// Adds a line, and says whether it has the format's form there.
    fn add_line(&mut self, alloc: Global, at: u64, line: &[u8]) -> Result<bool, OutOfMemory>
        requires { is_prefix self.old }
        ensures added { IfOk result (λ added. (if added then Some (was_read self.new) else None) ≡ adds self.old at (was_read self.old) line.now) }
        ensures prefix { IfOk result (λ added. IsTrue added → is_prefix self.new) }
        ensures format { IfOk result (λ added. IsTrue added → adds self.new ≡ adds self.old) };

    /// What the file lists, if it has a header, a state where it needs one, and each target is a state; `after` is the number of
    /// the line after the last.
    fn finish(self, alloc: Global, after: u64) -> Result<Listed, FileFault>
        requires { is_prefix self }
        ensures { Gives (λ listed. listed) result (finished after (was_read self)) };
}

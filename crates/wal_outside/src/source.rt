// Where bytes are read.
ghost use Rattle.std.specs.Io.{ReadsAtMost};
ghost use Rattle.wal_outside.specs.Calls.{Reads};
ghost use Rattle.wal_outside.specs.Views.{SourceView};

/// A call of the outside failed.
#[derive(Clone, Copy, Debug, PartialEq, Eq)]
pub struct Failed;

/// Where the bytes of a script are read.
pub trait Source {
    // the bytes that are left to be read, where they are reported, and how many calls and faults there were; these counts never fall,
    // and stop at their last value
    ghost view: { Self → SourceView };

    /// Moves a prefix of what is left, at most as many bytes as `buf` has room for, to the beginning
    /// of `buf`. Gives its length; 0 for a `buf` with room means the end.
    ///
    /// # Errors
    /// `Failed` where the call failed: nothing was taken, and the count of faults rose. Else it stays.
    fn read(&mut self, buf: &mut [u8]) -> Result<usize, Failed>
        ensures bound { ReadsAtMost result buf.new }
        ensures read { Reads (view self.old) result buf.new (view self.new) };
}

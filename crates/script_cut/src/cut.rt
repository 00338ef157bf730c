ghost use Rattle.std.specs.Prelude.{◌≡◌};
ghost use Rattle.script_cut.specs.declared.cut.CutFault.TheVariants.{Memory};

use std::alloc::{AllocError, AllocFailed};

/// What comes next in a script.
#[derive(Drop)]
pub enum Cut {
    /// A command's text, whether it was ended by `:` or `::` so that its steps are shown, and the line on
    /// which it begins.
    Command(Vec<u8>, bool, u64),
    /// No further command.
    End,
}

/// Why no command is given.
#[derive(Clone, Copy, Debug, PartialEq, Eq)]
pub enum CutFault {
    /// The source failed.
    Failed,
    /// The script ends in a text without terminator: the line on which this begins, and its length.
    Syntax(u64, usize),
    /// A command of more than 65,536 bytes: the line on which it begins.
    Long(u64),
    /// No command ends within the bytes that may be read, and there are more: the line of the first byte
    /// that may not be read.
    ScriptLimit(u64),
    /// There was not enough memory.
    Memory,
}

impl From<AllocError> for CutFault {
    ghost from_gives = { λ _ e. e ≡ Memory };

    fn from(_error: AllocError) -> CutFault {
        CutFault::Memory
    }
}

impl<T: Drop> From<AllocFailed<T>> for CutFault {
    ghost from_gives = { λ _ e. e ≡ Memory };

    fn from(_error: AllocFailed<T>) -> CutFault {
        CutFault::Memory
    }
}

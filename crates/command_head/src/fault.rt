use digit_tuple::faults::OutOfMemory;
use std::alloc::{AllocError, AllocFailed};

/// Why the head of a command is refused. Bytes count in the command's text, from 0.
#[derive(Clone, Copy, Debug, PartialEq, Eq)]
pub enum HeadFault {
    /// No form goes on with the part that begins at this byte; or, at the text's length, the text ends too early.
    Syntax(usize),
    /// The number that begins at this byte does not fit 32 bits, signed.
    Number(usize),
    /// There was not enough memory.
    Memory,
}

impl From<AllocError> for HeadFault {
    ghost use Rattle.std.specs.Prelude.{◌≡◌};
    ghost use Rattle.command_head.specs.declared.fault.HeadFault.TheVariants.{Memory};

    ghost from_gives = { λ _ e. e ≡ Memory };

    fn from(_: AllocError) -> HeadFault {
        HeadFault::Memory
    }
}

impl<T: Drop> From<AllocFailed<T>> for HeadFault {
    ghost use Rattle.std.specs.Prelude.{◌≡◌};
    ghost use Rattle.command_head.specs.declared.fault.HeadFault.TheVariants.{Memory};

    ghost from_gives = { λ _ e. e ≡ Memory };

    fn from(_: AllocFailed<T>) -> HeadFault {
        HeadFault::Memory
    }
}

impl From<OutOfMemory> for HeadFault {
    ghost use Rattle.std.specs.Prelude.{◌≡◌};
    ghost use Rattle.command_head.specs.declared.fault.HeadFault.TheVariants.{Memory};

    ghost from_gives = { λ _ e. e ≡ Memory };

    fn from(_: OutOfMemory) -> HeadFault {
        HeadFault::Memory
    }
}

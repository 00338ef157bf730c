//! Faults of expansions.

ghost use Rattle.std.specs.Prelude.{◌≡◌, IsAscii, MatchResult};
ghost use Rattle.macro_expand.specs.declared.fault.MacroFault.TheVariants.{Memory};

use digit_tuple::faults::OutOfMemory;
use digit_tuple::name::Name;
use std::alloc::{AllocError, AllocFailed, Global};
use std::str;

/// Why a text has no expansion.
#[derive(Drop)]
pub enum MacroFault {
    /// With the `#` at this byte no call begins. Bytes count from 0 in the text that is expanded: in an argument from
    /// the argument's begin, in a macro's text where the arguments are in it.
    Syntax(usize),
    /// No macro of this name was added.
    Unknown(Name),
    /// The macro's text has a place for which the arguments of its call are too few.
    MacroArgs {
        /// The macro's name.
        name: Name,
        /// The number of the first such place; 2^64 - 1 means each greater one.
        place: u64,
        /// How many arguments the call has.
        given: usize,
    },
    /// A call of the macro is within 16 others.
    MacroDepth(Name),
    /// A text would have more than 65,536 bytes, or a call would be the 65,537th.
    MacroLong,
    /// A growth was refused.
    Memory,
}

/// The name that these ASCII bytes are.
pub(crate) fn name_of(alloc: Global, bytes: &[u8]) -> Result<Name, MacroFault>
    requires { IsAscii bytes.now }
    ensures { MatchResult result (λ name. name ≡ bytes.now) (λ fault. fault ≡ Memory) }
{
    let text = str::from_utf8(bytes).unwrap();
    Ok(Name::new(alloc, text)?)
}

impl From<OutOfMemory> for MacroFault {
    ghost from_gives = { λ _ e. e ≡ Memory };

    fn from(_error: OutOfMemory) -> MacroFault {
        MacroFault::Memory
    }
}

impl From<AllocError> for MacroFault {
    ghost from_gives = { λ _ e. e ≡ Memory };

    fn from(_error: AllocError) -> MacroFault {
        MacroFault::Memory
    }
}

impl<T: Drop> From<AllocFailed<T>> for MacroFault {
    ghost from_gives = { λ _ e. e ≡ Memory };

    fn from(_error: AllocFailed<T>) -> MacroFault {
        MacroFault::Memory
    }
}

//! Why files are not loaded.

ghost use Rattle.std.specs.Prelude.{◌≡◌};
ghost use Rattle.dfa_loading.specs.declared.fault.LoadFault.TheVariants.{Memory};

use digit_tuple::faults::OutOfMemory;
use digit_tuple::name::Name;
use std::alloc::{AllocError, AllocFailed};
use wal_outside::Folder;

/// Why a text lists no table.
#[derive(Clone, Copy, Debug, PartialEq, Eq)]
pub enum FileFlaw {
    /// The line of its first fault, counted from one.
    Line(u64),
    /// It has more bytes than a text that is read.
    TooLong,
}

/// Why files are not loaded.
#[derive(Drop)]
pub enum LoadFault {
    /// Nothing is under this name in this folder.
    Unknown(Folder, Name),
    /// The text that is there lists no table.
    File(Folder, Name, FileFlaw),
    /// The store failed there.
    Store(Folder, Name),
    /// A growth was refused.
    Memory,
}

impl From<OutOfMemory> for LoadFault {
    ghost from_gives = { λ _ e. e ≡ Memory };

    fn from(_error: OutOfMemory) -> LoadFault {
        LoadFault::Memory
    }
}

impl From<AllocError> for LoadFault {
    ghost from_gives = { λ _ e. e ≡ Memory };

    fn from(_error: AllocError) -> LoadFault {
        LoadFault::Memory
    }
}

impl<T: Drop> From<AllocFailed<T>> for LoadFault {
    ghost from_gives = { λ _ e. e ≡ Memory };

    fn from(_error: AllocFailed<T>) -> LoadFault {
        LoadFault::Memory
    }
}

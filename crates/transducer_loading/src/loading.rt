//! The transducer of a text, and of a name.

ghost use Rattle.std.specs.Prelude.{◌≡◌, ◌≤◌, length, MatchResult, Ok};
ghost use Rattle.wal_outside.specs.declared.store.TheConstants.{TEXT_LIMIT};
ghost use Rattle.transducer_reading.specs.Reading.{transducer_of};
ghost use Rattle.transducer_loading.specs.TransducerFiles.{IsLoadedTransducer, IsNoTransducer};

use dfa_loading::{FileFlaw, LoadFault};
use dfa_reading::FileFault;
use digit_tuple::name::Name;
use std::alloc::Global;
use transducer_reading::{Transducer, read_transducer};
use wal_outside::{Folder, Found, Store};

/// The transducer of the text under a name in the folder of transducers. The time is that of reading the text.
///
/// # Errors
/// `Unknown` where nothing is there; `File` where the text has more than `TEXT_LIMIT` bytes, or breaks the format, and then with the
/// line of the first fault; `Store` where the store failed, each with the folder and the name; or `Memory`. No text is changed.
pub fn load_transducer<T: Store>(
    alloc: Global,
    name: &Name,
    store: &mut T,
) -> Result<Transducer, LoadFault>
    ensures { IsLoadedTransducer name.now (T.view store.old) result (T.view store.new) }
{
    let copy = name.copy(alloc)?;
    read_named(alloc, copy, store)
}

/// The transducer under a name, which is let go.
fn read_named<T: Store>(alloc: Global, name: Name, store: &mut T) -> Result<Transducer, LoadFault>
    ensures { IsLoadedTransducer name (T.view store.old) result (T.view store.new) }
{
    let mut text = Vec::new(alloc);
    match store.read(Folder::Transducers, name.as_str(), &mut text) {
        Found::Found => transducer_in(alloc, name, &text),
        Found::Absent => Err(LoadFault::Unknown(Folder::Transducers, name)),
        Found::TooLong => Err(LoadFault::File(Folder::Transducers, name, FileFlaw::TooLong)),
        Found::Failed => Err(LoadFault::Store(Folder::Transducers, name)),
        Found::Memory => Err(LoadFault::Memory),
    }
}

/// The transducer of a text, which is under this name.
fn transducer_in(alloc: Global, name: Name, text: &[u8]) -> Result<Transducer, LoadFault>
    requires { length text.now ≤ TEXT_LIMIT }
    ensures { MatchResult result (λ t. transducer_of text.now ≡ Ok t) (IsNoTransducer name text.now) }
{
    match read_transducer(alloc, text) {
        Ok(transducer) => Ok(transducer),
        Err(FileFault::File(line)) => Err(LoadFault::File(
            Folder::Transducers,
            name,
            FileFlaw::Line(line),
        )),
        Err(FileFault::Memory) => Err(LoadFault::Memory),
    }
}

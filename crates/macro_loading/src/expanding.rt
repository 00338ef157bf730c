//! The expansion of a text by the macros of a store.

ghost use Rattle.std.specs.Prelude.{◌≡◌};
ghost use Rattle.macro_loading.specs.MacroFiles.{IsExpanded};
ghost use Rattle.macro_loading.specs.Reading.{HasWant, fault_of as fault_by, wanting};

use crate::fault::ExpansionFault;
use crate::macro_files::{MacroFiles, Want};
use dfa_loading::{FileFlaw, LoadFault};
use digit_tuple::name::Name;
use macro_expand::{MacroFault, expand_from};
use std::alloc::Global;
use wal_outside::{Folder, Store};

/// The expansion of the text by the macros of the store, as `macro_expand` gives it: each call `#NAME(a,b)` in it is
/// replaced by the text that is under this name in the folder of macros, with the arguments in its places. A macro's text
/// is read where the first call of it is met, after the call's arguments, and kept until the end; no other is read. The
/// time is that of reading these texts and of the expansion.
///
/// # Errors
/// The first fault that is met from the left, as `macro_expand` has them; for a macro of whose name no text is read, `Load` with
/// the macro's place: `Unknown` where nothing is there, `File` where the text has more than `TEXT_LIMIT` bytes, and `Store`
/// where the store failed. `Load` of `Memory` answers a refused growth. No text is changed.
pub fn expanded<T: Store>(
    alloc: Global,
    text: &[u8],
    store: &mut T,
) -> Result<Vec<u8>, ExpansionFault>
    ensures { IsExpanded text.now (T.view store.old) result (T.view store.new) }
{
    let mut macros = MacroFiles::new(alloc, store);
    let result = expand_from(alloc, text, &mut macros);
    let MacroFiles {
        alloc: _,
        store,
        texts: _texts,
        want,
    } = macros;
    // No effect at run time. The proof reads what the store holds from this use of it.
    let _ = &*store;
    match result {
        Ok(bytes) => Ok(bytes),
        Err(fault) => Err(fault_of(fault, want)),
    }
}

/// The fault of an expansion, where a name that is unknown is one that was not found.
fn fault_of(fault: MacroFault, want: Option<Want>) -> ExpansionFault
    requires { HasWant fault want }
    ensures { result ≡ fault_by fault want }
{
    match fault {
        MacroFault::Syntax(at) => ExpansionFault::Syntax(at),
        MacroFault::MacroArgs { name, place, given } => {
            ExpansionFault::MacroArgs { name, place, given }
        }
        MacroFault::MacroDepth(name) => ExpansionFault::MacroDepth(name),
        MacroFault::MacroLong => ExpansionFault::MacroLong,
        MacroFault::Unknown(name) => ExpansionFault::Load(load_fault(name, want.unwrap())),
        MacroFault::Memory => ExpansionFault::Load(LoadFault::Memory),
    }
}

/// Why the text of the macro of this name was not found.
fn load_fault(name: Name, want: Want) -> LoadFault
    ensures { result ≡ wanting name want }
{
    match want {
        Want::Absent => LoadFault::Unknown(Folder::Macros, name),
        Want::TooLong => LoadFault::File(Folder::Macros, name, FileFlaw::TooLong),
        Want::Failed => LoadFault::Store(Folder::Macros, name),
    }
}

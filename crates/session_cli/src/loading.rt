//! The text that a `load` names.
ghost use Rattle.std.specs.Prelude.{◌<◌, OnOk};
ghost use Rattle.definitions.specs.Texts.{Stores};
ghost use Rattle.definitions.specs.Trees.{Ledger};
ghost use Rattle.session_cli.specs.RunOutcomes.{LoadsText, IsLoadedText};
ghost use Rattle.command_parts.specs.StoreReads.{FromFiles};

use command_head::load_name;
use command_parts::fault::Fault;
use command_parts::file_refusal::FileRefusal;
use dfa_loading::FileFlaw;
use digit_tuple::name::Name;
use script_runs::LOAD_LIMIT;
use std::alloc::Global;
use wal_outside::{Folder, Found, Store};

/// The text of the file that a `load` names, which is inside so many loads; or the first of its checks that refuses it: the shape of
/// its head, the loads around it, and the file.
pub(crate) fn loaded_text<T: Store>(
    alloc: Global,
    text: &[u8],
    depth: usize,
    store: &mut T,
) -> Result<Vec<u8>, Fault>
    ensures few { OnOk result (depth < 8) }
    ensures loaded { FromFiles (λ found loaded. (ledger : Ledger) → Stores ledger found → LoadsText depth ledger text.now loaded) (T.view store.old) result (T.view store.new) }
{
    match load_name(alloc, text) {
        Ok(name) => {
            if depth < LOAD_LIMIT {
                file_text(alloc, name, store)
            } else {
                Err(Fault::from(FileRefusal::LoadDepth(name)))
            }
        }
        Err(fault) => Err(Fault::from(fault)),
    }
}

/// The text of the file of commands under this name.
fn file_text<T: Store>(alloc: Global, name: Name, store: &mut T) -> Result<Vec<u8>, Fault>
    ensures { FromFiles (IsLoadedText name) (T.view store.old) result (T.view store.new) }
{
    let mut text = Vec::new(alloc);
    match store.read(Folder::Commands, name.as_str(), &mut text) {
        Found::Found => Ok(text),
        Found::Absent => Err(Fault::from(FileRefusal::Unknown(Folder::Commands, name))),
        Found::TooLong => Err(Fault::from(FileRefusal::File(
            Folder::Commands,
            name,
            FileFlaw::TooLong,
        ))),
        Found::Failed => Err(Fault::Store(Folder::Commands, name)),
        Found::Memory => Err(Fault::Memory),
    }
}

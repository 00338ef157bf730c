//! The files of a formula, one after another.

ghost use Rattle.formula_resolve.specs.FirstMentions.{IsOnce};
ghost use Rattle.dfa_loading.specs.Loading.{IsLoaded};
ghost use Rattle.dfa_loading.specs.Places.{IsLoadedFile};

use crate::fault::LoadFault;
use crate::loaded::Loaded;
use crate::place::copied;
use crate::reading::read_file;
use formula_resolve::File;
use std::alloc::Global;
use wal_outside::Store;

/// What each of these files lists, in their order, each read once: an automaton's as a relation's file, a word's as a word's
/// file. What is not read is let go.
///
/// # Errors
/// The fault of the first file that is not loaded: `Unknown` where nothing is under its name in the folder of its kind;
/// `File` where the text is too long or breaks the format; `Store` where the store failed; or `Memory`. No text is changed.
pub fn load<T: Store>(
    alloc: Global,
    files: &[File],
    store: &mut T,
) -> Result<Vec<Loaded>, LoadFault>
    requires { IsOnce files.now }
    ensures { IsLoaded files.now (T.view store.old) result (T.view store.new) }
{
    let mut tables = Vec::new(alloc);
    for file in files {
        let table = load_file(alloc, file, store)?;
        tables.push(table)?;
    }
    Ok(tables)
}

/// What a file lists.
fn load_file<T: Store>(alloc: Global, file: &File, store: &mut T) -> Result<Loaded, LoadFault>
    ensures { IsLoadedFile file.now (T.view store.old) result (T.view store.new) }
{
    let copy = copied(alloc, file)?;
    read_file(alloc, copy, store)
}

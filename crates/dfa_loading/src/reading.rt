//! One file, read.

ghost use Rattle.std.specs.Prelude.{◌<◌, ◌≤◌, ◌^◌, length, MatchResult};
ghost use Rattle.wal_outside.specs.declared.store.TheConstants.{TEXT_LIMIT};
ghost use Rattle.dfa_reading.specs.DraftViews.{Gives};
ghost use Rattle.dfa_loading.specs.Places.{IsLoadedFile, ListsAs, IsNotListed, lists_of};

use crate::fault::{FileFlaw, LoadFault};
use crate::file_text::FileText;
use crate::loaded::Loaded;
use crate::place::{folder_of, into_name, name_of};
use dfa_reading::{FileFault, Listed, read_relation, read_word};
use formula_resolve::File;
use std::alloc::Global;
use wal_outside::{Found, Store};

/// What the text of a file lists, beside the text. The time is that of reading the bytes: for an automaton in proportion to them.
///
/// # Errors
/// `Unknown`, `File` or `Store` with the file's place, or `Memory`. No text is changed.
pub(crate) fn read_file<T: Store>(
    alloc: Global,
    file: File,
    store: &mut T,
) -> Result<Loaded, LoadFault>
    ensures { IsLoadedFile file (T.view store.old) result (T.view store.new) }
{
    let folder = folder_of(&file);
    let mut text = Vec::new(alloc);
    match store.read(folder, name_of(&file).as_str(), &mut text) {
        Found::Found => listed_in(alloc, file, text),
        Found::Absent => Err(LoadFault::Unknown(folder, into_name(file))),
        Found::TooLong => {
            let name = into_name(file);
            Err(LoadFault::File(folder, name, FileFlaw::TooLong))
        }
        Found::Failed => Err(LoadFault::Store(folder, into_name(file))),
        Found::Memory => Err(LoadFault::Memory),
    }
}

/// What a text lists, beside its file.
fn listed_in(alloc: Global, file: File, text: Vec<u8>) -> Result<Loaded, LoadFault>
    requires { length text.items ≤ TEXT_LIMIT }
    ensures { MatchResult result (ListsAs file text.items) (IsNotListed file text.items) }
{
    match lists(alloc, &file, &text) {
        Ok(listed) => {
            let text = FileText::new(text);
            Ok(Loaded { file, text, listed })
        }
        Err(FileFault::File(line)) => {
            let folder = folder_of(&file);
            let name = into_name(file);
            Err(LoadFault::File(folder, name, FileFlaw::Line(line)))
        }
        Err(FileFault::Memory) => Err(LoadFault::Memory),
    }
}

/// What a text lists as a file of this kind.
fn lists(alloc: Global, file: &File, text: &[u8]) -> Result<Listed, FileFault>
    requires { length text.now < 2 ^ 63 }
    ensures { Gives (λ listed. listed) result (lists_of file.now text.now) }
{
    match file {
        File::Automaton(_) => read_relation(alloc, text),
        File::Word(_) => read_word(alloc, text),
    }
}

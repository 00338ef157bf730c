//! Where the files that a formula names are.

ghost use Rattle.std.specs.Prelude.{◌≡◌, IfOk};
ghost use Rattle.dfa_loading.specs.Places.{place_of};

use digit_tuple::faults::OutOfMemory;
use digit_tuple::name::Name;
use formula_resolve::File;
use std::alloc::Global;
use wal_outside::Folder;

/// The folder in which a file is.
pub(crate) fn folder_of(file: &File) -> Folder
    ensures { result ≡ (place_of file.now).0 }
{
    match file {
        File::Automaton(_) => Folder::Automata,
        File::Word(_) => Folder::Words,
    }
}

/// The name of a file.
pub(crate) fn name_of(file: &File) -> &Name
    ensures { result.now ≡ (place_of file.now).1 }
{
    match file {
        File::Automaton(name) => name,
        File::Word(name) => name,
    }
}

/// The name of a file that is let go.
pub(crate) fn into_name(file: File) -> Name
    ensures { result ≡ (place_of file).1 }
{
    match file {
        File::Automaton(name) => name,
        File::Word(name) => name,
    }
}

/// The file once more.
pub(crate) fn copied(alloc: Global, file: &File) -> Result<File, OutOfMemory>
    ensures { IfOk result (λ copy. copy ≡ file.now) }
{
    match file {
        File::Automaton(name) => Ok(File::Automaton(name.copy(alloc)?)),
        File::Word(name) => Ok(File::Word(name.copy(alloc)?)),
    }
}

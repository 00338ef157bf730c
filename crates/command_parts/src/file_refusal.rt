//! What a file or a script is refused for.

use dfa_loading::FileFlaw;
use digit_tuple::name::Name;
use wal_outside::Folder;

/// Why a file that a command names, or the script, is refused.
#[derive(Drop)]
pub enum FileRefusal {
    /// F11: nothing is under this name in this folder.
    Unknown(Folder, Name),
    /// F12: the text that is under this name in this folder is not one that it is read as: a line breaks the format, or it is too
    /// long.
    File(Folder, Name, FileFlaw),
    /// F25: a load of the file of this name is within 8 others.
    LoadDepth(Name),
    /// F28: the script goes on past the bytes that may be read.
    ScriptLimit,
}

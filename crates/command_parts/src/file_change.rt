//! What an accepted command leaves.
ghost use Rattle.std.specs.Prelude.{◌≡◌};
ghost use Rattle.command_parts.specs.FileChanges.{printing as printing_of, writing as writing_of};

use crate::fault::Fault;
use crate::printed::Printed;
use digit_tuple::name::Name;
use wal_outside::Folder;

/// What a command stores, and what it prints.
#[derive(Drop)]
pub struct Made {
    /// The text to store.
    pub stored: Vec<u8>,
    /// What the command prints.
    pub printed: Printed,
}

/// The file that a command writes, and what it makes.
#[derive(Drop)]
pub struct FileChange {
    /// The folder of the file.
    pub folder: Folder,
    /// Its name.
    pub name: Name,
    /// What it stores and prints.
    pub made: Made,
}

/// What is to be done for an accepted command.
#[derive(Drop)]
pub enum Action {
    /// A file is written, and something is printed.
    Write(FileChange),
    /// This is printed, and no file is changed.
    Print(Printed),
}

/// A command that says something is to be printed.
///
/// # Errors
/// Its fault.
pub fn printing(said: Result<Printed, Fault>) -> Result<Action, Fault>
    ensures { result ≡ printing_of said }
{
    match said {
        Ok(printed) => Ok(Action::Print(printed)),
        Err(fault) => Err(fault),
    }
}

/// A command that stores is to be written.
///
/// # Errors
/// Its fault.
pub fn writing(change: Result<FileChange, Fault>) -> Result<Action, Fault>
    ensures { result ≡ writing_of change }
{
    match change {
        Ok(change) => Ok(Action::Write(change)),
        Err(fault) => Err(fault),
    }
}

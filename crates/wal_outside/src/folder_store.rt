// A store over the files of the current folder.
ghost use Rattle.std.specs.Prelude.{◌≡◌, None, IfOk};
ghost use Rattle.std.specs.String.{string_bytes};
ghost use Rattle.wal_outside.specs.Folders.{path_text, may_name_file};

use crate::folder::Folder;
use crate::sink::WriteFault;
use crate::store::{Found, Store, TEXT_LIMIT};
use std::alloc::{AllocError, Global};
use std::fs::{File, OpenOptions};
use std::io::{ErrorKind, Read, Write};
use std::rt::Files;
use std::{fs, io};

// How the file of a text ends.
const WHOLE: &str = ".txt";

// How it ends while it is written.
const UNFINISHED: &str = ".new";

/// A store over the files of the current folder: a text is in the file `FOLDER/NAME.txt`.
///
/// It opens no file outside the folders that `Folder` names: a name with a slash or a NUL is `Absent` to a read, and
/// `Failed` to a write. A write makes a missing folder. It writes `FOLDER/NAME.new` and gives it the other name when it
/// is whole, since a prefix of an automaton can be an automaton: a write that fails, or is cut off, leaves the text as
/// it was. A file that may not be written is not replaced.
pub struct FolderStore<'a, R: Files> {
    rt: &'a R,
    alloc: Global,
    faults: u64,
}

impl<'a, R: Files> Drop for FolderStore<'a, R> {
    fn drop(self) {
        let FolderStore {
            rt: _,
            alloc: _,
            faults: _,
        } = self;
    }
}

impl<'a, R: Files> FolderStore<'a, R> {
    /// A store over the files that `rt` reaches.
    pub fn new(rt: &'a R, alloc: Global) -> Self {
        FolderStore {
            rt,
            alloc,
            faults: 0,
        }
    }

    /// How many faults there were.
    pub fn faults(&self) -> u64
        ensures { result ≡ self.now.faults }
    {
        self.faults
    }

    // Reads the file into an empty `into`, up to one byte past the limit.
    fn read_file(&self, folder: Folder, name: &str, into: &mut Vec<u8>) -> io::Result<()> {
        let path = path_of(self.alloc, folder, name, WHOLE)?;
        let file = File::open(self.rt, path.as_str())?;
        let _ = file.take(TEXT_LIMIT as u64 + 1).read_to_end(into)?;
        Ok(())
    }

    // Whether a file may be written, or is not there.
    fn see_writable(&self, path: &str) -> io::Result<()> {
        match OpenOptions::new().write(true).open(self.rt, path) {
            Err(error) if error.kind() != ErrorKind::NotFound => Err(error),
            _ => Ok(()),
        }
    }

    // Writes a new file, and makes its folder where there is none.
    fn write_new(&self, folder: Folder, path: &str, text: &[u8]) -> io::Result<()> {
        let mut file = match File::create(self.rt, path) {
            Err(error) if error.kind() == ErrorKind::NotFound => {
                fs::create_dir(self.rt, folder.name())?;
                File::create(self.rt, path)?
            }
            answer => answer?,
        };
        file.write_all(text)
    }

    // Replaces the file, at once and as a whole.
    fn write_file(&self, folder: Folder, name: &str, text: &[u8]) -> io::Result<()> {
        let path = path_of(self.alloc, folder, name, WHOLE)?;
        let unfinished = path_of(self.alloc, folder, name, UNFINISHED)?;
        self.see_writable(path.as_str())?;
        let answer = match self.write_new(folder, unfinished.as_str(), text) {
            Ok(()) => fs::rename(self.rt, unfinished.as_str(), path.as_str()),
            error => error,
        };
        if answer.is_err() {
            let _ = fs::remove_file(self.rt, unfinished.as_str());
        }
        answer
    }
}

impl<'a, R: Files> Store for FolderStore<'a, R> {
    // files say nothing
    ghost view = { λ s. record { files = None; faults = s.faults; failed = None } };

    fn read(&mut self, folder: Folder, name: &str, into: &mut Vec<u8>) -> Found {
        into.clear();
        if !is_file_name(name) {
            return Found::Absent;
        }
        let answer = match self.read_file(folder, name, into) {
            Ok(()) if into.len() <= TEXT_LIMIT => return Found::Found,
            Ok(()) => Found::TooLong,
            Err(error) => match error.kind() {
                ErrorKind::NotFound => Found::Absent,
                ErrorKind::OutOfMemory => Found::Memory,
                _ => {
                    self.faults = self.faults.saturating_add(1);
                    Found::Failed
                }
            },
        };
        into.clear();
        answer
    }

    fn write(&mut self, folder: Folder, name: &str, text: &[u8]) -> Result<(), WriteFault> {
        if is_file_name(name) {
            match self.write_file(folder, name, text) {
                Ok(()) => return Ok(()),
                Err(error) if error.kind() == ErrorKind::OutOfMemory => {
                    return Err(WriteFault::Memory);
                }
                Err(_) => {}
            }
        }
        self.faults = self.faults.saturating_add(1);
        Err(WriteFault::Failed)
    }
}

// Whether a file of a folder may have this name.
fn is_file_name(name: &str) -> bool
    ensures { result ≡ may_name_file name.now }
{
    let bytes = name.as_bytes();
    !bytes.contains(&b'/') && !bytes.contains(&0)
}

// The path of a file with this ending.
fn path_of(alloc: Global, folder: Folder, name: &str, ending: &str) -> Result<String, AllocError>
    ensures { IfOk result (λ path. string_bytes path ≡ path_text folder name.now ending.now) }
{
    let mut path = String::from_str(alloc, folder.name())?;
    path.push_str("/")?;
    path.push_str(name)?;
    path.push_str(ending)?;
    Ok(path)
}

// Stores in memory.
ghost use Rattle.std.specs.Prelude.{◌≡◌, Some, None, OnOk, OnErr};
ghost use Rattle.std.specs.Option.{option_copied, option_map};
ghost use Rattle.wal_outside.specs.Causes.{CountsFault, is_failure};
ghost use Rattle.wal_outside.specs.Files.{put};
ghost use Rattle.wal_outside.specs.Places.{FailedAt};
ghost use Rattle.wal_outside.specs.Memory.{mem_files, sure_files, mem_failed, mem_count, call_place, store_calls};
ghost use Rattle.wal_outside.specs.Schedules.{IsFresh};

use crate::folder::Folder;
use crate::schedule::Schedule;
use crate::shelf::{Shelf, answer};
use crate::sink::WriteFault;
use crate::store::{Found, Store};
use std::alloc::{AllocError, Global};

/// The folder and name of a call that failed.
#[derive(Drop)]
pub struct FailedCall {
    pub folder: Folder,
    pub name: String,
}

/// A store in memory, which fails at given calls and says of the last one that failed.
#[derive(Drop)]
pub struct MemStore {
    alloc: Global,
    shelf: Shelf,
    schedule: Schedule,
    failed: Option<FailedCall>,
}

impl MemStore {
    /// A store without texts. The calls of `read` and `write` whose numbers are in `failing` fail;
    /// the first call has the number 1.
    pub fn new(alloc: Global, failing: Vec<u64>) -> Self
        ensures files { mem_files result ≡ (λ _ _. None) }
        ensures failed { mem_failed result ≡ None }
        ensures schedule { IsFresh result.schedule failing.items }
    {
        MemStore {
            alloc,
            shelf: Shelf::new(alloc),
            schedule: Schedule::new(failing),
            failed: None,
        }
    }

    /// Puts a text under a name in a folder, in place of one that may be there. This is no call of
    /// `write`: it counts as none and never fails as one.
    ///
    /// # Errors
    /// Where there is no memory for it, every text is as before.
    pub fn put(&mut self, folder: Folder, name: &str, text: &[u8]) -> Result<(), AllocError>
        ensures ok { OnOk result (mem_files self.new ≡ put (mem_files self.old) folder name.now text.now) }
        ensures err { OnErr result (mem_files self.new ≡ mem_files self.old) }
        ensures failed { mem_failed self.new ≡ mem_failed self.old }
    {
        self.shelf.put(self.alloc, folder, name, text)
    }

    /// The text under a name in a folder, where there is one.
    pub fn text(&self, folder: Folder, name: &str) -> Option<&[u8]>
        ensures { option_copied result ≡ mem_files self.now folder name.now }
    {
        self.shelf.find(folder, name)
    }

    /// How many texts there are.
    pub fn len(&self) -> usize
        ensures { result ≡ mem_count self.now }
    {
        self.shelf.len()
    }

    /// The folder and name of the last call that answered `Failed`, if one did.
    pub fn failed(&self) -> Option<&FailedCall>
        ensures { option_map call_place (option_copied result) ≡ mem_failed self.now }
    {
        self.failed.as_ref()
    }

    /// How many calls of `read` and `write` there were.
    pub fn calls(&self) -> u64
        ensures { result ≡ store_calls self.now }
    {
        self.schedule.calls
    }

    // Counts a fault, and keeps which call fails. Where there is no memory for its name, that is the fault instead, and none is counted.
    fn fail_at(&mut self, folder: Folder, name: &str) -> WriteFault
        ensures failed { FailedAt (is_failure result) (folder, name.now) (Some (mem_failed self.old)) (Some (mem_failed self.new)) }
        ensures files { self.new.shelf ≡ self.old.shelf }
        ensures faults { CountsFault (is_failure result) self.old.schedule.faults self.new.schedule.faults }
    {
        match String::from_str(self.alloc, name) {
            Ok(name) => {
                self.schedule.count_fault();
                self.failed = Some(FailedCall { folder, name });
                WriteFault::Failed
            }
            Err(_) => WriteFault::Memory,
        }
    }
}

impl Store for MemStore {
    ghost view = { λ s. record { files = Some (mem_files s); faults = s.schedule.faults; failed = Some (mem_failed s) } };

    fn read(&mut self, folder: Folder, name: &str, into: &mut Vec<u8>) -> Found {
        into.clear();
        if self.schedule.next_fails() {
            return match self.fail_at(folder, name) {
                WriteFault::Failed => Found::Failed,
                WriteFault::Memory => Found::Memory,
            };
        }
        answer(self.shelf.find(folder, name), into)
    }

    fn write(&mut self, folder: Folder, name: &str, text: &[u8]) -> Result<(), WriteFault> {
        if self.schedule.next_fails() {
            return Err(self.fail_at(folder, name));
        }
        self.shelf.put(self.alloc, folder, name, text)?;
        Ok(())
    }
}

/// A store in memory that never fails.
#[derive(Drop)]
pub struct SureStore {
    alloc: Global,
    shelf: Shelf,
}

impl SureStore {
    /// A store without texts.
    pub fn new(alloc: Global) -> Self
        ensures { sure_files result ≡ (λ _ _. None) }
    {
        SureStore {
            alloc,
            shelf: Shelf::new(alloc),
        }
    }

    /// The text under a name in a folder, where there is one.
    pub fn text(&self, folder: Folder, name: &str) -> Option<&[u8]>
        ensures { option_copied result ≡ sure_files self.now folder name.now }
    {
        self.shelf.find(folder, name)
    }
}

impl Store for SureStore {
    ghost view = { λ s. record { files = Some (sure_files s); faults = 0; failed = Some None } };

    fn read(&mut self, folder: Folder, name: &str, into: &mut Vec<u8>) -> Found {
        answer(self.shelf.find(folder, name), into)
    }

    fn write(&mut self, folder: Folder, name: &str, text: &[u8]) -> Result<(), WriteFault> {
        self.shelf.put(self.alloc, folder, name, text)?;
        Ok(())
    }
}

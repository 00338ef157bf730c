// Where texts are kept by folder and name.
ghost use Rattle.std.specs.Prelude.{◌≡◌, ◌≢◌, ◌≤◌, [], length};
ghost use Rattle.wal_outside.specs.Causes.{CountsFault, is_failed};
ghost use Rattle.wal_outside.specs.Calls.{is_failed_find};
ghost use Rattle.wal_outside.specs.Places.{FailedAt};
ghost use Rattle.wal_outside.specs.Views.{StoreView};
ghost use Rattle.wal_outside.specs.Answers.{Finds, Keeps};
ghost use Rattle.wal_outside.specs.declared.store.TheConstants.{TEXT_LIMIT};

use crate::folder::Folder;
use crate::sink::WriteFault;

/// The most bytes that a text may have to be read.
pub const TEXT_LIMIT: usize = 16_777_216;

/// What a store answers to a read.
#[derive(Clone, Copy, Debug, PartialEq, Eq)]
pub enum Found {
    /// The text was found, and is handed over.
    Found,
    /// There is no text under that name in that folder.
    Absent,
    /// The text has more than `TEXT_LIMIT` bytes.
    TooLong,
    /// A call of the outside failed.
    Failed,
    /// There was no memory for it.
    Memory,
}

/// Where texts are kept, each under a name in a folder.
pub trait Store {
    // the texts by folder and name, where they are reported; how many faults there were, which never falls, and stops at its
    // last value; and the folder and name of the last call that answered Failed, if one did, where that is reported
    ghost view: { Self → StoreView };

    /// Looks for the text under a name in a folder. Afterwards `into` holds the text at `Found`,
    /// and is empty at every other answer.
    ///
    /// `Absent` comes where there is no such text, `TooLong` where it has more than `TEXT_LIMIT`
    /// bytes, `Failed` where the count of faults rose, which else stays. No text is changed.
    fn read(&mut self, folder: Folder, name: &str, into: &mut Vec<u8>) -> Found
        ensures answer { Finds (view self.old).files folder name.now result into.new.items }
        ensures emptied { result ≢ Found.Found → into.new.items ≡ [] }
        ensures size { length into.new.items ≤ TEXT_LIMIT }
        ensures unchanged { (view self.new).files ≡ (view self.old).files }
        ensures faults { CountsFault (is_failed_find result) (view self.old).faults (view self.new).faults }
        ensures place { FailedAt (is_failed_find result) (folder, name.now) (view self.old).failed (view self.new).failed };

    /// Keeps the text under a name in a folder, in place of one that may be there.
    ///
    /// # Errors
    /// `Failed` where the call failed, and then the count of faults rose, which else stays; and
    /// `Memory` where it had none: every text is as before.
    fn write(&mut self, folder: Folder, name: &str, text: &[u8]) -> Result<(), WriteFault>
        ensures answer { Keeps (view self.old).files (view self.new).files folder name.now text.now result }
        ensures faults { CountsFault (is_failed result) (view self.old).faults (view self.new).faults }
        ensures place { FailedAt (is_failed result) (folder, name.now) (view self.old).failed (view self.new).failed };
}

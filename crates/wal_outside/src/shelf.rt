// Texts in memory, each under a name in a folder.
ghost use Rattle.std.specs.Prelude.{◌≡◌, ◌≢◌, ℕ, ◌<◌, ◌≤◌, [], length, vec_len, IsTrue, IfOk, IfSome, OnOk, OnErr, slice_get};
ghost use Rattle.std.specs.Option.{option_copied};
ghost use Rattle.std.specs.String.{string_bytes};
ghost use Rattle.wal_outside.specs.Answers.{Answers};
ghost use Rattle.wal_outside.specs.Files.{same_file, put};
ghost use Rattle.wal_outside.specs.Shelves.{is_at, lookup, HasAt};
ghost use Rattle.wal_outside.specs.declared.store.TheConstants.{TEXT_LIMIT};

use crate::folder::Folder;
use crate::store::{Found, TEXT_LIMIT};
use std::alloc::{AllocError, Global};

/// A text, and the name and folder under which it is.
#[derive(Drop)]
pub struct Text {
    pub folder: Folder,
    pub name: String,
    pub bytes: Vec<u8>,
}

impl Text {
    fn new(alloc: Global, folder: Folder, name: &str, bytes: &[u8]) -> Result<Self, AllocError>
        ensures folder { IfOk result (λ text. text.folder ≡ folder) }
        ensures name { IfOk result (λ text. string_bytes text.name ≡ name.now) }
        ensures bytes { IfOk result (λ text. text.bytes.items ≡ bytes.now) }
    {
        let name = String::from_str(alloc, name)?;
        let bytes = Vec::from_slice(alloc, bytes)?;
        Ok(Text {
            folder,
            name,
            bytes,
        })
    }

    /// Whether the text is under this name in this folder.
    pub fn is_at(&self, folder: Folder, name: &str) -> bool
        ensures { result ≡ same_file self.now.folder (string_bytes self.now.name) folder name.now }
    {
        self.folder == folder && self.name.as_str() == name
    }
}

/// Texts by folder and name, at most one under each.
#[derive(Drop)]
pub struct Shelf {
    texts: Vec<Text>,
}

impl Shelf {
    pub fn new(alloc: Global) -> Self
        ensures { result.texts.items ≡ [] }
    {
        Shelf {
            texts: Vec::new(alloc),
        }
    }

    /// How many texts there are.
    pub fn len(&self) -> usize
        ensures { result ≡ vec_len self.now.texts }
    {
        self.texts.len()
    }

    /// The text under a name in a folder, where there is one.
    pub fn find(&self, folder: Folder, name: &str) -> Option<&[u8]>
        ensures { option_copied result ≡ lookup self.now.texts.items folder name.now }
    {
        for text in &self.texts {
            if text.is_at(folder, name) {
                return Some(text.bytes.as_slice());
            }
        }
        None
    }

    // Where the text under a name in a folder is.
    fn position(&self, folder: Folder, name: &str) -> Option<usize>
        ensures { IfSome result (λ i. HasAt self.now.texts.items i folder name.now) }
    {
        for (i, text) in self.texts.iter().enumerate() {
            if text.is_at(folder, name) {
                return Some(i);
            }
        }
        None
    }

    /// Keeps a text under a name in a folder, in place of one that may be there.
    ///
    /// # Errors
    /// Where there is no memory for it, every text is as before.
    pub fn put(
        &mut self,
        alloc: Global,
        folder: Folder,
        name: &str,
        bytes: &[u8],
    ) -> Result<(), AllocError>
        ensures ok { OnOk result (lookup self.new.texts.items ≡ put (lookup self.old.texts.items) folder name.now bytes.now) }
        ensures err { OnErr result (self.new.texts.items ≡ self.old.texts.items) }
    {
        let text = Text::new(alloc, folder, name, bytes)?;
        let before = self.position(folder, name);
        self.texts.insert(0, text)?;
        if let Some(i) = before {
            let _ = self.texts.remove(i + 1);
        }
        Ok(())
    }
}

/// Hands over a text that may be there, as a store's `read` does.
pub fn answer(found: Option<&[u8]>, into: &mut Vec<u8>) -> Found
    ensures answer { Answers (option_copied found.entry) result into.new.items }
    ensures emptied { result ≢ Found.Found → into.new.items ≡ [] }
    ensures size { length into.new.items ≤ TEXT_LIMIT }
    ensures sure { result ≢ Found.Failed }
{
    into.clear();
    match found {
        None => Found::Absent,
        Some(text) if text.len() > TEXT_LIMIT => Found::TooLong,
        Some(text) => match into.extend_from_slice(text) {
            Ok(()) => Found::Found,
            Err(_) => Found::Memory,
        },
    }
}

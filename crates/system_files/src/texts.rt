//! The texts of users' systems that were read so far.

use digit_tuple::faults::OutOfMemory;
use digit_tuple::name::Name;
use std::alloc::Global;
use std::marker::Model;

/// What was found under a name.
#[derive(Drop)]
pub enum Finding {
    /// Nothing.
    Absent,
    /// This text.
    Text(Vec<u8>),
    /// A text that is too long to be read.
    TooLong,
}

/// What was found, beside the name.
#[derive(Drop)]
pub struct FoundText {
    pub name: Name,
    pub finding: Finding,
}

/// The texts of users' systems that were read so far in a command, in the order in which they were read. Each name is read once, so
/// that all of them may be in one folder.
#[derive(Drop)]
pub struct SystemTexts {
    found: Vec<FoundText>,
}

impl Model for SystemTexts {
    ghost use Rattle.std.specs.Prelude.{List};
    ghost use Rattle.system_files.specs.SystemTexts.{FoundText as WasFound, AreInSomeFolder};
    ghost use Rattle.system_files.specs.TextViews.{texts_in};

    ghost Value = { List WasFound };

    ghost view = { λ t. texts_in t.found.items };

    ghost invariant = { λ t. AreInSomeFolder (texts_in t.found.items) };
}

impl SystemTexts {
    ghost use Rattle.std.specs.Prelude.{◌≡◌, ◌<◌, [], ◌∷◌, ◌++◌, Some, length, slice_get, IfOk, IfSome, OnErr, OnOk, MatchOption};
    ghost use Rattle.system_files.specs.SystemTexts.{AreInSomeFolder, HasText};
    ghost use Rattle.system_files.specs.TextViews.{found_view};
    ghost use Rattle.system_files.specs.Looks.{IsNew, IsAt, CanBeFound, is_text};

    /// No text was read. It takes no memory.
    pub fn new(alloc: Global) -> Self
        ensures { result ≡ [] }
    {
        SystemTexts {
            found: Vec::new(alloc),
        }
    }

    /// What was found is in some folder. It does nothing.
    pub fn are_in_some_folder(&self)
        ensures { AreInSomeFolder self.now }
    {
        let _ = &self.found;
    }

    /// The text that was found under a name, if the name was read and a text is there that is not too long. The time is in proportion
    /// to how many were read.
    pub fn text(&self, name: &Name) -> Option<&[u8]>
        ensures { IfSome result (λ text. HasText self.now name.now text.now) }
    {
        let place = self.place_of(name)?;
        match &self.at(place).finding {
            Finding::Text(text) => Some(text),
            Finding::Absent => None,
            Finding::TooLong => None,
        }
    }

    /// The place of what was found under a name, if it was read. The time is in proportion to how many were.
    pub(crate) fn place_of(&self, name: &Name) -> Option<usize>
        ensures { MatchOption result (IsNew self.now name.now) (IsAt self.now name.now) }
    {
        for (place, found) in self.found.iter().enumerate() {
            if found.name.as_bytes() == name.as_bytes() {
                return Some(place);
            }
        }
        None
    }

    /// What was found, at its place.
    pub(crate) fn at(&self, place: usize) -> &FoundText
        requires { place < length self.now }
        ensures { slice_get self.now place ≡ Some (found_view result.now) }
    {
        &self.found[place]
    }

    /// Adds what was found under a new name, and gives its place. Out of memory leaves the texts as they were.
    pub(crate) fn add(&mut self, found: FoundText) -> Result<usize, OutOfMemory>
        requires new { IsNew self.old found.name }
        requires found { CanBeFound (found_view found).finding }
        ensures ok { OnOk result (self.new ≡ self.old ++ found_view found ∷ []) }
        ensures place { IfOk result (λ place. place ≡ length self.old) }
        ensures err { OnErr result (self.new ≡ self.old) }
    {
        let place = self.found.len();
        self.found.push(found)?;
        Ok(place)
    }
}

impl FoundText {
    ghost use Rattle.std.specs.Prelude.{◌≡◌};
    ghost use Rattle.system_files.specs.TextViews.{found_view};
    ghost use Rattle.system_files.specs.Looks.{is_text};

    /// Whether a text was found.
    pub(crate) fn is_there(&self) -> bool
        ensures { result ≡ is_text (found_view self.now).finding }
    {
        match &self.finding {
            Finding::Absent => false,
            Finding::Text(_) => true,
            Finding::TooLong => true,
        }
    }
}

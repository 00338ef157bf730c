//! What a file lists, beside the file and its text.

ghost use Rattle.std.specs.Prelude.{◌≡◌};
ghost use Rattle.dfa_loading.specs.Places.{place_of};

use crate::file_text::FileText;
use crate::place::name_of;
use dfa_reading::Listed;
use digit_tuple::name::Name;
use formula_resolve::File;

/// What a file lists: an automaton's its table, and a word's the table with the letters.
#[derive(Drop)]
pub struct Loaded {
    /// The file.
    pub file: File,
    /// Its text.
    pub text: FileText,
    /// What the text lists.
    pub listed: Listed,
}

impl Loaded {
    /// The name of the file. An automaton and a word may have one name.
    pub fn name(&self) -> &Name
        ensures { result.now ≡ (place_of self.now.file).1 }
    {
        name_of(&self.file)
    }
}

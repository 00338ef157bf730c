//! The texts of macros.

ghost use Rattle.std.specs.Prelude.{◌≡◌, OnOk, OnErr};
ghost use Rattle.std.specs.Option.{option_copied};
ghost use Rattle.std.specs.FinMap as map;

use digit_tuple::faults::OutOfMemory;
use std::alloc::Global;
use std::collections::BTreeMap;
use std::marker::Model;

/// The texts of macros, seen as a finite map from their names to them.
#[derive(Drop)]
pub struct Macros {
    alloc: Global,
    texts: BTreeMap<Vec<u8>, Vec<u8>>,
}

impl Model for Macros {
    ghost use Rattle.std.specs.Coded.{coded_ℕ, coded_list};
    ghost use Rattle.std.specs.FinMap as map;
    ghost use Rattle.macro_expand.specs.Texts.{Texts, texts_view};

    ghost Value = { Texts };

    ghost coded = { map.code (coded_list coded_ℕ) (coded_list coded_ℕ) };

    ghost view = { λ a. texts_view a.texts.entries };
}

impl Macros {
    /// No macros. It takes no memory.
    pub fn new(alloc: Global) -> Macros
        ensures { result ≡ map.empty }
    {
        Macros {
            alloc,
            texts: BTreeMap::new(alloc),
        }
    }

    /// Adds the macro of this name and text, in place of one of the name that may have been added.
    ///
    /// # Errors
    /// Where there is no memory for it, the macros are as before.
    pub fn add(&mut self, name: &[u8], text: &[u8]) -> Result<(), OutOfMemory>
        ensures ok { OnOk result (self.new ≡ map.insert self.old name.now text.now) }
        ensures err { OnErr result (self.new ≡ self.old) }
    {
        let name = Vec::from_slice(self.alloc, name)?;
        let text = Vec::from_slice(self.alloc, text)?;
        self.texts.insert(name, text)?;
        Ok(())
    }

    /// The text of the macro of this name, where one was added. It takes no memory.
    pub fn text_of(&self, name: &[u8]) -> Option<&[u8]>
        ensures { option_copied result ≡ map.get self.now name.now }
    {
        match self.texts.get(name) {
            Some(text) => Some(text.as_slice()),
            None => None,
        }
    }
}

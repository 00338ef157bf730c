//! What the files of a user's system list.

use dfa_reading::Listed;
use std::marker::Model;

/// What the files of a language and of its adder list, over so many digits, and whether their words are read in the other
/// direction than that of the name.
#[derive(Drop)]
pub struct SystemFiles {
    digits: u32,
    reversed: bool,
    language: Listed,
    adder: Listed,
}

impl Model for SystemFiles {
    ghost use Rattle.system_files.specs.SystemFiles.{SystemFiles as FilesOfSystem, AreOverDigits};

    ghost Value = { FilesOfSystem };

    ghost view = { λ f. record { digits = f.digits; reversed = f.reversed; language = f.language; adder = f.adder } };

    ghost invariant = { λ f. AreOverDigits (record { digits = f.digits; reversed = f.reversed; language = f.language; adder = f.adder }) };
}

impl SystemFiles {
    ghost use Rattle.std.specs.Prelude.{◌≡◌};
    ghost use Rattle.system_files.specs.SystemFiles.{AreOverDigits};

    /// The files that list this.
    pub fn new(digits: u32, reversed: bool, language: Listed, adder: Listed) -> Self
        requires { AreOverDigits (record { digits = digits; reversed = reversed; language = language; adder = adder }) }
        ensures { result ≡ record { digits = digits; reversed = reversed; language = language; adder = adder } }
    {
        SystemFiles {
            digits,
            reversed,
            language,
            adder,
        }
    }

    /// How many digits the system has.
    pub fn digits(&self) -> u32
        ensures digits { result ≡ self.now.digits }
        ensures files { AreOverDigits self.now }
    {
        self.digits
    }

    /// Whether the files are those of the other direction than that of the name.
    pub fn reversed(&self) -> bool
        ensures { result ≡ self.now.reversed }
    {
        self.reversed
    }

    /// What the file of the language lists.
    pub fn language(&self) -> &Listed
        ensures { result.now ≡ self.now.language }
    {
        &self.language
    }

    /// What the file of the adder lists.
    pub fn adder(&self) -> &Listed
        ensures { result.now ≡ self.now.adder }
    {
        &self.adder
    }
}

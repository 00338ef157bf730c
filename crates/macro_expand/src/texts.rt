//! Where the texts of macros come from.

ghost use Rattle.std.specs.Prelude.{◌≡◌, ℕ, List, IfSome, MatchOption, OnOk, OnErr};
ghost use Rattle.std.specs.Option.{option_copied};
ghost use Rattle.macro_expand.specs.Texts.{TextOf};
ghost use Rattle.macro_expand.specs.Sources.{AreAmong};

use digit_tuple::faults::OutOfMemory;
use digit_tuple::name::Name;

/// A source of the texts of macros, which finds them one after another.
pub trait MacroTexts {
    /// The texts that were found so far, by their names.
    ghost found: { Self → TextOf };

    /// What the source may come to as it finds texts.
    ghost becomes: { Self → Self → Type 0 };

    /// What it may come to where it has no text of this name.
    ghost lacks: { Self → List ℕ → Self → Type 0 };

    /// Looks for the text of the macro of this name, unless it was found before. What was found is kept.
    ///
    /// # Errors
    /// Where there is no memory for the text.
    fn find(&mut self, name: &Name) -> Result<(), OutOfMemory>
        ensures kept { AreAmong (found self.new) (found self.old) }
        ensures ok { OnOk result (MatchOption (found self.new name.now) (lacks self.old name.now self.new) (λ text. becomes self.old self.new)) }
        ensures err { OnErr result (becomes self.old self.new) };

    /// The text of the macro of this name, where it was found.
    fn text_of(&self, name: &Name) -> Option<&[u8]>
        ensures { option_copied result ≡ found self.now name.now };

    /// A source may stay as it is.
    ghost stays: { (s : Self) → becomes s s };

    /// It may go on to find texts.
    ghost goes_on: { (a b c : Self) → becomes a b → becomes b c → becomes a c };

    /// And it may have no text of a name afterwards.
    ghost lacks_then: { (a b c : Self) (name : List ℕ) → becomes a b → lacks b name c → lacks a name c };
}

//! Macros that were added, as a source of texts.

ghost use Rattle.std.specs.Prelude.{◌≡◌, None};
ghost use Rattle.std.proofs.Common.{refl, sym, ap, ◌∙◌};
ghost use Rattle.macro_expand.specs.Texts.{text_in};

use crate::macros::Macros;
use crate::texts::MacroTexts;
use digit_tuple::faults::OutOfMemory;
use digit_tuple::name::Name;

/// The macros that were added: all texts are found.
#[derive(Clone, Copy)]
pub(crate) struct Added<'a> {
    pub macros: &'a Macros,
}

impl MacroTexts for Added<'_> {
    ghost found = { λ a. text_in a.macros.now };

    ghost becomes = { λ a b. b.macros.now ≡ a.macros.now };

    ghost lacks = { λ a name b. (b.macros.now ≡ a.macros.now) × (text_in a.macros.now name ≡ None) };

    ghost stays = { λ a. refl };

    ghost goes_on = { λ a b c first second. second ∙ first };

    ghost lacks_then = { λ a b c name first second. (second.0 ∙ first, ap (λ m. text_in m name) (sym first) ∙ second.1) };

    fn find(&mut self, _name: &Name) -> Result<(), OutOfMemory> {
        Ok(())
    }

    fn text_of(&self, name: &Name) -> Option<&[u8]> {
        self.macros.text_of(name.as_bytes())
    }
}

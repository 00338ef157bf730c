//! Heads of commands that load a file or end a run.
ghost use Rattle.std.specs.Prelude.{◌≡◌, true};
ghost use Rattle.command_head.specs.Parts.{is_name as is_name_part};
ghost use Rattle.command_head.specs.Grammar.{DerivesLoad, DerivesAlone};
ghost use Rattle.command_head.specs.Breaks.{HasHead};

use crate::fault::HeadFault;
use crate::kinds::{after_word, at_end, file_in};
use crate::stage::name_of;
use digit_tuple::name::Name;
use std::alloc::Global;

/// The name in `load NAME` or `load NAME.txt`. Blanks are between the parts.
///
/// # Errors
/// `Syntax` gives the first byte of the first part that does not go on so, or the text's length where it ends too
/// early; `Number` is never given, since no number may be in such a head.
pub fn load_name(alloc: Global, text: &[u8]) -> Result<Name, HeadFault>
    ensures { HasHead DerivesLoad (λ name. name) text.now result }
{
    let rest = after_word(b"load", text)?;
    let file = rest.first_part();
    let name = file_in(&file)?;
    at_end(&file.rest)?;
    name_of(alloc, name)
}

/// Whether a text is this word alone. Blanks may come after it.
///
/// # Errors
/// `Syntax` gives the first byte of what is not the word, or comes after it.
pub fn word_alone(word: &[u8], text: &[u8]) -> Result<(), HeadFault>
    requires { is_name_part word.now ≡ true }
    ensures { HasHead (DerivesAlone word.now) (λ done. done) text.now result }
{
    let rest = after_word(word, text)?;
    at_end(&rest)
}

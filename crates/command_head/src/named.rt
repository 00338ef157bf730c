//! Heads that are a word, a name and a quoted text.
ghost use Rattle.std.specs.Prelude.{◌≡◌, true};
ghost use Rattle.command_head.specs.Parts.{is_name as is_name_part};
ghost use Rattle.command_head.specs.Grammar.{DerivesNamed};
ghost use Rattle.command_head.specs.HeadViews.{named_view};
ghost use Rattle.command_head.specs.Breaks.{HasHead};

use crate::fault::HeadFault;
use crate::head::NamedParts;
use crate::kinds::{after_word, at_end, body_in, name_in};
use crate::stage::name_of;
use std::alloc::Global;

/// The parts of `WORD NAME "TEXT"`, for a word of the form of a name. Blanks may be between the parts, and one comes
/// before the name.
///
/// # Errors
/// `Syntax` gives the first byte of the first part that does not go on so, or the text's length where it ends too
/// early; `Number` is never given, since no number may be in such a head.
pub fn named_parts<'a>(
    alloc: Global,
    word: &[u8],
    text: &'a [u8],
) -> Result<NamedParts<'a>, HeadFault>
    requires { is_name_part word.now ≡ true }
    ensures { HasHead (DerivesNamed word.now) named_view text.now result }
{
    let rest = after_word(word, text)?;
    let name = rest.first_part();
    let bytes = name_in(&name)?;
    let quoted = name.rest.first_part();
    let body = body_in(&quoted)?;
    at_end(&quoted.rest)?;
    Ok(NamedParts {
        name: name_of(alloc, bytes)?,
        body,
    })
}

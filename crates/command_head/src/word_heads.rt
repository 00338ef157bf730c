//! Heads of commands that make a word of a morphism or of another word.
ghost use Rattle.std.specs.Prelude.{◌≡◌, true};
ghost use Rattle.command_head.specs.Parts.{is_name as is_name_part};
ghost use Rattle.command_head.specs.Grammar.{DerivesPromote, DerivesImage, DerivesConvert};
ghost use Rattle.command_head.specs.HeadViews.{promote_view, image_view, convert_view};
ghost use Rattle.command_head.specs.Breaks.{HasHead};

use crate::fault::HeadFault;
use crate::head::{ConvertParts, ImageParts, PromoteParts};
use crate::kinds::{after_word, at_end, name_in, system_in, word_in};
use crate::stage::name_of;
use std::alloc::Global;

/// The parts of `promote WORD NAME`. Blanks are between the parts.
///
/// # Errors
/// `Syntax` gives the first byte of the first part that does not go on so, or the text's length where it ends too
/// early; `Number` is never given, since no number may be in such a head.
pub fn promote_parts(alloc: Global, text: &[u8]) -> Result<PromoteParts, HeadFault>
    ensures { HasHead DerivesPromote promote_view text.now result }
{
    let rest = after_word(b"promote", text)?;
    let first = rest.first_part();
    let word = word_in(&first)?;
    let second = first.rest.first_part();
    let morphism = name_in(&second)?;
    at_end(&second.rest)?;
    Ok(PromoteParts {
        word: name_of(alloc, word)?,
        morphism: name_of(alloc, morphism)?,
    })
}

/// The parts of `WORD WORD NAME WORD`, for a first word of the form of a name: the new word, what maps the letters, and the
/// old word. Blanks are between the parts.
///
/// # Errors
/// `Syntax` gives the first byte of the first part that does not go on so, or the text's length where it ends too
/// early; `Number` is never given, since no number may be in such a head.
pub fn image_parts(alloc: Global, word: &[u8], text: &[u8]) -> Result<ImageParts, HeadFault>
    requires { is_name_part word.now ≡ true }
    ensures { HasHead (DerivesImage word.now) image_view text.now result }
{
    let rest = after_word(word, text)?;
    let first = rest.first_part();
    let new = word_in(&first)?;
    let second = first.rest.first_part();
    let mapping = name_in(&second)?;
    let third = second.rest.first_part();
    let old = word_in(&third)?;
    at_end(&third.rest)?;
    Ok(ImageParts {
        word: name_of(alloc, new)?,
        mapping: name_of(alloc, mapping)?,
        old: name_of(alloc, old)?,
    })
}

/// The parts of `convert WORD SYSTEM WORD`. Blanks are between the parts.
///
/// # Errors
/// `Syntax` gives the first byte of the first part that does not go on so, or the text's length where it ends too
/// early; `Number` is never given, since no number may be in such a head.
pub fn convert_parts(alloc: Global, text: &[u8]) -> Result<ConvertParts, HeadFault>
    ensures { HasHead DerivesConvert convert_view text.now result }
{
    let rest = after_word(b"convert", text)?;
    let first = rest.first_part();
    let word = word_in(&first)?;
    let second = first.rest.first_part();
    let system = system_in(&second)?;
    let last = second.rest.first_part();
    let old = word_in(&last)?;
    at_end(&last.rest)?;
    Ok(ConvertParts {
        word: name_of(alloc, word)?,
        system: name_of(alloc, system)?,
        old: name_of(alloc, old)?,
    })
}

//! Heads of commands that make a language of others.
ghost use Rattle.std.specs.Prelude.{◌≡◌, true};
ghost use Rattle.command_head.specs.Parts.{is_name as is_name_part};
ghost use Rattle.command_head.specs.Grammar.{DerivesLanguages, DerivesLanguage};
ghost use Rattle.command_head.specs.HeadViews.{languages_view};
ghost use Rattle.command_head.specs.Breaks.{HasHead};

use crate::fault::HeadFault;
use crate::head::LanguagesParts;
use crate::kinds::{after_word, at_end, name_in};
use crate::stage::name_of;
use std::alloc::Global;

/// The parts of `WORD NAME NAME ..`, for a word of the form of a name: a new name, and one or more other names. Blanks
/// are between the parts.
///
/// # Errors
/// `Syntax` gives the first byte of the first part that does not go on so, or the text's length where it ends too
/// early; `Number` is never given, since no number may be in such a head.
pub fn languages_parts(alloc: Global, word: &[u8], text: &[u8]) -> Result<LanguagesParts, HeadFault>
    requires { is_name_part word.now ≡ true }
    ensures { HasHead (DerivesLanguages word.now) languages_view text.now result }
{
    let suffix = after_word(word, text)?;
    let first = suffix.first_part();
    let name = name_in(&first)?;
    let mut rest = first.rest;
    let mut languages = Vec::new(alloc);
    'languages: while languages.is_empty() || !rest.bytes.is_empty() {
        let part = rest.first_part();
        let language = name_in(&part)?;
        languages.push(name_of(alloc, language)?)?;
        rest = part.rest;
    }
    Ok(LanguagesParts {
        name: name_of(alloc, name)?,
        languages,
    })
}

/// The parts of `WORD NAME NAME`, for a word of the form of a name: a new name, and another name. Blanks are between the
/// parts.
///
/// # Errors
/// `Syntax` gives the first byte of the first part that does not go on so, or the text's length where it ends too
/// early; `Number` is never given, since no number may be in such a head.
pub fn language_parts(alloc: Global, word: &[u8], text: &[u8]) -> Result<LanguagesParts, HeadFault>
    requires { is_name_part word.now ≡ true }
    ensures { HasHead (DerivesLanguage word.now) languages_view text.now result }
{
    let rest = after_word(word, text)?;
    let first = rest.first_part();
    let name = name_in(&first)?;
    let second = first.rest.first_part();
    let language = name_in(&second)?;
    at_end(&second.rest)?;
    let mut languages = Vec::new(alloc);
    languages.push(name_of(alloc, language)?)?;
    Ok(LanguagesParts {
        name: name_of(alloc, name)?,
        languages,
    })
}

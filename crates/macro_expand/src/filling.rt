//! A macro's text with arguments in its places.

ghost use Rattle.std.specs.Prelude.{◌≡◌, map};
ghost use Rattle.macro_expand.specs.Filling.{segments, missing, filled};
ghost use Rattle.macro_expand.specs.Expansion.{limited, filled_text as text_filled};
ghost use Rattle.macro_expand.specs.Sources.{AnswersFrom};
ghost use Rattle.macro_expand.specs.Views.{Answers};

use crate::bytes::after;
use crate::fault::MacroFault;
use crate::limited::put;
use crate::segment::first_segment;
use crate::texts::MacroTexts;
use digit_tuple::name::Name;
use std::alloc::Global;

/// The first number of a place of the text for which so many arguments are too few.
fn missing_place(text: &[u8], given: usize) -> Option<u64>
    ensures { result ≡ missing given (segments text.now) }
{
    let mut rest = text;
    while !rest.is_empty() {
        let segment = first_segment(rest);
        if let Some(number) = segment.missing(given) {
            return Some(number);
        }
        rest = after(segment.len(), rest);
    }
    None
}

/// The text with arguments in its places.
fn fill(alloc: Global, text: &[u8], arguments: &[Vec<u8>]) -> Result<Vec<u8>, MacroFault>
    ensures { Answers (λ made. made.items) result (limited (filled (map (λ argument. argument.items) arguments.now) (segments text.now))) }
{
    let mut made = Vec::new(alloc);
    let mut rest = text;
    while !rest.is_empty() {
        let segment = first_segment(rest);
        put(&mut made, segment.text(arguments))?;
        rest = after(segment.len(), rest);
    }
    Ok(made)
}

/// The text of the macro of this name, with arguments in its places.
pub(crate) fn filled_text<M: MacroTexts>(
    alloc: Global,
    macros: &mut M,
    name: Name,
    arguments: &[Vec<u8>],
) -> Result<Vec<u8>, MacroFault>
    ensures { AnswersFrom M.found M.becomes M.lacks (λ made. made.items) (λ texts. text_filled name (map (λ argument. argument.items) arguments.now) (texts name)) macros.old result macros.new }
{
    macros.find(&name)?;
    let Some(text) = macros.text_of(&name) else {
        return Err(MacroFault::Unknown(name));
    };
    if let Some(place) = missing_place(text, arguments.len()) {
        return Err(MacroFault::MacroArgs {
            name,
            place,
            given: arguments.len(),
        });
    }
    fill(alloc, text, arguments)
}

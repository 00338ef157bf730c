//! The heads of `combine` commands.
ghost use Rattle.std.specs.Prelude.{◌<◌, ◌+◌, ◌^◌, length, MatchResult, IfOk};
ghost use Rattle.command_head.specs.Values.{RefusesValued};
ghost use Rattle.command_head.specs.Grammar.{DerivesValued, DerivesCombine};
ghost use Rattle.command_head.specs.HeadViews.{IsReadAs, valued_view, combine_view};
ghost use Rattle.command_head.specs.Breaks.{HasHead};

use crate::fault::HeadFault;
use crate::head::{CombineParts, ValuedName};
use crate::kinds::{after_word, word_in};
use crate::parts::is_name;
use crate::rest::FirstPart;
use crate::stage::name_of;
use std::alloc::Global;
use text_grammar::{Class, begins_with, is_number, number_of, prefix_len};

/// What follows a name in its part.
enum ValueText {
    /// Nothing, or `=` and a number of 32 bits, signed.
    Given(Option<i32>),
    /// `=` and a number that does not fit.
    Long,
    /// Neither.
    Other,
}

/// What these bytes are, which come after a name in its part.
fn value_text(suffix: &[u8]) -> ValueText
    ensures { IsReadAs suffix.now result }
{
    if suffix.is_empty() {
        return ValueText::Given(None);
    }
    if !begins_with(b'=', suffix) || !is_number(&suffix[1..]) {
        return ValueText::Other;
    }
    match number_of(&suffix[1..]) {
        Some(number) => ValueText::Given(Some(number)),
        None => ValueText::Long,
    }
}

/// The automaton that a part has to be: a name, alone or with `=` and a number after it.
fn valued_name(alloc: Global, part: &FirstPart<'_>) -> Result<ValuedName, HeadFault>
    requires { part.now.at + length part.now.bytes.now < 2 ^ 64 }
    ensures { MatchResult result (λ valued. DerivesValued part.now.bytes.now (valued_view valued)) (RefusesValued part.now.bytes.now part.now.at) }
{
    let (name, suffix) = part.bytes.split_at(prefix_len(Class::NameByte, part.bytes));
    if !is_name(name) {
        return Err(HeadFault::Syntax(part.at));
    }
    match value_text(suffix) {
        ValueText::Given(value) => Ok(ValuedName {
            name: name_of(alloc, name)?,
            value,
        }),
        ValueText::Long => Err(HeadFault::Number(part.at + name.len() + 1)),
        ValueText::Other => Err(HeadFault::Syntax(part.at)),
    }
}

/// The parts of `combine WORD NAME[=V] ..`, with one automaton or more. Blanks are between the parts, and none inside
/// `NAME=V`. The text is shorter than 2^32 bytes.
///
/// # Errors
/// `Syntax` gives the first byte of the first part that does not go on so, or the text's length where it ends too
/// early; `Number` that of a value that does not fit 32 bits, signed. The first such part decides.
pub fn combine_parts(alloc: Global, text: &[u8]) -> Result<CombineParts, HeadFault>
    requires { length text.now < 2 ^ 32 }
    ensures head { HasHead DerivesCombine combine_view text.now result }
    // Each place of the list, counted from 1, is a number of 32 bits, signed.
    ensures few { IfOk result (λ parts. length parts.automata.items < 2 ^ 31) }
{
    let suffix = after_word(b"combine", text)?;
    let first = suffix.first_part();
    let word = word_in(&first)?;
    let mut rest = first.rest;
    let mut automata = Vec::new(alloc);
    'automata: while automata.is_empty() || !rest.bytes.is_empty() {
        let part = rest.first_part();
        automata.push(valued_name(alloc, &part)?)?;
        rest = part.rest;
    }
    Ok(CombineParts {
        word: name_of(alloc, word)?,
        automata,
    })
}

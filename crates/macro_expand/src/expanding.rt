//! The expansion of a text: what it is made of, one after another, each call by its arguments and its macro's text.

ghost use Rattle.std.specs.Prelude.{◌≡◌, ◌≤◌, length, map, OnOk, IsAscii};
ghost use Rattle.macro_expand.specs.Expansion.{each, expand_piece as with_piece, expand_text as text_expanded, expand_arguments as arguments_expanded, expand_call_within, expansion};
ghost use Rattle.macro_expand.specs.Texts.{text_in};
ghost use Rattle.macro_expand.specs.Sources.{AnswersFrom};
ghost use Rattle.macro_expand.specs.Views.{Answers, IsNamed, call_view, pieces_view, expanded_view, given_view};

use crate::added::Added;
use crate::arguments::arguments_of;
use crate::bytes::after;
use crate::call::Call;
use crate::fault::{MacroFault, name_of};
use crate::filling::filled_text;
use crate::limited::put;
use crate::macros::Macros;
use crate::piece::{Piece, first_piece};
use crate::texts::MacroTexts;
use std::alloc::Global;

/// On how many levels calls may be.
const MOST_LEVELS: usize = 16;

/// How many calls may be met.
const MOST_CALLS: usize = 65_536;

/// The bytes that were made, and how many calls were met in the whole expansion.
#[derive(Drop)]
struct Expanded {
    bytes: Vec<u8>,
    calls: usize,
}

/// The arguments that were expanded, and how many calls were met in the whole expansion.
#[derive(Drop)]
struct Given {
    texts: Vec<Vec<u8>>,
    calls: usize,
}

/// The expansion of the text: each call `#NAME(a,b)` in it is replaced by the text of the macro of this name, with the
/// arguments in its places `%0`, `%1` and so on.
///
/// A call's name begins with a letter, goes on with letters, digits and `_`, and has at most 64 bytes; blanks may come
/// after it. The call ends at the `)` that closes its `(`; parentheses alone count. An argument ends at a comma where no
/// further parenthesis and no square bracket is open; a `]` where none is open counts nothing. Arguments keep their blanks,
/// and a call with only blanks between its parentheses has none. A `%` takes all digits that follow it, and stays where
/// there is none. Arguments for which there is no place are expanded all the same, and left out.
///
/// A call's arguments are expanded first, then the text that they fill in, both one level deeper than the call.
///
/// # Errors
/// The first fault that is met from the left. At a call's `#` come `Syntax`, `MacroDepth` where it is within 16 others,
/// and `MacroLong` where it is the 65,537th; then the faults of its arguments, from the left; then `Unknown`,
/// `MacroArgs`, and `MacroLong` where the text that the arguments fill in has more than 65,536 bytes; then the faults of
/// that text. `MacroLong` also comes where an expansion grows past 65,536 bytes. `Memory` answers a refused growth.
pub fn expand(alloc: Global, text: &[u8], macros: &Macros) -> Result<Vec<u8>, MacroFault>
    ensures { Answers (λ made. made.items) result (expansion (text_in macros.now) text.now) }
{
    expand_from(alloc, text, &mut Added { macros })
}

/// The expansion of the text, as `expand` gives it, by the texts of a source: a macro's text is looked for where a call of
/// it is met, after the call's arguments, and no other.
///
/// # Errors
/// As for `expand`. `Unknown` comes where the source found no text of that name.
pub fn expand_from<M: MacroTexts>(
    alloc: Global,
    text: &[u8],
    macros: &mut M,
) -> Result<Vec<u8>, MacroFault>
    ensures { AnswersFrom M.found M.becomes M.lacks (λ made. made.items) (λ texts. expansion texts text.now) macros.old result macros.new }
{
    let expanded = expand_text(alloc, macros, text, MOST_LEVELS, 0)?;
    Ok(expanded.bytes)
}

/// The expansion of a text whose calls may be on so many levels, where some calls were met before.
#[cycle(expansion)]
fn expand_text<M: MacroTexts>(
    alloc: Global,
    macros: &mut M,
    text: &[u8],
    levels: usize,
    calls: usize,
) -> Result<Expanded, MacroFault>
    ensures { AnswersFrom M.found M.becomes M.lacks expanded_view (λ texts. text_expanded (expand_call_within texts levels) text.now calls) macros.old result macros.new }
{
    let mut done = Expanded {
        bytes: Vec::new(alloc),
        calls,
    };
    let mut at = 0;
    'pieces: while at < text.len() {
        let piece = first_piece(at, after(at, text));
        expand_piece(alloc, macros, &piece, levels, &mut done)?;
        at += piece.len();
    }
    Ok(done)
}

/// Puts what a piece expands to after what was expanded so far.
#[cycle(expansion)]
fn expand_piece<M: MacroTexts>(
    alloc: Global,
    macros: &mut M,
    piece: &Piece<'_>,
    levels: usize,
    done: &mut Expanded,
) -> Result<(), MacroFault>
    requires named { IsNamed piece.now }
    requires short { length done.old.bytes.items ≤ 65536 }
    ensures made { AnswersFrom M.found M.becomes M.lacks (λ nothing. expanded_view done.new) (λ texts. each (with_piece (expand_call_within texts levels)) (pieces_view piece.now) (expanded_view done.old)) macros.old result macros.new }
    ensures short { OnOk result (length done.new.bytes.items ≤ 65536) }
{
    match piece {
        Piece::Plain(bytes) => put(&mut done.bytes, bytes),
        Piece::Call(call) => {
            let new = expand_call(alloc, macros, call, levels, done.calls)?;
            put(&mut done.bytes, &new.bytes)?;
            done.calls = new.calls;
            Ok(())
        }
        Piece::Stray(at) => Err(MacroFault::Syntax(*at)),
    }
}

/// The expansion of a call, where it and the calls in it may be on so many levels, and some were met before.
#[cycle(expansion)]
fn expand_call<M: MacroTexts>(
    alloc: Global,
    macros: &mut M,
    call: &Call<'_>,
    levels: usize,
    calls: usize,
) -> Result<Expanded, MacroFault>
    requires { IsAscii call.now.name.now }
    ensures { AnswersFrom M.found M.becomes M.lacks expanded_view (λ texts. expand_call_within texts levels (call_view call.now) calls) macros.old result macros.new }
{
    if levels == 0 {
        return Err(MacroFault::MacroDepth(name_of(alloc, call.name)?));
    }
    if calls >= MOST_CALLS {
        return Err(MacroFault::MacroLong);
    }
    let arguments = arguments_of(alloc, call.inside)?;
    let given = expand_arguments(alloc, macros, &arguments, levels - 1, calls + 1)?;
    let name = name_of(alloc, call.name)?;
    let text = filled_text(alloc, macros, name, &given.texts)?;
    expand_text(alloc, macros, &text, levels - 1, given.calls)
}

/// The expansions of a call's arguments, in which calls may be on so many levels, where some were met before.
#[cycle(expansion)]
fn expand_arguments<M: MacroTexts>(
    alloc: Global,
    macros: &mut M,
    arguments: &[&[u8]],
    levels: usize,
    calls: usize,
) -> Result<Given, MacroFault>
    ensures { AnswersFrom M.found M.becomes M.lacks given_view (λ texts. arguments_expanded (text_expanded (expand_call_within texts levels)) (map (λ argument. argument.now) arguments.now) calls) macros.old result macros.new }
{
    let mut given = Given {
        texts: Vec::new(alloc),
        calls,
    };
    let mut left = arguments;
    'arguments: while let [argument, others @ ..] = left {
        let Expanded { bytes, calls } = expand_text(alloc, macros, argument, levels, given.calls)?;
        given.texts.push(bytes)?;
        given.calls = calls;
        left = others;
    }
    Ok(given)
}

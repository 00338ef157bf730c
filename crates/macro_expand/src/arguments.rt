//! The arguments of a call.

ghost use Rattle.std.specs.Prelude.{◌≡◌, ◌≤◌, ◌<◌, ◌+◌, ◌∷◌, length, map, IfOk, IfSome};
ghost use Rattle.std.specs.Option.{option_copied};
ghost use Rattle.macro_expand.specs.Arguments.{cut, arguments_left, brackets_after as bracketed_after, first_len as len_of_first, arguments_of as arguments_in};

use crate::call::parentheses_after;
use std::alloc::{AllocError, Global};
use text_grammar::{Class, prefix_len};

/// How many square brackets are open after a byte, before which some are.
fn brackets_after(before: usize, byte: u8) -> usize
    requires { before < usize.MAX }
    ensures is { result ≡ bracketed_after before byte }
    ensures few { result ≤ before + 1 }
{
    match byte {
        b'[' => before + 1,
        b']' => before.saturating_sub(1),
        _ => before,
    }
}

/// How many bytes the first argument has: all, where no comma ends it.
fn first_len(bytes: &[u8]) -> usize
    ensures len { result ≡ len_of_first 0 0 bytes.now }
    ensures within { result ≤ length bytes.now }
{
    let mut parentheses = 0;
    let mut brackets = 0;
    for (index, byte) in bytes.iter().enumerate() {
        if *byte == b',' && parentheses == 0 && brackets == 0 {
            return index;
        }
        parentheses = parentheses_after(parentheses, *byte);
        brackets = brackets_after(brackets, *byte);
    }
    bytes.len()
}

/// The first argument, and what follows the comma that ends it, if one does.
#[tactic(auto, using(crate::proofs::ArgumentSteps::first_of_more, crate::proofs::ArgumentSteps::first_of_one))]
fn first_argument(bytes: &[u8]) -> (&[u8], Option<&[u8]>)
    ensures parted { cut 0 0 bytes.now ≡ result.0.now ∷ arguments_left (option_copied result.1) }
    ensures shorter { IfSome result.1 (λ left. length left.now < length bytes.now) }
{
    let (argument, after) = bytes.split_at(first_len(bytes));
    match after.split_first() {
        Some((_, left)) => (argument, Some(left)),
        None => (argument, None),
    }
}

/// The arguments between a call's parentheses: none where only blanks are there.
#[tactic(auto, using(crate::proofs::ArgumentSteps::arguments_more))]
pub(crate) fn arguments_of(alloc: Global, inside: &[u8]) -> Result<Vec<&[u8]>, AllocError>
    ensures { IfOk result (λ arguments. map (λ argument. argument.now) arguments.items ≡ arguments_in inside.now) }
{
    let mut arguments = Vec::new(alloc);
    if prefix_len(Class::Blank, inside) == inside.len() {
        return Ok(arguments);
    }
    let mut left = Some(inside);
    'arguments: while let Some(bytes) = left {
        let (argument, after) = first_argument(bytes);
        arguments.push(argument)?;
        left = after;
    }
    Ok(arguments)
}

//! Letters of expressions, written as numbers.

ghost use Rattle.std.specs.Prelude.{◌≡◌, ◌<◌, ◌≤◌, All, IfOk};
ghost use Rattle.std.specs.List.{AllZip};
ghost use Rattle.std.specs.Option.{option_to_list};
ghost use Rattle.digit_tuple.specs.Letters.{product, IsAlphabet};
ghost use Rattle.digit_tuple.specs.Sets.{sizes_of, IsLetterSet};
ghost use Rattle.digit_tuple.specs.Tuples.{IsLetterOf};
ghost use Rattle.regex_build.specs.Codes.{AreIndices, IsRangeOf, occurrence_in, occurrences_of};
ghost use Rattle.regex_build.specs.Patterns.{AreMembers, IsOver};

use crate::letter_tuple::LetterTuple;
use crate::postfix_symbol::PostfixSymbol;
use digit_tuple::alphabet::Alphabet;
use digit_tuple::faults::OutOfMemory;
use digit_tuple::letter_set::LetterSet;
use smallvec::SmallVec;
use std::alloc::Global;

/// The letters that may be at an occurrence, from the first to the one before the end.
#[derive(Clone, Copy)]
pub struct LetterRange {
    pub first: u32,
    pub end: u32,
}

// The indices of the members in their sets.
fn indices_in(
    alloc: Global,
    sets: &[LetterSet],
    members: &[i32],
) -> Result<SmallVec<u32, 4>, OutOfMemory>
    requires { AreMembers sets.now members.now }
    ensures { IfOk result (λ indices. AreIndices sets.now members.now indices.items) }
{
    let mut indices = SmallVec::new(alloc);
    for (track, set) in sets.iter().enumerate() {
        let member = members[track];
        indices.push(set.place_of(member).unwrap())?;
    }
    Ok(indices)
}

// The number of a letter of an alphabet whose tracks have these sets as their digits.
fn number_of(
    alloc: Global,
    alphabet: &Alphabet,
    sets: &[LetterSet],
    letter: &LetterTuple,
) -> Result<u32, OutOfMemory>
    requires sizes { alphabet.now ≡ sizes_of sets.now }
    requires members { AreMembers sets.now letter.now }
    ensures letter { IfOk result (λ number. IsLetterOf sets.now letter.now number) }
    ensures in_range { IfOk result (λ number. number < product alphabet.now) }
{
    let indices = indices_in(alloc, sets, letter.members())?;
    Ok(alphabet.letter_of(indices.as_slice()))
}

// The letters that may be at the occurrence that the symbol is, if it is one.
fn range_of(
    alloc: Global,
    alphabet: &Alphabet,
    sets: &[LetterSet],
    symbol: &PostfixSymbol,
) -> Result<Option<LetterRange>, OutOfMemory>
    requires sets { All IsLetterSet sets.now }
    requires sizes { alphabet.now ≡ sizes_of sets.now }
    requires member { IsOver sets.now symbol.now }
    ensures { IfOk result (λ range. AllZip (IsRangeOf sets.now) (occurrence_in symbol.now) (option_to_list range)) }
{
    let letters = alphabet.letters();
    match symbol {
        PostfixSymbol::Letter(letter) => {
            let first = number_of(alloc, alphabet, sets, letter)?;
            Ok(Some(LetterRange {
                first,
                end: first + 1,
            }))
        }
        PostfixSymbol::Any => Ok(Some(LetterRange {
            first: 0,
            end: letters,
        })),
        _ => Ok(None),
    }
}

/// The letters that may be at each occurrence, as numbers of an alphabet whose tracks have these sets as their digits.
pub fn ranges_of(
    alloc: Global,
    alphabet: &Alphabet,
    sets: &[LetterSet],
    symbols: &[PostfixSymbol],
) -> Result<Vec<LetterRange>, OutOfMemory>
    requires sets { All IsLetterSet sets.now }
    requires sizes { alphabet.now ≡ sizes_of sets.now }
    requires members { All (IsOver sets.now) symbols.now }
    ensures { IfOk result (λ made. AllZip (IsRangeOf sets.now) (occurrences_of symbols.now) made.items) }
{
    let mut made = Vec::new(alloc);
    for symbol in symbols {
        if let Some(range) = range_of(alloc, alphabet, sets, symbol)? {
            made.push(range)?;
        }
    }
    Ok(made)
}

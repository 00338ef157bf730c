//! The canonical automaton of an expression.

ghost use Rattle.std.specs.Prelude.{◌≡◌, ℕ, ◌+◌, ◌≤◌, ◌↔◌, ℤ, List, IfOk, IsTrue, min};
ghost use Rattle.std.specs.Result.{IsErrOf};
ghost use Rattle.digit_tuple.specs.Deterministic.{accepts_of, states_of};
ghost use Rattle.digit_tuple.specs.Letters.{product, IsAlphabet};
ghost use Rattle.digit_tuple.specs.Sets.{sizes_of};
ghost use Rattle.digit_tuple.specs.Tuples.{IsLetterOf, Codes};
ghost use Rattle.digit_tuple.specs.Width.{HasApart, HasWidth};
ghost use Rattle.minimise.specs.Canonical.{IsCanonical};
ghost use Rattle.regex_build.specs.LastMarks.{SameLastMarks};
ghost use Rattle.regex_build.specs.Matches.{Matches};

use crate::position_table::positions;
use crate::regex::Regex;
use determinise::subset_construction::determinise;
use digit_tuple::alphabet::{MOST_LETTERS, MOST_TRACKS};
use digit_tuple::dfa::Dfa;
use digit_tuple::faults::OpFault;
use digit_tuple::letter_set::LetterSet;
use digit_tuple::limit::Limit;
use digit_tuple::stepped::Stepped;
use minimise::canonical::canonical;
use std::alloc::Global;

/// The canonical automaton of the words that the expression matches, over a track for each set, on
/// which each member of the set has its index in the set as its digit.
///
/// The width is the number of sets of last marks. Mark each letter of the expression with its place: a word's last marks
/// are the last places of those prefixes of matches that are the word. The empty word counts as one of
/// its own. `Letters` comes if and only if there are more than 16 tracks or more than 65,536 letters, and is looked at
/// first; `States` only where the width passes the limit.
///
/// The automaton of the expression's letters is that of V. M. Glushkov, "The abstract theory of
/// automata".
pub fn build(alloc: Global, regex: &Regex, limit: Limit<'_>) -> Result<Stepped<Dfa>, OpFault>
    ensures sizes { IfOk result (λ stepped. stepped.result.sizes ≡ sizes_of regex.now.sets) }
    ensures language { IfOk result (λ stepped. (tuples : List (List ℤ)) (word : List ℕ) → Codes regex.now.sets tuples word
        → IsTrue (accepts_of stepped.result word) ↔ Matches regex.now.tree tuples) }
    ensures canonical { IfOk result (λ stepped. IsCanonical stepped.result) }
    ensures width { IfOk result (λ stepped. HasWidth (SameLastMarks (IsLetterOf regex.now.sets) regex.now.tree) (product (sizes_of regex.now.sets)) stepped.width) }
    ensures size { IfOk result (λ stepped. states_of stepped.result ≤ stepped.width) }
    ensures within { IfOk result (λ stepped. stepped.width ≤ limit.entry.most) }
    ensures letters { IsErrOf result OpFault.Letters ↔ ¬ IsAlphabet (sizes_of regex.now.sets) }
    ensures states { IsErrOf result OpFault.States → HasApart (SameLastMarks (IsLetterOf regex.now.sets) regex.now.tree) (product (sizes_of regex.now.sets)) (limit.entry.most + 1) }
{
    if !are_alphabet(regex.sets().as_slice()) {
        return Err(OpFault::Letters);
    }
    let table = positions(alloc, regex)?;
    let stepped = determinise(alloc, &table, limit)?;
    Ok(Stepped {
        result: canonical(alloc, &stepped.result)?,
        width: stepped.width,
    })
}

// Whether the sets are few enough and have few enough tuples for an alphabet.
fn are_alphabet(sets: &[LetterSet]) -> bool
    ensures { IsTrue result ↔ IsAlphabet (sizes_of sets.now) }
{
    sets.len() <= MOST_TRACKS && tuple_count(sets) <= u64::from(MOST_LETTERS)
}

// The number of tuples of the sets, or one above the most letters where it passes these.
fn tuple_count(sets: &[LetterSet]) -> u64
    ensures { result ≡ min (product (sizes_of sets.now)) 65537 }
{
    let mut count: u64 = 1;
    for set in sets {
        count = (count * u64::from(set.len())).min(u64::from(MOST_LETTERS) + 1);
    }
    count
}

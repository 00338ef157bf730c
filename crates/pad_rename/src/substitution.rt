//! Automata whose tracks are under other names.

ghost use Rattle.std.specs.Prelude.{◌≡◌, ℕ, List, IfOk, OnOk};
ghost use Rattle.digit_tuple.specs.Deterministic.{accepts_of};
ghost use Rattle.digit_tuple.specs.Letters.{product, IsAlphabet, IsWord};
ghost use Rattle.minimise.specs.Canonical.{IsCanonical};
ghost use Rattle.pad_rename.specs.Substitution.{IsReadUnder, IsSubstitution, sizes_under, word_under};

use crate::part_reading::read_parts;
use crate::track_sizes::sizes_at;
use digit_tuple::alphabet::Alphabet;
use digit_tuple::dfa::Dfa;
use digit_tuple::faults::OutOfMemory;
use digit_tuple::name::Name;
use digit_tuple::names::places_in;
use minimise::tracked::Tracked;
use std::alloc::Global;

/// The canonical automaton whose tracks have these names, and that accepts a word if and only if `dfa` accepts the word
/// that is read in it: the one that has on each track of `dfa` the digits of the track of its name. `under` has a name
/// for each track of `dfa`, in their order, and `names` each of these names once, in any order. `under` may name
/// several tracks alike, if they have one size: then the result has one track of that name, and its digits are read on
/// each of them, as where a relation of two arguments is asked of x and x. Only OutOfMemory is answered, which comes
/// too where 2^32 - 1 states are not enough. Time and memory follow the states of `dfa`, the letters of the result, and
/// the letters by which these states lead on.
pub fn substitute(
    alloc: Global,
    dfa: &Dfa,
    under: &[Name],
    names: &[Name],
) -> Result<Tracked, OutOfMemory>
    requires { IsSubstitution dfa.now.sizes under.now names.now }
    ensures names { IfOk result (λ tracked. tracked.names ≡ names.now) }
    ensures sizes { IfOk result (λ tracked. tracked.automaton.sizes ≡ sizes_under dfa.now.sizes under.now names.now) }
    ensures canonical { IfOk result (λ tracked. IsCanonical tracked.automaton) }
    ensures language { IfOk result (λ tracked. (w : List ℕ) → IsWord (product (sizes_under dfa.now.sizes under.now names.now)) w
        → accepts_of tracked.automaton w ≡ accepts_of dfa.now (word_under dfa.now.sizes under.now names.now w)) }
    ensures read { IfOk result (λ tracked. (w x : List ℕ) → IsReadUnder dfa.now.sizes under.now names.now w x
        → accepts_of tracked.automaton w ≡ accepts_of dfa.now x) }
    ensures each_word { OnOk result ((w : List ℕ) → IsWord (product (sizes_under dfa.now.sizes under.now names.now)) w
        → IsReadUnder dfa.now.sizes under.now names.now w (word_under dfa.now.sizes under.now names.now w)) }
{
    let alphabet = alphabet_under(alloc, dfa.alphabet(), under, names)?;
    let places = places_in(alloc, names, under)?;
    let reader = read_parts(alloc, dfa, alphabet, &places)?;
    Tracked::new(alloc, &reader, names)
}

// The alphabet of the tracks of these names.
fn alphabet_under(
    alloc: Global,
    alphabet: &Alphabet,
    under: &[Name],
    names: &[Name],
) -> Result<Alphabet, OutOfMemory>
    requires { IsSubstitution alphabet.now under.now names.now }
    ensures sizes { IfOk result (λ made. made ≡ sizes_under alphabet.now under.now names.now) }
    ensures fits { OnOk result (IsAlphabet (sizes_under alphabet.now under.now names.now)) }
{
    let sizes = alphabet.sizes();
    let places = places_in(alloc, under, names)?;
    let some = sizes_at(alloc, sizes, &places)?;
    Alphabet::fitting(alloc, &some)
}

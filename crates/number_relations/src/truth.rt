//! Relations without tracks: sentences that are true or false.

ghost use Rattle.std.specs.Prelude.{◌≡◌, [], ℕ, List, IfOk};
ghost use Rattle.digit_tuple.specs.Deterministic.{accepts_of};
ghost use Rattle.digit_tuple.specs.Letters.{IsWord};
ghost use Rattle.digit_tuple.specs.NoWords.{bare_automaton};
ghost use Rattle.minimise.specs.Canonical.{IsCanonical};
ghost use Rattle.number_relations.specs.Comparisons.{IsTruth};

use crate::relation::Relation;
use digit_tuple::alphabet::Alphabet;
use digit_tuple::faults::OutOfMemory;
use digit_tuple::limit::Limit;
use digit_tuple::no_words::no_words;
use minimise::tracked::Tracked;
use std::alloc::Global;
use validity::valid_words::complement_in;

impl Relation {
    /// The sentence of this truth, a relation without tracks. Only OutOfMemory is answered.
    pub fn truth(alloc: Global, holds: bool) -> Result<Self, OutOfMemory>
        ensures { IfOk result (IsTruth holds) }
    {
        let tracked = sentence(alloc, holds)?;
        Ok(Relation::from_parts(tracked, Vec::new(alloc)))
    }
}

// All words over no tracks, or none of them: those that are not nothing, or nothing.
fn sentence(alloc: Global, holds: bool) -> Result<Tracked, OutOfMemory>
    ensures names { IfOk result (λ tracked. tracked.names ≡ []) }
    ensures sizes { IfOk result (λ tracked. tracked.automaton.sizes ≡ []) }
    ensures canonical { IfOk result (λ tracked. IsCanonical tracked.automaton) }
    ensures language { IfOk result (λ tracked. (w : List ℕ) → IsWord 1 w → accepts_of tracked.automaton w ≡ holds) }
{
    let none = nothing(alloc)?;
    if !holds {
        return Ok(none);
    }
    match complement_in(alloc, &none, &[], Limit::none()) {
        Ok(stepped) => Ok(stepped.result),
        Err(_) => Err(OutOfMemory),
    }
}

// No word over no tracks.
fn nothing(alloc: Global) -> Result<Tracked, OutOfMemory>
    ensures { IfOk result (λ tracked. tracked ≡ record { names = []; automaton = bare_automaton [] }) }
{
    let alphabet = Alphabet::fitting(alloc, &[])?;
    let dfa = no_words(alloc, alphabet)?;
    Ok(Tracked::of_canonical(dfa, Vec::new(alloc)))
}

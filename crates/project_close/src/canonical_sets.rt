//! The sets of states that an image leads to, made canonical.

ghost use Rattle.std.specs.Prelude.{◌≡◌, ℕ, ◌+◌, ◌≤◌, List, IfOk};
ghost use Rattle.std.specs.Result.{IsErrOf};
ghost use Rattle.determinise.specs.Subsets.{IsStateSet, set_after, has_accepting};
ghost use Rattle.digit_tuple.specs.Automaton as branching;
ghost use Rattle.digit_tuple.specs.Deterministic.{accepts_of, states_of};
ghost use Rattle.digit_tuple.specs.FirstWords.{IsNumberedByFirsts};
ghost use Rattle.digit_tuple.specs.Keys.{LeadAlike, key_accepts};
ghost use Rattle.digit_tuple.specs.Letters.{product, IsWord};
ghost use Rattle.digit_tuple.specs.Width.{HasApart, HasWidth};
ghost use Rattle.minimise.specs.Canonical.{IsCanonical};

use crate::image::Reading;
use determinise::subset_exploration::explore_subsets;
use digit_tuple::alphabet::Alphabet;
use digit_tuple::dfa::Dfa;
use digit_tuple::faults::OpFault;
use digit_tuple::limit::Limit;
use digit_tuple::stepped::Stepped;
use minimise::canonical::canonical_of_numbered;
use std::alloc::Global;

/// The canonical automaton of the words that lead to sets with an accepting state. The width is the number of kinds of
/// words, where two are alike that lead to one set, or both to none. `States` comes if and only if the width passes the
/// limit, and `Letters` never. Memory may also run out where 2^32 - 1 states are not enough. The image is let go before
/// the automaton is made canonical.
pub fn canonical_sets(
    alloc: Global,
    reading: Reading,
    alphabet: Alphabet,
    limit: Limit<'_>,
) -> Result<Stepped<Dfa>, OpFault>
    requires first { IsStateSet reading.image reading.first.items }
    requires letters { branching.letters_of reading.image ≡ product alphabet }
    ensures sizes { IfOk result (λ stepped. stepped.result.sizes ≡ alphabet) }
    ensures canonical { IfOk result (λ stepped. IsCanonical stepped.result) }
    ensures language { IfOk result (λ stepped. (w : List ℕ) → IsWord (product alphabet) w
        → accepts_of stepped.result w ≡ key_accepts (set_after reading.image) (has_accepting reading.image) reading.first.items w) }
    ensures width { IfOk result (λ stepped. HasWidth (LeadAlike (set_after reading.image) reading.first.items) (product alphabet) stepped.width) }
    ensures size { IfOk result (λ stepped. states_of stepped.result ≤ stepped.width) }
    ensures within { IfOk result (λ stepped. stepped.width ≤ limit.entry.most) }
    ensures states { IsErrOf result OpFault.States → HasApart (LeadAlike (set_after reading.image) reading.first.items) (product alphabet) (limit.entry.most + 1) }
    ensures no_letters { ¬ IsErrOf result OpFault.Letters }
{
    let explored = explored_sets(alloc, reading, alphabet, limit)?;
    let width = explored.width;
    let result = canonical_of_numbered(alloc, explored.result)?;
    Ok(Stepped { result, width })
}

// The sets that words lead to.
fn explored_sets(
    alloc: Global,
    reading: Reading,
    alphabet: Alphabet,
    limit: Limit<'_>,
) -> Result<Stepped<Dfa>, OpFault>
    requires first { IsStateSet reading.image reading.first.items }
    requires letters { branching.letters_of reading.image ≡ product alphabet }
    ensures sizes { IfOk result (λ stepped. stepped.result.sizes ≡ alphabet) }
    ensures numbered { IfOk result (λ stepped. (firsts : List (List ℕ)) × IsNumberedByFirsts stepped.result firsts) }
    ensures language { IfOk result (λ stepped. (w : List ℕ) → IsWord (product alphabet) w
        → accepts_of stepped.result w ≡ key_accepts (set_after reading.image) (has_accepting reading.image) reading.first.items w) }
    ensures width { IfOk result (λ stepped. HasWidth (LeadAlike (set_after reading.image) reading.first.items) (product alphabet) stepped.width) }
    ensures within { IfOk result (λ stepped. stepped.width ≤ limit.entry.most) }
    ensures states { IsErrOf result OpFault.States → HasApart (LeadAlike (set_after reading.image) reading.first.items) (product alphabet) (limit.entry.most + 1) }
    ensures no_letters { ¬ IsErrOf result OpFault.Letters }
{
    explore_subsets(alloc, &reading.image, &reading.first, alphabet, limit)
}

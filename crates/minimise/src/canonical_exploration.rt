//! The exploration, made canonical.

ghost use Rattle.std.specs.Prelude.{◌≡◌, ℕ, ◌+◌, ◌≤◌, List, IfOk};
ghost use Rattle.std.specs.Result.{IsErrOf};
ghost use Rattle.digit_tuple.specs.Deterministic.{accepts_of, states_of};
ghost use Rattle.digit_tuple.specs.Keys.{LeadAlike, key_accepts};
ghost use Rattle.digit_tuple.specs.Letters.{product, IsWord};
ghost use Rattle.digit_tuple.specs.Width.{HasApart, HasWidth};
ghost use Rattle.minimise.specs.Canonical.{IsCanonical};

use crate::canonical::canonical_of_numbered;
use digit_tuple::alphabet::Alphabet;
use digit_tuple::dfa::Dfa;
use digit_tuple::exploration::explore;
use digit_tuple::faults::OpFault;
use digit_tuple::key_graph::KeyGraph;
use digit_tuple::limit::Limit;
use digit_tuple::stepped::Stepped;
use std::alloc::Global;

/// The canonical automaton of the words that lead to accepting keys of the graph. The width is the number of kinds of
/// words, where two are alike that lead to one key, or both to none. `States` comes if and only if the width passes the
/// limit, and `Letters` never. Memory may also run out where 2^32 - 1 states are not enough, or there are 2^32
/// transitions.
pub fn explore_canonical<G: KeyGraph>(
    alloc: Global,
    graph: &G,
    alphabet: Alphabet,
    limit: Limit<'_>,
) -> Result<Stepped<Dfa>, OpFault>
    requires graph { G.is_graph graph.now }
    requires letters { G.letters graph.now ≡ product alphabet }
    ensures sizes { IfOk result (λ stepped. stepped.result.sizes ≡ alphabet) }
    ensures canonical { IfOk result (λ stepped. IsCanonical stepped.result) }
    ensures language { IfOk result (λ stepped. (w : List ℕ) → IsWord (product alphabet) w
        → accepts_of stepped.result w ≡ key_accepts (G.after graph.now) (G.accepts graph.now) (G.start graph.now) w) }
    ensures width { IfOk result (λ stepped.
        HasWidth (LeadAlike (G.after graph.now) (G.start graph.now)) (product alphabet) stepped.width) }
    ensures size { IfOk result (λ stepped. states_of stepped.result ≤ stepped.width) }
    ensures within { IfOk result (λ stepped. stepped.width ≤ limit.entry.most) }
    ensures states { IsErrOf result OpFault.States
        → HasApart (LeadAlike (G.after graph.now) (G.start graph.now)) (product alphabet) (limit.entry.most + 1) }
    ensures no_letters { ¬ IsErrOf result OpFault.Letters }
{
    let explored = explore(alloc, graph, alphabet, limit)?;
    let width = explored.width;
    let result = canonical_of_numbered(alloc, explored.result)?;
    Ok(Stepped { result, width })
}

//! The automaton of a connective that needs its first argument.

ghost use Rattle.std.specs.Prelude.{◌≡◌, ◌+◌, ◌≤◌, ℕ, false, List, IfOk, IfSome};
ghost use Rattle.std.specs.Result.{IsErrOf};
ghost use Rattle.digit_tuple.specs.Deterministic.{accepts_of, states_of};
ghost use Rattle.digit_tuple.specs.Letters.{product, IsWord};
ghost use Rattle.digit_tuple.specs.Width.{HasApart, HasWidth};
ghost use Rattle.minimise.specs.Canonical.{IsCanonical};
ghost use Rattle.product_op.specs.DeadPairs.{ArePair, is_dead_pair};
ghost use Rattle.product_op.specs.LeadingLetters.{AreFewLetters};
ghost use Rattle.product_op.specs.LetterJoins.{IsJoin};
ghost use Rattle.product_op.specs.Readings.{automata_in, combined, first_key, flags_of, reading_at, readings_in};
ghost use Rattle.product_op.specs.Tuples.{LeadToOne};
ghost use Rattle.product_op.specs.declared.rule.Rule.TheVariants.{Both};

use crate::dead_pairs::add_dead_pairs;
use crate::live_pairs::LivePairs;
use digit_tuple::alphabet::Alphabet;
use digit_tuple::dfa::Dfa;
use digit_tuple::exploration::{Explored, explore_keys};
use digit_tuple::faults::OpFault;
use digit_tuple::limit::Limit;
use digit_tuple::stepped::Stepped;
use minimise::canonical::canonical_of_numbered;
use std::alloc::Global;

/// The canonical automaton of the words of which the connective says that they are in it, by whether each of two
/// readers accepts its part. The width is the number of pairs of states that words lead to, sinks counted too. `States`
/// comes if and only if it passes the limit, and `Letters` never. Memory follows the pairs and the transitions of each
/// reader's automaton. Time follows the pairs with all letters where they are few, and else those from which the
/// connective may accept, with the letters by which the first leads on, or with a join the pairs of transitions, and all
/// pairs with the transitions of both states and the letters that are tried to find dead pairs that are not known yet.
pub fn pairs_needing_first(
    alloc: Global,
    graph: &LivePairs<'_>,
    alphabet: Alphabet,
    limit: Limit<'_>,
) -> Result<Stepped<Dfa>, OpFault>
    requires pair { ArePair graph.now.letters graph.now.op (readings_in graph.now.readers.now) }
    requires few { AreFewLetters graph.now.letters graph.now.few.now }
    requires tables { graph.now.tables.now ≡ automata_in (readings_in graph.now.readers.now) }
    requires join { IfSome graph.now.join.now (IsJoin graph.now.letters (reading_at (readings_in graph.now.readers.now) 0) (reading_at (readings_in graph.now.readers.now) 1)) }
    requires letters { graph.now.letters ≡ product alphabet }
    requires live { is_dead_pair graph.now.op (readings_in graph.now.readers.now) (first_key (readings_in graph.now.readers.now)) ≡ false }
    ensures sizes { IfOk result (λ stepped. stepped.result.sizes ≡ alphabet) }
    ensures canonical { IfOk result (λ stepped. IsCanonical stepped.result) }
    ensures language { IfOk result (λ stepped. (w : List ℕ) → IsWord (product alphabet) w
        → accepts_of stepped.result w ≡ combined (Both graph.now.op) (flags_of (readings_in graph.now.readers.now) w)) }
    ensures width { IfOk result (λ stepped. HasWidth (LeadToOne (readings_in graph.now.readers.now)) (product alphabet) stepped.width) }
    ensures size { IfOk result (λ stepped. states_of stepped.result ≤ stepped.width) }
    ensures within { IfOk result (λ stepped. stepped.width ≤ limit.entry.most) }
    ensures states { IsErrOf result OpFault.States → HasApart (LeadToOne (readings_in graph.now.readers.now)) (product alphabet) (limit.entry.most + 1) }
    ensures no_letters { ¬ IsErrOf result OpFault.Letters }
{
    let live = explore_keys(alloc, graph, alphabet, limit)?;
    let Explored { dfa, mut keys } = live.result;
    add_dead_pairs(alloc, graph, &mut keys, limit)?;
    let width = keys.len() as u32;
    drop(keys);
    let result = canonical_of_numbered(alloc, dfa)?;
    Ok(Stepped { result, width })
}

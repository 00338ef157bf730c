//! The automaton whose states are the tuples of states that words lead automata to.

ghost use Rattle.std.specs.Prelude.{◌≡◌, ◌+◌, ◌≤◌, ℕ, [], ◌∷◌, List, IfOk};
ghost use Rattle.std.specs.Result.{IsErrOf};
ghost use Rattle.digit_tuple.specs.Deterministic.{states_of};
ghost use Rattle.digit_tuple.specs.FirstWords.{IsNumberedByFirsts};
ghost use Rattle.digit_tuple.specs.Letters.{product};
ghost use Rattle.digit_tuple.specs.NoWords.{bare_automaton};
ghost use Rattle.digit_tuple.specs.Width.{HasApart, HasWidth};
ghost use Rattle.product_op.specs.Readings.{readings_in, AreReadings};
ghost use Rattle.product_op.specs.Tuples.{AreTuples, LeadToOne};

use crate::reader::Reader;
use crate::reader_graph::{Beginning, SideBySide};
use crate::rule::Rule;
use digit_tuple::alphabet::Alphabet;
use digit_tuple::exploration::{Explored, explore_keys};
use digit_tuple::faults::{OpFault, OutOfMemory};
use digit_tuple::limit::Limit;
use digit_tuple::no_words::no_words_within;
use digit_tuple::numbering::Numbering;
use digit_tuple::stepped::Stepped;
use std::alloc::Global;

/// The automaton whose states are the tuples of states, one of each reader, that words lead to, the number past a
/// reader's states being its sink, where missing transitions lead. A word that leads each reader to its sink leads to
/// no state, but for the empty one, which leads to the initial state. The states are numbered in the order of the first
/// words that lead to them, and what accepts is not said. The width is the number of tuples that words lead to, that of
/// sinks counted too. `States` comes if and only if it passes the limit, and `Letters` never. Time and memory follow
/// the tuples and the letters by which some state of a tuple leads on, or all letters where they are at most 32.
pub fn explore_tuples(
    alloc: Global,
    alphabet: Alphabet,
    readers: &[Reader<'_>],
    limit: Limit<'_>,
) -> Result<Stepped<Explored>, OpFault>
    requires { AreReadings (product alphabet) (readings_in readers.now) }
    ensures sizes { IfOk result (λ stepped. stepped.result.dfa.sizes ≡ alphabet) }
    ensures tuples { IfOk result (λ stepped. AreTuples (product alphabet) (readings_in readers.now) stepped.result.keys stepped.result.dfa) }
    ensures numbered { IfOk result (λ stepped. (firsts : List (List ℕ)) × IsNumberedByFirsts stepped.result.dfa firsts) }
    ensures width { IfOk result (λ stepped. HasWidth (LeadToOne (readings_in readers.now)) (product alphabet) stepped.width) }
    ensures size { IfOk result (λ stepped. states_of stepped.result.dfa ≤ stepped.width) }
    ensures within { IfOk result (λ stepped. stepped.width ≤ limit.entry.most) }
    ensures states { IsErrOf result OpFault.States → HasApart (LeadToOne (readings_in readers.now)) (product alphabet) (limit.entry.most + 1) }
    ensures no_letters { ¬ IsErrOf result OpFault.Letters }
{
    let letters = alphabet.letters();
    let Beginning { few, tables, first } = Beginning::new(alloc, readers, letters)?;
    let graph = SideBySide {
        readers,
        tables: tables.as_slice(),
        rule: Rule::All,
        letters,
        few: few.as_slice(),
    };
    if graph.is_dead(&first) {
        explore_none(alloc, alphabet, &first, limit)
    } else {
        explore_keys(alloc, &graph, alphabet, limit)
    }
}

// The automaton of the one tuple that the empty word leads to, where no word leads on.
fn explore_none(
    alloc: Global,
    alphabet: Alphabet,
    first: &[u32],
    limit: Limit<'_>,
) -> Result<Stepped<Explored>, OpFault>
    ensures only { IfOk result (λ stepped. stepped.result.dfa ≡ bare_automaton alphabet) }
    ensures keys { IfOk result (λ stepped. stepped.result.keys ≡ first.now ∷ []) }
    ensures width { IfOk result (λ stepped. stepped.width ≡ 1) }
    ensures within { IfOk result (λ stepped. stepped.width ≤ limit.entry.most) }
    ensures states { IsErrOf result OpFault.States → limit.entry.most ≡ 0 }
    ensures no_letters { ¬ IsErrOf result OpFault.Letters }
{
    let Stepped { result, width } = no_words_within(alloc, alphabet, limit)?;
    let mut keys = Numbering::new(alloc);
    keys.number_of(first)?;
    Ok(Stepped {
        result: Explored { dfa: result, keys },
        width,
    })
}

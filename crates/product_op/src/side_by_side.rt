//! The automaton whose states are tuples of residuals.

ghost use Rattle.std.specs.Prelude.{◌≡◌, ◌+◌, ◌≤◌, ℕ, List, length, IfOk};
ghost use Rattle.std.specs.Result.{IsErrOf};
ghost use Rattle.digit_tuple.specs.Deterministic.{accepts_of, states_of};
ghost use Rattle.digit_tuple.specs.Letters.{product, IsWord};
ghost use Rattle.digit_tuple.specs.Names.{AreDistinct};
ghost use Rattle.digit_tuple.specs.Width.{HasApart, HasWidth};
ghost use Rattle.minimise.specs.Canonical.{IsCanonical};
ghost use Rattle.product_op.specs.DeadPairs.{ArePair};
ghost use Rattle.product_op.specs.Readings.{readings_in, AreSideBySide, AreCanonical, AreAlike, flags_of, combined};
ghost use Rattle.product_op.specs.declared.rule.Rule.TheVariants.{Both};

use crate::letter_joins::pair_join;
use crate::live_pairs::LivePairs;
use crate::needing::pairs_needing_first;
use crate::op::Op;
use crate::reader::Reader;
use crate::reader_graph::{Beginning, SideBySide};
use crate::rule::Rule;
use digit_tuple::alphabet::Alphabet;
use digit_tuple::dfa::Dfa;
use digit_tuple::faults::OpFault;
use digit_tuple::limit::Limit;
use digit_tuple::name::Name;
use digit_tuple::no_words::no_words_within;
use digit_tuple::stepped::Stepped;
use minimise::canonical_exploration::explore_canonical;
use minimise::tracked::Tracked;
use std::alloc::Global;

/// The canonical automaton, its tracks under these names, of the words of which the rule holds, by whether each reader
/// accepts its part. The readers read canonical automata, each a part of every letter of `alphabet`, and there are at
/// least as many as the rule has arguments. There is a name for each track, and no name twice.
///
/// The width is the number of tuples of residuals that words lead to, the empty residual counted too. `States` comes if
/// and only if it passes the limit, and `Letters` never. The result has at most as many states as the width. Memory may
/// also run out where 2^32 - 1 states are not enough. Time and memory follow the tuples and the letters by which some
/// residual of a tuple leads to one that is not empty, or all letters where they are at most 32; under `And` and `AndNot`
/// of two readers they follow what `product` says of these.
pub fn tracked_side_by_side(
    alloc: Global,
    alphabet: Alphabet,
    names: Vec<Name>,
    readers: &[Reader<'_>],
    rule: Rule,
    limit: Limit<'_>,
) -> Result<Stepped<Tracked>, OpFault>
    requires readers { AreSideBySide (product alphabet) (readings_in readers.now) rule }
    requires canonical { AreCanonical (readings_in readers.now) }
    requires count { length names.items ≡ length alphabet }
    requires distinct { AreDistinct names.items }
    ensures names { IfOk result (λ stepped. stepped.result.names ≡ names.items) }
    ensures sizes { IfOk result (λ stepped. stepped.result.automaton.sizes ≡ alphabet) }
    ensures canonical { IfOk result (λ stepped. IsCanonical stepped.result.automaton) }
    ensures language { IfOk result (λ stepped. (w : List ℕ) → IsWord (product alphabet) w
        → accepts_of stepped.result.automaton w ≡ combined rule (flags_of (readings_in readers.now) w)) }
    ensures width { IfOk result (λ stepped. HasWidth (AreAlike (readings_in readers.now)) (product alphabet) stepped.width) }
    ensures size { IfOk result (λ stepped. states_of stepped.result.automaton ≤ stepped.width) }
    ensures within { IfOk result (λ stepped. stepped.width ≤ limit.entry.most) }
    ensures states { IsErrOf result OpFault.States → HasApart (AreAlike (readings_in readers.now)) (product alphabet) (limit.entry.most + 1) }
    ensures no_letters { ¬ IsErrOf result OpFault.Letters }
{
    let explored = combined_side_by_side(alloc, alphabet, readers, rule, limit)?;
    Ok(Stepped {
        result: Tracked::of_canonical(explored.result, names),
        width: explored.width,
    })
}

// The canonical automaton, without the names. What comes is as for `tracked_side_by_side`.
fn combined_side_by_side(
    alloc: Global,
    alphabet: Alphabet,
    readers: &[Reader<'_>],
    rule: Rule,
    limit: Limit<'_>,
) -> Result<Stepped<Dfa>, OpFault>
    requires readers { AreSideBySide (product alphabet) (readings_in readers.now) rule }
    requires canonical { AreCanonical (readings_in readers.now) }
    ensures sizes { IfOk result (λ stepped. stepped.result.sizes ≡ alphabet) }
    ensures canonical { IfOk result (λ stepped. IsCanonical stepped.result) }
    ensures language { IfOk result (λ stepped. (w : List ℕ) → IsWord (product alphabet) w
        → accepts_of stepped.result w ≡ combined rule (flags_of (readings_in readers.now) w)) }
    ensures width { IfOk result (λ stepped. HasWidth (AreAlike (readings_in readers.now)) (product alphabet) stepped.width) }
    ensures size { IfOk result (λ stepped. states_of stepped.result ≤ stepped.width) }
    ensures within { IfOk result (λ stepped. stepped.width ≤ limit.entry.most) }
    ensures states { IsErrOf result OpFault.States → HasApart (AreAlike (readings_in readers.now)) (product alphabet) (limit.entry.most + 1) }
    ensures no_letters { ¬ IsErrOf result OpFault.Letters }
{
    if let Rule::Both(op) = rule {
        if op.needs_first() && readers.len() == 2 {
            return pair_by_pair(alloc, alphabet, readers, op, limit);
        }
    }
    side_by_side(alloc, alphabet, readers, rule, limit)
}

// That of two readers by a connective that needs the first. Pairs from which it accepts no word, since a state that it
// needs is a sink, have no transitions.
fn pair_by_pair(
    alloc: Global,
    alphabet: Alphabet,
    readers: &[Reader<'_>],
    op: Op,
    limit: Limit<'_>,
) -> Result<Stepped<Dfa>, OpFault>
    requires pair { ArePair (product alphabet) op (readings_in readers.now) }
    requires canonical { AreCanonical (readings_in readers.now) }
    ensures sizes { IfOk result (λ stepped. stepped.result.sizes ≡ alphabet) }
    ensures canonical { IfOk result (λ stepped. IsCanonical stepped.result) }
    ensures language { IfOk result (λ stepped. (w : List ℕ) → IsWord (product alphabet) w
        → accepts_of stepped.result w ≡ combined (Both op) (flags_of (readings_in readers.now) w)) }
    ensures width { IfOk result (λ stepped. HasWidth (AreAlike (readings_in readers.now)) (product alphabet) stepped.width) }
    ensures size { IfOk result (λ stepped. states_of stepped.result ≤ stepped.width) }
    ensures within { IfOk result (λ stepped. stepped.width ≤ limit.entry.most) }
    ensures states { IsErrOf result OpFault.States → HasApart (AreAlike (readings_in readers.now)) (product alphabet) (limit.entry.most + 1) }
    ensures no_letters { ¬ IsErrOf result OpFault.Letters }
{
    let letters = alphabet.letters();
    let Beginning { few, tables, first } = Beginning::new(alloc, readers, letters)?;
    let join = pair_join(alloc, readers, op, letters)?;
    let graph = LivePairs {
        readers: &*readers,
        tables: tables.as_slice(),
        op,
        letters,
        few: few.as_slice(),
        join: &join,
    };
    if graph.is_dead(&first) {
        return side_by_side(alloc, alphabet, readers, Rule::Both(op), limit);
    }
    pairs_needing_first(alloc, &graph, alphabet, limit)
}

// That of all rules. The states are tuples of which not all are sinks, unless the rule accepts there.
fn side_by_side(
    alloc: Global,
    alphabet: Alphabet,
    readers: &[Reader<'_>],
    rule: Rule,
    limit: Limit<'_>,
) -> Result<Stepped<Dfa>, OpFault>
    requires readers { AreSideBySide (product alphabet) (readings_in readers.now) rule }
    requires canonical { AreCanonical (readings_in readers.now) }
    ensures sizes { IfOk result (λ stepped. stepped.result.sizes ≡ alphabet) }
    ensures canonical { IfOk result (λ stepped. IsCanonical stepped.result) }
    ensures language { IfOk result (λ stepped. (w : List ℕ) → IsWord (product alphabet) w
        → accepts_of stepped.result w ≡ combined rule (flags_of (readings_in readers.now) w)) }
    ensures width { IfOk result (λ stepped. HasWidth (AreAlike (readings_in readers.now)) (product alphabet) stepped.width) }
    ensures size { IfOk result (λ stepped. states_of stepped.result ≤ stepped.width) }
    ensures within { IfOk result (λ stepped. stepped.width ≤ limit.entry.most) }
    ensures states { IsErrOf result OpFault.States → HasApart (AreAlike (readings_in readers.now)) (product alphabet) (limit.entry.most + 1) }
    ensures no_letters { ¬ IsErrOf result OpFault.Letters }
{
    let letters = alphabet.letters();
    let Beginning { few, tables, first } = Beginning::new(alloc, readers, letters)?;
    let graph = SideBySide {
        readers,
        tables: tables.as_slice(),
        rule,
        letters,
        few: few.as_slice(),
    };
    if graph.is_dead(&first) {
        no_words_within(alloc, alphabet, limit)
    } else {
        explore_canonical(alloc, &graph, alphabet, limit)
    }
}

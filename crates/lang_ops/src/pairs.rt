//! Connectives of two languages over the same tracks.

ghost use Rattle.std.specs.Prelude.{◌≡◌, ◌+◌, ◌<◌, ◌≤◌, ℕ, false, List, length, IfOk, slice_index_or};
ghost use Rattle.std.specs.List.{All};
ghost use Rattle.std.specs.Result.{IsErrOf};
ghost use Rattle.digit_tuple.specs.Deterministic.{accepts_of, letters_of, states_of};
ghost use Rattle.digit_tuple.specs.Explored.{key_at};
ghost use Rattle.digit_tuple.specs.Letters.{IsWord};
ghost use Rattle.digit_tuple.specs.Width.{HasApart, HasWidth};
ghost use Rattle.minimise.specs.Canonical.{IsCanonical};
ghost use Rattle.product_op.specs.Connectives.{connective};
ghost use Rattle.lang_ops.specs.PairKeys.{key_holds};
ghost use Rattle.lang_ops.specs.Pairs.{PairAlike};

use digit_tuple::dfa::Dfa;
use digit_tuple::exploration::Explored;
use digit_tuple::faults::{OpFault, OutOfMemory};
use digit_tuple::limit::Limit;
use digit_tuple::numbering::Numbering;
use digit_tuple::stepped::Stepped;
use minimise::canonical::canonical;
use minimise::sink::is_accepting;
use product_op::argument_readers::whole_reader;
use product_op::op::Op;
use product_op::tuples::explore_tuples;
use std::alloc::Global;

/// The words of which the connective says that they are in, for two canonical automata over the same tracks: the
/// union by `Or`, the intersection by `And`. The connective is false of two false values. The result is canonical.
///
/// The width is the number of pairs that words have: the residual of the first language after the word, and that of the
/// second, each of which may be empty. `States` comes if and only if the width passes the limit, and `Letters` never.
/// Memory may also run out where 2^32 - 1 states are not enough. Time and memory follow the pairs and their transitions.
pub fn combined(
    alloc: Global,
    a: &Dfa,
    b: &Dfa,
    op: Op,
    limit: Limit<'_>,
) -> Result<Stepped<Dfa>, OpFault>
    requires first { IsCanonical a.now }
    requires second { IsCanonical b.now }
    requires sizes { b.now.sizes ≡ a.now.sizes }
    requires none { connective op false false ≡ false }
    ensures sizes { IfOk result (λ stepped. stepped.result.sizes ≡ a.now.sizes) }
    ensures canonical { IfOk result (λ stepped. IsCanonical stepped.result) }
    ensures language { IfOk result (λ stepped. (w : List ℕ) → IsWord (letters_of a.now) w
        → accepts_of stepped.result w ≡ connective op (accepts_of a.now w) (accepts_of b.now w)) }
    ensures width { IfOk result (λ stepped. HasWidth (PairAlike a.now b.now) (letters_of a.now) stepped.width) }
    ensures within { IfOk result (λ stepped. stepped.width ≤ limit.entry.most) }
    ensures states { IsErrOf result OpFault.States → HasApart (PairAlike a.now b.now) (letters_of a.now) (limit.entry.most + 1) }
    ensures no_letters { ¬ IsErrOf result OpFault.Letters }
{
    let alphabet = a.alphabet().copy(alloc)?;
    let mut readers = Vec::new(alloc);
    readers.push(whole_reader(alloc, a)?)?;
    readers.push(whole_reader(alloc, b)?)?;
    let Stepped { result, width } = explore_tuples(alloc, alphabet, &readers, limit)?;
    let Explored { dfa, keys } = result;
    let flags = combined_keys(alloc, a, b, op, &keys)?;
    let result = canonical(alloc, &dfa.with_accepting(&flags))?;
    Ok(Stepped { result, width })
}

// What the connective says of whether the two states of each key accept.
fn combined_keys(
    alloc: Global,
    a: &Dfa,
    b: &Dfa,
    op: Op,
    keys: &Numbering,
) -> Result<Vec<bool>, OutOfMemory>
    requires { All (λ key. length key ≡ 2) keys.now }
    ensures count { IfOk result (λ flags. length flags.items ≡ length keys.now) }
    ensures flags { IfOk result (λ flags. (q : ℕ) → q < length keys.now
        → slice_index_or flags.items q false ≡ key_holds op a.now b.now (key_at keys.now q)) }
{
    let mut flags = Vec::with_capacity(alloc, keys.len())?;
    for number in 0..keys.len() {
        let key = keys.key(number);
        flags.push(op.holds(is_accepting(a, key[0]), is_accepting(b, key[1])))?;
    }
    Ok(flags)
}

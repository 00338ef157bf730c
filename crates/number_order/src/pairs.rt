//! Pairs of numbers that compare in one way, determined from words that are read side by side.

ghost use Rattle.std.specs.Prelude.{◌≡◌, ◌+◌, ◌*◌, ◌<◌, ◌≤◌, ◌↔◌, ℕ, Some, [], ◌∷◌, length, slice_index, IfOk, OnOk};
ghost use Rattle.std.proofs.Common.{refl};
ghost use Rattle.std.specs.Ordering.{ordering_index};
ghost use Rattle.std.specs.Result.{IsErrOf};
ghost use Rattle.digit_tuple.specs.Letters.{IsAlphabet, IsTooLarge};
ghost use Rattle.digit_tuple.specs.Deterministic.{states_of};
ghost use Rattle.digit_tuple.specs.Width.{HasApart, HasWidth};
ghost use Rattle.minimise.specs.Canonical.{IsCanonical};
ghost use Rattle.numeration.specs.Systems.{System, IsSystem};
ghost use Rattle.numeration.specs.Relations.{IsLanguageOf, HoldsOf, IsPairOf, IsCompared};
ghost use Rattle.number_order.specs.Orders.{OrderAlike, pair_sizes, pair_letters};
ghost use Rattle.number_order.specs.PairKeys.{ordering_at, compared_more, first_pair, next_states_of, next_pair, is_compared_pair};

use digit_tuple::alphabet::Alphabet;
use digit_tuple::dfa::Dfa;
use digit_tuple::direction::Direction;
use digit_tuple::faults::{OpFault, OutOfMemory};
use digit_tuple::key_graph::KeyGraph;
use digit_tuple::key_transitions::KeyTransitions;
use digit_tuple::limit::Limit;
use digit_tuple::stepped::Stepped;
use minimise::canonical_exploration::explore_canonical;
use minimise::sink::{initial_state, is_accepting, next_state};
use std::alloc::Global;
use std::cmp::Ordering;

// Two words that an automaton of so many digits reads side by side. A key has the state of each, or
// the sink, and how the words compare so far.
#[derive(Clone, Copy)]
struct Pairs<'a> {
    language: &'a Dfa,
    direction: Direction,
    digits: u32,
    wanted: Ordering,
}

impl KeyGraph for Pairs<'_> {
    ghost letters = { λ s. s.digits * s.digits };

    ghost is_graph = { λ s. s.digits * s.digits ≤ 65536 };

    ghost is_key = { λ _ key. length key ≡ 3 };

    ghost start = { λ s. first_pair s.language.now };

    ghost after = { λ s key letter. Some (next_pair s.direction s.language.now s.digits key letter) };

    ghost accepts = { λ s. is_compared_pair s.wanted s.language.now };

    ghost start_is_key = { λ s graph. refl };

    ghost after_is_key = { λ s key letter graph is small. refl };

    fn first_key(&self, alloc: Global) -> Result<Vec<u32>, OutOfMemory> {
        let first = initial_state(self.language);
        Ok(Vec::from_slice(alloc, &[first, first, number_of(Ordering::Equal)])?)
    }

    fn transitions(
        &self,
        alloc: Global,
        key: &[u32],
        out: &mut KeyTransitions,
    ) -> Result<(), OutOfMemory> {
        let firsts = next_states(alloc, self.language, key[0], self.digits)?;
        let seconds = next_states(alloc, self.language, key[1], self.digits)?;
        for letter in 0..self.digits * self.digits {
            let next = next_key(self, key, &firsts, &seconds, letter);
            out.push(letter, &next)?;
        }
        Ok(())
    }

    fn is_accepting(&self, key: &[u32]) -> bool {
        is_accepting(self.language, key[0])
            && is_accepting(self.language, key[1])
            && key[2] == number_of(self.wanted)
    }
}

// The number of an ordering in a key.
fn number_of(ordering: Ordering) -> u32
    ensures { result ≡ ordering_index ordering }
{
    match ordering {
        Ordering::Less => 0,
        Ordering::Equal => 1,
        Ordering::Greater => 2,
    }
}

// The ordering of a number in a key.
fn ordering_of(number: u32) -> Ordering
    ensures { result ≡ ordering_at number }
{
    match number {
        0 => Ordering::Less,
        1 => Ordering::Equal,
        _ => Ordering::Greater,
    }
}

// Where each of so many digits leads from a state or the sink.
fn next_states(
    alloc: Global,
    language: &Dfa,
    state: u32,
    digits: u32,
) -> Result<Vec<u32>, OutOfMemory>
    ensures { IfOk result (λ states. states.items ≡ next_states_of language.now state digits) }
{
    let states = (0..digits)
        .map(|digit| next_state(language, state, digit))
        .collect(alloc)?;
    Ok(states)
}

// Where a letter leads from a key, determined from where each digit leads from the key's two states.
fn next_key(
    pairs: &Pairs<'_>,
    key: &[u32],
    firsts: &[u32],
    seconds: &[u32],
    letter: u32,
) -> [u32; 3]
    requires key { length key.now ≡ 3 }
    requires firsts { firsts.now ≡ next_states_of pairs.now.language.now (slice_index key.now 0) pairs.now.digits }
    requires seconds { seconds.now ≡ next_states_of pairs.now.language.now (slice_index key.now 1) pairs.now.digits }
    requires letter { letter < pairs.now.digits * pairs.now.digits }
    ensures { result ≡ next_pair pairs.now.direction pairs.now.language.now pairs.now.digits key.now letter }
{
    let first = letter / pairs.digits;
    let second = letter % pairs.digits;
    let order = compare(pairs.direction, ordering_of(key[2]), first, second);
    [
        firsts[first as usize],
        seconds[second as usize],
        number_of(order),
    ]
}

// The comparison with a digit more of each word.
fn compare(direction: Direction, so_far: Ordering, first: u32, second: u32) -> Ordering
    ensures { result ≡ compared_more direction so_far first second }
{
    match direction {
        Direction::Msd => so_far.then(first.cmp(&second)),
        Direction::Lsd => first.cmp(&second).then(so_far),
    }
}

/// The canonical automaton of the pairs of numbers that compare as wanted, for a canonical automaton of one track that
/// accepts the valid words of a system. The width is the number of triples of the language's residuals after the two
/// words and of the words' comparison, the empty residual counted too. `Letters` comes if and only if two tracks have
/// too many letters, and `States` if and only if the width passes the limit.
pub fn compared(
    alloc: Global,
    language: &Dfa,
    direction: Direction,
    wanted: Ordering,
    limit: Limit<'_>,
) -> Result<Stepped<Dfa>, OpFault>
    requires track { length language.now.sizes ≡ 1 }
    requires canonical { IsCanonical language.now }
    ensures relation { IfOk result (λ stepped. (s : System) → IsSystem s → IsLanguageOf direction s language.now → HoldsOf direction (s ∷ s ∷ []) (IsPairOf (IsCompared wanted)) stepped.result) }
    ensures sizes { IfOk result (λ stepped. stepped.result.sizes ≡ pair_sizes language.now) }
    ensures canonical { IfOk result (λ stepped. IsCanonical stepped.result) }
    ensures width { IfOk result (λ stepped. HasWidth (OrderAlike direction language.now) (pair_letters language.now) stepped.width) }
    ensures size { IfOk result (λ stepped. states_of stepped.result ≤ stepped.width) }
    ensures within { IfOk result (λ stepped. stepped.width ≤ limit.entry.most) }
    ensures fits { OnOk result (IsAlphabet (pair_sizes language.now)) }
    ensures letters { IsErrOf result OpFault.Letters ↔ IsTooLarge (pair_sizes language.now) }
    ensures states { IsErrOf result OpFault.States → HasApart (OrderAlike direction language.now) (pair_letters language.now) (limit.entry.most + 1) }
    ensures letters_first { IsErrOf result OpFault.States → IsAlphabet (pair_sizes language.now) }
{
    let digits = language.alphabet().size(0);
    let alphabet = Alphabet::new(alloc, &[digits, digits])?;
    let pairs = Pairs {
        language,
        direction,
        digits,
        wanted,
    };
    explore_canonical(alloc, &pairs, alphabet, limit)
}

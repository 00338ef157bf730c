//! How many words of a length there are at each state of an automaton: those that lead from it to acceptance where the
//! most significant digit comes first, else those that lead to it.

ghost use Rattle.std.specs.Prelude.{◌≡◌, ℕ, suc, ◌+◌, ◌<◌, length, cond, nat_eq, slice_index_or, IfOk};
ghost use Rattle.std.specs.List.{All, sum_by};
ghost use Rattle.digit_tuple.specs.Deterministic.{IsTable, letters_of, states_of};
ghost use Rattle.digit_tuple.specs.declared.direction.Direction.TheVariants.{Msd, Lsd};
ghost use Rattle.constants.specs.WordCounts.{capped, words_at, AreCounts};

use digit_tuple::dfa::Dfa;
use digit_tuple::direction::Direction;
use digit_tuple::faults::OutOfMemory;
use digit_tuple::transitions::Transition;
use std::alloc::Global;

/// The counts of the states for words of no digit.
pub fn first_row(
    alloc: Global,
    language: &Dfa,
    direction: Direction,
) -> Result<Vec<u128>, OutOfMemory>
    ensures counts { IfOk result (λ row. AreCounts direction language.now 0 row.items) }
    ensures table { IsTable (letters_of language.now) language.now.states }
{
    let mut row = Vec::new(alloc);
    for state in 0..language.states() {
        row.push(empty_words(language, direction, state))?;
    }
    Ok(row)
}

/// The counts of the states for words of one digit more. A count that would pass the greatest number
/// of 128 bits is that number.
pub fn next_row(
    alloc: Global,
    language: &Dfa,
    direction: Direction,
    row: &[u128],
) -> Result<Vec<u128>, OutOfMemory>
    requires { length row.now ≡ states_of language.now }
    ensures { IfOk result (λ next. (n : ℕ) → AreCounts direction language.now n row.now → AreCounts direction language.now (suc n) next.items) }
{
    match direction {
        Direction::Msd => counts_from(alloc, language, row),
        Direction::Lsd => counts_into(alloc, language, row),
    }
}

// How many words of no digit there are at the state.
fn empty_words(language: &Dfa, direction: Direction, state: u32) -> u128
    requires { state < states_of language.now }
    ensures { result ≡ words_at direction language.now 0 state }
{
    let counted = match direction {
        Direction::Msd => language.accepting(state),
        Direction::Lsd => state == 0,
    };
    u128::from(counted)
}

// The counts for words with one more leading digit that lead to acceptance.
fn counts_from(alloc: Global, language: &Dfa, row: &[u128]) -> Result<Vec<u128>, OutOfMemory>
    requires { length row.now ≡ states_of language.now }
    ensures { IfOk result (λ next. (n : ℕ) → AreCounts Msd language.now n row.now → AreCounts Msd language.now (suc n) next.items) }
{
    let mut next = Vec::new(alloc);
    let mut transitions = Vec::new(alloc);
    for state in 0..language.states() {
        language.transitions_into(state, &mut transitions)?;
        next.push(sum_along(&transitions, row))?;
    }
    Ok(next)
}

// The sum of the counts where the transitions lead.
fn sum_along(transitions: &[Transition], row: &[u128]) -> u128
    requires { All (λ transition. transition.target < length row.now) transitions.now }
    ensures { result ≡ capped (sum_by (λ transition. slice_index_or row.now transition.target 0) transitions.now) }
{
    let mut sum: u128 = 0;
    for transition in transitions {
        sum = sum.saturating_add(row[transition.target as usize]);
    }
    sum
}

// The counts for words of one digit more at their end, that lead to a state.
fn counts_into(alloc: Global, language: &Dfa, row: &[u128]) -> Result<Vec<u128>, OutOfMemory>
    requires { length row.now ≡ states_of language.now }
    ensures { IfOk result (λ next. (n : ℕ) → AreCounts Lsd language.now n row.now → AreCounts Lsd language.now (suc n) next.items) }
{
    let mut next: Vec<u128> = vec![in alloc; 0; row.len()]?;
    let mut transitions = Vec::new(alloc);
    for state in 0..language.states() {
        language.transitions_into(state, &mut transitions)?;
        add_along(&mut next, &transitions, row[state as usize]);
    }
    Ok(next)
}

// Adds the count where each transition leads.
fn add_along(next: &mut [u128], transitions: &[Transition], count: u128)
    requires { All (λ transition. transition.target < length next.old) transitions.now }
    ensures { (state before : ℕ) → state < length next.old → slice_index_or next.old state 0 ≡ capped before
        → slice_index_or next.new state 0 ≡ capped (before + sum_by (λ transition. cond (nat_eq transition.target state) count 0) transitions.now) }
{
    for transition in transitions {
        let target = transition.target as usize;
        next[target] = next[target].saturating_add(count);
    }
}

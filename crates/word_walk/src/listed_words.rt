//! The automaton of the listed words.

ghost use Rattle.std.specs.Prelude.{◌≡◌, ◌++◌, ◌∷◌, [], length, IfOk, OnOk};
ghost use Rattle.digit_tuple.specs.Deterministic.{IsTable, letters_of};
ghost use Rattle.minimise.specs.Canonical.{IsCanonical};
ghost use Rattle.word_walk.specs.Listed.{IsListing};
ghost use Rattle.word_walk.specs.ListedKeys.{IsKey, accepts_key, goes_on, key_after, key_transitions, mark_after, may_end};
ghost use Rattle.word_walk.specs.ListedKeyLaws.{after_is_key, start_is_key};

use digit_tuple::dfa::Dfa;
use digit_tuple::direction::Direction;
use digit_tuple::faults::OutOfMemory;
use digit_tuple::key_graph::KeyGraph;
use digit_tuple::key_transitions::KeyTransitions;
use digit_tuple::limit::Limit;
use digit_tuple::transitions::Transition;
use minimise::canonical_exploration::explore_canonical;
use std::alloc::Global;

/// The words that an automaton accepts, without those that begin (msd) or end (lsd) with the letter 0 where a direction is
/// given. A key is a state and a mark: with the most significant digit first the mark is 1 once a letter was read, with the
/// least significant one where the last letter was 0, and else 0.
#[derive(Clone, Copy)]
struct ListedWords<'a> {
    dfa: &'a Dfa,
    skip: Option<Direction>,
}

impl KeyGraph for ListedWords<'_> {
    ghost letters = { λ g. letters_of g.dfa.now };

    ghost is_graph = { λ g. IsTable (letters_of g.dfa.now) g.dfa.now.states };

    ghost is_key = { λ g. IsKey g.dfa.now };

    ghost start = { λ g. 0 ∷ 0 ∷ [] };

    ghost after = { λ g. key_after g.dfa.now g.skip };

    ghost accepts = { λ g. accepts_key g.dfa.now g.skip };

    ghost start_is_key = { λ g table. start_is_key g.dfa.now table };

    ghost after_is_key = { λ g key letter table is small. after_is_key g.dfa.now g.skip table key letter };

    fn first_key(&self, alloc: Global) -> Result<Vec<u32>, OutOfMemory> {
        Ok(Vec::from_slice(alloc, &[0, 0])?)
    }

    fn transitions(
        &self,
        alloc: Global,
        key: &[u32],
        out: &mut KeyTransitions,
    ) -> Result<(), OutOfMemory> {
        let mut row = Vec::new(alloc);
        self.dfa.transitions_into(key[0], &mut row)?;
        push_transitions(self.skip, key[1], &row, out)
    }

    fn is_accepting(&self, key: &[u32]) -> bool {
        self.dfa.accepting(key[0]) && may_end(self.skip, key[1])
    }
}

// Adds the transitions from a key with the mark and a state with the row.
fn push_transitions(
    skip: Option<Direction>,
    mark: u32,
    row: &[Transition],
    out: &mut KeyTransitions,
) -> Result<(), OutOfMemory>
    ensures { OnOk result (out.new ≡ out.old ++ key_transitions skip mark row.now) }
{
    for transition in row {
        let letter = transition.letter;
        if goes_on(skip, mark, letter) {
            out.push(letter, &[transition.target, mark_after(skip, letter)])?;
        }
    }
    Ok(())
}

// Whether a word may go on with the letter.
fn goes_on(skip: Option<Direction>, mark: u32, letter: u32) -> bool
    ensures { result ≡ goes_on skip mark letter }
{
    match skip {
        Some(Direction::Msd) => !(mark == 0 && letter == 0),
        Some(Direction::Lsd) | None => true,
    }
}

// The mark after the letter.
fn mark_after(skip: Option<Direction>, letter: u32) -> u32
    ensures { result ≡ mark_after skip letter }
{
    match skip {
        Some(Direction::Msd) => 1,
        Some(Direction::Lsd) => u32::from(letter == 0),
        None => 0,
    }
}

// Whether a word may end.
fn may_end(skip: Option<Direction>, mark: u32) -> bool
    ensures { result ≡ may_end skip mark }
{
    match skip {
        Some(Direction::Lsd) => mark == 0,
        Some(Direction::Msd) | None => true,
    }
}

/// The canonical automaton of the listed words. OutOfMemory comes too where 2^32 - 1 states are not enough.
pub(crate) fn listed_words(
    alloc: Global,
    d: &Dfa,
    skip: Option<Direction>,
) -> Result<Dfa, OutOfMemory>
    ensures canonical { IfOk result IsCanonical }
    ensures words { IfOk result (IsListing d.now skip) }
{
    let alphabet = d.alphabet().copy(alloc)?;
    let words = ListedWords { dfa: d, skip };
    match explore_canonical(alloc, &words, alphabet, Limit::none()) {
        Ok(stepped) => Ok(stepped.result),
        Err(_) => Err(OutOfMemory),
    }
}

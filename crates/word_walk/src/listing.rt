//! An automaton with its distances and levels.

ghost use Rattle.std.specs.Prelude.{◌≡◌, ℕ, suc, ◌<◌, ◌≤◌, ◌^◌, ◌++◌, Bool, true, false, List, Some, length, IfOk, OnOk, MatchOption};
ghost use Rattle.std.specs.List.{All};
ghost use Rattle.std.specs.Option.{option_map};
ghost use Rattle.digit_tuple.specs.Deterministic.{IsTable, letters_of, states_of};
ghost use Rattle.word_walk.specs.Distances.{AreDistances};
ghost use Rattle.word_walk.specs.Lengths.{HasNoLength, IsFirstLength, IsFirstLonger};
ghost use Rattle.word_walk.specs.Levels.{AreLevels, IsLevel, first_live, least_word, lives};
ghost use Rattle.word_walk.specs.Raising.{path_of, raised, word_by};
ghost use Rattle.word_walk.specs.Sources.{IsReversed};

use crate::distances::Distances;
use crate::level::Level;
use crate::sources::Sources;
use digit_tuple::dfa::Dfa;
use digit_tuple::faults::OutOfMemory;
use digit_tuple::transitions::Transition;
use std::alloc::Global;

/// An automaton, the distances of its states, and the levels of the lengths so far. Levels are made where a distance
/// doesn't decide: of words that are longer than the shortest one from a state.
#[derive(Drop)]
pub(crate) struct Listing {
    alloc: Global,
    pub(crate) dfa: Dfa,
    distances: Distances,
    levels: Vec<Level>,
    sources: Sources,
    ghost is_table: { IsTable (letters_of dfa) dfa.states },
    ghost are_distances: { AreDistances dfa distances },
    ghost are_levels: { AreLevels dfa levels.items },
    ghost is_reversed: { IsReversed dfa sources.backwards },
}

impl Listing {
    /// The automaton with its distances, without levels.
    pub(crate) fn new(alloc: Global, dfa: Dfa) -> Result<Self, OutOfMemory>
        requires { IsTable (letters_of dfa) dfa.states }
        ensures { IfOk result (λ listing. listing.dfa ≡ dfa) }
    {
        let distances = Distances::new(alloc, &dfa)?;
        Ok(Listing {
            alloc,
            dfa,
            distances,
            levels: Vec::new(alloc),
            sources: Sources::new(),
        })
    }

    // Whether a word of a length is accepted from the state.
    fn lives(&mut self, size: usize, state: u32) -> Result<bool, OutOfMemory>
        requires { state < states_of self.old.dfa }
        ensures same { self.new.dfa ≡ self.old.dfa }
        ensures lives { IfOk result (λ is. is ≡ lives self.old.dfa size state) }
    {
        if let Some(is) = self.distances.decides(size, state) {
            return Ok(is);
        }
        self.grow(size)?;
        Ok(self.levels[size].lives(state))
    }

    // The first transition by a letter from a number on after which a word of a length is accepted.
    fn first_live(
        &mut self,
        size: usize,
        from: u64,
        row: &[Transition],
    ) -> Result<Option<Transition>, OutOfMemory>
        requires { All (λ transition. transition.target < states_of self.old.dfa) row.now }
        ensures same { self.new.dfa ≡ self.old.dfa }
        ensures first { IfOk result (λ found. found ≡ first_live self.old.dfa size from row.now) }
    {
        for transition in row {
            if from <= u64::from(transition.letter) && self.lives(size, transition.target)? {
                return Ok(Some(*transition));
            }
        }
        Ok(None)
    }

    // Makes the levels up to a length.
    fn grow(&mut self, size: usize) -> Result<(), OutOfMemory>
        ensures same { self.new.dfa ≡ self.old.dfa }
        ensures enough { OnOk result (size < length self.new.levels.items) }
    {
        while self.levels.len() <= size {
            let level = self.next_level()?;
            self.levels.push(level)?;
        }
        Ok(())
    }

    // The level that comes after those that there are.
    fn next_level(&mut self) -> Result<Level, OutOfMemory>
        ensures same { self.new.dfa ≡ self.old.dfa }
        ensures levels { self.new.levels ≡ self.old.levels }
        ensures level { IfOk result (IsLevel self.old.dfa (length self.old.levels.items)) }
    {
        match self.levels.last() {
            Some(level) => level.next(self.alloc, &self.dfa, &mut self.sources),
            None => Level::first(self.alloc, &self.dfa),
        }
    }

    /// The first accepted word of the same length after the word, if there is one.
    pub(crate) fn raised(&mut self, word: &[u32]) -> Result<Option<Vec<u32>>, OutOfMemory>
        ensures same { self.new.dfa ≡ self.old.dfa }
        ensures raised { IfOk result (λ found. option_map (λ v. v.items) found ≡ raised self.old.dfa 0 word.now) }
    {
        let path = self.path(word)?;
        let mut row = Vec::new(self.alloc);
        for at in (0..path.len()).rev() {
            let rest = word.len() - 1 - at;
            self.dfa.transitions_into(path[at], &mut row)?;
            let greater = u64::from(word[at]) + 1;
            if let Some(transition) = self.first_live(rest, greater, &row)? {
                return Ok(Some(self.word_after(&word[..at], transition, rest)?));
            }
        }
        Ok(None)
    }

    // The states to which shorter prefixes of the word lead.
    fn path(&self, word: &[u32]) -> Result<Vec<u32>, OutOfMemory>
        ensures { IfOk result (λ path. path.items ≡ path_of self.now.dfa 0 word.now) }
    {
        let mut path = Vec::new(self.alloc);
        let mut state = 0;
        for letter in word {
            path.push(state)?;
            match self.dfa.step(state, *letter) {
                Some(next) => state = next,
                None => return Ok(path),
            }
        }
        Ok(path)
    }

    // The prefix, the transition's letter, and the first accepted word of a length.
    fn word_after(
        &mut self,
        prefix: &[u32],
        transition: Transition,
        size: usize,
    ) -> Result<Vec<u32>, OutOfMemory>
        requires { transition.target < states_of self.old.dfa }
        ensures same { self.new.dfa ≡ self.old.dfa }
        ensures word { IfOk result (λ word. word.items ≡ prefix.now ++ word_by self.old.dfa size transition) }
    {
        let mut word = Vec::from_slice(self.alloc, prefix)?;
        word.push(transition.letter)?;
        self.push_least(transition.target, size, &mut word)?;
        Ok(word)
    }

    // Adds the first word of a length that is accepted from the state.
    fn push_least(
        &mut self,
        state: u32,
        size: usize,
        word: &mut Vec<u32>,
    ) -> Result<(), OutOfMemory>
        requires { state < states_of self.old.dfa }
        ensures same { self.new.dfa ≡ self.old.dfa }
        ensures word { OnOk result (word.new.items ≡ word.old.items ++ least_word self.old.dfa size state) }
    {
        let mut row = Vec::new(self.alloc);
        let mut from = state;
        for rest in (0..size).rev() {
            self.dfa.transitions_into(from, &mut row)?;
            match self.first_live(rest, 0, &row)? {
                Some(transition) => {
                    word.push(transition.letter)?;
                    from = transition.target;
                }
                None => return Ok(()),
            }
        }
        Ok(())
    }

    /// The first accepted word of at least a length, if there is one.
    pub(crate) fn longer(&mut self, least: usize) -> Result<Option<Vec<u32>>, OutOfMemory>
        requires { least < 2 ^ 63 }
        ensures same { self.new.dfa ≡ self.old.dfa }
        ensures word { IfOk result (λ found. MatchOption found (HasNoLength self.old.dfa least) (λ word. IsFirstLonger self.old.dfa least word.items)) }
    {
        match self.next_length(least)? {
            Some(size) => {
                let mut word = Vec::new(self.alloc);
                self.push_least(0, size, &mut word)?;
                Ok(Some(word))
            }
            None => Ok(None),
        }
    }

    // The least length from one on of which a word is accepted, if there is one: it is less than that and the number of
    // states.
    fn next_length(&mut self, least: usize) -> Result<Option<usize>, OutOfMemory>
        requires { least < 2 ^ 63 }
        ensures same { self.new.dfa ≡ self.old.dfa }
        ensures size { IfOk result (λ found. MatchOption found (HasNoLength self.old.dfa least) (IsFirstLength self.old.dfa least)) }
    {
        for more in 0..self.dfa.states() as usize {
            let size = least + more;
            if self.lives(size, 0)? {
                return Ok(Some(size));
            }
            if self.is_empty(size) {
                return Ok(None);
            }
        }
        Ok(None)
    }

    // Whether a level says that no word of the length is accepted from any state.
    fn is_empty(&self, size: usize) -> bool
        ensures { result ≡ true → (q : ℕ) → q < states_of self.now.dfa → lives self.now.dfa size q ≡ false }
    {
        if size < self.levels.len() {
            return !self.levels[size].has_any();
        }
        false
    }
}

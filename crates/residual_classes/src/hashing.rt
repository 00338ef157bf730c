//! Hashes of states: one number for states that are alike, mostly different ones for others. Nothing
//! rests on that they differ.

ghost use Rattle.std.specs.Prelude.{◌≡◌, ◌+◌, ◌<◌, ◌≤◌, [], ◌∷◌, None, length};
ghost use Rattle.digit_tuple.specs.Deterministic.{transitions_of, states_of};
ghost use Rattle.residual_classes.specs.Classes.{dead_class};
ghost use Rattle.residual_classes.specs.TransitionLetters.{listed};
ghost use Rattle.residual_classes.specs.FlatTransitions.{AreLaidOut};
ghost use Rattle.residual_classes.specs.ClassTransitions.{class_transitions};
ghost use Rattle.residual_classes.specs.Hashes.{hash_transitions, hash_of};
ghost use Rattle.residual_classes.specs.LookCounts.{looked_at};

use crate::looks::Looks;
use crate::transition_letters::TransitionLetters;
use digit_tuple::dfa::Dfa;
use digit_tuple::key_hashes::mix;
use digit_tuple::transitions::Transition;
use std::sync::ledger::Ledger;

/// The letters from a first one on to before an end.
#[derive(Clone, Copy)]
pub struct LetterSpan {
    pub first: u32,
    pub end: u32,
}

/// What a part of a round reads: an automaton, its transitions in a flat table, the hashes that its states and last the
/// sink had, and the letters by which transitions are looked at.
#[derive(Clone, Copy)]
pub struct RoundPart<'a> {
    pub dfa: &'a Dfa,
    pub starts: &'a [u32],
    pub letters: &'a TransitionLetters,
    pub targets: &'a [u32],
    pub hashes: &'a [u64],
    pub span: LetterSpan,
}

impl RoundPart<'_> {
    /// The hash of a state or the sink: of the hash that it had, and of the letters and the targets' hashes of the
    /// transitions that are looked at and lead to states that had another hash than the sink.
    pub fn state_hash<L: Ledger>(&self, state: u32, looks: &mut Looks<L>) -> u64
        requires flat { AreLaidOut self.now.dfa.now self.now.starts.now (listed self.now.letters.now) self.now.targets.now (states_of self.now.dfa.now) }
        requires width { length self.now.hashes.now ≡ states_of self.now.dfa.now + 1 }
        requires state { state ≤ states_of self.now.dfa.now }
        ensures looks { looks.new ≤ looks.old + looked_at self.now.span.first self.now.span.end (transitions_of self.now.dfa.now state) }
        ensures hash { result ≡ hash_of self.now.dfa.now self.now.span.first self.now.span.end self.now.hashes.now state }
    {
        let own = self.hashes[state as usize];
        if state as usize + 1 == self.hashes.len() {
            return own;
        }
        self.mix_transitions(own, state, looks)
    }

    // The hash with the transitions of a state.
    fn mix_transitions<L: Ledger>(&self, start: u64, state: u32, looks: &mut Looks<L>) -> u64
        requires flat { AreLaidOut self.now.dfa.now self.now.starts.now (listed self.now.letters.now) self.now.targets.now (states_of self.now.dfa.now) }
        requires width { length self.now.hashes.now ≡ states_of self.now.dfa.now + 1 }
        requires state { state < states_of self.now.dfa.now }
        ensures looks { looks.new ≤ looks.old + looked_at self.now.span.first self.now.span.end (transitions_of self.now.dfa.now state) }
        ensures hash { result ≡ hash_transitions self.now.span.first self.now.span.end start (class_transitions self.now.hashes.now (dead_class self.now.dfa.now self.now.hashes.now) (transitions_of self.now.dfa.now state)) }
    {
        match self.letters {
            TransitionLetters::Full => self.mix_full(start, state, looks),
            TransitionLetters::Listed(_) => self.mix_listed(start, state, looks),
        }
    }

    // The hash with the transitions of a state whose letters are their places.
    fn mix_full<L: Ledger>(&self, start: u64, state: u32, looks: &mut Looks<L>) -> u64
        requires flat { AreLaidOut self.now.dfa.now self.now.starts.now (listed self.now.letters.now) self.now.targets.now (states_of self.now.dfa.now) }
        requires width { length self.now.hashes.now ≡ states_of self.now.dfa.now + 1 }
        requires state { state < states_of self.now.dfa.now }
        requires full { listed self.now.letters.now ≡ None }
        ensures looks { looks.new ≤ looks.old + looked_at self.now.span.first self.now.span.end (transitions_of self.now.dfa.now state) }
        ensures hash { result ≡ hash_transitions self.now.span.first self.now.span.end start (class_transitions self.now.hashes.now (dead_class self.now.dfa.now self.now.hashes.now) (transitions_of self.now.dfa.now state)) }
    {
        // That the states and transitions are a table.
        let _states = self.dfa.states();
        let mut hash = start;
        let first = self.starts[state as usize] as usize;
        let count = self.starts[state as usize + 1] as usize - first;
        for letter in self.span.first as usize..count.min(self.span.end as usize) {
            let transition = Transition {
                letter: letter as u32,
                target: self.targets[first + letter],
            };
            hash = self.mix_target(hash, transition, looks);
        }
        hash
    }

    // The hash with the transitions of a state whose letters may be any.
    fn mix_listed<L: Ledger>(&self, start: u64, state: u32, looks: &mut Looks<L>) -> u64
        requires flat { AreLaidOut self.now.dfa.now self.now.starts.now (listed self.now.letters.now) self.now.targets.now (states_of self.now.dfa.now) }
        requires width { length self.now.hashes.now ≡ states_of self.now.dfa.now + 1 }
        requires state { state < states_of self.now.dfa.now }
        ensures looks { looks.new ≤ looks.old + looked_at self.now.span.first self.now.span.end (transitions_of self.now.dfa.now state) }
        ensures hash { result ≡ hash_transitions self.now.span.first self.now.span.end start (class_transitions self.now.hashes.now (dead_class self.now.dfa.now self.now.hashes.now) (transitions_of self.now.dfa.now state)) }
    {
        // That the states and transitions are a table.
        let _states = self.dfa.states();
        let mut hash = start;
        let first = self.starts[state as usize] as usize;
        for place in first..self.starts[state as usize + 1] as usize {
            let letter = self.letters.letter(first, place);
            let target = self.targets[place];
            if letter >= self.span.end {
                return hash;
            }
            if letter >= self.span.first {
                hash = self.mix_target(hash, Transition { letter, target }, looks);
            }
        }
        hash
    }

    // The hash with a transition that is looked at, where it leads to a state that had another hash than the sink.
    fn mix_target<L: Ledger>(&self, hash: u64, transition: Transition, looks: &mut Looks<L>) -> u64
        requires width { length self.now.hashes.now ≡ states_of self.now.dfa.now + 1 }
        requires target { transition.target ≤ states_of self.now.dfa.now }
        requires from { self.now.span.first ≤ transition.letter }
        requires before { transition.letter < self.now.span.end }
        ensures looks { looks.new ≡ looks.old + 1 }
        ensures hash { result ≡ hash_transitions self.now.span.first self.now.span.end hash (class_transitions self.now.hashes.now (dead_class self.now.dfa.now self.now.hashes.now) (transition ∷ [])) }
    {
        looks.tick();
        let target = self.hashes[transition.target as usize];
        if target == self.hashes[self.hashes.len() - 1] {
            return hash;
        }
        mix(
            hash.wrapping_mul(3)
                .wrapping_add(u64::from(transition.letter)),
            target,
        )
    }
}

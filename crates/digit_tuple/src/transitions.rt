//! Transitions and states of nondeterministic automata.

ghost use Rattle.std.specs.Prelude.{◌↔◌, IsTrue};

/// A transition: its letter, and the state that it leads to. Transitions are ordered by letter, then by target.
#[derive(Clone, Copy, Debug, PartialEq, Eq, PartialOrd, Ord)]
pub struct Transition {
    pub letter: u32,
    pub target: u32,
}

impl Transition {
    ghost use Rattle.digit_tuple.specs.Automaton.{IsBefore};

    /// Whether this transition comes before the other in the order of transitions.
    pub fn is_before(&self, other: &Transition) -> bool
        ensures { IsTrue result ↔ IsBefore self.now other.now }
    {
        self.letter < other.letter || (self.letter == other.letter && self.target < other.target)
    }
}

/// A state: whether it accepts, and its transitions.
#[derive(Drop)]
pub struct NfaState {
    pub accepting: bool,
    pub transitions: Vec<Transition>,
}

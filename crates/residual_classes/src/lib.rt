//! The classes of an automaton's states that are the residuals: states have one class if and only if all words lead from
//! them to the same outputs.
//!
//! `classes::residual_classes` takes an automaton with an output of each state (`machine::Machine`) and gives the class of
//! each state, and last that of the sink, where missing transitions lead. `leaders` finds a state of each class.
//!
//! For m transitions and b binary digits of the number of states, transitions are looked at no more than m b times,
//! whatever the automaton, and whichever hashes are equal by chance: this is a clause of `counted_classes`. Rounds
//! (Edward Moore, "Gedanken-experiments on sequential machines") look at each transition once, and end where one more
//! could cost too much. From classes of s states at most Hopcroft's algorithm then takes m + (m / 2) log2 s looks: of two
//! parts it goes on with the one that fewer transitions lead to (John Hopcroft, "An n log n algorithm for minimizing
//! states in a finite automaton"; Antti Valmari and Petri Lehtinen, "Efficient minimization of DFAs with partial
//! transition functions"). Of k + l states that v + w transitions lead to, v no more than w, the part with v pays for its
//! looks, since 4^v k^v l^w is at most (k + l)^(v + w). A comparison, which parts nothing, is no look.
//!
//! Not proved: the time of sorting, and of all that is no look. 2^32 transitions or more are out of memory.
#![tactic(auto)]

/// Automata with outputs, and the outputs that acceptance gives.
pub mod machine;

/// How many times transitions are looked at.
pub mod looks;

/// A state of each class.
pub mod leaders;

/// The letters of transitions in one table.
mod transition_letters;

/// The transitions of all states in one table.
mod flat_transitions;

/// The transitions by the states that they lead to.
mod reversed_transitions;

/// The first place of each number of a list.
mod first_places;

/// Classes of states, parted by outputs.
mod output_parts;

/// The transitions of a state between classes.
mod class_row;

/// Whether letters keep classes.
mod stability;

/// Hashes of states.
mod hashing;

/// Hashes of states that rounds make anew.
mod state_hashes;

/// Rounds that part states by hashes.
mod rounds;

/// Sets of states, gathered by the letters that lead from them, and by their classes.
mod gathering;

/// States in an order, and where each is in it.
mod state_order;

/// The classes by which others are still to be parted.
mod pending_classes;

/// Classes of states, parted by Hopcroft's algorithm.
mod partition;

/// The classes of states that are the residuals.
pub mod classes;

//! Letters, tuples and words over tracks of digits, tables of automata over them, and the one exploration that every
//! construction is made of.
//!
//! A letter has a digit on each track, and is the number of these digits in mixed radix: the first track changes
//! slowest. An `Alphabet` has at most 16 tracks and 65,536 letters. A `Dfa` and an `Nfa` have fewer than 2^32 states,
//! of which 0 is initial. A state of a `Dfa` may have no transition by a letter: then no word that goes on with it is
//! accepted.
//!
//! `explore` makes a `Dfa` of a `KeyGraph`, which gives a first key and the transitions from each key; a key is a list
//! of numbers. It goes breadth first, so states are numbered by the first words that lead to them, in shortlex order.
//! The width is the number of classes of words, where two are alike if they lead to one key, or both to none. So it is
//! the number of states, and one more where some word leads to no key. `States` comes if and only if the width passes
//! the limit. `Steps` has a limit on widths, and the lines of the steps that were done under it.
//!
//! A `Dfa` keeps the transitions of a state as a trie of their digits, track by track (`SparseRows`), so a missing
//! letter takes no memory. By a clause of `Dfa::cells` the tries have at most as many digits as transitions times
//! tracks. The last rows of a table may be kept by whole letters instead. Keys are in one buffer, and are found by
//! their hashes (open addressing, `slots.rt`). No proof needs hashes that differ. Not proved: time and memory.
#![tactic(auto)]

/// Faults of calls: out of memory, too many letters, too many states.
pub mod faults;

/// Names of automata.
pub mod name;

/// Sets of numbers.
pub mod letter_set;

/// Lists of sets, one for each track.
pub mod sets;

/// Directions: which digit of a number is read first.
pub mod direction;

/// Lists of numeration systems, one for each track.
pub mod systems;

/// Headers: what the tracks of an automaton are over.
pub mod header;

/// Alphabets: letters of several tracks.
pub mod alphabet;

/// Names of tracks, and their places.
pub mod names;

/// The parts of letters, and the letters of each part.
pub mod part_index;

/// Transitions and states of nondeterministic automata.
pub mod transitions;

/// Nondeterministic automata.
pub mod nfa;

/// Tables of deterministic automata, whatever form they are kept in.
pub mod table;

/// Dense tables: the transitions of each state in a list of its own.
pub mod dense;

/// Places in a buffer at which lists begin.
mod starts;

/// Lists of numbers in one buffer.
mod number_lists;

/// Rows of transitions as decisions by tracks.
mod decisions;

/// Rows that are decided by whole letters, and the same rows by tracks.
mod by_tracks;

/// How many digits ascending letters take as decisions by tracks.
mod letter_cells;

/// How many digits rows take as decisions by tracks.
mod block_cells;

/// Sparse rows: transitions by letters of tracks, of which only those that are there take a place.
mod sparse_rows;

/// Deterministic automata.
pub mod dfa;

/// Deterministic automata that grow by whole states.
mod growing_dfa;

/// Deterministic automata built state by state.
pub mod dfa_builder;

/// The accepting states of an automaton.
pub mod accepting_states;

/// Automata with their transitions reversed.
pub mod reversed;

/// Results of one step of a construction.
pub mod stepped;

/// The automaton of no words.
pub mod no_words;

/// Lists of zeros.
pub mod blanks;

/// Transitions from a key, in one buffer.
pub mod key_transitions;

/// Transitions gathered by their letters.
pub mod groups;

/// Graphs of keys, which an exploration walks.
pub mod key_graph;

/// Hashes of keys.
pub mod key_hashes;

/// Where keys end that are one after another.
pub mod key_ends;

/// Keys, one after another in one buffer.
pub mod key_arena;

/// Numbers in slots, by their hashes.
pub mod slots;

/// Keys, numbered in the order in which they were first seen.
pub mod numbering;

/// The exploration: one for every construction.
pub mod exploration;

/// Kinds of steps.
pub mod kind;

/// Limits on the widths of steps.
pub mod limit;

/// The steps that were done under a limit.
pub mod steps;

/// Why a step gives no automaton.
pub mod step_fault;

/// Laws of the definitions.
pub mod laws;

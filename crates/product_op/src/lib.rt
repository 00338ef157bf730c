//! Canonical automata combined over the tracks of both.
//!
//! `product` gives the words of which a connective (`Op`) holds, by whether each of two automata accepts the word's
//! part on its tracks. Tracks of one name are one track, and those of the result are in byte order of names. A word is
//! valid if on each track its word is in the track's language. `tracked_side_by_side` gives the words of which a rule
//! holds, by whether each of several automata accepts its part. These results are canonical. `explore_tuples` gives the
//! automaton of the tuples of states that words lead to, and does not say which of them accept.
//!
//! Each is a product construction: automata are read side by side, the languages of tracks among them. A missing
//! transition leads to a sink, which may be part of a tuple. `And` and `AndNot` accept words of the first automaton
//! alone, and do not look at the languages; the other connectives are taken among valid words. The width counts the
//! tuples of residuals that words lead to, the empty residual too, so it depends on the languages alone.
//!
//! Under `And` and `AndNot` only pairs of states from which a word may be accepted are explored (`LivePairs`); the
//! others are counted for the width (`add_dead_pairs`). Under `And` the letters by which both automata lead on are added
//! up of the least letters with their parts, where letters are not many beside transitions (`LetterJoin`). Time and
//! memory follow the width and the letters by which some residual leads to one that is not empty, or all letters where
//! they are at most 32. Where letters lead from all states is kept if that takes little memory, or if at least half of
//! them lead on (`NextTable`). Not proved: time and memory.
#![tactic(auto)]

/// Connectives of two arguments.
pub mod op;

/// The tracks of two automata seen as one list.
pub mod joint_tracks;

/// What says whether automata that read side by side accept.
pub mod rule;

/// Where letters lead from all states of an automaton, in one table.
mod next_table;

/// Automata that read parts of letters.
pub mod reader;

/// Readers of automata on some of the tracks.
pub mod argument_readers;

/// Where letters lead from the states of a key, as lists.
mod next_row;

/// The numbers below a number.
mod numbers_below;

/// States of readers, one of each.
pub mod reader_states;

/// The graph of the states that letters lead automata to that read side by side.
mod reader_graph;

/// Letters from the parts that two readers read of them.
mod letter_joins;

/// The graph of the pairs of states from which a connective may accept.
mod live_pairs;

/// Readers at their states.
mod reader_at;

/// Letters by which pairs of states lead to dead ones.
mod dead_exits;

/// Dead pairs of a state of one reader and the sink of the other.
mod leaving;

/// The dead pairs of states that words lead to.
mod dead_pairs;

/// The automaton of a connective that needs its first argument.
mod needing;

/// The automaton whose states are tuples of residuals.
pub mod side_by_side;

/// The automaton whose states are the tuples of states that words lead automata to.
pub mod tuples;

/// Languages of tracks.
pub mod languages;

/// Products of two automata over the tracks of both.
pub mod product;

/// The law of widths.
pub mod laws;

//! Closure of canonical automata under padding, and canonical automata over other tracks: under new names, and with two
//! tracks as one. Beside these, what projections need too: the states that zero letters lead to, and whether a
//! canonical automaton accepts no word.
//!
//! `pad` closes a language under adding and removing zeros: leading zeros for msd, trailing zeros for lsd. It makes
//! sets of states for msd, and pairs of states for lsd. Both have a width, and are refused by `States` if and only if
//! it passes the limit. Where the language is closed already, the result is a copy, and nothing is minimised; the
//! width is the same.
//!
//! `rename`, `restrict` and `substitute` move tracks, equate two, and name several alike. They have no width and no
//! limit, and out of memory is their only fault. All results are canonical.
//!
//! Time and memory of `pad` follow the automaton, the transitions from the sets or pairs, and the sizes of the sets.
//! Not proved: time and memory.
#![tactic(auto)]

/// Sizes of some of the tracks.
pub mod track_sizes;

/// Whether canonical automata accept no word.
pub mod emptiness;

/// The states that zero letters lead to.
pub mod zero_closure;

/// Deterministic automata seen as nondeterministic ones.
mod same_branching;

/// Automata that are closed under leading zeros already.
mod zeros_stay;

/// Closure under leading zeros.
mod padding_msd;

/// The graph of the states that words lead to without their trailing zeros and with them.
pub mod padded_pairs;

/// Closure under trailing zeros.
mod padding_lsd;

/// Closure under padding.
pub mod padding;

/// Automata that read the parts of letters.
mod part_reading;

/// Automata whose tracks are under other names, of which some may be the same.
pub mod substitution;

/// Automata with new names for their tracks.
pub mod renaming;

/// Automata on the words of which two tracks are equal.
pub mod restriction;

/// The law of the width.
pub mod laws;

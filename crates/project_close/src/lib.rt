//! Projections of canonical automata.
//!
//! `project` drops a track: it is the existential quantifier of Büchi's decision procedure. The value on the dropped
//! track may be longer than the others. So for msd reading begins after any number of zeros on the tracks that stay,
//! and for lsd a word may end wherever such zeros lead on to an accepting state (`reading_on`). The rest is the subset
//! construction and `minimise`. The result is canonical. A projection has a width, and is refused by `States` if and
//! only if it passes the limit. It may answer `Letters` though it drops a track: where that one has no digit, the
//! tracks that stay may have too many letters.
//!
//! Time and memory follow the width times the states and transitions of the automaton. A projection may make
//! exponentially many sets. Not proved: time and memory.
#![tactic(auto)]

/// Automata read on some of their tracks.
pub mod image;

/// The sets of states that an image leads to, made canonical.
mod canonical_sets;

/// Projections of automata to all tracks but one.
pub mod projection;

/// The law of the width.
pub mod laws;

//! Relations on numbers: canonical automata of their representations, with a name and a sealed system for each track.
//!
//! A `Relation` accepts all representations of the tuples of which it holds, and no other word: this is an invariant of
//! the type (`IsRelation` in `specs/Relations.antt`). So relations over the same tracks that hold of the same tuples
//! are equal (`tuples_determine_relations`), and one without tracks is true if and only if it accepts the empty word
//! (`verdict`).
//!
//! `truth`, `number`, `comparison`, `sum`, `placed`, `renamed` and `ordered` make relations without a step. Others take
//! steps, as in Büchi's decision procedure: `join_step`, `complement_step`, `project_step`, `constant_step`,
//! `multiple_steps` and `reading_steps`. Each adds its lines to `Steps`. Their contracts say which automaton it is;
//! `laws.rt` and `step_laws.rt` say of which numbers it holds.
//!
//! Tracks under one name become one track, as where a relation of two arguments is asked of x and x. `Greater` and
//! `AtMost` are made from the order with its tracks exchanged, so their tracks are in the other order too. In a join by
//! `AndNot` each track of the second is one of the first. `multiple_steps` doubles: it takes at most four steps for
//! each binary digit of the factor, and none for 1 and 2. A file may list any representation of a tuple:
//! `reading_steps` adds the others.
//!
//! Widths and costs are those of the steps. `placed` copies the table where the names are different; else its cost
//! follows the states, the letters of the result, and those by which the states lead on. Not proved: time and memory.
#![tactic(auto)]

/// Relations, and what they say.
pub mod relation;

/// True and false sentences.
pub mod truth;

/// Automata placed under names.
pub mod placed;

/// Relations with their tracks in byte order of names.
pub mod ordered;

/// The comparisons, the sums and the numbers of one system.
pub mod arithmetic;

/// The systems of a step's tracks.
mod track_systems;

/// Relations joined by a connective.
pub mod join;

/// Complements of relations.
pub mod complement;

/// Projections of relations.
pub mod projection;

/// Relations that hold of one number alone.
pub mod constant;

/// Multiples of a number by a factor.
pub mod multiple;

/// Relations read from what files list.
pub mod reading;

/// Laws of relations.
pub mod laws;

/// Laws of steps on relations.
pub mod step_laws;

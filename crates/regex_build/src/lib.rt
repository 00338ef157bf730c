//! Expressions of scripts: their grammar, the words that they match, and automata that accept these.
//!
//! `parse` gives the expression of a text over the sets of its tracks if and only if the grammar relates one to it
//! (`specs/Grammar.antt`), else the first fault and its byte, and has one answer (`one_answer`). `Matches` in
//! `specs/Matches.antt` says which words match. `positions` gives the position automaton of V. M. Glushkov, "The
//! abstract theory of automata": an initial state, and a state for each letter of the expression (`IsPositionTable` in
//! `specs/Positions.antt`). `build` gives the canonical automaton of the matches, which is minimal: it determinises the
//! position automaton (`determinise`) and minimises the result (`minimise`). Its width is the number of sets of last
//! marks (`SameLastMarks` in `specs/LastMarks.antt`), so it is a fact of the expression and not of the code.
//!
//! An expression is kept in postfix order, as Dijkstra's shunting-yard algorithm gives it (`src/reading.rt`). A `.` may
//! be any letter, and is one state. A digit is a letter over one track. In brackets is an integer for each track, as
//! `[0,-1]`.
//!
//! All transitions of the position automaton are made, so it is as large as its table. Which letters may follow which
//! is found in time linear in the number of such pairs, but for moving lists, however deep repetitions are in each
//! other (after A. Brüggemann-Klein, "Regular expressions into finite automata"). An expression of 2^32 - 1 letters or
//! more is answered by out of memory. Not proved: time and memory.
#![tactic(auto)]

/// Letters: tuples of members of sets.
pub mod letter_tuple;

/// The symbols of an expression in postfix order.
pub mod postfix_symbol;

/// Tests of symbols in postfix order.
mod postfix;

/// Expressions.
pub mod regex;

/// Faults of expressions.
pub mod fault;

/// The tokens of a text.
mod token;

/// The tokens of a text, read one after the other.
mod lexing;

/// The tokens of an expression, read to its symbols.
mod reading;

/// Parsing of expressions.
pub mod parsing;

/// Letters of expressions, written as numbers.
mod codes;

/// Parts of expressions.
mod fragment;

/// Which places may come right after which.
mod links;

/// What may come right after the places of an expression.
mod next_places;

/// Rows of the automaton of an expression's letters.
mod rows;

/// The automaton of an expression's letters.
pub mod position_table;

/// The canonical automaton of an expression.
pub mod build;

pub use parsing::parse;
pub use position_table::positions;

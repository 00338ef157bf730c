//! The formula language: its grammar, and one exact parser.
//!
//! `parse` gives the tree of a text if and only if the grammar relates one to it (`Reads` in `specs/Grammar.antt`).
//! Otherwise the text has one fault, with its byte: that a text has one answer, and never two trees, is a law
//! (`one_answer`, `one_tree`). The grammar is stated as it is printed, a data type for each line
//! (`specs/Formulas.antt`), and `specs/FormulaTrees.antt` has the tree of each derivation. `Syntax`, `Number` and
//! `Depth` are at the first token that decides. `MixedChain` and `NotLinear` come only if there is none, at the least
//! byte.
//!
//! Terms are linear, as in Presburger arithmetic: of the factors of a product at most one is not a numeral. A
//! quantifier reaches to the next closing parenthesis of its level or to the end, so `~Ex x=1 & y=2` is one negation. A
//! formula that names no system is in `msd_2`. Parentheses leave no mark in a tree.
//!
//! The text is read once, token by token, by a machine whose states hold the trees made so far. Calls go no deeper than
//! the nesting, which is at most 128, so long sums and chains cost no stack. Where a step stops, it calls `drop` on the
//! large values that it holds: so the drop of each type is proved once, and not variant by variant in each function.
//!
//! Time and memory grow with the length of the text. Not proved: this, and that tokens which begin a formula are also
//! those of some text: the first fault is said of tokens.
#![tactic(auto)]

/// The trees of formulas.
pub mod tree;

/// Why a text has no tree.
mod fault;

/// The tokens of a formula.
mod token;

/// The tokens of a text, read one after the other.
mod lexing;

/// The faults that a text of the grammar may still have: mixed chains, and products of two unknowns.
mod flaw;

/// Trees made of their parts.
mod making;

/// The states of the machine that reads a formula.
mod state;

/// What comes before the next operand of a formula.
mod prefix;

/// The machine at a `)` or the end of the text, after a formula or a term.
mod closings;

/// The machine after an operand.
mod operands;

/// The machine where a factor begins, and after one.
mod terms;

/// The machine at words with positions.
mod indexes;

/// The machine at letters.
mod letters;

/// The machine at calls.
mod calls;

/// The machine where an operand begins.
mod beginnings;

/// The machine at a token.
mod step;

/// The machine at a token, with its limits.
mod advance;

/// The parser.
mod parser;

/// Laws of the grammar.
mod laws;

pub use fault::ParseFault;
pub use laws::{one_answer, one_tree};
pub use parser::parse;

//! Automatic words under transducers: the word of the outputs that a transducer makes when it runs over a word's letters.
//!
//! The step `transduce` reads digits from the least significant one, so that the residuals of the old word are those of blocks of
//! letters: after j digits a residual is that of a block of k^j letters, in base k. Of each block it keeps, from each state of
//! the transducer, what is made at the position that the digits represent, and where the run ends (`specs/Transductions.antt`). A block
//! of one digit more is k blocks one after another. No run over a list of letters is made.
//!
//! Where runs end depends on the number of digits alone. So the ends have numbers, and for each of them it is listed once where
//! the outputs of a block of one digit more are among those of its blocks: a digit leads to the outputs at these positions.
//! A key has four outputs to a number where the transducer has fewer than 255 lines, else one.
#![tactic(auto)]

/// Numbers of outputs and of letters of keys.
mod output_numbers;

/// The maps of blocks of letters.
mod block_maps;

/// Ends of blocks in a list, and their numbers in it.
mod listed_ends;

/// Outputs as they are in keys.
mod packed_outputs;

/// What depends on the length of a block alone.
mod block_lengths;

/// The maps of blocks of letters, as a graph of keys.
mod block_graph;

/// The step `transduce`.
pub mod transduction;

/// Laws of the definitions.
pub mod laws;

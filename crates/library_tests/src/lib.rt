//! Tests of the libraries over their public calls: rows worked by hand or by a program from outside as tables, each limit at
//! its number and one more, and each call once with ample memory.
//!
//! Each call that is tried has a function of its own that says nothing of what it gives: it makes the arguments from lines
//! of text, calls, and hands on a text. So a row costs no proof. A call that is to succeed is taken by `given`, which fails the test
//! where it is refused: so there is one way through each function, and a value is let go once.
#![tactic(auto)]

// what calls give, without their refusals
#[cfg(test)]
mod given;

// automata as lines of text
#[cfg(test)]
mod table_texts;

// tables as texts
#[cfg(test)]
mod text_rows;

// what calls give, as texts
#[cfg(test)]
mod outcomes;

// calls under a limit of states
#[cfg(test)]
mod calls;

// names, sets, systems and headers
#[cfg(test)]
mod headers;

// alphabets, letters and steps
#[cfg(test)]
mod alphabets;

// tables of states
#[cfg(test)]
mod tables;

// dense tables, and what tables accept
#[cfg(test)]
mod dense_tables;

// transitions and cells of automata
#[cfg(test)]
mod transition_counts;

// the subset construction, the reversal and the minimal automaton
#[cfg(test)]
mod minimal;

// the canonical automaton with a count of looks
#[cfg(test)]
mod counted_looks;

// texts of expressions, with their trees and faults
#[cfg(test)]
mod expressions;

// tables and automata of expressions
#[cfg(test)]
mod matches;

// products, complements and valid parts
#[cfg(test)]
mod products;

// closures under padding
#[cfg(test)]
mod paddings;

// projections, and the states that zeros lead to
#[cfg(test)]
mod projections;

// automata under other names, and with two tracks as one
#[cfg(test)]
mod renamings;

// operations on languages
#[cfg(test)]
mod languages;

// orders and equalities of numbers
#[cfg(test)]
mod orders;

// base k
#[cfg(test)]
mod bases;

// sealed systems, and the steps of their successor
#[cfg(test)]
mod sealed_systems;

// single numbers
#[cfg(test)]
mod single_numbers;

// relations on numbers
#[cfg(test)]
mod relations;

// single steps with their lines
#[cfg(test)]
mod single_steps;

// texts of automata
#[cfg(test)]
mod automaton_texts;

// automaton files that are read, and files that break at a line
#[cfg(test)]
mod hostile_files;

// files of users' systems
#[cfg(test)]
mod system_files;

// files of automatic words
#[cfg(test)]
mod word_files;

// walks through listed words
#[cfg(test)]
mod walks;

// the branching automata of files, and the steps of their relations
#[cfg(test)]
mod reading_steps;

// fixed points of morphisms
#[cfg(test)]
mod promotions;

// words of several relations
#[cfg(test)]
mod combined_words;

// scripts and their items
#[cfg(test)]
mod scripts;

// heads of commands
#[cfg(test)]
mod heads;

// the heads of commands that make languages of others, and their faults
#[cfg(test)]
mod language_heads;

// the heads of commands that make words, and their faults
#[cfg(test)]
mod word_heads;

// the heads of commands that load a file or end a run
#[cfg(test)]
mod run_heads;

// sources, sinks and stores in memory
#[cfg(test)]
mod in_memory;

// the adapters over the system
#[cfg(test)]
mod adapters;

// the words of the command line
#[cfg(test)]
mod command_lines;

// generated scripts
#[cfg(test)]
mod made_scripts;

// what steps on words give, as texts
#[cfg(test)]
mod letter_functions;

// texts that are written part by part
#[cfg(test)]
mod written;

// what texts of formulas, rules and calls give, and rows of what they are to give
#[cfg(test)]
mod answers;

// the headers of the names in rows of formulas
#[cfg(test)]
mod known_headers;

// texts of formulas with the trees that they must have
#[cfg(test)]
mod trees_written_out;

// texts of formulas with the first faults that they must have
#[cfg(test)]
mod faults;

// formulas of 65,536 bytes
#[cfg(test)]
mod long_texts;

// formulas with the numbers for which they are true
#[cfg(test)]
mod truth;

// formulas with their free variables or their faults
#[cfg(test)]
mod resolution;

// formulas with their steps
#[cfg(test)]
mod plans;

// rules of morphisms, as they are printed and with their first faults
#[cfg(test)]
mod rules;

// texts with calls of macros
#[cfg(test)]
mod macros;

// files of transducers that are read, and files that break at a line
#[cfg(test)]
mod transducer_files;

// transducers in stores
#[cfg(test)]
mod stored_transducers;

// words that transducers make
#[cfg(test)]
mod transductions;

// fixed points that are changed
#[cfg(test)]
mod fixed_words;

// words read from their other end
#[cfg(test)]
mod reversals;

// roots of bases, and letters of words over powers of them
#[cfg(test)]
mod related_bases;

// words over other bases
#[cfg(test)]
mod conversions;

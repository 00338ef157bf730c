//! Tests of whole runs over the objects in memory: the rows of each step as tables, and scripts over sources, sinks and
//! stores that fail.
#![tactic(auto)]

// what calls give, without their refusals
#[cfg(test)]
mod answers;

// tables as texts
#[cfg(test)]
mod tables;

// one run, and what it leaves
#[cfg(test)]
mod whole;

// one command, without a script around it
#[cfg(test)]
mod one_command;

// scripts with what they print, their status and what they store
#[cfg(test)]
mod rows;

// the rows of commands: how scripts are cut, and heads
#[cfg(test)]
mod command_rows;

// the rows of expressions over sets
#[cfg(test)]
mod set_rows;

// expressions with large automata
#[cfg(test)]
mod large_expressions;

// the rows of expressions over base systems, and their limits
#[cfg(test)]
mod system_rows;

// the rows of expressions over the Fibonacci system
#[cfg(test)]
mod fibonacci_rows;

// what is printed of formulas
#[cfg(test)]
mod formula_rows;

// what formulas store, and theorems
#[cfg(test)]
mod formula_texts;

// faults at each place of a formula
#[cfg(test)]
mod formula_places;

// formulas at their limits
#[cfg(test)]
mod formula_limits;

// formulas over the Fibonacci system, and theorems on its word
#[cfg(test)]
mod fibonacci_formulas;

// calls of automata, and the files that they read
#[cfg(test)]
mod call_rows;

// formulas with automatic words, and theorems on them
#[cfg(test)]
mod word_rows;
#[cfg(test)]
mod word_theorems;

// stores that hold given files, and tables of runs over them
#[cfg(test)]
mod given;

// macros in formulas, their faults, and their limits
#[cfg(test)]
mod macro_faults;
#[cfg(test)]
mod macro_limits;
#[cfg(test)]
mod macro_order;
#[cfg(test)]
mod macro_rows;

// rules of morphisms, and their fixed points
#[cfg(test)]
mod morphism_files;
#[cfg(test)]
mod morphism_rows;
#[cfg(test)]
mod promotion_rows;
#[cfg(test)]
mod promotion_texts;

// images of words
#[cfg(test)]
mod image_files;
#[cfg(test)]
mod image_rows;
#[cfg(test)]
mod image_steps;
#[cfg(test)]
mod image_texts;

// words that lack letters
#[cfg(test)]
mod partial_words;

// automata combined to words
#[cfg(test)]
mod combine_faults;
#[cfg(test)]
mod combine_files;
#[cfg(test)]
mod combine_rows;
#[cfg(test)]
mod combine_steps;
#[cfg(test)]
mod combine_texts;

// automata that language commands read
#[cfg(test)]
mod language_files;

// the lines of their steps
#[cfg(test)]
mod language_lines;

// the texts that they store
#[cfg(test)]
mod language_texts;

// their first faults
#[cfg(test)]
mod language_refusals;

// languages by commands and by expressions
#[cfg(test)]
mod language_twins;

// language commands at their limits, and over stores that fail
#[cfg(test)]
mod language_limits;

// words that are listed
#[cfg(test)]
mod listing_files;

// which words, and whether they have an end
#[cfg(test)]
mod test_rows;

// the lines of the steps before them
#[cfg(test)]
mod listing_lines;

// the first faults of listings
#[cfg(test)]
mod listing_refusals;

// tuples of relations, limits, and stores that fail
#[cfg(test)]
mod listing_rows;

// words and transducers
#[cfg(test)]
mod transduce_files;

// the words that transducers make
#[cfg(test)]
mod transduce_rows;

// the lines of their steps, and their limits
#[cfg(test)]
mod transduce_lines;

// their first faults
#[cfg(test)]
mod transduce_faults;

// words over bases
#[cfg(test)]
mod convert_files;

// words over other bases
#[cfg(test)]
mod convert_rows;

// one word over all powers of a base
#[cfg(test)]
mod convert_forms;

// the lines of the steps of changes of base, and their limits
#[cfg(test)]
mod convert_lines;

// their first faults
#[cfg(test)]
mod convert_faults;

// words that are wide to read
#[cfg(test)]
mod wide_files;

// theorems on words that commands make
#[cfg(test)]
mod word_command_theorems;

// systems of users in commands, and the files that define them
#[cfg(test)]
mod tribonacci_adder;
#[cfg(test)]
mod user_system_faults;
#[cfg(test)]
mod user_system_files;
#[cfg(test)]
mod user_system_rows;
#[cfg(test)]
mod user_system_steps;

// systems and definitions that a session keeps
#[cfg(test)]
mod kept_rows;

// files of commands, and ends of runs
#[cfg(test)]
mod load_rows;

// generated scripts
#[cfg(test)]
mod make_rows;

// words of the command line
#[cfg(test)]
mod words;

// scripts in pieces, and calls of the outside that fail
#[cfg(test)]
mod every_command;
#[cfg(test)]
mod failures;

// hostile files, formulas and numbers of tracks, damaged files, and random scripts
#[cfg(test)]
mod damaged_files;
#[cfg(test)]
mod hostile_rows;

// the limits, at their number and one more
#[cfg(test)]
mod limits;

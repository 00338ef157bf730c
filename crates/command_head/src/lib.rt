//! The heads of commands: the first word, and the parts of what follows by a grammar for each form of command: `reg`
//! over sets, `reg NAME {a,b,..} .. "R"`, or over systems, `reg NAME SYSTEM .. "R"`; a word, a name and a text,
//! `WORD NAME "TEXT"`; `promote WORD NAME`; a word and what it maps a word by, `WORD WORD NAME WORD`;
//! `convert WORD SYSTEM WORD`; `combine WORD NAME[=V] ..`; a word and names, `WORD NAME NAME ..`, `WORD NAME NAME` or
//! `WORD NAME`; `test NAME NUM ["PLACE"]`; `load NAME[.txt]`; and a word alone.
//!
//! A head is read part by part. Each function gives the parts if and only if its grammar relates them to the text
//! (`specs/Grammar.antt`), else the first fault and its byte (`HasHead` in `specs/Breaks.antt`, and for `test`
//! `HasTest` in `specs/TestBreaks.antt`, where the byte may be inside PLACE). By each grammar a text has one head or
//! one fault, apart from out of memory (`one_head`).
//!
//! The parts of a text are the same for all grammars (`parts_of` in `specs/Parts.antt`), each the longest possible: a
//! name with `=V` or `.txt` after it is one part, and so is a text in quotes. After the first word, a part that begins
//! with a letter has a blank before it. Where that is missing the part is empty, and no grammar accepts it. Only a
//! `reg`, a `combine` and a `test` have the fault `Number`, since other heads have no numbers. What is in quotes is not
//! read here, but for a PLACE (`place_text`), and whether a name or a system exists is not asked.
//!
//! `reg_parts` and `combine_parts` take texts shorter than 2^32 bytes. Not proved: time and memory.
#![tactic(auto)]

// the faults of a head
mod fault;
// what every reader needs: blanks, single bytes, and the place of a fault
mod bytes;
// how long the parts of a text are, and of which kind they are
mod parts;
// the parts of a text, one after another
mod rest;
// what a head has
mod head;
// reading a `reg` part by part
mod stage;
// the heads of `reg` commands
mod heading;
// parts that have to be of one kind
mod kinds;
// the heads of a word, a name and a text
mod named;
// the heads of commands that make a word of a morphism or of another word
mod word_heads;
// the heads of commands that combine automata
mod combining;
// the heads of commands that make a language of others
mod language_heads;
// the heads of commands about the words of an automaton
mod listing_heads;
// the heads of commands that load a file or end a run
mod run_heads;
// laws of the grammar
pub mod laws;

pub use combining::combine_parts;
pub use fault::HeadFault;
pub use head::{
    Alphabets, CombineParts, ConvertParts, ImageParts, LanguagesParts, NamedParts, PromoteParts,
    RegParts, TestParts, ValuedName,
};
pub use heading::{first_word, reg_parts};
pub use language_heads::{language_parts, languages_parts};
pub use listing_heads::{name_after, test_parts};
pub use named::named_parts;
pub use run_heads::{load_name, word_alone};
pub use word_heads::{convert_parts, image_parts, promote_parts};

//! Macros: the expansion of a text in which they are called.
//!
//! `#NAME(a,b)` is replaced by the macro's text with the arguments in its places `%0`, `%1` and so on. The arguments
//! are expanded first, then the text that they fill in. The expansion is one function on texts (`specs/Expansion.antt`);
//! `expand` gives its value, the first fault with what it keeps included.
//!
//! Calls are on 16 levels at most, so `expand` calls itself no deeper. Each level reads each byte of a call a fixed
//! number of times, and writes each byte of an expansion once.
#![tactic(auto)]

// faults of expansions
mod fault;
// the texts of macros, by their names
mod macros;
// where texts come from
mod texts;
// macros that were added, as a source of texts
mod added;
// prefixes of texts, and what follows them
mod bytes;
// calls, and the ends of their parentheses
mod call;
// the arguments between a call's parentheses
mod arguments;
// the calls of a text, and what is outside of them
mod piece;
// the places of a macro's text, and what is outside of them
mod segment;
// texts that grow up to a limit
mod limited;
// a macro's text with arguments in its places
mod filling;
// the expansion
mod expanding;
// what holds of all expansions
mod laws;

pub use expanding::{expand, expand_from};
pub use fault::MacroFault;
pub use laws::{gives_plain_texts, keeps_plain_texts, one_answer};
pub use macros::Macros;
pub use texts::MacroTexts;

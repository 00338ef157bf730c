//! The cuts of a script: which commands it has, on which lines they begin, and how its last text ends.
//!
//! A `Cutter` reads a script from a source in pieces, and `Cutter::cut` gives one command at a time as soon as its
//! terminator was read. How the bytes come in pieces changes nothing. `Next` in `specs/Cuts.antt` says what comes next
//! at a place of a script. Each place has one next item or is at the end (`one_cut`, `next_or_end`), and the items of a
//! text that ends after a terminator are the first ones of each longer text (`longer_cut`).
//!
//! A command ends at its first `;` or `:` outside quotes. A `#` begins a comment only between commands; inside a
//! command it is one of its bytes. `::` is a `:`, and then a terminator without a command, which is skipped. A command
//! of more than 65,536 bytes is dropped: `Long` reports it, and the next call goes on after it. All bytes that are
//! passed count towards the limit of 16,777,216, also blanks and comments. `Cutter::spend` counts bytes that are read
//! elsewhere.
//!
//! It reads only where what it holds has no whole command, at most 8,192 bytes at once, no more than one byte past the
//! limit, and not again after the script's end. It holds at most 65,537 bytes (`bound`). Not proved: time, and memory
//! apart from these bytes.
#![tactic(auto)]

// what a call of a cutter gives
mod cut;
// the gaps and the texts that bytes begin with
mod scanning;
// bytes that were read and not yet passed
mod window;
// a script, one item after another
mod cutter;
// a script is cut in one way only
mod laws;

pub use cut::{Cut, CutFault};
pub use cutter::{Cutter, SCRIPT_LIMIT, TEXT_LIMIT};

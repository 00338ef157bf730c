//! Lines of steps, taken out and added again, after any lines.
//!
//! What steps made once may be kept with their lines: under the same limit the same steps after other lines make the same, with the
//! same lines (`proofs/ShiftedSteps.antt`).
#![tactic(auto)]

// lines of steps
mod lines;

pub use lines::{add_lines, lines_after};

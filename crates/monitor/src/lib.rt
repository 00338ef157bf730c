//! The step that is being made, shown on a terminal.
//!
//! A `Monitor` keeps one line on standard error up to date while a command works: `step 7, product, part 3 of 5: 120448
//! states`. What is counted is a call of `states` for each state. The line comes once a command has worked for a tenth of
//! a second, changes at most ten times a second, and is cleared by `clear`. No clause says anything of it, and nothing that
//! it does reaches standard output or a file: whoever makes states gets a `&Monitor`, or none.
#![tactic(auto)]

mod line;

/// Monitors.
mod monitor;

pub use monitor::Monitor;

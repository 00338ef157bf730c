//! The line that says what is being made.

use std::alloc::{AllocError, Global};

/// What is being made.
#[derive(Clone, Copy)]
pub(crate) struct Work {
    /// The number of the step, or 0 if there is none yet.
    pub(crate) step: u64,
    /// The kind of the step.
    pub(crate) kind: &'static str,
    /// Which part of the formula is being made, counted from 1, or 0 if none is.
    pub(crate) part: u64,
    /// How many parts the formula has.
    pub(crate) parts: u64,
}

impl Work {
    /// Nothing yet.
    pub(crate) fn none() -> Work {
        Work {
            step: 0,
            kind: "",
            part: 0,
            parts: 0,
        }
    }
}

/// The start of a line whose text is not there yet.
pub(crate) const CLEARED: &str = "\r\x1b[K";

/// The line on this work, which has made so many states so far. It takes the place of the line before.
pub(crate) fn line(alloc: Global, work: Work, states: usize) -> Result<String, AllocError> {
    let Work {
        step,
        kind,
        part,
        parts,
    } = work;
    if part == 0 {
        format!(in alloc; "{CLEARED}step {step}, {kind}: {states} states")
    } else {
        format!(in alloc; "{CLEARED}step {step}, {kind}, part {part} of {parts}: {states} states")
    }
}

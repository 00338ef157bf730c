//! How the steps of a command are made and shown.

/// How the steps of a command are made and shown.
#[derive(Clone, Copy)]
pub struct StepOptions {
    /// The most values that a step may have.
    pub limit: u32,
    /// Whether a line is printed for each step.
    pub shown: bool,
}

//! What a step of a command is refused for.

/// Which limit a step of a command passes.
#[derive(Drop)]
pub enum StepRefusal {
    /// F18: this step, counted from 1, would be over more than 16 tracks or 65,536 letters.
    Letters(u64),
    /// F19: this step, counted from 1, would have more values than a step may have.
    States(u64),
}

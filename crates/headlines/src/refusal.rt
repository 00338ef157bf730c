//! What holds of a refused command.

ghost use Rattle.headlines.specs.Refusals.{Refusals};

/// A command that is refused changes no file. Its fault is that of the first check that does not pass, or the store's, whose count of
/// faults rose, or out of memory.
pub fn refusals()
    ensures { Refusals }
{}

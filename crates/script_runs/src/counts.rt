//! How many commands were answered, and how.

ghost use Rattle.std.specs.Prelude.{◌≡◌};
ghost use Rattle.script_runs.specs.Counted.{no_counts};
ghost use Rattle.script_runs.specs.Tallies.{AddsCount, hands_only, one_more_if};

use crate::deed::Deed;

/// The line of a statement that is true.
const TRUE_LINE: &[u8] = b"TRUE\n";

/// The line of a statement that is false.
const FALSE_LINE: &[u8] = b"FALSE\n";

/// How many commands were answered, and how.
#[derive(Clone, Copy, PartialEq, Eq)]
pub struct Counts {
    /// How many were answered: the four others together.
    pub commands: u64,
    /// Accepted ones that print the line `TRUE` and nothing else.
    pub yes: u64,
    /// Accepted ones that print the line `FALSE` and nothing else.
    pub no: u64,
    /// Accepted ones that print something else, or nothing.
    pub other: u64,
    /// Refused ones.
    pub refused: u64,
}

impl Counts {
    /// None so far.
    pub(crate) fn none() -> Self
        ensures { result ≡ no_counts }
    {
        Counts {
            commands: 0,
            yes: 0,
            no: 0,
            other: 0,
            refused: 0,
        }
    }

    /// With one reply more.
    pub(crate) fn with<R>(self, reply: &Result<Deed, R>) -> Self
        ensures { AddsCount self reply.now result }
    {
        let yes = hands_only(reply, TRUE_LINE);
        let no = hands_only(reply, FALSE_LINE);
        let refused = reply.is_err();
        Counts {
            commands: one_more_if(true, self.commands),
            yes: one_more_if(yes, self.yes),
            no: one_more_if(no, self.no),
            other: one_more_if(!(refused || (yes || no)), self.other),
            refused: one_more_if(refused, self.refused),
        }
    }
}

/// Whether a command is accepted, and this is all that it prints.
fn hands_only<R>(reply: &Result<Deed, R>, line: &[u8]) -> bool
    ensures { result ≡ hands_only line.now reply.now }
{
    match reply {
        Ok(Deed::Enters(printed)) => printed.as_slice() == line,
        Ok(Deed::Loads(_)) => line.is_empty(),
        Ok(Deed::Ends) => line.is_empty(),
        Err(_) => false,
    }
}

/// One more where something holds. A count that is at its last value stays there.
fn one_more_if(holds: bool, count: u64) -> u64
    ensures { result ≡ one_more_if holds count }
{
    if holds {
        count.saturating_add(1)
    } else {
        count
    }
}

ghost use Rattle.std.specs.Prelude.{◌≡◌};
ghost use Rattle.wal_outside.specs.Sending.{Sends};
ghost use Rattle.script_runs.specs.Handing.{reply_text};
ghost use Rattle.script_runs.specs.Ends.{stop_status as status_of_stop};

use crate::answering::Answering;
use crate::deed::Deed;
use crate::status::Status;
use wal_outside::{Sink, WriteFault, send};

/// Hands over what a command on `line` prints, or the line of its refusal. A load and an end print nothing.
///
/// # Errors
/// As `send`: what was appended is a prefix of that.
pub(crate) fn hand_over<A: Answering, K: Sink>(
    out: &mut K,
    line: u64,
    answering: &A,
    reply: &Result<Deed, A::Refusal>,
) -> Result<(), WriteFault>
    ensures { Sends (K.view out.old) (reply_text (A.language answering.now) line reply.now) result (K.view out.new) }
{
    match reply {
        Ok(Deed::Enters(printed)) => send(out, printed),
        Ok(Deed::Loads(_)) => Ok(()),
        Ok(Deed::Ends) => Ok(()),
        Err(refusal) => answering.send_line(out, line, refusal),
    }
}

/// How a run ends that the sink stopped.
pub(crate) fn stop_status(fault: WriteFault) -> Status
    ensures { result ≡ status_of_stop fault }
{
    match fault {
        WriteFault::Failed => Status::Outside,
        WriteFault::Memory => Status::Memory,
    }
}

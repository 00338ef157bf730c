//! Runs of the generated script of a seed.

ghost use Rattle.std.specs.Prelude.{◌++◌, decimal};
ghost use Rattle.wal_outside.specs.Sending.{Sends};
ghost use Rattle.session_cli.specs.Made.{HasMade, PrintsRun, made_line};
ghost use Rattle.session_cli.specs.SessionLanguage.{session_language};

use crate::answering::Answerer;
use itoa::Buffer;
use made_script::generated_script;
use script_runs::{Counts, Status, TextRun, run_text};
use std::alloc::Global;
use wal_outside::{Sink, Store, WriteFault, send, send_four};

/// Runs the generated script of a seed, and prints one line in place of the answers: how many commands were answered, and how. It goes on
/// to the script's end, or to the command that ends the run.
///
/// The status is that of the run; `Outside` where the sink failed, and `Memory` where it had none, or where memory ran out outside
/// a command, and then nothing is printed.
pub(crate) fn run_generated<K: Sink, T: Store>(
    alloc: Global,
    answerer: Answerer,
    seed: u64,
    out: &mut K,
    store: &mut T,
) -> Status
    ensures { HasMade (session_language answerer.session.limit answerer.stop) seed (T.view store.old) (T.view store.new) (K.view out.old) (K.view out.new) result }
{
    let Ok(text) = generated_script(alloc, seed) else {
        return Status::Memory;
    };
    match run_text(alloc, answerer, text, store) {
        Ok(run) => print_run(out, seed, &run),
        Err(_) => Status::Memory,
    }
}

/// Prints the line of a run, or what the sink takes of it, and gives the status.
fn print_run<K: Sink>(out: &mut K, seed: u64, run: &TextRun) -> Status
    ensures { PrintsRun seed run.now (K.view out.old) (K.view out.new) result }
{
    match send_made(out, seed, &run.counts) {
        Ok(()) => run.status,
        Err(WriteFault::Failed) => Status::Outside,
        Err(WriteFault::Memory) => Status::Memory,
    }
}

/// Hands over the line of a run.
fn send_made<K: Sink>(out: &mut K, seed: u64, counts: &Counts) -> Result<(), WriteFault>
    ensures { Sends (K.view out.old) (made_line seed counts.now) result (K.view out.new) }
{
    send_numbers(out, b"made ", seed, b" commands ", counts.commands)?;
    send_numbers(out, b" true ", counts.yes, b" false ", counts.no)?;
    send_numbers(out, b" other ", counts.other, b" refused ", counts.refused)?;
    send(out, b"\n")
}

/// Hands over two numbers, each after its name.
fn send_numbers<K: Sink>(
    out: &mut K,
    name: &[u8],
    number: u64,
    other_name: &[u8],
    other: u64,
) -> Result<(), WriteFault>
    ensures { Sends (K.view out.old) ((name.now ++ decimal number) ++ (other_name.now ++ decimal other)) result (K.view out.new) }
{
    let mut first = Buffer::new();
    let mut second = Buffer::new();
    send_four(
        out,
        name,
        first.format(number).as_bytes(),
        other_name,
        second.format(other).as_bytes(),
    )
}

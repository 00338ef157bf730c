ghost use Rattle.std.specs.Prelude.{◌≡◌, ◌⊎◌, map, string_bytes};
ghost use Rattle.wal_outside.specs.Causes.{Rose};
ghost use Rattle.command_line.specs.Words.{GivesNone};
ghost use Rattle.session_cli.specs.Whole.{HasCalled, PrintsUsage};

use crate::answering::Answerer;
use crate::making::run_generated;
use crate::session::Session;
use command_line::{WordsFault, options_of};
use monitor::Monitor;
use script_runs::{Status, run_script};
use std::alloc::Global;
use std::rc::Rc;
use wal_outside::{Sink, Source, Store, WriteFault, send};

/// Runs a script: answers its commands in order, each as soon as its terminator was read, and prints what they print: the lines of
/// steps that are shown, and the lines of the refused ones. At most 65,537 bytes of the script are held at once. `words` are those
/// of the command line, the program's name first. They may have the option `--states N`, in two words or as `--states=N`: a step
/// may have N values, from 16 to 1,000,000, and 100,000 without the option. With the option `--stop` the run ends with the first
/// command that is refused, also within a file that was loaded. With the option `--make SEED` the script is not read: the generated script
/// of the seed runs, and one line is printed in place of the answers, which says how many there are of each kind.
///
/// The status is the first of these that applies: `Usage` where the words are refused, and then the usage line is printed, or what the
/// sink takes of it; `Outside` where source or sink failed; `Memory`; `Outside` where the store failed; `Refused`; `Done`. Out of
/// memory to read the words, or to print the usage line, comes before all of them. A source or sink that fails, and out of memory
/// outside a command, end the run: what was answered until then is. Where the source failed, that is each command whose terminator it
/// gave. A call that failed is not made again. At most one byte past the first 16,777,216 is read.
pub fn run<S: Source, K: Sink, T: Store>(
    alloc: Global,
    words: &[String],
    script: &mut S,
    out: &mut K,
    store: &mut T,
) -> Status
    ensures run { HasCalled (map string_bytes words.now) (S.view script.old) (S.view script.new) (T.view store.old) (T.view store.new) (K.view out.old) (K.view out.new) result }
    ensures usage { result ≡ Status.Usage → GivesNone (map string_bytes words.now) }
    ensures refused { GivesNone (map string_bytes words.now) → (result ≡ Status.Usage) ⊎ (result ≡ Status.Memory) }
    ensures outside { result ≡ Status.Outside → Rose (S.view script.old).faults (S.view script.new).faults
        ⊎ (Rose (K.view out.old).faults (K.view out.new).faults ⊎ Rose (T.view store.old).faults (T.view store.new).faults) }
    ensures memory { result ≡ Status.Memory → ((S.view script.new).faults ≡ (S.view script.old).faults) × ((K.view out.new).faults ≡ (K.view out.old).faults) }
{
    Program::new(alloc).run(words, script, out, store)
}

/// The program. It may show on a monitor which step is being made, while a command works.
#[derive(Drop)]
pub struct Program {
    alloc: Global,
    monitor: Option<Rc<Monitor>>,
}

impl Program {
    /// The program that shows nothing.
    pub fn new(alloc: Global) -> Program {
        Program {
            alloc,
            monitor: None,
        }
    }

    /// The program that shows its steps on this monitor, if there is one.
    pub fn shown_on(alloc: Global, monitor: Option<Rc<Monitor>>) -> Program {
        Program { alloc, monitor }
    }

    /// Runs a script, as `run` does, whether there is a monitor or not.
    pub fn run<S: Source, K: Sink, T: Store>(
        self,
        words: &[String],
        script: &mut S,
        out: &mut K,
        store: &mut T,
    ) -> Status
        ensures run { HasCalled (map string_bytes words.now) (S.view script.old) (S.view script.new) (T.view store.old) (T.view store.new) (K.view out.old) (K.view out.new) result }
        ensures usage { result ≡ Status.Usage → GivesNone (map string_bytes words.now) }
        ensures refused { GivesNone (map string_bytes words.now) → (result ≡ Status.Usage) ⊎ (result ≡ Status.Memory) }
        ensures outside { result ≡ Status.Outside → Rose (S.view script.old).faults (S.view script.new).faults
            ⊎ (Rose (K.view out.old).faults (K.view out.new).faults ⊎ Rose (T.view store.old).faults (T.view store.new).faults) }
        ensures memory { result ≡ Status.Memory → ((S.view script.new).faults ≡ (S.view script.old).faults) × ((K.view out.new).faults ≡ (K.view out.old).faults) }
    {
        let alloc = self.alloc;
        match options_of(alloc, words) {
            Ok(options) => {
                let answerer = Answerer {
                    session: self.session(options.limit),
                    stop: options.stop,
                };
                match options.seed {
                    None => run_script(alloc, answerer, script, out, store),
                    Some(seed) => run_generated(alloc, answerer, seed, out, store),
                }
            }
            Err(WordsFault::Refused) => print_usage(out),
            Err(WordsFault::Memory) => Status::Memory,
        }
    }

    /// A session with this limit, which shows its steps on the monitor.
    fn session(self, limit: u32) -> Session
        ensures { result ≡ record { limit = limit } }
    {
        let mut session = Session::new(self.alloc, limit);
        if let Some(monitor) = self.monitor {
            session.show_on(monitor);
        }
        session
    }
}

/// What the program takes on its command line.
const USAGE: &[u8] = b"usage: walnut [--states N] [--stop] [--make SEED]\n";

/// Prints the usage line, or what the sink takes of it, and gives the status.
fn print_usage<K: Sink>(out: &mut K) -> Status
    ensures { PrintsUsage (K.view out.old) (K.view out.new) result }
{
    match send(out, USAGE) {
        Ok(()) | Err(WriteFault::Failed) => Status::Usage,
        Err(WriteFault::Memory) => Status::Memory,
    }
}

//! The commands of a script, answered by a session.

ghost use Rattle.std.specs.Prelude.{◌≡◌, ◌≢◌, ◌≤◌, length, true, IfSome, Ok, MatchResult};
ghost use Rattle.command_head.specs.Parts.{first_word_of, is_name};
ghost use Rattle.command_head.specs.Grammar.{DerivesAlone};
ghost use Rattle.definitions.specs.Texts.{Stores};
ghost use Rattle.definitions.specs.Trees.{Ledger};
ghost use Rattle.script_runs.specs.Handing.{MayLoad};
ghost use Rattle.script_runs.specs.Replies.{AnswersCommand};
ghost use Rattle.command_parts.specs.Checks.{Pure, Fails};
ghost use Rattle.command_parts.specs.HeadAnswers.{HeadAnswers};
ghost use Rattle.session_cli.specs.RunOutcomes.{run_word_text};
ghost use Rattle.session_cli.specs.SessionLanguage.{session_language};
ghost use Rattle.session_cli.specs.SoundLanguage.{session_is_sound};

use crate::actions::COMMAND_LIMIT;
use crate::loading::loaded_text;
use crate::run_word::{RunWord, run_word};
use crate::session::Session;
use command_head::word_alone;
use command_parts::fault::Fault;
use command_parts::file_refusal::FileRefusal;
use command_parts::lines::send_fault;
use command_parts::refusal::Refusal;
use command_parts::text_refusal::{Grammar, TextRefusal};
use script_runs::{Answering, Command, Deed, ScriptFault};
use std::alloc::Global;
use wal_outside::{Sink, Store, WriteFault};

/// A session that answers the commands of a script.
#[derive(Drop)]
pub(crate) struct Answerer {
    pub(crate) session: Session,
    /// Whether the run ends with the first command that is refused.
    pub(crate) stop: bool,
}

impl Answerer {
    /// Answers a command that a session answers: one that is not too long and begins with none of a run's own words.
    ///
    /// # Errors
    /// Why it is refused.
    fn command<T: Store>(
        &mut self,
        alloc: Global,
        command: &Command<'_>,
        store: &mut T,
    ) -> Result<Deed, Fault>
        requires short { length command.now.text.now ≤ 65536 }
        requires other { (word : RunWord) → first_word_of command.now.text.now ≢ run_word_text word }
        ensures kept { self.new ≡ self.old }
        ensures loads { MayLoad command.now.depth result }
        ensures command { (ledger : Ledger) → IfSome (T.view store.old).files (Stores ledger) → AnswersCommand (session_language self.old.session.limit self.old.stop) command.now.depth ledger (T.view store.old) command.now.text.now command.now.shown result (T.view store.new) }
    {
        let printed = self
            .session
            .command(alloc, command.text, command.shown, store)?;
        Ok(Deed::Enters(printed.into_bytes()))
    }
}

/// Whether a text is this word alone.
fn alone(word: &[u8], text: &[u8]) -> Result<(), Fault>
    requires { is_name word.now ≡ true }
    ensures { MatchResult result (λ done. HeadAnswers (DerivesAlone word.now) text.now (Ok done)) (Fails (Pure (HeadAnswers (DerivesAlone word.now) text.now))) }
{
    match word_alone(word, text) {
        Ok(()) => Ok(()),
        Err(fault) => Err(Fault::from(fault)),
    }
}

impl Answering for Answerer {
    type Refusal = Fault;

    ghost language = { λ answerer. session_language answerer.session.limit answerer.stop };

    fn answer<T: Store>(
        &mut self,
        alloc: Global,
        command: &Command<'_>,
        store: &mut T,
    ) -> Result<Deed, Fault> {
        if command.text.len() > COMMAND_LIMIT {
            return Err(Fault::from(TextRefusal::Long(COMMAND_LIMIT)));
        }
        match run_word(command.text) {
            None => self.command(alloc, command, store),
            Some(RunWord::Load) => {
                let text = loaded_text(alloc, command.text, command.depth, store)?;
                Ok(Deed::Loads(text))
            }
            Some(RunWord::Exit) => {
                alone(b"exit", command.text)?;
                Ok(Deed::Ends)
            }
            Some(RunWord::Quit) => {
                alone(b"quit", command.text)?;
                Ok(Deed::Ends)
            }
        }
    }

    fn refuse(&self, fault: ScriptFault) -> Fault {
        match fault {
            ScriptFault::Long => Fault::from(TextRefusal::Long(COMMAND_LIMIT)),
            ScriptFault::Unterminated(len) => Fault::from(TextRefusal::Syntax(
                Grammar::Command,
                len,
            )),
            ScriptFault::PastLimit => Fault::from(FileRefusal::ScriptLimit),
        }
    }

    fn is_by_store(&self, refusal: &Fault) -> bool {
        matches!(refusal, Fault::Store(_, _))
    }

    fn is_by_memory(&self, refusal: &Fault) -> bool {
        matches!(refusal, Fault::Memory)
    }

    fn ends_run(&self, refusal: &Fault) -> bool {
        match refusal {
            Fault::Refused(Refusal::File(FileRefusal::ScriptLimit)) => true,
            _ => self.stop,
        }
    }

    fn send_line<K: Sink>(
        &self,
        out: &mut K,
        line: u64,
        refusal: &Fault,
    ) -> Result<(), WriteFault> {
        send_fault(out, line, refusal)
    }

    ghost sound = { λ answerer. session_is_sound answerer.session.limit answerer.stop };
}

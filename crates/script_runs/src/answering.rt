//! What answers the commands of a script.

ghost use Rattle.std.specs.Prelude.{◌≡◌, IfSome};
ghost use Rattle.wal_outside.specs.Sending.{Sends};
ghost use Rattle.script_runs.specs.Languages.{CommandLanguage, is_store_fault, IsSound};
ghost use Rattle.script_runs.specs.Handing.{MayLoad};
ghost use Rattle.script_runs.specs.Replies.{AnswersCommand};

use crate::deed::Deed;
use crate::script_fault::ScriptFault;
use std::alloc::Global;
use wal_outside::{Sink, Store, WriteFault};

/// A command of a script.
#[derive(Clone, Copy)]
pub struct Command<'a> {
    /// Its text.
    pub text: &'a [u8],
    /// Whether the lines of its steps are shown.
    pub shown: bool,
    /// In how many loads it is nested.
    pub depth: usize,
}

/// What answers the commands of a script, one after another.
pub trait Answering: Drop {
    /// Why a command is refused.
    type Refusal: Drop;

    /// The language of the commands.
    ghost language: { Self → CommandLanguage Self.Refusal };

    /// Answers one command, and says what it does. A command that is nested in eight loads loads nothing.
    ///
    /// # Errors
    /// Why it is refused; the store's texts are as before.
    fn answer<T: Store>(
        &mut self,
        alloc: Global,
        command: &Command<'_>,
        store: &mut T,
    ) -> Result<Deed, Self::Refusal>
        ensures kept { self.new ≡ self.old }
        ensures loads { MayLoad command.now.depth result }
        ensures command { (ledger : (language self.old).Ledger) → IfSome (T.view store.old).files ((language self.old).stores ledger) → AnswersCommand (language self.old) command.now.depth ledger (T.view store.old) command.now.text.now command.now.shown result (T.view store.new) };

    /// Why a text is refused that is no command.
    fn refuse(&self, fault: ScriptFault) -> Self::Refusal
        ensures { result ≡ (language self.now).of_script fault };

    /// Whether a command is refused by the store.
    fn is_by_store(&self, refusal: &Self::Refusal) -> bool
        ensures { result ≡ is_store_fault (language self.now) refusal.now };

    /// Whether a command is refused because memory ran out.
    fn is_by_memory(&self, refusal: &Self::Refusal) -> bool
        ensures { result ≡ (language self.now).is_memory refusal.now };

    /// Whether a run ends with a command that is refused so.
    fn ends_run(&self, refusal: &Self::Refusal) -> bool
        ensures { result ≡ (language self.now).ends_run refusal.now };

    /// Hands over the line of a command that begins on `line` and is refused.
    ///
    /// # Errors
    /// As `send`: what was appended is a prefix of the line.
    fn send_line<K: Sink>(
        &self,
        out: &mut K,
        line: u64,
        refusal: &Self::Refusal,
    ) -> Result<(), WriteFault>
        ensures { Sends (K.view out.old) ((language self.now).fault_line line refusal.now) result (K.view out.new) };

    /// What holds of the language.
    ghost sound: { (answering : Self) → IsSound (language answering) };
}

//! One command after another.
ghost use Rattle.std.specs.Prelude.{◌≡◌, IfSome};
ghost use Rattle.definitions.specs.Texts.{Stores};
ghost use Rattle.definitions.specs.Trees.{Ledger};
ghost use Rattle.session_cli.specs.Views.{SessionView};
ghost use Rattle.session_cli.specs.Commands.{Commands};

use crate::actions::action_of;
use command_parts::fault::Fault;
use command_parts::kept::Kept;
use command_parts::printed::Printed;
use command_parts::step_options::StepOptions;
use monitor::Monitor;
use std::alloc::Global;
use std::marker::Model;
use std::rc::Rc;
use store_writes::actions::do_action;
use wal_outside::Store;

/// Answers commands, each step of which may have so many values.
#[derive(Drop)]
pub struct Session {
    limit: u32,
    kept: Kept,
}

impl Model for Session {
    ghost Value = { SessionView };

    ghost view = { λ session. record { limit = session.limit } };
}

impl Session {
    /// A session with this limit. It takes no memory.
    pub fn new(alloc: Global, limit: u32) -> Session
        ensures { result ≡ record { limit = limit } }
    {
        Session {
            limit,
            kept: Kept::new(alloc),
        }
    }

    /// Shows on this monitor which step is being made, while a command works.
    pub fn show_on(&mut self, monitor: Rc<Monitor>)
        ensures { self.new ≡ self.old }
    {
        self.kept.systems.show_on(monitor);
    }

    /// How many kept results were used so far: users' systems that an earlier command admitted, and relations and words that it made
    /// of files, where a later command reads the same. The count stays at its type's greatest value. It takes no memory.
    pub fn reused(&self) -> u64 {
        self.kept.reused()
    }

    /// Answers one command. Where it is accepted, the text that it makes was stored, if it makes one, and what it prints is given:
    /// a line for each step where these are `shown`, and the verdict, where it is about a sentence, or what it says.
    ///
    /// # Errors
    /// The first fault that refuses it, or `Memory`; the store's texts are as before.
    pub fn command<T: Store>(
        &mut self,
        alloc: Global,
        text: &[u8],
        shown: bool,
        store: &mut T,
    ) -> Result<Printed, Fault>
        ensures session { self.new ≡ self.old }
        ensures command { (ledger : Ledger) → IfSome (T.view store.old).files (Stores ledger) → Commands self.old.limit ledger (T.view store.old) text.now shown result (T.view store.new) }
    {
        let options = StepOptions {
            limit: self.limit,
            shown,
        };
        let found = action_of(alloc, options, text, &mut self.kept, store);
        self.kept.systems.clear_monitor();
        let action = found?;
        do_action(action, store)
    }
}

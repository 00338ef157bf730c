//! What comes next of a text.

ghost use Rattle.std.specs.Prelude.{◌≡◌};
ghost use Rattle.script_runs.specs.Coming.{coming_of as coming_by};

use crate::script_fault::ScriptFault;
use script_cut::{Cut, CutFault};

/// What comes next of a script or of a file.
#[derive(Drop)]
pub(crate) enum Coming {
    /// An item.
    Item(Item),
    /// Its end.
    End,
    /// The source failed.
    Failed,
    /// There was not enough memory.
    Memory,
}

/// A command, or a text that is none, and the line on which it begins.
#[derive(Drop)]
pub(crate) struct Item {
    pub(crate) line: u64,
    pub(crate) text: ItemText,
}

/// A command's text and whether its steps are shown, or why a text is no command.
#[derive(Drop)]
pub(crate) enum ItemText {
    Command(Vec<u8>, bool),
    Broken(ScriptFault),
}

/// What comes next, by what a cutter gave.
pub(crate) fn coming_of(cut: Result<Cut, CutFault>) -> Coming
    ensures { result ≡ coming_by cut }
{
    match cut {
        Ok(Cut::Command(text, shown, line)) => Coming::Item(Item {
            line,
            text: ItemText::Command(text, shown),
        }),
        Ok(Cut::End) => Coming::End,
        Err(CutFault::Long(line)) => broken(line, ScriptFault::Long),
        Err(CutFault::Syntax(line, len)) => broken(line, ScriptFault::Unterminated(len)),
        Err(CutFault::ScriptLimit(line)) => broken(line, ScriptFault::PastLimit),
        Err(CutFault::Failed) => Coming::Failed,
        Err(CutFault::Memory) => Coming::Memory,
    }
}

/// A text that is no command.
fn broken(line: u64, fault: ScriptFault) -> Coming
    ensures { result ≡ Coming.Item (record { line = line; text = ItemText.Broken fault }) }
{
    Coming::Item(Item {
        line,
        text: ItemText::Broken(fault),
    })
}

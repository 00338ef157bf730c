//! A word that a command names, of which it makes another word.

ghost use Rattle.std.specs.Prelude.{◌≡◌, IfOk, MatchResult};
ghost use Rattle.std.specs.Rc.{rc_value};
ghost use Rattle.system_files.specs.SystemFiles.{Custom};
ghost use Rattle.command_parts.specs.FormulaSteps.{IsUnread};
ghost use Rattle.word_commands.specs.ImageOutcomes.{old_mentions};
ghost use Rattle.word_commands.specs.OldWordMakes.{AreOldNames, IsLoadedOld, IsOldRead, LoadsOld};
ghost use Rattle.command_parts.specs.StoreReads.{FromFiles};

use command_parts::fault::Fault;
use command_parts::mentioned_tables::{MentionedTables, load_mentioned};
use command_parts::table_reading::read_tables;
use digit_tuple::faults::OutOfMemory;
use digit_tuple::name::Name;
use digit_tuple::step_fault::StepFault;
use digit_tuple::steps::Steps;
use formula_build::Names;
use formula_resolve::Mention;
use kept_tables::KeptTables;
use std::alloc::Global;
use std::rc::Rc;
use wal_outside::Store;
use word_output::word::Word;

/// A word, and its table.
#[derive(Drop)]
pub struct OldWord {
    /// The name of the word.
    pub name: Name,
    /// The table of the word alone.
    pub mentioned: MentionedTables,
}

/// The word of this name, read from the store.
///
/// # Errors
/// `Unknown`, `File` or `Store` where it is not loaded, or `Memory`. No text is changed.
pub fn load_old<T: Store>(alloc: Global, name: &Name, store: &mut T) -> Result<OldWord, Fault>
    ensures { FromFiles (LoadsOld name.now) (T.view store.old) result (T.view store.new) }
{
    let copy = name.copy(alloc)?;
    let mentions = mentions_of(alloc, name)?;
    let mentioned = load_mentioned(alloc, mentions, store)?;
    Ok(OldWord {
        name: copy,
        mentioned,
    })
}

/// The word is mentioned as one that is indexed at one position.
fn mentions_of(alloc: Global, name: &Name) -> Result<Vec<Mention>, OutOfMemory>
    ensures { IfOk result (λ mentioned. mentioned.items ≡ old_mentions name.now) }
{
    let mut mentioned = Vec::new(alloc);
    mentioned.push(Mention::Indexed(name.copy(alloc)?, 1))?;
    Ok(mentioned)
}

/// The word that the table of a loaded word makes, by the next steps.
///
/// # Errors
/// `Letters` and `States` exactly at the first step that passes a limit, with its number, or `Memory`.
pub fn read_old(
    alloc: Global,
    old: &OldWord,
    names: &Names,
    kept: &mut KeptTables,
    steps: &mut Steps,
) -> Result<Rc<Word>, StepFault>
    requires old { IsLoadedOld old.now }
    requires named { (custom : Custom) × AreOldNames old.now custom names.now }
    ensures { (custom : Custom) → AreOldNames old.now custom names.now → MatchResult result (λ word. IsOldRead steps.old custom old.now (rc_value word) steps.new) (IsUnread steps.old custom old.now.mentioned.tables.items) }
{
    names.systems.are_sealed();
    let tables = &old.mentioned.tables;
    let library = read_tables(alloc, tables, &names.systems, kept, steps)?;
    match library.word(&old.name) {
        Some(word) => Ok(word.clone()?),
        None => unreachable!(),
    }
}

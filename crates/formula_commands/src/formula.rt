//! The commands `eval` and `def`: a formula, kept as its truth or as the automaton of the numbers for which it is true.

ghost use Rattle.std.specs.Prelude.{◌≡◌, ℕ, List, true};
ghost use Rattle.command_head.specs.Parts.{is_name};
ghost use Rattle.formula_parse.specs.Views.{formula_view};
ghost use Rattle.formula_resolve.specs.Mentions.{mentions as mentions_of};
ghost use Rattle.system_files.specs.SystemFiles.{Custom};
ghost use Rattle.wal_outside.specs.declared.folder.Folder.{Folder as FolderOf};
ghost use Rattle.definitions.specs.Texts.{Stores};
ghost use Rattle.definitions.specs.Trees.{Ledger, custom_of};
ghost use Rattle.formula_commands.specs.FormulaMakes.{AreFormulaNames, IsReadFormula, MakesAfterTables, MakesAfterSystems};
ghost use Rattle.formula_commands.specs.FormulaOutcomes.{FormulaHasOneOutcome, after_named_head, formula_checks};
ghost use Rattle.command_parts.specs.MentionedTables.{LoadsMentioned};
ghost use Rattle.formula_commands.specs.MacroMakes.{ExpandsTo, MakesOfText};
ghost use Rattle.command_parts.specs.FileChanges.{Makes, ChangesFile};
ghost use Rattle.command_parts.specs.StoreReads.{FromFiles, FromTexts};

use crate::formula_text::formula_text;
use command_head::{NamedParts, named_parts};
use command_parts::fault::Fault;
use command_parts::file_change::{FileChange, Made};
use command_parts::kept::Kept;
use command_parts::mentioned_tables::{MentionedTables, SealedNames, load_mentioned, names_of};
use command_parts::printed::Printed;
use command_parts::step_options::StepOptions;
use command_parts::table_reading::read_tables;
use formula_build::{build, resolve};
use formula_parse::parse;
use formula_parse::tree::Formula;
use formula_resolve::mentions;
use kept_tables::KeptTables;
use macro_loading::expanded;
use std::alloc::Global;
use wal_outside::{Folder, Store};

/// A command that keeps a formula: its word, the folder of its texts, and how its steps are made.
#[derive(Clone, Copy)]
pub struct FormulaCommand<'a> {
    /// The word with which it begins.
    pub word: &'a [u8],
    /// The folder in which it stores what it makes.
    pub folder: Folder,
    /// How its steps are made and shown.
    pub options: StepOptions,
}

/// What a command of this word stores and prints, or the first of its checks that refuses it: the shape of its head, its calls
/// of macros, its formula, the files of the automata and words that this names, its systems, its resolution, its steps, and the length of
/// the text to store. Each file is read once, and no text is changed. Built-in systems that it names first are sealed and kept.
pub fn formula_change<T: Store>(
    alloc: Global,
    command: FormulaCommand<'_>,
    text: &[u8],
    kept: &mut Kept,
    store: &mut T,
) -> Result<FileChange, Fault>
    requires { is_name command.word.now ≡ true }
    ensures { FromFiles (λ found change. (ledger : Ledger) → Stores ledger found → ChangesFile (custom_of ledger) (formula_checks command.entry.word.now command.entry.folder command.entry.options.limit ledger text.now) command.entry.options.shown change) (T.view store.old) result (T.view store.new) }
{
    let head = named_parts(alloc, command.word, text)?;
    let NamedParts { name, body } = head;
    match formula_made(alloc, command.options, body, kept, store) {
        Ok(made) => Ok(FileChange {
            folder: command.folder,
            name,
            made,
        }),
        Err(fault) => Err(fault),
    }
}

/// What is made of the formula in a quoted text, whatever the command's name. Its calls of macros are expanded first.
fn formula_made<T: Store>(
    alloc: Global,
    options: StepOptions,
    body: &[u8],
    kept: &mut Kept,
    store: &mut T,
) -> Result<Made, Fault>
    ensures { FromFiles (λ found made. (ledger : Ledger) (folder : FolderOf) (name : List ℕ) → Stores ledger found → Makes (custom_of ledger) (after_named_head options.limit ledger folder (record { name = name; body = body.now })) options.shown made) (T.view store.old) result (T.view store.new) }
{
    let text = expand_macros(alloc, body, store)?;
    text_made(alloc, options, &text, kept, store)
}

/// The text with its calls of macros expanded: all calls of a macro by one text, which is read where the first is met.
fn expand_macros<T: Store>(alloc: Global, body: &[u8], store: &mut T) -> Result<Vec<u8>, Fault>
    ensures { FromFiles (ExpandsTo body.now) (T.view store.old) result (T.view store.new) }
{
    Ok(expanded(alloc, body, store)?)
}

/// What is made of the formula in a text without calls of macros.
fn text_made<T: Store>(
    alloc: Global,
    options: StepOptions,
    text: &[u8],
    kept: &mut Kept,
    store: &mut T,
) -> Result<Made, Fault>
    ensures { FromFiles (MakesOfText options text.now) (T.view store.old) result (T.view store.new) }
{
    let formula = parse(alloc, text)?;
    let mentioned = load_tables(alloc, &formula, store)?;
    made_of(
        alloc,
        options,
        &ReadFormula { formula, mentioned },
        kept,
        store,
    )
}

/// The tables of the files that a formula names, each read once.
fn load_tables<T: Store>(
    alloc: Global,
    formula: &Formula,
    store: &mut T,
) -> Result<MentionedTables, Fault>
    ensures { FromFiles (LoadsMentioned (mentions_of (formula_view formula.now))) (T.view store.old) result (T.view store.new) }
{
    let mentions = mentions(alloc, formula)?;
    load_mentioned(alloc, mentions, store)
}

/// A formula, and the tables of the files that it names.
#[derive(Drop)]
struct ReadFormula {
    /// The formula.
    formula: Formula,
    /// What it mentions.
    mentioned: MentionedTables,
}

/// What is made of a formula whose files are loaded. Users' systems that it mentions are read and admitted first.
fn made_of<T: Store>(
    alloc: Global,
    options: StepOptions,
    read: &ReadFormula,
    kept: &mut Kept,
    store: &mut T,
) -> Result<Made, Fault>
    requires { IsReadFormula read.now }
    ensures { FromTexts (MakesAfterTables options read.now) (T.view store.old) result (T.view store.new) }
{
    let named = names_of(alloc, options.limit, &read.mentioned, kept, store)?;
    built(alloc, options.shown, read, named, &mut kept.tables)
}

/// What is made of a formula whose systems are sealed, each under its name, by the next steps.
fn built(
    alloc: Global,
    shown: bool,
    read: &ReadFormula,
    named: SealedNames,
    kept: &mut KeptTables,
) -> Result<Made, Fault>
    requires read { IsReadFormula read.now }
    requires named { (custom : Custom) × AreFormulaNames read.now custom named.names }
    ensures { (custom : Custom) → AreFormulaNames read.now custom named.names → MakesAfterSystems named.steps shown read.now custom result }
{
    let SealedNames { names, mut steps } = named;
    names.systems.are_sealed();
    let resolved = resolve(alloc, &read.formula, &names)?;
    let tables = &read.mentioned.tables;
    let library = read_tables(alloc, tables, &names.systems, kept, &mut steps)?;
    let relation = build(alloc, &resolved, &library, &mut steps)?;
    let stored = formula_text(alloc, &resolved.variables, &relation)?;
    let mut printed = Printed::of_steps(alloc, &steps, shown)?;
    printed.push_verdict(relation.verdict())?;
    Ok(Made { stored, printed })
}

/// A formula has at most one proper outcome under its word. The call does nothing.
pub fn one_outcome()
    ensures { FormulaHasOneOutcome }
{}

//! The commands `union`, `intersect`, `concat`, `star` and `reverse`: what an operation makes of languages, kept as an automaton.

ghost use Rattle.std.specs.Prelude.{◌≡◌, ◌≢◌, ℕ, List, [], MatchResult, IfOk};
ghost use Rattle.wal_outside.specs.Files.{Files};
ghost use Rattle.command_head.specs.Breaks.{HasHead};
ghost use Rattle.command_head.specs.HeadViews.{languages_view};
ghost use Rattle.dfa_loading.specs.Loading.{AreListedBy};
ghost use Rattle.definitions.specs.Texts.{Stores};
ghost use Rattle.definitions.specs.Trees.{Ledger, custom_of};
ghost use Rattle.language_steps.specs.Operands.{HasCount};
ghost use Rattle.language_commands.specs.LanguageMakes.{AreAlike, MakesLanguage, RefusesTables};
ghost use Rattle.language_commands.specs.LanguageOutcomes.{LanguageHasOneOutcome, DerivesOperation, after_language_head, language_checks, language_files, language_mentions};
ghost use Rattle.command_parts.specs.FileChanges.{Makes, ChangesFile};
ghost use Rattle.command_parts.specs.StoreReads.{FromFiles};

use crate::reg::made_of;
use command_head::{HeadFault, LanguagesParts, language_parts, languages_parts};
use command_parts::fault::Fault;
use command_parts::file_change::{FileChange, Made};
use command_parts::kept::Kept;
use command_parts::mentioned_tables::load_mentioned;
use command_parts::refusal::Refusal;
use command_parts::shape_refusal::ShapeRefusal;
use command_parts::step_options::StepOptions;
use dfa_loading::Loaded;
use digit_tuple::faults::OutOfMemory;
use digit_tuple::header::Header;
use digit_tuple::name::Name;
use formula_resolve::Mention;
use language_steps::{
    LanguageOp, OneOp, PairOp, first_not_plain, first_sets, first_unlike, language_of,
};
use std::alloc::Global;
use wal_outside::{Folder, Store};

/// A language command: its operation and its text.
#[derive(Clone, Copy)]
pub struct LanguageCommand<'a> {
    /// The operation that its first word names.
    pub op: LanguageOp,
    /// The whole text.
    pub text: &'a [u8],
}

/// An operation and the names of its languages.
#[derive(Clone, Copy)]
struct Operands<'a> {
    op: LanguageOp,
    names: &'a [Name],
}

/// What a language command stores and prints, or the first of its checks that refuses it: the shape of its head, the files of the
/// automata, that all are over sets, that all have the header of the first, its steps, and the length of the text to store. Each
/// file is read once, also where it is listed more often, and no text is changed.
pub fn language_change<T: Store>(
    alloc: Global,
    options: StepOptions,
    command: LanguageCommand<'_>,
    kept: &Kept,
    store: &mut T,
) -> Result<FileChange, Fault>
    ensures { FromFiles (λ found change. (ledger : Ledger) → Stores ledger found → ChangesFile (custom_of ledger) (language_checks command.entry.op options.limit ledger command.entry.text.now) options.shown change) (T.view store.old) result (T.view store.new) }
{
    let LanguageCommand { op, text } = command;
    let head = head_of(alloc, op, text)?;
    let LanguagesParts { name, languages } = head;
    let operands = Operands {
        op,
        names: &languages,
    };
    match language_made(alloc, options, operands, kept, store) {
        Ok(made) => Ok(FileChange {
            folder: Folder::Automata,
            name,
            made,
        }),
        Err(fault) => Err(fault),
    }
}

/// The head of a language command.
fn head_of(alloc: Global, op: LanguageOp, text: &[u8]) -> Result<LanguagesParts, HeadFault>
    ensures { HasHead (DerivesOperation op) languages_view text.now result }
{
    match op {
        LanguageOp::Pair(PairOp::Union) => languages_parts(alloc, b"union", text),
        LanguageOp::Pair(PairOp::Intersection) => languages_parts(alloc, b"intersect", text),
        LanguageOp::Pair(PairOp::Concatenation) => languages_parts(alloc, b"concat", text),
        LanguageOp::One(OneOp::Star) => language_parts(alloc, b"star", text),
        LanguageOp::One(OneOp::Reversal) => language_parts(alloc, b"reverse", text),
    }
}

/// What is made of the languages of these names, whatever the new name.
fn language_made<T: Store>(
    alloc: Global,
    options: StepOptions,
    operands: Operands<'_>,
    kept: &Kept,
    store: &mut T,
) -> Result<Made, Fault>
    requires { HasCount operands.op operands.names.now }
    ensures { FromFiles (λ found made. (ledger : Ledger) (name : List ℕ) → Stores ledger found → Makes (custom_of ledger) (after_language_head options.limit ledger operands.entry.op (record { name = name; languages = operands.entry.names.now })) options.shown made) (T.view store.old) result (T.view store.new) }
{
    let mentions = mentions_of(alloc, operands.names)?;
    let mentioned = load_mentioned(alloc, mentions, store)?;
    made_of_tables(alloc, options, operands, &mentioned.tables, kept)
}

/// Automata are mentioned as those are that are called.
fn mentions_of(alloc: Global, names: &[Name]) -> Result<Vec<Mention>, OutOfMemory>
    ensures { IfOk result (λ mentioned. mentioned.items ≡ language_mentions names.now) }
{
    let mut mentioned = Vec::new(alloc);
    for name in names {
        mentioned.push(Mention::Called(name.copy(alloc)?, 0))?;
    }
    Ok(mentioned)
}

/// What is made of the languages of these names, whose files are loaded.
fn made_of_tables(
    alloc: Global,
    options: StepOptions,
    operands: Operands<'_>,
    tables: &[Loaded],
    kept: &Kept,
) -> Result<Made, Fault>
    requires count { HasCount operands.op operands.names.now }
    requires listed { (files : Files) × AreListedBy files (language_files operands.names.now) tables.now }
    ensures { MakesLanguage options operands.entry.op operands.entry.names.now tables.now result }
{
    let Operands { op, names } = operands;
    refuse_tables(alloc, tables)?;
    let mut steps = kept.new_steps(alloc, options.limit);
    let language = language_of(alloc, op, names, tables, &mut steps)?;
    let header = Header::Sets(first_sets(tables).copy(alloc)?);
    made_of(alloc, &header, &language, &steps, options.shown)
}

/// Refuses the first automaton that is not over sets, and the first that has another header than the first one.
fn refuse_tables(alloc: Global, tables: &[Loaded]) -> Result<(), Fault>
    requires { tables.now ≢ [] }
    ensures { MatchResult result (λ _. AreAlike tables.now) (RefusesTables tables.now) }
{
    if let Some(name) = first_not_plain(tables) {
        return Err(Fault::Refused(Refusal::Shape(ShapeRefusal::NotPlain(name.copy(alloc)?))));
    }
    if let Some((first, other)) = first_unlike(tables) {
        return Err(Fault::Refused(Refusal::Shape(ShapeRefusal::LangShape(
            first.copy(alloc)?,
            other.copy(alloc)?,
        ))));
    }
    Ok(())
}

/// A command that makes a language of others has at most one proper outcome. The call does nothing.
pub fn one_outcome()
    ensures { LanguageHasOneOutcome }
{}

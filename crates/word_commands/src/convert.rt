//! The command `convert`: a word over a base, kept as a word over another base.

ghost use Rattle.std.specs.Prelude.{◌≡◌, Ok, IfOk, MatchOption, MatchResult};
ghost use Rattle.std.specs.Rc.{rc_value};
ghost use Rattle.base_change.specs.Conversions.{AreRelated, DoesConversion};
ghost use Rattle.base_change.specs.Roots.{HaveNoRoot};
ghost use Rattle.command_head.specs.HeadViews.{convert_view};
ghost use Rattle.system_names.specs.Names.{IsBase};
ghost use Rattle.word_output.specs.Words.{IsWordValue};
ghost use Rattle.definitions.specs.Texts.{Stores};
ghost use Rattle.definitions.specs.Trees.{Ledger, custom_of};
ghost use Rattle.system_files.specs.SystemFiles.{Custom};
ghost use Rattle.word_commands.specs.declared.base_system.BaseSystem.{BaseSystem};
ghost use Rattle.word_commands.specs.BaseWords.{IsNameOfBase};
ghost use Rattle.command_parts.specs.Checks.{Fails};
ghost use Rattle.word_commands.specs.ConvertMakes.{HasSameLetters, MakesAfterConvertSystems, MakesAfterConvertTable};
ghost use Rattle.word_commands.specs.ConvertOutcomes.{ConvertHasOneOutcome, IsChange, UnknownBaseAnswers, after_convert_head, convert_checks, is_numbered as is_numbered_name, no_unknown_base, related_base};
ghost use Rattle.word_commands.specs.ConvertSteps.{IsSealedBase};
ghost use Rattle.word_commands.specs.OldWordMakes.{AreOldNames, IsLoadedOld};
ghost use Rattle.command_parts.specs.FileChanges.{Makes, ChangesFile};
ghost use Rattle.command_parts.specs.StoreReads.{FromFiles, FromTexts};

use crate::base_system::{BaseSystem, base_named, base_of};
use crate::old_word::{OldWord, load_old, read_old};
use crate::word_text::{letters_fit, word_made};
use base_change::conversion::convert;
use base_change::laws::conversions_keep_letters;
use base_change::related::{CommonRoot, related};
use command_head::{ConvertParts, convert_parts};
use command_parts::fault::Fault;
use command_parts::file_change::{FileChange, Made};
use command_parts::kept::Kept;
use command_parts::mentioned_tables::{SealedNames, names_of};
use command_parts::refusal::Refusal;
use command_parts::shape_refusal::ShapeRefusal;
use command_parts::step_options::StepOptions;
use command_parts::system_refusal::SystemRefusal;
use digit_tuple::faults::OutOfMemory;
use digit_tuple::name::Name;
use digit_tuple::step_fault::StepFault;
use digit_tuple::steps::Steps;
use named_systems::NamedSystems;
use num_system::system::System;
use std::alloc::Global;
use std::rc::Rc;
use text_grammar::{are_digits, is_direction};
use wal_outside::{Folder, Store};
use word_output::word::Word;

/// What a `convert` stores and prints, or the first of its checks that refuses it: the shape of its head, the file of the old
/// word, that the new system is named like no base that there is not, the old word's systems, that it has one track over a base,
/// that the new system is a base and both bases are powers of one integer, its steps, and the length of the text to store. The
/// file is read once, no file of the new system is read, and no text is changed. Built-in systems that it names first are sealed
/// and kept.
pub fn convert_change<T: Store>(
    alloc: Global,
    options: StepOptions,
    text: &[u8],
    kept: &mut Kept,
    store: &mut T,
) -> Result<FileChange, Fault>
    ensures { FromFiles (λ found file_change. (ledger : Ledger) → Stores ledger found → ChangesFile (custom_of ledger) (convert_checks options.limit ledger text.now) options.shown file_change) (T.view store.old) result (T.view store.new) }
{
    let head = convert_parts(alloc, text)?;
    match convert_made(alloc, options, &head, kept, store) {
        Ok(made) => Ok(FileChange {
            folder: Folder::Words,
            name: head.word,
            made,
        }),
        Err(fault) => Err(fault),
    }
}

/// What is made by a head.
fn convert_made<T: Store>(
    alloc: Global,
    options: StepOptions,
    head: &ConvertParts,
    kept: &mut Kept,
    store: &mut T,
) -> Result<Made, Fault>
    ensures { FromFiles (λ found made. (ledger : Ledger) → Stores ledger found → Makes (custom_of ledger) (after_convert_head options.limit ledger (convert_view head.now)) options.shown made) (T.view store.old) result (T.view store.new) }
{
    let system = head.system.copy(alloc)?;
    let old = load_old(alloc, &head.old, store)?;
    made_of(alloc, options, &ReadConvert { system, old }, kept, store)
}

/// A word, and the system over which it is wanted.
#[derive(Drop)]
struct ReadConvert {
    /// The name of the system.
    system: Name,
    /// The word.
    old: OldWord,
}

/// What is made of a word whose table is loaded. Users' systems of its tracks are read and admitted first.
fn made_of<T: Store>(
    alloc: Global,
    options: StepOptions,
    read: &ReadConvert,
    kept: &mut Kept,
    store: &mut T,
) -> Result<Made, Fault>
    requires { IsLoadedOld read.now.old }
    ensures { FromTexts (MakesAfterConvertTable options read.now) (T.view store.old) result (T.view store.new) }
{
    is_no_unknown_base(alloc, &read.system)?;
    let named = names_of(alloc, options.limit, &read.old.mentioned, kept, store)?;
    made_over(alloc, options.shown, read, named, kept)
}

/// Refuses a name that is like that of a base where there is no such base.
fn is_no_unknown_base(alloc: Global, system: &Name) -> Result<(), Fault>
    ensures { MatchResult result (λ other. UnknownBaseAnswers system.now (Ok other)) (Fails (no_unknown_base system.now)) }
{
    if !is_numbered(system.as_bytes()) {
        return Ok(());
    }
    match base_named(system) {
        Some(_) => Ok(()),
        None => Err(Fault::Refused(Refusal::System(SystemRefusal::SystemUnknown(system.copy(
            alloc,
        )?)))),
    }
}

/// Whether a name is `msd_` or `lsd_` and then digits alone, one at least.
fn is_numbered(name: &[u8]) -> bool
    ensures { result ≡ is_numbered_name name.now }
{
    4 <= name.len() && is_direction(&name[..4]) && are_digits(&name[4..])
}

/// What is made of a word whose systems are sealed, each under its name, by the next steps.
fn made_over(
    alloc: Global,
    shown: bool,
    read: &ReadConvert,
    named: SealedNames,
    kept: &mut Kept,
) -> Result<Made, Fault>
    requires old { IsLoadedOld read.now.old }
    requires other { UnknownBaseAnswers read.now.system (Ok tt) }
    requires named { (custom : Custom) × AreOldNames read.now.old custom named.names }
    ensures { (custom : Custom) → AreOldNames read.now.old custom named.names → MakesAfterConvertSystems named.steps shown read.now custom result }
{
    let SealedNames { names, mut steps } = named;
    let over = base_of(alloc, &names.headers, &read.old.name, None)?;
    let change = change_of(alloc, over, &read.system)?;
    let system = sealed_base(alloc, &read.system, kept)?;
    let target = Target {
        system,
        common: change.common,
    };
    let old = read_old(alloc, &read.old, &names, &mut kept.tables, &mut steps)?;
    let word = word_over(alloc, old.as_ref(), &target, &mut steps)?;
    letters_fit(&word);
    let tracks = [read.system.copy(alloc)?];
    word_made(alloc, &tracks, &word, &steps, shown)
}

/// A base to which a word is changed, and the least root of both bases.
#[derive(Clone, Copy)]
pub struct Change {
    /// The new base.
    pub system: BaseSystem,
    /// The least integer of which both bases are powers.
    pub common: CommonRoot,
}

/// The change of a word over this base to the system of this name.
///
/// # Errors
/// `NotRelated` if and only if the name is that of no base, or the bases are not powers of one integer, or `Memory`.
fn change_of(alloc: Global, over: BaseSystem, system: &Name) -> Result<Change, Fault>
    requires { IsBase over.base }
    ensures { MatchResult result (IsChange over system.now) (Fails (related_base over system.now)) }
{
    match change_to(over, system) {
        Some(change) => Ok(change),
        None => Err(Fault::Refused(Refusal::Shape(ShapeRefusal::NotRelated(
            over.name(alloc)?,
            system.copy(alloc)?,
        )))),
    }
}

/// The change to the base of this name, if there is one.
fn change_to(over: BaseSystem, name: &Name) -> Option<Change>
    requires { IsBase over.base }
    ensures { MatchOption result ((s : BaseSystem) → IsNameOfBase s name.now → HaveNoRoot over.base s.base) (IsChange over name.now) }
{
    let system = base_named(name)?;
    match related(over.base, system.base) {
        Some(common) => Some(Change { system, common }),
        None => None,
    }
}

/// The system of the new word, sealed, and the least root of both bases.
#[derive(Drop)]
struct Target {
    /// The system.
    system: Rc<System>,
    /// The least integer of which both bases are powers.
    common: CommonRoot,
}

/// The base of this name, sealed at its first use and kept.
fn sealed_base(alloc: Global, name: &Name, kept: &mut Kept) -> Result<Rc<System>, OutOfMemory>
    requires { (s : BaseSystem) × IsNameOfBase s name.now }
    ensures { (s : BaseSystem) → IsNameOfBase s name.now → IfOk result (λ system. IsSealedBase s (rc_value system)) }
{
    let names = [name.copy(alloc)?];
    let mut named = NamedSystems::new(alloc);
    kept.built_in.add_all(alloc, &names, &mut named)?;
    match named.get(name) {
        Some(system) => Ok(system.clone()?),
        None => unreachable!(),
    }
}

/// A word over another system, which has the same letters.
fn word_over(
    alloc: Global,
    word: &Word,
    target: &Target,
    steps: &mut Steps,
) -> Result<Word, StepFault>
    requires { AreRelated word.now.systems (rc_value target.now.system) target.now.common }
    ensures steps { DoesConversion word.now (rc_value target.now.system) target.now.common steps.old result steps.new }
    ensures word { IfOk result IsWordValue }
    ensures letters { IfOk result (HasSameLetters word.now) }
{
    conversions_keep_letters();
    word.systems();
    let made = convert(alloc, word, &target.system, target.common, steps)?;
    made.systems();
    Ok(made)
}

/// A `convert` has at most one proper outcome. The call does nothing.
pub fn one_outcome()
    ensures { ConvertHasOneOutcome }
{}

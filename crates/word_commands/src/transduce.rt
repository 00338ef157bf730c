//! The command `transduce`: the outputs of a transducer that runs over a word, kept as a word.

ghost use Rattle.command_head.specs.HeadViews.{image_view};
ghost use Rattle.definitions.specs.Texts.{Stores};
ghost use Rattle.definitions.specs.Trees.{Ledger, custom_of};
ghost use Rattle.system_files.specs.SystemFiles.{Custom};
ghost use Rattle.word_commands.specs.OldWordMakes.{AreOldNames, IsLoadedOld};
ghost use Rattle.command_parts.specs.FileChanges.{Makes, ChangesFile};
ghost use Rattle.command_parts.specs.StoreReads.{FromFiles, FromTexts};
ghost use Rattle.word_commands.specs.TransduceMakes.{MakesAfterSystems, MakesAfterTable, ReadsTransducer};
ghost use Rattle.word_commands.specs.TransduceOutcomes.{TransduceHasOneOutcome, after_transduce_head, transduce_checks};

use crate::base_system::base_of;
use crate::old_word::{OldWord, load_old, read_old};
use crate::transducing::transduced;
use crate::word_text::{letters_fit, word_made};
use command_head::{ImageParts, image_parts};
use command_parts::fault::Fault;
use command_parts::file_change::{FileChange, Made};
use command_parts::kept::Kept;
use command_parts::mentioned_tables::{SealedNames, names_of};
use command_parts::step_options::StepOptions;
use digit_tuple::direction::Direction;
use kept_tables::KeptTables;
use std::alloc::Global;
use transducer_loading::load_transducer;
use transducer_reading::Transducer;
use wal_outside::{Folder, Store};

/// What a `transduce` stores and prints, or the first of its checks that refuses it: the shape of its head, the file of the
/// transducer, that of the old word, the word's systems, that it has one track, over a base whose most significant digit comes
/// first, its steps, and the length of the text to store. Each file is read once, and no text is changed. Built-in systems that
/// it names first are sealed and kept.
pub fn transduce_change<T: Store>(
    alloc: Global,
    options: StepOptions,
    text: &[u8],
    kept: &mut Kept,
    store: &mut T,
) -> Result<FileChange, Fault>
    ensures { FromFiles (λ found change. (ledger : Ledger) → Stores ledger found → ChangesFile (custom_of ledger) (transduce_checks options.limit ledger text.now) options.shown change) (T.view store.old) result (T.view store.new) }
{
    let head = image_parts(alloc, b"transduce", text)?;
    match transduce_made(alloc, options, &head, kept, store) {
        Ok(made) => Ok(FileChange {
            folder: Folder::Words,
            name: head.word,
            made,
        }),
        Err(fault) => Err(fault),
    }
}

/// What is made by a head.
fn transduce_made<T: Store>(
    alloc: Global,
    options: StepOptions,
    head: &ImageParts,
    kept: &mut Kept,
    store: &mut T,
) -> Result<Made, Fault>
    ensures { FromFiles (λ found made. (ledger : Ledger) → Stores ledger found → Makes (custom_of ledger) (after_transduce_head options.limit ledger (image_view head.now)) options.shown made) (T.view store.old) result (T.view store.new) }
{
    let read = read_transducer(alloc, head, store)?;
    made_of(alloc, options, &read, kept, store)
}

/// A transducer, and the word over which it runs.
#[derive(Drop)]
struct ReadTransducer {
    /// The transducer.
    transducer: Transducer,
    /// The word.
    old: OldWord,
}

/// The transducer and the word that a head names, read from the store in this order.
fn read_transducer<T: Store>(
    alloc: Global,
    head: &ImageParts,
    store: &mut T,
) -> Result<ReadTransducer, Fault>
    ensures { FromFiles (ReadsTransducer (image_view head.now)) (T.view store.old) result (T.view store.new) }
{
    let transducer = load_transducer(alloc, &head.mapping, store)?;
    let old = load_old(alloc, &head.old, store)?;
    Ok(ReadTransducer { transducer, old })
}

/// What is made of a word whose table is loaded. Users' systems of its tracks are read and admitted first.
fn made_of<T: Store>(
    alloc: Global,
    options: StepOptions,
    read: &ReadTransducer,
    kept: &mut Kept,
    store: &mut T,
) -> Result<Made, Fault>
    requires { IsLoadedOld read.now.old }
    ensures { FromTexts (MakesAfterTable options read.now) (T.view store.old) result (T.view store.new) }
{
    let named = names_of(alloc, options.limit, &read.old.mentioned, kept, store)?;
    made_over(alloc, options.shown, read, named, &mut kept.tables)
}

/// What is made of a word whose systems are sealed, each under its name, by the next steps.
fn made_over(
    alloc: Global,
    shown: bool,
    read: &ReadTransducer,
    named: SealedNames,
    kept: &mut KeptTables,
) -> Result<Made, Fault>
    requires old { IsLoadedOld read.now.old }
    requires named { (custom : Custom) × AreOldNames read.now.old custom named.names }
    ensures { (custom : Custom) → AreOldNames read.now.old custom named.names → MakesAfterSystems named.steps shown read.now custom result }
{
    let SealedNames { names, mut steps } = named;
    let over = base_of(alloc, &names.headers, &read.old.name, Some(Direction::Msd))?;
    let old = read_old(alloc, &read.old, &names, kept, &mut steps)?;
    let word = transduced(alloc, &read.transducer, old.as_ref(), &mut steps)?;
    letters_fit(&word);
    let name = over.name(alloc)?;
    let tracks = [name];
    word_made(alloc, &tracks, &word, &steps, shown)
}

/// A `transduce` has at most one proper outcome. The call does nothing.
pub fn one_outcome()
    ensures { TransduceHasOneOutcome }
{}

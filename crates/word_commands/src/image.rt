//! The command `image`: a word whose letters are mapped by a morphism, kept as a word.

ghost use Rattle.std.specs.Prelude.{◌≡◌, ℕ, [], length, slice_index_or, MatchResult};
ghost use Rattle.command_head.specs.HeadViews.{image_view};
ghost use Rattle.formula_resolve.specs.Headers.{word_tracks as tracks_in};
ghost use Rattle.morph_words.specs.Uniform.{HasLength, IsImageLength};
ghost use Rattle.definitions.specs.Texts.{Stores};
ghost use Rattle.definitions.specs.Trees.{Ledger, custom_of};
ghost use Rattle.system_files.specs.SystemFiles.{Custom};
ghost use Rattle.command_parts.specs.Checks.{Fails, Pure};
ghost use Rattle.word_commands.specs.ImageMakes.{ReadsImage, MakesAfterOld, MakesAfterOldSystems};
ghost use Rattle.word_commands.specs.ImageOutcomes.{ImageHasOneOutcome, OneTrackAnswers, LengthsAnswers, after_image_head, image_checks};
ghost use Rattle.command_parts.specs.FileChanges.{Makes, ChangesFile};
ghost use Rattle.word_commands.specs.OldWordMakes.{AreOldNames, IsLoadedOld};
ghost use Rattle.command_parts.specs.StoreReads.{FromFiles, FromTexts};

use crate::imaging::image;
use crate::old_word::{OldWord, load_old, read_old};
use crate::word_text::{letters_fit, word_made};
use command_head::{ImageParts, image_parts};
use command_parts::fault::Fault;
use command_parts::file_change::{FileChange, Made};
use command_parts::kept::Kept;
use command_parts::mentioned_tables::{SealedNames, names_of};
use command_parts::refusal::Refusal;
use command_parts::shape_refusal::ShapeRefusal;
use command_parts::step_options::StepOptions;
use command_parts::word_refusal::WordRefusal;
use digit_tuple::name::Name;
use formula_resolve::Headers;
use kept_tables::KeptTables;
use morph_words::{Morphism, image_kind};
use morphism_loading::load_morphism;
use std::alloc::Global;
use wal_outside::{Folder, Store};

/// What an `image` stores and prints, or the first of its checks that refuses it: the shape of its head, the file of the
/// morphism, that of the old word, the word's systems, that it has one track, that all images have one length, its steps with
/// the letters that have no rule, and the length of the text to store. Each file is read once, and no text is changed. Built-in
/// systems that it names first are sealed and kept.
pub fn image_change<T: Store>(
    alloc: Global,
    options: StepOptions,
    text: &[u8],
    kept: &mut Kept,
    store: &mut T,
) -> Result<FileChange, Fault>
    ensures { FromFiles (λ found change. (ledger : Ledger) → Stores ledger found → ChangesFile (custom_of ledger) (image_checks options.limit ledger text.now) options.shown change) (T.view store.old) result (T.view store.new) }
{
    let head = image_parts(alloc, b"image", text)?;
    match image_made(alloc, options, &head, kept, store) {
        Ok(made) => Ok(FileChange {
            folder: Folder::Words,
            name: head.word,
            made,
        }),
        Err(fault) => Err(fault),
    }
}

/// What is made by a head.
fn image_made<T: Store>(
    alloc: Global,
    options: StepOptions,
    head: &ImageParts,
    kept: &mut Kept,
    store: &mut T,
) -> Result<Made, Fault>
    ensures { FromFiles (λ found made. (ledger : Ledger) → Stores ledger found → Makes (custom_of ledger) (after_image_head options.limit ledger (image_view head.now)) options.shown made) (T.view store.old) result (T.view store.new) }
{
    let read = read_image(alloc, head, store)?;
    made_of(alloc, options, &read, kept, store)
}

/// A morphism, and the word that it maps.
#[derive(Drop)]
struct ReadImage {
    /// The morphism.
    morphism: Morphism,
    /// The word.
    old: OldWord,
}

/// The morphism and the word that a head names, read from the store in this order.
fn read_image<T: Store>(alloc: Global, head: &ImageParts, store: &mut T) -> Result<ReadImage, Fault>
    ensures { FromFiles (ReadsImage (image_view head.now)) (T.view store.old) result (T.view store.new) }
{
    let morphism = load_morphism(alloc, &head.mapping, store)?;
    let old = load_old(alloc, &head.old, store)?;
    Ok(ReadImage { morphism, old })
}

/// What is made of a word whose table is loaded. Users' systems of its tracks are read and admitted first.
fn made_of<T: Store>(
    alloc: Global,
    options: StepOptions,
    read: &ReadImage,
    kept: &mut Kept,
    store: &mut T,
) -> Result<Made, Fault>
    requires { IsLoadedOld read.now.old }
    ensures { FromTexts (MakesAfterOld options read.now) (T.view store.old) result (T.view store.new) }
{
    let named = names_of(alloc, options.limit, &read.old.mentioned, kept, store)?;
    made_over(alloc, options.shown, read, named, &mut kept.tables)
}

/// What is made of a word whose systems are sealed, each under its name, by the next steps.
fn made_over(
    alloc: Global,
    shown: bool,
    read: &ReadImage,
    named: SealedNames,
    kept: &mut KeptTables,
) -> Result<Made, Fault>
    requires old { IsLoadedOld read.now.old }
    requires named { (custom : Custom) × AreOldNames read.now.old custom named.names }
    ensures { (custom : Custom) → AreOldNames read.now.old custom named.names → MakesAfterOldSystems named.steps shown read.now custom result }
{
    let SealedNames { names, mut steps } = named;
    has_one_track(alloc, &names.headers, &read.old.name)?;
    has_one_length(&read.morphism)?;
    let old = read_old(alloc, &read.old, &names, kept, &mut steps)?;
    let system = old_system(&names.headers, &read.old.name);
    let word = image(alloc, &read.morphism, old.as_ref(), system, &mut steps)?;
    letters_fit(&word);
    let tracks = names.headers.word_tracks(&read.old.name);
    word_made(alloc, tracks, &word, &steps, shown)
}

/// The name of the system of a word of one track.
fn old_system<'a>(headers: &'a Headers, old: &Name) -> &'a Name
    requires { length (tracks_in headers.now old.now) ≡ 1 }
    ensures { result.now ≡ slice_index_or (tracks_in headers.now old.now) 0 [] }
{
    &headers.word_tracks(old)[0]
}

/// Refuses a word that has not one track.
fn has_one_track(alloc: Global, headers: &Headers, old: &Name) -> Result<(), Fault>
    ensures { MatchResult result (λ _. length (tracks_in headers.now old.now) ≡ 1) (Fails (Pure (OneTrackAnswers headers.now old.now))) }
{
    let tracks = headers.word_tracks(old).len();
    if tracks == 1 {
        return Ok(());
    }
    let count = tracks.min(u32::MAX as usize) as u32;
    Err(Fault::Refused(Refusal::Shape(ShapeRefusal::Arity(old.copy(alloc)?, count, 1))))
}

/// Refuses a morphism whose images have not one length of 1 to 40.
fn has_one_length(morphism: &Morphism) -> Result<(), Fault>
    ensures { MatchResult result (λ _. (k : ℕ) × HasLength IsImageLength morphism.now k) (Fails (Pure (LengthsAnswers morphism.now))) }
{
    match image_kind(morphism) {
        None => Ok(()),
        Some(kind) => Err(Fault::Refused(Refusal::Word(WordRefusal::Morphism(kind)))),
    }
}

/// An `image` has at most one proper outcome. The call does nothing.
pub fn one_outcome()
    ensures { ImageHasOneOutcome }
{}

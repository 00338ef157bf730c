//! The command `promote`: the fixed point of a morphism, kept as a word.

ghost use Rattle.std.specs.Prelude.{◌≡◌, ◌<◌, ℕ, List, [], ◌∷◌, length, map};
ghost use Rattle.std.specs.Rc.{rc_value};
ghost use Rattle.base_k.specs.Positional.{base};
ghost use Rattle.num_system.specs.Tracks.{systems_of};
ghost use Rattle.definitions.specs.Texts.{Stores};
ghost use Rattle.definitions.specs.Trees.{Ledger, custom_of};
ghost use Rattle.system_files.specs.SystemFiles.{Custom};
ghost use Rattle.word_commands.specs.BaseWords.{IsOverBase, PrintsOverBase};
ghost use Rattle.command_parts.specs.FileChanges.{Makes, ChangesFile};
ghost use Rattle.word_commands.specs.PromoteOutcomes.{PromoteHasOneOutcome, after_morphism, promote_checks};
ghost use Rattle.command_parts.specs.StoreReads.{FromFiles};

use crate::base_system::BaseSystem;
use crate::word_text::{letters_fit, word_text};
use command_head::promote_parts;
use command_parts::fault::Fault;
use command_parts::file_change::{FileChange, Made};
use command_parts::kept::Kept;
use command_parts::printed::Printed;
use command_parts::step_options::StepOptions;
use digit_tuple::direction::Direction;
use fixed_points::promotion::promote;
use morph_words::Morphism;
use morphism_loading::load_morphism;
use num_system::system::System;
use std::alloc::Global;
use std::rc::Rc;
use wal_outside::{Folder, Store};
use word_output::word::Word;

/// What a `promote` stores and prints, or the first of its checks that refuses it: the shape of its head, the file of the
/// morphism, that the morphism has a fixed point, the step, and the length of the text to store. The file is read from the store.
pub fn promote_change<T: Store>(
    alloc: Global,
    options: StepOptions,
    text: &[u8],
    kept: &Kept,
    store: &mut T,
) -> Result<FileChange, Fault>
    ensures { FromFiles (λ found change. (ledger : Ledger) → Stores ledger found → ChangesFile (custom_of ledger) (promote_checks options.limit ledger text.now) options.shown change) (T.view store.old) result (T.view store.new) }
{
    let head = promote_parts(alloc, text)?;
    let morphism = load_morphism(alloc, &head.morphism, store)?;
    let made = fixed_point(alloc, options, &morphism, kept)?;
    Ok(FileChange {
        folder: Folder::Words,
        name: head.word,
        made,
    })
}

/// What is made of a morphism, whatever the word's name.
fn fixed_point(
    alloc: Global,
    options: StepOptions,
    morphism: &Morphism,
    kept: &Kept,
) -> Result<Made, Fault>
    ensures { (custom : Custom) (name : List ℕ) → Makes custom (after_morphism options.limit custom name morphism.now) options.shown result }
{
    let mut steps = kept.new_steps(alloc, options.limit);
    let word = promote(alloc, morphism, &mut steps)?;
    letters_fit(&word);
    let stored = base_text(alloc, &word)?;
    let printed = Printed::of_steps(alloc, &steps, options.shown)?;
    Ok(Made { stored, printed })
}

/// The text of a word over a base, the most significant digit first, under the name of the base.
///
/// # Errors
/// `Long` if and only if the text has more bytes than a text may have, or `Memory`.
fn base_text(alloc: Global, word: &Word) -> Result<Vec<u8>, Fault>
    requires { (k : ℕ) × IsOverBase word.now k }
    ensures { (k : ℕ) → IsOverBase word.now k → PrintsOverBase word.now k result }
{
    let system = BaseSystem {
        direction: Direction::Msd,
        base: first_digits(word.systems()),
    };
    let name = system.name(alloc)?;
    let names = [name];
    word_text(alloc, &names, word)
}

/// How many digits the first of some systems has.
fn first_digits(systems: &[Rc<System>]) -> u32
    requires { 0 < length systems.now }
    ensures { (k : ℕ) → systems_of (map rc_value systems.now) ≡ base k ∷ [] → result ≡ k }
{
    systems[0].digits()
}

/// A `promote` has at most one proper outcome. The call does nothing.
pub fn one_outcome()
    ensures { PromoteHasOneOutcome }
{}

//! The command `reg`: an expression over sets or over systems, kept as an automaton.
ghost use Rattle.std.specs.Prelude.{◌≡◌, ℕ, ◌<◌, ◌≤◌, List, length};
ghost use Rattle.std.specs.List.{All};
ghost use Rattle.command_head.specs.Heads.{Systems};
ghost use Rattle.command_head.specs.HeadViews.{alphabets_of};
ghost use Rattle.digit_tuple.specs.Headers.{sets_of};
ghost use Rattle.digit_tuple.specs.Sets.{sizes_of};
ghost use Rattle.dfa_text.specs.Meaning.{AreTrackSets};
ghost use Rattle.definitions.specs.Named.{AreNamed};
ghost use Rattle.definitions.specs.Trees.{Ledger, custom_of};
ghost use Rattle.definitions.specs.Tracks.{OverSystems, OverSets};
ghost use Rattle.system_files.specs.SystemFiles.{Custom};
ghost use Rattle.language_commands.specs.RegOutcomes.{RegHasOneOutcome, reg_checks, after_head, after_tracks};
ghost use Rattle.system_admission.specs.SystemSteps.{no_steps};
ghost use Rattle.command_parts.specs.StoreReads.{FromTexts};
ghost use Rattle.command_parts.specs.TrackSystems.{named_in};
ghost use Rattle.named_systems.specs.TrackSystems.{IsIn};
ghost use Rattle.language_commands.specs.RegexMakes.{AreFormedAlphabets, ParsesTo};
ghost use Rattle.command_parts.specs.FileChanges.{Makes, ChangesFile};
ghost use Rattle.language_commands.specs.StoredRelations.{Prints};

use crate::track_systems::{languages, tracks};
use command_head::{Alphabets, RegParts, reg_parts};
use command_parts::fault::Fault;
use command_parts::file_change::{FileChange, Made};
use command_parts::kept::Kept;
use command_parts::printed::Printed;
use command_parts::refusal::Refusal;
use command_parts::step_options::StepOptions;
use command_parts::text_refusal::TextRefusal;
use command_parts::user_systems::admitted;
use dfa_text::print_within;
use digit_tuple::dfa::Dfa;
use digit_tuple::header::Header;
use digit_tuple::name::Name;
use digit_tuple::sets::Sets;
use digit_tuple::steps::Steps;
use named_systems::TrackSystems;
use reg_steps::regex_step::regex_step;
use reg_steps::relation_steps::relation_steps;
use regex_build::parse;
use regex_build::regex::Regex;
use std::alloc::Global;
use system_admission::names_once;
use wal_outside::{Folder, Store, TEXT_LIMIT};

/// The text of an expression in its quotes, and how the steps over it are made.
#[derive(Clone, Copy)]
struct Quoted<'a> {
    /// The text.
    body: &'a [u8],
    /// How the steps are made and shown.
    options: StepOptions,
}

/// What a `reg` stores and prints, or the first of its checks that refuses it: the shape of its head, its systems, their
/// direction, its expression, its steps, and the length of the text to store. Files of users' systems are read from the store.
pub fn reg_change<T: Store>(
    alloc: Global,
    options: StepOptions,
    text: &[u8],
    kept: &mut Kept,
    store: &mut T,
) -> Result<FileChange, Fault>
    requires { length text.now ≤ 65536 }
    ensures { FromTexts (λ custom change. (ledger : Ledger) → custom_of ledger ≡ custom → ChangesFile (custom_of ledger) (reg_checks options.limit ledger text.now) options.shown change) (T.view store.old) result (T.view store.new) }
{
    let head = reg_parts(alloc, text)?;
    let RegParts {
        name,
        alphabets,
        body,
    } = head;
    match made_over(alloc, Quoted { body, options }, alphabets, kept, store) {
        Ok(made) => Ok(FileChange {
            folder: Folder::Automata,
            name,
            made,
        }),
        Err(fault) => Err(fault),
    }
}

/// What is made of the expression in a quoted text over sets, or over systems, whatever the command's name.
fn made_over<T: Store>(
    alloc: Global,
    quoted: Quoted<'_>,
    alphabets: Alphabets,
    kept: &mut Kept,
    store: &mut T,
) -> Result<Made, Fault>
    requires { AreFormedAlphabets (alphabets_of alphabets) }
    ensures { FromTexts (λ custom made. (name : List ℕ) → Makes custom (after_head quoted.entry.options.limit custom (record { name = name; alphabets = alphabets_of alphabets; body = quoted.entry.body.now })) quoted.entry.options.shown made) (T.view store.old) result (T.view store.new) }
{
    match alphabets {
        Alphabets::Sets(sets) => regex_over(alloc, quoted.options, sets, quoted.body, kept),
        Alphabets::Systems(names) => regex_over_names(alloc, quoted, &names, kept, store),
    }
}

/// What is made of the expression in a quoted text over sets, by the step `regex`.
fn regex_over(
    alloc: Global,
    options: StepOptions,
    sets: Sets,
    body: &[u8],
    kept: &Kept,
) -> Result<Made, Fault>
    requires sets { AreTrackSets sets }
    ensures { (custom : Custom) (name : List ℕ) → Makes custom (after_tracks (no_steps options.limit) custom name body.now (OverSets sets)) options.shown result }
{
    let header = Header::Sets(sets);
    let regex = parsed(alloc, body, &header)?;
    let mut steps = kept.new_steps(alloc, options.limit);
    let automaton = regex_step(alloc, &regex, &mut steps)?;
    made_of(alloc, &header, &automaton, &steps, options.shown)
}

/// What is made of the expression in a quoted text over the systems of these names, of which there is at least one. Those of
/// users are admitted first.
fn regex_over_names<T: Store>(
    alloc: Global,
    quoted: Quoted<'_>,
    names: &[Name],
    kept: &mut Kept,
    store: &mut T,
) -> Result<Made, Fault>
    requires { 0 < length names.now }
    ensures { FromTexts (λ custom made. (name : List ℕ) → Makes custom (after_head quoted.entry.options.limit custom (record { name = name; alphabets = Systems names.now; body = quoted.entry.body.now })) quoted.entry.options.shown made) (T.view store.old) result (T.view store.new) }
{
    let once = names_once(alloc, names)?;
    let mut users = admitted(alloc, quoted.options.limit, &once, kept, store)?;
    let systems = TrackSystems::of_names(alloc, names, &users.named)?;
    regex_over_systems(
        alloc,
        &systems,
        quoted.body,
        quoted.options.shown,
        &mut users.steps,
    )
}

/// What is made of the expression in a quoted text over systems, by the steps `regex`, `pad` and `valid` as the next ones.
fn regex_over_systems(
    alloc: Global,
    systems: &TrackSystems,
    body: &[u8],
    shown: bool,
    steps: &mut Steps,
) -> Result<Made, Fault>
    requires some { 0 < length systems.now.systems.items }
    requires directions { All (IsIn systems.now.direction) systems.now.systems.items }
    requires named { (custom : Custom) × AreNamed custom systems.now.direction (named_in systems.now.systems.items) }
    ensures { (custom : Custom) (name : List ℕ) → AreNamed custom systems.now.direction (named_in systems.now.systems.items) → Makes custom (after_tracks steps.old custom name body.now (OverSystems systems.now.direction (named_in systems.now.systems.items))) shown result }
{
    let header = Header::Systems(tracks(alloc, systems)?);
    let regex = parsed(alloc, body, &header)?;
    let languages = languages(alloc, systems)?;
    let relation = relation_steps(alloc, &regex, systems.direction, &languages, steps)?;
    made_of(alloc, &header, relation.dfa(), steps, shown)
}

/// The expression in a quoted text.
fn parsed(alloc: Global, body: &[u8], header: &Header) -> Result<Regex, Fault>
    ensures { ParsesTo (sets_of header.now) body.now result }
{
    match parse(alloc, body, header) {
        Ok(regex) => Ok(regex),
        Err(fault) => Err(Fault::from(fault)),
    }
}

/// The text of an automaton, and what is printed of the steps.
pub fn made_of(
    alloc: Global,
    header: &Header,
    automaton: &Dfa,
    steps: &Steps,
    shown: bool,
) -> Result<Made, Fault>
    requires { automaton.now.sizes ≡ sizes_of (sets_of header.now) }
    ensures { Prints header.now automaton.now shown steps.now.lines result }
{
    match print_within(alloc, header, automaton, TEXT_LIMIT)? {
        Some(stored) => Ok(Made {
            stored,
            printed: Printed::of_steps(alloc, steps, shown)?,
        }),
        None => Err(Fault::Refused(Refusal::Text(TextRefusal::Long(TEXT_LIMIT)))),
    }
}

/// A `reg` has at most one proper outcome. The call does nothing.
pub fn one_outcome()
    ensures { RegHasOneOutcome }
{}

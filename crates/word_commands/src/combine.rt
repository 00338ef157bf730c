//! The command `combine`: the word that listed automata make together.

ghost use Rattle.std.specs.Prelude.{◌≡◌, ◌≢◌, ◌↔◌, ◌<◌, ◌≤◌, ◌^◌, ℕ, List, [], length, pos, None, Some, Ok, Err, IsTrue, IfOk, MatchOption, MatchResult};
ghost use Rattle.std.specs.List.{AllByRecursion};
ghost use Rattle.combinations.specs.CombineSteps.{DoesCombine};
ghost use Rattle.combinations.specs.Parts.{systems_at};
ghost use Rattle.combinations.specs.Shapes.{HaveOneShape as HaveOneTracks};
ghost use Rattle.combinations.specs.declared.combine_fault.CombineFault.TheVariants.{Step};
ghost use Rattle.formula_resolve.specs.Headers.{automaton_tracks as tracks_in};
ghost use Rattle.definitions.specs.Texts.{Stores};
ghost use Rattle.definitions.specs.Trees.{Ledger, custom_of};
ghost use Rattle.system_files.specs.SystemFiles.{Custom};
ghost use Rattle.command_parts.specs.Checks.{Fails, Pure};
ghost use Rattle.word_commands.specs.CombineMakes.{IsReadList, IsPossible, HasRelations, MakesAfterListed, AreListedNames, MakesAfterListedSystems, MakesWord, automata_in, first_names};
ghost use Rattle.word_commands.specs.CombineOutcomes.{CombineHasOneOutcome, listed_names, listed_mentions, first_plain, PlainAnswers, HaveSystemsOfFirst, ShapeAnswers, IsFirstOver, after_combine_head, combine_checks};
ghost use Rattle.word_commands.specs.CombineSteps.{ArePartsFrom};
ghost use Rattle.command_parts.specs.FileChanges.{Makes, ChangesFile};
ghost use Rattle.command_parts.specs.StoreReads.{FromFiles, FromTexts};

use crate::word_text::{letters_fit, word_made};
use combinations::combine::combine;
use combinations::combine_fault::CombineFault;
use combinations::part::Part;
use command_head::{CombineParts, ValuedName, combine_parts};
use command_parts::fault::Fault;
use command_parts::file_change::{FileChange, Made};
use command_parts::kept::Kept;
use command_parts::mentioned_tables::{MentionedTables, SealedNames, load_mentioned, names_of};
use command_parts::refusal::Refusal;
use command_parts::shape_refusal::ShapeRefusal;
use command_parts::step_options::StepOptions;
use command_parts::table_reading::read_tables;
use digit_tuple::faults::OutOfMemory;
use digit_tuple::name::Name;
use digit_tuple::step_fault::StepFault;
use digit_tuple::steps::Steps;
use formula_build::Names;
use formula_resolve::{Headers, Mention};
use kept_tables::KeptTables;
use plan_relations::Library;
use std::alloc::Global;
use wal_outside::{Folder, Store};
use word_output::word::Word;

/// What a `combine` stores and prints, or the first of its checks that refuses it: the shape of its head, the files of the
/// automata, their systems, that none is over sets, that all have the systems of the first, its steps, and the length of the
/// text to store. Each file is read once, also where it is listed more often, and no text is changed. Built-in systems that it
/// names first are sealed and kept.
pub fn combine_change<T: Store>(
    alloc: Global,
    options: StepOptions,
    text: &[u8],
    kept: &mut Kept,
    store: &mut T,
) -> Result<FileChange, Fault>
    requires { length text.now ≤ 65536 }
    ensures { FromFiles (λ found change. (ledger : Ledger) → Stores ledger found → ChangesFile (custom_of ledger) (combine_checks options.limit ledger text.now) options.shown change) (T.view store.old) result (T.view store.new) }
{
    let head = combine_parts(alloc, text)?;
    let CombineParts { word, automata } = head;
    match combine_made(alloc, options, automata, kept, store) {
        Ok(made) => Ok(FileChange {
            folder: Folder::Words,
            name: word,
            made,
        }),
        Err(fault) => Err(fault),
    }
}

/// What is made of listed automata, whatever the word's name.
fn combine_made<T: Store>(
    alloc: Global,
    options: StepOptions,
    automata: Vec<ValuedName>,
    kept: &mut Kept,
    store: &mut T,
) -> Result<Made, Fault>
    requires some { automata.items ≢ [] }
    requires few { length automata.items < 2 ^ 31 }
    ensures { FromFiles (λ found made. (ledger : Ledger) (word : List ℕ) → Stores ledger found → Makes (custom_of ledger) (after_combine_head options.limit ledger (record { word = word; automata = automata_in automata.items })) options.shown made) (T.view store.old) result (T.view store.new) }
{
    let mentions = mentions_of(alloc, &automata)?;
    let mentioned = load_mentioned(alloc, mentions, store)?;
    made_of(
        alloc,
        options,
        &ListedAutomata {
            automata,
            mentioned,
        },
        kept,
        store,
    )
}

/// Listed automata are mentioned as those are that are called.
fn mentions_of(alloc: Global, automata: &[ValuedName]) -> Result<Vec<Mention>, OutOfMemory>
    ensures { IfOk result (λ mentioned. mentioned.items ≡ listed_mentions (automata_in automata.now)) }
{
    let mut mentioned = Vec::new(alloc);
    for valued in automata {
        mentioned.push(Mention::Called(valued.name.copy(alloc)?, 0))?;
    }
    Ok(mentioned)
}

/// Listed automata, and the tables of their files.
#[derive(Drop)]
struct ListedAutomata {
    /// The automata, in their order.
    automata: Vec<ValuedName>,
    /// What they mention.
    mentioned: MentionedTables,
}

/// What is made of automata whose files are loaded. Users' systems of their tracks are read and admitted first.
fn made_of<T: Store>(
    alloc: Global,
    options: StepOptions,
    read: &ListedAutomata,
    kept: &mut Kept,
    store: &mut T,
) -> Result<Made, Fault>
    requires { IsReadList read.now }
    ensures { FromTexts (MakesAfterListed options read.now) (T.view store.old) result (T.view store.new) }
{
    let named = names_of(alloc, options.limit, &read.mentioned, kept, store)?;
    combined(alloc, options.shown, read, named, &mut kept.tables)
}

/// What is made of automata whose systems are sealed, each under its name, by the next steps.
fn combined(
    alloc: Global,
    shown: bool,
    read: &ListedAutomata,
    named: SealedNames,
    kept: &mut KeptTables,
) -> Result<Made, Fault>
    requires read { IsReadList read.now }
    requires named { (custom : Custom) × AreListedNames read.now custom named.names }
    ensures { (custom : Custom) → AreListedNames read.now custom named.names → MakesAfterListedSystems named.steps shown read.now custom result }
{
    let SealedNames { names, mut steps } = named;
    none_plain(alloc, &names.headers, &read.automata)?;
    have_one_shape(alloc, &names.headers, &read.automata)?;
    let word = combined_word(alloc, read, &names, kept, &mut steps)?;
    letters_fit(&word);
    let tracks = first_tracks(&names.headers, &read.automata);
    word_made(alloc, tracks, &word, &steps, shown)
}

/// Refuses the first listed automaton that is over sets.
fn none_plain(alloc: Global, headers: &Headers, automata: &[ValuedName]) -> Result<(), Fault>
    ensures { MatchResult result (λ _. first_plain headers.now (listed_names (automata_in automata.now)) ≡ None) (Fails (Pure (PlainAnswers headers.now (listed_names (automata_in automata.now))))) }
{
    for valued in automata {
        if headers.is_plain(&valued.name) {
            return Err(Fault::Refused(Refusal::Shape(ShapeRefusal::Plain(
                valued.name.copy(alloc)?,
            ))));
        }
    }
    Ok(())
}

/// Refuses automata of which the first has no track, or a later one has other systems.
fn have_one_shape(alloc: Global, headers: &Headers, automata: &[ValuedName]) -> Result<(), Fault>
    requires { automata.now ≢ [] }
    ensures { MatchResult result (λ _. HaveSystemsOfFirst headers.now (listed_names (automata_in automata.now))) (Fails (Pure (ShapeAnswers headers.now (listed_names (automata_in automata.now))))) }
{
    let [first, others @ ..] = automata else {
        unreachable!()
    };
    let tracks = headers.automaton_tracks(&first.name);
    if tracks.is_empty() {
        return Err(Fault::Refused(Refusal::Shape(ShapeRefusal::CombineShape(
            first.name.copy(alloc)?,
            first.name.copy(alloc)?,
        ))));
    }
    match first_other(headers, tracks, others) {
        Some(other) => Err(Fault::Refused(Refusal::Shape(ShapeRefusal::CombineShape(
            first.name.copy(alloc)?,
            other.name.copy(alloc)?,
        )))),
        None => Ok(()),
    }
}

/// The first of these automata that has not these systems, if there is one.
fn first_other<'a>(
    headers: &Headers,
    tracks: &[Name],
    automata: &'a [ValuedName],
) -> Option<&'a ValuedName>
    ensures { MatchOption result (AllByRecursion (λ other. tracks_in headers.now other ≡ tracks.now) (listed_names (automata_in automata.now))) (λ other. IsFirstOver headers.now tracks.now (listed_names (automata_in automata.now)) other.now.name) }
{
    for other in automata {
        if !are_same(headers.automaton_tracks(&other.name), tracks) {
            return Some(other);
        }
    }
    None
}

/// Whether two lists have the same names.
fn are_same(names: &[Name], others: &[Name]) -> bool
    ensures { IsTrue result ↔ (names.now ≡ others.now) }
{
    if names.len() != others.len() {
        return false;
    }
    for (place, name) in names.iter().enumerate() {
        if !is_same(name, &others[place]) {
            return false;
        }
    }
    true
}

/// The systems of the tracks of the first of these automata.
fn first_tracks<'a>(headers: &'a Headers, automata: &[ValuedName]) -> &'a [Name]
    ensures { result.now ≡ first_names headers.now (listed_names (automata_in automata.now)) }
{
    match automata {
        [first, ..] => headers.automaton_tracks(&first.name),
        [] => &[],
    }
}

/// Whether two names are the same.
fn is_same(name: &Name, other: &Name) -> bool
    ensures { IsTrue result ↔ (name.now ≡ other.now) }
{
    name.as_bytes() == other.as_bytes()
}

/// The word that automata make which have one shape. Their tables are read first.
fn combined_word(
    alloc: Global,
    read: &ListedAutomata,
    names: &Names,
    kept: &mut KeptTables,
    steps: &mut Steps,
) -> Result<Word, Fault>
    requires { IsPossible read.now names.now }
    ensures { (custom : Custom) → AreListedNames read.now custom names.now → MakesWord steps.old custom names.now.systems read.now result steps.new }
{
    names.systems.are_sealed();
    let tables = &read.mentioned.tables;
    let library = read_tables(alloc, tables, &names.systems, kept, steps)?;
    let parts = parts_of(alloc, &library, &read.automata)?;
    let word = word_of(alloc, &parts, steps)?;
    Ok(word)
}

/// The relations of listed automata, each with its value.
fn parts_of(
    alloc: Global,
    library: &Library,
    automata: &[ValuedName],
) -> Result<Vec<Part>, OutOfMemory>
    requires named { HasRelations library.now.relations (automata_in automata.now) }
    requires few { length automata.now < 2 ^ 31 }
    ensures { IfOk result (λ parts. ArePartsFrom library.now.relations 0 (automata_in automata.now) parts.items) }
{
    let mut parts = Vec::new(alloc);
    for (place, valued) in automata.iter().enumerate() {
        if let Some(relation) = library.relation(&valued.name) {
            parts.push(Part::new(relation.clone()?, valued.value_at(place)))?;
        }
    }
    Ok(parts)
}

/// The word that relations over the same systems make.
fn word_of(alloc: Global, parts: &[Part], steps: &mut Steps) -> Result<Word, StepFault>
    requires some { parts.now ≢ [] }
    requires shape { HaveOneTracks parts.now }
    ensures { MatchResult result (λ word. DoesCombine (Some (pos 0)) parts.now (systems_at parts.now 0) steps.old (Ok word) steps.new) (λ fault. DoesCombine (Some (pos 0)) parts.now (systems_at parts.now 0) steps.old (Err (Step fault)) steps.new) }
{
    match combine(alloc, parts, parts[0].relation().systems(), Some(0), steps) {
        Ok(word) => Ok(word),
        Err(CombineFault::Step(fault)) => Err(fault),
        Err(CombineFault::Shape(_, _)) => unreachable!(),
    }
}

/// A `combine` has at most one proper outcome. The call does nothing.
pub fn one_outcome()
    ensures { CombineHasOneOutcome }
{}

//! The commands `test` and `inf`: words that an automaton lists, and whether there are infinitely many. Nothing is stored.

ghost use Rattle.std.specs.Prelude.{◌≡◌, ◌++◌, None, map, IfOk, OnOk, MatchResult};
ghost use Rattle.std.specs.Rc.{rc_value};
ghost use Rattle.dfa_reading.specs.HeaderViews.{header_view};
ghost use Rattle.dfa_reading.specs.Headers.{Sets as SetsOf};
ghost use Rattle.definitions.specs.Texts.{Stores};
ghost use Rattle.definitions.specs.Trees.{Ledger, custom_of};
ghost use Rattle.language_steps.specs.LanguageSteps.{DoesPlainTable};
ghost use Rattle.language_steps.specs.Operands.{IsPlainTable};
ghost use Rattle.system_files.specs.SystemFiles.{Custom};
ghost use Rattle.table_listings.specs.Questions.{IsAskedOn};
ghost use Rattle.listing_commands.specs.ListingMakes.{AnswersBelow, AnswersBy, AnswersOver, AnswersUnder, AreListingNames, CanBeListed, HasTracks, HaveHeader, PrintsAfterSystems, PrintsAfterTables, IsPlaceFault, IsReadListing, answer_text, reply_of, sets_below};
ghost use Rattle.listing_commands.specs.ListingOutcomes.{TestHasOneOutcome, InfHasOneOutcome, after_listing_head, inf_checks, listing_mentions, reply_text, test_checks};
ghost use Rattle.command_parts.specs.FileChanges.{PrintsChecked};
ghost use Rattle.command_parts.specs.StoreReads.{FromFiles, FromTexts};
ghost use Rattle.command_parts.specs.TableReading.{IsReadable};

use crate::listing_fault::ListingFault;
use command_head::{TestParts, name_after, test_parts};
use command_parts::fault::Fault;
use command_parts::kept::Kept;
use command_parts::mentioned_tables::{MentionedTables, SealedNames, load_mentioned, names_of};
use command_parts::named_tracks::tracks_of;
use command_parts::printed::Printed;
use command_parts::step_options::StepOptions;
use command_parts::table_reading::tracks_under;
use dfa_loading::Loaded;
use dfa_reading::{FileHeader, SystemName};
use digit_tuple::faults::OutOfMemory;
use digit_tuple::name::Name;
use digit_tuple::sets::Sets;
use digit_tuple::steps::Steps;
use formula_resolve::Mention;
use kept_tables::KeptTables;
use language_steps::read_language;
use named_systems::NamedSystems;
use num_system::system::System;
use num_system::tracks::direction_of;
use std::alloc::Global;
use std::rc::Rc;
use table_listings::{Answer, Question, WordsAfter, answer, is_asked_on};
use wal_outside::Store;

/// A question about the words that the automaton of a name lists.
#[derive(Drop)]
struct Asked {
    /// The name.
    name: Name,
    /// The question.
    question: Question,
}

/// Such a question, and the table of the automaton's file.
#[derive(Drop)]
struct ReadListing {
    /// The question.
    asked: Asked,
    /// The table alone.
    mentioned: MentionedTables,
}

/// A question, and the table about whose words it asks.
#[derive(Clone, Copy)]
struct AskedTable<'a> {
    /// The question.
    asked: &'a Asked,
    /// The table.
    table: &'a Loaded,
}

/// What a `test` prints, or the first of its checks that refuses it: the shape of its head, and the checks of its question. Nothing is
/// stored, and no text is changed.
pub fn say_test<T: Store>(
    alloc: Global,
    options: StepOptions,
    text: &[u8],
    kept: &mut Kept,
    store: &mut T,
) -> Result<Printed, Fault>
    ensures { FromFiles (λ found printed. (ledger : Ledger) → Stores ledger found → PrintsChecked (test_checks options.limit ledger text.now) options.shown printed) (T.view store.old) result (T.view store.new) }
{
    let head = test_parts(alloc, text)?;
    let TestParts { name, count, place } = head;
    let question = Question::Words(WordsAfter { place, count });
    said(alloc, options, Asked { name, question }, kept, store)
}

/// What an `inf` prints, or the first of its checks that refuses it. Nothing is stored, and no text is changed.
pub fn say_inf<T: Store>(
    alloc: Global,
    options: StepOptions,
    text: &[u8],
    kept: &mut Kept,
    store: &mut T,
) -> Result<Printed, Fault>
    ensures { FromFiles (λ found printed. (ledger : Ledger) → Stores ledger found → PrintsChecked (inf_checks options.limit ledger text.now) options.shown printed) (T.view store.old) result (T.view store.new) }
{
    let name = name_after(alloc, b"inf", text)?;
    let question = Question::Infinity;
    said(alloc, options, Asked { name, question }, kept, store)
}

/// What is printed of the answer to a question, or the first check that refuses the command: the file of the automaton, its systems, that
/// the place is a word over its tracks, the steps that read its table, and the length of the lines. The file is read once, and no
/// text is changed. Built-in systems that it names first are sealed and kept.
fn said<T: Store>(
    alloc: Global,
    options: StepOptions,
    asked: Asked,
    kept: &mut Kept,
    store: &mut T,
) -> Result<Printed, Fault>
    ensures { FromFiles (λ found printed. (ledger : Ledger) → Stores ledger found → PrintsChecked (after_listing_head options.limit ledger asked.name asked.question) options.shown printed) (T.view store.old) result (T.view store.new) }
{
    let mentions = mentions_of(alloc, &asked.name)?;
    let mentioned = load_mentioned(alloc, mentions, store)?;
    said_of_tables(
        alloc,
        options,
        &ReadListing { asked, mentioned },
        kept,
        store,
    )
}

/// The automaton is mentioned as one that is called.
fn mentions_of(alloc: Global, name: &Name) -> Result<Vec<Mention>, OutOfMemory>
    ensures { IfOk result (λ mentioned. mentioned.items ≡ listing_mentions name.now) }
{
    let mut mentioned = Vec::new(alloc);
    mentioned.push(Mention::Called(name.copy(alloc)?, 0))?;
    Ok(mentioned)
}

/// What is printed where the file is loaded. Users' systems of its tracks are read and admitted first.
fn said_of_tables<T: Store>(
    alloc: Global,
    options: StepOptions,
    read: &ReadListing,
    kept: &mut Kept,
    store: &mut T,
) -> Result<Printed, Fault>
    requires { IsReadListing read.now }
    ensures { FromTexts (PrintsAfterTables options read.now) (T.view store.old) result (T.view store.new) }
{
    let named = names_of(alloc, options.limit, &read.mentioned, kept, store)?;
    said_over(alloc, options.shown, read, named, &mut kept.tables)
}

/// What is printed where the systems are sealed, each under its name.
fn said_over(
    alloc: Global,
    shown: bool,
    read: &ReadListing,
    named: SealedNames,
    kept: &mut KeptTables,
) -> Result<Printed, Fault>
    requires read { IsReadListing read.now }
    requires named { (custom : Custom) × AreListingNames read.now custom named.names }
    ensures { (custom : Custom) → AreListingNames read.now custom named.names → PrintsAfterSystems named.steps shown read.now custom result }
{
    let SealedNames { names, mut steps } = named;
    names.systems.are_sealed();
    let about = AskedTable {
        asked: &read.asked,
        table: &read.mentioned.tables[0],
    };
    let answer = answered(alloc, about, &names.systems, kept, &mut steps)?;
    Ok(printed_answer(alloc, &steps, shown, &answer)?)
}

/// The lines of the steps, where they are shown, and the answer.
fn printed_answer(
    alloc: Global,
    steps: &Steps,
    shown: bool,
    answer: &Answer,
) -> Result<Printed, OutOfMemory>
    ensures { IfOk result (λ printed. printed ≡ answer_text shown steps.now.lines answer.now) }
{
    let mut printed = Printed::of_steps(alloc, steps, shown)?;
    push_answer(&mut printed, answer)?;
    Ok(printed)
}

/// Adds an answer: lines of words, or the line of a verdict.
fn push_answer(printed: &mut Printed, answer: &Answer) -> Result<(), OutOfMemory>
    ensures { OnOk result (printed.new ≡ printed.old ++ reply_text (reply_of answer.now)) }
{
    match answer {
        Answer::Lines(lines) => printed.push_lines(lines),
        Answer::Verdict(infinite) => printed.push_verdict(Some(*infinite)),
    }
}

/// The answer about the words of a table, which is read by the next steps.
fn answered(
    alloc: Global,
    about: AskedTable<'_>,
    systems: &NamedSystems,
    kept: &mut KeptTables,
    steps: &mut Steps,
) -> Result<Answer, ListingFault>
    requires { CanBeListed systems.now about.table.now }
    ensures { AnswersBelow about.entry.table.now.listed.header systems.now steps.old about.entry.table.now about.entry.asked.now.name about.entry.asked.now.question result steps.new }
{
    match about.table.listed.header() {
        FileHeader::Sets(sets) => answered_over_sets(alloc, about, sets, steps),
        FileHeader::Systems(_) => answered_under(alloc, about, systems, kept, steps),
        FileHeader::Truth(_) => answered_under(alloc, about, systems, kept, steps),
    }
}

/// The answer about the words of a table over the systems that are under the names of its header.
fn answered_under(
    alloc: Global,
    about: AskedTable<'_>,
    systems: &NamedSystems,
    kept: &mut KeptTables,
    steps: &mut Steps,
) -> Result<Answer, ListingFault>
    requires table { CanBeListed systems.now about.table.now }
    requires readable { IsReadable systems.now about.table.now }
    ensures { AnswersUnder systems.now steps.old about.entry.table.now about.entry.asked.now.name about.entry.asked.now.question result steps.new }
{
    let tracks = tracks_under(alloc, about.table.listed.header(), systems)?;
    answered_over(alloc, about, &tracks, kept, steps)
}

/// The answer about the words of a table over sets.
fn answered_over_sets(
    alloc: Global,
    about: AskedTable<'_>,
    sets: &Sets,
    steps: &mut Steps,
) -> Result<Answer, ListingFault>
    requires header { about.table.now.listed.header ≡ SetsOf sets.now }
    requires table { IsPlainTable about.table.now }
    ensures { AnswersBy (λ read. DoesPlainTable about.entry.table.now.listed steps.old read steps.new) None sets.now about.entry.asked.now.name about.entry.asked.now.question result }
{
    let AskedTable { asked, table } = about;
    refuse_place(alloc, asked, sets)?;
    let language = read_language(alloc, &table.listed, steps)?;
    Ok(answer(alloc, &language, sets, None, &asked.question)?)
}

/// The answer about the words of a table over these systems.
fn answered_over(
    alloc: Global,
    about: AskedTable<'_>,
    tracks: &[Rc<System>],
    kept: &mut KeptTables,
    steps: &mut Steps,
) -> Result<Answer, ListingFault>
    requires { HasTracks about.table.now (map rc_value tracks.now) }
    ensures { AnswersOver steps.old about.entry.table.now (map rc_value tracks.now) about.entry.asked.now.name about.entry.asked.now.question result steps.new }
{
    let AskedTable { asked, table } = about;
    let sets = track_sets(alloc, table.listed.header(), tracks)?;
    refuse_place(alloc, asked, &sets)?;
    let relation = kept.relation(alloc, table, tracks, steps)?;
    let reply = answer(
        alloc,
        relation.as_ref().dfa(),
        &sets,
        Some(direction_of(tracks)),
        &asked.question,
    )?;
    Ok(reply)
}

/// Refuses a place that is no word over tracks with these digits.
fn refuse_place(alloc: Global, asked: &Asked, sets: &Sets) -> Result<(), ListingFault>
    ensures { MatchResult result (λ _. IsAskedOn sets.now asked.now.question) (IsPlaceFault sets.now asked.now) }
{
    if is_asked_on(sets, &asked.question) {
        Ok(())
    } else {
        Err(ListingFault::Place(asked.name.copy(alloc)?))
    }
}

/// The digits of the tracks of a header over these systems, one for each name.
fn track_sets(
    alloc: Global,
    header: &FileHeader,
    systems: &[Rc<System>],
) -> Result<Sets, OutOfMemory>
    requires { HaveHeader (header_view header.now) (map rc_value systems.now) }
    ensures { IfOk result (λ sets. sets ≡ sets_below (header_view header.now) (map rc_value systems.now)) }
{
    match header {
        FileHeader::Systems(names) => {
            let names = names_in(alloc, names)?;
            let tracks = tracks_of(alloc, &names, systems)?;
            tracks.digit_sets(alloc)
        }
        FileHeader::Truth(_) => Ok(Sets::new(alloc)),
        FileHeader::Sets(_) => unreachable!(),
    }
}

/// The names of systems, in memory of their own.
fn names_in(alloc: Global, names: &[SystemName]) -> Result<Vec<Name>, OutOfMemory>
    ensures { IfOk result (λ copies. copies.items ≡ names.now) }
{
    let mut copies = Vec::new(alloc);
    for name in names {
        copies.push(name.name().copy(alloc)?)?;
    }
    Ok(copies)
}

/// A `test` has at most one proper outcome, and so has an `inf`. The call does nothing.
pub fn one_outcome()
    ensures test { TestHasOneOutcome }
    ensures inf { InfHasOneOutcome }
{}

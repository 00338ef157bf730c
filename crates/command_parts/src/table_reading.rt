//! The relations and the words of loaded tables.

ghost use Rattle.std.specs.Prelude.{◌≡◌, ℕ, List, map, IfOk, IfErr};
ghost use Rattle.std.specs.Rc.{rc_value};
ghost use Rattle.dfa_reading.specs.HeaderViews.{header_view};
ghost use Rattle.formula_resolve.specs.declared.file.File.TheVariants as files;
ghost use Rattle.num_system.specs.Sealed.{SystemValue};
ghost use Rattle.command_parts.specs.TableReads.{AreSystemsUnder};
ghost use Rattle.command_parts.specs.TableReading.{IsReadable, AreReadable, AddsTable, IsReadRelation, IsReadWord, IsTableFault, ReadsTables};

use dfa_loading::Loaded;
use dfa_reading::FileHeader;
use digit_tuple::faults::OutOfMemory;
use digit_tuple::step_fault::StepFault;
use digit_tuple::steps::Steps;
use formula_resolve::File;
use kept_tables::KeptTables;
use named_systems::NamedSystems;
use num_system::system::System;
use number_relations::relation::Relation;
use plan_relations::Library;
use std::alloc::Global;
use std::rc::Rc;
use word_output::word::Word;

/// What the table of each file makes, under the name of the file: an automaton's a relation, and a word's a word. It is made by
/// the table's steps, one table after another, or was made so before and kept. No table is over sets, and the systems of each are
/// under their names.
///
/// # Errors
/// `Letters` and `States` exactly at the first step that passes a limit, with its number.
pub fn read_tables(
    alloc: Global,
    tables: &[Loaded],
    systems: &NamedSystems,
    kept: &mut KeptTables,
    steps: &mut Steps,
) -> Result<Library, StepFault>
    requires { AreReadable systems.now tables.now }
    ensures { ReadsTables systems.now steps.old tables.now result steps.new }
{
    let mut library = Library::new(alloc);
    for table in tables {
        let over = TableOver { table, systems };
        add_table(alloc, over, kept, steps, &mut library)?;
    }
    Ok(library)
}

/// A table, and systems, those under the names of its header among them.
#[derive(Clone, Copy)]
struct TableOver<'a> {
    /// The table.
    table: &'a Loaded,
    /// The systems.
    systems: &'a NamedSystems,
}

/// Adds what a table makes.
fn add_table(
    alloc: Global,
    over: TableOver<'_>,
    kept: &mut KeptTables,
    steps: &mut Steps,
    library: &mut Library,
) -> Result<(), StepFault>
    requires { IsReadable over.systems.now over.table.now }
    ensures { AddsTable over.entry.systems.now steps.old over.entry.table.now library.old result library.new steps.new }
{
    match &over.table.file {
        File::Automaton(name) => {
            let relation = read_relation(alloc, over, kept, steps)?;
            library.add_relation(alloc, name, relation)?;
        }
        File::Word(name) => {
            let word = read_word(alloc, over, kept, steps)?;
            library.add_word(alloc, name, word)?;
        }
    }
    Ok(())
}

/// The relation of an automaton's table.
fn read_relation(
    alloc: Global,
    over: TableOver<'_>,
    kept: &mut KeptTables,
    steps: &mut Steps,
) -> Result<Rc<Relation>, StepFault>
    requires table { IsReadable over.systems.now over.table.now }
    requires automaton { (name : List ℕ) × (over.table.now.file ≡ files.Automaton name) }
    ensures made { IfOk result (λ r. IsReadRelation over.entry.systems.now steps.old over.entry.table.now r.value steps.new) }
    ensures refused { IfErr result (IsTableFault over.entry.systems.now steps.old over.entry.table.now) }
{
    let TableOver { table, systems } = over;
    let tracks = tracks_under(alloc, table.listed.header(), systems)?;
    kept.relation(alloc, table, &tracks, steps)
}

/// The word of a word's table.
fn read_word(
    alloc: Global,
    over: TableOver<'_>,
    kept: &mut KeptTables,
    steps: &mut Steps,
) -> Result<Rc<Word>, StepFault>
    requires table { IsReadable over.systems.now over.table.now }
    requires word { (name : List ℕ) × (over.table.now.file ≡ files.Word name) }
    ensures made { IfOk result (λ w. IsReadWord over.entry.systems.now steps.old over.entry.table.now w.value steps.new) }
    ensures refused { IfErr result (IsTableFault over.entry.systems.now steps.old over.entry.table.now) }
{
    let TableOver { table, systems } = over;
    let tracks = tracks_under(alloc, table.listed.header(), systems)?;
    kept.word(alloc, table, &tracks, steps)
}

/// The systems that are under the names of a header, none below `true` and `false`.
pub fn tracks_under(
    alloc: Global,
    header: &FileHeader,
    systems: &NamedSystems,
) -> Result<Vec<Rc<System>>, OutOfMemory>
    requires { (tracks : List SystemValue) × AreSystemsUnder systems.now (header_view header.now) tracks }
    ensures { IfOk result (λ tracks. AreSystemsUnder systems.now (header_view header.now) (map rc_value tracks.items)) }
{
    let mut tracks = Vec::new(alloc);
    let FileHeader::Systems(names) = header else {
        return Ok(tracks);
    };
    for name in names {
        if let Some(system) = systems.get(name.name()) {
            tracks.push(system.clone()?)?;
        }
    }
    Ok(tracks)
}

//! What loaded files are over.

ghost use Rattle.std.specs.Prelude.{◌≡◌, IfOk, OnOk};
ghost use Rattle.dfa_reading.specs.HeaderViews.{header_view};
ghost use Rattle.dfa_loading.specs.Headers.{headers_of as headers_in, with_header, with_word_header};

use crate::loaded::Loaded;
use dfa_reading::{FileHeader, SystemName};
use digit_tuple::faults::OutOfMemory;
use digit_tuple::name::Name;
use formula_resolve::{File, Headers};
use std::alloc::Global;

/// What the tables are over, by the names of their files, as the resolution of a formula takes it: automata over systems, over
/// none below `true` and `false`, or over sets; and words over systems.
pub fn headers_of(alloc: Global, tables: &[Loaded]) -> Result<Headers, OutOfMemory>
    ensures { IfOk result (λ headers. headers ≡ headers_in tables.now) }
{
    let mut headers = Headers::new(alloc);
    for table in tables {
        let header = table.listed.header();
        match &table.file {
            File::Automaton(name) => add_automaton(alloc, &mut headers, name, header)?,
            File::Word(name) => add_word(alloc, &mut headers, name, header)?,
        }
    }
    Ok(headers)
}

/// Adds an automaton over the tracks of a header.
fn add_automaton(
    alloc: Global,
    headers: &mut Headers,
    name: &Name,
    header: &FileHeader,
) -> Result<(), OutOfMemory>
    ensures { OnOk result (headers.new ≡ with_header headers.old name.now (header_view header.now)) }
{
    match header {
        FileHeader::Truth(_) => headers.add_automaton(name, &[]),
        FileHeader::Systems(systems) => {
            let names = names_of(alloc, systems)?;
            headers.add_automaton(name, &names)
        }
        FileHeader::Sets(_) => headers.add_plain(name),
    }
}

/// Adds a word over the systems of a header.
fn add_word(
    alloc: Global,
    headers: &mut Headers,
    name: &Name,
    header: &FileHeader,
) -> Result<(), OutOfMemory>
    ensures { OnOk result (headers.new ≡ with_word_header headers.old name.now (header_view header.now)) }
{
    let FileHeader::Systems(systems) = header else {
        return headers.add_word(name, &[]);
    };
    let names = names_of(alloc, systems)?;
    headers.add_word(name, &names)
}

/// The names of systems.
fn names_of(alloc: Global, systems: &[SystemName]) -> Result<Vec<Name>, OutOfMemory>
    ensures { IfOk result (λ names. names.items ≡ systems.now) }
{
    let mut names = Vec::with_capacity(alloc, systems.len())?;
    for system in systems {
        names.push(system.name().copy(alloc)?)?;
    }
    Ok(names)
}

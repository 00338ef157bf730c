//! The transitions of one state, kept so that those that share a tuple with a further one are found. Two share a tuple where their
//! digits are the same on each track on which neither has `*`. So there is a table for each set of tracks on which one of them has
//! `*`, and a further one is looked up in the table of its own set, with its digits on the tracks where those of each set have
//! digits. The time for one is that of a look-up and an insertion by hash for each of these sets, and for the first one of a set
//! that of an insertion for each transition.

ghost use Rattle.std.specs.Prelude.{◌≡◌, ◌<◌, ◌∷◌, [], ◌++◌, true, length, map, position, slice_index_or, IfOk, OnOk, IsTrue};
ghost use Rattle.std.specs.List.{list_any};
ghost use Rattle.dfa_reading.specs.StarTables.{masked as masked_by, same_stars, targets_at, differs_from, with_target, no_table};
ghost use Rattle.dfa_reading.specs.Transitions.{agrees, agree_all, to_each, IsTableOf, AreIndexed, IsOwnTable, transitions_in};

use crate::star_table::{StarTable, has_stars, masked};
use digit_tuple::faults::OutOfMemory;
use std::alloc::Global;

/// A transition: its digits, where None is `*`, and the number of its target.
#[derive(Drop)]
pub struct Transition {
    pub digits: Vec<Option<u32>>,
    pub target: u32,
}

/// Transitions of a state, of which no two that share a tuple have different targets.
#[derive(Drop)]
pub struct Transitions {
    pub list: Vec<Transition>,
    pub tables: Vec<StarTable>,
}

impl Transitions {
    /// No transitions.
    pub fn new(alloc: Global) -> Self
        ensures list { result.list.items ≡ [] }
        ensures tables { result.tables.items ≡ [] }
    {
        Transitions {
            list: Vec::new(alloc),
            tables: Vec::new(alloc),
        }
    }

    /// Adds a transition by the digits to each target, and says whether no two that share a tuple have different targets. Where
    /// two have, the transitions are not to be used again.
    pub fn add_all(
        &mut self,
        alloc: Global,
        digits: &[Option<u32>],
        targets: &[u32],
    ) -> Result<bool, OutOfMemory>
        requires { AreIndexed (transitions_in self.old.list.items) self.old.tables.items }
        ensures agree { IfOk result (λ added. added ≡ agree_all (transitions_in self.old.list.items) digits.now targets.now) }
        ensures list { IfOk result (λ added. IsTrue added → transitions_in self.new.list.items ≡ transitions_in self.old.list.items ++ to_each digits.now targets.now) }
        ensures indexed { IfOk result (λ added. IsTrue added → AreIndexed (transitions_in self.new.list.items) self.new.tables.items) }
    {
        for target in targets {
            if !self.add(alloc, digits, *target)? {
                return Ok(false);
            }
        }
        Ok(true)
    }

    // Adds a transition, unless it shares a tuple with one that has another target.
    fn add(
        &mut self,
        alloc: Global,
        digits: &[Option<u32>],
        target: u32,
    ) -> Result<bool, OutOfMemory>
        requires { AreIndexed (transitions_in self.old.list.items) self.old.tables.items }
        ensures agrees { IfOk result (λ added. added ≡ agrees (transitions_in self.old.list.items) digits.now target) }
        ensures list { IfOk result (λ added. IsTrue added → transitions_in self.new.list.items ≡ transitions_in self.old.list.items ++ (digits.now, target) ∷ []) }
        ensures indexed { IfOk result (λ added. IsTrue added → AreIndexed (transitions_in self.new.list.items) self.new.tables.items) }
    {
        let own = self.own_table(alloc, digits)?;
        if leads_elsewhere(alloc, &self.tables, own, digits, target)? {
            return Ok(false);
        }
        add_to_tables(alloc, &mut self.tables, digits, target)?;
        self.list.push(Transition {
            digits: Vec::from_slice(alloc, digits)?,
            target,
        })?;
        Ok(true)
    }

    // The place of the table for digits with these stars, a new one if there was none.
    fn own_table(&mut self, alloc: Global, digits: &[Option<u32>]) -> Result<usize, OutOfMemory>
        requires { AreIndexed (transitions_in self.old.list.items) self.old.tables.items }
        ensures list { OnOk result (self.new.list.items ≡ self.old.list.items) }
        ensures indexed { OnOk result (AreIndexed (transitions_in self.new.list.items) self.new.tables.items) }
        ensures own { IfOk result (λ own. IsOwnTable digits.now self.new.tables.items own) }
    {
        if let Some(place) = place_of(&self.tables, digits) {
            return Ok(place);
        }
        let table = table_of(alloc, digits, &self.list)?;
        let place = self.tables.len();
        self.tables.push(table)?;
        Ok(place)
    }
}

// The place of the first table for digits with these stars.
fn place_of(tables: &[StarTable], digits: &[Option<u32>]) -> Option<usize>
    ensures { result ≡ position (λ table. same_stars digits.now table.pattern) tables.now }
{
    tables
        .iter()
        .position(|table| has_stars(digits, table.pattern()))
}

// The table of these transitions for digits with these stars.
fn table_of(
    alloc: Global,
    digits: &[Option<u32>],
    list: &[Transition],
) -> Result<StarTable, OutOfMemory>
    ensures pattern { IfOk result (λ table. table.pattern ≡ digits.now) }
    ensures table { IfOk result (λ table. IsTableOf (transitions_in list.now) table) }
{
    let mut table = StarTable::new(alloc, Vec::from_slice(alloc, digits)?);
    for transition in list {
        let key = masked(alloc, &transition.digits, digits)?;
        table.add(key, transition.target)?;
    }
    Ok(table)
}

// Whether by the table of its own stars a transition shares a tuple with one that has another target.
fn leads_elsewhere(
    alloc: Global,
    tables: &[StarTable],
    own: usize,
    digits: &[Option<u32>],
    target: u32,
) -> Result<bool, OutOfMemory>
    requires { own < length tables.now }
    ensures { IfOk result (λ elsewhere. elsewhere ≡ list_any (λ table. differs_from (targets_at (slice_index_or tables.now own no_table).entries (masked_by digits.now table.pattern)) target) tables.now) }
{
    for table in tables {
        let key = masked(alloc, digits, table.pattern())?;
        if tables[own].differs(&key, target) {
            return Ok(true);
        }
    }
    Ok(false)
}

// Adds a transition to each table.
fn add_to_tables(
    alloc: Global,
    tables: &mut Vec<StarTable>,
    digits: &[Option<u32>],
    target: u32,
) -> Result<(), OutOfMemory>
    ensures { OnOk result (tables.new.items ≡ map (λ table. with_target table (masked_by digits.now table.pattern) target) tables.old.items) }
{
    for place in 0..tables.len() {
        let key = masked(alloc, digits, tables[place].pattern())?;
        tables[place].add(key, target)?;
    }
    Ok(())
}

//! Relations with their tracks in byte order of names.

ghost use Rattle.std.specs.Prelude.{IfOk, IsTrue};
ghost use Rattle.std.specs.List.{AllPairs};
ghost use Rattle.digit_tuple.specs.Names.{IsBytesBefore};
ghost use Rattle.number_relations.specs.Placed.{IsOrdered};

use digit_tuple::faults::OutOfMemory;
use digit_tuple::name::Name;
use number_relations::relation::Relation;
use std::alloc::Global;
use std::cmp::Ordering;

/// The relation with its tracks in byte order of their names: itself where they are so, with no copy of its table.
pub(crate) fn in_order(alloc: Global, relation: Relation) -> Result<Relation, OutOfMemory>
    ensures { IfOk result (IsOrdered relation) }
{
    if are_ascending(relation.names()) {
        return Ok(relation);
    }
    relation.ordered(alloc)
}

/// Whether each name comes before the next.
fn are_ascending(names: &[Name]) -> bool
    ensures { IsTrue result → AllPairs IsBytesBefore names.now }
{
    for place in 1..names.len() {
        match names[place - 1].as_bytes().cmp(names[place].as_bytes()) {
            Ordering::Less => {}
            Ordering::Equal | Ordering::Greater => return false,
        }
    }
    true
}

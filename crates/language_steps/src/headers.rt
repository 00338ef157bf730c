//! The headers of tables.

ghost use Rattle.std.specs.Prelude.{◌≡◌, ◌≢◌, ◌↔◌, ℤ, List, [], None, Some, IsTrue, MatchOption};
ghost use Rattle.std.specs.List.{AllByRecursion};
ghost use Rattle.dfa_reading.specs.HeaderViews.{header_view};
ghost use Rattle.dfa_reading.specs.Headers.{Sets as OverSets};
ghost use Rattle.language_steps.specs.Tables.{first_not_plain as not_plain_of, is_over_sets, AreOverSets, AreUnlike, IsFirstUnlike, IsOverSets, table_name};

use dfa_loading::Loaded;
use dfa_reading::FileHeader;
use digit_tuple::letter_set::LetterSet;
use digit_tuple::name::Name;
use digit_tuple::sets::Sets;

/// The name of the first table that is not over sets. Below `true` and `false` a table is not. It takes no memory.
pub fn first_not_plain(tables: &[Loaded]) -> Option<&Name>
    ensures { MatchOption result (not_plain_of tables.now ≡ None) (λ name. not_plain_of tables.now ≡ Some name.now) }
{
    for table in tables {
        if !is_plain(table.listed.header()) {
            return Some(table.name());
        }
    }
    None
}

// Whether a header is of sets.
fn is_plain(header: &FileHeader) -> bool
    ensures { result ≡ is_over_sets (header_view header.now) }
{
    match header {
        FileHeader::Truth(_) => false,
        FileHeader::Systems(_) => false,
        FileHeader::Sets(_) => true,
    }
}

/// The names of the first of some tables over sets and of the first later one that is over other sets. The time is in
/// proportion to the members of all sets. It takes no memory.
pub fn first_unlike(tables: &[Loaded]) -> Option<(&Name, &Name)>
    requires some { tables.now ≢ [] }
    requires plain { not_plain_of tables.now ≡ None }
    ensures { MatchOption result ((sets : List (List ℤ)) × AreOverSets sets tables.now) (λ names. AreUnlike tables.now (names.0.now, names.1.now)) }
{
    let [first, others @ ..] = tables else {
        unreachable!()
    };
    let FileHeader::Sets(sets) = first.listed.header() else {
        unreachable!()
    };
    match first_other(sets, others) {
        Some(other) => Some((first.name(), other.name())),
        None => None,
    }
}

// The first of some tables that is not over these sets.
fn first_other<'a>(sets: &Sets, tables: &'a [Loaded]) -> Option<&'a Loaded>
    ensures { MatchOption result (AllByRecursion (IsOverSets sets.now) tables.now) (λ other. IsFirstUnlike (OverSets sets.now) tables.now (table_name other.now)) }
{
    for table in tables {
        if !is_over(sets, table.listed.header()) {
            return Some(table);
        }
    }
    None
}

// Whether a header is of these sets.
fn is_over(sets: &Sets, header: &FileHeader) -> bool
    ensures { IsTrue result ↔ (header_view header.now ≡ OverSets sets.now) }
{
    match header {
        FileHeader::Sets(others) => are_same(sets.as_slice(), others.as_slice()),
        FileHeader::Truth(_) | FileHeader::Systems(_) => false,
    }
}

// Whether two lists have the same sets.
fn are_same(sets: &[LetterSet], others: &[LetterSet]) -> bool
    ensures { IsTrue result ↔ (sets.now ≡ others.now) }
{
    if sets.len() != others.len() {
        return false;
    }
    for (place, set) in sets.iter().enumerate() {
        if !is_same(set, &others[place]) {
            return false;
        }
    }
    true
}

// Whether two sets have the same members.
fn is_same(set: &LetterSet, other: &LetterSet) -> bool
    ensures { IsTrue result ↔ (set.now ≡ other.now) }
{
    set.members() == other.members()
}

/// The sets of tables that are all over the same sets.
pub fn first_sets(tables: &[Loaded]) -> &Sets
    requires { (sets : List (List ℤ)) × AreOverSets sets tables.now }
    ensures { AreOverSets result.now tables.now }
{
    let [first, ..] = tables else { unreachable!() };
    let FileHeader::Sets(sets) = first.listed.header() else {
        unreachable!()
    };
    sets
}

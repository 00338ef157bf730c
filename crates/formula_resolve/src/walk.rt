//! One walk through a formula: the occurrences of its variables, and the first place where two
//! directions meet.

ghost use Rattle.std.specs.Prelude.{◌≡◌, ◌≤◌, ◌+◌, map, drop, length, IfOk, OnOk};
ghost use Rattle.std.specs.Option.{option_or};
ghost use Rattle.formula_parse.specs.Trees.{atom as atom_of};
ghost use Rattle.formula_parse.specs.Views.{formula_view, atom_view, names_view};
ghost use Rattle.formula_resolve.specs.Occurrences.{free_of, bound_by};
ghost use Rattle.formula_resolve.specs.Scopes.{binders_of};
ghost use Rattle.formula_resolve.specs.Meetings.{IsMet};
ghost use Rattle.formula_resolve.specs.Walks.{Walked};

use crate::direction::{Conflict, fact_conflict};
use crate::headers::Headers;
use crate::meeting::Meeting;
use crate::occurrence::{Occurrence, add_atom};
use crate::scope::Scope;
use digit_tuple::faults::OutOfMemory;
use digit_tuple::name::Name;
use formula_parse::tree::{Atom, Formula};
use std::alloc::Global;

/// What was met so far.
#[derive(Drop)]
pub(crate) struct Walk {
    pub scope: Scope,
    /// The number of the next quantifier.
    pub next: u64,
    pub occurrences: Vec<Occurrence>,
    pub conflict: Option<Conflict>,
}

/// Where a part of a formula begins.
#[derive(Clone, Copy)]
struct Start {
    len: usize,
    next: u64,
}

impl Walk {
    /// Where the part begins that comes next.
    fn start(&self) -> Start
        ensures len { result.len ≡ length self.now.occurrences.items }
        ensures next { result.next ≡ self.now.next }
    {
        Start {
            len: self.occurrences.len(),
            next: self.next,
        }
    }

    /// What is met in the part that began there.
    fn met(&self, alloc: Global, start: Start, meeting: Meeting) -> Result<Meeting, OutOfMemory>
        requires { start.len ≤ length self.now.occurrences.items }
        ensures { IfOk result (λ m. IsMet meeting (free_of start.next (drop start.len self.now.occurrences.items)) m) }
    {
        meeting.met(alloc, &self.occurrences[start.len..], start.next)
    }

    /// The next quantifier binds these variables; what bound them outside.
    fn enter(&mut self, alloc: Global, names: &[Name]) -> Result<Vec<u64>, OutOfMemory>
        ensures outside { IfOk result (λ outside. outside.items ≡ map (binders_of self.old.scope) names.now) }
        ensures scope { OnOk result (binders_of self.new.scope ≡ bound_by self.old.next (names_view names.now) (binders_of self.old.scope)) }
        ensures next { OnOk result (self.new.next ≡ self.old.next + 1) }
        ensures occurrences { OnOk result (self.new.occurrences ≡ self.old.occurrences) }
        ensures conflict { OnOk result (self.new.conflict ≡ self.old.conflict) }
    {
        let outside = self.scope.binders(alloc, names)?;
        let number = self.next;
        let Some(next) = number.checked_add(1) else {
            return Err(OutOfMemory);
        };
        self.next = next;
        self.scope.bind_all(names, number)?;
        Ok(outside)
    }

    /// Keeps a conflict, unless there was one before.
    fn keep(&mut self, conflict: Option<Conflict>)
        ensures scope { self.new.scope ≡ self.old.scope }
        ensures next { self.new.next ≡ self.old.next }
        ensures occurrences { self.new.occurrences ≡ self.old.occurrences }
        ensures conflict { self.new.conflict ≡ option_or self.old.conflict conflict }
    {
        if self.conflict.is_none() {
            self.conflict = conflict;
        }
    }
}

/// Walks through an atom.
fn walk_atom(
    alloc: Global,
    atom: &Atom,
    headers: &Headers,
    walk: &mut Walk,
) -> Result<(), OutOfMemory>
    ensures { OnOk result (Walked headers.now (atom_of (atom_view atom.now)) walk.old walk.new) }
{
    add_atom(alloc, atom, headers, &walk.scope, &mut walk.occurrences)?;
    let conflict = fact_conflict(alloc, &atom.fact, headers)?;
    walk.keep(conflict);
    Ok(())
}

/// Walks through a formula.
pub(crate) fn walk_formula(
    alloc: Global,
    formula: &Formula,
    headers: &Headers,
    walk: &mut Walk,
) -> Result<(), OutOfMemory>
    ensures { OnOk result (Walked headers.now (formula_view formula.now) walk.old walk.new) }
{
    match formula {
        Formula::Atom(atom) => walk_atom(alloc, atom, headers, walk),
        Formula::Negated(inside) => walk_formula(alloc, inside, headers, walk),
        Formula::Chain(operands, last) => {
            let mut meeting = Meeting::new();
            for operand in operands {
                let start = walk.start();
                walk_formula(alloc, &operand.formula, headers, walk)?;
                meeting = walk.met(alloc, start, meeting)?;
            }
            let start = walk.start();
            walk_formula(alloc, last, headers, walk)?;
            let whole = walk.met(alloc, start, meeting)?;
            walk.keep(whole.conflict());
            Ok(())
        }
        Formula::Quantified(_, names, inside) => {
            let outside = walk.enter(alloc, names)?;
            walk_formula(alloc, inside, headers, walk)?;
            walk.scope.restore(names, &outside)
        }
        Formula::Marked(_, inside) => walk_formula(alloc, inside, headers, walk),
    }
}

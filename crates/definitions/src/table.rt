//! The relation of what a file lists.

ghost use Rattle.std.specs.Prelude.{◌≡◌, ◌<◌, length, map, IfOk, MatchResult};
ghost use Rattle.std.specs.Rc.{rc_value};
ghost use Rattle.digit_tuple.specs.Letters.{IsTooLarge};
ghost use Rattle.digit_tuple.specs.StepResults.{IsRefusedBy};
ghost use Rattle.numeration.specs.Representation.{sizes_of};
ghost use Rattle.num_system.specs.Tracks.{systems_of};
ghost use Rattle.definitions.specs.TableSteps.{IsTable, AreForTracks, IsTableOver, DoesTable};
ghost use Rattle.definitions.specs.TableLaws.{TablesHold, TablesHaveOneAnswer, FilesAreTables};

use dfa_reading::{FileHeader, Listed};
use digit_tuple::faults::OpFault;
use digit_tuple::nfa::Nfa;
use digit_tuple::step_fault::StepFault;
use digit_tuple::steps::Steps;
use num_system::system::System;
use num_system::tracks::digits_of;
use number_relations::reading::reading_steps;
use number_relations::relation::Relation;
use std::alloc::Global;
use std::rc::Rc;

/// The relation that holds of the numbers of which what is listed holds: of a table over systems by the steps `read`, `pad`
/// and `valid` as the next ones, over these systems, one for each track, in one direction; of `true` and `false` without a
/// step. Its tracks have their numbers as names, counted from 0. The widths and the costs are those of the steps, and those of
/// the branching automaton of the table.
///
/// # Errors
/// `Letters` with the number of the step `read` if and only if the tracks are too many or have too many letters, and
/// `States` exactly at the first step that passes the limit.
pub fn table_relation(
    alloc: Global,
    listed: &Listed,
    systems: &[Rc<System>],
    steps: &mut Steps,
) -> Result<Relation, StepFault>
    requires table { IsTable listed.now }
    requires systems { AreForTracks listed.now.header (map rc_value systems.now) }
    ensures { DoesTable (map rc_value systems.now) listed.now steps.old result steps.new }
{
    match listed.header() {
        FileHeader::Truth(holds) => Ok(Relation::truth(alloc, *holds)?),
        FileHeader::Systems(_) => {
            let branching = branching_of(alloc, listed, systems, steps)?;
            reading_steps(alloc, &branching, systems, steps)
        }
        FileHeader::Sets(_) => unreachable!(),
    }
}

// The branching automaton of a table over systems, for the next step.
fn branching_of(
    alloc: Global,
    listed: &Listed,
    systems: &[Rc<System>],
    steps: &Steps,
) -> Result<Nfa, StepFault>
    requires states { 0 < length listed.now.outputs }
    requires systems { AreForTracks listed.now.header (map rc_value systems.now) }
    ensures { MatchResult result (IsTableOver (map rc_value systems.now) listed.now) (IsRefusedBy steps.now (IsTooLarge (sizes_of (systems_of (map rc_value systems.now)))) ⊥) }
{
    let digits = digits_of(alloc, systems)?;
    match listed.nfa(alloc, &digits) {
        Ok(branching) => Ok(branching),
        Err(OpFault::Letters) => Err(StepFault::Letters(steps.next_number())),
        Err(OpFault::States) => unreachable!(),
        Err(OpFault::Memory) => Err(StepFault::Memory),
    }
}

/// The steps of a table make the relation that holds of the numbers of which the table does. It does nothing.
pub fn tables_hold()
    ensures { TablesHold }
{}

/// The steps of a table have one answer, unless memory runs out. It does nothing.
pub fn tables_have_one_answer()
    ensures { TablesHaveOneAnswer }
{}

/// What a file lists is a table. It does nothing.
pub fn files_are_tables()
    ensures { FilesAreTables }
{}

//! Relations read from what files list.

ghost use Rattle.std.specs.Prelude.{◌≡◌, map, IfOk};
ghost use Rattle.std.specs.Rc.{rc_value};
ghost use Rattle.numeration.specs.Representation.{sizes_of};
ghost use Rattle.num_system.specs.Tracks.{ShareDirection, systems_of};
ghost use Rattle.number_relations.specs.Readings.{DoesReading};

use crate::relation::Relation;
use automaton_steps::numbered::numbered;
use automaton_steps::pad_step::pad_step;
use automaton_steps::read_step::read_step;
use automaton_steps::valid_step::valid_step;
use digit_tuple::faults::OutOfMemory;
use digit_tuple::nfa::Nfa;
use digit_tuple::step_fault::StepFault;
use digit_tuple::steps::Steps;
use num_system::sealed::are_sealed;
use num_system::system::System;
use num_system::tracks::{direction_of, languages_of, shared};
use std::alloc::Global;
use std::rc::Rc;

/// The relation that holds of the numbers of which the listed automaton accepts some representation, by the steps
/// `read`, `pad` and `valid` as the next ones. There is a system for each of its tracks, with the track's number of
/// digits, and all have one direction. The tracks have their numbers as names, counted from 0. The widths and the costs
/// are those of the steps.
///
/// # Errors
/// `States` exactly at the first step that passes the limit.
pub fn reading_steps(
    alloc: Global,
    listed: &Nfa,
    systems: &[Rc<System>],
    steps: &mut Steps,
) -> Result<Relation, StepFault>
    requires sizes { listed.now.sizes ≡ sizes_of (systems_of (map rc_value systems.now)) }
    requires direction { ShareDirection (map rc_value systems.now) }
    ensures { DoesReading (map rc_value systems.now) listed.now steps.old result steps.new }
{
    are_sealed(systems);
    let kept = shared(alloc, systems)?;
    let languages = languages_of(alloc, systems)?;
    let read = read_step(alloc, listed, steps)?;
    let closed = pad_step(alloc, &read, direction_of(systems), steps)?;
    let relation = numbered(alloc, closed)?;
    let valid = valid_step(alloc, &relation, &languages, steps)?;
    Ok(Relation::from_parts(valid, kept))
}

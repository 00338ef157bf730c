//! The three steps over numeration systems.

ghost use Rattle.std.specs.Prelude.{map};
ghost use Rattle.std.specs.Rc.{rc_value};
ghost use Rattle.digit_tuple.specs.Sets.{sizes_of};
ghost use Rattle.product_op.specs.Validity.{AreLanguages};
ghost use Rattle.reg_steps.specs.RelationSteps.{DoesRelation};

use crate::regex_step::regex_step;
use automaton_steps::numbered::numbered;
use automaton_steps::pad_step::pad_step;
use automaton_steps::valid_step::valid_step;
use digit_tuple::dfa::Dfa;
use digit_tuple::direction::Direction;
use digit_tuple::step_fault::StepFault;
use digit_tuple::steps::Steps;
use minimise::tracked::Tracked;
use regex_build::regex::Regex;
use std::alloc::Global;
use std::rc::Rc;

/// The automaton of an expression over numeration systems of one direction, whose sets are the digits
/// of each track's system, by the steps `regex`, `pad` and `valid` as the next ones. There is a
/// canonical language for each track: that of its system. The result is canonical, its tracks under
/// their numbers.
///
/// It accepts the words whose tracks are valid and of which some word matches the expression that is the same but for
/// zeros at the end of the most significant letters: by a law of `laws` the representations of the tuples of numbers of
/// which some representation matches.
///
/// # Errors
/// `Letters` and `States` exactly at the first step that passes a limit, letters before states.
pub fn relation_steps(
    alloc: Global,
    regex: &Regex,
    direction: Direction,
    languages: &[Rc<Dfa>],
    steps: &mut Steps,
) -> Result<Tracked, StepFault>
    requires languages { AreLanguages (sizes_of regex.now.sets) (map rc_value languages.now) }
    ensures { DoesRelation direction (map rc_value languages.now) regex.now.sets regex.now.tree steps.old result steps.new }
{
    let matches = regex_step(alloc, regex, steps)?;
    let closed = pad_step(alloc, &matches, direction, steps)?;
    let relation = numbered(alloc, closed)?;
    valid_step(alloc, &relation, languages, steps)
}

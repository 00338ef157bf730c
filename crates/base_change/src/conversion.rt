//! The word that has another word's letters, in a base that is another power of the same integer.

ghost use Rattle.std.specs.Prelude.{◌≡◌, ◌≤◌, ◌^◌, ◌∷◌, []};
ghost use Rattle.std.specs.Rc.{rc_value};
ghost use Rattle.base_change.specs.Conversions.{AreRelated, DoesConversion, DoesTurn, DoesUnlessFirst};
ghost use Rattle.base_change.specs.Joins.{join_step};
ghost use Rattle.base_change.specs.Splits.{split_step};

use crate::copied::copied;
use crate::join::join_letters;
use crate::related::CommonRoot;
use crate::split::split_letters;
use base_k::laws::rank_is_positional;
use digit_tuple::direction::Direction;
use digit_tuple::step_fault::StepFault;
use digit_tuple::steps::Steps;
use letter_reversal::letter_reversal::reverse_letters;
use num_system::sealed::are_sealed;
use num_system::system::System;
use num_system::tracks::direction_of;
use std::alloc::Global;
use std::rc::Rc;
use word_output::letter_function::LetterFunction;
use word_output::word::Word;

/// The word over the system that has at each position the letter of a word over one track, whose base is a power of the
/// same integer. It is made by the steps `reverse`, if the old word has the most significant digit first, `split`, if
/// its base is not the root, `join`, if the new base is not the root, and `reverse`, if the new word has the most
/// significant digit first. The widths and the costs are those of the steps.
///
/// # Errors
/// `States` at the first step that passes the limit. The steps before it stay done, also if memory runs out.
pub fn convert(
    alloc: Global,
    word: &Word,
    to: &Rc<System>,
    common: CommonRoot,
    steps: &mut Steps,
) -> Result<Word, StepFault>
    requires { AreRelated word.now.systems (rc_value to.now) common }
    ensures { DoesConversion word.now (rc_value to.now) common steps.old result steps.new }
{
    rank_is_positional();
    let from = direction_of(word.systems());
    let direction = to.as_ref().direction();
    let mut systems = Vec::new(alloc);
    systems.push(to.clone()?)?;
    are_sealed(&systems);
    let old = copied(alloc, word.function())?;
    let first = turned(alloc, old, from, steps)?;
    let split = split_unless_first(alloc, first, common, steps)?;
    let joined = join_unless_first(alloc, split, common, steps)?;
    let made = turned(alloc, joined, direction, steps)?;
    Ok(Word::from_parts(made, systems))
}

// From words in the direction to words with the least significant digit first, or back.
fn turned(
    alloc: Global,
    function: LetterFunction,
    direction: Direction,
    steps: &mut Steps,
) -> Result<LetterFunction, StepFault>
    ensures { DoesTurn direction function steps.old result steps.new }
{
    match direction {
        Direction::Msd => reverse_letters(alloc, &function, steps),
        Direction::Lsd => Ok(function),
    }
}

// From the old base to the root.
fn split_unless_first(
    alloc: Global,
    function: LetterFunction,
    common: CommonRoot,
    steps: &mut Steps,
) -> Result<LetterFunction, StepFault>
    requires root { 2 ≤ common.root }
    requires power { 1 ≤ common.old_power }
    requires base { function.automaton.sizes ≡ common.root ^ common.old_power ∷ [] }
    ensures { DoesUnlessFirst common.old_power (split_step common.root common.old_power function) function steps.old result steps.new }
{
    if common.old_power == 1 {
        Ok(function)
    } else {
        split_letters(alloc, &function, common.root, common.old_power, steps)
    }
}

// From the root to the new base.
fn join_unless_first(
    alloc: Global,
    function: LetterFunction,
    common: CommonRoot,
    steps: &mut Steps,
) -> Result<LetterFunction, StepFault>
    requires root { 2 ≤ common.root }
    requires power { 1 ≤ common.new_power }
    requires base { function.automaton.sizes ≡ common.root ∷ [] }
    requires few { common.root ^ common.new_power ≤ 65536 }
    ensures { DoesUnlessFirst common.new_power (join_step common.root common.new_power function) function steps.old result steps.new }
{
    if common.new_power == 1 {
        Ok(function)
    } else {
        join_letters(alloc, &function, common.root, common.new_power, steps)
    }
}

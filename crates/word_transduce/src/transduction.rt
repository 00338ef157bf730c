//! The step `transduce`.

ghost use Rattle.std.specs.Prelude.{◌+◌, ◌≤◌, ◌↔◌, IfOk, IsTrue};
ghost use Rattle.std.specs.Result.{IsErrOf};
ghost use Rattle.digit_tuple.specs.Deterministic.{letters_of, states_of};
ghost use Rattle.digit_tuple.specs.Width.{HasApart, HasWidth};
ghost use Rattle.automaton_steps.specs.Makings.{DoesStep};
ghost use Rattle.transducer_reading.specs.Transducers.{IsTransducer};
ghost use Rattle.word_transduce.specs.BlockMaps.{HasFewLines};
ghost use Rattle.word_transduce.specs.Transductions.{IsTransduction, TransduceAlike, transduce_step};

use crate::block_graph::BlockGraph;
use crate::block_lengths::BlockLengths;
use crate::block_maps::BlockMaps;
use crate::output_numbers::key_letters;
use class_reversal::targets::targets;
use digit_tuple::exploration::{Explored, explore_keys};
use digit_tuple::faults::OpFault;
use digit_tuple::kind::Kind;
use digit_tuple::limit::Limit;
use digit_tuple::step_fault::StepFault;
use digit_tuple::stepped::Stepped;
use digit_tuple::steps::Steps;
use std::alloc::Global;
use transducer_reading::Transducer;
use word_output::letter_function::LetterFunction;

/// The function that gives to a word, the least significant digit first, the output at the position that it represents, of the run of a
/// transducer over the letters of another function, which reads the most significant digit first; by the step `transduce` as
/// the next one. A run stops for good where there is no letter, or no line for it, and gives none from there on. The letters
/// of the alphabet are the digits. The width is that of the pairs of two maps of the letters after each residual, by so many
/// digits as a word has: from each state of the transducer, what is made at the position that the word represents, with the state in
/// which it is made, and where the run ends. Time and memory are those of a number for each pair of a state of the
/// function and one of the transducer, for each digit and each state of the result; for words of more than 256 digits some
/// five times that, unless the runs over their blocks end as those over shorter blocks do.
///
/// # Errors
/// `States` if and only if the width passes the limit. The steps are as before then, also if memory runs out. `Memory` comes
/// too where the transducer has 2^32 - 1 states or lines.
pub fn transduce(
    alloc: Global,
    transducer: &Transducer,
    function: &LetterFunction,
    steps: &mut Steps,
) -> Result<LetterFunction, StepFault>
    ensures { DoesStep (transduce_step transducer.now function.now) steps.old result steps.new }
{
    let _ = function.dfa().alphabet().tracks();
    match transduced(alloc, transducer, function, steps.begin(Kind::Transduce)) {
        Ok(Stepped { result, width }) => {
            steps.done(Kind::Transduce, width, result.dfa().states())?;
            Ok(result)
        }
        Err(OpFault::States) => Err(StepFault::States(steps.next_number())),
        Err(_) => Err(StepFault::Memory),
    }
}

// The outputs at the positions that words represent.
fn transduced(
    alloc: Global,
    transducer: &Transducer,
    function: &LetterFunction,
    limit: Limit<'_>,
) -> Result<Stepped<LetterFunction>, OpFault>
    ensures transduction { IfOk result (λ stepped. IsTransduction transducer.now function.now stepped.result) }
    ensures width { IfOk result (λ stepped. HasWidth (TransduceAlike transducer.now function.now) (letters_of function.now.automaton) stepped.width) }
    ensures size { IfOk result (λ stepped. states_of stepped.result.automaton ≤ stepped.width) }
    ensures within { IfOk result (λ stepped. stepped.width ≤ limit.entry.most) }
    ensures states { IsErrOf result OpFault.States → HasApart (TransduceAlike transducer.now function.now) (letters_of function.now.automaton) (limit.entry.most + 1) }
{
    if !has_few_lines(transducer) {
        return Err(OpFault::Memory);
    }
    let dfa = function.dfa();
    let alphabet = dfa.alphabet().copy(alloc)?;
    let targets = targets(alloc, dfa)?;
    let maps = BlockMaps {
        transducer,
        function,
        targets: &targets,
    };
    let lengths = BlockLengths::new(alloc, &maps)?;
    let graph = BlockGraph {
        maps,
        lengths: &lengths,
    };
    let Stepped { result, width } = explore_keys(alloc, &graph, alphabet, limit)?;
    let Explored { dfa, keys } = result;
    let letters = key_letters(alloc, transducer, &keys)?;
    let result = LetterFunction::of_states(alloc, &dfa, &letters)?;
    Ok(Stepped { result, width })
}

// Whether numbers of states and lines fit.
fn has_few_lines(transducer: &Transducer) -> bool
    ensures few { IsTrue result ↔ HasFewLines transducer.now }
    ensures transducer { IsTransducer transducer.now }
{
    transducer.states() < u32::MAX as usize && transducer.lines().len() < u32::MAX as usize
}

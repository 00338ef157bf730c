//! Words under transducers.

ghost use Rattle.std.specs.Prelude.{IfOk};
ghost use Rattle.word_transduce.specs.TransducedWords.{IsTransduced};
ghost use Rattle.word_commands.specs.TransduceMakes.{IsOverMsd};
ghost use Rattle.word_commands.specs.TransduceSteps.{DoesTransduce};

use digit_tuple::step_fault::StepFault;
use digit_tuple::steps::Steps;
use letter_reversal::letter_reversal::reverse_letters;
use num_system::tracks::shared;
use std::alloc::Global;
use transducer_reading::Transducer;
use word_output::word::Word;
use word_transduce::laws::transductions_make_words;
use word_transduce::transduction::transduce;

/// The word that has at each position the output of the run of a transducer over the letters of a word, over the same system, by the
/// steps `transduce` and `reverse`. From the position on at which the run stops it has no letter. The word has one track, over a
/// base whose most significant digit comes first. The widths and the costs are those of the steps.
///
/// # Errors
/// `States` at the first step that passes the limit. A step before it stays done, also if memory runs out.
pub fn transduced(
    alloc: Global,
    transducer: &Transducer,
    word: &Word,
    steps: &mut Steps,
) -> Result<Word, StepFault>
    requires { IsOverMsd word.now }
    ensures steps { DoesTransduce transducer.now word.now steps.old result steps.new }
    ensures letters { IfOk result (IsTransduced transducer.now word.now) }
{
    transductions_make_words();
    let systems = shared(alloc, word.systems())?;
    let outputs = transduce(alloc, transducer, word.function(), steps)?;
    let made = reverse_letters(alloc, &outputs, steps)?;
    Ok(Word::from_parts(made, systems))
}

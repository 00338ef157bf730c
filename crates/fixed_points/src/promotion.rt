//! The step `promote`: the fixed point of a morphism as an automatic word.

ghost use Rattle.fixed_points.specs.Promotion.{DoesPromote};

use crate::fixed_base::fixed_base;
use crate::fixed_letters::fixed_letters;
use crate::msd_base::msd_base;
use crate::promote_fault::PromoteFault;
use base_k::laws::rank_is_positional;
use digit_tuple::faults::OpFault;
use digit_tuple::kind::Kind;
use digit_tuple::step_fault::StepFault;
use digit_tuple::stepped::Stepped;
use digit_tuple::steps::Steps;
use morph_words::Morphism;
use std::alloc::Global;
use word_output::word::Word;

/// The fixed point of the morphism from the letter 0, by the step `promote` as the next one: the word that is
/// its own image and begins with 0, in the base that is the length of all images, with the most significant
/// digit first. The width is the number of letters that occur in it. Beside sealing the base, time and memory
/// follow the images.
///
/// # Errors
/// `Morphism` if and only if the images have not one length of 2 to 40, or some letter of an image has none, or that of
/// 0 does not begin with 0; the kind is the first that applies. Else `States` if and only if the width passes the
/// limit. The steps are as before where there is no word, also if memory runs out.
pub fn promote(alloc: Global, morphism: &Morphism, steps: &mut Steps) -> Result<Word, PromoteFault>
    ensures { DoesPromote morphism.now steps.old result steps.new }
{
    rank_is_positional();
    let letters = morphism.letters(alloc)?;
    let base = fixed_base(morphism, &letters)?;
    let systems = msd_base(alloc, base)?;
    match fixed_letters(alloc, morphism, base, steps.begin(Kind::Promote)) {
        Ok(Stepped { result, width }) => {
            steps.done(Kind::Promote, width, result.dfa().states())?;
            Ok(Word::from_parts(result, systems))
        }
        Err(OpFault::States) => Err(PromoteFault::Step(StepFault::States(steps.next_number()))),
        Err(_) => Err(PromoteFault::Step(StepFault::Memory)),
    }
}

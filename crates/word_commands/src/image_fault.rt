//! Why a word has no image.

ghost use Rattle.std.specs.Prelude.{◌≡◌};
ghost use Rattle.digit_tuple.specs.declared.step_fault.StepFault.TheVariants.{Memory};
ghost use Rattle.word_commands.specs.declared.image_fault.ImageFault.TheVariants.{Morphism, Step};
ghost use Rattle.word_commands.specs.ImageFaults.{fault_of_imaging};

use command_parts::fault::Fault;
use command_parts::word_refusal::WordRefusal;
use digit_tuple::faults::OutOfMemory;
use digit_tuple::step_fault::StepFault;
use morph_words::MorphismKind;

/// Why a word has no image under a morphism.
#[derive(Clone, Copy)]
pub enum ImageFault {
    /// The images of the morphism have not one length of 1 to 40.
    Morphism(MorphismKind),
    /// This letter occurs in the word, and has no image. It is the least such letter.
    Missing(i32),
    /// A step passes a limit, or memory ran out.
    Step(StepFault),
}

impl From<MorphismKind> for ImageFault {
    ghost from_gives = { λ kind e. e ≡ Morphism kind };

    fn from(kind: MorphismKind) -> Self {
        ImageFault::Morphism(kind)
    }
}

impl From<StepFault> for ImageFault {
    ghost from_gives = { λ fault e. e ≡ Step fault };

    fn from(fault: StepFault) -> Self {
        ImageFault::Step(fault)
    }
}

impl From<OutOfMemory> for ImageFault {
    ghost from_gives = { λ _ e. e ≡ Step Memory };

    fn from(_fault: OutOfMemory) -> Self {
        ImageFault::Step(StepFault::Memory)
    }
}

impl From<ImageFault> for Fault {
    ghost from_gives = { λ f e. e ≡ fault_of_imaging f };

    fn from(fault: ImageFault) -> Fault {
        match fault {
            ImageFault::Morphism(kind) => Fault::from(WordRefusal::Morphism(kind)),
            ImageFault::Missing(letter) => Fault::from(WordRefusal::LetterMissing(letter)),
            ImageFault::Step(fault) => Fault::from(fault),
        }
    }
}

//! Why a question about listed words has no answer.

ghost use Rattle.std.specs.Prelude.{◌≡◌};
ghost use Rattle.digit_tuple.specs.declared.step_fault.StepFault.TheVariants as steps;
ghost use Rattle.listing_commands.specs.declared.listing_fault.ListingFault.TheVariants.{Step};
ghost use Rattle.listing_commands.specs.ListingFaults.{fault_of_listing, of_lines};

use command_parts::fault::Fault;
use command_parts::shape_refusal::ShapeRefusal;
use command_parts::word_refusal::WordRefusal;
use digit_tuple::faults::OutOfMemory;
use digit_tuple::name::Name;
use digit_tuple::step_fault::StepFault;
use listings::LineFault;

/// Why there is no answer.
#[derive(Drop)]
pub enum ListingFault {
    /// The place is no word over the tracks of the automaton of this name.
    Place(Name),
    /// A step is refused, or memory ran out.
    Step(StepFault),
    /// The lines have too many bytes.
    Long,
}

impl From<OutOfMemory> for ListingFault {
    ghost from_gives = { λ _ e. e ≡ Step steps.Memory };

    fn from(_error: OutOfMemory) -> ListingFault {
        ListingFault::Step(StepFault::Memory)
    }
}

impl From<StepFault> for ListingFault {
    ghost from_gives = { λ fault e. e ≡ Step fault };

    fn from(fault: StepFault) -> ListingFault {
        ListingFault::Step(fault)
    }
}

impl From<LineFault> for ListingFault {
    ghost from_gives = { λ fault e. e ≡ of_lines fault };

    fn from(fault: LineFault) -> ListingFault {
        match fault {
            LineFault::Long => ListingFault::Long,
            LineFault::Memory => ListingFault::Step(StepFault::Memory),
        }
    }
}

impl From<ListingFault> for Fault {
    ghost from_gives = { λ f e. e ≡ fault_of_listing f };

    fn from(fault: ListingFault) -> Fault {
        match fault {
            ListingFault::Place(name) => Fault::from(ShapeRefusal::Place(name)),
            ListingFault::Step(fault) => Fault::from(fault),
            ListingFault::Long => Fault::from(WordRefusal::TestLong),
        }
    }
}

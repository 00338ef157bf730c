//! The law of 0, by steps.

ghost use Rattle.std.specs.Prelude.{◌≡◌, ◌∷◌, ◌↔◌, [], ℕ, Bool, List, IsTrue, IfOk};
ghost use Rattle.minimise.specs.Canonical.{IsCanonical};
ghost use Rattle.numeration.specs.Relations.{HoldsOf, IsLanguageOf, IsEqualityOf};
ghost use Rattle.numeration.specs.Systems.{System, IsSystem};
ghost use Rattle.number_order.specs.Orders.{pair_sizes};
ghost use Rattle.num_system.specs.Links.{Passes};
ghost use Rattle.adder_check.specs.AdderLaws.{ZeroLaw};
ghost use Rattle.adder_check.specs.AdderRelation.{adder_names, three_of};
ghost use Rattle.endless.specs.LanguageLaws.{system_of};
ghost use Rattle.adder_check.specs.ZeroSums.{DoesZeroLaw};

use crate::zero_sums::{keeps_zero_law, zero_sums};
use digit_tuple::dfa::Dfa;
use digit_tuple::direction::Direction;
use digit_tuple::faults::OutOfMemory;
use digit_tuple::limit::Limit;
use digit_tuple::step_fault::StepFault;
use digit_tuple::steps::Steps;
use minimise::tracked::Tracked;
use number_order::order::equality_of;
use number_order::zero::zero_of;
use std::alloc::Global;

/// Whether with 0 the sum of a number is the number itself, and nothing else, for an adder on the tracks
/// x, y and z over the system of a canonical language, by the steps `product` and `project` as the next
/// ones. The widths and the costs are those of the steps.
///
/// # Errors
/// `Letters` and `States` exactly at the first step that passes a limit, letters before states. Memory may
/// also run out where 2^32 - 1 states are not enough for equal numbers.
pub fn zero_law(
    alloc: Global,
    adder: &Tracked,
    language: &Dfa,
    direction: Direction,
    steps: &mut Steps,
) -> Result<bool, StepFault>
    requires names { adder.now.names ≡ adder_names }
    requires tracks { (digits : ℕ) × (adder.now.automaton.sizes ≡ digits ∷ digits ∷ digits ∷ []) × (language.now.sizes ≡ digits ∷ []) }
    requires canonical { IsCanonical language.now }
    requires system { IsSystem (system_of direction language.now) }
    ensures steps { DoesZeroLaw direction language.now adder.now steps.old result steps.new }
    ensures law { IfOk result (λ holds. (test : List ℕ → Bool) → HoldsOf direction (three_of (system_of direction language.now)) (Passes test) adder.now.automaton
        → IsTrue holds ↔ ZeroLaw (λ x y z. IsTrue (test (x ∷ y ∷ z ∷ [])))) }
{
    let zero = zero_of(alloc, language)?;
    let equal = equal_numbers(alloc, language, direction)?;
    let sums = zero_sums(alloc, adder, &zero, direction, steps)?;
    Ok(keeps_zero_law(&sums, &equal))
}

// The canonical automaton of equal numbers, which is made without a limit.
fn equal_numbers(alloc: Global, language: &Dfa, direction: Direction) -> Result<Dfa, OutOfMemory>
    requires track { (digits : ℕ) × (language.now.sizes ≡ digits ∷ []) }
    requires canonical { IsCanonical language.now }
    ensures equality { IfOk result (λ equal. (s : System) → IsSystem s → IsLanguageOf direction s language.now → IsEqualityOf direction s equal) }
    ensures sizes { IfOk result (λ equal. equal.sizes ≡ pair_sizes language.now) }
    ensures canonical { IfOk result (λ equal. IsCanonical equal) }
{
    match equality_of(alloc, language, direction, Limit::none()) {
        Ok(equality) => Ok(equality.result),
        Err(_) => Err(OutOfMemory),
    }
}

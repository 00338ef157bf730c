//! The sums of numbers with 0, by steps, and whether they are the numbers themselves.

ghost use Rattle.std.specs.Prelude.{◌≡◌, ◌∷◌, ◌↔◌, [], ℕ, Bool, List, IsTrue, IfOk};
ghost use Rattle.minimise.specs.Canonical.{IsCanonical};
ghost use Rattle.minimise.specs.Residuals.{SameLanguage};
ghost use Rattle.numeration.specs.Relations.{HoldsOf, IsZeroOf, IsEqualityOf};
ghost use Rattle.numeration.specs.Systems.{System, IsSystem};
ghost use Rattle.number_order.specs.Orders.{pair_sizes};
ghost use Rattle.digit_tuple.specs.declared.direction.Direction.{Direction};
ghost use Rattle.num_system.specs.Links.{Passes};
ghost use Rattle.num_system.specs.SuccessorSteps.{name_y};
ghost use Rattle.adder_check.specs.AdderLaws.{ZeroLaw};
ghost use Rattle.adder_check.specs.AdderRelation.{adder_names, three_of};
ghost use Rattle.adder_check.specs.BothForSome.{DoesBothForSome};
ghost use Rattle.adder_check.specs.ZeroSums.{IsZeroSum, on_y as on_track_y};

use automaton_steps::join_step::{Joining, join_step};
use automaton_steps::project_step::project_step;
use digit_tuple::dfa::Dfa;
use digit_tuple::direction::Direction;
use digit_tuple::faults::OutOfMemory;
use digit_tuple::name::Name;
use digit_tuple::step_fault::StepFault;
use digit_tuple::steps::Steps;
use minimise::comparison::same;
use minimise::tracked::Tracked;
use product_op::op::Op;
use std::alloc::Global;

/// The pairs of a number and a sum of it with 0, for an adder on the tracks x, y and z and the canonical
/// automaton of 0 over the same digits, by the steps `product` and `project` as the next ones. The widths
/// and the costs are those of the steps.
///
/// # Errors
/// `Letters` and `States` exactly at the first step that passes a limit, letters before states.
pub fn zero_sums(
    alloc: Global,
    adder: &Tracked,
    zero: &Dfa,
    direction: Direction,
    steps: &mut Steps,
) -> Result<Tracked, StepFault>
    requires names { adder.now.names ≡ adder_names }
    requires tracks { (digits : ℕ) × (adder.now.automaton.sizes ≡ digits ∷ digits ∷ digits ∷ []) × (zero.now.sizes ≡ digits ∷ []) }
    requires canonical { IsCanonical zero.now }
    ensures steps { DoesBothForSome direction name_y adder.now (on_track_y zero.now) steps.old result steps.new }
    ensures sizes { IfOk result (λ sums. sums.automaton.sizes ≡ pair_sizes zero.now) }
    ensures sums { IfOk result (λ sums. (s : System) (test : List ℕ → Bool) → IsSystem s → HoldsOf direction (three_of s) (Passes test) adder.now.automaton → IsZeroOf direction s zero.now → HoldsOf direction (s ∷ s ∷ []) (IsZeroSum test) sums.automaton) }
{
    let y = Name::new(alloc, "y")?;
    let zero_y = on_y(alloc, zero)?;
    let joining = Joining {
        op: Op::And,
        languages: &[],
    };
    let joined = join_step(alloc, adder, &zero_y, joining, steps)?;
    project_step(alloc, &joined, &y, direction, steps)
}

// A canonical automaton of one track, under the name y.
fn on_y(alloc: Global, zero: &Dfa) -> Result<Tracked, OutOfMemory>
    requires canonical { IsCanonical zero.now }
    requires track { (digits : ℕ) × (zero.now.sizes ≡ digits ∷ []) }
    ensures { IfOk result (λ tracked. tracked ≡ on_track_y zero.now) }
{
    let y = Name::new(alloc, "y")?;
    let names = vec![in alloc; y]?;
    Ok(Tracked::of_canonical(zero.copy(alloc)?, names))
}

/// Whether the sums with 0 are the numbers themselves, for the canonical automata of these pairs and of
/// equal numbers. The cost is a look at each state.
pub fn keeps_zero_law(sums: &Tracked, equal: &Dfa) -> bool
    requires canonical { IsCanonical equal.now }
    requires sizes { sums.now.automaton.sizes ≡ equal.now.sizes }
    ensures same { IsTrue result ↔ SameLanguage sums.now.automaton equal.now }
    ensures law { (direction : Direction) (s : System) (test : List ℕ → Bool) → IsSystem s → HoldsOf direction (s ∷ s ∷ []) (IsZeroSum test) sums.now.automaton → IsEqualityOf direction s equal.now
        → IsTrue result ↔ ZeroLaw (λ x y z. IsTrue (test (x ∷ y ∷ z ∷ []))) }
{
    same(sums.dfa(), equal)
}

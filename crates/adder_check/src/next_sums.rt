//! The sums of numbers with one more, and one more than sums, by steps, and whether they are the same.

ghost use Rattle.std.specs.Prelude.{◌≡◌, ◌≢◌, ◌∷◌, ◌↔◌, [], ℕ, Bool, List, length, IsTrue, IfOk};
ghost use Rattle.digit_tuple.specs.declared.direction.Direction.{Direction};
ghost use Rattle.minimise.specs.Canonical.{IsCanonical};
ghost use Rattle.numeration.specs.Relations.{HoldsOf};
ghost use Rattle.numeration.specs.Systems.{System, IsSystem};
ghost use Rattle.num_system.specs.Links.{Passes};
ghost use Rattle.num_system.specs.Successor.{IsSuccessorOf};
ghost use Rattle.num_system.specs.SuccessorSteps.{name_x, name_y, order_on};
ghost use Rattle.adder_check.specs.AdderLaws.{SuccessorLaw};
ghost use Rattle.adder_check.specs.AdderRelation.{name_z, three_of};
ghost use Rattle.adder_check.specs.BothForSome.{DoesBothForSome};
ghost use Rattle.adder_check.specs.NextSums.{DoesNextSums, IsSumWithNext, IsNextOfSum, name_v, name_w, sum_on as sum_under};

use automaton_steps::join_step::{Joining, join_step};
use automaton_steps::project_step::project_step;
use digit_tuple::dfa::Dfa;
use digit_tuple::direction::Direction;
use digit_tuple::faults::OutOfMemory;
use digit_tuple::name::Name;
use digit_tuple::step_fault::StepFault;
use digit_tuple::steps::Steps;
use minimise::comparison::same;
use minimise::tracked::Tracked;
use product_op::op::Op;
use std::alloc::Global;

/// Whether the sums with one more are those that are one more, for the canonical automata of an adder
/// and of the pairs of numbers of which the second is one more than the first, over the same digits, by
/// the steps `product`, `project`, `product` and `project` as the next ones. The widths and the costs are
/// those of the steps.
///
/// # Errors
/// `Letters` and `States` exactly at the first step that passes a limit, letters before states.
pub fn next_sums(
    alloc: Global,
    adder: &Dfa,
    next: &Dfa,
    direction: Direction,
    steps: &mut Steps,
) -> Result<bool, StepFault>
    requires adder { IsCanonical adder.now }
    requires next { IsCanonical next.now }
    requires tracks { (digits : ℕ) × (adder.now.sizes ≡ digits ∷ digits ∷ digits ∷ []) × (next.now.sizes ≡ digits ∷ digits ∷ []) }
    ensures steps { DoesNextSums direction adder.now next.now steps.old result steps.new }
    ensures law { IfOk result (λ holds. (s : System) (test : List ℕ → Bool) → IsSystem s → HoldsOf direction (three_of s) (Passes test) adder.now → IsSuccessorOf direction s next.now
        → IsTrue holds ↔ SuccessorLaw (λ x y z. IsTrue (test (x ∷ y ∷ z ∷ [])))) }
{
    let with_next = sums_with_next(alloc, adder, next, direction, steps)?;
    let of_sums = next_of_sums(alloc, adder, next, direction, steps)?;
    Ok(same(with_next.dfa(), of_sums.dfa()))
}

// The triples of numbers of which the third is a sum of the first with one more than the second, by the
// steps `product` and `project`.
fn sums_with_next(
    alloc: Global,
    adder: &Dfa,
    next: &Dfa,
    direction: Direction,
    steps: &mut Steps,
) -> Result<Tracked, StepFault>
    requires adder { IsCanonical adder.now }
    requires next { IsCanonical next.now }
    requires tracks { (digits : ℕ) × (adder.now.sizes ≡ digits ∷ digits ∷ digits ∷ []) × (next.now.sizes ≡ digits ∷ digits ∷ []) }
    ensures steps { DoesBothForSome direction name_v (order_on next.now name_y name_v) (sum_under adder.now name_x name_v name_z) steps.old result steps.new }
    ensures sizes { IfOk result (λ sums. sums.automaton.sizes ≡ adder.now.sizes) }
    ensures sums { IfOk result (λ sums. (s : System) (test : List ℕ → Bool) → IsSystem s → HoldsOf direction (three_of s) (Passes test) adder.now → IsSuccessorOf direction s next.now → HoldsOf direction (three_of s) (IsSumWithNext test) sums.automaton) }
{
    let v = Name::new(alloc, "v")?;
    let following = pair_on(alloc, next, "y", "v")?;
    let sum = sum_on_v(alloc, adder)?;
    let joining = Joining {
        op: Op::And,
        languages: &[],
    };
    let joined = join_step(alloc, &following, &sum, joining, steps)?;
    project_step(alloc, &joined, &v, direction, steps)
}

// The triples of numbers of which the third is one more than a sum of the first two, by the steps
// `product` and `project`.
fn next_of_sums(
    alloc: Global,
    adder: &Dfa,
    next: &Dfa,
    direction: Direction,
    steps: &mut Steps,
) -> Result<Tracked, StepFault>
    requires adder { IsCanonical adder.now }
    requires next { IsCanonical next.now }
    requires tracks { (digits : ℕ) × (adder.now.sizes ≡ digits ∷ digits ∷ digits ∷ []) × (next.now.sizes ≡ digits ∷ digits ∷ []) }
    ensures steps { DoesBothForSome direction name_w (sum_under adder.now name_x name_y name_w) (order_on next.now name_w name_z) steps.old result steps.new }
    ensures sizes { IfOk result (λ sums. sums.automaton.sizes ≡ adder.now.sizes) }
    ensures sums { IfOk result (λ sums. (s : System) (test : List ℕ → Bool) → IsSystem s → HoldsOf direction (three_of s) (Passes test) adder.now → IsSuccessorOf direction s next.now → HoldsOf direction (three_of s) (IsNextOfSum test) sums.automaton) }
{
    let w = Name::new(alloc, "w")?;
    let sum = sum_to_w(alloc, adder)?;
    let following = pair_on(alloc, next, "w", "z")?;
    let joining = Joining {
        op: Op::And,
        languages: &[],
    };
    let joined = join_step(alloc, &sum, &following, joining, steps)?;
    project_step(alloc, &joined, &w, direction, steps)
}

// A canonical automaton of three tracks, under the names x, v and z.
fn sum_on_v(alloc: Global, adder: &Dfa) -> Result<Tracked, OutOfMemory>
    requires canonical { IsCanonical adder.now }
    requires tracks { length adder.now.sizes ≡ 3 }
    ensures { IfOk result (λ tracked. tracked ≡ sum_under adder.now name_x name_v name_z) }
{
    let x = Name::new(alloc, "x")?;
    let v = Name::new(alloc, "v")?;
    let z = Name::new(alloc, "z")?;
    let names = vec![in alloc; x, v, z]?;
    Ok(Tracked::of_canonical(adder.copy(alloc)?, names))
}

// The same under the names x, y and w.
fn sum_to_w(alloc: Global, adder: &Dfa) -> Result<Tracked, OutOfMemory>
    requires canonical { IsCanonical adder.now }
    requires tracks { length adder.now.sizes ≡ 3 }
    ensures { IfOk result (λ tracked. tracked ≡ sum_under adder.now name_x name_y name_w) }
{
    let x = Name::new(alloc, "x")?;
    let y = Name::new(alloc, "y")?;
    let w = Name::new(alloc, "w")?;
    let names = vec![in alloc; x, y, w]?;
    Ok(Tracked::of_canonical(adder.copy(alloc)?, names))
}

// A canonical automaton of two tracks, under two names.
fn pair_on(alloc: Global, next: &Dfa, first: &str, second: &str) -> Result<Tracked, OutOfMemory>
    requires canonical { IsCanonical next.now }
    requires tracks { length next.now.sizes ≡ 2 }
    requires distinct { first.now ≢ second.now }
    ensures { IfOk result (λ tracked. tracked ≡ order_on next.now first.now second.now) }
{
    let first_name = Name::new(alloc, first)?;
    let second_name = Name::new(alloc, second)?;
    let names = vec![in alloc; first_name, second_name]?;
    Ok(Tracked::of_canonical(next.copy(alloc)?, names))
}

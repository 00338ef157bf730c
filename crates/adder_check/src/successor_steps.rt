//! The successor of a system's numbers, by steps.

ghost use Rattle.std.specs.Prelude.{◌≡◌, ◌∷◌, [], ℕ, length, IfOk};
ghost use Rattle.digit_tuple.specs.Letters.{IsAlphabet};
ghost use Rattle.digit_tuple.specs.declared.direction.Direction.{Direction};
ghost use Rattle.minimise.specs.Canonical.{IsCanonical};
ghost use Rattle.numeration.specs.Relations.{IsLanguageOf, IsOrderOf, HoldsOf};
ghost use Rattle.numeration.specs.Systems.{System, IsSystem};
ghost use Rattle.num_system.specs.Operations.{IsProjection};
ghost use Rattle.num_system.specs.Successor.{IsInside, HasInside, IsSuccessorOf};
ghost use Rattle.num_system.specs.SuccessorSteps.{IsChain, name_u, name_x, name_y};
ghost use Rattle.automaton_steps.specs.Makings.{DoesStep};
ghost use Rattle.automaton_steps.specs.ProjectSteps.{project_step as the_projection};
ghost use Rattle.adder_check.specs.SuccessorPlan.{chain_step as the_chain, next_step as the_next, DoesSuccessor};

use automaton_steps::order_step::order_step;
use automaton_steps::project_step::project_step;
use digit_tuple::dfa::Dfa;
use digit_tuple::direction::Direction;
use digit_tuple::faults::OpFault;
use digit_tuple::kind::Kind;
use digit_tuple::name::Name;
use digit_tuple::step_fault::StepFault;
use digit_tuple::stepped::Stepped;
use digit_tuple::steps::Steps;
use minimise::tracked::Tracked;
use num_system::successor::{chain_of, next_of};
use std::alloc::Global;

/// The canonical automaton of the pairs of numbers of which the second is one more than the first, for a
/// canonical automaton of one track that accepts the valid words of a system, by the steps `order`,
/// `product`, `project` and `product` as the next ones. The widths and the costs are those of the steps.
///
/// # Errors
/// `Letters` and `States` exactly at the first step that passes a limit, letters before states.
pub fn successor_steps(
    alloc: Global,
    language: &Dfa,
    direction: Direction,
    steps: &mut Steps,
) -> Result<Dfa, StepFault>
    requires track { length language.now.sizes ≡ 1 }
    requires canonical { IsCanonical language.now }
    ensures steps { DoesSuccessor direction language.now steps.old result steps.new }
    ensures canonical { IfOk result (λ next. IsCanonical next) }
    ensures successor { IfOk result (λ next. (s : System) → IsSystem s → IsLanguageOf direction s language.now → IsSuccessorOf direction s next) }
{
    let less = order_step(alloc, language, direction, steps)?;
    let chain = chain_step(alloc, &less, steps)?;
    let between = between_step(alloc, &chain, direction, steps)?;
    next_step(alloc, &less, &between, steps)
}

// The triples of numbers u, x and y with x < u and u < y, by the step `product`.
fn chain_step(alloc: Global, less: &Dfa, steps: &mut Steps) -> Result<Tracked, StepFault>
    requires canonical { IsCanonical less.now }
    requires tracks { (digits : ℕ) × (less.now.sizes ≡ digits ∷ digits ∷ []) }
    ensures steps { DoesStep (the_chain less.now) steps.old result steps.new }
    ensures chain { IfOk result (IsChain less.now) }
    ensures relation { IfOk result (λ chain. (direction : Direction) (s : System) → IsSystem s → IsOrderOf direction s less.now → HoldsOf direction (s ∷ s ∷ s ∷ []) IsInside chain.automaton) }
{
    match chain_of(alloc, less, steps.begin(Kind::Product)) {
        Ok(Stepped { result, width }) => {
            steps.done(Kind::Product, width, result.dfa().states())?;
            Ok(result)
        }
        Err(OpFault::Letters) => Err(StepFault::Letters(steps.next_number())),
        Err(OpFault::States) => Err(StepFault::States(steps.next_number())),
        Err(OpFault::Memory) => Err(StepFault::Memory),
    }
}

// The pairs of numbers x and y with some u between, by the step `project`.
fn between_step(
    alloc: Global,
    chain: &Tracked,
    direction: Direction,
    steps: &mut Steps,
) -> Result<Tracked, StepFault>
    requires names { chain.now.names ≡ name_u ∷ name_x ∷ name_y ∷ [] }
    ensures steps { DoesStep (the_projection direction name_u chain.now) steps.old result steps.new }
    ensures between { IfOk result (IsProjection direction chain.now name_u) }
{
    let u = Name::new(alloc, "u")?;
    project_step(alloc, chain, &u, direction, steps)
}

// The pairs of numbers in order between which there is none, by the step `product`.
fn next_step(
    alloc: Global,
    less: &Dfa,
    between: &Tracked,
    steps: &mut Steps,
) -> Result<Dfa, StepFault>
    requires canonical { IsCanonical less.now }
    requires tracks { (digits : ℕ) × (less.now.sizes ≡ digits ∷ digits ∷ []) }
    requires names { between.now.names ≡ name_x ∷ name_y ∷ [] }
    requires sizes { between.now.automaton.sizes ≡ less.now.sizes }
    requires fits { IsAlphabet less.now.sizes }
    ensures steps { DoesStep (the_next less.now between.now) steps.old result steps.new }
    ensures relation { IfOk result (λ next. (direction : Direction) (s : System) → IsOrderOf direction s less.now → HoldsOf direction (s ∷ s ∷ []) HasInside between.now.automaton → IsSuccessorOf direction s next) }
{
    match next_of(alloc, less, between, steps.begin(Kind::Product)) {
        Ok(Stepped { result, width }) => {
            steps.done(Kind::Product, width, result.states())?;
            Ok(result)
        }
        Err(OpFault::Letters) => unreachable!(),
        Err(OpFault::States) => Err(StepFault::States(steps.next_number())),
        Err(OpFault::Memory) => Err(StepFault::Memory),
    }
}

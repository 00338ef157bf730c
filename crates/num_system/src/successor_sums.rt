//! The successor of a system's numbers, from their adder.

ghost use Rattle.std.specs.Prelude.{◌≡◌, ◌∷◌, [], ℕ, length, IfOk};
ghost use Rattle.std.specs.List.{Contains};
ghost use Rattle.digit_tuple.specs.Letters.{IsAlphabet};
ghost use Rattle.digit_tuple.specs.declared.direction.Direction.{Direction};
ghost use Rattle.minimise.specs.Canonical.{IsCanonical};
ghost use Rattle.numeration.specs.Systems.{System, IsSystem};
ghost use Rattle.numeration.specs.Relations.{HoldsOf, IsAdderOf, IsOrderOf, IsZeroOf};
ghost use Rattle.product_op.specs.Tracks.{AgreeOnShared, joint_sizes};
ghost use Rattle.num_system.specs.Successor.{IsSuccessorOf};
ghost use Rattle.num_system.specs.SuccessorSteps.{name_u};
ghost use Rattle.num_system.specs.SuccessorSums.{IsPositive, IsAboveOne, IsOne, IsBothForSome, on_u as under_u, sizes_without_u, sum_on as sum_under};

use crate::successor::order_on;
use crate::without_limit::without_limit;
use digit_tuple::dfa::Dfa;
use digit_tuple::direction::Direction;
use digit_tuple::faults::OutOfMemory;
use digit_tuple::limit::Limit;
use digit_tuple::name::Name;
use minimise::tracked::Tracked;
use product_op::op::Op;
use product_op::product::product;
use project_close::projection::project;
use std::alloc::Global;

// The canonical automaton of the pairs of numbers of which the second is one more than the first, for
// each system whose order, 0 and sums the canonical automata hold of in this direction. Three tracks have
// an alphabet, so that only memory may run out.
//
// It takes four steps: the numbers above 0 (`numbers_above`); those above one of these; the number that is
// above 0 and not above 1 (`one_from`); and the sums of numbers with it (`sums_with_one`).
pub(crate) fn successor_by_sums(
    alloc: Global,
    less: &Dfa,
    zero: &Dfa,
    adder: &Dfa,
    direction: Direction,
) -> Result<Dfa, OutOfMemory>
    requires less { IsCanonical less.now }
    requires zero { IsCanonical zero.now }
    requires adder { IsCanonical adder.now }
    requires tracks { (digits : ℕ) × (less.now.sizes ≡ digits ∷ digits ∷ []) × (zero.now.sizes ≡ digits ∷ []) × (adder.now.sizes ≡ digits ∷ digits ∷ digits ∷ []) }
    requires fits { IsAlphabet adder.now.sizes }
    ensures successor { IfOk result (λ next. (s : System) → IsSystem s → IsOrderOf direction s less.now → IsZeroOf direction s zero.now → IsAdderOf direction s adder.now → IsSuccessorOf direction s next) }
    ensures canonical { IfOk result (λ next. IsCanonical next) }
{
    let positive = numbers_above(alloc, less, zero, direction)?;
    let above_one = numbers_above(alloc, less, &positive, direction)?;
    let one = one_from(alloc, &positive, &above_one)?;
    sums_with_one(alloc, adder, &one, direction)
}

// The canonical automaton of the numbers that are above some number of which another holds: above 0 are
// the positive ones, and above a positive one are those above 1.
fn numbers_above(
    alloc: Global,
    less: &Dfa,
    numbers: &Dfa,
    direction: Direction,
) -> Result<Dfa, OutOfMemory>
    requires less { IsCanonical less.now }
    requires numbers { IsCanonical numbers.now }
    requires tracks { (digits : ℕ) × (less.now.sizes ≡ digits ∷ digits ∷ []) × (numbers.now.sizes ≡ digits ∷ []) }
    requires fits { IsAlphabet less.now.sizes }
    ensures positive { IfOk result (λ above. (s : System) → IsSystem s → IsOrderOf direction s less.now → IsZeroOf direction s numbers.now → HoldsOf direction (s ∷ []) IsPositive above) }
    ensures above_one { IfOk result (λ above. (s : System) → IsSystem s → IsOrderOf direction s less.now → HoldsOf direction (s ∷ []) IsPositive numbers.now → HoldsOf direction (s ∷ []) IsAboveOne above) }
    ensures sizes { IfOk result (λ above. above.sizes ≡ numbers.now.sizes) }
    ensures canonical { IfOk result (λ above. IsCanonical above) }
{
    let order = order_on(alloc, less, "u", "x")?;
    let lower = on_u(alloc, numbers)?;
    let above = both_for_some_u(alloc, &order, &lower, direction)?;
    Ok(above.into_dfa())
}

// The canonical automaton of the number 1, which is positive and not above 1.
fn one_from(alloc: Global, positive: &Dfa, above_one: &Dfa) -> Result<Dfa, OutOfMemory>
    requires positive { IsCanonical positive.now }
    requires above_one { IsCanonical above_one.now }
    requires tracks { (digits : ℕ) × (positive.now.sizes ≡ digits ∷ []) × (above_one.now.sizes ≡ digits ∷ []) }
    requires fits { IsAlphabet positive.now.sizes }
    ensures one { IfOk result (λ one. (direction : Direction) (s : System) → HoldsOf direction (s ∷ []) IsPositive positive.now → HoldsOf direction (s ∷ []) IsAboveOne above_one.now → HoldsOf direction (s ∷ []) IsOne one) }
    ensures sizes { IfOk result (λ one. one.sizes ≡ positive.now.sizes) }
    ensures canonical { IfOk result (λ one. IsCanonical one) }
{
    let first = on_u(alloc, positive)?;
    let second = on_u(alloc, above_one)?;
    let one = without_limit(product(alloc, &first, &second, Op::AndNot, &[], Limit::none()))?;
    Ok(one.result.into_dfa())
}

// The canonical automaton of the pairs of a number and its sum with 1.
fn sums_with_one(
    alloc: Global,
    adder: &Dfa,
    one: &Dfa,
    direction: Direction,
) -> Result<Dfa, OutOfMemory>
    requires adder { IsCanonical adder.now }
    requires one { IsCanonical one.now }
    requires tracks { (digits : ℕ) × (adder.now.sizes ≡ digits ∷ digits ∷ digits ∷ []) × (one.now.sizes ≡ digits ∷ []) }
    requires fits { IsAlphabet adder.now.sizes }
    ensures successor { IfOk result (λ next. (s : System) → IsSystem s → IsAdderOf direction s adder.now → HoldsOf direction (s ∷ []) IsOne one.now → IsSuccessorOf direction s next) }
    ensures canonical { IfOk result (λ next. IsCanonical next) }
{
    let sum = sum_on(alloc, adder)?;
    let number = on_u(alloc, one)?;
    let next = both_for_some_u(alloc, &sum, &number, direction)?;
    Ok(next.into_dfa())
}

// The canonical automaton of the tuples that some number on the track u completes to one of which both hold.
fn both_for_some_u(
    alloc: Global,
    a: &Tracked,
    b: &Tracked,
    direction: Direction,
) -> Result<Tracked, OutOfMemory>
    requires agree { AgreeOnShared a.now b.now }
    requires fits { IsAlphabet (joint_sizes a.now b.now) }
    requires stays { IsAlphabet (sizes_without_u a.now b.now) }
    requires there { Contains b.now.names name_u }
    ensures { IfOk result (λ some. IsBothForSome direction a.now b.now some) }
{
    let u = Name::new(alloc, "u")?;
    let both = without_limit(product(alloc, a, b, Op::And, &[], Limit::none()))?;
    let some = without_limit(project(alloc, &both.result, &u, direction, Limit::none()))?;
    Ok(some.result)
}

// Numbers, their track under the name u.
fn on_u(alloc: Global, numbers: &Dfa) -> Result<Tracked, OutOfMemory>
    requires canonical { IsCanonical numbers.now }
    requires track { length numbers.now.sizes ≡ 1 }
    ensures { IfOk result (λ tracked. tracked ≡ under_u numbers.now) }
{
    let u = Name::new(alloc, "u")?;
    let names = vec![in alloc; u]?;
    Ok(Tracked::of_canonical(numbers.copy(alloc)?, names))
}

// An adder, its tracks under the names x, u and y.
fn sum_on(alloc: Global, adder: &Dfa) -> Result<Tracked, OutOfMemory>
    requires canonical { IsCanonical adder.now }
    requires tracks { length adder.now.sizes ≡ 3 }
    ensures { IfOk result (λ tracked. tracked ≡ sum_under adder.now) }
{
    let x = Name::new(alloc, "x")?;
    let u = Name::new(alloc, "u")?;
    let y = Name::new(alloc, "y")?;
    let names = vec![in alloc; x, u, y]?;
    Ok(Tracked::of_canonical(adder.copy(alloc)?, names))
}

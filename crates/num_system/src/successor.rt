//! The successor of a system's numbers, from their order.

ghost use Rattle.std.specs.Prelude.{◌≡◌, ◌≢◌, ◌+◌, ◌≤◌, ◌∷◌, [], ℕ, length, IfOk, OnOk};
ghost use Rattle.std.specs.Result.{IsErrOf};
ghost use Rattle.digit_tuple.specs.Deterministic.{states_of};
ghost use Rattle.digit_tuple.specs.Letters.{product as letter_count, IsAlphabet, IsTooLarge};
ghost use Rattle.digit_tuple.specs.Width.{HasApart, HasWidth};
ghost use Rattle.digit_tuple.specs.declared.direction.Direction.{Direction};
ghost use Rattle.minimise.specs.Canonical.{IsCanonical};
ghost use Rattle.numeration.specs.Systems.{System, IsSystem};
ghost use Rattle.numeration.specs.Relations.{HoldsOf, IsOrderOf};
ghost use Rattle.product_op.specs.Tracks.{joint_sizes};
ghost use Rattle.pad_rename.specs.StayingTracks.{staying_sizes};
ghost use Rattle.num_system.specs.Successor.{IsInside, HasInside, IsSuccessorOf};
ghost use Rattle.num_system.specs.Operations.{IsProduct, IsProjection};
ghost use Rattle.num_system.specs.SuccessorSteps.{IsChain, ChainAlike, BetweenAlike, NextAlike, AreWithin, Exceeds, chain_sizes, name_u, name_x, name_y, order_on as order_under};
ghost use Rattle.product_op.specs.declared.op.Op.TheVariants.{AndNot};

use digit_tuple::dfa::Dfa;
use digit_tuple::direction::Direction;
use digit_tuple::faults::{OpFault, OutOfMemory};
use digit_tuple::limit::Limit;
use digit_tuple::name::Name;
use digit_tuple::stepped::Stepped;
use minimise::tracked::Tracked;
use product_op::op::Op;
use product_op::product::product;
use project_close::projection::project;
use std::alloc::Global;

/// The canonical automaton of the pairs of numbers of which the second is one more than the first, for
/// each system whose order the canonical automaton of two tracks of one size holds of in this direction.
///
/// It takes three steps: the triples with x < u and u < y (`chain_of`); of these the pairs x and y with some u between
/// (`between_of`); and the pairs with x < y and no u between (`next_of`). Each is canonical. `Letters` comes if and
/// only if three tracks have more than 65,536 letters, and `States` if and only if the width of one of the steps passes
/// the limit, the first of them that does. Memory may also run out where 2^32 - 1 states are not enough.
pub fn successor_of(
    alloc: Global,
    less: &Dfa,
    direction: Direction,
    limit: Limit<'_>,
) -> Result<Dfa, OpFault>
    requires canonical { IsCanonical less.now }
    requires tracks { (digits : ℕ) × (less.now.sizes ≡ digits ∷ digits ∷ []) }
    ensures sizes { IfOk result (λ next. next.sizes ≡ less.now.sizes) }
    ensures canonical { IfOk result (λ next. IsCanonical next) }
    ensures successor { IfOk result (λ next. (s : System) → IsSystem s → IsOrderOf direction s less.now → IsSuccessorOf direction s next) }
    ensures within { OnOk result (AreWithin direction less.now limit.entry.most) }
    ensures fits { OnOk result (IsAlphabet (chain_sizes less.now)) }
    ensures letters { IsErrOf result OpFault.Letters → IsTooLarge (chain_sizes less.now) }
    ensures states { IsErrOf result OpFault.States → Exceeds direction less.now limit.entry.most }
    ensures letters_first { IsErrOf result OpFault.States → IsAlphabet (chain_sizes less.now) }
{
    let chain = chain_of(alloc, less, limit)?;
    let between = between_of(alloc, &chain.result, direction, limit)?;
    let next = next_of(alloc, less, &between.result, limit)?;
    Ok(next.result)
}

/// The first step: the triples of numbers u, x and y with x < u and u < y, for each system whose order
/// the canonical automaton of two tracks of one size holds of. The width is that of the product.
pub fn chain_of(alloc: Global, less: &Dfa, limit: Limit<'_>) -> Result<Stepped<Tracked>, OpFault>
    requires canonical { IsCanonical less.now }
    requires tracks { (digits : ℕ) × (less.now.sizes ≡ digits ∷ digits ∷ []) }
    ensures chain { IfOk result (λ stepped. IsChain less.now stepped.result) }
    ensures relation { IfOk result (λ stepped. (direction : Direction) (s : System) → IsSystem s → IsOrderOf direction s less.now → HoldsOf direction (s ∷ s ∷ s ∷ []) IsInside stepped.result.automaton) }
    ensures width { IfOk result (λ stepped. HasWidth (ChainAlike less.now) (letter_count (chain_sizes less.now)) stepped.width) }
    ensures size { IfOk result (λ stepped. states_of stepped.result.automaton ≤ stepped.width) }
    ensures within { IfOk result (λ stepped. stepped.width ≤ limit.entry.most) }
    ensures fits { OnOk result (IsAlphabet (chain_sizes less.now)) }
    ensures letters { IsErrOf result OpFault.Letters → IsTooLarge (chain_sizes less.now) }
    ensures states { IsErrOf result OpFault.States → HasApart (ChainAlike less.now) (letter_count (chain_sizes less.now)) (limit.entry.most + 1) }
    ensures letters_first { IsErrOf result OpFault.States → IsAlphabet (chain_sizes less.now) }
{
    let below = order_on(alloc, less, "x", "u")?;
    let above = order_on(alloc, less, "u", "y")?;
    product(alloc, &below, &above, Op::And, &[], limit)
}

/// The second step: the pairs of numbers x and y for which some u makes a triple of the first. The
/// width is that of the projection.
pub fn between_of(
    alloc: Global,
    chain: &Tracked,
    direction: Direction,
    limit: Limit<'_>,
) -> Result<Stepped<Tracked>, OpFault>
    requires names { chain.now.names ≡ name_u ∷ name_x ∷ name_y ∷ [] }
    requires tracks { (digits : ℕ) × (chain.now.automaton.sizes ≡ digits ∷ digits ∷ digits ∷ []) }
    requires fits { IsAlphabet chain.now.automaton.sizes }
    ensures projection { IfOk result (λ stepped. IsProjection direction chain.now name_u stepped.result) }
    ensures relation { IfOk result (λ stepped. (s : System) → IsSystem s → HoldsOf direction (s ∷ s ∷ s ∷ []) IsInside chain.now.automaton → HoldsOf direction (s ∷ s ∷ []) HasInside stepped.result.automaton) }
    ensures width { IfOk result (λ stepped. HasWidth (BetweenAlike direction chain.now) (letter_count (staying_sizes chain.now name_u)) stepped.width) }
    ensures size { IfOk result (λ stepped. states_of stepped.result.automaton ≤ stepped.width) }
    ensures within { IfOk result (λ stepped. stepped.width ≤ limit.entry.most) }
    ensures no_letters { ¬ IsErrOf result OpFault.Letters }
    ensures states { IsErrOf result OpFault.States → HasApart (BetweenAlike direction chain.now) (letter_count (staying_sizes chain.now name_u)) (limit.entry.most + 1) }
{
    let u = Name::new(alloc, "u")?;
    project(alloc, chain, &u, direction, limit)
}

/// The third step: the pairs of numbers in order of which the second step's automaton does not hold,
/// so that none is between. The width is that of the product.
pub fn next_of(
    alloc: Global,
    less: &Dfa,
    between: &Tracked,
    limit: Limit<'_>,
) -> Result<Stepped<Dfa>, OpFault>
    requires canonical { IsCanonical less.now }
    requires tracks { (digits : ℕ) × (less.now.sizes ≡ digits ∷ digits ∷ []) }
    requires names { between.now.names ≡ name_x ∷ name_y ∷ [] }
    requires sizes { between.now.automaton.sizes ≡ less.now.sizes }
    requires fits { IsAlphabet less.now.sizes }
    ensures next { IfOk result (λ stepped. IsProduct AndNot (order_under less.now name_x name_y) between.now [] (order_under stepped.result name_x name_y)) }
    ensures relation { IfOk result (λ stepped. (direction : Direction) (s : System) → IsOrderOf direction s less.now → HoldsOf direction (s ∷ s ∷ []) HasInside between.now.automaton → IsSuccessorOf direction s stepped.result) }
    ensures sizes { IfOk result (λ stepped. stepped.result.sizes ≡ less.now.sizes) }
    ensures width { IfOk result (λ stepped. HasWidth (NextAlike less.now between.now) (letter_count (joint_sizes (order_under less.now name_x name_y) between.now)) stepped.width) }
    ensures size { IfOk result (λ stepped. states_of stepped.result ≤ stepped.width) }
    ensures within { IfOk result (λ stepped. stepped.width ≤ limit.entry.most) }
    ensures no_letters { ¬ IsErrOf result OpFault.Letters }
    ensures states { IsErrOf result OpFault.States → HasApart (NextAlike less.now between.now) (letter_count (joint_sizes (order_under less.now name_x name_y) between.now)) (limit.entry.most + 1) }
{
    let order = order_on(alloc, less, "x", "y")?;
    let next = product(alloc, &order, between, Op::AndNot, &[], limit)?;
    Ok(Stepped {
        result: next.result.into_dfa(),
        width: next.width,
    })
}

// The order with names for its two tracks.
pub(crate) fn order_on(
    alloc: Global,
    less: &Dfa,
    first: &str,
    second: &str,
) -> Result<Tracked, OutOfMemory>
    requires canonical { IsCanonical less.now }
    requires tracks { length less.now.sizes ≡ 2 }
    requires distinct { first.now ≢ second.now }
    ensures { IfOk result (λ tracked. tracked ≡ order_under less.now first.now second.now) }
{
    let first_name = Name::new(alloc, first)?;
    let second_name = Name::new(alloc, second)?;
    let names = vec![in alloc; first_name, second_name]?;
    Ok(Tracked::of_canonical(less.copy(alloc)?, names))
}

//! The relations of a system's numbers.

ghost use Rattle.std.specs.Prelude.{◌≡◌, ◌+◌, ◌∷◌, [], ℕ, length, IfOk, OnOk};
ghost use Rattle.std.specs.Result.{IsErrOf};
ghost use Rattle.digit_tuple.specs.Letters.{IsAlphabet, IsTooLarge};
ghost use Rattle.digit_tuple.specs.Width.{HasApart};
ghost use Rattle.minimise.specs.Canonical.{IsCanonical};
ghost use Rattle.numeration.specs.Systems.{System, IsSystem};
ghost use Rattle.numeration.specs.Relations.{IsLanguageOf, IsAdderOf, IsEqualityOf, IsOrderOf, IsZeroOf};
ghost use Rattle.number_order.specs.Orders.{OrderAlike, pair_sizes, pair_letters};
ghost use Rattle.num_system.specs.Sealed.{AreOrderRelationsOf, AreRelationsOf};
ghost use Rattle.num_system.specs.Successor.{IsSuccessorOf};
ghost use Rattle.num_system.specs.Sealing.{IsMinimalLanguage, IsOrderWithin, IsSealedWithin, ExceedsByLetters, ExceedsByStates};

use crate::successor::successor_of;
use crate::successor_sums::successor_by_sums;
use crate::without_limit::without_limit;
use digit_tuple::dfa::Dfa;
use digit_tuple::direction::Direction;
use digit_tuple::faults::{OpFault, OutOfMemory};
use digit_tuple::limit::Limit;
use number_order::order::{equality_of, order_of};
use number_order::zero::zero_of;
use std::alloc::Global;

// Up to so many letters on three tracks the successor takes less time from the order than from the sums. Of more letters
// most have a transition in the product of two orders, and few in the adder.
const FEW_LETTERS: u32 = 64;

// The canonical automata of these relations.
#[derive(Drop)]
pub(crate) struct Relations {
    pub(crate) equal: Dfa,
    pub(crate) less: Dfa,
    pub(crate) successor: Dfa,
    pub(crate) zero: Dfa,
}

// The canonical automata of these but the successor.
#[derive(Drop)]
struct OrderRelations {
    equal: Dfa,
    less: Dfa,
    zero: Dfa,
}

impl OrderRelations {
    // The relations with this successor.
    fn with_successor(self, successor: Dfa) -> Relations
        ensures { result ≡ record { equal = self.equal; less = self.less; successor = successor; zero = self.zero } }
    {
        Relations {
            equal: self.equal,
            less: self.less,
            successor,
            zero: self.zero,
        }
    }
}

// The relations of each system whose language the canonical automaton accepts.
pub(crate) fn relations_of(
    alloc: Global,
    language: &Dfa,
    direction: Direction,
    limit: Limit<'_>,
) -> Result<Relations, OpFault>
    requires { (s : System) × IsSystem s × IsMinimalLanguage direction s language.now }
    ensures relations { IfOk result (λ r. (s : System) → IsSystem s → IsLanguageOf direction s language.now → AreRelationsOf direction s r.equal r.less r.successor r.zero) }
    ensures within { IfOk result (λ r. IsSealedWithin direction language.now r.less limit.entry.most) }
    ensures letters { IsErrOf result OpFault.Letters → (s : System) → IsSystem s → IsMinimalLanguage direction s language.now → ExceedsByLetters direction s limit.entry.most }
    ensures states { IsErrOf result OpFault.States → (s : System) → IsSystem s → IsMinimalLanguage direction s language.now → ExceedsByStates direction s limit.entry.most }
{
    let relations = order_relations(alloc, language, direction, limit)?;
    let successor = successor_of(alloc, &relations.less, direction, limit)?;
    Ok(relations.with_successor(successor))
}

// The relations of each system whose language and sums the canonical automata accept, without a limit.
pub(crate) fn relations_without_limit(
    alloc: Global,
    language: &Dfa,
    adder: &Dfa,
    direction: Direction,
) -> Result<Relations, OutOfMemory>
    requires system { (s : System) × IsSystem s × IsMinimalLanguage direction s language.now × IsAdderOf direction s adder.now }
    requires canonical { IsCanonical adder.now }
    requires fits { IsAlphabet adder.now.sizes }
    ensures { IfOk result (λ r. (s : System) → IsSystem s → IsLanguageOf direction s language.now → IsAdderOf direction s adder.now → AreRelationsOf direction s r.equal r.less r.successor r.zero) }
{
    let relations = without_limit(order_relations(alloc, language, direction, Limit::none()))?;
    let successor = successor_without_limit(alloc, &relations, adder, direction)?;
    Ok(relations.with_successor(successor))
}

// The canonical automaton of the successor, from the order where there are few letters, else from the sums.
fn successor_without_limit(
    alloc: Global,
    relations: &OrderRelations,
    adder: &Dfa,
    direction: Direction,
) -> Result<Dfa, OutOfMemory>
    requires less { IsCanonical relations.now.less }
    requires zero { IsCanonical relations.now.zero }
    requires adder { IsCanonical adder.now }
    requires tracks { (digits : ℕ) × (relations.now.less.sizes ≡ digits ∷ digits ∷ []) × (relations.now.zero.sizes ≡ digits ∷ []) × (adder.now.sizes ≡ digits ∷ digits ∷ digits ∷ []) }
    requires fits { IsAlphabet adder.now.sizes }
    ensures successor { IfOk result (λ next. (s : System) → IsSystem s → IsOrderOf direction s relations.now.less → IsZeroOf direction s relations.now.zero → IsAdderOf direction s adder.now → IsSuccessorOf direction s next) }
    ensures canonical { IfOk result (λ next. IsCanonical next) }
{
    if adder.alphabet().letters() <= FEW_LETTERS {
        return without_limit(successor_of(alloc, &relations.less, direction, Limit::none()));
    }
    successor_by_sums(alloc, &relations.less, &relations.zero, adder, direction)
}

// The relations but the successor of each system whose language the canonical automaton accepts. The
// faults are those of the order.
fn order_relations(
    alloc: Global,
    language: &Dfa,
    direction: Direction,
    limit: Limit<'_>,
) -> Result<OrderRelations, OpFault>
    requires { (s : System) × IsSystem s × IsMinimalLanguage direction s language.now }
    ensures relations { IfOk result (λ r. (s : System) → IsSystem s → IsLanguageOf direction s language.now → AreOrderRelationsOf direction s r.equal r.less r.zero) }
    ensures within { OnOk result (IsOrderWithin direction language.now limit.entry.most) }
    ensures letters { IsErrOf result OpFault.Letters → IsTooLarge (pair_sizes language.now) }
    ensures states { IsErrOf result OpFault.States → HasApart (OrderAlike direction language.now) (pair_letters language.now) (limit.entry.most + 1) }
    ensures letters_first { IsErrOf result OpFault.States → IsAlphabet (pair_sizes language.now) }
{
    let order = order_of(alloc, language, direction, limit)?;
    let equal = equality_within(alloc, language, direction, limit)?;
    let zero = zero_of(alloc, language)?;
    Ok(OrderRelations {
        equal,
        less: order.result,
        zero,
    })
}

// The canonical automaton of the equality, which is refused only where the order is.
fn equality_within(
    alloc: Global,
    language: &Dfa,
    direction: Direction,
    limit: Limit<'_>,
) -> Result<Dfa, OutOfMemory>
    requires track { length language.now.sizes ≡ 1 }
    requires canonical { IsCanonical language.now }
    requires within { IsOrderWithin direction language.now limit.most }
    ensures equality { IfOk result (λ equal. (s : System) → IsSystem s → IsLanguageOf direction s language.now → IsEqualityOf direction s equal) }
    ensures canonical { IfOk result (λ equal. IsCanonical equal) }
{
    match equality_of(alloc, language, direction, limit) {
        Ok(equality) => Ok(equality.result),
        Err(OpFault::Letters) => unreachable!(),
        Err(OpFault::States) => unreachable!(),
        Err(OpFault::Memory) => Err(OutOfMemory),
    }
}

//! The order and the equality of the numbers of a system, determined from its language alone.

ghost use Rattle.std.specs.Prelude.{◌≡◌, ◌+◌, ◌≤◌, ◌↔◌, length, IfOk, OnOk};
ghost use Rattle.std.specs.Result.{IsErrOf};
ghost use Rattle.digit_tuple.specs.Letters.{IsAlphabet, IsTooLarge};
ghost use Rattle.digit_tuple.specs.Deterministic.{states_of};
ghost use Rattle.digit_tuple.specs.Width.{HasApart, HasWidth};
ghost use Rattle.minimise.specs.Canonical.{IsCanonical};
ghost use Rattle.numeration.specs.Systems.{System, IsSystem};
ghost use Rattle.numeration.specs.Relations.{IsLanguageOf, IsOrderOf, IsEqualityOf};
ghost use Rattle.number_order.specs.Orders.{OrderAlike, pair_sizes, pair_letters};

use crate::pairs::compared;
use digit_tuple::dfa::Dfa;
use digit_tuple::direction::Direction;
use digit_tuple::faults::OpFault;
use digit_tuple::limit::Limit;
use digit_tuple::stepped::Stepped;
use std::alloc::Global;
use std::cmp::Ordering;

/// The canonical automaton of the pairs of numbers of which the first is less, for a canonical
/// automaton of one track that accepts the valid words of a system.
///
/// Valid words of one length are in the order of their numbers, most significant digit first (Shallit, "The Logical
/// Approach to Automatic Sequences"). The width is the number of triples of the language's residuals after the two
/// words and of the words' comparison, the empty residual counted too. `Letters` comes if and only if two tracks have
/// too many letters, and `States` if and only if the width passes the limit. Memory may also run out where 2^32 - 1
/// states are not enough. Time and memory follow the width times the letters.
pub fn order_of(
    alloc: Global,
    language: &Dfa,
    direction: Direction,
    limit: Limit<'_>,
) -> Result<Stepped<Dfa>, OpFault>
    requires track { length language.now.sizes ≡ 1 }
    requires canonical { IsCanonical language.now }
    ensures order { IfOk result (λ stepped. (s : System) → IsSystem s → IsLanguageOf direction s language.now → IsOrderOf direction s stepped.result) }
    ensures sizes { IfOk result (λ stepped. stepped.result.sizes ≡ pair_sizes language.now) }
    ensures canonical { IfOk result (λ stepped. IsCanonical stepped.result) }
    ensures width { IfOk result (λ stepped. HasWidth (OrderAlike direction language.now) (pair_letters language.now) stepped.width) }
    ensures size { IfOk result (λ stepped. states_of stepped.result ≤ stepped.width) }
    ensures within { IfOk result (λ stepped. stepped.width ≤ limit.entry.most) }
    ensures fits { OnOk result (IsAlphabet (pair_sizes language.now)) }
    ensures letters { IsErrOf result OpFault.Letters ↔ IsTooLarge (pair_sizes language.now) }
    ensures states { IsErrOf result OpFault.States → HasApart (OrderAlike direction language.now) (pair_letters language.now) (limit.entry.most + 1) }
    ensures letters_first { IsErrOf result OpFault.States → IsAlphabet (pair_sizes language.now) }
{
    compared(alloc, language, direction, Ordering::Less, limit)
}

/// The canonical automaton of the pairs of equal numbers. The language, the width and the faults are as for `order_of`.
pub fn equality_of(
    alloc: Global,
    language: &Dfa,
    direction: Direction,
    limit: Limit<'_>,
) -> Result<Stepped<Dfa>, OpFault>
    requires track { length language.now.sizes ≡ 1 }
    requires canonical { IsCanonical language.now }
    ensures equality { IfOk result (λ stepped. (s : System) → IsSystem s → IsLanguageOf direction s language.now → IsEqualityOf direction s stepped.result) }
    ensures sizes { IfOk result (λ stepped. stepped.result.sizes ≡ pair_sizes language.now) }
    ensures canonical { IfOk result (λ stepped. IsCanonical stepped.result) }
    ensures width { IfOk result (λ stepped. HasWidth (OrderAlike direction language.now) (pair_letters language.now) stepped.width) }
    ensures size { IfOk result (λ stepped. states_of stepped.result ≤ stepped.width) }
    ensures within { IfOk result (λ stepped. stepped.width ≤ limit.entry.most) }
    ensures fits { OnOk result (IsAlphabet (pair_sizes language.now)) }
    ensures letters { IsErrOf result OpFault.Letters ↔ IsTooLarge (pair_sizes language.now) }
    ensures states { IsErrOf result OpFault.States → HasApart (OrderAlike direction language.now) (pair_letters language.now) (limit.entry.most + 1) }
    ensures letters_first { IsErrOf result OpFault.States → IsAlphabet (pair_sizes language.now) }
{
    compared(alloc, language, direction, Ordering::Equal, limit)
}

//! Closure under padding.

ghost use Rattle.std.specs.Prelude.{◌≡◌, ℕ, ◌+◌, ◌≤◌, ◌↔◌, List, IfOk, IsTrue};
ghost use Rattle.std.specs.Result.{IsErrOf};
ghost use Rattle.digit_tuple.specs.Deterministic.{accepts_of, letters_of, states_of};
ghost use Rattle.digit_tuple.specs.Letters.{IsWord};
ghost use Rattle.digit_tuple.specs.Width.{HasApart, HasWidth};
ghost use Rattle.minimise.specs.Canonical.{IsCanonical};
ghost use Rattle.pad_rename.specs.Padding.{IsPadded, PaddedAlike};

use crate::padding_lsd::pad_lsd;
use crate::padding_msd::pad_msd;
use digit_tuple::dfa::Dfa;
use digit_tuple::direction::Direction;
use digit_tuple::faults::OpFault;
use digit_tuple::limit::Limit;
use digit_tuple::stepped::Stepped;
use std::alloc::Global;

/// The words that a canonical automaton accepts, with any number of zero letters more or fewer at the
/// end of the most significant ones: those before the word where the most significant digit comes first,
/// else those after it. The zero letter has the digit 0 on each track. The result is canonical.
///
/// The width counts kinds of words, over all words. Where the most significant digit comes first two words are alike
/// when both or neither are all zeros, and the same set of non-empty residuals of `a` is that after zeros and the one
/// without its leading zeros as after zeros and the other without its own. Where the least significant digit comes
/// first they are alike when one residual, which may be empty, is that after both, and one that after both without
/// their trailing zeros. The result has at most as many states. `States` comes if and only if the width passes the
/// limit, and `Letters` never. Memory may also run out where 2^32 - 1 states are not enough. Only what words lead to is
/// made: time and memory follow the size of `a` and the transitions from these sets, or from these pairs, of residuals,
/// and for sets also their sizes. Where the words are all there already the result is a copy of `a`, and nothing is
/// minimised; where the most significant digit comes first no set is made then either.
pub fn pad(
    alloc: Global,
    a: &Dfa,
    direction: Direction,
    limit: Limit<'_>,
) -> Result<Stepped<Dfa>, OpFault>
    requires { IsCanonical a.now }
    ensures sizes { IfOk result (λ stepped. stepped.result.sizes ≡ a.now.sizes) }
    ensures canonical { IfOk result (λ stepped. IsCanonical stepped.result) }
    ensures language { IfOk result (λ stepped. (w : List ℕ) → IsWord (letters_of a.now) w
        → IsTrue (accepts_of stepped.result w) ↔ IsPadded direction a.now w) }
    ensures width { IfOk result (λ stepped. HasWidth (PaddedAlike direction a.now) (letters_of a.now) stepped.width) }
    ensures size { IfOk result (λ stepped. states_of stepped.result ≤ stepped.width) }
    ensures within { IfOk result (λ stepped. stepped.width ≤ limit.entry.most) }
    ensures states { IsErrOf result OpFault.States → HasApart (PaddedAlike direction a.now) (letters_of a.now) (limit.entry.most + 1) }
    ensures no_letters { ¬ IsErrOf result OpFault.Letters }
{
    match direction {
        Direction::Msd => pad_msd(alloc, a, limit),
        Direction::Lsd => pad_lsd(alloc, a, limit),
    }
}

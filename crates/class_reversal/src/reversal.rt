//! The reversal of a function.

ghost use Rattle.std.specs.Prelude.{◌≡◌, ◌+◌, ◌≤◌, length, IfOk};
ghost use Rattle.std.specs.Result.{IsErrOf};
ghost use Rattle.digit_tuple.specs.Deterministic.{letters_of, states_of};
ghost use Rattle.digit_tuple.specs.Width.{HasApart, HasWidth};
ghost use Rattle.minimise.specs.Canonical.{IsCanonicalWithClasses};
ghost use Rattle.class_reversal.specs.ReversedClasses.{GivesReversedClasses, SameReversedClassAfter};

use crate::reached::reverse_reached;
use digit_tuple::dfa::Dfa;
use digit_tuple::faults::OpFault;
use digit_tuple::limit::Limit;
use digit_tuple::stepped::Stepped;
use minimise::canonical_classes::canonical_classes;
use std::alloc::Global;

/// The canonical automaton, with the class of each of its states, of the function that gives to a word the class that
/// the reversed word has in an automaton with a class for each state. Class 0 says that a word has none, as a missing
/// transition does. The width is the number of residuals of this function, the one without classes among them where it
/// occurs: two words are alike if what follows one of them has the class that it has after the other. No state is
/// listed for the residual without classes, unless no word has a class. Time and memory are those of minimising the
/// automaton first, and then of as many numbers as the minimal one has states, for each letter of each state of the
/// result.
///
/// # Errors
/// `States` if and only if the width passes the limit; `Letters` never. Memory may also run out where 2^32 - 1 states
/// are not enough, or there are 2^32 transitions.
pub fn reverse_classes(
    alloc: Global,
    d: &Dfa,
    classes: &[u32],
    limit: Limit<'_>,
) -> Result<Stepped<(Dfa, Vec<u32>)>, OpFault>
    requires { length classes.now ≡ states_of d.now }
    ensures sizes { IfOk result (λ stepped. stepped.result.0.sizes ≡ d.now.sizes) }
    ensures canonical { IfOk result (λ stepped. IsCanonicalWithClasses stepped.result.0 stepped.result.1.items) }
    ensures function { IfOk result (λ stepped. GivesReversedClasses d.now classes.now stepped.result.0 stepped.result.1.items) }
    ensures width { IfOk result (λ stepped. HasWidth (SameReversedClassAfter d.now classes.now) (letters_of d.now) stepped.width) }
    ensures size { IfOk result (λ stepped. states_of stepped.result.0 ≤ stepped.width) }
    ensures within { IfOk result (λ stepped. stepped.width ≤ limit.entry.most) }
    ensures states { IsErrOf result OpFault.States → HasApart (SameReversedClassAfter d.now classes.now) (letters_of d.now) (limit.entry.most + 1) }
    ensures letters { ¬ IsErrOf result OpFault.Letters }
{
    let (reached, reached_classes) = canonical_classes(alloc, d, classes)?;
    reverse_reached(alloc, &reached, &reached_classes, limit)
}

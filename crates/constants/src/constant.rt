//! The automaton of one number.

ghost use Rattle.std.specs.Prelude.{◌≡◌, ◌+◌, ◌≤◌, IfOk};
ghost use Rattle.std.specs.Result.{IsErrOf};
ghost use Rattle.digit_tuple.specs.Deterministic.{states_of};
ghost use Rattle.digit_tuple.specs.Width.{HasApart, HasWidth};
ghost use Rattle.minimise.specs.Canonical.{IsCanonical};
ghost use Rattle.numeration.specs.Systems.{System, IsSystem};
ghost use Rattle.numeration.specs.Relations.{IsLanguageOf};
ghost use Rattle.constants.specs.Constants.{IsConstantOf, ConstantAlike};

use crate::representation::representation;
use crate::word_automaton::paddings_of;
use digit_tuple::dfa::Dfa;
use digit_tuple::direction::Direction;
use digit_tuple::faults::OpFault;
use digit_tuple::limit::Limit;
use digit_tuple::stepped::Stepped;
use minimise::canonical::canonical;
use std::alloc::Global;

/// The canonical automaton of the representations of one number, for an automaton that accepts the valid words of a
/// system: the paddings of the word that represents the number (Allouche and Shallit, "Automatic Sequences"). The width
/// is the number of the language's residuals, the empty one too: two more than the word has digits. The result has at
/// most as many states. `States` comes if and only if the width passes the limit, and `Letters` never.
pub fn constant(
    alloc: Global,
    language: &Dfa,
    direction: Direction,
    number: u64,
    limit: Limit<'_>,
) -> Result<Stepped<Dfa>, OpFault>
    requires system { (s : System) × IsSystem s × IsLanguageOf direction s language.now }
    ensures constant { IfOk result (λ stepped. (s : System) → IsSystem s → IsLanguageOf direction s language.now → IsConstantOf direction s number stepped.result) }
    ensures canonical { IfOk result (λ stepped. IsCanonical stepped.result) }
    ensures width { IfOk result (λ stepped. (s : System) → IsSystem s → IsLanguageOf direction s language.now → HasWidth (ConstantAlike direction s number) s.digits stepped.width) }
    ensures size { IfOk result (λ stepped. states_of stepped.result ≤ stepped.width) }
    ensures within { IfOk result (λ stepped. stepped.width ≤ limit.entry.most) }
    ensures states { IsErrOf result OpFault.States → (s : System) → IsSystem s → IsLanguageOf direction s language.now → HasApart (ConstantAlike direction s number) s.digits (limit.entry.most + 1) }
    ensures no_letters { ¬ IsErrOf result OpFault.Letters }
{
    if limit.most < 2 {
        return Err(OpFault::States);
    }
    let word = representation(alloc, language, direction, number, limit.most - 2)?;
    let alphabet = language.alphabet().copy(alloc)?;
    let paddings = paddings_of(alloc, alphabet, &word, direction)?;
    Ok(Stepped {
        result: canonical(alloc, &paddings)?,
        width: word.len() as u32 + 2,
    })
}

//! Languages of tracks.

ghost use Rattle.std.specs.Prelude.{◌≡◌, ◌↔◌, ◌∷◌, [], IfOk, IsTrue, map};
ghost use Rattle.std.specs.Rc.{rc_value};
ghost use Rattle.minimise.specs.Canonical.{IsCanonical};
ghost use Rattle.product_op.specs.Validity.{AreLanguages};

use digit_tuple::dfa::Dfa;
use digit_tuple::faults::OutOfMemory;
use minimise::comparison::is_canonical;
use std::alloc::Global;
use std::rc::Rc;

/// Whether there is a canonical language for each track, over as many digits as the track has.
/// OutOfMemory comes too where 2^32 - 1 residuals are not enough.
pub fn are_languages(alloc: Global, sizes: &[u32], valid: &[Rc<Dfa>]) -> Result<bool, OutOfMemory>
    ensures { IfOk result (λ are. IsTrue are ↔ AreLanguages sizes.now (map rc_value valid.now)) }
{
    if valid.len() != sizes.len() {
        return Ok(false);
    }
    for (track, language) in valid.iter().enumerate() {
        if !is_language(alloc, sizes[track], language.as_ref())? {
            return Ok(false);
        }
    }
    Ok(true)
}

// Whether the automaton is a canonical language over so many digits.
fn is_language(alloc: Global, size: u32, language: &Dfa) -> Result<bool, OutOfMemory>
    ensures { IfOk result (λ is. IsTrue is ↔ (IsCanonical language.now × (language.now.sizes ≡ size ∷ []))) }
{
    if !is_only(language.alphabet().sizes(), size) {
        return Ok(false);
    }
    is_canonical(alloc, language)
}

// Whether the number is alone in the list.
fn is_only(numbers: &[u32], number: u32) -> bool
    ensures { IsTrue result ↔ (numbers.now ≡ number ∷ []) }
{
    numbers.len() == 1 && numbers[0] == number
}

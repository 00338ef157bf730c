//! The number 0.

ghost use Rattle.std.specs.Prelude.{◌≡◌, ◌<◌, [], ◌∷◌, IfOk};
ghost use Rattle.digit_tuple.specs.Deterministic.{letters_of};
ghost use Rattle.digit_tuple.specs.declared.direction.Direction.{Direction};
ghost use Rattle.minimise.specs.Canonical.{IsCanonical};
ghost use Rattle.numeration.specs.Systems.{System, IsSystem};
ghost use Rattle.numeration.specs.Relations.{IsZeroOf};

use digit_tuple::dfa::Dfa;
use digit_tuple::dfa_builder::DfaBuilder;
use digit_tuple::faults::OutOfMemory;
use minimise::canonical::canonical;
use std::alloc::Global;

/// The canonical automaton of the number 0, whose words are zeros alone, over the digits of a
/// language, in each direction.
pub fn zero_of(alloc: Global, language: &Dfa) -> Result<Dfa, OutOfMemory>
    requires { 0 < letters_of language.now }
    ensures zero { IfOk result (λ zero. (direction : Direction) (s : System) → IsSystem s → language.now.sizes ≡ s.digits ∷ [] → IsZeroOf direction s zero) }
    ensures sizes { IfOk result (λ zero. zero.sizes ≡ language.now.sizes) }
    ensures canonical { IfOk result IsCanonical }
{
    let alphabet = language.alphabet().copy(alloc)?;
    let mut builder = DfaBuilder::new(alloc, alphabet)?;
    let zeros = builder.add_state(true)?;
    builder.set(zeros, 0, zeros)?;
    canonical(alloc, &builder.finish()?)
}

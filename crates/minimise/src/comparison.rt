//! Whether automata are canonical, and whether canonical ones have one language.

ghost use Rattle.std.specs.Prelude.{◌≡◌, ◌↔◌, IsTrue, IfOk};
ghost use Rattle.minimise.specs.Residuals.{SameLanguage};
ghost use Rattle.minimise.specs.Canonical.{IsCanonical};

use crate::canonical::canonical;
use digit_tuple::dfa::Dfa;
use digit_tuple::faults::OutOfMemory;
use std::alloc::Global;

/// Whether the languages of two canonical automata over the same tracks are equal.
pub fn same(a: &Dfa, b: &Dfa) -> bool
    requires first { IsCanonical a.now }
    requires second { IsCanonical b.now }
    requires sizes { a.now.sizes ≡ b.now.sizes }
    ensures { IsTrue result ↔ SameLanguage a.now b.now }
{
    have_equal_states(a, b)
}

/// Whether the automaton is the canonical one of its language. OutOfMemory comes too where 2^32 - 1 residuals are not
/// enough, or there are 2^32 transitions.
pub fn is_canonical(alloc: Global, d: &Dfa) -> Result<bool, OutOfMemory>
    ensures { IfOk result (λ is. IsTrue is ↔ IsCanonical d.now) }
{
    let minimal = canonical(alloc, d)?;
    Ok(have_equal_states(&minimal, d))
}

// Whether the automata have equal states.
fn have_equal_states(a: &Dfa, b: &Dfa) -> bool
    ensures { IsTrue result ↔ (a.now.states ≡ b.now.states) }
{
    if a.states() != b.states() {
        return false;
    }
    for state in 0..a.states() {
        if !a.is_same_state(b, state) {
            return false;
        }
    }
    true
}

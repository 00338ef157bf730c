//! Whether canonical automata accept no word.

ghost use Rattle.std.specs.Prelude.{◌↔◌, IsTrue};
ghost use Rattle.minimise.specs.Canonical.{IsCanonical};
ghost use Rattle.minimise.specs.Residuals.{IsDead};

use digit_tuple::dfa::Dfa;

/// Whether the canonical automaton accepts no word.
pub fn accepts_nothing(d: &Dfa) -> bool
    requires { IsCanonical d.now }
    ensures { IsTrue result ↔ IsDead d.now 0 }
{
    !d.accepting(0) && d.is_bare(0)
}

//! The systems of numeration that a formula uses.

ghost use Rattle.headlines.specs.OwnSystems.{OwnSystems};
ghost use Rattle.headlines.specs.RefusedSystems.{RefusedSystems};

/// Each system of users' that an accepted `eval` or `def` uses is a numeration system, and its adder is addition.
pub fn own_systems()
    ensures { OwnSystems }
{}

/// A command that is refused because of a law names a system of users' whose files break that law, and keep each law before it.
pub fn refused_systems()
    ensures { RefusedSystems }
{}

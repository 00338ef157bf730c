//! Laws of resolutions, each a call that does nothing.

ghost use Rattle.formula_resolve.specs.Laws.{FreeIsUnbound, NoClashIsConsistent, OneResolution};

/// A formula has one answer with some headers, apart from out of memory.
pub fn one_resolution()
    ensures { OneResolution }
{}

/// The occurrences that the numbers of quantifiers determine to be free are those that no quantifier binds.
pub fn free_is_unbound()
    ensures { FreeIsUnbound }
{}

/// Where no occurrence clashes, all those under one binding have one system.
pub fn no_clash_is_consistent()
    ensures { NoClashIsConsistent }
{}

//! Laws of canonical automata.

ghost use Rattle.minimise.specs.Canonical.{CanonicalFormsAreEqual, CanonicalClassesAreEqual};

/// Two canonical automata over the same tracks with the same language are equal.
pub fn canonical_forms_are_equal()
    ensures { CanonicalFormsAreEqual }
{}

/// Two canonical automata with classes over the same tracks with the same function are equal, and so are
/// their classes.
pub fn canonical_classes_are_equal()
    ensures { CanonicalClassesAreEqual }
{}

//! The law of the width, a call that does nothing.

ghost use Rattle.project_close.specs.OneWidth.{OneProjectionWidth};

/// A projection has one width, and is refused under no limit that this does not pass.
pub fn projection_has_one_width()
    ensures { OneProjectionWidth }
{}

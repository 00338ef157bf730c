//! The law of the width, a call that does nothing.

ghost use Rattle.pad_rename.specs.OneWidth.{OnePaddingWidth};

/// A closure under padding has one width, and is refused under no limit that this does not pass.
pub fn padding_has_one_width()
    ensures { OnePaddingWidth }
{}

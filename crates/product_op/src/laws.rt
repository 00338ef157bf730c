//! The law of widths, a call that does nothing.

ghost use Rattle.product_op.specs.OneWidth.{OneProductWidth};

/// A product by each connective has one width, and is refused under no limit that this does not pass.
pub fn product_has_one_width()
    ensures { OneProductWidth }
{}

//! Laws of the definitions, each a call that does nothing: an operation has one width, and its step one outcome.

ghost use Rattle.lang_ops.specs.Laws.{ConcatHasOneOutcome, ProductHasOneOutcome, StarHasOneOutcome};
ghost use Rattle.lang_ops.specs.OneWidth.{OneConcatWidth, OnePairWidth, OneStarWidth};

/// A concatenation has one width, and is refused under no limit that this does not pass.
pub fn concat_has_one_width()
    ensures { OneConcatWidth }
{}

/// A star has one width, and is refused under no limit that this does not pass.
pub fn star_has_one_width()
    ensures { OneStarWidth }
{}

/// A connective of two languages has one width, and is refused under no limit that this does not pass.
pub fn pair_has_one_width()
    ensures { OnePairWidth }
{}

/// The step `concat`.
pub fn concat_has_one_outcome()
    ensures { ConcatHasOneOutcome }
{}

/// The step `star`.
pub fn star_has_one_outcome()
    ensures { StarHasOneOutcome }
{}

/// The step `product`, of two languages over the same tracks.
pub fn product_has_one_outcome()
    ensures { ProductHasOneOutcome }
{}

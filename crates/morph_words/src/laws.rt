//! Laws of rules.

ghost use Rattle.morph_words.specs.Laws.{OneAnswer, OrderIsFree, PrintedDerives, DerivesMorphisms};
ghost use Rattle.morph_words.specs.UniformLaws.{MorphismsHaveLengthsOrNot, MorphismsHaveOneLength};

/// Reading a text has one answer, where memory is left.
pub fn one_answer()
    ensures { OneAnswer }
{}

/// The printed text of a morphism derives from it.
pub fn printed_derives()
    ensures { PrintedDerives }
{}

/// The rules that a text has are a morphism.
pub fn derives_morphisms()
    ensures { DerivesMorphisms }
{}

/// Texts with the same rules, in whatever order they are, have one morphism, and so are printed alike.
pub fn order_is_free()
    ensures { OrderIsFree }
{}

/// All images of a morphism have one length within bounds, or it is refused as one kind, and not both.
pub fn morphisms_have_one_length()
    ensures some { MorphismsHaveLengthsOrNot }
    ensures one { MorphismsHaveOneLength }
{}

//! Kinds of refusal of morphisms.

/// Why a morphism is refused: the first of these that applies, with a letter that decides.
#[derive(Clone, Copy, Debug, PartialEq, Eq)]
pub enum MorphismKind {
    /// The image of this letter has another length than that of the least letter. It is the least such letter.
    NotUniform(i32),
    /// All images have one length, which is none of those that are allowed. This is the least letter.
    Length(i32),
    /// This letter is in an image, and has none. It is the least such letter.
    NotClosed(i32),
    /// The letter 0, named here, has no image that begins with it.
    NotFixed(i32),
}

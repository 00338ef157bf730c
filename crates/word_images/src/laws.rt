//! Laws of images, each a call that does nothing.

ghost use Rattle.word_images.specs.Laws.{ImagesAreJoined, ImagesHaveOneLetter};

/// The image of a word with a letter at each position is the images of its letters, one after another.
pub fn images_are_joined()
    ensures { ImagesAreJoined }
{}

/// The image of a word has one letter at most at each position.
pub fn images_have_one_letter()
    ensures { ImagesHaveOneLetter }
{}

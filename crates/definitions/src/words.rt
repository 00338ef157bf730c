//! Laws of words that are read of files, each a call that does nothing.

ghost use Rattle.definitions.specs.WordLaws.{FilesAreWords, WordsHaveFileLetters};

use word_output::laws::words_have_listed_letters;

/// What a word's file lists is a word, of which there is a state.
pub fn files_are_words()
    ensures { FilesAreWords }
{}

/// A word that is read of a file, over the systems that the names of its header mean, has at each position the letter of the file.
pub fn words_have_file_letters()
    ensures { WordsHaveFileLetters }
{
    words_have_listed_letters();
}

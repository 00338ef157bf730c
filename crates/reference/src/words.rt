//! Words of letters, and all of a length.

ghost use Rattle.std.specs.Prelude.{◌≡◌, ◌++◌, ◌∷◌, [], IfOk, OnOk};
ghost use Rattle.reference.specs.Words.{AreAllWords, after_letter};

use digit_tuple::faults::OutOfMemory;
use std::alloc::Global;
use std::marker::Model;

/// A word of letters.
#[derive(Drop)]
pub struct Word {
    places: Vec<u32>,
}

impl Model for Word {
    ghost use Rattle.std.specs.Prelude.{ℕ, List};

    ghost Value = { List ℕ };

    ghost view = { λ w. w.places.items };
}

impl Word {
    /// The word of these letters.
    pub fn new(letters: Vec<u32>) -> Self
        ensures { result ≡ letters.items }
    {
        Word { places: letters }
    }

    /// The letters.
    pub fn letters(&self) -> &[u32]
        ensures { result.now ≡ self.now }
    {
        &self.places
    }

    // The word after a letter.
    fn suffix(&self, alloc: Global, letter: u32) -> Result<Self, OutOfMemory>
        ensures { IfOk result (λ word. word ≡ letter ∷ self.now) }
    {
        let mut places = Vec::new(alloc);
        places.push(letter)?;
        places.extend_from_slice(&self.places)?;
        Ok(Word { places })
    }
}

/// All words of a length over so many letters, in order: the first letter changes slowest.
pub fn all_words(alloc: Global, letters: u32, length: usize) -> Result<Vec<Word>, OutOfMemory>
    ensures { IfOk result (λ words. AreAllWords letters length words.items) }
{
    if length == 0 {
        return one_empty(alloc);
    }
    let shorter = all_words(alloc, letters, length - 1)?;
    let mut words = Vec::new(alloc);
    for letter in 0..letters {
        push_after(alloc, &mut words, letter, &shorter)?;
    }
    Ok(words)
}

// The empty word alone.
fn one_empty(alloc: Global) -> Result<Vec<Word>, OutOfMemory>
    ensures { IfOk result (λ words. words.items ≡ [] ∷ []) }
{
    let mut words = Vec::new(alloc);
    words.push(Word::new(Vec::new(alloc)))?;
    Ok(words)
}

// Appends each word, with the letter before it.
fn push_after(
    alloc: Global,
    words: &mut Vec<Word>,
    letter: u32,
    shorter: &[Word],
) -> Result<(), OutOfMemory>
    ensures { OnOk result (words.new.items ≡ words.old.items ++ after_letter shorter.now letter) }
{
    for word in shorter {
        words.push(word.suffix(alloc, letter)?)?;
    }
    Ok(())
}

//! Whether a word of tuples matches an expression, by trying every cut of the word.

ghost use Rattle.std.specs.Prelude.{◌↔◌, IsTrue};
ghost use Rattle.regex_build.specs.Expression.{letter as letter_alone, follow, star};
ghost use Rattle.regex_build.specs.Matches.{Matches};
ghost use Rattle.reference.specs.Trees.{expression};

use crate::tree::Tree;
use crate::tuples::Tuple;

/// Whether the word matches the expression.
#[cycle(matches)]
pub fn matches(tree: &Tree, word: &[Tuple]) -> bool
    ensures { IsTrue result ↔ Matches (expression tree.now) word.now }
{
    match tree {
        Tree::Empty => word.is_empty(),
        Tree::Letter(letter) => is_letter(letter, word),
        Tree::Any => word.len() == 1,
        Tree::Either(first, second) => matches(first, word) || matches(second, word),
        Tree::Follow(first, second) => matches_follow(first, second, word),
        Tree::Star(once) => matches_star(once, word),
        Tree::Plus(once) => {
            if word.is_empty() {
                matches(once, word)
            } else {
                matches_star(once, word)
            }
        }
        Tree::Optional(once) => word.is_empty() || matches(once, word),
    }
}

// Whether the word matches the two, one after the other.
#[cycle(matches)]
fn matches_follow(first: &Tree, second: &Tree, word: &[Tuple]) -> bool
    ensures { IsTrue result ↔ Matches (follow (expression first.now) (expression second.now)) word.now }
{
    for cut in 0..=word.len() {
        if matches(first, &word[..cut]) && matches(second, &word[cut..]) {
            return true;
        }
    }
    false
}

// Whether the word matches the expression any number of times.
#[cycle(matches)]
fn matches_star(once: &Tree, word: &[Tuple]) -> bool
    ensures { IsTrue result ↔ Matches (star (expression once.now)) word.now }
{
    if word.is_empty() {
        return true;
    }
    for cut in 1..=word.len() {
        if matches(once, &word[..cut]) && matches_star(once, &word[cut..]) {
            return true;
        }
    }
    false
}

// Whether the word is the letter alone.
fn is_letter(letter: &Tuple, word: &[Tuple]) -> bool
    ensures { IsTrue result ↔ Matches (letter_alone letter.now) word.now }
{
    match word {
        [tuple] => tuple.members() == letter.members(),
        _ => false,
    }
}

//! Whether leading zeros keep the words of a language.

ghost use Rattle.std.specs.Prelude.{◌≡◌, ◌<◌, ◌↔◌, IsTrue};
ghost use Rattle.digit_tuple.specs.Deterministic.{states_of};
ghost use Rattle.minimise.specs.Canonical.{IsCanonical};
ghost use Rattle.endless.specs.LanguageLaws.{KeepsZeros, language_in};
ghost use Rattle.endless.specs.Links.{IgnoresZero};

use digit_tuple::dfa::Dfa;
use digit_tuple::direction::Direction;

/// Whether the empty word is in the language of a canonical automaton, and a leading zero changes nothing: a word with
/// one is in it if and only if the word without it is. Words are read in the direction. The cost is at most a look at
/// each state.
pub fn keeps_zeros(language: &Dfa, direction: Direction) -> bool
    requires canonical { IsCanonical language.now }
    ensures { IsTrue result ↔ KeepsZeros (language_in direction language.now) }
{
    match direction {
        Direction::Msd => keeps_first_zeros(language),
        Direction::Lsd => keeps_last_zeros(language),
    }
}

// The same where the most significant digit comes first.
fn keeps_first_zeros(language: &Dfa) -> bool
    requires canonical { IsCanonical language.now }
    ensures { IsTrue result ↔ KeepsZeros (language_in Direction.Msd language.now) }
{
    language.accepting(0) && language.step(0, 0) == Some(0)
}

// The same where it comes last.
fn keeps_last_zeros(language: &Dfa) -> bool
    requires canonical { IsCanonical language.now }
    ensures { IsTrue result ↔ KeepsZeros (language_in Direction.Lsd language.now) }
{
    if !language.accepting(0) {
        return false;
    }
    for state in 0..language.states() {
        if !ignores_zero(language, state) {
            return false;
        }
    }
    true
}

// Whether the word of one zero is accepted from the state if and only if the empty word is.
fn ignores_zero(language: &Dfa, state: u32) -> bool
    requires within { state < states_of language.now }
    ensures { IsTrue result ↔ IgnoresZero language.now state }
{
    let zero = match language.step(state, 0) {
        Some(next) => language.accepting(next),
        None => false,
    };
    zero == language.accepting(state)
}

//! Answers about the words that an automaton lists.

ghost use Rattle.std.specs.Prelude.{◌≡◌, ⊤, IfOk, MatchOption, MatchResult};
ghost use Rattle.digit_tuple.specs.Sets.{sizes_of};
ghost use Rattle.listings.specs.Tracks.{IsOnTracks};
ghost use Rattle.word_walk.specs.Listed.{is_listed};
ghost use Rattle.table_listings.specs.ListedLines.{AreListedLines, HasWalk, IsLinesFault};
ghost use Rattle.table_listings.specs.Questions.{Answers, IsAskedOn, IsUnanswered};

use crate::question::{Answer, Question, WordsAfter};
use digit_tuple::dfa::Dfa;
use digit_tuple::direction::Direction;
use digit_tuple::faults::OutOfMemory;
use digit_tuple::sets::Sets;
use listings::{Bounds, LineFault, next_lines, word_of};
use place_text::Place;
use std::alloc::Global;
use word_walk::infinity::is_infinite;
use word_walk::walk::Walk;

/// The most bytes that lines may have.
pub const LINES_LIMIT: usize = 16_777_216;

/// The answer about the words that the automaton lists. Where a direction is given, words that begin (msd) or end (lsd) with the
/// letter 0 are left out. The digits of the letters are members of the sets, one set for each track.
///
/// The lines are those of so many words after the place, or of all where there are fewer. It takes the time that it takes to
/// minimise the automaton, that of the walk, and time in proportion to the lines.
///
/// # Errors
/// `Long` if and only if the lines have more than `LINES_LIMIT` bytes, and `Memory`.
pub fn answer(
    alloc: Global,
    automaton: &Dfa,
    sets: &Sets,
    skip: Option<Direction>,
    question: &Question,
) -> Result<Answer, LineFault>
    requires sizes { automaton.now.sizes ≡ sizes_of sets.now }
    requires place { IsAskedOn sets.now question.now }
    ensures { MatchResult result (Answers (is_listed automaton.now skip) sets.now question.now) (IsUnanswered (is_listed automaton.now skip) sets.now question.now) }
{
    match question {
        Question::Words(words) => {
            Ok(Answer::Lines(listed_lines(alloc, automaton, sets, skip, words)?))
        }
        Question::Infinity => Ok(Answer::Verdict(is_infinite(alloc, automaton, skip)?)),
    }
}

// The lines of so many words after the place.
fn listed_lines(
    alloc: Global,
    automaton: &Dfa,
    sets: &Sets,
    skip: Option<Direction>,
    words: &WordsAfter,
) -> Result<Vec<u8>, LineFault>
    requires sizes { automaton.now.sizes ≡ sizes_of sets.now }
    requires place { MatchOption words.now.place ⊤ (IsOnTracks sets.now) }
    ensures { MatchResult result (λ text. AreListedLines (is_listed automaton.now skip) sets.now words.now.place words.now.count text.items) (IsLinesFault (is_listed automaton.now skip) sets.now words.now.place words.now.count) }
{
    let walk = walk_after(alloc, automaton, sets, skip, &words.place)?;
    let bounds = Bounds {
        words: words.count,
        bytes: LINES_LIMIT,
    };
    next_lines(alloc, automaton.alphabet(), sets, walk, bounds)
}

// The walk at the place.
fn walk_after(
    alloc: Global,
    automaton: &Dfa,
    sets: &Sets,
    skip: Option<Direction>,
    place: &Option<Place>,
) -> Result<Walk, OutOfMemory>
    requires sizes { automaton.now.sizes ≡ sizes_of sets.now }
    requires place { MatchOption place.now ⊤ (IsOnTracks sets.now) }
    ensures { IfOk result (HasWalk automaton.now skip sets.now place.now) }
{
    match place {
        None => Walk::new(alloc, automaton, skip),
        Some(place) => match word_of(alloc, automaton.alphabet(), sets, place)? {
            Some(word) => Walk::resume(alloc, automaton, skip, &word),
            None => unreachable!(),
        },
    }
}

//! The lines below the set.

ghost use Rattle.std.specs.Prelude.{◌≡◌, ◌==◌, option_map, option_and_then};
ghost use Rattle.std.specs.List.{slice_split};
ghost use Rattle.dfa_reading.specs.Numbers.{integer_of};
ghost use Rattle.dfa_reading.specs.Entries.{state_number as number_of_state};
ghost use Rattle.transducer_reading.specs.Entries.{two_of, within_set, letter_of, result_of as result_of_text, entry_of};
ghost use Rattle.transducer_reading.specs.EntryViews.{entry_view};

use crate::read_lines::{cut_arrow, cut_at, only_part};
use crate::read_numbers::{integer, number_below};
use digit_tuple::letter_set::LetterSet;

// One above the largest number of a state.
const STATE_LIMIT: u64 = 4294967296;

/// What a line below the set lists.
#[derive(Clone, Copy, PartialEq, Eq)]
pub enum Entry {
    /// The number of a state.
    State(usize),
    /// A letter, where None is `*`, with the number of a target and an output.
    Line(Option<i32>, usize, i32),
}

/// What a line lists, if it has the form of a state's number or of a line of a state.
#[tactic(auto, unfolding(crate::specs::Entries::entry_of))]
pub fn read_entry(set: &LetterSet, line: &[u8]) -> Option<Entry>
    ensures { option_map entry_view result ≡ entry_of set.now line.now }
{
    let Some((before, after)) = cut_arrow(line) else {
        return Some(Entry::State(state_number(only_part(line)?)?));
    };
    let letter = letter(set, only_part(before)?)?;
    let (target, output) = result_of(after)?;
    Some(Entry::Line(letter, target, output))
}

fn state_number(part: &[u8]) -> Option<usize>
    ensures { result ≡ number_of_state part.now }
{
    let number = number_below(STATE_LIMIT, part)?;
    Some(number as usize)
}

// `*`, or a letter of the set.
fn letter(set: &LetterSet, part: &[u8]) -> Option<Option<i32>>
    ensures { result ≡ letter_of set.now part.now }
{
    if part.len() == 1 && part[0] == b'*' {
        return Some(None);
    }
    let letter = member(set, part)?;
    Some(Some(letter))
}

// A letter of the set.
fn member(set: &LetterSet, part: &[u8]) -> Option<i32>
    ensures { result ≡ option_and_then (within_set set.now) (integer_of part.now) }
{
    let letter = integer(part)?;
    if set.place_of(letter).is_some() {
        Some(letter)
    } else {
        None
    }
}

// The number of a target and an output, with `/` between them.
fn result_of(text: &[u8]) -> Option<(usize, i32)>
    ensures { result ≡ result_of_text text.now }
{
    let Some((before, after)) = cut_slash(text) else {
        return None;
    };
    let target = state_number(only_part(before)?)?;
    let output = integer(only_part(after)?)?;
    Some((target, output))
}

// The two texts that one `/` divides.
fn cut_slash(text: &[u8]) -> Option<(&[u8], &[u8])>
    ensures { option_map (λ p. (p.0.now, p.1.now)) result ≡ two_of (slice_split (λ b. b == 47) text.now) }
{
    let (before, rest) = cut_at(b'/', text);
    let Some(rest) = rest else {
        return None;
    };
    let (after, more) = cut_at(b'/', rest);
    match more {
        None => Some((before, after)),
        Some(_) => None,
    }
}

//! Lines of a file, and the parts of a line.

ghost use Rattle.std.specs.Prelude.{◌≡◌, ◌≤◌, ◌<◌, ◌∷◌, [], ◌==◌, length, not, MatchOption, option_map, option_copied};
ghost use Rattle.std.specs.List.{prefix_len as len_of_prefix, slice_split};
ghost use Rattle.text_grammar.specs.Bytes.{is_blank};
ghost use Rattle.dfa_reading.specs.Lines.{parts_of, is_passed as passed, arrow_at};
ghost use Rattle.dfa_reading.specs.Views.{pieces_after};
ghost use Rattle.transducer_reading.specs.Entries.{only_part as only_part_of};

use text_grammar::{Class, prefix_len};

/// The first part of a line, and what follows it.
fn next_part(line: &[u8]) -> Option<(&[u8], &[u8])>
    ensures { MatchOption result (parts_of line.now ≡ []) (λ p. (parts_of line.now ≡ p.0.now ∷ parts_of p.1.now) × (length p.1.now < length line.now)) }
{
    let begun = &line[prefix_len(Class::Blank, line)..];
    if begun.is_empty() {
        return None;
    }
    Some(begun.split_at(part_len(begun)))
}

// How many leading bytes are no blanks.
fn part_len(bytes: &[u8]) -> usize
    ensures len { result ≡ len_of_prefix (λ b. not (is_blank b)) bytes.now }
    ensures within { result ≤ length bytes.now }
{
    for (index, byte) in bytes.iter().enumerate() {
        if Class::Blank.contains(*byte) {
            return index;
        }
    }
    bytes.len()
}

/// All of a text but blanks, if it is one part.
pub fn only_part(text: &[u8]) -> Option<&[u8]>
    ensures { option_copied result ≡ only_part_of text.now }
{
    let (part, rest) = next_part(text)?;
    match next_part(rest) {
        None => Some(part),
        Some(_) => None,
    }
}

/// Whether a line is passed over: it is blank, or its first byte that is no blank is `#`.
#[tactic(auto, unfolding(dfa_reading::specs::Lines::is_passed))]
pub fn is_passed(line: &[u8]) -> bool
    ensures { result ≡ passed line.now }
{
    match next_part(line) {
        None => true,
        Some((part, _)) => {
            if let [first, ..] = part {
                *first == b'#'
            } else {
                false
            }
        }
    }
}

/// What comes before the first byte that is `mark`, and after it; all of the bytes and nothing where there is none.
pub fn cut_at(mark: u8, bytes: &[u8]) -> (&[u8], Option<&[u8]>)
    ensures pieces { slice_split (λ b. b == mark) bytes.now ≡ result.0.now ∷ pieces_after mark (option_copied result.1) }
    ensures shorter { MatchOption result.1 (length bytes.now ≡ length result.0.now) (λ rest. length rest.now < length bytes.now) }
{
    for (index, byte) in bytes.iter().enumerate() {
        if *byte == mark {
            return (&bytes[..index], Some(&bytes[index + 1..]));
        }
    }
    (bytes, None)
}

/// What comes before the first `->`, and after it.
pub fn cut_arrow(line: &[u8]) -> Option<(&[u8], &[u8])>
    ensures { option_map (λ p. (p.0.now, p.1.now)) result ≡ arrow_at line.now }
{
    let mut index = 0;
    while index + 1 < line.len() {
        if line[index] == b'-' && line[index + 1] == b'>' {
            return Some((&line[..index], &line[index + 2..]));
        }
        index += 1;
    }
    None
}

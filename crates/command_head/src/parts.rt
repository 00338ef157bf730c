ghost use Rattle.std.specs.Prelude.{◌≡◌, ◌<◌, ◌≤◌, length, true};
ghost use Rattle.command_head.specs.Parts.{begins_with_value as value_first, begins_with_ending as ending_first, ending_len as len_of_ending, quoted_len as len_of_quoted, part_len as len_of_part, is_name as is_name_part, is_word as is_word_part, is_quoted as is_quoted_part, unquoted as inside_quotes};

use text_grammar::{Class, all_in, begins_in, begins_with, number_len, prefix_len, unsigned};

/// The greatest length of a name.
const LONGEST_NAME: usize = 64;

/// Whether `=` and a number come first.
fn begins_with_value(bytes: &[u8]) -> bool
    ensures { result ≡ value_first bytes.now }
{
    begins_with(b'=', bytes) && begins_in(Class::Digit, unsigned(&bytes[1..]))
}

/// Whether `.txt` comes first.
fn begins_with_ending(bytes: &[u8]) -> bool
    ensures { result ≡ ending_first bytes.now }
{
    match bytes {
        [b'.', b't', b'x', b't', ..] => true,
        _ => false,
    }
}

/// How many of the bytes after a name are of the same part: `NAME=V` and `NAME.txt` are one.
fn ending_len(bytes: &[u8]) -> usize
    ensures len { result ≡ len_of_ending bytes.now }
    ensures within { result ≤ length bytes.now }
{
    if begins_with_value(bytes) {
        1 + number_len(&bytes[1..])
    } else if begins_with_ending(bytes) {
        4
    } else {
        0
    }
}

/// How long a text in quotes is, which ends with the bytes where it lacks its second quote.
fn quoted_len(bytes: &[u8]) -> usize
    requires { 0 < length bytes.now }
    ensures { result ≡ len_of_quoted bytes.now }
{
    (prefix_len(Class::Unquoted, &bytes[1..]) + 2).min(bytes.len())
}

/// How long the part is that comes first.
#[tactic(auto, unfolding(crate::specs::Parts::part_len))]
pub(crate) fn part_len(bytes: &[u8]) -> usize
    requires { 0 < length bytes.now }
    ensures len { result ≡ len_of_part bytes.now }
    ensures within { result ≤ length bytes.now }
{
    if begins_in(Class::Letter, bytes) {
        let len = prefix_len(Class::NameByte, bytes);
        len + ending_len(&bytes[len..])
    } else if begins_in(Class::Digit, unsigned(bytes)) {
        number_len(bytes)
    } else if begins_with(b'"', bytes) {
        quoted_len(bytes)
    } else {
        1
    }
}

/// Whether a part is a name.
pub(crate) fn is_name(part: &[u8]) -> bool
    ensures { result ≡ is_name_part part.now }
{
    begins_in(Class::Letter, part) && all_in(Class::NameByte, part) && part.len() <= LONGEST_NAME
}

/// Whether a part is a name that may name a word: it begins with none of `A`, `E` and `I`.
pub(crate) fn is_word(part: &[u8]) -> bool
    ensures { result ≡ is_word_part part.now }
{
    is_name(part)
        && !(begins_with(b'A', part) || begins_with(b'E', part) || begins_with(b'I', part))
}

/// Whether a part is a text in quotes.
pub(crate) fn is_quoted(part: &[u8]) -> bool
    ensures { result ≡ is_quoted_part part.now }
{
    if !begins_with(b'"', part) {
        return false;
    }
    let text = &part[1..];
    let suffix = &text[prefix_len(Class::Unquoted, text)..];
    suffix == b"\"".as_slice()
}

/// What is in the quotes of a part.
pub(crate) fn unquoted(part: &[u8]) -> &[u8]
    requires { is_quoted_part part.now ≡ true }
    ensures { result.now ≡ inside_quotes part.now }
{
    let text = &part[1..];
    &text[..prefix_len(Class::Unquoted, text)]
}

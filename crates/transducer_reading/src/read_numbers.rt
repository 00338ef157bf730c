//! Numbers read from a file.

ghost use Rattle.std.specs.Prelude.{◌≡◌};
ghost use Rattle.dfa_reading.specs.Numbers.{number_below as number_below_of, integer_of};

use text_grammar::{are_digits, is_number, number_of, value_within};

/// The number that the digits denote, if they are at least one and nothing else, and the number is below the
/// limit.
pub fn number_below(limit: u64, bytes: &[u8]) -> Option<u64>
    ensures { result ≡ number_below_of limit bytes.now }
{
    if !are_digits(bytes) {
        return None;
    }
    let number = value_within(limit, bytes)?;
    if number < limit { Some(number) } else { None }
}

/// The signed number of 32 bits that the bytes denote.
pub fn integer(bytes: &[u8]) -> Option<i32>
    ensures { result ≡ integer_of bytes.now }
{
    if is_number(bytes) {
        number_of(bytes)
    } else {
        None
    }
}

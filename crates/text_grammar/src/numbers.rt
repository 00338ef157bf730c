ghost use Rattle.std.specs.Prelude.{◌≡◌, ◌<◌, ◌≤◌, ◌^◌, length, MatchOption, true, false};
ghost use Rattle.text_grammar.specs.Numbers.{begins_with as begins_with_byte, value_of, signed as signed_number, is_short, unsigned as after_sign, are_digits as are_digits_text, is_number as is_number_text, number_of as number_of_text, number_len as len_of_number};

use super::class::Class;
use super::prefix::{all_in, prefix_len};

/// The greatest distance of a number of 32 bits from 0.
const FARTHEST: u64 = 2147483648;

/// Whether this byte comes first.
pub fn begins_with(byte: u8, bytes: &[u8]) -> bool
    ensures { result ≡ begins_with_byte byte bytes.now }
{
    match bytes {
        [first, ..] => *first == byte,
        [] => false,
    }
}

/// The number that these digits denote, negative where that is asked for, if it fits 32 bits, signed.
/// Its time is linear in the number of digits.
pub fn short_number(negative: bool, digits: &[u8]) -> Option<i32>
    ensures { MatchOption result (is_short (2 ^ 31) (signed_number negative (value_of digits.now)) ≡ false)
        (λ n. (n ≡ signed_number negative (value_of digits.now)) × (is_short (2 ^ 31) n ≡ true)) }
{
    match value_within(FARTHEST, digits) {
        Some(magnitude) => signed(negative, magnitude),
        None => None,
    }
}

/// The number that these digits denote, if it is at most `most`. Its time is linear in the number of digits.
#[tactic(auto, using(crate::proofs::NumberSteps::value_reaches))]
pub fn value_within(most: u64, digits: &[u8]) -> Option<u64>
    ensures { MatchOption result (most < value_of digits.now) (λ n. (n ≡ value_of digits.now) × (n ≤ most)) }
{
    let mut value: u64 = 0;
    for digit in digits {
        let Some(tens) = value.checked_mul(10) else {
            return None;
        };
        let Some(next) = tens.checked_add(u64::from(digit.saturating_sub(b'0'))) else {
            return None;
        };
        if next > most {
            return None;
        }
        value = next;
    }
    Some(value)
}

/// The number with this sign, where it has 32 bits.
fn signed(negative: bool, magnitude: u64) -> Option<i32>
    requires { magnitude ≤ FARTHEST }
    ensures { MatchOption result (is_short (2 ^ 31) (signed_number negative magnitude) ≡ false)
        (λ n. (n ≡ signed_number negative magnitude) × (is_short (2 ^ 31) n ≡ true)) }
{
    let distance = magnitude as i64;
    let number = if negative { -distance } else { distance };
    i32::try_from(number).ok()
}

/// The bytes after the sign, if there is one.
pub fn unsigned(bytes: &[u8]) -> &[u8]
    ensures { result.now ≡ after_sign bytes.now }
{
    if begins_with(b'-', bytes) {
        &bytes[1..]
    } else {
        bytes
    }
}

/// Whether the bytes are digits, at least one.
pub fn are_digits(bytes: &[u8]) -> bool
    ensures { result ≡ are_digits_text bytes.now }
{
    !bytes.is_empty() && all_in(Class::Digit, bytes)
}

/// Whether the bytes are a number: digits, at least one, after a sign or none.
pub fn is_number(bytes: &[u8]) -> bool
    ensures { result ≡ is_number_text bytes.now }
{
    are_digits(unsigned(bytes))
}

/// The number that the bytes denote, if it fits 32 bits, signed.
pub fn number_of(bytes: &[u8]) -> Option<i32>
    ensures { MatchOption result (is_short (2 ^ 31) (number_of_text bytes.now) ≡ false)
        (λ n. (n ≡ number_of_text bytes.now) × (is_short (2 ^ 31) n ≡ true)) }
{
    short_number(begins_with(b'-', bytes), unsigned(bytes))
}

/// How long the number is with which the bytes begin, or 0 if they begin with none.
pub fn number_len(bytes: &[u8]) -> usize
    ensures len { result ≡ len_of_number bytes.now }
    ensures within { result ≤ length bytes.now }
{
    let digits = unsigned(bytes);
    let len = prefix_len(Class::Digit, digits);
    if len == 0 {
        0
    } else {
        bytes.len() - digits.len() + len
    }
}

//! The tokens of a text, read one after the other.

ghost use Rattle.std.specs.Prelude.{◌≡◌, ◌≤◌, ◌<◌, ◌+◌, ◌∷◌, ◌==◌, ◌&&◌, true, ℕ, Bool, List, false, drop, length, min, slice_index};
ghost use Rattle.std.specs.List.{filter};
ghost use Rattle.text_grammar.specs.declared.class.Class.TheVariants.{Blank, Digit};
ghost use Rattle.text_grammar.specs.Bytes.{is_blank, is_digit};
ghost use Rattle.text_grammar.specs.Prefixes.{begins_in, after_prefix};
ghost use Rattle.text_grammar.specs.Numbers.{signed as signed_number, value_of};
ghost use Rattle.text_grammar.specs.Signs.{sign_of};
ghost use Rattle.text_grammar.specs.Spots.{lexeme_of, spots_from};
ghost use Rattle.regex_build.specs.Tokens.{other};
ghost use Rattle.regex_build.specs.Spots as spots;
ghost use Rattle.regex_build.specs.Reading.{token_view, lexeme_view, IsWritten, IsNextOrNone};

use crate::token::Token;
use text_grammar::{Class, begins_in as begins_in_class, prefix_len};

/// The value of each greater number: no such number has 32 bits, with either sign.
const GREATEST: u64 = 4294967295;

/// A token that begins at a byte, and how many bytes it has.
#[derive(Drop)]
pub(crate) struct Lexeme {
    pub token: Token,
    pub len: usize,
}

/// A token with the byte at which it begins, and the byte after it.
#[derive(Drop)]
pub(crate) struct Spot {
    pub token: Token,
    pub at: usize,
    pub end: usize,
}

/// The number that the digits among the bytes write, or `GREATEST` if it is greater.
#[tactic(auto, using(crate::proofs::SpotSteps::value_blank, crate::proofs::SpotSteps::value_digit, crate::proofs::SpotSteps::value_end))]
fn distance(bytes: &[u8]) -> u64
    ensures { result ≡ min (value_of (filter is_digit bytes.now)) GREATEST }
{
    let mut value: u64 = 0;
    for byte in bytes {
        if Class::Digit.contains(*byte) {
            value = (value * 10 + u64::from(byte.saturating_sub(b'0'))).min(GREATEST);
        }
    }
    value
}

/// The number with this sign and this distance from 0.
fn signed(negative: bool, distance: u64) -> i64
    requires { distance ≤ GREATEST }
    ensures { result ≡ signed_number negative distance }
{
    let number = distance as i64;
    if negative { -number } else { number }
}

/// The token that a byte is by itself.
fn sign_token(byte: u8) -> Token
    ensures is { (bytes : List ℕ) → sign_of spots.signs other (byte ∷ bytes) ≡ lexeme_of (token_view result) 1 }
    ensures written { IsWritten (token_view result) }
{
    match byte {
        b'|' => Token::Bar,
        b'*' => Token::Star,
        b'+' => Token::Plus,
        b'?' => Token::Optional,
        b'.' => Token::Dot,
        b'(' => Token::Opening,
        b')' => Token::Closing,
        b'[' => Token::Bracket,
        b',' => Token::Comma,
        b']' => Token::Unbracket,
        _ => Token::Other,
    }
}

impl Lexeme {
    fn short(token: Token) -> Lexeme
        ensures { result ≡ record { token = token; len = 1 } }
    {
        Lexeme { token, len: 1 }
    }

    /// A number, after a sign or none.
    fn number(negative: bool, sign: usize, bytes: &[u8]) -> Lexeme
        requires { sign ≤ 1 }
        ensures is { lexeme_view result ≡ spots.number_lexeme negative sign bytes.now }
        ensures within { result.len ≤ sign + length bytes.now }
        ensures written { IsWritten (token_view result.token) }
    {
        let len = prefix_len(Class::DigitOrBlank, bytes);
        let distance = distance(&bytes[..len]);
        Lexeme {
            token: Token::Number(signed(negative, distance)),
            len: sign + len,
        }
    }
}

/// Whether a `-` and a number begin with this byte and those after it.
fn leads_number(first: u8, after_token: &[u8]) -> bool
    ensures { result ≡ (first == 45 && begins_in Digit (after_prefix Blank after_token.now)) }
{
    first == b'-'
        && begins_in_class(
            Class::Digit,
            &after_token[prefix_len(Class::Blank, after_token)..],
        )
}

/// The token with which bytes inside of brackets begin: a first byte, and those after it.
fn lexeme_inside(first: u8, after_token: &[u8], all: &[u8]) -> Lexeme
    requires { all.now ≡ first ∷ after_token.now }
    ensures is { lexeme_view result ≡ spots.lexeme true (first ∷ after_token.now) }
    ensures within { result.len ≤ length after_token.now + 1 }
    ensures written { IsWritten (token_view result.token) }
{
    if Class::Digit.contains(first) {
        return Lexeme::number(false, 0, all);
    }
    if leads_number(first, after_token) {
        return Lexeme::number(true, 1, after_token);
    }
    Lexeme::short(sign_token(first))
}

/// The token with which bytes outside of brackets begin: a first byte, and those after it.
fn lexeme_outside(first: u8, after_token: &[u8]) -> Lexeme
    ensures is { lexeme_view result ≡ spots.lexeme false (first ∷ after_token.now) }
    ensures within { result.len ≤ length after_token.now + 1 }
    ensures written { IsWritten (token_view result.token) }
{
    if Class::Digit.contains(first) {
        return Lexeme::short(Token::Digit(first - b'0'));
    }
    Lexeme::short(sign_token(first))
}

/// The token with which bytes begin, inside of brackets or not.
fn lexeme_of_text(inside: bool, first: u8, after_token: &[u8], all: &[u8]) -> Lexeme
    requires { all.now ≡ first ∷ after_token.now }
    ensures is { lexeme_view result ≡ spots.lexeme inside (first ∷ after_token.now) }
    ensures within { result.len ≤ length after_token.now + 1 }
    ensures written { IsWritten (token_view result.token) }
{
    if inside {
        lexeme_inside(first, after_token, all)
    } else {
        lexeme_outside(first, after_token)
    }
}

/// The first byte from `start` on that is no blank, or the text's length.
fn blanks_end(text: &[u8], start: usize) -> usize
    requires { start ≤ length text.now }
    ensures within { result ≤ length text.now }
    ensures from { start ≤ result }
    ensures spots { (m : Bool) → spots_from spots.lexing m start 0 (drop start text.now) ≡ spots_from spots.lexing m result 0 (drop result text.now) }
    ensures stops { result < length text.now → is_blank (slice_index text.now result) ≡ false }
{
    start + prefix_len(Class::Blank, &text[start..])
}

/// The token at or after `start`, if there is one.
#[tactic(auto, using(crate::proofs::SpotSteps::no_next, crate::proofs::SpotSteps::next_token))]
pub(crate) fn next_spot(text: &[u8], start: usize, inside: bool) -> Option<Spot>
    requires { start ≤ length text.now }
    ensures { IsNextOrNone inside text.now start result }
{
    let at = blanks_end(text, start);
    if at == text.len() {
        return None;
    }
    let lexeme = lexeme_of_text(inside, text[at], &text[at + 1..], &text[at..]);
    Some(Spot {
        token: lexeme.token,
        at,
        end: at + lexeme.len,
    })
}

//! The tokens of a text, read one after the other.

ghost use Rattle.std.specs.Prelude.{◌≡◌, ◌≤◌, ◌<◌, false, drop, length, slice_index, IsAscii, IfOk};
ghost use Rattle.text_grammar.specs.Bytes.{is_blank};
ghost use Rattle.text_grammar.specs.Spots.{lexeme_of, spots_from};
ghost use Rattle.formula_parse.specs.Spots as spots;
ghost use Rattle.formula_parse.specs.StateViews.{token_view};
ghost use Rattle.formula_parse.specs.LexemeViews.{mode_view, lexed_view, lexeme_view, name_maker, IsNext};

use crate::token::{ChainSign, Token};
use crate::tree::{Quantifier, Relation, Sign};
use digit_tuple::faults::OutOfMemory;
use digit_tuple::name::Name;
use std::alloc::Global;
use std::str;
use text_grammar::{Class, LONGEST_SYSTEM, begins_in, is_direction, prefix_len, value_within};

/// The greatest length of a name.
const LONGEST_NAME: usize = 64;

/// What comes before a token: a system may follow `?`, and a name `$`.
#[derive(Clone, Copy)]
pub(crate) enum Mode {
    Plain,
    AfterMark,
    AfterCall,
}

/// A token, or a numeral of 2^64 or more.
#[derive(Drop)]
pub(crate) enum Lexed {
    Token(Token),
    Big,
}

/// A token that begins at a byte, and how many bytes it has.
#[derive(Drop)]
pub(crate) struct Lexeme {
    pub lexed: Lexed,
    pub len: usize,
}

/// A token with the byte at which it begins, and the byte after it.
#[derive(Drop)]
pub(crate) struct Spot {
    pub lexed: Lexed,
    pub at: usize,
    pub end: usize,
}

impl Lexeme {
    /// No token.
    fn none() -> Lexeme
        ensures { lexeme_view result ≡ spots.no_lexeme }
    {
        Lexeme {
            lexed: Lexed::Token(Token::Other),
            len: 1,
        }
    }

    /// A token of so many bytes.
    fn new(token: Token, len: usize) -> Lexeme
        ensures { lexeme_view result ≡ lexeme_of (token_view token) len }
    {
        Lexeme {
            lexed: Lexed::Token(token),
            len,
        }
    }
}

/// The byte at a position, or 0.
fn byte_at(bytes: &[u8], position: usize) -> u8
    ensures { result ≡ slice_index bytes.now position }
{
    if position < bytes.len() {
        bytes[position]
    } else {
        0
    }
}

/// A name of ASCII bytes.
fn name_of(alloc: Global, bytes: &[u8]) -> Result<Name, OutOfMemory>
    requires { IsAscii bytes.now }
    ensures { IfOk result (λ name. name ≡ bytes.now) }
{
    let text = str::from_utf8(bytes).unwrap();
    Name::new(alloc, text)
}

/// A name of at most 64 bytes, after a `$` or elsewhere.
#[tactic(auto, using(crate::proofs::Ascii::ascii_name))]
fn name_lexeme(alloc: Global, called: bool, rest: &[u8]) -> Result<Lexeme, OutOfMemory>
    ensures { IfOk result (λ l. lexeme_view l ≡ spots.name_lexeme (name_maker called) rest.now) }
{
    let len = prefix_len(Class::NameByte, rest);
    if len > LONGEST_NAME {
        return Ok(Lexeme::none());
    }
    let name = name_of(alloc, &rest[..len])?;
    let token = if called {
        Token::Called(name)
    } else {
        Token::Name(name)
    };
    Ok(Lexeme {
        lexed: Lexed::Token(token),
        len,
    })
}

/// A numeral.
fn number_lexeme(rest: &[u8]) -> Lexeme
    ensures { lexeme_view result ≡ spots.number_lexeme rest.now }
{
    let len = prefix_len(Class::Digit, rest);
    let lexed = match value_within(u64::MAX, &rest[..len]) {
        Some(value) => Lexed::Token(Token::Number(value)),
        None => Lexed::Big,
    };
    Lexeme { lexed, len }
}

/// `E`, `A`, `I`, or a variable or a word.
fn letter_lexeme(alloc: Global, rest: &[u8]) -> Result<Lexeme, OutOfMemory>
    ensures { IfOk result (λ l. lexeme_view l ≡ spots.letter_lexeme rest.now) }
{
    let first = byte_at(rest, 0);
    if first == b'E' {
        return Ok(Lexeme::new(Token::Quantifier(Quantifier::Exists), 1));
    }
    if first == b'A' {
        return Ok(Lexeme::new(Token::Quantifier(Quantifier::ForAll), 1));
    }
    if first == b'I' {
        return Ok(Lexeme::new(Token::Quantifier(Quantifier::Infinite), 1));
    }
    name_lexeme(alloc, false, rest)
}

/// The sign that a byte is, whatever follows.
fn sign_token(at: usize, byte: u8) -> Token
    ensures { token_view result ≡ spots.sign_token at byte }
{
    match byte {
        b'~' => Token::Negation,
        b'?' => Token::Mark,
        b'$' => Token::CallSign,
        b'@' => Token::LetterSign(at),
        b'&' => Token::Connective(ChainSign::And, at),
        b'|' => Token::Connective(ChainSign::Or, at),
        b'^' => Token::Connective(ChainSign::Xor, at),
        b'+' => Token::Sign(Sign::Plus),
        b'-' => Token::Sign(Sign::Minus),
        b'*' => Token::Times(at),
        b'/' => Token::Slash,
        b'(' => Token::Opening,
        b')' => Token::Closing,
        b'[' => Token::Bracket,
        b']' => Token::Unbracket,
        b',' => Token::Comma,
        _ => Token::Other,
    }
}

/// A sign, by its first three bytes.
fn sign_lexeme(at: usize, first: u8, second: u8, third: u8) -> Lexeme
    ensures { lexeme_view result ≡ spots.sign_lexeme at first second third }
{
    match (first, second) {
        (b'<', b'=') => {
            if third == b'>' {
                Lexeme::new(Token::Iff, 3)
            } else {
                Lexeme::new(Token::Relation(Relation::AtMost), 2)
            }
        }
        (b'<', _) => Lexeme::new(Token::Relation(Relation::Less), 1),
        (b'>', b'=') => Lexeme::new(Token::Relation(Relation::AtLeast), 2),
        (b'>', _) => Lexeme::new(Token::Relation(Relation::Greater), 1),
        (b'=', b'>') => Lexeme::new(Token::Implies(at), 2),
        (b'=', _) => Lexeme::new(Token::Relation(Relation::Equal), 1),
        (b'!', b'=') => Lexeme::new(Token::Relation(Relation::Unequal), 2),
        (b'!', _) => Lexeme::none(),
        _ => Lexeme::new(sign_token(at, first), 1),
    }
}

/// A token where neither a system nor a called name is looked for.
fn plain_lexeme(alloc: Global, at: usize, rest: &[u8]) -> Result<Lexeme, OutOfMemory>
    ensures { IfOk result (λ l. lexeme_view l ≡ spots.plain_lexeme at rest.now) }
{
    let first = byte_at(rest, 0);
    if Class::Digit.contains(first) {
        return Ok(number_lexeme(rest));
    }
    if Class::Letter.contains(first) {
        return letter_lexeme(alloc, rest);
    }
    Ok(sign_lexeme(at, first, byte_at(rest, 1), byte_at(rest, 2)))
}

/// The length of the prefix that is a system, or 0 if there is none.
#[tactic(auto, using(crate::proofs::SpotSteps::system_short))]
fn system_len(rest: &[u8]) -> usize
    ensures len { result ≡ spots.system_len rest.now }
    ensures within { result ≤ length rest.now }
{
    if rest.len() < 4 {
        return 0;
    }
    let (direction, others) = rest.split_at(4);
    if is_direction(direction) && begins_in(Class::Alphanumeric, others) {
        prefix_len(Class::Alphanumeric, others) + 4
    } else {
        0
    }
}

/// A system of at most 62 bytes, or what is there where none does.
#[tactic(auto, using(crate::proofs::Ascii::ascii_system))]
fn system_lexeme(alloc: Global, at: usize, rest: &[u8]) -> Result<Lexeme, OutOfMemory>
    ensures { IfOk result (λ l. lexeme_view l ≡ spots.lexeme spots.after_mark at rest.now) }
{
    let len = system_len(rest);
    if len == 0 {
        return plain_lexeme(alloc, at, rest);
    }
    if len > LONGEST_SYSTEM {
        return Ok(Lexeme::none());
    }
    let system = name_of(alloc, &rest[..len])?;
    Ok(Lexeme {
        lexed: Lexed::Token(Token::System(system)),
        len,
    })
}

/// The token that comes first in the rest of a text, which begins at the byte `at`.
fn token_at(alloc: Global, mode: Mode, at: usize, rest: &[u8]) -> Result<Lexeme, OutOfMemory>
    ensures { IfOk result (λ l. lexeme_view l ≡ spots.lexeme (mode_view mode) at rest.now) }
{
    match mode {
        Mode::Plain => plain_lexeme(alloc, at, rest),
        Mode::AfterMark => system_lexeme(alloc, at, rest),
        Mode::AfterCall => {
            if Class::Letter.contains(byte_at(rest, 0)) {
                name_lexeme(alloc, true, rest)
            } else {
                plain_lexeme(alloc, at, rest)
            }
        }
    }
}

/// The first byte from `start` on that is no blank, or the text's length.
fn blanks_end(text: &[u8], start: usize) -> usize
    requires { start ≤ length text.now }
    ensures within { result ≤ length text.now }
    ensures from { start ≤ result }
    ensures spots { (m : spots.Mode) → spots_from spots.lexing m start 0 (drop start text.now) ≡ spots_from spots.lexing m result 0 (drop result text.now) }
    ensures stops { result < length text.now → is_blank (slice_index text.now result) ≡ false }
{
    start + prefix_len(Class::Blank, &text[start..])
}

/// The token at or after `start`.
#[tactic(auto, using(crate::proofs::NextSteps::next_end, crate::proofs::NextSteps::next_token, crate::proofs::NextSteps::next_within))]
pub(crate) fn next_spot(
    alloc: Global,
    text: &[u8],
    start: usize,
    mode: Mode,
) -> Result<Spot, OutOfMemory>
    requires { start ≤ length text.now }
    ensures { IfOk result (λ s. IsNext (mode_view mode) text.now start s) }
{
    let at = blanks_end(text, start);
    if at == text.len() {
        return Ok(Spot {
            lexed: Lexed::Token(Token::End),
            at,
            end: at,
        });
    }
    let lexeme = token_at(alloc, mode, at, &text[at..])?;
    Ok(Spot {
        lexed: lexeme.lexed,
        at,
        end: at + lexeme.len,
    })
}

//! The lexeme at a byte.

ghost use Rattle.std.specs.Prelude.{◌≡◌, ◌+◌, ◌≤◌, ◌<◌, ◌∷◌, drop, length};
ghost use Rattle.morph_words.specs.Lexemes.{bracket as bracket_of, lexeme as lexeme_at, lexing};
ghost use Rattle.morph_words.specs.Readings.{piece_view, spot_view};
ghost use Rattle.text_grammar.specs.Spots.{lexeme_of, spots_from};

use crate::lexeme::{Lexeme, Piece, Spot};
use text_grammar::{Class, begins_with, number_len, number_of};

impl Piece {
    fn new(lexeme: Lexeme, len: usize) -> Piece
        ensures { piece_view result ≡ lexeme_of lexeme len }
    {
        Piece { lexeme, len }
    }
}

/// What a `[` is, with the bytes after it.
fn bracket(bytes: &[u8]) -> Piece
    ensures is { piece_view result ≡ bracket_of bytes.now }
    ensures begins { 0 < result.len }
    ensures within { result.len ≤ length bytes.now + 1 }
{
    let len = number_len(bytes);
    if len == 0 {
        return Piece::new(Lexeme::Broken, 1);
    }
    match number_of(&bytes[..len]) {
        None => Piece::new(Lexeme::Long, len + 1),
        Some(number) => {
            if begins_with(b']', &bytes[len..]) {
                Piece::new(Lexeme::Letter(number), len + 2)
            } else {
                Piece::new(Lexeme::Broken, len + 1)
            }
        }
    }
}

/// The lexeme that begins with a byte, before others.
fn lexeme(byte: u8, bytes: &[u8]) -> Piece
    ensures is { piece_view result ≡ lexeme_at byte bytes.now }
    ensures begins { 0 < result.len }
    ensures within { result.len ≤ length bytes.now + 1 }
{
    if Class::Digit.contains(byte) {
        Piece::new(Lexeme::Letter(i32::from(byte - b'0')), 1)
    } else if Class::Blank.contains(byte) {
        Piece::new(Lexeme::Blank, 1)
    } else if byte == b',' {
        Piece::new(Lexeme::Comma, 1)
    } else if byte == b'[' {
        bracket(bytes)
    } else if byte == b'-' && begins_with(b'>', bytes) {
        Piece::new(Lexeme::Arrow, 2)
    } else {
        Piece::new(Lexeme::Other, 1)
    }
}

/// The lexeme at a byte of a text.
pub(crate) fn spot_at(text: &[u8], at: usize) -> Spot
    requires { at < length text.now }
    ensures place { result.at ≡ at }
    ensures after { at < result.after }
    ensures within { result.after ≤ length text.now }
    ensures rest { spots_from lexing tt at 0 (drop at text.now) ≡ spot_view result ∷ spots_from lexing tt result.after 0 (drop result.after text.now) }
{
    let piece = lexeme(text[at], &text[at + 1..]);
    Spot {
        lexeme: piece.lexeme,
        at,
        after: at + piece.len,
    }
}

//! The lexeme at a byte.

ghost use Rattle.std.specs.Prelude.{◌≡◌, ◌+◌, ◌≤◌, ◌<◌, ◌∷◌, drop, length};
ghost use Rattle.place_text.specs.Lexemes.{lexing, lexeme as lexeme_of_bytes, number as number_of_bytes, no_number as no_number_of_bytes};
ghost use Rattle.place_text.specs.Readings.{piece_view, spot_view};
ghost use Rattle.text_grammar.specs.Spots.{lexeme_of, spots_from};

use crate::lexeme::{Lexeme, Piece, Spot};
use text_grammar::{begins_with, number_len, number_of};

impl Piece {
    fn new(lexeme: Lexeme, len: usize) -> Piece
        ensures { piece_view result ≡ lexeme_of lexeme len }
    {
        Piece { lexeme, len }
    }
}

/// What bytes begin with that begin with no bracket or comma.
fn number(bytes: &[u8]) -> Piece
    requires { 0 < length bytes.now }
    ensures is { piece_view result ≡ number_of_bytes bytes.now }
    ensures begins { 0 < result.len }
    ensures within { result.len ≤ length bytes.now }
{
    let len = number_len(bytes);
    if len == 0 {
        return Piece::new(no_number(bytes), 1);
    }
    match number_of(&bytes[..len]) {
        Some(number) => Piece::new(Lexeme::Number(number), len),
        None => Piece::new(Lexeme::Long, len),
    }
}

/// What bytes begin with that begin with no number either.
fn no_number(bytes: &[u8]) -> Lexeme
    ensures { result ≡ no_number_of_bytes bytes.now }
{
    if begins_with(b'-', bytes) {
        Lexeme::Sign
    } else {
        Lexeme::Other
    }
}

/// The lexeme that the bytes begin with.
fn lexeme(bytes: &[u8]) -> Piece
    requires { 0 < length bytes.now }
    ensures is { piece_view result ≡ lexeme_of_bytes bytes.now }
    ensures begins { 0 < result.len }
    ensures within { result.len ≤ length bytes.now }
{
    if begins_with(b'[', bytes) {
        Piece::new(Lexeme::Open, 1)
    } else if begins_with(b']', bytes) {
        Piece::new(Lexeme::Close, 1)
    } else if begins_with(b',', bytes) {
        Piece::new(Lexeme::Comma, 1)
    } else {
        number(bytes)
    }
}

/// The lexeme at a byte of a text.
pub(crate) fn spot_at(text: &[u8], at: usize) -> Spot
    requires { at < length text.now }
    ensures place { result.at ≡ at }
    ensures after { at < result.after }
    ensures within { result.after ≤ length text.now }
    ensures rest { spots_from lexing tt at 0 (drop at text.now) ≡ spot_view result ∷ spots_from lexing tt result.after 0 (drop result.after text.now) }
{
    let piece = lexeme(&text[at..]);
    Spot {
        lexeme: piece.lexeme,
        at,
        after: at + piece.len,
    }
}

//! What a text is made of.

ghost use Rattle.std.specs.Prelude.{◌≡◌, ◌<◌, ◌^◌, length};
ghost use Rattle.macro_expand.specs.Views.{piece_len, IsFirstPiece};

use crate::bytes::{after, len_before};
use crate::call::{Call, call_after};

/// Some bytes outside of calls, a call, or the place of a `#` with which no call begins.
#[derive(Clone, Copy)]
pub(crate) enum Piece<'a> {
    Plain(&'a [u8]),
    Call(Call<'a>),
    Stray(usize),
}

impl Piece<'_> {
    /// How many bytes of the text it has.
    pub fn len(&self) -> usize
        requires { piece_len self.now < 2 ^ 64 }
        ensures { result ≡ piece_len self.now }
    {
        match self {
            Piece::Plain(bytes) => bytes.len(),
            Piece::Call(call) => call.len + 1,
            Piece::Stray(_) => 1,
        }
    }
}

/// The first piece of the bytes from a place on.
pub(crate) fn first_piece(at: usize, bytes: &[u8]) -> Piece<'_>
    requires { 0 < length bytes.now }
    ensures { IsFirstPiece at bytes.now result }
{
    let plain = len_before(b'#', bytes);
    if plain > 0 {
        return Piece::Plain(&bytes[..plain]);
    }
    match call_after(after(1, bytes)) {
        Some(call) => Piece::Call(call),
        None => Piece::Stray(at),
    }
}

//! What a macro's text is made of.

ghost use Rattle.std.specs.Prelude.{◌≡◌, ◌<◌, length, map};
ghost use Rattle.macro_expand.specs.Filling.{number_of as number_in, missing as missing_in, filled};
ghost use Rattle.macro_expand.specs.Views.{segment_len, segments_view, IsFirstSegment};

use crate::bytes::{after, len_before};
use text_grammar::{Class, prefix_len};

/// Some bytes outside of places, or the place of an argument: its number, and how many bytes write it.
#[derive(Clone, Copy)]
pub(crate) enum Segment<'a> {
    Plain(&'a [u8]),
    Place(u64, usize),
}

/// The number that digits denote; 2^64 - 1 means each greater one.
fn number_of(digits: &[u8]) -> u64
    ensures { result ≡ number_in digits.now }
{
    let mut number: u64 = 0;
    for digit in digits {
        number = number
            .saturating_mul(10)
            .saturating_add(u64::from(digit.saturating_sub(b'0')));
    }
    number
}

impl<'a> Segment<'a> {
    /// How many bytes of the macro's text it has.
    pub fn len(&self) -> usize
        ensures { result ≡ segment_len self.now }
    {
        match self {
            Segment::Plain(bytes) => bytes.len(),
            Segment::Place(_, len) => *len,
        }
    }

    /// Its number, where so many arguments are too few for it.
    #[tactic(auto, using(crate::proofs::SegmentSteps::missing_plain))]
    pub fn missing(&self, given: usize) -> Option<u64>
        ensures { result ≡ missing_in given (segments_view self.now) }
    {
        match self {
            Segment::Plain(_) => None,
            Segment::Place(number, _) => {
                if *number >= given as u64 {
                    Some(*number)
                } else {
                    None
                }
            }
        }
    }

    /// What is there with these arguments.
    #[tactic(auto, using(crate::proofs::SegmentSteps::filled_plain))]
    pub fn text(&self, arguments: &'a [Vec<u8>]) -> &'a [u8]
        ensures { result.now ≡ filled (map (λ argument. argument.items) arguments.now) (segments_view self.now) }
    {
        match self {
            Segment::Plain(bytes) => bytes,
            Segment::Place(number, _) => match arguments.get(*number as usize) {
                Some(argument) => argument.as_slice(),
                None => &[],
            },
        }
    }
}

/// The first segment of some bytes.
pub(crate) fn first_segment(bytes: &[u8]) -> Segment<'_>
    requires { 0 < length bytes.now }
    ensures { IsFirstSegment bytes.now result }
{
    let plain = len_before(b'%', bytes);
    if plain > 0 {
        return Segment::Plain(&bytes[..plain]);
    }
    let ahead = after(1, bytes);
    let digits = prefix_len(Class::Digit, ahead);
    if digits == 0 {
        return Segment::Plain(&bytes[..1]);
    }
    Segment::Place(number_of(&ahead[..digits]), digits + 1)
}

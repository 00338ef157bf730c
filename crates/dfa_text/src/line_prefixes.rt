//! What the lines of letters begin with, made once for each letter.

ghost use Rattle.std.specs.Prelude.{◌≡◌, ◌<◌, [], length, slice_index_or, IfOk};
ghost use Rattle.digit_tuple.specs.Sets.{sizes_of};
ghost use Rattle.digit_tuple.specs.Headers.{sets_of};
ghost use Rattle.dfa_text.specs.LinePrefixes.{prefixes_of};

use crate::tuple_text::push_front;
use digit_tuple::alphabet::Alphabet;
use digit_tuple::faults::OutOfMemory;
use digit_tuple::header::Header;
use digit_tuple::key_ends::KeyEnds;
use std::alloc::Global;
use std::marker::Model;

/// The prefixes of lines, one after another in one buffer.
#[derive(Drop)]
pub struct LinePrefixes {
    bytes: Vec<u8>,
    ends: KeyEnds,
}

impl Model for LinePrefixes {
    ghost use Rattle.std.specs.Prelude.{ℕ, List, length};
    ghost use Rattle.digit_tuple.specs.KeyParts.{parts_from, AreEnds};

    ghost Value = { List (List ℕ) };

    ghost view = { λ f. parts_from f.bytes.items 0 f.ends };

    ghost invariant = { λ f. AreEnds (length f.bytes.items) 0 f.ends };
}

impl LinePrefixes {
    /// What a line of each letter begins with. Its memory follows the letters: the bytes of a line for each, and 8 bytes
    /// more for each where these are not all of one length.
    pub fn new(alloc: Global, header: &Header, alphabet: &Alphabet) -> Result<Self, OutOfMemory>
        requires { alphabet.now ≡ sizes_of (sets_of header.now) }
        ensures { IfOk result (λ prefixes. prefixes ≡ prefixes_of (sets_of header.now)) }
    {
        let mut places = vec![in alloc; 0; alphabet.tracks() as usize]?;
        let mut bytes = Vec::new(alloc);
        let mut ends = KeyEnds::new(alloc);
        for letter in 0..alphabet.letters() {
            push_front(&mut bytes, header, alphabet, &mut places, letter)?;
            ends.push(bytes.len())?;
        }
        Ok(LinePrefixes { bytes, ends })
    }

    /// What the lines of a letter begin with.
    pub fn prefix(&self, letter: u32) -> &[u8]
        requires { letter < length self.now }
        ensures { result.now ≡ slice_index_or self.now letter [] }
    {
        let start = self.ends.start(letter as usize);
        let end = self.ends.end(letter as usize);
        &self.bytes[start..end]
    }
}

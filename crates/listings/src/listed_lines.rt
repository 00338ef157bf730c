//! The lines of the next words of a walk.

ghost use Rattle.std.specs.Prelude.{◌≡◌, MatchResult};
ghost use Rattle.digit_tuple.specs.Deterministic.{accepts_of};
ghost use Rattle.digit_tuple.specs.Sets.{sizes_of};
ghost use Rattle.listings.specs.Listings.{AreLinesWithin, AreOver, Fails};

use crate::line_fault::LineFault;
use crate::word_line::push_line;
use digit_tuple::alphabet::Alphabet;
use digit_tuple::sets::Sets;
use std::alloc::Global;
use word_walk::walk::Walk;

/// How many words are listed, and how many bytes their lines may have together.
#[derive(Clone, Copy, PartialEq, Eq)]
pub struct Bounds {
    pub words: u64,
    pub bytes: usize,
}

/// The lines of the next words of the walk, so many, or all where there are fewer: the word's letters one after another,
/// or `[]` where there is none, and the line's end. `Long` comes if and only if these lines have more bytes than they may
/// have, `Memory` where a growth was refused.
///
/// The digits of the letters are members of the sets, one for each track. It takes the time of the walk, and time in
/// proportion to the lines.
pub fn next_lines(
    alloc: Global,
    alphabet: &Alphabet,
    sets: &Sets,
    walk: Walk,
    bounds: Bounds,
) -> Result<Vec<u8>, LineFault>
    requires sizes { alphabet.now ≡ sizes_of sets.now }
    requires words { AreOver (accepts_of walk.listing) alphabet.now }
    ensures { MatchResult result (λ text. AreLinesWithin (accepts_of walk.listing) sets.now walk.place bounds text.items) (Fails (accepts_of walk.listing) sets.now walk.place bounds) }
{
    let mut walk = walk;
    let mut lines = Vec::new(alloc);
    let mut word = Vec::new(alloc);
    let mut places = vec![in alloc; 0; alphabet.tracks() as usize]?;
    let mut left = bounds.words;
    while left > 0 {
        if !walk.next(&mut word)? {
            return Ok(lines);
        }
        push_line(&mut lines, alphabet, sets.as_slice(), &mut places, &word)?;
        if lines.len() > bounds.bytes {
            return Err(LineFault::Long);
        }
        left -= 1;
    }
    Ok(lines)
}

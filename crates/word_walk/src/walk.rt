//! Walks through words.

ghost use Rattle.std.specs.Prelude.{◌≡◌, ℕ, Bool, true, false, List, [], None, Some, Option, IfOk, MatchOption, OnErr};
ghost use Rattle.std.specs.Option.{option_map};
ghost use Rattle.digit_tuple.specs.Deterministic.{accepts_of};
ghost use Rattle.word_walk.specs.Following.{IsLast, IsNext};
ghost use Rattle.word_walk.specs.Walks.{IsWalk, IsWalked};

use crate::listed_words::listed_words;
use crate::listing::Listing;
use digit_tuple::dfa::Dfa;
use digit_tuple::direction::Direction;
use digit_tuple::faults::OutOfMemory;
use std::alloc::Global;
use std::marker::Model;

/// A walk through the words that an automaton accepts, in shortlex order: shorter words first, and words of one length
/// letter by letter. It is at a place, a word of any letters, or before all words.
#[derive(Drop)]
pub struct Walk {
    alloc: Global,
    listing: Listing,
    place: Option<Vec<u32>>,
}

impl Model for Walk {
    ghost use Rattle.std.specs.Option.{option_map};
    ghost use Rattle.word_walk.specs.Walks.{WalkValue};

    ghost Value = { WalkValue };

    ghost view = { λ walk. record { listing = walk.listing.dfa; place = option_map (λ word. word.items) walk.place } };
}

impl Walk {
    /// The walk before all words that the automaton accepts. Where a direction is given, words that begin (msd) or end
    /// (lsd) with the letter 0 are left out. It takes the time that it takes to minimise the automaton. OutOfMemory comes
    /// too where 2^32 - 1 states are not enough.
    pub fn new(alloc: Global, d: &Dfa, skip: Option<Direction>) -> Result<Self, OutOfMemory>
        ensures { IfOk result (IsWalk d.now skip None) }
    {
        let listed = listed_words(alloc, d, skip)?;
        let listing = Listing::new(alloc, listed)?;
        Ok(Walk {
            alloc,
            listing,
            place: None,
        })
    }

    /// The same walk at a place, which need not be a listed word.
    pub fn resume(
        alloc: Global,
        d: &Dfa,
        skip: Option<Direction>,
        place: &[u32],
    ) -> Result<Self, OutOfMemory>
        ensures { IfOk result (IsWalk d.now skip (Some place.now)) }
    {
        let mut walk = Walk::new(alloc, d, skip)?;
        walk.place = Some(Vec::from_slice(alloc, place)?);
        Ok(walk)
    }

    /// Where the walk is: the word that it gave last, or where it was resumed. None is before all words.
    pub fn place(&self) -> Option<&[u32]>
        ensures { option_map (λ word. word.now) result ≡ self.now.place }
    {
        match &self.place {
            Some(place) => Some(place),
            None => None,
        }
    }

    /// Goes on to the next word, writes it in place of what `out` held, and gives true. Where there is none it gives false
    /// and stays. A refused call stays too. But for true, `out` is empty.
    pub fn next(&mut self, out: &mut Vec<u32>) -> Result<bool, OutOfMemory>
        ensures walked { IfOk result (λ found. found ≡ true → IsWalked self.old self.new out.new.items) }
        ensures last { IfOk result (λ found. found ≡ false → IsLast (accepts_of self.old.listing) self.old.place) }
        ensures stays { IfOk result (λ found. found ≡ false → self.new ≡ self.old) }
        ensures empty { IfOk result (λ found. found ≡ false → out.new.items ≡ []) }
        ensures err { OnErr result (self.new ≡ self.old) }
        ensures err_empty { OnErr result (out.new.items ≡ []) }
    {
        out.clear();
        match self.following()? {
            Some(word) => {
                out.extend_from_slice(&word)?;
                self.place = Some(word);
                Ok(true)
            }
            None => Ok(false),
        }
    }

    // The next word, if there is one.
    fn following(&mut self) -> Result<Option<Vec<u32>>, OutOfMemory>
        ensures same { self.new ≡ self.old }
        ensures word { IfOk result (λ found. MatchOption found (IsLast (accepts_of self.old.listing) self.old.place) (λ word. IsNext (accepts_of self.old.listing) self.old.place word.items)) }
    {
        match &self.place {
            None => self.listing.longer(0),
            Some(place) => match self.listing.raised(place)? {
                Some(word) => Ok(Some(word)),
                None => self.listing.longer(place.len() + 1),
            },
        }
    }
}

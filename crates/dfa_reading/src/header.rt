//! What the first line of a file says of the tracks.

use crate::system_name::SystemName;
use digit_tuple::sets::Sets;

/// The tracks of a file.
#[derive(Drop)]
pub enum FileHeader {
    /// No track: the file is `true` or `false`.
    Truth(bool),
    /// Each track has the digits of the system of this name. All are of one direction.
    Systems(Vec<SystemName>),
    /// Each track has the members of a set as its digits.
    Sets(Sets),
}

impl FileHeader {
    ghost use Rattle.std.specs.Prelude.{◌≡◌, length};
    ghost use Rattle.dfa_reading.specs.Headers.{digits_in, has_states as states_below};
    ghost use Rattle.dfa_reading.specs.HeaderViews.{header_view};

    /// How many tracks there are.
    pub fn tracks(&self) -> usize
        ensures { result ≡ length (digits_in (header_view self.now)) }
    {
        match self {
            FileHeader::Truth(_) => 0,
            FileHeader::Systems(systems) => systems.len(),
            FileHeader::Sets(sets) => sets.len(),
        }
    }

    /// Whether a file with this header lists states: all but `true` and `false`.
    pub fn has_states(&self) -> bool
        ensures { result ≡ states_below (header_view self.now) }
    {
        match self {
            FileHeader::Truth(_) => false,
            FileHeader::Systems(_) => true,
            FileHeader::Sets(_) => true,
        }
    }
}

//! The outputs that a format has.

ghost use Rattle.std.specs.Prelude.{◌≡◌};
ghost use Rattle.dfa_reading.specs.Entries.{output_by};

use crate::read_numbers::integer;

/// What the output of a state may be.
#[derive(Clone, Copy, PartialEq, Eq)]
pub enum Outputs {
    /// A number.
    Numbers,
    /// A number, which is a letter, or `-` for no letter.
    Letters,
}

impl Outputs {
    /// The output that a part of a line denotes, if it denotes one. The inner None is no letter.
    pub fn read(self, part: &[u8]) -> Option<Option<i32>>
        ensures { result ≡ output_by self part.now }
    {
        if self == Outputs::Letters && part.len() == 1 && part[0] == b'-' {
            return Some(None);
        }
        let number = integer(part)?;
        Some(Some(number))
    }
}

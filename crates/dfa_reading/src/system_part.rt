//! The files of a user's system.

/// Which file of a user's system a text is.
#[derive(Clone, Copy, PartialEq, Eq)]
pub enum SystemPart {
    /// That of the language: one track, whose digits are those from 0 on.
    Language,
    /// That of the adder: three tracks of so many digits from 0 on.
    Adder(u32),
}

//! Names of the systems that users define.
ghost use Rattle.std.specs.Prelude.{◌≡◌, ◌≢◌, ℕ, List, IfOk, IsTrue, ◌↔◌, MatchOption};
ghost use Rattle.digit_tuple.specs.declared.direction.Direction.{Direction};
ghost use Rattle.system_names.specs.Names.{direction_part};
ghost use Rattle.system_names.specs.UserNames.{IsUserPart, IsUserName, IsUsersName, is_word_of_letters as letters_are, user_name as name_of_user, adder_name as name_of_adder, opposite as opposite_direction};

use digit_tuple::direction::Direction;
use digit_tuple::faults::OutOfMemory;
use digit_tuple::name::Name;
use std::alloc::Global;
use text_grammar::all_alphanumeric;

/// The most bytes of what a user may call a system.
pub const LONGEST_PART: usize = 58;

/// A system that a user defines, read in a direction: what its name says.
#[derive(Clone, Copy)]
pub struct UserName<'a> {
    /// The direction in which its words are read.
    pub direction: Direction,
    /// What the system is called.
    pub part: &'a str,
}

impl<'a> UserName<'a> {
    /// The name that says this, in memory of its own.
    pub fn name(&self, alloc: Global) -> Result<Name, OutOfMemory>
        ensures { IfOk result (λ name. name ≡ name_of_user self.now.direction self.now.part.now) }
    {
        let mut text = String::from_str(alloc, direction_text(self.direction))?;
        text.push_str(self.part)?;
        Name::new(alloc, text.as_str())
    }

    /// The same system, read in the other direction. It takes no memory.
    pub fn opposite(&self) -> UserName<'a>
        ensures direction { result.direction ≡ opposite_direction self.now.direction }
        ensures part { result.part.now ≡ self.now.part.now }
    {
        UserName {
            direction: opposite(self.direction),
            part: self.part,
        }
    }
}

/// What the name of a user's system says: `msd_X` is the system X read from the most significant digit on, and `lsd_X` from the
/// least, X a letter, then letters and digits, at most 58 bytes in all, and not `fib`. None for every other name. It takes no
/// memory.
pub fn user_name(name: &str) -> Option<UserName<'_>>
    ensures { MatchOption result (¬ IsUsersName name.now) (λ user. IsUserName user.direction user.part.now name.now) }
{
    let user = directed(name)?;
    if is_user_part(user.part.as_bytes()) {
        Some(user)
    } else {
        None
    }
}

/// The name of the adder that is beside the language of this name, in memory of its own.
pub fn adder_name(alloc: Global, language: &Name) -> Result<Name, OutOfMemory>
    ensures { IfOk result (λ name. name ≡ name_of_adder language.now) }
{
    let mut text = String::from_str(alloc, language.as_str())?;
    text.push_str("_addition")?;
    Name::new(alloc, text.as_str())
}

// How a name says the direction.
fn direction_text(direction: Direction) -> &'static str
    ensures { result.now ≡ direction_part direction }
{
    match direction {
        Direction::Msd => "msd_",
        Direction::Lsd => "lsd_",
    }
}

// The other direction.
fn opposite(direction: Direction) -> Direction
    ensures { result ≡ opposite_direction direction }
{
    match direction {
        Direction::Msd => Direction::Lsd,
        Direction::Lsd => Direction::Msd,
    }
}

// The direction that the prefix of a name says, and what follows it.
fn directed(name: &str) -> Option<UserName<'_>>
    ensures { MatchOption result ((direction : Direction) (part : List ℕ) → name.now ≢ name_of_user direction part) (λ user. name.now ≡ name_of_user user.direction user.part.now) }
{
    if let Some(part) = name.strip_prefix("msd_") {
        return Some(UserName {
            direction: Direction::Msd,
            part,
        });
    }
    let part = name.strip_prefix("lsd_")?;
    Some(UserName {
        direction: Direction::Lsd,
        part,
    })
}

// Whether a user may call a system so.
fn is_user_part(part: &[u8]) -> bool
    ensures { IsTrue result ↔ IsUserPart part.now }
{
    is_word_of_letters(part) && part.len() <= LONGEST_PART && part != b"fib".as_slice()
}

// Whether the bytes are a letter, and then letters and digits.
fn is_word_of_letters(bytes: &[u8]) -> bool
    ensures { result ≡ letters_are bytes.now }
{
    match bytes {
        [first, others @ ..] => first.is_ascii_alphabetic() && all_alphanumeric(others),
        [] => false,
    }
}

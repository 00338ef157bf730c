//! The system that a name means, of those that are built in.
ghost use Rattle.std.specs.Prelude.{◌≡◌, ◌≢◌, ℕ, MatchOption, decimal};
ghost use Rattle.digit_tuple.specs.declared.direction.Direction.{Direction};
ghost use Rattle.system_names.specs.declared.system_kind.SystemKind.{SystemKind};
ghost use Rattle.system_names.specs.Names.{IsBase, IsSystemKind, IsBuiltIn, IsBuiltInName, direction_part, kind_part, digit_count};

use crate::system_kind::SystemKind;
use digit_tuple::direction::Direction;
use itoa::Buffer;

/// The least base that has a name.
pub const LEAST_BASE: u32 = 2;

/// The greatest base that has a name.
pub const GREATEST_BASE: u32 = 40;

/// A numeration system that is built in.
#[derive(Clone, Copy)]
pub struct BuiltIn {
    /// The direction in which its words are read.
    pub direction: Direction,
    /// What it is: a base, or the Fibonacci system.
    pub kind: SystemKind,
}

impl BuiltIn {
    /// How many digits it has. It takes no memory.
    pub fn digits(&self) -> u32
        ensures { result ≡ digit_count self.now.kind }
    {
        self.kind.digits()
    }
}

/// The system that is built in under a name: `msd_K` is base K read from the most significant digit on, and `lsd_K` from the
/// least, K from 2 to 40 in decimal without leading zeros; `msd_fib` and `lsd_fib` are the Fibonacci system. None for every
/// other name. It takes no memory.
pub fn built_in(name: &[u8]) -> Option<BuiltIn>
    ensures { MatchOption result (¬ IsBuiltInName name.now) (λ system. IsBuiltIn system.direction system.kind name.now) }
{
    if name.len() < 4 {
        return None;
    }
    let (prefix, rest) = name.split_at(4);
    let direction = direction_named(prefix)?;
    let kind = kind_named(rest)?;
    Some(BuiltIn { direction, kind })
}

// The direction that a name's prefix says.
fn direction_named(prefix: &[u8]) -> Option<Direction>
    ensures { MatchOption result ((direction : Direction) → prefix.now ≢ direction_part direction) (λ direction. prefix.now ≡ direction_part direction) }
{
    if prefix == b"msd_".as_slice() {
        Some(Direction::Msd)
    } else if prefix == b"lsd_".as_slice() {
        Some(Direction::Lsd)
    } else {
        None
    }
}

// The kind that the rest of a name says.
fn kind_named(rest: &[u8]) -> Option<SystemKind>
    ensures { MatchOption result ((kind : SystemKind) → IsSystemKind kind → rest.now ≢ kind_part kind) (λ kind. IsSystemKind kind × (rest.now ≡ kind_part kind)) }
{
    if rest == b"fib".as_slice() {
        Some(SystemKind::Fibonacci)
    } else {
        Some(SystemKind::Base(base_named(rest)?))
    }
}

// The base that these digits name.
fn base_named(digits: &[u8]) -> Option<u32>
    ensures { MatchOption result ((k : ℕ) → IsBase k → digits.now ≢ decimal k) (λ k. IsBase k × (digits.now ≡ decimal k)) }
{
    for base in LEAST_BASE..GREATEST_BASE + 1 {
        if Buffer::new().format(base).as_bytes() == digits {
            return Some(base);
        }
    }
    None
}

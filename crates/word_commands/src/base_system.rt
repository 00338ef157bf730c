//! Words over one system that is a base.

ghost use Rattle.std.specs.Prelude.{◌≡◌, ◌≢◌, ◌↔◌, ℕ, IfOk, IsTrue, MatchOption, MatchResult};
ghost use Rattle.system_names.specs.Names.{direction_part};
ghost use Rattle.system_names.specs.declared.system_kind.SystemKind.TheVariants.{Base};
ghost use Rattle.word_commands.specs.declared.base_system.BaseSystem.{BaseSystem};
ghost use Rattle.word_commands.specs.BaseWords.{IsAskedFor, IsBaseOf, IsNameOfBase, name_of_base, over_base};
ghost use Rattle.command_parts.specs.Checks.{Fails};

use command_parts::fault::Fault;
use command_parts::refusal::Refusal;
use command_parts::shape_refusal::ShapeRefusal;
use command_parts::word_systems::WordSystems;
use digit_tuple::direction::Direction;
use digit_tuple::faults::OutOfMemory;
use digit_tuple::name::Name;
use formula_resolve::Headers;
use itoa::Buffer;
use std::alloc::Global;
use system_names::{BuiltIn, SystemKind, built_in};

/// A base, read in one direction.
#[derive(Clone, Copy)]
pub struct BaseSystem {
    /// Which digit of a word comes first.
    pub direction: Direction,
    /// The base.
    pub base: u32,
}

impl BaseSystem {
    /// The name of the base.
    pub fn name(self, alloc: Global) -> Result<Name, OutOfMemory>
        ensures { IfOk result (λ name. name ≡ name_of_base self) }
    {
        let mut text = String::from_str(alloc, direction_text(self.direction))?;
        text.push_str(Buffer::new().format(self.base))?;
        Name::new(alloc, text.as_str())
    }
}

/// How a name says the direction.
fn direction_text(direction: Direction) -> &'static str
    ensures { result.now ≡ direction_part direction }
{
    match direction {
        Direction::Msd => "msd_",
        Direction::Lsd => "lsd_",
    }
}

/// The base of a word's only track, in the direction that is asked for, if one is.
///
/// # Errors
/// `BaseNeeded` if and only if the word has no such base, or `Memory`.
pub fn base_of(
    alloc: Global,
    headers: &Headers,
    word: &Name,
    asked: Option<Direction>,
) -> Result<BaseSystem, Fault>
    ensures { MatchResult result (IsBaseOf asked headers.now word.now) (Fails (over_base asked headers.now word.now)) }
{
    match only_base(headers, word, asked) {
        Some(system) => Ok(system),
        None => {
            let systems = WordSystems::of(alloc, headers.word_tracks(word))?;
            Err(Fault::Refused(Refusal::Shape(ShapeRefusal::BaseNeeded(
                word.copy(alloc)?,
                systems,
            ))))
        }
    }
}

/// The base of a word's only track, in the direction that is asked for, if there is one.
fn only_base(headers: &Headers, word: &Name, asked: Option<Direction>) -> Option<BaseSystem>
    ensures { MatchOption result ((s : BaseSystem) → ¬ IsBaseOf asked headers.now word.now s) (IsBaseOf asked headers.now word.now) }
{
    let [name] = headers.word_tracks(word) else {
        return None;
    };
    let system = base_named(name)?;
    if is_asked_for(asked, system.direction) {
        Some(system)
    } else {
        None
    }
}

/// Whether the direction is the one that is asked for, if one is.
fn is_asked_for(asked: Option<Direction>, direction: Direction) -> bool
    ensures { IsTrue result ↔ IsAskedFor asked direction }
{
    match asked {
        Some(only) => direction == only,
        None => true,
    }
}

/// The base that a name means, if it is the name of one. It takes no memory.
pub fn base_named(name: &Name) -> Option<BaseSystem>
    ensures { MatchOption result ((s : BaseSystem) → ¬ IsNameOfBase s name.now) (λ s. IsNameOfBase s name.now) }
{
    match built_in(name.as_bytes()) {
        Some(system) => base_in(system),
        None => None,
    }
}

/// A system that is built in as a base, if it is one.
fn base_in(system: BuiltIn) -> Option<BaseSystem>
    ensures { MatchOption result ((k : ℕ) → system.kind ≢ Base k) (λ s. (s.direction ≡ system.direction) × (system.kind ≡ Base s.base)) }
{
    match system.kind {
        SystemKind::Base(base) => Some(BaseSystem {
            direction: system.direction,
            base,
        }),
        SystemKind::Fibonacci => None,
    }
}

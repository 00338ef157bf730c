//! Reading a `reg` part by part.

ghost use Rattle.std.specs.Prelude.{◌≡◌, ◌<◌, ◌^◌, ◌++◌, ◌∷◌, [], length, true, IsAscii, MatchResult, IfOk};
ghost use Rattle.std.specs.List.Sorted.{IsStrictlySortedBy};
ghost use Rattle.std.specs.Ordering.{int_cmp};
ghost use Rattle.command_head.specs.declared.fault.HeadFault.TheVariants.{Memory};
ghost use Rattle.command_head.specs.Readings.{Reads, placed};
ghost use Rattle.command_head.specs.Members.{with_member};
ghost use Rattle.command_head.specs.Parts.{is_name as is_name_part};
ghost use Rattle.text_grammar.specs.Systems.{is_system as is_system_part};
ghost use Rattle.command_head.specs.Heads as heads;
ghost use Rattle.command_head.specs.Heads.{step as step_of, body_step, ended, open_count};
ghost use Rattle.command_head.specs.HeadViews.{alphabets_of, head_view, stage_view};

use crate::fault::HeadFault;
use crate::head::{Alphabets, RegParts};
use crate::parts::{is_name, is_quoted, unquoted};
use digit_tuple::letter_set::LetterSet;
use digit_tuple::name::Name;
use digit_tuple::sets::Sets;
use std::alloc::Global;
use std::collections::BTreeSet;
use std::str;
use text_grammar::{is_number, is_system, number_of};

/// A set whose brace is open: the name and the sets before it, and its members so far.
#[derive(Drop)]
pub(crate) struct OpenSet {
    name: Name,
    sets: Sets,
    members: BTreeSet<i32>,
}

/// What was read of a `reg`, by the place in it.
#[derive(Drop)]
pub(crate) enum Stage<'a> {
    /// Before the first word.
    AtWord,
    /// Before the name.
    AtName,
    /// After the name.
    AfterName(Name),
    /// In a set, before a number.
    AtNumber(OpenSet),
    /// In a set, after a number.
    AfterNumber(OpenSet),
    /// After a set.
    AfterSet(Name, Sets),
    /// After a system.
    AfterSystem(Name, Vec<Name>),
    /// After the text in quotes.
    AtEnd(RegParts<'a>),
}

/// A name of ASCII bytes.
pub(crate) fn name_of(alloc: Global, bytes: &[u8]) -> Result<Name, HeadFault>
    requires { IsAscii bytes.now }
    ensures { MatchResult result (λ name. name ≡ bytes.now) (λ fault. fault ≡ Memory) }
{
    let text = str::from_utf8(bytes).unwrap();
    Ok(Name::new(alloc, text)?)
}

/// The first word, which has to be `reg`.
#[tactic(auto, unfolding(crate::specs::Heads::step))]
fn at_word<'a>(at: usize, part: &[u8]) -> Result<Stage<'a>, HeadFault>
    ensures { Reads stage_view result (placed at (step_of heads.AtWord part.now)) }
{
    if part == b"reg".as_slice() {
        Ok(Stage::AtName)
    } else {
        Err(HeadFault::Syntax(at))
    }
}

/// The name.
#[tactic(auto, unfolding(crate::specs::Heads::step))]
fn at_name<'a>(alloc: Global, at: usize, part: &[u8]) -> Result<Stage<'a>, HeadFault>
    ensures { Reads stage_view result (placed at (step_of heads.AtName part.now)) }
{
    if is_name(part) {
        Ok(Stage::AfterName(name_of(alloc, part)?))
    } else {
        Err(HeadFault::Syntax(at))
    }
}

/// A set that has no member so far.
fn opened(alloc: Global, name: Name, sets: Sets) -> OpenSet
    ensures name { result.name ≡ name }
    ensures sets { result.sets ≡ sets }
    ensures members { result.members.keys ≡ [] }
{
    OpenSet {
        name,
        sets,
        members: BTreeSet::new(alloc),
    }
}

/// The systems and a further one.
fn with_system(alloc: Global, systems: Vec<Name>, part: &[u8]) -> Result<Vec<Name>, HeadFault>
    requires { is_system_part part.now ≡ true }
    ensures { MatchResult result (λ names. names.items ≡ systems.items ++ part.now ∷ []) (λ fault. fault ≡ Memory) }
{
    let mut systems = systems;
    systems.push(name_of(alloc, part)?)?;
    Ok(systems)
}

/// After the name: a brace or a system.
#[tactic(auto, unfolding(crate::specs::Heads::step))]
fn after_name<'a>(alloc: Global, at: usize, name: Name, part: &[u8]) -> Result<Stage<'a>, HeadFault>
    ensures { Reads stage_view result (placed at (step_of (heads.AfterName name) part.now)) }
{
    if part == b"{".as_slice() {
        Ok(Stage::AtNumber(opened(alloc, name, Sets::new(alloc))))
    } else if is_system(part) {
        let systems = with_system(alloc, Vec::new(alloc), part)?;
        Ok(Stage::AfterSystem(name, systems))
    } else {
        Err(HeadFault::Syntax(at))
    }
}

/// Puts a further number to the members.
#[tactic(auto, unfolding(crate::specs::Members::with_member))]
fn put_member(at: usize, members: &mut BTreeSet<i32>, part: &[u8]) -> Result<(), HeadFault>
    ensures { Reads (λ _. members.new.keys) result (placed at (with_member members.old.keys part.now)) }
{
    if !is_number(part) {
        return Err(HeadFault::Syntax(at));
    }
    let Some(number) = number_of(part) else {
        return Err(HeadFault::Number(at));
    };
    let added = members.insert(number)?;
    if added {
        Ok(())
    } else {
        Err(HeadFault::Syntax(at))
    }
}

/// In a set: a number.
#[tactic(auto, unfolding(crate::specs::Heads::step))]
fn at_number<'a>(at: usize, set: OpenSet, part: &[u8]) -> Result<Stage<'a>, HeadFault>
    ensures { Reads stage_view result (placed at (step_of (heads.AtNumber set.name set.sets set.members.keys) part.now)) }
{
    let mut set = set;
    put_member(at, &mut set.members, part)?;
    Ok(Stage::AfterNumber(set))
}

/// The members in ascending order.
fn numbers_of(alloc: Global, members: BTreeSet<i32>) -> Result<Vec<i32>, HeadFault>
    ensures numbers { MatchResult result (λ numbers. numbers.items ≡ members.keys) (λ fault. fault ≡ Memory) }
    ensures ascending { IfOk result (λ numbers. IsStrictlySortedBy int_cmp numbers.items) }
{
    Ok(members.iter().copied().collect(alloc)?)
}

/// The sets, and one with these members after them.
fn with_set(alloc: Global, sets: Sets, members: BTreeSet<i32>) -> Result<Sets, HeadFault>
    requires { length members.keys < 2 ^ 32 }
    ensures { MatchResult result (λ more. more ≡ sets ++ members.keys ∷ []) (λ fault. fault ≡ Memory) }
{
    let mut sets = sets;
    let numbers = numbers_of(alloc, members)?;
    sets.push(LetterSet::new(numbers))?;
    Ok(sets)
}

/// In a set, after a number: a comma or a brace.
#[tactic(auto, unfolding(crate::specs::Heads::step))]
fn after_number<'a>(
    alloc: Global,
    at: usize,
    set: OpenSet,
    part: &[u8],
) -> Result<Stage<'a>, HeadFault>
    requires { length set.members.keys < 2 ^ 32 }
    ensures { Reads stage_view result (placed at (step_of (heads.AfterNumber set.name set.sets set.members.keys) part.now)) }
{
    if part == b",".as_slice() {
        return Ok(Stage::AtNumber(set));
    }
    if part != b"}".as_slice() {
        return Err(HeadFault::Syntax(at));
    }
    let OpenSet {
        name,
        sets,
        members,
    } = set;
    let sets = with_set(alloc, sets, members)?;
    Ok(Stage::AfterSet(name, sets))
}

/// The text in quotes, which ends the head.
#[tactic(auto, unfolding(crate::specs::Heads::body_step))]
fn at_body<'a>(
    at: usize,
    name: Name,
    alphabets: Alphabets,
    part: &'a [u8],
) -> Result<Stage<'a>, HeadFault>
    ensures { Reads stage_view result (placed at (body_step name (alphabets_of alphabets) part.now)) }
{
    if !is_quoted(part) {
        return Err(HeadFault::Syntax(at));
    }
    let body = unquoted(part);
    Ok(Stage::AtEnd(RegParts {
        name,
        alphabets,
        body,
    }))
}

/// After a set: a further one, or the text in quotes.
#[tactic(auto, unfolding(crate::specs::Heads::step))]
fn after_set<'a>(
    alloc: Global,
    at: usize,
    name: Name,
    sets: Sets,
    part: &'a [u8],
) -> Result<Stage<'a>, HeadFault>
    ensures { Reads stage_view result (placed at (step_of (heads.AfterSet name sets) part.now)) }
{
    if part == b"{".as_slice() {
        Ok(Stage::AtNumber(opened(alloc, name, sets)))
    } else {
        at_body(at, name, Alphabets::Sets(sets), part)
    }
}

/// After a system: a further one, or the text in quotes.
#[tactic(auto, unfolding(crate::specs::Heads::step))]
fn after_system<'a>(
    alloc: Global,
    at: usize,
    name: Name,
    systems: Vec<Name>,
    part: &'a [u8],
) -> Result<Stage<'a>, HeadFault>
    ensures { Reads stage_view result (placed at (step_of (heads.AfterSystem name systems.items) part.now)) }
{
    if is_system(part) {
        let systems = with_system(alloc, systems, part)?;
        Ok(Stage::AfterSystem(name, systems))
    } else {
        at_body(at, name, Alphabets::Systems(systems), part)
    }
}

impl<'a> Stage<'a> {
    /// The stage after a part that begins at the byte `at`.
    #[tactic(auto, unfolding(crate::specs::Heads::step))]
    pub(crate) fn step(
        self,
        alloc: Global,
        at: usize,
        part: &'a [u8],
    ) -> Result<Stage<'a>, HeadFault>
        requires { open_count (stage_view self) < 2 ^ 32 }
        ensures { Reads stage_view result (placed at (step_of (stage_view self.entry) part.now)) }
    {
        match self {
            Stage::AtWord => at_word(at, part),
            Stage::AtName => at_name(alloc, at, part),
            Stage::AfterName(name) => after_name(alloc, at, name, part),
            Stage::AtNumber(set) => at_number(at, set, part),
            Stage::AfterNumber(set) => after_number(alloc, at, set, part),
            Stage::AfterSet(name, sets) => after_set(alloc, at, name, sets, part),
            Stage::AfterSystem(name, systems) => after_system(alloc, at, name, systems, part),
            Stage::AtEnd(_) => Err(HeadFault::Syntax(at)),
        }
    }

    /// The parts of the head, where a text of `whole` bytes ends.
    pub(crate) fn end(self, whole: usize) -> Result<RegParts<'a>, HeadFault>
        ensures { Reads head_view result (placed whole (ended (stage_view self.entry))) }
    {
        match self {
            Stage::AtEnd(parts) => Ok(parts),
            _ => Err(HeadFault::Syntax(whole)),
        }
    }
}

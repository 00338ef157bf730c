//! The places of an expression's letters, and what may come right after each.

ghost use Rattle.std.specs.Prelude.{◌≡◌, ℕ, ◌<◌, ◌^◌, ◌++◌, ◌∷◌, [], ℤ, List, length, false, slice_index_or, Contains, IsTrue, ◌↔◌, IfOk, OnOk, MatchOption};
ghost use Rattle.regex_build.specs.Expression.{Expression, occurrences_in};
ghost use Rattle.regex_build.specs.Postfix.{after_symbol, tree_of, IsPostfix};
ghost use Rattle.regex_build.specs.Fragments.{rows_in, IsFragment, HasRows};
ghost use Rattle.regex_build.specs.Waiting.{IsWaiting, Waits, Takes, AddsOccurrence, SplitsTwo};
ghost use Rattle.regex_build.specs.NextPlaces.{AreNextPlaces, FinishesWith};

use crate::fragment::Fragment;
use crate::links::{follow, pay};
use crate::postfix_symbol::PostfixSymbol;
use digit_tuple::faults::OutOfMemory;
use std::alloc::Global;

/// The next places of the beginning, which has number 0, and of each place, counted from 1, and
/// whether a word may end there.
#[derive(Drop)]
pub struct NextPlaces {
    pub next: Vec<Vec<u32>>,
    pub ends: Vec<bool>,
}

// The letter at the next place. There are fewer than 2^32 - 1 places.
fn take_letter(
    alloc: Global,
    next: &mut Vec<Vec<u32>>,
    waiting: &mut Vec<Fragment>,
) -> Result<(), OutOfMemory>
    ensures small { OnOk result (length next.new.items < 2 ^ 32) }
    ensures waits { OnOk result (AddsOccurrence waiting.old.items (rows_in next.old.items) waiting.new.items (rows_in next.new.items)) }
{
    if next.len() >= u32::MAX as usize {
        return Err(OutOfMemory);
    }
    let place = next.len() as u32;
    next.push(Vec::new(alloc))?;
    waiting.push(Fragment::letter(alloc, place)?)?;
    Ok(())
}

// The last two, if there are two.
fn pop_two(waiting: &mut Vec<Fragment>) -> Option<(Fragment, Fragment)>
    ensures { SplitsTwo waiting.old.items waiting.new.items result }
{
    if waiting.len() < 2 {
        return None;
    }
    let right = waiting.pop().unwrap();
    let left = waiting.pop().unwrap();
    Some((left, right))
}

fn take_either(waiting: &mut Vec<Fragment>) -> Result<(), OutOfMemory>
    ensures { OnOk result ((rows : List (List ℕ)) → Takes waiting.old.items rows PostfixSymbol.Either waiting.new.items rows) }
{
    if let Some((left, right)) = pop_two(waiting) {
        waiting.push(left.either(right)?)?;
    }
    Ok(())
}

fn take_follow(
    alloc: Global,
    next: &mut Vec<Vec<u32>>,
    waiting: &mut Vec<Fragment>,
) -> Result<(), OutOfMemory>
    requires { IsWaiting waiting.old.items (rows_in next.old.items) }
    ensures count { OnOk result (length next.new.items ≡ length next.old.items) }
    ensures waits { OnOk result (Takes waiting.old.items (rows_in next.old.items) PostfixSymbol.Follow waiting.new.items (rows_in next.new.items)) }
{
    if let Some((left, right)) = pop_two(waiting) {
        waiting.push(follow(alloc, next, left, right)?)?;
    }
    Ok(())
}

fn take_star(alloc: Global, waiting: &mut Vec<Fragment>) -> Result<(), OutOfMemory>
    ensures { OnOk result ((rows : List (List ℕ)) → Takes waiting.old.items rows PostfixSymbol.Star waiting.new.items rows) }
{
    if let Some(fragment) = waiting.pop() {
        waiting.push(fragment.star(alloc)?)?;
    }
    Ok(())
}

fn take_plus(alloc: Global, waiting: &mut Vec<Fragment>) -> Result<(), OutOfMemory>
    ensures { OnOk result ((rows : List (List ℕ)) → Takes waiting.old.items rows PostfixSymbol.Plus waiting.new.items rows) }
{
    if let Some(fragment) = waiting.pop() {
        waiting.push(fragment.plus(alloc)?)?;
    }
    Ok(())
}

fn take_optional(waiting: &mut Vec<Fragment>) -> Result<(), OutOfMemory>
    ensures { OnOk result ((rows : List (List ℕ)) → Takes waiting.old.items rows PostfixSymbol.Optional waiting.new.items rows) }
{
    if let Some(fragment) = waiting.pop() {
        waiting.push(fragment.optional())?;
    }
    Ok(())
}

// Takes one symbol more.
fn take(
    alloc: Global,
    next: &mut Vec<Vec<u32>>,
    waiting: &mut Vec<Fragment>,
    symbol: &PostfixSymbol,
) -> Result<(), OutOfMemory>
    requires small { length next.old.items < 2 ^ 32 }
    requires waits { IsWaiting waiting.old.items (rows_in next.old.items) }
    ensures small { OnOk result (length next.new.items < 2 ^ 32) }
    ensures waits { OnOk result (Takes waiting.old.items (rows_in next.old.items) symbol.now waiting.new.items (rows_in next.new.items)) }
{
    match symbol {
        PostfixSymbol::Empty => waiting.push(Fragment::empty(alloc))?,
        PostfixSymbol::Letter(_) | PostfixSymbol::Any => take_letter(alloc, next, waiting)?,
        PostfixSymbol::Either => take_either(waiting)?,
        PostfixSymbol::Follow => take_follow(alloc, next, waiting)?,
        PostfixSymbol::Star => take_star(alloc, waiting)?,
        PostfixSymbol::Plus => take_plus(alloc, waiting)?,
        PostfixSymbol::Optional => take_optional(waiting)?,
    }
    Ok(())
}

// Whether a word may end at each of so many places.
fn ends_of(
    alloc: Global,
    count: usize,
    nullable: bool,
    lasts: &[u32],
) -> Result<Vec<bool>, OutOfMemory>
    requires some { 0 < count }
    requires room { (p : ℕ) → Contains lasts.now p → p < count }
    ensures count { IfOk result (λ ends. length ends.items ≡ count) }
    ensures first { IfOk result (λ ends. slice_index_or ends.items 0 false ≡ nullable) }
    ensures others { IfOk result (λ ends. (p : ℕ) → 0 < p → IsTrue (slice_index_or ends.items p false) ↔ Contains lasts.now p) }
{
    let mut ends = Vec::new(alloc);
    ends.resize(count, false)?;
    for last in lasts {
        ends[*last as usize] = true;
    }
    ends[0] = nullable;
    Ok(ends)
}

// What the fragment of the whole expression owes is listed, and its first places come next at the
// beginning.
fn finished(
    alloc: Global,
    mut next: Vec<Vec<u32>>,
    whole: Fragment,
) -> Result<NextPlaces, OutOfMemory>
    requires some { 0 < length next.items }
    requires rows { HasRows (length next.items) whole }
    ensures count { IfOk result (λ made. length made.next.items ≡ length next.items) }
    ensures places { IfOk result (FinishesWith (rows_in next.items) whole) }
{
    pay(&mut next, &whole.owed)?;
    let ends = ends_of(alloc, next.len(), whole.nullable, &whole.lasts)?;
    next[0] = whole.firsts;
    Ok(NextPlaces { next, ends })
}

/// The next places of an expression. There are fewer than 2^32 - 1 letters: else it is out of
/// memory.
///
/// The pairs of places that are beside each other are found from the parts to the whole (V. M. Glushkov, "The abstract
/// theory of automata"). What a repetition gives is listed only once, however deep repetitions are in each other (after
/// A. Brüggemann-Klein, "Regular expressions into finite automata"), so all is linear in the pairs, but for moving
/// lists of places from part to part, where each place is moved as often as its list doubles.
pub fn next_places(alloc: Global, symbols: &[PostfixSymbol]) -> Result<NextPlaces, OutOfMemory>
    requires { IsPostfix symbols.now }
    ensures small { IfOk result (λ made. length made.next.items < 2 ^ 32) }
    ensures places { IfOk result (AreNextPlaces (tree_of symbols.now)) }
{
    let mut next = Vec::new(alloc);
    next.push(Vec::new(alloc))?;
    let mut waiting = Vec::new(alloc);
    for symbol in symbols {
        take(alloc, &mut next, &mut waiting, symbol)?;
    }
    let whole = waiting.pop().unwrap();
    finished(alloc, next, whole)
}

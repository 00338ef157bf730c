//! Trees of expressions.

ghost use Rattle.std.specs.Prelude.{◌≡◌, IfOk, OnOk};
ghost use Rattle.regex_build.specs.Postfix.{after_symbol};
ghost use Rattle.reference.specs.Trees.{expression, waiting_in, SplitsTwo};

use crate::tuples::Tuple;
use digit_tuple::faults::OutOfMemory;
use regex_build::postfix_symbol::PostfixSymbol;
use regex_build::regex::Regex;
use std::alloc::Global;

/// An expression as a tree.
#[derive(Drop)]
pub enum Tree {
    /// The empty word.
    Empty,
    /// A letter.
    Letter(Tuple),
    /// Any letter.
    Any,
    /// One of the two.
    Either(Box<Tree>, Box<Tree>),
    /// The two, one after the other.
    Follow(Box<Tree>, Box<Tree>),
    /// Any number of times.
    Star(Box<Tree>),
    /// At least once.
    Plus(Box<Tree>),
    /// At most once.
    Optional(Box<Tree>),
}

/// The expression as a tree.
pub fn tree_of(alloc: Global, regex: &Regex) -> Result<Tree, OutOfMemory>
    ensures { IfOk result (λ tree. expression tree ≡ regex.now.tree) }
{
    let symbols = regex.symbols();
    let mut waiting = Vec::new(alloc);
    for symbol in symbols {
        take(alloc, &mut waiting, symbol)?;
    }
    Ok(waiting.pop().unwrap())
}

// Takes one symbol more.
fn take(alloc: Global, waiting: &mut Vec<Tree>, symbol: &PostfixSymbol) -> Result<(), OutOfMemory>
    ensures { OnOk result (waiting_in waiting.new.items ≡ after_symbol (waiting_in waiting.old.items) symbol.now) }
{
    match symbol {
        PostfixSymbol::Empty => waiting.push(Tree::Empty)?,
        PostfixSymbol::Letter(letter) => {
            let members = Vec::from_slice(alloc, letter.members())?;
            waiting.push(Tree::Letter(Tuple::new(members)))?;
        }
        PostfixSymbol::Any => waiting.push(Tree::Any)?,
        PostfixSymbol::Either => take_either(alloc, waiting)?,
        PostfixSymbol::Follow => take_follow(alloc, waiting)?,
        PostfixSymbol::Star => take_star(alloc, waiting)?,
        PostfixSymbol::Plus => take_plus(alloc, waiting)?,
        PostfixSymbol::Optional => take_optional(alloc, waiting)?,
    }
    Ok(())
}

// The last two, if there are two.
fn pop_two(waiting: &mut Vec<Tree>) -> Option<(Tree, Tree)>
    ensures { SplitsTwo waiting.old.items waiting.new.items result }
{
    if waiting.len() < 2 {
        return None;
    }
    let right = waiting.pop().unwrap();
    let left = waiting.pop().unwrap();
    Some((left, right))
}

fn take_either(alloc: Global, waiting: &mut Vec<Tree>) -> Result<(), OutOfMemory>
    ensures { OnOk result (waiting_in waiting.new.items ≡ after_symbol (waiting_in waiting.old.items) PostfixSymbol.Either) }
{
    if let Some((left, right)) = pop_two(waiting) {
        waiting.push(Tree::Either(Box::new(alloc, left)?, Box::new(alloc, right)?))?;
    }
    Ok(())
}

fn take_follow(alloc: Global, waiting: &mut Vec<Tree>) -> Result<(), OutOfMemory>
    ensures { OnOk result (waiting_in waiting.new.items ≡ after_symbol (waiting_in waiting.old.items) PostfixSymbol.Follow) }
{
    if let Some((left, right)) = pop_two(waiting) {
        waiting.push(Tree::Follow(Box::new(alloc, left)?, Box::new(alloc, right)?))?;
    }
    Ok(())
}

fn take_star(alloc: Global, waiting: &mut Vec<Tree>) -> Result<(), OutOfMemory>
    ensures { OnOk result (waiting_in waiting.new.items ≡ after_symbol (waiting_in waiting.old.items) PostfixSymbol.Star) }
{
    if let Some(once) = waiting.pop() {
        waiting.push(Tree::Star(Box::new(alloc, once)?))?;
    }
    Ok(())
}

fn take_plus(alloc: Global, waiting: &mut Vec<Tree>) -> Result<(), OutOfMemory>
    ensures { OnOk result (waiting_in waiting.new.items ≡ after_symbol (waiting_in waiting.old.items) PostfixSymbol.Plus) }
{
    if let Some(once) = waiting.pop() {
        waiting.push(Tree::Plus(Box::new(alloc, once)?))?;
    }
    Ok(())
}

fn take_optional(alloc: Global, waiting: &mut Vec<Tree>) -> Result<(), OutOfMemory>
    ensures { OnOk result (waiting_in waiting.new.items ≡ after_symbol (waiting_in waiting.old.items) PostfixSymbol.Optional) }
{
    if let Some(once) = waiting.pop() {
        waiting.push(Tree::Optional(Box::new(alloc, once)?))?;
    }
    Ok(())
}

//! What a formula mentions, from left to right.

ghost use Rattle.std.specs.Prelude.{◌≡◌, ◌++◌, ◌∷◌, [], length, IfOk, OnOk};
ghost use Rattle.formula_parse.specs.Views.{formula_view, fact_view, index_view, names_view};
ghost use Rattle.formula_resolve.specs.Mentions.{mentions as mentions_of, fact_mentions, index_mention, marks};

use digit_tuple::faults::OutOfMemory;
use digit_tuple::name::Name;
use formula_parse::tree::{Fact, Formula, Index};
use std::alloc::Global;

/// What a formula mentions.
#[derive(Drop)]
pub enum Mention {
    /// A system, after `?`.
    Marked(Name),
    /// An automaton that is called, with its number of arguments.
    Called(Name, usize),
    /// A word that is indexed, with its number of places.
    Indexed(Name, usize),
}

/// What a formula mentions, from left to right. It takes time in the length of the formula.
pub fn mentions(alloc: Global, formula: &Formula) -> Result<Vec<Mention>, OutOfMemory>
    ensures { IfOk result (λ found. found.items ≡ mentions_of (formula_view formula.now)) }
{
    let mut found = Vec::new(alloc);
    add_mentions(alloc, formula, &mut found)?;
    Ok(found)
}

fn add_mentions(
    alloc: Global,
    formula: &Formula,
    found: &mut Vec<Mention>,
) -> Result<(), OutOfMemory>
    ensures { OnOk result (found.new.items ≡ found.old.items ++ mentions_of (formula_view formula.now)) }
{
    match formula {
        Formula::Atom(atom) => add_fact(alloc, &atom.fact, found),
        Formula::Negated(inside) => add_mentions(alloc, inside, found),
        Formula::Chain(operands, last) => {
            for operand in operands {
                add_mentions(alloc, &operand.formula, found)?;
            }
            add_mentions(alloc, last, found)
        }
        Formula::Quantified(_, _, inside) => add_mentions(alloc, inside, found),
        Formula::Marked(systems, inside) => {
            add_marks(alloc, systems, found)?;
            add_mentions(alloc, inside, found)
        }
    }
}

fn add_marks(alloc: Global, systems: &[Name], found: &mut Vec<Mention>) -> Result<(), OutOfMemory>
    ensures { OnOk result (found.new.items ≡ found.old.items ++ marks (names_view systems.now)) }
{
    for system in systems {
        found.push(Mention::Marked(system.copy(alloc)?))?;
    }
    Ok(())
}

fn add_fact(alloc: Global, fact: &Fact, found: &mut Vec<Mention>) -> Result<(), OutOfMemory>
    ensures { OnOk result (found.new.items ≡ found.old.items ++ fact_mentions (fact_view fact.now)) }
{
    match fact {
        Fact::Compare(..) => {}
        Fact::Words(first, _, second) => {
            found.push(mention_of(alloc, first)?)?;
            found.push(mention_of(alloc, second)?)?;
        }
        Fact::WordLetter(index, _, _) => found.push(mention_of(alloc, index)?)?,
        Fact::LetterWord(_, _, index) => found.push(mention_of(alloc, index)?)?,
        Fact::Call(name, arguments) => {
            found.push(Mention::Called(name.copy(alloc)?, arguments.len()))?;
        }
    }
    Ok(())
}

fn mention_of(alloc: Global, index: &Index) -> Result<Mention, OutOfMemory>
    ensures { IfOk result (λ m. m ≡ index_mention (index_view index.now)) }
{
    Ok(Mention::Indexed(index.word.copy(alloc)?, index.places.len()))
}

//! The formula of one letter.

ghost use Rattle.std.specs.Prelude.{◌≡◌, ◌<◌, IfOk};
ghost use Rattle.formula_parse.specs.Views.{formula_view, term_view};
ghost use Rattle.word_images.specs.ImageFormula.{at_place, has_letter, image_formula, is_place, place_term, word_name};

use digit_tuple::faults::OutOfMemory;
use digit_tuple::name::Name;
use formula_parse::tree::{
    Addend, Atom, Connective, Fact, Factor, Formula, Index, Operand, Quantifier, Relation, Sign,
    Term,
};
use itoa::Buffer;
use std::alloc::Global;

/// The formula that is true of the positions of the image at which this letter is, in a system: for one position r of the
/// images, `Eq n=k*q+r & U[q]=@b`, where `U` is the word of that position. All images have this length. Time and memory
/// follow the length.
pub fn image_formula(
    alloc: Global,
    system: &Name,
    length: usize,
    letter: i32,
) -> Result<Formula, OutOfMemory>
    requires { 0 < length }
    ensures { IfOk result (λ f. formula_view f ≡ image_formula system.now length letter) }
{
    let mut operands = Vec::new(alloc);
    for place in 0..length - 1 {
        operands.push(Operand {
            formula: at_place(alloc, system, length, letter, place)?,
            connective: Connective::Or,
        })?;
    }
    let last = at_place(alloc, system, length, letter, length - 1)?;
    Ok(Formula::Chain(operands, Box::new(alloc, last)?))
}

// For some number, the position is reached from it, and the letter there is this.
fn at_place(
    alloc: Global,
    system: &Name,
    length: usize,
    letter: i32,
    place: usize,
) -> Result<Formula, OutOfMemory>
    ensures { IfOk result (λ f. formula_view f ≡ at_place system.now length letter place) }
{
    let mut operands = Vec::new(alloc);
    operands.push(Operand {
        formula: is_place(alloc, system, length, place)?,
        connective: Connective::And,
    })?;
    let last = Box::new(alloc, has_letter(alloc, system, letter, place)?)?;
    let mut variables = Vec::new(alloc);
    variables.push(Name::new(alloc, "q")?)?;
    let body = Box::new(alloc, Formula::Chain(operands, last))?;
    Ok(Formula::Quantified(Quantifier::Exists, variables, body))
}

// The position is the length times a number, and the position of the image.
fn is_place(
    alloc: Global,
    system: &Name,
    length: usize,
    place: usize,
) -> Result<Formula, OutOfMemory>
    ensures { IfOk result (λ f. formula_view f ≡ is_place system.now length place) }
{
    let reached = place_term(alloc, length, place)?;
    Ok(Formula::Atom(Atom {
        system: system.copy(alloc)?,
        fact: Fact::Compare(
            Term::Variable(Name::new(alloc, "n")?),
            Relation::Equal,
            reached,
        ),
    }))
}

// The length times a number, and the position of the image.
fn place_term(alloc: Global, length: usize, place: usize) -> Result<Term, OutOfMemory>
    ensures { IfOk result (λ t. term_view t ≡ place_term length place) }
{
    let mut factors = Vec::new(alloc);
    factors.push(Factor::Times(Term::Numeral(length as u64)))?;
    factors.push(Factor::Times(Term::Variable(Name::new(alloc, "q")?)))?;
    let mut addends = Vec::new(alloc);
    addends.push(Addend {
        term: Term::Product(factors),
        sign: Sign::Plus,
    })?;
    let last = Box::new(alloc, Term::Numeral(place as u64))?;
    Ok(Term::Sum(addends, last))
}

// The letter at the number of the word of this position is this one.
fn has_letter(
    alloc: Global,
    system: &Name,
    letter: i32,
    place: usize,
) -> Result<Formula, OutOfMemory>
    ensures { IfOk result (λ f. formula_view f ≡ has_letter system.now place letter) }
{
    let mut places = Vec::new(alloc);
    places.push(Term::Variable(Name::new(alloc, "q")?))?;
    let word = word_name(alloc, place)?;
    Ok(Formula::Atom(Atom {
        system: system.copy(alloc)?,
        fact: Fact::WordLetter(Index { word, places }, Relation::Equal, letter),
    }))
}

/// The name under which the word of a position is.
pub fn word_name(alloc: Global, place: usize) -> Result<Name, OutOfMemory>
    ensures { IfOk result (λ name. name ≡ word_name place) }
{
    let mut buffer = Buffer::new();
    Name::new(alloc, buffer.format(place))
}

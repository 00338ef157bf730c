//! The trees of formulas. Parentheses leave no mark, and a list of one item is that item.

use digit_tuple::name::Name;

/// How the two sides of an atom compare.
#[derive(Clone, Copy, PartialEq, Eq)]
pub enum Relation {
    /// `=`
    Equal,
    /// `!=`
    Unequal,
    /// `<`
    Less,
    /// `>`
    Greater,
    /// `<=`
    AtMost,
    /// `>=`
    AtLeast,
}

/// A quantifier.
#[derive(Clone, Copy, PartialEq, Eq)]
pub enum Quantifier {
    /// `E`
    Exists,
    /// `A`
    ForAll,
    /// `I`, for infinitely many; of one variable.
    Infinite,
}

/// The sign between two addends.
#[derive(Clone, Copy, PartialEq, Eq)]
pub enum Sign {
    /// `+`
    Plus,
    /// `-`
    Minus,
}

/// What is between two operands.
#[derive(Clone, Copy, PartialEq, Eq)]
pub enum Connective {
    /// `&`
    And,
    /// `|`
    Or,
    /// `^`
    Xor,
    /// `=>`
    Implies,
    /// `<=>`
    Iff,
}

/// A term. A product has at least two factors, of which the first is no divisor, and a sum at least one addend before the last.
#[derive(Drop)]
#[cycle(terms)]
pub enum Term {
    /// A variable.
    Variable(Name),
    /// A numeral.
    Numeral(u64),
    /// The product of its factors.
    Product(Vec<Factor>),
    /// The addends before the last, and the last; read from the left.
    Sum(Vec<Addend>, Box<Term>),
}

/// What a product is multiplied or divided by.
#[derive(Drop)]
#[cycle(terms)]
pub enum Factor {
    /// A term.
    Times(Term),
    /// A numeral above 0 by which what is before it is divided, rounded down.
    Divided(u64),
}

/// An addend, with the sign after it.
#[derive(Drop)]
#[cycle(terms)]
pub struct Addend {
    /// The addend.
    pub term: Term,
    /// The sign between it and the next.
    pub sign: Sign,
}

/// A word at positions, one at least.
#[derive(Drop)]
pub struct Index {
    /// The word's name.
    pub word: Name,
    /// The positions, each in brackets of its own.
    pub places: Vec<Term>,
}

/// What an atom says.
#[derive(Drop)]
pub enum Fact {
    /// Two terms compare so.
    Compare(Term, Relation, Term),
    /// The letters of two words at positions compare so.
    Words(Index, Relation, Index),
    /// The letter of a word at positions compares so to a letter.
    WordLetter(Index, Relation, i32),
    /// A letter compares so to the letter of a word at positions.
    LetterWord(i32, Relation, Index),
    /// What the automaton of this name says of the terms.
    Call(Name, Vec<Term>),
}

/// A fact, in the system in force at its position.
#[derive(Drop)]
pub struct Atom {
    /// The system's name.
    pub system: Name,
    /// The fact.
    pub fact: Fact,
}

/// A formula.
#[derive(Drop)]
#[cycle(formulas)]
pub enum Formula {
    /// An atom.
    Atom(Atom),
    /// A negation.
    Negated(Box<Formula>),
    /// The operands before the last, one at least, and the last; read from the left.
    Chain(Vec<Operand>, Box<Formula>),
    /// A quantifier with its variables, one at least, and what it takes.
    Quantified(Quantifier, Vec<Name>, Box<Formula>),
    /// The systems of some `?` marks, one at least, and the operand that they come before.
    Marked(Vec<Name>, Box<Formula>),
}

/// An operand of a chain, with the connective after it.
#[derive(Drop)]
#[cycle(formulas)]
pub struct Operand {
    /// The operand.
    pub formula: Formula,
    /// The connective between it and the next.
    pub connective: Connective,
}

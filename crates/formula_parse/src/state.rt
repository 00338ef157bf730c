//! The states of the machine that reads a formula: what is open, what was read, and where it is.

use crate::flaw::{Came, Flaw, Product};
use crate::tree::{Addend, Factor, Formula, Index, Operand, Relation, Term};
use digit_tuple::name::Name;

/// The greatest nesting.
pub(crate) const LIMIT: usize = 128;

/// What comes before the next operand of a formula, and the formula's nesting.
#[derive(Drop)]
pub(crate) struct Prefix {
    pub base: u8,
    pub implications: Vec<Operand>,
    pub chains: Vec<Operand>,
    pub operands: Vec<Operand>,
    pub came: Came,
    pub implied: bool,
}

/// What comes before the core of an operand: the marks before each of its `~`, and those after them.
#[derive(Drop)]
pub(crate) struct Before {
    pub tildes: Vec<Vec<Name>>,
    pub marks: Vec<Name>,
}

/// A formula that is being read: what comes before the operand and the core that come, and whether anything has come.
#[derive(Drop)]
pub(crate) struct Body {
    pub prefix: Prefix,
    pub before: Before,
    pub touched: bool,
}

/// A quantifier, with the variables before the last; `I` has one variable.
#[derive(Drop)]
pub(crate) enum Binding {
    Exists(Vec<Name>),
    ForAll(Vec<Name>),
    Infinite,
}

/// A quantifier with its variables.
#[derive(Drop)]
pub(crate) struct Scope {
    pub binding: Binding,
    pub last: Name,
}

/// A formula inside of which another one was opened.
#[derive(Drop)]
pub(crate) enum Frame {
    /// By a parenthesis, with the system in force before it.
    Paren(Body, Name),
    /// By a quantifier.
    Quantified(Scope, Body),
}

/// What comes before the next factor of a term: the products before its own, and the factors before it.
#[derive(Drop)]
pub(crate) struct Sum {
    pub addends: Vec<Addend>,
    pub factors: Vec<Factor>,
    pub product: Product,
}

/// What is on the left of the index that comes.
#[derive(Drop)]
pub(crate) enum Aim {
    LeftIndex(Index, Relation),
    LeftLetter(i32, Relation),
}

/// Which of the two indices of an atom.
#[derive(Drop)]
pub(crate) enum Side {
    First,
    Second(Aim),
}

/// A word, and its places before the one that comes.
#[derive(Drop)]
pub(crate) struct Places {
    pub side: Side,
    pub word: Name,
    pub places: Vec<Term>,
}

/// A called name, and its arguments before the one that comes.
#[derive(Drop)]
pub(crate) struct Arguments {
    pub name: Name,
    pub terms: Vec<Term>,
}

/// What a term is in its atom.
#[derive(Drop)]
pub(crate) enum Role {
    LeftSide,
    RightOf(Term, Relation),
    PlaceIn(Places),
    Argument(Arguments),
}

/// The role of a term, and the terms around it, each with a parenthesis open.
#[derive(Drop)]
pub(crate) struct Nest {
    pub role: Role,
    pub outer: Vec<Sum>,
}

/// A term that is being read: its role, and what of it comes before the factor that comes.
#[derive(Drop)]
pub(crate) struct Reading {
    pub nest: Nest,
    pub sum: Sum,
}

/// A term that was read, and whether it is a numeral, maybe in parentheses.
#[derive(Drop)]
pub(crate) struct ReadTerm {
    pub term: Term,
    pub numeral: bool,
}

/// A factor or a divisor that was read, and whether it is a factor that is a numeral, maybe in parentheses.
#[derive(Drop)]
pub(crate) struct ReadFactor {
    pub factor: Factor,
    pub numeral: bool,
}

/// Where a letter is.
#[derive(Drop)]
pub(crate) enum Representation {
    OnLeft,
    OnRight(Index, Relation),
}

/// A letter as it is written: the byte of its `@`, whether a `-` follows, and the numeral.
#[derive(Clone, Copy)]
pub(crate) struct Letter {
    pub at: usize,
    pub negative: bool,
    pub value: u64,
}

/// Where the machine is, with what was read since the last operand.
#[derive(Drop)]
pub(crate) enum Position {
    AtOperand,
    AtSystem,
    AtVariable(Binding),
    AfterOperand(Formula),
    /// A name that begins an operand: a variable or a word.
    AfterFirst(Name),
    AtFactor(Reading),
    AfterFactor(Reading, ReadFactor),
    AtDivisor(Reading),
    AfterIndex(Places, Term),
    AtWord(Aim),
    AtBracket(Aim, Name),
    AtLetter(Representation, usize),
    AtValue(Representation, usize),
    AfterLetter(i32),
    AtCalled,
    AtCall(Name),
    AtArgument(Name),
    Done(Formula),
}

/// What is open around a formula, the system in force and the least flaw so far.
#[derive(Drop)]
pub(crate) struct Around {
    pub frames: Vec<Frame>,
    pub system: Name,
    pub flaw: Option<Flaw>,
}

/// A formula that is being read, and what is around it.
#[derive(Drop)]
pub(crate) struct Context {
    pub around: Around,
    pub body: Body,
}

/// A state of the machine.
#[derive(Drop)]
pub(crate) struct State {
    pub context: Context,
    pub position: Position,
}

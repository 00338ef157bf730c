//! The parser: one token after the other, until the text ends or a token is refused.

ghost use Rattle.std.specs.Prelude.{◌≡◌, ◌↔◌, Some, Err, IsTrue, IfOk};
ghost use Rattle.formula_parse.specs.Tokens as tokens;
ghost use Rattle.formula_parse.specs.Machine as machine;
ghost use Rattle.formula_parse.specs.Made.{trees};
ghost use Rattle.formula_parse.specs.FormulaTrees.{default_system};
ghost use Rattle.formula_parse.specs.declared.tree.Formula.{Formula};
ghost use Rattle.formula_parse.specs.Spots.{mode_after};
ghost use Rattle.formula_parse.specs.StateViews.{position_view, state_view};
ghost use Rattle.formula_parse.specs.LexemeViews.{lexed_view, mode_view};
ghost use Rattle.formula_parse.specs.Advances.{Advances, IsDone, Flawed, Finishes};
ghost use Rattle.formula_parse.specs.Parsing.{Parses};

use crate::advance::{advance, big_fault};
use crate::fault::ParseFault;
use crate::flaw::Flaw;
use crate::lexing::{Lexed, Mode, Spot, next_spot};
use crate::state::{Around, Body, Context, Position, State};
use crate::token::Token;
use crate::tree::Formula;
use digit_tuple::faults::OutOfMemory;
use digit_tuple::name::Name;
use std::alloc::Global;

impl State {
    /// Nothing has come.
    fn start(alloc: Global) -> Result<State, OutOfMemory>
        ensures { IfOk result (λ s. state_view s ≡ machine.start trees default_system) }
    {
        let system = Name::new(alloc, "msd_2")?;
        let around = Around {
            frames: Vec::new(alloc),
            system,
            flaw: None,
        };
        Ok(State {
            context: Context {
                around,
                body: Body::fresh(alloc, 0),
            },
            position: Position::AtOperand,
        })
    }
}

impl Lexed {
    /// What comes before the next token.
    fn mode_after(&self) -> Mode
        ensures { mode_view result ≡ mode_after (lexed_view self.now) }
    {
        match self {
            Lexed::Token(Token::Mark) => Mode::AfterMark,
            Lexed::Token(Token::CallSign) => Mode::AfterCall,
            _ => Mode::Plain,
        }
    }

    fn is_end(&self) -> bool
        ensures { IsTrue result ↔ (lexed_view self.now ≡ tokens.end) }
    {
        matches!(self, Lexed::Token(Token::End))
    }
}

/// The state after a token or a numeral of 2^64 or more, or the fault there.
fn read_spot(alloc: Global, state: State, spot: Spot) -> Result<State, ParseFault>
    ensures { Advances (state_view state) (lexed_view spot.lexed) spot.at result }
{
    let Spot { lexed, at, .. } = spot;
    match lexed {
        Lexed::Token(token) => advance(alloc, state, token, at),
        Lexed::Big => {
            let fault = big_fault(&state.position, at);
            drop(state);
            Err(fault)
        }
    }
}

/// The fault that a flaw is.
fn flaw_fault(flaw: Flaw) -> ParseFault
    ensures { (f : Formula) → Flawed f (Some flaw) (Err result) }
{
    match flaw {
        Flaw::MixedChain(at) => ParseFault::MixedChain(at),
        Flaw::NotLinear(at) => ParseFault::NotLinear(at),
    }
}

/// A tree, or the least flaw where one was met.
fn without_flaw(formula: Formula, flaw: Option<Flaw>) -> Result<Formula, ParseFault>
    ensures { Flawed formula flaw result }
{
    match flaw {
        None => Ok(formula),
        Some(flaw) => {
            drop(formula);
            Err(flaw_fault(flaw))
        }
    }
}

/// The tree of a text that was read to its end, or its least flaw.
fn finish(state: State) -> Result<Formula, ParseFault>
    requires { IsDone (position_view state.position) }
    ensures { Finishes state result }
{
    let State { context, position } = state;
    let flaw = context.around.flaw;
    drop(context);
    match position {
        Position::Done(formula) => without_flaw(formula, flaw),
        _ => unreachable!(),
    }
}

/// The tree of a text, where the grammar relates one to it. Any bytes are a text; a formula that names no system is in
/// `msd_2`.
///
/// Otherwise `Syntax`, `Number` or `Depth` at the first token that decides; where none does, `MixedChain` or `NotLinear`
/// at the least byte. `Memory` where a growth was refused.
///
/// Time and memory grow with the length of the text.
pub fn parse(alloc: Global, text: &[u8]) -> Result<Formula, ParseFault>
    ensures { Parses text.now result }
{
    let mut state = State::start(alloc)?;
    let mut mode = Mode::Plain;
    let mut at = 0;
    loop {
        let Ok(spot) = next_spot(alloc, text, at, mode) else {
            drop(state);
            return Err(ParseFault::Memory);
        };
        mode = spot.lexed.mode_after();
        at = spot.end;
        let ends = spot.lexed.is_end();
        let next = match read_spot(alloc, state, spot) {
            Ok(next) => next,
            Err(fault) => return Err(fault),
        };
        if ends {
            return finish(next);
        }
        state = next;
    }
}

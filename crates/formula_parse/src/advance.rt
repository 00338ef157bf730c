//! One token of the machine, with the limits: numerals below 2^64, letters of 32 bits, nesting 128.

ghost use Rattle.std.specs.Prelude.{◌≡◌, ℕ, ◌^◌, min, Ok, Err};
ghost use Rattle.formula_parse.specs.Tokens as tokens;
ghost use Rattle.formula_parse.specs.Made.{trees};
ghost use Rattle.formula_parse.specs.Machine as machine;
ghost use Rattle.formula_parse.specs.StateViews.{Machine, outers_view, role_view, position_view, state_view, token_view};
ghost use Rattle.formula_parse.specs.Limits.{IsInRange};
ghost use Rattle.formula_parse.specs.Stops.{Steps};
ghost use Rattle.formula_parse.specs.Advances.{Advances};

use crate::fault::{ParseFault, Stop};
use crate::state::{LIMIT, Nest, Position, Role, State};
use crate::step::step;
use crate::token::Token;
use std::alloc::Global;

/// The nesting of a term in one at a nesting, or `usize::MAX`.
#[tactic(auto, using(crate::proofs::Depths::term_depth))]
fn term_depth(nest: &Nest, nesting: usize) -> usize
    ensures { (d : ℕ) → nesting ≡ min d usize.MAX →
        result ≡ min (machine.within_outer (outers_view nest.now.outer.items) (machine.within_role (role_view nest.now.role) d)) usize.MAX }
{
    let inner = match &nest.role {
        Role::LeftSide | Role::RightOf(_, _) => nesting,
        Role::PlaceIn(_) | Role::Argument(_) => nesting.saturating_add(1),
    };
    inner.saturating_add(nest.outer.len())
}

/// The nesting of a state, or `usize::MAX`.
fn depth(state: &State) -> usize
    ensures { result ≡ min (machine.depth (state_view state.now)) usize.MAX }
{
    let nesting = state.context.body.nesting();
    match &state.position {
        Position::AtVariable(_) | Position::AtArgument(_) => nesting.saturating_add(1),
        Position::AtFactor(reading)
        | Position::AfterFactor(reading, _)
        | Position::AtDivisor(reading) => term_depth(&reading.nest, nesting),
        _ => nesting,
    }
}

/// The fault at a numeral of 2^64 or more.
#[tactic(auto, using(crate::proofs::Numbers::position_number, crate::proofs::Numbers::divisor_above))]
pub(crate) fn big_fault(position: &Position, at: usize) -> ParseFault
    ensures { (s : Machine) → s.position ≡ position_view position.now → Advances s (tokens.number (2 ^ 64)) at (Err result) }
{
    match position {
        Position::AtOperand
        | Position::AtFactor(_)
        | Position::AtDivisor(_)
        | Position::AtArgument(_) => ParseFault::Number(at),
        Position::AtLetter(_, sign) | Position::AtValue(_, sign) => ParseFault::Number(*sign),
        _ => ParseFault::Syntax(at),
    }
}

/// The state that a token in its range gives, or the fault at its byte where it is too deep.
fn within_limit(state: State, at: usize) -> Result<State, ParseFault>
    ensures { (s : Machine) (t : tokens.Token) → IsInRange (tokens.here t 0) → Steps s.position t (Ok state) (machine.step trees s t) → Advances s t at result }
{
    if depth(&state) > LIMIT {
        drop(state);
        Err(ParseFault::Depth(at))
    } else {
        Ok(state)
    }
}

/// The fault where the machine stops at a token that begins at a byte.
fn fault_of(stop: Stop, at: usize) -> ParseFault
    ensures { (s : Machine) (t : tokens.Token) → Steps s.position t (Err stop) (machine.step trees s t) → Advances s t at (Err result) }
{
    match stop {
        Stop::Syntax => ParseFault::Syntax(at),
        Stop::Letter(sign) => ParseFault::Number(sign),
        Stop::Depth => ParseFault::Depth(at),
        Stop::Memory => ParseFault::Memory,
    }
}

/// The state after a token in its range.
fn advance_by(alloc: Global, state: State, token: Token, at: usize) -> Result<State, ParseFault>
    requires { IsInRange (tokens.here (token_view token) 0) }
    ensures { Advances (state_view state) (token_view token) at result }
{
    match step(alloc, state, token) {
        Ok(next) => within_limit(next, at),
        Err(stop) => Err(fault_of(stop, at)),
    }
}

/// The state after a numeral below 2^64.
fn advance_number(alloc: Global, state: State, value: u64, at: usize) -> Result<State, ParseFault>
    ensures { Advances (state_view state) (tokens.number value) at result }
{
    advance_by(alloc, state, Token::Number(value), at)
}

/// The state after a token that begins at a byte, or the fault there.
pub(crate) fn advance(
    alloc: Global,
    state: State,
    token: Token,
    at: usize,
) -> Result<State, ParseFault>
    ensures { Advances (state_view state) (token_view token) at result }
{
    match token {
        Token::Number(value) => advance_number(alloc, state, value, at),
        _ => advance_by(alloc, state, token, at),
    }
}

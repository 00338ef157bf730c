//! One token of the machine.

ghost use Rattle.formula_parse.specs.Made.{trees};
ghost use Rattle.formula_parse.specs.Machine as machine;
ghost use Rattle.formula_parse.specs.StateViews.{token_view, position_view, state_view};
ghost use Rattle.formula_parse.specs.Stops.{Steps};

use crate::beginnings::{enter, enter_system, enter_variable};
use crate::calls::{enter_argument, enter_call, enter_called};
use crate::fault::Stop;
use crate::indexes::{enter_bracket, enter_word, leave_index};
use crate::letters::{enter_letter, enter_value, leave_letter};
use crate::operands::leave;
use crate::state::{Position, State};
use crate::terms::{enter_divisor, enter_factor, leave_factor, leave_first};
use crate::token::Token;
use std::alloc::Global;

/// The state after a token.
pub(crate) fn step(alloc: Global, state: State, token: Token) -> Result<State, Stop>
    ensures { Steps (position_view state.position) (token_view token) result (machine.step trees (state_view state) (token_view token)) }
{
    let State { context, position } = state;
    match position {
        Position::AtOperand => enter(alloc, context, token),
        Position::AtSystem => enter_system(alloc, context, token),
        Position::AtVariable(binding) => enter_variable(alloc, context, binding, token),
        Position::AfterOperand(core) => leave(alloc, context, core, token),
        Position::AfterFirst(name) => leave_first(alloc, context, name, token),
        Position::AtFactor(reading) => enter_factor(alloc, context, reading, token),
        Position::AfterFactor(reading, read) => leave_factor(alloc, context, reading, read, token),
        Position::AtDivisor(reading) => enter_divisor(context, reading, token),
        Position::AfterIndex(places, term) => leave_index(alloc, context, places, term, token),
        Position::AtWord(aim) => enter_word(context, aim, token),
        Position::AtBracket(aim, name) => enter_bracket(alloc, context, aim, name, token),
        Position::AtLetter(representation, at) => enter_letter(
            alloc,
            context,
            representation,
            at,
            token,
        ),
        Position::AtValue(representation, at) => enter_value(
            alloc,
            context,
            representation,
            at,
            token,
        ),
        Position::AfterLetter(letter) => leave_letter(context, letter, token),
        Position::AtCalled => enter_called(context, token),
        Position::AtCall(name) => enter_call(context, name, token),
        Position::AtArgument(name) => enter_argument(alloc, context, name, token),
        Position::Done(formula) => {
            drop(context);
            drop(formula);
            drop(token);
            Err(Stop::Syntax)
        }
    }
}

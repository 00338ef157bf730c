//! The machine at calls: a `$`, a name, and what begins its arguments.

ghost use Rattle.std.specs.Prelude.{◌≡◌, true, []};
ghost use Rattle.formula_parse.specs.Flaws as flaws;
ghost use Rattle.formula_parse.specs.Made.{trees};
ghost use Rattle.formula_parse.specs.Machine as machine;
ghost use Rattle.formula_parse.specs.StateViews.{token_view, context_view};
ghost use Rattle.formula_parse.specs.Stops.{Gives};

use crate::fault::Stop;
use crate::operands::after_atom;
use crate::state::{Arguments, Context, Position, Reading, Role, State};
use crate::terms::enter_factor;
use crate::token::Token;
use crate::tree::Fact;
use digit_tuple::name::Name;
use std::alloc::Global;

/// A token after a `$`.
pub(crate) fn enter_called(context: Context, token: Token) -> Result<State, Stop>
    ensures { Gives result (machine.enter_called trees (context_view context) (token_view token)) }
{
    match token {
        Token::Called(name) => Ok(State {
            context,
            position: Position::AtCall(name),
        }),
        _ => {
            drop(context);
            drop(token);
            Err(Stop::Syntax)
        }
    }
}

/// A token after the name of a call.
pub(crate) fn enter_call(context: Context, name: Name, token: Token) -> Result<State, Stop>
    ensures { Gives result (machine.enter_call trees (context_view context) name (token_view token)) }
{
    match token {
        Token::Opening => Ok(State {
            context,
            position: Position::AtArgument(name),
        }),
        _ => {
            drop(context);
            Err(Stop::Syntax)
        }
    }
}

/// A token after a call's parenthesis.
pub(crate) fn enter_argument(
    alloc: Global,
    context: Context,
    name: Name,
    token: Token,
) -> Result<State, Stop>
    ensures { Gives result (machine.enter_argument trees (context_view context) name (token_view token)) }
{
    match token {
        Token::Closing => after_atom(alloc, context, Fact::Call(name, Vec::new(alloc))),
        _ => first_argument(alloc, context, name, token),
    }
}

/// A token where a call's first argument begins.
fn first_argument(alloc: Global, context: Context, name: Name, token: Token) -> Result<State, Stop>
    ensures { Gives result (machine.enter_factor trees (context_view context) (machine.argument name trees.no_terms) []
        trees.no_addends trees.no_factors (flaws.product_start true) (token_view token)) }
{
    let arguments = Arguments {
        name,
        terms: Vec::new(alloc),
    };
    let reading = Reading::start(alloc, Role::Argument(arguments));
    enter_factor(alloc, context, reading, token)
}

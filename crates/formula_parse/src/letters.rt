//! The machine at letters: an `@`, a `-` or none, and a numeral.

ghost use Rattle.std.specs.Prelude.{◌≡◌, ◌<◌, true, false, SomeIff};
ghost use Rattle.formula_parse.specs.Building as building;
ghost use Rattle.formula_parse.specs.Limits.{letter_bound};
ghost use Rattle.formula_parse.specs.Made.{trees};
ghost use Rattle.formula_parse.specs.Machine as machine;
ghost use Rattle.formula_parse.specs.StateViews.{token_view, representation_view, context_view};
ghost use Rattle.formula_parse.specs.Stops.{Gives, GivesLetter};

use crate::fault::Stop;
use crate::making::atom;
use crate::state::{Aim, Context, Letter, Position, Representation, State};
use crate::token::Token;
use crate::tree::{Fact, Sign};
use std::alloc::Global;

/// The letter with a sign and a numeral, where it is a signed 32-bit number.
fn signed(negative: bool, value: u64) -> Option<i32>
    ensures { SomeIff result (value < letter_bound negative) (building.signed negative value) }
{
    if negative {
        if value > 1 << 31 {
            return None;
        }
        Some((-(value as i64)) as i32)
    } else {
        if value >= 1 << 31 {
            return None;
        }
        Some(value as i32)
    }
}

/// A whole letter.
fn with_letter(
    alloc: Global,
    context: Context,
    representation: Representation,
    letter: Letter,
) -> Result<State, Stop>
    ensures { GivesLetter letter.at letter.negative (token_view (Token.Number letter.value)) result
        (machine.with_letter trees (context_view context) (representation_view representation) (record { at = letter.at; negative = letter.negative; value = letter.value })) }
{
    let Some(number) = signed(letter.negative, letter.value) else {
        drop(context);
        drop(representation);
        return Err(Stop::Letter(letter.at));
    };
    match representation {
        Representation::OnLeft => Ok(State {
            context,
            position: Position::AfterLetter(number),
        }),
        Representation::OnRight(index, relation) => {
            let fact = Fact::WordLetter(index, relation, number);
            let Ok(core) = atom(alloc, &context.around.system, fact) else {
                drop(context);
                return Err(Stop::Memory);
            };
            Ok(State {
                context,
                position: Position::AfterOperand(core),
            })
        }
    }
}

/// A token after an `@`.
pub(crate) fn enter_letter(
    alloc: Global,
    context: Context,
    representation: Representation,
    at: usize,
    token: Token,
) -> Result<State, Stop>
    ensures { GivesLetter at false (token_view token) result (machine.enter_letter trees (context_view context) (representation_view representation) at (token_view token)) }
{
    match token {
        Token::Number(value) => {
            let letter = Letter {
                at,
                negative: false,
                value,
            };
            with_letter(alloc, context, representation, letter)
        }
        Token::Sign(Sign::Minus) => Ok(State {
            context,
            position: Position::AtValue(representation, at),
        }),
        _ => {
            drop(context);
            drop(representation);
            Err(Stop::Syntax)
        }
    }
}

/// A token after an `@` and a `-`.
pub(crate) fn enter_value(
    alloc: Global,
    context: Context,
    representation: Representation,
    at: usize,
    token: Token,
) -> Result<State, Stop>
    ensures { GivesLetter at true (token_view token) result (machine.enter_value trees (context_view context) (representation_view representation) at (token_view token)) }
{
    match token {
        Token::Number(value) => {
            let letter = Letter {
                at,
                negative: true,
                value,
            };
            with_letter(alloc, context, representation, letter)
        }
        _ => {
            drop(context);
            drop(representation);
            Err(Stop::Syntax)
        }
    }
}

/// A token after a letter on the left.
pub(crate) fn leave_letter(context: Context, letter: i32, token: Token) -> Result<State, Stop>
    ensures { Gives result (machine.leave_letter trees (context_view context) letter (token_view token)) }
{
    match token {
        Token::Relation(relation) => {
            Ok(State {
                context,
                position: Position::AtWord(Aim::LeftLetter(letter, relation)),
            })
        }
        _ => {
            drop(context);
            Err(Stop::Syntax)
        }
    }
}

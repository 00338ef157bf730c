//! The machine at words with positions, on the left or on the right of a relation.

ghost use Rattle.std.specs.Prelude.{◌≡◌};
ghost use Rattle.formula_parse.specs.Made.{trees};
ghost use Rattle.formula_parse.specs.Machine as machine;
ghost use Rattle.formula_parse.specs.Views.{term_view, terms_view, index_view};
ghost use Rattle.formula_parse.specs.StateViews.{token_view, aim_view, side_view, context_view};
ghost use Rattle.formula_parse.specs.Stops.{Gives};

use crate::fault::Stop;
use crate::making::index;
use crate::operands::leave_atom;
use crate::state::{Aim, Context, Places, Position, Representation, Role, Side, State};
use crate::terms::at_term;
use crate::token::Token;
use crate::tree::{Fact, Index, Term};
use digit_tuple::name::Name;
use std::alloc::Global;

/// A token where the word on the right is, or a letter.
pub(crate) fn enter_word(context: Context, aim: Aim, token: Token) -> Result<State, Stop>
    ensures { Gives result (machine.enter_word trees (context_view context) (aim_view aim) (token_view token)) }
{
    match token {
        Token::Name(name) => Ok(State {
            context,
            position: Position::AtBracket(aim, name),
        }),
        Token::LetterSign(at) => match aim {
            Aim::LeftIndex(index, relation) => {
                Ok(State {
                    context,
                    position: Position::AtLetter(Representation::OnRight(index, relation), at),
                })
            }
            Aim::LeftLetter(_, _) => {
                drop(context);
                Err(Stop::Syntax)
            }
        },
        _ => {
            drop(context);
            drop(aim);
            drop(token);
            Err(Stop::Syntax)
        }
    }
}

/// A token after the word on the right.
pub(crate) fn enter_bracket(
    alloc: Global,
    context: Context,
    aim: Aim,
    name: Name,
    token: Token,
) -> Result<State, Stop>
    ensures { Gives result (machine.enter_bracket trees (context_view context) (aim_view aim) name (token_view token)) }
{
    match token {
        Token::Bracket => {
            let places = Places {
                side: Side::Second(aim),
                word: name,
                places: Vec::new(alloc),
            };
            Ok(at_term(alloc, context, Role::PlaceIn(places)))
        }
        _ => {
            drop(context);
            drop(aim);
            Err(Stop::Syntax)
        }
    }
}

/// A token after a position of an index.
pub(crate) fn leave_index(
    alloc: Global,
    context: Context,
    places: Places,
    term: Term,
    token: Token,
) -> Result<State, Stop>
    ensures { Gives result (machine.leave_index trees (context_view context) (side_view places.side) places.word (terms_view places.places.items) (term_view term) (token_view token)) }
{
    let Places { side, word, places } = places;
    let Ok(index) = index(word, places, term) else {
        drop(context);
        drop(side);
        drop(token);
        return Err(Stop::Memory);
    };
    let Index { word, places } = index;
    match token {
        Token::Bracket => {
            let places = Places { side, word, places };
            Ok(at_term(alloc, context, Role::PlaceIn(places)))
        }
        _ => leave_side(alloc, context, side, Index { word, places }, token),
    }
}

/// A token after a whole index on the left.
fn leave_left(context: Context, index: Index, token: Token) -> Result<State, Stop>
    ensures { Gives result (machine.leave_side trees (context_view context) machine.first (index_view index) (token_view token)) }
{
    match token {
        Token::Relation(relation) => Ok(State {
            context,
            position: Position::AtWord(Aim::LeftIndex(index, relation)),
        }),
        _ => {
            drop(context);
            drop(index);
            Err(Stop::Syntax)
        }
    }
}

/// A token after a whole index.
fn leave_side(
    alloc: Global,
    context: Context,
    side: Side,
    index: Index,
    token: Token,
) -> Result<State, Stop>
    ensures { Gives result (machine.leave_side trees (context_view context) (side_view side) (index_view index) (token_view token)) }
{
    match side {
        Side::First => leave_left(context, index, token),
        Side::Second(Aim::LeftIndex(left, relation)) => {
            leave_atom(alloc, context, Fact::Words(left, relation, index), token)
        }
        Side::Second(Aim::LeftLetter(letter, relation)) => {
            leave_atom(
                alloc,
                context,
                Fact::LetterWord(letter, relation, index),
                token,
            )
        }
    }
}

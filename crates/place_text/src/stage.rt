//! Reading a place lexeme by lexeme.

ghost use Rattle.std.specs.Prelude.{◌≡◌, ◌<◌};
ghost use Rattle.place_text.specs.Faults.{no_number as fault_of_no_number};
ghost use Rattle.place_text.specs.Readings.{Reads, spot_view, stage_view};
ghost use Rattle.place_text.specs.Stages as stages;
ghost use Rattle.place_text.specs.Stages.{stepped, ended, or_fault};

use crate::fault::PlaceFault;
use crate::letter::Letter;
use crate::lexeme::{Lexeme, Spot};
use crate::place::Place;
use std::alloc::Global;

/// What was read of a place, by the position in it.
#[derive(Drop)]
pub(crate) enum Stage {
    /// Before all.
    AtStart,
    /// After the first `[`.
    AtFirst,
    /// After the `[` of a further letter.
    AtLetter(Place),
    /// After a digit of a letter.
    AfterDigit(Place, Letter),
    /// After a comma in a letter.
    AfterComma(Place, Letter),
    /// After a letter.
    AfterLetter(Place),
    /// After `[]`.
    AfterEmpty,
}

/// The fault of a lexeme that should be a number.
fn no_number(spot: Spot) -> PlaceFault
    ensures { result ≡ fault_of_no_number spot.lexeme spot.at spot.after }
{
    match spot.lexeme {
        Lexeme::Long => PlaceFault::Number(spot.at),
        Lexeme::Sign => PlaceFault::Syntax(spot.after),
        _ => PlaceFault::Syntax(spot.at),
    }
}

/// Before all.
fn at_start(spot: Spot) -> Result<Stage, PlaceFault>
    ensures { Reads stage_view result (stepped stages.AtStart (spot_view spot)) }
{
    match spot.lexeme {
        Lexeme::Open => Ok(Stage::AtFirst),
        _ => Err(PlaceFault::Syntax(spot.at)),
    }
}

/// After the first bracket.
fn at_first(alloc: Global, spot: Spot) -> Result<Stage, PlaceFault>
    ensures { Reads stage_view result (stepped stages.AtFirst (spot_view spot)) }
{
    match spot.lexeme {
        Lexeme::Close => Ok(Stage::AfterEmpty),
        Lexeme::Number(digit) => {
            let mut letter = Letter::new(alloc);
            letter.push(digit)?;
            Ok(Stage::AfterDigit(Place::new(alloc), letter))
        }
        _ => Err(no_number(spot)),
    }
}

/// After the bracket of a further letter.
fn at_letter(alloc: Global, place: Place, spot: Spot) -> Result<Stage, PlaceFault>
    ensures { Reads stage_view result (stepped (stages.AtLetter place) (spot_view spot)) }
{
    match spot.lexeme {
        Lexeme::Number(digit) => {
            let mut letter = Letter::new(alloc);
            letter.push(digit)?;
            Ok(Stage::AfterDigit(place, letter))
        }
        _ => Err(no_number(spot)),
    }
}

/// After a digit.
fn after_digit(place: Place, letter: Letter, spot: Spot) -> Result<Stage, PlaceFault>
    ensures { Reads stage_view result (stepped (stages.AfterDigit place letter) (spot_view spot)) }
{
    match spot.lexeme {
        Lexeme::Comma => Ok(Stage::AfterComma(place, letter)),
        Lexeme::Close => {
            let mut place = place;
            place.push(letter)?;
            Ok(Stage::AfterLetter(place))
        }
        _ => Err(PlaceFault::Syntax(spot.at)),
    }
}

/// After a comma.
fn after_comma(place: Place, letter: Letter, spot: Spot) -> Result<Stage, PlaceFault>
    ensures { Reads stage_view result (stepped (stages.AfterComma place letter) (spot_view spot)) }
{
    match spot.lexeme {
        Lexeme::Number(digit) => {
            let mut letter = letter;
            letter.push(digit)?;
            Ok(Stage::AfterDigit(place, letter))
        }
        _ => Err(no_number(spot)),
    }
}

/// After a letter.
fn after_letter(place: Place, spot: Spot) -> Result<Stage, PlaceFault>
    ensures { Reads stage_view result (stepped (stages.AfterLetter place) (spot_view spot)) }
{
    match spot.lexeme {
        Lexeme::Open => Ok(Stage::AtLetter(place)),
        _ => Err(PlaceFault::Syntax(spot.at)),
    }
}

impl Stage {
    /// The stage after a lexeme.
    pub(crate) fn step(self, alloc: Global, spot: Spot) -> Result<Stage, PlaceFault>
        ensures { Reads stage_view result (stepped (stage_view self) (spot_view spot)) }
    {
        match self {
            Stage::AtStart => at_start(spot),
            Stage::AtFirst => at_first(alloc, spot),
            Stage::AtLetter(place) => at_letter(alloc, place, spot),
            Stage::AfterDigit(place, letter) => after_digit(place, letter, spot),
            Stage::AfterComma(place, letter) => after_comma(place, letter, spot),
            Stage::AfterLetter(place) => after_letter(place, spot),
            Stage::AfterEmpty => Err(PlaceFault::Syntax(spot.at)),
        }
    }

    /// The place, where a text of `whole` bytes ends.
    pub(crate) fn end(self, alloc: Global, whole: usize) -> Result<Place, PlaceFault>
        ensures { Reads (λ place. place) result (or_fault (PlaceFault.Syntax whole) (ended (stage_view self))) }
    {
        match self {
            Stage::AfterLetter(place) => Ok(place),
            Stage::AfterEmpty => Ok(Place::new(alloc)),
            _ => Err(PlaceFault::Syntax(whole)),
        }
    }
}

//! Parsing of expressions.

ghost use Rattle.digit_tuple.specs.Headers.{sets_of};
ghost use Rattle.regex_build.specs.Parsing.{Parses, OneAnswer};
ghost use Rattle.regex_build.specs.Reading.{Reads};

use crate::fault::RegexFault;
use crate::lexing::next_spot;
use crate::postfix_symbol::PostfixSymbol;
use crate::reading::Reading;
use crate::regex::Regex;
use digit_tuple::header::Header;
use digit_tuple::sets::Sets;
use std::alloc::Global;

/// The expression of the text over the header's sets, by this grammar:
///
/// ```text
/// alt := cat { "|" cat }
/// cat := post { post }
/// post := prim { "*" | "+" | "?" }
/// prim := digit | "." | "()" | "(" alt ")" | "[" int { "," int } "]"
/// ```
///
/// `.` is any letter, and `()` the empty word. A digit is a letter of one track, and brackets have an
/// int for each track. An int is digits, as many as there are, with or without a `-` before them.
/// Blanks are skipped.
///
/// `Syntax` is at the first token with which no expression goes on, or the end of a text that ends too early. A token
/// with which one goes on is answered by `Number` where it is a digit or an int that is no member of its track's set,
/// and by `Depth` where it is a `(` that is within 128 others. The first of all these decides. `Memory` answers a
/// refused growth.
pub fn parse(alloc: Global, text: &[u8], header: &Header) -> Result<Regex, RegexFault>
    ensures { Parses (sets_of header.now) text.now result }
{
    let sets = header.sets(alloc)?;
    let symbols = read(alloc, text, &sets)?;
    Ok(Regex::new(sets, symbols))
}

// The symbols of the text's expression.
fn read(alloc: Global, text: &[u8], sets: &Sets) -> Result<Vec<PostfixSymbol>, RegexFault>
    ensures { Reads sets.now text.now result }
{
    let mut reading = Reading::new(alloc);
    let mut at = 0;
    while let Some(spot) = next_spot(text, at, reading.in_bracket()) {
        match reading.take(alloc, sets, spot.token) {
            Ok(()) => at = spot.end,
            Err(refusal) => return Err(refusal.at(spot.at)),
        }
    }
    match reading.finish()? {
        Some(symbols) => Ok(symbols),
        None => Err(RegexFault::Syntax(text.len())),
    }
}

/// Parsing a text has one answer, where memory is left.
pub fn one_answer()
    ensures { OneAnswer }
{}

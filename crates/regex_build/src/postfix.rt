//! Tests of symbols in postfix order.

ghost use Rattle.std.specs.Prelude.{◌≡◌, ℤ, ◌+◌, ◌<◌, ◌≤◌, ◌↔◌, List, length, All, IsTrue};
ghost use Rattle.regex_build.specs.Expression.{Expression};
ghost use Rattle.regex_build.specs.Patterns.{AreMembers, IsOver};
ghost use Rattle.regex_build.specs.Postfix.{after_symbol, IsPostfix};

use crate::postfix_symbol::PostfixSymbol;
use digit_tuple::letter_set::LetterSet;

// How many expressions wait after one symbol more, where so many wait before it.
fn waiting_after(waiting: usize, symbol: &PostfixSymbol) -> usize
    requires { waiting < usize.MAX }
    ensures count { (stack : List (Expression (List ℤ))) → length stack ≡ waiting → length (after_symbol stack symbol.now) ≡ result }
    ensures small { result ≤ waiting + 1 }
{
    match symbol {
        PostfixSymbol::Empty => waiting + 1,
        PostfixSymbol::Letter(_) => waiting + 1,
        PostfixSymbol::Any => waiting + 1,
        PostfixSymbol::Either => joined(waiting),
        PostfixSymbol::Follow => joined(waiting),
        _ => waiting,
    }
}

// How many wait after the last two of so many are joined.
fn joined(waiting: usize) -> usize
    ensures few { waiting < 2 → result ≡ waiting }
    ensures many { 2 ≤ waiting → result + 1 ≡ waiting }
{
    if waiting < 2 { waiting } else { waiting - 1 }
}

/// Whether the symbols are in postfix order.
pub fn are_postfix(symbols: &[PostfixSymbol]) -> bool
    ensures { IsTrue result ↔ IsPostfix symbols.now }
{
    let mut waiting = 0;
    for symbol in symbols {
        waiting = waiting_after(waiting, symbol);
    }
    waiting == 1
}

// Whether the tuple has a member of each set.
fn are_members(sets: &[LetterSet], members: &[i32]) -> bool
    ensures { IsTrue result ↔ AreMembers sets.now members.now }
{
    if sets.len() != members.len() {
        return false;
    }
    for (track, set) in sets.iter().enumerate() {
        if set.place_of(members[track]).is_none() {
            return false;
        }
    }
    true
}

/// Whether each letter has a member of each set.
pub fn have_members(sets: &[LetterSet], symbols: &[PostfixSymbol]) -> bool
    ensures { IsTrue result ↔ All (IsOver sets.now) symbols.now }
{
    for symbol in symbols {
        if let PostfixSymbol::Letter(letter) = symbol {
            if !are_members(sets, letter.members()) {
                return false;
            }
        }
    }
    true
}

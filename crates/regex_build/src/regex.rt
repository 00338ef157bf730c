//! Expressions.

ghost use Rattle.std.specs.Prelude.{◌≡◌, ◌↔◌, ℤ, List, All, IsSome, IfSome};
ghost use Rattle.digit_tuple.specs.Sets.{IsLetterSet};
ghost use Rattle.regex_build.specs.Patterns.{IsOver};
ghost use Rattle.regex_build.specs.Postfix.{IsPostfix, tree_of};

use crate::postfix::{are_postfix, have_members};
use crate::postfix_symbol::PostfixSymbol;
use digit_tuple::letter_set::LetterSet;
use digit_tuple::sets::Sets;
use std::marker::Model;

/// An expression over a set for each track, kept in postfix order. Each letter has a member of each
/// set.
#[derive(Drop)]
pub struct Regex {
    tracks: Sets,
    symbols: Vec<PostfixSymbol>,
}

impl Model for Regex {
    ghost use Rattle.std.specs.Prelude.{All};
    ghost use Rattle.regex_build.specs.Patterns.{Pattern, IsOver};
    ghost use Rattle.regex_build.specs.PatternCode.{pattern_code};
    ghost use Rattle.regex_build.specs.Postfix.{IsPostfix, tree_of};

    ghost Value = { Pattern };

    ghost coded = { pattern_code };

    ghost view = { λ r. record { sets = r.tracks; tree = tree_of r.symbols.items } };

    ghost invariant = { λ r. IsPostfix r.symbols.items × All (IsOver r.tracks) r.symbols.items };
}

impl Regex {
    /// The expression of these symbols, which are in postfix order and whose letters have a member of
    /// each set.
    pub fn new(sets: Sets, symbols: Vec<PostfixSymbol>) -> Self
        requires postfix { IsPostfix symbols.items }
        requires letters { All (IsOver sets) symbols.items }
        ensures { result ≡ record { sets = sets; tree = tree_of symbols.items } }
    {
        Regex {
            tracks: sets,
            symbols,
        }
    }

    /// The expression of these symbols, or None if they are in no postfix order or a letter has no
    /// member of some set, or more members than there are sets.
    pub fn try_new(sets: Sets, symbols: Vec<PostfixSymbol>) -> Option<Self>
        ensures fits { IsSome result ↔ (IsPostfix symbols.items × All (IsOver sets) symbols.items) }
        ensures value { IfSome result (λ regex. regex ≡ record { sets = sets; tree = tree_of symbols.items }) }
    {
        if are_postfix(&symbols) && have_members(sets.as_slice(), &symbols) {
            Some(Regex::new(sets, symbols))
        } else {
            None
        }
    }

    /// The sets of the tracks.
    pub fn sets(&self) -> &Sets
        ensures { result.now ≡ self.now.sets }
    {
        &self.tracks
    }

    /// The symbols, in postfix order.
    pub fn symbols(&self) -> &[PostfixSymbol]
        ensures tree { tree_of result.now ≡ self.now.tree }
        ensures postfix { IsPostfix result.now }
        ensures letters { All (IsOver self.now.sets) result.now }
    {
        &self.symbols
    }
}

//! Morphisms, from rules and as rules.

ghost use Rattle.std.specs.Prelude.{◌≡◌, IfOk};
ghost use Rattle.std.specs.Option.{option_copied};
ghost use Rattle.std.specs.Map.{keys_of};
ghost use Rattle.morph_words.specs.Rules.{image_of, IsMorphism};
ghost use Rattle.morph_words.specs.Faults.{Parses};
ghost use Rattle.morph_words.specs.Printed.{printed};
ghost use Rattle.morph_words.specs.Readings.{Reads};
ghost use Rattle.morph_words.specs.Stages.{rules_at};
ghost use Rattle.morph_words.specs.Uniform.{HasOther, HasRule, IsLeast, IsLeastOf};

use crate::fault::RulesFault;
use crate::image::Image;
use crate::lexing::spot_at;
use crate::printing::{push_next_rule, push_rule};
use crate::stage::{Rules, Stage};
use digit_tuple::faults::OutOfMemory;
use std::alloc::Global;
use std::collections::BTreeMap;
use std::marker::Model;

/// A morphism: letters, of which there is at least one, each with its image, a word that is not empty. It is seen as
/// the list of these pairs by ascending letter.
#[derive(Drop)]
pub struct Morphism {
    rules: BTreeMap<i32, Image>,
}

impl Model for Morphism {
    ghost use Rattle.morph_words.specs.Rules.{Rules, IsMorphism};

    ghost Value = { Rules };

    ghost view = { λ morphism. morphism.rules.entries };

    ghost invariant = { λ morphism. IsMorphism morphism.rules.entries };
}

impl Morphism {
    /// The morphism of the text, by this grammar:
    ///
    /// ```text
    /// text := { blank } rule { divider rule } { blank }
    /// rule := letter { blank } "->" { blank } letter { letter }
    /// letter := digit | "[" number "]"
    /// divider := ( blank | "," ) { blank | "," }
    /// ```
    ///
    /// A number is digits, as many as there are, with or without a `-` before them. A letter has one rule.
    ///
    /// `Syntax` answers the first byte with which no rules go on, or the end of a text that ends too early; of a rule
    /// for a letter that has one the first byte of the letter, of a `-` that is neither an arrow's nor a number's the
    /// `-`. `Number` answers the first byte of a number that does not fit 32 bits, signed, where a letter may be. The
    /// first of all these decides. `Memory` answers a refused growth.
    ///
    /// It takes time in proportion to the text, and for each rule a look-up and an insertion among those before it.
    pub fn parse(alloc: Global, text: &[u8]) -> Result<Morphism, RulesFault>
        ensures { Parses text.now result }
    {
        let rules = read(alloc, text)?;
        Ok(Morphism { rules })
    }

    /// The rules by ascending letter with a blank between them, and a line end after the last. The letters 0 to 9
    /// are printed as digits, others in brackets. Out of memory gives no text.
    pub fn print(&self, alloc: Global) -> Result<Vec<u8>, OutOfMemory>
        ensures { IfOk result (λ text. text.items ≡ printed self.now) }
    {
        let mut text = Vec::new(alloc);
        let mut rules = self.rules.iter();
        if let Some((letter, image)) = rules.next() {
            push_rule(&mut text, *letter, image)?;
        }
        for (letter, image) in rules {
            push_next_rule(&mut text, *letter, image)?;
        }
        text.push(b'\n')?;
        Ok(text)
    }

    /// The letters that have images, in ascending order. Out of memory gives none.
    pub fn letters(&self, alloc: Global) -> Result<Vec<i32>, OutOfMemory>
        ensures letters { IfOk result (λ letters. letters.items ≡ keys_of self.now) }
        ensures morphism { IsMorphism self.now }
    {
        Ok(self.rules.keys().copied().collect(alloc)?)
    }

    /// The image of a letter, or None if it has none.
    pub fn image(&self, letter: i32) -> Option<&Image>
        ensures image { option_copied result ≡ image_of self.now letter }
        ensures morphism { IsMorphism self.now }
    {
        self.rules.get(&letter)
    }

    /// The least letter that has an image.
    pub(crate) fn least_letter(&self) -> i32
        ensures least { IsLeast (HasRule self.now) result }
        ensures morphism { IsMorphism self.now }
    {
        *self.rules.keys().next().unwrap()
    }

    /// The least letter whose image has another length than this, if there is one.
    pub(crate) fn first_of_other_length(&self, length: usize) -> Option<i32>
        ensures other { IsLeastOf (HasOther self.now length) result }
        ensures morphism { IsMorphism self.now }
    {
        for (letter, image) in self.rules.iter() {
            if image.letters().len() != length {
                return Some(*letter);
            }
        }
        None
    }
}

/// The rules of a text.
fn read(alloc: Global, text: &[u8]) -> Result<Rules, RulesFault>
    ensures { Reads (λ rules. rules.entries) result (rules_at text.now) }
{
    let mut stage = Stage::AtFirst;
    let mut at = 0;
    while at < text.len() {
        let spot = spot_at(text, at);
        stage = stage.step(alloc, spot)?;
        at = spot.after;
    }
    stage.end(text.len())
}

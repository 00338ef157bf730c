//! Reading rules lexeme by lexeme.

ghost use Rattle.std.specs.Prelude.{◌≡◌, ◌<◌, MatchResult};
ghost use Rattle.morph_words.specs.declared.fault.RulesFault.TheVariants.{Memory};
ghost use Rattle.morph_words.specs.Faults.{no_letter as fault_of_no_letter};
ghost use Rattle.morph_words.specs.Rules.{put};
ghost use Rattle.morph_words.specs.Readings.{Reads, spot_view, stage_view};
ghost use Rattle.morph_words.specs.Stages as stages;
ghost use Rattle.morph_words.specs.Stages.{stepped, ended, or_fault};

use crate::fault::RulesFault;
use crate::image::Image;
use crate::lexeme::{Lexeme, Spot};
use std::alloc::Global;
use std::collections::BTreeMap;

/// The rules that were read, by ascending letter.
pub(crate) type Rules = BTreeMap<i32, Image>;

/// What was read of rules, by the place in them.
#[derive(Drop)]
pub(crate) enum Stage {
    /// Before the first rule.
    AtFirst,
    /// After a rule's letter.
    AfterLetter(Rules, i32),
    /// After a rule's arrow.
    AfterArrow(Rules, i32),
    /// In a rule's image, after one letter or more.
    InImage(Rules, i32, Image),
    /// After a rule and blanks.
    AfterRule(Rules),
    /// After a rule and a comma.
    AfterComma(Rules),
}

/// The fault of a lexeme that should be a letter.
fn no_letter(spot: Spot) -> RulesFault
    requires { spot.at < spot.after }
    ensures { result ≡ fault_of_no_letter spot.lexeme spot.at spot.after }
{
    match spot.lexeme {
        Lexeme::Long => RulesFault::Number(spot.at + 1),
        Lexeme::Broken => RulesFault::Syntax(spot.after),
        _ => RulesFault::Syntax(spot.at),
    }
}

/// The rules and one for a further letter.
fn with_rule(rules: Rules, letter: i32, image: Image) -> Result<Rules, RulesFault>
    ensures { MatchResult result (λ more. more.entries ≡ put rules.entries letter image) (λ fault. fault ≡ Memory) }
{
    let mut rules = rules;
    rules.insert(letter, image)?;
    Ok(rules)
}

/// Before the first rule.
fn at_first(alloc: Global, spot: Spot) -> Result<Stage, RulesFault>
    requires { spot.at < spot.after }
    ensures { Reads stage_view result (stepped stages.AtFirst (spot_view spot)) }
{
    match spot.lexeme {
        Lexeme::Blank => Ok(Stage::AtFirst),
        Lexeme::Letter(letter) => Ok(Stage::AfterLetter(Rules::new(alloc), letter)),
        _ => Err(no_letter(spot)),
    }
}

/// After a rule's letter.
fn after_letter(rules: Rules, letter: i32, spot: Spot) -> Result<Stage, RulesFault>
    ensures { Reads stage_view result (stepped (stages.AfterLetter rules.entries letter) (spot_view spot)) }
{
    match spot.lexeme {
        Lexeme::Blank => Ok(Stage::AfterLetter(rules, letter)),
        Lexeme::Arrow => Ok(Stage::AfterArrow(rules, letter)),
        _ => Err(RulesFault::Syntax(spot.at)),
    }
}

/// After a rule's arrow.
fn after_arrow(alloc: Global, rules: Rules, letter: i32, spot: Spot) -> Result<Stage, RulesFault>
    requires { spot.at < spot.after }
    ensures { Reads stage_view result (stepped (stages.AfterArrow rules.entries letter) (spot_view spot)) }
{
    match spot.lexeme {
        Lexeme::Blank => Ok(Stage::AfterArrow(rules, letter)),
        Lexeme::Letter(first) => {
            let mut image = Image::new(alloc);
            image.push(first)?;
            Ok(Stage::InImage(rules, letter, image))
        }
        _ => Err(no_letter(spot)),
    }
}

/// In a rule's image.
fn in_image(rules: Rules, letter: i32, image: Image, spot: Spot) -> Result<Stage, RulesFault>
    requires { spot.at < spot.after }
    ensures { Reads stage_view result (stepped (stages.InImage rules.entries letter image) (spot_view spot)) }
{
    match spot.lexeme {
        Lexeme::Letter(next) => {
            let mut image = image;
            image.push(next)?;
            Ok(Stage::InImage(rules, letter, image))
        }
        Lexeme::Blank => Ok(Stage::AfterRule(with_rule(rules, letter, image)?)),
        Lexeme::Comma => Ok(Stage::AfterComma(with_rule(rules, letter, image)?)),
        _ => Err(no_letter(spot)),
    }
}

/// A further rule, unless there is one for its letter.
fn begun(rules: Rules, letter: i32, at: usize) -> Result<Stage, RulesFault>
    ensures { Reads stage_view result (or_fault (RulesFault.Syntax at) (stages.begun rules.entries letter)) }
{
    if rules.contains_key(&letter) {
        return Err(RulesFault::Syntax(at));
    }
    Ok(Stage::AfterLetter(rules, letter))
}

/// After a rule and blanks.
fn after_rule(rules: Rules, spot: Spot) -> Result<Stage, RulesFault>
    requires { spot.at < spot.after }
    ensures { Reads stage_view result (stepped (stages.AfterRule rules.entries) (spot_view spot)) }
{
    match spot.lexeme {
        Lexeme::Blank => Ok(Stage::AfterRule(rules)),
        Lexeme::Comma => Ok(Stage::AfterComma(rules)),
        Lexeme::Letter(letter) => begun(rules, letter, spot.at),
        _ => Err(no_letter(spot)),
    }
}

/// After a rule and a comma.
fn after_comma(rules: Rules, spot: Spot) -> Result<Stage, RulesFault>
    requires { spot.at < spot.after }
    ensures { Reads stage_view result (stepped (stages.AfterComma rules.entries) (spot_view spot)) }
{
    match spot.lexeme {
        Lexeme::Blank | Lexeme::Comma => Ok(Stage::AfterComma(rules)),
        Lexeme::Letter(letter) => begun(rules, letter, spot.at),
        _ => Err(no_letter(spot)),
    }
}

impl Stage {
    /// The stage after a lexeme.
    pub(crate) fn step(self, alloc: Global, spot: Spot) -> Result<Stage, RulesFault>
        requires { spot.at < spot.after }
        ensures { Reads stage_view result (stepped (stage_view self) (spot_view spot)) }
    {
        match self {
            Stage::AtFirst => at_first(alloc, spot),
            Stage::AfterLetter(rules, letter) => after_letter(rules, letter, spot),
            Stage::AfterArrow(rules, letter) => after_arrow(alloc, rules, letter, spot),
            Stage::InImage(rules, letter, image) => in_image(rules, letter, image, spot),
            Stage::AfterRule(rules) => after_rule(rules, spot),
            Stage::AfterComma(rules) => after_comma(rules, spot),
        }
    }

    /// The rules, where a text of `whole` bytes ends.
    pub(crate) fn end(self, whole: usize) -> Result<Rules, RulesFault>
        ensures { Reads (λ rules. rules.entries) result (or_fault (RulesFault.Syntax whole) (ended (stage_view self))) }
    {
        match self {
            Stage::InImage(rules, letter, image) => with_rule(rules, letter, image),
            Stage::AfterRule(rules) => Ok(rules),
            _ => Err(RulesFault::Syntax(whole)),
        }
    }
}

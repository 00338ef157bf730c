//! The tokens of an expression, read one after the other to its symbols.
//!
//! A sign between two operands waits for the second, as in Dijkstra's shunting-yard algorithm ("Algol 60 translation").
//! In each group at most one of each kind waits, so two flags say which do.

ghost use Rattle.std.specs.Prelude.{◌≡◌, ◌<◌, ℤ, List, length, MatchOption, IfOk, OnOk, ⊤};
ghost use Rattle.regex_build.specs.Tokens as tokens;
ghost use Rattle.regex_build.specs.Machine as machine;
ghost use Rattle.regex_build.specs.Limits.{IsMember, set_at};
ghost use Rattle.regex_build.specs.Reading.{state_view, token_view, IsWritten, Answers, Enters, GivesAt, Gives, Ends};

use crate::fault::Refusal;
use crate::letter_tuple::LetterTuple;
use crate::postfix_symbol::PostfixSymbol;
use crate::token::Token;
use digit_tuple::faults::OutOfMemory;
use digit_tuple::letter_set::LetterSet;
use digit_tuple::sets::Sets;
use std::alloc::Global;
use std::mem;

/// The greatest nesting of parentheses.
const MOST_NESTED: usize = 128;

/// What comes before the post that is read, in the same parentheses: alternatives with a `|` after them, and a
/// sequence.
#[derive(Clone, Copy, PartialEq, Eq)]
pub(crate) struct Group {
    pub alternatives: bool,
    pub sequence: bool,
}

/// How far the reading of a group is.
#[derive(Clone, Copy, PartialEq, Eq)]
pub(crate) enum Stage {
    /// A post begins here.
    AtPost,
    /// After a post, which more signs may follow.
    After,
    /// In brackets, before a number.
    AtNumber,
    /// In brackets, after a number.
    AfterNumber,
}

/// An expression that is being read: the groups around, the innermost last, the group that is
/// read, the stage of reading it, the numbers of an open bracket, and the symbols so far.
#[derive(Drop)]
pub(crate) struct Reading {
    pub outer: Vec<Group>,
    pub group: Group,
    pub stage: Stage,
    pub letter: LetterTuple,
    pub symbols: Vec<PostfixSymbol>,
}

impl Group {
    /// Nothing has come.
    fn fresh() -> Group
        ensures { result ≡ machine.fresh }
    {
        Group {
            alternatives: false,
            sequence: false,
        }
    }

    fn is_fresh(self) -> bool
        ensures { result ≡ machine.is_fresh self }
    {
        !self.alternatives && !self.sequence
    }
}

/// The number as a member of a set, if it is one.
fn member_of(set: &LetterSet, number: i64) -> Option<i32>
    ensures { MatchOption result (IsMember set.now number → ⊥) (λ m. (m ≡ number) × IsMember set.now number) }
{
    let member = i32::try_from(number).ok()?;
    set.place_of(member)?;
    Some(member)
}

/// The number as a member of a track's set, if it is one.
fn member_at(sets: &Sets, track: usize, number: i64) -> Option<i32>
    ensures { MatchOption result (IsMember (set_at sets.now track) number → ⊥) (λ m. (m ≡ number) × IsMember (set_at sets.now track) number) }
{
    member_of(sets.as_slice().get(track)?, number)
}

impl Reading {
    /// Nothing has come.
    pub fn new(alloc: Global) -> Reading
        ensures { state_view result ≡ machine.start }
    {
        Reading {
            outer: Vec::new(alloc),
            group: Group::fresh(),
            stage: Stage::AtPost,
            letter: LetterTuple::new(alloc),
            symbols: Vec::new(alloc),
        }
    }

    /// Whether a bracket is open.
    pub fn in_bracket(&self) -> bool
        ensures { result ≡ machine.in_bracket self.now.stage }
    {
        matches!(self.stage, Stage::AtNumber | Stage::AfterNumber)
    }

    /// Adds a symbol, after which the reading then is.
    fn push(&mut self, symbol: PostfixSymbol) -> Result<(), OutOfMemory>
        ensures { OnOk result (state_view self.new ≡ machine.pushed (state_view self.old) symbol) }
    {
        self.symbols.push(symbol)?;
        self.stage = Stage::After;
        Ok(())
    }

    /// Ends the sequence so far with the last post.
    fn follow(&mut self) -> Result<(), OutOfMemory>
        ensures { OnOk result (state_view self.new ≡ machine.followed (state_view self.old)) }
    {
        if self.group.sequence {
            self.symbols.push(PostfixSymbol::Follow)?;
        }
        self.group.sequence = true;
        Ok(())
    }

    /// Ends the alternatives so far with the last sequence.
    fn join(&mut self) -> Result<(), OutOfMemory>
        ensures { OnOk result (state_view self.new ≡ machine.joined (state_view self.old)) }
    {
        self.follow()?;
        if self.group.alternatives {
            self.symbols.push(PostfixSymbol::Either)?;
        }
        self.group = Group {
            alternatives: true,
            sequence: false,
        };
        Ok(())
    }

    /// Ends the group that is read, unless it is the outermost.
    fn close(&mut self) -> Result<(), Refusal>
        ensures { (t : tokens.Token) → Answers (machine.close (state_view self.old).outer (state_view self.old)) ⊤ t (state_view self.new) result }
    {
        match self.outer.pop() {
            Some(group) => {
                self.group = group;
                self.stage = Stage::After;
                Ok(())
            }
            None => Err(Refusal::Syntax),
        }
    }

    /// Opens a group.
    #[tactic(auto, using(crate::proofs::ReadingSteps::length_reversed))]
    fn open(&mut self) -> Result<(), Refusal>
        ensures { (sets : List (List ℤ)) → Enters sets (state_view self.old) tokens.opening (state_view self.new) result }
    {
        if self.outer.len() >= MOST_NESTED {
            return Err(Refusal::Depth);
        }
        self.outer.push(self.group)?;
        self.group = Group::fresh();
        self.stage = Stage::AtPost;
        Ok(())
    }

    /// Reads a digit as a letter of one track.
    fn digit(&mut self, alloc: Global, sets: &Sets, digit: u8) -> Result<(), Refusal>
        requires { digit < 10 }
        ensures { Enters sets.now (state_view self.old) (tokens.digit digit) (state_view self.new) result }
    {
        if sets.len() != 1 {
            return Err(Refusal::Syntax);
        }
        let Some(member) = member_at(sets, 0, i64::from(digit)) else {
            return Err(Refusal::Number);
        };
        let mut letter = LetterTuple::new(alloc);
        letter.push(member)?;
        self.push(PostfixSymbol::Letter(letter))?;
        Ok(())
    }

    /// Reads a token with which a post begins.
    fn enter(&mut self, alloc: Global, sets: &Sets, token: Token) -> Result<(), Refusal>
        requires { IsWritten (token_view token) }
        ensures { Enters sets.now (state_view self.old) (token_view token) (state_view self.new) result }
    {
        match token {
            Token::Digit(digit) => self.digit(alloc, sets, digit),
            Token::Dot => Ok(self.push(PostfixSymbol::Any)?),
            Token::Opening => self.open(),
            Token::Bracket => {
                if sets.is_empty() {
                    return Err(Refusal::Syntax);
                }
                self.stage = Stage::AtNumber;
                Ok(())
            }
            _ => Err(Refusal::Syntax),
        }
    }

    /// Reads a token where a post begins.
    fn at_post(&mut self, alloc: Global, sets: &Sets, token: Token) -> Result<(), Refusal>
        requires { IsWritten (token_view token) }
        ensures { GivesAt Stage.AtPost sets.now (state_view self.old) (token_view token) (state_view self.new) result }
    {
        match token {
            Token::Closing => {
                if self.group.is_fresh() {
                    self.push(PostfixSymbol::Empty)?;
                    return self.close();
                }
                Err(Refusal::Syntax)
            }
            _ => self.enter(alloc, sets, token),
        }
    }

    /// Reads a token after a post.
    fn after_token(&mut self, alloc: Global, sets: &Sets, token: Token) -> Result<(), Refusal>
        requires { IsWritten (token_view token) }
        ensures { GivesAt Stage.After sets.now (state_view self.old) (token_view token) (state_view self.new) result }
    {
        match token {
            Token::Star => Ok(self.push(PostfixSymbol::Star)?),
            Token::Plus => Ok(self.push(PostfixSymbol::Plus)?),
            Token::Optional => Ok(self.push(PostfixSymbol::Optional)?),
            Token::Bar => {
                self.join()?;
                self.stage = Stage::AtPost;
                Ok(())
            }
            Token::Closing => {
                self.join()?;
                self.close()
            }
            _ => {
                self.follow()?;
                self.enter(alloc, sets, token)
            }
        }
    }

    /// Reads a token before a number of a bracket.
    fn at_number(&mut self, sets: &Sets, token: Token) -> Result<(), Refusal>
        ensures { GivesAt Stage.AtNumber sets.now (state_view self.old) (token_view token) (state_view self.new) result }
    {
        let Token::Number(number) = token else {
            return Err(Refusal::Syntax);
        };
        let Some(member) = member_at(sets, self.letter.len(), number) else {
            return Err(Refusal::Number);
        };
        self.letter.push(member)?;
        self.stage = Stage::AfterNumber;
        Ok(())
    }

    /// Reads a token after a number of a bracket.
    fn after_number(&mut self, alloc: Global, sets: &Sets, token: Token) -> Result<(), Refusal>
        ensures { GivesAt Stage.AfterNumber sets.now (state_view self.old) (token_view token) (state_view self.new) result }
    {
        match token {
            Token::Comma if self.letter.len() < sets.len() => {
                self.stage = Stage::AtNumber;
                Ok(())
            }
            Token::Unbracket if self.letter.len() == sets.len() => {
                let letter = mem::replace(&mut self.letter, LetterTuple::new(alloc));
                self.push(PostfixSymbol::Letter(letter))?;
                Ok(())
            }
            _ => Err(Refusal::Syntax),
        }
    }

    /// Reads a token.
    pub fn take(&mut self, alloc: Global, sets: &Sets, token: Token) -> Result<(), Refusal>
        requires { IsWritten (token_view token) }
        ensures { Gives sets.now (state_view self.old) (token_view token) (state_view self.new) result }
    {
        match self.stage {
            Stage::AtPost => self.at_post(alloc, sets, token),
            Stage::After => self.after_token(alloc, sets, token),
            Stage::AtNumber => self.at_number(sets, token),
            Stage::AfterNumber => self.after_number(alloc, sets, token),
        }
    }

    /// The symbols of the text that ends here, if it may.
    #[tactic(auto, using(crate::proofs::ReadingSteps::unclosed, crate::proofs::ReadingSteps::unended))]
    pub fn finish(mut self) -> Result<Option<Vec<PostfixSymbol>>, OutOfMemory>
        ensures { IfOk result (λ o. Ends (machine.ended (state_view self)) o) }
    {
        if !self.outer.is_empty() {
            return Ok(None);
        }
        if self.stage != Stage::After {
            return Ok(None);
        }
        self.join()?;
        Ok(Some(self.symbols))
    }
}

//! The machine after an operand: its connective, or what ends its formula.

ghost use Rattle.std.specs.Prelude.{◌≡◌, IfOk};
ghost use Rattle.formula_parse.specs.Flaws as flaws;
ghost use Rattle.formula_parse.specs.Building as building;
ghost use Rattle.formula_parse.specs.Made.{trees};
ghost use Rattle.formula_parse.specs.Machine as machine;
ghost use Rattle.formula_parse.specs.Views.{fact_view, formula_view, names_view};
ghost use Rattle.formula_parse.specs.StateViews.{token_view, tildes_view, flaw_view, noted_view, prefix_view, frames_view, context_view, state_view};
ghost use Rattle.formula_parse.specs.Stops.{Gives};

use crate::closings::close;
use crate::fault::Stop;
use crate::flaw::{Flaw, noted_if};
use crate::making::{atom, under_marks, under_tildes};
use crate::state::{Around, Before, Body, Context, Position, Prefix, State};
use crate::token::Token;
use crate::tree::{Fact, Formula};
use digit_tuple::faults::OutOfMemory;
use std::alloc::Global;

/// An operand with what comes before its core.
#[tactic(auto, using(crate::proofs::Words::wrapped_trees))]
fn closed(alloc: Global, before: Before, core: Formula) -> Result<Formula, OutOfMemory>
    ensures { IfOk result (λ f. formula_view f ≡ machine.wrapped trees (tildes_view before.tildes.items)
        (building.under_marks (names_view before.marks.items) (formula_view core))) }
{
    let marked = under_marks(alloc, before.marks, core)?;
    let whole = under_tildes(alloc, before.tildes, marked)?;
    Ok(whole)
}

impl Around {
    /// With a flaw that is met or not.
    fn noted_if(self, met: bool, flaw: Flaw) -> Around
        ensures frames { result.frames ≡ self.frames }
        ensures system { result.system ≡ self.system }
        ensures flaw { noted_view result.flaw ≡ flaws.noted_if met (flaw_view flaw) (noted_view self.flaw) }
    {
        Around {
            frames: self.frames,
            system: self.system,
            flaw: noted_if(met, flaw, self.flaw),
        }
    }
}

/// A formula with a prefix, where an operand comes.
fn joined(alloc: Global, around: Around, prefix: Prefix) -> State
    ensures { state_view result ≡ record {
      around = frames_view around.frames.items;
      body = machine.with_prefix trees (machine.fresh trees prefix.base) (prefix_view prefix);
      system = around.system;
      flaw = noted_view around.flaw;
      position = machine.at_operand;
    } }
{
    State {
        context: Context {
            around,
            body: Body::with_prefix(alloc, prefix),
        },
        position: Position::AtOperand,
    }
}

/// A token that ends a formula, after its last operand.
fn leave_last(
    alloc: Global,
    around: Around,
    prefix: Prefix,
    last: Formula,
    token: Token,
) -> Result<State, Stop>
    ensures { Gives result (machine.close trees (noted_view around.flaw) (frames_view around.frames.items) (machine.whole trees (prefix_view prefix) (formula_view last)) (token_view token)) }
{
    let whole = prefix.whole(alloc, last)?;
    close(alloc, around, whole, token)
}

/// A token after a closed operand.
fn leave_closed(
    alloc: Global,
    around: Around,
    prefix: Prefix,
    closed: Formula,
    token: Token,
) -> Result<State, Stop>
    ensures { Gives result (machine.leave_closed trees
        (record { around = frames_view around.frames.items; body = machine.fresh trees prefix.base; system = around.system; flaw = noted_view around.flaw; position = machine.at_operand })
        (prefix_view prefix) (formula_view closed) (token_view token)) }
{
    match token {
        Token::Connective(sign, at) => {
            let around = around.noted_if(prefix.came.mixes(sign), Flaw::MixedChain(at));
            let prefix = prefix.connected(closed, sign)?;
            Ok(joined(alloc, around, prefix))
        }
        Token::Implies(at) => {
            let around = around.noted_if(prefix.implied, Flaw::MixedChain(at));
            let prefix = prefix.implied(alloc, closed)?;
            Ok(joined(alloc, around, prefix))
        }
        Token::Iff => {
            let prefix = prefix.equated(alloc, closed)?;
            Ok(joined(alloc, around, prefix))
        }
        _ => leave_last(alloc, around, prefix, closed, token),
    }
}

/// A token after an operand.
pub(crate) fn leave(
    alloc: Global,
    context: Context,
    core: Formula,
    token: Token,
) -> Result<State, Stop>
    ensures { Gives result (machine.leave trees (context_view context) (formula_view core) (token_view token)) }
{
    let Context { around, body } = context;
    let closed = closed(alloc, body.before, core)?;
    leave_closed(alloc, around, body.prefix, closed, token)
}

/// A fact that was read, in the system in force.
pub(crate) fn after_atom(alloc: Global, context: Context, fact: Fact) -> Result<State, Stop>
    ensures { Gives result (machine.moved trees (context_view context) (machine.after_operand (building.in_system context.around.system (fact_view fact)))) }
{
    let Ok(core) = atom(alloc, &context.around.system, fact) else {
        drop(context);
        return Err(Stop::Memory);
    };
    Ok(State {
        context,
        position: Position::AfterOperand(core),
    })
}

/// A token after a fact, in the system in force.
pub(crate) fn leave_atom(
    alloc: Global,
    context: Context,
    fact: Fact,
    token: Token,
) -> Result<State, Stop>
    ensures { Gives result (machine.leave trees (context_view context) (building.in_system context.around.system (fact_view fact)) (token_view token)) }
{
    let Ok(core) = atom(alloc, &context.around.system, fact) else {
        drop(context);
        drop(token);
        return Err(Stop::Memory);
    };
    leave(alloc, context, core, token)
}

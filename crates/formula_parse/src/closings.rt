//! The machine at a `)` or the end of the text, after a formula or a term.

ghost use Rattle.std.specs.Prelude.{◌≡◌, [], ◌∷◌, IfOk};
ghost use Rattle.formula_parse.specs.Made.{trees};
ghost use Rattle.formula_parse.specs.Machine as machine;
ghost use Rattle.formula_parse.specs.Views.{term_view, formula_view, names_view};
ghost use Rattle.formula_parse.specs.StateViews.{token_view, noted_view, binding_view, tildes_view, prefix_view, body_view, frames_view, context_view};
ghost use Rattle.formula_parse.specs.Stops.{Gives};

use crate::fault::Stop;
use crate::flaw::Flaw;
use crate::making::quantified;
use crate::state::{Around, Body, Context, Frame, Position, ReadTerm, Reading, Role, Scope, State};
use crate::token::Token;
use crate::tree::Formula;
use digit_tuple::faults::OutOfMemory;
use digit_tuple::name::Name;
use std::alloc::Global;

impl Around {
    /// With another system in force.
    fn in_system(self, system: Name) -> Around
        ensures frames { result.frames ≡ self.frames }
        ensures system { result.system ≡ system }
        ensures flaw { result.flaw ≡ self.flaw }
    {
        Around {
            frames: self.frames,
            system,
            flaw: self.flaw,
        }
    }
}

/// The end of the text after the whole formula.
fn finished(alloc: Global, flaw: Option<Flaw>, formula: Formula) -> Result<State, Stop>
    ensures { Gives result (machine.close trees (noted_view flaw) [] (formula_view formula) (token_view Token.End)) }
{
    let Ok(system) = Name::new(alloc, "") else {
        drop(formula);
        return Err(Stop::Memory);
    };
    let around = Around {
        frames: Vec::new(alloc),
        system,
        flaw,
    };
    Ok(State {
        context: Context {
            around,
            body: Body::fresh(alloc, 0),
        },
        position: Position::Done(formula),
    })
}

/// A `)` or the end of the text after a formula that is in no other.
fn close_text(
    alloc: Global,
    flaw: Option<Flaw>,
    formula: Formula,
    token: Token,
) -> Result<State, Stop>
    ensures { Gives result (machine.close trees (noted_view flaw) [] (formula_view formula) (token_view token)) }
{
    match token {
        Token::End => finished(alloc, flaw, formula),
        _ => {
            drop(formula);
            Err(Stop::Syntax)
        }
    }
}

/// A `)` or the end of the text after a formula in parentheses, with what is around them.
fn close_paren(context: Context, formula: Formula, token: Token) -> Result<State, Stop>
    ensures { Gives result (machine.close trees (noted_view context.around.flaw)
        (machine.paren (body_view context.body) context.around.system ∷ frames_view context.around.frames.items) (formula_view formula) (token_view token)) }
{
    match token {
        Token::Closing => Ok(State {
            context,
            position: Position::AfterOperand(formula),
        }),
        _ => {
            drop(context);
            drop(formula);
            Err(Stop::Syntax)
        }
    }
}

/// The formula that ends with what a quantifier takes.
fn scope_closed(
    alloc: Global,
    scope: Scope,
    body: Body,
    formula: Formula,
) -> Result<Formula, OutOfMemory>
    ensures { IfOk result (λ f. formula_view f ≡ machine.whole trees (prefix_view body.prefix) (trees.quantified
        (tildes_view body.before.tildes.items) (names_view body.before.marks.items)
        (binding_view scope.binding) scope.last (formula_view formula))) }
{
    let core = quantified(alloc, body.before, scope, formula)?;
    body.prefix.whole(alloc, core)
}

/// A `)` or the end of the text after a formula. The quantifiers that it ends are closed one after the other.
pub(crate) fn close(
    alloc: Global,
    mut around: Around,
    formula: Formula,
    token: Token,
) -> Result<State, Stop>
    ensures { Gives result (machine.close trees (noted_view around.flaw) (frames_view around.frames.items) (formula_view formula) (token_view token)) }
{
    match around.frames.pop() {
        None => close_text(alloc, around.flaw, formula, token),
        Some(Frame::Paren(body, system)) => {
            let around = around.in_system(system);
            close_paren(Context { around, body }, formula, token)
        }
        Some(Frame::Quantified(scope, body)) => {
            let whole = scope_closed(alloc, scope, body, formula)?;
            close(alloc, around, whole, token)
        }
    }
}

/// A `)` after a term, with what is around the parenthesis before it: the formula in it was touched or not.
fn close_term_paren(
    alloc: Global,
    context: Context,
    touched: bool,
    read: ReadTerm,
) -> Result<State, Stop>
    ensures { Gives result (machine.close_term trees (context_view context)
        (machine.paren (body_view context.body) context.around.system ∷ frames_view context.around.frames.items) touched (term_view read.term) read.numeral) }
{
    if touched {
        return Err(Stop::Syntax);
    }
    let reading = Reading::start(alloc, Role::LeftSide);
    Ok(State {
        context,
        position: Position::AfterFactor(reading, read.factor()),
    })
}

/// A `)` after a term that is no side of a relation: its parenthesis was a term's.
pub(crate) fn close_term(alloc: Global, context: Context, read: ReadTerm) -> Result<State, Stop>
    ensures { Gives result (machine.close_term trees (context_view context) (frames_view context.around.frames.items) context.body.touched (term_view read.term) read.numeral) }
{
    let Context { mut around, body } = context;
    let touched = body.touched;
    drop(body);
    match around.frames.pop() {
        Some(Frame::Paren(body, system)) => {
            let around = around.in_system(system);
            close_term_paren(alloc, Context { around, body }, touched, read)
        }
        _ => {
            drop(around);
            drop(read);
            Err(Stop::Syntax)
        }
    }
}

//! The machine where an operand begins: marks, `~`, quantifiers and parentheses before it, and its first token.

ghost use Rattle.std.specs.Prelude.{◌≡◌, ◌∷◌, Some, IfOk};
ghost use Rattle.std.specs.Option.{option_map};
ghost use Rattle.formula_parse.specs.Trees.{no_names};
ghost use Rattle.formula_parse.specs.Made.{trees};
ghost use Rattle.formula_parse.specs.Machine as machine;
ghost use Rattle.formula_parse.specs.Views.{names_view, quantifier_view};
ghost use Rattle.formula_parse.specs.StateViews.{token_view, noted_view, binding_view, tildes_view, body_view, frame_view, frames_view, context_view, state_view};
ghost use Rattle.formula_parse.specs.Stops.{Gives};

use crate::fault::Stop;
use crate::making::with_name;
use crate::state::{
    Around, Before, Binding, Body, Context, Frame, Position, Reading, Representation, Role, Scope,
    State,
};
use crate::terms::{after_factor, numeral};
use crate::token::Token;
use crate::tree::Quantifier;
use digit_tuple::faults::OutOfMemory;
use digit_tuple::name::Name;
use std::alloc::Global;

/// A frame opens a formula of this nesting.
fn opened(alloc: Global, mut around: Around, frame: Frame, base: u8) -> Result<State, Stop>
    ensures { Gives result (Some (record {
      around = frame_view frame ∷ frames_view around.frames.items;
      body = machine.fresh trees base;
      system = around.system;
      flaw = noted_view around.flaw;
      position = machine.at_operand;
    })) }
{
    around.frames.push(frame)?;
    Ok(State {
        context: Context {
            around,
            body: Body::fresh(alloc, base),
        },
        position: Position::AtOperand,
    })
}

/// A parenthesis opens a formula, or a term that begins an operand.
fn open(alloc: Global, context: Context) -> Result<State, Stop>
    ensures { Gives result (machine.enter trees (context_view context) (token_view Token.Opening)) }
{
    let base = context.body.inside()?;
    let before = context.around.system.copy(alloc)?;
    let Context { around, body } = context;
    opened(alloc, around, Frame::Paren(body, before), base)
}

impl Before {
    /// With a `~` after it.
    fn negated(self, alloc: Global) -> Result<Before, OutOfMemory>
        ensures tildes { IfOk result (λ b. tildes_view b.tildes.items ≡ names_view self.marks.items ∷ tildes_view self.tildes.items) }
        ensures marks { IfOk result (λ b. names_view b.marks.items ≡ no_names) }
    {
        let mut tildes = self.tildes;
        tildes.push(self.marks)?;
        Ok(Before {
            tildes,
            marks: Vec::new(alloc),
        })
    }
}

/// A `~`.
fn negate(alloc: Global, context: Context) -> Result<State, Stop>
    ensures { Gives result (machine.enter trees (context_view context) (token_view Token.Negation)) }
{
    let Context { around, body } = context;
    let before = body.before.negated(alloc)?;
    let body = Body {
        prefix: body.prefix,
        before,
        touched: true,
    };
    Ok(State {
        context: Context { around, body },
        position: Position::AtOperand,
    })
}

impl Binding {
    /// A quantifier of which no variable has come.
    fn begun(alloc: Global, quantifier: Quantifier) -> Binding
        ensures { binding_view result ≡ machine.begun (quantifier_view quantifier) }
    {
        match quantifier {
            Quantifier::Exists => Binding::Exists(Vec::new(alloc)),
            Quantifier::ForAll => Binding::ForAll(Vec::new(alloc)),
            Quantifier::Infinite => Binding::Infinite,
        }
    }

    /// With a variable that is not the last; `I` has none.
    fn with_variable(self, name: Name) -> Result<Option<Binding>, OutOfMemory>
        ensures { IfOk result (λ b. option_map binding_view b ≡ machine.with_variable (binding_view self) name) }
    {
        match self {
            Binding::Exists(names) => Ok(Some(Binding::Exists(with_name(names, name)?))),
            Binding::ForAll(names) => Ok(Some(Binding::ForAll(with_name(names, name)?))),
            Binding::Infinite => Ok(None),
        }
    }
}

/// A `,` after a quantifier's variable, with what is around the quantifier: what it takes was touched or not.
fn reopened(context: Context, scope: Scope, touched: bool) -> Result<State, Stop>
    ensures { Gives result (machine.next_variable trees (context_view context)
        (machine.scope (binding_view scope.binding) scope.last (body_view context.body) ∷ frames_view context.around.frames.items) touched) }
{
    if touched {
        drop(context);
        drop(scope);
        return Err(Stop::Syntax);
    }
    let Scope { binding, last } = scope;
    match binding.with_variable(last) {
        Ok(Some(binding)) => Ok(State {
            context,
            position: Position::AtVariable(binding),
        }),
        Ok(None) => {
            drop(context);
            Err(Stop::Syntax)
        }
        Err(OutOfMemory) => {
            drop(context);
            Err(Stop::Memory)
        }
    }
}

/// A `,` directly after a quantifier's variable.
fn next_variable(context: Context) -> Result<State, Stop>
    ensures { Gives result (machine.next_variable trees (context_view context) (frames_view context.around.frames.items) context.body.touched) }
{
    let Context { mut around, body } = context;
    let touched = body.touched;
    drop(body);
    match around.frames.pop() {
        Some(Frame::Quantified(scope, body)) => reopened(Context { around, body }, scope, touched),
        _ => {
            drop(around);
            Err(Stop::Syntax)
        }
    }
}

/// A numeral begins an operand.
fn enter_numeral(alloc: Global, context: Context, value: u64) -> State
    ensures { machine.enter trees (context_view context) (token_view (Token.Number value)) ≡ Some (state_view result) }
{
    let reading = Reading::start(alloc, Role::LeftSide);
    after_factor(context, reading, numeral(value))
}

/// A token where an operand may begin.
pub(crate) fn enter(alloc: Global, context: Context, token: Token) -> Result<State, Stop>
    ensures { Gives result (machine.enter trees (context_view context) (token_view token)) }
{
    match token {
        Token::Mark => Ok(State {
            context,
            position: Position::AtSystem,
        }),
        Token::Negation => negate(alloc, context),
        Token::Quantifier(quantifier) => {
            Ok(State {
                context,
                position: Position::AtVariable(Binding::begun(alloc, quantifier)),
            })
        }
        Token::Opening => open(alloc, context),
        Token::Name(name) => Ok(State {
            context,
            position: Position::AfterFirst(name),
        }),
        Token::Number(value) => Ok(enter_numeral(alloc, context, value)),
        Token::LetterSign(at) => Ok(State {
            context,
            position: Position::AtLetter(Representation::OnLeft, at),
        }),
        Token::CallSign => Ok(State {
            context,
            position: Position::AtCalled,
        }),
        Token::Comma => next_variable(context),
        _ => {
            drop(context);
            drop(token);
            Err(Stop::Syntax)
        }
    }
}

/// The system after a `?`.
fn mark(alloc: Global, mut context: Context, name: Name) -> Result<State, Stop>
    ensures { Gives result (machine.enter_system trees (context_view context) (token_view (Token.System name))) }
{
    let Ok(system) = name.copy(alloc) else {
        drop(context);
        return Err(Stop::Memory);
    };
    context.around.system = system;
    let Ok(()) = context.body.before.marks.push(name) else {
        drop(context);
        return Err(Stop::Memory);
    };
    context.body.touched = true;
    Ok(State {
        context,
        position: Position::AtOperand,
    })
}

/// A token after a `?`.
pub(crate) fn enter_system(alloc: Global, context: Context, token: Token) -> Result<State, Stop>
    ensures { Gives result (machine.enter_system trees (context_view context) (token_view token)) }
{
    match token {
        Token::System(name) => mark(alloc, context, name),
        _ => {
            drop(context);
            drop(token);
            Err(Stop::Syntax)
        }
    }
}

/// A quantifier takes the formula that comes.
fn quantify(alloc: Global, context: Context, scope: Scope) -> Result<State, Stop>
    ensures { Gives result (machine.enter_variable trees (context_view context) (binding_view scope.binding) (token_view (Token.Name scope.last))) }
{
    let base = context.body.inside()?;
    let Context { around, body } = context;
    opened(alloc, around, Frame::Quantified(scope, body), base)
}

/// A token where a quantifier's variable is.
pub(crate) fn enter_variable(
    alloc: Global,
    context: Context,
    binding: Binding,
    token: Token,
) -> Result<State, Stop>
    ensures { Gives result (machine.enter_variable trees (context_view context) (binding_view binding) (token_view token)) }
{
    match token {
        Token::Name(last) => {
            let scope = Scope { binding, last };
            quantify(alloc, context, scope)
        }
        _ => {
            drop(context);
            drop(binding);
            drop(token);
            Err(Stop::Syntax)
        }
    }
}

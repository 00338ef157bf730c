//! The machine where a factor begins, and after one: products, sums, terms in parentheses, and what follows a term.

ghost use Rattle.std.specs.Prelude.{◌≡◌, true, false, ◌&&◌, [], ◌∷◌, Some, IfOk};
ghost use Rattle.formula_parse.specs.Flaws as flaws;
ghost use Rattle.formula_parse.specs.Trees.{no_addends, no_factors, factors, times as times'};
ghost use Rattle.formula_parse.specs.Made.{trees};
ghost use Rattle.formula_parse.specs.Machine as machine;
ghost use Rattle.formula_parse.specs.Views.{term_view, terms_view, factor_view, factors_view, addends_view, sign_view};
ghost use Rattle.formula_parse.specs.StateViews.{token_view, outer_view, outers_view, role_view, product_view, context_view, state_view};
ghost use Rattle.formula_parse.specs.Stops.{Gives};

use crate::closings::close_term;
use crate::fault::Stop;
use crate::flaw::Product;
use crate::making::{multiplied, summed, with_addend, with_factor};
use crate::operands::{after_atom, leave_atom};
use crate::state::{
    Arguments, Context, Nest, Places, Position, ReadFactor, ReadTerm, Reading, Role, Side, State,
    Sum,
};
use crate::token::Token;
use crate::tree::{Fact, Factor, Sign, Term};
use digit_tuple::faults::OutOfMemory;
use digit_tuple::name::Name;
use std::alloc::Global;

/// A term begins.
pub(crate) fn at_term(alloc: Global, context: Context, role: Role) -> State
    ensures { machine.at_term trees (context_view context) (role_view role) ≡ Some (state_view result) }
{
    let reading = Reading::start(alloc, role);
    State {
        context,
        position: Position::AtFactor(reading),
    }
}

impl ReadTerm {
    /// As a factor of a product.
    #[tactic(auto, using(crate::proofs::ViewSteps::view_times))]
    pub fn factor(self) -> ReadFactor
        ensures factor { factor_view result.factor ≡ times' (term_view self.term) }
        ensures numeral { result.numeral ≡ self.numeral }
    {
        ReadFactor {
            factor: Factor::Times(self.term),
            numeral: self.numeral,
        }
    }
}

/// A factor was read.
pub(crate) fn after_factor(mut context: Context, reading: Reading, read: ReadTerm) -> State
    ensures { state_view result ≡ machine.with_factor trees (context_view context) (role_view reading.nest.role) (outers_view reading.nest.outer.items)
        (addends_view reading.sum.addends.items) (factors_view reading.sum.factors.items) (product_view reading.sum.product) (term_view read.term) read.numeral }
{
    context.around.flaw = reading.sum.product.noted(read.numeral, context.around.flaw);
    State {
        context,
        position: Position::AfterFactor(reading, read.factor()),
    }
}

impl Reading {
    /// The term that comes after a parenthesis, where a factor may be.
    fn opened(self, alloc: Global) -> Result<Reading, OutOfMemory>
        ensures role { IfOk result (λ r. r.nest.role ≡ self.nest.role) }
        ensures outer { IfOk result (λ r. outers_view r.nest.outer.items ≡ outer_view self.sum ∷ outers_view self.nest.outer.items) }
        ensures addends { IfOk result (λ r. addends_view r.sum.addends.items ≡ no_addends) }
        ensures factors { IfOk result (λ r. factors_view r.sum.factors.items ≡ no_factors) }
        ensures product { IfOk result (λ r. product_view r.sum.product ≡ flaws.product_start true) }
    {
        let mut nest = self.nest;
        let Ok(()) = nest.outer.push(self.sum) else {
            drop(nest);
            return Err(OutOfMemory);
        };
        Ok(Reading {
            nest,
            sum: Sum::empty(alloc, true),
        })
    }
}

/// A term in parentheses begins where a factor may.
fn open_term(alloc: Global, context: Context, reading: Reading) -> Result<State, Stop>
    ensures { Gives result (machine.enter_factor trees (context_view context) (role_view reading.nest.role) (outers_view reading.nest.outer.items)
        (addends_view reading.sum.addends.items) (factors_view reading.sum.factors.items) (product_view reading.sum.product) (token_view Token.Opening)) }
{
    let Ok(reading) = reading.opened(alloc) else {
        drop(context);
        return Err(Stop::Memory);
    };
    Ok(State {
        context,
        position: Position::AtFactor(reading),
    })
}

/// A variable, which is no numeral.
#[tactic(auto, using(crate::proofs::ViewSteps::view_variable))]
fn variable(name: Name) -> ReadTerm
    ensures term { term_view result.term ≡ trees.variable name }
    ensures numeral { result.numeral ≡ false }
{
    ReadTerm {
        term: Term::Variable(name),
        numeral: false,
    }
}

/// A numeral.
#[tactic(auto, using(crate::proofs::ViewSteps::view_numeral))]
pub(crate) fn numeral(value: u64) -> ReadTerm
    ensures term { term_view result.term ≡ trees.numeral value }
    ensures numeral { result.numeral ≡ true }
{
    ReadTerm {
        term: Term::Numeral(value),
        numeral: true,
    }
}

/// A token where a factor may begin.
pub(crate) fn enter_factor(
    alloc: Global,
    context: Context,
    reading: Reading,
    token: Token,
) -> Result<State, Stop>
    ensures { Gives result (machine.enter_factor trees (context_view context) (role_view reading.nest.role) (outers_view reading.nest.outer.items)
        (addends_view reading.sum.addends.items) (factors_view reading.sum.factors.items) (product_view reading.sum.product) (token_view token)) }
{
    match token {
        Token::Opening => open_term(alloc, context, reading),
        Token::Name(name) => Ok(after_factor(context, reading, variable(name))),
        Token::Number(value) => Ok(after_factor(context, reading, numeral(value))),
        _ => {
            drop(context);
            drop(reading);
            drop(token);
            Err(Stop::Syntax)
        }
    }
}

/// A token after a whole term that begins an operand.
fn leave_left(alloc: Global, context: Context, read: ReadTerm, token: Token) -> Result<State, Stop>
    ensures { Gives result (machine.leave_whole trees (context_view context) machine.left_side (term_view read.term) read.numeral (token_view token)) }
{
    match token {
        Token::Relation(relation) => {
            let role = Role::RightOf(read.term, relation);
            Ok(at_term(alloc, context, role))
        }
        Token::Closing => close_term(alloc, context, read),
        _ => {
            drop(context);
            drop(read);
            Err(Stop::Syntax)
        }
    }
}

impl Arguments {
    /// With one more.
    fn with_term(self, term: Term) -> Result<Arguments, OutOfMemory>
        ensures name { IfOk result (λ a. a.name ≡ self.name) }
        ensures terms { IfOk result (λ a. terms_view a.terms.items ≡ trees.terms (terms_view self.terms.items) (term_view term)) }
    {
        let mut terms = self.terms;
        terms.push(term)?;
        Ok(Arguments {
            name: self.name,
            terms,
        })
    }
}

/// A `,` after an argument of a call.
fn next_argument(
    alloc: Global,
    context: Context,
    arguments: Arguments,
    term: Term,
) -> Result<State, Stop>
    ensures { Gives result (machine.at_term trees (context_view context) (machine.argument arguments.name (trees.terms (terms_view arguments.terms.items) (term_view term)))) }
{
    let Ok(arguments) = arguments.with_term(term) else {
        drop(context);
        return Err(Stop::Memory);
    };
    Ok(at_term(alloc, context, Role::Argument(arguments)))
}

/// A `)` after the last argument of a call.
fn last_argument(
    alloc: Global,
    context: Context,
    arguments: Arguments,
    term: Term,
) -> Result<State, Stop>
    ensures { Gives result (machine.moved trees (context_view context)
        (machine.after_operand (trees.call context.around.system arguments.name (terms_view arguments.terms.items) (term_view term)))) }
{
    let Ok(arguments) = arguments.with_term(term) else {
        drop(context);
        return Err(Stop::Memory);
    };
    let Arguments { name, terms } = arguments;
    after_atom(alloc, context, Fact::Call(name, terms))
}

/// A token after an argument of a call.
fn leave_argument(
    alloc: Global,
    context: Context,
    arguments: Arguments,
    read: ReadTerm,
    token: Token,
) -> Result<State, Stop>
    ensures { Gives result (machine.leave_whole trees (context_view context) (role_view (Role.Argument arguments)) (term_view read.term) read.numeral (token_view token)) }
{
    match token {
        Token::Comma => next_argument(alloc, context, arguments, read.term),
        Token::Closing => last_argument(alloc, context, arguments, read.term),
        _ => {
            drop(context);
            drop(arguments);
            drop(read);
            Err(Stop::Syntax)
        }
    }
}

/// A token after a position of a word.
fn leave_place(context: Context, places: Places, term: Term, token: Token) -> Result<State, Stop>
    ensures { Gives result (machine.leave_whole trees (context_view context) (role_view (Role.PlaceIn places)) (term_view term) false (token_view token)) }
{
    match token {
        Token::Unbracket => Ok(State {
            context,
            position: Position::AfterIndex(places, term),
        }),
        _ => {
            drop(context);
            drop(places);
            drop(term);
            Err(Stop::Syntax)
        }
    }
}

/// A token after a whole term.
fn leave_whole(
    alloc: Global,
    context: Context,
    role: Role,
    read: ReadTerm,
    token: Token,
) -> Result<State, Stop>
    ensures { Gives result (machine.leave_whole trees (context_view context) (role_view role) (term_view read.term) read.numeral (token_view token)) }
{
    match role {
        Role::LeftSide => leave_left(alloc, context, read, token),
        Role::RightOf(left, relation) => {
            let fact = Fact::Compare(left, relation, read.term);
            leave_atom(alloc, context, fact, token)
        }
        Role::PlaceIn(places) => leave_place(context, places, read.term, token),
        Role::Argument(arguments) => leave_argument(alloc, context, arguments, read, token),
    }
}

/// A token after a term in parentheses, with what is around them.
fn leave_parens(
    context: Context,
    reading: Reading,
    read: ReadTerm,
    token: Token,
) -> Result<State, Stop>
    ensures { Gives result (machine.leave_product trees (context_view context) (role_view reading.nest.role)
        (outer_view reading.sum ∷ outers_view reading.nest.outer.items) (term_view read.term) read.numeral (token_view token)) }
{
    match token {
        Token::Closing => Ok(after_factor(context, reading, read)),
        _ => {
            drop(context);
            drop(reading);
            drop(read);
            Err(Stop::Syntax)
        }
    }
}

/// A token after a term that may be in parentheses of another one.
fn leave_term(
    alloc: Global,
    context: Context,
    mut nest: Nest,
    read: ReadTerm,
    token: Token,
) -> Result<State, Stop>
    ensures { Gives result (machine.leave_product trees (context_view context) (role_view nest.role) (outers_view nest.outer.items) (term_view read.term) read.numeral (token_view token)) }
{
    match nest.outer.pop() {
        None => leave_whole(alloc, context, nest.role, read, token),
        Some(sum) => leave_parens(context, Reading { nest, sum }, read, token),
    }
}

impl Sum {
    /// With one more factor and a `*` after it.
    fn times(self, read: ReadFactor, at: usize) -> Result<Sum, OutOfMemory>
        ensures addends { IfOk result (λ s. addends_view s.addends.items ≡ addends_view self.addends.items) }
        ensures factors { IfOk result (λ s. factors_view s.factors.items ≡ factors (factors_view self.factors.items) (factor_view read.factor)) }
        ensures product { IfOk result (λ s. product_view s.product ≡ flaws.product_next (product_view self.product) read.numeral at) }
    {
        let factors = with_factor(self.factors, read.factor)?;
        Ok(Sum {
            addends: self.addends,
            factors,
            product: self.product.next(read.numeral, at),
        })
    }

    /// With one more factor and a `/` after it.
    fn slashed(self, factor: Factor) -> Result<Sum, OutOfMemory>
        ensures addends { IfOk result (λ s. addends_view s.addends.items ≡ addends_view self.addends.items) }
        ensures factors { IfOk result (λ s. factors_view s.factors.items ≡ factors (factors_view self.factors.items) (factor_view factor)) }
        ensures product { IfOk result (λ s. product_view s.product ≡ product_view self.product) }
    {
        let factors = with_factor(self.factors, factor)?;
        Ok(Sum {
            addends: self.addends,
            factors,
            product: self.product,
        })
    }

    /// With one more product and a sign after it.
    fn signed(self, alloc: Global, factor: Factor, sign: Sign) -> Result<Sum, OutOfMemory>
        ensures addends { IfOk result (λ s. addends_view s.addends.items ≡ trees.addends (addends_view self.addends.items) (factors (factors_view self.factors.items) (factor_view factor)) (sign_view sign)) }
        ensures factors { IfOk result (λ s. factors_view s.factors.items ≡ no_factors) }
        ensures product { IfOk result (λ s. product_view s.product ≡ flaws.product_start false) }
    {
        let term = multiplied(self.factors, factor)?;
        let addends = with_addend(self.addends, term, sign)?;
        Ok(Sum {
            addends,
            factors: Vec::new(alloc),
            product: Product::start(false),
        })
    }

    /// The whole term with its last factor.
    fn whole(self, alloc: Global, last: ReadFactor) -> Result<ReadTerm, OutOfMemory>
        ensures term { IfOk result (λ p. term_view p.term ≡ trees.term (addends_view self.addends.items) (factors (factors_view self.factors.items) (factor_view last.factor))) }
        ensures numeral { IfOk result (λ p. p.numeral ≡ (self.product.lone && last.numeral)) }
    {
        let product = multiplied(self.factors, last.factor)?;
        Ok(ReadTerm {
            term: summed(alloc, self.addends, product)?,
            numeral: self.product.lone && last.numeral,
        })
    }
}

/// A `*` after a factor.
fn times(context: Context, reading: Reading, read: ReadFactor, at: usize) -> Result<State, Stop>
    ensures { Gives result (machine.leave_factor trees (context_view context) (role_view reading.nest.role) (outers_view reading.nest.outer.items)
        (addends_view reading.sum.addends.items) (factors (factors_view reading.sum.factors.items) (factor_view read.factor)) (product_view reading.sum.product) read.numeral (token_view (Token.Times at))) }
{
    let Reading { nest, sum } = reading;
    let Ok(sum) = sum.times(read, at) else {
        drop(context);
        drop(nest);
        return Err(Stop::Memory);
    };
    Ok(State {
        context,
        position: Position::AtFactor(Reading { nest, sum }),
    })
}

/// A `/` after a factor.
fn slash(context: Context, reading: Reading, read: ReadFactor) -> Result<State, Stop>
    ensures { Gives result (machine.leave_factor trees (context_view context) (role_view reading.nest.role) (outers_view reading.nest.outer.items)
        (addends_view reading.sum.addends.items) (factors (factors_view reading.sum.factors.items) (factor_view read.factor)) (product_view reading.sum.product) read.numeral (token_view Token.Slash)) }
{
    let Reading { nest, sum } = reading;
    let Ok(sum) = sum.slashed(read.factor) else {
        drop(context);
        drop(nest);
        return Err(Stop::Memory);
    };
    Ok(State {
        context,
        position: Position::AtDivisor(Reading { nest, sum }),
    })
}

/// A numeral after a `/`.
#[tactic(auto, using(crate::proofs::ViewSteps::view_divided, crate::proofs::OtherTokens::enter_divisor_zero, crate::proofs::OtherTokens::enter_divisor_above))]
fn divide(context: Context, reading: Reading, divisor: u64) -> Result<State, Stop>
    ensures { Gives result (machine.enter_divisor trees (context_view context) (role_view reading.nest.role) (outers_view reading.nest.outer.items)
        (addends_view reading.sum.addends.items) (factors_view reading.sum.factors.items) (product_view reading.sum.product) (token_view (Token.Number divisor))) }
{
    if divisor == 0 {
        drop(context);
        drop(reading);
        return Err(Stop::Syntax);
    }
    let read = ReadFactor {
        factor: Factor::Divided(divisor),
        numeral: false,
    };
    Ok(State {
        context,
        position: Position::AfterFactor(reading, read),
    })
}

/// A token after a `/`.
pub(crate) fn enter_divisor(context: Context, reading: Reading, token: Token) -> Result<State, Stop>
    ensures { Gives result (machine.enter_divisor trees (context_view context) (role_view reading.nest.role) (outers_view reading.nest.outer.items)
        (addends_view reading.sum.addends.items) (factors_view reading.sum.factors.items) (product_view reading.sum.product) (token_view token)) }
{
    match token {
        Token::Number(divisor) => divide(context, reading, divisor),
        _ => {
            drop(context);
            drop(reading);
            drop(token);
            Err(Stop::Syntax)
        }
    }
}

/// A sign after a factor.
fn signed(
    alloc: Global,
    context: Context,
    reading: Reading,
    read: ReadFactor,
    sign: Sign,
) -> Result<State, Stop>
    ensures { Gives result (machine.leave_factor trees (context_view context) (role_view reading.nest.role) (outers_view reading.nest.outer.items)
        (addends_view reading.sum.addends.items) (factors (factors_view reading.sum.factors.items) (factor_view read.factor)) (product_view reading.sum.product) read.numeral (token_view (Token.Sign sign))) }
{
    let Reading { nest, sum } = reading;
    let Ok(sum) = sum.signed(alloc, read.factor, sign) else {
        drop(context);
        drop(nest);
        return Err(Stop::Memory);
    };
    Ok(State {
        context,
        position: Position::AtFactor(Reading { nest, sum }),
    })
}

/// A token that ends a term, after its last factor.
fn leave_sum(
    alloc: Global,
    context: Context,
    reading: Reading,
    read: ReadFactor,
    token: Token,
) -> Result<State, Stop>
    ensures { Gives result (machine.leave_product trees (context_view context) (role_view reading.nest.role) (outers_view reading.nest.outer.items)
        (trees.term (addends_view reading.sum.addends.items) (factors (factors_view reading.sum.factors.items) (factor_view read.factor))) (reading.sum.product.lone && read.numeral) (token_view token)) }
{
    let Reading { nest, sum } = reading;
    let Ok(term) = sum.whole(alloc, read) else {
        drop(context);
        drop(nest);
        drop(token);
        return Err(Stop::Memory);
    };
    leave_term(alloc, context, nest, term, token)
}

/// A token after a factor.
pub(crate) fn leave_factor(
    alloc: Global,
    context: Context,
    reading: Reading,
    read: ReadFactor,
    token: Token,
) -> Result<State, Stop>
    ensures { Gives result (machine.leave_factor trees (context_view context) (role_view reading.nest.role) (outers_view reading.nest.outer.items)
        (addends_view reading.sum.addends.items) (factors (factors_view reading.sum.factors.items) (factor_view read.factor)) (product_view reading.sum.product) read.numeral (token_view token)) }
{
    match token {
        Token::Times(at) => times(context, reading, read, at),
        Token::Slash => slash(context, reading, read),
        Token::Sign(sign) => signed(alloc, context, reading, read, sign),
        _ => leave_sum(alloc, context, reading, read, token),
    }
}

/// A token after a name that is a variable.
fn leave_variable(alloc: Global, context: Context, name: Name, token: Token) -> Result<State, Stop>
    ensures { Gives result (machine.leave_factor trees (context_view context) machine.left_side [] no_addends
        (trees.prod no_factors (trees.variable name)) (flaws.product_start true) false (token_view token)) }
{
    let reading = Reading::start(alloc, Role::LeftSide);
    leave_factor(alloc, context, reading, variable(name).factor(), token)
}

/// A token after a name that begins an operand.
pub(crate) fn leave_first(
    alloc: Global,
    context: Context,
    name: Name,
    token: Token,
) -> Result<State, Stop>
    ensures { Gives result (machine.leave_first trees (context_view context) name (token_view token)) }
{
    match token {
        Token::Bracket => {
            let places = Places {
                side: Side::First,
                word: name,
                places: Vec::new(alloc),
            };
            Ok(at_term(alloc, context, Role::PlaceIn(places)))
        }
        _ => leave_variable(alloc, context, name, token),
    }
}

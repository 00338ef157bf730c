//! The values of terms.

ghost use Rattle.std.specs.Prelude.{◌≡◌, IfOk};
ghost use Rattle.std.specs.Option.{option_and_then};
ghost use Rattle.formula_parse.specs.Views.{term_view, factor_view, sign_view};
ghost use Rattle.formula_truth.specs.Values.{both, multiplied as multiplied_numbers, quotient, by_sign, value, with_factor as with_factor_of};
ghost use Rattle.formula_truth.specs.Given.{assigned, after_sum};

use crate::fault::Undecided;
use crate::given::{Given, number_of};
use formula_parse::tree::{Factor, Sign, Term};

/// A sum so far, and the sign after it.
#[derive(Clone, Copy)]
pub(crate) struct Before {
    pub sum: Option<u64>,
    pub sign: Sign,
}

/// The product of two values.
fn multiplied(x: Option<u64>, y: Option<u64>) -> Result<Option<u64>, Undecided>
    ensures { IfOk result (λ z. z ≡ both multiplied_numbers x y) }
{
    match (x, y) {
        (Some(a), Some(b)) => match a.checked_mul(b) {
            Some(product) => Ok(Some(product)),
            None => Err(Undecided::Large),
        },
        _ => Ok(None),
    }
}

/// The quotient of a value by a divisor, rounded down; there is none by 0.
fn divided(x: Option<u64>, divisor: u64) -> Option<u64>
    ensures { result ≡ option_and_then (quotient divisor) x }
{
    match x {
        Some(a) => a.checked_div(divisor),
        None => None,
    }
}

/// The sum or the difference of two values.
fn joined(x: Option<u64>, sign: Sign, y: Option<u64>) -> Result<Option<u64>, Undecided>
    ensures { IfOk result (λ z. z ≡ both (by_sign (sign_view sign)) x y) }
{
    match (x, y) {
        (Some(a), Some(b)) => match sign {
            Sign::Plus => match a.checked_add(b) {
                Some(sum) => Ok(Some(sum)),
                None => Err(Undecided::Large),
            },
            Sign::Minus => Ok(a.checked_sub(b)),
        },
        _ => Ok(None),
    }
}

/// A value after what came before it.
fn added(before: Option<Before>, value: Option<u64>) -> Result<Option<u64>, Undecided>
    ensures { IfOk result (λ z. z ≡ after_sum before value) }
{
    match before {
        None => Ok(value),
        Some(Before { sum, sign }) => joined(sum, sign, value),
    }
}

/// A product so far with one more factor, where so many levels may be gone down.
#[cycle(evaluation)]
fn with_factor(
    product: Option<u64>,
    factor: &Factor,
    given: &[Given],
    levels: u32,
) -> Result<Option<u64>, Undecided>
    ensures { IfOk result (λ x. x ≡ with_factor_of (factor_view factor.now) (assigned given.now) product) }
{
    match factor {
        Factor::Times(term) => {
            let value = value_of(term, given, levels)?;
            multiplied(product, value)
        }
        Factor::Divided(divisor) => Ok(divided(product, *divisor)),
    }
}

/// The value of a term, if it has one, where so many levels may be gone down.
#[cycle(evaluation)]
pub(crate) fn value_of(term: &Term, given: &[Given], levels: u32) -> Result<Option<u64>, Undecided>
    ensures { IfOk result (λ x. x ≡ value (term_view term.now) (assigned given.now)) }
{
    if levels == 0 {
        return Err(Undecided::Deep);
    }
    match term {
        Term::Variable(name) => Ok(Some(number_of(given, name))),
        Term::Numeral(number) => Ok(Some(*number)),
        Term::Product(factors) => {
            let mut product = Some(1);
            for factor in factors {
                product = with_factor(product, factor, given, levels - 1)?;
            }
            Ok(product)
        }
        Term::Sum(addends, last) => {
            let mut before = None;
            for addend in addends {
                let value = value_of(&addend.term, given, levels - 1)?;
                let sum = added(before, value)?;
                before = Some(Before {
                    sum,
                    sign: addend.sign,
                });
            }
            let value = value_of(last, given, levels - 1)?;
            added(before, value)
        }
    }
}

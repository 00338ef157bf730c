//! Numbers that are given to variables.

ghost use Rattle.std.specs.Prelude.{◌≡◌, IfOk};
ghost use Rattle.formula_truth.specs.Assignments.{with_value};
ghost use Rattle.formula_truth.specs.Given.{assigned};

use crate::fault::Undecided;
use digit_tuple::name::Name;
use std::alloc::Global;

/// A variable, and the number that it is given.
#[derive(Drop)]
pub struct Given {
    pub name: Name,
    pub number: u64,
}

/// The number that the variable was given last; 0 where it was given none.
pub(crate) fn number_of(given: &[Given], name: &Name) -> u64
    ensures { result ≡ assigned given.now name.now }
{
    let mut number = 0;
    for one in given {
        if one.name.as_bytes() == name.as_bytes() {
            number = one.number;
        }
    }
    number
}

/// The same numbers, and one more.
pub(crate) fn with_number(
    alloc: Global,
    given: &[Given],
    name: &Name,
    number: u64,
) -> Result<Vec<Given>, Undecided>
    ensures { IfOk result (λ more. assigned more.items ≡ with_value name.now number (assigned given.now)) }
{
    let mut more = Vec::new(alloc);
    for one in given {
        more.push(Given {
            name: one.name.copy(alloc)?,
            number: one.number,
        })?;
    }
    more.push(Given {
        name: name.copy(alloc)?,
        number,
    })?;
    Ok(more)
}

//! What atoms say, and connectives.

ghost use Rattle.std.specs.Prelude.{◌↔◌, IsTrue, IfOk};
ghost use Rattle.formula_parse.specs.Views.{fact_view, relation_view, connective_view};
ghost use Rattle.formula_truth.specs.Truth.{Compares, FactHolds, Joins};
ghost use Rattle.formula_truth.specs.Given.{assigned};
ghost use Rattle.formula_truth.specs.Bounded.{nothing};

use crate::evaluation::value_of;
use crate::fault::Undecided;
use crate::given::Given;
use formula_parse::tree::{Connective, Fact, Relation};

/// Whether two numbers compare so.
fn compares(relation: Relation, x: u64, y: u64) -> bool
    ensures { IsTrue result ↔ Compares (relation_view relation) x y }
{
    match relation {
        Relation::Equal => x == y,
        Relation::Unequal => x != y,
        Relation::Less => x < y,
        Relation::Greater => y < x,
        Relation::AtMost => x <= y,
        Relation::AtLeast => y <= x,
    }
}

/// What a connective says of two truths.
pub(crate) fn joins(connective: Connective, first: bool, second: bool) -> bool
    ensures { IsTrue result ↔ Joins (connective_view connective) (IsTrue first) (IsTrue second) }
{
    match connective {
        Connective::And => first && second,
        Connective::Or => first || second,
        Connective::Xor => first != second,
        Connective::Implies => !first || second,
        Connective::Iff => first == second,
    }
}

/// Whether what an atom says is true, where no automaton holds of anything and no word has a letter, and
/// terms have so many levels.
pub(crate) fn fact_holds(fact: &Fact, given: &[Given], levels: u32) -> Result<bool, Undecided>
    ensures { IfOk result (λ holds. IsTrue holds ↔ FactHolds nothing (fact_view fact.now) (assigned given.now)) }
{
    match fact {
        Fact::Compare(first, relation, second) => {
            let x = value_of(first, given, levels)?;
            let y = value_of(second, given, levels)?;
            match (x, y) {
                (Some(x), Some(y)) => Ok(compares(*relation, x, y)),
                _ => Ok(false),
            }
        }
        Fact::Words(..) => Ok(false),
        Fact::WordLetter(..) => Ok(false),
        Fact::LetterWord(..) => Ok(false),
        Fact::Call(..) => Ok(false),
    }
}

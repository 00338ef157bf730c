//! How one relation is made of others.

ghost use Rattle.std.specs.Prelude.{◌≡◌, List};
ghost use Rattle.std.specs.Option.{is_some};
ghost use Rattle.term_plans.specs.Plans.{Plan, is_step};
ghost use Rattle.term_plans.specs.Makings.{plan_by, kind_of};

use crate::track::Track;
use digit_tuple::kind::Kind;
use digit_tuple::name::Name;
use formula_parse::tree::{Connective, Relation};

/// How a relation is made: without a step, or by a step. A system, an automaton and a word are given by their names,
/// and the relations that it is made of by their places in a list.
#[derive(Drop)]
pub enum Making {
    /// Two numbers of a system, compared.
    Compared(Name, Relation, Track, Track),
    /// The third number of a system is the sum of the others.
    Added(Name, Track, Track, Track),
    /// Any number of a system.
    Number(Name, Track),
    /// Of these numbers an automaton holds.
    Called(Name, Vec<Track>),
    /// A word's letter at these numbers, compared with a letter.
    Lettered(Name, Vec<Track>, Relation, i32),
    /// The first track under the name of the second, which may be there already.
    Renamed(Track, Track, usize),
    /// By the step `const`: the number of a system.
    Constant(Name, u64, Track),
    /// By the step `product`: both, joined by a connective.
    Joined(Connective, usize, usize),
    /// By the step `product`: the letters of two words at their numbers, compared.
    Paired(Name, Vec<Track>, Relation, Name, Vec<Track>),
    /// By the step `complement`.
    Complement(usize),
    /// By the step `project`: some number on the track.
    Projected(Track, usize),
}

impl Making {
    /// The kind of the step by which the relation is made, if it is made by one.
    pub fn kind(&self) -> Option<Kind>
        ensures kind { result ≡ kind_of self.now }
        ensures step { (plans : List Plan) → is_step (plan_by plans self.now) ≡ is_some result }
    {
        match self {
            Making::Constant(..) => Some(Kind::Const),
            Making::Joined(..) | Making::Paired(..) => Some(Kind::Product),
            Making::Complement(_) => Some(Kind::Complement),
            Making::Projected(..) => Some(Kind::Project),
            Making::Compared(..)
            | Making::Added(..)
            | Making::Number(..)
            | Making::Called(..)
            | Making::Lettered(..)
            | Making::Renamed(..) => None,
        }
    }
}

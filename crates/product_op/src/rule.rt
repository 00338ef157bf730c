//! What says whether automata that read side by side accept.

ghost use Rattle.std.specs.Prelude.{◌≡◌};
ghost use Rattle.product_op.specs.SinkKeys.{refuses_all_sinks};

use crate::op::Op;

/// What must hold of what each of some automata says of its part of a word. Those after the
/// arguments accept their parts where words are valid.
#[derive(Clone, Copy)]
pub enum Rule {
    /// The connective of the first two, and all others.
    Both(Op),
    /// All of them.
    All,
    /// Not the first, and all others.
    NotFirst,
}

impl Rule {
    /// Whether no word is accepted where none of so many automata accepts its part.
    pub fn refuses_all_sinks(self, count: usize) -> bool
        ensures { result ≡ refuses_all_sinks self count }
    {
        match self {
            Rule::Both(op) => count > 2 || !op.holds(false, false),
            Rule::All => count > 0,
            Rule::NotFirst => count > 1,
        }
    }
}

//! Laws of the definitions: each step has one outcome. It is done, with one result and one line, or
//! passes the limit of letters, or that of its width.

ghost use Rattle.automaton_steps.specs.Laws.{ReadHasOneOutcome, ReverseHasOneOutcome, PadHasOneOutcome, ValidHasOneOutcome, JoinHasOneOutcome, ComplementHasOneOutcome, ProjectHasOneOutcome, OrderHasOneOutcome};

/// The step `read`.
pub fn read_has_one_outcome()
    ensures { ReadHasOneOutcome }
{}

/// The step `reverse`.
pub fn reverse_has_one_outcome()
    ensures { ReverseHasOneOutcome }
{}

/// The step `pad`.
pub fn pad_has_one_outcome()
    ensures { PadHasOneOutcome }
{}

/// The step `valid`.
pub fn valid_has_one_outcome()
    ensures { ValidHasOneOutcome }
{}

/// The step `product`.
pub fn join_has_one_outcome()
    ensures { JoinHasOneOutcome }
{}

/// The step `complement`.
pub fn complement_has_one_outcome()
    ensures { ComplementHasOneOutcome }
{}

/// The step `project`.
pub fn project_has_one_outcome()
    ensures { ProjectHasOneOutcome }
{}

/// The step `order`, on the language of a system.
pub fn order_has_one_outcome()
    ensures { OrderHasOneOutcome }
{}

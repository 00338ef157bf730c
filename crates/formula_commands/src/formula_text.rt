//! The text of what a formula makes.

ghost use Rattle.std.specs.Prelude.{◌≡◌, IfOk, MatchResult};
ghost use Rattle.definitions.specs.FormulaTexts.{truth_text as text_of_truth};
ghost use Rattle.command_parts.specs.FormulaLoads.{HaveTracks, IsTextOf, HasNoTextOf, variable_systems};

use command_parts::fault::Fault;
use command_parts::named_tracks::tracks_of;
use command_parts::refusal::Refusal;
use command_parts::text_refusal::TextRefusal;
use dfa_text::print_within;
use digit_tuple::faults::OutOfMemory;
use digit_tuple::header::Header;
use digit_tuple::name::Name;
use formula_resolve::Variable;
use number_relations::relation::Relation;
use std::alloc::Global;
use wal_outside::TEXT_LIMIT;

/// The text of a relation on the numbers of these variables: its truth where there is none, and else its automaton under
/// the names of the variables' systems.
///
/// # Errors
/// `Long` if and only if the text has more bytes than a text may have, or `Memory`.
pub fn formula_text(
    alloc: Global,
    variables: &[Variable],
    relation: &Relation,
) -> Result<Vec<u8>, Fault>
    requires { HaveTracks variables.now relation.now.systems }
    ensures { MatchResult result (λ text. IsTextOf variables.now relation.now text.items) (HasNoTextOf variables.now relation.now) }
{
    if let Some(truth) = relation.verdict() {
        return Ok(Vec::from_slice(alloc, truth_text(truth))?);
    }
    let names = system_names(alloc, variables)?;
    let header = Header::Systems(tracks_of(alloc, &names, relation.systems())?);
    match print_within(alloc, &header, relation.dfa(), TEXT_LIMIT)? {
        Some(text) => Ok(text),
        None => Err(Fault::Refused(Refusal::Text(TextRefusal::Long(TEXT_LIMIT)))),
    }
}

/// The text of a truth value.
fn truth_text(truth: bool) -> &'static [u8]
    ensures { result.now ≡ text_of_truth truth }
{
    if truth { b"true\n" } else { b"false\n" }
}

/// The names of the systems of variables.
fn system_names(alloc: Global, variables: &[Variable]) -> Result<Vec<Name>, OutOfMemory>
    ensures { IfOk result (λ names. names.items ≡ variable_systems variables.now) }
{
    let mut names = Vec::new(alloc);
    for variable in variables {
        names.push(variable.system.copy(alloc)?)?;
    }
    Ok(names)
}

//! Complements of automata among valid words, and their parts on these.

ghost use Rattle.std.specs.Prelude.{◌≡◌, ◌+◌, ◌≤◌, ℕ, List, IfOk, map};
ghost use Rattle.std.specs.Rc.{rc_value};
ghost use Rattle.std.specs.Result.{IsErrOf};
ghost use Rattle.digit_tuple.specs.Deterministic.{accepts_of, letters_of, states_of};
ghost use Rattle.digit_tuple.specs.Letters.{IsWord};
ghost use Rattle.digit_tuple.specs.Width.{HasApart, HasWidth};
ghost use Rattle.minimise.specs.Canonical.{IsCanonical};
ghost use Rattle.product_op.specs.Validity.{AreLanguages};
ghost use Rattle.product_op.specs.Readings.{flags_of, combined, arguments_of};
ghost use Rattle.product_op.specs.TrackReadings.{AllFitTracks, validity_readings};
ghost use Rattle.validity.specs.ValidParts.{in_complement, in_valid_part, ValidityAlike};

use digit_tuple::dfa::Dfa;
use digit_tuple::faults::{OpFault, OutOfMemory};
use digit_tuple::limit::Limit;
use digit_tuple::name::Name;
use digit_tuple::stepped::Stepped;
use minimise::tracked::Tracked;
use product_op::argument_readers::validity_readers;
use product_op::rule::Rule;
use product_op::side_by_side::tracked_side_by_side;
use std::alloc::Global;
use std::rc::Rc;

/// The valid words that are not accepted: those whose track words are each in the track's language.
/// The tracks are those of `a`, in their order, and `valid` has a canonical language for each. The
/// result is canonical.
///
/// The width is the number of tuples of the residual of `a` and those of all tracks' languages, over all words, the
/// empty residual counted too. `States` comes if and only if it passes the limit, and `Letters` never. The result has
/// at most as many states as the width. Memory may also run out where 2^32 - 1 states are not enough. Time and memory
/// follow the width and the letters by which some residual leads to one that is not empty, or all letters where they
/// are at most 32, and the residuals of the arguments with their transitions.
#[tactic(auto, using(crate::proofs::ValidityLemmas::languages_fit))]
pub fn complement_in(
    alloc: Global,
    a: &Tracked,
    valid: &[Rc<Dfa>],
    limit: Limit<'_>,
) -> Result<Stepped<Tracked>, OpFault>
    requires { AreLanguages a.now.automaton.sizes (map rc_value valid.now) }
    ensures names { IfOk result (λ stepped. stepped.result.names ≡ a.now.names) }
    ensures sizes { IfOk result (λ stepped. stepped.result.automaton.sizes ≡ a.now.automaton.sizes) }
    ensures canonical { IfOk result (λ stepped. IsCanonical stepped.result.automaton) }
    ensures language { IfOk result (λ stepped. (w : List ℕ) → IsWord (letters_of a.now.automaton) w
        → accepts_of stepped.result.automaton w ≡ in_complement a.now (map rc_value valid.now) w) }
    ensures width { IfOk result (λ stepped. HasWidth (ValidityAlike a.now (map rc_value valid.now)) (letters_of a.now.automaton) stepped.width) }
    ensures size { IfOk result (λ stepped. states_of stepped.result.automaton ≤ stepped.width) }
    ensures within { IfOk result (λ stepped. stepped.width ≤ limit.entry.most) }
    ensures states { IsErrOf result OpFault.States → HasApart (ValidityAlike a.now (map rc_value valid.now)) (letters_of a.now.automaton) (limit.entry.most + 1) }
    ensures no_letters { ¬ IsErrOf result OpFault.Letters }
{
    among_valid(alloc, a, valid, Rule::NotFirst, limit)
}

/// The valid words that are accepted. The tracks, the languages, the width and the faults are as for
/// `complement_in`. The result is canonical.
#[tactic(auto, using(crate::proofs::ValidityLemmas::languages_fit))]
pub fn valid_part(
    alloc: Global,
    a: &Tracked,
    valid: &[Rc<Dfa>],
    limit: Limit<'_>,
) -> Result<Stepped<Tracked>, OpFault>
    requires { AreLanguages a.now.automaton.sizes (map rc_value valid.now) }
    ensures names { IfOk result (λ stepped. stepped.result.names ≡ a.now.names) }
    ensures sizes { IfOk result (λ stepped. stepped.result.automaton.sizes ≡ a.now.automaton.sizes) }
    ensures canonical { IfOk result (λ stepped. IsCanonical stepped.result.automaton) }
    ensures language { IfOk result (λ stepped. (w : List ℕ) → IsWord (letters_of a.now.automaton) w
        → accepts_of stepped.result.automaton w ≡ in_valid_part a.now (map rc_value valid.now) w) }
    ensures width { IfOk result (λ stepped. HasWidth (ValidityAlike a.now (map rc_value valid.now)) (letters_of a.now.automaton) stepped.width) }
    ensures size { IfOk result (λ stepped. states_of stepped.result.automaton ≤ stepped.width) }
    ensures within { IfOk result (λ stepped. stepped.width ≤ limit.entry.most) }
    ensures states { IsErrOf result OpFault.States → HasApart (ValidityAlike a.now (map rc_value valid.now)) (letters_of a.now.automaton) (limit.entry.most + 1) }
    ensures no_letters { ¬ IsErrOf result OpFault.Letters }
{
    among_valid(alloc, a, valid, Rule::All, limit)
}

// The words of which the rule holds, by whether the automaton and each of the first tracks' languages accept.
fn among_valid(
    alloc: Global,
    a: &Tracked,
    languages: &[Rc<Dfa>],
    rule: Rule,
    limit: Limit<'_>,
) -> Result<Stepped<Tracked>, OpFault>
    requires fit { AllFitTracks a.now.automaton.sizes (map rc_value languages.now) }
    requires enough { arguments_of rule ≤ 1 }
    ensures names { IfOk result (λ stepped. stepped.result.names ≡ a.now.names) }
    ensures sizes { IfOk result (λ stepped. stepped.result.automaton.sizes ≡ a.now.automaton.sizes) }
    ensures canonical { IfOk result (λ stepped. IsCanonical stepped.result.automaton) }
    ensures language { IfOk result (λ stepped. (w : List ℕ) → IsWord (letters_of a.now.automaton) w
        → accepts_of stepped.result.automaton w ≡ combined rule (flags_of (validity_readings a.now.automaton (map rc_value languages.now)) w)) }
    ensures width { IfOk result (λ stepped. HasWidth (ValidityAlike a.now (map rc_value languages.now)) (letters_of a.now.automaton) stepped.width) }
    ensures size { IfOk result (λ stepped. states_of stepped.result.automaton ≤ stepped.width) }
    ensures within { IfOk result (λ stepped. stepped.width ≤ limit.entry.most) }
    ensures states { IsErrOf result OpFault.States → HasApart (ValidityAlike a.now (map rc_value languages.now)) (letters_of a.now.automaton) (limit.entry.most + 1) }
    ensures no_letters { ¬ IsErrOf result OpFault.Letters }
{
    let names = copied_names(alloc, a.names())?;
    let dfa = a.dfa();
    let alphabet = dfa.alphabet().copy(alloc)?;
    let readers = validity_readers(alloc, &alphabet, dfa, languages)?;
    tracked_side_by_side(alloc, alphabet, names, &readers, rule, limit)
}

// The same names, in memory of their own.
fn copied_names(alloc: Global, names: &[Name]) -> Result<Vec<Name>, OutOfMemory>
    ensures { IfOk result (λ copied. copied.items ≡ names.now) }
{
    let mut copied = Vec::with_capacity(alloc, names.len())?;
    for name in names {
        copied.push(name.copy(alloc)?)?;
    }
    Ok(copied)
}

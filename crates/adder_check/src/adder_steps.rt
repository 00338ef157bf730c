//! The relation of an adder's file, by steps.

ghost use Rattle.std.specs.Prelude.{◌≡◌, length, map, IfOk};
ghost use Rattle.std.specs.Rc.{rc_value};
ghost use Rattle.minimise.specs.Canonical.{IsCanonical};
ghost use Rattle.numeration.specs.Relations.{HoldsOf};
ghost use Rattle.numeration.specs.Representation.{sizes_of};
ghost use Rattle.numeration.specs.Systems.{System, IsSystem};
ghost use Rattle.num_system.specs.Joined.{AreLanguagesOf};
ghost use Rattle.product_op.specs.Validity.{AreLanguages};
ghost use Rattle.adder_check.specs.AdderRelation.{DoesAdder, HoldsInFile, adder_names, three_of};

use crate::language_steps::file_steps;
use automaton_steps::pad_step::pad_step;
use automaton_steps::valid_step::valid_step;
use digit_tuple::dfa::Dfa;
use digit_tuple::direction::Direction;
use digit_tuple::faults::OutOfMemory;
use digit_tuple::name::Name;
use digit_tuple::nfa::Nfa;
use digit_tuple::step_fault::StepFault;
use digit_tuple::steps::Steps;
use minimise::tracked::Tracked;
use std::alloc::Global;
use std::rc::Rc;

/// The words that a file lists, and whether they are of the other direction.
#[derive(Clone, Copy)]
pub struct FileWords<'a> {
    pub listed: &'a Nfa,
    pub reversed: bool,
}

/// The canonical automaton of the triples of numbers x, y and z of which a file of three tracks lists some
/// representation, by the steps `read`, `reverse` where the words are of the other direction, `pad` and `valid` as the
/// next ones. There are three languages, each the canonical one of the system. The widths and the costs are those of
/// the steps.
///
/// # Errors
/// `States` exactly at the first step whose width passes the limit.
pub fn adder_steps(
    alloc: Global,
    file: FileWords<'_>,
    direction: Direction,
    languages: &[Rc<Dfa>],
    steps: &mut Steps,
) -> Result<Tracked, StepFault>
    requires tracks { length file.listed.now.sizes ≡ 3 }
    requires languages { AreLanguages file.listed.now.sizes (map rc_value languages.now) }
    ensures steps { DoesAdder direction file.entry.listed.now file.entry.reversed (map rc_value languages.now) steps.old result steps.new }
    ensures relation { IfOk result (λ adder. (s : System) → IsSystem s → file.entry.listed.now.sizes ≡ sizes_of (three_of s) → AreLanguagesOf direction (three_of s) (map rc_value languages.now) → HoldsOf direction (three_of s) (HoldsInFile direction s file.entry.listed.now file.entry.reversed) adder.automaton) }
{
    let FileWords { listed, reversed } = file;
    let read = file_steps(alloc, listed, reversed, steps)?;
    let closed = pad_step(alloc, &read, direction, steps)?;
    let adder = on_adder_tracks(alloc, closed)?;
    valid_step(alloc, &adder, languages, steps)
}

// A canonical automaton of three tracks, under the names x, y and z.
fn on_adder_tracks(alloc: Global, dfa: Dfa) -> Result<Tracked, OutOfMemory>
    requires canonical { IsCanonical dfa }
    requires tracks { length dfa.sizes ≡ 3 }
    ensures { IfOk result (λ tracked. tracked ≡ record { names = adder_names; automaton = dfa }) }
{
    let x = Name::new(alloc, "x")?;
    let y = Name::new(alloc, "y")?;
    let z = Name::new(alloc, "z")?;
    let names = vec![in alloc; x, y, z]?;
    Ok(Tracked::of_canonical(dfa, names))
}

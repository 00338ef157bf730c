//! Whether the files of a language and an adder make a numeration system.

ghost use Rattle.std.specs.Prelude.{◌≡◌, ◌∷◌, [], ℕ, Bool, List, IsTrue, IfOk, MatchResult, ⊤};
ghost use Rattle.digit_tuple.specs.Automaton.{Branching};
ghost use Rattle.minimise.specs.Canonical.{IsCanonical};
ghost use Rattle.numeration.specs.Relations.{HoldsOf};
ghost use Rattle.numeration.specs.Systems.{IsSystem};
ghost use Rattle.num_system.specs.Links.{Passes};
ghost use Rattle.num_system.specs.Successor.{IsSuccessorOf};
ghost use Rattle.adder_check.specs.AdderLaws.{ZeroLaw, SuccessorLaw};
ghost use Rattle.adder_check.specs.AdderRelation.{DoesAdder, HoldsInFile, adder_names, three_of};
ghost use Rattle.endless.specs.LanguageLaws.{system_of};
ghost use Rattle.adder_check.specs.LanguageSteps.{IsOfFile};
ghost use Rattle.adder_check.specs.Admission.{DoesLanguage, DoesLaws, DoesAdmission, IsFirstAdderFault, IsFirstFaultOfFiles, IsAdmitted};

use crate::adder_steps::{FileWords, adder_steps};
use crate::admit_fault::{AdmitFault, Law};
use crate::language_steps::{check_language, file_steps};
use crate::next_sums::next_sums;
use crate::successor_steps::successor_steps;
use crate::user_system::UserSystem;
use crate::zero_law::zero_law;
use digit_tuple::dfa::Dfa;
use digit_tuple::direction::Direction;
use digit_tuple::nfa::Nfa;
use digit_tuple::step_fault::StepFault;
use digit_tuple::steps::Steps;
use minimise::tracked::Tracked;
use std::alloc::Global;
use std::rc::Rc;

/// What the two files of a system list.
#[derive(Clone, Copy)]
pub struct SystemFiles<'a> {
    /// The valid words.
    pub language: &'a Nfa,
    /// The words of three tracks that represent numbers of which the third is to be the sum of the others.
    pub adder: &'a Nfa,
    /// Whether the words of both are of the other direction.
    pub reversed: bool,
}

/// The system of a language of one track and an adder of three tracks of the same size, whose words are
/// read in the direction, by these steps as the next ones: `read` of the language, and `reverse` where the
/// words are of the other direction; `order`, `product`, `project` and `product` for the successor; `read`,
/// `reverse`, `pad` and `valid` for the adder; `product` and `project` for the sums with 0; and `product`
/// and `project` for the sums with one more, and again for one more than the sums. The laws `NoZero` and
/// `Endless` are looked at after the steps of the language's file, `ZeroLaw` and `SuccessorLaw` after their
/// own. The widths and the costs are those of the steps.
///
/// # Errors
/// `NotAdmitted` with the first law that does not hold; `Letters` and `States` exactly at the first step
/// that passes a limit, letters before states. Memory may also run out where 2^32 - 1 states are not
/// enough for equal numbers.
pub fn admit(
    alloc: Global,
    files: SystemFiles<'_>,
    direction: Direction,
    steps: &mut Steps,
) -> Result<UserSystem, AdmitFault>
    requires { (digits : ℕ) × (files.language.now.sizes ≡ digits ∷ []) × (files.adder.now.sizes ≡ digits ∷ digits ∷ digits ∷ []) }
    ensures steps { DoesAdmission direction files.entry.language.now files.entry.adder.now files.entry.reversed steps.old result steps.new }
    ensures admitted { IfOk result (IsAdmitted direction files.entry.language.now files.entry.adder.now files.entry.reversed) }
    ensures refused { MatchResult result (λ _. ⊤) (IsFirstFaultOfFiles direction files.entry.language.now files.entry.adder.now files.entry.reversed) }
{
    let SystemFiles {
        language: words,
        adder: sums,
        reversed,
    } = files;
    let listed_words = FileWords {
        listed: words,
        reversed,
    };
    let listed_sums = FileWords {
        listed: sums,
        reversed,
    };
    let language = language_of(alloc, listed_words, direction, steps)?;
    let next = successor_steps(alloc, &language, direction, steps)?;
    let adder = adder_of(alloc, listed_sums, direction, &language, steps)?;
    let parts = Parts {
        language: &language,
        next: &next,
    };
    check_adder(alloc, &adder, parts, direction, steps)?;
    Ok(UserSystem {
        digits: language.alphabet().letters(),
        direction,
        language,
        adder: adder.into_dfa(),
    })
}

// The canonical automaton of a file's words, where they are the language of a numeration system.
fn language_of(
    alloc: Global,
    file: FileWords<'_>,
    direction: Direction,
    steps: &mut Steps,
) -> Result<Dfa, AdmitFault>
    requires { (digits : ℕ) × (file.listed.now.sizes ≡ digits ∷ []) }
    ensures steps { DoesLanguage direction file.entry.listed.now file.entry.reversed steps.old result steps.new }
    ensures file { IfOk result (IsOfFile file.entry.listed.now file.entry.reversed) }
    ensures system { IfOk result (λ d. IsSystem (system_of direction d)) }
    ensures refused { MatchResult result (λ _. ⊤) (λ fault. (adder : Branching) → IsFirstFaultOfFiles direction file.entry.listed.now adder file.entry.reversed fault) }
{
    let FileWords { listed, reversed } = file;
    let language = file_steps(alloc, listed, reversed, steps)?;
    check_language(alloc, &language, direction)?;
    Ok(language)
}

// The canonical automaton of the adder's relation, over the system of a canonical language.
fn adder_of(
    alloc: Global,
    file: FileWords<'_>,
    direction: Direction,
    language: &Dfa,
    steps: &mut Steps,
) -> Result<Tracked, StepFault>
    requires canonical { IsCanonical language.now }
    requires tracks { (digits : ℕ) × (file.listed.now.sizes ≡ digits ∷ digits ∷ digits ∷ []) × (language.now.sizes ≡ digits ∷ []) }
    ensures steps { let d = language.now in DoesAdder direction file.entry.listed.now file.entry.reversed (d ∷ d ∷ d ∷ []) steps.old result steps.new }
    ensures names { IfOk result (λ adder. adder.names ≡ adder_names) }
    ensures relation { let s = system_of direction language.now in IfOk result (λ adder. IsSystem s → HoldsOf direction (three_of s) (HoldsInFile direction s file.entry.listed.now file.entry.reversed) adder.automaton) }
{
    let first = Rc::new(alloc, language.copy(alloc)?)?;
    let second = first.clone()?;
    let third = first.clone()?;
    let languages = vec![in alloc; first, second, third]?;
    adder_steps(alloc, file, direction, &languages, steps)
}

// The canonical automata of a system's words, and of the pairs of its numbers of which the second is one
// more than the first.
#[derive(Clone, Copy)]
struct Parts<'a> {
    language: &'a Dfa,
    next: &'a Dfa,
}

// The laws of an adder on the tracks x, y and z.
fn check_adder(
    alloc: Global,
    adder: &Tracked,
    parts: Parts<'_>,
    direction: Direction,
    steps: &mut Steps,
) -> Result<(), AdmitFault>
    requires names { adder.now.names ≡ adder_names }
    requires tracks { (digits : ℕ) × (adder.now.automaton.sizes ≡ digits ∷ digits ∷ digits ∷ []) × (parts.language.now.sizes ≡ digits ∷ []) }
    requires language { IsCanonical parts.language.now }
    requires next { IsCanonical parts.next.now }
    requires system { IsSystem (system_of direction parts.language.now) }
    requires successor { IsSuccessorOf direction (system_of direction parts.language.now) parts.next.now }
    ensures steps { DoesLaws direction parts.entry.language.now parts.entry.next.now adder.now steps.old result steps.new }
    ensures laws { (test : List ℕ → Bool) → HoldsOf direction (three_of (system_of direction parts.entry.language.now)) (Passes test) adder.now.automaton
        → let adds = λ (x : ℕ) (y : ℕ) (z : ℕ). IsTrue (test (x ∷ y ∷ z ∷ [])) in MatchResult result (λ _. ZeroLaw adds × SuccessorLaw adds) (IsFirstAdderFault adds) }
{
    let Parts { language, next } = parts;
    if !zero_law(alloc, adder, language, direction, steps)? {
        return Err(AdmitFault::NotAdmitted(Law::ZeroLaw));
    }
    if !next_sums(alloc, adder.dfa(), next, direction, steps)? {
        return Err(AdmitFault::NotAdmitted(Law::SuccessorLaw));
    }
    Ok(())
}

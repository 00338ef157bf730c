//! Whether the files of a user's system make a numeration system.

ghost use Rattle.std.specs.Prelude.{◌≡◌, ◌∷◌, ◌⊎◌, [], ℕ, IfOk, OnOk, MatchResult, ⊤};
ghost use Rattle.digit_tuple.specs.Letters.{IsAlphabet, IsTooLarge};
ghost use Rattle.dfa_reading.specs.Branching.{IsBranching};
ghost use Rattle.system_admission.specs.Admissions.{AdmitsFiles, AdmitsWithLanguage, DoesNumbers, IsFirstFaultIn, IsSystemIn, IsTableOf, RunsOut, StopsAtLanguage};

use adder_check::admit::{SystemFiles as FileAutomata, admit};
use adder_check::admit_fault::AdmitFault;
use adder_check::language_steps::{check_language, file_steps};
use adder_check::successor_steps::successor_steps;
use adder_check::user_system::UserSystem;
use digit_tuple::dfa::Dfa;
use digit_tuple::direction::Direction;
use digit_tuple::faults::OpFault;
use digit_tuple::nfa::Nfa;
use digit_tuple::steps::Steps;
use std::alloc::Global;
use system_files::SystemFiles;

/// The system that the files define, whose words are read in the direction, by the steps of admission as
/// the next ones: those of the language's file, its laws, those of the successor, those of the adder's
/// file, and the laws of the adder with theirs. The widths and the costs are those of the steps.
///
/// # Errors
/// `NotAdmitted` with the first law that does not hold; `Letters` and `States` exactly at the first step
/// that passes a limit, letters before states. Memory may also run out where 2^32 - 1 states are not
/// enough.
pub fn admit_files(
    alloc: Global,
    files: &SystemFiles,
    direction: Direction,
    steps: &mut Steps,
) -> Result<UserSystem, AdmitFault>
    ensures steps { AdmitsFiles direction files.now steps.old result steps.new }
    ensures defined { IfOk result (IsSystemIn direction files.now) }
    ensures fits { OnOk result (IsAlphabet (files.now.digits ∷ files.now.digits ∷ files.now.digits ∷ [])) }
    ensures refused { MatchResult result (λ _. ⊤) (IsFirstFaultIn direction files.now) }
{
    let _digits_from_zero = files.digits();
    match files.language().nfa(alloc, &[]) {
        Ok(words) => admit_language(alloc, files, &words, direction, steps),
        Err(OpFault::Letters) => Err(AdmitFault::Letters(steps.next_number())),
        Err(OpFault::States) => unreachable!(),
        Err(OpFault::Memory) => Err(AdmitFault::Memory),
    }
}

// The system that the files define, with the automaton of the language's file. Where three tracks have too
// many letters for an adder, an earlier step or law refuses it.
fn admit_language(
    alloc: Global,
    files: &SystemFiles,
    language: &Nfa,
    direction: Direction,
    steps: &mut Steps,
) -> Result<UserSystem, AdmitFault>
    requires table { IsTableOf (files.now.digits ∷ []) files.now.language language.now }
    ensures steps { RunsOut steps.old result steps.new ⊎ AdmitsWithLanguage direction files.now language.now steps.old result steps.new }
    ensures defined { IfOk result (IsSystemIn direction files.now) }
    ensures fits { OnOk result (IsAlphabet (files.now.digits ∷ files.now.digits ∷ files.now.digits ∷ [])) }
    ensures refused { MatchResult result (λ _. ⊤) (IsFirstFaultIn direction files.now) }
{
    let _digits_from_zero = files.digits();
    match files.adder().nfa(alloc, &[]) {
        Ok(sums) => {
            let automata = FileAutomata {
                language,
                adder: &sums,
                reversed: files.reversed(),
            };
            admit(alloc, automata, direction, steps)
        }
        Err(OpFault::Letters) => Err(refusal(alloc, files, language, direction, steps)),
        Err(OpFault::States) => unreachable!(),
        Err(OpFault::Memory) => Err(AdmitFault::Memory),
    }
}

// Why files are refused over whose digits three tracks have too many letters: by the successor at the latest.
fn refusal(
    alloc: Global,
    files: &SystemFiles,
    language: &Nfa,
    direction: Direction,
    steps: &mut Steps,
) -> AdmitFault
    requires words { IsBranching (files.now.digits ∷ []) files.now.language language.now }
    requires too_large { IsTooLarge (files.now.digits ∷ files.now.digits ∷ files.now.digits ∷ []) }
    ensures steps { StopsAtLanguage direction language.now files.now.reversed steps.old (Err result) steps.new }
    ensures law { IsFirstFaultIn direction files.now result }
{
    match numbers(alloc, files, language, direction, steps) {
        Ok(_) => unreachable!(),
        Err(fault) => fault,
    }
}

// The successor of the numbers of a language, by the steps and laws that come before the adder.
fn numbers(
    alloc: Global,
    files: &SystemFiles,
    language: &Nfa,
    direction: Direction,
    steps: &mut Steps,
) -> Result<Dfa, AdmitFault>
    requires words { IsBranching (files.now.digits ∷ []) files.now.language language.now }
    ensures steps { DoesNumbers direction language.now files.now.reversed steps.old result steps.new }
    ensures fits { OnOk result (IsAlphabet (files.now.digits ∷ files.now.digits ∷ files.now.digits ∷ [])) }
    ensures refused { MatchResult result (λ _. ⊤) (IsFirstFaultIn direction files.now) }
{
    let words = file_steps(alloc, language, files.reversed(), steps)?;
    check_language(alloc, &words, direction)?;
    let next = successor_steps(alloc, &words, direction, steps)?;
    Ok(next)
}

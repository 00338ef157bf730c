//! The step `read` of automatic words.

ghost use Rattle.std.specs.Prelude.{◌≡◌, ◌+◌, ◌<◌, ◌≤◌, ◌∷◌, [], ℕ, List, length, None, slice_index, slice_index_or, IfOk, OnOk};
ghost use Rattle.std.specs.List.{All};
ghost use Rattle.std.specs.Result.{IsErrOf};
ghost use Rattle.digit_tuple.specs.Deterministic.{letters_of, states_of};
ghost use Rattle.digit_tuple.specs.FirstWords.{IsNumberedByFirsts};
ghost use Rattle.digit_tuple.specs.Letters.{product, IsAlphabet, IsTooLarge};
ghost use Rattle.digit_tuple.specs.StepResults.{ExceedsWidth};
ghost use Rattle.digit_tuple.specs.Width.{HasApart, HasWidth};
ghost use Rattle.dfa_reading.specs.Branching.{AreGiven, sizes_in};
ghost use Rattle.dfa_reading.specs.WordFiles.{IsFunctional, IsWordListed};
ghost use Rattle.product_op.specs.TrackReadings.{whole_reading};
ghost use Rattle.product_op.specs.Tuples.{AreTuples, LeadToOne};
ghost use Rattle.automaton_steps.specs.Makings.{DoesStep};
ghost use Rattle.word_output.specs.LetterReadings.{ListedAlike, letter_read_step};
ghost use Rattle.word_output.specs.ListedStates.{AreListedStates, listed_letters};

use crate::letter_function::LetterFunction;
use dfa_reading::Listed;
use digit_tuple::dfa::Dfa;
use digit_tuple::exploration::Explored;
use digit_tuple::faults::{OpFault, OutOfMemory};
use digit_tuple::kind::Kind;
use digit_tuple::limit::Limit;
use digit_tuple::numbering::Numbering;
use digit_tuple::step_fault::StepFault;
use digit_tuple::stepped::Stepped;
use digit_tuple::steps::Steps;
use product_op::argument_readers::whole_reader;
use product_op::tuples::explore_tuples;
use std::alloc::Global;

/// The function that gives words the letters that a word's file lists, by the step `read` as the next one. `digits`
/// gives how many digits each system of the header has. The width is the number of listed states that words lead to,
/// and one more where some word leads to none. Words that lead to a state with output `-`, or to none, have no letter. Time and memory follow the transitions of the listed table.
///
/// # Errors
/// `Letters` if and only if there are too many tracks or letters, looked at first; `States` if and only if the width
/// passes the limit. The steps are as before then, also if memory runs out.
pub fn read_letters(
    alloc: Global,
    listed: &Listed,
    digits: &[u32],
    steps: &mut Steps,
) -> Result<LetterFunction, StepFault>
    requires states { 0 < length listed.now.outputs }
    requires word { IsWordListed listed.now }
    requires given { AreGiven listed.now.header digits.now }
    ensures { DoesStep (letter_read_step (sizes_in listed.now.header digits.now) listed.now) steps.old result steps.new }
{
    match listed_states(alloc, listed, digits, steps.begin(Kind::Read)) {
        Ok(Stepped { result, width }) => {
            let Explored { dfa, keys } = result;
            let letters = listed_letters(alloc, &keys, listed.outputs())?;
            let read = LetterFunction::of_states(alloc, &dfa, &letters)?;
            steps.done(Kind::Read, width, read.dfa().states())?;
            Ok(read)
        }
        Err(OpFault::Letters) => Err(StepFault::Letters(steps.next_number())),
        Err(OpFault::States) => Err(StepFault::States(steps.next_number())),
        Err(OpFault::Memory) => Err(StepFault::Memory),
    }
}

// The automaton whose states are the listed ones that words lead to.
fn listed_states(
    alloc: Global,
    listed: &Listed,
    digits: &[u32],
    limit: Limit<'_>,
) -> Result<Stepped<Explored>, OpFault>
    requires states { 0 < length listed.now.outputs }
    requires given { AreGiven listed.now.header digits.now }
    requires functional { IsFunctional (sizes_in listed.now.header digits.now) listed.now }
    ensures alphabet { OnOk result (IsAlphabet (sizes_in listed.now.header digits.now)) }
    ensures states { IfOk result (λ stepped. AreListedStates (sizes_in listed.now.header digits.now) listed.now stepped.result.keys stepped.result.dfa) }
    ensures numbered { IfOk result (λ stepped. (firsts : List (List ℕ)) × IsNumberedByFirsts stepped.result.dfa firsts) }
    ensures width { IfOk result (λ stepped. HasWidth (ListedAlike (sizes_in listed.now.header digits.now) listed.now) (product (sizes_in listed.now.header digits.now)) stepped.width) }
    ensures size { IfOk result (λ stepped. states_of stepped.result.dfa ≤ stepped.width) }
    ensures within { IfOk result (λ stepped. stepped.width ≤ limit.entry.most) }
    ensures exceeds { IsErrOf result OpFault.States → ExceedsWidth limit.entry.most (letter_read_step (sizes_in listed.now.header digits.now) listed.now).step }
    ensures too_large { IsErrOf result OpFault.Letters → IsTooLarge (sizes_in listed.now.header digits.now) }
{
    let table = listed.table(alloc, digits)?;
    table_states(alloc, &table, limit)
}

// The automaton whose states are those of a table that words lead to.
fn table_states(alloc: Global, table: &Dfa, limit: Limit<'_>) -> Result<Stepped<Explored>, OpFault>
    ensures sizes { IfOk result (λ stepped. stepped.result.dfa.sizes ≡ table.now.sizes) }
    ensures tuples { IfOk result (λ stepped. AreTuples (letters_of table.now) (whole_reading table.now ∷ []) stepped.result.keys stepped.result.dfa) }
    ensures numbered { IfOk result (λ stepped. (firsts : List (List ℕ)) × IsNumberedByFirsts stepped.result.dfa firsts) }
    ensures width { IfOk result (λ stepped. HasWidth (LeadToOne (whole_reading table.now ∷ [])) (letters_of table.now) stepped.width) }
    ensures size { IfOk result (λ stepped. states_of stepped.result.dfa ≤ stepped.width) }
    ensures within { IfOk result (λ stepped. stepped.width ≤ limit.entry.most) }
    ensures states { IsErrOf result OpFault.States → HasApart (LeadToOne (whole_reading table.now ∷ [])) (letters_of table.now) (limit.entry.most + 1) }
    ensures no_letters { ¬ IsErrOf result OpFault.Letters }
{
    let alphabet = table.alphabet().copy(alloc)?;
    let mut readers = Vec::new(alloc);
    readers.push(whole_reader(alloc, table)?)?;
    explore_tuples(alloc, alphabet, &readers, limit)
}

// The letter of each key: the output of its listed state.
fn listed_letters(
    alloc: Global,
    keys: &Numbering,
    outputs: &[Option<i32>],
) -> Result<Vec<Option<i32>>, OutOfMemory>
    requires { All (λ key. 0 < length key) keys.now }
    ensures { IfOk result (λ letters. letters.items ≡ listed_letters outputs.now keys.now) }
{
    let mut letters = Vec::with_capacity(alloc, keys.len())?;
    for number in 0..keys.len() {
        letters.push(listed_letter(outputs, keys.key(number)))?;
    }
    Ok(letters)
}

// The output of the listed state of a key, if there is such a state and it has a letter.
fn listed_letter(outputs: &[Option<i32>], key: &[u32]) -> Option<i32>
    requires { 0 < length key.now }
    ensures { result ≡ slice_index_or outputs.now (slice_index key.now 0) None }
{
    match outputs.get(key[0] as usize) {
        Some(output) => *output,
        None => None,
    }
}

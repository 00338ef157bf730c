//! Letters of words without their leading zeros.

ghost use Rattle.std.specs.Prelude.{◌≡◌, ◌+◌, ◌<◌, ◌≤◌, ◌++◌, [], false, filter, IfOk, OnOk};
ghost use Rattle.std.specs.Result.{IsErrOf};
ghost use Rattle.digit_tuple.specs.Deterministic.{IsTable, transitions_of, letters_of, states_of};
ghost use Rattle.digit_tuple.specs.Width.{HasApart, HasWidth};
ghost use Rattle.digit_tuple.specs.declared.direction.Direction.TheVariants.{Msd};
ghost use Rattle.word_output.specs.LetterPaddings.{IsLetterPadding, PaddedLettersAlike};
ghost use Rattle.word_output.specs.PastZeros.{IsPast, transition_by_zero, transitions_from, is_by_other, past_after, past_after_is_past, past_transitions};

use crate::head_letters::head_letters;
use crate::letter_function::LetterFunction;
use digit_tuple::dfa::Dfa;
use digit_tuple::exploration::{Explored, explore_keys};
use digit_tuple::faults::{OpFault, OutOfMemory};
use digit_tuple::key_graph::KeyGraph;
use digit_tuple::key_transitions::KeyTransitions;
use digit_tuple::limit::Limit;
use digit_tuple::stepped::Stepped;
use digit_tuple::transitions::Transition;
use std::alloc::Global;

/// What words lead to without their leading zeros: no state while there are zeros alone, then a state.
/// Words that lead to no state then lead to no key.
#[derive(Clone, Copy)]
struct PastZeros<'a> {
    dfa: &'a Dfa,
    letters: u32,
}

impl KeyGraph for PastZeros<'_> {
    ghost letters = { λ s. s.letters };

    ghost is_graph = { λ s. IsTable (letters_of s.dfa.now) s.dfa.now.states × (s.letters ≡ letters_of s.dfa.now) };

    ghost is_key = { λ s. IsPast s.dfa.now };

    ghost start = { λ s. [] };

    ghost after = { λ s. past_after s.dfa.now };

    ghost accepts = { λ s key. false };

    ghost start_is_key = { λ s graph. tt };

    ghost after_is_key = { λ s key letter graph is_past small. past_after_is_past s.dfa.now graph.0 key letter };

    fn first_key(&self, alloc: Global) -> Result<Vec<u32>, OutOfMemory> {
        Ok(Vec::new(alloc))
    }

    fn transitions(
        &self,
        alloc: Global,
        key: &[u32],
        out: &mut KeyTransitions,
    ) -> Result<(), OutOfMemory> {
        let mut row = Vec::new(alloc);
        match key {
            [] => {
                push_zero(self.letters, out)?;
                self.dfa.transitions_into(0, &mut row)?;
                push_others(&row, out)
            }
            [state, ..] => {
                self.dfa.transitions_into(*state, &mut row)?;
                push_all(&row, out)
            }
        }
    }

    fn is_accepting(&self, _key: &[u32]) -> bool {
        false
    }
}

// Adds the transition by a zero after zeros, if there are letters.
fn push_zero(letters: u32, out: &mut KeyTransitions) -> Result<(), OutOfMemory>
    ensures { OnOk result (out.new ≡ out.old ++ transition_by_zero letters) }
{
    if letters > 0 {
        out.push(0, &[])?;
    }
    Ok(())
}

// Adds the transitions by other letters than zero.
fn push_others(row: &[Transition], out: &mut KeyTransitions) -> Result<(), OutOfMemory>
    ensures { OnOk result (out.new ≡ out.old ++ transitions_from (filter is_by_other row.now)) }
{
    for transition in row {
        if transition.letter != 0 {
            out.push(transition.letter, &[transition.target])?;
        }
    }
    Ok(())
}

// Adds all transitions.
fn push_all(row: &[Transition], out: &mut KeyTransitions) -> Result<(), OutOfMemory>
    ensures { OnOk result (out.new ≡ out.old ++ transitions_from row.now) }
{
    for transition in row {
        out.push(transition.letter, &[transition.target])?;
    }
    Ok(())
}

/// The letters of words without their leading zeros. `pad_letters` says more.
pub(crate) fn pad_msd(
    alloc: Global,
    function: &LetterFunction,
    limit: Limit<'_>,
) -> Result<Stepped<LetterFunction>, OpFault>
    ensures padding { IfOk result (λ stepped. IsLetterPadding Msd function.now stepped.result) }
    ensures width { IfOk result (λ stepped. HasWidth (PaddedLettersAlike Msd function.now) (letters_of function.now.automaton) stepped.width) }
    ensures size { IfOk result (λ stepped. states_of stepped.result.automaton ≤ stepped.width) }
    ensures within { IfOk result (λ stepped. stepped.width ≤ limit.entry.most) }
    ensures states { IsErrOf result OpFault.States → HasApart (PaddedLettersAlike Msd function.now) (letters_of function.now.automaton) (limit.entry.most + 1) }
{
    let dfa = function.dfa();
    let alphabet = dfa.alphabet().copy(alloc)?;
    let graph = PastZeros {
        dfa,
        letters: alphabet.letters(),
    };
    let Stepped { result, width } = explore_keys(alloc, &graph, alphabet, limit)?;
    let Explored { dfa, keys } = result;
    let letters = head_letters(alloc, function, &keys)?;
    let result = LetterFunction::of_states(alloc, &dfa, &letters)?;
    Ok(Stepped { result, width })
}

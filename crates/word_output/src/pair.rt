//! Two words whose letters are compared.

ghost use Rattle.std.specs.Prelude.{◌≡◌, ◌<◌, ◌≤◌, ◌⊎◌, ◌++◌, length, map, IfOk, OnOk, slice_index_or};
ghost use Rattle.std.specs.List.{All, Contains};
ghost use Rattle.std.specs.Result.{IsErrOf};
ghost use Rattle.digit_tuple.specs.Deterministic.{states_of};
ghost use Rattle.digit_tuple.specs.Letters.{product, IsAlphabet, IsTooLarge};
ghost use Rattle.digit_tuple.specs.Names.{place_of};
ghost use Rattle.digit_tuple.specs.StepResults.{ExceedsWidth};
ghost use Rattle.digit_tuple.specs.Width.{HasWidth};
ghost use Rattle.automaton_steps.specs.Makings.{DoesStep};
ghost use Rattle.word_output.specs.WordPairs.{IsPair, MayPair, PairAlike, pair_sizes, pair_step as the_step};

use crate::letter_function::LetterFunction;
use crate::letter_pairs::compared;
pub use crate::placed_letters::Placed;
use crate::placed_letters::letters_on;
use digit_tuple::alphabet::Alphabet;
use digit_tuple::faults::{OpFault, OutOfMemory};
use digit_tuple::kind::Kind;
use digit_tuple::limit::Limit;
use digit_tuple::name::Name;
use digit_tuple::names::{find_name, joint_names};
use digit_tuple::step_fault::StepFault;
use digit_tuple::stepped::Stepped;
use digit_tuple::steps::Steps;
use minimise::tracked::Tracked;
use num_system::comparison::Comparison;
use std::alloc::Global;

/// The words over the tracks of both in which two letters are read that compare so, by the step `product` as the next
/// one. Tracks of one name, of one function too, are one track, and have one number of digits; they become one before
/// the step. The result is canonical, and its tracks are in byte order of their names. The width is that of pairs of
/// what follows a word in the one and in the other. Time and memory follow the letters and the pairs.
///
/// # Errors
/// `Letters` if and only if there are too many tracks or letters, looked at first; `States` if and only if the width
/// passes the limit. The steps are as before then, also if memory runs out.
pub fn pair_step(
    alloc: Global,
    first: Placed<'_>,
    comparison: Comparison,
    second: Placed<'_>,
    steps: &mut Steps,
) -> Result<Tracked, StepFault>
    requires { MayPair (record { function = first.function.now; under = first.under.now }) (record { function = second.function.now; under = second.under.now }) }
    ensures { DoesStep (the_step comparison (record { function = first.entry.function.now; under = first.entry.under.now }) (record { function = second.entry.function.now; under = second.entry.under.now })) steps.old result steps.new }
{
    match paired(alloc, first, comparison, second, steps.begin(Kind::Product)) {
        Ok(Stepped { result, width }) => {
            steps.done(Kind::Product, width, result.dfa().states())?;
            Ok(result)
        }
        Err(OpFault::Letters) => Err(StepFault::Letters(steps.next_number())),
        Err(OpFault::States) => Err(StepFault::States(steps.next_number())),
        Err(OpFault::Memory) => Err(StepFault::Memory),
    }
}

// The automaton of the step, with its width.
fn paired(
    alloc: Global,
    first: Placed<'_>,
    comparison: Comparison,
    second: Placed<'_>,
    limit: Limit<'_>,
) -> Result<Stepped<Tracked>, OpFault>
    requires { MayPair (record { function = first.function.now; under = first.under.now }) (record { function = second.function.now; under = second.under.now }) }
    ensures pair { IfOk result (λ stepped. IsPair comparison (record { function = first.entry.function.now; under = first.entry.under.now }) (record { function = second.entry.function.now; under = second.entry.under.now }) stepped.result) }
    ensures alphabet { OnOk result (IsAlphabet (pair_sizes (record { function = first.entry.function.now; under = first.entry.under.now }) (record { function = second.entry.function.now; under = second.entry.under.now }))) }
    ensures width { IfOk result (λ stepped. HasWidth (PairAlike (record { function = first.entry.function.now; under = first.entry.under.now }) (record { function = second.entry.function.now; under = second.entry.under.now })) (product (pair_sizes (record { function = first.entry.function.now; under = first.entry.under.now }) (record { function = second.entry.function.now; under = second.entry.under.now }))) stepped.width) }
    ensures size { IfOk result (λ stepped. states_of stepped.result.automaton ≤ stepped.width) }
    ensures within { IfOk result (λ stepped. stepped.width ≤ limit.entry.most) }
    ensures letters { IsErrOf result OpFault.Letters → IsTooLarge (pair_sizes (record { function = first.entry.function.now; under = first.entry.under.now }) (record { function = second.entry.function.now; under = second.entry.under.now })) }
    ensures states { IsErrOf result OpFault.States → ExceedsWidth limit.entry.most (the_step comparison (record { function = first.entry.function.now; under = first.entry.under.now }) (record { function = second.entry.function.now; under = second.entry.under.now })).step }
{
    let names = joint_names(alloc, first.under, second.under)?;
    let sizes = joint_sizes(alloc, first, second, &names)?;
    let tracks = Alphabet::new(alloc, &sizes)?;
    let one = letters_on(alloc, first, &names, &tracks)?;
    let other = letters_on(alloc, second, &names, &tracks)?;
    let Stepped { result, width } = compared(alloc, &one, comparison, &other, limit)?;
    Ok(Stepped {
        result: Tracked::of_canonical(result, names),
        width,
    })
}

// The number of digits of the first track of each name.
fn joint_sizes(
    alloc: Global,
    first: Placed<'_>,
    second: Placed<'_>,
    names: &[Name],
) -> Result<Vec<u32>, OutOfMemory>
    requires first { length first.under.now ≡ length first.function.now.automaton.sizes }
    requires second { length second.under.now ≡ length second.function.now.automaton.sizes }
    requires there { All (λ name. Contains first.under.now name ⊎ Contains second.under.now name) names.now }
    ensures { IfOk result (λ sizes. sizes.items ≡ map (λ name. slice_index_or (first.entry.function.now.automaton.sizes ++ second.entry.function.now.automaton.sizes) (place_of (first.entry.under.now ++ second.entry.under.now) name) 0) names.now) }
{
    let mut sizes = Vec::with_capacity(alloc, names.len())?;
    for name in names {
        sizes.push(joint_size(first, second, name))?;
    }
    Ok(sizes)
}

// The number of digits of the first track of the name.
fn joint_size(first: Placed<'_>, second: Placed<'_>, name: &Name) -> u32
    requires first { length first.under.now ≡ length first.function.now.automaton.sizes }
    requires second { length second.under.now ≡ length second.function.now.automaton.sizes }
    requires there { Contains first.under.now name.now ⊎ Contains second.under.now name.now }
    ensures { result ≡ slice_index_or (first.entry.function.now.automaton.sizes ++ second.entry.function.now.automaton.sizes) (place_of (first.entry.under.now ++ second.entry.under.now) name.now) 0 }
{
    match find_name(first.under, name) {
        Some(place) => size_at(first.function, place),
        None => match find_name(second.under, name) {
            Some(place) => size_at(second.function, place),
            None => unreachable!(),
        },
    }
}

// The number of digits of the track at a position.
fn size_at(function: &LetterFunction, place: usize) -> u32
    requires { place < length function.now.automaton.sizes }
    ensures { result ≡ slice_index_or function.now.automaton.sizes place 0 }
{
    function.dfa().alphabet().sizes()[place]
}

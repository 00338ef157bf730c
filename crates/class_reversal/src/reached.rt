//! The reversal of a function whose states words lead to.

ghost use Rattle.std.specs.Prelude.{◌≡◌, ◌+◌, ◌≤◌, ℕ, true, false, List, length, map, IfOk};
ghost use Rattle.std.specs.Result.{IsErrOf};
ghost use Rattle.digit_tuple.specs.Deterministic.{letters_of, states_of};
ghost use Rattle.digit_tuple.specs.FirstWords.{IsNumberedByFirsts};
ghost use Rattle.digit_tuple.specs.Width.{HasApart, HasWidth};
ghost use Rattle.minimise.specs.Canonical.{IsCanonicalWithClasses};
ghost use Rattle.class_reversal.specs.BackwardClasses.{first_class, has_some_class};
ghost use Rattle.class_reversal.specs.ReversedClasses.{GivesReversedClasses, SameReversedClassAfter};

use crate::backward_classes::{BackwardClasses, class_at};
use crate::targets::targets;
use digit_tuple::alphabet::Alphabet;
use digit_tuple::dfa::Dfa;
use digit_tuple::exploration::{Explored, explore_keys};
use digit_tuple::faults::{OpFault, OutOfMemory};
use digit_tuple::limit::Limit;
use digit_tuple::no_words::no_words_within;
use digit_tuple::numbering::Numbering;
use digit_tuple::stepped::Stepped;
use std::alloc::Global;

/// What `reverse_classes` gives, of an automaton to each of whose states some word leads. It takes no minimisation: the
/// keys of the exploration, each the classes that a word has from all states, are the residuals of the result (Janusz
/// Brzozowski, "Canonical regular expressions and minimal state graphs for definite events"). Time and memory are those
/// of as many numbers as the automaton has states, for each letter of each state of the result.
pub fn reverse_reached(
    alloc: Global,
    d: &Dfa,
    classes: &[u32],
    limit: Limit<'_>,
) -> Result<Stepped<(Dfa, Vec<u32>)>, OpFault>
    requires count { length classes.now ≡ states_of d.now }
    requires reached { (firsts : List (List ℕ)) × IsNumberedByFirsts d.now firsts }
    ensures sizes { IfOk result (λ stepped. stepped.result.0.sizes ≡ d.now.sizes) }
    ensures canonical { IfOk result (λ stepped. IsCanonicalWithClasses stepped.result.0 stepped.result.1.items) }
    ensures function { IfOk result (λ stepped. GivesReversedClasses d.now classes.now stepped.result.0 stepped.result.1.items) }
    ensures width { IfOk result (λ stepped. HasWidth (SameReversedClassAfter d.now classes.now) (letters_of d.now) stepped.width) }
    ensures size { IfOk result (λ stepped. states_of stepped.result.0 ≤ stepped.width) }
    ensures within { IfOk result (λ stepped. stepped.width ≤ limit.entry.most) }
    ensures states { IsErrOf result OpFault.States → HasApart (SameReversedClassAfter d.now classes.now) (letters_of d.now) (limit.entry.most + 1) }
    ensures letters { ¬ IsErrOf result OpFault.Letters }
{
    let alphabet = d.alphabet().copy(alloc)?;
    if has_some_class(classes) {
        explore_backwards(alloc, d, classes, alphabet, limit)
    } else {
        no_classes(alloc, d, classes, alphabet, limit)
    }
}

// Whether a class is not 0.
fn has_some_class(classes: &[u32]) -> bool
    ensures { result ≡ has_some_class classes.now }
{
    classes.iter().any(|class| *class != 0)
}

// What no word has a class in: no word has one when reversed.
fn no_classes(
    alloc: Global,
    d: &Dfa,
    classes: &[u32],
    alphabet: Alphabet,
    limit: Limit<'_>,
) -> Result<Stepped<(Dfa, Vec<u32>)>, OpFault>
    requires alphabet { alphabet ≡ d.now.sizes }
    requires count { length classes.now ≡ states_of d.now }
    requires none { has_some_class classes.now ≡ false }
    ensures sizes { IfOk result (λ stepped. stepped.result.0.sizes ≡ d.now.sizes) }
    ensures canonical { IfOk result (λ stepped. IsCanonicalWithClasses stepped.result.0 stepped.result.1.items) }
    ensures function { IfOk result (λ stepped. GivesReversedClasses d.now classes.now stepped.result.0 stepped.result.1.items) }
    ensures width { IfOk result (λ stepped. HasWidth (SameReversedClassAfter d.now classes.now) (letters_of d.now) stepped.width) }
    ensures size { IfOk result (λ stepped. states_of stepped.result.0 ≤ stepped.width) }
    ensures within { IfOk result (λ stepped. stepped.width ≤ limit.entry.most) }
    ensures states { IsErrOf result OpFault.States → HasApart (SameReversedClassAfter d.now classes.now) (letters_of d.now) (limit.entry.most + 1) }
    ensures letters { ¬ IsErrOf result OpFault.Letters }
{
    let Stepped { result, width } = no_words_within(alloc, alphabet, limit)?;
    let classes = vec![in alloc; 0]?;
    Ok(Stepped {
        result: (result, classes),
        width,
    })
}

// The exploration of the classes that words have from each state.
fn explore_backwards(
    alloc: Global,
    d: &Dfa,
    classes: &[u32],
    alphabet: Alphabet,
    limit: Limit<'_>,
) -> Result<Stepped<(Dfa, Vec<u32>)>, OpFault>
    requires alphabet { alphabet ≡ d.now.sizes }
    requires count { length classes.now ≡ states_of d.now }
    requires some { has_some_class classes.now ≡ true }
    requires reached { (firsts : List (List ℕ)) × IsNumberedByFirsts d.now firsts }
    ensures sizes { IfOk result (λ stepped. stepped.result.0.sizes ≡ d.now.sizes) }
    ensures canonical { IfOk result (λ stepped. IsCanonicalWithClasses stepped.result.0 stepped.result.1.items) }
    ensures function { IfOk result (λ stepped. GivesReversedClasses d.now classes.now stepped.result.0 stepped.result.1.items) }
    ensures width { IfOk result (λ stepped. HasWidth (SameReversedClassAfter d.now classes.now) (letters_of d.now) stepped.width) }
    ensures size { IfOk result (λ stepped. states_of stepped.result.0 ≤ stepped.width) }
    ensures within { IfOk result (λ stepped. stepped.width ≤ limit.entry.most) }
    ensures states { IsErrOf result OpFault.States → HasApart (SameReversedClassAfter d.now classes.now) (letters_of d.now) (limit.entry.most + 1) }
    ensures letters { ¬ IsErrOf result OpFault.Letters }
{
    let targets = targets(alloc, d)?;
    let graph = BackwardClasses {
        dfa: d,
        classes,
        targets: &targets,
    };
    let Stepped { result, width } = explore_keys(alloc, &graph, alphabet, limit)?;
    let Explored { dfa, keys } = result;
    let classes = first_classes(alloc, &keys)?;
    Ok(Stepped {
        result: (dfa, classes),
        width,
    })
}

// The class that each key gives to the initial state.
fn first_classes(alloc: Global, keys: &Numbering) -> Result<Vec<u32>, OutOfMemory>
    ensures { IfOk result (λ classes. classes.items ≡ map first_class keys.now) }
{
    let mut classes = Vec::with_capacity(alloc, keys.len())?;
    for number in 0..keys.len() {
        classes.push(class_at(keys.key(number), 0))?;
    }
    Ok(classes)
}

//! The text of a deterministic automaton that accepts words.

ghost use Rattle.std.specs.Prelude.{◌≡◌, ◌≤◌, ◌↔◌, length, IfOk, IsSome, IfSome};
ghost use Rattle.digit_tuple.specs.Sets.{sizes_of};
ghost use Rattle.digit_tuple.specs.Headers.{sets_of};
ghost use Rattle.dfa_text.specs.RelationText.{output_listed, outputs_of, relation_text};

use crate::word_text::{print_word, print_word_within};
use digit_tuple::dfa::Dfa;
use digit_tuple::faults::OutOfMemory;
use digit_tuple::header::Header;
use std::alloc::Global;

/// The text of an automaton whose tracks are those of the header, as `print_word` gives it with the output 1 for each accepting
/// state and 0 for each other. Out of memory gives no text.
#[tactic(auto, unfolding(crate::specs::RelationText::relation_text))]
pub fn print_relation(alloc: Global, header: &Header, d: &Dfa) -> Result<Vec<u8>, OutOfMemory>
    requires { d.now.sizes ≡ sizes_of (sets_of header.now) }
    ensures { IfOk result (λ text. text.items ≡ relation_text header.now d.now) }
{
    let outputs = outputs(alloc, d)?;
    print_word(alloc, header, d, &outputs)
}

/// The text of an automaton as `print_relation` gives it, or None where it has more than `most` bytes. Of a text that is longer
/// no more is made than `print_word_within` makes. Out of memory gives no answer.
#[tactic(auto, unfolding(crate::specs::RelationText::relation_text))]
pub fn print_within(
    alloc: Global,
    header: &Header,
    d: &Dfa,
    most: usize,
) -> Result<Option<Vec<u8>>, OutOfMemory>
    requires { d.now.sizes ≡ sizes_of (sets_of header.now) }
    ensures text { IfOk result (λ text. IfSome text (λ printed. printed.items ≡ relation_text header.now d.now)) }
    ensures within { IfOk result (λ text. IsSome text ↔ (length (relation_text header.now d.now) ≤ most)) }
{
    let outputs = outputs(alloc, d)?;
    print_word_within(alloc, header, d, &outputs, most)
}

// 1 for each accepting state, and 0 for each other.
fn outputs(alloc: Global, d: &Dfa) -> Result<Vec<Option<i32>>, OutOfMemory>
    ensures { IfOk result (λ outputs. outputs.items ≡ outputs_of d.now) }
{
    let mut outputs = Vec::with_capacity(alloc, d.states() as usize)?;
    for state in 0..d.states() {
        outputs.push(output(d.accepting(state)))?;
    }
    Ok(outputs)
}

fn output(accepting: bool) -> Option<i32>
    ensures { result ≡ output_listed accepting }
{
    if accepting { Some(1) } else { Some(0) }
}

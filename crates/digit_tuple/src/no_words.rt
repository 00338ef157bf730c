//! The automaton of no words.

ghost use Rattle.std.specs.Prelude.{◌≡◌, ◌≤◌, ◌↔◌, IfOk};
ghost use Rattle.std.specs.Result.{IsErrOf};
ghost use Rattle.digit_tuple.specs.NoWords.{bare_automaton};

use crate::alphabet::Alphabet;
use crate::dfa::Dfa;
use crate::dfa_builder::DfaBuilder;
use crate::faults::{OpFault, OutOfMemory};
use crate::limit::Limit;
use crate::stepped::Stepped;
use std::alloc::Global;

/// The automaton of one state that accepts no word.
pub fn no_words(alloc: Global, alphabet: Alphabet) -> Result<Dfa, OutOfMemory>
    ensures { IfOk result (λ dfa. dfa ≡ bare_automaton alphabet) }
{
    let mut builder = DfaBuilder::new(alloc, alphabet)?;
    builder.add_state(false)?;
    builder.finish()
}

/// The automaton of one state that accepts no word. The width is 1: all words are alike. `States` comes if and only if
/// the limit is 0, and `Letters` never.
pub fn no_words_within(
    alloc: Global,
    alphabet: Alphabet,
    limit: Limit<'_>,
) -> Result<Stepped<Dfa>, OpFault>
    ensures no_words { IfOk result (λ stepped. stepped.result ≡ bare_automaton alphabet) }
    ensures width { IfOk result (λ stepped. stepped.width ≡ 1) }
    ensures within { IfOk result (λ stepped. 1 ≤ limit.entry.most) }
    ensures states { IsErrOf result OpFault.States ↔ (limit.entry.most ≡ 0) }
    ensures letters { ¬ IsErrOf result OpFault.Letters }
{
    if limit.most == 0 {
        return Err(OpFault::States);
    }
    Ok(Stepped {
        result: no_words(alloc, alphabet)?,
        width: 1,
    })
}

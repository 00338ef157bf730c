//! Automata whose tracks are named by their numbers.

ghost use Rattle.std.specs.Prelude.{◌≡◌, IfOk};
ghost use Rattle.minimise.specs.Canonical.{IsCanonical};
ghost use Rattle.automaton_steps.specs.Numbered.{track_numbers, numbered as numbered_of};

use digit_tuple::dfa::Dfa;
use digit_tuple::faults::OutOfMemory;
use digit_tuple::name::Name;
use itoa::Buffer;
use minimise::tracked::Tracked;
use std::alloc::Global;

/// A canonical automaton, its tracks under their numbers, counted from 0.
pub fn numbered(alloc: Global, dfa: Dfa) -> Result<Tracked, OutOfMemory>
    requires { IsCanonical dfa }
    ensures { IfOk result (λ tracked. tracked ≡ numbered_of dfa) }
{
    let names = track_numbers(alloc, dfa.alphabet().tracks())?;
    Ok(Tracked::of_canonical(dfa, names))
}

// The numbers below a count, as names.
fn track_numbers(alloc: Global, count: u32) -> Result<Vec<Name>, OutOfMemory>
    ensures { IfOk result (λ names. names.items ≡ track_numbers count) }
{
    let mut names = Vec::new(alloc);
    for number in 0..count {
        names.push(Name::new(alloc, Buffer::new().format(number))?)?;
    }
    Ok(names)
}

//! Automata that are closed under leading zeros already.

ghost use Rattle.std.specs.Prelude.{◌≡◌, ℕ, ◌+◌, ◌≤◌, ◌<◌, ◌↔◌, ◌==◌, ◌&&◌, not, true, List, IfOk, IsTrue};
ghost use Rattle.std.specs.List.{list_any};
ghost use Rattle.std.specs.Result.{IsErrOf};
ghost use Rattle.digit_tuple.specs.Deterministic.{accepts_of, letters_of, states_of};
ghost use Rattle.digit_tuple.specs.Letters.{IsWord};
ghost use Rattle.digit_tuple.specs.Width.{HasApart, HasWidth};
ghost use Rattle.digit_tuple.specs.declared.direction.Direction.TheVariants.{Msd};
ghost use Rattle.minimise.specs.Canonical.{IsCanonical};
ghost use Rattle.pad_rename.specs.Padding.{IsPadded, PaddedAlike};
ghost use Rattle.pad_rename.specs.ZerosStay.{AreEnds, ZerosStay};

use digit_tuple::dfa::Dfa;
use digit_tuple::faults::{OpFault, OutOfMemory};
use digit_tuple::limit::Limit;
use digit_tuple::stepped::Stepped;
use digit_tuple::transitions::Transition;
use std::alloc::Global;

/// Whether zeros stay at the initial state.
pub fn zeros_stay(a: &Dfa) -> bool
    ensures { IsTrue result ↔ ZerosStay a.now }
{
    // The call reports that there is an initial state.
    let _states = a.states();
    matches!(a.step(0, 0), Some(0))
}

/// The closure of a canonical automaton under leading zeros, where zeros stay at its initial state: the automaton
/// itself, of which each transition is looked at once. `pad` says more.
pub fn pad_itself(alloc: Global, a: &Dfa, limit: Limit<'_>) -> Result<Stepped<Dfa>, OpFault>
    requires canonical { IsCanonical a.now }
    requires stay { ZerosStay a.now }
    ensures sizes { IfOk result (λ stepped. stepped.result.sizes ≡ a.now.sizes) }
    ensures canonical { IfOk result (λ stepped. IsCanonical stepped.result) }
    ensures language { IfOk result (λ stepped. (w : List ℕ) → IsWord (letters_of a.now) w
        → IsTrue (accepts_of stepped.result w) ↔ IsPadded Msd a.now w) }
    ensures width { IfOk result (λ stepped. HasWidth (PaddedAlike Msd a.now) (letters_of a.now) stepped.width) }
    ensures size { IfOk result (λ stepped. states_of stepped.result ≤ stepped.width) }
    ensures within { IfOk result (λ stepped. stepped.width ≤ limit.entry.most) }
    ensures states { IsErrOf result OpFault.States → HasApart (PaddedAlike Msd a.now) (letters_of a.now) (limit.entry.most + 1) }
    ensures no_letters { ¬ IsErrOf result OpFault.Letters }
{
    let Ends { returns, gap } = find_ends(alloc, a)?;
    // Words of zeros alone are one kind, the others have one for each state that they lead to, and one
    // where they lead nowhere.
    let width = u64::from(a.states()) + u64::from(returns) + u64::from(gap);
    if width > u64::from(limit.most) {
        return Err(OpFault::States);
    }
    let result = a.copy(alloc)?;
    Ok(Stepped {
        result,
        width: width as u32,
    })
}

// Whether another word than zeros leads back to the initial state, and whether some word leads nowhere.
#[derive(Clone, Copy)]
struct Ends {
    returns: bool,
    gap: bool,
}

// What is found in the transitions of the states.
fn find_ends(alloc: Global, a: &Dfa) -> Result<Ends, OutOfMemory>
    ensures { IfOk result (λ ends. AreEnds a.now (states_of a.now) ends.returns ends.gap) }
{
    let letters = a.alphabet().letters() as usize;
    let mut row = Vec::new(alloc);
    let mut returns = false;
    let mut gap = false;
    for state in 0..a.states() {
        a.transitions_into(state, &mut row)?;
        if has_return(&row, state) {
            returns = true;
        }
        if row.len() < letters {
            gap = true;
        }
    }
    Ok(Ends { returns, gap })
}

// Whether one of the transitions of a state leads to the initial one, other than the zero letter's from there.
fn has_return(row: &[Transition], state: u32) -> bool
    ensures { result ≡ list_any (λ transition. (transition.target == 0) && not ((state == 0) && (transition.letter == 0))) row.now }
{
    row.iter().any(|transition| transition.target == 0 && !(state == 0 && transition.letter == 0))
}

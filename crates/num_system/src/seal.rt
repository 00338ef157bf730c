//! How a system is sealed.

ghost use Rattle.std.specs.Prelude.{◌≡◌, ◌∷◌, [], IfOk};
ghost use Rattle.std.specs.Result.{IsErrOf};
ghost use Rattle.digit_tuple.specs.Letters.{IsAlphabet};
ghost use Rattle.minimise.specs.Canonical.{IsCanonical};
ghost use Rattle.numeration.specs.Relations.{IsAdderOf};
ghost use Rattle.num_system.specs.Sealed.{SystemValue, AreRelationsOf, sealed_of, system_of};
ghost use Rattle.num_system.specs.Sealing.{IsMinimalLanguage, IsSealedWithin, ExceedsByLetters, ExceedsByStates};

use crate::relations::{Relations, relations_of, relations_without_limit};
use crate::system::System;
use digit_tuple::dfa::Dfa;
use digit_tuple::faults::{OpFault, OutOfMemory};
use digit_tuple::limit::Limit;
use minimise::canonical::canonical;
use numeration::num_system::NumSystem;
use std::alloc::Global;
use std::rc::Rc;

/// Seals a system: its automata are made once, in canonical form.
///
/// The steps that count are that of the order and then the three of the successor, on the canonical
/// automata of the language and of the order. The first of them that has too many letters gives
/// `Letters`, and the first whose width passes the limit `States`; of one step the letters are looked at
/// first. Memory may also run out where 2^32 - 1 states are not enough.
pub fn seal<N: NumSystem>(alloc: Global, system: &N, limit: Limit<'_>) -> Result<System, OpFault>
    ensures system { IfOk result (λ sealed. system_of sealed ≡ N.system system.now) }
    ensures direction { IfOk result (λ sealed. sealed.direction ≡ N.first_digit system.now) }
    ensures within { IfOk result (λ sealed. IsSealedWithin sealed.direction sealed.language sealed.less limit.entry.most) }
    ensures letters { IsErrOf result OpFault.Letters → ExceedsByLetters (N.first_digit system.now) (N.system system.now) limit.entry.most }
    ensures states { IsErrOf result OpFault.States → ExceedsByStates (N.first_digit system.now) (N.system system.now) limit.entry.most }
{
    let language = minimal_language(alloc, system)?;
    let adder = minimal_adder(alloc, system)?;
    let direction = system.direction();
    let relations = relations_of(alloc, &language, direction, limit)?;
    let sealed = system_from(alloc, system, language, adder, relations)?;
    Ok(sealed)
}

/// Seals a system that is built in, or that a user's files were admitted as, without a limit: three tracks over its digits have an
/// alphabet, so that only memory may run out. Memory may also run out where 2^32 - 1 states are not
/// enough.
pub fn seal_built_in<N: NumSystem>(alloc: Global, system: &N) -> Result<System, OutOfMemory>
    requires { let digits = (N.system system.now).digits in IsAlphabet (digits ∷ digits ∷ digits ∷ []) }
    ensures system { IfOk result (λ sealed. system_of sealed ≡ N.system system.now) }
    ensures direction { IfOk result (λ sealed. sealed.direction ≡ N.first_digit system.now) }
{
    let language = minimal_language(alloc, system)?;
    let adder = minimal_adder(alloc, system)?;
    let direction = system.direction();
    let relations = relations_without_limit(alloc, &language, &adder, direction)?;
    system_from(alloc, system, language, adder, relations)
}

// The canonical automaton of the language.
fn minimal_language<N: NumSystem>(alloc: Global, system: &N) -> Result<Dfa, OutOfMemory>
    ensures { IfOk result (λ dfa. IsMinimalLanguage (N.first_digit system.now) (N.system system.now) dfa) }
{
    let language = system.language(alloc)?;
    canonical(alloc, &language)
}

// The canonical automaton of the sums.
fn minimal_adder<N: NumSystem>(alloc: Global, system: &N) -> Result<Dfa, OutOfMemory>
    ensures adder { IfOk result (λ dfa. IsAdderOf (N.first_digit system.now) (N.system system.now) dfa) }
    ensures canonical { IfOk result IsCanonical }
{
    let adder = system.adder(alloc)?;
    canonical(alloc, &adder)
}

// The sealed system of these automata.
fn system_from<N: NumSystem>(
    alloc: Global,
    system: &N,
    language: Dfa,
    adder: Dfa,
    relations: Relations,
) -> Result<System, OutOfMemory>
    requires language { IsMinimalLanguage (N.first_digit system.now) (N.system system.now) language }
    requires adder { IsAdderOf (N.first_digit system.now) (N.system system.now) adder }
    requires canonical { IsCanonical adder }
    requires relations { AreRelationsOf (N.first_digit system.now) (N.system system.now) relations.equal relations.less relations.successor relations.zero }
    ensures system { IfOk result (λ sealed. system_of sealed ≡ N.system system.now) }
    ensures parts { IfOk result (λ sealed. sealed ≡ sealed_of (N.system system.now).digits (N.first_digit system.now) language adder relations) }
{
    let digits = system.digits();
    let direction = system.direction();
    let valid = Rc::new(alloc, language)?;
    Ok(System::from_parts(digits, direction, valid, adder, relations))
}

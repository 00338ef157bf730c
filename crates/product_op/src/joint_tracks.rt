//! The tracks of two automata seen as one list.

ghost use Rattle.std.specs.Prelude.{◌≡◌, ◌↔◌, map, IfOk, OnOk, IsTrue};
ghost use Rattle.std.specs.List.{Contains};
ghost use Rattle.std.specs.Result.{IsErrOf};
ghost use Rattle.digit_tuple.specs.Letters.{IsAlphabet, IsTooLarge};
ghost use Rattle.digit_tuple.specs.Names.{joint_names as joint_names_of};
ghost use Rattle.minimise.specs.Tracked.{IsTracked, size_of};
ghost use Rattle.product_op.specs.Tracks.{AgreeOnShared, joint_size, joint_sizes};

use digit_tuple::alphabet::Alphabet;
use digit_tuple::faults::{OpFault, OutOfMemory};
use digit_tuple::name::Name;
use digit_tuple::names::{find_name, joint_names};
use minimise::tracked::Tracked;
use std::alloc::Global;

/// The tracks of two automata as one list: their names in byte order, and the alphabet over them.
#[derive(Drop)]
pub struct JointTracks {
    pub names: Vec<Name>,
    pub alphabet: Alphabet,
}

/// The tracks of two automata as one list. `Letters` comes if and only if there are more than 16 tracks or more than
/// 65,536 letters, and `States` never.
pub fn joint_tracks(alloc: Global, a: &Tracked, b: &Tracked) -> Result<JointTracks, OpFault>
    ensures names { IfOk result (λ joint. joint.names.items ≡ joint_names_of a.now.names b.now.names) }
    ensures sizes { IfOk result (λ joint. joint.alphabet ≡ joint_sizes a.now b.now) }
    ensures fits { OnOk result (IsAlphabet (joint_sizes a.now b.now)) }
    ensures letters { IsErrOf result OpFault.Letters → IsTooLarge (joint_sizes a.now b.now) }
    ensures no_states { ¬ IsErrOf result OpFault.States }
    ensures first { IsTracked a.now }
    ensures second { IsTracked b.now }
{
    let first = a.names();
    let second = b.names();
    let names = joint_names(alloc, first, second)?;
    let sizes = sizes_of_names(alloc, &names, a, b)?;
    let alphabet = Alphabet::new(alloc, &sizes)?;
    Ok(JointTracks { names, alphabet })
}

/// The size of the track of each name, in the one automaton or the other.
pub fn sizes_of_names(
    alloc: Global,
    names: &[Name],
    a: &Tracked,
    b: &Tracked,
) -> Result<Vec<u32>, OutOfMemory>
    ensures { IfOk result (λ sizes. sizes.items ≡ map (joint_size a.now b.now) names.now) }
{
    let mut sizes = Vec::with_capacity(alloc, names.len())?;
    for name in names {
        sizes.push(size_in(a, name).max(size_in(b, name)))?;
    }
    Ok(sizes)
}

// The size of the track of this name, 0 where there is none.
fn size_in(tracked: &Tracked, name: &Name) -> u32
    ensures { result ≡ size_of tracked.now name.now }
{
    let alphabet = tracked.dfa().alphabet();
    let _tracks = alphabet.tracks();
    match find_name(tracked.names(), name) {
        Some(place) => alphabet.size(place as u32),
        None => 0,
    }
}

/// Whether tracks of one name have one size in both automata.
pub fn agree_on_shared(a: &Tracked, b: &Tracked) -> bool
    ensures { IsTrue result ↔ AgreeOnShared a.now b.now }
{
    let names = a.names();
    for name in names {
        if !is_shared_alike(a, b, name) {
            return false;
        }
    }
    true
}

// Whether the track of this name has one size in both automata, where both have it.
fn is_shared_alike(a: &Tracked, b: &Tracked, name: &Name) -> bool
    ensures { IsTrue result ↔ (Contains a.now.names name.now → Contains b.now.names name.now → size_of a.now name.now ≡ size_of b.now name.now) }
{
    find_name(a.names(), name).is_none()
        || find_name(b.names(), name).is_none()
        || size_in(a, name) == size_in(b, name)
}

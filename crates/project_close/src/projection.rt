//! Projections of automata to all tracks but one.

ghost use Rattle.std.specs.Prelude.{◌≡◌, ◌+◌, ◌<◌, ◌≤◌, ◌↔◌, ℕ, List, length, IfOk, OnOk, IsTrue};
ghost use Rattle.std.specs.List.{All, Contains};
ghost use Rattle.std.specs.Result.{IsErrOf};
ghost use Rattle.digit_tuple.specs.Deterministic.{accepts_of, states_of};
ghost use Rattle.digit_tuple.specs.Letters.{product, IsAlphabet, IsTooLarge, IsWord};
ghost use Rattle.digit_tuple.specs.Names.{names_without as names_without_of};
ghost use Rattle.digit_tuple.specs.Parts.{picked};
ghost use Rattle.digit_tuple.specs.Width.{HasApart, HasWidth};
ghost use Rattle.minimise.specs.Canonical.{IsCanonical};
ghost use Rattle.minimise.specs.Residuals.{IsDead};
ghost use Rattle.minimise.specs.Tracked.{IsTracked};
ghost use Rattle.pad_rename.specs.StayingTracks.{staying_places, staying_sizes};
ghost use Rattle.project_close.specs.Projection.{InProjection, ProjectionAlike};

use crate::canonical_sets::canonical_sets;
use crate::image::reading_on;
use digit_tuple::alphabet::Alphabet;
use digit_tuple::dfa::Dfa;
use digit_tuple::direction::Direction;
use digit_tuple::faults::OpFault;
use digit_tuple::limit::Limit;
use digit_tuple::name::Name;
use digit_tuple::names::{names_without, places_in};
use digit_tuple::no_words::no_words_within;
use digit_tuple::stepped::Stepped;
use minimise::tracked::Tracked;
use pad_rename::emptiness::accepts_nothing;
use pad_rename::track_sizes::sizes_at;
use std::alloc::Global;

/// The words over the tracks but one for which there is a value on that track, which is one of the automaton's: a word
/// is in the projection where some number of zeros, before it with the most significant digit first and after it else,
/// and some digits on the dropped track make it a word that the automaton accepts. So the value may be longer than
/// those on the tracks that stay. The result is canonical, and its tracks are in the order in which they were. Where no
/// track stays there is one letter, the empty tuple.
///
/// The width is the number of sets of residuals that words have: the residuals of the automaton after the words over
/// all its tracks that have the word as their part on the tracks that stay, with the most significant digit first after
/// any number of zeros. The empty residual isn't counted in a set; the empty set is counted. `Letters` comes if and
/// only if the tracks that stay have more than 65,536 letters, as they may where the dropped one has no digit, and is
/// looked at first; `States` if and only if the width passes the limit. Memory may also run out where 2^32 - 1 states
/// are not enough. Time and memory follow the width times the states and transitions of the automaton.
///
/// This is the existential quantifier of Büchi's decision procedure, as in Bruyère, Hansel, Michaux
/// and Villemaire, "Logic and p-recognizable sets of integers".
pub fn project(
    alloc: Global,
    a: &Tracked,
    track: &Name,
    direction: Direction,
    limit: Limit<'_>,
) -> Result<Stepped<Tracked>, OpFault>
    requires there { Contains a.now.names track.now }
    ensures names { IfOk result (λ stepped. stepped.result.names ≡ names_without_of a.now.names track.now) }
    ensures sizes { IfOk result (λ stepped. stepped.result.automaton.sizes ≡ staying_sizes a.now track.now) }
    ensures canonical { IfOk result (λ stepped. IsCanonical stepped.result.automaton) }
    ensures language { IfOk result (λ stepped. (w : List ℕ) → IsWord (product (staying_sizes a.now track.now)) w
        → IsTrue (accepts_of stepped.result.automaton w) ↔ InProjection a.now.automaton (staying_places a.now track.now) direction w) }
    ensures width { IfOk result (λ stepped.
        HasWidth (ProjectionAlike a.now.automaton (staying_places a.now track.now) direction) (product (staying_sizes a.now track.now)) stepped.width) }
    ensures size { IfOk result (λ stepped. states_of stepped.result.automaton ≤ stepped.width) }
    ensures within { IfOk result (λ stepped. stepped.width ≤ limit.entry.most) }
    ensures fits { OnOk result (IsAlphabet (staying_sizes a.now track.now)) }
    ensures letters { IsErrOf result OpFault.Letters → IsTooLarge (staying_sizes a.now track.now) }
    ensures states { IsErrOf result OpFault.States
        → HasApart (ProjectionAlike a.now.automaton (staying_places a.now track.now) direction) (product (staying_sizes a.now track.now)) (limit.entry.most + 1) }
    ensures letters_first { IsErrOf result OpFault.States → IsAlphabet (staying_sizes a.now track.now) }
{
    let StayingTracks {
        names,
        places,
        alphabet,
    } = staying_tracks(alloc, a, track)?;
    let Stepped { result, width } = projected(alloc, a.dfa(), &places, alphabet, direction, limit)?;
    Ok(Stepped {
        result: Tracked::of_canonical(result, names),
        width,
    })
}

// The tracks that stay: their names, their places among all, and their alphabet.
#[derive(Drop)]
struct StayingTracks {
    names: Vec<Name>,
    places: Vec<u32>,
    alphabet: Alphabet,
}

// The tracks that stay when one is dropped. `Letters` comes if and only if they have too many letters.
fn staying_tracks(alloc: Global, a: &Tracked, track: &Name) -> Result<StayingTracks, OpFault>
    ensures names { IfOk result (λ staying. staying.names.items ≡ names_without_of a.now.names track.now) }
    ensures places { IfOk result (λ staying. staying.places.items ≡ staying_places a.now track.now) }
    ensures sizes { IfOk result (λ staying. staying.alphabet ≡ staying_sizes a.now track.now) }
    ensures fits { OnOk result (IsAlphabet (staying_sizes a.now track.now)) }
    ensures letters { IsErrOf result OpFault.Letters → IsTooLarge (staying_sizes a.now track.now) }
    ensures no_states { ¬ IsErrOf result OpFault.States }
    ensures tracked { IsTracked a.now }
{
    let all = a.names();
    let sizes = a.dfa().alphabet().sizes();
    let names = names_without(alloc, all, track)?;
    let places = places_in(alloc, all, &names)?;
    let some = sizes_at(alloc, sizes, &places)?;
    let alphabet = Alphabet::new(alloc, &some)?;
    Ok(StayingTracks {
        names,
        places,
        alphabet,
    })
}

// The projection to the tracks at these places, whose letters are those of the alphabet.
fn projected(
    alloc: Global,
    d: &Dfa,
    places: &[u32],
    alphabet: Alphabet,
    direction: Direction,
    limit: Limit<'_>,
) -> Result<Stepped<Dfa>, OpFault>
    requires canonical { IsCanonical d.now }
    requires places { All (λ place. place < length d.now.sizes) places.now }
    requires alphabet { alphabet ≡ picked places.now d.now.sizes }
    ensures sizes { IfOk result (λ stepped. stepped.result.sizes ≡ alphabet) }
    ensures canonical { IfOk result (λ stepped. IsCanonical stepped.result) }
    ensures language { IfOk result (λ stepped. (w : List ℕ) → IsWord (product alphabet) w
        → IsTrue (accepts_of stepped.result w) ↔ InProjection d.now places.now direction w) }
    ensures width { IfOk result (λ stepped. HasWidth (ProjectionAlike d.now places.now direction) (product alphabet) stepped.width) }
    ensures size { IfOk result (λ stepped. states_of stepped.result ≤ stepped.width) }
    ensures within { IfOk result (λ stepped. stepped.width ≤ limit.entry.most) }
    ensures states { IsErrOf result OpFault.States → HasApart (ProjectionAlike d.now places.now direction) (product alphabet) (limit.entry.most + 1) }
    ensures letters { ¬ IsErrOf result OpFault.Letters }
{
    if accepts_nothing(d) {
        no_words_within(alloc, alphabet, limit)
    } else {
        live_projection(alloc, d, places, alphabet, direction, limit)
    }
}

// The projection of an automaton that accepts some word: words lead to the sets of states that its
// image leads to.
fn live_projection(
    alloc: Global,
    d: &Dfa,
    places: &[u32],
    alphabet: Alphabet,
    direction: Direction,
    limit: Limit<'_>,
) -> Result<Stepped<Dfa>, OpFault>
    requires canonical { IsCanonical d.now }
    requires live { ¬ IsDead d.now 0 }
    requires places { All (λ place. place < length d.now.sizes) places.now }
    requires alphabet { alphabet ≡ picked places.now d.now.sizes }
    ensures sizes { IfOk result (λ stepped. stepped.result.sizes ≡ alphabet) }
    ensures canonical { IfOk result (λ stepped. IsCanonical stepped.result) }
    ensures language { IfOk result (λ stepped. (w : List ℕ) → IsWord (product alphabet) w
        → IsTrue (accepts_of stepped.result w) ↔ InProjection d.now places.now direction w) }
    ensures width { IfOk result (λ stepped. HasWidth (ProjectionAlike d.now places.now direction) (product alphabet) stepped.width) }
    ensures size { IfOk result (λ stepped. states_of stepped.result ≤ stepped.width) }
    ensures within { IfOk result (λ stepped. stepped.width ≤ limit.entry.most) }
    ensures states { IsErrOf result OpFault.States → HasApart (ProjectionAlike d.now places.now direction) (product alphabet) (limit.entry.most + 1) }
    ensures letters { ¬ IsErrOf result OpFault.Letters }
{
    let reading = reading_on(alloc, d, places, &alphabet, direction)?;
    canonical_sets(alloc, reading, alphabet, limit)
}

//! Products of two automata over the tracks of both.

ghost use Rattle.std.specs.Prelude.{◌≡◌, ◌+◌, ◌≤◌, ◌∷◌, ℕ, List, length, IfOk, OnOk, IsTrue, map};
ghost use Rattle.std.specs.List.{All, Contains};
ghost use Rattle.std.specs.Rc.{rc_value};
ghost use Rattle.std.specs.Result.{IsErrOf};
ghost use Rattle.digit_tuple.specs.Deterministic.{accepts_of, states_of};
ghost use Rattle.digit_tuple.specs.Letters.{product as letter_count, IsAlphabet, IsTooLarge, IsWord};
ghost use Rattle.digit_tuple.specs.Width.{HasApart, HasWidth};
ghost use Rattle.minimise.specs.Canonical.{IsCanonical};
ghost use Rattle.digit_tuple.specs.Names.{AreJoint, joint_names as joint_names_of, places_of};
ghost use Rattle.digit_tuple.specs.Parts.{picked};
ghost use Rattle.product_op.specs.Connectives.{among_valid};
ghost use Rattle.product_op.specs.Tracks.{AgreeOnShared, joint_sizes};
ghost use Rattle.product_op.specs.Validity.{AreLanguages};
ghost use Rattle.product_op.specs.Products.{in_product, ProductAlike};
ghost use Rattle.product_op.specs.Readings.{reading_in, readings_in};
ghost use Rattle.product_op.specs.TrackReadings.{AllFitTracks, argument_reading, counted_of, read_on, track_readings};

use crate::argument_readers::{add_track_readers, argument_reader};
use crate::joint_tracks::{JointTracks, joint_tracks};
use crate::op::Op;
use crate::reader::Reader;
use crate::rule::Rule;
use crate::side_by_side::tracked_side_by_side;
use digit_tuple::dfa::Dfa;
use digit_tuple::faults::{OpFault, OutOfMemory};
use digit_tuple::limit::Limit;
use digit_tuple::stepped::Stepped;
use minimise::tracked::Tracked;
use std::alloc::Global;
use std::rc::Rc;

// So many letters for each transition of an argument are listed with their parts, since many pairs of states ask for them.
const LISTED: u64 = 16;

/// The words over the tracks of both automata of which the connective says that they are in it, by whether each
/// automaton accepts the word's part on its tracks; but for `And` and `AndNot` among the valid words alone, whose track
/// words are each in the track's language. Tracks of one name are one track, and have one number of digits in both
/// (`agree_on_shared`). The result is canonical; its tracks are in byte order of names, as `joint_names` gives them.
/// But for `And` and `AndNot` `valid` has a canonical language for each of them; for these two it is not looked at.
///
/// The width is the number of pairs of residuals, of `a` and of `b` after their parts of a word, over all words, the
/// empty residual counted too; but for `And` and `AndNot` that of these residuals together with those of all tracks'
/// languages. `Letters` comes if and only if there are more than 16 tracks or more than 65,536 letters, and is looked
/// at first; `States` if and only if the width passes the limit. The result has at most as many states as the width.
/// Memory may also run out where 2^32 - 1 states are not enough. Time and memory follow the width and the letters by
/// which some residual leads to one that is not empty, or all letters where they are at most 32, but under `And` and
/// `AndNot` the letters by which the first does, from pairs without an empty residual that is needed; and the residuals
/// of the arguments with their transitions. Where only the two arguments count under these, to find the pairs with an
/// empty residual takes time by the letters by which either does, and by those that are tried until one leads both to it.
pub fn product(
    alloc: Global,
    a: &Tracked,
    b: &Tracked,
    op: Op,
    valid: &[Rc<Dfa>],
    limit: Limit<'_>,
) -> Result<Stepped<Tracked>, OpFault>
    requires agree { AgreeOnShared a.now b.now }
    requires languages { IsTrue (among_valid op) → AreLanguages (joint_sizes a.now b.now) (map rc_value valid.now) }
    ensures names { IfOk result (λ stepped. stepped.result.names ≡ joint_names_of a.now.names b.now.names) }
    ensures joint { IfOk result (λ stepped. AreJoint a.now.names b.now.names stepped.result.names) }
    ensures sizes { IfOk result (λ stepped. stepped.result.automaton.sizes ≡ joint_sizes a.now b.now) }
    ensures canonical { IfOk result (λ stepped. IsCanonical stepped.result.automaton) }
    ensures language { IfOk result (λ stepped. (w : List ℕ) → IsWord (letter_count (joint_sizes a.now b.now)) w
        → accepts_of stepped.result.automaton w ≡ in_product op a.now b.now (map rc_value valid.now) w) }
    ensures width { IfOk result (λ stepped. HasWidth (ProductAlike op a.now b.now (map rc_value valid.now)) (letter_count (joint_sizes a.now b.now)) stepped.width) }
    ensures size { IfOk result (λ stepped. states_of stepped.result.automaton ≤ stepped.width) }
    ensures within { IfOk result (λ stepped. stepped.width ≤ limit.entry.most) }
    ensures fits { OnOk result (IsAlphabet (joint_sizes a.now b.now)) }
    ensures letters { IsErrOf result OpFault.Letters → IsTooLarge (joint_sizes a.now b.now) }
    ensures states { IsErrOf result OpFault.States → HasApart (ProductAlike op a.now b.now (map rc_value valid.now)) (letter_count (joint_sizes a.now b.now)) (limit.entry.most + 1) }
    ensures letters_first { IsErrOf result OpFault.States → IsAlphabet (joint_sizes a.now b.now) }
{
    let joint = joint_tracks(alloc, a, b)?;
    let readers = product_readers(alloc, &joint, a, b, counted(op, valid))?;
    tracked_side_by_side(
        alloc,
        joint.alphabet,
        joint.names,
        &readers,
        Rule::Both(op),
        limit,
    )
}

// The languages that count under the connective.
fn counted(op: Op, valid: &[Rc<Dfa>]) -> &[Rc<Dfa>]
    ensures { map rc_value result.now ≡ counted_of op (map rc_value valid.now) }
{
    if op.is_among_valid() {
        valid
    } else {
        &valid[..0]
    }
}

// The readers of both automata on their tracks, and of each language on its track.
fn product_readers<'a>(
    alloc: Global,
    joint: &JointTracks,
    a: &'a Tracked,
    b: &'a Tracked,
    languages: &'a [Rc<Dfa>],
) -> Result<Vec<Reader<'a>>, OutOfMemory>
    requires agree { AgreeOnShared a.now b.now }
    requires names { joint.now.names.items ≡ joint_names_of a.now.names b.now.names }
    requires sizes { joint.now.alphabet ≡ joint_sizes a.now b.now }
    requires languages { AllFitTracks (joint_sizes a.now b.now) (map rc_value languages.now) }
    ensures { IfOk result (λ readers. readings_in readers.items
        ≡ argument_reading a.now b.now a.now ∷ argument_reading a.now b.now b.now ∷ track_readings (joint_sizes a.now b.now) (map rc_value languages.now)) }
{
    let _first = a.names();
    let _second = b.names();
    let transitions = a.dfa().transitions().max(b.dfa().transitions());
    let most = transitions.saturating_mul(LISTED);
    let mut readers = Vec::new(alloc);
    readers.push(listed_reader(alloc, joint, a, most)?)?;
    readers.push(listed_reader(alloc, joint, b, most)?)?;
    add_track_readers(alloc, &joint.alphabet, languages, &mut readers)?;
    Ok(readers)
}

// The reader of an automaton on the tracks of its names, whose parts are listed if the letters are at most so many.
fn listed_reader<'a>(
    alloc: Global,
    joint: &JointTracks,
    argument: &'a Tracked,
    most: u64,
) -> Result<Reader<'a>, OutOfMemory>
    requires count { length joint.now.names.items ≡ length joint.now.alphabet }
    requires there { All (Contains joint.now.names.items) argument.now.names }
    requires sizes { picked (places_of joint.now.names.items argument.now.names) joint.now.alphabet ≡ argument.now.automaton.sizes }
    ensures { IfOk result (λ reader. reading_in reader ≡ read_on joint.now.alphabet argument.now.automaton (places_of joint.now.names.items argument.now.names)) }
{
    let mut reader = argument_reader(alloc, &joint.alphabet, &joint.names, argument)?;
    reader.parts.list_within(alloc, most)?;
    Ok(reader)
}

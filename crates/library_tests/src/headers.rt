//! Names, sets, systems and headers.

use crate::given::given;
use crate::outcomes::{expect_bytes, expect_text, expect_value};
use crate::table_texts::sets_of;
use digit_tuple::alphabet::Alphabet;
use digit_tuple::header::Header;
use digit_tuple::letter_set::LetterSet;
use digit_tuple::name::Name;
use digit_tuple::names::{are_distinct, find_name, joint_names, names_without};
use digit_tuple::sets::Sets;
use digit_tuple::systems::Systems;
use std::alloc::Global;
use std::process::Abort;

/// Names with these texts.
pub fn names_of(rt: &impl Abort, alloc: Global, texts: &[&str]) -> Vec<Name> {
    let mut names = Vec::new(alloc);
    for text in texts {
        given(rt, names.push(given(rt, Name::new(alloc, text))));
    }
    names
}

/// The header of these sets.
pub fn header_of(rt: &impl Abort, alloc: Global, tracks: &[&[i32]]) -> Header {
    let mut sets = Sets::new(alloc);
    for members in tracks {
        given(
            rt,
            sets.push(LetterSet::try_new(given(rt, members.to_vec(alloc))).expect(
                rt,
                "a row in form",
            )),
        );
    }
    Header::Sets(sets)
}

#[test]
fn a_name_keeps_its_text(rt: HostRuntime) {
    let name = given(&rt, Name::new(rt.alloc(), "ab"));
    let copy = given(&rt, name.copy(rt.alloc()));
    expect_bytes(&rt, "a copy", copy.as_bytes(), name.as_bytes());
    expect_text(&rt, "a copy", copy.as_str(), "ab");
}

// The texts of names, with a blank between.
fn texts_of(rt: &impl Abort, alloc: Global, names: &[Name]) -> String {
    let mut text = String::new(alloc);
    for name in names {
        given(rt, text.push_str(name.as_str()));
        given(rt, text.push(' '));
    }
    text
}

#[test]
fn names_are_found_at_their_places(rt: HostRuntime) {
    let names = names_of(&rt, rt.alloc(), &["y", "x", "yy"]);
    expect_value(&rt, "y x yy", &are_distinct(&names), &true);
    let there = given(&rt, Name::new(rt.alloc(), "x"));
    expect_value(&rt, "x", &find_name(&names, &there), &Some(1));
    let elsewhere = given(&rt, Name::new(rt.alloc(), "xx"));
    expect_value(&rt, "xx", &find_name(&names, &elsewhere), &None);
    let twice = names_of(&rt, rt.alloc(), &["y", "x", "y"]);
    expect_value(&rt, "y x y", &are_distinct(&twice), &false);
}

#[test]
fn names_are_joined_in_byte_order(rt: HostRuntime) {
    let first = names_of(&rt, rt.alloc(), &["y", "x", "B"]);
    let second = names_of(&rt, rt.alloc(), &["z", "x", "a"]);
    let joint = given(&rt, joint_names(rt.alloc(), &first, &second));
    let joint = texts_of(&rt, rt.alloc(), &joint);
    expect_text(&rt, "two lists", &joint, "B a x y z ");
    let one = given(&rt, Name::new(rt.alloc(), "x"));
    let rest = given(&rt, names_without(rt.alloc(), &first, &one));
    let rest = texts_of(&rt, rt.alloc(), &rest);
    expect_text(&rt, "but for x", &rest, "y B ");
}

// The set of these members, if they are in order and none is twice.
fn set_of(rt: &impl Abort, alloc: Global, members: &[i32]) -> Option<LetterSet> {
    LetterSet::try_new(given(rt, members.to_vec(alloc)))
}

#[test]
fn a_set_finds_its_members(rt: HostRuntime) {
    let members: &[i32] = &[-3, 0, 7];
    let set = set_of(&rt, rt.alloc(), members).expect(&rt, "a set");
    let copy = given(&rt, set.copy(rt.alloc()));
    expect_value(&rt, "a set", &set.members(), &members);
    expect_value(&rt, "a copy", &copy.members(), &members);
    expect_value(&rt, "members", &set.len(), &3);
    expect_value(&rt, "members", &set.is_empty(), &false);
    expect_value(&rt, "7", &set.place_of(7), &Some(2));
    expect_value(&rt, "1", &set.place_of(1), &None);
}

#[test]
fn a_set_has_no_member_twice(rt: HostRuntime) {
    let twice = set_of(&rt, rt.alloc(), &[1, 1]);
    expect_value(&rt, "1 and 1", &twice.is_none(), &true);
    let turned = set_of(&rt, rt.alloc(), &[2, 1]);
    expect_value(&rt, "2 and 1", &turned.is_none(), &true);
}

// Asserts that a header's tracks have two and three digits, by way of a copy.
fn expect_two_and_three(rt: &impl Abort, alloc: Global, header: &Header) {
    let copy = given(rt, header.copy(alloc));
    let alphabet = given(rt, Alphabet::of_header(alloc, &copy));
    let sizes: &[u32] = &[2, 3];
    expect_value(rt, "a header", &alphabet.sizes(), &sizes);
}

#[test]
fn a_header_has_the_alphabet_of_its_sets(rt: HostRuntime) {
    let sets = sets_of(&rt, rt.alloc(), &[2, 3]);
    expect_value(&rt, "sets", &sets.is_empty(), &false);
    expect_value(&rt, "sets", &sets.len(), &2);
    let alphabet = given(&rt, Alphabet::of_sets(rt.alloc(), &sets));
    expect_value(&rt, "letters", &alphabet.letters(), &6);
    let header = Header::Sets(given(&rt, sets.copy(rt.alloc())));
    expect_two_and_three(&rt, rt.alloc(), &header);
}

// Systems of two and three digits.
fn two_systems(rt: &impl Abort, alloc: Global) -> Systems {
    let mut systems = Systems::new(alloc);
    given(rt, systems.push(given(rt, Name::new(alloc, "msd_2")), 2));
    given(rt, systems.push(given(rt, Name::new(alloc, "msd_3")), 3));
    systems
}

// Whether each set has 1 at its second place and no 3.
fn have_one(sets: &[LetterSet]) -> bool {
    let mut right = true;
    for set in sets {
        right = right && set.place_of(1) == Some(1) && set.place_of(3).is_none();
    }
    right
}

#[test]
fn a_header_of_systems_has_their_digits(rt: HostRuntime) {
    let systems = given(&rt, two_systems(&rt, rt.alloc()).copy(rt.alloc()));
    expect_value(&rt, "systems", &systems.is_empty(), &false);
    expect_value(&rt, "systems", &systems.len(), &2);
    let header = Header::Systems(systems);
    let sets = given(&rt, header.sets(rt.alloc()));
    expect_value(&rt, "digits", &have_one(sets.as_slice()), &true);
    expect_two_and_three(&rt, rt.alloc(), &header);
}

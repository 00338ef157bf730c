//! Automata under other names and with two tracks as one, worked by hand.

use crate::given::{given, no_answer};
use crate::outcomes::expect_text;
use crate::table_texts::{line_of, tracked};
use digit_tuple::name::Name;
use digit_tuple::names::are_distinct;
use pad_rename::renaming::rename;
use pad_rename::restriction::{are_two_tracks, restrict};
use std::alloc::Global;
use std::process::Abort;

// The names in a text, with blanks between.
fn names_in(rt: &impl Abort, alloc: Global, text: &str) -> Vec<Name> {
    let mut names = Vec::new(alloc);
    for name in text.split_whitespace() {
        given(rt, names.push(given(rt, Name::new(alloc, name))));
    }
    names
}

// The automaton with new names, if they are one for each track.
fn renamed(rt: &impl Abort, alloc: Global, line: &str, names: &str) -> String {
    let a = tracked(rt, alloc, line);
    let names = names_in(rt, alloc, names);
    if names.len() == a.names().len() && are_distinct(&names) {
        line_of(rt, alloc, &given(rt, rename(alloc, &a, &names)))
    } else {
        no_answer(rt)
    }
}

// Automata, new names, and the automata under these.
static RENAMINGS: [(&str, &str, &str); 4] = [
    // the letters (1, 0, 2) and (0, 0, 1)
    (
        "x:2 y:3 z:4 = / 1>1 14>1/!",
        "c a b",
        "a:3 b:4 c:2 = / 2>1 5>1/!",
    ),
    (
        "x:2 y:3 z:4 = / 1>1 14>1/!",
        "a b c",
        "a:2 b:3 c:4 = / 1>1 14>1/!",
    ),
    ("x:2 y:2 = [0,1]*", "y x", "x:2 y:2 = /! 2>0"),
    ("x:0 y:0 = /!", "y x", "x:0 y:0 = /!"),
];

#[test]
fn tracks_move_with_their_names(rt: HostRuntime) {
    for (line, names, wanted) in &RENAMINGS {
        expect_text(&rt, line, &renamed(&rt, rt.alloc(), line, names), wanted);
    }
}

// The automaton on words with equal tracks, if they are two of one size, else nothing.
fn restricted(rt: &impl Abort, alloc: Global, line: &str, kept: &str, dropped: &str) -> String {
    let a = tracked(rt, alloc, line);
    let kept = given(rt, Name::new(alloc, kept));
    let dropped = given(rt, Name::new(alloc, dropped));
    if are_two_tracks(&a, &kept, &dropped) {
        line_of(rt, alloc, &given(rt, restrict(alloc, &a, &kept, &dropped)))
    } else {
        String::new(alloc)
    }
}

// Automata, the track that is kept and the one that is dropped, and the automata on words of which these are equal.
static RESTRICTIONS: [(&str, &str, &str, &str); 7] = [
    // the letters (1, 2, 1) and (1, 1, 0)
    ("x:2 y:3 z:2 = / 8>1 11>1/!", "x", "z", "x:2 y:3 = / 5>1/!"),
    // the earlier track may be dropped
    ("x:2 y:3 z:2 = / 8>1 11>1/!", "z", "x", "y:3 z:2 = / 5>1/!"),
    ("x:2 y:2 = / 1>1 3>1/!", "y", "x", "y:2 = / 1>1/!"),
    ("x:0 y:0 = /!", "x", "y", "x:0 = /!"),
    // one track is not two, nor are tracks of two sizes, or a track that is not there
    ("x:2 y:3 = .", "x", "x", ""),
    ("x:2 y:3 = .", "x", "y", ""),
    ("x:2 y:3 = .", "x", "z", ""),
];

#[test]
fn words_with_equal_tracks_stay(rt: HostRuntime) {
    for (line, kept, dropped, wanted) in &RESTRICTIONS {
        expect_text(
            &rt,
            line,
            &restricted(&rt, rt.alloc(), line, kept, dropped),
            wanted,
        );
    }
}

//! Headers of the names in the rows of formulas.

use crate::given::given;
use crate::text_rows::{ROW_END, last_field_of, table};
use digit_tuple::name::Name;
use formula_resolve::Headers;
use std::alloc::Global;
use std::process::Abort;

// What is under each name, with the systems of its tracks: an automaton over systems, one over sets, or a word. The last header
// added of a name is: `ab` is over sets.
const HEADERS: &str = table![
    ("automaton", "f", "msd_2 msd_2"),
    ("automaton", "g", "lsd_2"),
    ("automaton", "q", "msd_3"),
    ("automaton", "s", ""),
    ("automaton", "ab", "msd_2"),
    ("plain", "ab", ""),
    ("word", "T", "msd_2"),
    ("word", "U", "msd_2 msd_2"),
    ("word", "L", "lsd_2"),
    ("word", "W", "msd_3"),
];

// The systems of these names, with a blank between them.
fn systems(rt: &impl Abort, alloc: Global, names: &str) -> Vec<Name> {
    let mut systems = Vec::new(alloc);
    for name in names.split_terminator(' ') {
        given(rt, systems.push(given(rt, Name::new(alloc, name))));
    }
    systems
}

// Adds what is under a name, over these systems.
fn add(rt: &impl Abort, headers: &mut Headers, kind: &str, name: &Name, systems: &[Name]) {
    let added = match kind {
        "automaton" => headers.add_automaton(name, systems),
        "word" => headers.add_word(name, systems),
        _ => headers.add_plain(name),
    };
    given(rt, added);
}

// The headers of the names in the rows.
pub(crate) fn headers(rt: &impl Abort, alloc: Global) -> Headers {
    let mut headers = Headers::new(alloc);
    for row in HEADERS.split_terminator(ROW_END) {
        let (header, tracks) = last_field_of(row);
        let (kind, name) = last_field_of(header);
        let name = given(rt, Name::new(alloc, name));
        add(rt, &mut headers, kind, &name, &systems(rt, alloc, tracks));
    }
    headers
}

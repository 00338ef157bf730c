//! Transducers in stores: what is found under a name, and why there is none.

use crate::given::given;
use crate::outcomes::{expect_text, expect_value};
use dfa_loading::{FileFlaw, LoadFault};
use digit_tuple::name::Name;
use std::alloc::{AllocError, Global};
use std::process::Abort;
use transducer_loading::load_transducer;
use wal_outside::{Folder, MemStore, TEXT_LIMIT};

// What a folder has under a name.
fn at(alloc: Global, what: &str, folder: Folder, name: &Name) -> Result<String, AllocError> {
    format!(in alloc; "{what} {folder:?} {}", name.as_str())
}

// A fault with its folder and its name.
fn fault_text(alloc: Global, fault: &LoadFault) -> Result<String, AllocError> {
    match fault {
        LoadFault::Unknown(folder, name) => at(alloc, "unknown", *folder, name),
        LoadFault::File(folder, name, FileFlaw::Line(line)) => {
            format!(in alloc; "line {line} {folder:?} {}", name.as_str())
        }
        LoadFault::File(folder, name, FileFlaw::TooLong) => at(alloc, "too long", *folder, name),
        LoadFault::Store(folder, name) => at(alloc, "store", *folder, name),
        LoadFault::Memory => String::from_str(alloc, "memory"),
    }
}

// What is loaded under a name: how many states and lines a transducer has, or why there is none.
fn loaded(rt: &impl Abort, alloc: Global, store: &mut MemStore, name: &str) -> String {
    let name = given(rt, Name::new(alloc, name));
    let text = match load_transducer(alloc, &name, store) {
        Ok(t) => format!(in alloc; "{} {}", t.states(), t.lines().len()),
        Err(fault) => fault_text(alloc, &fault),
    };
    given(rt, text)
}

// What a store has in the folders of transducers and of words.
static TEXTS: [(Folder, &str, &str); 5] = [
    (
        Folder::Transducers,
        "runs",
        "{0,1}\n0\n* -> 1 / 0\n1\n0 -> 0 / 1\n1 -> 1 / 1\n",
    ),
    (Folder::Transducers, "none", "{0}\n7\n"),
    (Folder::Transducers, "broken", "{0,1}\n0\n2 -> 0 / 1\n"),
    (Folder::Transducers, "empty", ""),
    (Folder::Words, "word", "{0}\n7\n"),
];

// A store of these texts, whose fifth call fails.
fn store_of(rt: &impl Abort, alloc: Global) -> MemStore {
    let mut store = MemStore::new(alloc, given(rt, vec![in alloc; 5]));
    for (folder, name, text) in &TEXTS {
        given(rt, store.put(*folder, name, text.as_bytes()));
    }
    store
}

// A name, and what is loaded under it: so many states and lines, or the fault. The fifth call fails.
static LOADED: [(&str, &str); 8] = [
    ("runs", "2 3"),
    ("none", "1 0"),
    ("broken", "line 3 Transducers broken"),
    ("empty", "line 1 Transducers empty"),
    ("runs", "store Transducers runs"),
    ("runs", "2 3"),
    ("absent", "unknown Transducers absent"),
    ("word", "unknown Transducers word"),
];

// Asserts that a store has these texts, and no others.
fn expect_texts(rt: &impl Abort, store: &MemStore) {
    for (folder, name, text) in &TEXTS {
        expect_value(rt, name, &store.text(*folder, name), &Some(text.as_bytes()));
    }
    expect_value(rt, "texts", &store.len(), &TEXTS.len());
}

#[test]
fn transducers_of_a_store_are_loaded_as_listed(rt: HostRuntime) {
    let mut store = store_of(&rt, rt.alloc());
    for (name, wanted) in &LOADED {
        expect_text(
            &rt,
            name,
            &loaded(&rt, rt.alloc(), &mut store, name),
            wanted,
        );
    }
    expect_texts(&rt, &store);
    expect_value(&rt, "calls", &store.calls(), &8);
}

// What is loaded of a text of so many bytes, a transducer of one state and a comment.
fn long_loaded(rt: &impl Abort, alloc: Global, length: usize) -> String {
    let mut text = given(rt, vec![in alloc; b'#'; length]);
    for (place, byte) in text.iter_mut().zip(b"{0}\n7\n") {
        *place = *byte;
    }
    let mut store = MemStore::new(alloc, Vec::new(alloc));
    given(rt, store.put(Folder::Transducers, "long", &text));
    loaded(rt, alloc, &mut store, "long")
}

#[test]
fn a_text_that_is_loaded_has_at_most_16777216_bytes(rt: HostRuntime) {
    let found = long_loaded(&rt, rt.alloc(), TEXT_LIMIT);
    expect_text(&rt, "the limit", &found, "1 0");
    let found = long_loaded(&rt, rt.alloc(), TEXT_LIMIT + 1);
    expect_text(&rt, "one more", &found, "too long Transducers long");
}

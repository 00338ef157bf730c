//! The heads of commands that load a file or end a run: what they have, and their first faults.

use crate::given::given;
use crate::outcomes::{expect_text, expect_value};
use command_head::{HeadFault, load_name, word_alone};
use std::alloc::Global;
use std::process::Abort;

// The name in a `load`, or its fault.
fn read_load(rt: &impl Abort, alloc: Global, text: &str) -> Result<String, HeadFault> {
    let name = load_name(alloc, text.as_bytes())?;
    Ok(given(rt, String::from_str(alloc, name.as_str())))
}

// Heads of loads and their files.
static LOADS: [(&str, &str); 6] = [
    ("load a", "a"),
    ("load a.txt", "a"),
    ("load\tE_1 \n", "E_1"),
    ("load load.txt ", "load"),
    (
        "load a123456789012345678901234567890123456789012345678901234567890123",
        "a123456789012345678901234567890123456789012345678901234567890123",
    ),
    (
        "load a123456789012345678901234567890123456789012345678901234567890123.txt",
        "a123456789012345678901234567890123456789012345678901234567890123",
    ),
];

// Heads of loads and the bytes of their faults.
static LOAD_FAULTS: [(&str, usize); 11] = [
    ("load", 4),
    ("load ", 5),
    ("loada", 0),
    ("load a b", 7),
    ("load a.txt b", 11),
    ("load a.tx", 6),
    ("load a.txtx", 10),
    ("load a=1", 5),
    ("load 1", 5),
    ("load \"a\"", 5),
    (
        "load a1234567890123456789012345678901234567890123456789012345678901234",
        5,
    ),
];

#[test]
fn heads_of_loads_are_read(rt: HostRuntime) {
    for (text, wanted) in &LOADS {
        let found = given(&rt, read_load(&rt, rt.alloc(), text));
        expect_text(&rt, text, &found, wanted);
    }
    for (text, at) in &LOAD_FAULTS {
        let fault = read_load(&rt, rt.alloc(), text).err();
        expect_value(&rt, text, &fault, &Some(HeadFault::Syntax(*at)));
    }
}

// Texts, and the byte at which each is not the word `exit` alone.
static ALONE: [(&str, Result<(), HeadFault>); 6] = [
    ("exit", Ok(())),
    ("exit \n\t", Ok(())),
    ("exits", Err(HeadFault::Syntax(0))),
    ("quit", Err(HeadFault::Syntax(0))),
    ("exit now", Err(HeadFault::Syntax(5))),
    ("exit\"a\"", Err(HeadFault::Syntax(4))),
];

#[test]
fn words_are_alone_or_not(rt: HostRuntime) {
    for (text, wanted) in &ALONE {
        expect_value(&rt, text, &word_alone(b"exit", text.as_bytes()), wanted);
    }
}

//! The heads of commands that make languages of others: what they have, and their first faults.

use crate::given::given;
use crate::outcomes::{expect_text, expect_value};
use command_head::{HeadFault, LanguagesParts, language_parts, languages_parts};
use std::alloc::Global;
use std::process::Abort;

// The new name, and the others in their order.
fn shown(rt: &impl Abort, alloc: Global, parts: &LanguagesParts) -> String {
    let mut text = given(rt, String::from_str(alloc, parts.name.as_str()));
    for language in parts.languages.iter() {
        given(rt, text.push_str(" "));
        given(rt, text.push_str(language.as_str()));
    }
    text
}

// What a `union` or a `star` has, or its fault.
fn read(rt: &impl Abort, alloc: Global, text: &str) -> Result<String, HeadFault> {
    let parts = match text.as_bytes() {
        [b'u', ..] => languages_parts(alloc, b"union", text.as_bytes()),
        _ => language_parts(alloc, b"star", text.as_bytes()),
    };
    Ok(shown(rt, alloc, &parts?))
}

// Heads and what they have.
static HEADS: [(&str, &str); 8] = [
    ("union c a", "c a"),
    ("union c a b a", "c a b a"),
    ("union\tA9\n E \rI_1 ", "A9 E I_1"),
    ("union union union", "union union"),
    (
        "union u a123456789012345678901234567890123456789012345678901234567890123 b",
        "u a123456789012345678901234567890123456789012345678901234567890123 b",
    ),
    ("star s a", "s a"),
    ("star star star ", "star star"),
    ("star  A\nE", "A E"),
];

// Asserts that each text has this.
fn expect_heads(rt: &impl Abort, alloc: Global, rows: &[(&str, &str)]) {
    for (text, wanted) in rows {
        expect_text(rt, text, &given(rt, read(rt, alloc, text)), wanted);
    }
}

#[test]
fn heads_of_languages_are_read(rt: HostRuntime) {
    expect_heads(&rt, rt.alloc(), &HEADS);
}

// Texts and their first faults.
static FAULTS: [(&str, HeadFault); 20] = [
    ("unio c a", HeadFault::Syntax(0)),
    ("union", HeadFault::Syntax(5)),
    ("union ", HeadFault::Syntax(6)),
    ("union\"c\" a", HeadFault::Syntax(5)),
    ("union c", HeadFault::Syntax(7)),
    ("union c ", HeadFault::Syntax(8)),
    ("union 1 a", HeadFault::Syntax(6)),
    ("union c=1 a", HeadFault::Syntax(6)),
    ("union c a=1", HeadFault::Syntax(8)),
    ("union c a=99999999999", HeadFault::Syntax(8)),
    ("union c a.txt", HeadFault::Syntax(8)),
    ("union c a,b", HeadFault::Syntax(9)),
    ("union c a b 99999999999", HeadFault::Syntax(12)),
    ("union c a b \"d\"", HeadFault::Syntax(12)),
    (
        "union c a1234567890123456789012345678901234567890123456789012345678901234",
        HeadFault::Syntax(8),
    ),
    ("star", HeadFault::Syntax(4)),
    ("star s", HeadFault::Syntax(6)),
    ("star s 1", HeadFault::Syntax(7)),
    ("star s a b", HeadFault::Syntax(9)),
    ("star s a=", HeadFault::Syntax(8)),
];

// Asserts that each text has its fault.
fn expect_faults(rt: &impl Abort, alloc: Global, rows: &[(&str, HeadFault)]) {
    for (text, wanted) in rows {
        expect_value(rt, text, &read(rt, alloc, text).err(), &Some(*wanted));
    }
}

#[test]
fn faults_of_languages_are_the_first(rt: HostRuntime) {
    expect_faults(&rt, rt.alloc(), &FAULTS);
}

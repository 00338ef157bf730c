//! The heads of commands that make words: what they have, and their first faults.

use crate::given::{given, no_answer};
use crate::outcomes::{expect_text, expect_value};
use command_head::{
    CombineParts, HeadFault, ValuedName, combine_parts, image_parts, promote_parts,
};
use std::alloc::Global;
use std::process::Abort;

// The word and the morphism of a `promote`, or its fault.
fn read_promote(rt: &impl Abort, alloc: Global, text: &str) -> Result<String, HeadFault> {
    let parts = promote_parts(alloc, text.as_bytes())?;
    let word = parts.word.as_str();
    let morphism = parts.morphism.as_str();
    Ok(given(rt, format!(in alloc; "{word} {morphism}")))
}

// The word, the morphism and the old word of an `image`, or its fault.
fn read_image(rt: &impl Abort, alloc: Global, text: &str) -> Result<String, HeadFault> {
    let parts = image_parts(alloc, b"image", text.as_bytes())?;
    let word = parts.word.as_str();
    let mapping = parts.mapping.as_str();
    let old = parts.old.as_str();
    Ok(given(rt, format!(in alloc; "{word} {mapping} {old}")))
}

// The value of an automaton at a place that is no large number.
fn value_at(rt: &impl Abort, valued: &ValuedName, place: usize) -> i32 {
    if place > 1000 {
        return no_answer(rt);
    }
    valued.value_at(place)
}

// The word of a `combine`, and each automaton with its value.
fn shown(rt: &impl Abort, alloc: Global, parts: &CombineParts) -> String {
    let mut text = given(rt, String::from_str(alloc, parts.word.as_str()));
    for (place, valued) in parts.automata.iter().enumerate() {
        let name = valued.name.as_str();
        let value = value_at(rt, valued, place);
        let part = given(rt, format!(in alloc; " {name}={value}"));
        given(rt, text.push_str(&part));
    }
    text
}

// What a short `combine` has, or its fault.
fn read_combine(rt: &impl Abort, alloc: Global, text: &str) -> Result<String, HeadFault> {
    if text.len() > 1000 {
        return no_answer(rt);
    }
    let parts = combine_parts(alloc, text.as_bytes())?;
    Ok(shown(rt, alloc, &parts))
}

// What a text has by its first letter's command.
fn read(rt: &impl Abort, alloc: Global, text: &str) -> Result<String, HeadFault> {
    match text.as_bytes() {
        [b'p', ..] => read_promote(rt, alloc, text),
        [b'i', ..] => read_image(rt, alloc, text),
        _ => read_combine(rt, alloc, text),
    }
}

// Heads and what they have.
static HEADS: [(&str, &str); 11] = [
    ("promote W h", "W h"),
    ("promote\tw_1\n A9 ", "w_1 A9"),
    ("promote promote E", "promote E"),
    ("image W h V", "W h V"),
    ("image  Ww\tI\nWw ", "Ww I Ww"),
    ("combine W a", "W a=1"),
    ("combine W a b c=7 d", "W a=1 b=2 c=7 d=4"),
    (
        "combine W A=-2147483648 E=2147483647",
        "W A=-2147483648 E=2147483647",
    ),
    ("combine W a=00 a=-0 a", "W a=0 a=0 a=3"),
    ("combine\nW\ta=1\rb \n", "W a=1 b=2"),
    (
        "combine W a123456789012345678901234567890123456789012345678901234567890123=5",
        "W a123456789012345678901234567890123456789012345678901234567890123=5",
    ),
];

// Asserts that each text has this.
fn expect_heads(rt: &impl Abort, alloc: Global, rows: &[(&str, &str)]) {
    for (text, wanted) in rows {
        expect_text(rt, text, &given(rt, read(rt, alloc, text)), wanted);
    }
}

#[test]
fn heads_of_words_are_read(rt: HostRuntime) {
    expect_heads(&rt, rt.alloc(), &HEADS);
}

// Texts and their first faults.
static FAULTS: [(&str, HeadFault); 36] = [
    ("promot W h", HeadFault::Syntax(0)),
    ("promote", HeadFault::Syntax(7)),
    ("promote W", HeadFault::Syntax(9)),
    ("promote\"W\" h", HeadFault::Syntax(7)),
    ("promote A h", HeadFault::Syntax(8)),
    ("promote Ix h", HeadFault::Syntax(8)),
    ("promote W 1", HeadFault::Syntax(10)),
    ("promote W h=1", HeadFault::Syntax(10)),
    ("promote W h=99999999999", HeadFault::Syntax(10)),
    ("promote W h.txt", HeadFault::Syntax(10)),
    ("promote W h=", HeadFault::Syntax(11)),
    ("promote W h V", HeadFault::Syntax(12)),
    ("image E h V", HeadFault::Syntax(6)),
    ("image W h", HeadFault::Syntax(9)),
    ("image W h Ab", HeadFault::Syntax(10)),
    ("image W h \"V\"", HeadFault::Syntax(10)),
    ("image W h V x", HeadFault::Syntax(12)),
    ("combine W", HeadFault::Syntax(9)),
    ("combine A a", HeadFault::Syntax(8)),
    ("combine W=1 a", HeadFault::Syntax(8)),
    ("combine W 5", HeadFault::Syntax(10)),
    ("combine W a,b", HeadFault::Syntax(11)),
    ("combine W a=5b", HeadFault::Syntax(13)),
    ("combine W a=5b=99999999999", HeadFault::Syntax(13)),
    ("combine W a =5", HeadFault::Syntax(12)),
    ("combine W a= 5", HeadFault::Syntax(11)),
    ("combine W a=- 1", HeadFault::Syntax(11)),
    ("combine W a=", HeadFault::Syntax(11)),
    ("combine W a=1=2", HeadFault::Syntax(13)),
    ("combine W a.txt", HeadFault::Syntax(10)),
    ("combine W a b.txt c=99999999999", HeadFault::Syntax(12)),
    (
        "combine W a1234567890123456789012345678901234567890123456789012345678901234=99999999999",
        HeadFault::Syntax(10),
    ),
    ("combine W a=2147483648", HeadFault::Number(12)),
    ("combine W a b=-2147483649 c", HeadFault::Number(14)),
    ("combine W a=99999999999 9", HeadFault::Number(12)),
    ("combine W a=99999999999b", HeadFault::Number(12)),
];

// Asserts that each text has its fault.
fn expect_faults(rt: &impl Abort, alloc: Global, rows: &[(&str, HeadFault)]) {
    for (text, wanted) in rows {
        expect_value(rt, text, &read(rt, alloc, text).err(), &Some(*wanted));
    }
}

#[test]
fn faults_of_words_are_the_first(rt: HostRuntime) {
    expect_faults(&rt, rt.alloc(), &FAULTS);
}

//! The heads of commands: what they have, and their first faults.

ghost use Rattle.std.specs.Prelude.{◌<◌, ◌^◌, length};

use crate::given::{given, no_answer};
use crate::outcomes::{expect_bytes, expect_text, expect_value};
use command_head::{Alphabets, HeadFault, RegParts, first_word, named_parts, reg_parts};
use digit_tuple::letter_set::LetterSet;
use digit_tuple::name::Name;
use std::alloc::Global;
use std::process::Abort;

// Writes sets, each in braces.
fn show_sets(rt: &impl Abort, alloc: Global, sets: &[LetterSet], text: &mut String) {
    for set in sets {
        show_set(rt, alloc, set.members(), text);
    }
}

// Writes a set in braces.
fn show_set(rt: &impl Abort, alloc: Global, members: &[i32], text: &mut String) {
    let mut before = "{";
    for member in members {
        given(
            rt,
            text.push_str(&given(rt, format!(in alloc; "{before}{member}"))),
        );
        before = ",";
    }
    given(rt, text.push('}'));
}

// Writes names, each after a blank.
fn show_names(rt: &impl Abort, names: &[Name], text: &mut String) {
    for name in names {
        given(rt, text.push(' '));
        given(rt, text.push_str(name.as_str()));
    }
}

// The name, the sets or systems, and after `=` the quoted text.
fn shown(rt: &impl Abort, alloc: Global, parts: &RegParts<'_>) -> String {
    let mut text = given(rt, String::from_str(alloc, parts.name.as_str()));
    match &parts.alphabets {
        Alphabets::Sets(sets) => show_sets(rt, alloc, sets.as_slice(), &mut text),
        Alphabets::Systems(names) => show_names(rt, names, &mut text),
    }
    push_body(rt, &mut text, parts.body);
    text
}

// Writes `=` and a quoted text.
fn push_body(rt: &impl Abort, text: &mut String, body: &[u8]) {
    given(rt, text.push('='));
    for byte in body {
        given(rt, text.push(char::from(*byte)));
    }
}

// What a short text has, as a text, or its fault.
fn read(rt: &impl Abort, alloc: Global, text: &str) -> Result<String, HeadFault> {
    if text.len() > 1000 {
        return no_answer(rt);
    }
    match reg_parts(alloc, text.as_bytes()) {
        Ok(parts) => Ok(shown(rt, alloc, &parts)),
        Err(fault) => Err(fault),
    }
}

// Texts and what they have.
static HEADS: [(&str, &str); 10] = [
    ("reg ab {0,1} \"0*1\"", "ab{0,1}=0*1"),
    ("reg a{ 7 , -3,2}\"\"\n", "a{-3,2,7}="),
    ("reg\tx_9 {007} \"a;b\n\" ", "x_9{7}=a;b\n"),
    (
        "reg msd_2 {-2147483648,2147483647} \"0\"",
        "msd_2{-2147483648,2147483647}=0",
    ),
    ("reg a {0}{1}\"R\"", "a{0}{1}=R"),
    ("reg a{1,0} {2}\t{-0}\"R\"", "a{0,1}{2}{0}=R"),
    ("reg a msd_2 \"1\"", "a msd_2=1"),
    (
        "reg a msd_2 lsd_fib msd_41 \"x\"",
        "a msd_2 lsd_fib msd_41=x",
    ),
    ("reg a msd_02\nmsd_1\"\"", "a msd_02 msd_1="),
    (
        "reg a msd_0123456789012345678901234567890123456789012345678901234567 \"0\"",
        "a msd_0123456789012345678901234567890123456789012345678901234567=0",
    ),
];

#[test]
fn heads_are_read(rt: HostRuntime) {
    for (text, wanted) in &HEADS {
        expect_text(&rt, text, &given(&rt, read(&rt, rt.alloc(), text)), wanted);
    }
}

// Texts and their first faults: of sets, of systems, and numbers out of 32 bits.
static FAULTS: [(&str, HeadFault); 30] = [
    ("rege a {0} \"0\"", HeadFault::Syntax(0)),
    ("reg", HeadFault::Syntax(3)),
    ("reg a  ", HeadFault::Syntax(7)),
    ("reg 1 {0} \"0\"", HeadFault::Syntax(4)),
    ("reg a=1 {0} \"0\"", HeadFault::Syntax(4)),
    ("reg a=- {0} \"0\"", HeadFault::Syntax(5)),
    ("reg a.txt {0} \"0\"", HeadFault::Syntax(4)),
    ("reg a.tx {0} \"0\"", HeadFault::Syntax(5)),
    ("reg a {} \"0\"", HeadFault::Syntax(7)),
    ("reg a {0,} \"0\"", HeadFault::Syntax(9)),
    ("reg a {0,00} \"0\"", HeadFault::Syntax(9)),
    ("reg a {0,- 1} \"0\"", HeadFault::Syntax(9)),
    ("reg a {0 1} \"0\"", HeadFault::Syntax(9)),
    ("reg a {0} \"0", HeadFault::Syntax(10)),
    ("reg a {0} \"0\" {1}", HeadFault::Syntax(14)),
    ("reg a {0} ", HeadFault::Syntax(10)),
    ("reg a {0},{1} \"0\"", HeadFault::Syntax(9)),
    ("reg a msd_2 {0,1} \"[0,0]\"", HeadFault::Syntax(12)),
    ("reg a {0}msd_2 \"0\"", HeadFault::Syntax(9)),
    ("reg a msd_2_3 \"0\"", HeadFault::Syntax(6)),
    ("reg a msd_ \"0\"", HeadFault::Syntax(6)),
    ("reg a Msd_2 \"0\"", HeadFault::Syntax(6)),
    ("reg a msd_2=1 \"0\"", HeadFault::Syntax(6)),
    ("reg a lsd_2 msd_2.txt \"0\"", HeadFault::Syntax(12)),
    ("reg a msd_2= \"0\"", HeadFault::Syntax(11)),
    ("reg a msd_2", HeadFault::Syntax(11)),
    (
        "reg a msd_01234567890123456789012345678901234567890123456789012345678 \"0\"",
        HeadFault::Syntax(6),
    ),
    ("reg a {0, 2147483648,} \"0\"", HeadFault::Number(10)),
    ("reg a {-2147483649} \"0\"", HeadFault::Number(7)),
    (
        "reg a {0} {1}{00,18446744073709551616} \"0\"",
        HeadFault::Number(17),
    ),
];

#[test]
fn faults_are_the_first(rt: HostRuntime) {
    for (text, wanted) in &FAULTS {
        let found = read(&rt, rt.alloc(), text).err();
        expect_value(&rt, text, &found, &Some(*wanted));
    }
}

// The name and after `=` the quoted text of a head with the word `def`, or its fault.
fn read_named(rt: &impl Abort, alloc: Global, text: &str) -> Result<String, HeadFault> {
    match named_parts(alloc, b"def", text.as_bytes()) {
        Ok(parts) => {
            let mut shown = given(rt, String::from_str(alloc, parts.name.as_str()));
            push_body(rt, &mut shown, parts.body);
            Ok(shown)
        }
        Err(fault) => Err(fault),
    }
}

// Heads with the word `def`, and what they have.
static NAMED: [(&str, &str); 4] = [
    ("def a \"x\"", "a=x"),
    ("def\tab_1 \n \"E y\"\n", "ab_1=E y"),
    ("def a\"\"", "a="),
    ("def def \"a;b\n\" ", "def=a;b\n"),
];

// Texts that are no such heads, and their first faults.
static NOT_NAMED: [(&str, HeadFault); 8] = [
    ("reg a \"x\"", HeadFault::Syntax(0)),
    ("def", HeadFault::Syntax(3)),
    ("def 1 \"x\"", HeadFault::Syntax(4)),
    ("def a", HeadFault::Syntax(5)),
    ("def a x", HeadFault::Syntax(6)),
    ("def a {0} \"x\"", HeadFault::Syntax(6)),
    ("def a \"x", HeadFault::Syntax(6)),
    ("def a \"x\" y", HeadFault::Syntax(10)),
];

#[test]
fn named_heads_are_read(rt: HostRuntime) {
    for (text, wanted) in &NAMED {
        expect_text(
            &rt,
            text,
            &given(&rt, read_named(&rt, rt.alloc(), text)),
            wanted,
        );
    }
}

#[test]
fn other_heads_are_refused(rt: HostRuntime) {
    for (text, wanted) in &NOT_NAMED {
        let found = read_named(&rt, rt.alloc(), text).err();
        expect_value(&rt, text, &found, &Some(*wanted));
    }
}

// Texts and their first words.
static FIRST_WORDS: [(&str, &str); 3] = [
    ("reg a", "reg"),
    ("eval\"x\"", "eval"),
    ("prove{a}\t", "prove{a}"),
];

#[test]
fn the_first_word_ends_at_a_blank_or_a_quote(rt: HostRuntime) {
    for (text, wanted) in &FIRST_WORDS {
        let found = first_word(text.as_bytes());
        expect_bytes(&rt, text, found, wanted.as_bytes());
    }
}

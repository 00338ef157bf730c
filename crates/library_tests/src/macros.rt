//! Texts with calls of macros, and their expansions or first faults.

use crate::answers::{Asked, Repeated, expect_answers, expect_repeated};
use crate::given::given;
use crate::long_texts::string_of;
use crate::outcomes::expect_text;
use crate::text_rows::{FIELD_END, ROW_END, last_field_of, table};
use macro_expand::{MacroFault, Macros, expand};
use std::alloc::{AllocError, Global};
use std::process::Abort;

// The macros of the rows, each with its text.
pub(crate) const MACROS: &str = table![
    ("dbl", "%0=2*%1"),
    ("two", "%0 & %0"),
    ("s", "#s()"),
    ("b", "%0;%1"),
    ("e", ""),
    ("one", "%0"),
    ("p", "100%"),
    ("t", "%12"),
    ("q", "%1%0"),
    ("big", "%18446744073709551616"),
    ("max", "%18446744073709551615"),
    ("inner", "#dbl(%0,%0)"),
    ("pass", "#%0(%1)"),
    ("bad", "x #"),
    ("sp", "% 0"),
    ("pct", "%%0"),
    ("z", "%007"),
    ("u", "#tri(%0)"),
    ("low", "#%0"),
    ("d", "%0%0"),
];

// Texts and what they expand to.
const EXPANSIONS: &str = table![
    ("#dbl(6,x)", "6=2*x"),
    ("", ""),
    ("x=1", "x=1"),
    ("#b((x,y),T[i,j])", "(x,y);T[i,j]"),
    ("#b(x],y)", "x];y"),
    ("#b([x,y],z)", "[x,y];z"),
    ("#b([x,(y],z),w)", "[x,(y],z);w"),
    ("#b(x,[y,z)", "x;[y,z"),
    ("#b(],x)", "];x"),
    ("#b(x,]]y)", "x;]]y"),
    ("#b([[x],y],z)", "[[x],y];z"),
    ("#b (x,y)", "x;y"),
    ("#b \t\r\n(x,y)", "x;y"),
    ("#e()", ""),
    ("#e( \t)", ""),
    ("a#e(x,y)b", "ab"),
    ("#one( x )", " x "),
    ("#b(,)", ";"),
    ("#b( , )", " ; "),
    ("#b(x,)", "x;"),
    ("#b(x,y,z,)", "x;y"),
    ("#p()", "100%"),
    ("#t(0,1,2,3,4,5,6,7,8,9,a,b,c)", "c"),
    ("#q(x,y)", "yx"),
    ("#inner(z)", "z=2*z"),
    ("#pass(one,y)", "y"),
    ("#sp(x)", "% 0"),
    ("#pct(x)", "%x"),
    ("#z(0,1,2,3,4,5,6,7)", "7"),
    ("#one(#one(#one(x)))", "x"),
    ("#q(#one(x),#dbl(1,y))", "1=2*yx"),
    ("#one(()(()))", "()(())"),
    ("#one(x))", "x)"),
    ("#b(#q(x,y),z)", "yx;z"),
    ("#one(%0)", "%0"),
    ("x %0 y", "x %0 y"),
    ("#one(x)#one(y) #one(z)", "xy z"),
    ("#b(x,y)]", "x;y]"),
];

// Texts and their first faults, with what these keep.
const FAULTS: &str = table![
    ("#dbl(6)", "! MacroArgs dbl 1 1"),
    ("#tri(6)", "! Unknown tri"),
    ("#s()", "! MacroDepth s"),
    ("#b([x)", "! MacroArgs b 1 1"),
    ("#b(x,y", "! Syntax 0"),
    ("a #b(x,y", "! Syntax 2"),
    ("#", "! Syntax 0"),
    ("x#", "! Syntax 1"),
    ("# b(x,y)", "! Syntax 0"),
    ("#b", "! Syntax 0"),
    ("#b x", "! Syntax 0"),
    ("#1(x)", "! Syntax 0"),
    ("#_a(x)", "! Syntax 0"),
    ("##e()", "! Syntax 0"),
    ("#e(#tri())", "! Unknown tri"),
    ("#tri(#dbl(6))", "! MacroArgs dbl 1 1"),
    ("#tri(#)", "! Syntax 0"),
    ("#one()", "! MacroArgs one 0 0"),
    ("#one( )", "! MacroArgs one 0 0"),
    ("#t(0,1)", "! MacroArgs t 12 2"),
    ("#big(x)", "! MacroArgs big 18446744073709551615 1"),
    ("#max(x)", "! MacroArgs max 18446744073709551615 1"),
    ("#pass(tri,y)", "! Unknown tri"),
    ("#pass( one,y)", "! Syntax 0"),
    ("#bad()", "! Syntax 2"),
    ("x#one(a#)", "! Syntax 1"),
    ("#b(x, #)", "! Syntax 1"),
    ("#z(0)", "! MacroArgs z 7 1"),
    ("#one((x)", "! Syntax 0"),
    ("#u(#)", "! Syntax 0"),
    ("#u(1)", "! Unknown tri"),
    ("#one(#s())", "! MacroDepth s"),
    ("#dbl(#dbl(1))", "! MacroArgs dbl 1 1"),
    ("#low(x)", "! Syntax 0"),
    ("#One(x)", "! Unknown One"),
];

// The macros with these texts.
fn added(rt: &impl Abort, alloc: Global, texts: &str) -> Macros {
    let mut macros = Macros::new(alloc);
    for row in texts.split_terminator(ROW_END) {
        let (name, text) = last_field_of(row);
        given(rt, macros.add(name.as_bytes(), text.as_bytes()));
    }
    macros
}

// A fault with what it keeps.
fn line_of(alloc: Global, fault: &MacroFault) -> Result<String, AllocError> {
    match fault {
        MacroFault::Syntax(at) => format!(in alloc; "! Syntax {at}"),
        MacroFault::Unknown(name) => format!(in alloc; "! Unknown {}", name.as_str()),
        MacroFault::MacroArgs { name, place, given } => {
            format!(in alloc; "! MacroArgs {} {place} {given}", name.as_str())
        }
        MacroFault::MacroDepth(name) => format!(in alloc; "! MacroDepth {}", name.as_str()),
        MacroFault::MacroLong => String::from_str(alloc, "! MacroLong"),
        MacroFault::Memory => String::from_str(alloc, "! Memory"),
    }
}

// The expansion by macros with these texts, or after `! ` the first fault with what it keeps.
pub(crate) fn expansion(rt: &impl Abort, alloc: Global, macros: &str, text: &str) -> String {
    let found = expand(alloc, text.as_bytes(), &added(rt, alloc, macros));
    match found {
        Ok(bytes) => string_of(rt, alloc, &bytes),
        Err(fault) => given(rt, line_of(alloc, &fault)),
    }
}

#[test]
fn texts_expand_so(rt: HostRuntime) {
    expect_answers(&rt, rt.alloc(), Asked::Expansion, EXPANSIONS);
}

#[test]
fn texts_have_these_faults(rt: HostRuntime) {
    expect_answers(&rt, rt.alloc(), Asked::Expansion, FAULTS);
}

// How many bytes the expansion has by the macros of the rows and `m`, which is 16,383 calls of an empty macro; or the first
// fault.
pub(crate) fn expansion_length(rt: &impl Abort, alloc: Global, text: &str) -> String {
    let calls = given(rt, "#e()".repeat(alloc, 16383));
    let macros = given(
        rt,
        format!(in alloc; "{MACROS}m{FIELD_END}{calls}{ROW_END}"),
    );
    let found = expansion(rt, alloc, &macros, text);
    if found.starts_with('!') {
        found
    } else {
        given(rt, found.len().to_string(alloc))
    }
}

// Some calls within one another: what they open with, how many they are, what is inside and what closes them; and how
// many bytes they expand to, or a fault.
static NESTED: [Repeated; 8] = [
    ("#one(", 16, "x", ")", "97 bytes: 1"),
    ("#one(", 17, "x", ")", "103 bytes: ! MacroDepth one"),
    ("#tri(", 17, "x", ")", "103 bytes: ! MacroDepth tri"),
    ("#two(", 13, "x=1", ")", "81 bytes: 49149"),
    ("#two(", 14, "x=1", ")", "87 bytes: ! MacroLong"),
    ("#d(", 16, "x", ")", "65 bytes: 65536"),
    ("#d(", 15, "xy", ")", "62 bytes: 65536"),
    ("#d(", 15, "xyz", ")", "63 bytes: ! MacroLong"),
];

#[test]
fn calls_nest_16_deep_and_texts_have_65536_bytes(rt: HostRuntime) {
    expect_repeated(&rt, rt.alloc(), Asked::ExpansionLength, &NESTED);
}

// A part so many times and what follows: how many bytes the text expands to, or a fault.
static LONG: [Repeated; 12] = [
    ("x", 65536, "", "", "65536 bytes: 65536"),
    ("x", 65537, "", "", "65537 bytes: ! MacroLong"),
    ("x", 65536, "#e()", "", "65540 bytes: 65536"),
    ("x", 65537, "#", "", "65538 bytes: ! MacroLong"),
    ("x", 65536, "#", "", "65537 bytes: ! Syntax 65536"),
    ("x", 65536, "#one(x)", "", "65543 bytes: ! MacroLong"),
    ("#e()", 16384, "", "", "65536 bytes: 0"),
    ("#m()", 4, "", "", "16 bytes: 0"),
    ("#m()", 4, "#e()", "", "20 bytes: ! MacroLong"),
    ("#m()", 4, "#tri()", "", "22 bytes: ! MacroLong"),
    ("#m()", 4, "#", "", "17 bytes: ! Syntax 16"),
    ("#m()", 3, "#e(#m())", "", "20 bytes: ! MacroLong"),
];

#[test]
fn texts_have_65536_bytes_and_calls(rt: HostRuntime) {
    expect_repeated(&rt, rt.alloc(), Asked::ExpansionLength, &LONG);
}

// How many bytes a macro's name has, and what a call of the macro expands to: the longest name has 64.
static NAMES: [(&str, usize, &str); 3] = [
    ("1 byte", 1, "text"),
    ("64 bytes", 64, "text"),
    ("65 bytes", 65, "! Syntax 0"),
];

// The expansion of a call of a macro whose name has so many bytes.
fn named_call(rt: &impl Abort, alloc: Global, length: usize) -> String {
    let name = given(rt, "a".repeat(alloc, length));
    let macros = given(rt, format!(in alloc; "{name}{FIELD_END}text{ROW_END}"));
    let call = given(rt, format!(in alloc; "#{name}()"));
    expansion(rt, alloc, &macros, &call)
}

#[test]
fn names_have_64_bytes(rt: HostRuntime) {
    for (row, length, wanted) in &NAMES {
        expect_text(&rt, row, &named_call(&rt, rt.alloc(), *length), wanted);
    }
}

// Macros of which one is added twice.
const TWICE: &str = table![("f", "x=1"), ("g", "x=2"), ("f", "x=3")];

// Their names, and what is under each.
const KEPT: &str = table![("f", "x=3"), ("g", "x=2"), ("h", "none")];

#[test]
fn the_last_text_added_is_kept(rt: HostRuntime) {
    let macros = added(&rt, rt.alloc(), TWICE);
    for row in KEPT.split_terminator(ROW_END) {
        let (name, wanted) = last_field_of(row);
        let text = macros.text_of(name.as_bytes()).unwrap_or(b"none");
        expect_text(&rt, name, &string_of(&rt, rt.alloc(), text), wanted);
    }
    let found = expansion(&rt, rt.alloc(), TWICE, "#f() & #g()");
    expect_text(&rt, "#f() & #g()", &found, "x=3 & x=2");
}

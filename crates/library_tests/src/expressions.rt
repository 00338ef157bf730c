//! Texts of expressions, with their trees by hand, and texts that are none.

use crate::given::given;
use crate::headers::header_of;
use crate::outcomes::{expect_text, expect_value};
use digit_tuple::header::Header;
use reference::words::{Word, all_words};
use regex_build::fault::RegexFault;
use regex_build::parse;
use regex_build::postfix_symbol::PostfixSymbol;
use regex_build::regex::Regex;
use std::alloc::Global;
use std::process::Abort;

// Writes the members of a letter.
fn show_members(rt: &impl Abort, alloc: Global, members: &[i32], text: &mut String) {
    for member in members {
        given(
            rt,
            text.push_str(&given(rt, format!(in alloc; "'{member}"))),
        );
    }
}

// The sign of a symbol, but for a letter: `&` for one after the other.
fn sign_of(symbol: &PostfixSymbol) -> &'static str {
    match symbol {
        PostfixSymbol::Empty => "()",
        PostfixSymbol::Letter(_) => "",
        PostfixSymbol::Any => ".",
        PostfixSymbol::Either => "|",
        PostfixSymbol::Follow => "&",
        PostfixSymbol::Star => "*",
        PostfixSymbol::Plus => "+",
        PostfixSymbol::Optional => "?",
    }
}

// Writes a symbol: a letter by its members, or its sign.
fn show_symbol(rt: &impl Abort, alloc: Global, symbol: &PostfixSymbol, text: &mut String) {
    match symbol {
        PostfixSymbol::Letter(letter) => show_members(rt, alloc, letter.members(), text),
        _ => given(rt, text.push_str(sign_of(symbol))),
    }
}

// The symbols in postfix order.
fn shown(rt: &impl Abort, alloc: Global, regex: &Regex) -> String {
    let mut text = String::new(alloc);
    for symbol in regex.symbols() {
        show_symbol(rt, alloc, symbol, &mut text);
    }
    text
}

// Texts over the set of -1, 0, 1, 7 and 10, and their symbols in postfix order.
static TREES: [(&str, &str); 11] = [
    ("0", "'0"),
    ("010", "'0'1&'0&"),
    ("0|1|0", "'0'1|'0|"),
    ("01|1*0", "'0'1&'1*'0&|"),
    ("0*+?", "'0*+?"),
    ("(0|1)*1", "'0'1|*'1&"),
    ("0(10)", "'0'1'0&&"),
    (" ( ) | .\t", "().|"),
    ("[ 1 0 ]", "'10"),
    ("[- 1][007]", "'-1'7&"),
    ("[0]+", "'0+"),
];

// The symbols in postfix order of the expression of a text over sets.
fn tree(rt: &impl Abort, alloc: Global, tracks: &[&[i32]], text: &str) -> String {
    let header = header_of(rt, alloc, tracks);
    shown(
        rt,
        alloc,
        &given(rt, parse(alloc, text.as_bytes(), &header)),
    )
}

#[test]
fn trees_over_one_set(rt: HostRuntime) {
    for (text, symbols) in &TREES {
        let found = tree(&rt, rt.alloc(), &[&[-1, 0, 1, 7, 10]], text);
        expect_text(&rt, text, &found, symbols);
    }
}

// Two sets.
const TWO_SETS: &[&[i32]] = &[&[0, 1], &[-2147483648, 2147483647]];

#[test]
fn trees_over_two_sets(rt: HostRuntime) {
    let text = "[0,-2147483648].|[1,2147483647]*";
    let symbols = "'0'-2147483648.&'1'2147483647*|";
    expect_text(&rt, text, &tree(&rt, rt.alloc(), TWO_SETS, text), symbols);
}

// Sets, texts over them, and their faults.
static FAULTS: [(&[&[i32]], &str, Option<RegexFault>); 30] = [
    (&[&[0, 1]], "", Some(RegexFault::Syntax(0))),
    (&[&[0, 1]], " \t", Some(RegexFault::Syntax(2))),
    (&[&[0, 1]], "*0", Some(RegexFault::Syntax(0))),
    (&[&[0, 1]], "0|", Some(RegexFault::Syntax(2))),
    (&[&[0, 1]], "0||1", Some(RegexFault::Syntax(2))),
    (&[&[0, 1]], "(|0)", Some(RegexFault::Syntax(1))),
    (&[&[0, 1]], "(0", Some(RegexFault::Syntax(2))),
    (&[&[0, 1]], "0)", Some(RegexFault::Syntax(1))),
    (&[&[0, 1]], "02", Some(RegexFault::Number(1))),
    (&[&[0, 1]], "0*2x", Some(RegexFault::Number(2))),
    (&[&[0, 1]], "0x2", Some(RegexFault::Syntax(1))),
    (&[&[0, 1]], "[]", Some(RegexFault::Syntax(1))),
    (&[&[0, 1]], "[0,1]", Some(RegexFault::Syntax(2))),
    (&[&[0, 1]], "[0", Some(RegexFault::Syntax(2))),
    (&[&[0, 1]], "[-]", Some(RegexFault::Syntax(1))),
    (&[&[0, 1]], "[ - x", Some(RegexFault::Syntax(2))),
    (&[&[0, 1]], "[0-1]", Some(RegexFault::Syntax(2))),
    (&[&[0, 1]], "-1", Some(RegexFault::Syntax(0))),
    (&[&[0, 1]], "0[ 12 34", Some(RegexFault::Number(3))),
    (
        &[&[0, 1]],
        "[99999999999999999999]",
        Some(RegexFault::Number(1)),
    ),
    (&[&[0, 1]], "[4294967296]", Some(RegexFault::Number(1))),
    (&[&[0, 1]], "[- 4294967296]x", Some(RegexFault::Number(1))),
    (&[], " 0", Some(RegexFault::Syntax(1))),
    (&[], ".[0]", Some(RegexFault::Syntax(1))),
    (&[], "(.|())*", None),
    (&[&[0, 1], &[0]], "0", Some(RegexFault::Syntax(0))),
    (&[&[0, 1], &[0]], "[0]", Some(RegexFault::Syntax(2))),
    (&[&[0, 1], &[0]], "[0,0,0]", Some(RegexFault::Syntax(4))),
    (&[&[0, 1], &[0]], "[0,1]", Some(RegexFault::Number(3))),
    (&[&[0, 1], &[0]], "[1,0]", None),
];

// The fault of a text over sets, if it has one.
fn fault_over(rt: &impl Abort, alloc: Global, tracks: &[&[i32]], text: &str) -> Option<RegexFault> {
    let header = header_of(rt, alloc, tracks);
    parse(alloc, text.as_bytes(), &header).err()
}

#[test]
fn texts_have_these_faults(rt: HostRuntime) {
    for (tracks, text, fault) in &FAULTS {
        let found = fault_over(&rt, rt.alloc(), tracks, text);
        expect_value(&rt, text, &found, fault);
    }
}

// The fault of so many parentheses in one another, if they have one.
fn fault_of_nesting(rt: &impl Abort, alloc: Global, depth: usize) -> Option<RegexFault> {
    let mut text = given(rt, "(".repeat(alloc, depth));
    given(rt, text.push_str(&given(rt, ")".repeat(alloc, depth))));
    fault_over(rt, alloc, &[&[0]], &text)
}

#[test]
fn parentheses_nest_128_deep(rt: HostRuntime) {
    let most = fault_of_nesting(&rt, rt.alloc(), 128);
    expect_value(&rt, "128", &most, &None);
    let more = fault_of_nesting(&rt, rt.alloc(), 129);
    expect_value(&rt, "129", &more, &Some(RegexFault::Depth(128)));
}

// How many texts over these bytes have an expression, up to a length.
fn read(rt: &impl Abort, alloc: Global, header: &Header, bytes: &[u8], longest: usize) -> usize {
    let mut count: usize = 0;
    let letters = given(rt, u32::try_from(bytes.len()));
    for length in 0..=longest {
        let words = given(rt, all_words(alloc, letters, length));
        count = count.saturating_add(read_of(rt, alloc, header, bytes, &words));
    }
    count
}

// How many of these words, their letters indices into the bytes, are the text of an expression.
fn read_of(rt: &impl Abort, alloc: Global, header: &Header, bytes: &[u8], words: &[Word]) -> usize {
    let mut count: usize = 0;
    for word in words {
        let text = bytes_at(rt, alloc, bytes, word.letters());
        count = count.saturating_add(usize::from(is_expression(alloc, header, &text)));
    }
    count
}

// The bytes at these places.
fn bytes_at(rt: &impl Abort, alloc: Global, bytes: &[u8], places: &[u32]) -> Vec<u8> {
    let mut text = Vec::new(alloc);
    for place in places {
        given(
            rt,
            text.push(*bytes.get(*place as usize).expect(rt, "a row in form")),
        );
    }
    text
}

// Whether a text is an expression.
fn is_expression(alloc: Global, header: &Header, text: &[u8]) -> bool {
    parse(alloc, text, header).is_ok()
}

// Sets, bytes, the longest texts over them, and how many of these are expressions, counted outside by a plain
// recogniser that tries every way to read a text.
static READ: [(&[&[i32]], &str, usize, usize); 5] = [
    (&[&[-1, 0, 1]], "01()|*", 5, 677),
    (&[&[-1, 0, 1]], "1.()+?", 5, 1077),
    (&[&[-1, 0, 1]], "[]1-, ", 5, 95),
    (&[&[-1, 0, 1], &[-1, 0, 1]], "[]1,.", 6, 9),
    (&[], "()|.*", 5, 137),
];

// How many texts over these bytes have an expression over sets, up to a length.
fn read_over(
    rt: &impl Abort,
    alloc: Global,
    tracks: &[&[i32]],
    bytes: &str,
    longest: usize,
) -> usize {
    let header = header_of(rt, alloc, tracks);
    read(rt, alloc, &header, bytes.as_bytes(), longest)
}

#[test]
fn expressions_are_counted(rt: HostRuntime) {
    for (tracks, bytes, longest, count) in &READ {
        let found = read_over(&rt, rt.alloc(), tracks, bytes, *longest);
        expect_value(&rt, bytes, &found, count);
    }
}

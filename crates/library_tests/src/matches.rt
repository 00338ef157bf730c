//! The tables of expressions, and which words match them.

use crate::calls::{Call, expect_widths};
use crate::given::given;
use crate::outcomes::{expect_text, expect_value, table_outcome};
use crate::table_texts::{branches_of, sets_of};
use digit_tuple::alphabet::Alphabet;
use digit_tuple::header::Header;
use digit_tuple::limit::Limit;
use digit_tuple::nfa::Nfa;
use digit_tuple::sets::Sets;
use reference::matching::matches;
use reference::tree::tree_of;
use reference::tuples::tuples_of;
use reference::words::all_words;
use regex_build::build::build;
use regex_build::letter_tuple::LetterTuple;
use regex_build::postfix_symbol::PostfixSymbol;
use regex_build::regex::Regex;
use regex_build::{parse, positions};
use std::alloc::Global;
use std::process::Abort;

// The letter of one track with this member.
fn letter_of(rt: &impl Abort, alloc: Global, member: i32) -> LetterTuple {
    let mut letter = LetterTuple::new(alloc);
    given(rt, letter.push(member));
    letter
}

// The symbol that a byte means: a digit, or a sign, where `,` puts one expression after another, and `_` is
// the empty word.
fn symbol_of(rt: &impl Abort, alloc: Global, byte: u8) -> PostfixSymbol {
    match byte {
        b'0'..=b'9' => PostfixSymbol::Letter(letter_of(rt, alloc, i32::from(byte - b'0'))),
        b'.' => PostfixSymbol::Any,
        b'|' => PostfixSymbol::Either,
        b',' => PostfixSymbol::Follow,
        b'*' => PostfixSymbol::Star,
        b'+' => PostfixSymbol::Plus,
        b'?' => PostfixSymbol::Optional,
        _ => PostfixSymbol::Empty,
    }
}

// The expression of these symbols over so many tracks of the digits 0 and 1, if they are one.
fn by_symbols(rt: &impl Abort, alloc: Global, sets: Sets, text: &str) -> Option<Regex> {
    let mut symbols = Vec::new(alloc);
    for byte in text.bytes() {
        given(rt, symbols.push(symbol_of(rt, alloc, byte)));
    }
    Regex::try_new(sets, symbols)
}

// The table of the expression of these symbols.
fn symbols_table(rt: &impl Abort, alloc: Global, sizes: &[u32], text: &str) -> String {
    let made = by_symbols(rt, alloc, sets_of(rt, alloc, sizes), text);
    let table = positions_of(rt, alloc, &made.expect(rt, "a row in form"));
    branches_of(rt, alloc, &table)
}

// The table of an expression's letters.
fn positions_of(rt: &impl Abort, alloc: Global, regex: &Regex) -> Nfa {
    let _alphabet = given(rt, Alphabet::of_sets(alloc, regex.sets()));
    given(rt, positions(alloc, regex))
}

// Symbols in postfix order, and the table of their expression.
static TABLES: [(&str, &str); 15] = [
    ("_", "/!"),
    ("0", "/ 0>1/!"),
    (".", "/ 0>1 1>1/!"),
    ("01,", "/ 0>1/ 1>2/!"),
    ("01|", "/ 0>1 1>2/!/!"),
    ("0?", "/! 0>1/!"),
    ("0+", "/ 0>1/! 0>1"),
    ("0*", "/! 0>1/! 0>1"),
    ("0****", "/! 0>1/! 0>1"),
    ("0*1,", "/ 0>1 1>2/ 0>1 1>2/!"),
    ("1*0*,1,", "/ 0>2 1>1 1>3/ 0>2 1>1 1>3/ 0>2 1>3/!"),
    ("01|*1,", "/ 0>1 1>2 1>3/ 0>1 1>2 1>3/ 0>1 1>2 1>3/!"),
    ("01?,+", "/ 0>1/! 0>1 1>2/! 0>1"),
    ("0*1*,*", "/! 0>1 1>2/! 0>1 1>2/! 0>1 1>2"),
    ("0_|1,", "/ 0>1 1>2/ 1>2/!"),
];

#[test]
fn tables_of_small_expressions(rt: HostRuntime) {
    for (text, table) in &TABLES {
        expect_text(
            &rt,
            text,
            &symbols_table(&rt, rt.alloc(), &[2], text),
            table,
        );
    }
    let two = symbols_table(&rt, rt.alloc(), &[2, 2], ".?");
    expect_text(&rt, ".?", &two, "/! 0>1 1>1 2>1 3>1/!");
}

// Symbols that are no expression over one track.
static NO_EXPRESSIONS: [&str; 4] = ["", "00", "0|1", "02,"];

#[test]
fn symbols_that_are_no_expression(rt: HostRuntime) {
    for text in &NO_EXPRESSIONS {
        let sets = sets_of(&rt, rt.alloc(), &[2]);
        let found = by_symbols(&rt, rt.alloc(), sets, text);
        expect_value(&rt, text, &found.is_none(), &true);
    }
}

// The expression over tracks of these sizes.
fn regex_of(rt: &impl Abort, alloc: Global, sizes: &[u32], text: &str) -> Regex {
    let header = Header::Sets(sets_of(rt, alloc, sizes));
    given(rt, parse(alloc, text.as_bytes(), &header))
}

// The automaton of an expression's matches, under a limit, or why there is none.
pub fn built(rt: &impl Abort, alloc: Global, sizes: &[u32], text: &str, limit: u32) -> String {
    let regex = regex_of(rt, alloc, sizes, text);
    table_outcome(rt, alloc, build(alloc, &regex, Limit::new(limit)))
}

// Expressions and their automata. The width counts the empty word, and a word after which none is accepted.
static WIDTHS: [(Call, &str); 3] = [
    (Call::Built("()"), "2 /!"),
    (Call::Built("0*1"), "4 / 0>0 1>1/!"),
    (Call::Built("01|10"), "6 / 0>1 1>2/ 1>3/ 0>3/!"),
];

#[test]
fn widths_are_those_worked_out(rt: HostRuntime) {
    expect_widths(&rt, rt.alloc(), &WIDTHS);
}

// The last five letters of a word count, and the empty word apart.
#[test]
fn the_empty_word_counts(rt: HostRuntime) {
    let text = "(0|1)*1(0|1)(0|1)(0|1)(0|1)";
    let regex = regex_of(&rt, rt.alloc(), &[2], text);
    let made = given(&rt, build(rt.alloc(), &regex, Limit::new(33)));
    expect_value(&rt, text, &made.width, &33);
    expect_value(&rt, text, &made.result.states(), &32);
    expect_text(&rt, text, &built(&rt, rt.alloc(), &[2], text, 32), "States");
}

#[test]
fn seventeen_tracks_are_too_many(rt: HostRuntime) {
    let regex = regex_of(&rt, rt.alloc(), &[2; 16], "()");
    let made = given(&rt, build(rt.alloc(), &regex, Limit::new(2)));
    let letters = made.result.alphabet().letters();
    expect_value(&rt, "sixteen", &letters, &65536);
    let more = built(&rt, rt.alloc(), &[2; 17], "()", 0);
    expect_text(&rt, "seventeen", &more, "Letters");
}

// How many words up to a length match the expression, by the plain program.
fn matching(rt: &impl Abort, alloc: Global, regex: &Regex, longest: usize) -> usize {
    let mut count: usize = 0;
    for length in 0..=longest {
        count = count.saturating_add(matching_of(rt, alloc, regex, length));
    }
    count
}

// How many words of a length match it.
fn matching_of(rt: &impl Abort, alloc: Global, regex: &Regex, length: usize) -> usize {
    let alphabet = given(rt, Alphabet::of_sets(alloc, regex.sets()));
    let tree = given(rt, tree_of(alloc, regex));
    let mut count: usize = 0;
    for word in &given(rt, all_words(alloc, alphabet.letters(), length)) {
        let tuples = given(
            rt,
            tuples_of(alloc, &alphabet, regex.sets().as_slice(), word.letters()),
        );
        count = count.saturating_add(usize::from(matches(&tree, &tuples)));
    }
    count
}

// How many words up to a length match the expression of a text.
fn matching_text(
    rt: &impl Abort,
    alloc: Global,
    sizes: &[u32],
    text: &str,
    longest: usize,
) -> usize {
    matching(rt, alloc, &regex_of(rt, alloc, sizes, text), longest)
}

// Sizes of tracks, an expression, the longest words, and how many up to that length match.
static MATCHES: [(&[u32], &str, usize, usize); 21] = [
    (&[2], "()", 4, 1),
    (&[2], "01", 4, 1),
    (&[2], "0|1", 4, 2),
    (&[2], "0*1*", 4, 15),
    (&[2], "0**", 4, 5),
    (&[2], "(0|1)*1.", 4, 14),
    (&[2], "(01?)+", 4, 11),
    (&[2], "()|1+", 4, 5),
    (&[2], "((0*)*1)*", 4, 16),
    (&[2], "(0+|1?)*01", 4, 7),
    (&[2], "(()|0)+1", 4, 4),
    (&[2], "(0?)+", 4, 5),
    (&[2], "0+?*|1", 4, 6),
    (&[2], "(..)+", 4, 20),
    (&[2], "0|1()|10?1", 4, 4),
    (&[2, 2], "()", 3, 1),
    (&[2, 2], "[0,1]", 3, 1),
    (&[2, 2], ".?[1,0]+.", 3, 20),
    (&[2, 2], "([0,0]|[1,1])*", 3, 15),
    (&[2, 2], "([0,1]*.)?", 3, 13),
    (&[2, 2], "[1,1]?.+|[0,0]", 3, 84),
];

#[test]
fn matching_words_are_counted(rt: HostRuntime) {
    for (sizes, text, longest, count) in &MATCHES {
        let found = matching_text(&rt, rt.alloc(), sizes, text, *longest);
        expect_value(&rt, text, &found, count);
    }
}

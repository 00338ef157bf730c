//! The texts of automata over sets and over systems, and what texts mean.

ghost use Rattle.std.specs.Prelude.{◌≡◌, IsTrue};

use crate::given::{given, no_answer};
use crate::headers::header_of;
use crate::outcomes::{expect_text, expect_value};
use crate::table_texts::listed;
use determinise::subset_construction::determinise;
use dfa_reading::{FileFault, FileHeader, Listed, read_relation};
use dfa_text::{print_relation, print_word};
use digit_tuple::alphabet::Alphabet;
use digit_tuple::dfa::Dfa;
use digit_tuple::header::Header;
use digit_tuple::limit::Limit;
use digit_tuple::name::Name;
use digit_tuple::nfa::Nfa;
use digit_tuple::systems::Systems;
use std::alloc::Global;
use std::process::Abort;

// The text of an automaton over the header's tracks.
fn text_of(rt: &impl Abort, alloc: Global, header: &Header, line: &str) -> String {
    let alphabet = given(rt, Alphabet::of_header(alloc, header));
    let dfa = listed(rt, alloc, line);
    if have_same_sizes(&alphabet, &dfa) {
        string_of(rt, alloc, &given(rt, print_relation(alloc, header, &dfa)))
    } else {
        no_answer(rt)
    }
}

// Whether the tracks of an alphabet have as many digits as those of an automaton.
fn have_same_sizes(alphabet: &Alphabet, dfa: &Dfa) -> bool
    ensures { IsTrue result → dfa.now.sizes ≡ alphabet.now }
{
    alphabet.sizes() == dfa.alphabet().sizes()
}

// Bytes as a text.
fn string_of(rt: &impl Abort, alloc: Global, bytes: &[u8]) -> String {
    let mut text = String::new(alloc);
    for byte in bytes {
        given(rt, text.push(char::from(*byte)));
    }
    text
}

// Sets, automata over them, and their texts.
static TEXTS: [(&[&[i32]], &str, &str); 3] = [
    // words that end in one 1
    (
        &[&[0, 1]],
        "x:2 = / 0>0 1>1/!",
        "{0,1}\n\n0 0\n0 -> 0\n1 -> 1\n\n1 1\n",
    ),
    // pairs of members
    (
        &[&[-3, 5], &[5, 7]],
        "x:2 y:2 = /! 1>0 2>0",
        "{-3,5} {5,7}\n\n0 1\n-3 7 -> 0\n5 5 -> 0\n",
    ),
    // no word
    (&[&[0, 1]], "x:2 = /", "{0,1}\n\n0 0\n"),
];

// The text of an automaton over sets.
fn text_over(rt: &impl Abort, alloc: Global, tracks: &[&[i32]], line: &str) -> String {
    text_of(rt, alloc, &header_of(rt, alloc, tracks), line)
}

#[test]
fn automata_over_sets_have_these_texts(rt: HostRuntime) {
    for (tracks, line, wanted) in &TEXTS {
        expect_text(&rt, line, &text_over(&rt, rt.alloc(), tracks, line), wanted);
    }
}

// The header of base 2 and base 12.
fn header_of_bases(rt: &impl Abort, alloc: Global) -> Header {
    let mut systems = Systems::new(alloc);
    given(rt, systems.push(given(rt, Name::new(alloc, "msd_2")), 2));
    given(rt, systems.push(given(rt, Name::new(alloc, "msd_12")), 12));
    Header::Systems(systems)
}

// The text of an automaton over base 2 and base 12.
fn text_over_bases(rt: &impl Abort, alloc: Global, line: &str) -> String {
    text_of(rt, alloc, &header_of_bases(rt, alloc), line)
}

#[test]
fn automata_over_systems_have_their_digits(rt: HostRuntime) {
    let text = text_over_bases(&rt, rt.alloc(), "x:2 y:12 = /! 0>0 23>0");
    let wanted = "msd_2 msd_12\n\n0 1\n0 0 -> 0\n1 11 -> 0\n";
    expect_text(&rt, "two systems", &text, wanted);
}

// The text of an automaton over the header's tracks whose states have these outputs.
fn word_text(
    rt: &impl Abort,
    alloc: Global,
    header: &Header,
    line: &str,
    outputs: &[Option<i32>],
) -> String {
    let alphabet = given(rt, Alphabet::of_header(alloc, header));
    let dfa = listed(rt, alloc, line);
    if have_same_sizes(&alphabet, &dfa) && outputs.len() == dfa.states() as usize {
        string_of(
            rt,
            alloc,
            &given(rt, print_word(alloc, header, &dfa, outputs)),
        )
    } else {
        no_answer(rt)
    }
}

// The same over base 2 and base 12.
fn word_over_bases(rt: &impl Abort, alloc: Global, line: &str, outputs: &[Option<i32>]) -> String {
    word_text(rt, alloc, &header_of_bases(rt, alloc), line, outputs)
}

#[test]
fn automata_with_outputs_have_their_letters(rt: HostRuntime) {
    let line = "x:2 y:12 = / 0>0 23>1/!";
    let text = word_over_bases(&rt, rt.alloc(), line, &[Some(-3), Some(2147483647)]);
    let wanted = "msd_2 msd_12\n\n0 -3\n0 0 -> 0\n1 11 -> 1\n\n1 2147483647\n";
    expect_text(&rt, "outputs", &text, wanted);
    let text = word_over_bases(&rt, rt.alloc(), line, &[None, Some(0)]);
    let wanted = "msd_2 msd_12\n\n0 -\n0 0 -> 0\n1 11 -> 1\n\n1 0\n";
    expect_text(&rt, "no letter", &text, wanted);
}

// A file as it is printed, and one as it may be written by hand.
const PRINTED: &str = "{0,1}\n\n0 0\n0 -> 1\n1 -> 2\n\n1 0\n0 -> 1\n1 -> 2\n\n2 1\n";

const BY_HAND: &str = "# a file by hand\r\n\n { 1 ,0}{5,-3}\r\n007 -2\n*\t-3->9 7\n9 0";

// A file, the letters of a word, and whether the file accepts it.
static WORDS: [(&str, &str, &[u32], bool); 7] = [
    ("printed, no letter", PRINTED, &[], false),
    ("printed, 0", PRINTED, &[0], false),
    ("printed, 0 1", PRINTED, &[0, 1], true),
    ("printed, 0 2", PRINTED, &[0, 2], false),
    ("by hand, no letter", BY_HAND, &[], true),
    ("by hand, 2", BY_HAND, &[2], true),
    ("by hand, 2 3", BY_HAND, &[2, 3], false),
];

// Whether a short file over sets accepts a word of letters.
fn accepts_word(rt: &impl Abort, alloc: Global, text: &[u8], word: &[u32]) -> bool {
    if text.len() >= 1000 {
        return no_answer(rt);
    }
    let table = table_over_sets(rt, alloc, &given(rt, read_relation(alloc, text)));
    given(rt, determinise(alloc, &table, Limit::new(100)))
        .result
        .accepts(word)
}

// The table of what a file over sets lists.
fn table_over_sets(rt: &impl Abort, alloc: Global, listed: &Listed) -> Nfa {
    if listed.states() == 0 {
        return no_answer(rt);
    }
    match listed.header() {
        FileHeader::Sets(_) => given(rt, listed.nfa(alloc, &[])),
        _ => no_answer(rt),
    }
}

#[test]
fn files_accept_these_words(rt: HostRuntime) {
    for (row, text, word, wanted) in &WORDS {
        let found = accepts_word(&rt, rt.alloc(), text.as_bytes(), word);
        expect_value(&rt, row, &found, wanted);
    }
}

// What is in a short file: how many states, or the line of the fault.
fn states_in(alloc: Global, text: &[u8]) -> Result<usize, u64> {
    if text.len() >= 1000 {
        return Err(0);
    }
    match read_relation(alloc, text) {
        Ok(listed) => Ok(listed.states()),
        Err(FileFault::File(line)) => Err(line),
        Err(_) => Err(0),
    }
}

// Files, and how many states they list, or the line of their first fault.
static FILES: [(&str, Result<usize, u64>); 11] = [
    (PRINTED, Ok(3)),
    (BY_HAND, Ok(2)),
    ("", Err(1)),
    ("{0}\n", Err(2)),
    ("{0}", Err(2)),
    ("{0,00}\n0 1\n", Err(1)),
    ("{0}\n0 +1\n", Err(2)),
    ("{0}\n0 1\n0 -> 3\n1 x\n", Err(4)),
    ("{0}\n0 1\n0 -> 3\n1 1\n", Err(3)),
    ("{0}\n0 1\n0 ->\n", Err(3)),
    ("{0}\n0 1\n\n0 1\n", Err(4)),
];

#[test]
fn files_are_read_or_name_a_line(rt: HostRuntime) {
    for (text, wanted) in &FILES {
        expect_value(&rt, text, &states_in(rt.alloc(), text.as_bytes()), wanted);
    }
}

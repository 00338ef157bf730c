//! The canonical automaton with a count of looks at transitions: the one that `canonical` gives, of tables whose minimal
//! automata were counted outside, and of automata over one letter on which Hopcroft's algorithm looks most. The count is
//! a ghost, so `bench/looks` counts what is looked at when the program runs.

ghost use Rattle.std.specs.Prelude.{◌≡◌, ◌<◌, IfOk};
ghost use Rattle.minimise.specs.Canonical.{IsCanonical};

use crate::given::{given, no_answer};
use crate::outcomes::expect_text;
use crate::table_texts::listed;
use digit_tuple::dfa::Dfa;
use digit_tuple::faults::OutOfMemory;
use minimise::canonical::{canonical, canonical_counted};
use minimise::comparison::same;
use residual_classes::looks::Looks;
use std::alloc::Global;
use std::marker::Brand;
use std::process::Abort;
use std::sync::ledger::{Blank, Ledger};

// The canonical automaton, with a count of looks that begins and ends here.
fn counted<L: Ledger>(alloc: Global, dfa: &Dfa, blank: Blank) -> Result<Dfa, OutOfMemory>
    requires name { blank.name ≡ L.name }
    requires parts { blank.parts ≡ L.parts }
    requires some { 0 < blank.parts }
    ensures sizes { IfOk result (λ minimal. minimal.sizes ≡ dfa.now.sizes) }
    ensures canonical { IfOk result (λ minimal. IsCanonical minimal) }
{
    let mut looks = Looks::<L>::new(blank);
    canonical_counted(alloc, dfa, &mut looks)
}

// How many states the canonical automaton of a line with a table has, if it is the one that `canonical` gives.
fn minimal_states(rt: &impl Abort, alloc: Global, line: &str) -> String {
    let dfa = listed(rt, alloc, line);
    let minimal = given(rt, counted::<Brand>(alloc, &dfa, Blank::new(1)));
    if same(&minimal, &given(rt, canonical(alloc, &dfa))) {
        given(rt, format!(in alloc; "{}", minimal.states()))
    } else {
        no_answer(rt)
    }
}

// Random tables, and how many states their minimal automata have.
static RANDOM: [(&str, &str); 3] = [
    (
        "x:2 = /! 0>3 1>7/ 0>7 1>2/! 0>2 1>6/ 0>1 1>0/ 0>0 1>4/! 0>6 1>6/! 0>7 1>2/ 0>1 1>7",
        "6",
    ),
    (
        "x:3 = / 0>1 1>3 2>1/ 0>0 1>6 2>6/ 0>1 1>9 2>2/ 0>0 1>3 2>2/ 0>4 1>3 2>3/ 0>3 1>6 2>5/! 0>2 1>5 2>9/! 0>9 1>5 2>5/ 0>7 1>2 2>2/ 0>0 1>5 2>0",
        "7",
    ),
    (
        "x:4 = /! 0>1 1>8 2>1/! 1>0 2>6 3>3/ 0>2 1>2 2>4 3>2/! 0>3 1>8 3>3/ 0>8 1>5 2>7 3>3/! 2>4 3>5/! 1>1 2>6 3>5/ 0>7 1>1 3>5/! 0>5 1>7 2>1",
        "8",
    ),
];

#[test]
fn random_tables_have_their_minimal_states(rt: HostRuntime) {
    for (line, states) in &RANDOM {
        expect_text(&rt, line, &minimal_states(&rt, rt.alloc(), line), states);
    }
}

// States in a line, each with a letter to the next: a bit for each says whether it accepts. In a cycle the last leads to
// the first, in a chain nowhere. And how many states their minimal automata have.
struct LineRow {
    bits: &'static str,
    is_cycle: bool,
    states: &'static str,
}

static IN_LINE: [LineRow; 7] = [
    // one accepts
    LineRow {
        bits: "1000000000000000",
        is_cycle: true,
        states: "16",
    },
    LineRow {
        bits: "0000000000000001",
        is_cycle: false,
        states: "16",
    },
    // a word that is a power, and one that leads to nothing
    LineRow {
        bits: "0101010101010101",
        is_cycle: true,
        states: "2",
    },
    LineRow {
        bits: "1000000000000000",
        is_cycle: false,
        states: "1",
    },
    // words of de Bruijn, in which each word of four bits, or of five, is once
    LineRow {
        bits: "0000100110101111",
        is_cycle: true,
        states: "16",
    },
    LineRow {
        bits: "00000100011001010011101011011111",
        is_cycle: true,
        states: "32",
    },
    // a prefix of the Fibonacci word
    LineRow {
        bits: "0100101001001010010100100101001001",
        is_cycle: true,
        states: "34",
    },
];

// The line of a row's table.
fn line_of_row(rt: &impl Abort, alloc: Global, row: &LineRow) -> String {
    let mut line = given(rt, String::from_str(alloc, "x:1 = "));
    let mut next: usize = 0;
    for bit in row.bits.bytes() {
        next = next.wrapping_add(1);
        given(rt, line.push_str(if bit == b'1' { "/!" } else { "/" }));
        if next < row.bits.len() {
            given(
                rt,
                line.push_str(&given(rt, format!(in alloc; " 0>{next}"))),
            );
        }
    }
    given(rt, line.push_str(if row.is_cycle { " 0>0" } else { "" }));
    line
}

// How many states the minimal automaton of a row has.
fn minimal_states_of_row(rt: &impl Abort, alloc: Global, row: &LineRow) -> String {
    minimal_states(rt, alloc, &line_of_row(rt, alloc, row))
}

#[test]
fn cycles_and_chains_have_their_minimal_states(rt: HostRuntime) {
    for row in &IN_LINE {
        expect_text(
            &rt,
            row.bits,
            &minimal_states_of_row(&rt, rt.alloc(), row),
            row.states,
        );
    }
}

//! The subset construction, the reversal and the minimal automaton, worked by hand.

ghost use Rattle.std.specs.Prelude.{◌≡◌, ◌∷◌, []};
ghost use Rattle.digit_tuple.specs.Deterministic.{states_of};

use crate::calls::{Call, expect_widths};
use crate::given::{given, no_answer};
use crate::outcomes::{expect_text, expect_value, table_outcome};
use crate::table_texts::{language, line_of, listed, table, table_of, tracked};
use determinise::reversal::reverse;
use determinise::subset_construction::determinise;
use determinise::trimmed::trimmed;
use digit_tuple::alphabet::Alphabet;
use digit_tuple::dfa::Dfa;
use digit_tuple::dfa_builder::DfaBuilder;
use digit_tuple::limit::Limit;
use digit_tuple::name::Name;
use minimise::canonical::canonical;
use minimise::comparison::{is_canonical, same};
use minimise::tracked::Tracked;
use std::alloc::Global;
use std::process::Abort;

// The words whose third letter from the end is 1.
const THIRD: &str = "x:2 = / 0>0 1>0 1>1/ 0>2 1>2/ 0>3 1>3/!";

// Tables, and the automata of their sets of states.
static SETS: [(Call, &str); 2] = [
    // Each state has its word's last three letters, of which the first is 1 where it accepts.
    (
        Call::Sets(THIRD),
        "8 / 0>0 1>1/ 0>2 1>3/ 0>4 1>5/ 0>6 1>7/! 0>0 1>1/! 0>2 1>3/! 0>4 1>5/! 0>6 1>7",
    ),
    // The empty set counts and is not listed.
    (Call::Sets("x:2 = /! 1>0"), "2 /! 1>0"),
];

// The subset construction under a limit, or why there is none.
pub fn of_sets(rt: &impl Abort, alloc: Global, line: &str, limit: u32) -> String {
    let table = table(rt, alloc, line);
    table_outcome(rt, alloc, determinise(alloc, &table, Limit::new(limit)))
}

#[test]
fn states_are_sets_of_states(rt: HostRuntime) {
    expect_widths(&rt, rt.alloc(), &SETS);
}

// Tables, and the automata of the words in reverse.
static REVERSALS: [(Call, &str); 2] = [
    // The third letter from the start has five residuals.
    (Call::Reversal(THIRD), "5 / 0>1 1>1/ 0>2 1>2/ 1>3/! 0>3 1>3"),
    // Nothing reversed has one.
    (Call::Reversal("x:2 = /"), "1 /"),
];

// The reversal under a limit, or why there is none.
pub fn turned(rt: &impl Abort, alloc: Global, line: &str, limit: u32) -> String {
    let dfa = listed(rt, alloc, line);
    table_outcome(rt, alloc, reverse(alloc, &dfa, Limit::new(limit)))
}

#[test]
fn states_are_residuals_of_reversed_words(rt: HostRuntime) {
    expect_widths(&rt, rt.alloc(), &REVERSALS);
}

// Tables, and the minimal automata of their languages.
static MINIMAL: [(&str, &str); 4] = [
    // two states of one residual
    ("x:2 = /! 0>1/! 0>0", "/! 0>0"),
    // a state from which no word is accepted
    ("x:2 = /! 0>1/", "/!"),
    // no word
    ("x:2 = / 0>1/ 1>0", "/"),
    // two states alike but for a letter that is missing
    ("x:2 = / 0>1 1>2/! 0>1/!", "/ 0>1 1>2/! 0>1/!"),
];

#[test]
fn states_are_residuals_that_are_not_empty(rt: HostRuntime) {
    for (line, wanted) in &MINIMAL {
        let minimal = language(&rt, rt.alloc(), line);
        expect_text(&rt, line, &table_of(&rt, rt.alloc(), &minimal), wanted);
    }
}

// An automaton over two letters, of three states and three transitions, each its state, letter and target.
struct BuiltRow {
    accepting: [bool; 3],
    transitions: [[u32; 3]; 3],
    table: &'static str,
    trimmed: &'static str,
    minimal: &'static str,
}

static BUILT: [BuiltRow; 3] = [
    // the last transition by a letter stays
    BuiltRow {
        accepting: [false, true, false],
        transitions: [[0, 1, 0], [0, 0, 1], [0, 1, 1]],
        table: "/ 0>1 1>1/!/",
        trimmed: "/ 0>1 1>1/!",
        minimal: "/ 0>1 1>1/!",
    },
    // a state that no word leads to is left out
    BuiltRow {
        accepting: [false, true, true],
        transitions: [[0, 0, 2], [1, 0, 0], [1, 1, 2]],
        table: "/ 0>2/! 0>0 1>2/!",
        trimmed: "/ 0>1/!",
        minimal: "/ 0>1/!",
    },
    // The empty word leads to the state made first, the letter 0 to that made last, and 1 to that between.
    BuiltRow {
        accepting: [false, true, false],
        transitions: [[0, 1, 1], [0, 0, 2], [2, 0, 1]],
        table: "/ 0>2 1>1/!/ 0>1",
        trimmed: "/ 0>1 1>2/ 0>2/!",
        minimal: "/ 0>1 1>2/ 0>2/!",
    },
];

// A builder over two letters with three states, of which these accept.
fn three_states(rt: &impl Abort, alloc: Global, accepting: [bool; 3]) -> DfaBuilder
    ensures sizes { result.sizes ≡ 2 ∷ [] }
    ensures states { states_of result ≡ 3 }
{
    let mut builder = given(
        rt,
        DfaBuilder::new(alloc, given(rt, Alphabet::new(alloc, &[2]))),
    );
    given(rt, builder.add_state(accepting[0]));
    given(rt, builder.add_state(accepting[1]));
    given(rt, builder.add_state(accepting[2]));
    builder
}

// The automaton of the row, its states as they were made.
fn built(rt: &impl Abort, alloc: Global, row: &BuiltRow) -> Dfa {
    let mut builder = three_states(rt, alloc, row.accepting);
    let [[from, letter, to], second, third] = row.transitions;
    given(rt, builder.set(from % 3, letter % 2, to % 3));
    given(rt, builder.set(second[0] % 3, second[1] % 2, second[2] % 3));
    given(rt, builder.set(third[0] % 3, third[1] % 2, third[2] % 3));
    given(rt, builder.finish())
}

// Asserts that an automaton has this table, and the row's trimmed and minimal ones, of which the last alone is canonical.
fn expect_minimal(rt: &impl Abort, alloc: Global, row: &BuiltRow, dfa: &Dfa) {
    expect_text(rt, row.table, &table_of(rt, alloc, dfa), row.table);
    let trimmed = given(rt, trimmed(alloc, dfa));
    expect_text(rt, row.table, &table_of(rt, alloc, &trimmed), row.trimmed);
    let minimal = given(rt, canonical(alloc, dfa));
    expect_text(rt, row.table, &table_of(rt, alloc, &minimal), row.minimal);
    expect_value(
        rt,
        row.table,
        &given(rt, is_canonical(alloc, &minimal)),
        &true,
    );
    expect_value(rt, row.table, &given(rt, is_canonical(alloc, dfa)), &false);
}

#[test]
fn states_are_numbered_by_first_words(rt: HostRuntime) {
    for row in &BUILT {
        expect_minimal(&rt, rt.alloc(), row, &built(&rt, rt.alloc(), row));
    }
}

// Lines, and whether they have one language.
static SAME: [(&str, &str, bool); 3] = [
    ("x:2 = (0|1)*1", "x:2 = (0*1)+", true),
    ("x:2 = /! 0>1/! 0>0", "x:2 = 0*", true),
    ("x:2 = 0*", "x:2 = 0+", false),
];

// Whether two lines over the same tracks have one language.
fn are_same(rt: &impl Abort, alloc: Global, one: &str, other: &str) -> bool {
    let first = language(rt, alloc, one);
    let second = language(rt, alloc, other);
    if first.alphabet().sizes() == second.alphabet().sizes() {
        same(&first, &second)
    } else {
        no_answer(rt)
    }
}

#[test]
fn canonical_automata_of_one_language_are_equal(rt: HostRuntime) {
    for (one, other, wanted) in &SAME {
        let found = are_same(&rt, rt.alloc(), one, other);
        expect_value(&rt, one, &found, wanted);
    }
}

// The line of a table's minimal automaton with its track under a name, if it has one track.
fn named(rt: &impl Abort, alloc: Global, line: &str, name: &str) -> String {
    let dfa = listed(rt, alloc, line);
    let name = given(rt, Name::new(alloc, name));
    if dfa.alphabet().sizes().len() == 1 {
        line_of(rt, alloc, &given(rt, Tracked::new(alloc, &dfa, &[name])))
    } else {
        no_answer(rt)
    }
}

// The line of an automaton with its track under another name, if it has one track.
fn renamed(rt: &impl Abort, alloc: Global, line: &str, name: &str) -> String {
    let minimal = tracked(rt, alloc, line).into_dfa();
    let name = given(rt, Name::new(alloc, name));
    if minimal.alphabet().sizes().len() == 1 {
        line_of(
            rt,
            alloc,
            &Tracked::of_canonical(minimal, given(rt, vec![in alloc; name])),
        )
    } else {
        no_answer(rt)
    }
}

#[test]
fn tracks_have_names(rt: HostRuntime) {
    let line = "x:2 = / 0>1 1>2/! 0>1/!";
    expect_text(&rt, line, &named(&rt, rt.alloc(), line, "x"), line);
    let other = "y:2 = / 0>1 1>2/! 0>1/!";
    expect_text(&rt, line, &renamed(&rt, rt.alloc(), line, "y"), other);
}

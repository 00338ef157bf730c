//! Tables of states.

use crate::given::{given, no_answer};
use crate::outcomes::{expect_so, expect_text, expect_value};
use crate::table_texts::{branches_of, listed, read_table, table_of};
use digit_tuple::accepting_states::{accepting_flags, accepting_states};
use digit_tuple::alphabet::Alphabet;
use digit_tuple::dfa::Dfa;
use digit_tuple::faults::OpFault;
use digit_tuple::limit::Limit;
use digit_tuple::no_words::{no_words, no_words_within};
use digit_tuple::reversed::reversed;
use digit_tuple::transitions::Transition;
use std::alloc::Global;
use std::process::Abort;

// Where the first and the last state accept: the words with an even number of 1s, each 0 after an odd number of these.
const BOTH: &str = "x:2 = /! 1>1/ 0>1 1>2/! 1>1";

const LAST: &str = "x:2 = / 1>1/ 0>1 1>2/! 1>1";

// Lines of tables, and those that list no table: one without a state, with transitions out of order or twice, by no
// letter or to no state.
static TABLES: [(&str, bool); 6] = [
    ("x:2 = / 0>0 0>1 1>0/!", true),
    ("x:2 = ", false),
    ("x:2 = / 1>0 0>0", false),
    ("x:2 = / 1>0 1>0", false),
    ("x:2 = / 2>0", false),
    ("x:2 = / 1>1", false),
];

// The text of the table of a line, unless it lists none.
fn kept(rt: &impl Abort, alloc: Global, line: &str) -> String {
    match read_table(rt, alloc, line) {
        Some(table) => branches_of(rt, alloc, &table),
        None => String::new(alloc),
    }
}

// Whether the text of the table of a line is what the line ends in, and there is one where there should be.
fn is_kept(rt: &impl Abort, alloc: Global, line: &str, is_table: bool) -> bool {
    let text = kept(rt, alloc, line);
    text.is_empty() != is_table && line.ends_with(text.as_str())
}

#[test]
fn a_table_has_a_state_and_its_transitions_in_order(rt: HostRuntime) {
    for (line, is_table) in &TABLES {
        expect_so(&rt, line, is_kept(&rt, rt.alloc(), line, *is_table));
    }
}

// Words, and whether the automaton of `BOTH` accepts them.
static WORDS: [(&str, &[u32], bool); 5] = [
    ("the empty word", &[], true),
    ("101", &[1, 0, 1], true),
    ("10", &[1, 0], false),
    ("0", &[0], false),
    ("2", &[2], false),
];

#[test]
fn a_table_accepts_where_its_path_ends(rt: HostRuntime) {
    let both = listed(&rt, rt.alloc(), BOTH);
    for (row, word, wanted) in &WORDS {
        expect_value(&rt, row, &both.accepts(word), wanted);
    }
}

// The transitions of the state 1, in place of what the row held.
fn row_of(rt: &impl Abort, alloc: Global, dfa: &Dfa) -> Vec<Transition> {
    let stray = Transition {
        letter: 7,
        target: 7,
    };
    let mut row = given(rt, vec![in alloc; stray]);
    if dfa.states() > 1 {
        given(rt, dfa.transitions_into(1, &mut row));
    }
    row
}

// Whether a row has two transitions in order, of which the second leads to the state 2.
fn is_row_to_two(row: &[Transition]) -> bool {
    match row {
        [first, second] => first.is_before(second) && second.target == 2,
        _ => false,
    }
}

#[test]
fn transitions_of_a_state_are_written_into_a_row(rt: HostRuntime) {
    let copy = given(&rt, listed(&rt, rt.alloc(), BOTH).copy(rt.alloc()));
    let row = row_of(&rt, rt.alloc(), &copy);
    expect_so(&rt, BOTH, is_row_to_two(&row));
}

// Whether the accepting states of a table have these flags and numbers.
fn accept(rt: &impl Abort, alloc: Global, dfa: &Dfa, flags: &[bool], states: &[u32]) -> bool {
    given(rt, accepting_flags(alloc, dfa)).as_slice() == flags
        && given(rt, accepting_states(alloc, dfa)).as_slice() == states
}

#[test]
fn states_are_compared_and_listed(rt: HostRuntime) {
    let both = listed(&rt, rt.alloc(), BOTH);
    expect_so(
        &rt,
        BOTH,
        accept(&rt, rt.alloc(), &both, &[true, false, true], &[0, 2]),
    );
    let last = listed(&rt, rt.alloc(), LAST);
    expect_so(
        &rt,
        LAST,
        accept(&rt, rt.alloc(), &last, &[false, false, true], &[2]),
    );
    expect_value(
        &rt,
        "the first states",
        &both.is_same_state(&last, 0),
        &false,
    );
    expect_value(&rt, "the first state", &both.is_bare(0), &false);
}

#[test]
fn transitions_are_turned_round(rt: HostRuntime) {
    let last = listed(&rt, rt.alloc(), LAST);
    let turned = given(&rt, reversed(rt.alloc(), &last));
    let found = branches_of(&rt, rt.alloc(), &turned);
    expect_text(&rt, LAST, &found, "/!/ 0>1 1>0 1>2/ 1>1");
}

// The automaton of no words, and whether it is made under a limit.
fn nothing(rt: &impl Abort, alloc: Global, limit: u32) -> bool {
    match no_words_within(
        alloc,
        given(rt, Alphabet::new(alloc, &[2])),
        Limit::new(limit),
    ) {
        Ok(stepped) => stepped.width == 1,
        Err(OpFault::States) => false,
        Err(_) => no_answer(rt),
    }
}

#[test]
fn the_automaton_of_no_words_has_one_state(rt: HostRuntime) {
    let alphabet = given(&rt, Alphabet::new(rt.alloc(), &[2]));
    let table = given(&rt, no_words(rt.alloc(), alphabet));
    expect_text(&rt, "nothing", &table_of(&rt, rt.alloc(), &table), "/");
    expect_so(&rt, "limit 1", nothing(&rt, rt.alloc(), 1));
    expect_value(&rt, "limit 0", &nothing(&rt, rt.alloc(), 0), &false);
}

//! The branching automata of what files list, and the steps that make relations of them.

ghost use Rattle.std.specs.Prelude.{◌≡◌, IsTrue, map};
ghost use Rattle.std.specs.Rc.{rc_value};
ghost use Rattle.numeration.specs.Representation.{sizes_of};
ghost use Rattle.num_system.specs.Tracks.{ShareDirection, systems_of};

use crate::given::{given, no_answer};
use crate::outcomes::expect_value;
use base_k::base_k::BaseK;
use dfa_reading::{FileHeader, Listed, read_relation};
use digit_tuple::direction::Direction;
use digit_tuple::faults::OpFault;
use digit_tuple::limit::Limit;
use digit_tuple::nfa::Nfa;
use digit_tuple::step_fault::StepFault;
use digit_tuple::steps::Steps;
use fib_system::fib::Fib;
use num_system::seal::seal;
use num_system::system::System;
use number_relations::reading::reading_steps;
use number_relations::relation::Relation;
use std::alloc::Global;
use std::process::Abort;
use std::rc::Rc;

// The branching automaton of a short file, whose systems have so many digits.
fn branching(rt: &impl Abort, alloc: Global, text: &[u8], digits: &[u32]) -> Result<Nfa, OpFault> {
    if text.len() >= 1000 {
        return no_answer(rt);
    }
    let listed = given(rt, read_relation(alloc, text));
    with_digits(rt, alloc, &listed, digits)
}

// The branching automaton of what is listed, if there is a number of digits for each system.
fn with_digits(
    rt: &impl Abort,
    alloc: Global,
    listed: &Listed,
    digits: &[u32],
) -> Result<Nfa, OpFault> {
    if listed.states() == 0 {
        return no_answer(rt);
    }
    match listed.header() {
        FileHeader::Systems(names) if names.len() != digits.len() => no_answer(rt),
        _ => listed.nfa(alloc, digits),
    }
}

// How many transitions the initial state has, or None where there are too many letters.
fn transitions_of(rt: &impl Abort, alloc: Global, text: &[u8], digits: &[u32]) -> Option<usize> {
    match branching(rt, alloc, text, digits) {
        Ok(table) => Some(first_transitions(&table)),
        Err(OpFault::Letters) => None,
        Err(_) => no_answer(rt),
    }
}

// How many transitions the initial state of a table has.
fn first_transitions(table: &Nfa) -> usize {
    if table.states() == 0 {
        return 0;
    }
    table.transitions(0).len()
}

// Files, the digits of their systems, and the transitions of the initial state, or None where there are too many
// letters.
static TRANSITIONS: [(&[u8], &[u32], Option<usize>); 13] = [
    (b"{5,-3,1}\n0 1\n* -> 0\n", &[], Some(3)),
    (b"{5,-3,1}\n0 1\n5 -> 0\n", &[], Some(1)),
    (b"{0,1} {4}\n0 1\n* * -> 0 1\n1 4\n", &[], Some(4)),
    // a transition that is listed twice is one
    (b"{0,1}\n0 1\n0 -> 0 0\n* -> 0\n", &[], Some(2)),
    // the lines of a digit that the system has not are never taken
    (
        b"msd_X\n0 1\n2 -> 0\n3 -> 0\n4294967295 -> 0\n",
        &[3],
        Some(1),
    ),
    (
        b"msd_X msd_X\n0 1\n* 1 -> 0\n* 2 -> 0\n1 * -> 0\n",
        &[2, 2],
        Some(3),
    ),
    // 16 tracks and 65,536 letters, and one more
    (
        b"msd_2 msd_2 msd_2 msd_2 msd_2 msd_2 msd_2 msd_2 msd_2 msd_2 msd_2 msd_2 msd_2 msd_2 msd_2 msd_2\n0 1\n0 0 0 0 0 0 0 0 1 1 1 1 1 1 1 * -> 0",
        &[2, 2, 2, 2, 2, 2, 2, 2, 2, 2, 2, 2, 2, 2, 2, 2],
        Some(2),
    ),
    (
        b"msd_2 msd_2 msd_2 msd_2 msd_2 msd_2 msd_2 msd_2 msd_2 msd_2 msd_2 msd_2 msd_2 msd_2 msd_2 msd_2 msd_2\n0 1\n",
        &[2, 2, 2, 2, 2, 2, 2, 2, 2, 2, 2, 2, 2, 2, 2, 2, 2],
        None,
    ),
    (
        b"{0}{0}{0}{0}{0}{0}{0}{0}{0}{0}{0}{0}{0}{0}{0}{0}\n0 1\n* * * * * * * * * * * * * * * * -> 0\n",
        &[],
        Some(1),
    ),
    (
        b"{0}{0}{0}{0}{0}{0}{0}{0}{0}{0}{0}{0}{0}{0}{0}{0}{0}\n0 1\n",
        &[],
        None,
    ),
    (b"msd_X\n0 1\n* -> 0\n65535 -> 0\n", &[65536], Some(65536)),
    (b"msd_X\n0 1\n0 -> 0\n", &[65537], None),
    (b"msd_X msd_Y\n0 1\n65535 0 -> 0\n", &[65536, 1], Some(1)),
];

// The number of the first of these files whose first state has not so many transitions, counted from 0; how many they are, if
// each has.
fn first_other(rt: &impl Abort, alloc: Global, rows: &[(&[u8], &[u32], Option<usize>)]) -> usize {
    let mut count: usize = 0;
    for (text, digits, transitions) in rows {
        if transitions_of(rt, alloc, text, digits) != *transitions {
            return count;
        }
        count = count.saturating_add(1);
    }
    count
}

#[test]
fn files_have_these_transitions(rt: HostRuntime) {
    let found = first_other(&rt, rt.alloc(), &TRANSITIONS);
    expect_value(&rt, "files", &found, &TRANSITIONS.len());
}

/// The base of a system, or None for the Fibonacci system.
pub type Base = Option<u32>;

// The sealed system.
fn sealed(rt: &impl Abort, alloc: Global, base: Base, direction: Direction) -> System {
    match base {
        Some(number) => {
            let system = BaseK::new(number, direction).expect(rt, "a row in form");
            given(rt, seal(alloc, &system, Limit::new(1000)))
        }
        None => given(rt, seal(alloc, &Fib::new(direction), Limit::new(1000))),
    }
}

// A name, a file over systems of one direction, the widths and the sizes of the steps read, pad and valid, and words that the relation
// accepts, and words that it does not.
struct Row {
    name: &'static str,
    text: &'static [u8],
    direction: Direction,
    systems: &'static [Base],
    widths: [u32; 3],
    sizes: [u32; 3],
    accepted: &'static [&'static [u32]],
    refused: &'static [&'static [u32]],
}

static ROWS: [Row; 11] = [
    // any number, since some zeros before a word make it accepted
    Row {
        name: "any number by zeros before it",
        text: b"msd_2\n0 1\n0 -> 0\n0 -> 1\n1 -> 1\n1 0\n1 -> 0\n",
        direction: Direction::Msd,
        systems: &[Some(2)],
        widths: [4, 4, 1],
        sizes: [3, 1, 1],
        accepted: &[&[], &[1], &[0, 1], &[1, 0]],
        refused: &[],
    },
    Row {
        name: "any number",
        text: b"msd_2\n# c\n7 1\n* -> 7\n",
        direction: Direction::Msd,
        systems: &[Some(2)],
        widths: [1, 2, 1],
        sizes: [1, 1, 1],
        accepted: &[&[], &[0, 1, 1]],
        refused: &[],
    },
    // pairs of equal numbers
    Row {
        name: "equal in lsd_3",
        text: b"lsd_3 lsd_3\n0 1\n0 0 -> 0\n1 1 -> 0\n2 2 -> 0\n",
        direction: Direction::Lsd,
        systems: &[Some(3), Some(3)],
        widths: [2, 2, 2],
        sizes: [1, 1, 1],
        accepted: &[&[], &[0, 4, 8], &[8, 0]],
        refused: &[&[1], &[4, 3]],
    },
    // any number, of which the words without 11 are valid
    Row {
        name: "any number in msd_fib",
        text: b"msd_fib\n0 1\n* -> 0\n",
        direction: Direction::Msd,
        systems: &[None],
        widths: [1, 2, 3],
        sizes: [1, 1, 2],
        accepted: &[&[], &[1, 0, 1]],
        refused: &[&[1, 1], &[0, 1, 1, 0]],
    },
    // the number 0, by its representation 0 alone
    Row {
        name: "zero in lsd_2",
        text: b"lsd_2\n0 0\n0 -> 1\n1 1\n",
        direction: Direction::Lsd,
        systems: &[Some(2)],
        widths: [3, 4, 2],
        sizes: [2, 1, 1],
        accepted: &[&[], &[0], &[0, 0]],
        refused: &[&[1], &[0, 1]],
    },
    Row {
        name: "zero in msd_2",
        text: b"msd_2\r\n0 0\r\n0 -> 1\r\n1 1\r\n",
        direction: Direction::Msd,
        systems: &[Some(2)],
        widths: [3, 2, 2],
        sizes: [2, 1, 1],
        accepted: &[&[], &[0], &[0, 0]],
        refused: &[&[1], &[0, 1]],
    },
    // no number
    Row {
        name: "no number",
        text: b"msd_2\n\n0 0\n",
        direction: Direction::Msd,
        systems: &[Some(2)],
        widths: [2, 2, 1],
        sizes: [1, 1, 1],
        accepted: &[],
        refused: &[&[], &[0], &[1]],
    },
    // the number 1, by its representation 01 alone, with an output below 0
    Row {
        name: "one",
        text: b"msd_2\n0 0\n0 -> 1\n1 0\n1 -> 2\n2 -7\n",
        direction: Direction::Msd,
        systems: &[Some(2)],
        widths: [4, 3, 3],
        sizes: [3, 2, 2],
        accepted: &[&[1], &[0, 1], &[0, 0, 1]],
        refused: &[&[], &[0], &[1, 0], &[1, 1]],
    },
    // the numbers that are written with 3 alone, and 0
    Row {
        name: "threes alone",
        text: b"msd_10\n0 2\n3 -> 0\n",
        direction: Direction::Msd,
        systems: &[Some(10)],
        widths: [2, 3, 3],
        sizes: [1, 2, 2],
        accepted: &[&[], &[3, 3], &[0, 3]],
        refused: &[&[3, 0], &[2]],
    },
    // digits that the system has not: their remainders are not taken
    Row {
        name: "digits that are not there",
        text: b"lsd_X\n0 1\n0 -> 0\n3 -> 0\n4294967295 -> 0\n",
        direction: Direction::Lsd,
        systems: &[Some(2)],
        widths: [2, 2, 2],
        sizes: [1, 1, 1],
        accepted: &[&[], &[0, 0]],
        refused: &[&[1], &[0, 1]],
    },
    // pairs of equal numbers, of which words without 11 are valid
    Row {
        name: "equal in lsd_fib",
        text: b"lsd_fib lsd_fib\n0 1\n1 1 -> 0\n0 0 -> 0\n",
        direction: Direction::Lsd,
        systems: &[None, None],
        widths: [2, 2, 12],
        sizes: [1, 1, 2],
        accepted: &[&[], &[3, 0, 3]],
        refused: &[&[3, 3], &[1], &[3, 0, 1]],
    },
];

/// Systems of one direction, sealed.
pub fn systems_for(
    rt: &impl Abort,
    alloc: Global,
    listed: &[Base],
    direction: Direction,
) -> Vec<Rc<System>> {
    let mut systems = Vec::new(alloc);
    for base in listed {
        given(
            rt,
            systems.push(given(rt, Rc::new(alloc, sealed(rt, alloc, *base, direction)))),
        );
    }
    systems
}

// How many digits each system has.
fn digits_of(rt: &impl Abort, alloc: Global, systems: &[Rc<System>]) -> Vec<u32> {
    let mut digits = Vec::new(alloc);
    for system in systems {
        given(rt, digits.push(system.as_ref().digits()));
    }
    digits
}

// Whether tracks of these sizes may be over one or two systems of one direction.
fn may_be_header(sizes: &[u32], systems: &[Rc<System>]) -> bool
    ensures sizes { IsTrue result → sizes.now ≡ sizes_of (systems_of (map rc_value systems.now)) }
    ensures direction { IsTrue result → ShareDirection (map rc_value systems.now) }
{
    match (sizes, systems) {
        ([size], [only]) => only.as_ref().digits() == *size,
        ([size, next], [first, second]) => {
            first.as_ref().digits() == *size
                && second.as_ref().digits() == *next
                && first.as_ref().direction() == second.as_ref().direction()
        }
        _ => false,
    }
}

/// The relation of a file over systems, by the next steps.
pub fn relation_over(
    rt: &impl Abort,
    alloc: Global,
    text: &[u8],
    systems: &[Rc<System>],
    steps: &mut Steps,
) -> Result<Relation, StepFault> {
    let digits = digits_of(rt, alloc, systems);
    let table = given(rt, branching(rt, alloc, text, &digits));
    if may_be_header(table.alphabet().sizes(), systems) {
        reading_steps(alloc, &table, systems, steps)
    } else {
        no_answer(rt)
    }
}

// The relation of a row, by the next steps.
fn relation_of(
    rt: &impl Abort,
    alloc: Global,
    row: &Row,
    steps: &mut Steps,
) -> Result<Relation, StepFault> {
    let systems = systems_for(rt, alloc, row.systems, row.direction);
    relation_over(rt, alloc, row.text, &systems, steps)
}

// The step of this name, width and size has this number, counted from 0.
fn is_line(steps: &Steps, number: u64, name: &str, width: u32, size: u32) -> bool {
    if number >= steps.count() {
        return false;
    }
    let line = steps.line(number);
    line.kind.name() == name && line.width == width && line.size == size
}

// Whether the steps are read, pad and valid, with the row's widths and sizes.
fn are_lines_of(steps: &Steps, row: &Row) -> bool {
    let [first, second, third] = row.widths;
    let [one, two, three] = row.sizes;
    steps.count() == 3
        && is_line(steps, 0, "read", first, one)
        && is_line(steps, 1, "pad", second, two)
        && is_line(steps, 2, "valid", third, three)
}

// Whether a relation accepts each of some words, or none of them.
fn answers(relation: &Relation, words: &[&[u32]], wanted: bool) -> bool {
    words
        .iter()
        .all(|word| relation.dfa().accepts(word) == wanted)
}

// Whether a file has its steps, and its relation accepts the words that it is to accept, and none of the others.
fn is_row(rt: &impl Abort, alloc: Global, row: &Row) -> [bool; 3] {
    let mut steps = Steps::new(alloc, 1000);
    let relation = given(rt, relation_of(rt, alloc, row, &mut steps));
    [
        are_lines_of(&steps, row),
        answers(&relation, row.accepted, true),
        answers(&relation, row.refused, false),
    ]
}

#[test]
fn files_have_these_steps(rt: HostRuntime) {
    for row in &ROWS {
        let found = is_row(&rt, rt.alloc(), row);
        expect_value(&rt, row.name, &found, &[true, true, true]);
    }
}

// Why the steps of a row are refused under a limit, if they are.
fn refusal(rt: &impl Abort, alloc: Global, row: &Row, limit: u32) -> Option<StepFault> {
    let mut steps = Steps::new(alloc, limit);
    relation_of(rt, alloc, row, &mut steps).err()
}

// The first of three steps with these widths that passes a limit.
fn first_past(widths: [u32; 3], limit: u32) -> Option<StepFault> {
    let [read, pad, valid] = widths;
    if read > limit {
        Some(StepFault::States(1))
    } else if pad > limit {
        Some(StepFault::States(2))
    } else if valid > limit {
        Some(StepFault::States(3))
    } else {
        None
    }
}

// The first limit up to 12 under which the first step that passes it is not the one that is refused, if there is one.
fn first_unkept(rt: &impl Abort, alloc: Global, row: &Row) -> Option<u32> {
    for limit in 0..13 {
        if refusal(rt, alloc, row, limit) != first_past(row.widths, limit) {
            return Some(limit);
        }
    }
    None
}

#[test]
fn the_first_step_past_the_limit_is_refused(rt: HostRuntime) {
    for row in &ROWS {
        let found = first_unkept(&rt, rt.alloc(), row);
        expect_value(&rt, row.name, &found, &None);
    }
}

//! Relations on numbers in some bases, against arithmetic.

use crate::given::{given, no_answer};
use crate::headers::names_of;
use crate::outcomes::{expect_text, expect_value, lines_of};
use crate::sealed_systems::sealed;
use digit_tuple::direction::Direction;
use digit_tuple::name::Name;
use digit_tuple::names::{are_distinct, find_name};
use digit_tuple::steps::Steps;
use num_system::comparison::Comparison;
use num_system::system::System;
use number_relations::complement::complement_step;
use number_relations::constant::constant_step;
use number_relations::multiple::{MultipleNames, multiple_steps};
use number_relations::projection::project_step;
use number_relations::relation::Relation;
use std::alloc::Global;
use std::process::Abort;
use std::rc::Rc;

// Some bases, each in both directions.
static BASES: [(&str, u32, Direction); 6] = [
    ("msd_2", 2, Direction::Msd),
    ("lsd_2", 2, Direction::Lsd),
    ("msd_3", 3, Direction::Msd),
    ("lsd_3", 3, Direction::Lsd),
    ("msd_10", 10, Direction::Msd),
    ("lsd_10", 10, Direction::Lsd),
];

// A base, sealed.
#[derive(Drop)]
struct Shared {
    base: u32,
    direction: Direction,
    system: Rc<System>,
}

// The base with this number, sealed.
fn shared_base(rt: &impl Abort, alloc: Global, base: u32, direction: Direction) -> Shared {
    let system = given(rt, Rc::new(alloc, sealed(rt, alloc, base, direction, 1000)));
    Shared {
        base,
        direction,
        system,
    }
}

// The letter of the digits of some numbers at the place of this weight.
fn letter_at(base: u32, weight: u32, numbers: &[u32]) -> u32 {
    let mut letter: u32 = 0;
    for number in numbers {
        let digit = (number / weight.max(1)) % base.max(1);
        letter = letter.wrapping_mul(base).wrapping_add(digit);
    }
    letter
}

// The word of so many letters that represents numbers with no more digits.
fn word_of(
    rt: &impl Abort,
    alloc: Global,
    shared: &Shared,
    length: u32,
    numbers: &[u32],
) -> Vec<u32> {
    let mut word = Vec::new(alloc);
    let mut weight: u32 = 1;
    for _ in 0..length {
        given(rt, word.push(letter_at(shared.base, weight, numbers)));
        weight = weight.wrapping_mul(shared.base);
    }
    if shared.direction == Direction::Msd {
        word.reverse();
    }
    word
}

// The number of the track of this name.
fn number_of(name: &str, numbers: [u32; 3]) -> u32 {
    let [x, y, z] = numbers;
    match name {
        "x" => x,
        "y" => y,
        _ => z,
    }
}

// The numbers of a relation's tracks.
fn numbers_of(rt: &impl Abort, alloc: Global, relation: &Relation, numbers: [u32; 3]) -> Vec<u32> {
    let mut tuple = Vec::new(alloc);
    for name in relation.names() {
        given(rt, tuple.push(number_of(name.as_str(), numbers)));
    }
    tuple
}

// Whether the relation's automaton accepts the word of so many letters for these numbers.
fn holds(
    rt: &impl Abort,
    alloc: Global,
    shared: &Shared,
    relation: &Relation,
    (length, numbers): (u32, [u32; 3]),
) -> bool {
    let tuple = numbers_of(rt, alloc, relation, numbers);
    let word = word_of(rt, alloc, shared, length, &tuple);
    relation.dfa().accepts(&word)
}

// A relation that is made without a step, under the names x, y and z.
#[derive(Clone, Copy)]
enum Made {
    Compared(Comparison, &'static str, &'static str),
    Sum(&'static str, &'static str, &'static str),
    Number(&'static str),
    Truth(bool),
}

// The relation in a base.
fn made_in(rt: &impl Abort, alloc: Global, shared: &Shared, made: Made) -> Relation {
    match made {
        Made::Compared(comparison, a, b) => compared(rt, alloc, shared, comparison, (a, b)),
        Made::Sum(a, b, c) => sum(rt, alloc, shared, (a, b, c)),
        Made::Number(a) => number(rt, alloc, shared, a),
        Made::Truth(truth) => given(rt, Relation::truth(alloc, truth)),
    }
}

// The numbers that compare so.
fn compared(
    rt: &impl Abort,
    alloc: Global,
    shared: &Shared,
    comparison: Comparison,
    (a, b): (&str, &str),
) -> Relation {
    let first = given(rt, Name::new(alloc, a));
    let second = given(rt, Name::new(alloc, b));
    given(
        rt,
        Relation::comparison(alloc, &shared.system, comparison, &first, &second),
    )
}

// The numbers of which the third is the sum of the others.
fn sum(rt: &impl Abort, alloc: Global, shared: &Shared, (a, b, c): (&str, &str, &str)) -> Relation {
    let x = given(rt, Name::new(alloc, a));
    let y = given(rt, Name::new(alloc, b));
    let z = given(rt, Name::new(alloc, c));
    given(rt, Relation::sum(alloc, &shared.system, &x, &y, &z))
}

// Any number.
fn number(rt: &impl Abort, alloc: Global, shared: &Shared, a: &str) -> Relation {
    let name = given(rt, Name::new(alloc, a));
    given(rt, Relation::number(alloc, &shared.system, &name))
}

// Whether two numbers compare so.
fn compare(comparison: Comparison, a: u32, b: u32) -> bool {
    match comparison {
        Comparison::Equal => a == b,
        Comparison::Unequal => a != b,
        Comparison::Less => a < b,
        Comparison::Greater => a > b,
        Comparison::AtMost => a <= b,
        Comparison::AtLeast => a >= b,
    }
}

// Whether the relation holds, by arithmetic.
fn is_so(made: Made, numbers: [u32; 3]) -> bool {
    match made {
        Made::Compared(comparison, a, b) => {
            compare(comparison, number_of(a, numbers), number_of(b, numbers))
        }
        Made::Sum(a, b, c) => {
            number_of(a, numbers).wrapping_add(number_of(b, numbers)) == number_of(c, numbers)
        }
        Made::Number(_) => true,
        Made::Truth(truth) => truth,
    }
}

// A relation that is made without a step, of another one, or by a step alone.
#[derive(Clone, Copy)]
enum Tried {
    Made(Made),
    Constant(u64, &'static str),
    Complement(Made),
    Projected(Made, &'static str),
    Renamed(Made, &'static str, &'static str),
}

// The relation in a base.
fn tried_in(rt: &impl Abort, alloc: Global, shared: &Shared, tried: Tried) -> Relation {
    match tried {
        Tried::Made(made) => made_in(rt, alloc, shared, made),
        Tried::Constant(number, a) => constant(rt, alloc, shared, number, a),
        Tried::Complement(made) => complement(rt, alloc, &made_in(rt, alloc, shared, made)),
        Tried::Projected(made, a) => projected(rt, alloc, &made_in(rt, alloc, shared, made), a),
        Tried::Renamed(made, a, b) => renamed(rt, alloc, &made_in(rt, alloc, shared, made), a, b),
    }
}

// One number alone.
fn constant(rt: &impl Abort, alloc: Global, shared: &Shared, number: u64, a: &str) -> Relation {
    let mut steps = Steps::new(alloc, 1000);
    let name = given(rt, Name::new(alloc, a));
    let made = constant_step(alloc, &shared.system, number, &name, &mut steps);
    given(rt, made)
}

// The numbers of which the relation does not hold.
fn complement(rt: &impl Abort, alloc: Global, relation: &Relation) -> Relation {
    let mut steps = Steps::new(alloc, 1000);
    given(rt, complement_step(alloc, relation, &mut steps))
}

// The relation without a track, if it is there.
fn projected(rt: &impl Abort, alloc: Global, relation: &Relation, a: &str) -> Relation {
    let mut steps = Steps::new(alloc, 1000);
    let name = given(rt, Name::new(alloc, a));
    if find_name(relation.names(), &name).is_some() {
        given(rt, project_step(alloc, relation, &name, &mut steps))
    } else {
        no_answer(rt)
    }
}

// The relation with a track under a name that no track has.
fn renamed(rt: &impl Abort, alloc: Global, relation: &Relation, a: &str, b: &str) -> Relation {
    let from = given(rt, Name::new(alloc, a));
    let to = given(rt, Name::new(alloc, b));
    if find_name(relation.names(), &to).is_none() {
        given(rt, relation.renamed(alloc, &from, &to))
    } else {
        no_answer(rt)
    }
}

// The numbers with one of them changed.
fn with_number(name: &str, number: u32, numbers: [u32; 3]) -> [u32; 3] {
    let [x, y, z] = numbers;
    match name {
        "x" => [number, y, z],
        "y" => [x, number, z],
        _ => [x, y, number],
    }
}

// Whether the relation holds with some number below 16 on a track, by arithmetic.
fn is_so_of_some(made: Made, name: &str, numbers: [u32; 3]) -> bool {
    let mut found = false;
    for number in 0..16 {
        found = found || is_so(made, with_number(name, number, numbers));
    }
    found
}

// Whether the relation holds, by arithmetic.
fn is_tried_so(tried: Tried, numbers: [u32; 3]) -> bool {
    match tried {
        Tried::Made(made) => is_so(made, numbers),
        Tried::Constant(number, a) => u64::from(number_of(a, numbers)) == number,
        Tried::Complement(made) => !is_so(made, numbers),
        Tried::Projected(made, a) => is_so_of_some(made, a, numbers),
        Tried::Renamed(made, a, b) => is_so(made, with_number(a, number_of(b, numbers), numbers)),
    }
}

// Each comparison under two names in one order and the other, and under one; sums under five patterns of names; a number;
// and what is true and false.
static MADE: [Tried; 26] = [
    Tried::Made(Made::Compared(Comparison::Equal, "x", "y")),
    Tried::Made(Made::Compared(Comparison::Equal, "y", "x")),
    Tried::Made(Made::Compared(Comparison::Equal, "x", "x")),
    Tried::Made(Made::Compared(Comparison::Unequal, "x", "y")),
    Tried::Made(Made::Compared(Comparison::Unequal, "y", "x")),
    Tried::Made(Made::Compared(Comparison::Unequal, "x", "x")),
    Tried::Made(Made::Compared(Comparison::Less, "x", "y")),
    Tried::Made(Made::Compared(Comparison::Less, "y", "x")),
    Tried::Made(Made::Compared(Comparison::Less, "x", "x")),
    Tried::Made(Made::Compared(Comparison::Greater, "x", "y")),
    Tried::Made(Made::Compared(Comparison::Greater, "y", "x")),
    Tried::Made(Made::Compared(Comparison::Greater, "x", "x")),
    Tried::Made(Made::Compared(Comparison::AtMost, "x", "y")),
    Tried::Made(Made::Compared(Comparison::AtMost, "y", "x")),
    Tried::Made(Made::Compared(Comparison::AtMost, "x", "x")),
    Tried::Made(Made::Compared(Comparison::AtLeast, "x", "y")),
    Tried::Made(Made::Compared(Comparison::AtLeast, "y", "x")),
    Tried::Made(Made::Compared(Comparison::AtLeast, "x", "x")),
    Tried::Made(Made::Sum("x", "y", "z")),
    Tried::Made(Made::Sum("x", "x", "y")),
    Tried::Made(Made::Sum("x", "y", "x")),
    Tried::Made(Made::Sum("y", "x", "x")),
    Tried::Made(Made::Sum("x", "x", "x")),
    Tried::Made(Made::Number("x")),
    Tried::Made(Made::Truth(true)),
    Tried::Made(Made::Truth(false)),
];

// Single numbers; complements; projections, for whose numbers below 8 there is a number below 16 on the track that is
// dropped, if there is one; tracks under other names.
static CHANGED: [Tried; 13] = [
    Tried::Constant(0, "x"),
    Tried::Constant(5, "y"),
    Tried::Constant(8, "x"),
    Tried::Complement(Made::Compared(Comparison::Less, "x", "y")),
    Tried::Complement(Made::Sum("x", "y", "z")),
    Tried::Complement(Made::Truth(true)),
    Tried::Projected(Made::Sum("x", "y", "z"), "z"),
    Tried::Projected(Made::Sum("x", "y", "z"), "x"),
    Tried::Projected(Made::Sum("y", "y", "x"), "y"),
    Tried::Projected(Made::Compared(Comparison::Less, "x", "y"), "x"),
    Tried::Projected(Made::Compared(Comparison::Unequal, "x", "x"), "x"),
    Tried::Renamed(Made::Compared(Comparison::Less, "x", "y"), "x", "z"),
    Tried::Renamed(Made::Sum("x", "y", "y"), "z", "a"),
];

// Whether the relation holds as arithmetic has it, of all x, y and z below 8, by words of so many letters.
fn is_right(rt: &impl Abort, alloc: Global, shared: &Shared, tried: Tried, length: u32) -> bool {
    let relation = tried_in(rt, alloc, shared, tried);
    let mut right = true;
    for number in 0..512 {
        let numbers = [number / 64, number / 8 % 8, number % 8];
        let found = holds(rt, alloc, shared, &relation, (length, numbers));
        right = right && found == is_tried_so(tried, numbers);
    }
    right
}

// The number of the first relation that does not hold so in a base, counted from 0; how many they are, if each does.
fn first_wrong(
    rt: &impl Abort,
    alloc: Global,
    (base, direction): (u32, Direction),
    rows: &[Tried],
    length: u32,
) -> usize {
    let shared = shared_base(rt, alloc, base, direction);
    let mut count: usize = 0;
    for tried in rows {
        if !is_right(rt, alloc, &shared, *tried, length) {
            return count;
        }
        count = count.saturating_add(1);
    }
    count
}

#[test]
fn relations_hold_of_the_numbers_of_arithmetic(rt: HostRuntime) {
    for (row, base, direction) in &BASES {
        let found = first_wrong(&rt, rt.alloc(), (*base, *direction), &MADE, 3);
        expect_value(&rt, row, &found, &MADE.len());
    }
}

#[test]
fn changed_relations_hold_of_the_numbers_of_arithmetic(rt: HostRuntime) {
    for (row, base, direction) in &BASES {
        let found = first_wrong(&rt, rt.alloc(), (*base, *direction), &CHANGED, 4);
        expect_value(&rt, row, &found, &CHANGED.len());
    }
}

// Relations, and whether they are true, if they have no track.
static VERDICTS: [(&str, Made, Option<bool>); 3] = [
    ("true", Made::Truth(true), Some(true)),
    ("false", Made::Truth(false), Some(false)),
    ("a number", Made::Number("x"), None),
];

#[test]
fn sentences_are_true_or_false(rt: HostRuntime) {
    let shared = shared_base(&rt, rt.alloc(), 2, Direction::Msd);
    for (row, made, wanted) in &VERDICTS {
        let relation = made_in(&rt, rt.alloc(), &shared, *made);
        expect_value(&rt, row, &relation.verdict(), wanted);
    }
}

// The relation that y is so many times x, by the next steps.
fn multiple(
    rt: &impl Abort,
    alloc: Global,
    shared: &Shared,
    factor: u64,
    steps: &mut Steps,
) -> Relation {
    let names = names_of(rt, alloc, &["x", "y", "z"]);
    match names.as_slice() {
        [number, multiple, between] if are_distinct(&names) => {
            let names = MultipleNames {
                number,
                multiple,
                between,
            };
            given(
                rt,
                multiple_steps(alloc, &shared.system, factor, names, steps),
            )
        }
        _ => no_answer(rt),
    }
}

// Whether the multiple of a number alone is reported, of some numbers and of its multiple.
fn is_multiple_of(
    rt: &impl Abort,
    alloc: Global,
    shared: &Shared,
    relation: &Relation,
    (factor, x): (u32, u32),
) -> bool {
    let multiple = factor.wrapping_mul(x);
    let mut right = holds(rt, alloc, shared, relation, (13, [x, multiple, 0]));
    for y in 0..41 {
        right = right && holds(rt, alloc, shared, relation, (13, [x, y, 0])) == (y == multiple);
    }
    right
}

// Whether it is, of all numbers up to 40.
fn multiplies(rt: &impl Abort, alloc: Global, shared: &Shared, factor: u32) -> bool {
    let mut steps = Steps::new(alloc, 100_000);
    let relation = multiple(rt, alloc, shared, u64::from(factor), &mut steps);
    let mut right = true;
    for x in 0..41 {
        right = right && is_multiple_of(rt, alloc, shared, &relation, (factor, x));
    }
    right
}

// The first factor up to 100 by which numbers are not multiplied so in base 2, if there is one.
fn first_wrong_factor(rt: &impl Abort, alloc: Global, direction: Direction) -> Option<u32> {
    let shared = shared_base(rt, alloc, 2, direction);
    for factor in 0..=100 {
        if !multiplies(rt, alloc, &shared, factor) {
            return Some(factor);
        }
    }
    None
}

#[test]
fn multiples_are_those_of_multiplication(rt: HostRuntime) {
    let msd = first_wrong_factor(&rt, rt.alloc(), Direction::Msd);
    expect_value(&rt, "msd_2", &msd, &None);
    let lsd = first_wrong_factor(&rt, rt.alloc(), Direction::Lsd);
    expect_value(&rt, "lsd_2", &lsd, &None);
}

// The lines of the steps of a multiple in base 2.
fn multiple_lines(rt: &impl Abort, alloc: Global, factor: u64) -> String {
    let shared = shared_base(rt, alloc, 2, Direction::Msd);
    let mut steps = Steps::new(alloc, 1000);
    multiple(rt, alloc, &shared, factor, &mut steps);
    lines_of(rt, alloc, &steps)
}

// Factors, and the steps that make their multiples.
static MULTIPLES: [(u64, &str, &str); 4] = [
    (1, "1*x", ""),
    (2, "2*x", ""),
    (3, "3*x", "product 9 4, project 4 3, "),
    (
        7,
        "7*x",
        "product 9 4, project 4 3, product 12 6, project 7 6, product 21 12, project 8 7, ",
    ),
];

#[test]
fn multiples_have_these_steps(rt: HostRuntime) {
    for (factor, row, wanted) in &MULTIPLES {
        expect_text(&rt, row, &multiple_lines(&rt, rt.alloc(), *factor), wanted);
    }
}

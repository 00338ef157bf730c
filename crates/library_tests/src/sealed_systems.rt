//! Sealed systems: the relations of bases against counting, and the steps of the successor worked by hand.

ghost use Rattle.std.specs.Prelude.{◌≡◌, ℕ, ◌∷◌, [], IsTrue};
ghost use Rattle.num_system.specs.SuccessorSteps.{name_u, name_x, name_y};

use crate::bases::{SUMS, base_of};
use crate::calls::{Call, expect_widths};
use crate::given::{given, no_answer};
use crate::outcomes::{expect_so, expect_text, expect_value, outcome, table_outcome};
use crate::table_texts::{language, table_of};
use base_k::base_k::{BaseK, GREATEST_BASE, LEAST_BASE};
use digit_tuple::dfa::Dfa;
use digit_tuple::direction::Direction;
use digit_tuple::faults::OpFault;
use digit_tuple::limit::Limit;
use digit_tuple::name::Name;
use minimise::tracked::Tracked;
use num_system::seal::{seal, seal_built_in};
use num_system::successor::{between_of, chain_of, next_of, successor_of};
use num_system::system::System;
use std::alloc::Global;
use std::process::Abort;

// A limit that every base keeps to.
const LIMIT: u32 = 1024;

// The numbers that are looked at are less.
const SOME: u32 = 30;

/// The sealed system of a base.
pub fn sealed(
    rt: &impl Abort,
    alloc: Global,
    number: u32,
    direction: Direction,
    limit: u32,
) -> System {
    given(
        rt,
        seal(alloc, &base_of(rt, number, direction), Limit::new(limit)),
    )
}

// The word of so many letters that represents two numbers in a base, if they have no more digits.
fn word_of(
    rt: &impl Abort,
    alloc: Global,
    system: BaseK,
    length: u32,
    (x, y): (u32, u32),
) -> Option<Vec<u32>> {
    let mut word = Vec::new(alloc);
    let mut first = x;
    let mut second = y;
    for _ in 0..length {
        let letter = (first % system.base).wrapping_mul(system.base);
        given(rt, word.push(letter.wrapping_add(second % system.base)));
        first /= system.base;
        second /= system.base;
    }
    if system.direction == Direction::Msd {
        word.reverse();
    }
    if first == 0 && second == 0 {
        Some(word)
    } else {
        None
    }
}

// Whether the relations say what they should of two numbers, by a word that represents them. Where the first is 0,
// the word represents the second on one track too.
fn say(sealed: &System, word: &[u32], x: u32, y: u32) -> bool {
    sealed.equal().accepts(word) == (x == y)
        && sealed.less().accepts(word) == (x < y)
        && sealed.successor().accepts(word) == (x.wrapping_add(1) == y)
        && (x != 0 || sealed.zero().accepts(word) == (y == 0))
}

// Whether they do so of two numbers, by the word of so many letters, if there is one.
fn say_of_word(
    rt: &impl Abort,
    alloc: Global,
    (system, sealed): (BaseK, &System),
    length: u32,
    (x, y): (u32, u32),
) -> bool {
    match word_of(rt, alloc, system, length, (x, y)) {
        Some(word) => say(sealed, &word, x, y),
        None => true,
    }
}

// Whether they do so of all pairs of some numbers, by words of so many letters.
fn say_of_all(rt: &impl Abort, alloc: Global, system: BaseK, sealed: &System, length: u32) -> bool {
    let mut right = true;
    for pair in 0..SOME * SOME {
        let numbers = (pair / SOME, pair % SOME);
        right = right && say_of_word(rt, alloc, (system, sealed), length, numbers);
    }
    right
}

// Whether they do so by words of up to three letters.
fn say_of_lengths(rt: &impl Abort, alloc: Global, number: u32, direction: Direction) -> bool {
    let system = base_of(rt, number, direction);
    let sealed = sealed(rt, alloc, number, direction, LIMIT);
    let mut right = true;
    for length in 0..4 {
        right = right && say_of_all(rt, alloc, system, &sealed, length);
    }
    right
}

// Bases.
static SAID: [(&str, u32, Direction); 6] = [
    ("msd_2", 2, Direction::Msd),
    ("lsd_2", 2, Direction::Lsd),
    ("msd_3", 3, Direction::Msd),
    ("lsd_3", 3, Direction::Lsd),
    ("msd_10", 10, Direction::Msd),
    ("lsd_10", 10, Direction::Lsd),
];

#[test]
fn relations_are_those_of_numbers(rt: HostRuntime) {
    for (row, number, direction) in &SAID {
        expect_so(
            &rt,
            row,
            say_of_lengths(&rt, rt.alloc(), *number, *direction),
        );
    }
}

// Whether a base is sealed with its digits and its direction.
fn is_sealed(rt: &impl Abort, alloc: Global, number: u32, direction: Direction) -> bool {
    let system = sealed(rt, alloc, number, direction, LIMIT);
    system.digits() == number && system.direction() == direction
}

// The first base that is not sealed so in both directions, if there is one.
fn first_unsealed(rt: &impl Abort, alloc: Global) -> Option<u32> {
    for number in LEAST_BASE..=GREATEST_BASE {
        let is_msd = is_sealed(rt, alloc, number, Direction::Msd);
        if !is_msd || !is_sealed(rt, alloc, number, Direction::Lsd) {
            return Some(number);
        }
    }
    None
}

#[test]
fn every_base_is_sealed(rt: HostRuntime) {
    let found = first_unsealed(&rt, rt.alloc());
    expect_value(&rt, "the bases", &found, &None);
}

// Whether base 2 is sealed under a limit, and not refused by it.
fn is_sealed_under(rt: &impl Abort, alloc: Global, limit: u32) -> bool {
    match seal(alloc, &base_of(rt, 2, Direction::Msd), Limit::new(limit)) {
        Ok(_) => true,
        Err(OpFault::States) => false,
        Err(_) => no_answer(rt),
    }
}

// Limits, and whether base 2 is sealed under each: the order has the width 3, and the first step of its successor the width 9.
static SEALED: [(&str, u32, bool); 3] = [("2", 2, false), ("8", 8, false), ("9", 9, true)];

#[test]
fn the_order_and_its_successor_keep_to_the_limit(rt: HostRuntime) {
    for (row, limit, wanted) in &SEALED {
        let found = is_sealed_under(&rt, rt.alloc(), *limit);
        expect_value(&rt, row, &found, wanted);
    }
}

// Whether the language and the adder have as many states, and the adder accepts the one word and not the other.
fn is_right_adder(system: &System, right: &[u32], wrong: &[u32]) -> bool {
    system.language().states() == 1
        && system.adder().states() == 2
        && system.adder().accepts(right)
        && !system.adder().accepts(wrong)
}

// Whether they are so in a base.
fn adds_rightly(
    rt: &impl Abort,
    alloc: Global,
    number: u32,
    direction: Direction,
    (right, wrong): (&[u32], &[u32]),
) -> bool {
    let system = sealed(rt, alloc, number, direction, LIMIT);
    is_right_adder(&system, right, wrong)
}

#[test]
fn adders_have_a_state_for_each_carry(rt: HostRuntime) {
    for (row, number, direction, right, wrong) in &SUMS {
        let found = adds_rightly(&rt, rt.alloc(), *number, *direction, (right, wrong));
        expect_so(&rt, row, found);
    }
}

#[test]
fn systems_of_the_program_are_sealed_without_a_limit(rt: HostRuntime) {
    let base = BaseK {
        base: 2,
        direction: Direction::Msd,
    };
    let sealed = given(&rt, seal_built_in(rt.alloc(), &base));
    let less = table_of(&rt, rt.alloc(), sealed.less());
    expect_text(&rt, "the order", &less, "/ 0>0 1>1 3>0/! 0>1 1>1 2>1 3>1");
}

// Whether two tracks of the automaton are all, and of one size.
fn is_pair(dfa: &Dfa) -> bool
    ensures { IsTrue result → ((digits : ℕ) × (dfa.now.sizes ≡ digits ∷ digits ∷ [])) }
{
    let sizes = dfa.alphabet().sizes();
    sizes.len() == 2 && sizes[0] == sizes[1]
}

// Whether three tracks of the automaton are all, and of one size.
fn is_triple(dfa: &Dfa) -> bool
    ensures { IsTrue result → ((digits : ℕ) × (dfa.now.sizes ≡ digits ∷ digits ∷ digits ∷ [])) }
{
    let sizes = dfa.alphabet().sizes();
    sizes.len() == 3 && sizes[0] == sizes[1] && sizes[1] == sizes[2]
}

// The first step of the successor under a limit, from an order, or why there is none.
pub fn chain(rt: &impl Abort, alloc: Global, order: &str, limit: u32) -> String {
    let less = language(rt, alloc, order);
    if is_pair(&less) {
        outcome(rt, alloc, chain_of(alloc, &less, Limit::new(limit)))
    } else {
        no_answer(rt)
    }
}

// The automaton of a line with three tracks, under the names u, x and y.
fn triples(rt: &impl Abort, alloc: Global, line: &str) -> Tracked
    ensures { result.names ≡ name_u ∷ name_x ∷ name_y ∷ [] }
{
    let dfa = language(rt, alloc, line);
    if dfa.alphabet().sizes().len() != 3 {
        return no_answer(rt);
    }
    let u = given(rt, Name::new(alloc, "u"));
    let x = given(rt, Name::new(alloc, "x"));
    let y = given(rt, Name::new(alloc, "y"));
    Tracked::of_canonical(dfa, given(rt, vec![in alloc; u, x, y]))
}

// The second step under a limit, from the triples of the first, or why there is none.
pub fn between(
    rt: &impl Abort,
    alloc: Global,
    line: &str,
    direction: Direction,
    limit: u32,
) -> String {
    let chain = triples(rt, alloc, line);
    let _tracks = chain.dfa().alphabet().tracks();
    if is_triple(chain.dfa()) {
        outcome(
            rt,
            alloc,
            between_of(alloc, &chain, direction, Limit::new(limit)),
        )
    } else {
        no_answer(rt)
    }
}

// The automaton of a line with two tracks, under the names x and y.
fn pairs(rt: &impl Abort, alloc: Global, line: &str) -> Tracked
    ensures { result.names ≡ name_x ∷ name_y ∷ [] }
{
    let dfa = language(rt, alloc, line);
    if dfa.alphabet().sizes().len() != 2 {
        return no_answer(rt);
    }
    let x = given(rt, Name::new(alloc, "x"));
    let y = given(rt, Name::new(alloc, "y"));
    Tracked::of_canonical(dfa, given(rt, vec![in alloc; x, y]))
}

// The third step under a limit, from the order and the pairs of the second, or why there is none.
pub fn next(rt: &impl Abort, alloc: Global, order: &str, line: &str, limit: u32) -> String {
    let less = language(rt, alloc, order);
    let between = pairs(rt, alloc, line);
    let _tracks = less.alphabet().tracks();
    if is_pair(&less) && between.dfa().alphabet().sizes() == less.alphabet().sizes() {
        table_outcome(
            rt,
            alloc,
            next_of(alloc, &less, &between, Limit::new(limit)),
        )
    } else {
        no_answer(rt)
    }
}

// The successor under a limit, from an order.
fn successor(
    rt: &impl Abort,
    alloc: Global,
    order: &str,
    direction: Direction,
    limit: u32,
) -> String {
    let less = language(rt, alloc, order);
    if is_pair(&less) {
        table_of(
            rt,
            alloc,
            &given(rt, successor_of(alloc, &less, direction, Limit::new(limit))),
        )
    } else {
        no_answer(rt)
    }
}

// Orders of numbers, the first steps of their successors, and the second ones: of base 2 in both directions, and of words without
// two 1s in a row.
const ORDER_MSD_2: &str = "x:2 y:2 = / 0>0 1>1 3>0/! 0>1 1>1 2>1 3>1";

const CHAIN_MSD_2: &str =
    "9 u:2 x:2 y:2 = / 0>0 1>1 5>2 7>0/ 0>1 1>1 4>3 5>3 6>1 7>1/ 0>2 1>3 2>2 3>3 5>2 7>2/! 0>3 1>3 2>3 3>3 4>3 5>3 6>3 7>3";

const BETWEEN_MSD_2: &str = "4 x:2 y:2 = / 0>0 1>1 3>0/ 0>2 1>2 2>1 3>2/! 0>2 1>2 2>2 3>2";

const ORDER_LSD_2: &str = "x:2 y:2 = / 0>0 1>1 2>0 3>0/! 0>1 1>1 2>0 3>1";

const CHAIN_LSD_2: &str =
    "4 u:2 x:2 y:2 = / 0>0 1>1 2>0 3>1 4>2 5>2 6>0 7>0/ 0>1 1>1 2>1 3>1 4>2 5>3 6>0 7>1/ 0>2 1>3 2>0 3>1 4>2 5>2 6>2 7>2/! 0>3 1>3 2>1 3>1 4>2 5>3 6>2 7>3";

const BETWEEN_LSD_2: &str = "6 x:2 y:2 = / 0>1 1>1 2>0 3>1/ 0>1 1>2 2>1 3>1/! 0>2 1>2 2>1 3>2";

const ORDER_SPARSE: &str =
    "x:2 y:2 = / 0>0 1>1 3>2/! 0>3 2>4/ 0>0/! 0>3 1>1 2>4 3>5/! 0>3 1>1/! 0>3";

const CHAIN_SPARSE: &str =
    "31 u:2 x:2 y:2 = / 0>0 1>1 5>2 7>3/ 0>4 4>5 6>6/ 0>7 2>8/ 0>0/ 0>4 1>1 4>5 5>9 6>6 7>10/! 0>11 1>12 2>13 3>14/ 0>4 1>1/ 0>7 1>12 2>8 3>14 5>2 7>15/ 0>7 1>12 5>2/! 0>11 2>13/ 0>4/! 0>11 1>12 2>13 3>14 4>5 5>9 6>16 7>17/! 0>11 2>13 4>5 6>16/! 0>11 1>12 4>5 5>9/! 0>11 4>5/ 0>7/! 0>11 1>12/! 0>11";

const BETWEEN_SPARSE: &str =
    "14 x:2 y:2 = / 0>0 1>1 3>2/ 0>3 2>4/ 0>0/! 0>3 1>5 2>6 3>7/ 0>8 1>5/! 0>3 2>6/! 0>3 1>5/! 0>3/ 0>3 1>5 2>4 3>7";

// The first steps.
static CHAINS: [(Call, &str); 3] = [
    (Call::Chain(ORDER_MSD_2), CHAIN_MSD_2),
    (Call::Chain(ORDER_LSD_2), CHAIN_LSD_2),
    (Call::Chain(ORDER_SPARSE), CHAIN_SPARSE),
];

#[test]
fn chains_are_those_worked_out(rt: HostRuntime) {
    expect_widths(&rt, rt.alloc(), &CHAINS);
}

// The second steps.
static BETWEEN: [(Call, &str); 3] = [
    (Call::Between(CHAIN_MSD_2, Direction::Msd), BETWEEN_MSD_2),
    (Call::Between(CHAIN_LSD_2, Direction::Lsd), BETWEEN_LSD_2),
    (Call::Between(CHAIN_SPARSE, Direction::Msd), BETWEEN_SPARSE),
];

#[test]
fn pairs_with_a_number_between_are_those_worked_out(rt: HostRuntime) {
    expect_widths(&rt, rt.alloc(), &BETWEEN);
}

// The third steps.
static NEXT: [(Call, &str); 3] = [
    (
        Call::Next(ORDER_MSD_2, BETWEEN_MSD_2),
        "4 / 0>0 1>1 3>0/! 2>1",
    ),
    (
        Call::Next(ORDER_LSD_2, BETWEEN_LSD_2),
        "4 / 1>1 2>0/! 0>1 3>1",
    ),
    (
        Call::Next(ORDER_SPARSE, BETWEEN_SPARSE),
        "10 / 0>0 1>1 3>2/! 2>3/ 0>0/! 0>1",
    ),
];

// Directions and orders, and their successors: what the third steps make.
static SUCCESSORS: [(Direction, &str, &str); 3] = [
    (Direction::Msd, ORDER_MSD_2, "/ 0>0 1>1 3>0/! 2>1"),
    (Direction::Lsd, ORDER_LSD_2, "/ 1>1 2>0/! 0>1 3>1"),
    (
        Direction::Msd,
        ORDER_SPARSE,
        "/ 0>0 1>1 3>2/! 2>3/ 0>0/! 0>1",
    ),
];

#[test]
fn successors_are_those_worked_out(rt: HostRuntime) {
    expect_widths(&rt, rt.alloc(), &NEXT);
    for (direction, order, wanted) in &SUCCESSORS {
        let found = successor(&rt, rt.alloc(), order, *direction, 1000);
        expect_text(&rt, order, &found, wanted);
    }
}

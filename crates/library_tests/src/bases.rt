//! Base k, by sums worked by hand.

use crate::given::{given, no_answer};
use crate::outcomes::expect_value;
use base_k::base_k::{BaseK, GREATEST_BASE, LEAST_BASE};
use digit_tuple::direction::Direction;
use num_system::num_system::NumSystem;
use std::alloc::Global;
use std::process::Abort;

// A system by its name, its base and its direction, a word that represents 5, 7 and 12 in it, and one that represents
// 5, 7 and 13. The letter of the digits x, y and z in base k is k * k * x + k * y + z.
pub static SUMS: [(&str, u32, Direction, &[u32], &[u32]); 8] = [
    ("msd_2", 2, Direction::Msd, &[1, 7, 2, 6], &[1, 7, 2, 7]),
    ("lsd_2", 2, Direction::Lsd, &[6, 2, 7, 1], &[7, 2, 7, 1]),
    ("msd_3", 3, Direction::Msd, &[1, 16, 21], &[1, 16, 22]),
    ("lsd_3", 3, Direction::Lsd, &[21, 16, 1], &[22, 16, 1]),
    ("msd_10", 10, Direction::Msd, &[1, 572], &[1, 573]),
    ("lsd_10", 10, Direction::Lsd, &[572, 1], &[573, 1]),
    ("msd_40", 40, Direction::Msd, &[8292], &[8293]),
    ("lsd_40", 40, Direction::Lsd, &[8292], &[8293]),
];

// Whether a system of these digits takes the words over them alone, and the adder accepts a word.
fn adds(rt: &impl Abort, alloc: Global, base: u32, direction: Direction, word: &[u32]) -> bool {
    let system = base_of(rt, base, direction);
    let is_right = form_of(&system) == (base, direction)
        && !takes(rt, alloc, &system, &[0, base])
        && takes(rt, alloc, &system, &[0, base.saturating_sub(1)]);
    if is_right {
        adder_takes(rt, alloc, &system, word)
    } else {
        no_answer(rt)
    }
}

/// The base with this number.
pub fn base_of(rt: &impl Abort, number: u32, direction: Direction) -> BaseK {
    BaseK::new(number, direction).expect(rt, "a base")
}

// How many digits a base has, and its direction.
fn form_of(system: &BaseK) -> (u32, Direction) {
    (system.digits(), system.direction())
}

// Whether a word is one of the base's language.
fn takes(rt: &impl Abort, alloc: Global, system: &BaseK, word: &[u32]) -> bool {
    given(rt, system.language(alloc)).accepts(word)
}

// Whether the base's adder accepts a word.
fn adder_takes(rt: &impl Abort, alloc: Global, system: &BaseK, word: &[u32]) -> bool {
    given(rt, system.adder(alloc)).accepts(word)
}

#[test]
fn five_and_seven_are_twelve(rt: HostRuntime) {
    for (row, base, direction, right, wrong) in &SUMS {
        let is_sum = adds(&rt, rt.alloc(), *base, *direction, right);
        expect_value(&rt, row, &is_sum, &true);
        let is_other = adds(&rt, rt.alloc(), *base, *direction, wrong);
        expect_value(&rt, row, &is_other, &false);
    }
}

// Whether there is a base of this number in both directions, or in none.
fn is_base(number: u32) -> Option<bool> {
    let msd = BaseK::new(number, Direction::Msd).is_some();
    let lsd = BaseK::new(number, Direction::Lsd).is_some();
    if msd == lsd { Some(msd) } else { None }
}

// Numbers, and whether there is a base of each.
static BASES: [(&str, u32, bool); 4] = [
    ("below the least", LEAST_BASE - 1, false),
    ("2", 2, true),
    ("40", 40, true),
    ("past the greatest", GREATEST_BASE + 1, false),
];

#[test]
fn bases_are_2_to_40(rt: HostRuntime) {
    for (row, number, there) in &BASES {
        expect_value(&rt, row, &is_base(*number), &Some(*there));
    }
}

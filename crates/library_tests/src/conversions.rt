//! Words over other bases: the lines of the steps there and on, and the letters at the first positions of each word.

ghost use Rattle.std.specs.Prelude.{ℕ, ◌≡◌, ◌≤◌, ◌∷◌, [], IfOk};
ghost use Rattle.std.specs.Rc.{rc_value};
ghost use Rattle.base_k.specs.Positional.{base};
ghost use Rattle.num_system.specs.Sealed.{system_of};
ghost use Rattle.num_system.specs.Tracks.{systems_of};

use crate::fixed_words::{DOUBLING, THUE_MORSE, promoted};
use crate::given::{given, no_answer};
use crate::letter_functions::step_fault_text;
use crate::outcomes::{after_lines, expect_text, letter_text};
use base_change::conversion::convert;
use base_change::related::related;
use base_k::base_k::{BaseK, GREATEST_BASE, LEAST_BASE};
use digit_tuple::direction::Direction;
use digit_tuple::faults::OpFault;
use digit_tuple::limit::Limit;
use digit_tuple::step_fault::StepFault;
use digit_tuple::steps::Steps;
use num_system::seal::seal;
use num_system::system::System;
use num_system::tracks::digits_of;
use std::alloc::Global;
use std::process::Abort;
use std::rc::Rc;
use word_output::word::Word;

// A base by its number, and a direction.
type Base = (u32, Direction);

// No base passes this limit when it is sealed.
const SEALING: u32 = 1024;

// The base of a word, which has one track.
fn base_of(rt: &impl Abort, alloc: Global, word: &Word) -> u32
    requires { (k : ℕ) × (systems_of word.now.systems ≡ base k ∷ []) }
    ensures { systems_of word.now.systems ≡ base result ∷ [] }
{
    match given(rt, digits_of(alloc, word.systems())).as_slice() {
        [digits] => *digits,
        _ => no_answer(rt),
    }
}

// The system of a base, sealed.
fn sealed(alloc: Global, to: BaseK) -> Result<Rc<System>, OpFault>
    ensures { IfOk result (λ system. system_of (rc_value system) ≡ base to.base) }
{
    let system = seal(alloc, &to, Limit::new(SEALING))?;
    Ok(Rc::new(alloc, system)?)
}

// The word over another base.
fn converted(
    rt: &impl Abort,
    alloc: Global,
    word: &Word,
    to: BaseK,
    steps: &mut Steps,
) -> Result<Word, StepFault>
    requires { (k : ℕ) × (systems_of word.now.systems ≡ base k ∷ []) }
    ensures { IfOk result (λ made. (k : ℕ) × (systems_of made.systems ≡ base k ∷ [])) }
{
    let old = base_of(rt, alloc, word);
    let Ok(system) = sealed(alloc, to) else {
        no_answer(rt);
    };
    if old < LEAST_BASE || GREATEST_BASE < old {
        no_answer(rt);
    }
    let Some(common) = related(old, to.base) else {
        no_answer(rt);
    };
    let made = convert(alloc, word, &system, common, steps)?;
    Ok(made)
}

// So many first positions are looked at.
const SOME: u32 = 10;

// So many digits are written.
const DIGITS: usize = 5;

// The letter at a position that has no more digits.
fn letter_at(rt: &impl Abort, alloc: Global, word: &Word, base: BaseK, place: u32) -> Option<i32> {
    let mut representation = Vec::new(alloc);
    let mut rest = place;
    for _ in 0..DIGITS {
        given(rt, representation.push(rest % base.base));
        rest /= base.base;
    }
    if base.direction == Direction::Msd {
        representation.reverse();
    }
    word.value(&representation)
}

// The letters at the first positions, each after a blank, and a dash where there is none.
fn letters_of(rt: &impl Abort, alloc: Global, word: &Word, base: BaseK) -> String {
    let mut text = String::new(alloc);
    for place in 0..SOME {
        let letter = letter_text(rt, alloc, letter_at(rt, alloc, word, base, place));
        given(rt, text.push_str(&letter));
    }
    text
}

// The base of a pair.
fn in_base(rt: &impl Abort, (number, direction): Base) -> BaseK {
    match BaseK::new(number, direction) {
        Some(base) => base,
        None => no_answer(rt),
    }
}

// The letters of the word over one base and of that word over another, or the fault.
fn letters_after(
    rt: &impl Abort,
    alloc: Global,
    word: &Word,
    bases: (BaseK, BaseK),
    steps: &mut Steps,
) -> Result<String, StepFault>
    requires { (k : ℕ) × (systems_of word.now.systems ≡ base k ∷ []) }
{
    let (first, second) = bases;
    let between = converted(rt, alloc, word, first, steps)?;
    let mut letters = letters_of(rt, alloc, &between, first);
    let last = converted(rt, alloc, &between, second, steps)?;
    given(rt, letters.push(','));
    given(rt, letters.push_str(&letters_of(rt, alloc, &last, second)));
    Ok(letters)
}

// The lines of the steps and the letters of both words, or the lines and the fault.
fn changed(
    rt: &impl Abort,
    alloc: Global,
    rules: &str,
    bases: (BaseK, BaseK),
    limit: u32,
) -> String {
    let mut steps = Steps::new(alloc, limit);
    let word = promoted(rt, alloc, rules, &mut steps);
    let answer = match letters_after(rt, alloc, &word, bases, &mut steps) {
        Ok(letters) => letters,
        Err(fault) => step_fault_text(rt, alloc, fault),
    };
    after_lines(rt, alloc, &steps, &answer)
}

// Rules, the base to which their word is changed first and then, the limit, and what is given. The letters are those of the fixed points.
static CHANGED: [(&str, Base, Base, u32, &str); 4] = [
    (
        THUE_MORSE,
        (4, Direction::Msd),
        (2, Direction::Lsd),
        6,
        "promote 2 2, reverse 2 2, join 2 2, reverse 2 2, reverse 2 2, split 6 2,  0 1 1 0 1 0 0 1 1 0, 0 1 1 0 1 0 0 1 1 0",
    ),
    (
        THUE_MORSE,
        (4, Direction::Msd),
        (2, Direction::Lsd),
        5,
        "promote 2 2, reverse 2 2, join 2 2, reverse 2 2, reverse 2 2, States(6)",
    ),
    (
        DOUBLING,
        (2, Direction::Lsd),
        (2, Direction::Msd),
        4,
        "promote 2 2, reverse 4 4, reverse 2 2,  0 1 0 0 0 1 0 1 0 1, 0 1 0 0 0 1 0 1 0 1",
    ),
    (
        DOUBLING,
        (2, Direction::Lsd),
        (2, Direction::Msd),
        3,
        "promote 2 2, States(2)",
    ),
];

#[test]
fn words_over_other_bases_are_those_worked_out(rt: HostRuntime) {
    for (rules, first, second, limit, wanted) in &CHANGED {
        let bases = (in_base(&rt, *first), in_base(&rt, *second));
        let found = changed(&rt, rt.alloc(), rules, bases, *limit);
        expect_text(&rt, rules, &found, wanted);
    }
}

//! Single steps: what each makes, its line, and its refusal, which leaves the steps as they were.

ghost use Rattle.std.specs.Prelude.{◌≡◌, ◌<◌, length};

use crate::given::{given, no_answer};
use crate::outcomes::{expect_so, expect_value};
use crate::products::{Restriction, have_languages};
use crate::sealed_systems::sealed;
use crate::table_texts::{language, languages, line_of, table, table_of, tracked};
use automaton_steps::complement_step::complement_step;
use automaton_steps::join_step::{Joining, join_step};
use automaton_steps::order_step::order_step;
use automaton_steps::pad_step::pad_step;
use automaton_steps::project_step::project_step;
use automaton_steps::read_step::read_step;
use automaton_steps::reverse_step::reverse_step;
use automaton_steps::valid_step::valid_step;
use digit_tuple::dfa::Dfa;
use digit_tuple::direction::Direction;
use digit_tuple::name::Name;
use digit_tuple::names::find_name;
use digit_tuple::step_fault::StepFault;
use digit_tuple::steps::Steps;
use minimise::tracked::Tracked;
use number_relations::constant::constant_step;
use product_op::joint_tracks::agree_on_shared;
use product_op::languages::are_languages;
use product_op::op::Op;
use std::alloc::Global;
use std::process::Abort;
use std::rc::Rc;

// A step on automata of lines.
#[derive(Clone, Copy)]
enum Step {
    Read(&'static str),
    Reverse(&'static str),
    Pad(Direction, &'static str),
    Restricted(Restriction, &'static [&'static str], &'static str),
    Order(Direction, &'static str),
    /// Base 2.
    Const(Direction, u64),
    Product(Op, &'static str, &'static str),
    Project(Direction, &'static str, &'static str),
}

// Does the step as the next one, and gives the text of its result.
fn done(
    rt: &impl Abort,
    alloc: Global,
    step: Step,
    steps: &mut Steps,
) -> Result<String, StepFault> {
    match step {
        Step::Read(line) => read(rt, alloc, line, steps),
        Step::Reverse(line) => reverse(rt, alloc, line, steps),
        Step::Pad(direction, line) => pad(rt, alloc, direction, line, steps),
        Step::Restricted(direction, valid, line) => restrict(
            rt,
            alloc,
            direction,
            (valid, line),
            steps,
        ),
        Step::Order(direction, line) => order(rt, alloc, direction, line, steps),
        Step::Const(direction, number) => number_in(rt, alloc, direction, number, steps),
        Step::Product(op, a, b) => product(rt, alloc, op, (a, b), steps),
        Step::Project(direction, track, line) => project(
            rt,
            alloc,
            direction,
            (track, line),
            steps,
        ),
    }
}

// The table that a step made.
fn made_table(
    rt: &impl Abort,
    alloc: Global,
    made: Result<Dfa, StepFault>,
) -> Result<String, StepFault> {
    Ok(table_of(rt, alloc, &made?))
}

// The line of the automaton that a step made.
fn made_line(
    rt: &impl Abort,
    alloc: Global,
    made: Result<Tracked, StepFault>,
) -> Result<String, StepFault> {
    Ok(line_of(rt, alloc, &made?))
}

fn read(
    rt: &impl Abort,
    alloc: Global,
    line: &str,
    steps: &mut Steps,
) -> Result<String, StepFault> {
    let listed = table(rt, alloc, line);
    made_table(rt, alloc, read_step(alloc, &listed, steps))
}

fn reverse(
    rt: &impl Abort,
    alloc: Global,
    line: &str,
    steps: &mut Steps,
) -> Result<String, StepFault> {
    let a = language(rt, alloc, line);
    made_table(rt, alloc, reverse_step(alloc, &a, steps))
}

fn pad(
    rt: &impl Abort,
    alloc: Global,
    direction: Direction,
    line: &str,
    steps: &mut Steps,
) -> Result<String, StepFault> {
    let a = language(rt, alloc, line);
    made_table(rt, alloc, pad_step(alloc, &a, direction, steps))
}

// The valid part or the complement of a line's automaton, if there is a language for each track.
fn restrict(
    rt: &impl Abort,
    alloc: Global,
    direction: Restriction,
    (valid, line): (&[&str], &str),
    steps: &mut Steps,
) -> Result<String, StepFault> {
    let a = tracked(rt, alloc, line);
    let languages = languages(rt, alloc, valid);
    restricted(rt, alloc, direction, (&a, &languages), steps)
}

// The same of an automaton.
fn restricted(
    rt: &impl Abort,
    alloc: Global,
    direction: Restriction,
    (a, languages): (&Tracked, &[Rc<Dfa>]),
    steps: &mut Steps,
) -> Result<String, StepFault> {
    if given(
        rt,
        are_languages(alloc, a.dfa().alphabet().sizes(), languages),
    ) {
        let made = match direction {
            Restriction::Complement => complement_step(alloc, a, languages, steps),
            Restriction::ValidPart => valid_step(alloc, a, languages, steps),
        };
        made_line(rt, alloc, made)
    } else {
        no_answer(rt)
    }
}

fn order(
    rt: &impl Abort,
    alloc: Global,
    direction: Direction,
    line: &str,
    steps: &mut Steps,
) -> Result<String, StepFault> {
    let language = language(rt, alloc, line);
    if language.alphabet().sizes().len() == 1 {
        made_table(rt, alloc, order_step(alloc, &language, direction, steps))
    } else {
        no_answer(rt)
    }
}

fn number_in(
    rt: &impl Abort,
    alloc: Global,
    direction: Direction,
    number: u64,
    steps: &mut Steps,
) -> Result<String, StepFault> {
    let system = given(rt, Rc::new(alloc, sealed(rt, alloc, 2, direction, 1000)));
    let name = given(rt, Name::new(alloc, "x"));
    let relation = constant_step(alloc, &system, number, &name, steps)?;
    Ok(table_of(rt, alloc, relation.dfa()))
}

// The product of the two, of which the valid words are all those of their digits.
fn product(
    rt: &impl Abort,
    alloc: Global,
    op: Op,
    (a, b): (&str, &str),
    steps: &mut Steps,
) -> Result<String, StepFault> {
    let a = tracked(rt, alloc, a);
    let b = tracked(rt, alloc, b);
    let languages = languages(rt, alloc, &["x:2 = .*"]);
    let joining = Joining {
        op,
        languages: &languages,
    };
    joined(rt, alloc, (&a, &b), joining, steps)
}

// The product, if the arguments go together.
fn joined(
    rt: &impl Abort,
    alloc: Global,
    (a, b): (&Tracked, &Tracked),
    joining: Joining<'_>,
    steps: &mut Steps,
) -> Result<String, StepFault> {
    if agree_on_shared(a, b) && have_languages(rt, alloc, a, b, joining) {
        made_line(rt, alloc, join_step(alloc, a, b, joining, steps))
    } else {
        no_answer(rt)
    }
}

fn project(
    rt: &impl Abort,
    alloc: Global,
    direction: Direction,
    (track, line): (&str, &str),
    steps: &mut Steps,
) -> Result<String, StepFault> {
    let a = tracked(rt, alloc, line);
    let track = given(rt, Name::new(alloc, track));
    if find_name(a.names(), &track).is_some() {
        made_line(rt, alloc, project_step(alloc, &a, &track, direction, steps))
    } else {
        no_answer(rt)
    }
}

// The words whose third letter from the end is 1, those with an even number of 1s, those that end in 1, and those without
// two 1s in a row.
const THIRD: &str = "x:2 = / 0>0 1>0 1>1/ 0>2 1>2/ 0>3 1>3/!";

const EVEN: &str = "x:2 = (0|10*1)*";

const ENDS: &str = "x:2 = (0|1)*1";

const SPARSE: &str = "x:2 = (0|10)*1?";

// A step, its line and what it makes.
struct Row {
    step: Step,
    kind: &'static str,
    width: u32,
    size: u32,
    made: &'static str,
}

static ROWS: [Row; 12] = [
    Row {
        step: Step::Read(THIRD),
        kind: "read",
        width: 8,
        size: 8,
        made: "/ 0>0 1>1/ 0>2 1>3/ 0>4 1>5/ 0>6 1>7/! 0>0 1>1/! 0>2 1>3/! 0>4 1>5/! 0>6 1>7",
    },
    // two states alike and the empty set count in the width
    Row {
        step: Step::Read("x:2 = / 0>1 1>2/! 0>1/! 0>2"),
        kind: "read",
        width: 4,
        size: 2,
        made: "/ 0>1 1>1/! 0>1",
    },
    Row {
        step: Step::Reverse(THIRD),
        kind: "reverse",
        width: 5,
        size: 4,
        made: "/ 0>1 1>1/ 0>2 1>2/ 1>3/! 0>3 1>3",
    },
    Row {
        step: Step::Pad(Direction::Msd, "x:2 = 1"),
        kind: "pad",
        width: 3,
        size: 2,
        made: "/ 0>0 1>1/!",
    },
    Row {
        step: Step::Pad(Direction::Lsd, "x:2 = 10"),
        kind: "pad",
        width: 6,
        size: 2,
        made: "/ 1>1/! 0>1",
    },
    Row {
        step: Step::Restricted(Restriction::ValidPart, &[SPARSE], ENDS),
        kind: "valid",
        width: 4,
        size: 2,
        made: "x:2 = / 0>0 1>1/! 0>0",
    },
    Row {
        step: Step::Order(Direction::Lsd, "x:2 = .*"),
        kind: "order",
        width: 3,
        size: 2,
        made: "/ 0>0 1>1 2>0 3>0/! 0>1 1>1 2>0 3>1",
    },
    Row {
        step: Step::Const(Direction::Msd, 6),
        kind: "const",
        width: 5,
        size: 4,
        made: "/ 0>0 1>1/ 1>2/ 0>3/!",
    },
    Row {
        step: Step::Product(Op::And, EVEN, ENDS),
        kind: "product",
        width: 4,
        size: 3,
        made: "x:2 = / 0>0 1>1/ 0>1 1>2/! 0>0 1>1",
    },
    Row {
        step: Step::Product(Op::Or, EVEN, ENDS),
        kind: "product",
        width: 4,
        size: 3,
        made: "x:2 = /! 0>0 1>1/! 0>2 1>0/ 0>2 1>0",
    },
    Row {
        step: Step::Restricted(Restriction::Complement, &[SPARSE], ENDS),
        kind: "complement",
        width: 4,
        size: 2,
        made: "x:2 = /! 0>0 1>1/ 0>0",
    },
    Row {
        step: Step::Project(Direction::Lsd, "x", "x:2 y:2 = ([0,0]|[1,0][1,1]*[0,1])*"),
        kind: "project",
        width: 3,
        size: 2,
        made: "y:2 = /! 0>1/! 0>1 1>1",
    },
];

// Whether there is one line, that of the row.
fn is_line_of(steps: &Steps, row: &Row) -> bool {
    if steps.count() != 1 {
        return false;
    }
    let line = steps.line(0);
    line.kind.name() == row.kind && line.width == row.width && line.size == row.size
}

// Whether a row's step alone makes what it should, and has its line.
fn is_made(rt: &impl Abort, alloc: Global, row: &Row) -> bool {
    let mut steps = Steps::new(alloc, row.width);
    let made = given(rt, done(rt, alloc, row.step, &mut steps));
    made.as_str() == row.made && is_line_of(&steps, row)
}

#[test]
fn steps_have_these_lines(rt: HostRuntime) {
    for row in &ROWS {
        expect_so(&rt, row.made, is_made(&rt, rt.alloc(), row));
    }
}

// Whether a step is done, or refused where it passes the limit, and then counts for none.
fn keeps_to_the_limit(rt: &impl Abort, alloc: Global, row: &Row, steps: &mut Steps) -> bool {
    let number = steps.next_number();
    let refused = done(rt, alloc, row.step, steps).err();
    if row.width <= steps.limit() {
        refused.is_none() && steps.count() == number
    } else {
        refused == Some(StepFault::States(number)) && steps.next_number() == number
    }
}

// How many of the rows' steps, one after the other, keep to one limit until one does not.
fn keeping(rt: &impl Abort, alloc: Global, limit: u32) -> usize {
    let mut steps = Steps::new(alloc, limit);
    let mut count: usize = 0;
    for row in &ROWS {
        if !keeps_to_the_limit(rt, alloc, row, &mut steps) {
            return count;
        }
        count = count.saturating_add(1);
    }
    count
}

// Limits.
static LIMITS: [(&str, u32); 6] = [
    ("limit 2", 2),
    ("limit 3", 3),
    ("limit 4", 4),
    ("limit 5", 5),
    ("limit 6", 6),
    ("limit 7", 7),
];

// Under one limit the steps that pass it are refused, and count for none.
#[test]
fn steps_past_the_limit_are_refused(rt: HostRuntime) {
    for (row, limit) in &LIMITS {
        expect_value(&rt, row, &keeping(&rt, rt.alloc(), *limit), &ROWS.len());
    }
}

// Steps over too many letters.
static LARGE: [(&str, Step); 3] = [
    (
        "product",
        Step::Product(Op::And, "x:257 = ()", "y:256 = ()"),
    ),
    (
        "project",
        Step::Project(Direction::Msd, "z", "x:300 y:300 z:0 = /!"),
    ),
    ("order", Step::Order(Direction::Msd, "x:300 = /! 0>0")),
];

// Whether a step is refused for its letters, and counts for none.
fn has_too_many_letters(rt: &impl Abort, alloc: Global, step: Step) -> bool {
    let mut steps = Steps::new(alloc, 0);
    let refused = done(rt, alloc, step, &mut steps).err();
    refused == Some(StepFault::Letters(1)) && steps.count() == 0
}

#[test]
fn letters_are_looked_at_before_the_limit(rt: HostRuntime) {
    for (row, step) in &LARGE {
        expect_value(
            &rt,
            row,
            &has_too_many_letters(&rt, rt.alloc(), *step),
            &true,
        );
    }
}

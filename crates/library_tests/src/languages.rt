//! Operations on languages: what each makes, the lines of its steps, and its refusal. The rows are those of a program from
//! outside, which counts values of words by the definitions of the widths.

ghost use Rattle.std.specs.Prelude.{◌≡◌, IsTrue};
ghost use Rattle.minimise.specs.Canonical.{IsCanonical};

use crate::given::{given, no_answer};
use crate::outcomes::{expect_text, expect_value, lines_of};
use crate::table_texts::{language, table_of};
use automaton_steps::reverse_step::reverse_step;
use digit_tuple::dfa::Dfa;
use digit_tuple::step_fault::StepFault;
use digit_tuple::steps::Steps;
use lang_ops::concat_step::concat_step;
use lang_ops::product_step::product_step;
use lang_ops::star_step::star_step;
use minimise::comparison::is_canonical;
use product_op::op::Op;
use std::alloc::Global;
use std::process::Abort;

// An operation on languages of lines.
#[derive(Clone, Copy)]
enum Operation {
    Union,
    Intersection,
    Concat,
    Star,
    Reverse,
}

// Whether two automata are canonical and over the same tracks.
fn go_together(rt: &impl Abort, alloc: Global, a: &Dfa, b: &Dfa) -> bool
    ensures first { IsTrue result → IsCanonical a.now }
    ensures second { IsTrue result → IsCanonical b.now }
    ensures sizes { IsTrue result → b.now.sizes ≡ a.now.sizes }
{
    given(rt, is_canonical(alloc, a))
        && given(rt, is_canonical(alloc, b))
        && b.alphabet().sizes() == a.alphabet().sizes()
}

// The operation's step on two automata, if they go together.
fn of_two(
    rt: &impl Abort,
    alloc: Global,
    operation: Operation,
    (a, b): (&Dfa, &Dfa),
    steps: &mut Steps,
) -> Result<Dfa, StepFault> {
    if !go_together(rt, alloc, a, b) {
        return no_answer(rt);
    }
    match operation {
        Operation::Union => product_step(alloc, a, b, Op::Or, steps),
        Operation::Intersection => product_step(alloc, a, b, Op::And, steps),
        Operation::Concat => concat_step(alloc, a, b, steps),
        Operation::Star | Operation::Reverse => no_answer(rt),
    }
}

// The operation's step on one automaton.
fn of_one(
    rt: &impl Abort,
    alloc: Global,
    operation: Operation,
    line: &str,
    steps: &mut Steps,
) -> Result<Dfa, StepFault> {
    let a = language(rt, alloc, line);
    match operation {
        Operation::Star => star_step(alloc, &a, steps),
        Operation::Reverse => reverse_step(alloc, &a, steps),
        _ => Ok(a),
    }
}

// The operation on the languages of all lines, from the left.
fn of_all(
    rt: &impl Abort,
    alloc: Global,
    operation: Operation,
    lines: &[&str],
    steps: &mut Steps,
) -> Result<Dfa, StepFault> {
    let (first, others) = lines.split_first().expect(rt, "a language");
    let mut made = of_one(rt, alloc, operation, first, steps)?;
    for line in others {
        let next = language(rt, alloc, line);
        made = of_two(rt, alloc, operation, (&made, &next), steps)?;
    }
    Ok(made)
}

// The lines of an operation's steps, and its table.
fn outcome(rt: &impl Abort, alloc: Global, operation: Operation, lines: &[&str]) -> String {
    let mut steps = Steps::new(alloc, 5000);
    let made = given(rt, of_all(rt, alloc, operation, lines, &mut steps));
    let mut text = lines_of(rt, alloc, &steps);
    given(rt, text.push_str(&table_of(rt, alloc, &made)));
    text
}

// An operation, its languages, and the lines of its steps with what it makes.
struct Row {
    operation: Operation,
    lines: &'static [&'static str],
    made: &'static str,
}

// The words of one 1 after 0s, and no word.
const AB: &str = "x:2 = 0*1";

const NOTHING: &str = "x:2 = /";

static STARS: [Row; 13] = [
    Row {
        operation: Operation::Star,
        lines: &[AB],
        made: "star 3 2, /! 0>1 1>0/ 0>1 1>0",
    },
    // the empty word is distinguished from the other words
    Row {
        operation: Operation::Star,
        lines: &[NOTHING],
        made: "star 2 1, /!",
    },
    Row {
        operation: Operation::Star,
        lines: &["x:2 = ()"],
        made: "star 2 1, /!",
    },
    // and here it is like all others
    Row {
        operation: Operation::Star,
        lines: &["x:1 = 0*"],
        made: "star 1 1, /! 0>0",
    },
    Row {
        operation: Operation::Star,
        lines: &["x:2 = 0*"],
        made: "star 2 1, /! 0>0",
    },
    // no letter, so that there is one word
    Row {
        operation: Operation::Star,
        lines: &["x:0 = /"],
        made: "star 1 1, /!",
    },
    Row {
        operation: Operation::Star,
        lines: &["x:2 = (0|1)1?"],
        made: "star 3 1, /! 0>0 1>0",
    },
    Row {
        operation: Operation::Star,
        lines: &["x:2 = 01|0"],
        made: "star 4 2, /! 0>1/! 0>1 1>0",
    },
    Row {
        operation: Operation::Star,
        lines: &["x:2 = 00|000"],
        made: "star 7 3, /! 0>1/ 0>2/! 0>2",
    },
    Row {
        operation: Operation::Star,
        lines: &["x:2 = (0|1)*1"],
        made: "star 3 2, /! 0>1 1>0/ 0>1 1>0",
    },
    Row {
        operation: Operation::Star,
        lines: &["x:2 = 1(0|1)*0"],
        made: "star 4 3, /! 1>1/ 0>2 1>1/! 0>2 1>1",
    },
    Row {
        operation: Operation::Star,
        lines: &["x:2 = 1|10*1"],
        made: "star 6 3, /! 1>1/! 0>2 1>1/ 0>2 1>0",
    },
    Row {
        operation: Operation::Star,
        lines: &["x:3 = 0|12"],
        made: "star 4 2, /! 0>0 1>1/ 2>0",
    },
];

static CONCATENATIONS: [Row; 11] = [
    Row {
        operation: Operation::Concat,
        lines: &[AB, AB, AB],
        made: "concat 5 3, concat 6 4, / 0>0 1>1/ 0>1 1>2/ 0>2 1>3/!",
    },
    Row {
        operation: Operation::Concat,
        lines: &[NOTHING, AB],
        made: "concat 1 1, /",
    },
    Row {
        operation: Operation::Concat,
        lines: &[AB, NOTHING],
        made: "concat 3 1, /",
    },
    Row {
        operation: Operation::Concat,
        lines: &[AB, NOTHING, AB],
        made: "concat 3 1, concat 1 1, /",
    },
    Row {
        operation: Operation::Concat,
        lines: &[NOTHING, NOTHING],
        made: "concat 1 1, /",
    },
    Row {
        operation: Operation::Concat,
        lines: &["x:2 = ()", AB],
        made: "concat 4 2, / 0>0 1>1/!",
    },
    Row {
        operation: Operation::Concat,
        lines: &[AB, "x:2 = ()"],
        made: "concat 3 2, / 0>0 1>1/!",
    },
    Row {
        operation: Operation::Concat,
        lines: &["x:2 = 0*", "x:2 = 0*"],
        made: "concat 2 1, /! 0>0",
    },
    Row {
        operation: Operation::Concat,
        lines: &["x:2 = (0|1)*", "x:2 = 1(0|1)"],
        made: "concat 4 4, / 0>0 1>1/ 0>2 1>3/! 0>0 1>1/! 0>2 1>3",
    },
    Row {
        operation: Operation::Concat,
        lines: &["x:2 = (0|1)*1", "x:2 = .|..."],
        made: "concat 16 9, / 0>0 1>1/ 0>2 1>3/! 0>4 1>1/! 0>5 1>3/ 0>6 1>7/! 0>8 1>7/! 0>0 1>1/! 0>2 1>3/! 0>6 1>7",
    },
    // of twenty automata the last one is empty
    Row {
        operation: Operation::Concat,
        lines: &[
            AB, AB, AB, AB, AB, AB, AB, AB, AB, AB, AB, AB, AB, AB, AB, AB, AB, AB, AB, NOTHING,
        ],
        made: "concat 5 3, concat 6 4, concat 7 5, concat 8 6, concat 9 7, concat 10 8, concat 11 9, concat 12 10, concat 13 11, concat 14 12, concat 15 13, concat 16 14, concat 17 15, concat 18 16, concat 19 17, concat 20 18, concat 21 19, concat 22 20, concat 21 1, /",
    },
];

static PAIRS: [Row; 9] = [
    Row {
        operation: Operation::Union,
        lines: &[AB, AB],
        made: "product 3 2, / 0>0 1>1/!",
    },
    Row {
        operation: Operation::Union,
        lines: &[AB, "x:2 = 1*0", "x:2 = 01"],
        made: "product 8 6, product 8 6, / 0>1 1>2/! 0>3 1>4/! 0>4 1>5/ 0>3 1>4/!/ 0>4 1>5",
    },
    Row {
        operation: Operation::Union,
        lines: &[NOTHING, AB],
        made: "product 3 2, / 0>0 1>1/!",
    },
    Row {
        operation: Operation::Union,
        lines: &[NOTHING, NOTHING],
        made: "product 1 1, /",
    },
    Row {
        operation: Operation::Intersection,
        lines: &["x:2 = (0|1)*1", "x:2 = (0|10*1)*"],
        made: "product 4 3, / 0>0 1>1/ 0>1 1>2/! 0>0 1>1",
    },
    Row {
        operation: Operation::Intersection,
        lines: &[AB, "x:2 = 1*0"],
        made: "product 8 1, /",
    },
    Row {
        operation: Operation::Intersection,
        lines: &[AB, AB],
        made: "product 3 2, / 0>0 1>1/!",
    },
    Row {
        operation: Operation::Intersection,
        lines: &[NOTHING, AB],
        made: "product 3 1, /",
    },
    Row {
        operation: Operation::Reverse,
        lines: &[AB],
        made: "reverse 3 2, / 1>1/! 0>1",
    },
];

// Asserts that operations have these steps, and make this.
fn expect_rows(rt: &impl Abort, alloc: Global, rows: &[Row]) {
    for row in rows {
        let found = outcome(rt, alloc, row.operation, row.lines);
        expect_text(rt, row.made, &found, row.made);
    }
}

#[test]
fn stars_have_these_widths(rt: HostRuntime) {
    expect_rows(&rt, rt.alloc(), &STARS);
}

#[test]
fn concatenations_have_these_widths(rt: HostRuntime) {
    expect_rows(&rt, rt.alloc(), &CONCATENATIONS);
}

#[test]
fn connectives_have_these_widths(rt: HostRuntime) {
    expect_rows(&rt, rt.alloc(), &PAIRS);
}

// Why an operation is refused under a limit, if it is, and how many steps were done before.
fn refusal(
    rt: &impl Abort,
    alloc: Global,
    operation: Operation,
    lines: &[&str],
    limit: u32,
) -> (Option<StepFault>, u64) {
    let mut steps = Steps::new(alloc, limit);
    let fault = of_all(rt, alloc, operation, lines, &mut steps).err();
    (fault, steps.count())
}

// An operation under a limit: the number of the step that is refused, or 0, and the steps that are done.
struct Limited {
    operation: Operation,
    lines: &'static [&'static str],
    limit: u32,
    refused: u64,
    done: u64,
}

// The words of which the twelfth letter from the start is 1: the reversal distinguishes the last twelve letters.
const TWELFTH: &str = "x:2 = ...........1.*";

static LIMITS: [Limited; 15] = [
    Limited {
        operation: Operation::Reverse,
        lines: &[TWELFTH],
        limit: 4096,
        refused: 0,
        done: 1,
    },
    Limited {
        operation: Operation::Reverse,
        lines: &[TWELFTH],
        limit: 4095,
        refused: 1,
        done: 0,
    },
    Limited {
        operation: Operation::Star,
        lines: &[AB],
        limit: 3,
        refused: 0,
        done: 1,
    },
    Limited {
        operation: Operation::Star,
        lines: &[AB],
        limit: 2,
        refused: 1,
        done: 0,
    },
    Limited {
        operation: Operation::Star,
        lines: &[NOTHING],
        limit: 1,
        refused: 1,
        done: 0,
    },
    Limited {
        operation: Operation::Star,
        lines: &["x:1 = 0*"],
        limit: 1,
        refused: 0,
        done: 1,
    },
    Limited {
        operation: Operation::Star,
        lines: &["x:1 = 0*"],
        limit: 0,
        refused: 1,
        done: 0,
    },
    Limited {
        operation: Operation::Concat,
        lines: &[AB, AB, AB],
        limit: 6,
        refused: 0,
        done: 2,
    },
    Limited {
        operation: Operation::Concat,
        lines: &[AB, AB, AB],
        limit: 5,
        refused: 2,
        done: 1,
    },
    Limited {
        operation: Operation::Concat,
        lines: &[AB, AB, AB],
        limit: 4,
        refused: 1,
        done: 0,
    },
    Limited {
        operation: Operation::Concat,
        lines: &[NOTHING, AB],
        limit: 1,
        refused: 0,
        done: 1,
    },
    Limited {
        operation: Operation::Concat,
        lines: &[NOTHING, AB],
        limit: 0,
        refused: 1,
        done: 0,
    },
    Limited {
        operation: Operation::Concat,
        lines: &[AB, NOTHING],
        limit: 2,
        refused: 1,
        done: 0,
    },
    Limited {
        operation: Operation::Union,
        lines: &[AB, "x:2 = 1*0", "x:2 = 01"],
        limit: 8,
        refused: 0,
        done: 2,
    },
    Limited {
        operation: Operation::Intersection,
        lines: &[AB, "x:2 = 1*0"],
        limit: 7,
        refused: 1,
        done: 0,
    },
];

// What a row says of its refusal.
fn wanted(row: &Limited) -> (Option<StepFault>, u64) {
    if row.refused == 0 {
        (None, row.done)
    } else {
        (Some(StepFault::States(row.refused)), row.done)
    }
}

// Each limit at the width and at one less.
#[test]
fn the_first_step_past_the_limit_is_refused(rt: HostRuntime) {
    for row in &LIMITS {
        let found = refusal(&rt, rt.alloc(), row.operation, row.lines, row.limit);
        expect_value(&rt, row.lines.first().unwrap_or(&""), &found, &wanted(row));
    }
}

// Operations, and an expression of the same words.
static EXPRESSIONS: [(Operation, &[&str], &str); 20] = [
    (Operation::Union, &[AB, "x:2 = 1*0"], "x:2 = 0*1|1*0"),
    (
        Operation::Union,
        &["x:2 = 00", "x:2 = 01", "x:2 = 11"],
        "x:2 = 00|01|11",
    ),
    (Operation::Union, &["x:2 = ()", "x:2 = 1+"], "x:2 = 1*"),
    (
        Operation::Union,
        &["x:2 = (0|1)*1", "x:2 = (0|1)*0"],
        "x:2 = (0|1)+",
    ),
    (
        Operation::Intersection,
        &["x:2 = (0|1)*1", "x:2 = 0(0|1)*"],
        "x:2 = 0(0|1)*1",
    ),
    (
        Operation::Intersection,
        &["x:2 = ..", "x:2 = .*1"],
        "x:2 = 01|11",
    ),
    (
        Operation::Intersection,
        &["x:2 = (00)*", "x:2 = (000)*"],
        "x:2 = (000000)*",
    ),
    (Operation::Concat, &[AB, "x:2 = 1*0"], "x:2 = 0*11*0"),
    (
        Operation::Concat,
        &["x:2 = 0?", "x:2 = 0?", "x:2 = 0?"],
        "x:2 = 0?0?0?",
    ),
    (
        Operation::Concat,
        &["x:2 = 0|01", "x:2 = 1|11"],
        "x:2 = 01|011|0111",
    ),
    (
        Operation::Concat,
        &["x:2 = .*", "x:2 = 1", "x:2 = .."],
        "x:2 = .*1..",
    ),
    (
        Operation::Concat,
        &["x:2 = (01)*", "x:2 = (10)*"],
        "x:2 = (01)*(10)*",
    ),
    (Operation::Star, &["x:2 = 0|11"], "x:2 = (0|11)*"),
    (Operation::Star, &["x:2 = 0*1*"], "x:2 = .*"),
    (Operation::Star, &["x:2 = 0?1"], "x:2 = (0?1)*"),
    (Operation::Star, &["x:2 = (01|10)+"], "x:2 = (01|10)*"),
    (Operation::Star, &["x:2 = 010|01|10"], "x:2 = (010|01|10)*"),
    (Operation::Reverse, &["x:2 = 0*1(01)*"], "x:2 = (10)*10*"),
    (Operation::Reverse, &["x:2 = ..1.*"], "x:2 = .*1.."),
    (Operation::Reverse, &["x:2 = 0110|1"], "x:2 = 0110|1"),
];

// The table that an operation makes.
fn made_table(rt: &impl Abort, alloc: Global, operation: Operation, lines: &[&str]) -> String {
    let mut steps = Steps::new(alloc, 5000);
    table_of(
        rt,
        alloc,
        &given(rt, of_all(rt, alloc, operation, lines, &mut steps)),
    )
}

// Whether the operation makes the table of the expression.
fn makes(
    rt: &impl Abort,
    alloc: Global,
    operation: Operation,
    lines: &[&str],
    expression: &str,
) -> bool {
    let made = made_table(rt, alloc, operation, lines);
    let wanted = table_of(rt, alloc, &language(rt, alloc, expression));
    made.as_str() == wanted.as_str()
}

#[test]
fn operations_make_what_expressions_match(rt: HostRuntime) {
    for (operation, lines, expression) in &EXPRESSIONS {
        let found = makes(&rt, rt.alloc(), *operation, lines, expression);
        expect_value(&rt, expression, &found, &true);
    }
}

//! Products, complements and valid parts, worked by hand.

ghost use Rattle.std.specs.Prelude.{◌≡◌, IsTrue, map};
ghost use Rattle.std.specs.Rc.{rc_value};
ghost use Rattle.product_op.specs.Connectives.{among_valid};
ghost use Rattle.product_op.specs.Tracks.{joint_sizes};
ghost use Rattle.product_op.specs.Validity.{AreLanguages};

use crate::calls::{Call, expect_letters, expect_widths};
use crate::given::{given, no_answer};
use crate::outcomes::{expect_text, expect_value, outcome};
use crate::table_texts::{languages, tracked};
use automaton_steps::join_step::Joining;
use digit_tuple::dfa::Dfa;
use digit_tuple::faults::OpFault;
use digit_tuple::limit::Limit;
use digit_tuple::name::Name;
use digit_tuple::names::joint_names;
use digit_tuple::stepped::Stepped;
use minimise::tracked::Tracked;
use product_op::joint_tracks::{agree_on_shared, joint_tracks, sizes_of_names};
use product_op::languages::are_languages;
use product_op::op::Op;
use product_op::product::product;
use reference::words::all_words;
use std::alloc::Global;
use std::process::Abort;
use std::rc::Rc;
use validity::valid_words::{complement_in, valid_part};

// Words with an even number of 1s, words that end in 1, and words without two 1s in a row.
const EVEN: &str = "x:2 = (0|10*1)*";

const ENDS: &str = "x:2 = (0|1)*1";

const SPARSE: &str = "x:2 = (0|10)*1?";

// Words in which each 2 is followed by a 0, words in which no 0 follows a 1, and all words.
const PAIRED: &str = "y:3 = (0|1|20)*";

const RISING: &str = "z:2 = 0*1*";

const ANY_Y: &str = "y:3 = .*";

const ANY_Z: &str = "z:2 = .*";

/// Two automata, a connective, and a language for each track where these count.
pub struct ProductRow {
    a: &'static str,
    b: &'static str,
    op: Op,
    valid: &'static [&'static str],
}

static PRODUCTS: [(Call, &str); 6] = [
    (
        Call::Product(ProductRow {
            a: EVEN,
            b: ENDS,
            op: Op::And,
            valid: &[],
        }),
        "4 x:2 = / 0>0 1>1/ 0>1 1>2/! 0>0 1>1",
    ),
    // the tracks are in byte order
    (
        Call::Product(ProductRow {
            a: "y:2 = (0|10*1)*",
            b: ENDS,
            op: Op::And,
            valid: &[],
        }),
        "4 x:2 y:2 = / 0>0 1>1 2>2 3>1/ 0>1 1>0 2>1 3>2/! 0>0 1>1 2>2 3>1",
    ),
    (
        Call::Product(ProductRow {
            a: ENDS,
            b: EVEN,
            op: Op::Implies,
            valid: &[SPARSE],
        }),
        "8 x:2 = /! 0>0 1>1/ 0>2/! 0>2 1>3/! 0>0",
    ),
    // The lengths go together: those of words modulo 2 follow from those modulo 4, so there are 4 pairs of residuals
    // and not 8.
    (
        Call::Product(ProductRow {
            a: "x:2 y:3 = (..)*",
            b: "y:3 z:2 = (....)*",
            op: Op::And,
            valid: &[],
        }),
        "4 x:2 y:3 z:2 = /! 0>1 1>1 2>1 3>1 4>1 5>1 6>1 7>1 8>1 9>1 10>1 11>1/ 0>2 1>2 2>2 3>2 4>2 5>2 6>2 7>2 8>2 9>2 10>2 11>2/ 0>3 1>3 2>3 3>3 4>3 5>3 6>3 7>3 8>3 9>3 10>3 11>3/ 0>0 1>0 2>0 3>0 4>0 5>0 6>0 7>0 8>0 9>0 10>0 11>0",
    ),
    // Each argument has one residual until a wrong letter, and then the empty one. A letter (x, y, z) may be right for
    // both as (0, 0, 0), wrong for the first alone as (0, 1, 1), wrong for the second alone as (1, 1, 0), or wrong for
    // both as (0, 1, 0): 4 pairs.
    (
        Call::Product(ProductRow {
            a: "x:2 y:3 = ([0,0]|[1,1])*",
            b: "y:3 z:2 = ([0,0]|[0,1]|[1,1])*",
            op: Op::AndNot,
            valid: &[],
        }),
        "4 x:2 y:3 z:2 = / 0>0 1>0 8>1 9>0/! 0>1 1>1 8>1 9>1",
    ),
    // Among valid words each of these 4 pairs comes with each of the 3 residuals of the language of x: where the last 1
    // is not at the end, where it is, and after two 1s in a row. From the pair after no letter, (1, 1, 1), (1, 0, 0),
    // (1, 1, 0) and (1, 2, 0) lead to all pairs after a 1, from where (0, 0, 0) keeps each pair, and so do (1, 1, 1) where
    // the first argument is right and (1, 0, 0) where it isn't: 4 times 3.
    (
        Call::Product(ProductRow {
            a: "x:2 y:3 = ([0,0]|[1,1])*",
            b: "y:3 z:2 = ([0,0]|[0,1]|[1,1])*",
            op: Op::Or,
            valid: &[SPARSE, ANY_Y, ANY_Z],
        }),
        "12 x:2 y:3 z:2 = /! 0>0 1>0 3>1 6>2 7>2 8>3 9>4/! 0>1 1>1 3>1 6>2 7>2 9>2/! 0>1 1>1 3>1/! 0>5 1>5/! 0>0 1>0 3>1/! 0>5 1>5 8>3 9>3",
    ),
];

/// The product of a row's automata under a limit, or why there is none.
pub fn joined(rt: &impl Abort, alloc: Global, row: &ProductRow, limit: u32) -> String {
    let a = tracked(rt, alloc, row.a);
    let b = tracked(rt, alloc, row.b);
    let languages = &languages(rt, alloc, row.valid);
    let joining = Joining {
        op: row.op,
        languages,
    };
    if agree_on_shared(&a, &b) && have_languages(rt, alloc, &a, &b, joining) {
        let made = product(alloc, &a, &b, row.op, languages, Limit::new(limit));
        outcome(rt, alloc, made)
    } else {
        no_answer(rt)
    }
}

/// Whether there is a language for each track of two automata, where the connective counts these.
pub fn have_languages(
    rt: &impl Abort,
    alloc: Global,
    a: &Tracked,
    b: &Tracked,
    joining: Joining<'_>,
) -> bool
    ensures { IsTrue result → IsTrue (among_valid joining.entry.op) → AreLanguages (joint_sizes a.now b.now) (map rc_value joining.entry.languages.now) }
{
    let Joining { op, languages } = joining;
    !op.is_among_valid() || each_has_one(rt, alloc, a, b, languages)
}

// Whether there is a language for each track of two automata.
fn each_has_one(rt: &impl Abort, alloc: Global, a: &Tracked, b: &Tracked, valid: &[Rc<Dfa>]) -> bool
    ensures { IsTrue result → AreLanguages (joint_sizes a.now b.now) (map rc_value valid.now) }
{
    let sizes = joint_sizes_of(rt, alloc, a, b);
    given(rt, are_languages(alloc, &sizes, valid))
}

// The sizes of the tracks of both.
fn joint_sizes_of(rt: &impl Abort, alloc: Global, a: &Tracked, b: &Tracked) -> Vec<u32>
    ensures { result.items ≡ joint_sizes a.now b.now }
{
    let names = given(rt, joint_names(alloc, a.names(), b.names()));
    given(rt, sizes_of_names(alloc, &names, a, b))
}

#[test]
fn products_are_those_worked_out(rt: HostRuntime) {
    expect_widths(&rt, rt.alloc(), &PRODUCTS);
}

// Automata over seventeen tracks together, and over 257 times 256 letters.
static LARGE: [Call; 2] = [
    Call::Product(ProductRow {
        a: "a:1 b:1 c:1 d:1 e:1 f:1 g:1 h:1 i:1 = ()",
        b: "j:1 k:1 l:1 m:1 n:1 o:1 p:1 q:1 = ()",
        op: Op::And,
        valid: &[],
    }),
    Call::Product(ProductRow {
        a: "x:257 = ()",
        b: "y:256 = ()",
        op: Op::And,
        valid: &[],
    }),
];

#[test]
fn joint_tracks_have_an_alphabet(rt: HostRuntime) {
    expect_letters(&rt, rt.alloc(), &LARGE);
}

// Two automata, a language for each track, the longest words, and how many words up to that length are in their product
// by each connective of `OPS`.
struct CountRow {
    a: &'static str,
    b: &'static str,
    valid: &'static [&'static str],
    longest: usize,
    counts: [usize; 6],
}

static OPS: [Op; 6] = [Op::And, Op::AndNot, Op::Or, Op::Xor, Op::Implies, Op::Iff];

static COUNTS: [CountRow; 5] = [
    CountRow {
        a: "x:2 = (0*1)*",
        b: "x:2 = (0|10*1)*",
        valid: &[SPARSE],
        longest: 5,
        counts: [16, 16, 22, 15, 26, 17],
    },
    CountRow {
        a: "z:2 = 0*1",
        b: "x:2 = (1|00)*",
        valid: &[SPARSE, RISING],
        longest: 3,
        counts: [6, 8, 20, 16, 28, 18],
    },
    CountRow {
        a: "x:2 y:3 = ([0,0]|[1,1]|[0,2])*",
        b: "y:3 z:2 = ([0,0]|[2,1])*.",
        valid: &[SPARSE, PAIRED, RISING],
        longest: 2,
        counts: [18, 25, 31, 22, 46, 32],
    },
    CountRow {
        a: "y:3 x:2 = ([0,1]|[2,0])*",
        b: "z:2 y:3 = .[0,2]*|[1,2]",
        valid: &[SPARSE, PAIRED, RISING],
        longest: 2,
        counts: [8, 13, 12, 10, 50, 44],
    },
    CountRow {
        a: "y:3 x:2 = ([1,0]|[2,1]|[0,0])*",
        b: "x:2 y:3 = ([0,1]|[1,2]).*",
        valid: &[SPARSE, PAIRED],
        longest: 3,
        counts: [26, 14, 34, 23, 71, 57],
    },
];

// How many words up to a length the automaton accepts.
fn accepted(rt: &impl Abort, alloc: Global, dfa: &Dfa, longest: usize) -> usize {
    let mut count: usize = 0;
    for length in 0..=longest {
        count = count.saturating_add(accepted_of(rt, alloc, dfa, length));
    }
    count
}

// How many words of a length it accepts.
fn accepted_of(rt: &impl Abort, alloc: Global, dfa: &Dfa, length: usize) -> usize {
    let mut count: usize = 0;
    for word in &given(rt, all_words(alloc, dfa.alphabet().letters(), length)) {
        count = count.saturating_add(usize::from(dfa.accepts(word.letters())));
    }
    count
}

// How many words up to the row's length are in its product by a connective.
fn joined_count(rt: &impl Abort, alloc: Global, row: &CountRow, op: Op) -> usize {
    let a = tracked(rt, alloc, row.a);
    let b = tracked(rt, alloc, row.b);
    let languages = &languages(rt, alloc, row.valid);
    let joining = Joining { op, languages };
    if agree_on_shared(&a, &b) && have_languages(rt, alloc, &a, &b, joining) {
        let made = given(rt, product(alloc, &a, &b, op, languages, Limit::new(1000)));
        accepted(rt, alloc, made.result.dfa(), row.longest)
    } else {
        no_answer(rt)
    }
}

// Asserts that so many words up to the row's length are in its products by the connectives of `OPS`.
fn expect_counts(rt: &impl Abort, alloc: Global, row: &CountRow) {
    for (op, wanted) in OPS.iter().zip(&row.counts) {
        expect_value(rt, row.a, &joined_count(rt, alloc, row, *op), wanted);
    }
}

#[test]
fn words_in_products_are_counted(rt: HostRuntime) {
    for row in &COUNTS {
        expect_counts(&rt, rt.alloc(), row);
    }
}

/// Which of the valid words stay: those that an automaton does not accept, or those that it does.
#[derive(Clone, Copy)]
pub enum Restriction {
    Complement,
    ValidPart,
}

// The complement or the valid part of the automaton of a line under a limit, if there is a language for each track.
fn made(
    rt: &impl Abort,
    alloc: Global,
    restriction: Restriction,
    (line, valid): (&str, &[&str]),
    limit: u32,
) -> Result<Stepped<Tracked>, OpFault> {
    let a = tracked(rt, alloc, line);
    let languages = languages(rt, alloc, valid);
    if given(
        rt,
        are_languages(alloc, a.dfa().alphabet().sizes(), &languages),
    ) {
        match restriction {
            Restriction::Complement => complement_in(alloc, &a, &languages, Limit::new(limit)),
            Restriction::ValidPart => valid_part(alloc, &a, &languages, Limit::new(limit)),
        }
    } else {
        no_answer(rt)
    }
}

/// The complement or the valid part under a limit, or why there is none.
pub fn restricted(
    rt: &impl Abort,
    alloc: Global,
    restriction: Restriction,
    row: (&str, &[&str]),
    limit: u32,
) -> String {
    outcome(rt, alloc, made(rt, alloc, restriction, row, limit))
}

// Of the automaton `ENDS`.
static ENDINGS: [(Call, &str); 2] = [
    (
        Call::Restricted(Restriction::Complement, ENDS, &[SPARSE]),
        "4 x:2 = /! 0>0 1>1/ 0>0",
    ),
    (
        Call::Restricted(Restriction::ValidPart, ENDS, &[SPARSE]),
        "4 x:2 = / 0>0 1>1/! 0>0",
    ),
];

#[test]
fn complements_and_parts_have_valid_words_alone(rt: HostRuntime) {
    expect_widths(&rt, rt.alloc(), &ENDINGS);
}

// An automaton, a language for each track, the longest words, and how many words up to that length are in the
// complement and in the valid part.
static VALID_WORDS: [(&str, &[&str], usize, usize, usize); 3] = [
    (ENDS, &[SPARSE], 5, 20, 12),
    ("y:3 x:2 = ([0,1]|[2,0])*.", &[PAIRED, SPARSE], 2, 12, 8),
    (
        "x:2 y:3 z:2 = ([0,0,0]|[1,2,1])*",
        &[SPARSE, PAIRED, RISING],
        2,
        51,
        3,
    ),
];

// How many words up to a length are in the complement or the valid part.
fn restricted_count(
    rt: &impl Abort,
    alloc: Global,
    restriction: Restriction,
    row: (&str, &[&str]),
    longest: usize,
) -> usize {
    let part = given(rt, made(rt, alloc, restriction, row, 1000));
    accepted(rt, alloc, part.result.dfa(), longest)
}

#[test]
fn valid_words_are_counted(rt: HostRuntime) {
    for (line, valid, longest, others, some) in &VALID_WORDS {
        let row: (&str, &[&str]) = (line, valid);
        let found = restricted_count(&rt, rt.alloc(), Restriction::Complement, row, *longest);
        expect_value(&rt, line, &found, others);
        let found = restricted_count(&rt, rt.alloc(), Restriction::ValidPart, row, *longest);
        expect_value(&rt, line, &found, some);
    }
}

// The tracks of two automata as one list, where they agree on those of one name.
fn joint(rt: &impl Abort, alloc: Global, a: &str, b: &str) -> String {
    let a = tracked(rt, alloc, a);
    let b = tracked(rt, alloc, b);
    if agree_on_shared(&a, &b) {
        let joint = given(rt, joint_tracks(alloc, &a, &b));
        let sizes = given(rt, sizes_of_names(alloc, &joint.names, &a, &b));
        track_texts(rt, alloc, &joint.names, &sizes)
    } else {
        String::new(alloc)
    }
}

// Names and sizes as a text.
fn track_texts(rt: &impl Abort, alloc: Global, names: &[Name], sizes: &[u32]) -> String {
    let mut text = String::new(alloc);
    for (name, size) in names.iter().zip(sizes) {
        given(
            rt,
            text.push_str(&given(rt, format!(in alloc; "{}:{size} ", name.as_str()))),
        );
    }
    text
}

// Two automata, and their joint tracks, or none where they do not agree.
static JOINT: [(&str, &str, &str); 4] = [
    ("y:3 x:2 = .", "z:2 y:3 = .", "x:2 y:3 z:2 "),
    ("x:2 = .", "B:0 = ()", "B:0 x:2 "),
    ("x:2 y:3 = .", "x:2 y:2 = .", ""),
    ("x:2 = .", "x:0 = ()", ""),
];

#[test]
fn tracks_of_one_name_are_one_track(rt: HostRuntime) {
    for (a, b, wanted) in &JOINT {
        expect_text(&rt, a, &joint(&rt, rt.alloc(), a, b), wanted);
    }
}

// An automaton, languages, and whether these are one for each track.
static LANGUAGES: [(&str, &[&str], bool); 4] = [
    ("x:2 y:3 = .", &[SPARSE, PAIRED], true),
    ("x:2 y:3 = .", &[PAIRED, SPARSE], false),
    ("x:2 y:3 = .", &[SPARSE], false),
    ("x:2 = .", &["x:2 y:1 = .*"], false),
];

// Whether there is a language for each track of an automaton.
fn has_languages(rt: &impl Abort, alloc: Global, line: &str, valid: &[&str]) -> bool {
    let a = tracked(rt, alloc, line);
    let languages = languages(rt, alloc, valid);
    given(
        rt,
        are_languages(alloc, a.dfa().alphabet().sizes(), &languages),
    )
}

#[test]
fn each_track_has_a_language(rt: HostRuntime) {
    for (line, valid, wanted) in &LANGUAGES {
        let found = has_languages(&rt, rt.alloc(), line, valid);
        expect_value(&rt, line, &found, wanted);
    }
}

// What the connectives say of false and false, false and true, true and false, and true and true, and whether they are
// taken among valid words alone.
static TRUTH: [(&str, Op, [bool; 4], bool); 6] = [
    ("And", Op::And, [false, false, false, true], false),
    ("AndNot", Op::AndNot, [false, false, true, false], false),
    ("Or", Op::Or, [false, true, true, true], true),
    ("Xor", Op::Xor, [false, true, true, false], true),
    ("Implies", Op::Implies, [true, true, false, true], true),
    ("Iff", Op::Iff, [true, false, false, true], true),
];

// What a connective says of false and false, false and true, true and false, and true and true.
fn truth_of(op: Op) -> [bool; 4] {
    [
        op.holds(false, false),
        op.holds(false, true),
        op.holds(true, false),
        op.holds(true, true),
    ]
}

#[test]
fn connectives_are_those_of_truth_values(rt: HostRuntime) {
    for (row, op, wanted, among_valid) in &TRUTH {
        expect_value(&rt, row, &truth_of(*op), wanted);
        expect_value(&rt, row, &op.is_among_valid(), among_valid);
    }
}

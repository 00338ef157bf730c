//! The lines of the steps of transducers, at their limits too, and theorems on the words that they make.

use crate::given::{expect_script, expect_scripts};
use crate::tables::{ROW_END, first_field, table};
use crate::transduce_files::{transduced, transducers};

/// Scripts that show their steps.
const SHOWN: &str = table![
    (
        "transduce Z sum T:",
        "step 1 read 2 2\nstep 2 pad 3 2\nstep 3 valid 2 2\nstep 4 transduce 11 7\nstep 5 reverse 8 8\n",
        0,
        44,
    ),
    (
        "transduce Z sum3 T:",
        "step 1 read 2 2\nstep 2 pad 3 2\nstep 3 valid 2 2\nstep 4 transduce 25 19\nstep 5 reverse 12 12\n",
        0,
        44,
    ),
    (
        "transduce Z sum4 T:",
        "step 1 read 2 2\nstep 2 pad 3 2\nstep 3 valid 2 2\nstep 4 transduce 23 19\nstep 5 reverse 16 16\n",
        0,
        44,
    ),
    (
        "transduce Z sum D:",
        "step 1 read 2 2\nstep 2 pad 3 2\nstep 3 valid 2 2\nstep 4 transduce 7 4\nstep 5 reverse 6 6\n",
        0,
        44,
    ),
    (
        "transduce Z sum3 D:",
        "step 1 read 2 2\nstep 2 pad 3 2\nstep 3 valid 2 2\nstep 4 transduce 42 24\nstep 5 reverse 18 18\n",
        0,
        44,
    ),
    (
        "transduce Z sum4 D:",
        "step 1 read 2 2\nstep 2 pad 3 2\nstep 3 valid 2 2\nstep 4 transduce 21 13\nstep 5 reverse 20 20\n",
        0,
        44,
    ),
    (
        "transduce Z sum R:",
        "step 1 read 4 4\nstep 2 pad 5 4\nstep 3 valid 4 4\nstep 4 transduce 23 11\nstep 5 reverse 16 16\n",
        0,
        44,
    ),
    (
        "transduce Z sum3 R:",
        "step 1 read 4 4\nstep 2 pad 5 4\nstep 3 valid 4 4\nstep 4 transduce 144 60\nstep 5 reverse 108 108\n",
        0,
        44,
    ),
    (
        "transduce Z sum4 R:",
        "step 1 read 4 4\nstep 2 pad 5 4\nstep 3 valid 4 4\nstep 4 transduce 95 53\nstep 5 reverse 64 64\n",
        0,
        44,
    ),
    (
        "transduce Z diff T:",
        "step 1 read 2 2\nstep 2 pad 3 2\nstep 3 valid 2 2\nstep 4 transduce 10 5\nstep 5 reverse 5 5\n",
        0,
        44,
    ),
    (
        "transduce Z copy T:",
        "step 1 read 2 2\nstep 2 pad 3 2\nstep 3 valid 2 2\nstep 4 transduce 2 2\nstep 5 reverse 2 2\n",
        0,
        44,
    ),
    (
        "transduce Z shift T:",
        "step 1 read 2 2\nstep 2 pad 3 2\nstep 3 valid 2 2\nstep 4 transduce 6 4\nstep 5 reverse 5 5\n",
        0,
        44,
    ),
    (
        "transduce Z stop T:",
        "step 1 read 2 2\nstep 2 pad 3 2\nstep 3 valid 2 2\nstep 4 transduce 3 1\nstep 5 reverse 2 1\n",
        0,
        44,
    ),
    (
        "transduce Z first T:",
        "step 1 read 2 2\nstep 2 pad 3 2\nstep 3 valid 2 2\nstep 4 transduce 6 3\nstep 5 reverse 3 2\n",
        0,
        44,
    ),
    (
        "transduce Z diff R:",
        "step 1 read 4 4\nstep 2 pad 5 4\nstep 3 valid 4 4\nstep 4 transduce 22 10\nstep 5 reverse 9 9\n",
        0,
        44,
    ),
    (
        "transduce Z copy R:",
        "step 1 read 4 4\nstep 2 pad 5 4\nstep 3 valid 4 4\nstep 4 transduce 4 4\nstep 5 reverse 4 4\n",
        0,
        44,
    ),
    (
        "transduce Z shift R:",
        "step 1 read 4 4\nstep 2 pad 5 4\nstep 3 valid 4 4\nstep 4 transduce 11 7\nstep 5 reverse 9 9\n",
        0,
        44,
    ),
    (
        "transduce Z stop R:",
        "step 1 read 4 4\nstep 2 pad 5 4\nstep 3 valid 4 4\nstep 4 transduce 6 3\nstep 5 reverse 4 3\n",
        0,
        44,
    ),
    (
        "transduce Z first R:",
        "step 1 read 4 4\nstep 2 pad 5 4\nstep 3 valid 4 4\nstep 4 transduce 11 5\nstep 5 reverse 5 4\n",
        0,
        44,
    ),
    (
        "transduce Z diff D:",
        "step 1 read 2 2\nstep 2 pad 3 2\nstep 3 valid 2 2\nstep 4 transduce 11 8\nstep 5 reverse 4 4\n",
        0,
        44,
    ),
    (
        "transduce Z sumt M:",
        "step 1 read 3 3\nstep 2 pad 4 3\nstep 3 valid 3 3\nstep 4 transduce 10 8\nstep 5 reverse 6 6\n",
        0,
        44,
    ),
    (
        "transduce Z copy M:",
        "step 1 read 3 3\nstep 2 pad 4 3\nstep 3 valid 3 3\nstep 4 transduce 4 3\nstep 5 reverse 3 2\n",
        0,
        44,
    ),
    (
        "transduce Z signs N:",
        "step 1 read 2 2\nstep 2 pad 3 2\nstep 3 valid 2 2\nstep 4 transduce 10 6\nstep 5 reverse 5 5\n",
        0,
        44,
    ),
    (
        "transduce Z star T:",
        "step 1 read 2 2\nstep 2 pad 3 2\nstep 3 valid 2 2\nstep 4 transduce 6 6\nstep 5 reverse 3 3\n",
        0,
        44,
    ),
    (
        "transduce Z star D:",
        "step 1 read 2 2\nstep 2 pad 3 2\nstep 3 valid 2 2\nstep 4 transduce 6 6\nstep 5 reverse 3 3\n",
        0,
        44,
    ),
    (
        "transduce Z blanks T:",
        "step 1 read 2 2\nstep 2 pad 3 2\nstep 3 valid 2 2\nstep 4 transduce 11 7\nstep 5 reverse 8 8\n",
        0,
        44,
    ),
    (
        "transduce Z blanks D:",
        "step 1 read 2 2\nstep 2 pad 3 2\nstep 3 valid 2 2\nstep 4 transduce 7 4\nstep 5 reverse 6 6\n",
        0,
        44,
    ),
    (
        "transduce Z apart T:",
        "step 1 read 2 2\nstep 2 pad 3 2\nstep 3 valid 2 2\nstep 4 transduce 1 1\nstep 5 reverse 1 1\n",
        0,
        44,
    ),
    (
        "transduce Z zeros T:",
        "step 1 read 2 2\nstep 2 pad 3 2\nstep 3 valid 2 2\nstep 4 transduce 3 1\nstep 5 reverse 2 1\n",
        0,
        44,
    ),
    (
        "transduce Z one T:",
        "step 1 read 2 2\nstep 2 pad 3 2\nstep 3 valid 2 2\nstep 4 transduce 3 1\nstep 5 reverse 1 1\n",
        0,
        44,
    ),
    (
        "transduce Z idle T:",
        "step 1 read 2 2\nstep 2 pad 3 2\nstep 3 valid 2 2\nstep 4 transduce 1 1\nstep 5 reverse 1 1\n",
        0,
        44,
    ),
    (
        "transduce Z more T:",
        "step 1 read 2 2\nstep 2 pad 3 2\nstep 3 valid 2 2\nstep 4 transduce 23 5\nstep 5 reverse 3 3\n",
        0,
        44,
    ),
    (
        "transduce Z more R:",
        "step 1 read 4 4\nstep 2 pad 5 4\nstep 3 valid 4 4\nstep 4 transduce 56 12\nstep 5 reverse 8 8\n",
        0,
        44,
    ),
    (
        "transduce Z digits R:",
        "step 1 read 4 4\nstep 2 pad 5 4\nstep 3 valid 4 4\nstep 4 transduce 46 18\nstep 5 reverse 13 13\n",
        0,
        44,
    ),
    (
        "transduce Z copy G:",
        "step 1 read 2 1\nstep 2 pad 2 1\nstep 3 valid 2 1\nstep 4 transduce 3 1\nstep 5 reverse 2 1\n",
        0,
        44,
    ),
    (
        "transduce Z sum G:",
        "step 1 read 2 1\nstep 2 pad 2 1\nstep 3 valid 2 1\nstep 4 transduce 3 1\nstep 5 reverse 2 1\n",
        0,
        44,
    ),
    (
        "transduce Z copy H:",
        "step 1 read 2 2\nstep 2 pad 2 2\nstep 3 valid 2 2\nstep 4 transduce 1 1\nstep 5 reverse 1 1\n",
        0,
        44,
    ),
    (
        "transduce Z sum P:",
        "step 1 read 3 3\nstep 2 pad 3 3\nstep 3 valid 3 3\nstep 4 transduce 6 3\nstep 5 reverse 4 3\n",
        0,
        44,
    ),
    (
        "transduce Z copy P:",
        "step 1 read 3 3\nstep 2 pad 3 3\nstep 3 valid 3 3\nstep 4 transduce 6 4\nstep 5 reverse 4 3\n",
        0,
        44,
    ),
    (
        "transduce Z first P:",
        "step 1 read 3 3\nstep 2 pad 3 3\nstep 3 valid 3 3\nstep 4 transduce 5 1\nstep 5 reverse 2 1\n",
        0,
        44,
    ),
    (
        "transduce Z copy Y:",
        "step 1 read 2 1\nstep 2 pad 2 1\nstep 3 valid 1 1\nstep 4 transduce 1 1\nstep 5 reverse 1 1\n",
        0,
        44,
    ),
    (
        "transduce Z idle Y:",
        "step 1 read 2 1\nstep 2 pad 2 1\nstep 3 valid 1 1\nstep 4 transduce 1 1\nstep 5 reverse 1 1\n",
        0,
        44,
    ),
    (
        "transduce Z sum V:",
        "step 1 read 2 2\nstep 2 pad 3 2\nstep 3 valid 2 2\nstep 4 transduce 11 5\nstep 5 reverse 4 4\n",
        0,
        44,
    ),
    (
        "transduce Z sum3 V:",
        "step 1 read 2 2\nstep 2 pad 3 2\nstep 3 valid 2 2\nstep 4 transduce 108 27\nstep 5 reverse 18 18\n",
        0,
        44,
    ),
];

#[test]
fn transducers_show_their_steps(rt: HostRuntime) {
    expect_scripts(&rt, rt.alloc(), transduced(), "walnut", SHOWN);
}

/// Scripts in which commands read what others made.
const SEQUENCES: &str = table![
    ("transduce S sum T;", "", 0, 44),
    ("transduce T sum T; transduce T sum T;", "", 0, 43),
    (
        "transduce S sum T; transduce B diff S; transduce C copy B;",
        "",
        0,
        44,
    ),
    (
        "transduce S sum T::",
        "step 1 read 2 2\nstep 2 pad 3 2\nstep 3 valid 2 2\nstep 4 transduce 11 7\nstep 5 reverse 8 8\n",
        0,
        44,
    ),
    ("transduce\n S\tsum\nT ;", "", 0, 44),
    ("transduce sum sum T;", "", 0, 44),
    (
        "transduce S sum T; prove; transduce S sum T:",
        "error 1: F01 Command\nstep 1 read 2 2\nstep 2 pad 3 2\nstep 3 valid 2 2\nstep 4 transduce 11 7\nstep 5 reverse 8 8\n",
        1,
        44,
    ),
];

/// Theorems on words that commands made.
const THEOREMS: &str = table![
    (
        "morphism h \"0->01 1->10\"; promote T h; transduce S sum T; eval z \"Am S[4*m+1]=@1 & S[4*m+3]=@0\"; eval y \"S[0]=@0 & S[2]=@0 & S[4]=@1 & S[6]=@1\";",
        "TRUE\nTRUE\n",
        0,
        10,
    ),
    (
        "morphism h \"0->01 1->10\"; promote T h; transduce R stop T; eval z \"R[0]=@5 & (Ax x>0 => ~(R[x]=R[x]))\";",
        "TRUE\n",
        0,
        9,
    ),
    (
        "reg f1 msd_fib \"(0|1)*1\"; combine F f1; transduce R stop F;",
        "error 1: F33 BaseNeeded F msd_fib\n",
        1,
        7,
    ),
    (
        "morphism h \"0->01 1->10\"; promote T h; transduce S sum T; transduce D diff S; eval z \"An (n>0 & T[n]=@1 => D[n]!=@0) & (n>0 & T[n]=@0 => D[n]=@0)\";",
        "TRUE\n",
        0,
        10,
    ),
    (
        "morphism h \"0->01 1->10\"; promote T h; transduce C copy T; eval z \"An C[n]=T[n]\";",
        "TRUE\n",
        0,
        9,
    ),
    (
        "morphism h \"0->01 1->10\"; promote T h; transduce C shift T; eval z \"C[0]=@0 & (An C[n+1]=T[n])\";",
        "TRUE\n",
        0,
        9,
    ),
];

#[test]
fn transducers_read_what_commands_made(rt: HostRuntime) {
    expect_scripts(&rt, rt.alloc(), transduced(), "walnut", SEQUENCES);
    expect_scripts(&rt, rt.alloc(), transducers(), "walnut", THEOREMS);
}

/// Words of a command line, and a script that has its greatest width as limit, or one less.
const LIMITS: &str = table![
    (
        "walnut --states 20",
        ("transduce Z sum3 O:", "error 1: F19 States step 4\n", 1, 43),
    ),
    (
        "walnut --states 21",
        ("transduce Z sum3 O:", "error 1: F19 States step 5\n", 1, 43),
    ),
    (
        "walnut --states 17",
        ("transduce Z sum3 C:", "error 1: F19 States step 4\n", 1, 43),
    ),
    (
        "walnut --states 18",
        ("transduce Z sum3 C:", "error 1: F19 States step 5\n", 1, 43),
    ),
    (
        "walnut --states 143",
        ("transduce Z sum3 R:", "error 1: F19 States step 4\n", 1, 43),
    ),
    (
        "walnut --states 144",
        (
            "transduce Z sum3 R:",
            "step 1 read 4 4\nstep 2 pad 5 4\nstep 3 valid 4 4\nstep 4 transduce 144 60\nstep 5 reverse 108 108\n",
            0,
            44,
        ),
    ),
    (
        "walnut --states 38",
        ("transduce Z sum3 O:", "error 1: F19 States step 5\n", 1, 43),
    ),
    (
        "walnut --states 39",
        (
            "transduce Z sum3 O:",
            "step 1 read 16 16\nstep 2 pad 17 16\nstep 3 valid 16 16\nstep 4 transduce 21 14\nstep 5 reverse 39 39\n",
            0,
            44,
        ),
    ),
    (
        "walnut --states 20",
        ("transduce Z sum3 C:", "error 1: F19 States step 5\n", 1, 43),
    ),
    (
        "walnut --states 21",
        (
            "transduce Z sum3 C:",
            "step 1 read 8 8\nstep 2 pad 9 8\nstep 3 valid 8 8\nstep 4 transduce 18 11\nstep 5 reverse 21 21\n",
            0,
            44,
        ),
    ),
    (
        "walnut --states 38",
        ("transduce Z sumt O:", "error 1: F19 States step 5\n", 1, 43),
    ),
    (
        "walnut --states 39",
        (
            "transduce Z sumt O:",
            "step 1 read 16 16\nstep 2 pad 17 16\nstep 3 valid 16 16\nstep 4 transduce 21 14\nstep 5 reverse 39 39\n",
            0,
            44,
        ),
    ),
];

#[test]
fn transducers_past_the_limit_are_refused(rt: HostRuntime) {
    for row in LIMITS.split_terminator(ROW_END) {
        let (line, row) = first_field(row);
        expect_script(&rt, rt.alloc(), transduced(), line, row);
    }
}

//! The lines of the steps of changes of base, at their limits too, and theorems on words over other bases.

use crate::convert_files::{converted, wide_words};
use crate::given::{expect_script, expect_scripts};
use crate::tables::{ROW_END, first_field, table};

/// Scripts that show their steps.
const SHOWN: &str = table![
    (
        "convert New msd_4 T:",
        "step 1 read 2 2\nstep 2 pad 3 2\nstep 3 valid 2 2\nstep 4 reverse 2 2\nstep 5 join 2 2\nstep 6 reverse 2 2\n",
        0,
        28,
    ),
    (
        "convert New lsd_2 T:",
        "step 1 read 2 2\nstep 2 pad 3 2\nstep 3 valid 2 2\nstep 4 reverse 2 2\n",
        0,
        28,
    ),
    (
        "convert New msd_2 T:",
        "step 1 read 2 2\nstep 2 pad 3 2\nstep 3 valid 2 2\nstep 4 reverse 2 2\nstep 5 reverse 2 2\n",
        0,
        28,
    ),
    (
        "convert New msd_8 T:",
        "step 1 read 2 2\nstep 2 pad 3 2\nstep 3 valid 2 2\nstep 4 reverse 2 2\nstep 5 join 2 2\nstep 6 reverse 2 2\n",
        0,
        28,
    ),
    (
        "convert New lsd_8 T:",
        "step 1 read 2 2\nstep 2 pad 3 2\nstep 3 valid 2 2\nstep 4 reverse 2 2\nstep 5 join 2 2\n",
        0,
        28,
    ),
    (
        "convert New msd_32 R:",
        "step 1 read 4 4\nstep 2 pad 5 4\nstep 3 valid 4 4\nstep 4 reverse 4 4\nstep 5 join 4 4\nstep 6 reverse 4 4\n",
        0,
        28,
    ),
    (
        "convert New lsd_16 R:",
        "step 1 read 4 4\nstep 2 pad 5 4\nstep 3 valid 4 4\nstep 4 reverse 4 4\nstep 5 join 4 4\n",
        0,
        28,
    ),
    (
        "convert New lsd_4 R:",
        "step 1 read 4 4\nstep 2 pad 5 4\nstep 3 valid 4 4\nstep 4 reverse 4 4\nstep 5 join 4 4\n",
        0,
        28,
    ),
    (
        "convert New msd_2 L:",
        "step 1 read 2 2\nstep 2 pad 2 2\nstep 3 valid 2 2\nstep 4 reverse 2 2\n",
        0,
        28,
    ),
    (
        "convert New lsd_2 L:",
        "step 1 read 2 2\nstep 2 pad 2 2\nstep 3 valid 2 2\n",
        0,
        28,
    ),
    (
        "convert New msd_4 D:",
        "step 1 read 2 2\nstep 2 pad 3 2\nstep 3 valid 2 2\nstep 4 reverse 4 4\nstep 5 join 3 3\nstep 6 reverse 2 2\n",
        0,
        28,
    ),
    (
        "convert New lsd_8 D:",
        "step 1 read 2 2\nstep 2 pad 3 2\nstep 3 valid 2 2\nstep 4 reverse 4 4\nstep 5 join 4 4\n",
        0,
        28,
    ),
    (
        "convert New lsd_27 M:",
        "step 1 read 3 3\nstep 2 pad 4 3\nstep 3 valid 3 3\nstep 4 reverse 3 3\nstep 5 join 3 3\n",
        0,
        28,
    ),
    (
        "convert New msd_9 M:",
        "step 1 read 3 3\nstep 2 pad 4 3\nstep 3 valid 3 3\nstep 4 reverse 3 3\nstep 5 join 3 3\nstep 6 reverse 3 3\n",
        0,
        28,
    ),
    (
        "convert New msd_36 S:",
        "step 1 read 2 2\nstep 2 pad 3 2\nstep 3 valid 2 2\nstep 4 reverse 2 2\nstep 5 join 2 2\nstep 6 reverse 2 2\n",
        0,
        28,
    ),
    (
        "convert New lsd_36 S:",
        "step 1 read 2 2\nstep 2 pad 3 2\nstep 3 valid 2 2\nstep 4 reverse 2 2\nstep 5 join 2 2\n",
        0,
        28,
    ),
    (
        "convert New msd_6 B:",
        "step 1 read 2 2\nstep 2 pad 2 2\nstep 3 valid 2 2\nstep 4 split 14 4\nstep 5 reverse 4 4\n",
        0,
        28,
    ),
    (
        "convert New lsd_6 B:",
        "step 1 read 2 2\nstep 2 pad 2 2\nstep 3 valid 2 2\nstep 4 split 14 4\n",
        0,
        28,
    ),
    (
        "convert New msd_36 B:",
        "step 1 read 2 2\nstep 2 pad 2 2\nstep 3 valid 2 2\nstep 4 split 14 4\nstep 5 join 2 2\nstep 6 reverse 2 2\n",
        0,
        28,
    ),
    (
        "convert New msd_40 P:",
        "step 1 read 2 2\nstep 2 pad 3 2\nstep 3 valid 2 2\nstep 4 reverse 2 2\nstep 5 reverse 2 2\n",
        0,
        28,
    ),
    (
        "convert New lsd_40 P:",
        "step 1 read 2 2\nstep 2 pad 3 2\nstep 3 valid 2 2\nstep 4 reverse 2 2\n",
        0,
        28,
    ),
    (
        "convert New msd_5 Q:",
        "step 1 read 3 3\nstep 2 pad 4 3\nstep 3 valid 3 3\nstep 4 reverse 3 3\nstep 5 split 18 6\nstep 6 reverse 3 3\n",
        0,
        28,
    ),
    (
        "convert New lsd_25 Q:",
        "step 1 read 3 3\nstep 2 pad 4 3\nstep 3 valid 3 3\nstep 4 reverse 3 3\nstep 5 split 18 6\nstep 6 join 3 3\n",
        0,
        28,
    ),
    (
        "convert New msd_3 N:",
        "step 1 read 3 2\nstep 2 pad 4 2\nstep 3 valid 3 2\nstep 4 reverse 6 5\nstep 5 split 24 16\nstep 6 reverse 7 6\n",
        0,
        28,
    ),
    (
        "convert New lsd_27 N:",
        "step 1 read 3 2\nstep 2 pad 4 2\nstep 3 valid 3 2\nstep 4 reverse 6 5\nstep 5 split 24 16\nstep 6 join 14 13\n",
        0,
        28,
    ),
    (
        "convert New msd_9 N:",
        "step 1 read 3 2\nstep 2 pad 4 2\nstep 3 valid 3 2\nstep 4 reverse 6 5\nstep 5 split 24 16\nstep 6 join 6 5\nstep 7 reverse 3 2\n",
        0,
        28,
    ),
    (
        "convert New msd_4 G:",
        "step 1 read 2 1\nstep 2 pad 2 1\nstep 3 valid 2 1\nstep 4 reverse 2 1\nstep 5 join 2 1\nstep 6 reverse 2 1\n",
        0,
        28,
    ),
    (
        "convert New lsd_8 G:",
        "step 1 read 2 1\nstep 2 pad 2 1\nstep 3 valid 2 1\nstep 4 reverse 2 1\nstep 5 join 2 1\n",
        0,
        28,
    ),
    (
        "convert New msd_4 H:",
        "step 1 read 3 2\nstep 2 pad 3 2\nstep 3 valid 3 2\nstep 4 reverse 5 4\nstep 5 join 5 4\nstep 6 reverse 3 2\n",
        0,
        28,
    ),
    (
        "convert New lsd_4 H:",
        "step 1 read 3 2\nstep 2 pad 3 2\nstep 3 valid 3 2\nstep 4 reverse 5 4\nstep 5 join 5 4\n",
        0,
        28,
    ),
    (
        "convert New lsd_2 H:",
        "step 1 read 3 2\nstep 2 pad 3 2\nstep 3 valid 3 2\nstep 4 reverse 5 4\n",
        0,
        28,
    ),
    (
        "convert New msd_4 O:",
        "step 1 read 3 2\nstep 2 pad 3 2\nstep 3 valid 3 2\nstep 4 reverse 3 2\nstep 5 join 3 2\nstep 6 reverse 3 2\n",
        0,
        28,
    ),
    (
        "convert New lsd_32 O:",
        "step 1 read 3 2\nstep 2 pad 3 2\nstep 3 valid 3 2\nstep 4 reverse 3 2\nstep 5 join 3 2\n",
        0,
        28,
    ),
    (
        "convert New msd_8 Y:",
        "step 1 read 2 1\nstep 2 pad 2 1\nstep 3 valid 1 1\nstep 4 reverse 1 1\nstep 5 join 1 1\nstep 6 reverse 1 1\n",
        0,
        28,
    ),
    (
        "convert New lsd_2 Y:",
        "step 1 read 2 1\nstep 2 pad 2 1\nstep 3 valid 1 1\nstep 4 reverse 1 1\n",
        0,
        28,
    ),
    (
        "convert New msd_2 Z:",
        "step 1 read 4 3\nstep 2 pad 7 5\nstep 3 valid 6 5\nstep 4 split 42 15\nstep 5 reverse 40 39\n",
        0,
        28,
    ),
    (
        "convert New lsd_2 Z:",
        "step 1 read 4 3\nstep 2 pad 7 5\nstep 3 valid 6 5\nstep 4 split 42 15\n",
        0,
        28,
    ),
    (
        "convert New msd_16 Z:",
        "step 1 read 4 3\nstep 2 pad 7 5\nstep 3 valid 6 5\nstep 4 split 42 15\nstep 5 join 16 15\nstep 6 reverse 40 39\n",
        0,
        28,
    ),
    (
        "convert New msd_8 Z:",
        "step 1 read 4 3\nstep 2 pad 7 5\nstep 3 valid 6 5\nstep 4 split 42 15\nstep 5 join 6 5\nstep 6 reverse 10 9\n",
        0,
        28,
    ),
    (
        "convert New msd_2 C:",
        "step 1 read 3 2\nstep 2 pad 4 2\nstep 3 valid 3 2\nstep 4 reverse 3 2\nstep 5 split 9 5\nstep 6 reverse 7 6\n",
        0,
        28,
    ),
    (
        "convert New lsd_8 C:",
        "step 1 read 3 2\nstep 2 pad 4 2\nstep 3 valid 3 2\nstep 4 reverse 3 2\nstep 5 split 9 5\nstep 6 join 6 5\n",
        0,
        28,
    ),
    (
        "convert New lsd_4 C:",
        "step 1 read 3 2\nstep 2 pad 4 2\nstep 3 valid 3 2\nstep 4 reverse 3 2\nstep 5 split 9 5\nstep 6 join 3 2\n",
        0,
        28,
    ),
];

#[test]
fn changes_of_base_show_their_steps(rt: HostRuntime) {
    expect_scripts(&rt, rt.alloc(), converted(), "walnut", SHOWN);
}

/// Scripts in which commands read what others made.
const SEQUENCES: &str = table![
    (
        "convert V msd_4 T: convert W msd_4 V:",
        "step 1 read 2 2\nstep 2 pad 3 2\nstep 3 valid 2 2\nstep 4 reverse 2 2\nstep 5 join 2 2\nstep 6 reverse 2 2\nstep 1 read 2 2\nstep 2 pad 3 2\nstep 3 valid 2 2\nstep 4 reverse 2 2\nstep 5 split 6 2\nstep 6 join 2 2\nstep 7 reverse 2 2\n",
        0,
        27,
    ),
    (
        "convert X lsd_8 T: convert Y msd_4 X:",
        "step 1 read 2 2\nstep 2 pad 3 2\nstep 3 valid 2 2\nstep 4 reverse 2 2\nstep 5 join 2 2\nstep 1 read 2 2\nstep 2 pad 2 2\nstep 3 valid 2 2\nstep 4 split 14 2\nstep 5 join 2 2\nstep 6 reverse 2 2\n",
        0,
        27,
    ),
    ("convert V msd_4 T; convert L lsd_2 V;", "", 0, 27),
    ("convert T lsd_2 T; convert T msd_2 T;", "", 0, 27),
    (
        "convert V msd_4 T::",
        "step 1 read 2 2\nstep 2 pad 3 2\nstep 3 valid 2 2\nstep 4 reverse 2 2\nstep 5 join 2 2\nstep 6 reverse 2 2\n",
        0,
        27,
    ),
    ("convert\n V\tmsd_4\nT ;", "", 0, 27),
    (
        "convert msd_4 msd_4 T; convert lsd_2 lsd_2 msd_4:",
        "step 1 read 2 2\nstep 2 pad 3 2\nstep 3 valid 2 2\nstep 4 reverse 2 2\nstep 5 split 6 2\n",
        0,
        29,
    ),
    (
        "convert V msd_4 T; prove; convert W msd_2 V:",
        "error 1: F01 Command\nstep 1 read 2 2\nstep 2 pad 3 2\nstep 3 valid 2 2\nstep 4 reverse 2 2\nstep 5 split 6 2\nstep 6 reverse 2 2\n",
        1,
        27,
    ),
    (
        "convert V lsd_4 T; convert V lsd_2 V; convert V msd_16 V; convert V msd_2 V:",
        "step 1 read 2 2\nstep 2 pad 3 2\nstep 3 valid 2 2\nstep 4 reverse 2 2\nstep 5 split 30 2\nstep 6 reverse 2 2\n",
        0,
        27,
    ),
];

/// Theorems on words that commands made.
const THEOREMS: &str = table![
    (
        "morphism h \"0->01 1->10\"; promote T h; convert V msd_4 T; convert L lsd_2 V; eval z \"?msd_4 V[0]=@0 & V[1]=@1 & V[2]=@1 & V[3]=@0 & V[7]=@1\";",
        "TRUE\n",
        0,
        5,
    ),
    (
        "morphism h \"0->01 1->10\"; promote T h; convert U msd_6 T; convert U msd_41 T;",
        "error 1: F34 NotRelated msd_2 msd_6\nerror 1: F14 SystemUnknown msd_41\n",
        1,
        2,
    ),
    (
        "reg f1 msd_fib \"(0|1)*1\"; combine F f1; convert U msd_4 F;",
        "error 1: F33 BaseNeeded F msd_fib\n",
        1,
        2,
    ),
    (
        "morphism h \"0->01 1->10\"; promote T h; convert V msd_8 T; eval o \"?msd_8 Ei,n n>=1 & At t<=n => V[i+t]=V[i+n+t]\"; convert W msd_2 V; eval z \"An W[n]=T[n]\";",
        "FALSE\nTRUE\n",
        0,
        6,
    ),
    (
        "morphism h \"0->01 1->10\"; promote T h; convert V lsd_2 T; eval s \"?lsd_2 Ei,n n>=1 & At t<n => V[i+t]=V[i+n+t]\";",
        "TRUE\n",
        0,
        4,
    ),
];

#[test]
fn changes_of_base_read_what_commands_made(rt: HostRuntime) {
    expect_scripts(&rt, rt.alloc(), converted(), "walnut", SEQUENCES);
    expect_scripts(&rt, rt.alloc(), "", "walnut", THEOREMS);
}

/// Words of a command line, and a script that has its greatest width as limit, or one less.
const LIMITS: &str = table![
    (
        "walnut --states 41",
        (
            "convert New msd_2 W1:",
            "error 1: F19 States step 5\n",
            1,
            6,
        ),
    ),
    (
        "walnut --states 42",
        (
            "convert New msd_2 W1:",
            "step 1 read 3 3\nstep 2 pad 4 4\nstep 3 valid 4 4\nstep 4 split 12 9\nstep 5 reverse 42 42\n",
            0,
            7,
        ),
    ),
    (
        "walnut --states 23",
        (
            "convert New lsd_9 W2:",
            "error 1: F19 States step 4\n",
            1,
            6,
        ),
    ),
    (
        "walnut --states 24",
        (
            "convert New lsd_9 W2:",
            "step 1 read 5 4\nstep 2 pad 7 5\nstep 3 valid 6 5\nstep 4 split 24 16\nstep 5 join 6 5\n",
            0,
            7,
        ),
    ),
    (
        "walnut --states 31",
        (
            "convert New msd_27 W3:",
            "error 1: F19 States step 5\n",
            1,
            6,
        ),
    ),
    (
        "walnut --states 32",
        (
            "convert New msd_27 W3:",
            "step 1 read 3 3\nstep 2 pad 4 3\nstep 3 valid 3 3\nstep 4 reverse 8 8\nstep 5 split 32 22\nstep 6 join 22 22\nstep 7 reverse 20 20\n",
            0,
            7,
        ),
    ),
    (
        "walnut --states 17",
        (
            "convert New msd_16 W4:",
            "error 1: F19 States step 4\n",
            1,
            6,
        ),
    ),
    (
        "walnut --states 18",
        (
            "convert New msd_16 W4:",
            "error 1: F19 States step 6\n",
            1,
            6,
        ),
    ),
    (
        "walnut --states 24",
        (
            "convert New msd_16 W4:",
            "error 1: F19 States step 6\n",
            1,
            6,
        ),
    ),
    (
        "walnut --states 25",
        (
            "convert New msd_16 W4:",
            "step 1 read 5 5\nstep 2 pad 10 6\nstep 3 valid 6 6\nstep 4 split 18 16\nstep 5 join 6 6\nstep 6 reverse 25 25\n",
            0,
            7,
        ),
    ),
    (
        "walnut --states 18",
        (
            "convert New msd_3 W5:",
            "error 1: F19 States step 4\n",
            1,
            6,
        ),
    ),
    (
        "walnut --states 19",
        (
            "convert New msd_3 W5:",
            "step 1 read 5 4\nstep 2 pad 5 4\nstep 3 valid 5 4\nstep 4 reverse 19 18\nstep 5 reverse 5 4\n",
            0,
            7,
        ),
    ),
    (
        "walnut --states 29",
        (
            "convert New msd_27 W6:",
            "error 1: F19 States step 4\n",
            1,
            6,
        ),
    ),
    (
        "walnut --states 30",
        (
            "convert New msd_27 W6:",
            "step 1 read 5 5\nstep 2 pad 6 5\nstep 3 valid 5 5\nstep 4 reverse 30 30\nstep 5 join 30 30\nstep 6 reverse 5 5\n",
            0,
            7,
        ),
    ),
];

#[test]
fn changes_of_base_past_the_limit_are_refused(rt: HostRuntime) {
    for row in LIMITS.split_terminator(ROW_END) {
        let (line, row) = first_field(row);
        expect_script(&rt, rt.alloc(), wide_words(), line, row);
    }
}

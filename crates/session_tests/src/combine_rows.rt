//! Automata combined to words in commands: letters in formulas, stores that fail and limits.

use crate::combine_files::combined;
use crate::given::{FailingRow, LimitRow, expect_failing, expect_scripts, expect_within};
use crate::tables::table;

/// Scripts with words that they make.
const READ: &str = table![
    (
        "def p \"x<3\"; def q \"x<5\"; combine C p=7 q=9; eval t \"C[0]=@7 & C[2]=@7 & C[3]=@9 & C[4]=@9 & C[5]=@0 & C[100]=@0\";",
        "TRUE\n",
        0,
        39,
    ),
    (
        "def p \"x<3\"; def q \"x<5\"; combine C p=7 q=9 p=8; eval t \"Ax C[x]!=@8\";",
        "TRUE\n",
        0,
        39,
    ),
    (
        "def p \"x<3\"; def q \"x<5\"; combine C q=9 p=7; eval t \"Ax C[x]!=@7\";",
        "TRUE\n",
        0,
        39,
    ),
    (
        "def p \"x<3\"; def q \"x<5\"; combine C p=-1 q; eval t \"Ax (C[x]<@0 <=> x<3) & (C[x]=@2 <=> x>=3 & x<5)\";",
        "TRUE\n",
        0,
        39,
    ),
    (
        "def p \"x<3\"; def q \"x<5\"; combine C p=0 q; eval t \"Ax C[x]=@2 <=> (x=3 | x=4)\";",
        "TRUE\n",
        0,
        39,
    ),
    (
        "def p \"x<3\"; def q \"x<5\"; combine C p; def p \"x<2\"; combine D p; eval t \"C[2]=@1 & D[2]=@0 & D[1]=@1\";",
        "TRUE\n",
        0,
        40,
    ),
    (
        "def p \"x<3\"; def q \"x<5\"; combine p p=3; eval t \"p[0]=@3 & $p(0) & ~$p(3)\";",
        "TRUE\n",
        0,
        39,
    ),
    (
        "combine C odd; eval t \"Ax C[x]=@1 <=> $odd(x)\"; eval u \"Ax C[2*x+1]=@1 & C[2*x]=@0\";",
        "TRUE\nTRUE\n",
        0,
        38,
    ),
    (
        "combine C lt=3; eval t \"Ax,y C[x][y]=@3 <=> x<y\"; eval u \"C[1]=@0\";",
        "TRUE\nerror 1: F13 Arity C 2 1\n",
        1,
        37,
    ),
    (
        "combine C many one odd; eval t \"C[0]=@0 & C[1]=@1 & C[2]=@0 & C[3]=@1 & C[5]=@1\";",
        "TRUE\n",
        0,
        37,
    ),
    (
        "def lt \"x<y\"; def eq \"x=y\"; combine C lt=-1 eq=0 lt=5; eval t \"Ax,y (C[x][y]=@-1 <=> x<y) & C[x][y]<=@0\";",
        "TRUE\n",
        0,
        38,
    ),
    (
        "reg f1 msd_fib \"(0|1)*1\"; combine F f1; eval c \"?msd_fib Ei,n n>=1 & At t<2*n => F[i+t]=F[i+n+t]\"; eval d \"?msd_fib Ei,n n>=1 & At t<3*n => F[i+t]=F[i+n+t]\";",
        "TRUE\nFALSE\n",
        0,
        39,
    ),
    (
        "reg f1 msd_fib \"(0|1)*1\"; combine F f1; eval t \"F[0]=@0 & F[1]=@1 & F[2]=@0 & F[3]=@0 & F[4]=@1 & F[5]=@0 & F[6]=@1 & F[7]=@0\";",
        "TRUE\n",
        0,
        38,
    ),
    (
        "reg f1 lsd_fib \"1(0|1)*\"; combine F f1; eval t \"F[0]=@0 & F[1]=@1 & F[2]=@0 & F[3]=@0 & F[4]=@1 & F[5]=@0 & F[6]=@1 & F[7]=@0\";",
        "TRUE\n",
        0,
        38,
    ),
    (
        "combine Z zeck; eval t \"?msd_zeck Ei Z[i]=@1 & Z[i+1]=@1\"; eval u \"?msd_zeck Ei Z[i]=@0 & Z[i+1]=@0\";",
        "FALSE\nTRUE\n",
        0,
        38,
    ),
    (
        "eval s \"1=1\"; def s \"1=1\"; combine C s;",
        "TRUE\nTRUE\nerror 1: F24 CombineShape s s\n",
        1,
        37,
    ),
    (
        "reg ab {0,1} \"0*1\"; combine C ab;",
        "error 1: F21 Plain ab\n",
        1,
        35,
    ),
    (
        "def p \"x<3\"; def q \"x<5\"; def lt \"y>x\"; combine D p lt;",
        "error 1: F24 CombineShape p lt\n",
        1,
        37,
    ),
    (
        "def p \"x<3\";\ndef q \"x<5\";\ncombine C p=7\n q=9;\ncombine C g;\ncombine C p C;",
        "error 5: F11 Unknown Automata Library/g\nerror 6: F11 Unknown Automata Library/C\n",
        1,
        38,
    ),
];

/// Two automata, their word, and a formula with it.
pub const FOUR: &str = "def p \"x<3\"; def q \"x<5\"; combine C p=7 q=9; eval t \"C[4]=@9\";";

/// Which call of the store fails, what is printed of these, the status, and how many texts the store has then.
static FAILING: [FailingRow; 8] = [
    (
        1,
        "error 1: F26 Store Automata Library/p\nerror 1: F11 Unknown Automata Library/p\nerror 1: F11 Unknown Word Automata Library/C\n",
        3,
        1,
    ),
    (
        2,
        "error 1: F26 Store Automata Library/q\nerror 1: F11 Unknown Automata Library/q\nerror 1: F11 Unknown Word Automata Library/C\n",
        3,
        1,
    ),
    (
        3,
        "error 1: F26 Store Automata Library/p\nerror 1: F11 Unknown Word Automata Library/C\n",
        3,
        2,
    ),
    (
        4,
        "error 1: F26 Store Automata Library/q\nerror 1: F11 Unknown Word Automata Library/C\n",
        3,
        2,
    ),
    (
        5,
        "error 1: F26 Store Word Automata Library/C\nerror 1: F11 Unknown Word Automata Library/C\n",
        3,
        2,
    ),
    (6, "error 1: F26 Store Word Automata Library/C\n", 3, 3),
    (7, "error 1: F26 Store Result/t\n", 3, 3),
    (8, "TRUE\n", 0, 4),
];

/// An automaton that is listed four times, which is read once.
const ONE: &str = "def p \"x<3\"; combine C p p=8 p=9 p;";

/// The same of this.
static FAILING_ONCE: [FailingRow; 4] = [
    (
        1,
        "error 1: F26 Store Automata Library/p\nerror 1: F11 Unknown Automata Library/p\n",
        3,
        0,
    ),
    (2, "error 1: F26 Store Automata Library/p\n", 3, 1),
    (3, "error 1: F26 Store Word Automata Library/C\n", 3, 1),
    (4, "", 0, 2),
];

/// How wide a step may be, a script, what it prints, the status, and how many texts the store has then.
static LIMITS: [LimitRow; 12] = [
    (
        16,
        "def p \"x<17\"; combine C p:",
        "error 1: F19 States step 2\nerror 1: F11 Unknown Automata Library/p\n",
        1,
        35,
    ),
    (
        16,
        "def e \"Ey x=5*y\"; combine C e:",
        "step 1 read 5 5\nstep 2 pad 6 5\nstep 3 valid 5 5\nstep 4 combine 5 5\n",
        0,
        37,
    ),
    (
        16,
        "def e \"Ey x=17*y\"; combine C e:",
        "error 1: F19 States step 5\nerror 1: F11 Unknown Automata Library/e\n",
        1,
        35,
    ),
    (
        17,
        "def e \"Ey x=17*y\"; combine C e:",
        "error 1: F19 States step 5\nerror 1: F11 Unknown Automata Library/e\n",
        1,
        35,
    ),
    (
        16,
        "def e \"Ey x=4*y\"; def f \"Ey x=5*y\"; combine C e f:",
        "step 1 read 3 3\nstep 2 pad 4 3\nstep 3 valid 3 3\nstep 4 read 5 5\nstep 5 pad 6 5\nstep 6 valid 5 5\nstep 7 combine 15 15\n",
        0,
        38,
    ),
    (
        20,
        "def e \"Ey x=4*y\"; def f \"Ey x=5*y\"; combine C e f:",
        "step 1 read 3 3\nstep 2 pad 4 3\nstep 3 valid 3 3\nstep 4 read 5 5\nstep 5 pad 6 5\nstep 6 valid 5 5\nstep 7 combine 15 15\n",
        0,
        38,
    ),
    (
        19,
        "def e \"Ey x=4*y\"; def f \"Ey x=5*y\"; combine C e f:",
        "step 1 read 3 3\nstep 2 pad 4 3\nstep 3 valid 3 3\nstep 4 read 5 5\nstep 5 pad 6 5\nstep 6 valid 5 5\nstep 7 combine 15 15\n",
        0,
        38,
    ),
    (
        16,
        "reg a {0,1} \"(0|1)*\"; combine C a:",
        "error 1: F21 Plain a\n",
        1,
        36,
    ),
    (
        16,
        "combine C odd wrong:",
        "error 1: F15 NotAdmitted msd_wrong SuccessorLaw\n",
        1,
        35,
    ),
    (
        16,
        "combine C lzeck:",
        "error 1: F19 States step 3\n",
        1,
        35,
    ),
    (
        63,
        "combine C lzeck:",
        "error 1: F19 States step 15\n",
        1,
        35,
    ),
    (
        64,
        "combine C lzeck:",
        "step 1 read 3 2\nstep 2 reverse 3 2\nstep 3 order 19 6\nstep 4 product 31 18\nstep 5 project 22 10\nstep 6 product 13 5\nstep 7 read 17 16\nstep 8 reverse 22 21\nstep 9 pad 55 21\nstep 10 valid 53 21\nstep 11 product 29 2\nstep 12 project 3 2\nstep 13 product 59 27\nstep 14 project 29 19\nstep 15 product 64 28\nstep 16 project 26 19\nstep 17 read 3 2\nstep 18 pad 4 2\nstep 19 valid 7 3\nstep 20 combine 6 5\n",
        0,
        36,
    ),
];

#[test]
fn combined_words_are_read_in_formulas(rt: HostRuntime) {
    expect_scripts(&rt, rt.alloc(), combined(), "walnut", READ);
}

#[test]
fn a_store_that_fails_at_automata_of_a_word(rt: HostRuntime) {
    expect_failing(&rt, rt.alloc(), "", ("walnut", FOUR), &FAILING);
    expect_failing(&rt, rt.alloc(), "", ("walnut", ONE), &FAILING_ONCE);
}

#[test]
fn steps_of_words_have_the_limit_of_all(rt: HostRuntime) {
    expect_within(&rt, rt.alloc(), combined(), &LIMITS);
}

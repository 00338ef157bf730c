//! Automata combined to words in commands: the lines of the steps, and what is stored.

use crate::combine_files::combined;
use crate::given::expect_scripts;
use crate::tables::table;

/// Scripts that show their steps, over an empty store.
const SHOWN: &str = table![
    (
        "def p \"x<3\"; def q \"x<5\"; combine C p=7 q=9:",
        "step 1 read 4 3\nstep 2 pad 4 3\nstep 3 valid 4 3\nstep 4 read 5 4\nstep 5 pad 5 4\nstep 6 valid 5 4\nstep 7 combine 5 5\n",
        0,
        3,
    ),
    (
        "def p \"x<3\"; def q \"x<5\"; combine C p=7 q=9 p=8:",
        "step 1 read 4 3\nstep 2 pad 4 3\nstep 3 valid 4 3\nstep 4 read 5 4\nstep 5 pad 5 4\nstep 6 valid 5 4\nstep 7 combine 5 5\n",
        0,
        3,
    ),
    (
        "def p \"x<3\"; def q \"x<5\"; combine C p q:",
        "step 1 read 4 3\nstep 2 pad 4 3\nstep 3 valid 4 3\nstep 4 read 5 4\nstep 5 pad 5 4\nstep 6 valid 5 4\nstep 7 combine 5 5\n",
        0,
        3,
    ),
    (
        "def p \"x<3\"; def q \"x<5\"; combine C q p:",
        "step 1 read 5 4\nstep 2 pad 5 4\nstep 3 valid 5 4\nstep 4 read 4 3\nstep 5 pad 4 3\nstep 6 valid 4 3\nstep 7 combine 5 5\n",
        0,
        3,
    ),
    (
        "def p \"x<3\"; def q \"x<5\"; combine C q=1 p=2:",
        "step 1 read 5 4\nstep 2 pad 5 4\nstep 3 valid 5 4\nstep 4 read 4 3\nstep 5 pad 4 3\nstep 6 valid 4 3\nstep 7 combine 5 5\n",
        0,
        3,
    ),
    (
        "def p \"x<3\"; def q \"x<5\"; combine C p:",
        "step 1 read 4 3\nstep 2 pad 4 3\nstep 3 valid 4 3\nstep 4 combine 4 4\n",
        0,
        3,
    ),
    (
        "def p \"x<3\"; def q \"x<5\"; combine C p=0:",
        "step 1 read 4 3\nstep 2 pad 4 3\nstep 3 valid 4 3\nstep 4 combine 4 1\n",
        0,
        3,
    ),
    (
        "def p \"x<3\"; def q \"x<5\"; combine C p=7 q=7:",
        "step 1 read 4 3\nstep 2 pad 4 3\nstep 3 valid 4 3\nstep 4 read 5 4\nstep 5 pad 5 4\nstep 6 valid 5 4\nstep 7 combine 5 5\n",
        0,
        3,
    ),
    (
        "def p \"x<3\"; def q \"x<5\"; combine C p=-3 q=-2147483648:",
        "step 1 read 4 3\nstep 2 pad 4 3\nstep 3 valid 4 3\nstep 4 read 5 4\nstep 5 pad 5 4\nstep 6 valid 5 4\nstep 7 combine 5 5\n",
        0,
        3,
    ),
    (
        "def p \"x<3\"; def q \"x<5\"; combine C p=0 q=5:",
        "step 1 read 4 3\nstep 2 pad 4 3\nstep 3 valid 4 3\nstep 4 read 5 4\nstep 5 pad 5 4\nstep 6 valid 5 4\nstep 7 combine 5 5\n",
        0,
        3,
    ),
    (
        "def p \"x<3\"; def q \"x<5\"; combine C p=5 p=5 p=5:",
        "step 1 read 4 3\nstep 2 pad 4 3\nstep 3 valid 4 3\nstep 4 combine 4 4\n",
        0,
        3,
    ),
    (
        "def p \"x<3\"; def q \"x<5\"; combine C q=2147483647 p::",
        "step 1 read 5 4\nstep 2 pad 5 4\nstep 3 valid 5 4\nstep 4 read 4 3\nstep 5 pad 4 3\nstep 6 valid 4 3\nstep 7 combine 5 5\n",
        0,
        3,
    ),
    (
        "def no \"x<x\"; combine C no:",
        "step 1 read 2 1\nstep 2 pad 2 1\nstep 3 valid 1 1\nstep 4 combine 1 1\n",
        0,
        2,
    ),
    (
        "def no \"x<x\"; def p \"x<3\"; combine C no=4 p no=9 p=2:",
        "step 1 read 2 1\nstep 2 pad 2 1\nstep 3 valid 1 1\nstep 4 read 4 3\nstep 5 pad 4 3\nstep 6 valid 4 3\nstep 7 combine 4 4\n",
        0,
        3,
    ),
    (
        "def all \"x=x\"; combine C all=3:",
        "step 1 read 1 1\nstep 2 pad 2 1\nstep 3 valid 1 1\nstep 4 combine 1 1\n",
        0,
        2,
    ),
    (
        "def all \"x=x\"; def p \"x<3\"; combine C p all=3:",
        "step 1 read 4 3\nstep 2 pad 4 3\nstep 3 valid 4 3\nstep 4 read 1 1\nstep 5 pad 2 1\nstep 6 valid 1 1\nstep 7 combine 4 4\n",
        0,
        3,
    ),
    (
        "def all \"x=x\"; def p \"x<3\"; combine C all=3 p:",
        "step 1 read 1 1\nstep 2 pad 2 1\nstep 3 valid 1 1\nstep 4 read 4 3\nstep 5 pad 4 3\nstep 6 valid 4 3\nstep 7 combine 4 1\n",
        0,
        3,
    ),
    (
        "def lt \"x<y\"; combine C lt=1:",
        "step 1 read 3 2\nstep 2 pad 4 2\nstep 3 valid 3 2\nstep 4 combine 3 3\n",
        0,
        2,
    ),
    (
        "def lt \"x<y\"; def eq \"x=y\"; combine C lt=-1 eq=0:",
        "step 1 read 3 2\nstep 2 pad 4 2\nstep 3 valid 3 2\nstep 4 read 2 1\nstep 5 pad 3 1\nstep 6 valid 2 1\nstep 7 combine 3 3\n",
        0,
        3,
    ),
    (
        "def lt \"x<y\"; def eq \"x=y\"; def gt \"y<x\"; combine C lt=-1 gt=1 eq=5:",
        "step 1 read 3 2\nstep 2 pad 4 2\nstep 3 valid 3 2\nstep 4 read 3 2\nstep 5 pad 4 2\nstep 6 valid 3 2\nstep 7 read 2 1\nstep 8 pad 3 1\nstep 9 valid 2 1\nstep 10 combine 3 3\n",
        0,
        4,
    ),
    (
        "def s \"x+y=z\"; combine C s:",
        "step 1 read 3 2\nstep 2 pad 4 2\nstep 3 valid 3 2\nstep 4 combine 3 3\n",
        0,
        2,
    ),
    (
        "def e \"Ey x=2*y\"; def m \"Ey x=3*y\"; combine C e m:",
        "step 1 read 2 2\nstep 2 pad 3 2\nstep 3 valid 2 2\nstep 4 read 3 3\nstep 5 pad 4 3\nstep 6 valid 3 3\nstep 7 combine 6 6\n",
        0,
        3,
    ),
    (
        "def e \"Ey x=2*y\"; def m \"Ey x=3*y\"; combine C m e=5 m=9:",
        "step 1 read 3 3\nstep 2 pad 4 3\nstep 3 valid 3 3\nstep 4 read 2 2\nstep 5 pad 3 2\nstep 6 valid 2 2\nstep 7 combine 6 5\n",
        0,
        3,
    ),
    (
        "def p \"?lsd_2 x<3\"; def q \"?lsd_2 x<5\"; combine C p=7 q=9:",
        "step 1 read 4 3\nstep 2 pad 5 3\nstep 3 valid 4 3\nstep 4 read 5 4\nstep 5 pad 8 4\nstep 6 valid 5 4\nstep 7 combine 6 6\n",
        0,
        3,
    ),
    (
        "def lt \"?lsd_2 x<y\"; combine C lt=4:",
        "step 1 read 2 2\nstep 2 pad 2 2\nstep 3 valid 2 2\nstep 4 combine 2 2\n",
        0,
        2,
    ),
    (
        "def p \"?lsd_3 x=5\"; combine C p=-1:",
        "step 1 read 4 3\nstep 2 pad 6 3\nstep 3 valid 4 3\nstep 4 combine 4 4\n",
        0,
        2,
    ),
    (
        "reg f1 msd_fib \"(0|1)*1\"; combine F f1:",
        "step 1 read 3 2\nstep 2 pad 4 2\nstep 3 valid 3 2\nstep 4 combine 3 2\n",
        0,
        2,
    ),
    (
        "reg f1 msd_fib \"(0|1)*1\"; combine F f1=5:",
        "step 1 read 3 2\nstep 2 pad 4 2\nstep 3 valid 3 2\nstep 4 combine 3 2\n",
        0,
        2,
    ),
    (
        "reg f1 lsd_fib \"1(0|1)*\"; combine F f1:",
        "step 1 read 4 3\nstep 2 pad 5 3\nstep 3 valid 6 3\nstep 4 combine 6 5\n",
        0,
        2,
    ),
    (
        "def lt \"?msd_fib x<y\"; combine C lt:",
        "step 1 read 7 6\nstep 2 pad 8 6\nstep 3 valid 15 6\nstep 4 combine 15 10\n",
        0,
        2,
    ),
    (
        "def p \"?msd_fib x<3\"; reg f1 msd_fib \"(0|1)*1\"; combine C p=2 f1=1:",
        "step 1 read 4 3\nstep 2 pad 4 3\nstep 3 valid 6 3\nstep 4 read 3 2\nstep 5 pad 4 2\nstep 6 valid 3 2\nstep 7 combine 6 5\n",
        0,
        3,
    ),
    (
        "def a \"?msd_10 x<30\"; def b \"?msd_10 Ey x=7*y\"; combine C a b:",
        "step 1 read 4 3\nstep 2 pad 4 3\nstep 3 valid 4 3\nstep 4 read 7 7\nstep 5 pad 8 7\nstep 6 valid 7 7\nstep 7 combine 17 17\n",
        0,
        3,
    ),
    (
        "reg a msd_2 msd_3 \"[1,2]\"; combine C a=6:",
        "step 1 read 3 2\nstep 2 pad 3 2\nstep 3 valid 3 2\nstep 4 combine 3 3\n",
        0,
        2,
    ),
    (
        "reg a lsd_2 lsd_fib \"[1,1]*\"; combine C a=6:",
        "step 1 read 3 2\nstep 2 pad 4 2\nstep 3 valid 6 2\nstep 4 combine 6 5\n",
        0,
        2,
    ),
    (
        "reg a msd_2 \"1*\"; reg b msd_2 \"(10)*\"; combine C a b:",
        "step 1 read 3 2\nstep 2 pad 3 2\nstep 3 valid 3 2\nstep 4 read 4 3\nstep 5 pad 4 3\nstep 6 valid 4 3\nstep 7 combine 6 6\n",
        0,
        3,
    ),
    (
        "reg a lsd_2 \"1*\"; reg b lsd_2 \"(10)*\"; combine C a b:",
        "step 1 read 3 2\nstep 2 pad 3 2\nstep 3 valid 3 2\nstep 4 read 4 3\nstep 5 pad 6 3\nstep 6 valid 4 3\nstep 7 combine 10 9\n",
        0,
        3,
    ),
];

/// Scripts that show their steps, over the files.
const READ: &str = table![
    (
        "combine C odd:",
        "step 1 read 2 2\nstep 2 pad 3 2\nstep 3 valid 2 2\nstep 4 combine 2 2\n",
        0,
        36,
    ),
    (
        "combine C one:",
        "step 1 read 3 2\nstep 2 pad 3 2\nstep 3 valid 3 2\nstep 4 combine 3 3\n",
        0,
        36,
    ),
    (
        "combine C many:",
        "step 1 read 3 3\nstep 2 pad 4 2\nstep 3 valid 2 2\nstep 4 combine 2 2\n",
        0,
        36,
    ),
    (
        "combine C odd=2 one=3 many=4 odd=5:",
        "step 1 read 2 2\nstep 2 pad 3 2\nstep 3 valid 2 2\nstep 4 read 3 2\nstep 5 pad 3 2\nstep 6 valid 3 2\nstep 7 read 3 3\nstep 8 pad 4 2\nstep 9 valid 2 2\nstep 10 combine 4 2\n",
        0,
        36,
    ),
    (
        "combine C many one odd:",
        "step 1 read 3 3\nstep 2 pad 4 2\nstep 3 valid 2 2\nstep 4 read 3 2\nstep 5 pad 3 2\nstep 6 valid 3 2\nstep 7 read 2 2\nstep 8 pad 3 2\nstep 9 valid 2 2\nstep 10 combine 4 2\n",
        0,
        36,
    ),
    (
        "combine C lt=3:",
        "step 1 read 3 2\nstep 2 pad 4 2\nstep 3 valid 3 2\nstep 4 combine 3 3\n",
        0,
        36,
    ),
    (
        "combine C three=5:",
        "step 1 read 2 1\nstep 2 pad 3 2\nstep 3 valid 3 2\nstep 4 combine 3 3\n",
        0,
        36,
    ),
    (
        "combine C mixed:",
        "step 1 read 2 1\nstep 2 pad 2 1\nstep 3 valid 2 1\nstep 4 combine 2 2\n",
        0,
        36,
    ),
    (
        "combine C mixed2:",
        "step 1 read 2 1\nstep 2 pad 2 1\nstep 3 valid 2 1\nstep 4 combine 2 2\n",
        0,
        36,
    ),
    (
        "combine C low:",
        "step 1 read 2 1\nstep 2 pad 3 1\nstep 3 valid 2 1\nstep 4 combine 2 2\n",
        0,
        36,
    ),
    (
        "combine C fibs=8:",
        "step 1 read 1 1\nstep 2 pad 2 1\nstep 3 valid 3 2\nstep 4 combine 3 2\n",
        0,
        36,
    ),
    (
        "combine C bin bin2:",
        "step 1 read 1 1\nstep 2 order 3 2\nstep 3 product 9 4\nstep 4 project 4 3\nstep 5 product 4 2\nstep 6 read 3 2\nstep 7 pad 4 2\nstep 8 valid 3 2\nstep 9 product 6 1\nstep 10 project 2 1\nstep 11 product 9 3\nstep 12 project 3 2\nstep 13 product 9 3\nstep 14 project 3 2\nstep 15 read 2 1\nstep 16 pad 3 2\nstep 17 valid 3 2\nstep 18 read 2 2\nstep 19 pad 2 2\nstep 20 valid 2 2\nstep 21 combine 3 3\n",
        0,
        36,
    ),
    (
        "combine C zeck=3:",
        "step 1 read 3 2\nstep 2 order 21 6\nstep 3 product 31 18\nstep 4 project 14 9\nstep 5 product 10 4\nstep 6 read 17 16\nstep 7 pad 18 16\nstep 8 valid 49 16\nstep 9 product 24 2\nstep 10 project 3 2\nstep 11 product 61 24\nstep 12 project 17 16\nstep 13 product 55 25\nstep 14 project 22 16\nstep 15 read 3 2\nstep 16 pad 4 2\nstep 17 valid 3 2\nstep 18 combine 3 2\n",
        0,
        36,
    ),
    (
        "combine C lzeck:",
        "step 1 read 3 2\nstep 2 reverse 3 2\nstep 3 order 19 6\nstep 4 product 31 18\nstep 5 project 22 10\nstep 6 product 13 5\nstep 7 read 17 16\nstep 8 reverse 22 21\nstep 9 pad 55 21\nstep 10 valid 53 21\nstep 11 product 29 2\nstep 12 project 3 2\nstep 13 product 59 27\nstep 14 project 29 19\nstep 15 product 64 28\nstep 16 project 26 19\nstep 17 read 3 2\nstep 18 pad 4 2\nstep 19 valid 7 3\nstep 20 combine 6 5\n",
        0,
        36,
    ),
    (
        "combine C five=2:",
        "step 1 read 1 1\nstep 2 order 3 2\nstep 3 product 9 4\nstep 4 project 4 3\nstep 5 product 4 2\nstep 6 read 3 2\nstep 7 pad 4 2\nstep 8 valid 3 2\nstep 9 product 6 1\nstep 10 project 2 1\nstep 11 product 9 3\nstep 12 project 3 2\nstep 13 product 9 3\nstep 14 project 3 2\nstep 15 read 2 1\nstep 16 pad 3 2\nstep 17 valid 3 2\nstep 18 combine 3 3\n",
        0,
        36,
    ),
];

#[test]
fn combined_words_show_their_steps(rt: HostRuntime) {
    expect_scripts(&rt, rt.alloc(), "", "walnut", SHOWN);
    expect_scripts(&rt, rt.alloc(), combined(), "walnut", READ);
}

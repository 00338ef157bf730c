//! The lines of the steps before words that are listed, and words listed one at a time, from an independent program.

use crate::given::expect_scripts;
use crate::listing_files::listed;
use crate::tables::table;

/// Scripts that show their steps.
const SHOWN: &str = table![
    (
        "test lt 2:",
        "step 1 read 3 2\nstep 2 pad 4 2\nstep 3 valid 3 2\n[0,1]\n[0,1][0,0]\n",
        0,
        43,
    ),
    (
        "test lt 2::",
        "step 1 read 3 2\nstep 2 pad 4 2\nstep 3 valid 3 2\n[0,1]\n[0,1][0,0]\n",
        0,
        43,
    ),
    (
        "inf lt:",
        "step 1 read 3 2\nstep 2 pad 4 2\nstep 3 valid 3 2\nTRUE\n",
        0,
        43,
    ),
    (
        "inf lt::",
        "step 1 read 3 2\nstep 2 pad 4 2\nstep 3 valid 3 2\nTRUE\n",
        0,
        43,
    ),
    (
        "test five 2:",
        "step 1 read 5 4\nstep 2 pad 5 4\nstep 3 valid 5 4\n[1][0][1]\n",
        0,
        43,
    ),
    (
        "test high 2:",
        "step 1 read 5 4\nstep 2 pad 3 2\nstep 3 valid 3 2\n[1]\n",
        0,
        43,
    ),
    (
        "inf low:",
        "step 1 read 4 3\nstep 2 pad 6 2\nstep 3 valid 3 2\nFALSE\n",
        0,
        43,
    ),
    (
        "test low 1:",
        "step 1 read 4 3\nstep 2 pad 6 2\nstep 3 valid 3 2\n[1]\n",
        0,
        43,
    ),
    ("test ab 1:", "step 1 read 3 2\n[1]\n", 0, 43),
    ("inf ab:", "step 1 read 3 2\nTRUE\n", 0, 43),
    ("test end 1:", "step 1 read 4 4\n[1][0]\n", 0, 43),
    ("inf end:", "step 1 read 4 4\nTRUE\n", 0, 43),
    ("test yes 1:", "[]\n", 0, 43),
    ("inf no:", "FALSE\n", 0, 43),
    ("test no 1:", "", 0, 43),
    (
        "test nothing 1:",
        "step 1 read 2 1\nstep 2 pad 2 1\nstep 3 valid 1 1\n",
        0,
        43,
    ),
    ("test none 1:", "step 1 read 2 1\n", 0, 43),
    (
        "inf nothing:",
        "step 1 read 2 1\nstep 2 pad 2 1\nstep 3 valid 1 1\nFALSE\n",
        0,
        43,
    ),
    (
        "test fib 1:",
        "step 1 read 1 1\nstep 2 pad 2 1\nstep 3 valid 3 2\n[]\n",
        0,
        43,
    ),
    (
        "inf fibl:",
        "step 1 read 1 1\nstep 2 pad 1 1\nstep 3 valid 3 2\nTRUE\n",
        0,
        43,
    ),
    (
        "test six 1:",
        "step 1 read 8 7\nstep 2 pad 7 7\nstep 3 valid 7 7\n[1]\n",
        0,
        43,
    ),
    (
        "test lt 0:",
        "step 1 read 3 2\nstep 2 pad 4 2\nstep 3 valid 3 2\n",
        0,
        43,
    ),
    ("test lt 1 \"[2,0]\":", "error 1: F32 Place lt\n", 1, 43),
    (
        "test ab 1; test z 1: inf ab; inf z;",
        "[1]\nstep 1 read 2 1\nstep 2 pad 2 1\nstep 3 valid 2 1\n[]\nTRUE\nFALSE\n",
        0,
        43,
    ),
    (
        "test own 3:",
        "step 1 read 1 1\nstep 2 order 3 2\nstep 3 product 9 4\nstep 4 project 4 3\nstep 5 product 4 2\nstep 6 read 3 2\nstep 7 pad 4 2\nstep 8 valid 3 2\nstep 9 product 6 1\nstep 10 project 2 1\nstep 11 product 9 3\nstep 12 project 3 2\nstep 13 product 9 3\nstep 14 project 3 2\nstep 15 read 1 1\nstep 16 pad 2 1\nstep 17 valid 1 1\n[]\n[1]\n[1][0]\n",
        0,
        43,
    ),
    (
        "inf own:",
        "step 1 read 1 1\nstep 2 order 3 2\nstep 3 product 9 4\nstep 4 project 4 3\nstep 5 product 4 2\nstep 6 read 3 2\nstep 7 pad 4 2\nstep 8 valid 3 2\nstep 9 product 6 1\nstep 10 project 2 1\nstep 11 product 9 3\nstep 12 project 3 2\nstep 13 product 9 3\nstep 14 project 3 2\nstep 15 read 1 1\nstep 16 pad 2 1\nstep 17 valid 1 1\nTRUE\n",
        0,
        43,
    ),
];

/// Each word is listed after the one before it.
const ONE_BY_ONE: &str = table![
    (
        "test few 1; test few 1 \"[1]\"; test few 1 \"[1][0]\";",
        "[1]\n[1][0]\n[0][1][1]\n",
        0,
        43,
    ),
    (
        "test lt 1; test lt 1 \"[0,1]\"; test lt 1 \"[0,1][0,0]\"; test lt 1 \"[0,1][0,1]\"; test lt 1 \"[0,1][1,0]\"; test lt 1 \"[0,1][1,1]\";",
        "[0,1]\n[0,1][0,0]\n[0,1][0,1]\n[0,1][1,0]\n[0,1][1,1]\n[1,1][0,1]\n",
        0,
        43,
    ),
    (
        "test naturals 1; test naturals 1 \"[]\"; test naturals 1 \"[1]\"; test naturals 1 \"[0][1]\"; test naturals 1 \"[1][1]\"; test naturals 1 \"[0][0][1]\";",
        "[]\n[1]\n[0][1]\n[1][1]\n[0][0][1]\n[0][1][1]\n",
        0,
        43,
    ),
    (
        "test fib 1; test fib 1 \"[]\"; test fib 1 \"[1]\"; test fib 1 \"[1][0]\"; test fib 1 \"[1][0][0]\"; test fib 1 \"[1][0][1]\";",
        "[]\n[1]\n[1][0]\n[1][0][0]\n[1][0][1]\n[1][0][0][0]\n",
        0,
        43,
    ),
    (
        "test fibl 1; test fibl 1 \"[]\"; test fibl 1 \"[1]\"; test fibl 1 \"[0][1]\"; test fibl 1 \"[0][0][1]\"; test fibl 1 \"[1][0][1]\";",
        "[]\n[1]\n[0][1]\n[0][0][1]\n[1][0][1]\n[0][0][0][1]\n",
        0,
        43,
    ),
    (
        "test six 1; test six 1 \"[1]\"; test six 1 \"[1][0][0][0][0][0][0]\"; test six 1 \"[1][0][0][0][0][0][1]\";",
        "[1]\n[1][0][0][0][0][0][0]\n[1][0][0][0][0][0][1]\n[1][0][0][0][0][1][0]\n",
        0,
        43,
    ),
    (
        "test signed 1; test signed 1 \"[]\"; test signed 1 \"[-1]\"; test signed 1 \"[-1][-1]\"; test signed 1 \"[2][0]\"; test signed 1 \"[-1][-1][-1]\";",
        "[]\n[-1]\n[-1][-1]\n[2][0]\n[-1][-1][-1]\n[-1][2][0]\n",
        0,
        43,
    ),
    (
        "test trib 1; test trib 1 \"[]\"; test trib 1 \"[1]\"; test trib 1 \"[1][0]\"; test trib 1 \"[1][1]\"; test trib 1 \"[1][0][0]\";",
        "[]\n[1]\n[1][0]\n[1][1]\n[1][0][0]\n[1][0][1]\n",
        0,
        43,
    ),
    (
        "test mixed 1; test mixed 1 \"[]\"; test mixed 1 \"[0,1]\"; test mixed 1 \"[1,0]\"; test mixed 1 \"[1,1]\";",
        "[]\n[0,1]\n[1,0]\n[1,1]\n[2,0]\n",
        0,
        43,
    ),
];

#[test]
fn listings_show_their_steps(rt: HostRuntime) {
    expect_scripts(&rt, rt.alloc(), listed(), "walnut", SHOWN);
}

#[test]
fn listings_go_on_after_each_word(rt: HostRuntime) {
    expect_scripts(&rt, rt.alloc(), listed(), "walnut", ONE_BY_ONE);
}

//! Systems of users in commands: the steps of their admission, and what is stored over them.

use crate::answers::given;
use crate::tables::{ROW_END, first_field, table};
use crate::user_system_files::{ask, end_of, run_over_files};
use crate::whole::{Ran, expect_names, expect_run, expect_stores};
use std::alloc::Global;
use std::process::Abort;
use wal_outside::Folder;

/// Scripts that show their steps.
const SHOWN: &str = table![
    (
        "eval a \"?msd_bin Ex x+x=6\":",
        "step 1 read 1 1\nstep 2 order 3 2\nstep 3 product 9 4\nstep 4 project 4 3\nstep 5 product 4 2\nstep 6 read 3 2\nstep 7 pad 4 2\nstep 8 valid 3 2\nstep 9 product 6 1\nstep 10 project 2 1\nstep 11 product 9 3\nstep 12 project 3 2\nstep 13 product 9 3\nstep 14 project 3 2\nstep 15 const 5 4\nstep 16 product 6 2\nstep 17 project 3 2\nstep 18 product 11 4\nstep 19 project 4 3\nstep 20 project 1 1\nTRUE\n",
    ),
    (
        "eval a \"?lsd_bin Ex x+x=6\":",
        "step 1 read 1 1\nstep 2 reverse 1 1\nstep 3 order 3 2\nstep 4 product 4 4\nstep 5 project 6 3\nstep 6 product 4 2\nstep 7 read 3 2\nstep 8 reverse 3 2\nstep 9 pad 4 2\nstep 10 valid 3 2\nstep 11 product 5 1\nstep 12 project 2 1\nstep 13 product 8 3\nstep 14 project 4 2\nstep 15 product 8 3\nstep 16 project 4 2\nstep 17 const 5 4\nstep 18 product 6 2\nstep 19 project 3 2\nstep 20 product 12 4\nstep 21 project 5 3\nstep 22 project 3 1\nTRUE\n",
    ),
    (
        "eval a \"?msd_own Ex x+x=6\":",
        "step 1 read 1 1\nstep 2 reverse 1 1\nstep 3 order 3 2\nstep 4 product 9 4\nstep 5 project 4 3\nstep 6 product 4 2\nstep 7 read 3 2\nstep 8 reverse 3 2\nstep 9 pad 4 2\nstep 10 valid 3 2\nstep 11 product 6 1\nstep 12 project 2 1\nstep 13 product 9 3\nstep 14 project 3 2\nstep 15 product 9 3\nstep 16 project 3 2\nstep 17 const 5 4\nstep 18 product 6 2\nstep 19 project 3 2\nstep 20 product 11 4\nstep 21 project 4 3\nstep 22 project 1 1\nTRUE\n",
    ),
    (
        "eval a \"?lsd_own Ex x+x=6\":",
        "step 1 read 1 1\nstep 2 order 3 2\nstep 3 product 4 4\nstep 4 project 6 3\nstep 5 product 4 2\nstep 6 read 3 2\nstep 7 pad 4 2\nstep 8 valid 3 2\nstep 9 product 5 1\nstep 10 project 2 1\nstep 11 product 8 3\nstep 12 project 4 2\nstep 13 product 8 3\nstep 14 project 4 2\nstep 15 const 5 4\nstep 16 product 6 2\nstep 17 project 3 2\nstep 18 product 12 4\nstep 19 project 5 3\nstep 20 project 3 1\nTRUE\n",
    ),
    (
        "def a \"?msd_zeck x=4\":",
        "step 1 read 3 2\nstep 2 order 21 6\nstep 3 product 31 18\nstep 4 project 14 9\nstep 5 product 10 4\nstep 6 read 17 16\nstep 7 pad 18 16\nstep 8 valid 49 16\nstep 9 product 24 2\nstep 10 project 3 2\nstep 11 product 61 24\nstep 12 project 17 16\nstep 13 product 55 25\nstep 14 project 22 16\nstep 15 const 5 4\n",
    ),
    (
        "def a \"?lsd_zeck x=4\":",
        "step 1 read 3 2\nstep 2 reverse 3 2\nstep 3 order 19 6\nstep 4 product 31 18\nstep 5 project 22 10\nstep 6 product 13 5\nstep 7 read 17 16\nstep 8 reverse 22 21\nstep 9 pad 55 21\nstep 10 valid 53 21\nstep 11 product 29 2\nstep 12 project 3 2\nstep 13 product 59 27\nstep 14 project 29 19\nstep 15 product 64 28\nstep 16 project 26 19\nstep 17 const 5 4\n",
    ),
    (
        "def a \"?msd_five x=4\":",
        "step 1 read 1 1\nstep 2 order 3 2\nstep 3 product 9 4\nstep 4 project 4 3\nstep 5 product 4 2\nstep 6 read 3 2\nstep 7 pad 4 2\nstep 8 valid 3 2\nstep 9 product 6 1\nstep 10 project 2 1\nstep 11 product 9 3\nstep 12 project 3 2\nstep 13 product 9 3\nstep 14 project 3 2\nstep 15 const 3 2\n",
    ),
    (
        "eval a \"?msd_trib 0=0\":",
        "step 1 read 4 3\nstep 2 order 36 12\nstep 3 product 73 48\nstep 4 project 36 17\nstep 5 product 18 6\nstep 6 read 150 149\nstep 7 pad 151 149\nstep 8 valid 301 149\nstep 9 product 161 3\nstep 10 project 4 3\nstep 11 product 572 235\nstep 12 project 150 149\nstep 13 product 526 241\nstep 14 project 212 149\nstep 15 const 2 1\nstep 16 const 2 1\nstep 17 product 6 1\nstep 18 project 2 1\nstep 19 product 2 1\nstep 20 project 1 1\nTRUE\n",
    ),
    (
        "eval a \"?lsd_trib 0=0\":",
        "step 1 read 4 3\nstep 2 reverse 4 3\nstep 3 order 30 12\nstep 4 product 73 48\nstep 5 project 48 19\nstep 6 product 23 8\nstep 7 read 150 149\nstep 8 reverse 281 280\nstep 9 pad 937 280\nstep 10 valid 459 280\nstep 11 product 342 3\nstep 12 project 4 3\nstep 13 product 800 413\nstep 14 project 425 284\nstep 15 product 867 408\nstep 16 project 356 284\nstep 17 const 2 1\nstep 18 const 2 1\nstep 19 product 6 1\nstep 20 project 2 1\nstep 21 product 2 1\nstep 22 project 1 1\nTRUE\n",
    ),
    (
        "eval a \"(?msd_bin Ex x=1) & (?lsd_bin Ey y=1)\":",
        "step 1 read 1 1\nstep 2 order 3 2\nstep 3 product 9 4\nstep 4 project 4 3\nstep 5 product 4 2\nstep 6 read 3 2\nstep 7 pad 4 2\nstep 8 valid 3 2\nstep 9 product 6 1\nstep 10 project 2 1\nstep 11 product 9 3\nstep 12 project 3 2\nstep 13 product 9 3\nstep 14 project 3 2\nstep 15 read 1 1\nstep 16 reverse 1 1\nstep 17 order 3 2\nstep 18 product 4 4\nstep 19 project 6 3\nstep 20 product 4 2\nstep 21 read 3 2\nstep 22 reverse 3 2\nstep 23 pad 4 2\nstep 24 valid 3 2\nstep 25 product 5 1\nstep 26 project 2 1\nstep 27 product 8 3\nstep 28 project 4 2\nstep 29 product 8 3\nstep 30 project 4 2\nstep 31 const 3 2\nstep 32 project 1 1\nstep 33 const 3 2\nstep 34 project 2 1\nstep 35 product 1 1\nTRUE\n",
    ),
    (
        "eval a \"(?msd_bin Ex x=1) & (?msd_bin Ey y=2)\":",
        "step 1 read 1 1\nstep 2 order 3 2\nstep 3 product 9 4\nstep 4 project 4 3\nstep 5 product 4 2\nstep 6 read 3 2\nstep 7 pad 4 2\nstep 8 valid 3 2\nstep 9 product 6 1\nstep 10 project 2 1\nstep 11 product 9 3\nstep 12 project 3 2\nstep 13 product 9 3\nstep 14 project 3 2\nstep 15 const 3 2\nstep 16 project 1 1\nstep 17 const 4 3\nstep 18 project 1 1\nstep 19 product 1 1\nTRUE\n",
    ),
    (
        "eval a \"(?msd_bin Ex x=1) & (?msd_zeck Ey y=2)\":",
        "step 1 read 1 1\nstep 2 order 3 2\nstep 3 product 9 4\nstep 4 project 4 3\nstep 5 product 4 2\nstep 6 read 3 2\nstep 7 pad 4 2\nstep 8 valid 3 2\nstep 9 product 6 1\nstep 10 project 2 1\nstep 11 product 9 3\nstep 12 project 3 2\nstep 13 product 9 3\nstep 14 project 3 2\nstep 15 read 3 2\nstep 16 order 21 6\nstep 17 product 31 18\nstep 18 project 14 9\nstep 19 product 10 4\nstep 20 read 17 16\nstep 21 pad 18 16\nstep 22 valid 49 16\nstep 23 product 24 2\nstep 24 project 3 2\nstep 25 product 61 24\nstep 26 project 17 16\nstep 27 product 55 25\nstep 28 project 22 16\nstep 29 const 3 2\nstep 30 project 1 1\nstep 31 const 4 3\nstep 32 project 1 1\nstep 33 product 1 1\nTRUE\n",
    ),
    (
        "def f \"?msd_zeck x=4\"; eval a \"$f(4) & ?msd_bin 0=0\":",
        "step 1 read 3 2\nstep 2 order 21 6\nstep 3 product 31 18\nstep 4 project 14 9\nstep 5 product 10 4\nstep 6 read 17 16\nstep 7 pad 18 16\nstep 8 valid 49 16\nstep 9 product 24 2\nstep 10 project 3 2\nstep 11 product 61 24\nstep 12 project 17 16\nstep 13 product 55 25\nstep 14 project 22 16\nstep 15 read 1 1\nstep 16 order 3 2\nstep 17 product 9 4\nstep 18 project 4 3\nstep 19 product 4 2\nstep 20 read 3 2\nstep 21 pad 4 2\nstep 22 valid 3 2\nstep 23 product 6 1\nstep 24 project 2 1\nstep 25 product 9 3\nstep 26 project 3 2\nstep 27 product 9 3\nstep 28 project 3 2\nstep 29 read 5 4\nstep 30 pad 5 4\nstep 31 valid 7 4\nstep 32 const 5 4\nstep 33 product 5 4\nstep 34 project 1 1\nstep 35 const 2 1\nstep 36 const 2 1\nstep 37 product 4 1\nstep 38 project 2 1\nstep 39 product 2 1\nstep 40 project 1 1\nstep 41 product 1 1\nTRUE\n",
    ),
    (
        "def f \"?msd_zeck x=4\"; eval a \"(?msd_bin 0=0) & $f(4)\":",
        "step 1 read 1 1\nstep 2 order 3 2\nstep 3 product 9 4\nstep 4 project 4 3\nstep 5 product 4 2\nstep 6 read 3 2\nstep 7 pad 4 2\nstep 8 valid 3 2\nstep 9 product 6 1\nstep 10 project 2 1\nstep 11 product 9 3\nstep 12 project 3 2\nstep 13 product 9 3\nstep 14 project 3 2\nstep 15 read 3 2\nstep 16 order 21 6\nstep 17 product 31 18\nstep 18 project 14 9\nstep 19 product 10 4\nstep 20 read 17 16\nstep 21 pad 18 16\nstep 22 valid 49 16\nstep 23 product 24 2\nstep 24 project 3 2\nstep 25 product 61 24\nstep 26 project 17 16\nstep 27 product 55 25\nstep 28 project 22 16\nstep 29 read 5 4\nstep 30 pad 5 4\nstep 31 valid 7 4\nstep 32 const 2 1\nstep 33 const 2 1\nstep 34 product 4 1\nstep 35 project 2 1\nstep 36 product 2 1\nstep 37 project 1 1\nstep 38 const 5 4\nstep 39 product 5 4\nstep 40 project 1 1\nstep 41 product 1 1\nTRUE\n",
    ),
    (
        "def f \"?msd_zeck x=4\"; eval a \"$f(4)\":",
        "step 1 read 3 2\nstep 2 order 21 6\nstep 3 product 31 18\nstep 4 project 14 9\nstep 5 product 10 4\nstep 6 read 17 16\nstep 7 pad 18 16\nstep 8 valid 49 16\nstep 9 product 24 2\nstep 10 project 3 2\nstep 11 product 61 24\nstep 12 project 17 16\nstep 13 product 55 25\nstep 14 project 22 16\nstep 15 read 5 4\nstep 16 pad 5 4\nstep 17 valid 7 4\nstep 18 const 5 4\nstep 19 product 5 4\nstep 20 project 1 1\nTRUE\n",
    ),
    (
        "reg a msd_bin \"1*\":",
        "step 1 read 1 1\nstep 2 order 3 2\nstep 3 product 9 4\nstep 4 project 4 3\nstep 5 product 4 2\nstep 6 read 3 2\nstep 7 pad 4 2\nstep 8 valid 3 2\nstep 9 product 6 1\nstep 10 project 2 1\nstep 11 product 9 3\nstep 12 project 3 2\nstep 13 product 9 3\nstep 14 project 3 2\nstep 15 regex 3 1\nstep 16 pad 3 2\nstep 17 valid 3 2\n",
    ),
    (
        "reg a lsd_zeck \"1*\":",
        "step 1 read 3 2\nstep 2 reverse 3 2\nstep 3 order 19 6\nstep 4 product 31 18\nstep 5 project 22 10\nstep 6 product 13 5\nstep 7 read 17 16\nstep 8 reverse 22 21\nstep 9 pad 55 21\nstep 10 valid 53 21\nstep 11 product 29 2\nstep 12 project 3 2\nstep 13 product 59 27\nstep 14 project 29 19\nstep 15 product 64 28\nstep 16 project 26 19\nstep 17 regex 3 1\nstep 18 pad 3 2\nstep 19 valid 8 2\n",
    ),
    (
        "reg a msd_zeck msd_five msd_zeck \"[1,4,0]*\":",
        "step 1 read 3 2\nstep 2 order 21 6\nstep 3 product 31 18\nstep 4 project 14 9\nstep 5 product 10 4\nstep 6 read 17 16\nstep 7 pad 18 16\nstep 8 valid 49 16\nstep 9 product 24 2\nstep 10 project 3 2\nstep 11 product 61 24\nstep 12 project 17 16\nstep 13 product 55 25\nstep 14 project 22 16\nstep 15 read 1 1\nstep 16 order 3 2\nstep 17 product 9 4\nstep 18 project 4 3\nstep 19 product 4 2\nstep 20 read 3 2\nstep 21 pad 4 2\nstep 22 valid 3 2\nstep 23 product 6 1\nstep 24 project 2 1\nstep 25 product 9 3\nstep 26 project 3 2\nstep 27 product 9 3\nstep 28 project 3 2\nstep 29 regex 3 1\nstep 30 pad 3 2\nstep 31 valid 12 2\n",
    ),
    (
        "reg a msd_2 msd_bin \"[1,1]\":",
        "step 1 read 1 1\nstep 2 order 3 2\nstep 3 product 9 4\nstep 4 project 4 3\nstep 5 product 4 2\nstep 6 read 3 2\nstep 7 pad 4 2\nstep 8 valid 3 2\nstep 9 product 6 1\nstep 10 project 2 1\nstep 11 product 9 3\nstep 12 project 3 2\nstep 13 product 9 3\nstep 14 project 3 2\nstep 15 regex 3 2\nstep 16 pad 3 2\nstep 17 valid 3 2\n",
    ),
];

/// Commands, and what they store under `a`.
const STORED: &str = table![
    (
        "def a \"?msd_zeck x=4\";",
        "msd_zeck\n\n0 0\n0 -> 0\n1 -> 1\n\n1 0\n0 -> 2\n\n2 0\n1 -> 3\n\n3 1\n",
    ),
    (
        "def a \"?lsd_zeck x=4\";",
        "lsd_zeck\n\n0 0\n1 -> 1\n\n1 0\n0 -> 2\n\n2 0\n1 -> 3\n\n3 1\n0 -> 3\n",
    ),
    (
        "def a \"?msd_zeck Ey x=y+y\";",
        "msd_zeck\n\n0 1\n0 -> 0\n1 -> 1\n\n1 0\n0 -> 2\n\n2 1\n0 -> 3\n1 -> 4\n\n3 0\n0 -> 5\n1 -> 6\n\n4 1\n0 -> 3\n\n5 0\n0 -> 2\n1 -> 7\n\n6 1\n0 -> 0\n\n7 0\n0 -> 5\n",
    ),
    (
        "def a \"?msd_zeck x<y\";",
        "msd_zeck msd_zeck\n\n0 0\n0 0 -> 0\n0 1 -> 1\n1 1 -> 2\n\n1 1\n0 0 -> 3\n1 0 -> 4\n\n2 0\n0 0 -> 0\n\n3 1\n0 0 -> 3\n0 1 -> 1\n1 0 -> 4\n1 1 -> 5\n\n4 1\n0 0 -> 3\n0 1 -> 1\n\n5 1\n0 0 -> 3\n",
    ),
    (
        "def a \"?lsd_zeck y=x+1\";",
        "lsd_zeck lsd_zeck\n\n0 0\n0 0 -> 1\n0 1 -> 2\n1 0 -> 3\n\n1 0\n1 0 -> 3\n\n2 1\n0 0 -> 4\n\n3 0\n0 0 -> 1\n0 1 -> 2\n\n4 1\n0 0 -> 4\n1 1 -> 2\n",
    ),
    (
        "def a \"?msd_trib x=6\";",
        "msd_trib\n\n0 0\n0 -> 0\n1 -> 1\n\n1 0\n1 -> 2\n\n2 0\n0 -> 3\n\n3 1\n",
    ),
    (
        "def a \"?lsd_trib x=6\";",
        "lsd_trib\n\n0 0\n0 -> 1\n\n1 0\n1 -> 2\n\n2 0\n1 -> 3\n\n3 1\n0 -> 3\n",
    ),
    (
        "def a \"?msd_five x=13\";",
        "msd_five\n\n0 0\n0 -> 0\n2 -> 1\n\n1 0\n3 -> 2\n\n2 1\n",
    ),
    (
        "def a \"?lsd_five x+y=3 & x<y\";",
        "lsd_five lsd_five\n\n0 0\n0 3 -> 1\n1 2 -> 1\n\n1 1\n0 0 -> 1\n",
    ),
    (
        "reg a msd_zeck \"1*\";",
        "msd_zeck\n\n0 1\n0 -> 0\n1 -> 1\n\n1 1\n",
    ),
    (
        "reg a msd_five msd_bin \"[4,1]\";",
        "msd_five msd_bin\n\n0 0\n0 0 -> 0\n4 1 -> 1\n\n1 1\n",
    ),
    (
        "reg a lsd_own \"1*\";",
        "lsd_own\n\n0 1\n0 -> 1\n1 -> 0\n\n1 1\n0 -> 1\n",
    ),
];

/// How wide a step may be, a system that is asked, and what is printed.
const LIMITS: &str = table![
    (20, "msd_zeck", "error 1: F19 States step 2\n"),
    (30, "msd_zeck", "error 1: F19 States step 3\n"),
    (48, "msd_zeck", "error 1: F19 States step 8\n"),
    (60, "msd_zeck", "error 1: F19 States step 11\n"),
    (61, "msd_zeck", "TRUE\n"),
    (18, "lsd_zeck", "error 1: F19 States step 3\n"),
    (30, "lsd_zeck", "error 1: F19 States step 4\n"),
    (54, "lsd_zeck", "error 1: F19 States step 9\n"),
    (58, "lsd_zeck", "error 1: F19 States step 13\n"),
    (63, "lsd_zeck", "error 1: F19 States step 15\n"),
    (64, "lsd_zeck", "TRUE\n"),
    (35, "msd_trib", "error 1: F19 States step 2\n"),
    (72, "msd_trib", "error 1: F19 States step 3\n"),
    (149, "msd_trib", "error 1: F19 States step 6\n"),
    (150, "msd_trib", "error 1: F19 States step 7\n"),
    (300, "msd_trib", "error 1: F19 States step 8\n"),
    (571, "msd_trib", "error 1: F19 States step 11\n"),
    (572, "msd_trib", "TRUE\n"),
    (29, "lsd_trib", "error 1: F19 States step 3\n"),
    (149, "lsd_trib", "error 1: F19 States step 7\n"),
    (280, "lsd_trib", "error 1: F19 States step 8\n"),
    (936, "lsd_trib", "error 1: F19 States step 9\n"),
    (937, "lsd_trib", "TRUE\n"),
    (16, "msd_wide", "error 1: F19 States step 1\n"),
    (17, "msd_wide", "TRUE\n"),
    (16, "lsd_wide", "error 1: F19 States step 1\n"),
    (31, "lsd_fifth", "error 1: F19 States step 2\n"),
    (
        32,
        "lsd_fifth",
        "error 1: F15 NotAdmitted lsd_fifth NoZero\n",
    ),
    (144, "lsd_stray", "error 1: F19 States step 4\n"),
    (422, "lsd_stray", "error 1: F19 States step 5\n"),
    (
        423,
        "lsd_stray",
        "error 1: F15 NotAdmitted lsd_stray ZeroLaw\n",
    ),
    (21, "msd_thousand", "error 1: F19 States step 6\n"),
    (37, "msd_thousand", "error 1: F19 States step 9\n"),
    (57, "msd_thousand", "error 1: F19 States step 11\n"),
    (59, "msd_thousand", "error 1: F19 States step 13\n"),
    (
        60,
        "msd_thousand",
        "error 1: F15 NotAdmitted msd_thousand SuccessorLaw\n",
    ),
    (73, "lsd_thousand", "error 1: F19 States step 9\n"),
    (
        74,
        "lsd_thousand",
        "error 1: F15 NotAdmitted lsd_thousand SuccessorLaw\n",
    ),
];

#[test]
fn steps_of_admission_come_first(rt: HostRuntime) {
    for row in SHOWN.split_terminator(ROW_END) {
        let (script, printed) = first_field(row);
        let ran = run_over_files(&rt, rt.alloc(), "walnut", script, 0);
        expect_names(&rt, script, ran, (printed, 0), &[]);
    }
}

#[test]
fn texts_over_systems_are_stored_as_listed(rt: HostRuntime) {
    for row in STORED.split_terminator(ROW_END) {
        let (script, text) = first_field(row);
        let ran = run_over_files(&rt, rt.alloc(), "walnut", script, 0);
        expect_stores(&rt, ran, (Folder::Automata, "a"), text);
    }
}

/// Asks it where no step may be wider than this.
fn ask_within(rt: &impl Abort, alloc: Global, limit: &str, name: &str) -> Ran {
    let line = given(rt, format!(in alloc; "walnut --states {limit}"));
    ask(rt, alloc, &line, name)
}

#[test]
fn steps_of_admission_have_the_limit_of_all(rt: HostRuntime) {
    for row in LIMITS.split_terminator(ROW_END) {
        let (limit, rest) = first_field(row);
        let (name, printed) = first_field(rest);
        let ran = ask_within(&rt, rt.alloc(), limit, name);
        expect_run(&rt, name, ran, printed, end_of(printed));
    }
}

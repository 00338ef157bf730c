//! Files of users' systems, and runs over stores that hold them.

use crate::answers::given;
use crate::given::put_files;
use crate::tables::{files, numbers_of};
use crate::tribonacci_adder::TRIBONACCI_ADDER;
use crate::whole::{Ran, SURE, expect_bytes, expect_run, run_over};
use std::alloc::Global;
use std::process::Abort;
use wal_outside::{Folder, MemStore};

/// All words over two digits.
pub const BINARY: &str = "{0,1}\n0 1\n* -> 0\n";

/// Sums in base 2, most significant digit first: the second state says that a carry is to come.
pub const CARRIES: &str =
    "{0,1} {0,1} {0,1}\n0 1\n0 0 0 -> 0\n0 1 1 -> 0\n1 0 1 -> 0\n0 0 1 -> 1\n1 0\n1 1 1 -> 1\n\
    0 1 0 -> 1\n1 0 0 -> 1\n1 1 0 -> 0\n";

/// Sums in base 2, least significant digit first.
const RISING_CARRIES: &str =
    "{0,1} {0,1} {0,1}\n0 1\n0 0 0 -> 0\n0 1 1 -> 0\n1 0 1 -> 0\n1 1 0 -> 1\n1 0\n0 0 1 -> 0\n\
    0 1 0 -> 1\n1 0 0 -> 1\n1 1 1 -> 1\n";

/// Sums without carries.
const NO_CARRIES: &str = "{0,1} {0,1} {0,1}\n0 1\n0 0 0 -> 0\n0 1 1 -> 0\n1 0 1 -> 0\n1 1 0 -> 0\n";

/// Three words, whatever they are.
const ALL: &str = "{0,1} {0,1} {0,1}\n0 1\n* * * -> 0\n";

/// Words of zeros.
const ZEROS: &str = "{0,1}\n0 1\n0 -> 0\n";

/// Words with a 1.
const NO_EMPTY: &str = "{0,1}\n0 0\n0 -> 0\n1 -> 1\n1 1\n0 -> 1\n1 -> 1\n";

/// Words without two ones side by side.
const ZECKENDORF: &str = "{0,1}\n0 1\n0 -> 0\n1 -> 1\n1 1\n0 -> 0\n";

/// Sums of the Fibonacci system.
const ZECKENDORF_ADDER: &str =
    "{0,1} {0,1} {0,1}\n0 1\n0 0 0 -> 0\n0 0 1 -> 1\n0 1 1 -> 2\n1 0 1 -> 2\n1 0\n0 0 0 -> 3\n\
    0 1 0 -> 4\n1 0 0 -> 5\n1 1 0 -> 6\n2 1\n0 0 0 -> 0\n3 0\n1 1 0 -> 7\n4 0\n0 0 0 -> 8\n\
    1 0 0 -> 9\n1 0 1 -> 10\n5 0\n0 0 0 -> 8\n0 1 0 -> 11\n0 1 1 -> 12\n6 1\n0 0 0 -> 13\n\
    0 0 1 -> 14\n7 0\n0 0 0 -> 8\n8 0\n0 0 0 -> 3\n0 1 0 -> 4\n1 0 0 -> 5\n1 1 0 -> 6\n1 1 1 -> 7\n\
    9 1\n0 0 0 -> 0\n0 0 1 -> 1\n0 1 1 -> 2\n10 0\n0 0 0 -> 3\n0 1 0 -> 4\n11 1\n0 0 0 -> 0\n\
    0 0 1 -> 1\n1 0 1 -> 2\n12 0\n0 0 0 -> 3\n1 0 0 -> 5\n13 0\n0 0 1 -> 2\n14 1\n0 0 0 -> 15\n\
    0 1 0 -> 6\n1 0 0 -> 6\n15 0\n0 0 0 -> 8\n0 1 0 -> 11\n0 1 1 -> 12\n1 0 0 -> 9\n1 0 1 -> 10\n\
    1 1 1 -> 2\n";

/// Words without three ones side by side.
const TRIBONACCI: &str = "{0,1}\n0 1\n0 -> 0\n1 -> 1\n1 1\n0 -> 0\n1 -> 2\n2 1\n0 -> 0\n";

/// Words in which a 0 comes after each 1.
const TAILED: &str = "{0,1}\n0 1\n0 -> 0\n1 -> 1\n1 0\n0 -> 0\n";

/// All words over five digits.
const FIVE: &str = "{0,1,2,3,4}\n0 1\n* -> 0\n";

/// Sums in base 5.
const FIVE_ADDER: &str =
    "{0,1,2,3,4} {0,1,2,3,4} {0,1,2,3,4}\n0 1\n0 0 0 -> 0\n0 0 1 -> 1\n0 1 1 -> 0\n0 1 2 -> 1\n\
    0 2 2 -> 0\n0 2 3 -> 1\n0 3 3 -> 0\n0 3 4 -> 1\n0 4 4 -> 0\n1 0 1 -> 0\n1 0 2 -> 1\n1 1 2 -> 0\n\
    1 1 3 -> 1\n1 2 3 -> 0\n1 2 4 -> 1\n1 3 4 -> 0\n2 0 2 -> 0\n2 0 3 -> 1\n2 1 3 -> 0\n2 1 4 -> 1\n\
    2 2 4 -> 0\n3 0 3 -> 0\n3 0 4 -> 1\n3 1 4 -> 0\n4 0 4 -> 0\n1 0\n0 4 0 -> 1\n1 3 0 -> 1\n\
    1 4 0 -> 0\n1 4 1 -> 1\n2 2 0 -> 1\n2 3 0 -> 0\n2 3 1 -> 1\n2 4 1 -> 0\n2 4 2 -> 1\n3 1 0 -> 1\n\
    3 2 0 -> 0\n3 2 1 -> 1\n3 3 1 -> 0\n3 3 2 -> 1\n3 4 2 -> 0\n3 4 3 -> 1\n4 0 0 -> 1\n4 1 0 -> 0\n\
    4 1 1 -> 1\n4 2 1 -> 0\n4 2 2 -> 1\n4 3 2 -> 0\n4 3 3 -> 1\n4 4 3 -> 0\n4 4 4 -> 1\n";

/// Sums below 1,024, and from there on those that have no carry in the last digits.
const THOUSAND: &str =
    "{0,1} {0,1} {0,1}\n0 1\n0 0 0 -> 2\n0 1 1 -> 2\n1 0 1 -> 2\n0 0 1 -> 3\n1 0\n1 1 1 -> 3\n\
    0 1 0 -> 3\n1 0 0 -> 3\n1 1 0 -> 2\n2 1\n0 0 0 -> 4\n0 1 1 -> 4\n1 0 1 -> 4\n0 0 1 -> 5\n3 0\n\
    1 1 1 -> 5\n0 1 0 -> 5\n1 0 0 -> 5\n1 1 0 -> 4\n4 1\n0 0 0 -> 6\n0 1 1 -> 6\n1 0 1 -> 6\n\
    0 0 1 -> 7\n5 0\n1 1 1 -> 7\n0 1 0 -> 7\n1 0 0 -> 7\n1 1 0 -> 6\n6 1\n0 0 0 -> 8\n0 1 1 -> 8\n\
    1 0 1 -> 8\n0 0 1 -> 9\n7 0\n1 1 1 -> 9\n0 1 0 -> 9\n1 0 0 -> 9\n1 1 0 -> 8\n8 1\n0 0 0 -> 10\n\
    0 1 1 -> 10\n1 0 1 -> 10\n0 0 1 -> 11\n9 0\n1 1 1 -> 11\n0 1 0 -> 11\n1 0 0 -> 11\n1 1 0 -> 10\n\
    10 1\n0 0 0 -> 12\n0 1 1 -> 12\n1 0 1 -> 12\n0 0 1 -> 13\n11 0\n1 1 1 -> 13\n0 1 0 -> 13\n\
    1 0 0 -> 13\n1 1 0 -> 12\n12 1\n0 0 0 -> 14\n0 1 1 -> 14\n1 0 1 -> 14\n0 0 1 -> 15\n13 0\n\
    1 1 1 -> 15\n0 1 0 -> 15\n1 0 0 -> 15\n1 1 0 -> 14\n14 1\n0 0 0 -> 16\n0 1 1 -> 16\n1 0 1 -> 16\n\
    0 0 1 -> 17\n15 0\n1 1 1 -> 17\n0 1 0 -> 17\n1 0 0 -> 17\n1 1 0 -> 16\n16 1\n0 0 0 -> 18\n\
    0 1 1 -> 18\n1 0 1 -> 18\n0 0 1 -> 19\n17 0\n1 1 1 -> 19\n0 1 0 -> 19\n1 0 0 -> 19\n1 1 0 -> 18\n\
    18 1\n0 0 0 -> 20\n0 1 1 -> 20\n1 0 1 -> 20\n0 0 1 -> 21\n19 0\n1 1 1 -> 21\n0 1 0 -> 21\n\
    1 0 0 -> 21\n1 1 0 -> 20\n20 1\n0 0 0 -> 20\n0 1 1 -> 20\n1 0 1 -> 20\n21 0\n";

/// Sums below 1,024 alone.
const THOUSAND_ALONE: &str =
    "{0,1} {0,1} {0,1}\n0 1\n0 0 0 -> 2\n0 1 1 -> 2\n1 0 1 -> 2\n0 0 1 -> 3\n1 0\n1 1 1 -> 3\n\
    0 1 0 -> 3\n1 0 0 -> 3\n1 1 0 -> 2\n2 1\n0 0 0 -> 4\n0 1 1 -> 4\n1 0 1 -> 4\n0 0 1 -> 5\n3 0\n\
    1 1 1 -> 5\n0 1 0 -> 5\n1 0 0 -> 5\n1 1 0 -> 4\n4 1\n0 0 0 -> 6\n0 1 1 -> 6\n1 0 1 -> 6\n\
    0 0 1 -> 7\n5 0\n1 1 1 -> 7\n0 1 0 -> 7\n1 0 0 -> 7\n1 1 0 -> 6\n6 1\n0 0 0 -> 8\n0 1 1 -> 8\n\
    1 0 1 -> 8\n0 0 1 -> 9\n7 0\n1 1 1 -> 9\n0 1 0 -> 9\n1 0 0 -> 9\n1 1 0 -> 8\n8 1\n0 0 0 -> 10\n\
    0 1 1 -> 10\n1 0 1 -> 10\n0 0 1 -> 11\n9 0\n1 1 1 -> 11\n0 1 0 -> 11\n1 0 0 -> 11\n1 1 0 -> 10\n\
    10 1\n0 0 0 -> 12\n0 1 1 -> 12\n1 0 1 -> 12\n0 0 1 -> 13\n11 0\n1 1 1 -> 13\n0 1 0 -> 13\n\
    1 0 0 -> 13\n1 1 0 -> 12\n12 1\n0 0 0 -> 14\n0 1 1 -> 14\n1 0 1 -> 14\n0 0 1 -> 15\n13 0\n\
    1 1 1 -> 15\n0 1 0 -> 15\n1 0 0 -> 15\n1 1 0 -> 14\n14 1\n0 0 0 -> 16\n0 1 1 -> 16\n1 0 1 -> 16\n\
    0 0 1 -> 17\n15 0\n1 1 1 -> 17\n0 1 0 -> 17\n1 0 0 -> 17\n1 1 0 -> 16\n16 1\n0 0 0 -> 18\n\
    0 1 1 -> 18\n1 0 1 -> 18\n0 0 1 -> 19\n17 0\n1 1 1 -> 19\n0 1 0 -> 19\n1 0 0 -> 19\n1 1 0 -> 18\n\
    18 1\n0 0 0 -> 20\n0 1 1 -> 20\n1 0 1 -> 20\n0 0 1 -> 21\n19 0\n1 1 1 -> 21\n0 1 0 -> 21\n\
    1 0 0 -> 21\n1 1 0 -> 20\n20 1\n21 0\n";

/// All words over two digits, by 17 states.
const WIDE: &str =
    "{0,1}\n0 1\n* -> 1\n1 1\n* -> 2\n2 1\n* -> 3\n3 1\n* -> 4\n4 1\n* -> 5\n5 1\n* -> 6\n6 1\n* -> 7\n\
    7 1\n* -> 8\n8 1\n* -> 9\n9 1\n* -> 10\n10 1\n* -> 11\n11 1\n* -> 12\n12 1\n* -> 13\n13 1\n\
    * -> 14\n14 1\n* -> 15\n15 1\n* -> 16\n16 1\n* -> 0\n";

/// Base 2, and languages that are none of a system.
const LANGUAGE_FILES: &str = files![
    (Folder::Bases, "msd_bin", BINARY),
    (Folder::Bases, "msd_bin_addition", CARRIES),
    (Folder::Bases, "lsd_own", BINARY),
    (Folder::Bases, "lsd_own_addition", RISING_CARRIES),
    (Folder::Bases, "msd_wrong", BINARY),
    (Folder::Bases, "msd_wrong_addition", NO_CARRIES),
    (Folder::Bases, "msd_nil", ZEROS),
    (Folder::Bases, "msd_nil_addition", NO_CARRIES),
    (Folder::Bases, "msd_zeros", ZEROS),
    (Folder::Bases, "msd_zeros_addition", CARRIES),
    (Folder::Bases, "msd_lost", NO_EMPTY),
    (Folder::Bases, "msd_lost_addition", CARRIES),
    (Folder::Bases, "msd_lost2", NO_EMPTY),
    (Folder::Bases, "msd_lost2_addition", NO_CARRIES),
    (
        Folder::Bases,
        "msd_late",
        "{0,1}\n0 1\n0 -> 1\n1 -> 2\n1 1\n1 -> 2\n2 1\n* -> 2\n",
    ),
    (Folder::Bases, "msd_late_addition", CARRIES),
    (
        Folder::Bases,
        "msd_early",
        "{0,1}\n0 1\n0 -> 1\n1 1\n* -> 1\n",
    ),
    (Folder::Bases, "msd_early_addition", CARRIES),
    (Folder::Bases, "lsd_tail", TAILED),
    (Folder::Bases, "lsd_tail_addition", ALL),
    (Folder::Bases, "msd_tailed", TAILED),
    (Folder::Bases, "msd_tailed_addition", ALL),
    (Folder::Bases, "msd_any", BINARY),
    (Folder::Bases, "msd_any_addition", ALL),
];

/// Adders that are not addition.
const ADDER_FILES: &str = files![
    (Folder::Bases, "msd_gap", ZECKENDORF),
    (Folder::Bases, "msd_gap_addition", CARRIES),
    (Folder::Bases, "msd_left", BINARY),
    (
        Folder::Bases,
        "msd_left_addition",
        "{0,1} {0,1} {0,1}\n0 1\n0 0 0 -> 0\n0 1 1 -> 0\n",
    ),
    (Folder::Bases, "msd_right", BINARY),
    (
        Folder::Bases,
        "msd_right_addition",
        "{0,1} {0,1} {0,1}\n0 1\n0 0 0 -> 0\n1 0 1 -> 0\n",
    ),
    (Folder::Bases, "msd_two", BINARY),
    (
        Folder::Bases,
        "msd_two_addition",
        "{0,1} {0,1} {0,1}\n0 1\n0 0 0 -> 0\n0 1 1 -> 0\n1 0 1 -> 0\n0 0 1 -> 1 2\n1 0\n1 1 1 -> 1\n0 1 0 -> 1\n1 0 0 -> 1\n1 1 0 -> 0\n2 1\n",
    ),
    (Folder::Bases, "msd_twoones", BINARY),
    (
        Folder::Bases,
        "msd_twoones_addition",
        "{0,1} {0,1} {0,1}\n0 1\n0 0 0 -> 0\n0 1 1 -> 0\n1 0 1 -> 0\n0 0 1 -> 1 2\n1 0\n1 1 1 -> 1\n0 1 0 -> 1\n1 0 0 -> 1\n1 1 0 -> 0\n2 0\n1 1 1 -> 3\n3 1\n",
    ),
    (Folder::Bases, "msd_thousand", BINARY),
    (Folder::Bases, "msd_thousand_addition", THOUSAND),
    (Folder::Bases, "msd_below", BINARY),
    (Folder::Bases, "msd_below_addition", THOUSAND_ALONE),
];

/// Files of one direction and of both, and the Fibonacci system.
const DIRECTION_FILES: &str = files![
    (Folder::Bases, "lsd_stand", BINARY),
    (Folder::Bases, "lsd_stand_addition", CARRIES),
    (Folder::Bases, "msd_alone", BINARY),
    (Folder::Bases, "msd_sum_addition", CARRIES),
    (Folder::Bases, "lsd_half", BINARY),
    (Folder::Bases, "msd_half_addition", CARRIES),
    (Folder::Bases, "msd_both", BINARY),
    (Folder::Bases, "msd_both_addition", CARRIES),
    (Folder::Bases, "lsd_both", BINARY),
    (Folder::Bases, "lsd_both_addition", NO_CARRIES),
    (Folder::Bases, "lsd_spoilt", "true\n"),
    (Folder::Bases, "msd_first", "0 1\n"),
    (Folder::Bases, "msd_first_addition", CARRIES),
    (Folder::Bases, "lsd_first", BINARY),
    (Folder::Bases, "lsd_first_addition", RISING_CARRIES),
    (Folder::Bases, "msd_zeck", ZECKENDORF),
    (Folder::Bases, "msd_zeck_addition", ZECKENDORF_ADDER),
    (Folder::Bases, "msd_trib", TRIBONACCI),
];

/// Names of systems.
const NAME_FILES: &str = files![
    (Folder::Bases, "msd_five", FIVE),
    (Folder::Bases, "msd_five_addition", FIVE_ADDER),
    (Folder::Bases, "msd_fib", "no system\n"),
    (Folder::Bases, "msd_2", "no system\n"),
    (Folder::Bases, "msd_41", BINARY),
    (Folder::Bases, "msd_41_addition", CARRIES),
    (Folder::Bases, "msd_2a", BINARY),
    (Folder::Bases, "msd_2a_addition", CARRIES),
    (Folder::Bases, "msd_fibo", BINARY),
    (Folder::Bases, "msd_fibo_addition", CARRIES),
    (
        Folder::Bases,
        "msd_abcdefghijklmnopqrstuvwxyzABCDEFGHIJKLMNOPQRSTUVWXYZ012345",
        BINARY,
    ),
    (
        Folder::Bases,
        "msd_abcdefghijklmnopqrstuvwxyzABCDEFGHIJKLMNOPQRSTUVWXYZ012345_addition",
        CARRIES,
    ),
    (Folder::Bases, "msd_wide", WIDE),
    (Folder::Bases, "msd_wide_addition", CARRIES),
];

/// Systems over many digits, and a language that its letters leave.
const DIGIT_FILES: &str = files![
    (
        Folder::Bases,
        "msd_fifth",
        "{0,1}\n0 0\n* -> 1\n1 0\n* -> 2\n2 0\n* -> 3\n3 0\n* -> 4\n4 0\n1 -> 5\n5 1\n* -> 5\n",
    ),
    (Folder::Bases, "msd_fifth_addition", CARRIES),
    (
        Folder::Bases,
        "msd_stray",
        "{0,1}\n0 1\n0 -> 0\n1 -> 1\n1 1\n1 -> 2\n2 0\n* -> 0\n",
    ),
    (Folder::Bases, "msd_stray_addition", ALL),
    (
        Folder::Bases,
        "msd_forty",
        "{0,1,2,3,4,5,6,7,8,9,10,11,12,13,14,15,16,17,18,19,20,21,22,23,24,25,26,27,28,29,30,31,32,33,34,35,36,37,38,39,40}\n0 1\n* -> 0\n",
    ),
    (
        Folder::Bases,
        "msd_forty_addition",
        "{0,1,2,3,4,5,6,7,8,9,10,11,12,13,14,15,16,17,18,19,20,21,22,23,24,25,26,27,28,29,30,31,32,33,34,35,36,37,38,39,40} {0,1,2,3,4,5,6,7,8,9,10,11,12,13,14,15,16,17,18,19,20,21,22,23,24,25,26,27,28,29,30,31,32,33,34,35,36,37,38,39,40} {0,1,2,3,4,5,6,7,8,9,10,11,12,13,14,15,16,17,18,19,20,21,22,23,24,25,26,27,28,29,30,31,32,33,34,35,36,37,38,39,40}\n\
        0 1\n* * * -> 0\n",
    ),
    (
        Folder::Bases,
        "msd_seventeen",
        "{0,1,2,3,4,5,6,7,8,9,10,11,12,13,14,15,16}\n0 1\n* -> 0\n",
    ),
    (
        Folder::Bases,
        "msd_seventeen_addition",
        "{0,1,2,3,4,5,6,7,8,9,10,11,12,13,14,15,16} {0,1,2,3,4,5,6,7,8,9,10,11,12,13,14,15,16} {0,1,2,3,4,5,6,7,8,9,10,11,12,13,14,15,16}\n\
        0 1\n0 0 0 -> 0\n1 0 1 -> 0\n2 0 2 -> 0\n3 0 3 -> 0\n4 0 4 -> 0\n5 0 5 -> 0\n\
        6 0 6 -> 0\n7 0 7 -> 0\n8 0 8 -> 0\n9 0 9 -> 0\n10 0 10 -> 0\n11 0 11 -> 0\n\
        12 0 12 -> 0\n13 0 13 -> 0\n14 0 14 -> 0\n15 0 15 -> 0\n16 0 16 -> 0\n",
    ),
    (
        Folder::Bases,
        "msd_sixteen",
        "{0,1,2,3,4,5,6,7,8,9,10,11,12,13,14,15}\n0 1\n* -> 0\n",
    ),
    (
        Folder::Bases,
        "msd_sixteen_addition",
        "{0,1,2,3,4,5,6,7,8,9,10,11,12,13,14,15} {0,1,2,3,4,5,6,7,8,9,10,11,12,13,14,15} {0,1,2,3,4,5,6,7,8,9,10,11,12,13,14,15}\n\
        0 1\n0 0 0 -> 0\n1 0 1 -> 0\n2 0 2 -> 0\n3 0 3 -> 0\n4 0 4 -> 0\n5 0 5 -> 0\n\
        6 0 6 -> 0\n7 0 7 -> 0\n8 0 8 -> 0\n9 0 9 -> 0\n10 0 10 -> 0\n11 0 11 -> 0\n\
        12 0 12 -> 0\n13 0 13 -> 0\n14 0 14 -> 0\n15 0 15 -> 0\n",
    ),
];

/// Words and automata over systems.
const OTHER_FILES: &str = files![
    (
        Folder::Words,
        "F",
        "msd_zeck\n0 0\n0 -> 0\n1 -> 1\n1 1\n0 -> 0\n",
    ),
    (Folder::Words, "G", "msd_bin\n0 5\n0 -> 0\n"),
    (
        Folder::Automata,
        "b",
        "msd_five\n0 1\n* -> 0\n7 -> 1\n1 0\n",
    ),
    (Folder::Automata, "g", "msd_gone\n0 1\n"),
];

/// How many files there are.
const FILE_COUNT: usize = 85;

/// The text of this name in the code, if files have it.
pub fn text_named(name: &str) -> Option<&'static str> {
    match name {
        "BINARY" => Some(BINARY),
        "CARRIES" => Some(CARRIES),
        "RISING_CARRIES" => Some(RISING_CARRIES),
        "NO_CARRIES" => Some(NO_CARRIES),
        "ALL" => Some(ALL),
        "ZEROS" => Some(ZEROS),
        "NO_EMPTY" => Some(NO_EMPTY),
        "ZECKENDORF" => Some(ZECKENDORF),
        "ZECKENDORF_ADDER" => Some(ZECKENDORF_ADDER),
        "TRIBONACCI" => Some(TRIBONACCI),
        "TAILED" => Some(TAILED),
        "FIVE" => Some(FIVE),
        "FIVE_ADDER" => Some(FIVE_ADDER),
        "THOUSAND" => Some(THOUSAND),
        "THOUSAND_ALONE" => Some(THOUSAND_ALONE),
        "WIDE" => Some(WIDE),
        "TRIBONACCI_ADDER" => Some(TRIBONACCI_ADDER),
        _ => None,
    }
}

/// A store with the files. Its call of this number fails; none does where the number is 0.
fn store_of_files(rt: &impl Abort, alloc: Global, failing: u64) -> MemStore {
    let mut store = MemStore::new(alloc, given(rt, vec![in alloc; failing]));
    put_files(rt, &mut store, LANGUAGE_FILES);
    put_files(rt, &mut store, ADDER_FILES);
    put_files(rt, &mut store, DIRECTION_FILES);
    put_files(rt, &mut store, NAME_FILES);
    put_files(rt, &mut store, DIGIT_FILES);
    put_files(rt, &mut store, OTHER_FILES);
    given(
        rt,
        store.put(
            Folder::Bases,
            "msd_trib_addition",
            TRIBONACCI_ADDER.as_bytes(),
        ),
    );
    store
}

/// Runs a script over such a store, with the words of this command line.
pub fn run_over_files(
    rt: &impl Abort,
    alloc: Global,
    line: &str,
    script: &str,
    failing: u64,
) -> Ran {
    let store = store_of_files(rt, alloc, failing);
    run_over(rt, alloc, line, (script.as_bytes(), &SURE), store)
}

/// Asks whether 6 is a double in a system.
pub fn ask(rt: &impl Abort, alloc: Global, line: &str, name: &str) -> Ran {
    let script = given(rt, format!(in alloc; "eval a \"?{name} Ex x+x=6\";"));
    run_over_files(rt, alloc, line, &script, 0)
}

/// A status, and how many texts the store has where a run adds so many.
fn end_with(code: u8, added: usize) -> (u8, usize) {
    (code, FILE_COUNT.saturating_add(added))
}

/// Asserts that a run ended with the status that a field says, and added as many texts as the next one says.
pub fn expect_added(rt: &impl Abort, script: &str, ran: Ran, printed: &str, end: &str) {
    match numbers_of(end) {
        Some((code, added)) => expect_run(rt, script, ran, printed, end_with(code, added)),
        None => expect_bytes(rt, script, end.as_bytes(), b"a status and a number"),
    }
}

/// The end of a run of one command that prints this.
pub fn end_of(printed: &str) -> (u8, usize) {
    if printed == "TRUE\n" {
        end_with(0, 1)
    } else {
        end_with(1, 0)
    }
}

//! Words whose files are wide to read: the limit at the first steps of commands that change words.

use crate::given::expect_script;
use crate::tables::{ROW_END, files, first_field, table};

/// `B` has a 1 at each number with at most 15 digits in base 2, and 0 from there on; `O` has the digit of 8 in base 2. `copy` gives the
/// letters themselves.
const WIDE: &str = files![
    (
        Folder::Words,
        "B",
        "msd_2\n0 1\n0 -> 0\n1 -> 1\n1 1\n* -> 2\n2 1\n* -> 3\n3 1\n* -> 4\n4 1\n* -> 5\n5 1\n* -> 6\n6 1\n* -> 7\n7 1\n* -> 8\n8 1\n* -> 9\n9 1\n* -> 10\n10 1\n* -> 11\n11 1\n* -> 12\n12 1\n* -> 13\n13 1\n* -> 14\n14 1\n* -> 15\n15 1\n* -> 16\n16 0\n* -> 16\n",
    ),
    (
        Folder::Words,
        "O",
        "msd_2\n0 0\n0 -> 0\n1 -> 1\n1 0\n0 -> 2\n1 -> 3\n2 0\n0 -> 4\n1 -> 5\n3 0\n0 -> 6\n1 -> 7\n4 0\n0 -> 8\n1 -> 9\n5 0\n0 -> 10\n1 -> 11\n6 0\n0 -> 12\n1 -> 13\n7 0\n0 -> 14\n1 -> 15\n8 1\n0 -> 0\n1 -> 1\n9 1\n0 -> 2\n1 -> 3\n10 1\n0 -> 4\n1 -> 5\n11 1\n0 -> 6\n1 -> 7\n12 1\n0 -> 8\n1 -> 9\n13 1\n0 -> 10\n1 -> 11\n14 1\n0 -> 12\n1 -> 13\n15 1\n0 -> 14\n1 -> 15\n",
    ),
    (
        Folder::Transducers,
        "copy",
        "{0,1}\n0\n0 -> 0 / 0\n1 -> 0 / 1\n",
    ),
];

/// Words of a command line, and a script that has the width of its step `read` or `pad` as limit, or one less. The step `valid` is never
/// wider than `pad` over a base, and `join` never wider than the step before it.
const LIMITS: &str = table![
    (
        "walnut --states 16",
        ("transduce Z copy B:", "error 1: F19 States step 1\n", 1, 3),
    ),
    (
        "walnut --states 17",
        (
            "transduce Z copy B:",
            "step 1 read 17 17\nstep 2 pad 17 17\nstep 3 valid 17 17\nstep 4 transduce 17 17\nstep 5 reverse 17 17\n",
            0,
            4,
        ),
    ),
    (
        "walnut --states 16",
        ("transduce Z copy O:", "error 1: F19 States step 2\n", 1, 3),
    ),
    (
        "walnut --states 17",
        (
            "transduce Z copy O:",
            "step 1 read 16 16\nstep 2 pad 17 16\nstep 3 valid 16 16\nstep 4 transduce 6 6\nstep 5 reverse 16 16\n",
            0,
            4,
        ),
    ),
    (
        "walnut --states 16",
        ("convert Z msd_4 B:", "error 1: F19 States step 1\n", 1, 3),
    ),
    (
        "walnut --states 17",
        (
            "convert Z msd_4 B:",
            "step 1 read 17 17\nstep 2 pad 17 17\nstep 3 valid 17 17\nstep 4 reverse 17 17\nstep 5 join 10 10\nstep 6 reverse 10 10\n",
            0,
            4,
        ),
    ),
    (
        "walnut --states 16",
        ("convert Z lsd_2 B:", "error 1: F19 States step 1\n", 1, 3),
    ),
    (
        "walnut --states 17",
        (
            "convert Z lsd_2 B:",
            "step 1 read 17 17\nstep 2 pad 17 17\nstep 3 valid 17 17\nstep 4 reverse 17 17\n",
            0,
            4,
        ),
    ),
    (
        "walnut --states 16",
        ("convert Z lsd_2 O:", "error 1: F19 States step 2\n", 1, 3),
    ),
    (
        "walnut --states 17",
        (
            "convert Z lsd_2 O:",
            "step 1 read 16 16\nstep 2 pad 17 16\nstep 3 valid 16 16\nstep 4 reverse 6 6\n",
            0,
            4,
        ),
    ),
    (
        "walnut --states 16",
        ("convert Z msd_8 O:", "error 1: F19 States step 2\n", 1, 3),
    ),
    (
        "walnut --states 17",
        (
            "convert Z msd_8 O:",
            "step 1 read 16 16\nstep 2 pad 17 16\nstep 3 valid 16 16\nstep 4 reverse 6 6\nstep 5 join 4 4\nstep 6 reverse 4 4\n",
            0,
            4,
        ),
    ),
];

#[test]
fn files_past_the_limit_are_refused(rt: HostRuntime) {
    for row in LIMITS.split_terminator(ROW_END) {
        let (line, row) = first_field(row);
        expect_script(&rt, rt.alloc(), WIDE, line, row);
    }
}

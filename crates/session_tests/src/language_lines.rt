//! The lines of the steps of language commands, from an independent program.

use crate::given::expect_scripts;
use crate::language_files::languages;
use crate::tables::table;

/// Scripts that show their steps.
const PRINTED: &str = table![
    ("star m ab:", "step 1 read 3 2\nstep 2 star 3 2\n", 0, 19),
    ("star m none:", "step 1 read 2 1\nstep 2 star 2 1\n", 0, 19),
    ("star m empty:", "step 1 read 2 1\nstep 2 star 2 1\n", 0, 19),
    ("star m zeros:", "step 1 read 2 1\nstep 2 star 2 1\n", 0, 19),
    ("star m some:", "step 1 read 3 2\nstep 2 star 3 1\n", 0, 19),
    ("star m one:", "step 1 read 3 2\nstep 2 star 3 1\n", 0, 19),
    ("star m end:", "step 1 read 4 4\nstep 2 star 6 4\n", 0, 19),
    ("star m two:", "step 1 read 4 3\nstep 2 star 3 2\n", 0, 19),
    (
        "reverse m ab:",
        "step 1 read 3 2\nstep 2 reverse 3 2\n",
        0,
        19,
    ),
    (
        "reverse m none:",
        "step 1 read 2 1\nstep 2 reverse 1 1\n",
        0,
        19,
    ),
    (
        "reverse m empty:",
        "step 1 read 2 1\nstep 2 reverse 2 1\n",
        0,
        19,
    ),
    (
        "reverse m zeros:",
        "step 1 read 2 1\nstep 2 reverse 2 1\n",
        0,
        19,
    ),
    (
        "reverse m some:",
        "step 1 read 3 2\nstep 2 reverse 3 2\n",
        0,
        19,
    ),
    (
        "reverse m one:",
        "step 1 read 3 2\nstep 2 reverse 3 2\n",
        0,
        19,
    ),
    (
        "reverse m end:",
        "step 1 read 4 4\nstep 2 reverse 4 3\n",
        0,
        19,
    ),
    (
        "reverse m two:",
        "step 1 read 4 3\nstep 2 reverse 4 3\n",
        0,
        19,
    ),
    ("union m ab:", "step 1 read 3 2\n", 0, 19),
    (
        "union m ab ab:",
        "step 1 read 3 2\nstep 2 product 3 2\n",
        0,
        19,
    ),
    (
        "union m ab one:",
        "step 1 read 3 2\nstep 2 read 3 2\nstep 3 product 5 2\n",
        0,
        19,
    ),
    (
        "union m one ab:",
        "step 1 read 3 2\nstep 2 read 3 2\nstep 3 product 5 2\n",
        0,
        19,
    ),
    (
        "union m none ab:",
        "step 1 read 2 1\nstep 2 read 3 2\nstep 3 product 3 2\n",
        0,
        19,
    ),
    (
        "union m ab none:",
        "step 1 read 3 2\nstep 2 read 2 1\nstep 3 product 3 2\n",
        0,
        19,
    ),
    (
        "union m none none:",
        "step 1 read 2 1\nstep 2 product 1 1\n",
        0,
        19,
    ),
    (
        "union m empty ab:",
        "step 1 read 2 1\nstep 2 read 3 2\nstep 3 product 4 3\n",
        0,
        19,
    ),
    (
        "union m ab empty:",
        "step 1 read 3 2\nstep 2 read 2 1\nstep 3 product 4 3\n",
        0,
        19,
    ),
    (
        "union m zeros some:",
        "step 1 read 2 1\nstep 2 read 3 2\nstep 3 product 3 1\n",
        0,
        19,
    ),
    (
        "union m some zeros:",
        "step 1 read 3 2\nstep 2 read 2 1\nstep 3 product 3 1\n",
        0,
        19,
    ),
    (
        "union m end two:",
        "step 1 read 4 4\nstep 2 read 4 3\nstep 3 product 11 5\n",
        0,
        19,
    ),
    (
        "union m two end:",
        "step 1 read 4 3\nstep 2 read 4 4\nstep 3 product 11 5\n",
        0,
        19,
    ),
    (
        "union m ab ab ab:",
        "step 1 read 3 2\nstep 2 product 3 2\nstep 3 product 3 2\n",
        0,
        19,
    ),
    (
        "union m ab one end:",
        "step 1 read 3 2\nstep 2 read 3 2\nstep 3 read 4 4\nstep 4 product 5 2\nstep 5 product 6 5\n",
        0,
        19,
    ),
    (
        "union m end ab one:",
        "step 1 read 4 4\nstep 2 read 3 2\nstep 3 read 3 2\nstep 4 product 6 5\nstep 5 product 7 5\n",
        0,
        19,
    ),
    (
        "union m none ab two:",
        "step 1 read 2 1\nstep 2 read 3 2\nstep 3 read 4 3\nstep 4 product 3 2\nstep 5 product 9 6\n",
        0,
        19,
    ),
    (
        "union m ab none two:",
        "step 1 read 3 2\nstep 2 read 2 1\nstep 3 read 4 3\nstep 4 product 3 2\nstep 5 product 9 6\n",
        0,
        19,
    ),
    (
        "union m some one some:",
        "step 1 read 3 2\nstep 2 read 3 2\nstep 3 product 4 3\nstep 4 product 4 3\n",
        0,
        19,
    ),
    (
        "union m two two two two:",
        "step 1 read 4 3\nstep 2 product 4 3\nstep 3 product 4 3\nstep 4 product 4 3\n",
        0,
        19,
    ),
    ("intersect m ab:", "step 1 read 3 2\n", 0, 19),
    (
        "intersect m ab ab:",
        "step 1 read 3 2\nstep 2 product 3 2\n",
        0,
        19,
    ),
    (
        "intersect m ab one:",
        "step 1 read 3 2\nstep 2 read 3 2\nstep 3 product 5 2\n",
        0,
        19,
    ),
    (
        "intersect m one ab:",
        "step 1 read 3 2\nstep 2 read 3 2\nstep 3 product 5 2\n",
        0,
        19,
    ),
    (
        "intersect m none ab:",
        "step 1 read 2 1\nstep 2 read 3 2\nstep 3 product 3 1\n",
        0,
        19,
    ),
    (
        "intersect m ab none:",
        "step 1 read 3 2\nstep 2 read 2 1\nstep 3 product 3 1\n",
        0,
        19,
    ),
    (
        "intersect m none none:",
        "step 1 read 2 1\nstep 2 product 1 1\n",
        0,
        19,
    ),
    (
        "intersect m empty ab:",
        "step 1 read 2 1\nstep 2 read 3 2\nstep 3 product 4 1\n",
        0,
        19,
    ),
    (
        "intersect m ab empty:",
        "step 1 read 3 2\nstep 2 read 2 1\nstep 3 product 4 1\n",
        0,
        19,
    ),
    (
        "intersect m zeros some:",
        "step 1 read 2 1\nstep 2 read 3 2\nstep 3 product 3 2\n",
        0,
        19,
    ),
    (
        "intersect m some zeros:",
        "step 1 read 3 2\nstep 2 read 2 1\nstep 3 product 3 2\n",
        0,
        19,
    ),
    (
        "intersect m end two:",
        "step 1 read 4 4\nstep 2 read 4 3\nstep 3 product 11 3\n",
        0,
        19,
    ),
    (
        "intersect m two end:",
        "step 1 read 4 3\nstep 2 read 4 4\nstep 3 product 11 3\n",
        0,
        19,
    ),
    (
        "intersect m ab ab ab:",
        "step 1 read 3 2\nstep 2 product 3 2\nstep 3 product 3 2\n",
        0,
        19,
    ),
    (
        "intersect m ab one end:",
        "step 1 read 3 2\nstep 2 read 3 2\nstep 3 read 4 4\nstep 4 product 5 2\nstep 5 product 6 1\n",
        0,
        19,
    ),
    (
        "intersect m end ab one:",
        "step 1 read 4 4\nstep 2 read 3 2\nstep 3 read 3 2\nstep 4 product 6 1\nstep 5 product 3 1\n",
        0,
        19,
    ),
    (
        "intersect m none ab two:",
        "step 1 read 2 1\nstep 2 read 3 2\nstep 3 read 4 3\nstep 4 product 3 1\nstep 5 product 4 1\n",
        0,
        19,
    ),
    (
        "intersect m ab none two:",
        "step 1 read 3 2\nstep 2 read 2 1\nstep 3 read 4 3\nstep 4 product 3 1\nstep 5 product 4 1\n",
        0,
        19,
    ),
    (
        "intersect m some one some:",
        "step 1 read 3 2\nstep 2 read 3 2\nstep 3 product 4 1\nstep 4 product 3 1\n",
        0,
        19,
    ),
    (
        "intersect m two two two two:",
        "step 1 read 4 3\nstep 2 product 4 3\nstep 3 product 4 3\nstep 4 product 4 3\n",
        0,
        19,
    ),
    ("concat m ab:", "step 1 read 3 2\n", 0, 19),
    (
        "concat m ab ab:",
        "step 1 read 3 2\nstep 2 concat 5 3\n",
        0,
        19,
    ),
    (
        "concat m ab one:",
        "step 1 read 3 2\nstep 2 read 3 2\nstep 3 concat 4 3\n",
        0,
        19,
    ),
    (
        "concat m one ab:",
        "step 1 read 3 2\nstep 2 read 3 2\nstep 3 concat 5 3\n",
        0,
        19,
    ),
    (
        "concat m none ab:",
        "step 1 read 2 1\nstep 2 read 3 2\nstep 3 concat 1 1\n",
        0,
        19,
    ),
    (
        "concat m ab none:",
        "step 1 read 3 2\nstep 2 read 2 1\nstep 3 concat 3 1\n",
        0,
        19,
    ),
    (
        "concat m none none:",
        "step 1 read 2 1\nstep 2 concat 1 1\n",
        0,
        19,
    ),
    (
        "concat m empty ab:",
        "step 1 read 2 1\nstep 2 read 3 2\nstep 3 concat 4 2\n",
        0,
        19,
    ),
    (
        "concat m ab empty:",
        "step 1 read 3 2\nstep 2 read 2 1\nstep 3 concat 3 2\n",
        0,
        19,
    ),
    (
        "concat m zeros some:",
        "step 1 read 2 1\nstep 2 read 3 2\nstep 3 concat 3 2\n",
        0,
        19,
    ),
    (
        "concat m some zeros:",
        "step 1 read 3 2\nstep 2 read 2 1\nstep 3 concat 3 2\n",
        0,
        19,
    ),
    (
        "concat m end two:",
        "step 1 read 4 4\nstep 2 read 4 3\nstep 3 concat 16 16\n",
        0,
        19,
    ),
    (
        "concat m two end:",
        "step 1 read 4 3\nstep 2 read 4 4\nstep 3 concat 7 6\n",
        0,
        19,
    ),
    (
        "concat m ab ab ab:",
        "step 1 read 3 2\nstep 2 concat 5 3\nstep 3 concat 6 4\n",
        0,
        19,
    ),
    (
        "concat m ab one end:",
        "step 1 read 3 2\nstep 2 read 3 2\nstep 3 read 4 4\nstep 4 concat 4 3\nstep 5 concat 8 6\n",
        0,
        19,
    ),
    (
        "concat m end ab one:",
        "step 1 read 4 4\nstep 2 read 3 2\nstep 3 read 3 2\nstep 4 concat 7 6\nstep 5 concat 8 8\n",
        0,
        19,
    ),
    (
        "concat m none ab two:",
        "step 1 read 2 1\nstep 2 read 3 2\nstep 3 read 4 3\nstep 4 concat 1 1\nstep 5 concat 1 1\n",
        0,
        19,
    ),
    (
        "concat m ab none two:",
        "step 1 read 3 2\nstep 2 read 2 1\nstep 3 read 4 3\nstep 4 concat 3 1\nstep 5 concat 1 1\n",
        0,
        19,
    ),
    (
        "concat m some one some:",
        "step 1 read 3 2\nstep 2 read 3 2\nstep 3 concat 4 3\nstep 4 concat 5 4\n",
        0,
        19,
    ),
    (
        "concat m two two two two:",
        "step 1 read 4 3\nstep 2 concat 6 5\nstep 3 concat 8 7\nstep 4 concat 10 9\n",
        0,
        19,
    ),
];

/// Scripts in which commands read what others made.
const SEQUENCES: &str = table![
    (
        "union m ab one; star m m; reverse m m:",
        "step 1 read 2 2\nstep 2 reverse 3 2\n",
        0,
        19,
    ),
    (
        "reg b {0,1} \"(0|1)*11\"; star s b; union u s b ab;",
        "",
        0,
        21,
    ),
    (
        "star s ab; reg ab {0,1} \"0\"; eval t \"1=1\";",
        "TRUE\n",
        0,
        20,
    ),
    ("union u ab ; intersect i u\nab; concat c i u;", "", 0, 21),
];

#[test]
fn languages_show_their_steps(rt: HostRuntime) {
    expect_scripts(&rt, rt.alloc(), languages(), "walnut", PRINTED);
    expect_scripts(&rt, rt.alloc(), languages(), "walnut", SEQUENCES);
}

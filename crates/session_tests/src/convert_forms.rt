//! One word over all bases of a root, in both directions: each form is made of each other one, and its text is that of an independent
//! program, whose letters below 10,000 are those of a count.

use crate::answers::given;
use crate::given::run_with;
use crate::whole::{Ran, code_of, expect, expect_stored, expect_stores};
use std::alloc::Global;
use std::process::Abort;
use wal_outside::Folder;

/// A system, and the text of the word over it.
type FormRow = (&'static str, &'static str);

/// The Thue-Morse word over the powers of 2.
static TWOS: [FormRow; 10] = [
    (
        "msd_2",
        "msd_2\n\n0 0\n0 -> 0\n1 -> 1\n\n1 1\n0 -> 1\n1 -> 0\n",
    ),
    (
        "lsd_2",
        "lsd_2\n\n0 0\n0 -> 0\n1 -> 1\n\n1 1\n0 -> 1\n1 -> 0\n",
    ),
    (
        "msd_4",
        "msd_4\n\n0 0\n0 -> 0\n1 -> 1\n2 -> 1\n3 -> 0\n\n1 1\n0 -> 1\n1 -> 0\n2 -> 0\n3 -> 1\n",
    ),
    (
        "lsd_4",
        "lsd_4\n\n0 0\n0 -> 0\n1 -> 1\n2 -> 1\n3 -> 0\n\n1 1\n0 -> 1\n1 -> 0\n2 -> 0\n3 -> 1\n",
    ),
    (
        "msd_8",
        "msd_8\n\n0 0\n0 -> 0\n1 -> 1\n2 -> 1\n3 -> 0\n4 -> 1\n5 -> 0\n6 -> 0\n7 -> 1\n\n1 1\n0 -> 1\n1 -> 0\n2 -> 0\n3 -> 1\n4 -> 0\n5 -> 1\n6 -> 1\n7 -> 0\n",
    ),
    (
        "lsd_8",
        "lsd_8\n\n0 0\n0 -> 0\n1 -> 1\n2 -> 1\n3 -> 0\n4 -> 1\n5 -> 0\n6 -> 0\n7 -> 1\n\n1 1\n0 -> 1\n1 -> 0\n2 -> 0\n3 -> 1\n4 -> 0\n5 -> 1\n6 -> 1\n7 -> 0\n",
    ),
    (
        "msd_16",
        "msd_16\n\n0 0\n0 -> 0\n1 -> 1\n2 -> 1\n3 -> 0\n4 -> 1\n5 -> 0\n6 -> 0\n7 -> 1\n8 -> 1\n9 -> 0\n10 -> 0\n11 -> 1\n12 -> 0\n13 -> 1\n14 -> 1\n15 -> 0\n\n1 1\n0 -> 1\n1 -> 0\n2 -> 0\n3 -> 1\n4 -> 0\n5 -> 1\n6 -> 1\n7 -> 0\n8 -> 0\n9 -> 1\n10 -> 1\n11 -> 0\n12 -> 1\n13 -> 0\n14 -> 0\n15 -> 1\n",
    ),
    (
        "lsd_16",
        "lsd_16\n\n0 0\n0 -> 0\n1 -> 1\n2 -> 1\n3 -> 0\n4 -> 1\n5 -> 0\n6 -> 0\n7 -> 1\n8 -> 1\n9 -> 0\n10 -> 0\n11 -> 1\n12 -> 0\n13 -> 1\n14 -> 1\n15 -> 0\n\n1 1\n0 -> 1\n1 -> 0\n2 -> 0\n3 -> 1\n4 -> 0\n5 -> 1\n6 -> 1\n7 -> 0\n8 -> 0\n9 -> 1\n10 -> 1\n11 -> 0\n12 -> 1\n13 -> 0\n14 -> 0\n15 -> 1\n",
    ),
    (
        "msd_32",
        "msd_32\n\n0 0\n0 -> 0\n1 -> 1\n2 -> 1\n3 -> 0\n4 -> 1\n5 -> 0\n6 -> 0\n7 -> 1\n8 -> 1\n9 -> 0\n10 -> 0\n11 -> 1\n12 -> 0\n13 -> 1\n14 -> 1\n15 -> 0\n16 -> 1\n17 -> 0\n18 -> 0\n19 -> 1\n20 -> 0\n21 -> 1\n22 -> 1\n23 -> 0\n24 -> 0\n25 -> 1\n26 -> 1\n27 -> 0\n28 -> 1\n29 -> 0\n30 -> 0\n31 -> 1\n\n1 1\n0 -> 1\n1 -> 0\n2 -> 0\n3 -> 1\n4 -> 0\n5 -> 1\n6 -> 1\n7 -> 0\n8 -> 0\n9 -> 1\n10 -> 1\n11 -> 0\n12 -> 1\n13 -> 0\n14 -> 0\n15 -> 1\n16 -> 0\n17 -> 1\n18 -> 1\n19 -> 0\n20 -> 1\n21 -> 0\n22 -> 0\n23 -> 1\n24 -> 1\n25 -> 0\n26 -> 0\n27 -> 1\n28 -> 0\n29 -> 1\n30 -> 1\n31 -> 0\n",
    ),
    (
        "lsd_32",
        "lsd_32\n\n0 0\n0 -> 0\n1 -> 1\n2 -> 1\n3 -> 0\n4 -> 1\n5 -> 0\n6 -> 0\n7 -> 1\n8 -> 1\n9 -> 0\n10 -> 0\n11 -> 1\n12 -> 0\n13 -> 1\n14 -> 1\n15 -> 0\n16 -> 1\n17 -> 0\n18 -> 0\n19 -> 1\n20 -> 0\n21 -> 1\n22 -> 1\n23 -> 0\n24 -> 0\n25 -> 1\n26 -> 1\n27 -> 0\n28 -> 1\n29 -> 0\n30 -> 0\n31 -> 1\n\n1 1\n0 -> 1\n1 -> 0\n2 -> 0\n3 -> 1\n4 -> 0\n5 -> 1\n6 -> 1\n7 -> 0\n8 -> 0\n9 -> 1\n10 -> 1\n11 -> 0\n12 -> 1\n13 -> 0\n14 -> 0\n15 -> 1\n16 -> 0\n17 -> 1\n18 -> 1\n19 -> 0\n20 -> 1\n21 -> 0\n22 -> 0\n23 -> 1\n24 -> 1\n25 -> 0\n26 -> 0\n27 -> 1\n28 -> 0\n29 -> 1\n30 -> 1\n31 -> 0\n",
    ),
];

/// The sum of the digits in base 3, modulo 3, over the powers of 3.
static THREES: [FormRow; 6] = [
    (
        "msd_3",
        "msd_3\n\n0 0\n0 -> 0\n1 -> 1\n2 -> 2\n\n1 1\n0 -> 1\n1 -> 2\n2 -> 0\n\n2 2\n0 -> 2\n1 -> 0\n2 -> 1\n",
    ),
    (
        "lsd_3",
        "lsd_3\n\n0 0\n0 -> 0\n1 -> 1\n2 -> 2\n\n1 1\n0 -> 1\n1 -> 2\n2 -> 0\n\n2 2\n0 -> 2\n1 -> 0\n2 -> 1\n",
    ),
    (
        "msd_9",
        "msd_9\n\n0 0\n0 -> 0\n1 -> 1\n2 -> 2\n3 -> 1\n4 -> 2\n5 -> 0\n6 -> 2\n7 -> 0\n8 -> 1\n\n1 1\n0 -> 1\n1 -> 2\n2 -> 0\n3 -> 2\n4 -> 0\n5 -> 1\n6 -> 0\n7 -> 1\n8 -> 2\n\n2 2\n0 -> 2\n1 -> 0\n2 -> 1\n3 -> 0\n4 -> 1\n5 -> 2\n6 -> 1\n7 -> 2\n8 -> 0\n",
    ),
    (
        "lsd_9",
        "lsd_9\n\n0 0\n0 -> 0\n1 -> 1\n2 -> 2\n3 -> 1\n4 -> 2\n5 -> 0\n6 -> 2\n7 -> 0\n8 -> 1\n\n1 1\n0 -> 1\n1 -> 2\n2 -> 0\n3 -> 2\n4 -> 0\n5 -> 1\n6 -> 0\n7 -> 1\n8 -> 2\n\n2 2\n0 -> 2\n1 -> 0\n2 -> 1\n3 -> 0\n4 -> 1\n5 -> 2\n6 -> 1\n7 -> 2\n8 -> 0\n",
    ),
    (
        "msd_27",
        "msd_27\n\n0 0\n0 -> 0\n1 -> 1\n2 -> 2\n3 -> 1\n4 -> 2\n5 -> 0\n6 -> 2\n7 -> 0\n8 -> 1\n9 -> 1\n10 -> 2\n11 -> 0\n12 -> 2\n13 -> 0\n14 -> 1\n15 -> 0\n16 -> 1\n17 -> 2\n18 -> 2\n19 -> 0\n20 -> 1\n21 -> 0\n22 -> 1\n23 -> 2\n24 -> 1\n25 -> 2\n26 -> 0\n\n1 1\n0 -> 1\n1 -> 2\n2 -> 0\n3 -> 2\n4 -> 0\n5 -> 1\n6 -> 0\n7 -> 1\n8 -> 2\n9 -> 2\n10 -> 0\n11 -> 1\n12 -> 0\n13 -> 1\n14 -> 2\n15 -> 1\n16 -> 2\n17 -> 0\n18 -> 0\n19 -> 1\n20 -> 2\n21 -> 1\n22 -> 2\n23 -> 0\n24 -> 2\n25 -> 0\n26 -> 1\n\n2 2\n0 -> 2\n1 -> 0\n2 -> 1\n3 -> 0\n4 -> 1\n5 -> 2\n6 -> 1\n7 -> 2\n8 -> 0\n9 -> 0\n10 -> 1\n11 -> 2\n12 -> 1\n13 -> 2\n14 -> 0\n15 -> 2\n16 -> 0\n17 -> 1\n18 -> 1\n19 -> 2\n20 -> 0\n21 -> 2\n22 -> 0\n23 -> 1\n24 -> 0\n25 -> 1\n26 -> 2\n",
    ),
    (
        "lsd_27",
        "lsd_27\n\n0 0\n0 -> 0\n1 -> 1\n2 -> 2\n3 -> 1\n4 -> 2\n5 -> 0\n6 -> 2\n7 -> 0\n8 -> 1\n9 -> 1\n10 -> 2\n11 -> 0\n12 -> 2\n13 -> 0\n14 -> 1\n15 -> 0\n16 -> 1\n17 -> 2\n18 -> 2\n19 -> 0\n20 -> 1\n21 -> 0\n22 -> 1\n23 -> 2\n24 -> 1\n25 -> 2\n26 -> 0\n\n1 1\n0 -> 1\n1 -> 2\n2 -> 0\n3 -> 2\n4 -> 0\n5 -> 1\n6 -> 0\n7 -> 1\n8 -> 2\n9 -> 2\n10 -> 0\n11 -> 1\n12 -> 0\n13 -> 1\n14 -> 2\n15 -> 1\n16 -> 2\n17 -> 0\n18 -> 0\n19 -> 1\n20 -> 2\n21 -> 1\n22 -> 2\n23 -> 0\n24 -> 2\n25 -> 0\n26 -> 1\n\n2 2\n0 -> 2\n1 -> 0\n2 -> 1\n3 -> 0\n4 -> 1\n5 -> 2\n6 -> 1\n7 -> 2\n8 -> 0\n9 -> 0\n10 -> 1\n11 -> 2\n12 -> 1\n13 -> 2\n14 -> 0\n15 -> 2\n16 -> 0\n17 -> 1\n18 -> 1\n19 -> 2\n20 -> 0\n21 -> 2\n22 -> 0\n23 -> 1\n24 -> 0\n25 -> 1\n26 -> 2\n",
    ),
];

/// The Rudin-Shapiro word over the first powers of 2.
static RUDIN_SHAPIRO: [FormRow; 6] = [
    (
        "msd_2",
        "msd_2\n\n0 0\n0 -> 0\n1 -> 1\n\n1 0\n0 -> 0\n1 -> 2\n\n2 1\n0 -> 3\n1 -> 1\n\n3 1\n0 -> 3\n1 -> 2\n",
    ),
    (
        "lsd_2",
        "lsd_2\n\n0 0\n0 -> 0\n1 -> 1\n\n1 0\n0 -> 0\n1 -> 2\n\n2 1\n0 -> 3\n1 -> 1\n\n3 1\n0 -> 3\n1 -> 2\n",
    ),
    (
        "msd_4",
        "msd_4\n\n0 0\n0 -> 0\n1 -> 1\n2 -> 0\n3 -> 2\n\n1 0\n0 -> 0\n1 -> 1\n2 -> 3\n3 -> 1\n\n2 1\n0 -> 3\n1 -> 2\n2 -> 0\n3 -> 2\n\n3 1\n0 -> 3\n1 -> 2\n2 -> 3\n3 -> 1\n",
    ),
    (
        "lsd_4",
        "lsd_4\n\n0 0\n0 -> 0\n1 -> 0\n2 -> 1\n3 -> 2\n\n1 0\n0 -> 0\n1 -> 3\n2 -> 1\n3 -> 1\n\n2 1\n0 -> 3\n1 -> 0\n2 -> 2\n3 -> 2\n\n3 1\n0 -> 3\n1 -> 3\n2 -> 2\n3 -> 1\n",
    ),
    (
        "msd_8",
        "msd_8\n\n0 0\n0 -> 0\n1 -> 1\n2 -> 0\n3 -> 2\n4 -> 0\n5 -> 1\n6 -> 3\n7 -> 1\n\n1 0\n0 -> 0\n1 -> 1\n2 -> 0\n3 -> 2\n4 -> 3\n5 -> 2\n6 -> 0\n7 -> 2\n\n2 1\n0 -> 3\n1 -> 2\n2 -> 3\n3 -> 1\n4 -> 0\n5 -> 1\n6 -> 3\n7 -> 1\n\n3 1\n0 -> 3\n1 -> 2\n2 -> 3\n3 -> 1\n4 -> 3\n5 -> 2\n6 -> 0\n7 -> 2\n",
    ),
    (
        "lsd_8",
        "lsd_8\n\n0 0\n0 -> 0\n1 -> 0\n2 -> 0\n3 -> 1\n4 -> 2\n5 -> 2\n6 -> 3\n7 -> 2\n\n1 1\n0 -> 1\n1 -> 1\n2 -> 1\n3 -> 0\n4 -> 3\n5 -> 3\n6 -> 2\n7 -> 3\n\n2 0\n0 -> 0\n1 -> 1\n2 -> 0\n3 -> 0\n4 -> 2\n5 -> 3\n6 -> 3\n7 -> 3\n\n3 1\n0 -> 1\n1 -> 0\n2 -> 1\n3 -> 1\n4 -> 3\n5 -> 2\n6 -> 2\n7 -> 2\n",
    ),
];

/// A run that changes a word to a system, and what comes of it back.
fn there_and_back(rt: &impl Abort, alloc: Global, from: &FormRow, to: &FormRow) -> Ran {
    let script = given(
        rt,
        format!(in alloc;
            "convert There {} Old; convert Back {} There;",
            to.0, from.0
        ),
    );
    run_with(rt, alloc, (Folder::Words, "Old", from.1), &script)
}

/// Asserts that a word over one system is changed to that over another, and back.
fn expect_changed(rt: &impl Abort, alloc: Global, from: &FormRow, to: &FormRow) {
    let ran = there_and_back(rt, alloc, from, to);
    expect(rt, from.0, &code_of(&ran), &0);
    expect_stored(rt, &ran, (Folder::Words, "There"), to.1);
    expect_stores(rt, ran, (Folder::Words, "Back"), from.1);
}

/// Asserts that a word over one system is changed to that over each of these, and back.
fn expect_changed_to_each(rt: &impl Abort, alloc: Global, from: &FormRow, forms: &[FormRow]) {
    for to in forms {
        expect_changed(rt, alloc, from, to);
    }
}

/// Asserts that each form of a word is made of each other one.
fn expect_all_changed(rt: &impl Abort, alloc: Global, forms: &[FormRow]) {
    for from in forms {
        expect_changed_to_each(rt, alloc, from, forms);
    }
}

#[test]
fn words_over_powers_of_two_are_changed_and_back(rt: HostRuntime) {
    expect_all_changed(&rt, rt.alloc(), &TWOS);
    expect_all_changed(&rt, rt.alloc(), &RUDIN_SHAPIRO);
}

#[test]
fn words_over_powers_of_three_are_changed_and_back(rt: HostRuntime) {
    expect_all_changed(&rt, rt.alloc(), &THREES);
}

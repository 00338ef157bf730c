//! The words that commands make of morphisms, as they are stored.

use crate::given::expect_texts;
use crate::tables::table;

/// The words that are stored: that of Axel Thue and Marston Morse, the period-doubling word, words of four letters for those of
/// Walter Rudin and Harold Shapiro, of paperfolding and of Michael Baum and Melvin Sweet, and others.
const STORED: &str = table![
    (
        "morphism h \"0->01 1->10\"; promote W h:",
        Folder::Words,
        "W",
        "msd_2\n\n0 0\n0 -> 0\n1 -> 1\n\n1 1\n0 -> 1\n1 -> 0\n",
    ),
    (
        "morphism h \"0->01 1->00\"; promote W h:",
        Folder::Words,
        "W",
        "msd_2\n\n0 0\n0 -> 0\n1 -> 1\n\n1 1\n0 -> 0\n1 -> 0\n",
    ),
    (
        "morphism h \"0->01 1->11\"; promote W h:",
        Folder::Words,
        "W",
        "msd_2\n\n0 0\n0 -> 0\n1 -> 1\n\n1 1\n0 -> 1\n1 -> 1\n",
    ),
    (
        "morphism h \"0->00\"; promote W h:",
        Folder::Words,
        "W",
        "msd_2\n\n0 0\n0 -> 0\n1 -> 0\n",
    ),
    (
        "morphism h \"0->00 1->11\"; promote W h:",
        Folder::Words,
        "W",
        "msd_2\n\n0 0\n0 -> 0\n1 -> 0\n",
    ),
    (
        "morphism h \"0->01 1->02 2->31 3->32\"; promote W h:",
        Folder::Words,
        "W",
        "msd_2\n\n0 0\n0 -> 0\n1 -> 1\n\n1 1\n0 -> 0\n1 -> 2\n\n2 2\n0 -> 3\n1 -> 1\n\n3 3\n0 -> 3\n1 -> 2\n",
    ),
    (
        "morphism h \"0->01 1->21 2->03 3->23\"; promote W h:",
        Folder::Words,
        "W",
        "msd_2\n\n0 0\n0 -> 0\n1 -> 1\n\n1 1\n0 -> 2\n1 -> 1\n\n2 2\n0 -> 0\n1 -> 3\n\n3 3\n0 -> 2\n1 -> 3\n",
    ),
    (
        "morphism h \"0->01 1->21 2->13 3->33\"; promote W h:",
        Folder::Words,
        "W",
        "msd_2\n\n0 0\n0 -> 0\n1 -> 1\n\n1 1\n0 -> 2\n1 -> 1\n\n2 2\n0 -> 1\n1 -> 3\n\n3 3\n0 -> 3\n1 -> 3\n",
    ),
    (
        "morphism h \"0->001 1->110\"; promote W h:",
        Folder::Words,
        "W",
        "msd_3\n\n0 0\n0 -> 0\n1 -> 0\n2 -> 1\n\n1 1\n0 -> 1\n1 -> 1\n2 -> 0\n",
    ),
    (
        "morphism h \"0->001 1->011\"; promote W h:",
        Folder::Words,
        "W",
        "msd_3\n\n0 0\n0 -> 0\n1 -> 0\n2 -> 1\n\n1 1\n0 -> 0\n1 -> 1\n2 -> 1\n",
    ),
    (
        "morphism h \"0->010 1->111\"; promote W h:",
        Folder::Words,
        "W",
        "msd_3\n\n0 0\n0 -> 0\n1 -> 1\n2 -> 0\n\n1 1\n0 -> 1\n1 -> 1\n2 -> 1\n",
    ),
    (
        "morphism h \"0->012 1->120 2->201\"; promote W h:",
        Folder::Words,
        "W",
        "msd_3\n\n0 0\n0 -> 0\n1 -> 1\n2 -> 2\n\n1 1\n0 -> 1\n1 -> 2\n2 -> 0\n\n2 2\n0 -> 2\n1 -> 0\n2 -> 1\n",
    ),
    (
        "morphism h \"0->012 1->002 2->011\"; promote W h:",
        Folder::Words,
        "W",
        "msd_3\n\n0 0\n0 -> 0\n1 -> 1\n2 -> 2\n\n1 1\n0 -> 0\n1 -> 0\n2 -> 2\n\n2 2\n0 -> 0\n1 -> 1\n2 -> 1\n",
    ),
    (
        "morphism h \"0->021 1->102 2->210\"; promote W h:",
        Folder::Words,
        "W",
        "msd_3\n\n0 0\n0 -> 0\n1 -> 1\n2 -> 2\n\n1 2\n0 -> 1\n1 -> 2\n2 -> 0\n\n2 1\n0 -> 2\n1 -> 0\n2 -> 1\n",
    ),
    (
        "morphism h \"0->0[-1] [-1]->[-1]0\"; promote W h:",
        Folder::Words,
        "W",
        "msd_2\n\n0 0\n0 -> 0\n1 -> 1\n\n1 -1\n0 -> 1\n1 -> 0\n",
    ),
    (
        "morphism h \"0->0[2147483647] [2147483647]->[-2147483648]0 [-2147483648]->00\"; promote W h:",
        Folder::Words,
        "W",
        "msd_2\n\n0 0\n0 -> 0\n1 -> 1\n\n1 2147483647\n0 -> 2\n1 -> 0\n\n2 -2147483648\n0 -> 0\n1 -> 0\n",
    ),
    (
        "morphism h \"0->05 5->50 7->07 [-3]->55\"; promote W h:",
        Folder::Words,
        "W",
        "msd_2\n\n0 0\n0 -> 0\n1 -> 1\n\n1 5\n0 -> 1\n1 -> 0\n",
    ),
    (
        "morphism h \"0->02 1->20 2->02\"; promote W h:",
        Folder::Words,
        "W",
        "msd_2\n\n0 0\n0 -> 0\n1 -> 1\n\n1 2\n0 -> 0\n1 -> 1\n",
    ),
    (
        "morphism h \"0->01 1->23 2->45 3->32 4->54 5->10\"; promote W h:",
        Folder::Words,
        "W",
        "msd_2\n\n0 0\n0 -> 0\n1 -> 1\n\n1 1\n0 -> 2\n1 -> 3\n\n2 2\n0 -> 4\n1 -> 5\n\n3 3\n0 -> 3\n1 -> 2\n\n4 4\n0 -> 5\n1 -> 4\n\n5 5\n0 -> 1\n1 -> 0\n",
    ),
    (
        "morphism h \"0->01 1->23 2->01 3->23\"; promote W h:",
        Folder::Words,
        "W",
        "msd_2\n\n0 0\n0 -> 0\n1 -> 1\n\n1 1\n0 -> 2\n1 -> 3\n\n2 2\n0 -> 0\n1 -> 1\n\n3 3\n0 -> 2\n1 -> 3\n",
    ),
    (
        "morphism h \"0->0123 1->1032 2->2301 3->3210\"; promote W h:",
        Folder::Words,
        "W",
        "msd_4\n\n0 0\n0 -> 0\n1 -> 1\n2 -> 2\n3 -> 3\n\n1 1\n0 -> 1\n1 -> 0\n2 -> 3\n3 -> 2\n\n2 2\n0 -> 2\n1 -> 3\n2 -> 0\n3 -> 1\n\n3 3\n0 -> 3\n1 -> 2\n2 -> 1\n3 -> 0\n",
    ),
    (
        "morphism h \"0->0001 1->1101\"; promote W h:",
        Folder::Words,
        "W",
        "msd_4\n\n0 0\n0 -> 0\n1 -> 0\n2 -> 0\n3 -> 1\n\n1 1\n0 -> 1\n1 -> 1\n2 -> 0\n3 -> 1\n",
    ),
    (
        "morphism h \"0->01 1->20 2->12\"; promote W h:",
        Folder::Words,
        "W",
        "msd_2\n\n0 0\n0 -> 0\n1 -> 1\n\n1 1\n0 -> 2\n1 -> 0\n\n2 2\n0 -> 1\n1 -> 2\n",
    ),
    (
        "morphism h \"0->01 1->22 2->20\"; promote W h:",
        Folder::Words,
        "W",
        "msd_2\n\n0 0\n0 -> 0\n1 -> 1\n\n1 1\n0 -> 2\n1 -> 2\n\n2 2\n0 -> 2\n1 -> 0\n",
    ),
];

#[test]
fn fixed_points_are_stored_as_words(rt: HostRuntime) {
    expect_texts(&rt, rt.alloc(), "", STORED);
}

//! Files of words and rules of which images are made.

use crate::tables::files;

/// Words over systems built in and of users, words that lack letters, of several inputs and in files that break their format; and rules.
const IMAGED: &str = files![
    (Folder::Bases, "msd_bin", "{0,1}\n0 1\n* -> 0\n"),
    (
        Folder::Bases,
        "msd_bin_addition",
        "{0,1} {0,1} {0,1}\n0 1\n0 0 0 -> 0\n0 1 1 -> 0\n1 0 1 -> 0\n0 0 1 -> 1\n1 0\n1 1 1 -> 1\n0 1 0 -> 1\n1 0 0 -> 1\n1 1 0 -> 0\n",
    ),
    (
        Folder::Bases,
        "msd_zeck",
        "{0,1}\n0 1\n0 -> 0\n1 -> 1\n1 1\n0 -> 0\n",
    ),
    (
        Folder::Bases,
        "msd_zeck_addition",
        "{0,1} {0,1} {0,1}\n0 1\n0 0 0 -> 0\n0 0 1 -> 1\n0 1 1 -> 2\n1 0 1 -> 2\n1 0\n0 0 0 -> 3\n0 1 0 -> 4\n1 0 0 -> 5\n1 1 0 -> 6\n2 1\n0 0 0 -> 0\n3 0\n1 1 0 -> 7\n4 0\n0 0 0 -> 8\n1 0 0 -> 9\n1 0 1 -> 10\n5 0\n0 0 0 -> 8\n0 1 0 -> 11\n0 1 1 -> 12\n6 1\n0 0 0 -> 13\n0 0 1 -> 14\n7 0\n0 0 0 -> 8\n8 0\n0 0 0 -> 3\n0 1 0 -> 4\n1 0 0 -> 5\n1 1 0 -> 6\n1 1 1 -> 7\n9 1\n0 0 0 -> 0\n0 0 1 -> 1\n0 1 1 -> 2\n10 0\n0 0 0 -> 3\n0 1 0 -> 4\n11 1\n0 0 0 -> 0\n0 0 1 -> 1\n1 0 1 -> 2\n12 0\n0 0 0 -> 3\n1 0 0 -> 5\n13 0\n0 0 1 -> 2\n14 1\n0 0 0 -> 15\n0 1 0 -> 6\n1 0 0 -> 6\n15 0\n0 0 0 -> 8\n0 1 0 -> 11\n0 1 1 -> 12\n1 0 0 -> 9\n1 0 1 -> 10\n1 1 1 -> 2\n",
    ),
    (Folder::Bases, "msd_five", "{0,1,2,3,4}\n0 1\n* -> 0\n"),
    (
        Folder::Bases,
        "msd_five_addition",
        "{0,1,2,3,4} {0,1,2,3,4} {0,1,2,3,4}\n0 1\n0 0 0 -> 0\n0 0 1 -> 1\n0 1 1 -> 0\n0 1 2 -> 1\n0 2 2 -> 0\n0 2 3 -> 1\n0 3 3 -> 0\n0 3 4 -> 1\n0 4 4 -> 0\n1 0 1 -> 0\n1 0 2 -> 1\n1 1 2 -> 0\n1 1 3 -> 1\n1 2 3 -> 0\n1 2 4 -> 1\n1 3 4 -> 0\n2 0 2 -> 0\n2 0 3 -> 1\n2 1 3 -> 0\n2 1 4 -> 1\n2 2 4 -> 0\n3 0 3 -> 0\n3 0 4 -> 1\n3 1 4 -> 0\n4 0 4 -> 0\n1 0\n0 4 0 -> 1\n1 3 0 -> 1\n1 4 0 -> 0\n1 4 1 -> 1\n2 2 0 -> 1\n2 3 0 -> 0\n2 3 1 -> 1\n2 4 1 -> 0\n2 4 2 -> 1\n3 1 0 -> 1\n3 2 0 -> 0\n3 2 1 -> 1\n3 3 1 -> 0\n3 3 2 -> 1\n3 4 2 -> 0\n3 4 3 -> 1\n4 0 0 -> 1\n4 1 0 -> 0\n4 1 1 -> 1\n4 2 1 -> 0\n4 2 2 -> 1\n4 3 2 -> 0\n4 3 3 -> 1\n4 4 3 -> 0\n4 4 4 -> 1\n",
    ),
    (Folder::Bases, "msd_wrong", "{0,1}\n0 1\n* -> 0\n"),
    (
        Folder::Bases,
        "msd_wrong_addition",
        "{0,1} {0,1} {0,1}\n0 1\n0 0 0 -> 0\n0 1 1 -> 0\n1 0 1 -> 0\n1 1 0 -> 0\n",
    ),
    (
        Folder::Words,
        "T",
        "msd_2\n0 0\n0 -> 0\n1 -> 1\n1 1\n0 -> 1\n1 -> 0\n",
    ),
    (
        Folder::Words,
        "L",
        "lsd_2\n0 0\n0 -> 0\n1 -> 1\n1 1\n0 -> 1\n1 -> 0\n",
    ),
    (
        Folder::Words,
        "F",
        "msd_fib\n0 0\n0 -> 0\n1 -> 1\n1 1\n0 -> 0\n",
    ),
    (
        Folder::Words,
        "M",
        "lsd_fib\n0 0\n0 -> 1\n1 -> 2\n1 0\n* -> 1\n2 1\n* -> 2\n",
    ),
    (
        Folder::Words,
        "R",
        "msd_2\n0 0\n0 -> 0\n1 -> 1\n1 1\n0 -> 0\n1 -> 2\n2 2\n0 -> 3\n1 -> 1\n3 3\n0 -> 3\n1 -> 2\n",
    ),
    (
        Folder::Words,
        "P",
        "msd_2\n0 0\n0 -> 0\n1 -> 1\n1 1\n0 -> 2\n1 -> 1\n2 2\n0 -> 0\n1 -> 3\n3 3\n0 -> 2\n1 -> 3\n",
    ),
    (
        Folder::Words,
        "D",
        "msd_3\n0 5\n0 -> 0\n1 -> 1\n2 -> 0\n1 -5\n* -> 0\n",
    ),
    (Folder::Words, "O", "msd_2\n0 3\n* -> 0\n"),
    (
        Folder::Words,
        "S",
        "msd_2\n0 7\n0 -> 0\n1 -> 1\n1 8\n* -> 2\n2 9\n* -> 2\n",
    ),
    (Folder::Words, "Q", "msd_2 msd_2\n0 0\n* * -> 0\n"),
    (Folder::Words, "G", "msd_2\n0 5\n0 -> 0\n"),
    (
        Folder::Words,
        "H",
        "msd_2\n0 0\n0 -> 0\n1 -> 1\n1 1\n1 -> 1\n",
    ),
    (Folder::Words, "B", "msd_2\n0 0\n* -> 0\n1 -> 1\n1 1\n"),
    (Folder::Words, "N", "msd_gone\n0 0\n"),
    (Folder::Words, "N2", "msd_41 msd_2\n0 0\n"),
    (Folder::Words, "V", "msd_wrong\n0 0\n* -> 0\n"),
    (Folder::Words, "Y", "msd_wrong msd_2\n0 0\n"),
    (
        Folder::Words,
        "X",
        "msd_zeck\n0 0\n0 -> 0\n1 -> 1\n1 1\n0 -> 0\n",
    ),
    (
        Folder::Words,
        "Z",
        "lsd_zeck\n0 0\n0 -> 1\n1 -> 2\n1 0\n* -> 1\n2 1\n* -> 2\n",
    ),
    (Folder::Words, "U5", "msd_five\n0 0\n* -> 0\n4 -> 0\n"),
    (
        Folder::Words,
        "Bi",
        "msd_bin\n0 0\n0 -> 0\n1 -> 1\n1 1\n0 -> 1\n1 -> 0\n",
    ),
    (Folder::Words, "K", "{0,1}\n0 0\n"),
    (Folder::Words, "J", "msd_2 msd_2\n0 0\n0 0 -> 0\n"),
    (
        Folder::Words,
        "Wide",
        "msd_2\n0 0\n0 -> 0\n1 -> 1\n1 1\n0 -> 2\n1 -> 3\n2 2\n0 -> 4\n1 -> 5\n3 3\n0 -> 6\n1 -> 0\n4 4\n* -> 1\n5 5\n* -> 2\n6 6\n* -> 3\n",
    ),
    (
        Folder::Words,
        "Un",
        "msd_2\n0 0\n0 -> 0\n1 -> 1\n1 1\n0 -> 1\n1 -> 0\n2 9\n",
    ),
    (
        Folder::Words,
        "Lead",
        "msd_2\n0 0\n0 -> 2\n1 -> 1\n1 1\n0 -> 1\n1 -> 3\n3 0\n0 -> 3\n1 -> 1\n2 9\n* -> 2\n",
    ),
    (
        Folder::Words,
        "Pairs",
        "msd_fib\n0 0\n0 -> 0\n1 -> 1\n1 1\n0 -> 0\n1 -> 2\n2 9\n* -> 2\n",
    ),
    (Folder::Morphisms, "g", "0->001 1->110\n"),
    (Folder::Morphisms, "one", "0->0 1->1\n"),
    (Folder::Morphisms, "swap", "0->1 1->0\n"),
    (Folder::Morphisms, "cst", "0->5 1->5\n"),
    (Folder::Morphisms, "two", "0->01 1->10\n"),
    (Folder::Morphisms, "same", "0->01 1->02\n"),
    (Folder::Morphisms, "neg", "0->[-1]0 1->0[-1]\n"),
    (
        Folder::Morphisms,
        "big",
        "0->[2147483647] 1->[-2147483648]\n",
    ),
    (Folder::Morphisms, "four", "0->0 1->0 2->1 3->1\n"),
    (Folder::Morphisms, "fold", "0->1 1->1 2->0 3->0\n"),
    (Folder::Morphisms, "only0", "0->11\n"),
    (Folder::Morphisms, "only1", "1->11\n"),
    (Folder::Morphisms, "bad", "0->01 1->1\n"),
    (Folder::Morphisms, "bad0", "0->01 [-1]->1\n"),
    (
        Folder::Morphisms,
        "long",
        "0->00000000000000000000000000000000000000000\n",
    ),
    (
        Folder::Morphisms,
        "long5",
        "5->00000000000000000000000000000000000000000 1->11111111111111111111111111111111111111111\n",
    ),
    (
        Folder::Morphisms,
        "f40",
        "3->4444444444444444444444444444444444444444\n",
    ),
    (Folder::Morphisms, "broken", "0->01\n1->\n"),
    (Folder::Morphisms, "five", "5->56 [-5]->78\n"),
    (Folder::Morphisms, "three", "3->345\n"),
    (Folder::Morphisms, "seven", "7->1 8->2 9->3\n"),
    (Folder::Morphisms, "sev2", "7->77 8->70 9->77\n"),
    (Folder::Morphisms, "extra", "0->01 1->10 2->77 [-9]->88\n"),
    (Folder::Morphisms, "odd", "2->0 3->00 0->000\n"),
    (Folder::Morphisms, "fibm", "0->01 1->00\n"),
    (
        Folder::Morphisms,
        "w7",
        "0->0 1->1 2->0 3->1 4->0 5->1 6->2\n",
    ),
    (Folder::Morphisms, "no6", "0->0 1->1 2->0 3->1 4->0 5->1\n"),
    (Folder::Morphisms, "no25", "0->0 1->1 3->1 4->0 6->1\n"),
];

/// The files in `IMAGED`.
pub fn imaged() -> &'static str {
    IMAGED
}

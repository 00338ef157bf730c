//! Files of automata that are combined.

use crate::tables::files;

/// Automata over systems, over sets and without tracks, files that break their format, and systems of users.
const COMBINED: &str = files![
    (Folder::Bases, "msd_bin", "{0,1}\n0 1\n* -> 0\n"),
    (
        Folder::Bases,
        "msd_bin_addition",
        "{0,1} {0,1} {0,1}\n0 1\n0 0 0 -> 0\n0 1 1 -> 0\n1 0 1 -> 0\n0 0 1 -> 1\n1 0\n1 1 1 -> 1\n0 1 0 -> 1\n1 0 0 -> 1\n1 1 0 -> 0\n",
    ),
    (
        Folder::Bases,
        "msd_zeck",
        "{0,1}\n0 1\n0 -> 0\n1 -> 1\n1 1\n0 -> 0\n",
    ),
    (
        Folder::Bases,
        "msd_zeck_addition",
        "{0,1} {0,1} {0,1}\n0 1\n0 0 0 -> 0\n0 0 1 -> 1\n0 1 1 -> 2\n1 0 1 -> 2\n1 0\n0 0 0 -> 3\n0 1 0 -> 4\n1 0 0 -> 5\n1 1 0 -> 6\n2 1\n0 0 0 -> 0\n3 0\n1 1 0 -> 7\n4 0\n0 0 0 -> 8\n1 0 0 -> 9\n1 0 1 -> 10\n5 0\n0 0 0 -> 8\n0 1 0 -> 11\n0 1 1 -> 12\n6 1\n0 0 0 -> 13\n0 0 1 -> 14\n7 0\n0 0 0 -> 8\n8 0\n0 0 0 -> 3\n0 1 0 -> 4\n1 0 0 -> 5\n1 1 0 -> 6\n1 1 1 -> 7\n9 1\n0 0 0 -> 0\n0 0 1 -> 1\n0 1 1 -> 2\n10 0\n0 0 0 -> 3\n0 1 0 -> 4\n11 1\n0 0 0 -> 0\n0 0 1 -> 1\n1 0 1 -> 2\n12 0\n0 0 0 -> 3\n1 0 0 -> 5\n13 0\n0 0 1 -> 2\n14 1\n0 0 0 -> 15\n0 1 0 -> 6\n1 0 0 -> 6\n15 0\n0 0 0 -> 8\n0 1 0 -> 11\n0 1 1 -> 12\n1 0 0 -> 9\n1 0 1 -> 10\n1 1 1 -> 2\n",
    ),
    (Folder::Bases, "msd_five", "{0,1,2,3,4}\n0 1\n* -> 0\n"),
    (
        Folder::Bases,
        "msd_five_addition",
        "{0,1,2,3,4} {0,1,2,3,4} {0,1,2,3,4}\n0 1\n0 0 0 -> 0\n0 0 1 -> 1\n0 1 1 -> 0\n0 1 2 -> 1\n0 2 2 -> 0\n0 2 3 -> 1\n0 3 3 -> 0\n0 3 4 -> 1\n0 4 4 -> 0\n1 0 1 -> 0\n1 0 2 -> 1\n1 1 2 -> 0\n1 1 3 -> 1\n1 2 3 -> 0\n1 2 4 -> 1\n1 3 4 -> 0\n2 0 2 -> 0\n2 0 3 -> 1\n2 1 3 -> 0\n2 1 4 -> 1\n2 2 4 -> 0\n3 0 3 -> 0\n3 0 4 -> 1\n3 1 4 -> 0\n4 0 4 -> 0\n1 0\n0 4 0 -> 1\n1 3 0 -> 1\n1 4 0 -> 0\n1 4 1 -> 1\n2 2 0 -> 1\n2 3 0 -> 0\n2 3 1 -> 1\n2 4 1 -> 0\n2 4 2 -> 1\n3 1 0 -> 1\n3 2 0 -> 0\n3 2 1 -> 1\n3 3 1 -> 0\n3 3 2 -> 1\n3 4 2 -> 0\n3 4 3 -> 1\n4 0 0 -> 1\n4 1 0 -> 0\n4 1 1 -> 1\n4 2 1 -> 0\n4 2 2 -> 1\n4 3 2 -> 0\n4 3 3 -> 1\n4 4 3 -> 0\n4 4 4 -> 1\n",
    ),
    (Folder::Bases, "msd_wrong", "{0,1}\n0 1\n* -> 0\n"),
    (
        Folder::Bases,
        "msd_wrong_addition",
        "{0,1} {0,1} {0,1}\n0 1\n0 0 0 -> 0\n0 1 1 -> 0\n1 0 1 -> 0\n1 1 0 -> 0\n",
    ),
    (Folder::Automata, "ab", "{0,1}\n0 0\n1 -> 1\n0 -> 0\n1 1\n"),
    (Folder::Automata, "cd", "{0,1} {0,1}\n0 0\n"),
    (Folder::Automata, "yes", "true\n"),
    (Folder::Automata, "not", "false\n"),
    (
        Folder::Automata,
        "odd",
        "msd_2\n0 0\n0 -> 0\n1 -> 1\n1 2\n0 -> 0\n1 -> 1\n",
    ),
    (Folder::Automata, "one", "msd_2\n5 0\n1 -> 7\n7 1\n"),
    (
        Folder::Automata,
        "many",
        "# many\nmsd_2\n0 0\n* -> 0 1\n1 0\n1 -> 2\n2 9\n",
    ),
    (
        Folder::Automata,
        "lt",
        "msd_2 msd_2\n0 0\n0 0 -> 0\n1 1 -> 0\n0 1 -> 1\n1 1\n* * -> 1\n",
    ),
    (Folder::Automata, "three", "msd_3\n0 1\n1 -> 0\n"),
    (Folder::Automata, "mixed", "msd_2 msd_3\n0 1\n"),
    (Folder::Automata, "mixed2", "msd_3 msd_2\n0 1\n"),
    (Folder::Automata, "low", "lsd_2\n0 1\n"),
    (Folder::Automata, "bin", "msd_bin\n0 1\n1 -> 0\n"),
    (
        Folder::Automata,
        "bin2",
        "msd_bin\n0 0\n0 -> 0\n1 -> 1\n1 1\n* -> 1\n",
    ),
    (
        Folder::Automata,
        "zeck",
        "msd_zeck\n0 0\n0 -> 0\n1 -> 1\n1 1\n0 -> 0\n",
    ),
    (
        Folder::Automata,
        "lzeck",
        "lsd_zeck\n0 0\n1 -> 1\n1 1\n* -> 1\n",
    ),
    (Folder::Automata, "gone", "msd_gone\n0 1\n"),
    (Folder::Automata, "gone2", "msd_41\n0 1\n"),
    (Folder::Automata, "wrong", "msd_wrong\n0 1\n"),
    (
        Folder::Automata,
        "five",
        "msd_five\n0 1\n2 -> 0\n7 -> 1\n1 0\n",
    ),
    (Folder::Automata, "broken", "msd_2\n0 1\n2 -> 0\n"),
    (Folder::Automata, "late", "msd_2\n0 1\n1 -> 0\n0 -> 3\n"),
    (Folder::Automata, "both", "msd_2 lsd_2\n0 1\n"),
    (Folder::Automata, "empty", ""),
    (
        Folder::Automata,
        "seventeen",
        "msd_2 msd_2 msd_2 msd_2 msd_2 msd_2 msd_2 msd_2 msd_2 msd_2 msd_2 msd_2 msd_2 msd_2 msd_2 msd_2 msd_2\n0 1\n",
    ),
    (
        Folder::Automata,
        "wide",
        "msd_17 msd_17 msd_17 msd_17\n0 1\n* * * * -> 0\n",
    ),
    (Folder::Automata, "fibs", "msd_fib\n0 1\n* -> 0\n"),
];

/// The files in `COMBINED`.
pub fn combined() -> &'static str {
    COMBINED
}

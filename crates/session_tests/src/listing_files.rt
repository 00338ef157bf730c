//! Automata whose words are listed.

use crate::tables::files;

/// Over systems: `lt` and `le` are x < y and x <= y, `z` is 0 alone, `even` the even numbers, `five` and `high` are single numbers, of which
/// `high` is accepted after three zeros alone, `low` is 1 with a zero after it, `nothing` has no number, `naturals`, `fib`, `fibl` and `ten` have
/// all numbers, `mixed` all pairs of numbers over two systems, and `six` numbers of which each is six digits longer. `equal` has sixteen
/// tracks. `yes` and `no` have no track. Over sets: `ab` is 0*1, `none` has no word, `empty` the empty word alone, `few` has three words, `end`
/// has the words whose last letter but one is 1, from a table with two transitions of one letter, `signed`, `pairs` and `bounds` have negative
/// members, `round` is (00001)*, `plane` has sixteen tracks and `wide` seventeen. `broken`, `late` and `dashed` break the format, `far`
/// and `large` are over systems that are not there, and `own`, `ownl`, `trib` and `wrong` over users' systems.
const LISTED: &str = files![
    (
        Folder::Automata,
        "lt",
        "msd_2 msd_2\n\n0 0\n0 0 -> 0\n0 1 -> 1\n1 1 -> 0\n\n1 1\n0 0 -> 1\n0 1 -> 1\n1 0 -> 1\n1 1 -> 1\n",
    ),
    (
        Folder::Automata,
        "le",
        "lsd_2 lsd_2\n0 1\n0 0 -> 0\n1 1 -> 0\n0 1 -> 0\n1 0 -> 1\n1 0\n0 0 -> 1\n1 1 -> 1\n0 1 -> 0\n1 0 -> 1\n",
    ),
    (Folder::Automata, "z", "msd_2\n\n0 1\n0 -> 0\n"),
    (
        Folder::Automata,
        "even",
        "msd_2\n0 1\n0 -> 0\n1 -> 1\n1 0\n0 -> 0\n1 -> 1\n",
    ),
    (
        Folder::Automata,
        "five",
        "msd_2\n0 0\n1 -> 1\n1 0\n0 -> 2\n2 0\n1 -> 3\n3 1\n",
    ),
    (
        Folder::Automata,
        "high",
        "msd_2\n0 0\n0 -> 1\n1 0\n0 -> 2\n2 0\n1 -> 3\n3 1\n",
    ),
    (
        Folder::Automata,
        "low",
        "lsd_2\n0 0\n1 -> 1\n1 0\n0 -> 2\n2 1\n",
    ),
    (Folder::Automata, "nothing", "msd_2\n0 0\n"),
    (Folder::Automata, "naturals", "lsd_2\n0 1\n* -> 0\n"),
    (Folder::Automata, "fib", "msd_fib\n0 1\n* -> 0\n"),
    (Folder::Automata, "fibl", "lsd_fib\n0 1\n* -> 0\n"),
    (Folder::Automata, "ten", "msd_10\n0 1\n* -> 0\n"),
    (Folder::Automata, "mixed", "msd_3 msd_fib\n0 1\n* * -> 0\n"),
    (
        Folder::Automata,
        "six",
        "msd_2\n0 0\n1 -> 1\n1 1\n* -> 2\n2 0\n* -> 3\n3 0\n* -> 4\n4 0\n* -> 5\n5 0\n* -> 6\n6 0\n* -> 1\n",
    ),
    (Folder::Automata, "yes", "true\n"),
    (Folder::Automata, "no", "false\n"),
    (Folder::Automata, "none", "{0,1}\n0 0\n"),
    (Folder::Automata, "empty", "{0,1}\n0 1\n"),
    (
        Folder::Automata,
        "ab",
        "{0,1}\n\n0 0\n0 -> 0\n1 -> 1\n\n1 1\n",
    ),
    (
        Folder::Automata,
        "few",
        "{0,1}\n0 0\n1 -> 1\n0 -> 2\n1 1\n0 -> 3\n2 0\n1 -> 4\n3 1\n4 0\n1 -> 3\n",
    ),
    (
        Folder::Automata,
        "end",
        "{0,1}\n7 0\n* -> 7\n1 -> 3\n3 0\n* -> 1\n1 5\n",
    ),
    (
        Folder::Automata,
        "signed",
        "{-1, 2,0}\n0 1\n-1 -> 0\n2 -> 1\n1 0\n0 -> 0\n",
    ),
    (Folder::Automata, "pairs", "{1,-1} {0,5}\n0 1\n* * -> 0\n"),
    (
        Folder::Automata,
        "bounds",
        "{-2147483648,2147483647}\n0 0\n* -> 1\n1 1\n",
    ),
    (
        Folder::Automata,
        "round",
        "{0,1}\n0 1\n0 -> 1\n1 0\n0 -> 2\n2 0\n0 -> 3\n3 0\n0 -> 4\n4 0\n1 -> 0\n",
    ),
    (
        Folder::Automata,
        "plane",
        "{0,1} {0,1} {0,1} {0,1} {0,1} {0,1} {0,1} {0,1} {0,1} {0,1} {0,1} {0,1} {0,1} {0,1} {0,1} {0,1}\n0 0\n1 1 1 1 1 1 1 1 1 1 1 1 1 1 1 1 -> 1\n0 0 0 0 0 0 0 0 0 0 0 0 0 0 0 0 -> 0\n1 1\n",
    ),
    (
        Folder::Automata,
        "equal",
        "msd_2 msd_2 msd_2 msd_2 msd_2 msd_2 msd_2 msd_2 msd_2 msd_2 msd_2 msd_2 msd_2 msd_2 msd_2 msd_2\n0 1\n0 0 0 0 0 0 0 0 0 0 0 0 0 0 0 0 -> 0\n1 1 1 1 1 1 1 1 1 1 1 1 1 1 1 1 -> 0\n",
    ),
    (
        Folder::Automata,
        "wide",
        "{0} {0} {0} {0} {0} {0} {0} {0} {0} {0} {0} {0} {0} {0} {0} {0} {0}\n0 1\n",
    ),
    (Folder::Automata, "broken", "{0,1}\n0 0\n0 - 0\n"),
    (Folder::Automata, "late", "msd_2\n0 0\n0 -> 1\n"),
    (Folder::Automata, "dashed", "msd_2\n0 -\n0 -> 0\n"),
    (Folder::Automata, "far", "msd_far\n0 1\n"),
    (Folder::Automata, "large", "msd_41\n0 1\n"),
    (Folder::Automata, "own", "msd_bin\n0 1\n* -> 0\n"),
    (
        Folder::Automata,
        "ownl",
        "lsd_bin\n0 0\n0 -> 0\n1 -> 1\n1 1\n* -> 1\n",
    ),
    (Folder::Automata, "trib", "msd_trib\n0 1\n* -> 0\n"),
    (Folder::Automata, "wrong", "msd_wrong\n0 1\n"),
    (Folder::Bases, "msd_bin", BINARY),
    (Folder::Bases, "msd_bin_addition", CARRIES),
    (
        Folder::Bases,
        "msd_trib",
        "{0,1}\n0 1\n0 -> 0\n1 -> 1\n1 1\n0 -> 0\n1 -> 2\n2 1\n0 -> 0\n",
    ),
    (Folder::Bases, "msd_trib_addition", TRIBONACCI_ADDER),
    (Folder::Bases, "msd_wrong", BINARY),
    (
        Folder::Bases,
        "msd_wrong_addition",
        "{0,1} {0,1} {0,1}\n0 1\n0 0 0 -> 0\n0 1 1 -> 0\n1 0 1 -> 0\n1 1 0 -> 0\n",
    ),
];

/// The files in `LISTED`.
pub fn listed() -> &'static str {
    LISTED
}

/// The words whose last letter but four is 1, from a table with two transitions of one letter.
pub const FIFTH: &str = files![(
    Folder::Automata,
    "fifth",
    "{0,1}\n0 0\n* -> 0\n1 -> 1\n1 0\n* -> 2\n2 0\n* -> 3\n3 0\n* -> 4\n4 0\n* -> 5\n5 1\n",
)];

/// Two words, and the Tribonacci system.
const WORDS: &str = files![
    (
        Folder::Words,
        "T",
        "msd_2\n0 0\n0 -> 0\n1 -> 1\n1 1\n0 -> 1\n1 -> 0\n",
    ),
    (
        Folder::Words,
        "F",
        "msd_fib\n0 0\n0 -> 0\n1 -> 1\n1 1\n0 -> 0\n",
    ),
    (
        Folder::Bases,
        "msd_trib",
        "{0,1}\n0 1\n0 -> 0\n1 -> 1\n1 1\n0 -> 0\n1 -> 2\n2 1\n0 -> 0\n",
    ),
    (Folder::Bases, "msd_trib_addition", TRIBONACCI_ADDER),
];

/// The files in `WORDS`.
pub fn words() -> &'static str {
    WORDS
}

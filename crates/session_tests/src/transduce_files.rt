//! Words and transducers that make words of them.

use crate::tables::files;

/// Words: `T` is the Thue-Morse word, `D` the period-doubling word, `R` the Rudin-Shapiro word; `C` and `O` have the digit of 4 and
/// of 8 in base 2; `M` is over base 3 and `V` over base 40; `N` has a negative letter; `G`, `H`, `P` and `Y` lack letters; `F`, `L`, `Q` and `U`
/// are not over one base, most significant digit first; `X`, `K`, `J` and `W` are over systems that are not there or not admitted, and `B`
/// breaks the format. Transducers: `sum`, `sum3`, `sum4` and `sumt` give running sums modulo 2, 3, 4 and 3, `diff` differences, `copy` the letters,
/// `shift` the letters a position later; `stop` stops at the first 1 and `first` after it; `blanks` is `sum` with blanks, comments and other
/// numbers, `star` counts in threes, `signs` has negative numbers, the sets of `apart`, `zeros` and `one` lack letters, `idle` has no
/// transition, `more` a state to which none leads, and `digits` begins with a letter of its own.
const TRANSDUCED: &str = files![
    (
        Folder::Words,
        "C",
        "msd_2\n0 0\n0 -> 0\n1 -> 1\n1 0\n0 -> 2\n1 -> 3\n2 0\n0 -> 4\n1 -> 5\n3 0\n0 -> 6\n1 -> 7\n4 1\n0 -> 0\n1 -> 1\n5 1\n0 -> 2\n1 -> 3\n6 1\n0 -> 4\n1 -> 5\n7 1\n0 -> 6\n1 -> 7\n",
    ),
    (
        Folder::Words,
        "O",
        "msd_2\n0 0\n0 -> 0\n1 -> 1\n1 0\n0 -> 2\n1 -> 3\n2 0\n0 -> 4\n1 -> 5\n3 0\n0 -> 6\n1 -> 7\n4 0\n0 -> 8\n1 -> 9\n5 0\n0 -> 10\n1 -> 11\n6 0\n0 -> 12\n1 -> 13\n7 0\n0 -> 14\n1 -> 15\n8 1\n0 -> 0\n1 -> 1\n9 1\n0 -> 2\n1 -> 3\n10 1\n0 -> 4\n1 -> 5\n11 1\n0 -> 6\n1 -> 7\n12 1\n0 -> 8\n1 -> 9\n13 1\n0 -> 10\n1 -> 11\n14 1\n0 -> 12\n1 -> 13\n15 1\n0 -> 14\n1 -> 15\n",
    ),
    (
        Folder::Words,
        "T",
        "msd_2\n0 0\n0 -> 0\n1 -> 1\n1 1\n0 -> 1\n1 -> 0\n",
    ),
    (
        Folder::Words,
        "D",
        "msd_2\n0 0\n0 -> 0\n1 -> 1\n1 1\n* -> 0\n",
    ),
    (
        Folder::Words,
        "R",
        "msd_2\n0 0\n0 -> 0\n1 -> 1\n1 0\n0 -> 0\n1 -> 2\n2 1\n0 -> 3\n1 -> 1\n3 1\n0 -> 3\n1 -> 2\n",
    ),
    (
        Folder::Words,
        "M",
        "msd_3\n0 0\n0 -> 0\n1 -> 1\n2 -> 2\n1 1\n0 -> 1\n1 -> 2\n2 -> 0\n2 2\n0 -> 2\n1 -> 0\n2 -> 1\n",
    ),
    (
        Folder::Words,
        "N",
        "msd_2\n0 -1\n0 -> 0\n1 -> 1\n1 7\n0 -> 1\n1 -> 0\n",
    ),
    (Folder::Words, "G", "msd_2\n0 0\n0 -> 0\n"),
    (
        Folder::Words,
        "H",
        "msd_2\n0 -\n0 -> 0\n1 -> 1\n1 1\n* -> 1\n",
    ),
    (
        Folder::Words,
        "P",
        "msd_2\n0 1\n0 -> 0\n1 -> 1\n1 0\n0 -> 1\n1 -> 2\n2 -\n* -> 1\n",
    ),
    (Folder::Words, "Y", "msd_2\n0 -\n"),
    (
        Folder::Words,
        "V",
        "msd_40\n0 1\n0 -> 0\n1 -> 1\n2 -> 0\n3 -> 1\n4 -> 0\n5 -> 1\n6 -> 0\n7 -> 1\n8 -> 0\n9 -> 1\n10 -> 0\n11 -> 1\n12 -> 0\n13 -> 1\n14 -> 0\n15 -> 1\n16 -> 0\n17 -> 1\n18 -> 0\n19 -> 1\n20 -> 0\n21 -> 1\n22 -> 0\n23 -> 1\n24 -> 0\n25 -> 1\n26 -> 0\n27 -> 1\n28 -> 0\n29 -> 1\n30 -> 0\n31 -> 1\n32 -> 0\n33 -> 1\n34 -> 0\n35 -> 1\n36 -> 0\n37 -> 1\n38 -> 0\n39 -> 1\n1 0\n* -> 0\n",
    ),
    (
        Folder::Words,
        "F",
        "msd_fib\n0 0\n0 -> 0\n1 -> 1\n1 1\n0 -> 0\n",
    ),
    (
        Folder::Words,
        "L",
        "lsd_2\n0 0\n0 -> 0\n1 -> 1\n1 1\n0 -> 1\n1 -> 0\n",
    ),
    (Folder::Words, "Q", "msd_2   msd_3\n0 0\n* * -> 0\n"),
    (
        Folder::Words,
        "U",
        "msd_bin\n0 0\n0 -> 0\n1 -> 1\n1 1\n0 -> 1\n1 -> 0\n",
    ),
    (Folder::Words, "X", "msd_far\n0 0\n"),
    (Folder::Words, "K", "msd_41\n0 0\n"),
    (Folder::Words, "J", "msd_2 msd_far\n0 0\n"),
    (Folder::Words, "B", "msd_2\n0 0\n* -> 0\n1 -> 1\n1 1\n"),
    (Folder::Words, "W", "msd_wrong\n0 0\n"),
    (
        Folder::Transducers,
        "sum",
        "{0,1}\n0\n0 -> 0 / 0\n1 -> 1 / 1\n1\n0 -> 1 / 1\n1 -> 0 / 0\n",
    ),
    (
        Folder::Transducers,
        "sum3",
        "{0,1}\n0\n0 -> 0 / 0\n1 -> 1 / 1\n1\n0 -> 1 / 1\n1 -> 2 / 2\n2\n0 -> 2 / 2\n1 -> 0 / 0\n",
    ),
    (
        Folder::Transducers,
        "sum4",
        "{0,1}\n0\n0 -> 0 / 0\n1 -> 1 / 1\n1\n0 -> 1 / 1\n1 -> 2 / 2\n2\n0 -> 2 / 2\n1 -> 3 / 3\n3\n0 -> 3 / 3\n1 -> 0 / 0\n",
    ),
    (
        Folder::Transducers,
        "sumt",
        "{0,1,2}\n0\n0 -> 0 / 0\n1 -> 1 / 1\n2 -> 2 / 2\n1\n0 -> 1 / 1\n1 -> 2 / 2\n2 -> 0 / 0\n2\n0 -> 2 / 2\n1 -> 0 / 0\n2 -> 1 / 1\n",
    ),
    (
        Folder::Transducers,
        "diff",
        "{0,1}\n0\n0 -> 0 / 0\n1 -> 1 / 1\n1\n0 -> 0 / -1\n1 -> 1 / 0\n",
    ),
    (
        Folder::Transducers,
        "copy",
        "{0,1}\n0\n0 -> 0 / 0\n1 -> 0 / 1\n",
    ),
    (
        Folder::Transducers,
        "shift",
        "{0,1}\n0\n0 -> 0 / 0\n1 -> 1 / 0\n1\n0 -> 0 / 1\n1 -> 1 / 1\n",
    ),
    (Folder::Transducers, "stop", "{0,1}\n0\n0 -> 0 / 5\n"),
    (
        Folder::Transducers,
        "first",
        "{0,1}\n0\n0 -> 0 / 3\n1 -> 1 / 4\n1\n",
    ),
    (
        Folder::Transducers,
        "blanks",
        " # c\r\n\r\n {0 , 1}\t\r\n#x\r\n 7 \r\n1->3/1\r\n0  ->  7  /  0\r\n3\r\n\t1 -> 7 /0\r\n0 -> 3/ 1\r\n# end",
    ),
    (
        Folder::Transducers,
        "star",
        "{0,1}\n0\n* -> 1 / 1\n1\n* -> 2 / 2\n0 -> 2 / 2\n2\n1 -> 0 / 4\n* -> 0 / 4\n",
    ),
    (
        Folder::Transducers,
        "signs",
        "{-1,7}\n0\n-1 -> 1 / -2147483648\n7 -> 0 / 2147483647\n1\n7 -> 0 / -5\n-1 -> 1 / 7\n",
    ),
    (Folder::Transducers, "apart", "{2,3}\n0\n* -> 0 / 1\n"),
    (Folder::Transducers, "zeros", "{0}\n0\n* -> 0 / 9\n"),
    (Folder::Transducers, "one", "{1}\n0\n1 -> 0 / 8\n"),
    (Folder::Transducers, "idle", "{0,1}\n4\n"),
    (
        Folder::Transducers,
        "more",
        "{0,1}\n5\n0 -> 5 / 1\n1 -> 6 / 0\n6\n* -> 5 / 1\n7\n0 -> 6 / 3\n1 -> 7 / 2\n",
    ),
    (
        Folder::Transducers,
        "digits",
        "{0,1}\n0\n* -> 1 / 0\n1\n0 -> 0 / 0\n1 -> 1 / 1\n",
    ),
    (Folder::Bases, "msd_bin", BINARY),
    (Folder::Bases, "msd_bin_addition", CARRIES),
    (Folder::Bases, "msd_wrong", BINARY),
    (
        Folder::Bases,
        "msd_wrong_addition",
        "{0,1} {0,1} {0,1}\n0 1\n0 0 0 -> 0\n0 1 1 -> 0\n1 0 1 -> 0\n1 1 0 -> 0\n",
    ),
];

/// The files in `TRANSDUCED`.
pub fn transduced() -> &'static str {
    TRANSDUCED
}

/// Transducers that break the format, and words.
const BROKEN: &str = files![
    (Folder::Transducers, "f0", ""),
    (Folder::Transducers, "f1", "\n"),
    (Folder::Transducers, "f2", "# a\n\n"),
    (Folder::Transducers, "f3", "{0,1}\n"),
    (Folder::Transducers, "f4", "{0,1}"),
    (Folder::Transducers, "f5", "{}\n0\n"),
    (Folder::Transducers, "f6", "{0,0}\n0\n"),
    (Folder::Transducers, "f7", "{0} {1}\n0\n"),
    (Folder::Transducers, "f8", "msd_2\n0\n"),
    (Folder::Transducers, "f9", "true\n"),
    (Folder::Transducers, "f10", "{0,1}\n0 1\n"),
    (Folder::Transducers, "f11", "{0,1}\n-1\n"),
    (Folder::Transducers, "f12", "{0,1}\n4294967296\n"),
    (Folder::Transducers, "f13", "{0,1}\n0\n\n1\n0\n"),
    (Folder::Transducers, "f14", "{0,1}\r\n0\r\n2 -> 0 / 1\r\n"),
    (Folder::Transducers, "f15", "{0,1}\n0\n0 0 -> 0 / 1\n"),
    (Folder::Transducers, "f16", "{0,1}\n0\n0 -> 0\n"),
    (Folder::Transducers, "f17", "{0,1}\n0\n0 -> 0 /\n"),
    (Folder::Transducers, "f18", "{0,1}\n0\n0 -> 0 1 / 0\n"),
    (
        Folder::Transducers,
        "f19",
        "{0,1}\n0\n0 -> 0 / 2147483648\n",
    ),
    (
        Folder::Transducers,
        "f20",
        "{0,1}\n0\n0 -> 0 / -2147483649\n",
    ),
    (Folder::Transducers, "f21", "{0,1}\n0\n0 -> * / 0\n"),
    (
        Folder::Transducers,
        "f22",
        "{0,1}\n0\n0 -> 0 / 1\n0 -> 0 / 2\n",
    ),
    (
        Folder::Transducers,
        "f23",
        "{0,1}\n0\n# c\n* -> 0 / 1\n1 -> 0 / 2\n",
    ),
    (Folder::Transducers, "f24", "{0,1}\n0\n0 -> 1 / 1\n"),
    (
        Folder::Transducers,
        "f25",
        "{0,1}\n0\n0 -> 0 / 1\n1 -> 7 / 1\n1\n* -> 8 / 0\n",
    ),
    (Folder::Transducers, "f26", "{0,1}\n0\n0 -> 9 / 1\nx\n"),
    (Folder::Transducers, "f27", "{0,2147483648}\n0\n"),
    (Folder::Transducers, "f28", "{0,1}\n0\n0 - > 0 / 1\n"),
    (Folder::Transducers, "f29", "{0,1}\n0 -> 0 / 1\n0\n"),
    (
        Folder::Words,
        "T",
        "msd_2\n0 0\n0 -> 0\n1 -> 1\n1 1\n0 -> 1\n1 -> 0\n",
    ),
    (Folder::Words, "B", "msd_2\n0 0\n* -> 0\n1 -> 1\n1 1\n"),
    (
        Folder::Words,
        "F",
        "msd_fib\n0 0\n0 -> 0\n1 -> 1\n1 1\n0 -> 0\n",
    ),
];

/// The files in `BROKEN`.
pub fn broken() -> &'static str {
    BROKEN
}

/// Transducers alone.
const TRANSDUCERS: &str = files![
    (
        Folder::Transducers,
        "sum",
        "{0,1}\n0\n0 -> 0 / 0\n1 -> 1 / 1\n1\n0 -> 1 / 1\n1 -> 0 / 0\n",
    ),
    (Folder::Transducers, "stop", "{0,1}\n0\n0 -> 0 / 5\n"),
    (
        Folder::Transducers,
        "diff",
        "{0,1}\n0\n0 -> 0 / 0\n1 -> 1 / 1\n1\n0 -> 0 / -1\n1 -> 1 / 0\n",
    ),
    (
        Folder::Transducers,
        "copy",
        "{0,1}\n0\n0 -> 0 / 0\n1 -> 0 / 1\n",
    ),
    (
        Folder::Transducers,
        "shift",
        "{0,1}\n0\n0 -> 0 / 0\n1 -> 1 / 0\n1\n0 -> 0 / 1\n1 -> 1 / 1\n",
    ),
];

/// The files in `TRANSDUCERS`.
pub fn transducers() -> &'static str {
    TRANSDUCERS
}

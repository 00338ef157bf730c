//! Words that are changed to other bases.

use crate::tables::files;

/// `T` is the Thue-Morse word, `L` the same with the least digit first, `R` the Rudin-Shapiro word and `D` the period-doubling word; `M`,
/// `S`, `B`, `P` and `Q` are sums of digits over bases 3, 6, 36, 40 and 25, and `N` has two letters over base 9; `G`, `H`, `O`, `Y`, `Z` and `C` lack letters;
/// `F`, `J` and `U` are not over one base; `X`, `K` and `W` are over systems that are not there or not admitted, and `V` breaks the format.
const CONVERTED: &str = files![
    (
        Folder::Words,
        "T",
        "msd_2\n0 0\n0 -> 0\n1 -> 1\n1 1\n0 -> 1\n1 -> 0\n",
    ),
    (
        Folder::Words,
        "R",
        "msd_2\n0 0\n0 -> 0\n1 -> 1\n1 0\n0 -> 0\n1 -> 2\n2 1\n0 -> 3\n1 -> 1\n3 1\n0 -> 3\n1 -> 2\n",
    ),
    (
        Folder::Words,
        "D",
        "msd_2\n0 0\n0 -> 0\n1 -> 1\n1 1\n* -> 0\n",
    ),
    (
        Folder::Words,
        "L",
        "lsd_2\n0 0\n0 -> 0\n1 -> 1\n1 1\n0 -> 1\n1 -> 0\n",
    ),
    (
        Folder::Words,
        "M",
        "msd_3\n0 0\n0 -> 0\n1 -> 1\n2 -> 2\n1 1\n0 -> 1\n1 -> 2\n2 -> 0\n2 2\n0 -> 2\n1 -> 0\n2 -> 1\n",
    ),
    (
        Folder::Words,
        "S",
        "msd_6\n0 0\n0 -> 0\n1 -> 1\n2 -> 0\n3 -> 1\n4 -> 0\n5 -> 1\n1 1\n0 -> 1\n1 -> 0\n2 -> 1\n3 -> 0\n4 -> 1\n5 -> 0\n",
    ),
    (
        Folder::Words,
        "B",
        "lsd_36\n0 0\n0 -> 0\n1 -> 1\n2 -> 0\n3 -> 1\n4 -> 0\n5 -> 1\n6 -> 0\n7 -> 1\n8 -> 0\n9 -> 1\n10 -> 0\n11 -> 1\n12 -> 0\n13 -> 1\n14 -> 0\n15 -> 1\n16 -> 0\n17 -> 1\n18 -> 0\n19 -> 1\n20 -> 0\n21 -> 1\n22 -> 0\n23 -> 1\n24 -> 0\n25 -> 1\n26 -> 0\n27 -> 1\n28 -> 0\n29 -> 1\n30 -> 0\n31 -> 1\n32 -> 0\n33 -> 1\n34 -> 0\n35 -> 1\n1 1\n0 -> 1\n1 -> 0\n2 -> 1\n3 -> 0\n4 -> 1\n5 -> 0\n6 -> 1\n7 -> 0\n8 -> 1\n9 -> 0\n10 -> 1\n11 -> 0\n12 -> 1\n13 -> 0\n14 -> 1\n15 -> 0\n16 -> 1\n17 -> 0\n18 -> 1\n19 -> 0\n20 -> 1\n21 -> 0\n22 -> 1\n23 -> 0\n24 -> 1\n25 -> 0\n26 -> 1\n27 -> 0\n28 -> 1\n29 -> 0\n30 -> 1\n31 -> 0\n32 -> 1\n33 -> 0\n34 -> 1\n35 -> 0\n",
    ),
    (
        Folder::Words,
        "P",
        "msd_40\n0 0\n0 -> 0\n1 -> 1\n2 -> 0\n3 -> 1\n4 -> 0\n5 -> 1\n6 -> 0\n7 -> 1\n8 -> 0\n9 -> 1\n10 -> 0\n11 -> 1\n12 -> 0\n13 -> 1\n14 -> 0\n15 -> 1\n16 -> 0\n17 -> 1\n18 -> 0\n19 -> 1\n20 -> 0\n21 -> 1\n22 -> 0\n23 -> 1\n24 -> 0\n25 -> 1\n26 -> 0\n27 -> 1\n28 -> 0\n29 -> 1\n30 -> 0\n31 -> 1\n32 -> 0\n33 -> 1\n34 -> 0\n35 -> 1\n36 -> 0\n37 -> 1\n38 -> 0\n39 -> 1\n1 1\n0 -> 1\n1 -> 0\n2 -> 1\n3 -> 0\n4 -> 1\n5 -> 0\n6 -> 1\n7 -> 0\n8 -> 1\n9 -> 0\n10 -> 1\n11 -> 0\n12 -> 1\n13 -> 0\n14 -> 1\n15 -> 0\n16 -> 1\n17 -> 0\n18 -> 1\n19 -> 0\n20 -> 1\n21 -> 0\n22 -> 1\n23 -> 0\n24 -> 1\n25 -> 0\n26 -> 1\n27 -> 0\n28 -> 1\n29 -> 0\n30 -> 1\n31 -> 0\n32 -> 1\n33 -> 0\n34 -> 1\n35 -> 0\n36 -> 1\n37 -> 0\n38 -> 1\n39 -> 0\n",
    ),
    (
        Folder::Words,
        "Q",
        "msd_25\n0 0\n0 -> 0\n1 -> 1\n2 -> 2\n3 -> 0\n4 -> 1\n5 -> 2\n6 -> 0\n7 -> 1\n8 -> 2\n9 -> 0\n10 -> 1\n11 -> 2\n12 -> 0\n13 -> 1\n14 -> 2\n15 -> 0\n16 -> 1\n17 -> 2\n18 -> 0\n19 -> 1\n20 -> 2\n21 -> 0\n22 -> 1\n23 -> 2\n24 -> 0\n1 1\n0 -> 1\n1 -> 2\n2 -> 0\n3 -> 1\n4 -> 2\n5 -> 0\n6 -> 1\n7 -> 2\n8 -> 0\n9 -> 1\n10 -> 2\n11 -> 0\n12 -> 1\n13 -> 2\n14 -> 0\n15 -> 1\n16 -> 2\n17 -> 0\n18 -> 1\n19 -> 2\n20 -> 0\n21 -> 1\n22 -> 2\n23 -> 0\n24 -> 1\n2 2\n0 -> 2\n1 -> 0\n2 -> 1\n3 -> 2\n4 -> 0\n5 -> 1\n6 -> 2\n7 -> 0\n8 -> 1\n9 -> 2\n10 -> 0\n11 -> 1\n12 -> 2\n13 -> 0\n14 -> 1\n15 -> 2\n16 -> 0\n17 -> 1\n18 -> 2\n19 -> 0\n20 -> 1\n21 -> 2\n22 -> 0\n23 -> 1\n24 -> 2\n",
    ),
    (
        Folder::Words,
        "N",
        "msd_9\n0 -7\n0 -> 0\n1 -> 1\n1 2147483647\n0 -> 0\n1 -> 1\n2 -> 0\n3 -> 1\n4 -> 0\n5 -> 1\n6 -> 0\n7 -> 1\n8 -> 0\n",
    ),
    (Folder::Words, "G", "msd_2\n0 5\n0 -> 0\n"),
    (
        Folder::Words,
        "H",
        "msd_2\n0 5\n0 -> 0\n1 -> 1\n1 6\n1 -> 1\n",
    ),
    (Folder::Words, "O", "msd_2\n0 -\n0 -> 0\n1 -> 1\n1 7\n"),
    (Folder::Words, "Y", "msd_2\n0 -\n"),
    (
        Folder::Words,
        "Z",
        "lsd_8\n0 1\n0 -> 0\n3 -> 1\n1 -\n* -> 2\n2 2\n5 -> 0\n",
    ),
    (
        Folder::Words,
        "C",
        "msd_4\n0 -\n0 -> 0\n2 -> 1\n3 -> 0\n1 4\n1 -> 1\n",
    ),
    (
        Folder::Words,
        "F",
        "msd_fib\n0 0\n0 -> 0\n1 -> 1\n1 1\n0 -> 0\n",
    ),
    (Folder::Words, "J", "msd_2   msd_2\n0 0\n* * -> 0\n"),
    (
        Folder::Words,
        "U",
        "msd_bin\n0 0\n0 -> 0\n1 -> 1\n1 1\n0 -> 1\n1 -> 0\n",
    ),
    (Folder::Words, "X", "msd_far\n0 0\n"),
    (Folder::Words, "K", "msd_41\n0 0\n"),
    (Folder::Words, "V", "msd_2\n0 0\n* -> 0\n1 -> 1\n1 1\n"),
    (Folder::Words, "W", "msd_wrong\n0 0\n"),
    (Folder::Bases, "msd_bin", BINARY),
    (Folder::Bases, "msd_bin_addition", CARRIES),
    (Folder::Bases, "msd_wrong", BINARY),
    (
        Folder::Bases,
        "msd_wrong_addition",
        "{0,1} {0,1} {0,1}\n0 1\n0 0 0 -> 0\n0 1 1 -> 0\n1 0 1 -> 0\n1 1 0 -> 0\n",
    ),
];

/// The files in `CONVERTED`.
pub fn converted() -> &'static str {
    CONVERTED
}

/// Words whose steps are wide.
const WIDE_WORDS: &str = files![
    (
        Folder::Words,
        "W1",
        "lsd_4\n0 0\n0 -> 0\n1 -> 2\n2 -> 0\n3 -> 1\n1 0\n0 -> 1\n1 -> 1\n2 -> 1\n3 -> 2\n2 1\n0 -> 1\n1 -> 2\n2 -> 1\n3 -> 1\n",
    ),
    (
        Folder::Words,
        "W2",
        "lsd_9\n0 1\n0 -> 0\n1 -> 3\n2 -> 2\n3 -> 1\n4 -> 3\n1 1\n0 -> 3\n1 -> 2\n3 -> 3\n4 -> 3\n8 -> 3\n2 0\n6 -> 0\n7 -> 2\n8 -> 0\n3 1\n0 -> 3\n1 -> 1\n3 -> 2\n4 -> 1\n5 -> 1\n7 -> 1\n8 -> 3\n",
    ),
    (
        Folder::Words,
        "W3",
        "msd_9\n0 1\n0 -> 0\n1 -> 0\n2 -> 0\n3 -> 0\n4 -> 1\n5 -> 0\n6 -> 0\n7 -> 2\n8 -> 0\n1 0\n0 -> 0\n1 -> 2\n2 -> 0\n3 -> 1\n4 -> 0\n5 -> 1\n6 -> 0\n7 -> 0\n8 -> 1\n2 1\n0 -> 1\n1 -> 1\n2 -> 2\n3 -> 0\n4 -> 0\n5 -> 2\n6 -> 0\n7 -> 0\n8 -> 0\n",
    ),
    (
        Folder::Words,
        "W4",
        "lsd_4\n0 0\n0 -> 0\n1 -> 3\n2 -> 2\n3 -> 1\n1 0\n0 -> 4\n1 -> 4\n2 -> 3\n3 -> 2\n2 0\n0 -> 0\n1 -> 1\n2 -> 1\n3 -> 3\n3 1\n0 -> 0\n1 -> 2\n2 -> 2\n3 -> 1\n4 0\n0 -> 0\n1 -> 1\n2 -> 0\n3 -> 0\n",
    ),
    (
        Folder::Words,
        "W5",
        "msd_3\n0 0\n0 -> 0\n1 -> 2\n2 -> 3\n1 0\n0 -> 3\n2 1\n1 -> 1\n3 0\n0 -> 2\n1 -> 2\n",
    ),
    (
        Folder::Words,
        "W6",
        "msd_3\n0 0\n0 -> 0\n1 -> 3\n2 -> 0\n1 1\n0 -> 0\n1 -> 2\n2 -> 3\n2 1\n0 -> 3\n1 -> 4\n2 -> 0\n3 1\n0 -> 2\n1 -> 0\n2 -> 1\n4 1\n0 -> 4\n1 -> 1\n2 -> 0\n",
    ),
];

/// The files in `WIDE_WORDS`.
pub fn wide_words() -> &'static str {
    WIDE_WORDS
}

//! Images of words, as they are stored.

use crate::given::expect_texts;
use crate::image_files::imaged;
use crate::tables::table;

/// Scripts, and the words that they store.
const STORED: &str = table![
    (
        "image W g T;",
        Folder::Words,
        "W",
        "msd_2\n\n0 0\n0 -> 0\n1 -> 1\n\n1 0\n0 -> 2\n1 -> 3\n\n2 1\n0 -> 4\n1 -> 5\n\n3 1\n0 -> 3\n1 -> 4\n\n4 1\n0 -> 5\n1 -> 0\n\n5 0\n0 -> 1\n1 -> 2\n",
    ),
    (
        "image W one T;",
        Folder::Words,
        "W",
        "msd_2\n\n0 0\n0 -> 0\n1 -> 1\n\n1 1\n0 -> 1\n1 -> 0\n",
    ),
    (
        "image W swap T;",
        Folder::Words,
        "W",
        "msd_2\n\n0 1\n0 -> 0\n1 -> 1\n\n1 0\n0 -> 1\n1 -> 0\n",
    ),
    (
        "image W cst T;",
        Folder::Words,
        "W",
        "msd_2\n\n0 5\n0 -> 0\n1 -> 0\n",
    ),
    (
        "image W two T;",
        Folder::Words,
        "W",
        "msd_2\n\n0 0\n0 -> 0\n1 -> 1\n\n1 1\n0 -> 1\n1 -> 0\n",
    ),
    (
        "image W same T;",
        Folder::Words,
        "W",
        "msd_2\n\n0 0\n0 -> 0\n1 -> 1\n\n1 1\n0 -> 2\n1 -> 3\n\n2 0\n0 -> 2\n1 -> 3\n\n3 2\n0 -> 0\n1 -> 1\n",
    ),
    (
        "image W neg T;",
        Folder::Words,
        "W",
        "msd_2\n\n0 -1\n0 -> 0\n1 -> 1\n\n1 0\n0 -> 1\n1 -> 0\n",
    ),
    (
        "image W big T;",
        Folder::Words,
        "W",
        "msd_2\n\n0 2147483647\n0 -> 0\n1 -> 1\n\n1 -2147483648\n0 -> 1\n1 -> 0\n",
    ),
    (
        "image W extra T;",
        Folder::Words,
        "W",
        "msd_2\n\n0 0\n0 -> 0\n1 -> 1\n\n1 1\n0 -> 1\n1 -> 0\n",
    ),
    (
        "image W one L;",
        Folder::Words,
        "W",
        "lsd_2\n\n0 0\n0 -> 0\n1 -> 1\n\n1 1\n0 -> 1\n1 -> 0\n",
    ),
    (
        "image W two L;",
        Folder::Words,
        "W",
        "lsd_2\n\n0 0\n0 -> 0\n1 -> 1\n\n1 1\n0 -> 1\n1 -> 0\n",
    ),
    (
        "image W g L;",
        Folder::Words,
        "W",
        "lsd_2\n\n0 0\n0 -> 1\n1 -> 2\n\n1 0\n0 -> 2\n1 -> 3\n\n2 0\n0 -> 4\n1 -> 5\n\n3 1\n0 -> 6\n1 -> 7\n\n4 0\n0 -> 0\n1 -> 1\n\n5 1\n0 -> 3\n1 -> 6\n\n6 1\n0 -> 7\n1 -> 0\n\n7 1\n0 -> 5\n1 -> 4\n",
    ),
    (
        "image W one F;",
        Folder::Words,
        "W",
        "msd_fib\n\n0 0\n0 -> 0\n1 -> 1\n\n1 1\n0 -> 0\n",
    ),
    (
        "image W two F;",
        Folder::Words,
        "W",
        "msd_fib\n\n0 0\n0 -> 0\n1 -> 1\n\n1 1\n0 -> 2\n\n2 1\n0 -> 3\n1 -> 4\n\n3 0\n0 -> 5\n1 -> 6\n\n4 0\n0 -> 7\n\n5 1\n0 -> 2\n1 -> 8\n\n6 0\n0 -> 0\n\n7 1\n0 -> 5\n1 -> 9\n\n8 0\n0 -> 5\n\n9 1\n0 -> 0\n",
    ),
    (
        "image W g F;",
        Folder::Words,
        "W",
        "msd_fib\n\n0 0\n0 -> 0\n1 -> 1\n\n1 0\n0 -> 2\n\n2 1\n0 -> 3\n1 -> 4\n\n3 1\n0 -> 5\n1 -> 6\n\n4 1\n0 -> 7\n\n5 0\n0 -> 8\n1 -> 9\n\n6 0\n0 -> 10\n\n7 0\n0 -> 2\n1 -> 11\n\n8 1\n0 -> 12\n1 -> 13\n\n9 0\n0 -> 0\n\n10 0\n0 -> 7\n1 -> 14\n\n11 1\n0 -> 5\n\n12 1\n0 -> 15\n1 -> 16\n\n13 0\n0 -> 8\n\n14 1\n0 -> 12\n\n15 0\n0 -> 10\n1 -> 17\n\n16 0\n0 -> 18\n\n17 1\n0 -> 3\n\n18 1\n0 -> 19\n1 -> 20\n\n19 1\n0 -> 7\n1 -> 14\n\n20 0\n0 -> 21\n\n21 0\n0 -> 5\n1 -> 6\n",
    ),
    (
        "image W fibm F;",
        Folder::Words,
        "W",
        "msd_fib\n\n0 0\n0 -> 0\n1 -> 1\n\n1 1\n0 -> 2\n\n2 0\n0 -> 3\n1 -> 4\n\n3 0\n0 -> 5\n1 -> 6\n\n4 0\n0 -> 7\n\n5 1\n0 -> 2\n1 -> 8\n\n6 0\n0 -> 0\n\n7 1\n0 -> 5\n1 -> 6\n\n8 0\n0 -> 5\n",
    ),
    (
        "image W one M;",
        Folder::Words,
        "W",
        "lsd_fib\n\n0 0\n0 -> 1\n1 -> 2\n\n1 0\n0 -> 1\n1 -> 3\n\n2 1\n0 -> 4\n\n3 0\n0 -> 1\n\n4 1\n0 -> 4\n1 -> 2\n",
    ),
    (
        "image W two M;",
        Folder::Words,
        "W",
        "lsd_fib\n\n0 0\n0 -> 1\n1 -> 2\n\n1 0\n0 -> 3\n1 -> 4\n\n2 1\n0 -> 5\n\n3 0\n0 -> 6\n1 -> 7\n\n4 1\n0 -> 8\n\n5 1\n0 -> 9\n1 -> 10\n\n6 0\n0 -> 11\n1 -> 12\n\n7 0\n0 -> 11\n\n8 1\n0 -> 13\n1 -> 14\n\n9 1\n0 -> 9\n1 -> 15\n\n10 0\n0 -> 6\n\n11 0\n0 -> 3\n1 -> 16\n\n12 1\n0 -> 17\n\n13 1\n0 -> 18\n1 -> 19\n\n14 1\n0 -> 13\n\n15 0\n0 -> 20\n\n16 1\n0 -> 21\n\n17 1\n0 -> 21\n1 -> 22\n\n18 1\n0 -> 8\n1 -> 23\n\n19 0\n0 -> 24\n\n20 0\n0 -> 25\n1 -> 26\n\n21 1\n0 -> 27\n1 -> 28\n\n22 1\n0 -> 27\n\n23 1\n0 -> 18\n\n24 0\n0 -> 24\n1 -> 4\n\n25 0\n0 -> 29\n1 -> 30\n\n26 0\n0 -> 25\n\n27 1\n0 -> 17\n1 -> 10\n\n28 0\n0 -> 3\n\n29 0\n0 -> 20\n1 -> 31\n\n30 1\n0 -> 9\n\n31 0\n0 -> 29\n",
    ),
    (
        "image W four R;",
        Folder::Words,
        "W",
        "msd_2\n\n0 0\n0 -> 0\n1 -> 1\n\n1 0\n0 -> 0\n1 -> 2\n\n2 1\n0 -> 3\n1 -> 1\n\n3 1\n0 -> 3\n1 -> 2\n",
    ),
    (
        "image W fold P;",
        Folder::Words,
        "W",
        "msd_2\n\n0 1\n0 -> 0\n1 -> 1\n\n1 1\n0 -> 2\n1 -> 1\n\n2 0\n0 -> 0\n1 -> 3\n\n3 0\n0 -> 2\n1 -> 3\n",
    ),
    (
        "image W five D;",
        Folder::Words,
        "W",
        "msd_3\n\n0 5\n0 -> 0\n1 -> 1\n2 -> 2\n\n1 6\n0 -> 3\n1 -> 0\n2 -> 1\n\n2 7\n0 -> 0\n1 -> 1\n2 -> 0\n\n3 8\n0 -> 1\n1 -> 0\n2 -> 1\n",
    ),
    (
        "image W three O;",
        Folder::Words,
        "W",
        "msd_2\n\n0 3\n0 -> 0\n1 -> 1\n\n1 4\n0 -> 2\n1 -> 0\n\n2 5\n0 -> 1\n1 -> 2\n",
    ),
    (
        "image W seven S;",
        Folder::Words,
        "W",
        "msd_2\n\n0 1\n0 -> 0\n1 -> 1\n\n1 2\n0 -> 2\n1 -> 2\n\n2 3\n0 -> 2\n1 -> 2\n",
    ),
    (
        "image W sev2 S;",
        Folder::Words,
        "W",
        "msd_2\n\n0 7\n0 -> 0\n1 -> 1\n\n1 7\n0 -> 2\n1 -> 3\n\n2 7\n0 -> 2\n1 -> 2\n\n3 0\n0 -> 2\n1 -> 2\n",
    ),
    (
        "image W w7 Wide;",
        Folder::Words,
        "W",
        "msd_2\n\n0 0\n0 -> 0\n1 -> 1\n\n1 1\n0 -> 2\n1 -> 3\n\n2 0\n0 -> 4\n1 -> 5\n\n3 1\n0 -> 6\n1 -> 0\n\n4 0\n0 -> 1\n1 -> 1\n\n5 1\n0 -> 2\n1 -> 2\n\n6 2\n0 -> 3\n1 -> 3\n",
    ),
    (
        "image W one X;",
        Folder::Words,
        "W",
        "msd_zeck\n\n0 0\n0 -> 0\n1 -> 1\n\n1 1\n0 -> 0\n",
    ),
    (
        "image W two X;",
        Folder::Words,
        "W",
        "msd_zeck\n\n0 0\n0 -> 0\n1 -> 1\n\n1 1\n0 -> 2\n\n2 1\n0 -> 3\n1 -> 4\n\n3 0\n0 -> 5\n1 -> 6\n\n4 0\n0 -> 7\n\n5 1\n0 -> 2\n1 -> 8\n\n6 0\n0 -> 0\n\n7 1\n0 -> 5\n1 -> 9\n\n8 0\n0 -> 5\n\n9 1\n0 -> 0\n",
    ),
    (
        "image W two Z;",
        Folder::Words,
        "W",
        "lsd_zeck\n\n0 0\n0 -> 1\n1 -> 2\n\n1 0\n0 -> 3\n1 -> 4\n\n2 1\n0 -> 5\n\n3 0\n0 -> 6\n1 -> 7\n\n4 1\n0 -> 8\n\n5 1\n0 -> 9\n1 -> 10\n\n6 0\n0 -> 11\n1 -> 12\n\n7 0\n0 -> 11\n\n8 1\n0 -> 13\n1 -> 14\n\n9 1\n0 -> 9\n1 -> 15\n\n10 0\n0 -> 6\n\n11 0\n0 -> 3\n1 -> 16\n\n12 1\n0 -> 17\n\n13 1\n0 -> 18\n1 -> 19\n\n14 1\n0 -> 13\n\n15 0\n0 -> 20\n\n16 1\n0 -> 21\n\n17 1\n0 -> 21\n1 -> 22\n\n18 1\n0 -> 8\n1 -> 23\n\n19 0\n0 -> 24\n\n20 0\n0 -> 25\n1 -> 26\n\n21 1\n0 -> 27\n1 -> 28\n\n22 1\n0 -> 27\n\n23 1\n0 -> 18\n\n24 0\n0 -> 24\n1 -> 4\n\n25 0\n0 -> 29\n1 -> 30\n\n26 0\n0 -> 25\n\n27 1\n0 -> 17\n1 -> 10\n\n28 0\n0 -> 3\n\n29 0\n0 -> 20\n1 -> 31\n\n30 1\n0 -> 9\n\n31 0\n0 -> 29\n",
    ),
    (
        "image W one U5;",
        Folder::Words,
        "W",
        "msd_five\n\n0 0\n0 -> 0\n1 -> 0\n2 -> 0\n3 -> 0\n4 -> 0\n",
    ),
    (
        "image W two Bi;",
        Folder::Words,
        "W",
        "msd_bin\n\n0 0\n0 -> 0\n1 -> 1\n\n1 1\n0 -> 1\n1 -> 0\n",
    ),
    (
        "image W g Un;",
        Folder::Words,
        "W",
        "msd_2\n\n0 0\n0 -> 0\n1 -> 1\n\n1 0\n0 -> 2\n1 -> 3\n\n2 1\n0 -> 4\n1 -> 5\n\n3 1\n0 -> 3\n1 -> 4\n\n4 1\n0 -> 5\n1 -> 0\n\n5 0\n0 -> 1\n1 -> 2\n",
    ),
    (
        "image W g Lead;",
        Folder::Words,
        "W",
        "msd_2\n\n0 0\n0 -> 0\n1 -> 1\n\n1 0\n0 -> 2\n1 -> 3\n\n2 1\n0 -> 4\n1 -> 5\n\n3 1\n0 -> 3\n1 -> 4\n\n4 1\n0 -> 5\n1 -> 0\n\n5 0\n0 -> 1\n1 -> 2\n",
    ),
    (
        "image W two Pairs;",
        Folder::Words,
        "W",
        "msd_fib\n\n0 0\n0 -> 0\n1 -> 1\n\n1 1\n0 -> 2\n\n2 1\n0 -> 3\n1 -> 4\n\n3 0\n0 -> 5\n1 -> 6\n\n4 0\n0 -> 7\n\n5 1\n0 -> 2\n1 -> 8\n\n6 0\n0 -> 0\n\n7 1\n0 -> 5\n1 -> 9\n\n8 0\n0 -> 5\n\n9 1\n0 -> 0\n",
    ),
];

#[test]
fn images_are_stored_as_listed(rt: HostRuntime) {
    expect_texts(&rt, rt.alloc(), imaged(), STORED);
}

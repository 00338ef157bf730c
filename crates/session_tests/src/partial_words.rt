//! Words that lack letters: what their files say in formulas, and what commands make of them.

use crate::given::{expect_scripts, expect_texts};
use crate::tables::{files, table};

/// `G` has a letter at 0 alone, `P` at 1 alone, `H` at 0 and at numbers whose digits are all 1, and `N` nowhere. `b` is no
/// relation's file, and `msd_x` no file of a language.
const FILES: &str = files![
    (Folder::Words, "G", "msd_2\n0 5\n0 -> 0\n"),
    (Folder::Words, "P", "msd_2\n0 -\n0 -> 0\n1 -> 1\n1 7\n"),
    (
        Folder::Words,
        "H",
        "msd_2\n0 5\n0 -> 0\n1 -> 1\n1 6\n1 -> 1\n",
    ),
    (Folder::Words, "N", "msd_2\n0 -\n"),
    (Folder::Automata, "b", "msd_2\n0 1\n0 -> 0\n1 -\n"),
    (Folder::Bases, "msd_x", "{0,1}\n0 -\n* -> 0\n"),
    (
        Folder::Bases,
        "msd_x_addition",
        "{0,1} {0,1} {0,1}\n0 1\n0 0 0 -> 0\n",
    ),
];

/// Scripts, what they print, how they end, and how many texts there are then.
const PRINTED: &str = table![
    (
        "eval w \"$b(0)\";",
        "error 1: F12 File Automata Library/b line 4\n",
        1,
        7,
    ),
    (
        "eval w \"?msd_x 0=0\";",
        "error 1: F12 File Custom Bases/msd_x line 2\n",
        1,
        7,
    ),
    (
        "morphism g \"5->56\"; image U g G; eval w \"U[0]=@5 & U[1]=@6 & (Ax x>1 => ~(U[x]=U[x]))\";",
        "TRUE\n",
        0,
        10,
    ),
    (
        "morphism g \"6->66\"; image U g H;",
        "error 1: F23 LetterMissing 5\n",
        1,
        8,
    ),
    (
        "morphism q \"7->78\"; image Q q P; eval w \"Ax Q[x]=@7 <=> x=2\"; eval v \"Ax Q[x]=@8 <=> x=3\";",
        "TRUE\nTRUE\n",
        0,
        11,
    ),
    (
        "morphism g \"9->99\"; image U g N:",
        "step 1 read 2 1\nstep 2 pad 2 1\nstep 3 valid 1 1\nstep 4 combine 1 1\n",
        0,
        9,
    ),
    (
        "def f \"P[x]!=@0\"; combine C f=7; eval w \"Ax C[x]=@7 <=> x=1\"; eval v \"Ax C[x]=@0 <=> x!=1\";",
        "TRUE\nTRUE\n",
        0,
        11,
    ),
    (
        "morphism h \"0->01 1->10\"; promote T h; eval w \"Ax T[x]=@0 | T[x]=@1\";",
        "TRUE\n",
        0,
        10,
    ),
    (
        "morphism g \"5->5\"; image U g G; image V g U; eval w \"Ax V[x]=G[x] <=> x=0\";",
        "TRUE\n",
        0,
        11,
    ),
];

/// Scripts, and a text that each leaves.
const STORED: &str = table![
    (
        "morphism g \"5->56\"; image U g G;",
        Folder::Words,
        "U",
        "msd_2\n\n0 5\n0 -> 0\n1 -> 1\n\n1 6\n",
    ),
    (
        "morphism q \"7->78\"; image Q q P;",
        Folder::Words,
        "Q",
        "msd_2\n\n0 -\n0 -> 0\n1 -> 1\n\n1 -\n0 -> 2\n1 -> 3\n\n2 7\n\n3 8\n",
    ),
    (
        "morphism g \"9->99\"; image U g N;",
        Folder::Words,
        "U",
        "msd_2\n\n0 -\n",
    ),
    (
        "def f \"G[x]=@5\"; combine C f=7;",
        Folder::Words,
        "C",
        "msd_2\n\n0 7\n0 -> 0\n1 -> 1\n\n1 0\n0 -> 1\n1 -> 1\n",
    ),
    (
        "morphism h \"0->01 1->10\"; promote T h;",
        Folder::Words,
        "T",
        "msd_2\n\n0 0\n0 -> 0\n1 -> 1\n\n1 1\n0 -> 1\n1 -> 0\n",
    ),
    (
        "morphism g \"5->56 6->66\"; image U g H; def f \"U[x]=@6\"; image V g U;",
        Folder::Automata,
        "f",
        "msd_2\n\n0 0\n0 -> 0\n1 -> 1\n\n1 1\n0 -> 2\n1 -> 1\n\n2 1\n",
    ),
];

#[test]
fn words_that_lack_letters_are_read_as_listed(rt: HostRuntime) {
    expect_scripts(&rt, rt.alloc(), FILES, "walnut", PRINTED);
}

#[test]
fn images_and_lists_of_words_that_lack_letters_are_stored(rt: HostRuntime) {
    expect_texts(&rt, rt.alloc(), FILES, STORED);
}

//! Words of combined automata, as they are stored.

use crate::combine_files::combined;
use crate::given::expect_texts;
use crate::tables::table;

/// Scripts, and the words that they store.
const STORED: &str = table![
    (
        "def p \"x<3\"; def q \"x<5\"; combine C p=7 q=9;",
        Folder::Words,
        "C",
        "msd_2\n\n0 7\n0 -> 0\n1 -> 1\n\n1 7\n0 -> 2\n1 -> 3\n\n2 7\n0 -> 3\n1 -> 4\n\n3 9\n0 -> 4\n1 -> 4\n\n4 0\n0 -> 4\n1 -> 4\n",
    ),
    (
        "def p \"x<3\"; def q \"x<5\"; combine C p=7 q=9 p=8;",
        Folder::Words,
        "C",
        "msd_2\n\n0 7\n0 -> 0\n1 -> 1\n\n1 7\n0 -> 2\n1 -> 3\n\n2 7\n0 -> 3\n1 -> 4\n\n3 9\n0 -> 4\n1 -> 4\n\n4 0\n0 -> 4\n1 -> 4\n",
    ),
    (
        "def p \"x<3\"; def q \"x<5\"; combine C p q;",
        Folder::Words,
        "C",
        "msd_2\n\n0 1\n0 -> 0\n1 -> 1\n\n1 1\n0 -> 2\n1 -> 3\n\n2 1\n0 -> 3\n1 -> 4\n\n3 2\n0 -> 4\n1 -> 4\n\n4 0\n0 -> 4\n1 -> 4\n",
    ),
    (
        "def p \"x<3\"; def q \"x<5\"; combine C q p;",
        Folder::Words,
        "C",
        "msd_2\n\n0 1\n0 -> 0\n1 -> 1\n\n1 1\n0 -> 2\n1 -> 3\n\n2 1\n0 -> 3\n1 -> 4\n\n3 1\n0 -> 4\n1 -> 4\n\n4 0\n0 -> 4\n1 -> 4\n",
    ),
    (
        "def p \"x<3\"; def q \"x<5\"; combine C q=1 p=2;",
        Folder::Words,
        "C",
        "msd_2\n\n0 1\n0 -> 0\n1 -> 1\n\n1 1\n0 -> 2\n1 -> 3\n\n2 1\n0 -> 3\n1 -> 4\n\n3 1\n0 -> 4\n1 -> 4\n\n4 0\n0 -> 4\n1 -> 4\n",
    ),
    (
        "def p \"x<3\"; def q \"x<5\"; combine C p;",
        Folder::Words,
        "C",
        "msd_2\n\n0 1\n0 -> 0\n1 -> 1\n\n1 1\n0 -> 2\n1 -> 3\n\n2 1\n0 -> 3\n1 -> 3\n\n3 0\n0 -> 3\n1 -> 3\n",
    ),
    (
        "def p \"x<3\"; def q \"x<5\"; combine C p=0;",
        Folder::Words,
        "C",
        "msd_2\n\n0 0\n0 -> 0\n1 -> 0\n",
    ),
    (
        "def p \"x<3\"; def q \"x<5\"; combine C p=7 q=7;",
        Folder::Words,
        "C",
        "msd_2\n\n0 7\n0 -> 0\n1 -> 1\n\n1 7\n0 -> 2\n1 -> 3\n\n2 7\n0 -> 3\n1 -> 4\n\n3 7\n0 -> 4\n1 -> 4\n\n4 0\n0 -> 4\n1 -> 4\n",
    ),
    (
        "def p \"x<3\"; def q \"x<5\"; combine C p=-3 q=-2147483648;",
        Folder::Words,
        "C",
        "msd_2\n\n0 -3\n0 -> 0\n1 -> 1\n\n1 -3\n0 -> 2\n1 -> 3\n\n2 -3\n0 -> 3\n1 -> 4\n\n3 -2147483648\n0 -> 4\n1 -> 4\n\n4 0\n0 -> 4\n1 -> 4\n",
    ),
    (
        "def p \"x<3\"; def q \"x<5\"; combine C p=0 q=5;",
        Folder::Words,
        "C",
        "msd_2\n\n0 0\n0 -> 0\n1 -> 1\n\n1 0\n0 -> 2\n1 -> 3\n\n2 0\n0 -> 3\n1 -> 4\n\n3 5\n0 -> 4\n1 -> 4\n\n4 0\n0 -> 4\n1 -> 4\n",
    ),
    (
        "def p \"x<3\"; def q \"x<5\"; combine C p=5 p=5 p=5;",
        Folder::Words,
        "C",
        "msd_2\n\n0 5\n0 -> 0\n1 -> 1\n\n1 5\n0 -> 2\n1 -> 3\n\n2 5\n0 -> 3\n1 -> 3\n\n3 0\n0 -> 3\n1 -> 3\n",
    ),
    (
        "def p \"x<3\"; def q \"x<5\"; combine C q=2147483647 p;",
        Folder::Words,
        "C",
        "msd_2\n\n0 2147483647\n0 -> 0\n1 -> 1\n\n1 2147483647\n0 -> 2\n1 -> 3\n\n2 2147483647\n0 -> 3\n1 -> 4\n\n3 2147483647\n0 -> 4\n1 -> 4\n\n4 0\n0 -> 4\n1 -> 4\n",
    ),
    (
        "def no \"x<x\"; combine C no;",
        Folder::Words,
        "C",
        "msd_2\n\n0 0\n0 -> 0\n1 -> 0\n",
    ),
    (
        "def no \"x<x\"; def p \"x<3\"; combine C no=4 p no=9 p=2;",
        Folder::Words,
        "C",
        "msd_2\n\n0 2\n0 -> 0\n1 -> 1\n\n1 2\n0 -> 2\n1 -> 3\n\n2 2\n0 -> 3\n1 -> 3\n\n3 0\n0 -> 3\n1 -> 3\n",
    ),
    (
        "def all \"x=x\"; combine C all=3;",
        Folder::Words,
        "C",
        "msd_2\n\n0 3\n0 -> 0\n1 -> 0\n",
    ),
    (
        "def all \"x=x\"; def p \"x<3\"; combine C p all=3;",
        Folder::Words,
        "C",
        "msd_2\n\n0 1\n0 -> 0\n1 -> 1\n\n1 1\n0 -> 2\n1 -> 3\n\n2 1\n0 -> 3\n1 -> 3\n\n3 3\n0 -> 3\n1 -> 3\n",
    ),
    (
        "def all \"x=x\"; def p \"x<3\"; combine C all=3 p;",
        Folder::Words,
        "C",
        "msd_2\n\n0 3\n0 -> 0\n1 -> 0\n",
    ),
    (
        "def lt \"x<y\"; combine C lt=1;",
        Folder::Words,
        "C",
        "msd_2 msd_2\n\n0 0\n0 0 -> 0\n0 1 -> 1\n1 0 -> 2\n1 1 -> 0\n\n1 1\n0 0 -> 1\n0 1 -> 1\n1 0 -> 1\n1 1 -> 1\n\n2 0\n0 0 -> 2\n0 1 -> 2\n1 0 -> 2\n1 1 -> 2\n",
    ),
    (
        "def lt \"x<y\"; def eq \"x=y\"; combine C lt=-1 eq=0;",
        Folder::Words,
        "C",
        "msd_2 msd_2\n\n0 0\n0 0 -> 0\n0 1 -> 1\n1 0 -> 2\n1 1 -> 0\n\n1 -1\n0 0 -> 1\n0 1 -> 1\n1 0 -> 1\n1 1 -> 1\n\n2 0\n0 0 -> 2\n0 1 -> 2\n1 0 -> 2\n1 1 -> 2\n",
    ),
    (
        "def lt \"x<y\"; def eq \"x=y\"; def gt \"y<x\"; combine C lt=-1 gt=1 eq=5;",
        Folder::Words,
        "C",
        "msd_2 msd_2\n\n0 5\n0 0 -> 0\n0 1 -> 1\n1 0 -> 2\n1 1 -> 0\n\n1 -1\n0 0 -> 1\n0 1 -> 1\n1 0 -> 1\n1 1 -> 1\n\n2 1\n0 0 -> 2\n0 1 -> 2\n1 0 -> 2\n1 1 -> 2\n",
    ),
    (
        "def e \"Ey x=2*y\"; def m \"Ey x=3*y\"; combine C e m;",
        Folder::Words,
        "C",
        "msd_2\n\n0 1\n0 -> 0\n1 -> 1\n\n1 0\n0 -> 2\n1 -> 3\n\n2 1\n0 -> 4\n1 -> 5\n\n3 2\n0 -> 0\n1 -> 1\n\n4 1\n0 -> 2\n1 -> 3\n\n5 0\n0 -> 4\n1 -> 5\n",
    ),
    (
        "def e \"Ey x=2*y\"; def m \"Ey x=3*y\"; combine C m e=5 m=9;",
        Folder::Words,
        "C",
        "msd_2\n\n0 1\n0 -> 0\n1 -> 1\n\n1 0\n0 -> 2\n1 -> 0\n\n2 5\n0 -> 3\n1 -> 4\n\n3 5\n0 -> 2\n1 -> 0\n\n4 0\n0 -> 3\n1 -> 4\n",
    ),
    (
        "def p \"?lsd_2 x<3\"; def q \"?lsd_2 x<5\"; combine C p=7 q=9;",
        Folder::Words,
        "C",
        "lsd_2\n\n0 7\n0 -> 1\n1 -> 2\n\n1 7\n0 -> 2\n1 -> 3\n\n2 7\n0 -> 3\n1 -> 4\n\n3 7\n0 -> 3\n1 -> 5\n\n4 9\n0 -> 4\n1 -> 5\n\n5 0\n0 -> 5\n1 -> 5\n",
    ),
    (
        "def lt \"?lsd_2 x<y\"; combine C lt=4;",
        Folder::Words,
        "C",
        "lsd_2 lsd_2\n\n0 0\n0 0 -> 0\n0 1 -> 1\n1 0 -> 0\n1 1 -> 0\n\n1 4\n0 0 -> 1\n0 1 -> 1\n1 0 -> 0\n1 1 -> 1\n",
    ),
    (
        "def p \"?lsd_3 x=5\"; combine C p=-1;",
        Folder::Words,
        "C",
        "lsd_3\n\n0 0\n0 -> 1\n1 -> 1\n2 -> 2\n\n1 0\n0 -> 1\n1 -> 1\n2 -> 1\n\n2 0\n0 -> 1\n1 -> 3\n2 -> 1\n\n3 -1\n0 -> 3\n1 -> 1\n2 -> 1\n",
    ),
    (
        "reg f1 msd_fib \"(0|1)*1\"; combine F f1;",
        Folder::Words,
        "F",
        "msd_fib\n\n0 0\n0 -> 0\n1 -> 1\n\n1 1\n0 -> 0\n",
    ),
    (
        "reg f1 msd_fib \"(0|1)*1\"; combine F f1=5;",
        Folder::Words,
        "F",
        "msd_fib\n\n0 0\n0 -> 0\n1 -> 1\n\n1 5\n0 -> 0\n",
    ),
    (
        "reg f1 lsd_fib \"1(0|1)*\"; combine F f1;",
        Folder::Words,
        "F",
        "lsd_fib\n\n0 0\n0 -> 1\n1 -> 2\n\n1 0\n0 -> 1\n1 -> 3\n\n2 1\n0 -> 4\n\n3 0\n0 -> 1\n\n4 1\n0 -> 4\n1 -> 2\n",
    ),
    (
        "def lt \"?msd_fib x<y\"; combine C lt;",
        Folder::Words,
        "C",
        "msd_fib msd_fib\n\n0 0\n0 0 -> 0\n0 1 -> 1\n1 0 -> 2\n1 1 -> 3\n\n1 1\n0 0 -> 4\n1 0 -> 5\n\n2 0\n0 0 -> 6\n0 1 -> 7\n\n3 0\n0 0 -> 0\n\n4 1\n0 0 -> 4\n0 1 -> 1\n1 0 -> 5\n1 1 -> 8\n\n5 1\n0 0 -> 4\n0 1 -> 1\n\n6 0\n0 0 -> 6\n0 1 -> 7\n1 0 -> 2\n1 1 -> 9\n\n7 0\n0 0 -> 6\n1 0 -> 2\n\n8 1\n0 0 -> 4\n\n9 0\n0 0 -> 6\n",
    ),
    (
        "def p \"?msd_fib x<3\"; reg f1 msd_fib \"(0|1)*1\"; combine C p=2 f1=1;",
        Folder::Words,
        "C",
        "msd_fib\n\n0 2\n0 -> 0\n1 -> 1\n\n1 2\n0 -> 2\n\n2 2\n0 -> 3\n1 -> 4\n\n3 0\n0 -> 3\n1 -> 4\n\n4 1\n0 -> 3\n",
    ),
    (
        "reg a msd_2 msd_3 \"[1,2]\"; combine C a=6;",
        Folder::Words,
        "C",
        "msd_2 msd_3\n\n0 0\n0 0 -> 0\n0 1 -> 1\n0 2 -> 1\n1 0 -> 1\n1 1 -> 1\n1 2 -> 2\n\n1 0\n0 0 -> 1\n0 1 -> 1\n0 2 -> 1\n1 0 -> 1\n1 1 -> 1\n1 2 -> 1\n\n2 6\n0 0 -> 1\n0 1 -> 1\n0 2 -> 1\n1 0 -> 1\n1 1 -> 1\n1 2 -> 1\n",
    ),
    (
        "reg a lsd_2 lsd_fib \"[1,1]*\"; combine C a=6;",
        Folder::Words,
        "C",
        "lsd_2 lsd_fib\n\n0 6\n0 0 -> 1\n0 1 -> 2\n1 0 -> 3\n1 1 -> 4\n\n1 6\n0 0 -> 1\n0 1 -> 2\n1 0 -> 3\n1 1 -> 2\n\n2 0\n0 0 -> 3\n1 0 -> 3\n\n3 0\n0 0 -> 3\n0 1 -> 2\n1 0 -> 3\n1 1 -> 2\n\n4 6\n0 0 -> 1\n1 0 -> 3\n",
    ),
    (
        "reg a msd_2 \"1*\"; reg b msd_2 \"(10)*\"; combine C a b;",
        Folder::Words,
        "C",
        "msd_2\n\n0 1\n0 -> 0\n1 -> 1\n\n1 1\n0 -> 2\n1 -> 3\n\n2 2\n0 -> 4\n1 -> 5\n\n3 1\n0 -> 4\n1 -> 3\n\n4 0\n0 -> 4\n1 -> 4\n\n5 0\n0 -> 2\n1 -> 4\n",
    ),
    (
        "reg a lsd_2 \"1*\"; reg b lsd_2 \"(10)*\"; combine C a b;",
        Folder::Words,
        "C",
        "lsd_2\n\n0 1\n0 -> 1\n1 -> 2\n\n1 1\n0 -> 1\n1 -> 3\n\n2 1\n0 -> 4\n1 -> 5\n\n3 0\n0 -> 3\n1 -> 3\n\n4 1\n0 -> 1\n1 -> 6\n\n5 1\n0 -> 1\n1 -> 5\n\n6 2\n0 -> 7\n1 -> 3\n\n7 2\n0 -> 8\n1 -> 6\n\n8 2\n0 -> 8\n1 -> 3\n",
    ),
    (
        "combine C odd:",
        Folder::Words,
        "C",
        "msd_2\n\n0 0\n0 -> 0\n1 -> 1\n\n1 1\n0 -> 0\n1 -> 1\n",
    ),
    (
        "combine C one:",
        Folder::Words,
        "C",
        "msd_2\n\n0 0\n0 -> 0\n1 -> 1\n\n1 1\n0 -> 2\n1 -> 2\n\n2 0\n0 -> 2\n1 -> 2\n",
    ),
    (
        "combine C many:",
        Folder::Words,
        "C",
        "msd_2\n\n0 0\n0 -> 0\n1 -> 1\n\n1 1\n0 -> 0\n1 -> 1\n",
    ),
    (
        "combine C odd=2 one=3 many=4 odd=5:",
        Folder::Words,
        "C",
        "msd_2\n\n0 0\n0 -> 0\n1 -> 1\n\n1 2\n0 -> 0\n1 -> 1\n",
    ),
    (
        "combine C many one odd:",
        Folder::Words,
        "C",
        "msd_2\n\n0 0\n0 -> 0\n1 -> 1\n\n1 1\n0 -> 0\n1 -> 1\n",
    ),
    (
        "combine C lt=3:",
        Folder::Words,
        "C",
        "msd_2 msd_2\n\n0 0\n0 0 -> 0\n0 1 -> 1\n1 0 -> 2\n1 1 -> 0\n\n1 3\n0 0 -> 1\n0 1 -> 1\n1 0 -> 1\n1 1 -> 1\n\n2 0\n0 0 -> 2\n0 1 -> 2\n1 0 -> 2\n1 1 -> 2\n",
    ),
    (
        "combine C three=5:",
        Folder::Words,
        "C",
        "msd_3\n\n0 5\n0 -> 0\n1 -> 1\n2 -> 2\n\n1 5\n0 -> 2\n1 -> 1\n2 -> 2\n\n2 0\n0 -> 2\n1 -> 2\n2 -> 2\n",
    ),
    (
        "combine C mixed:",
        Folder::Words,
        "C",
        "msd_2 msd_3\n\n0 1\n0 0 -> 0\n0 1 -> 1\n0 2 -> 1\n1 0 -> 1\n1 1 -> 1\n1 2 -> 1\n\n1 0\n0 0 -> 1\n0 1 -> 1\n0 2 -> 1\n1 0 -> 1\n1 1 -> 1\n1 2 -> 1\n",
    ),
    (
        "combine C mixed2:",
        Folder::Words,
        "C",
        "msd_3 msd_2\n\n0 1\n0 0 -> 0\n0 1 -> 1\n1 0 -> 1\n1 1 -> 1\n2 0 -> 1\n2 1 -> 1\n\n1 0\n0 0 -> 1\n0 1 -> 1\n1 0 -> 1\n1 1 -> 1\n2 0 -> 1\n2 1 -> 1\n",
    ),
    (
        "combine C low:",
        Folder::Words,
        "C",
        "lsd_2\n\n0 1\n0 -> 0\n1 -> 1\n\n1 0\n0 -> 1\n1 -> 1\n",
    ),
    (
        "combine C fibs=8:",
        Folder::Words,
        "C",
        "msd_fib\n\n0 8\n0 -> 0\n1 -> 1\n\n1 8\n0 -> 0\n",
    ),
    (
        "combine C bin bin2:",
        Folder::Words,
        "C",
        "msd_bin\n\n0 1\n0 -> 0\n1 -> 1\n\n1 1\n0 -> 2\n1 -> 1\n\n2 2\n0 -> 2\n1 -> 2\n",
    ),
    (
        "combine C zeck=3:",
        Folder::Words,
        "C",
        "msd_zeck\n\n0 0\n0 -> 0\n1 -> 1\n\n1 3\n0 -> 0\n",
    ),
    (
        "combine C lzeck:",
        Folder::Words,
        "C",
        "lsd_zeck\n\n0 0\n0 -> 1\n1 -> 2\n\n1 0\n0 -> 1\n1 -> 3\n\n2 1\n0 -> 4\n\n3 0\n0 -> 1\n\n4 1\n0 -> 4\n1 -> 2\n",
    ),
    (
        "combine C five=2:",
        Folder::Words,
        "C",
        "msd_five\n\n0 2\n0 -> 0\n1 -> 1\n2 -> 2\n3 -> 1\n4 -> 1\n\n1 0\n0 -> 1\n1 -> 1\n2 -> 1\n3 -> 1\n4 -> 1\n\n2 2\n0 -> 1\n1 -> 1\n2 -> 2\n3 -> 1\n4 -> 1\n",
    ),
];

#[test]
fn combined_words_are_stored_as_listed(rt: HostRuntime) {
    expect_texts(&rt, rt.alloc(), combined(), STORED);
}

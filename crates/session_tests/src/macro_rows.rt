//! Macros in commands: what is printed and stored of scripts with calls of macros.

use crate::given::{expect_scripts, expect_texts};
use crate::tables::{files, table};

/// The macros that the scripts call, the Thue-Morse word, and the pairs of which the first number is the smaller one.
const MACROS: &str = files![
    (Folder::Macros, "dbl", "%0=2*%1"),
    (Folder::Macros, "two", "%0 & %0"),
    (Folder::Macros, "s", "#s()"),
    (Folder::Macros, "e", ""),
    (Folder::Macros, "one", "%0"),
    (Folder::Macros, "yes", "1=1"),
    (Folder::Macros, "six", "6"),
    (Folder::Macros, "p", "x=1%"),
    (Folder::Macros, "pct", "x=%%0"),
    (Folder::Macros, "sp", "% 0=1"),
    (Folder::Macros, "t12", "%12"),
    (Folder::Macros, "big", "%18446744073709551616=1"),
    (Folder::Macros, "max", "%18446744073709551615=1"),
    (Folder::Macros, "swap", "%1<%0"),
    (Folder::Macros, "inner", "#dbl(%0,%0)"),
    (Folder::Macros, "pass", "#%0(%1)"),
    (Folder::Macros, "bad", "x=1 #"),
    (Folder::Macros, "open", "x=1 & #one(2"),
    (Folder::Macros, "cut", "x="),
    (Folder::Macros, "u", "#tri(%0)"),
    (Folder::Macros, "deep", "((((((((%0))))))))"),
    (Folder::Macros, "Ex", "x=1"),
    (Folder::Macros, "lines", "%0\r\n&\r\n%1\r\n"),
    (Folder::Macros, "z", "%007=7"),
    (
        Folder::Macros,
        "square",
        "n>=1 & At t<n => %0[i+t]=%0[i+n+t]",
    ),
    (
        Folder::Macros,
        "a123456789012345678901234567890123456789012345678901234567890123",
        "1=1",
    ),
    (
        Folder::Words,
        "T",
        "msd_2\n0 0\n0 -> 0\n1 -> 1\n1 1\n0 -> 1\n1 -> 0\n",
    ),
    (
        Folder::Automata,
        "lt",
        "msd_2 msd_2\n0 0\n0 0 -> 0\n1 1 -> 0\n0 1 -> 1\n1 1\n* * -> 1\n",
    ),
];

/// The files in `MACROS`.
pub fn macros() -> &'static str {
    MACROS
}

/// Scripts with calls that expand to formulas.
const EXPANDED: &str = table![
    ("eval a \"Ex #dbl(6,x)\";", "TRUE\n", 0, 29),
    ("eval a \"Ex #dbl(7,x)\";", "FALSE\n", 0, 29),
    ("eval a \"Ex #dbl (6,x)\";", "TRUE\n", 0, 29),
    ("eval a \"Ex #dbl \t\r\n(6,x)\";", "TRUE\n", 0, 29),
    ("eval a \"Ex #dbl( 6 , x )\";", "TRUE\n", 0, 29),
    ("eval a \"#yes()\";", "TRUE\n", 0, 29),
    ("eval a \"#yes( )\";", "TRUE\n", 0, 29),
    ("eval a \"#yes(\t\r\n)\";", "TRUE\n", 0, 29),
    ("eval a \"#yes(,)\";", "TRUE\n", 0, 29),
    ("eval a \"#yes(6)\";", "TRUE\n", 0, 29),
    ("eval a \"#yes(#yes(#yes()))\";", "TRUE\n", 0, 29),
    ("eval a \"Ex #dbl(#six(),x)\";", "TRUE\n", 0, 29),
    ("eval a \"Ex #dbl(#one(6),#one(x))\";", "TRUE\n", 0, 29),
    ("eval a \"Ex #one(#dbl(6,#one(x)))\";", "TRUE\n", 0, 29),
    ("eval a \"Ex #dbl(6,x,7)\";", "TRUE\n", 0, 29),
    ("eval a \"Ex #dbl(6,x,)\";", "TRUE\n", 0, 29),
    ("eval a \"Ex #dbl(6,x,,#yes())\";", "TRUE\n", 0, 29),
    ("eval a \"Ax #inner(x) => x=0\";", "TRUE\n", 0, 29),
    ("eval a \"#pass(one,1=1)\";", "TRUE\n", 0, 29),
    ("eval a \"#pass(yes,)\";", "TRUE\n", 0, 29),
    ("eval a \"Ex #pass(#one(one),x=3)\";", "TRUE\n", 0, 29),
    ("eval a \"#one($lt(1,2))\";", "TRUE\n", 0, 29),
    ("eval a \"#one($lt(2,1))\";", "FALSE\n", 0, 29),
    ("eval a \"#two($lt(1,2))\";", "TRUE\n", 0, 29),
    ("eval a \"#swap(1,2)\";", "FALSE\n", 0, 29),
    ("eval a \"#swap(2,1)\";", "TRUE\n", 0, 29),
    ("eval a \"#one(1=1)#e()\";", "TRUE\n", 0, 29),
    ("eval a \"1#e()=1\";", "TRUE\n", 0, 29),
    ("eval a \"1#one(2)=12\";", "TRUE\n", 0, 29),
    ("eval a \"#e(#yes(),#six())1=1\";", "TRUE\n", 0, 29),
    ("eval a \"#one((1=1))\";", "TRUE\n", 0, 29),
    ("eval a \"#one(((1+1)=2))\";", "TRUE\n", 0, 29),
    (
        "eval a \"#t12(0,1,2,3,4,5,6,7,8,9,a,b,1=1)\";",
        "TRUE\n",
        0,
        29,
    ),
    ("eval a \"#z(0,1,2,3,4,5,6,7)\";", "TRUE\n", 0, 29),
    ("eval a \"#lines(1=1,2=2)\";", "TRUE\n", 0, 29),
    ("eval a \"#lines(1=1,2=3)\";", "FALSE\n", 0, 29),
    (
        "eval a \"#a123456789012345678901234567890123456789012345678901234567890123()\";",
        "TRUE\n",
        0,
        29,
    ),
    ("eval a \"#Ex() => Ex #Ex()\";", "", 0, 29),
    ("eval a \"Ex #Ex()\";", "TRUE\n", 0, 29),
    ("eval a \"#one(T[1]=@1)\";", "TRUE\n", 0, 29),
    ("eval a \"#one(T[(1)]=@1 & T[2]=@1)\";", "TRUE\n", 0, 29),
    ("eval a \"Ei,n #square(T)\";", "TRUE\n", 0, 29),
    ("eval a \"Ei,n #one(#square(T))\";", "TRUE\n", 0, 29),
    ("eval a \"Ei,n #square(T) & n=5\";", "FALSE\n", 0, 29),
    ("eval a \"?msd_3 Ex #dbl(6,x)\";", "TRUE\n", 0, 29),
    ("eval a \"~#one(1=2) & #one(2=2)\";", "TRUE\n", 0, 29),
    ("eval a \"Ax,y #one(x<y) => #swap(y,x)\";", "TRUE\n", 0, 29),
    (
        "eval a \"Ex #dbl(6,x)\":",
        "step 1 const 5 4\nstep 2 product 10 4\nstep 3 project 5 4\nstep 4 product 11 4\nstep 5 project 4 3\nstep 6 project 1 1\nTRUE\n",
        0,
        29,
    ),
    (
        "eval a \"Ex 6=2*x\":",
        "step 1 const 5 4\nstep 2 product 10 4\nstep 3 project 5 4\nstep 4 product 11 4\nstep 5 project 4 3\nstep 6 project 1 1\nTRUE\n",
        0,
        29,
    ),
    (
        "eval a \"#two(T[1]=@1)\":",
        "step 1 read 2 2\nstep 2 pad 3 2\nstep 3 valid 2 2\nstep 4 const 3 2\nstep 5 product 4 2\nstep 6 project 1 1\nstep 7 const 3 2\nstep 8 product 4 2\nstep 9 project 1 1\nstep 10 product 1 1\nTRUE\n",
        0,
        29,
    ),
    ("def a \"#dbl(x,y)\":", "", 0, 29),
    (
        "def a \"#swap(x,#six())\"::",
        "step 1 const 5 4\nstep 2 product 14 7\nstep 3 project 6 6\n",
        0,
        29,
    ),
    (
        "macro m \"x=1\"; def a \"#m()\"; macro m \"x=2\"; def b \"#m()\"; eval t \"$a(1) & ~$a(2) & $b(2) & ~$b(1)\";",
        "TRUE\n",
        0,
        32,
    ),
    (
        "macro one \"1=2\"; eval a \"#one(1=1)\"; macro one \"%0\"; eval a \"#one(1=1)\";",
        "FALSE\nTRUE\n",
        0,
        29,
    ),
    (
        "macro f \"#g(%0)\"; macro g \"%0=1\"; def a \"#f(x)\"; macro g \"%0=2\"; def b \"#f(x)\"; eval t \"Ax ($a(x) <=> x=1) & ($b(x) <=> x=2)\";",
        "TRUE\n",
        0,
        33,
    ),
    (
        "macro A \"%0<%1\"; macro E \"A\"; macro I \"1=1\"; eval a \"#A(1,2) & #I()\"; eval b \"Ax #A(x,x+1)\";",
        "TRUE\nTRUE\n",
        0,
        33,
    ),
    (
        "macro dbl \"%0=3*%1\"; eval a \"Ex #dbl(6,x) & x=2\"; eval b \"Ex #dbl(7,x)\";",
        "TRUE\nFALSE\n",
        0,
        30,
    ),
    (
        "def d \"#dbl(x,y)\"; def f \"x=2*y\"; eval a \"Ax,y $d(x,y) <=> $f(x,y)\";",
        "TRUE\n",
        0,
        31,
    ),
];

/// Scripts, and what they store.
const STORED: &str = table![
    ("macro m \"x=1\";", Folder::Macros, "m", "x=1"),
    (
        "macro m \" %0 ;:\t#\r\n  %12%\";",
        Folder::Macros,
        "m",
        " %0 ;:\t#\r\n  %12%",
    ),
    ("macro m \"# é\n\n\";", Folder::Macros, "m", "# é\n\n"),
    ("macro m \"[}{](\";", Folder::Macros, "m", "[}{]("),
    ("macro m \"x\"; macro m \"yy\";", Folder::Macros, "m", "yy"),
    ("macro A9_ \"%%\";", Folder::Macros, "A9_", "%%"),
    ("macro dbl \"2*%0\";", Folder::Macros, "dbl", "2*%0"),
    ("eval a \"Ex #dbl(6,x)\";", Folder::Macros, "dbl", "%0=2*%1"),
    (
        "def a \"#dbl(x,y)\";",
        Folder::Automata,
        "a",
        "msd_2 msd_2\n\n0 1\n0 0 -> 0\n1 0 -> 1\n\n1 0\n0 1 -> 0\n1 1 -> 1\n",
    ),
    (
        "def a \"x=2*y\";",
        Folder::Automata,
        "a",
        "msd_2 msd_2\n\n0 1\n0 0 -> 0\n1 0 -> 1\n\n1 0\n0 1 -> 0\n1 1 -> 1\n",
    ),
    (
        "def a \"#swap(#one(y),x)\";",
        Folder::Automata,
        "a",
        "msd_2 msd_2\n\n0 0\n0 0 -> 0\n0 1 -> 1\n1 1 -> 0\n\n1 1\n0 0 -> 1\n0 1 -> 1\n1 0 -> 1\n1 1 -> 1\n",
    ),
    (
        "def a \"#one(#one(x)<#six())\";",
        Folder::Automata,
        "a",
        "msd_2\n\n0 1\n0 -> 0\n1 -> 1\n\n1 1\n0 -> 2\n1 -> 3\n\n2 1\n0 -> 3\n1 -> 3\n\n3 1\n",
    ),
    ("def a \"#yes()\";", Folder::Automata, "a", "true\n"),
    ("eval a \"#swap(1,2)\";", Folder::Results, "a", "false\n"),
    (
        "eval a \"#one(T[x]=@1)\";",
        Folder::Results,
        "a",
        "msd_2\n\n0 0\n0 -> 0\n1 -> 1\n\n1 1\n0 -> 1\n1 -> 0\n",
    ),
];

#[test]
fn formulas_with_macros_print_as_listed(rt: HostRuntime) {
    expect_scripts(&rt, rt.alloc(), macros(), "walnut", EXPANDED);
}

#[test]
fn macros_and_formulas_with_macros_store_their_texts(rt: HostRuntime) {
    expect_texts(&rt, rt.alloc(), macros(), STORED);
}

//! Macros in commands: the first fault of scripts with calls of macros, and of commands that store macros.

use crate::given::expect_scripts;
use crate::macro_rows::macros;
use crate::tables::table;

/// Calls that are none, places without an argument, and faults of the expanded text.
const FAULTS: &str = table![
    (
        "eval a \"#dbl(6)\";",
        "error 1: F08 MacroArgs dbl 1 1\n",
        1,
        28,
    ),
    (
        "eval a \"#dbl(6,)\";",
        "error 1: F02 Syntax in formula at 4\n",
        1,
        28,
    ),
    (
        "eval a \"#dbl()\";",
        "error 1: F08 MacroArgs dbl 0 0\n",
        1,
        28,
    ),
    (
        "eval a \"#dbl( )\";",
        "error 1: F08 MacroArgs dbl 0 0\n",
        1,
        28,
    ),
    (
        "eval a \"#one()\";",
        "error 1: F08 MacroArgs one 0 0\n",
        1,
        28,
    ),
    (
        "eval a \"#one(\n)\";",
        "error 1: F08 MacroArgs one 0 0\n",
        1,
        28,
    ),
    (
        "eval a \"#tri(6)\";",
        "error 1: F11 Unknown Macro Library/tri\n",
        1,
        28,
    ),
    (
        "eval a \"#tri()\";",
        "error 1: F11 Unknown Macro Library/tri\n",
        1,
        28,
    ),
    (
        "eval a \"#One(1=1)\";",
        "error 1: F11 Unknown Macro Library/One\n",
        1,
        28,
    ),
    ("eval a \"#s()\";", "error 1: F09 MacroDepth s\n", 1, 28),
    (
        "eval a \"#s(#tri())\";",
        "error 1: F11 Unknown Macro Library/tri\n",
        1,
        28,
    ),
    (
        "eval a \"1=1 & #s()\";",
        "error 1: F09 MacroDepth s\n",
        1,
        28,
    ),
    (
        "eval a \"#big(1)\";",
        "error 1: F08 MacroArgs big 18446744073709551615 1\n",
        1,
        28,
    ),
    (
        "eval a \"#max(1)\";",
        "error 1: F08 MacroArgs max 18446744073709551615 1\n",
        1,
        28,
    ),
    (
        "eval a \"#big()\";",
        "error 1: F08 MacroArgs big 18446744073709551615 0\n",
        1,
        28,
    ),
    (
        "eval a \"#t12(0,1)\";",
        "error 1: F08 MacroArgs t12 12 2\n",
        1,
        28,
    ),
    ("eval a \"#z(0)\";", "error 1: F08 MacroArgs z 7 1\n", 1, 28),
    (
        "eval a \"#z(0,1,2,3,4,5,6)\";",
        "error 1: F08 MacroArgs z 7 7\n",
        1,
        28,
    ),
    (
        "eval a \"#\";",
        "error 1: F02 Syntax in macro at 0\n",
        1,
        28,
    ),
    (
        "eval a \"x=1 #\";",
        "error 1: F02 Syntax in macro at 4\n",
        1,
        28,
    ),
    (
        "eval a \"x=1 & # \";",
        "error 1: F02 Syntax in macro at 6\n",
        1,
        28,
    ),
    (
        "eval a \"#1(x)\";",
        "error 1: F02 Syntax in macro at 0\n",
        1,
        28,
    ),
    (
        "eval a \"#_a(x)\";",
        "error 1: F02 Syntax in macro at 0\n",
        1,
        28,
    ),
    (
        "eval a \"# one(x)\";",
        "error 1: F02 Syntax in macro at 0\n",
        1,
        28,
    ),
    (
        "eval a \"#one\";",
        "error 1: F02 Syntax in macro at 0\n",
        1,
        28,
    ),
    (
        "eval a \"#one x\";",
        "error 1: F02 Syntax in macro at 0\n",
        1,
        28,
    ),
    (
        "eval a \"x=1 & #one\";",
        "error 1: F02 Syntax in macro at 6\n",
        1,
        28,
    ),
    (
        "eval a \"#one[x]\";",
        "error 1: F02 Syntax in macro at 0\n",
        1,
        28,
    ),
    (
        "eval a \"#one(\";",
        "error 1: F02 Syntax in macro at 0\n",
        1,
        28,
    ),
    (
        "eval a \"#one(x\";",
        "error 1: F02 Syntax in macro at 0\n",
        1,
        28,
    ),
    (
        "eval a \"#one((x)\";",
        "error 1: F02 Syntax in macro at 0\n",
        1,
        28,
    ),
    (
        "eval a \"x=1 & #one((x=1) & (y=1)\";",
        "error 1: F02 Syntax in macro at 6\n",
        1,
        28,
    ),
    (
        "eval a \"##one(x)\";",
        "error 1: F02 Syntax in macro at 0\n",
        1,
        28,
    ),
    (
        "eval a \"#a1234567890123456789012345678901234567890123456789012345678901234()\";",
        "error 1: F02 Syntax in macro at 0\n",
        1,
        28,
    ),
    (
        "eval a \"#one(x=1 #)\";",
        "error 1: F02 Syntax in macro at 4\n",
        1,
        28,
    ),
    (
        "eval a \"#one( #)\";",
        "error 1: F02 Syntax in macro at 1\n",
        1,
        28,
    ),
    (
        "eval a \"#dbl(x,y #)\";",
        "error 1: F02 Syntax in macro at 2\n",
        1,
        28,
    ),
    (
        "eval a \"#one(#one(xx #))\";",
        "error 1: F02 Syntax in macro at 3\n",
        1,
        28,
    ),
    (
        "eval a \"#bad()\";",
        "error 1: F02 Syntax in macro at 4\n",
        1,
        28,
    ),
    (
        "eval a \"#one(#bad())\";",
        "error 1: F02 Syntax in macro at 4\n",
        1,
        28,
    ),
    (
        "eval a \"#open()\";",
        "error 1: F02 Syntax in macro at 6\n",
        1,
        28,
    ),
    (
        "eval a \"x=1 & #open()\";",
        "error 1: F02 Syntax in macro at 6\n",
        1,
        28,
    ),
    (
        "eval a \"#pass( one,1=1)\";",
        "error 1: F02 Syntax in macro at 0\n",
        1,
        28,
    ),
    (
        "eval a \"#pass(,1=1)\";",
        "error 1: F02 Syntax in macro at 0\n",
        1,
        28,
    ),
    (
        "eval a \"#pass(1,1=1)\";",
        "error 1: F02 Syntax in macro at 0\n",
        1,
        28,
    ),
    (
        "eval a \"#one(x=1)  y\";",
        "error 1: F02 Syntax in formula at 5\n",
        1,
        28,
    ),
    (
        "eval a \"#cut()\";",
        "error 1: F02 Syntax in formula at 2\n",
        1,
        28,
    ),
    (
        "eval a \"#one(#cut())\";",
        "error 1: F02 Syntax in formula at 2\n",
        1,
        28,
    ),
    (
        "eval a \"#e()\";",
        "error 1: F02 Syntax in formula at 0\n",
        1,
        28,
    ),
    (
        "eval a \"#e() \";",
        "error 1: F02 Syntax in formula at 1\n",
        1,
        28,
    ),
    (
        "eval a \"#cut() & x=1\";",
        "error 1: F02 Syntax in formula at 3\n",
        1,
        28,
    ),
    (
        "eval a \"#two(x)\";",
        "error 1: F02 Syntax in formula at 2\n",
        1,
        28,
    ),
    (
        "eval a \"#p()\";",
        "error 1: F02 Syntax in formula at 3\n",
        1,
        28,
    ),
    (
        "eval a \"#pct(x)\";",
        "error 1: F02 Syntax in formula at 2\n",
        1,
        28,
    ),
    (
        "eval a \"#sp(x)\";",
        "error 1: F02 Syntax in formula at 0\n",
        1,
        28,
    ),
    (
        "eval a \"#one(x],y)\";",
        "error 1: F02 Syntax in formula at 1\n",
        1,
        28,
    ),
    (
        "eval a \"#one([x,y])\";",
        "error 1: F02 Syntax in formula at 0\n",
        1,
        28,
    ),
    (
        "eval a \"#one(x=1) | #one(y=2) & z=3\";",
        "error 1: F03 MixedChain at 10\n",
        1,
        28,
    ),
    (
        "eval a \"#one(x)=18446744073709551616\";",
        "error 1: F04 Number in formula at 2\n",
        1,
        28,
    ),
    (
        "eval a \"#one(x)*#one(y)=2\";",
        "error 1: F05 NotLinear at 1\n",
        1,
        28,
    ),
    (
        "eval a \"#one(x)*#six()*#one(y)=2\";",
        "error 1: F05 NotLinear at 3\n",
        1,
        28,
    ),
    (
        "eval a \"x=1 => #one(x=1) => x=1\";",
        "error 1: F03 MixedChain at 11\n",
        1,
        28,
    ),
    (
        "eval a \"T[x]=@#e()2147483648\";",
        "error 1: F04 Number in formula at 5\n",
        1,
        28,
    ),
    (
        "eval a \"%0=1\";",
        "error 1: F02 Syntax in formula at 0\n",
        1,
        28,
    ),
    (
        "eval a \"x%1=1\";",
        "error 1: F02 Syntax in formula at 1\n",
        1,
        28,
    ),
];

/// Commands that store macros, and their heads.
const HEADS: &str = table![
    ("macro m \"x\";", "", 0, 29),
    ("macro m\"x\";", "", 0, 29),
    ("macro\tm\n\"x\" ;", "", 0, 29),
    ("macro m \"\" ; eval a \"1#m()=1\";", "TRUE\n", 0, 30),
    ("macro m \"%0;%1:: #c\";", "", 0, 29),
    (
        "macro m \"x\" y;",
        "error 1: F02 Syntax in command at 12\n",
        1,
        28,
    ),
    (
        "macro m \"x\" \"y\";",
        "error 1: F02 Syntax in command at 12\n",
        1,
        28,
    ),
    (
        "macro \"x\";",
        "error 1: F02 Syntax in command at 6\n",
        1,
        28,
    ),
    ("macro m;", "error 1: F02 Syntax in command at 7\n", 1, 28),
    ("macro m x;", "error 1: F02 Syntax in command at 8\n", 1, 28),
    (
        "macro 1 \"x\";",
        "error 1: F02 Syntax in command at 6\n",
        1,
        28,
    ),
    ("macro;", "error 1: F02 Syntax in command at 5\n", 1, 28),
    (
        "macro m=1 \"x\";",
        "error 1: F02 Syntax in command at 6\n",
        1,
        28,
    ),
    (
        "macro m.txt \"x\";",
        "error 1: F02 Syntax in command at 6\n",
        1,
        28,
    ),
    (
        "macro _m \"x\";",
        "error 1: F02 Syntax in command at 6\n",
        1,
        28,
    ),
    ("macro m1_ \"x\";", "", 0, 29),
    (
        "macro a123456789012345678901234567890123456789012345678901234567890123 \"x\";",
        "",
        0,
        28,
    ),
    (
        "macro a1234567890123456789012345678901234567890123456789012345678901234 \"x\";",
        "error 1: F02 Syntax in command at 6\n",
        1,
        28,
    ),
    ("macro m \"x\":", "", 0, 29),
    ("macro m \"x\"::", "", 0, 29),
    (
        "macro m \"x",
        "error 1: F02 Syntax in command at 10\n",
        1,
        28,
    ),
    (
        "macro m \"x\"",
        "error 1: F02 Syntax in command at 11\n",
        1,
        28,
    ),
];

#[test]
fn calls_of_macros_have_these_faults(rt: HostRuntime) {
    expect_scripts(&rt, rt.alloc(), macros(), "walnut", FAULTS);
}

#[test]
fn macros_are_stored_where_their_heads_are_whole(rt: HostRuntime) {
    expect_scripts(&rt, rt.alloc(), macros(), "walnut", HEADS);
}

//! Macros in commands: texts with several faults, of which the first decides.

use crate::given::expect_scripts;
use crate::macro_rows::macros;
use crate::tables::table;

/// Scripts, and what they print.
const ORDER: &str = table![
    (
        "eval a \"#tri(#dbl(1))\";",
        "error 1: F08 MacroArgs dbl 1 1\n",
        1,
        28,
    ),
    (
        "eval a \"#tri(#)\";",
        "error 1: F02 Syntax in macro at 0\n",
        1,
        28,
    ),
    (
        "eval a \"#tri(#s())\";",
        "error 1: F09 MacroDepth s\n",
        1,
        28,
    ),
    (
        "eval a \"#tri(#trj())\";",
        "error 1: F11 Unknown Macro Library/trj\n",
        1,
        28,
    ),
    (
        "eval a \"#tri() #trj()\";",
        "error 1: F11 Unknown Macro Library/tri\n",
        1,
        28,
    ),
    (
        "eval a \"#trj() #tri()\";",
        "error 1: F11 Unknown Macro Library/trj\n",
        1,
        28,
    ),
    (
        "eval a \"#dbl(#tri())\";",
        "error 1: F11 Unknown Macro Library/tri\n",
        1,
        28,
    ),
    (
        "eval a \"#dbl(#dbl(1))\";",
        "error 1: F08 MacroArgs dbl 1 1\n",
        1,
        28,
    ),
    (
        "eval a \"#u(#)\";",
        "error 1: F02 Syntax in macro at 0\n",
        1,
        28,
    ),
    (
        "eval a \"#u(1)\";",
        "error 1: F11 Unknown Macro Library/tri\n",
        1,
        28,
    ),
    (
        "eval a \"#u(#trj())\";",
        "error 1: F11 Unknown Macro Library/trj\n",
        1,
        28,
    ),
    (
        "eval a \"#one(#tri()) #\";",
        "error 1: F11 Unknown Macro Library/tri\n",
        1,
        28,
    ),
    (
        "eval a \"#one(1=1) # #tri()\";",
        "error 1: F02 Syntax in macro at 10\n",
        1,
        28,
    ),
    (
        "eval a \"#tri() #\";",
        "error 1: F11 Unknown Macro Library/tri\n",
        1,
        28,
    ),
    (
        "eval a \"# #tri()\";",
        "error 1: F02 Syntax in macro at 0\n",
        1,
        28,
    ),
    (
        "eval a \"#six( #tri() ) #\";",
        "error 1: F11 Unknown Macro Library/tri\n",
        1,
        28,
    ),
    (
        "eval a \"#yes(#tri())\";",
        "error 1: F11 Unknown Macro Library/tri\n",
        1,
        28,
    ),
    (
        "eval a \"#dbl(6,x,#tri())\";",
        "error 1: F11 Unknown Macro Library/tri\n",
        1,
        28,
    ),
    (
        "eval a \"#dbl(6,#bad())\";",
        "error 1: F02 Syntax in macro at 4\n",
        1,
        28,
    ),
    (
        "eval a \"#dbl(#bad())\";",
        "error 1: F02 Syntax in macro at 4\n",
        1,
        28,
    ),
    (
        "eval a \"x= #tri()\";",
        "error 1: F11 Unknown Macro Library/tri\n",
        1,
        28,
    ),
    (
        "eval a \"x*y=2 & #tri()\";",
        "error 1: F11 Unknown Macro Library/tri\n",
        1,
        28,
    ),
    (
        "eval a \"x= #dbl(6)\";",
        "error 1: F08 MacroArgs dbl 1 1\n",
        1,
        28,
    ),
    (
        "eval a \"$g(1) & #tri()\";",
        "error 1: F11 Unknown Macro Library/tri\n",
        1,
        28,
    ),
    (
        "eval a \"W[1]=@1 & #tri()\";",
        "error 1: F11 Unknown Macro Library/tri\n",
        1,
        28,
    ),
    (
        "eval a \"?msd_41 #tri()\";",
        "error 1: F11 Unknown Macro Library/tri\n",
        1,
        28,
    ),
    (
        "eval a \"?msd_41 #cut()\";",
        "error 1: F02 Syntax in formula at 10\n",
        1,
        28,
    ),
    (
        "eval a \"$g(1) & #cut()\";",
        "error 1: F02 Syntax in formula at 10\n",
        1,
        28,
    ),
    (
        "eval a \"#one($g(1)) & #one(W[0]=@0)\";",
        "error 1: F11 Unknown Automata Library/g\n",
        1,
        28,
    ),
    (
        "eval a \"#one(W[0]=@0) & #one($g(1))\";",
        "error 1: F11 Unknown Word Automata Library/W\n",
        1,
        28,
    ),
    (
        "eval a \"?msd_41 #one($lt(1))\";",
        "error 1: F14 SystemUnknown msd_41\n",
        1,
        28,
    ),
    (
        "eval a \"#one($lt(1)) & ?msd_41 1=1\";",
        "error 1: F14 SystemUnknown msd_41\n",
        1,
        28,
    ),
    (
        "eval a \"#one($lt(1))\";",
        "error 1: F13 Arity lt 2 1\n",
        1,
        28,
    ),
    (
        "eval a \"#one(T[1][2]=@0)\";",
        "error 1: F13 Arity T 1 2\n",
        1,
        28,
    ),
    (
        "eval a \"?msd_3 #one(x=1) & #one(T[x]=@0)\";",
        "error 1: F16 Clash x msd_3 msd_2\n",
        1,
        28,
    ),
    (
        "eval 1 \"#tri()\";",
        "error 1: F02 Syntax in command at 5\n",
        1,
        28,
    ),
    (
        "eval a #tri();",
        "error 1: F02 Syntax in command at 7\n",
        1,
        28,
    ),
    (
        "eval a \"#tri()\" b;",
        "error 1: F02 Syntax in command at 16\n",
        1,
        28,
    ),
    (
        "def a \"#tri()\";",
        "error 1: F11 Unknown Macro Library/tri\n",
        1,
        28,
    ),
    (
        "def a \"#dbl(6)\";",
        "error 1: F08 MacroArgs dbl 1 1\n",
        1,
        28,
    ),
    ("def a \"#\";", "error 1: F02 Syntax in macro at 0\n", 1, 28),
    (
        "def a \"x= #one(y) #cut()\";",
        "error 1: F02 Syntax in formula at 5\n",
        1,
        28,
    ),
    (
        "reg a {0} \"#one(0)\";",
        "error 1: F02 Syntax in regex at 0\n",
        1,
        28,
    ),
    (
        "morphism a \"#one(0)->0\";",
        "error 1: F02 Syntax in rules at 0\n",
        1,
        28,
    ),
];

#[test]
fn the_first_fault_decides(rt: HostRuntime) {
    expect_scripts(&rt, rt.alloc(), macros(), "walnut", ORDER);
}

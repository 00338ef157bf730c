//! Systems of users in commands: what is printed of scripts over stores that hold their files, and how these end.

use crate::tables::{ROW_END, first_field, table};
use crate::user_system_files::{ask, end_of, expect_added, run_over_files};
use crate::whole::expect_run;

/// Systems, and what is printed where they are asked whether 6 is a double.
const QUESTIONS: &str = table![
    ("msd_bin", "TRUE\n"),
    ("lsd_bin", "TRUE\n"),
    ("msd_own", "TRUE\n"),
    ("lsd_own", "TRUE\n"),
    ("msd_zeck", "TRUE\n"),
    ("lsd_zeck", "TRUE\n"),
    ("msd_trib", "TRUE\n"),
    ("lsd_trib", "TRUE\n"),
    ("msd_five", "TRUE\n"),
    ("lsd_five", "TRUE\n"),
    ("msd_fibo", "TRUE\n"),
    ("lsd_fibo", "TRUE\n"),
    (
        "msd_abcdefghijklmnopqrstuvwxyzABCDEFGHIJKLMNOPQRSTUVWXYZ012345",
        "TRUE\n",
    ),
    (
        "lsd_abcdefghijklmnopqrstuvwxyzABCDEFGHIJKLMNOPQRSTUVWXYZ012345",
        "TRUE\n",
    ),
    ("msd_wide", "TRUE\n"),
    ("lsd_wide", "TRUE\n"),
    (
        "msd_wrong",
        "error 1: F15 NotAdmitted msd_wrong SuccessorLaw\n",
    ),
    (
        "lsd_wrong",
        "error 1: F15 NotAdmitted lsd_wrong SuccessorLaw\n",
    ),
    ("msd_nil", "error 1: F15 NotAdmitted msd_nil Finite\n"),
    ("lsd_nil", "error 1: F15 NotAdmitted lsd_nil Finite\n"),
    ("msd_zeros", "error 1: F15 NotAdmitted msd_zeros Finite\n"),
    ("lsd_zeros", "error 1: F15 NotAdmitted lsd_zeros Finite\n"),
    ("msd_lost", "error 1: F15 NotAdmitted msd_lost NoZero\n"),
    ("lsd_lost", "error 1: F15 NotAdmitted lsd_lost NoZero\n"),
    ("msd_lost2", "error 1: F15 NotAdmitted msd_lost2 NoZero\n"),
    ("lsd_lost2", "error 1: F15 NotAdmitted lsd_lost2 NoZero\n"),
    ("msd_late", "error 1: F15 NotAdmitted msd_late NoZero\n"),
    ("lsd_late", "error 1: F15 NotAdmitted lsd_late NoZero\n"),
    ("msd_early", "error 1: F15 NotAdmitted msd_early NoZero\n"),
    ("lsd_early", "error 1: F15 NotAdmitted lsd_early NoZero\n"),
    ("msd_tail", "error 1: F15 NotAdmitted msd_tail NoZero\n"),
    ("lsd_tail", "error 1: F15 NotAdmitted lsd_tail NoZero\n"),
    (
        "msd_tailed",
        "error 1: F15 NotAdmitted msd_tailed ZeroLaw\n",
    ),
    (
        "lsd_tailed",
        "error 1: F15 NotAdmitted lsd_tailed ZeroLaw\n",
    ),
    ("msd_fifth", "error 1: F15 NotAdmitted msd_fifth NoZero\n"),
    ("lsd_fifth", "error 1: F15 NotAdmitted lsd_fifth NoZero\n"),
    ("msd_any", "error 1: F15 NotAdmitted msd_any ZeroLaw\n"),
    ("lsd_any", "error 1: F15 NotAdmitted lsd_any ZeroLaw\n"),
    ("msd_gap", "error 1: F15 NotAdmitted msd_gap SuccessorLaw\n"),
    ("lsd_gap", "error 1: F15 NotAdmitted lsd_gap SuccessorLaw\n"),
    ("msd_left", "error 1: F15 NotAdmitted msd_left ZeroLaw\n"),
    ("lsd_left", "error 1: F15 NotAdmitted lsd_left ZeroLaw\n"),
    (
        "msd_right",
        "error 1: F15 NotAdmitted msd_right SuccessorLaw\n",
    ),
    (
        "lsd_right",
        "error 1: F15 NotAdmitted lsd_right SuccessorLaw\n",
    ),
    ("msd_two", "error 1: F15 NotAdmitted msd_two ZeroLaw\n"),
    ("lsd_two", "error 1: F15 NotAdmitted lsd_two ZeroLaw\n"),
    (
        "msd_twoones",
        "error 1: F15 NotAdmitted msd_twoones SuccessorLaw\n",
    ),
    (
        "lsd_twoones",
        "error 1: F15 NotAdmitted lsd_twoones SuccessorLaw\n",
    ),
    (
        "msd_thousand",
        "error 1: F15 NotAdmitted msd_thousand SuccessorLaw\n",
    ),
    (
        "lsd_thousand",
        "error 1: F15 NotAdmitted lsd_thousand SuccessorLaw\n",
    ),
    ("msd_below", "error 1: F15 NotAdmitted msd_below ZeroLaw\n"),
    ("lsd_below", "error 1: F15 NotAdmitted lsd_below ZeroLaw\n"),
    (
        "msd_stand",
        "error 1: F15 NotAdmitted msd_stand SuccessorLaw\n",
    ),
    (
        "lsd_stand",
        "error 1: F15 NotAdmitted lsd_stand SuccessorLaw\n",
    ),
    (
        "msd_alone",
        "error 1: F14 SystemUnknown msd_alone_addition\n",
    ),
    (
        "lsd_alone",
        "error 1: F14 SystemUnknown msd_alone_addition\n",
    ),
    ("msd_sum", "error 1: F14 SystemUnknown msd_sum\n"),
    ("lsd_sum", "error 1: F14 SystemUnknown lsd_sum\n"),
    ("msd_half", "error 1: F14 SystemUnknown lsd_half_addition\n"),
    ("lsd_half", "error 1: F14 SystemUnknown lsd_half_addition\n"),
    ("msd_none", "error 1: F14 SystemUnknown msd_none\n"),
    ("lsd_none", "error 1: F14 SystemUnknown lsd_none\n"),
    ("msd_both", "TRUE\n"),
    (
        "lsd_both",
        "error 1: F15 NotAdmitted lsd_both SuccessorLaw\n",
    ),
    (
        "msd_spoilt",
        "error 1: F12 File Custom Bases/lsd_spoilt line 1\n",
    ),
    (
        "lsd_spoilt",
        "error 1: F12 File Custom Bases/lsd_spoilt line 1\n",
    ),
    (
        "msd_first",
        "error 1: F12 File Custom Bases/msd_first line 1\n",
    ),
    ("lsd_first", "TRUE\n"),
    ("msd_fib", "TRUE\n"),
    ("lsd_fib", "TRUE\n"),
    ("msd_2", "TRUE\n"),
    ("lsd_2", "TRUE\n"),
    ("msd_41", "error 1: F14 SystemUnknown msd_41\n"),
    ("lsd_41", "error 1: F14 SystemUnknown lsd_41\n"),
    ("msd_2a", "error 1: F14 SystemUnknown msd_2a\n"),
    ("lsd_2a", "error 1: F14 SystemUnknown lsd_2a\n"),
    ("msd_02", "error 1: F14 SystemUnknown msd_02\n"),
    ("lsd_02", "error 1: F14 SystemUnknown lsd_02\n"),
    (
        "msd_sixteen",
        "error 1: F15 NotAdmitted msd_sixteen SuccessorLaw\n",
    ),
    ("msd_seventeen", "error 1: F18 Letters step 11\n"),
    ("lsd_seventeen", "error 1: F18 Letters step 13\n"),
    ("msd_forty", "error 1: F18 Letters step 3\n"),
    ("lsd_forty", "error 1: F18 Letters step 4\n"),
];

/// Scripts, what they print, the status, and how many texts they store.
const SCRIPTS: &str = table![
    (
        "eval a \"?msd_none x=\";",
        "error 1: F02 Syntax in formula at 12\n",
        1,
        0,
    ),
    (
        "eval a \"?msd_wrong x=1 | y=2 & z=3\";",
        "error 1: F03 MixedChain at 21\n",
        1,
        0,
    ),
    (
        "eval a \"?msd_wrong x*y=2\";",
        "error 1: F05 NotLinear at 12\n",
        1,
        0,
    ),
    (
        "eval a \"?msd_abcdefghijklmnopqrstuvwxyzABCDEFGHIJKLMNOPQRSTUVWXYZ0123456 0=0\";",
        "error 1: F02 Syntax in formula at 1\n",
        1,
        0,
    ),
    (
        "eval a \"?msd_none 0=0 & $q(1)\";",
        "error 1: F11 Unknown Automata Library/q\n",
        1,
        0,
    ),
    (
        "eval a \"?msd_wrong 0=0 & W[0]=@1\";",
        "error 1: F11 Unknown Word Automata Library/W\n",
        1,
        0,
    ),
    (
        "def f \"x=1\"; eval a \"?msd_wrong 0=0 & $f(1,2)\";",
        "error 1: F15 NotAdmitted msd_wrong SuccessorLaw\n",
        1,
        1,
    ),
    (
        "def f \"x=1\"; eval a \"?msd_bin 0=0 & $f(1,2)\";",
        "error 1: F13 Arity f 1 2\n",
        1,
        1,
    ),
    (
        "reg f {0,1} \"0*1\"; eval a \"?msd_wrong 0=0 & $f(1)\";",
        "error 1: F15 NotAdmitted msd_wrong SuccessorLaw\n",
        1,
        1,
    ),
    (
        "reg f {0,1} \"0*1\"; eval a \"?msd_bin 0=0 & $f(1)\";",
        "error 1: F21 Plain f\n",
        1,
        1,
    ),
    (
        "eval a \"?msd_wrong x=1 & (?msd_2 x=1)\";",
        "error 1: F15 NotAdmitted msd_wrong SuccessorLaw\n",
        1,
        0,
    ),
    (
        "eval a \"?msd_bin x=1 & (?msd_2 x=1)\";",
        "error 1: F16 Clash x msd_bin msd_2\n",
        1,
        0,
    ),
    (
        "eval a \"?msd_bin x=1 & (?msd_fibo x=1)\";",
        "error 1: F16 Clash x msd_bin msd_fibo\n",
        1,
        0,
    ),
    (
        "eval a \"?msd_bin x=1 & (?lsd_bin x=1)\";",
        "error 1: F16 Clash x msd_bin lsd_bin\n",
        1,
        0,
    ),
    (
        "eval a \"?msd_wrong x=1 & (?lsd_2 y=1)\";",
        "error 1: F15 NotAdmitted msd_wrong SuccessorLaw\n",
        1,
        0,
    ),
    (
        "eval a \"?msd_bin x=1 & (?lsd_bin y=1)\";",
        "error 1: F17 Direction msd_bin lsd_bin\n",
        1,
        0,
    ),
    (
        "eval a \"(?msd_wrong 0=0) & ?msd_any 0=0\";",
        "error 1: F15 NotAdmitted msd_wrong SuccessorLaw\n",
        1,
        0,
    ),
    (
        "eval a \"(?msd_any 0=0) & ?msd_wrong 0=0\";",
        "error 1: F15 NotAdmitted msd_any ZeroLaw\n",
        1,
        0,
    ),
    (
        "eval a \"(?msd_wrong 0=0) & ?msd_none 0=0\";",
        "error 1: F15 NotAdmitted msd_wrong SuccessorLaw\n",
        1,
        0,
    ),
    (
        "eval a \"(?msd_bin 0=0) & (?msd_none 0=0) & ?msd_wrong 0=0\";",
        "error 1: F14 SystemUnknown msd_none\n",
        1,
        0,
    ),
    (
        "eval a \"(?msd_bin 0=0) & (?msd_spoilt 0=0) & ?msd_none 0=0\";",
        "error 1: F12 File Custom Bases/lsd_spoilt line 1\n",
        1,
        0,
    ),
    (
        "eval a \"$g(0) & ?msd_wrong 0=0\";",
        "error 1: F14 SystemUnknown msd_gone\n",
        1,
        0,
    ),
    (
        "eval a \"(?msd_wrong 0=0) & $g(0)\";",
        "error 1: F15 NotAdmitted msd_wrong SuccessorLaw\n",
        1,
        0,
    ),
    ("eval a \"G[0]=@5 & ~(G[1]=@5)\";", "TRUE\n", 0, 1),
    (
        "eval a \"G[0]=@5 & ?msd_wrong 0=0\";",
        "error 1: F15 NotAdmitted msd_wrong SuccessorLaw\n",
        1,
        0,
    ),
    (
        "eval a \"?msd_zeck Ei F[i]=@1 & F[i+1]=@1\";",
        "FALSE\n",
        0,
        1,
    ),
    (
        "eval a \"?msd_zeck Ei F[i]=@0 & F[i+1]=@0\";",
        "TRUE\n",
        0,
        1,
    ),
    ("eval a \"Ax $b(x)\";", "TRUE\n", 0, 1),
    (
        "def f \"?msd_bin x=1\"; eval a \"$f(1) & ~$f(2)\";",
        "TRUE\n",
        0,
        2,
    ),
    (
        "def f \"?msd_bin x=1\"; eval a \"x=1 & $f(x)\";",
        "error 1: F16 Clash x msd_2 msd_bin\n",
        1,
        1,
    ),
    (
        "def f \"?lsd_bin x=1\"; eval a \"?msd_bin x=1 & $f(y)\";",
        "error 1: F17 Direction msd_bin lsd_bin\n",
        1,
        1,
    ),
    (
        "def f \"?msd_wrong x=1\"; eval a \"$f(1)\";",
        "error 1: F15 NotAdmitted msd_wrong SuccessorLaw\nerror 1: F11 Unknown Automata Library/f\n",
        1,
        0,
    ),
    (
        "eval a \"?msd_bin 0=0\";\neval b \"?msd_wrong 0=0\";\neval c \"?msd_bin 0=1\";",
        "TRUE\nerror 2: F15 NotAdmitted msd_wrong SuccessorLaw\nFALSE\n",
        1,
        2,
    ),
    (
        "eval a \"?msd_zeck Ax,y,z (x+y=z) <=> (y+x=z)\"; eval b \"?msd_zeck An Ex,y n=x+y & y<=x & x<=y+1\";",
        "TRUE\nTRUE\n",
        0,
        2,
    ),
    (
        "eval a \"?lsd_zeck Ax Ey x=y+y\"; eval b \"?lsd_zeck Ax Ey x=y+y | x=y+y+1\";",
        "FALSE\nTRUE\n",
        0,
        2,
    ),
    (
        "eval a \"?msd_trib 100+200=300\"; eval b \"?lsd_trib Ex x+x=7\"; eval c \"?msd_five Ex 5*x=15 & x=3\";",
        "TRUE\nFALSE\nTRUE\n",
        0,
        3,
    ),
    (
        "reg a msd_bin msd_none \"[0,0]\";",
        "error 1: F14 SystemUnknown msd_none\n",
        1,
        0,
    ),
    (
        "reg a msd_none msd_wrong \"0\";",
        "error 1: F14 SystemUnknown msd_none\n",
        1,
        0,
    ),
    (
        "reg a msd_wrong msd_none \"0\";",
        "error 1: F15 NotAdmitted msd_wrong SuccessorLaw\n",
        1,
        0,
    ),
    (
        "reg a msd_bin lsd_bin \"[0,0]\";",
        "error 1: F17 Direction msd_bin lsd_bin\n",
        1,
        0,
    ),
    (
        "reg a msd_bin lsd_wrong \"[0,0]\";",
        "error 1: F15 NotAdmitted lsd_wrong SuccessorLaw\n",
        1,
        0,
    ),
    (
        "reg a msd_wrong lsd_2 \"9\";",
        "error 1: F15 NotAdmitted msd_wrong SuccessorLaw\n",
        1,
        0,
    ),
    (
        "reg a msd_bin lsd_2 \"9\";",
        "error 1: F17 Direction msd_bin lsd_2\n",
        1,
        0,
    ),
    (
        "reg a msd_wrong \"2\";",
        "error 1: F15 NotAdmitted msd_wrong SuccessorLaw\n",
        1,
        0,
    ),
    (
        "reg a msd_bin \"2\";",
        "error 1: F04 Number in regex at 0\n",
        1,
        0,
    ),
    (
        "reg a msd_bin \"(\";",
        "error 1: F02 Syntax in regex at 1\n",
        1,
        0,
    ),
    ("reg a msd_five \"4\";", "", 0, 1),
    (
        "reg a msd_five \"5\";",
        "error 1: F04 Number in regex at 0\n",
        1,
        0,
    ),
    (
        "reg a msd_five msd_bin \"[1,4]\";",
        "error 1: F04 Number in regex at 3\n",
        1,
        0,
    ),
    (
        "reg a msd_abcdefghijklmnopqrstuvwxyzABCDEFGHIJKLMNOPQRSTUVWXYZ0123456 \"0\";",
        "error 1: F02 Syntax in command at 6\n",
        1,
        0,
    ),
    (
        "reg a msd_abcdefghijklmnopqrstuvwxyzABCDEFGHIJKLMNOPQRSTUVWXYZ012345 \"0\";",
        "",
        0,
        1,
    ),
    (
        "reg a msd_2a \"0\";",
        "error 1: F14 SystemUnknown msd_2a\n",
        1,
        0,
    ),
    ("reg a msd_fib msd_2 \"[1,1]\";", "", 0, 1),
];

#[test]
fn systems_are_admitted_as_listed(rt: HostRuntime) {
    for row in QUESTIONS.split_terminator(ROW_END) {
        let (name, printed) = first_field(row);
        let ran = ask(&rt, rt.alloc(), "walnut", name);
        expect_run(&rt, name, ran, printed, end_of(printed));
    }
}

#[test]
fn scripts_over_systems_print_as_listed(rt: HostRuntime) {
    for row in SCRIPTS.split_terminator(ROW_END) {
        let (script, rest) = first_field(row);
        let (printed, end) = first_field(rest);
        let ran = run_over_files(&rt, rt.alloc(), "walnut", script, 0);
        expect_added(&rt, script, ran, printed, end);
    }
}

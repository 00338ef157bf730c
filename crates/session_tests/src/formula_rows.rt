//! Formulas: what is printed of their steps and of their truth, and the faults by which they are refused.

use crate::answers::given;
use crate::tables::{ROW_END, first_field, table};
use crate::whole::{Ran, SURE, expect_run, run_line};
use std::alloc::Global;
use std::process::Abort;

/// A command, and the lines of its steps with the verdict after them.
const STEPS: &str = table![
    (
        "eval a \"Ex x+x=0\":",
        "step 1 const 2 1\nstep 2 product 6 2\nstep 3 project 3 2\nstep 4 product 5 1\nstep 5 project 2 1\nstep 6 project 1 1\nTRUE\n",
    ),
    (
        "def d \"x-1=y\":",
        "step 1 const 3 2\nstep 2 product 9 3\nstep 3 project 3 2\n",
    ),
    (
        "def d \"3*x=y\":",
        "step 1 product 9 4\nstep 2 project 4 3\n",
    ),
    (
        "def d \"0*x=0\":",
        "step 1 const 2 1\nstep 2 product 2 1\nstep 3 const 2 1\nstep 4 product 4 1\nstep 5 project 2 1\nstep 6 product 2 1\nstep 7 project 1 1\n",
    ),
    (
        "def d \"2*3=x\":",
        "step 1 const 4 3\nstep 2 product 9 4\nstep 3 project 4 3\nstep 4 product 16 4\nstep 5 project 5 4\n",
    ),
    (
        "def d \"x=x+1\":",
        "step 1 const 3 2\nstep 2 product 9 3\nstep 3 project 3 2\n",
    ),
    (
        "def s \"2*x/3*4=y\":",
        "step 1 product 9 4\nstep 2 project 4 3\nstep 3 product 12 6\nstep 4 project 5 4\nstep 5 const 4 3\nstep 6 product 11 4\nstep 7 project 4 3\nstep 8 product 20 6\nstep 9 project 4 3\nstep 10 product 12 6\nstep 11 project 5 4\nstep 12 product 9 4\nstep 13 project 5 4\nstep 14 product 25 12\nstep 15 project 13 12\n",
    ),
    (
        "eval i \"Ix Ey x=2*y\":",
        "step 1 project 2 2\nstep 2 product 6 3\nstep 3 project 1 1\nstep 4 complement 1 1\nstep 5 project 1 1\nstep 6 complement 1 1\nTRUE\n",
    ),
    ("def d \"x/1=y\":", ""),
    ("def d \"x=x\":", ""),
    ("def d \"x!=y\":", ""),
    ("def d \"Ex,x x=y\":", "step 1 project 1 1\n"),
    (
        "eval d \"Ax,y x=x\":",
        "step 1 complement 1 1\nstep 2 project 1 1\nstep 3 complement 1 1\nTRUE\n",
    ),
    (
        "eval d \"Ax Ey y>x\":",
        "step 1 project 1 1\nstep 2 complement 1 1\nstep 3 project 1 1\nstep 4 complement 1 1\nTRUE\n",
    ),
    (
        "def d \"x=1 | y=2 | z=3\":",
        "step 1 const 3 2\nstep 2 const 4 3\nstep 3 const 4 3\nstep 4 product 12 9\nstep 5 product 40 31\n",
    ),
    (
        "def d \"x=1 <=> y=1 <=> z=1\":",
        "step 1 const 3 2\nstep 2 const 3 2\nstep 3 const 3 2\nstep 4 product 9 7\nstep 5 product 21 14\n",
    ),
    (
        "eval d \"?lsd_2 Ex x=2\":",
        "step 1 const 4 3\nstep 2 project 3 1\nTRUE\n",
    ),
    (
        "eval e \"(Ex x=1) & (?lsd_3 Ex x=2)\":",
        "step 1 const 3 2\nstep 2 project 1 1\nstep 3 const 3 2\nstep 4 project 2 1\nstep 5 product 1 1\nTRUE\n",
    ),
    (
        "def m \"7*x<y\":",
        "step 1 product 9 4\nstep 2 project 4 3\nstep 3 product 12 6\nstep 4 project 7 6\nstep 5 product 21 12\nstep 6 project 8 7\nstep 7 product 24 14\nstep 8 project 9 8\n",
    ),
    (
        "eval a \"Ex,y x<y & y<x+2 & x!=y-1\":",
        "step 1 const 4 3\nstep 2 product 12 4\nstep 3 project 4 3\nstep 4 product 12 5\nstep 5 project 4 3\nstep 6 const 3 2\nstep 7 product 9 3\nstep 8 project 3 2\nstep 9 product 6 4\nstep 10 project 5 5\nstep 11 product 4 2\nstep 12 product 5 1\nstep 13 project 1 1\nstep 14 project 1 1\nFALSE\n",
    ),
    ("def d \"18446744073709551615=x\":", "step 1 const 66 65\n"),
    (
        "eval s \"1=1\":",
        "step 1 const 3 2\nstep 2 const 3 2\nstep 3 product 6 2\nstep 4 project 3 2\nstep 5 product 3 2\nstep 6 project 1 1\nTRUE\n",
    ),
    (
        "def a \"x-x=0\":",
        "step 1 const 2 1\nstep 2 product 4 1\nstep 3 project 2 1\nstep 4 product 2 1\nstep 5 project 1 1\n",
    ),
    (
        "def a \"0*(x-1)=0 & x=0\":",
        "step 1 const 3 2\nstep 2 product 9 3\nstep 3 project 3 2\nstep 4 const 2 1\nstep 5 product 2 1\nstep 6 product 6 2\nstep 7 project 3 2\nstep 8 const 2 1\nstep 9 product 6 2\nstep 10 project 3 2\nstep 11 product 3 2\nstep 12 project 2 2\nstep 13 const 2 1\nstep 14 product 2 1\n",
    ),
    ("def c \"x=1000000\":", "step 1 const 22 21\n"),
    (
        "eval t \"(Ex x=1) & y=2\":",
        "step 1 const 3 2\nstep 2 project 1 1\nstep 3 const 4 3\nstep 4 product 4 3\n",
    ),
];

/// A limit of states, a command, what is printed of it, and the status.
static LIMITS: [(&str, &str, &str, u8); 6] = [
    (
        "16",
        "def c \"x=1000000\";",
        "error 1: F19 States step 1\n",
        1,
    ),
    ("24", "def m \"7*x<y\";", "", 0),
    ("23", "def m \"7*x<y\";", "error 1: F19 States step 7\n", 1),
    ("20", "def m \"7*x<y\";", "error 1: F19 States step 5\n", 1),
    ("40", "def p \"x=1 | y=2 | z=3\";", "", 0),
    (
        "39",
        "def p \"x=1 | y=2 | z=3\";",
        "error 1: F19 States step 5\n",
        1,
    ),
];

/// A command that is refused, and the line of its fault.
const FAULTS: &str = table![
    (
        "eval a \"x=1 | y=2 & z=3\";",
        "error 1: F03 MixedChain at 10\n",
    ),
    ("eval a \"x*y=2\";", "error 1: F05 NotLinear at 1\n"),
    ("eval n \"6/2*x=3\";", "error 1: F05 NotLinear at 3\n"),
    ("eval l \"x/0=1\";", "error 1: F02 Syntax in formula at 2\n"),
    (
        "eval l \"x/00=1\";",
        "error 1: F02 Syntax in formula at 2\n",
    ),
    (
        "eval l \"x/(2)=1\";",
        "error 1: F02 Syntax in formula at 2\n",
    ),
    (
        "eval l \"x/18446744073709551616=1\";",
        "error 1: F04 Number in formula at 2\n",
    ),
    (
        "eval l \"Ix,y x=y\";",
        "error 1: F02 Syntax in formula at 2\n",
    ),
    ("def p \"?msd_17 x/2=y\";", "error 1: F18 Letters step 1\n"),
    (
        "eval a \"18446744073709551616=x\";",
        "error 1: F04 Number in formula at 0\n",
    ),
    ("eval a \"x+=1\";", "error 1: F02 Syntax in formula at 2\n"),
    (
        "eval a \"?msd_41 x=1\";",
        "error 1: F14 SystemUnknown msd_41\n",
    ),
    (
        "eval a \"?msd_2 x=1 & (?lsd_2 x=1)\";",
        "error 1: F16 Clash x msd_2 lsd_2\n",
    ),
    (
        "eval a \"?msd_2 x=1 & (?lsd_2 y=1)\";",
        "error 1: F17 Direction msd_2 lsd_2\n",
    ),
    ("prove a;", "error 1: F01 Command\n"),
    ("eval a \"x=1\"", "error 1: F02 Syntax in command at 12\n"),
    ("eval a;", "error 1: F02 Syntax in command at 6\n"),
    ("def \"x=1\";", "error 1: F02 Syntax in command at 4\n"),
    ("def a x;", "error 1: F02 Syntax in command at 6\n"),
    ("def a \"x=1\" b;", "error 1: F02 Syntax in command at 12\n"),
    ("eval a \"\";", "error 1: F02 Syntax in formula at 0\n"),
    (
        "eval a \"#dbl(6)\";",
        "error 1: F11 Unknown Macro Library/dbl\n",
    ),
    (
        "eval a \"$f(x)\";",
        "error 1: F11 Unknown Automata Library/f\n",
    ),
    (
        "eval a \"x=1 & T[x]=@1\";",
        "error 1: F11 Unknown Word Automata Library/T\n",
    ),
    (
        "eval a \"T[x]=@1 & $f(x)\";",
        "error 1: F11 Unknown Word Automata Library/T\n",
    ),
    (
        "eval a \"?msd_77 $f(x)\";",
        "error 1: F11 Unknown Automata Library/f\n",
    ),
    (
        "eval a \"0=0 & ~?lsd_77 1=1\";",
        "error 1: F14 SystemUnknown lsd_77\n",
    ),
    (
        "eval a \"x=1 & ?msd_9000 y=1 & ?msd_77 z=1\";",
        "error 1: F14 SystemUnknown msd_9000\n",
    ),
    (
        "eval a \"x=1 & (?msd_3 x=1) & (?lsd_2 y=1)\";",
        "error 1: F16 Clash x msd_2 msd_3\n",
    ),
    (
        "def p \"?msd_10 a=b & c=d & e=a\";",
        "error 1: F18 Letters step 2\n",
    ),
    (
        "def p \"?msd_10 a<b & b<c & c<d & d<e\";",
        "error 1: F18 Letters step 3\n",
    ),
    (
        "eval a \"?msd_10 a+b=c+d\";",
        "error 1: F18 Letters step 3\n",
    ),
    ("eval a \"?msd_40 a+b=3\";", "error 1: F18 Letters step 2\n"),
];

/// Runs a script under a limit of states.
fn run_under(rt: &impl Abort, alloc: Global, limit: &str, script: &str) -> Ran {
    let line = given(rt, format!(in alloc; "walnut --states {limit}"));
    run_line(rt, alloc, &line, script.as_bytes(), &SURE)
}

/// A run printed this, ended with this status, and stored something if and only if no command was refused.
fn expect_code(rt: &impl Abort, script: &str, ran: Ran, printed: &str, code: u8) {
    expect_run(rt, script, ran, printed, (code, usize::from(code == 0)));
}

#[test]
fn steps_of_formulas_are_shown(rt: HostRuntime) {
    for row in STEPS.split_terminator(ROW_END) {
        let (script, printed) = first_field(row);
        let ran = run_under(&rt, rt.alloc(), "100000", script);
        expect_code(&rt, script, ran, printed, 0);
    }
}

#[test]
fn formulas_are_refused_by_their_first_fault(rt: HostRuntime) {
    for row in FAULTS.split_terminator(ROW_END) {
        let (script, printed) = first_field(row);
        let ran = run_under(&rt, rt.alloc(), "100000", script);
        expect_code(&rt, script, ran, printed, 1);
    }
}

#[test]
fn steps_of_formulas_keep_to_the_limit_of_states(rt: HostRuntime) {
    for (limit, script, printed, code) in &LIMITS {
        let ran = run_under(&rt, rt.alloc(), limit, script);
        expect_code(&rt, script, ran, printed, *code);
    }
}

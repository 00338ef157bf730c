//! What formulas store, and theorems of Presburger arithmetic.

use crate::answers::given;
use crate::tables::{ROW_END, table};
use crate::whole::{Ran, expect_prints, expect_run, expect_stores, run_script};
use std::alloc::Global;
use std::process::Abort;
use wal_outside::Folder;

/// A command, and the folder, the name and the text that it stores.
static TEXTS: [(&str, Folder, &str, &str); 16] = [
    ("eval a \"Ex x+x=6\";", Folder::Results, "a", "true\n"),
    ("eval b \"Ax Ey x=y+y\";", Folder::Results, "b", "false\n"),
    (
        "def even \"Ey x=2*y\";",
        Folder::Automata,
        "even",
        "msd_2\n\n0 1\n0 -> 0\n1 -> 1\n\n1 0\n0 -> 0\n1 -> 1\n",
    ),
    (
        "def lt \"y>x\";",
        Folder::Automata,
        "lt",
        "msd_2 msd_2\n\n0 0\n0 0 -> 0\n0 1 -> 1\n1 1 -> 0\n\n1 1\n0 0 -> 1\n0 1 -> 1\n1 0 -> 1\n1 1 -> 1\n",
    ),
    (
        "def z \"x<1\";",
        Folder::Automata,
        "z",
        "msd_2\n\n0 1\n0 -> 0\n",
    ),
    (
        "def w \"Ey y=x+8 & x=0\";",
        Folder::Automata,
        "w",
        "msd_2\n\n0 1\n0 -> 0\n",
    ),
    (
        "def h \"x/2=y\";",
        Folder::Automata,
        "h",
        "msd_2 msd_2\n\n0 1\n0 0 -> 0\n1 0 -> 1\n\n1 1\n0 1 -> 0\n1 1 -> 1\n",
    ),
    ("def no \"x<x\";", Folder::Automata, "no", "msd_2\n\n0 0\n"),
    (
        "eval s \"Ax (x-1!=x | x=0)\";",
        Folder::Results,
        "s",
        "true\n",
    ),
    (
        "eval u \"x-1!=x & x=0\";",
        Folder::Results,
        "u",
        "msd_2\n\n0 0\n",
    ),
    ("def d \"x=x+1\";", Folder::Automata, "d", "msd_2\n\n0 0\n"),
    (
        "def e \"?lsd_2 x=2\";",
        Folder::Automata,
        "e",
        "lsd_2\n\n0 0\n0 -> 1\n\n1 0\n1 -> 2\n\n2 1\n0 -> 2\n",
    ),
    (
        "def c \"?msd_fib x=4\";",
        Folder::Automata,
        "c",
        "msd_fib\n\n0 0\n0 -> 0\n1 -> 1\n\n1 0\n0 -> 2\n\n2 0\n1 -> 3\n\n3 1\n",
    ),
    (
        "eval f \"?msd_fib Ex ~(x=x)\";",
        Folder::Results,
        "f",
        "false\n",
    ),
    (
        "eval l \"?lsd_fib Ax Ey y=x+x\";",
        Folder::Results,
        "l",
        "true\n",
    ),
    ("def s \"1=2\";", Folder::Automata, "s", "false\n"),
];

/// Sentences that are true of the natural numbers.
const THEOREMS: &str = table![
    ("Ax,y x+y=y+x"),
    ("Ax,y,z (x+y)+z=x+(y+z)"),
    ("Ax x+0=x"),
    ("Ax,y,z x+z=y+z => x=y"),
    ("Ax,y x<=y <=> (Ez x+z=y)"),
    ("Ax,y x<y | x=y | y<x"),
    ("Ax ~(x<x)"),
    ("Ax,y,z (x<y & y<z) => x<z"),
    ("Ax,y x<y => x+1<=y"),
    ("Ax x!=0 => (Ey x=y+1)"),
    ("Ax Ey x=2*y | x=2*y+1"),
    ("~(Ex,y 2*x=2*y+1)"),
    ("Ax,y 3*x=3*y => x=y"),
    ("An n>43 => (Ex,y,z n=6*x+9*y+20*z)"),
    ("~(Ex,y,z 43=6*x+9*y+20*z)"),
    ("An n>7 => (Ex,y n=3*x+5*y)"),
    ("Ax Ey,z x=3*y+z & z<3"),
    ("Ex Ay x<=y"),
    ("~(Ex Ay y<=x)"),
    ("Ax,y (x-y)+y=x | x<y"),
    ("Ax x/1=x"),
    ("Ax x/2/3=x/6"),
    ("Ax,y (x+y)/2=y => x<=y+1"),
    ("~(Ex (x-1)/2=0 & x=0)"),
    ("Ax,r 7*(x/7)+r=x & r<7 <=> x-7*(x/7)=r"),
    ("Ay Ex x/3=y"),
    ("?lsd_3 Ax x/3*3<=x"),
    ("?msd_fib Ax x/2+x/2<=x"),
    ("?msd_10 Ax 10*(x/10)<=x"),
    ("?msd_16 Ax x/2<=x"),
    ("?lsd_2 Ix Ey x=3*y"),
    ("Ix Ey x=2*y"),
    ("~(Ix x<7)"),
    ("Ix 1=1"),
    ("Ay Ix x>y"),
    ("~(Ix Iy x=2*y)"),
    ("~(Ey Ix x/3=y)"),
];

#[test]
fn formulas_store_their_texts(rt: HostRuntime) {
    for (script, folder, name, text) in &TEXTS {
        let ran = run_script(&rt, rt.alloc(), script.as_bytes());
        expect_stores(&rt, ran, (*folder, name), text);
    }
}

/// Runs a command that decides a theorem between these texts.
fn run_theorem(rt: &impl Abort, alloc: Global, before: &str, theorem: &str, after: &str) -> Ran {
    let script = given(
        rt,
        format!(in alloc; "eval t \"{before}{theorem}{after}\";"),
    );
    run_script(rt, alloc, script.as_bytes())
}

#[test]
fn theorems_are_true_and_their_negations_false(rt: HostRuntime) {
    for theorem in THEOREMS.split_terminator(ROW_END) {
        let stated = run_theorem(&rt, rt.alloc(), "", theorem, "");
        expect_prints(&rt, theorem, stated, "TRUE\n");
        let negated = run_theorem(&rt, rt.alloc(), "~(", theorem, ")");
        expect_prints(&rt, theorem, negated, "FALSE\n");
    }
}

// Among commands that are answered a refused one changes nothing.
#[test]
fn a_refused_formula_leaves_the_others(rt: HostRuntime) {
    let script = b"def p \"x=0\"; eval q \"x=1 | y=2 & z=3\"; def r \"x*y=1\"; eval s \"1=1\";";
    let ran = run_script(&rt, rt.alloc(), script);
    let printed = "error 1: F03 MixedChain at 10\nerror 1: F05 NotLinear at 1\nTRUE\n";
    expect_run(&rt, "four commands", ran, printed, (1, 2));
}

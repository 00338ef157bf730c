//! Formulas over the Fibonacci system: sums against arithmetic, and theorems on the infinite Fibonacci word.

use crate::answers::given;
use crate::tables::{ROW_END, first_field, table};
use crate::whole::{Ran, expect, expect_prints, printed_in, run_script};
use std::alloc::{AllocError, Global};
use std::process::Abort;

/// A command: that two numbers have their sum, and not the next number too.
fn sum_command(alloc: Global, system: &str, first: u8, second: u8) -> Result<String, AllocError> {
    let sum = first.wrapping_add(second);
    let next = sum.wrapping_add(1);
    format!(in alloc;
        "eval s \"?{system} {first:03}+{second:03}={sum:03} & ~{first:03}+{second:03}={next:03}\";"
    )
}

/// Runs a command for each number below 60, added to this one.
fn run_sums(rt: &impl Abort, alloc: Global, system: &str, first: u8) -> Ran {
    let mut script = String::new(alloc);
    for second in 0..60 {
        given(
            rt,
            script.push_str(&given(rt, sum_command(alloc, system, first, second))),
        );
    }
    run_script(rt, alloc, script.as_bytes())
}

/// What is printed of 60 true sentences.
const SIXTY_TIMES_TRUE: &str = "\
TRUE\nTRUE\nTRUE\nTRUE\nTRUE\nTRUE\nTRUE\nTRUE\nTRUE\nTRUE\nTRUE\nTRUE\n\
TRUE\nTRUE\nTRUE\nTRUE\nTRUE\nTRUE\nTRUE\nTRUE\nTRUE\nTRUE\nTRUE\nTRUE\n\
TRUE\nTRUE\nTRUE\nTRUE\nTRUE\nTRUE\nTRUE\nTRUE\nTRUE\nTRUE\nTRUE\nTRUE\n\
TRUE\nTRUE\nTRUE\nTRUE\nTRUE\nTRUE\nTRUE\nTRUE\nTRUE\nTRUE\nTRUE\nTRUE\n\
TRUE\nTRUE\nTRUE\nTRUE\nTRUE\nTRUE\nTRUE\nTRUE\nTRUE\nTRUE\nTRUE\nTRUE\n";

/// Whether a run printed sixty times TRUE. It is let go.
fn is_true_throughout(ran: Ran) -> bool {
    printed_in(&ran) == SIXTY_TIMES_TRUE.as_bytes()
}

/// The first number below 60 whose sums with the others are not so, or 60.
fn first_wrong(rt: &impl Abort, alloc: Global, system: &str) -> u8 {
    for first in 0..60 {
        if !is_true_throughout(run_sums(rt, alloc, system, first)) {
            return first;
        }
    }
    60
}

#[test]
fn numbers_below_60_have_their_sums(rt: HostRuntime) {
    expect(
        &rt,
        "msd_fib",
        &first_wrong(&rt, rt.alloc(), "msd_fib"),
        &60,
    );
    expect(
        &rt,
        "lsd_fib",
        &first_wrong(&rt, rt.alloc(), "lsd_fib"),
        &60,
    );
}

/// `f(n)`: the letter of the infinite Fibonacci word at n is 1, so that the representation of n has 1 as its least
/// significant digit; and `fib(n)`: n is a Fibonacci number.
const MSD_WORD: &str = "reg f msd_fib \"(0|1)*1\"; reg fib msd_fib \"10*\";";

/// The same from the least significant digit on.
const LSD_WORD: &str = "reg f lsd_fib \"1(0|1)*\"; reg fib lsd_fib \"0*1\";";

/// `square(n)`: a square with halves of length n occurs; `per(i,n,p)`: the factor of length n at i has the period p;
/// and `least(i,n,p)`: p is the least one.
static NOTIONS: [(&str, &str); 3] = [
    ("square", "n>0 & (Ei At t<n => ($f(i+t) <=> $f(i+n+t)))"),
    ("per", "p>0 & p<=n & (At t+p<n => ($f(i+t) <=> $f(i+t+p)))"),
    ("least", "$per(i,n,p) & (Aq q<p => ~$per(i,n,q))"),
];

/// Statements, and whether they are true, after Mousavi, Schaeffer and Shallit, "Decision algorithms for
/// Fibonacci-automatic words, I": cubes and no fourth power; no period from some place on; halves of squares and least
/// periods are the Fibonacci numbers; palindromes of each length; no two letters 1 and no three letters 0 side by side.
const STATEMENTS: &str = table![
    ("Ei,n n>0 & (At t<2*n => ($f(i+t) <=> $f(i+n+t)))", "TRUE\n"),
    (
        "Ei,n n>0 & (At t<3*n => ($f(i+t) <=> $f(i+n+t)))",
        "FALSE\n",
    ),
    ("Ep,m p>0 & (Ai i>=m => ($f(i) <=> $f(i+p)))", "FALSE\n"),
    ("An $square(n) <=> $fib(n)", "TRUE\n"),
    ("Ap (Ei,n $least(i,n,p)) <=> $fib(p)", "TRUE\n"),
    ("An Ei At t<n => ($f(i+t) <=> $f(i+n-1-t))", "TRUE\n"),
    ("Ei $f(i) & $f(i+1)", "FALSE\n"),
    ("Ei ~$f(i) & ~$f(i+1) & ~$f(i+2)", "FALSE\n"),
];

/// The command that defines a notion over a system.
fn definition(
    alloc: Global,
    system: &str,
    (name, formula): (&str, &str),
) -> Result<String, AllocError> {
    format!(in alloc; "def {name} \"?{system} {formula}\";")
}

/// The commands that define the word and the notions over a system.
fn definitions(rt: &impl Abort, alloc: Global, system: &str, word: &str) -> String {
    let mut script = given(rt, String::from_str(alloc, word));
    for notion in &NOTIONS {
        given(
            rt,
            script.push_str(&given(rt, definition(alloc, system, *notion))),
        );
    }
    script
}

/// Runs these commands and the one that decides a statement.
fn run_statement(rt: &impl Abort, alloc: Global, system: &str, word: &str, statement: &str) -> Ran {
    let before = definitions(rt, alloc, system, word);
    let script = given(
        rt,
        format!(in alloc; "{before}eval w \"?{system} {statement}\";"),
    );
    run_script(rt, alloc, script.as_bytes())
}

fn expect_statements(rt: &impl Abort, alloc: Global, system: &str, word: &str) {
    for row in STATEMENTS.split_terminator(ROW_END) {
        let (statement, printed) = first_field(row);
        let ran = run_statement(rt, alloc, system, word, statement);
        expect_prints(rt, statement, ran, printed);
    }
}

#[test]
fn the_fibonacci_word_is_as_in_the_literature(rt: HostRuntime) {
    expect_statements(&rt, rt.alloc(), "msd_fib", MSD_WORD);
}

#[test]
fn the_fibonacci_word_is_so_from_the_least_significant_digit_on(rt: HostRuntime) {
    expect_statements(&rt, rt.alloc(), "lsd_fib", LSD_WORD);
}

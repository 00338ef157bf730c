//! Theorems of the literature on words that commands make, with their verdicts.
//!
//! The macros say of a word that some factor has itself after it, for so many letters; which lengths the halves of its squares
//! have, its palindromes, and its factors without border; and that it is periodic from some position on.

use crate::answers::given;
use crate::whole::{Ran, expect_prints, run_script};
use std::alloc::Global;
use std::process::Abort;

/// A statement, and its verdict.
type Statement = (&'static str, &'static str);

/// Commands that make the Thue-Morse word, powers of 2, the lengths of which each of its factors has a border, and macros.
const THUE: &str = "morphism thue \"0->01 1->10\"; \
    promote T thue; \
    reg power msd_2 \"0*10*\"; \
    reg bordered msd_2 \"0*1(01*0)*10*1\"; \
    macro again \"Ei,n n>=1 & At t<%1 => %0[i+t]=%0[i+n+t]\"; \
    macro orders \"n>=1 & Ei At t<n => %0[i+t]=%0[i+n+t]\"; \
    macro palindromes \"n>=1 & Ei At 2*t<n => %0[i+t]=%0[i+n-1-t]\"; \
    macro unbordered \"n>=1 & Ei Aj j>=1 & 2*j<=n => Et t<j & %0[i+t]!=%0[i+n-j+t]\"; \
    macro periodic \"Em,p p>=1 & Ai i>=m => %0[i]=%0[i+p]\"; ";

/// Overlaps and squares (Axel Thue), recurrence (Marston Morse and Gustav Hedlund), orders of squares (Jean-Jacques Pansiot;
/// Srećko Brlek), factors without border (Daniel Goč, Dane Henshall and Jeffrey Shallit).
static THUE_STATEMENTS: [Statement; 11] = [
    ("#again(T,n+1)", "FALSE\n"),
    ("#again(T,n)", "TRUE\n"),
    ("#again(T,2*n)", "FALSE\n"),
    (
        "An (#orders(T)) <=> ($power(n) | Em $power(m) & n=3*m)",
        "TRUE\n",
    ),
    (
        "Ai,j Ek k>=i & k+3<=i+11 & T[k]=T[j] & T[k+1]=T[j+1] & T[k+2]=T[j+2]",
        "TRUE\n",
    ),
    (
        "Ai,j Ek k>=i & k+3<=i+10 & T[k]=T[j] & T[k+1]=T[j+1] & T[k+2]=T[j+2]",
        "FALSE\n",
    ),
    (
        "An (Em n=2*m+1) => ((#palindromes(T)) <=> (n=1 | n=3))",
        "TRUE\n",
    ),
    ("Ai,n Ej At t<n => T[i+t]!=T[j+t]", "TRUE\n"),
    ("#periodic(T)", "FALSE\n"),
    ("Ax T[2*x]=T[x] & T[2*x+1]!=T[x]", "TRUE\n"),
    ("An n>=1 => ((#unbordered(T)) <=> ~$bordered(n))", "TRUE\n"),
];

/// Commands that make the Thue-Morse word, and of its pairs the word of the differences of its letters.
const TERNARY: &str = "morphism thue \"0->01 1->10\"; \
    promote T thue; \
    morphism pairs \"0->01 1->20 2->23 3->02\"; \
    promote Pairs pairs; \
    morphism change \"0->1 1->0 2->[-1] 3->0\"; \
    image V change Pairs; \
    macro again \"Ei,n n>=1 & At t<%1 => %0[i+t]=%0[i+n+t]\"; ";

/// Squares, and factors that are missing (Axel Thue).
static TERNARY_STATEMENTS: [Statement; 3] = [
    ("#again(V,n)", "FALSE\n"),
    (
        "Ax (V[x]=@1 <=> T[x]<T[x+1]) & (V[x]=@-1 <=> T[x]>T[x+1])",
        "TRUE\n",
    ),
    ("Ei V[i]=@1 & V[i+1]=@0 & V[i+2]=@1", "FALSE\n"),
];

/// Commands that make the period-doubling word, with the Thue-Morse word, and powers of 2.
const DOUBLING: &str = "morphism thue \"0->01 1->10\"; \
    promote T thue; \
    morphism doubling \"0->01 1->00\"; \
    promote D doubling; \
    reg power msd_2 \"0*10*\"; \
    macro again \"Ei,n n>=1 & At t<%1 => %0[i+t]=%0[i+n+t]\"; \
    macro orders \"n>=1 & Ei At t<n => %0[i+t]=%0[i+n+t]\"; ";

/// Powers, of exponents below 4 (David Damanik), and orders of squares.
static DOUBLING_STATEMENTS: [Statement; 6] = [
    ("Ax D[x]=@1 <=> T[x]=T[x+1]", "TRUE\n"),
    ("Ax D[2*x]=@0 & D[2*x+1]!=D[x]", "TRUE\n"),
    ("#again(D,2*n)", "TRUE\n"),
    ("#again(D,3*n)", "FALSE\n"),
    ("Ei,n n>=1 & At 8*t<23*n => D[i+t]=D[i+n+t]", "TRUE\n"),
    ("An (#orders(D)) <=> $power(n)", "TRUE\n"),
];

/// Commands that make the Rudin-Shapiro word of one over four letters, and powers of 2.
const RUDIN: &str = "morphism rudin \"0->01 1->02 2->31 3->32\"; \
    promote Four rudin; \
    morphism parity \"0->0 1->0 2->1 3->1\"; \
    image R parity Four; \
    reg power msd_2 \"0*10*\"; \
    macro again \"Ei,n n>=1 & At t<%1 => %0[i+t]=%0[i+n+t]\"; \
    macro orders \"n>=1 & Ei At t<n => %0[i+t]=%0[i+n+t]\"; \
    macro palindromes \"n>=1 & Ei At 2*t<n => %0[i+t]=%0[i+n-1-t]\"; ";

/// Squares, powers and palindromes (Jean-Paul Allouche; with Mireille Bousquet-Mélou).
static RUDIN_STATEMENTS: [Statement; 5] = [
    (
        "Ax R[2*x]=R[x] & R[4*x+1]=R[x] & R[4*x+3]!=R[2*x+1]",
        "TRUE\n",
    ),
    ("An (#orders(R)) <=> ($power(n) | n=3 | n=5)", "TRUE\n"),
    ("#again(R,3*n)", "TRUE\n"),
    ("#again(R,4*n)", "FALSE\n"),
    (
        "An (#palindromes(R)) <=> (n>=1 & n<=8 | n=10 | n=12 | n=14)",
        "TRUE\n",
    ),
];

/// Commands that make the paperfolding word of one over four letters.
const FOLDING: &str = "morphism folding \"0->01 1->21 2->03 3->23\"; \
    promote Sides folding; \
    morphism folds \"0->1 1->1 2->0 3->0\"; \
    image P folds Sides; \
    macro again \"Ei,n n>=1 & At t<%1 => %0[i+t]=%0[i+n+t]\"; \
    macro orders \"n>=1 & Ei At t<n => %0[i+t]=%0[i+n+t]\"; \
    macro palindromes \"n>=1 & Ei At 2*t<n => %0[i+t]=%0[i+n-1-t]\"; ";

/// Squares, powers and palindromes (Jean-Paul Allouche and Mireille Bousquet-Mélou).
static FOLDING_STATEMENTS: [Statement; 5] = [
    ("Ax P[4*x]=@1 & P[4*x+2]=@0 & P[2*x+1]=P[x]", "TRUE\n"),
    ("An (#orders(P)) <=> (n=1 | n=3 | n=5)", "TRUE\n"),
    ("#again(P,2*n)", "TRUE\n"),
    ("#again(P,3*n)", "FALSE\n"),
    (
        "An (#palindromes(P)) <=> (n>=1 & n<=7 | n=9 | n=11 | n=13)",
        "TRUE\n",
    ),
];

/// Commands that make the Fibonacci word, and Fibonacci numbers.
const FIBONACCI: &str = "reg ends msd_fib \"(0|1)*1\"; \
    combine F ends; \
    reg fibonacci msd_fib \"0*10*\"; \
    macro again \"Ei,n n>=1 & At t<%1 => %0[i+t]=%0[i+n+t]\"; \
    macro orders \"n>=1 & Ei At t<n => %0[i+t]=%0[i+n+t]\"; \
    macro palindromes \"n>=1 & Ei At 2*t<n => %0[i+t]=%0[i+n-1-t]\"; \
    macro unbordered \"n>=1 & Ei Aj j>=1 & 2*j<=n => Et t<j & %0[i+t]!=%0[i+n-j+t]\"; \
    macro periodic \"Em,p p>=1 & Ai i>=m => %0[i]=%0[i+p]\"; ";

/// Powers, of exponents below 3.619 (Filippo Mignosi and Giuseppe Pirillo), orders of squares (Patrice Séébold), palindromes
/// (Xavier Droubay), factors without border (Hamoon Mousavi, Luke Schaeffer and Jeffrey Shallit).
static FIBONACCI_STATEMENTS: [Statement; 11] = [
    ("?msd_fib #again(F,2*n)", "TRUE\n"),
    ("?msd_fib #again(F,3*n)", "FALSE\n"),
    ("?msd_fib An (#orders(F)) <=> $fibonacci(n)", "TRUE\n"),
    ("?msd_fib An n>=1 => #palindromes(F)", "TRUE\n"),
    ("?msd_fib #periodic(F)", "FALSE\n"),
    (
        "?msd_fib Ei,n n>=1 & At 5*t<13*n => F[i+t]=F[i+n+t]",
        "TRUE\n",
    ),
    (
        "?msd_fib Ei,n n>=1 & At 2*t<5*n => F[i+t]=F[i+n+t]",
        "TRUE\n",
    ),
    (
        "?msd_fib Ei,n n>=1 & At 3*t<8*n => F[i+t]=F[i+n+t]",
        "FALSE\n",
    ),
    ("?msd_fib An (#unbordered(F)) <=> $fibonacci(n)", "TRUE\n"),
    ("?msd_fib Ei F[i]=@1 & F[i+1]=@1", "FALSE\n"),
    ("?msd_fib Ei F[i]=@0 & F[i+1]=@0 & F[i+2]=@0", "FALSE\n"),
];

/// Runs commands, and the one that decides a statement.
fn run_statement(rt: &impl Abort, alloc: Global, commands: &str, statement: &str) -> Ran {
    let script = given(rt, format!(in alloc; "{commands}eval w \"{statement}\";"));
    run_script(rt, alloc, script.as_bytes())
}

fn expect_verdicts(rt: &impl Abort, alloc: Global, commands: &str, statements: &[Statement]) {
    for (statement, verdict) in statements {
        let ran = run_statement(rt, alloc, commands, statement);
        expect_prints(rt, statement, ran, verdict);
    }
}

#[test]
fn the_thue_morse_word_is_as_in_the_literature(rt: HostRuntime) {
    expect_verdicts(&rt, rt.alloc(), THUE, &THUE_STATEMENTS);
}

#[test]
fn a_ternary_word_without_squares_is_as_in_the_literature(rt: HostRuntime) {
    expect_verdicts(&rt, rt.alloc(), TERNARY, &TERNARY_STATEMENTS);
}

#[test]
fn the_period_doubling_word_is_as_in_the_literature(rt: HostRuntime) {
    expect_verdicts(&rt, rt.alloc(), DOUBLING, &DOUBLING_STATEMENTS);
}

#[test]
fn the_rudin_shapiro_word_is_as_in_the_literature(rt: HostRuntime) {
    expect_verdicts(&rt, rt.alloc(), RUDIN, &RUDIN_STATEMENTS);
}

#[test]
fn the_paperfolding_word_is_as_in_the_literature(rt: HostRuntime) {
    expect_verdicts(&rt, rt.alloc(), FOLDING, &FOLDING_STATEMENTS);
}

#[test]
fn the_fibonacci_word_is_as_in_the_literature(rt: HostRuntime) {
    expect_verdicts(&rt, rt.alloc(), FIBONACCI, &FIBONACCI_STATEMENTS);
}

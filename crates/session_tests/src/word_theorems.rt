//! Theorems of the literature on automatic words, with their verdicts.

use crate::answers::given;
use crate::tables::{ROW_END, first_field, table};
use crate::whole::{Ran, expect_prints};
use crate::word_rows::run_over_words;
use std::alloc::Global;
use std::process::Abort;

/// The Thue-Morse word `T`, the period-doubling word `D`, the Rudin-Shapiro word `R` and the regular paperfolding word `P`.
static WORDS: [(&str, &str); 4] = [
    ("T", "msd_2\n0 0\n0 -> 0\n1 -> 1\n1 1\n0 -> 1\n1 -> 0\n"),
    ("D", "msd_2\n0 0\n0 -> 0\n1 -> 1\n1 1\n0 -> 0\n1 -> 0\n"),
    (
        "R",
        "msd_2\n0 0\n0 -> 0\n1 -> 1\n1 0\n0 -> 0\n1 -> 2\n2 1\n0 -> 3\n1 -> 1\n3 1\n0 -> 3\n1 -> 2\n",
    ),
    (
        "P",
        "msd_2\n0 0\n0 -> 0\n1 -> 1\n1 0\n0 -> 0\n1 -> 2\n2 1\n0 -> 3\n1 -> 2\n3 1\n0 -> 3\n1 -> 1\n",
    ),
];

/// `power(n)`: n is a power of 2.
const POWER: &str = "reg power msd_2 \"0*10*\";";

/// Statements, and whether they are true. Overlaps, squares and their orders, and the recurrence of the Thue-Morse word (Axel
/// Thue; Marston Morse and Gustav Hedlund); powers in the period-doubling word, whose critical exponent is 4 (David Damanik);
/// squares and palindromes of the paperfolding word (Jean-Paul Allouche and Mireille Bousquet-Mélou) and of the Rudin-Shapiro
/// word (Jean-Paul Allouche); the last two words from the one before by sums and differences of letters.
const STATEMENTS: &str = table![
    ("Ei,n n>=1 & At t<=n => T[i+t]=T[i+n+t]", "FALSE\n"),
    ("Ei,n n>=1 & At t<2*n => T[i+t]=T[i+n+t]", "FALSE\n"),
    (
        "An (n>=1 & Ei At t<n => T[i+t]=T[i+n+t]) <=> ($power(n) | Em $power(m) & n=3*m)",
        "TRUE\n",
    ),
    (
        "Ai,j Ek k>=i & k+2<=i+9 & T[k]=T[j] & T[k+1]=T[j+1]",
        "TRUE\n",
    ),
    (
        "Ai,j Ek k>=i & k+2<=i+8 & T[k]=T[j] & T[k+1]=T[j+1]",
        "FALSE\n",
    ),
    ("Ai T[2*i]=T[i] & T[2*i+1]!=T[i]", "TRUE\n"),
    ("Ei,n n>=1 & At t<2*n => D[i+t]=D[i+n+t]", "TRUE\n"),
    ("Ei,n n>=1 & At t<3*n => D[i+t]=D[i+n+t]", "FALSE\n"),
    (
        "An (n>=1 & Ei At t<n => D[i+t]=D[i+n+t]) <=> $power(n)",
        "TRUE\n",
    ),
    ("Ai D[i]=@1 <=> T[i]=T[i+1]", "TRUE\n"),
    (
        "An (n>=1 & Ei At t<n => P[i+t]=P[i+n+t]) <=> (n=1 | n=3 | n=5)",
        "TRUE\n",
    ),
    ("Ei,n n>=1 & At t<3*n => P[i+t]=P[i+n+t]", "FALSE\n"),
    (
        "An (n>=1 & Ei At 2*t<n => P[i+t]=P[i+n-1-t]) <=> (n>=1 & n<=7 | n=9 | n=11 | n=13)",
        "TRUE\n",
    ),
    (
        "An (n>=1 & Ei At t<n => R[i+t]=R[i+n+t]) <=> ($power(n) | n=3 | n=5)",
        "TRUE\n",
    ),
    ("Ei,n n>=1 & At t<3*n => R[i+t]=R[i+n+t]", "TRUE\n"),
    ("Ei,n n>=1 & At t<4*n => R[i+t]=R[i+n+t]", "FALSE\n"),
    (
        "An (n>=1 & Ei At 2*t<n => R[i+t]=R[i+n-1-t]) <=> (n>=1 & n<=8 | n=10 | n=12 | n=14)",
        "TRUE\n",
    ),
    (
        "Ai R[2*i]=R[i] & R[4*i+1]=R[i] & R[4*i+3]!=R[2*i+1]",
        "TRUE\n",
    ),
];

/// Runs the command that decides a statement, after the one that it is on.
fn run_statement(rt: &impl Abort, alloc: Global, statement: &str) -> Ran {
    let script = given(rt, format!(in alloc; "{POWER}eval w \"{statement}\";"));
    run_over_words(rt, alloc, &WORDS, &script)
}

#[test]
fn automatic_words_are_as_in_the_literature(rt: HostRuntime) {
    for row in STATEMENTS.split_terminator(ROW_END) {
        let (statement, verdict) = first_field(row);
        let ran = run_statement(&rt, rt.alloc(), statement);
        expect_prints(&rt, statement, ran, verdict);
    }
}

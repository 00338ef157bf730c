//! Formulas with automatic words: what is printed and stored of scripts over stores that hold words.

use crate::answers::given;
use crate::tables::{ROW_END, first_field, table};
use crate::whole::{Ran, SURE, expect_prints, expect_stores, run_over};
use std::alloc::Global;
use std::process::Abort;
use wal_outside::{Folder, MemStore};

/// A file, by its name and its text.
type FileRow = (&'static str, &'static str);

/// The words that the scripts name: `T` is the Thue-Morse word and `L` the same read from the least significant digit on; `Q`
/// at i and j says whether the Thue-Morse word has one letter there; `G` has no letter past 0, `H` none at 2, `P` one at 1 alone,
/// and `Y` none; `M` and `W` have two outputs for a state, one of them `-`; `N` has a negative letter; `B` gives a letter two targets, `S` has a header of sets, and `Z` is 0 everywhere, over another system.
static FILES: [FileRow; 14] = [
    ("T", "msd_2\n\n0 0\n0 -> 0\n1 -> 1\n\n1 1\n0 -> 1\n1 -> 0\n"),
    ("L", "lsd_2\n\n0 0\n0 -> 0\n1 -> 1\n\n1 1\n0 -> 1\n1 -> 0\n"),
    (
        "Q",
        "msd_2 msd_2\n0 0\n0 0 -> 0\n0 1 -> 1\n1 0 -> 1\n1 1 -> 0\n1 1\n0 0 -> 1\n0 1 -> 0\n1 0 -> 0\n1 1 -> 1\n",
    ),
    ("G", "msd_2\n0 5\n0 -> 0\n"),
    ("H", "msd_2\n0 5\n0 -> 0\n1 -> 1\n1 6\n1 -> 1\n"),
    ("P", "msd_2\n0 -\n0 -> 0\n1 -> 1\n1 7\n"),
    ("Y", "msd_2\n0 -\n"),
    ("M", "msd_2\n0 -\n0 -\n"),
    ("W", "msd_2\n0 5\n0 -\n"),
    ("N", "msd_2\n0 -3\n* -> 1\n1 4\n0 -> 1\n1 -> 1\n"),
    ("B", "msd_2\n0 0\n* -> 0\n1 -> 1\n1 1\n"),
    ("S", "{0,1}\n0 0\n0 -> 0\n1 -> 0\n"),
    ("Z", "msd_3\n0 0\n* -> 0\n"),
    ("F", "msd_fib\n\n0 0\n0 -> 0\n1 -> 1\n\n1 1\n0 -> 0\n"),
];

/// Scripts, and what they print.
const PRINTED: &str = table![
    (
        "eval o \"Ei,n n>=1 & At t<=n => T[i+t]=T[i+n+t]\";",
        "FALSE\n",
    ),
    (
        "eval s \"Ei,n n>=1 & At t<n => T[i+t]=T[i+n+t]\";",
        "TRUE\n",
    ),
    ("eval q \"Ai,j Q[i][j]=@0 <=> T[i]=T[j]\";", "TRUE\n"),
    (
        "def r \"T[x]=@1\":",
        "step 1 read 2 2\nstep 2 pad 3 2\nstep 3 valid 2 2\n",
    ),
    (
        "def r \"T[x+1]<T[y]\":",
        "step 1 read 2 2\nstep 2 pad 3 2\nstep 3 valid 2 2\nstep 4 const 3 2\nstep 5 product 9 3\nstep 6 project 3 2\nstep 7 product 4 4\nstep 8 product 12 6\nstep 9 project 8 8\n",
    ),
    (
        "def r \"T[x]=T[x]\":",
        "step 1 read 2 2\nstep 2 pad 3 2\nstep 3 valid 2 2\nstep 4 product 2 1\n",
    ),
    (
        "def r \"T[2*x]=T[x]\":",
        "step 1 read 2 2\nstep 2 pad 3 2\nstep 3 valid 2 2\nstep 4 product 4 2\nstep 5 product 4 2\nstep 6 project 1 1\n",
    ),
    (
        "def r \"Q[i][i]=T[i]\":",
        "step 1 read 2 2\nstep 2 pad 3 2\nstep 3 valid 2 2\nstep 4 read 2 2\nstep 5 pad 3 2\nstep 6 valid 2 2\nstep 7 product 2 2\n",
    ),
    ("eval w \"T[1][2]=@0\";", "error 1: F13 Arity T 1 2\n"),
    ("eval w \"Q[1]=@0\";", "error 1: F13 Arity Q 2 1\n"),
    (
        "eval w \"T[x]=L[y]\";",
        "error 1: F17 Direction msd_2 lsd_2\n",
    ),
    ("def w \"T[T]=@0 & T=3\";", ""),
    (
        "def w \"?msd_3 x=1 & T[x]=@0\";",
        "error 1: F16 Clash x msd_3 msd_2\n",
    ),
    (
        "def w \"Z[x]=@0 & x=1\";",
        "error 1: F16 Clash x msd_3 msd_2\n",
    ),
    ("eval w \"G[0]=@5\";", "TRUE\n"),
    ("eval w \"H[0]=@5\";", "TRUE\n"),
    ("eval w \"T[0]=@0 & G[0]=@5\";", "TRUE\n"),
    ("eval w \"G[0]=@5 & H[0]=@5\";", "TRUE\n"),
    ("eval v \"Ex G[x]!=@5\";", "FALSE\n"),
    ("eval u \"Ax x=0 | ~(G[x]=G[x])\";", "TRUE\n"),
    (
        "eval w \"G[1]=@5 | G[1]!=@5 | G[1]<@5 | G[1]<=@5 | G[1]>@5 | G[1]>=@5\";",
        "FALSE\n",
    ),
    (
        "eval w \"~(G[1]=@5) & ~(G[1]!=@5) & ~(G[1]<@5) & ~(G[1]<=@5) & ~(G[1]>@5) & ~(G[1]>=@5)\";",
        "TRUE\n",
    ),
    (
        "eval w \"G[1]=T[1] | G[1]!=T[1] | G[1]<T[1] | G[1]<=T[1] | G[1]>T[1] | G[1]>=T[1]\";",
        "FALSE\n",
    ),
    (
        "eval w \"~(G[1]=T[1]) & ~(G[1]!=T[1]) & ~(G[1]<T[1]) & ~(G[1]<=T[1]) & ~(G[1]>T[1]) & ~(G[1]>=T[1])\";",
        "TRUE\n",
    ),
    (
        "eval w \"T[1]=G[1] | T[1]!=G[1] | T[1]<G[1] | T[1]<=G[1] | T[1]>G[1] | T[1]>=G[1]\";",
        "FALSE\n",
    ),
    (
        "eval w \"H[1]=@6 & ~(H[2]=@6 | H[2]!=@6) & H[3]=@6\";",
        "TRUE\n",
    ),
    ("eval w \"P[1]=@7 & (Ax P[x]<=P[x] => x=1)\";", "TRUE\n"),
    ("eval w \"Ex Y[x]=@0 | Y[x]!=@0\";", "FALSE\n"),
    (
        "def r \"G[x]=@5\":",
        "step 1 read 2 1\nstep 2 pad 2 1\nstep 3 valid 2 1\n",
    ),
    (
        "def r \"Y[x]!=@5\":",
        "step 1 read 2 1\nstep 2 pad 2 1\nstep 3 valid 1 1\n",
    ),
    (
        "eval w \"M[0]=@0\";",
        "error 1: F12 File Word Automata Library/M line 3\n",
    ),
    (
        "eval w \"W[0]=@5\";",
        "error 1: F12 File Word Automata Library/W line 3\n",
    ),
    (
        "def f \"G[x]=@5\"; combine C f=7; eval w \"C[0]=@7 & (Ax x>0 => C[x]=@0)\";",
        "TRUE\n",
    ),
    (
        "def f \"G[x]!=@5\"; combine C f=7; eval w \"Ax C[x]=@0\";",
        "TRUE\n",
    ),
    (
        "eval w \"N[0]=@-3 & N[7]=@4 & N[7]>@-3 & @-3<N[7] & ~N[7]=@-4\";",
        "TRUE\n",
    ),
    ("eval w \"Ex N[x]<@0 & (Ay N[y]<@0 => y=x)\";", "TRUE\n"),
    (
        "eval w \"B[0]=@0\";",
        "error 1: F12 File Word Automata Library/B line 4\n",
    ),
    (
        "eval w \"S[0]=@0\";",
        "error 1: F12 File Word Automata Library/S line 1\n",
    ),
    (
        "eval w \"$T(0) & T[0]=@0\";",
        "error 1: F11 Unknown Automata Library/T\n",
    ),
    (
        "eval w \"U[0]=@0 & $q(1)\";",
        "error 1: F11 Unknown Word Automata Library/U\n",
    ),
    (
        "def T \"x=1\"; eval w \"$T(1) & T[1]=@1 & ~$T(2) & T[3]=@0\";",
        "TRUE\n",
    ),
    (
        "def one \"T[x]=@1\"; eval w \"Ax $one(x) <=> T[x]!=@0\";",
        "TRUE\n",
    ),
    (
        "eval c \"?msd_fib Ei,n n>=1 & At t<2*n => F[i+t]=F[i+n+t]\";",
        "TRUE\n",
    ),
    (
        "eval c \"?msd_fib Ei,n n>=1 & At t<3*n => F[i+t]=F[i+n+t]\";",
        "FALSE\n",
    ),
];

/// Formulas with one free variable, and the texts that they store.
const STORED: &str = table![
    (
        "T[x]=@1",
        "msd_2\n\n0 0\n0 -> 0\n1 -> 1\n\n1 1\n0 -> 1\n1 -> 0\n",
    ),
    ("T[x-1]!=@0 & x=0", "msd_2\n\n0 0\n"),
    ("G[x]<=@5", "msd_2\n\n0 1\n0 -> 0\n"),
    ("G[x]!=@5", "msd_2\n\n0 0\n"),
    (
        "T[T]=@0 & T=3",
        "msd_2\n\n0 0\n0 -> 0\n1 -> 1\n\n1 0\n1 -> 2\n\n2 1\n",
    ),
];

/// A store that holds these words.
fn store_of_words(rt: &impl Abort, alloc: Global, files: &[FileRow]) -> MemStore {
    let mut store = MemStore::new(alloc, Vec::new(alloc));
    for (name, text) in files {
        given(rt, store.put(Folder::Words, name, text.as_bytes()));
    }
    store
}

/// Runs a script over a store that holds these words.
pub fn run_over_words(rt: &impl Abort, alloc: Global, files: &[FileRow], script: &str) -> Ran {
    let store = store_of_words(rt, alloc, files);
    run_over(rt, alloc, "walnut", (script.as_bytes(), &SURE), store)
}

#[test]
fn formulas_with_words_print_as_listed(rt: HostRuntime) {
    for row in PRINTED.split_terminator(ROW_END) {
        let (script, printed) = first_field(row);
        let ran = run_over_words(&rt, rt.alloc(), &FILES, script);
        expect_prints(&rt, script, ran, printed);
    }
}

/// Runs the command that defines a formula.
fn run_definition(rt: &impl Abort, alloc: Global, formula: &str) -> Ran {
    let script = given(rt, format!(in alloc; "def w \"{formula}\";"));
    run_over_words(rt, alloc, &FILES, &script)
}

#[test]
fn formulas_with_words_store_their_texts(rt: HostRuntime) {
    for row in STORED.split_terminator(ROW_END) {
        let (formula, text) = first_field(row);
        let ran = run_definition(&rt, rt.alloc(), formula);
        expect_stores(&rt, ran, (Folder::Automata, "w"), text);
    }
}

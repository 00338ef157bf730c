//! Tables by what they accept, dense ones and automata.

use crate::given::given;
use crate::outcomes::expect_so;
use crate::table_texts::listed;
use digit_tuple::alphabet::Alphabet;
use digit_tuple::dense::Dense;
use digit_tuple::dfa::{Dfa, DfaState};
use digit_tuple::table::{Table, accepts_by};
use digit_tuple::transitions::Transition;
use std::alloc::Global;
use std::process::Abort;

// The automaton of the words of 1s.
const ONES: &str = "x:2 = /! 1>0";

// The dense table of one state from which 1 leads to it again.
fn dense(rt: &impl Abort, alloc: Global) -> Dense {
    let alphabet = given(rt, Alphabet::new(alloc, &[2]));
    let again = Transition {
        letter: 1,
        target: 0,
    };
    let state = DfaState {
        accepting: true,
        transitions: given(rt, vec![in alloc; again]),
    };
    Dense::from_states(alphabet, given(rt, vec![in alloc; state]))
}

// Whether a table accepts 11 and not 10.
fn accepts_ones<T: Table>(table: &T) -> bool {
    accepts_by(table, &[1, 1]) && !accepts_by(table, &[1, 0])
}

// Whether the dense table does, and has the one transition.
fn dense_accepts_ones(rt: &impl Abort, alloc: Global) -> bool {
    let dense = dense(rt, alloc);
    accepts_ones(&dense) && dense.transitions(0).len() == 1
}

// Whether the automaton of the dense table does, and has the one transition.
fn made_accepts_ones(rt: &impl Abort, alloc: Global) -> bool {
    let made = given(rt, Dfa::of_dense(alloc, &dense(rt, alloc)));
    accepts_ones(&made) && made.transitions() == 1
}

// Whether the automaton of the line does.
fn listed_accepts_ones(rt: &impl Abort, alloc: Global) -> bool {
    accepts_ones(&listed(rt, alloc, ONES))
}

#[test]
fn tables_accept_by_their_runs(rt: HostRuntime) {
    expect_so(&rt, "dense", dense_accepts_ones(&rt, rt.alloc()));
    expect_so(&rt, "of the dense one", made_accepts_ones(&rt, rt.alloc()));
    expect_so(&rt, ONES, listed_accepts_ones(&rt, rt.alloc()));
}

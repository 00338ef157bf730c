//! How many transitions automata have, and how many digits are kept for them.

use crate::given::given;
use crate::outcomes::expect_text;
use crate::table_texts::listed;
use std::alloc::Global;
use std::process::Abort;

// Tables, and the transitions and the cells of each. In the first, both digits of x go on from the initial state, 0 by
// both digits of y and 1 by one: five cells. In the second, the first state has one cell for x, two for y and two for z,
// and the other one for each. Without a track there is no digit.
static COUNTS: [(&str, &str); 4] = [
    ("x:2 y:2 = / 0>0 1>1 3>0/!", "3 5"),
    ("x:3 y:2 z:2 = / 5>0 6>1/! 11>1", "3 8"),
    ("= / 0>1/!", "1 0"),
    (
        "a:2 b:2 c:2 d:2 e:2 f:2 g:2 h:2 i:2 j:2 k:2 l:2 m:2 n:2 o:2 p:2 = /!",
        "0 0",
    ),
];

// The transitions and the cells of the table of a line.
fn counts(rt: &impl Abort, alloc: Global, line: &str) -> String {
    let dfa = listed(rt, alloc, line);
    let transitions = dfa.transitions();
    let cells = dfa.cells();
    given(rt, format!(in alloc; "{transitions} {cells}"))
}

#[test]
fn transitions_and_cells_are_counted(rt: HostRuntime) {
    for (line, wanted) in &COUNTS {
        expect_text(&rt, line, &counts(&rt, rt.alloc(), line), wanted);
    }
}

//! Files of automatic words: how many states are read, or the line at which a file breaks the format.

use crate::outcomes::expect_value;
use dfa_reading::{FileFault, read_word};
use std::alloc::Global;

// No row is longer.
const LONGEST: usize = 1000;

// How many states a file lists, or the line at which it breaks the format, with 0 for the other; and no numbers where the file is
// longer or memory runs out.
fn read_of(alloc: Global, text: &[u8]) -> Option<(usize, u64)> {
    if text.len() > LONGEST {
        return None;
    }
    match read_word(alloc, text) {
        Ok(listed) => Some((listed.states(), 0)),
        Err(FileFault::File(line)) => Some((0, line)),
        Err(FileFault::Memory) => None,
    }
}

// Files, and what is read of each.
static FILES: [(&str, (usize, u64)); 33] = [
    // any outputs of 32 bits
    ("msd_2\n0 0\n0 -> 0\n1 -> 1\n1 1\n0 -> 1\n1 -> 0\n", (2, 0)),
    ("msd_2\n0 -2147483648\n* -> 0\n", (1, 0)),
    ("msd_2\n0 2147483648\n* -> 0\n", (0, 2)),
    // and `-` for no letter, once for a state
    ("msd_2\n0 -\n", (1, 0)),
    ("msd_2\r\n0\t-\r\n* -> 0\r\n", (1, 0)),
    ("msd_2\n0 -\n0 -> 0\n1 -> 1\n1 7\n", (2, 0)),
    ("msd_2\n0 -\n0 -\n", (0, 3)),
    ("msd_2\n0 -\n0 5\n", (0, 3)),
    ("msd_2\n0 --\n", (0, 2)),
    ("msd_2\n0 - 5\n", (0, 2)),
    ("msd_2\n- -\n", (0, 2)),
    ("{0,1}\n0 -\n", (0, 1)),
    // over systems alone
    ("true\n", (0, 1)),
    ("false\n", (0, 1)),
    ("{0,1}\n0 0\n0 -> 0\n", (0, 1)),
    ("msd_2 lsd_2\n0 0\n", (0, 1)),
    // one target for each letter of digits
    ("msd_2\n0 0\n0 -> 0\n0 -> 1\n1 1\n", (0, 4)),
    ("msd_2\n0 0\n0 -> 0\n0 -> 0\n1 -> 1\n1 1\n", (2, 0)),
    ("msd_2\n0 0\n0 -> 0 1\n1 1\n", (0, 3)),
    ("msd_2\n0 0\n0 -> 0 00\n", (1, 0)),
    ("msd_2\n0 0\n* -> 0\n1 -> 1\n1 1\n", (0, 4)),
    ("msd_2\n0 0\n1 -> 1\n* -> 0\n1 1\n", (0, 4)),
    ("msd_2\n0 0\n* -> 1\n1 -> 1\n1 1\n", (2, 0)),
    ("msd_2 msd_2\n0 0\n0 * -> 0\n* 1 -> 1\n1 1\n", (0, 4)),
    ("msd_2 msd_2\n0 0\n0 * -> 0\n* 1 -> 0\n1 1\n", (2, 0)),
    ("msd_2 msd_2\n0 0\n0 * -> 0\n1 * -> 1\n1 1\n", (2, 0)),
    // also by digits that the system may not have
    ("msd_x\n0 0\n9 -> 0\n9 -> 1\n1 1\n", (0, 4)),
    ("msd_x\n0 0\n* -> 0\n4294967295 -> 1\n1 1\n", (0, 4)),
    // states apart do not conflict
    ("msd_2\n0 0\n0 -> 0\n1 1\n0 -> 1\n", (2, 0)),
    // the first line that breaks the format, before a target that is no state
    ("msd_2\n0 0\n0 -> 7\n1 -> 0\n", (0, 3)),
    ("msd_2\n0 0\n0 -> 7\n1 -> 0\n1 -> 1\n1 1\n", (0, 5)),
    ("msd_2\n0 0\n0 -> 7\n0 -> 8\n", (0, 4)),
    ("msd_2\n", (0, 2)),
];

#[test]
fn files_of_words_are_read_as_listed(rt: HostRuntime) {
    for (text, wanted) in &FILES {
        let found = read_of(rt.alloc(), text.as_bytes());
        expect_value(&rt, text, &found, &Some(*wanted));
    }
}

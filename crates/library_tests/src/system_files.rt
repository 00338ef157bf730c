//! Files of users' systems: how many states are read, or the line at which a file breaks the format.

use crate::outcomes::expect_value;
use dfa_reading::{FileFault, SystemPart, read_system};
use std::alloc::Global;

// No row is longer.
const LONGEST: usize = 1000;

// How many states a file lists, or the line at which it breaks the format, with 0 for the other; and no numbers where the file is
// longer or memory runs out.
fn read_of(alloc: Global, part: SystemPart, text: &[u8]) -> Option<(usize, u64)> {
    if text.len() > LONGEST {
        return None;
    }
    match read_system(alloc, part, text) {
        Ok(listed) => Some((listed.states(), 0)),
        Err(FileFault::File(line)) => Some((0, line)),
        Err(FileFault::Memory) => None,
    }
}

// Languages, and what is read of each.
static LANGUAGES: [(&str, (usize, u64)); 29] = [
    // one set of the digits from 0 on, in any order
    ("{0,1}\n0 1\n* -> 0\n", (1, 0)),
    ("{1,0}\n0 1\n* -> 0\n", (1, 0)),
    ("{0}\n0 1\n", (1, 0)),
    ("{2,0,1}\n0 1\n2 -> 0\n", (1, 0)),
    ("{-0,01}\n0 1\n01 -> 0\n", (1, 0)),
    ("\n# c\n{0,1}\r\n\r\n5 -7\r\n* -> 5 5", (1, 0)),
    ("{0,1}\n0 1\n* -> 0 1\n1 0\n", (2, 0)),
    // files that end too early
    ("", (0, 1)),
    ("# c\n\n", (0, 3)),
    ("{0,1}\n", (0, 2)),
    // other headers
    ("true\n", (0, 1)),
    ("false\n", (0, 1)),
    ("msd_2\n0 1\n", (0, 1)),
    ("{0,2}\n0 1\n", (0, 1)),
    ("{1,2}\n0 1\n", (0, 1)),
    ("{1}\n0 1\n", (0, 1)),
    ("{-1,0,1}\n0 1\n", (0, 1)),
    ("{-1}\n0 1\n", (0, 1)),
    ("{0,1} {0,1}\n0 1\n", (0, 1)),
    ("\n# c\n{0,1} {0,1} {0,1}\n0 1\n", (0, 3)),
    ("\r\n{0,2147483647}\n0 1\n", (0, 2)),
    ("{1,2}\nx\n", (0, 1)),
    // lines below the header
    ("{0,1}\n{0,1}\n0 1\n", (0, 2)),
    ("{0,1}\n0 1\n2 -> 0\n", (0, 3)),
    ("{0,1}\n0 1\n0 0 -> 0\n", (0, 3)),
    ("{0,1}\n0 1\n0 -> 1\n", (0, 3)),
    ("{0,1}\n0 1\n0 -> 1\n9\n", (0, 4)),
    ("{0,1}\n0 1\n0 -> 0\n0 0\n", (0, 4)),
    ("{0,1}\n0 -\n", (0, 2)),
];

#[test]
fn languages_are_read_as_listed(rt: HostRuntime) {
    for (text, wanted) in &LANGUAGES {
        let found = read_of(rt.alloc(), SystemPart::Language, text.as_bytes());
        expect_value(&rt, text, &found, &Some(*wanted));
    }
}

// Numbers of digits, adders over them, and what is read of each.
static ADDERS: [(u32, &str, (usize, u64)); 24] = [
    // three sets of the digits from 0 on, each in any order
    (2, "{0,1} {0,1} {0,1}\n0 1\n* * * -> 0\n", (1, 0)),
    (2, "{1,0}{0,1} {1,0}\r\n0 1\r\n1 0 1 -> 0", (1, 0)),
    (1, "{0}{0}{0}\n0 1\n", (1, 0)),
    (3, "{0,1,2}{0,1,2}{2,1,0}\n0 1\n2 2 2 -> 0\n", (1, 0)),
    // files that end too early
    (2, "", (0, 1)),
    (2, "{0,1} {0,1} {0,1}\n", (0, 2)),
    // other headers
    (2, "true\n", (0, 1)),
    (2, "false\n", (0, 1)),
    (2, "msd_2 msd_2 msd_2\n0 1\n", (0, 1)),
    (2, "{0,1}\n0 1\n", (0, 1)),
    (2, "{0,1} {0,1}\n0 1\n", (0, 1)),
    (2, "{0,1} {0,1} {0,1} {0,1}\n0 1\n", (0, 1)),
    (2, "{0,1} {0,1} {0,2}\n0 1\n", (0, 1)),
    (2, "{0,1,2} {0,1} {0,1}\n0 1\n", (0, 1)),
    (2, "{0,1,2} {0,1,2} {0,1,2}\n0 1\n", (0, 1)),
    (3, "{0,1} {0,1} {0,1}\n0 1\n", (0, 1)),
    (4294967295, "{0} {0} {0}\n0 1\n", (0, 1)),
    (2, "\n# c\n{0,1}\n0 1\n", (0, 3)),
    // lines below the header
    (2, "{0,1} {0,1} {0,1}\n0 1\n0 0 2 -> 0\n", (0, 3)),
    (2, "{0,1} {0,1} {0,1}\n0 1\n0 0 -> 0\n", (0, 3)),
    (2, "{0,1} {0,1} {0,1}\n0 1\n0 0 0 -> 1\n", (0, 3)),
    (2, "{0,1} {0,1} {0,1}\n0 1\n0 0 0 -> 0\n0 0\n", (0, 4)),
    (2, "{0,1} {0,1} {0,1}\n{0,1} {0,1} {0,1}\n0 1\n", (0, 2)),
    (2, "{0,1} {0,1} {0,1}\n0 -\n", (0, 2)),
];

#[test]
fn adders_are_read_as_listed(rt: HostRuntime) {
    for (digits, text, wanted) in &ADDERS {
        let found = read_of(rt.alloc(), SystemPart::Adder(*digits), text.as_bytes());
        expect_value(&rt, text, &found, &Some(*wanted));
    }
}

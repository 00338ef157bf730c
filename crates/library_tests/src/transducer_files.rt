//! Files of transducers that are read, and those that break the format, each with the line at which it does.

use crate::given::given;
use crate::outcomes::expect_value;
use crate::text_rows::{ROW_END, fields_of, table};
use dfa_reading::FileFault;
use std::alloc::Global;
use transducer_reading::{Transducer, read_transducer};

// No row is longer.
const LONGEST: usize = 1000;

/// The transducer of a text.
pub(crate) fn made_of(alloc: Global, text: &str) -> Result<Transducer, FileFault> {
    if text.len() > LONGEST {
        return Err(FileFault::Memory);
    }
    read_transducer(alloc, text.as_bytes())
}

// The line of the first fault, 0 where a file is read, and None where memory runs out.
fn line_of(alloc: Global, text: &str) -> Option<u64> {
    match made_of(alloc, text) {
        Ok(_) => Some(0),
        Err(FileFault::File(line)) => Some(line),
        Err(FileFault::Memory) => None,
    }
}

// Files, and the line of the first fault of each, or 0.
const FILES: &str = table![
    // files that are read
    (
        "{0,1}\n0\n0 -> 0 / 0\n1 -> 1 / 1\n1\n0 -> 1 / 1\n1 -> 0 / 0\n",
        0,
    ),
    ("{0,1}\n0\n0 -> 0 / 5\n", 0),
    ("{0,1}\n0\n", 0),
    ("{0,1}\n0", 0),
    ("{0}\r\n7\r\n*->7/-3\r\n", 0),
    (
        " # c\n\n {0 , -1}\t\n#x\n 0 \n-1 -> 0 / -2147483648\n 0->0/2147483647\n# end",
        0,
    ),
    ("{5}\n4294967295\n5 -> 4294967295 / 0", 0),
    ("{5}\n0\n05 -> 000 / 00", 0),
    ("{0,1}\n0\n* -> 0 / 1\n0 -> 0 / 1\n* -> 0 / 1\n", 0),
    ("{0,1}\n0\n0 -> 0 / 1\n1->0/1\n* -> 0 / 1\n", 0),
    ("{0,1}\n0\n0 -> 0 / 1\n0 -> 0 / 1\n", 0),
    ("{0,1}\n1\n0 -> 0 / 1\n0\n0 -> 1 / 2\n", 0),
    ("{0,1}\n0\n0 -> 0/ 1", 0),
    ("{0,1}\n0\n0 -> 0 /1", 0),
    // ends
    ("", 1),
    ("\n", 2),
    ("# a\n\n", 3),
    ("{0,1}\n", 2),
    ("{0,1}", 2),
    ("{0,1}\n\n# b", 4),
    // heads
    ("{}\n0\n", 1),
    ("{0,0}\n0\n", 1),
    ("{0}{1}\n0\n", 1),
    ("{0} {1}\n0\n", 1),
    ("{0} x\n0\n", 1),
    ("x{0}\n0\n", 1),
    ("{0,1\n0\n", 1),
    ("0,1}\n0\n", 1),
    ("msd_2\n0\n", 1),
    ("true\n", 1),
    ("\n\n{2147483648}\n0\n", 3),
    ("{0,}\n0\n", 1),
    // states
    ("{0,1}\n0 1\n", 2),
    ("{0,1}\nx\n", 2),
    ("{0,1}\n-1\n", 2),
    ("{0,1}\n4294967296\n", 2),
    ("{0,1}\n0\n1\n0\n", 4),
    ("{0,1}\n0\n00\n", 3),
    ("{0,1}\n{0,1}\n0\n", 2),
    ("{0,1}\n0 -> 0 / 1\n0\n", 2),
    // lines
    ("{0,1}\n0\n2 -> 0 / 1\n", 3),
    ("{0,1}\n0\n0 0 -> 0 / 1\n", 3),
    ("{0,1}\n0\n -> 0 / 1\n", 3),
    ("{0,1}\n0\n** -> 0 / 1\n", 3),
    ("{0,1}\n0\n0 -> 0\n", 3),
    ("{0,1}\n0\n0 -> 0 /\n", 3),
    ("{0,1}\n0\n0 -> / 0\n", 3),
    ("{0,1}\n0\n0 -> 0 1 / 0\n", 3),
    ("{0,1}\n0\n0 -> 0 / 0 1\n", 3),
    ("{0,1}\n0\n0 -> 0 / 0 / 1\n", 3),
    ("{0,1}\n0\n0 -> 0 / 0 /\n", 3),
    ("{0,1}\n0\n0 -> 0 // 1\n", 3),
    ("{0,1}\n0\n0 -> 0 / -\n", 3),
    ("{0,1}\n0\n0 -> 0 / 2147483648\n", 3),
    ("{0,1}\n0\n0 -> 0 / -2147483649\n", 3),
    ("{0,1}\n0\n0 -> 4294967296 / 0\n", 3),
    ("{0,1}\n0\n0 -> -1 / 0\n", 3),
    ("{0,1}\n0\n0 -> * / 0\n", 3),
    ("{0,1}\n0\n0 - > 0 / 0\n", 3),
    ("{0,1}\n0\n0 -> 0 -> 0 / 0\n", 3),
    // conflicts
    ("{0,1}\n0\n0 -> 0 / 1\n0 -> 0 / 2\n", 4),
    ("{0,1}\n0\n0 -> 0 / 1\n0 -> 1 / 1\n1\n", 4),
    ("{0,1}\n0\n* -> 0 / 1\n1 -> 0 / 2\n", 4),
    ("{0,1}\n0\n1 -> 0 / 1\n0 -> 0 / 2\n* -> 0 / 2\n", 5),
    ("{0,1}\n0\n1 -> 0 / 1\n* -> 0 / 2\n", 4),
    ("{0,1}\n0\n* -> 0 / 1\n* -> 0 / 2\n", 4),
    ("{0}\n0\n0 -> 9 / 1\n0 -> 0 / 1\n", 4),
    (
        "{0,1}\n0\n0 -> 0 / 1\n1 -> 0 / 2\n1\n1 -> 0 / 3\n0 -> 0 / 4\n1 -> 0 / 5\n",
        8,
    ),
    // targets
    ("{0,1}\n0\n0 -> 1 / 1\n", 3),
    ("{0,1}\n0\n0 -> 0 / 1\n1 -> 7 / 1\n1\n* -> 8 / 0\n", 4),
    ("{0,1}\n0\n0 -> 9 / 1\nx\n", 4),
    ("{0,1}\n0\n0 -> 9 / 1\n\n", 3),
    ("{0,1}\n5\n0 -> 0 / 1\n", 3),
    ("{0,1}\n5\n0 -> 5 / 1\n", 0),
];

#[test]
fn files_of_transducers_break_at_their_lines(rt: HostRuntime) {
    for row in FILES.split_terminator(ROW_END) {
        let (text, wanted) = fields_of(row);
        let found = line_of(rt.alloc(), text);
        expect_value(&rt, text, &found, &Some(given(&rt, wanted.parse())));
    }
}

// Three states, of which the second has no lines, and the first none for the letter 4.
static LISTED: &str = "{-1,0,4}\n3\n0 -> 1 / 5\n-1 -> 3 / -7\n1\n2\n* -> 3 / 8\n";

// A state's place, a letter, and where it leads with which output.
static STEPS: [(&str, usize, i32, Option<(usize, i32)>); 9] = [
    ("a line", 0, 0, Some((1, 5))),
    ("a line back", 0, -1, Some((0, -7))),
    ("no line", 0, 4, None),
    ("no lines", 1, 0, None),
    ("the greatest letter of all", 2, 4, Some((0, 8))),
    ("the least letter of all", 2, -1, Some((0, 8))),
    ("no letter of the set", 2, 1, None),
    ("no letter of the set, without a line", 0, 1, None),
    ("no state", 3, 0, None),
];

#[test]
fn letters_lead_from_states_as_listed(rt: HostRuntime) {
    let transducer = given(&rt, made_of(rt.alloc(), LISTED));
    expect_value(&rt, "the states", &transducer.states(), &3);
    expect_value(&rt, "the lines", &transducer.lines().len(), &3);
    for (row, state, letter, wanted) in &STEPS {
        expect_value(&rt, row, &transducer.step(*state, *letter), wanted);
    }
}

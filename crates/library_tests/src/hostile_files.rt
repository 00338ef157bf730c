//! Files that are read, and files that break the format, each with the line at which it does.

use crate::given::given;
use crate::outcomes::expect_value;
use crate::text_rows::{ROW_END, fields_of, table};
use dfa_reading::{FileFault, read_relation};
use std::alloc::Global;
use std::process::Abort;

// No row is longer.
const LONGEST: usize = 16_777_216;

// How many states a file lists, if it is read.
fn states_of(alloc: Global, text: &[u8]) -> Option<usize> {
    if text.len() > LONGEST {
        return None;
    }
    match read_relation(alloc, text) {
        Ok(listed) => Some(listed.states()),
        Err(_) => None,
    }
}

// Why a file is not read, if it is not.
fn fault_of(alloc: Global, text: &[u8]) -> Option<FileFault> {
    if text.len() > LONGEST {
        return Some(FileFault::Memory);
    }
    read_relation(alloc, text).err()
}

// Files that are read, and how many states they list.
const READ: &str = table![
    // the truth values, alone but for blanks, blank lines and comments
    ("true", 0),
    ("false\n", 0),
    ("false", 0),
    (" true\t\r\n\n \t\n# so it is\n", 0),
    ("# first\n\n\tfalse", 0),
    // ends of lines, and blanks
    ("msd_2\n0 1\n0 -> 0\n", 1),
    ("msd_2\r\n0 1\r\n0 -> 0\r\n", 1),
    ("msd_2\n0 1\n0 -> 0", 1),
    ("msd_2\r\n0 1\r\n0 -> 0\r", 1),
    ("\r\r\n\n msd_2\t\r\r\n\r\n\t0\r1 \n 0\t->\r0\t\n \n", 1),
    ("msd_2\n0 1\n0->0\n1 ->0\n*-> 0\n", 1),
    ("msd_2\n\n\n\n0 1\n\n\n0 -> 0\n\n\n", 1),
    // comments, which may hold any bytes
    ("# head\nmsd_2\n  # state\n0 1\n\t#0 -> 9\n0 -> 0\n#", 1),
    ("#true\r\ntrue\r\n#false\r\n", 0),
    // numbers of states, and their order
    ("msd_2\n7 1\n0 0\n* -> 7 0\n", 2),
    ("msd_2\n4294967295 1\n0 -> 4294967295\n", 1),
    (
        "msd_2\n0000000000000000000000000000000000000003 1\n0 -> 3\n1 -> 03\n",
        1,
    ),
    ("msd_2\n0 1\n0 -> 1\n1 0\n1 -> 0\n", 2),
    ("msd_2\n0 1\n1 0\n2 0\n", 3),
    // outputs
    ("msd_2\n0 2\n0 -> 0\n", 1),
    ("msd_2\n0 0\n", 1),
    ("msd_2\n0 -0\n", 1),
    ("msd_2\n0 2147483647\n1 -2147483648\n2 -0001\n", 3),
    ("msd_2\n0 0000000000000000000000000000000000000001\n", 1),
    // several targets, and lines for one letter
    ("msd_2\n0 1\n0 -> 0 0 0\n0 -> 0\n* -> 0\n", 1),
    ("msd_2\n0 1\n0 -> 1 0\n0 -> 0\n1 0\n* -> 0 1 0\n", 2),
    // digits of systems that are built in
    ("msd_40\n0 1\n39 -> 0\n", 1),
    ("lsd_10\n0 1\n9 -> 0\n00 -> 0\n", 1),
    ("msd_fib\n0 1\n0 -> 0\n1 -> 0\n", 1),
    (
        "lsd_3 lsd_fib\n0 1\n2 1 -> 0\n* 1 -> 0\n2 * -> 0\n* * -> 0\n",
        1,
    ),
    // digits of systems that are not
    ("msd_X\n0 1\n4294967295 -> 0\n", 1),
    ("lsd_pell9\n0 1\n04294967295 -> 0\n* -> 0\n", 1),
    ("msd_41\n0 1\n41 -> 0\n", 1),
    ("msd_1\n0 1\n4294967295 -> 0\n", 1),
    ("msd_02\n0 1\n2 -> 0\n", 1),
    ("msd_fibo\n0 1\n2 -> 0\n", 1),
    ("msd_0\n0 1\n5 -> 0\n", 1),
    ("msd_2 msd_X\n0 1\n1 4294967295 -> 0\n", 1),
    (
        "msd_abcdefghijklmnopqrstuvwxyzABCDEFGHIJKLMNOPQRSTUVWXYZ012345\n0 1\n",
        1,
    ),
    // sets
    ("{0}\n0 1\n0 -> 0\n", 1),
    ("{0,1}{5,-3}\n0 1\n0 5 -> 0\n1 -3 -> 0\n", 1),
    (" { 1 , 0 } \t{ 7\t,\r-7 }\r\n0 1\n0 -7 -> 0\n", 1),
    ("{3,1,2}\n0 1\n1 -> 0\n2 -> 0\n3 -> 0\n", 1),
    (
        "{2147483647,-2147483648}\n0 1\n-2147483648 -> 0\n2147483647 -> 0\n",
        1,
    ),
    ("{1,03}\n0 1\n3 -> 0\n0001 -> 0\n", 1),
    ("{-0}\n0 1\n0 -> 0\n-0 -> 0\n", 1),
    ("{-1}\n0 1\n-1->0\n-01 -> 0\n", 1),
    // more tracks than an automaton may have
    (
        "msd_2 msd_2 msd_2 msd_2 msd_2 msd_2 msd_2 msd_2 msd_2 msd_2 msd_2 msd_2 msd_2 msd_2 msd_2 msd_2 msd_2\n0 1\n",
        1,
    ),
    (
        "{0}{0}{0}{0}{0}{0}{0}{0}{0}{0}{0}{0}{0}{0}{0}{0}{0}\n0 1\n0 0 0 0 0 0 0 0 0 0 0 0 0 0 0 0 0 -> 0\n",
        1,
    ),
    // a state named as another's output
    ("msd_2\n5 5\n", 1),
    // no line leads from the initial state
    ("msd_2\n0 1\n1 1\n0 -> 0\n", 2),
    // the digits of one track may be larger than those of another
    ("msd_3 msd_2\n0 1\n2 1 -> 0\n", 1),
    ("lsd_40 lsd_2\n0 1\n39 0 -> 0\n", 1),
    // the last line is a comment without its end
    ("msd_2\n0 1\n# end", 1),
    // one digit with a zero before it
    ("msd_2\n0 1\n01 -> 0\n", 1),
    ("{-1,1}\n00 -1\n* -> 0\n", 1),
];

// A file with a comment that is no text.
const NO_TEXT: &[u8] = b"#\0\xff\x80 -> {\nmsd_2\n0 1\n#\xc3\n";

#[test]
fn files_are_read(rt: HostRuntime) {
    for row in READ.split_terminator(ROW_END) {
        let (text, states) = fields_of(row);
        let found = states_of(rt.alloc(), text.as_bytes());
        expect_value(&rt, row, &found, &Some(given(&rt, states.parse())));
    }
    let found = states_of(rt.alloc(), NO_TEXT);
    expect_value(&rt, "no text", &found, &Some(1));
}

// Files that break the format, and the line at which each does: the first that is out of form, where there is none the first
// with a target that is no state, and for a file that ends too early the line after its last.
const BROKEN_ENDS: &str = table![
    // files that end too early
    ("", 1),
    ("\n", 2),
    ("\n\n\n", 4),
    ("\r\n", 2),
    (" \t\r", 2),
    ("# nothing", 2),
    ("# nothing\n", 2),
    ("msd_2", 2),
    ("msd_2\n", 2),
    ("msd_2\n\n", 3),
    ("msd_2\n# only\r\n \n", 4),
    ("msd_2\n# only\r\n ", 4),
    ("{0}", 2),
    // below `true` and `false` is nothing
    ("true\nfalse\n", 2),
    ("true\ntrue", 2),
    ("true\n0 1\n", 2),
    ("false\n\n# so\n0 -> 0", 4),
    ("false\nmsd_2\n0 1\n", 2),
    ("true\n\n\n\0\n", 4),
];

// The same of first lines that are no header, and of names and directions of systems.
const BROKEN_HEADERS: &str = table![
    // first lines that are no header
    ("true false\n", 1),
    ("true msd_2\n0 1\n", 1),
    ("True\n", 1),
    ("truefalse\n", 1),
    ("true;\n", 1),
    ("1\n", 1),
    ("0 1\nmsd_2\n", 1),
    ("0 -> 0\n", 1),
    ("msd_2 # base 2\n0 1\n", 1),
    ("\n# c\n\nmsd 2\n0 1\n", 4),
    ("msd_2\r0 1\r0 -> 0\r", 1),
    // names that are no system's
    ("msd_\n0 1\n", 1),
    ("MSD_2\n0 1\n", 1),
    ("msb_2\n0 1\n", 1),
    ("msd2\n0 1\n", 1),
    ("msd_a_b\n0 1\n", 1),
    ("msd_-2\n0 1\n", 1),
    ("msd_2,msd_2\n0 1\n", 1),
    (
        "msd_abcdefghijklmnopqrstuvwxyzABCDEFGHIJKLMNOPQRSTUVWXYZ0123456\n0 1\n",
        1,
    ),
    // systems of both directions, and systems beside sets
    ("msd_2 lsd_2\n0 1\n", 1),
    ("lsd_fib lsd_2 msd_3\n0 1\n", 1),
    ("msd_X lsd_X\n0 1\n", 1),
    ("lsd_41 msd_none\n0 1\n", 1),
    ("msd_2 {0,1}\n0 1\n", 1),
    ("{0,1} msd_2\n0 1\n", 1),
    ("{0,1}msd_2\n0 1\n", 1),
];

// The same of sets.
const BROKEN_SETS: &str = table![
    ("{}\n0 1\n", 1),
    ("{ }\n0 1\n", 1),
    ("{0} {}\n0 1\n", 1),
    ("{0,1,0}\n0 1\n", 1),
    ("{0,00}\n0 1\n", 1),
    ("{0,-0}\n0 1\n", 1),
    ("{0,1}{7,5,07}\n0 1\n", 1),
    ("{0,}\n0 1\n", 1),
    ("{,0}\n0 1\n", 1),
    ("{0,,1}\n0 1\n", 1),
    ("{0 1}\n0 1\n", 1),
    ("{0;1}\n0 1\n", 1),
    ("{0\n0 1\n", 1),
    ("0}\n0 1\n", 1),
    ("{0}}\n0 1\n", 1),
    ("{{0}}\n0 1\n", 1),
    ("{0},{1}\n0 1\n", 1),
    ("{0} 1\n0 1\n", 1),
    ("{0,\n1}\n0 1\n", 1),
    ("{+1}\n0 1\n", 1),
    ("{- 1}\n0 1\n", 1),
    ("{--1}\n0 1\n", 1),
    ("{-}\n0 1\n", 1),
    ("{a}\n0 1\n", 1),
    ("{2147483648}\n0 1\n", 1),
    ("{-2147483649}\n0 1\n", 1),
    ("{1000000000000000000000000000000000000000}\n0 1\n", 1),
];

// The same of states.
const BROKEN_STATES: &str = table![
    // transitions before a state
    ("msd_2\n0 -> 0\n", 2),
    ("{0}\n\n* -> 0\n0 1\n", 3),
    // states
    ("msd_2\nmsd_2\n0 1\n", 2),
    ("msd_2\n0\n", 2),
    ("msd_2\n0 1 1\n", 2),
    ("msd_2\n01\n", 2),
    ("msd_2\n0,1\n", 2),
    ("msd_2\n-1 1\n", 2),
    ("msd_2\n+1 1\n", 2),
    ("msd_2\n* 1\n", 2),
    ("msd_2\n0 +1\n", 2),
    ("msd_2\n0 -\n", 2),
    ("msd_2\n0 - 1\n", 2),
    ("msd_2\n0 1.0\n", 2),
    ("msd_2\n0x0 1\n", 2),
    ("msd_2\n4294967296 1\n", 2),
    ("msd_2\n0 2147483648\n", 2),
    // no letter, as words may have, also after another state and over sets
    ("msd_2\n0 1\n1 -\n", 3),
    ("{0,1}\n0 -\n", 2),
    ("msd_2\n0 -2147483649\n", 2),
    ("msd_2\n1000000000000000000000000000000000000000 1\n", 2),
    ("msd_2\n0 1000000000000000000000000000000000000000\n", 2),
    ("msd_2\n0 1\ntrue\n", 3),
    ("msd_2\n0 1 # accepts\n", 2),
    // a state given twice
    ("msd_2\n0 1\n0 -> 0\n0 0\n", 4),
    ("msd_2\n0 1\n1 1\n00 1\n", 4),
];

// The same of digits and targets.
const BROKEN_LINES: &str = table![
    // digits
    ("msd_2\n0 1\n2 -> 0\n", 3),
    ("msd_fib\n0 1\n0 -> 0\n2 -> 0\n", 4),
    ("lsd_40\n0 1\n40 -> 0\n", 3),
    ("msd_3 msd_2\n0 1\n1 2 -> 0\n", 3),
    ("msd_X\n0 1\n4294967296 -> 0\n", 3),
    (
        "msd_X\n0 1\n1000000000000000000000000000000000000000 -> 0\n",
        3,
    ),
    ("msd_X\n0 1\n-1 -> 0\n", 3),
    ("msd_X\n0 1\n+1 -> 0\n", 3),
    ("{0,1}\n0 1\n2 -> 0\n", 3),
    ("{0,2}\n0 1\n1 -> 0\n", 3),
    ("{1}\n0 1\n-1 -> 0\n", 3),
    ("msd_2\n0 1\n-> 0\n", 3),
    ("msd_2\n0 1\n0 0 -> 0\n", 3),
    ("msd_2 msd_2\n0 1\n0 -> 0\n", 3),
    ("msd_2 msd_2\n0 1\n01 -> 0\n", 3),
    ("msd_2 msd_2\n0 1\n** -> 0\n", 3),
    ("msd_2 msd_2\n0 1\n0,1 -> 0\n", 3),
    // targets
    ("msd_2\n0 1\n0 ->\n", 3),
    ("msd_2\n0 1\n0 -> *\n", 3),
    ("msd_2\n0 1\n0 -> -0\n", 3),
    ("msd_2\n0 1\n0 -> 0,0\n", 3),
    ("msd_2\n0 1\n0 -> 0 -> 0\n", 3),
    ("msd_2\n0 1\n0 - > 0\n", 3),
    ("msd_2\n0 1\n0 --> 0\n", 3),
    ("msd_2\n0 1\n0 > 0\n", 3),
    ("msd_2\n0 1\n0 -> 0 # stays\n", 3),
    ("msd_2\n0 1\n0 -> 4294967296\n", 3),
    (
        "msd_2\n0 1\n0 -> 1000000000000000000000000000000000000000\n",
        3,
    ),
];

// Files with targets that are no states.
const MISSING: &str = table![
    ("msd_2\n\n0 1\n0 -> 1\n", 4),
    ("msd_2\n0 1\n0 -> 4294967295\n", 3),
    ("msd_2\n0 1\n0 -> 5\n1 -> 6\n", 3),
    // each target but the last of line 4 is given below
    ("msd_2\n0 1\n0 -> 1\n1 -> 0 1 2\n1 0\n* -> 3\n", 4),
    // what is out of form comes before a target that is no state, wherever it is
    ("msd_2\n0 1\n0 -> 5\n1 -> 0 x\n", 4),
    ("msd_2\n0 1\n0 -> 5\n0 0\n", 4),
    ("msd_2\n0 1\n0 -> 4294967295\n0 -> 4294967296\n", 4),
    ("msd_2\n0 1\n0 -> 4294967296\nx\n", 3),
    // a line that no letter takes has targets too
    ("msd_X\n0 1\n4294967295 -> 1\n", 3),
];

// Files with bytes that no line but a comment may have.
static BYTES: [(&[u8], u64); 14] = [
    (b"\0", 1),
    (b"msd_2\0\n0 1\n", 1),
    (b"msd_2\n0 1\n\0\n", 3),
    (b"msd_2\n0 1\0\n", 2),
    (b"msd_2\n0\x001\n", 2),
    (b"\xef\xbb\xbfmsd_2\n0 1\n", 1),
    (b"msd_\xc3\xa4\n0 1\n", 1),
    (b"msd_2\n0\xc2\xa01\n", 2),
    (b"msd_2\n0 1\n0 \xe2\x86\x92 0\n", 3),
    (b"msd_2\n\xff\n", 2),
    (b"\xb2\n", 1),
    (b"msd_2\n0\x0b1\n", 2),
    (b"msd_2\n0 1\n0 ->\x0c0\n", 3),
    (b"{0}\n\"0\" 1\n", 2),
];

// Asserts that a file breaks the format at this line.
fn expect_broken(rt: &impl Abort, alloc: Global, row: &str, text: &[u8], line: u64) {
    let wanted = Some(FileFault::File(line));
    expect_value(rt, row, &fault_of(alloc, text), &wanted);
}

// Asserts that each of these files breaks the format at its line.
fn expect_all_broken(rt: &impl Abort, alloc: Global, rows: &str) {
    for row in rows.split_terminator(ROW_END) {
        let (text, line) = fields_of(row);
        expect_broken(rt, alloc, row, text.as_bytes(), given(rt, line.parse()));
    }
}

#[test]
fn files_break_at_their_lines(rt: HostRuntime) {
    expect_all_broken(&rt, rt.alloc(), BROKEN_ENDS);
    expect_all_broken(&rt, rt.alloc(), BROKEN_HEADERS);
    expect_all_broken(&rt, rt.alloc(), BROKEN_SETS);
    expect_all_broken(&rt, rt.alloc(), BROKEN_STATES);
    expect_all_broken(&rt, rt.alloc(), BROKEN_LINES);
    expect_all_broken(&rt, rt.alloc(), MISSING);
    for (text, line) in &BYTES {
        expect_broken(&rt, rt.alloc(), "bytes", text, *line);
    }
}

// A prefix, a part so many times, and an end, and the line at which they break the format, or None where they are read.
struct LongFile {
    prefix: &'static str,
    part: &'static str,
    times: usize,
    end: &'static str,
    line: Option<u64>,
}

static LONG: [LongFile; 10] = [
    LongFile {
        prefix: "",
        part: "\n",
        times: 1_000_000,
        end: "x",
        line: Some(1_000_001),
    },
    LongFile {
        prefix: "",
        part: "\n",
        times: 1_000_000,
        end: "",
        line: Some(1_000_001),
    },
    LongFile {
        prefix: "",
        part: "\r\n",
        times: 1_000_000,
        end: "true",
        line: None,
    },
    LongFile {
        prefix: "true\n",
        part: "\n",
        times: 1_000_000,
        end: "true",
        line: Some(1_000_002),
    },
    LongFile {
        prefix: "msd_2\n",
        part: "\n",
        times: 1_000_000,
        end: "",
        line: Some(1_000_002),
    },
    LongFile {
        prefix: "msd_2\n",
        part: "\n",
        times: 1_000_000,
        end: "0 1\n0 -> 1",
        line: Some(1_000_003),
    },
    LongFile {
        prefix: "msd_2\n",
        part: "#\n",
        times: 100_000,
        end: "0 1\n0 -> 0",
        line: None,
    },
    // a comment, a number of a state, and targets
    LongFile {
        prefix: "#",
        part: "#",
        times: 100_000,
        end: "\ntrue",
        line: None,
    },
    LongFile {
        prefix: "msd_2\n",
        part: "0",
        times: 100_000,
        end: "7 1\n0 -> 7\n",
        line: None,
    },
    LongFile {
        prefix: "msd_2\n0 1\n0 -> 0",
        part: " 0",
        times: 100_000,
        end: " 1",
        line: Some(3),
    },
];

// The text of a long file.
fn text_of(rt: &impl Abort, alloc: Global, file: &LongFile) -> String {
    let mut text = given(rt, String::from_str(alloc, file.prefix));
    given(
        rt,
        text.push_str(&given(rt, file.part.repeat(alloc, file.times))),
    );
    given(rt, text.push_str(file.end));
    text
}

// The number of the first of these files that is not read or broken so, counted from 0; how many they are, if each is.
fn first_other(rt: &impl Abort, alloc: Global, files: &[LongFile]) -> usize {
    let mut count: usize = 0;
    for file in files {
        let text = text_of(rt, alloc, file);
        if fault_of(alloc, text.as_bytes()) != file.line.map(FileFault::File) {
            return count;
        }
        count = count.saturating_add(1);
    }
    count
}

#[test]
fn files_may_be_long(rt: HostRuntime) {
    let rows: &[LongFile] = &LONG;
    let found = first_other(&rt, rt.alloc(), rows);
    expect_value(&rt, "long files", &found, &rows.len());
}

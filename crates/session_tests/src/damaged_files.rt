//! Files of each form that are cut at each byte, or have another byte at one place, and scripts of random bytes: each run answers or
//! refuses its commands, and each line that it prints has its form.

use crate::answers::given;
use crate::given::{FileRow, store_of};
use crate::tables::files;
use crate::user_system_files::CARRIES;
use crate::whole::{Ran, SURE, code_of, expect, printed_in, run_over};
use std::alloc::Global;
use std::process::Abort;
use wal_outside::Folder;

/// A file that is damaged, and a command that reads it.
type DamagedRow = (FileRow, &'static str);

/// A file of each form.
static DAMAGED: [DamagedRow; 10] = [
    (
        (
            Folder::Automata,
            "b",
            "msd_2\n0 1\n0 -> 0 1\n# c\n1 0\n* -> 1\n",
        ),
        "eval t \"$b(1)\";",
    ),
    (
        (Folder::Automata, "s", "{-1, 2}\r\n3 1\r\n2 -> 3\r\n"),
        "test s 3;",
    ),
    ((Folder::Automata, "y", "true\n"), "inf y;"),
    (
        (Folder::Words, "H", "msd_2\n0 -5\n0 -> 0\n1 -> 1\n1 -\n"),
        "eval t \"H[1]=@5\";",
    ),
    ((Folder::Morphisms, "m", "0->01\n1->[1]0\n"), "promote P m;"),
    (
        (Folder::Transducers, "u", "{0,1}\n0\n* -> 0 / -1\n"),
        "transduce S u T;",
    ),
    (
        (Folder::Macros, "d", "%0=2*%1 & #e()"),
        "eval t \"#d(2,1)\";",
    ),
    (
        (Folder::Bases, "msd_d", "{0,1}\n0 1\n0 -> 0\n1 -> 0\n"),
        "eval t \"?msd_d 0=0\";",
    ),
    (
        (Folder::Bases, "msd_d_addition", CARRIES),
        "eval t \"?msd_d 0=0\";",
    ),
    (
        (
            Folder::Commands,
            "c",
            "eval t \"1=1\"; # a\nreg a {0} \"0\":\nload c; exit",
        ),
        "load c;",
    ),
];

/// What these commands read besides.
const OTHERS: &str = files![
    (Folder::Bases, "msd_d", BINARY),
    (Folder::Bases, "msd_d_addition", CARRIES),
    (
        Folder::Words,
        "T",
        "msd_2\n0 0\n0 -> 0\n1 -> 1\n1 1\n0 -> 1\n1 -> 0\n",
    ),
    (Folder::Macros, "e", "0=0"),
];

/// What replaces a byte: what separates, what begins a part, and what is no text.
const BYTES: &[u8] = b"\0 \n09-\">#}\xff";

/// Runs a command over these bytes as a file.
fn run_over_file(
    rt: &impl Abort,
    alloc: Global,
    (file, command): &DamagedRow,
    bytes: &[u8],
) -> Ran {
    let mut store = store_of(rt, alloc, OTHERS, 0);
    given(rt, store.put(file.0, file.1, bytes));
    run_over(rt, alloc, "walnut", (command.as_bytes(), &SURE), store)
}

/// Whether a line begins as an answer, a step or a refusal does, or is the empty one after the last.
fn is_line(line: &[u8]) -> bool {
    line.is_empty()
        || line == b"TRUE".as_slice()
        || line == b"FALSE".as_slice()
        || line.starts_with(b"step ")
        || line.starts_with(b"error ")
        || line.starts_with(b"[")
}

/// Whether each line has its form.
fn are_lines(printed: &[u8]) -> bool {
    let mut begin = 0;
    for (index, byte) in printed.iter().enumerate() {
        if *byte == b'\n' {
            if !is_line(printed.get(begin..index).unwrap_or(b"?")) {
                return false;
            }
            begin = index.saturating_add(1);
        }
    }
    begin == printed.len()
}

/// Asserts that a run has answered or refused its commands.
fn expect_an_end(rt: &impl Abort, row: &str, ran: Ran) {
    expect(rt, row, &(code_of(&ran) < 2), &true);
    expect(rt, row, &are_lines(printed_in(&ran)), &true);
}

/// The bytes of a file with another one at a place.
fn changed(rt: &impl Abort, alloc: Global, text: &[u8], at: usize, byte: u8) -> Vec<u8> {
    let mut bytes = given(rt, Vec::from_slice(alloc, text));
    if let Some(place) = bytes.get_mut(at) {
        *place = byte;
    }
    bytes
}

/// Runs a command over its file with another byte at a place.
fn run_changed(rt: &impl Abort, alloc: Global, row: &DamagedRow, at: usize, byte: u8) -> Ran {
    let bytes = changed(rt, alloc, row.0.2.as_bytes(), at, byte);
    run_over_file(rt, alloc, row, &bytes)
}

/// Asserts that a command has an end over its file with each other byte at this place.
fn expect_changed_at(rt: &impl Abort, alloc: Global, row: &DamagedRow, at: usize) {
    for byte in BYTES {
        expect_an_end(rt, row.1, run_changed(rt, alloc, row, at, *byte));
    }
}

/// Asserts that a command has an end over each prefix of its file, and over the file with another byte at each place.
fn expect_damaged(rt: &impl Abort, alloc: Global, row: &DamagedRow) {
    let text = row.0.2.as_bytes();
    for at in 0..text.len() {
        let prefix = text.get(..at).unwrap_or(b"");
        expect_an_end(rt, row.1, run_over_file(rt, alloc, row, prefix));
        expect_changed_at(rt, alloc, row, at);
    }
}

#[test]
fn damaged_files_are_read_or_refused(rt: HostRuntime) {
    for row in &DAMAGED {
        expect_damaged(&rt, rt.alloc(), row);
    }
}

/// What random scripts are of: words of commands, quotes, terminators, and bytes alone.
static PARTS: [&str; 32] = [
    "eval ", "def ", "reg ", "test ", "inf ", "load ", "exit", "combine ", "a", "T", "msd_2 ",
    "{0,1} ", "\"", "\"", "\"", ";", ";", ":", "\n", " ", "#", "x", "=", "Ex ", "(", ")", "T[x]",
    "@1", "&", "0", "1", "\0",
];

/// The number after this one, of which the upper bits count (Donald Knuth's generator MMIX).
fn next_draw(number: u64) -> u64 {
    number
        .wrapping_mul(6_364_136_223_846_793_005)
        .wrapping_add(1_442_695_040_888_963_407)
}

/// The part of a draw.
fn part_of(draw: u64) -> &'static str {
    match PARTS.get((draw >> 59) as usize) {
        Some(part) => part,
        None => ";",
    }
}

/// A script of 40 parts from a seed.
fn random_script(rt: &impl Abort, alloc: Global, seed: u64) -> String {
    let mut script = String::new(alloc);
    let mut draw = next_draw(seed);
    for _ in 0..40 {
        draw = next_draw(draw);
        given(rt, script.push_str(part_of(draw)));
    }
    script
}

/// Bytes that a draw gives, of which a quarter are those of a text.
fn random_bytes(rt: &impl Abort, alloc: Global, seed: u64) -> Vec<u8> {
    let mut bytes = Vec::new(alloc);
    let mut draw = next_draw(seed);
    for _ in 0..100 {
        draw = next_draw(draw);
        given(rt, bytes.push((draw >> 56) as u8));
    }
    bytes
}

/// Runs a script of random parts.
fn run_parts(rt: &impl Abort, alloc: Global, seed: u64) -> Ran {
    let script = random_script(rt, alloc, seed);
    run_over(
        rt,
        alloc,
        "walnut",
        (script.as_bytes(), &SURE),
        store_of(rt, alloc, OTHERS, 0),
    )
}

/// Runs a script of random bytes.
fn run_bytes(rt: &impl Abort, alloc: Global, seed: u64) -> Ran {
    let script = random_bytes(rt, alloc, seed);
    run_over(
        rt,
        alloc,
        "walnut",
        (&script, &SURE),
        store_of(rt, alloc, OTHERS, 0),
    )
}

/// So many random scripts are run.
const SEEDS: u64 = 500;

#[test]
fn random_scripts_are_answered_or_refused(rt: HostRuntime) {
    for seed in 0..SEEDS {
        expect_an_end(&rt, "parts", run_parts(&rt, rt.alloc(), seed));
        expect_an_end(&rt, "bytes", run_bytes(&rt, rt.alloc(), seed));
    }
}

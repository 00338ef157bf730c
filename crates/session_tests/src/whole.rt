//! One run over the objects in memory, and what it leaves.

use crate::answers::given;
use session_cli::{Status, run};
use std::alloc::Global;
use std::fmt::Debug;
use std::process::Abort;
use wal_outside::{Folder, MemSink, MemSource, MemStore};

/// What a run is over: lengths of pieces, and the numbers of the calls that fail. An empty list means whole pieces
/// and no failure.
#[derive(Clone, Copy)]
pub struct Outside {
    pub reads: &'static [usize],
    pub failing_reads: &'static [u64],
    pub writes: &'static [usize],
    pub failing_writes: &'static [u64],
    pub failing_store: &'static [u64],
}

/// Everything works, and each piece is taken whole.
pub const SURE: Outside = Outside {
    reads: &[],
    failing_reads: &[],
    writes: &[],
    failing_writes: &[],
    failing_store: &[],
};

/// Everything works but the sink, which takes pieces of these lengths and fails at these calls.
pub fn over_sink(writes: &'static [usize], failing_writes: &'static [u64]) -> Outside {
    Outside {
        writes,
        failing_writes,
        ..SURE
    }
}

/// What a run leaves.
#[derive(Drop)]
pub struct Ran {
    status: Status,
    out: MemSink,
    store: MemStore,
}

/// Runs a script with no words but the program's name, where all works.
pub fn run_script(rt: &impl Abort, alloc: Global, script: &[u8]) -> Ran {
    run_line(rt, alloc, "walnut", script, &SURE)
}

/// Runs a script with the words of this command line.
pub fn run_line(
    rt: &impl Abort,
    alloc: Global,
    line: &str,
    script: &[u8],
    outside: &Outside,
) -> Ran {
    let store = MemStore::new(
        alloc,
        given(rt, Vec::from_slice(alloc, outside.failing_store)),
    );
    run_over(rt, alloc, line, (script, outside), store)
}

/// Runs a script over a store, with the words of this command line.
pub fn run_over(
    rt: &impl Abort,
    alloc: Global,
    line: &str,
    (script, outside): (&[u8], &Outside),
    store: MemStore,
) -> Ran {
    let source = source_of(rt, alloc, script, outside);
    let out = sink_of(rt, alloc, outside);
    run_objects(rt, alloc, line, (source, out), store)
}

/// Runs over these objects, with the words of this command line.
pub fn run_objects(
    rt: &impl Abort,
    alloc: Global,
    line: &str,
    (mut source, mut out): (MemSource, MemSink),
    mut store: MemStore,
) -> Ran {
    let words = words_of(rt, alloc, line);
    let status = run(alloc, &words, &mut source, &mut out, &mut store);
    Ran { status, out, store }
}

/// The words of a command line, between which are blanks.
fn words_of(rt: &impl Abort, alloc: Global, line: &str) -> Vec<String> {
    let mut words = Vec::new(alloc);
    for word in line.split(' ') {
        given(rt, words.push(given(rt, String::from_str(alloc, word))));
    }
    words
}

/// The source of a script.
fn source_of(rt: &impl Abort, alloc: Global, script: &[u8], outside: &Outside) -> MemSource {
    let bytes = given(rt, Vec::from_slice(alloc, script));
    let reads = given(rt, Vec::from_slice(alloc, outside.reads));
    let failing = given(rt, Vec::from_slice(alloc, outside.failing_reads));
    MemSource::new(bytes, reads, failing)
}

/// An empty sink.
fn sink_of(rt: &impl Abort, alloc: Global, outside: &Outside) -> MemSink {
    let writes = given(rt, Vec::from_slice(alloc, outside.writes));
    let failing = given(rt, Vec::from_slice(alloc, outside.failing_writes));
    MemSink::new(alloc, writes, failing)
}

/// What a run printed.
pub fn printed_in(ran: &Ran) -> &[u8] {
    ran.out.held()
}

/// The status of a run: 0 where each command was accepted, 1 where one was refused, 2 where the words were, and 3 where
/// something outside failed.
pub fn code_of(ran: &Ran) -> u8 {
    ran.status.code()
}

/// How many texts a run stored.
pub fn count_in(ran: &Ran) -> usize {
    ran.store.len()
}

/// The status of a run, and how many texts it stored.
pub fn ended(ran: &Ran) -> (u8, usize) {
    (code_of(ran), count_in(ran))
}

/// The text that is under a name after a run, or no bytes where none does.
pub fn stored_in<'a>(ran: &'a Ran, folder: Folder, name: &str) -> &'a [u8] {
    ran.store.text(folder, name).unwrap_or(b"")
}

/// Whether a text is under a name after a run.
pub fn is_stored(ran: &Ran, folder: Folder, name: &str) -> bool {
    ran.store.text(folder, name).is_some()
}

/// Asserts that a row has these bytes.
pub fn expect_bytes(rt: &impl Abort, row: &str, found: &[u8], wanted: &[u8]) {
    assert_eq!(rt; found, wanted, "of {row}");
}

/// Asserts that a row has what is wanted.
pub fn expect<T: Debug + PartialEq>(rt: &impl Abort, row: &str, found: &T, wanted: &T) {
    assert!(rt; found == wanted, "of {row}: {found:?}, not {wanted:?}");
}

/// Asserts that a script prints this.
pub fn expect_printed(rt: &impl Abort, script: &str, ran: &Ran, printed: &str) {
    expect_bytes(rt, script, printed_in(ran), printed.as_bytes());
}

/// Asserts that a run printed this, and lets it go.
pub fn expect_prints(rt: &impl Abort, script: &str, ran: Ran, printed: &str) {
    expect_printed(rt, script, &ran, printed);
}

/// Asserts that a run ended so, with its status and how many texts it stored, and lets it go.
pub fn expect_ended(rt: &impl Abort, row: &str, ran: Ran, end: (u8, usize)) {
    expect(rt, row, &ended(&ran), &end);
}

/// Asserts that a run printed this and ended so, and lets it go.
pub fn expect_run(rt: &impl Abort, row: &str, ran: Ran, printed: &str, end: (u8, usize)) {
    expect_printed(rt, row, &ran, printed);
    expect_ended(rt, row, ran, end);
}

/// Asserts that a run left this text under a name, and lets it go.
pub fn expect_stores(rt: &impl Abort, ran: Ran, place: (Folder, &str), text: &str) {
    expect_stored(rt, &ran, place, text);
}

/// Asserts that a run printed this, has this status, and has texts under these names or has none, as each says, and lets it go.
pub fn expect_names(
    rt: &impl Abort,
    row: &str,
    ran: Ran,
    (printed, code): (&str, u8),
    names: &[(Folder, &str, bool)],
) {
    expect_printed(rt, row, &ran, printed);
    expect(rt, row, &code_of(&ran), &code);
    for (folder, name, stored) in names {
        expect(rt, name, &is_stored(&ran, *folder, name), stored);
    }
}

/// Asserts that a text is under a name.
pub fn expect_stored(rt: &impl Abort, ran: &Ran, (folder, name): (Folder, &str), text: &str) {
    expect_bytes(rt, name, stored_in(ran, folder, name), text.as_bytes());
}

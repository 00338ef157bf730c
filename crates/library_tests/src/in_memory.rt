//! Sources, sinks and stores in memory: which calls fail, and how pieces are cut.

use crate::given::given;
use crate::outcomes::{expect_bytes, expect_so, expect_value};
use std::alloc::Global;
use std::process::Abort;
use wal_outside::{
    Failed, Folder, Found, MemSink, MemSource, MemStore, Sink, Source, Store, SureSink, SureSource,
    SureStore, WriteFault, send, send_four, send_two,
};

// What the calls of a source of `abcdef` give, what the buffer holds after each, and what the source has left.
static READS: [(&str, Result<usize, Failed>, &[u8], &[u8]); 5] = [
    ("call 1", Ok(2), b"ab\0\0", b"cdef"),
    ("call 2", Err(Failed), b"ab\0\0", b"cdef"),
    ("call 3", Ok(1), b"cb\0\0", b"def"),
    ("call 4", Ok(3), b"def\0", b""),
    ("call 5", Ok(0), b"def\0", b""),
];

// One call of a source.
fn one_read(source: &mut MemSource, buf: &mut [u8; 4]) -> Result<usize, Failed> {
    source.read(buf)
}

// Asserts that the calls of a source give this.
fn expect_reads(rt: &impl Abort, source: &mut MemSource) {
    let mut buf = [0u8; 4];
    for (row, wanted, held, left) in &READS {
        expect_value(rt, row, &one_read(source, &mut buf), wanted);
        expect_bytes(rt, row, &buf, held);
        expect_bytes(rt, row, source.left(), left);
    }
}

// A source of six bytes, of which the second call fails.
fn six_bytes(rt: &impl Abort, alloc: Global) -> MemSource {
    let bytes = given(rt, Vec::from_slice(alloc, b"abcdef"));
    MemSource::new(
        bytes,
        given(rt, vec![in alloc; 2, 0]),
        given(rt, vec![in alloc; 2]),
    )
}

#[test]
fn sources_cut_and_fail_as_listed(rt: HostRuntime) {
    let mut source = six_bytes(&rt, rt.alloc());
    expect_reads(&rt, &mut source);
    expect_value(&rt, "calls", &source.calls(), &5);
}

// Pieces, and what the calls of a sink give.
static WRITES: [(&str, &[u8], Result<usize, WriteFault>); 4] = [
    ("call 1", b"abc", Ok(1)),
    ("call 2", b"bc", Ok(0)),
    ("call 3", b"bc", Err(WriteFault::Failed)),
    ("call 4", b"bc", Ok(2)),
];

// One call of a sink.
fn one_write(sink: &mut MemSink, piece: &[u8]) -> Result<usize, WriteFault> {
    sink.write(piece)
}

// Asserts that the calls of a sink give this.
fn expect_writes(rt: &impl Abort, sink: &mut MemSink) {
    for (row, piece, wanted) in &WRITES {
        expect_value(rt, row, &one_write(sink, piece), wanted);
    }
}

// A sink that takes pieces of these lengths, and whose call of this number fails.
fn sink_of(rt: &impl Abort, alloc: Global, pieces: &[usize], failing: u64) -> MemSink {
    let pieces = given(rt, Vec::from_slice(alloc, pieces));
    MemSink::new(alloc, pieces, given(rt, vec![in alloc; failing]))
}

#[test]
fn sinks_take_and_fail_as_listed(rt: HostRuntime) {
    let mut sink = sink_of(&rt, rt.alloc(), &[1, 0], 3);
    expect_writes(&rt, &mut sink);
    expect_bytes(&rt, "the sink", sink.held(), b"abc");
    expect_value(&rt, "calls", &sink.calls(), &4);
}

// Sends these pieces by the call for one, two or four.
fn sent(sink: &mut MemSink, pieces: &[&[u8]]) -> Result<(), WriteFault> {
    match pieces {
        [piece] => send(sink, piece),
        [first, second] => send_two(sink, first, second),
        [first, second, third, fourth] => send_four(sink, first, second, third, fourth),
        _ => Err(WriteFault::Memory),
    }
}

// Pieces that are sent, by a name, whether they went, and what the sink holds after. The fifth byte goes whole, and of the next
// four the sixth call refuses one.
static SENT: [(&str, &[&[u8]], Result<(), WriteFault>, &[u8]); 5] = [
    ("nothing", &[b""], Ok(()), b""),
    ("one piece", &[b"abcd"], Ok(()), b"abcd"),
    ("two pieces", &[b"e", b""], Ok(()), b"abcde"),
    (
        "four pieces, refused",
        &[b"f", b"g", b"h", b"i"],
        Err(WriteFault::Failed),
        b"abcdef",
    ),
    (
        "four pieces",
        &[b"g", b"h", b"i", b"j"],
        Ok(()),
        b"abcdefghij",
    ),
];

// Asserts that pieces go and are held so.
fn expect_sent(rt: &impl Abort, sink: &mut MemSink) {
    for (row, pieces, wanted, held) in &SENT {
        expect_value(rt, row, &sent(sink, pieces), wanted);
        expect_bytes(rt, row, sink.held(), held);
        expect_value(rt, row, &(sink.calls() == 0), &held.is_empty());
    }
}

#[test]
fn pieces_are_sent_whole_or_a_prefix_of_them(rt: HostRuntime) {
    let mut sink = sink_of(&rt, rt.alloc(), &[1, 2], 6);
    expect_sent(&rt, &mut sink);
}

#[test]
fn a_sink_that_takes_nothing_stops_a_piece(rt: HostRuntime) {
    let mut stuck = sink_of(&rt, rt.alloc(), &[1, 0], 9);
    let found = sent(&mut stuck, &[b"ab"]);
    expect_value(&rt, "a piece", &found, &Err(WriteFault::Failed));
    expect_bytes(&rt, "the sink", stuck.held(), b"a");
}

// A call of a store, with the text that it writes, and what it gives; or what it finds under a name, and reads there.
enum StoreRow {
    Write(&'static str, Folder, &'static [u8], Result<(), WriteFault>),
    Read(&'static str, Folder, Found, &'static [u8]),
}

// One writing call of a store.
fn kept(store: &mut MemStore, folder: Folder, name: &str, text: &[u8]) -> Result<(), WriteFault> {
    store.write(folder, name, text)
}

// One reading call of a store.
fn found(store: &mut MemStore, folder: Folder, name: &str, into: &mut Vec<u8>) -> Found {
    store.read(folder, name, into)
}

// Asserts that a call of a store gives this.
fn expect_call(rt: &impl Abort, store: &mut MemStore, into: &mut Vec<u8>, row: &StoreRow) {
    match row {
        StoreRow::Write(name, folder, text, wanted) => {
            expect_value(rt, name, &kept(store, *folder, name, text), wanted);
        }
        StoreRow::Read(name, folder, wanted, text) => {
            expect_value(rt, name, &found(store, *folder, name, into), wanted);
            expect_bytes(rt, name, into, text);
        }
    }
}

// Asserts that the calls of a store give this.
fn expect_calls(rt: &impl Abort, alloc: Global, store: &mut MemStore, rows: &[StoreRow]) {
    let mut into = given(rt, Vec::from_slice(alloc, b"old"));
    for row in rows {
        expect_call(rt, store, &mut into, row);
    }
}

// The text of a store under a name, or none.
fn text_in<'a>(store: &'a MemStore, folder: Folder, name: &str) -> &'a [u8] {
    store.text(folder, name).unwrap_or(b"none")
}

// A store with one text.
fn store_of_one(rt: &impl Abort, alloc: Global) -> MemStore {
    let mut store = MemStore::new(alloc, Vec::new(alloc));
    given(rt, store.put(Folder::Macros, "a", b"one"));
    store
}

// What its calls give.
static KEPT: [StoreRow; 4] = [
    StoreRow::Read("a", Folder::Macros, Found::Found, b"one"),
    StoreRow::Write("a", Folder::Macros, b"three", Ok(())),
    StoreRow::Write("a", Folder::Words, b"four", Ok(())),
    StoreRow::Read("b", Folder::Words, Found::Absent, b""),
];

#[test]
fn stores_keep_what_is_written(rt: HostRuntime) {
    let mut store = store_of_one(&rt, rt.alloc());
    expect_calls(&rt, rt.alloc(), &mut store, &KEPT);
    expect_bytes(&rt, "a", text_in(&store, Folder::Macros, "a"), b"three");
    expect_value(&rt, "texts", &store.len(), &2);
    expect_value(&rt, "calls", &store.calls(), &4);
}

// Whether a file's call is the one that failed last.
fn has_failed(store: &MemStore, folder: Folder, name: &str) -> bool {
    match store.failed() {
        Some(call) => call.folder == folder && call.name.as_str() == name,
        None => false,
    }
}

// What the calls of a store give whose first and third call fail.
static FIRST: [StoreRow; 1] = [StoreRow::Write(
    "a",
    Folder::Macros,
    b"two",
    Err(WriteFault::Failed),
)];

static LATER: [StoreRow; 2] = [
    StoreRow::Write("a", Folder::Macros, b"two", Ok(())),
    StoreRow::Read("b", Folder::Words, Found::Failed, b""),
];

// A store whose first and third call fail.
fn failing_store(rt: &impl Abort, alloc: Global) -> MemStore {
    MemStore::new(alloc, given(rt, vec![in alloc; 1, 3]))
}

#[test]
fn stores_fail_as_listed(rt: HostRuntime) {
    let mut store = failing_store(&rt, rt.alloc());
    expect_value(&rt, "no call", &store.failed().is_none(), &true);
    expect_calls(&rt, rt.alloc(), &mut store, &FIRST);
    expect_value(&rt, "texts", &store.len(), &0);
    expect_value(&rt, "a", &has_failed(&store, Folder::Macros, "a"), &true);
    expect_calls(&rt, rt.alloc(), &mut store, &LATER);
    expect_value(&rt, "b", &has_failed(&store, Folder::Words, "b"), &true);
}

// Whether a store that never fails gives back what was written.
fn reads_again(rt: &impl Abort, alloc: Global, text: &[u8]) -> bool {
    let mut store = SureStore::new(alloc);
    let mut into = Vec::new(alloc);
    let written = store.write(Folder::Words, "a", text);
    let found = store.read(Folder::Words, "a", &mut into);
    let is_alone = store.text(Folder::Words, "b").is_none();
    written.is_ok() && found == Found::Found && is_alone && into.as_slice() == text
}

// Whether a source that never fails gives some bytes, and a sink that never fails holds them.
fn passes_on(rt: &impl Abort, alloc: Global, bytes: &[u8]) -> bool {
    let mut buf = [0u8; 4];
    let mut source = SureSource::new(given(rt, Vec::from_slice(alloc, bytes)));
    let mut sink = SureSink::new(alloc);
    match source.read(&mut buf) {
        Ok(count) => {
            let taken = sink.write(&buf[..count]);
            taken == Ok(bytes.len()) && source.left().is_empty() && sink.held() == bytes
        }
        Err(_) => false,
    }
}

#[test]
fn sure_objects_never_fail(rt: HostRuntime) {
    expect_so(
        &rt,
        "a source and a sink",
        passes_on(&rt, rt.alloc(), b"ab"),
    );
    expect_so(&rt, "a store", reads_again(&rt, rt.alloc(), b"four"));
}

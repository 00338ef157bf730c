//! The adapters over the system's own readers, writers and files.

use crate::outcomes::{expect_bytes, expect_value};
use std::io::{ErrorKind, Read, Write};
use std::process::Abort;
use std::test::Fail;
use std::{env, fs, io};
use wal_outside::{
    Failed, Folder, FolderStore, Found, Sink, Source, StdSink, StdSource, Store, WriteFault,
};

// A reader and writer whose calls are interrupted, then move one byte, then none, then fail.
#[derive(Drop)]
struct Flaky {
    calls: u8,
}

impl Flaky {
    fn next(&mut self) -> io::Result<usize> {
        self.calls = self.calls.saturating_add(1);
        match self.calls {
            1 => Err(io::Error::from(ErrorKind::Interrupted)),
            2 => Ok(1),
            3 => Ok(0),
            _ => Err(io::Error::from(ErrorKind::Other)),
        }
    }
}

impl Read for Flaky {
    fn read(&mut self, buf: &mut [u8]) -> io::Result<usize> {
        let count = self.next()?.min(buf.len());
        buf[..count].fill(b'x');
        Ok(count)
    }
}

impl Write for Flaky {
    fn write(&mut self, piece: &[u8]) -> io::Result<usize> {
        Ok(self.next()?.min(piece.len()))
    }

    fn flush(&mut self) -> io::Result<()> {
        Ok(())
    }
}

// One read from a source, what the buffer holds after it, and how many faults the source counts.
fn one_read(source: &mut StdSource<Flaky>) -> (Result<usize, Failed>, [u8; 4], u64) {
    let mut buf = [0u8; 4];
    let found = source.read(&mut buf);
    (found, buf, source.faults())
}

// What the reads of a source give.
static READS: [(&str, (Result<usize, Failed>, [u8; 4], u64)); 3] = [
    ("read 1", (Ok(1), *b"x\0\0\0", 0)),
    ("read 2", (Ok(0), [0; 4], 0)),
    ("read 3", (Err(Failed), [0; 4], 1)),
];

#[test]
fn a_reader_is_a_source(rt: HostRuntime) {
    let mut source = StdSource::new(Flaky { calls: 0 });
    for (row, wanted) in &READS {
        expect_value(&rt, row, &one_read(&mut source), wanted);
    }
}

// One write to a sink, and how many faults the sink counts.
fn one_write(sink: &mut StdSink<Flaky>) -> (Result<usize, WriteFault>, u64) {
    let taken = sink.write(b"abc");
    (taken, sink.faults())
}

// What the writes to a sink give.
static WRITES: [(&str, (Result<usize, WriteFault>, u64)); 3] = [
    ("write 1", (Ok(1), 0)),
    ("write 2", (Ok(0), 1)),
    ("write 3", (Err(WriteFault::Failed), 2)),
];

#[test]
fn a_writer_is_a_sink(rt: HostRuntime) {
    let mut sink = StdSink::new(Flaky { calls: 0 });
    for (row, wanted) in &WRITES {
        expect_value(&rt, row, &one_write(&mut sink), wanted);
    }
}

const FOLDER: &str = "folder_store_test";

// Goes into a new folder.
fn enter(rt: &HostRuntime) -> Result<(), Fail> {
    let _ = fs::remove_dir_all(rt, FOLDER);
    fs::create_dir(rt, FOLDER)?;
    Ok(env::set_current_dir(rt, FOLDER)?)
}

// Leaves the folder and removes it.
fn leave(rt: &HostRuntime) -> Result<(), Fail> {
    env::set_current_dir(rt, "..")?;
    Ok(fs::remove_dir_all(rt, FOLDER)?)
}

// Asserts what a store has under a name, and that `into` then holds this.
fn expect_found(
    rt: &impl Abort,
    store: &mut FolderStore<'_, HostRuntime>,
    (folder, name): (Folder, &str),
    wanted: Found,
    into: &mut Vec<u8>,
) {
    expect_value(rt, name, &store.read(folder, name, into), &wanted);
}

// Asserts what a writing call of a store gives.
fn expect_kept(
    rt: &impl Abort,
    store: &mut FolderStore<'_, HostRuntime>,
    (folder, name): (Folder, &str),
    text: &[u8],
    wanted: Result<(), WriteFault>,
) {
    expect_value(rt, name, &store.write(folder, name, text), &wanted);
}

// Asserts that a store gives a text that was written over a longer one.
fn expect_overwritten(
    rt: &impl Abort,
    store: &mut FolderStore<'_, HostRuntime>,
    into: &mut Vec<u8>,
) {
    let place = (Folder::Automata, "a");
    expect_found(rt, store, place, Found::Absent, into);
    expect_bytes(rt, "a", into, b"");
    expect_kept(rt, store, place, b"first, longer", Ok(()));
    expect_kept(rt, store, place, b"one", Ok(()));
    expect_found(rt, store, place, Found::Found, into);
    expect_bytes(rt, "a", into, b"one");
}

// Asserts that a store reads and writes nothing outside its folders.
fn expect_inside(rt: &impl Abort, store: &mut FolderStore<'_, HostRuntime>, into: &mut Vec<u8>) {
    let outside = (Folder::Automata, "../Automata Library/a");
    expect_found(rt, store, outside, Found::Absent, into);
    expect_value(rt, "faults", &store.faults(), &0);
    let refused = Err(WriteFault::Failed);
    expect_kept(rt, store, (Folder::Automata, "../a"), b"one", refused);
}

// Asserts that a store fails where a file is in the place of its folder.
fn expect_failed(rt: &impl Abort, store: &mut FolderStore<'_, HostRuntime>, into: &mut Vec<u8>) {
    let place = (Folder::Results, "a");
    expect_found(rt, store, place, Found::Failed, into);
    expect_kept(rt, store, place, b"one", Err(WriteFault::Failed));
    expect_value(rt, "faults", &store.faults(), &3);
}

// The text of the file that a store wrote.
fn text_of(rt: &HostRuntime) -> Result<String, Fail> {
    Ok(fs::read_to_string(rt, "Automata Library/a.txt")?)
}

// Whether there is a file outside, after which one takes the place of a folder.
fn replaced(rt: &HostRuntime) -> Result<bool, Fail> {
    let is_outside = fs::exists(rt, "a.txt")?;
    fs::write(rt, "Result", b"a file".as_slice())?;
    Ok(is_outside)
}

#[test]
fn a_folder_is_a_store(rt: HostRuntime) -> Result<(), Fail> {
    enter(&rt)?;
    let mut store = FolderStore::new(&rt, rt.alloc());
    let mut into = Vec::from_slice(rt.alloc(), b"old")?;
    expect_overwritten(&rt, &mut store, &mut into);
    expect_bytes(&rt, "the file", text_of(&rt)?.as_bytes(), b"one");
    expect_inside(&rt, &mut store, &mut into);
    expect_value(&rt, "a file outside", &replaced(&rt)?, &false);
    expect_failed(&rt, &mut store, &mut into);
    leave(&rt)
}

//! Runs over stores that hold given files, and tables of such runs.

use crate::answers::given;
use crate::tables::{ROW_END, constant_in, first_field, folder_of, numbers_of};
use crate::user_system_files::text_named;
use crate::whole::{Outside, Ran, SURE, expect_bytes, expect_run, expect_stored, run_over};
use std::alloc::Global;
use std::process::Abort;
use wal_outside::{Folder, MemStore};

/// A file, by its folder, its name and its text.
pub type FileRow = (Folder, &'static str, &'static str);

/// The number of a call of the store that fails, what a script prints then, the status, and how many texts the store has.
pub type FailingRow = (u64, &'static str, u8, usize);

/// A limit of states, a script, what it prints within it, the status, and how many texts the store has.
pub type LimitRow = (u32, &'static str, &'static str, u8, usize);

/// A store with these files. Its call of this number fails; none does where the number is 0.
pub fn store_of(rt: &impl Abort, alloc: Global, files: &str, failing: u64) -> MemStore {
    let mut store = MemStore::new(alloc, given(rt, vec![in alloc; failing]));
    put_files(rt, &mut store, files);
    store
}

/// Puts files into a store.
pub fn put_files(rt: &impl Abort, store: &mut MemStore, files: &str) {
    for row in files.split_terminator(ROW_END) {
        let (folder, rest) = first_field(row);
        let (name, field) = first_field(rest);
        let folder = folder_of(folder).expect(rt, "a folder");
        given(rt, store.put(folder, name, text_in(rt, field).as_bytes()));
    }
}

/// The text of a file: the field, or the constant that it names.
pub fn text_in<'a>(rt: &impl Abort, field: &'a str) -> &'a str {
    match constant_in(field) {
        Some(name) => text_named(name).expect(rt, "a constant"),
        None => field,
    }
}

/// Runs a script over a store with these files, with the words of this command line.
pub fn run_given(rt: &impl Abort, alloc: Global, files: &str, line: &str, script: &str) -> Ran {
    let store = store_of(rt, alloc, files, 0);
    run_over(rt, alloc, line, (script.as_bytes(), &SURE), store)
}

/// Runs a script over a store with this file alone.
pub fn run_with(
    rt: &impl Abort,
    alloc: Global,
    (folder, name, text): (Folder, &str, &str),
    script: &str,
) -> Ran {
    let mut store = store_of(rt, alloc, "", 0);
    given(rt, store.put(folder, name, text.as_bytes()));
    run_over(rt, alloc, "walnut", (script.as_bytes(), &SURE), store)
}

/// Runs a script over a store with these files, whose call of this number fails.
pub fn run_failing(rt: &impl Abort, alloc: Global, files: &str, script: &str, failing: u64) -> Ran {
    run_line_failing(rt, alloc, files, ("walnut", script), failing)
}

/// Runs a script over a store with these files, whose call of this number fails, with the words of this command line.
pub fn run_line_failing(
    rt: &impl Abort,
    alloc: Global,
    files: &str,
    (line, script): (&str, &str),
    failing: u64,
) -> Ran {
    let store = store_of(rt, alloc, files, failing);
    run_over(rt, alloc, line, (script.as_bytes(), &SURE), store)
}

/// Runs a script over a store with these files, whose bytes come and go so.
pub fn run_outside(
    rt: &impl Abort,
    alloc: Global,
    files: &str,
    script: &str,
    outside: &Outside,
) -> Ran {
    let store = store_of(rt, alloc, files, 0);
    run_over(rt, alloc, "walnut", (script.as_bytes(), outside), store)
}

/// Asserts that a run printed this, and ended with the status that a field says and with as many texts as the next one says, and
/// lets it go.
pub fn expect_end(rt: &impl Abort, script: &str, ran: Ran, printed: &str, end: &str) {
    match numbers_of(end) {
        Some(end) => expect_run(rt, script, ran, printed, end),
        None => expect_bytes(rt, script, end.as_bytes(), b"a status and a number"),
    }
}

/// Asserts that the script of a row prints what the row says, and ends so: the fields are the script, what it prints, the
/// status, and how many texts the store has then.
pub fn expect_script(rt: &impl Abort, alloc: Global, files: &str, line: &str, row: &str) {
    let (script, rest) = first_field(row);
    let (printed, end) = first_field(rest);
    let ran = run_given(rt, alloc, files, line, script);
    expect_end(rt, script, ran, printed, end);
}

/// Asserts that each script of a table prints what is listed, and ends so.
pub fn expect_scripts(rt: &impl Abort, alloc: Global, files: &str, line: &str, rows: &str) {
    for row in rows.split_terminator(ROW_END) {
        expect_script(rt, alloc, files, line, row);
    }
}

/// Asserts that the script of a row leaves the text that the row says: the fields are the script, and a folder, a name and
/// the text that is there then.
fn expect_text(rt: &impl Abort, alloc: Global, files: &str, row: &str) {
    let (script, rest) = first_field(row);
    let (folder, rest) = first_field(rest);
    let (name, text) = first_field(rest);
    let ran = run_given(rt, alloc, files, "walnut", script);
    match folder_of(folder) {
        Some(folder) => expect_stored(rt, &ran, (folder, name), text),
        None => expect_bytes(rt, row, folder.as_bytes(), b"a folder"),
    }
}

/// Asserts that each script of a table leaves the text that is listed.
pub fn expect_texts(rt: &impl Abort, alloc: Global, files: &str, rows: &str) {
    for row in rows.split_terminator(ROW_END) {
        expect_text(rt, alloc, files, row);
    }
}

/// Asserts that a script, over a store with these files whose call of this number fails, prints what is listed, and ends so.
pub fn expect_failing(
    rt: &impl Abort,
    alloc: Global,
    files: &str,
    (line, script): (&str, &str),
    rows: &[FailingRow],
) {
    for (failing, printed, code, count) in rows {
        let ran = run_line_failing(rt, alloc, files, (line, script), *failing);
        expect_run(rt, printed, ran, printed, (*code, *count));
    }
}

/// Asserts that each script of a table, within its limit of states, prints what is listed, and ends so.
pub fn expect_within(rt: &impl Abort, alloc: Global, files: &str, rows: &[LimitRow]) {
    for (limit, script, printed, code, count) in rows {
        let line = given(rt, format!(in alloc; "walnut --states {limit}"));
        let ran = run_given(rt, alloc, files, &line, script);
        expect_run(rt, script, ran, printed, (*code, *count));
    }
}

//! One command alone, without a script around it.

use crate::whole::{expect, expect_bytes};
use session_cli::Session;
use std::alloc::Global;
use wal_outside::{Folder, MemStore};

/// Whether a command is accepted whose steps are shown, and what it prints.
fn answered(
    session: &mut Session,
    alloc: Global,
    text: &[u8],
    store: &mut MemStore,
) -> (bool, Vec<u8>) {
    match session.command(alloc, text, true, store) {
        Ok(printed) => (true, printed.into_bytes()),
        Err(_) => (false, Vec::new(alloc)),
    }
}

/// The text that is stored of the automaton `ab`, or no bytes.
fn stored_text(store: &MemStore) -> &[u8] {
    store.text(Folder::Automata, "ab").unwrap_or(b"")
}

// A command that is accepted, with the line of its step, and one that is refused.
#[test]
fn a_command_is_answered(rt: HostRuntime) {
    let alloc = rt.alloc();
    let mut session = Session::new(alloc, 16);
    let mut store = MemStore::new(alloc, Vec::new(alloc));
    let reg = b"reg ab {0,1} \"0*1\"";
    let (accepted, printed) = answered(&mut session, alloc, reg, &mut store);
    expect(&rt, "reg", &accepted, &true);
    expect_bytes(&rt, "reg", &printed, b"step 1 regex 4 2\n");
    let stored = b"{0,1}\n\n0 0\n0 -> 0\n1 -> 1\n\n1 1\n";
    expect_bytes(&rt, "ab", stored_text(&store), stored);
    let (other, _) = answered(&mut session, alloc, b"prove a", &mut store);
    expect(&rt, "prove", &other, &false);
}

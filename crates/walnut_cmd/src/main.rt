//! The program walnut: a session over standard input, standard output and the current folder.
#![tactic(auto)]

use monitor::Monitor;
use session_cli::{Program, Status};
use std::alloc::AllocError;
use std::env;
use std::io::{ErrorKind, IsTerminal};
use std::process::ExitCode;
use std::rc::Rc;
use wal_outside::{FolderStore, StdSink, StdSource};

fn main(rt: HostRuntime) -> ExitCode {
    let mut script = StdSource::new(rt.stdin());
    let mut out = StdSink::new(rt.stdout());
    let mut store = FolderStore::new(&rt, rt.alloc());
    let status = match command_line(&rt) {
        Ok(words) => {
            let program = Program::shown_on(rt.alloc(), monitor(rt));
            program.run(&words, &mut script, &mut out, &mut store)
        }
        Err(AllocError) => Status::Memory,
    };
    ExitCode::from(status.code())
}

/// A monitor, where standard error is a terminal and there is memory for one.
fn monitor(rt: HostRuntime) -> Option<Rc<Monitor>> {
    if rt.stderr().is_terminal() {
        Rc::new(rt.alloc(), Monitor::new(rt)).ok()
    } else {
        None
    }
}

/// The words of the command line. Where one of them is no UTF-8, two empty words, which the session refuses.
fn command_line(rt: &HostRuntime) -> Result<Vec<String>, AllocError> {
    match env::args(rt) {
        Ok(words) => words.collect(rt.alloc()),
        Err(error) if error.kind() == ErrorKind::OutOfMemory => Err(AllocError),
        Err(_) => unreadable_words(rt),
    }
}

fn unreadable_words(rt: &HostRuntime) -> Result<Vec<String>, AllocError> {
    let mut words = Vec::new(rt.alloc());
    words.push(String::new(rt.alloc()))?;
    words.push(String::new(rt.alloc()))?;
    Ok(words)
}

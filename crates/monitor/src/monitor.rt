//! A line on standard error that says which step is being made.

use crate::line::{CLEARED, Work, line};
use std::cell::{Cell, RefCell};
use std::io::{Stderr, Write};
use std::time::{Duration, Instant};

// After how many states the clock is read.
const STATES_BETWEEN: u32 = 64;

// How many milliseconds pass at least from one line to the next, and from the start of a command to its first.
const MILLISECONDS_BETWEEN: u64 = 100;

/// Shows on standard error which step is being made.
#[derive(Drop)]
pub struct Monitor {
    system: HostRuntime,
    out: RefCell<Stderr>,
    work: Cell<Work>,
    // how many states were made since the clock was read
    unread: Cell<u32>,
    // when the last line was shown, or the command began
    since: Cell<Option<Instant>>,
    is_shown: Cell<bool>,
}

impl Monitor {
    /// A monitor that shows nothing yet.
    pub fn new(system: HostRuntime) -> Monitor {
        Monitor {
            system,
            out: RefCell::new(system.stderr()),
            work: Cell::new(Work::none()),
            unread: Cell::new(0),
            since: Cell::new(None),
            is_shown: Cell::new(false),
        }
    }

    /// Says which part of a formula is being made, counted from 1, of how many.
    pub fn part(&self, part: u64, parts: u64) {
        let work = self.work.get();
        self.work.set(Work {
            part,
            parts,
            ..work
        });
    }

    /// Says which step is being made, counted from 1, and of which kind.
    pub fn step(&self, step: u64, kind: &'static str) {
        let work = self.work.get();
        self.work.set(Work { step, kind, ..work });
    }

    /// Says that the step has made so many states so far, and shows it if the time has come. It reads the clock at each
    /// 64th call.
    pub fn states(&self, states: usize) {
        let unread = self.unread.get();
        if unread < STATES_BETWEEN {
            self.unread.set(unread + 1);
            return;
        }
        self.unread.set(0);
        if self.is_time() {
            self.show(states);
        }
    }

    /// Takes the line away, as a command has ended.
    pub fn clear(&self) {
        if self.is_shown.get() {
            self.write(CLEARED);
        }
        self.is_shown.set(false);
        self.since.set(None);
        self.work.set(Work::none());
    }

    // Whether a tenth of a second has passed since the last line, or since the first look of this command.
    fn is_time(&self) -> bool {
        let Ok(now) = Instant::now(&self.system) else {
            return false;
        };
        let has_passed = match self.since.get() {
            None => false,
            Some(since) => match now.checked_duration_since(since) {
                Some(passed) if passed < Duration::from_millis(MILLISECONDS_BETWEEN) =>
                    return false,
                _ => true,
            },
        };
        self.since.set(Some(now));
        has_passed
    }

    // Shows the line. Without memory for it none is shown.
    fn show(&self, states: usize) {
        if let Ok(text) = line(self.system.alloc(), self.work.get(), states) {
            self.write(&text);
            self.is_shown.set(true);
        }
    }

    // Writes to standard error. What it does not take is left out.
    fn write(&self, text: &str) {
        if let Ok(mut out) = self.out.try_borrow_mut() {
            let _ = out.write_all(text.as_bytes());
        }
    }
}

//! Texts that are written part by part.

use crate::given::no_answer;
use std::alloc::{AllocError, Global};
use std::process::Abort;

/// A text that is written part by part. A part for which there is no memory is left out, and then the text is no answer.
#[derive(Drop)]
pub(crate) struct Written {
    text: String,
    is_whole: bool,
}

impl Written {
    /// No parts.
    pub(crate) fn new(alloc: Global) -> Written {
        Written {
            text: String::new(alloc),
            is_whole: true,
        }
    }

    /// Adds a part.
    pub(crate) fn put(&mut self, part: &str) {
        if self.text.push_str(part).is_err() {
            self.is_whole = false;
        }
    }

    /// Adds a mark and a text that is made for it, as the digits of a number.
    pub(crate) fn put_made(&mut self, mark: &str, made: Result<String, AllocError>) {
        self.put(mark);
        match made {
            Ok(made) => self.put(&made),
            Err(_) => self.is_whole = false,
        }
    }

    /// Adds a part, and before it, if it is not the first one, what is between two parts.
    pub(crate) fn put_next(&mut self, between: &str, part: &str) {
        if !self.text.is_empty() {
            self.put(between);
        }
        self.put(part);
    }

    /// The text, if each part is in it.
    pub(crate) fn whole(self, rt: &impl Abort) -> String {
        let Written { text, is_whole } = self;
        if is_whole { text } else { no_answer(rt) }
    }
}

//! The words of the command line: the options that they give, or that they are refused.

use crate::given::{given, no_answer};
use crate::outcomes::expect_text;
use command_line::{Options, WordsFault, options_of};
use std::alloc::Global;
use std::process::Abort;

// The limit, and after it `stop` and the seed, where they are given.
fn shown(rt: &impl Abort, alloc: Global, options: Options) -> String {
    let stop = if options.stop { " stop" } else { "" };
    match options.seed {
        Some(seed) => given(rt, format!(in alloc; "{}{stop} {seed}", options.limit)),
        None => given(rt, format!(in alloc; "{}{stop}", options.limit)),
    }
}

// What the words of a line give, of which a blank is between each two.
fn options_in(rt: &impl Abort, alloc: Global, line: &str) -> String {
    let mut words = Vec::new(alloc);
    for word in line.split(' ') {
        given(rt, words.push(given(rt, String::from_str(alloc, word))));
    }
    match options_of(alloc, &words) {
        Ok(options) => shown(rt, alloc, options),
        Err(WordsFault::Refused) => given(rt, String::from_str(alloc, "refused")),
        Err(WordsFault::Memory) => no_answer(rt),
    }
}

// Lines and the options that their words give.
static GIVEN: [(&str, &str); 16] = [
    ("", "100000"),
    ("walnut", "100000"),
    ("walnut --", "100000"),
    ("walnut --stop", "100000 stop"),
    ("walnut --stop --", "100000 stop"),
    ("walnut --make 0", "100000 0"),
    ("walnut --make=1 --", "100000 1"),
    (
        "walnut --make 18446744073709551615",
        "100000 18446744073709551615",
    ),
    ("walnut --states 16", "16"),
    ("walnut --states=1000000", "1000000"),
    ("walnut --states 33 --stop", "33 stop"),
    ("walnut --stop --states 33", "33 stop"),
    ("walnut --make 7 --stop --states=16", "16 stop 7"),
    ("walnut --states=16 --make=7 --stop", "16 stop 7"),
    ("walnut --stop --states 16 --make 7 --", "16 stop 7"),
    ("walnut --make=7 --states 16", "16 7"),
];

#[test]
fn words_give_options_in_any_order(rt: HostRuntime) {
    for (line, wanted) in &GIVEN {
        expect_text(&rt, line, &options_in(&rt, rt.alloc(), line), wanted);
    }
}

// Lines whose words are refused.
static REFUSED: [&str; 32] = [
    "walnut --states",
    "walnut --states=",
    "walnut --states 15",
    "walnut --states 016",
    "walnut --states +16",
    "walnut --states -16",
    "walnut --states 1000001",
    "walnut --states 16 --states=16",
    "walnut --states 16 --stop --states 16",
    "walnut --states --stop",
    "walnut --states -- 16",
    "walnut --stop --stop",
    "walnut --stop=",
    "walnut --stop=true",
    "walnut --stop true",
    "walnut --stop -- --",
    "walnut -- --stop",
    "walnut --make",
    "walnut --make=",
    "walnut --make ",
    "walnut --make --stop",
    "walnut --make --",
    "walnut --make 00",
    "walnut --make +1",
    "walnut --make -1",
    "walnut --make=18446744073709551616",
    "walnut --make 1 --make 1",
    "walnut --make=1 --states 16 --make=2",
    "walnut --mak 1",
    "walnut -m 1",
    "walnut 1 --make 1",
    "walnut --help",
];

#[test]
fn other_words_are_refused(rt: HostRuntime) {
    for line in &REFUSED {
        expect_text(&rt, line, &options_in(&rt, rt.alloc(), line), "refused");
    }
}

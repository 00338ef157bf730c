//! The limits, at their number and one more.

use crate::answers::given;
use crate::whole::{Ran, expect, expect_ended, expect_run, run_script, stored_in};
use std::alloc::Global;
use std::process::Abort;
use wal_outside::Folder;

const COMMAND_LIMIT: usize = 65_536;

const SCRIPT_LIMIT: usize = 16_777_216;

const HEAD: &str = "reg p {0} \"0";

/// A `reg` whose text has so many bytes, filled with blanks inside its quotes, its terminator, and what follows.
fn command_of(rt: &impl Abort, alloc: Global, length: usize, end: &str) -> String {
    let blanks = given(rt, " ".repeat(alloc, length.saturating_sub(HEAD.len() + 1)));
    given(rt, format!(in alloc; "{HEAD}{blanks}\";{end}"))
}

/// Runs such a command, and what follows.
fn run_command_of(rt: &impl Abort, alloc: Global, length: usize, end: &str) -> Ran {
    run_script(rt, alloc, command_of(rt, alloc, length, end).as_bytes())
}

#[test]
fn a_command_has_at_most_65536_bytes(rt: HostRuntime) {
    let most = run_command_of(&rt, rt.alloc(), COMMAND_LIMIT, "");
    expect_ended(&rt, "65,536 bytes", most, (0, 1));
    let more = run_command_of(&rt, rt.alloc(), COMMAND_LIMIT + 1, "");
    expect_run(
        &rt,
        "one byte more",
        more,
        "error 1: F07 Long 65536\n",
        (1, 0),
    );
}

// A command that is too long is answered, and so is the one after it.
#[test]
fn a_run_goes_on_after_a_long_command(rt: HostRuntime) {
    let end = "\nx;reg a {0} \"0\":";
    let ran = run_command_of(&rt, rt.alloc(), COMMAND_LIMIT + 1, end);
    let printed = "error 1: F07 Long 65536\nerror 2: F01 Command\nstep 1 regex 3 2\n";
    expect_run(&rt, "three commands", ran, printed, (1, 1));
}

/// A script of so many bytes: a command, a line end, blanks, and at the end a command without arguments.
fn script_of(rt: &impl Abort, alloc: Global, length: usize) -> String {
    let command = "reg p {0} \"0\";";
    let blanks = given(
        rt,
        " ".repeat(alloc, length.saturating_sub(command.len() + 3)),
    );
    given(rt, format!(in alloc; "{command}\n{blanks}x;"))
}

/// Runs such a script.
fn run_script_of(rt: &impl Abort, alloc: Global, length: usize) -> Ran {
    run_script(rt, alloc, script_of(rt, alloc, length).as_bytes())
}

#[test]
fn a_script_has_at_most_16777216_bytes(rt: HostRuntime) {
    let most = run_script_of(&rt, rt.alloc(), SCRIPT_LIMIT);
    expect_run(
        &rt,
        "16,777,216 bytes",
        most,
        "error 2: F01 Command\n",
        (1, 1),
    );
    let more = run_script_of(&rt, rt.alloc(), SCRIPT_LIMIT + 1);
    expect_run(
        &rt,
        "one byte more",
        more,
        "error 2: F28 ScriptLimit\n",
        (1, 1),
    );
}

/// Runs a command of two letters of sixteen tracks: two states with a line of 198 bytes for each of 65,536 letters.
fn run_long_text(rt: &impl Abort, alloc: Global) -> Ran {
    let sets = given(rt, "{-2147483648,-2147483647}".repeat(alloc, 16));
    let script = given(rt, format!(in alloc; "reg p {sets} \"..\":"));
    run_script(rt, alloc, script.as_bytes())
}

#[test]
fn a_text_that_is_far_too_long_is_not_stored(rt: HostRuntime) {
    let ran = run_long_text(&rt, rt.alloc());
    expect_run(
        &rt,
        "a long text",
        ran,
        "error 1: F07 Long 16777216\n",
        (1, 0),
    );
}

/// Adds so many members of a set, the first one and those after it.
fn push_members(rt: &impl Abort, alloc: Global, set: &mut String, first: i32, count: i32) {
    for number in 0..count {
        let member = given(rt, format!(in alloc; "{},", first.saturating_add(number)));
        given(rt, set.push_str(&member));
    }
}

/// The words of 300 letters over a set with so many members of nine digits, and so many of ten.
fn command_of_dots(rt: &impl Abort, alloc: Global, nine: i32, ten: i32) -> String {
    let mut set = String::new(alloc);
    push_members(rt, alloc, &mut set, 100_000_000, nine);
    push_members(rt, alloc, &mut set, 1_000_000_000, ten.saturating_sub(1));
    let dots = given(rt, ".".repeat(alloc, 300));
    given(
        rt,
        format!(in alloc; "reg p {{{set}2147483647}} \"{dots}\";"),
    )
}

/// Runs such a command.
fn run_dots(rt: &impl Abort, alloc: Global, nine: i32, ten: i32) -> Ran {
    run_script(rt, alloc, command_of_dots(rt, alloc, nine, ten).as_bytes())
}

#[test]
fn a_stored_text_has_at_most_16777216_bytes(rt: HostRuntime) {
    let most = run_dots(&rt, rt.alloc(), 2_619, 693);
    let length = stored_in(&most, Folder::Automata, "p").len();
    expect(&rt, "16,777,216 bytes", &length, &16_777_216);
    expect_ended(&rt, "16,777,216 bytes", most, (0, 1));
    let more = run_dots(&rt, rt.alloc(), 1_051, 2_172);
    expect_run(
        &rt,
        "one byte more",
        more,
        "error 1: F07 Long 16777216\n",
        (1, 0),
    );
}

/// The set of so many numbers from 0 on.
fn set_of(rt: &impl Abort, alloc: Global, count: i32) -> String {
    let mut members = String::new(alloc);
    let last = count.saturating_sub(1);
    push_members(rt, alloc, &mut members, 0, last);
    given(rt, format!(in alloc; "{{{members}{last}}}"))
}

/// Runs a `reg` of the empty word over two sets of so many members.
fn run_over_sets(rt: &impl Abort, alloc: Global, first: i32, second: i32) -> Ran {
    let sets = (set_of(rt, alloc, first), set_of(rt, alloc, second));
    let script = given(rt, format!(in alloc; "reg p {} {} \"()\";", sets.0, sets.1));
    run_script(rt, alloc, script.as_bytes())
}

#[test]
fn an_automaton_has_at_most_65536_letters(rt: HostRuntime) {
    let most = run_over_sets(&rt, rt.alloc(), 256, 256);
    expect_ended(&rt, "65,536 letters", most, (0, 1));
    let more = run_over_sets(&rt, rt.alloc(), 256, 257);
    expect_run(
        &rt,
        "65,792 letters",
        more,
        "error 1: F18 Letters step 1\n",
        (1, 0),
    );
}

/// Runs a `reg` of a digit within so many parentheses.
fn run_nested(rt: &impl Abort, alloc: Global, depth: usize) -> Ran {
    let before = given(rt, "(".repeat(alloc, depth));
    let after = given(rt, ")".repeat(alloc, depth));
    let script = given(rt, format!(in alloc; "reg p {{0}} \"{before}0{after}\";"));
    run_script(rt, alloc, script.as_bytes())
}

#[test]
fn an_expression_has_at_most_128_parentheses_in_one_another(rt: HostRuntime) {
    let most = run_nested(&rt, rt.alloc(), 128);
    expect_ended(&rt, "128", most, (0, 1));
    let more = run_nested(&rt, rt.alloc(), 129);
    let printed = "error 1: F06 Depth in regex at 128\n";
    expect_run(&rt, "129", more, printed, (1, 0));
}

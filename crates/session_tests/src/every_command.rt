//! A script of each command: its bytes and its answers in pieces, and the calls of its source, its sink and its store that fail, one at
//! a time. What is printed where a call of the store fails is that of a list of which files each command reads and writes.

use crate::answers::given;
use crate::given::{expect_end, run_failing, run_given, store_of};
use crate::tables::{ROW_END, files, first_field, table};
use crate::whole::{
    Ran, code_of, expect, expect_bytes, expect_run, expect_stores, printed_in, run_objects,
    stored_in,
};
use std::alloc::Global;
use std::process::Abort;
use wal_outside::{Folder, MemSink, MemSource};

/// A transducer, a system, and a file of commands.
const FILES: &str = files![
    (
        Folder::Transducers,
        "sum",
        "{0,1}\n0\n0 -> 0 / 0\n1 -> 1 / 1\n1\n0 -> 1 / 1\n1 -> 0 / 0\n",
    ),
    (Folder::Bases, "msd_bin", BINARY),
    (Folder::Bases, "msd_bin_addition", CARRIES),
    (Folder::Commands, "more", "eval inside \"1=1\";"),
];

/// A command, what it prints, and how many texts the store has after it.
type CommandRow = (&'static str, &'static str, usize);

/// Each command, most of them over what those before it stored, one that stores a text anew, one that is refused, and one that is
/// not reached.
static COMMANDS: [CommandRow; 25] = [
    ("reg ab {0,1} \"0*1\":\n", "step 1 regex 4 2\n", 5),
    ("reg ba {0,1} \"1*0\";\n", "", 6),
    ("macro double \"%0=2*%1\";\n", "", 7),
    ("def even \"Ey #double(x,y)\";\n", "", 8),
    ("morphism thue \"0->01 1->10\";\n", "", 9),
    ("promote W thue;\n", "", 10),
    ("morphism swap \"0->1 1->0\";\n", "", 11),
    ("image X swap W;\n", "", 12),
    ("combine C even=7;\n", "", 13),
    ("transduce S sum W;\n", "", 14),
    ("convert B msd_4 S;\n", "", 15),
    ("union some ab ba;\n", "", 16),
    ("intersect both ab ba;\n", "", 17),
    ("concat joined ab ba;\n", "", 18),
    ("star many joined;\n", "", 19),
    ("reverse turned ab;\n", "", 20),
    ("test even 2;\n", "[]\n[1][0]\n", 20),
    ("inf even;\n", "TRUE\n", 20),
    ("eval words \"An W[n]!=X[n]\";\n", "TRUE\n", 21),
    ("eval own \"?msd_bin Ex x=1\";\n", "TRUE\n", 22),
    ("load more;\n", "TRUE\n", 23),
    ("reg ab {0,1} \"1*0\";\n", "", 23),
    ("prove;\n", "error 23: F01 Command\n", 23),
    ("exit;\n", "", 23),
    ("eval after \"1=1\";\n", "", 23),
];

/// What these store, or store anew.
static STORED: [(Folder, &str); 19] = [
    (Folder::Automata, "ab"),
    (Folder::Automata, "ba"),
    (Folder::Macros, "double"),
    (Folder::Automata, "even"),
    (Folder::Morphisms, "thue"),
    (Folder::Words, "W"),
    (Folder::Morphisms, "swap"),
    (Folder::Words, "X"),
    (Folder::Words, "C"),
    (Folder::Words, "S"),
    (Folder::Words, "B"),
    (Folder::Automata, "some"),
    (Folder::Automata, "both"),
    (Folder::Automata, "joined"),
    (Folder::Automata, "many"),
    (Folder::Automata, "turned"),
    (Folder::Results, "words"),
    (Folder::Results, "own"),
    (Folder::Results, "inside"),
];

/// The files, named here alone.
fn files() -> &'static str {
    FILES
}

/// The commands, named here alone.
fn commands() -> &'static [CommandRow] {
    &COMMANDS
}

/// The script of these commands.
fn script(rt: &impl Abort, alloc: Global, rows: &[CommandRow]) -> String {
    let mut text = String::new(alloc);
    for (command, _, _) in rows {
        given(rt, text.push_str(command));
    }
    text
}

/// What these commands print.
fn printed_by(rt: &impl Abort, alloc: Global, rows: &[CommandRow]) -> String {
    let mut text = String::new(alloc);
    for (_, printed, _) in rows {
        given(rt, text.push_str(printed));
    }
    text
}

/// Runs the commands over the files, where all works.
fn run_commands(rt: &impl Abort, alloc: Global, rows: &[CommandRow]) -> Ran {
    let text = script(rt, alloc, rows);
    run_given(rt, alloc, files(), "walnut", text.as_str())
}

/// Runs all commands over a source that gives pieces of so many bytes, and whose call of this number fails.
fn run_in_pieces(rt: &impl Abort, alloc: Global, piece: usize, failing: u64) -> Ran {
    let text = script(rt, alloc, commands());
    let lengths = given(rt, vec![in alloc; piece; text.len()]);
    let bytes = given(rt, Vec::from_slice(alloc, text.as_bytes()));
    let source = MemSource::new(bytes, lengths, given(rt, vec![in alloc; failing]));
    let out = MemSink::new(alloc, Vec::new(alloc), Vec::new(alloc));
    run_objects(
        rt,
        alloc,
        "walnut",
        (source, out),
        store_of(rt, alloc, files(), 0),
    )
}

/// Runs all commands over a sink that takes so many bytes at each of its first calls, and whose call of this number fails.
fn run_over_sink(rt: &impl Abort, alloc: Global, length: usize, calls: usize, failing: u64) -> Ran {
    let text = script(rt, alloc, commands());
    let bytes = given(rt, Vec::from_slice(alloc, text.as_bytes()));
    let source = MemSource::new(bytes, Vec::new(alloc), Vec::new(alloc));
    let lengths = given(rt, vec![in alloc; length; calls]);
    let out = MemSink::new(alloc, lengths, given(rt, vec![in alloc; failing]));
    run_objects(
        rt,
        alloc,
        "walnut",
        (source, out),
        store_of(rt, alloc, files(), 0),
    )
}

/// Runs all commands over a store whose call of this number fails.
fn run_over_store(rt: &impl Abort, alloc: Global, failing: u64) -> Ran {
    let text = script(rt, alloc, commands());
    run_failing(rt, alloc, files(), text.as_str(), failing)
}

/// The number of a field.
fn number_of(field: &str) -> u64 {
    field.parse::<u64>().unwrap_or(0)
}

/// The last of these commands.
fn last_of(rows: &[CommandRow]) -> &str {
    match rows.last() {
        Some((command, _, _)) => command,
        None => "no command",
    }
}

/// How many texts the store has after these commands.
fn count_after(rows: &[CommandRow]) -> usize {
    match rows.last() {
        Some((_, _, count)) => *count,
        None => files().split_terminator(ROW_END).count(),
    }
}

/// Asserts that a run printed what these commands print, with this status and as many texts as they leave.
fn expect_answered(rt: &impl Abort, alloc: Global, rows: &[CommandRow], ran: Ran, code: u8) {
    let printed = printed_by(rt, alloc, rows);
    expect_run(rt, last_of(rows), ran, &printed, (code, count_after(rows)));
}

/// Asserts that two runs leave the same texts.
fn expect_same_texts(rt: &impl Abort, one: &Ran, other: Ran) {
    for (folder, name) in &STORED {
        expect_bytes(
            rt,
            name,
            stored_in(one, *folder, name),
            stored_in(&other, *folder, name),
        );
    }
}

#[test]
fn each_command_is_answered(rt: HostRuntime) {
    let ran = run_commands(&rt, rt.alloc(), commands());
    expect_answered(&rt, rt.alloc(), commands(), ran, 1);
}

#[test]
fn a_script_in_single_bytes_is_answered_alike(rt: HostRuntime) {
    let ran = run_in_pieces(&rt, rt.alloc(), 1, 0);
    expect_same_texts(&rt, &ran, run_commands(&rt, rt.alloc(), commands()));
    expect_answered(&rt, rt.alloc(), commands(), ran, 1);
}

/// The first of these commands whose terminators are among so many bytes. A command ends with a terminator and a line end.
fn whole_in(rows: &[CommandRow], bytes: usize) -> &[CommandRow] {
    let mut end: usize = 0;
    for (index, (command, _, _)) in rows.iter().enumerate() {
        end = end.saturating_add(command.len());
        if bytes.saturating_add(1) < end {
            return rows.get(..index).unwrap_or(&[]);
        }
    }
    rows
}

/// So many bytes come at a call of the source.
const PIECE: usize = 7;

/// At this call, counted from 0, the source has ended.
const CALLS: u64 = 100;

/// Asserts that a source that fails after so many calls leaves what was answered before, and no text of the command that was to come. The
/// last command but one ends the run, so the source is not called after it.
fn expect_cut(rt: &impl Abort, alloc: Global, calls: u64) {
    let answered = whole_in(commands(), PIECE.saturating_mul(calls as usize));
    let ran = run_in_pieces(rt, alloc, PIECE, calls.saturating_add(1));
    let code = if answered.len().saturating_add(1) < commands().len() {
        3
    } else {
        1
    };
    expect_same_texts(rt, &ran, run_commands(rt, alloc, answered));
    expect_answered(rt, alloc, answered, ran, code);
}

#[test]
fn each_call_of_the_source_may_fail(rt: HostRuntime) {
    for calls in 0..CALLS {
        expect_cut(&rt, rt.alloc(), calls);
    }
}

/// The number of a call of the sink that fails, what it took before, the status, and how many texts the store has then. There is no
/// call of the last number.
const SINKS: &str = table![
    (1, "", 3, 5),
    (2, "step 1 regex 4 2\n", 3, 20),
    (3, "step 1 regex 4 2\n[]\n[1][0]\n", 3, 20),
    (4, "step 1 regex 4 2\n[]\n[1][0]\nTRUE\n", 3, 21),
    (5, "step 1 regex 4 2\n[]\n[1][0]\nTRUE\nTRUE\n", 3, 22),
    (6, "step 1 regex 4 2\n[]\n[1][0]\nTRUE\nTRUE\nTRUE\n", 3, 23),
    (
        7,
        "step 1 regex 4 2\n[]\n[1][0]\nTRUE\nTRUE\nTRUE\nTRUE\n",
        3,
        23,
    ),
    (
        100,
        "step 1 regex 4 2\n[]\n[1][0]\nTRUE\nTRUE\nTRUE\nTRUE\nerror 23: F01 Command\n",
        1,
        23,
    ),
];

/// Asserts that a call of the sink that fails leaves what a row says.
fn expect_cut_off(rt: &impl Abort, alloc: Global, row: &str) {
    let (failing, rest) = first_field(row);
    let (printed, end) = first_field(rest);
    let ran = run_over_sink(rt, alloc, 0, 0, number_of(failing));
    expect_end(rt, row, ran, printed, end);
}

#[test]
fn each_call_of_the_sink_may_fail(rt: HostRuntime) {
    for row in SINKS.split_terminator(ROW_END) {
        expect_cut_off(&rt, rt.alloc(), row);
    }
}

/// Asserts that a sink whose call of this number fails has a prefix of what is printed, and that the run ends so, if there is such a call. The
/// line of a refusal is printed by several calls.
fn expect_prefix(rt: &impl Abort, printed: &[u8], ran: Ran) {
    let found = printed_in(&ran);
    expect(rt, "a prefix", &printed.starts_with(found), &true);
    let code = if found.len() < printed.len() { 3 } else { 1 };
    expect(rt, "a prefix", &code_of(&ran), &code);
}

/// So many calls of the sink are tried, more than there are.
const WRITES: u64 = 30;

#[test]
fn a_sink_that_fails_has_a_prefix(rt: HostRuntime) {
    let whole = run_commands(&rt, rt.alloc(), commands());
    for call in 0..WRITES {
        let ran = run_over_sink(&rt, rt.alloc(), 0, 0, call.saturating_add(1));
        expect_prefix(&rt, printed_in(&whole), ran);
    }
}

#[test]
fn a_sink_takes_answers_in_pieces_or_ends_the_run(rt: HostRuntime) {
    let single = run_over_sink(&rt, rt.alloc(), 1, 1000, 0);
    expect_answered(&rt, rt.alloc(), commands(), single, 1);
    let nothing = run_over_sink(&rt, rt.alloc(), 0, 1, 0);
    expect_run(&rt, "nothing", nothing, "", (3, 5));
    let two = run_over_sink(&rt, rt.alloc(), 2, 1, 2);
    expect_run(&rt, "two", two, "st", (3, 5));
}

/// The number of a call of the store that fails, what is printed then, the status, and how many texts the store has.
const EARLY: &str = table![
    (
        1,
        "error 1: F26 Store Automata Library/ab\nerror 12: F11 Unknown Automata Library/ab\nerror 13: F11 Unknown Automata Library/ab\nerror 14: F11 Unknown Automata Library/ab\nerror 15: F11 Unknown Automata Library/joined\nerror 16: F11 Unknown Automata Library/ab\n[]\n[1][0]\nTRUE\nTRUE\nTRUE\nTRUE\nerror 23: F01 Command\n",
        3,
        18,
    ),
    (
        2,
        "step 1 regex 4 2\nerror 2: F26 Store Automata Library/ba\nerror 12: F11 Unknown Automata Library/ba\nerror 13: F11 Unknown Automata Library/ba\nerror 14: F11 Unknown Automata Library/ba\nerror 15: F11 Unknown Automata Library/joined\n[]\n[1][0]\nTRUE\nTRUE\nTRUE\nTRUE\nerror 23: F01 Command\n",
        3,
        18,
    ),
    (
        3,
        "step 1 regex 4 2\nerror 3: F26 Store Macro Library/double\nerror 4: F11 Unknown Macro Library/double\nerror 9: F11 Unknown Automata Library/even\nerror 17: F11 Unknown Automata Library/even\nerror 18: F11 Unknown Automata Library/even\nTRUE\nTRUE\nTRUE\nerror 23: F01 Command\n",
        3,
        20,
    ),
    (
        4,
        "step 1 regex 4 2\nerror 4: F26 Store Macro Library/double\nerror 9: F11 Unknown Automata Library/even\nerror 17: F11 Unknown Automata Library/even\nerror 18: F11 Unknown Automata Library/even\nTRUE\nTRUE\nTRUE\nerror 23: F01 Command\n",
        3,
        21,
    ),
    (
        5,
        "step 1 regex 4 2\nerror 4: F26 Store Automata Library/even\nerror 9: F11 Unknown Automata Library/even\nerror 17: F11 Unknown Automata Library/even\nerror 18: F11 Unknown Automata Library/even\nTRUE\nTRUE\nTRUE\nerror 23: F01 Command\n",
        3,
        21,
    ),
    (
        6,
        "step 1 regex 4 2\nerror 5: F26 Store Morphism Library/thue\nerror 6: F11 Unknown Morphism Library/thue\nerror 8: F11 Unknown Word Automata Library/W\nerror 10: F11 Unknown Word Automata Library/W\nerror 11: F11 Unknown Word Automata Library/S\n[]\n[1][0]\nTRUE\nerror 19: F11 Unknown Word Automata Library/W\nTRUE\nTRUE\nerror 23: F01 Command\n",
        3,
        17,
    ),
    (
        7,
        "step 1 regex 4 2\nerror 6: F26 Store Morphism Library/thue\nerror 8: F11 Unknown Word Automata Library/W\nerror 10: F11 Unknown Word Automata Library/W\nerror 11: F11 Unknown Word Automata Library/S\n[]\n[1][0]\nTRUE\nerror 19: F11 Unknown Word Automata Library/W\nTRUE\nTRUE\nerror 23: F01 Command\n",
        3,
        18,
    ),
    (
        8,
        "step 1 regex 4 2\nerror 6: F26 Store Word Automata Library/W\nerror 8: F11 Unknown Word Automata Library/W\nerror 10: F11 Unknown Word Automata Library/W\nerror 11: F11 Unknown Word Automata Library/S\n[]\n[1][0]\nTRUE\nerror 19: F11 Unknown Word Automata Library/W\nTRUE\nTRUE\nerror 23: F01 Command\n",
        3,
        18,
    ),
    (
        9,
        "step 1 regex 4 2\nerror 7: F26 Store Morphism Library/swap\nerror 8: F11 Unknown Morphism Library/swap\n[]\n[1][0]\nTRUE\nerror 19: F11 Unknown Word Automata Library/X\nTRUE\nTRUE\nerror 23: F01 Command\n",
        3,
        20,
    ),
    (
        10,
        "step 1 regex 4 2\nerror 8: F26 Store Morphism Library/swap\n[]\n[1][0]\nTRUE\nerror 19: F11 Unknown Word Automata Library/X\nTRUE\nTRUE\nerror 23: F01 Command\n",
        3,
        21,
    ),
    (
        11,
        "step 1 regex 4 2\nerror 8: F26 Store Word Automata Library/W\n[]\n[1][0]\nTRUE\nerror 19: F11 Unknown Word Automata Library/X\nTRUE\nTRUE\nerror 23: F01 Command\n",
        3,
        21,
    ),
    (
        12,
        "step 1 regex 4 2\nerror 8: F26 Store Word Automata Library/X\n[]\n[1][0]\nTRUE\nerror 19: F11 Unknown Word Automata Library/X\nTRUE\nTRUE\nerror 23: F01 Command\n",
        3,
        21,
    ),
    (
        13,
        "step 1 regex 4 2\nerror 9: F26 Store Automata Library/even\n[]\n[1][0]\nTRUE\nTRUE\nTRUE\nTRUE\nerror 23: F01 Command\n",
        3,
        22,
    ),
    (
        14,
        "step 1 regex 4 2\nerror 9: F26 Store Word Automata Library/C\n[]\n[1][0]\nTRUE\nTRUE\nTRUE\nTRUE\nerror 23: F01 Command\n",
        3,
        22,
    ),
    (
        15,
        "step 1 regex 4 2\nerror 10: F26 Store Transducer Library/sum\nerror 11: F11 Unknown Word Automata Library/S\n[]\n[1][0]\nTRUE\nTRUE\nTRUE\nTRUE\nerror 23: F01 Command\n",
        3,
        21,
    ),
    (
        16,
        "step 1 regex 4 2\nerror 10: F26 Store Word Automata Library/W\nerror 11: F11 Unknown Word Automata Library/S\n[]\n[1][0]\nTRUE\nTRUE\nTRUE\nTRUE\nerror 23: F01 Command\n",
        3,
        21,
    ),
    (
        17,
        "step 1 regex 4 2\nerror 10: F26 Store Word Automata Library/S\nerror 11: F11 Unknown Word Automata Library/S\n[]\n[1][0]\nTRUE\nTRUE\nTRUE\nTRUE\nerror 23: F01 Command\n",
        3,
        21,
    ),
    (
        18,
        "step 1 regex 4 2\nerror 11: F26 Store Word Automata Library/S\n[]\n[1][0]\nTRUE\nTRUE\nTRUE\nTRUE\nerror 23: F01 Command\n",
        3,
        22,
    ),
    (
        19,
        "step 1 regex 4 2\nerror 11: F26 Store Word Automata Library/B\n[]\n[1][0]\nTRUE\nTRUE\nTRUE\nTRUE\nerror 23: F01 Command\n",
        3,
        22,
    ),
    (
        20,
        "step 1 regex 4 2\nerror 12: F26 Store Automata Library/ab\n[]\n[1][0]\nTRUE\nTRUE\nTRUE\nTRUE\nerror 23: F01 Command\n",
        3,
        22,
    ),
    (
        21,
        "step 1 regex 4 2\nerror 12: F26 Store Automata Library/ba\n[]\n[1][0]\nTRUE\nTRUE\nTRUE\nTRUE\nerror 23: F01 Command\n",
        3,
        22,
    ),
    (
        22,
        "step 1 regex 4 2\nerror 12: F26 Store Automata Library/some\n[]\n[1][0]\nTRUE\nTRUE\nTRUE\nTRUE\nerror 23: F01 Command\n",
        3,
        22,
    ),
];

/// The same of later calls. There is none after the last but one.
const LATE: &str = table![
    (
        23,
        "step 1 regex 4 2\nerror 13: F26 Store Automata Library/ab\n[]\n[1][0]\nTRUE\nTRUE\nTRUE\nTRUE\nerror 23: F01 Command\n",
        3,
        22,
    ),
    (
        24,
        "step 1 regex 4 2\nerror 13: F26 Store Automata Library/ba\n[]\n[1][0]\nTRUE\nTRUE\nTRUE\nTRUE\nerror 23: F01 Command\n",
        3,
        22,
    ),
    (
        25,
        "step 1 regex 4 2\nerror 13: F26 Store Automata Library/both\n[]\n[1][0]\nTRUE\nTRUE\nTRUE\nTRUE\nerror 23: F01 Command\n",
        3,
        22,
    ),
    (
        26,
        "step 1 regex 4 2\nerror 14: F26 Store Automata Library/ab\nerror 15: F11 Unknown Automata Library/joined\n[]\n[1][0]\nTRUE\nTRUE\nTRUE\nTRUE\nerror 23: F01 Command\n",
        3,
        21,
    ),
    (
        27,
        "step 1 regex 4 2\nerror 14: F26 Store Automata Library/ba\nerror 15: F11 Unknown Automata Library/joined\n[]\n[1][0]\nTRUE\nTRUE\nTRUE\nTRUE\nerror 23: F01 Command\n",
        3,
        21,
    ),
    (
        28,
        "step 1 regex 4 2\nerror 14: F26 Store Automata Library/joined\nerror 15: F11 Unknown Automata Library/joined\n[]\n[1][0]\nTRUE\nTRUE\nTRUE\nTRUE\nerror 23: F01 Command\n",
        3,
        21,
    ),
    (
        29,
        "step 1 regex 4 2\nerror 15: F26 Store Automata Library/joined\n[]\n[1][0]\nTRUE\nTRUE\nTRUE\nTRUE\nerror 23: F01 Command\n",
        3,
        22,
    ),
    (
        30,
        "step 1 regex 4 2\nerror 15: F26 Store Automata Library/many\n[]\n[1][0]\nTRUE\nTRUE\nTRUE\nTRUE\nerror 23: F01 Command\n",
        3,
        22,
    ),
    (
        31,
        "step 1 regex 4 2\nerror 16: F26 Store Automata Library/ab\n[]\n[1][0]\nTRUE\nTRUE\nTRUE\nTRUE\nerror 23: F01 Command\n",
        3,
        22,
    ),
    (
        32,
        "step 1 regex 4 2\nerror 16: F26 Store Automata Library/turned\n[]\n[1][0]\nTRUE\nTRUE\nTRUE\nTRUE\nerror 23: F01 Command\n",
        3,
        22,
    ),
    (
        33,
        "step 1 regex 4 2\nerror 17: F26 Store Automata Library/even\nTRUE\nTRUE\nTRUE\nTRUE\nerror 23: F01 Command\n",
        3,
        23,
    ),
    (
        34,
        "step 1 regex 4 2\n[]\n[1][0]\nerror 18: F26 Store Automata Library/even\nTRUE\nTRUE\nTRUE\nerror 23: F01 Command\n",
        3,
        23,
    ),
    (
        35,
        "step 1 regex 4 2\n[]\n[1][0]\nTRUE\nerror 19: F26 Store Word Automata Library/W\nTRUE\nTRUE\nerror 23: F01 Command\n",
        3,
        22,
    ),
    (
        36,
        "step 1 regex 4 2\n[]\n[1][0]\nTRUE\nerror 19: F26 Store Word Automata Library/X\nTRUE\nTRUE\nerror 23: F01 Command\n",
        3,
        22,
    ),
    (
        37,
        "step 1 regex 4 2\n[]\n[1][0]\nTRUE\nerror 19: F26 Store Result/words\nTRUE\nTRUE\nerror 23: F01 Command\n",
        3,
        22,
    ),
    (
        38,
        "step 1 regex 4 2\n[]\n[1][0]\nTRUE\nTRUE\nerror 20: F26 Store Custom Bases/msd_bin\nTRUE\nerror 23: F01 Command\n",
        3,
        22,
    ),
    (
        39,
        "step 1 regex 4 2\n[]\n[1][0]\nTRUE\nTRUE\nerror 20: F26 Store Custom Bases/msd_bin_addition\nTRUE\nerror 23: F01 Command\n",
        3,
        22,
    ),
    (
        40,
        "step 1 regex 4 2\n[]\n[1][0]\nTRUE\nTRUE\nerror 20: F26 Store Result/own\nTRUE\nerror 23: F01 Command\n",
        3,
        22,
    ),
    (
        41,
        "step 1 regex 4 2\n[]\n[1][0]\nTRUE\nTRUE\nTRUE\nerror 21: F26 Store Command Files/more\nerror 23: F01 Command\n",
        3,
        22,
    ),
    (
        42,
        "step 1 regex 4 2\n[]\n[1][0]\nTRUE\nTRUE\nTRUE\nerror 1: F26 Store Result/inside\nerror 23: F01 Command\n",
        3,
        22,
    ),
    (
        43,
        "step 1 regex 4 2\n[]\n[1][0]\nTRUE\nTRUE\nTRUE\nTRUE\nerror 22: F26 Store Automata Library/ab\nerror 23: F01 Command\n",
        3,
        23,
    ),
    (
        44,
        "step 1 regex 4 2\n[]\n[1][0]\nTRUE\nTRUE\nTRUE\nTRUE\nerror 23: F01 Command\n",
        1,
        23,
    ),
];

/// Asserts that a call of the store that fails refuses its command, and those that read what this was to store.
fn expect_refused(rt: &impl Abort, alloc: Global, row: &str) {
    let (failing, rest) = first_field(row);
    let (printed, end) = first_field(rest);
    let ran = run_over_store(rt, alloc, number_of(failing));
    expect_end(rt, row, ran, printed, end);
}

/// Asserts the same of each row.
fn expect_all_refused(rt: &impl Abort, alloc: Global, rows: &str) {
    for row in rows.split_terminator(ROW_END) {
        expect_refused(rt, alloc, row);
    }
}

#[test]
fn each_early_call_of_the_store_may_fail(rt: HostRuntime) {
    expect_all_refused(&rt, rt.alloc(), EARLY);
}

#[test]
fn each_late_call_of_the_store_may_fail(rt: HostRuntime) {
    expect_all_refused(&rt, rt.alloc(), LATE);
}

/// The number of the call that stores a text anew.
const ANEW: u64 = 43;

#[test]
fn a_text_that_is_not_stored_anew_stays(rt: HostRuntime) {
    let ran = run_over_store(&rt, rt.alloc(), ANEW);
    let old = "{0,1}\n\n0 0\n0 -> 0\n1 -> 1\n\n1 1\n";
    expect_stores(&rt, ran, (Folder::Automata, "ab"), old);
}

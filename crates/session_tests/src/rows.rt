//! Scripts with what they print, their status and, where a name is given, what is under it.

use crate::answers::given;
use crate::command_rows::COMMANDS;
use crate::fibonacci_rows::FIBONACCI;
use crate::set_rows::SETS;
use crate::system_rows::SYSTEMS;
use crate::tables::{ROW_END, first_field, table};
use crate::whole::{
    Ran, code_of, count_in, expect, expect_bytes, expect_printed, expect_stored, expect_stores,
    is_stored, run_script, stored_in,
};
use std::alloc::Global;
use std::process::Abort;
use wal_outside::Folder;

#[test]
fn scripts_print_and_store_as_listed(rt: HostRuntime) {
    expect_rows(&rt, rt.alloc(), COMMANDS);
    expect_rows(&rt, rt.alloc(), SETS);
}

#[test]
fn expressions_over_systems_print_and_store_as_listed(rt: HostRuntime) {
    expect_rows(&rt, rt.alloc(), SYSTEMS);
    expect_rows(&rt, rt.alloc(), FIBONACCI);
}

fn expect_rows(rt: &impl Abort, alloc: Global, rows: &str) {
    for row in rows.split_terminator(ROW_END) {
        expect_row(rt, row, run_script(rt, alloc, script_of(row).as_bytes()));
    }
}

/// The script of a row.
pub fn script_of(row: &str) -> &str {
    first_field(row).0
}

/// Asserts that a run of a row's script printed and stored what it was to: the fields are the script, what it prints, the
/// status, and a name and the text that is under it, or no name.
pub fn expect_row(rt: &impl Abort, row: &str, ran: Ran) {
    let (script, rest) = first_field(row);
    let (printed, rest) = first_field(rest);
    let (code, rest) = first_field(rest);
    let (name, text) = first_field(rest);
    expect_printed(rt, script, &ran, printed);
    expect(rt, script, &Some(code_of(&ran)), &code.parse::<u8>().ok());
    if name.is_empty() {
        expect(rt, script, &count_in(&ran), &0);
    } else {
        expect_stored(rt, &ran, (Folder::Automata, name), text);
    }
}

// Each command of a script stores under its own name.
#[test]
fn each_command_stores_its_text(rt: HostRuntime) {
    let ran = run_script(&rt, rt.alloc(), b"reg a {0} \"0\"; reg b {0} \"00\";");
    expect(&rt, "two commands", &code_of(&ran), &0);
    expect(&rt, "a", &is_stored(&ran, Folder::Automata, "a"), &true);
    let text = "{0}\n\n0 0\n0 -> 1\n\n1 0\n0 -> 2\n\n2 1\n";
    expect_stores(&rt, ran, (Folder::Automata, "b"), text);
}

/// Expressions over {0,1} that match the same words.
const PAIRS: &str = table![
    ("(0|1)*", ".*"),
    ("0*1|1", "0*1"),
    ("(01)*0", "0(10)*"),
    ("0?", "()|0"),
    ("0+", "00*"),
    ("(0*)*", "0*"),
    ("(0*1*)*", "(0|1)*"),
    ("1(0|1)", "10|11"),
    ("((0))?*", "0*"),
    ("(0+1+)+", "0(0|1)*1"),
];

/// A run that stores the automaton of an expression over {0,1}.
fn run_expression(rt: &impl Abort, alloc: Global, expression: &str) -> Ran {
    let script = given(rt, format!(in alloc; "reg a {{0,1}} \"{expression}\";"));
    run_script(rt, alloc, script.as_bytes())
}

fn expect_one_text(rt: &impl Abort, row: &str, one: Ran, other: Ran) {
    expect(rt, row, &code_of(&one), &0);
    let wanted = stored_in(&other, Folder::Automata, "a");
    expect_bytes(rt, row, stored_in(&one, Folder::Automata, "a"), wanted);
}

#[test]
fn one_language_has_one_text(rt: HostRuntime) {
    for row in PAIRS.split_terminator(ROW_END) {
        let (first, second) = first_field(row);
        let one = run_expression(&rt, rt.alloc(), first);
        expect_one_text(&rt, first, one, run_expression(&rt, rt.alloc(), second));
    }
}

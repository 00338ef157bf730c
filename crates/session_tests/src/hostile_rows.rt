//! Hostile files, formulas and numbers of tracks: each is refused by its fault, or answered.

use crate::answers::given;
use crate::given::{FileRow, run_with};
use crate::whole::{Ran, expect_run, run_script};
use std::alloc::Global;
use std::process::Abort;
use wal_outside::Folder;

/// The file that a store has, if it has one, a script, what it prints, the status, and how many texts the store has then.
type HostileRow = (Option<FileRow>, &'static str, &'static str, u8, usize);

static ROWS: [HostileRow; 17] = [
    (
        Some((Folder::Automata, "b", "msd_2\n0 1\n0 -> 0\n0 0\n")),
        "eval w \"$b(0)\";",
        "error 1: F12 File Automata Library/b line 4\n",
        1,
        1,
    ),
    (
        Some((Folder::Automata, "b", "msd_2\n0 1\n2 -> 0\n")),
        "eval w \"$b(0)\";",
        "error 1: F12 File Automata Library/b line 3\n",
        1,
        1,
    ),
    (
        Some((Folder::Automata, "b", "msd_2\n0 -> 0\n")),
        "eval w \"$b(0)\";",
        "error 1: F12 File Automata Library/b line 2\n",
        1,
        1,
    ),
    (
        Some((Folder::Automata, "b", "")),
        "eval w \"$b(0)\";",
        "error 1: F12 File Automata Library/b line 1\n",
        1,
        1,
    ),
    (
        Some((Folder::Automata, "b", "msd_2\r\n0 1\r\n0 -> 0\r\n")),
        "eval w \"$b(0)\";",
        "TRUE\n",
        0,
        2,
    ),
    (
        Some((
            Folder::Words,
            "H",
            "msd_2\n0 5\n0 -> 0\n1 -> 1\n1 6\n0 -> 1\n",
        )),
        "eval w \"H[0]=@5\";",
        "TRUE\n",
        0,
        2,
    ),
    (
        Some((Folder::Words, "H", "msd_2\n0 0\n0 -> 0 1\n1 1\n")),
        "eval w \"H[0]=@0\";",
        "error 1: F12 File Word Automata Library/H line 3\n",
        1,
        1,
    ),
    (
        None,
        "eval a \"((((((((((((((((((((((((((((((((((((((((((((((((((((((((((((((((((((((((((((((((((((((((((((((((((((((((((((((((((((((((((((((((x=1))))))))))))))))))))))))))))))))))))))))))))))))))))))))))))))))))))))))))))))))))))))))))))))))))))))))))))))))))))))))))))))))\";",
        "",
        0,
        1,
    ),
    (
        None,
        "eval a \"(((((((((((((((((((((((((((((((((((((((((((((((((((((((((((((((((((((((((((((((((((((((((((((((((((((((((((((((((((((((((((((((((x=1)))))))))))))))))))))))))))))))))))))))))))))))))))))))))))))))))))))))))))))))))))))))))))))))))))))))))))))))))))))))))))))))))\";",
        "error 1: F06 Depth in formula at 128\n",
        1,
        0,
    ),
    (
        None,
        "eval a \"Ex x=18446744073709551615\";",
        "TRUE\n",
        0,
        1,
    ),
    (
        None,
        "eval a \"Ex x=18446744073709551616\";",
        "error 1: F04 Number in formula at 5\n",
        1,
        0,
    ),
    (
        None,
        "macro b \"%0 & %0\"; eval a \"#b(#b(#b(#b(#b(#b(#b(#b(#b(#b(#b(#b(#b(#b(x=1))))))))))))))\";",
        "error 1: F10 MacroLong 65536\n",
        1,
        1,
    ),
    (
        Some((Folder::Commands, "l", "load l;")),
        "load l;",
        "error 1: F25 LoadDepth l\n",
        1,
        1,
    ),
    (
        None,
        "reg t {0} {0} {0} {0} {0} {0} {0} {0} {0} {0} {0} {0} {0} {0} {0} {0} {0} \"()\";",
        "error 1: F18 Letters step 1\n",
        1,
        0,
    ),
    (
        None,
        "reg t {0} {0} {0} {0} {0} {0} {0} {0} {0} {0} {0} {0} {0} {0} {0} {0} \"()\";",
        "",
        0,
        1,
    ),
    (
        Some((Folder::Words, "H", "msd_2\n0 2147483647\n0 -> 0\n")),
        "eval w \"Ax x=0 => H[x]=@2147483647\";",
        "TRUE\n",
        0,
        2,
    ),
    (
        None,
        "eval w \"H[0]=@2147483648\";",
        "error 1: F04 Number in formula at 5\n",
        1,
        0,
    ),
];

/// Runs a script over a store with the file, if there is one.
fn run_over_file(rt: &impl Abort, alloc: Global, file: &Option<FileRow>, script: &str) -> Ran {
    match file {
        Some(file) => run_with(rt, alloc, *file, script),
        None => run_script(rt, alloc, script.as_bytes()),
    }
}

#[test]
fn hostile_input_is_refused_or_answered_as_listed(rt: HostRuntime) {
    for (file, script, printed, code, count) in &ROWS {
        let ran = run_over_file(&rt, rt.alloc(), file, script);
        expect_run(&rt, script, ran, printed, (*code, *count));
    }
}

/// Runs a command of so many bytes without a terminator in it.
fn run_endless(rt: &impl Abort, alloc: Global, length: usize) -> Ran {
    let script = given(rt, "a".repeat(alloc, length));
    run_script(rt, alloc, script.as_bytes())
}

#[test]
fn a_command_without_terminator_may_be_too_long(rt: HostRuntime) {
    let ran = run_endless(&rt, rt.alloc(), 65_537);
    expect_run(
        &rt,
        "65,537 bytes",
        ran,
        "error 1: F07 Long 65536\n",
        (1, 0),
    );
}

#[test]
fn a_formula_may_be_a_byte_that_is_no_text(rt: HostRuntime) {
    let ran = run_script(&rt, rt.alloc(), b"eval a \"\xff\";");
    expect_run(
        &rt,
        "byte 255",
        ran,
        "error 1: F02 Syntax in formula at 0\n",
        (1, 0),
    );
}

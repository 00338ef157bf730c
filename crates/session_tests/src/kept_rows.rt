//! What a session keeps of the files that its commands read: users' systems that were admitted, and definitions that were read. What is
//! printed is the same with and without it, and how often it was used is counted.

use crate::answers::{given, no_answer};
use crate::given::{FileRow, expect_scripts, store_of, text_in};
use crate::tables::{ROW_END, files, first_field, folder_of, table};
use crate::user_system_files::{BINARY, CARRIES};
use crate::whole::expect;
use digit_tuple::name::Name;
use session_cli::Session;
use std::alloc::Global;
use std::process::Abort;
use system_admission::{KeptSystems, UserSystems};
use wal_outside::{Folder, MemStore};

/// Base 2 as a user's system, in files of either direction, and what is over it: `own` has each number, and `W` a letter for
/// the last digit. `wrong` is no system.
const FILES: &str = files![
    (Folder::Bases, "msd_X", "{0,1}\n0 1\n0 -> 0\n1 -> 0\n"),
    (
        Folder::Bases,
        "msd_X_addition",
        "{0,1} {0,1} {0,1}\n0 1\n0 0 0 -> 0\n0 0 1 -> 1\n0 1 1 -> 0\n1 0 1 -> 0\n1 0\n0 1 0 -> 1\n1 0 0 -> 1\n1 1 0 -> 0\n1 1 1 -> 1\n",
    ),
    (Folder::Bases, "msd_wrong", BINARY),
    (
        Folder::Bases,
        "msd_wrong_addition",
        "{0,1} {0,1} {0,1}\n0 1\n0 0 0 -> 0\n0 1 1 -> 0\n1 0 1 -> 0\n1 1 0 -> 0\n",
    ),
    (Folder::Automata, "own", "msd_X\n0 1\n* -> 0\n"),
    (
        Folder::Words,
        "W",
        "msd_X\n0 0\n0 -> 0\n1 -> 1\n1 1\n0 -> 0\n1 -> 1\n",
    ),
    (Folder::Automata, "broken", "msd_X\n0 1\n0 -> 1\n"),
    (Folder::Morphisms, "swap", "0->1 1->0\n"),
    (Folder::Morphisms, "thue", "0->01 1->10\n"),
    (
        Folder::Transducers,
        "sum",
        "{0,1}\n0\n0 -> 0 / 0\n1 -> 1 / 1\n1\n0 -> 1 / 1\n1 -> 0 / 0\n",
    ),
];

/// The files, named here alone.
fn files() -> &'static str {
    FILES
}

/// Scripts in which commands read again what others read before them.
const SCRIPTS: &str = table![
    (
        "def f \"x=1\"; def g \"$f(x)\"; def f \"x=2\"; eval t \"$g(1)\"; def f \"x=1\"; def g \"$f(x)\"; def f \"x=2\"; eval t \"$g(1)\";",
        "TRUE\nTRUE\n",
        0,
        13,
    ),
    (
        "eval a \"Ex x+x=0\": eval a \"Ex x+x=0\":",
        "step 1 const 2 1\nstep 2 product 6 2\nstep 3 project 3 2\nstep 4 product 5 1\nstep 5 project 2 1\nstep 6 project 1 1\nTRUE\nstep 1 const 2 1\nstep 2 product 6 2\nstep 3 project 3 2\nstep 4 product 5 1\nstep 5 project 2 1\nstep 6 project 1 1\nTRUE\n",
        0,
        11,
    ),
    (
        "eval a \"?msd_X 0=0\": eval a \"?msd_X 0=0\":",
        "step 1 read 1 1\nstep 2 order 3 2\nstep 3 product 9 4\nstep 4 project 4 3\nstep 5 product 4 2\nstep 6 read 3 2\nstep 7 pad 4 2\nstep 8 valid 3 2\nstep 9 product 6 1\nstep 10 project 2 1\nstep 11 product 9 3\nstep 12 project 3 2\nstep 13 product 9 3\nstep 14 project 3 2\nstep 15 const 2 1\nstep 16 const 2 1\nstep 17 product 4 1\nstep 18 project 2 1\nstep 19 product 2 1\nstep 20 project 1 1\nTRUE\nstep 1 read 1 1\nstep 2 order 3 2\nstep 3 product 9 4\nstep 4 project 4 3\nstep 5 product 4 2\nstep 6 read 3 2\nstep 7 pad 4 2\nstep 8 valid 3 2\nstep 9 product 6 1\nstep 10 project 2 1\nstep 11 product 9 3\nstep 12 project 3 2\nstep 13 product 9 3\nstep 14 project 3 2\nstep 15 const 2 1\nstep 16 const 2 1\nstep 17 product 4 1\nstep 18 project 2 1\nstep 19 product 2 1\nstep 20 project 1 1\nTRUE\n",
        0,
        11,
    ),
    (
        "eval a \"?msd_X $own(1)\": eval a \"?msd_X $own(1)\":",
        "step 1 read 1 1\nstep 2 order 3 2\nstep 3 product 9 4\nstep 4 project 4 3\nstep 5 product 4 2\nstep 6 read 3 2\nstep 7 pad 4 2\nstep 8 valid 3 2\nstep 9 product 6 1\nstep 10 project 2 1\nstep 11 product 9 3\nstep 12 project 3 2\nstep 13 product 9 3\nstep 14 project 3 2\nstep 15 read 1 1\nstep 16 pad 2 1\nstep 17 valid 1 1\nstep 18 const 3 2\nstep 19 product 3 2\nstep 20 project 1 1\nTRUE\nstep 1 read 1 1\nstep 2 order 3 2\nstep 3 product 9 4\nstep 4 project 4 3\nstep 5 product 4 2\nstep 6 read 3 2\nstep 7 pad 4 2\nstep 8 valid 3 2\nstep 9 product 6 1\nstep 10 project 2 1\nstep 11 product 9 3\nstep 12 project 3 2\nstep 13 product 9 3\nstep 14 project 3 2\nstep 15 read 1 1\nstep 16 pad 2 1\nstep 17 valid 1 1\nstep 18 const 3 2\nstep 19 product 3 2\nstep 20 project 1 1\nTRUE\n",
        0,
        11,
    ),
    (
        "eval a \"?msd_wrong 0=0\"; eval a \"?msd_wrong 0=0\";",
        "error 1: F15 NotAdmitted msd_wrong SuccessorLaw\nerror 1: F15 NotAdmitted msd_wrong SuccessorLaw\n",
        1,
        10,
    ),
    (
        "eval a \"$broken(1)\"; eval a \"$broken(1)\";",
        "error 1: F12 File Automata Library/broken line 3\nerror 1: F12 File Automata Library/broken line 3\n",
        1,
        10,
    ),
];

#[test]
fn commands_given_twice_print_the_same(rt: HostRuntime) {
    expect_scripts(&rt, rt.alloc(), files(), "walnut", SCRIPTS);
}

/// Systems of users, each of which counts once in a command: commands, each on a line of its own, and how many kept results were used
/// after each.
const SYSTEMS: &str = table![
    (
        "eval t \"?msd_X Ex x+x=6\"\neval t \"?msd_X Ex x+x=6\"",
        " 0 1",
    ),
    (
        "eval t \"?msd_X 0=0\"\neval t \"?msd_X Ex x=1\"\neval u \"?msd_X 0=1\"",
        " 0 1 2",
    ),
    // a built-in system has no files
    ("eval t \"Ex x+x=6\"\neval t \"Ex x+x=6\"", " 0 0"),
    // each direction is a system by itself, of the same files
    (
        "eval t \"?msd_X 0=0\"\neval t \"?lsd_X 0=0\"\neval t \"?lsd_X 0=0\"\neval t \"?msd_X 0=0\"",
        " 0 0 1 2",
    ),
    (
        "eval t \"(?msd_X 0=0) & ?msd_X 1=1\"\neval t \"(?msd_X 0=0) & ?msd_X 1=1\"",
        " 0 1",
    ),
    // other commands over a kept system
    (
        "eval t \"?msd_X 0=0\"\nreg r msd_X \"1\"\nreg s lsd_X \"1\"",
        " 0 1 1",
    ),
    (
        "reg r msd_X \"1\"\nreg r msd_X \"1\"\neval t \"?msd_X 0=0\"",
        " 0 1 2",
    ),
    (
        "def p \"?msd_X x<3\"\ndef q \"?msd_X x<5\"\neval t \"?msd_X 0=0\"",
        " 0 1 2",
    ),
    // nothing is kept of a system that is not admitted
    (
        "eval t \"?msd_wrong 0=0\"\neval t \"?msd_wrong 0=0\"\neval t \"?msd_wrong 0=0\"",
        " 0 0 0",
    ),
    // but of a command that is refused later
    (
        "def p \"x<3\"\neval t \"?msd_X 0=0 & $p(1,2)\"\neval t \"?msd_X 0=0 & $p(1,2)\"",
        " 0 0 1",
    ),
];

/// Definitions, each of which counts once in a command, beside the systems that they are over.
const DEFINITIONS: &str = table![
    (
        "reg one msd_2 \"1\"\neval t \"$one(1) & ~$one(2)\"\neval t \"$one(1) & ~$one(2)\"",
        " 0 0 1",
    ),
    (
        "eval t \"?msd_X $own(1)\"\neval t \"?msd_X $own(1)\"\neval t \"?msd_X 0=0\"",
        " 0 2 3",
    ),
    (
        "def p \"?msd_X x<3\"\ndef q \"?msd_X x<5\"\neval t \"?msd_X $p(1) & $q(2)\"\neval t \"?msd_X $p(1) & $q(2)\"",
        " 0 1 2 5",
    ),
    (
        "eval t \"?msd_X W[1]=@1\"\neval t \"?msd_X W[2]=@0\"",
        " 0 2",
    ),
    (
        "def p \"x<3\"\neval t \"$p(1) & $p(2)\"\neval t \"$p(1) & $p(2)\"",
        " 0 0 1",
    ),
    // a text that is stored anew is another one; that of before is kept
    (
        "def f \"x=1\"\neval t \"$f(1)\"\ndef f \"x=2\"\neval t \"$f(2)\"\ndef f \"x=1\"\neval t \"$f(1)\"",
        " 0 0 0 0 0 1",
    ),
    (
        "def f \"x=1\"\neval t \"$f(1)\"\ndef f \"x=1\"\neval t \"$f(1)\"",
        " 0 0 0 1",
    ),
    // one text under two names is two definitions
    (
        "def f \"x=1\"\ndef g \"x=1\"\neval t \"$f(1)\"\neval t \"$g(1)\"\neval t \"$f(1) & $g(1)\"",
        " 0 0 0 0 2",
    ),
    // other commands over kept ones
    ("image V swap W\nimage V swap W\nimage V swap V", " 0 2 3"),
    (
        "combine C own=3\ncombine C own=3\ncombine D own own=2",
        " 0 2 4",
    ),
    ("test own 2\ninf own\ntest own 1 \"[1]\"", " 0 2 4"),
    (
        "promote T thue\nconvert B msd_4 T\nconvert C msd_8 T\ntransduce S sum T\neval t \"T[0]=S[0]\"",
        " 0 0 1 2 3",
    ),
    // nothing is kept of a file that breaks its format
    ("eval t \"$broken(1)\"\neval t \"$broken(1)\"", " 0 0"),
];

/// Answers a command in a session, whatever comes of it.
fn answer(alloc: Global, session: &mut Session, store: &mut MemStore, command: &str) {
    let answered = session.command(alloc, command.as_bytes(), false, store);
    drop(answered);
}

/// How many kept results were used after each of these commands in one session, each after a blank.
fn counts_of(
    rt: &impl Abort,
    alloc: Global,
    session: &mut Session,
    store: &mut MemStore,
    commands: &str,
) -> String {
    let mut text = String::new(alloc);
    for command in commands.split('\n') {
        answer(alloc, session, store, command);
        given(
            rt,
            text.push_str(&given(rt, format!(in alloc; " {}", session.reused()))),
        );
    }
    text
}

/// The same in a session of its own over these files.
fn counts(rt: &impl Abort, alloc: Global, files: &str, commands: &str) -> String {
    let mut store = store_of(rt, alloc, files, 0);
    let mut session = Session::new(alloc, LIMIT);
    counts_of(rt, alloc, &mut session, &mut store, commands)
}

/// No step of these commands is wider.
const LIMIT: u32 = 100_000;

/// Asserts that a row has these counts.
fn expect_counts(rt: &impl Abort, row: &str, found: &str, wanted: &str) {
    assert_eq!(rt; found, wanted, "of {row}");
}

/// Asserts that each session of commands uses so many kept results.
fn expect_all_counts(rt: &impl Abort, alloc: Global, rows: &str) {
    for row in rows.split_terminator(ROW_END) {
        let (commands, wanted) = first_field(row);
        let found = counts(rt, alloc, files(), commands);
        expect_counts(rt, commands, &found, wanted);
    }
}

#[test]
fn kept_systems_are_used_as_listed(rt: HostRuntime) {
    expect_all_counts(&rt, rt.alloc(), SYSTEMS);
}

#[test]
fn kept_definitions_are_used_as_listed(rt: HostRuntime) {
    expect_all_counts(&rt, rt.alloc(), DEFINITIONS);
}

/// A file that is changed between two commands, its new text, a command that is given before, after, and after the old text is
/// there again, and how many kept results were used after each.
type ChangeRow = (FileRow, &'static str, &'static str);

/// Files of systems that get a byte more, and a file of the other direction that comes to be there.
static SYSTEM_CHANGES: [ChangeRow; 3] = [
    (
        (Folder::Bases, "msd_X", "{0,1}\n0 1\n0 -> 0\n1 ->  0\n"),
        "eval t \"?msd_X 0=0\"",
        " 0 1 1 2 3",
    ),
    (
        (
            Folder::Bases,
            "msd_X_addition",
            "{0,1} {0,1} {0,1}\n0 1\n0 0 0 -> 0\n0 0 1 -> 1\n0 1 1 -> 0\n1 0 1 -> 0\n1 0\n0 1 0 -> 1\n1 0 0 -> 1\n1 1 0 -> 0\n1 1 1 -> 1\n\n",
        ),
        "eval t \"?msd_X 0=0\"",
        " 0 1 1 2 3",
    ),
    // a language under the name as written comes before that of the other direction; it has no adder
    (
        (Folder::Bases, "lsd_X", "{0,1}\n0 1\n* -> 0\n"),
        "eval t \"?lsd_X 0=0\"",
        " 0 1 1 1 1",
    ),
];

/// Files of a definition and of a word that get a byte more or another letter, and of a definition's system, which is admitted anew.
static CHANGES: [ChangeRow; 3] = [
    (
        (Folder::Automata, "own", "msd_X\n0 1\n* ->  0\n"),
        "eval t \"?msd_X $own(1)\"",
        " 0 2 3 5 7",
    ),
    (
        (
            Folder::Words,
            "W",
            "msd_X\n0 0\n0 -> 0\n1 -> 1\n1 2\n0 -> 0\n1 -> 1\n",
        ),
        "eval t \"?msd_X W[1]=@1\"",
        " 0 2 3 5 7",
    ),
    // the files of a system that are written differently and define the same one
    (
        (Folder::Bases, "msd_X", "{0,1}\n0 1\n0 -> 0\n1 ->  0\n"),
        "eval t \"?msd_X $own(1)\"",
        " 0 2 3 5 7",
    ),
];

/// The text of a file, or none.
fn old_text(rt: &impl Abort, folder: Folder, name: &str) -> Option<&'static str> {
    for row in files().split_terminator(ROW_END) {
        let (place, rest) = first_field(row);
        let (other, field) = first_field(rest);
        if folder_of(place) == Some(folder) && other == name {
            return Some(text_in(rt, field));
        }
    }
    None
}

/// How many kept results were used: of a command twice, twice with a file changed, and once with its text of before.
fn counts_with_change(rt: &impl Abort, alloc: Global, change: &FileRow, command: &str) -> String {
    let mut store = store_of(rt, alloc, files(), 0);
    let mut session = Session::new(alloc, LIMIT);
    let twice = given(rt, format!(in alloc; "{command}\n{command}"));
    let mut text = counts_of(rt, alloc, &mut session, &mut store, twice.as_str());
    given(rt, store.put(change.0, change.1, change.2.as_bytes()));
    given(
        rt,
        text.push_str(&counts_of(rt, alloc, &mut session, &mut store, twice.as_str())),
    );
    if let Some(old) = old_text(rt, change.0, change.1) {
        given(rt, store.put(change.0, change.1, old.as_bytes()));
    }
    given(
        rt,
        text.push_str(&counts_of(rt, alloc, &mut session, &mut store, command)),
    );
    text
}

/// Asserts that a change of a file makes a command read it anew.
fn expect_changes(rt: &impl Abort, alloc: Global, rows: &[ChangeRow]) {
    for (change, command, wanted) in rows {
        let found = counts_with_change(rt, alloc, change, command);
        expect_counts(rt, command, &found, wanted);
    }
}

#[test]
fn a_system_of_other_bytes_is_admitted_anew(rt: HostRuntime) {
    expect_changes(&rt, rt.alloc(), &SYSTEM_CHANGES);
}

#[test]
fn a_definition_of_other_bytes_is_read_anew(rt: HostRuntime) {
    expect_changes(&rt, rt.alloc(), &CHANGES);
}

/// Puts so many systems of their own names into a store, each with the files of base 2.
fn put_systems(rt: &impl Abort, alloc: Global, store: &mut MemStore, count: u32) {
    for number in 0..count {
        let name = given(rt, format!(in alloc; "msd_s{number}"));
        given(
            rt,
            store.put(Folder::Bases, name.as_str(), BINARY.as_bytes()),
        );
        let adder = given(rt, format!(in alloc; "{}_addition", name.as_str()));
        given(
            rt,
            store.put(Folder::Bases, adder.as_str(), CARRIES.as_bytes()),
        );
    }
}

/// Names each of so many systems in turn.
fn name_each(
    rt: &impl Abort,
    alloc: Global,
    session: &mut Session,
    store: &mut MemStore,
    count: u32,
) {
    for number in 0..count {
        let command = given(rt, format!(in alloc; "eval t \"?msd_s{number} 0=0\""));
        answer(alloc, session, store, command.as_str());
    }
}

/// How many kept results are used where each of so many systems is named, and then each again.
fn used_of_systems(rt: &impl Abort, alloc: Global, count: u32) -> u64 {
    let mut store = MemStore::new(alloc, Vec::new(alloc));
    put_systems(rt, alloc, &mut store, count);
    let mut session = Session::new(alloc, LIMIT);
    name_each(rt, alloc, &mut session, &mut store, count);
    name_each(rt, alloc, &mut session, &mut store, count);
    session.reused()
}

/// Puts so many definitions of their own names into a store.
fn put_definitions(rt: &impl Abort, alloc: Global, store: &mut MemStore, count: u32) {
    for number in 0..count {
        let name = given(rt, format!(in alloc; "d{number}"));
        given(
            rt,
            store.put(Folder::Automata, name.as_str(), b"msd_2\n0 1\n0 -> 0\n"),
        );
    }
}

/// Calls each of so many definitions in turn.
fn call_each(
    rt: &impl Abort,
    alloc: Global,
    session: &mut Session,
    store: &mut MemStore,
    count: u32,
) {
    for number in 0..count {
        let command = given(rt, format!(in alloc; "eval t \"$d{number}(0)\""));
        answer(alloc, session, store, command.as_str());
    }
}

/// How many kept results are used where each of so many definitions is called, and then each again.
fn used_of_definitions(rt: &impl Abort, alloc: Global, count: u32) -> u64 {
    let mut store = MemStore::new(alloc, Vec::new(alloc));
    put_definitions(rt, alloc, &mut store, count);
    let mut session = Session::new(alloc, LIMIT);
    call_each(rt, alloc, &mut session, &mut store, count);
    call_each(rt, alloc, &mut session, &mut store, count);
    session.reused()
}

#[test]
fn no_more_than_64_systems_are_kept(rt: HostRuntime) {
    expect(&rt, "64", &used_of_systems(&rt, rt.alloc(), 64), &64);
    expect(&rt, "65", &used_of_systems(&rt, rt.alloc(), 65), &64);
}

#[test]
fn no_more_than_256_definitions_are_kept(rt: HostRuntime) {
    expect(&rt, "256", &used_of_definitions(&rt, rt.alloc(), 256), &256);
    expect(&rt, "257", &used_of_definitions(&rt, rt.alloc(), 257), &256);
}

/// How many kept systems were used after a system was admitted under each of these limits in turn, each after a blank.
fn used_under(rt: &impl Abort, alloc: Global, limits: &[u32]) -> String {
    let mut store = store_of(rt, alloc, files(), 0);
    let names = given(rt, vec![in alloc; given(rt, Name::new(alloc, "msd_X"))]);
    let mut kept = KeptSystems::new(alloc);
    let mut text = String::new(alloc);
    for limit in limits {
        let Ok(users) = UserSystems::admitted(alloc, *limit, &names, &mut kept, &mut store) else {
            return no_answer(rt);
        };
        drop(users);
        given(
            rt,
            text.push_str(&given(rt, format!(in alloc; " {}", kept.reused()))),
        );
    }
    text
}

#[test]
fn a_system_is_admitted_anew_under_another_limit(rt: HostRuntime) {
    let found = used_under(&rt, rt.alloc(), &[100, 50, 100, 50]);
    expect_counts(&rt, "msd_X", &found, " 0 0 1 2");
}

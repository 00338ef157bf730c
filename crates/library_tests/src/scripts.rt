//! How scripts are cut into items, whole and in pieces.

use crate::given::{given, no_answer};
use crate::outcomes::{expect_text, expect_value};
use script_cut::{Cut, CutFault, Cutter, SCRIPT_LIMIT, TEXT_LIMIT};
use std::alloc::{AllocError, Global};
use std::process::Abort;
use wal_outside::MemSource;

// A source that gives a script in pieces of one length.
fn in_pieces(rt: &impl Abort, alloc: Global, script: &[u8], length: usize) -> MemSource {
    let bytes = given(rt, Vec::from_slice(alloc, script));
    let pieces = given(rt, vec![in alloc; length; script.len()]);
    MemSource::new(bytes, pieces, Vec::new(alloc))
}

// Writes an item: its line, `;` or `:`, and its text; `!` and the length of a text without terminator; `*` for a text
// that is too long; `#` where the script is. Whether it was one.
fn show_item(
    rt: &impl Abort,
    alloc: Global,
    item: Result<Cut, CutFault>,
    items: &mut String,
) -> bool {
    match item {
        Ok(Cut::Command(text, shown, line)) => show_command(rt, alloc, &text, (shown, line), items),
        Ok(Cut::End) => return false,
        Err(fault) => given(rt, items.push_str(&given(rt, fault_text(alloc, fault)))),
    }
    given(rt, items.push('|'));
    true
}

// Writes a command: its line, `;` or `:`, and its text.
fn show_command(
    rt: &impl Abort,
    alloc: Global,
    text: &[u8],
    (shown, line): (bool, u64),
    items: &mut String,
) {
    let mark = if shown { ":" } else { ";" };
    given(
        rt,
        items.push_str(&given(rt, format!(in alloc; "{line}{mark}"))),
    );
    for byte in text {
        given(rt, items.push(char::from(*byte)));
    }
}

// The text of a fault.
fn fault_text(alloc: Global, fault: CutFault) -> Result<String, AllocError> {
    match fault {
        CutFault::Syntax(line, len) => format!(in alloc; "{line}!{len}"),
        CutFault::Long(line) => format!(in alloc; "{line}*"),
        CutFault::ScriptLimit(line) => format!(in alloc; "{line}#"),
        CutFault::Failed => String::from_str(alloc, "failed"),
        CutFault::Memory => String::from_str(alloc, "memory"),
    }
}

// The next item.
fn next_item(cutter: &mut Cutter, source: &mut MemSource) -> Result<Cut, CutFault> {
    cutter.cut(source)
}

// The items of a script in pieces of a length, at most 100.
fn items_of(rt: &impl Abort, alloc: Global, script: &[u8], length: usize) -> String {
    let mut source = in_pieces(rt, alloc, script, length);
    let mut cutter = Cutter::new(alloc);
    let mut items = String::new(alloc);
    for _ in 0..100 {
        let item = next_item(&mut cutter, &mut source);
        if !show_item(rt, alloc, item, &mut items) {
            break;
        }
    }
    items
}

// Scripts and their items.
static SCRIPTS: [(&str, &str); 30] = [
    ("", ""),
    (" \t\r\n", ""),
    (" ;\n;", ""),
    ("::;:", ""),
    ("a", "1!1|"),
    ("a;", "1;a|"),
    ("a:", "1:a|"),
    (" a ;b", "1;a |1!1|"),
    ("a;b: c::", "1;a|1:b|1:c|"),
    ("a:;b::c:", "1:a|1:b|1:c|"),
    ("a:::\nb :", "1:a|2:b |"),
    ("a\n;\n b;\n\nc ", "1;a\n|3;b|5!2|"),
    // terminators in quotes
    ("\"a;b\";c;", "1;\"a;b\"|1;c|"),
    ("\"a;", "1!3|"),
    (";;a;;b\"\n;\n\";", "1;a|1;b\"\n;\n\"|"),
    ("a\"b\"c;d\"", "1;a\"b\"c|1!2|"),
    ("\n a \";\n:\" \n;#\";\nb::", "2;a \";\n:\" \n|5:b|"),
    // comments come before commands, and inside them `#` is a byte as others
    ("# a;\n", ""),
    ("# a;b", ""),
    ("# a;\n;:::; #", ""),
    ("# a\nb;", "2;b|"),
    ("a # b\n;", "1;a # b\n|"),
    ("a\n# b;c", "1;a\n# b|2!1|"),
    (" #\n#\n;a", "3!1|"),
    ("a;# b;\n# c\n d::", "1;a|3:d|"),
    ("\"#;\";#\"\na \";", "1;\"#;\"|2!4|"),
    ("\"#;\";#\"\na \":;\"::", "1;\"#;\"|2:a \":;\"|"),
    ("#\"\n\"a\n:\" ;b # c", "2;\"a\n:\" |3!5|"),
    ("a#;", "1;a#|"),
    ("#", ""),
];

// Asserts that each script has its items in pieces of a length.
fn expect_items(rt: &impl Abort, alloc: Global, length: usize) {
    for (script, items) in &SCRIPTS {
        let found = items_of(rt, alloc, script.as_bytes(), length);
        expect_text(rt, script, &found, items);
    }
}

#[test]
fn scripts_have_these_items_in_pieces_of_any_length(rt: HostRuntime) {
    expect_items(&rt, rt.alloc(), 1);
    expect_items(&rt, rt.alloc(), 2);
    expect_items(&rt, rt.alloc(), 3);
    expect_items(&rt, rt.alloc(), 7);
    expect_items(&rt, rt.alloc(), 100);
}

// So many of the next items.
fn next_items(
    rt: &impl Abort,
    alloc: Global,
    cutter: &mut Cutter,
    source: &mut MemSource,
    count: usize,
) -> String {
    let mut items = String::new(alloc);
    for _ in 0..count {
        show_item(rt, alloc, next_item(cutter, source), &mut items);
    }
    items
}

// A source that gives all of a script at once, and then fails.
fn failing(rt: &impl Abort, alloc: Global, script: &[u8]) -> MemSource {
    let bytes = given(rt, Vec::from_slice(alloc, script));
    MemSource::new(
        bytes,
        given(rt, vec![in alloc; 5]),
        given(rt, vec![in alloc; 2]),
    )
}

// One call of the source is enough for two items of such a script, and the next one fails.
#[test]
fn a_command_is_given_without_a_further_read(rt: HostRuntime) {
    let mut source = failing(&rt, rt.alloc(), b"a;b::c");
    let mut cutter = Cutter::new(rt.alloc());
    let items = next_items(&rt, rt.alloc(), &mut cutter, &mut source, 2);
    expect_text(&rt, "two commands", &items, "1;a|1:b|");
    expect_value(&rt, "calls", &source.calls(), &1);
    let items = next_items(&rt, rt.alloc(), &mut cutter, &mut source, 1);
    expect_text(&rt, "the third", &items, "failed|");
}

// Two commands, of so many bytes and of one more, each with a short one after it.
fn two_long(rt: &impl Abort, alloc: Global, length: usize) -> String {
    let first = given(rt, "x".repeat(alloc, length));
    let second = given(rt, "y".repeat(alloc, length));
    given(rt, format!(in alloc; "{first};\n{second}y;z;"))
}

// How many bytes an item has, if it is a command of the first line.
fn length_of(item: Result<Cut, CutFault>) -> usize {
    match item {
        Ok(Cut::Command(text, false, 1)) => text.len(),
        _ => 0,
    }
}

// The items after the first of two long commands, if that has its length.
fn items_after(rt: &impl Abort, alloc: Global, length: usize) -> String {
    let script = two_long(rt, alloc, length);
    let mut source = in_pieces(rt, alloc, script.as_bytes(), 5000);
    let mut cutter = Cutter::new(alloc);
    if length_of(next_item(&mut cutter, &mut source)) != length {
        return no_answer(rt);
    }
    next_items(rt, alloc, &mut cutter, &mut source, 3)
}

#[test]
fn a_long_command_is_passed_over(rt: HostRuntime) {
    let items = items_after(&rt, rt.alloc(), TEXT_LIMIT);
    expect_text(&rt, "two long commands", &items, "2*|2;z|");
}

// A cutter that may read 4 bytes more, and not 5.
fn almost_spent(rt: &impl Abort, alloc: Global) -> Cutter {
    let mut cutter = Cutter::new(alloc);
    if cutter.spend(SCRIPT_LIMIT as u64 - 4) && !cutter.spend(5) {
        cutter
    } else {
        no_answer(rt)
    }
}

// Its items.
fn items_of_the_rest(rt: &impl Abort, alloc: Global) -> String {
    let mut source = in_pieces(rt, alloc, b"a;\n;b", 3);
    let mut cutter = almost_spent(rt, alloc);
    next_items(rt, alloc, &mut cutter, &mut source, 2)
}

#[test]
fn the_limit_counts_what_is_spent(rt: HostRuntime) {
    let items = items_of_the_rest(&rt, rt.alloc());
    expect_text(&rt, "what is left", &items, "1;a|2#|");
}

// The first item of a script of blank lines of so many bytes.
fn first_of_blanks(rt: &impl Abort, alloc: Global, length: usize) -> String {
    let script = given(rt, vec![in alloc; b'\n'; length]);
    let mut source = MemSource::new(script, Vec::new(alloc), Vec::new(alloc));
    next_items(rt, alloc, &mut Cutter::new(alloc), &mut source, 1)
}

#[test]
fn a_script_is_cut_at_its_limit(rt: HostRuntime) {
    let most = first_of_blanks(&rt, rt.alloc(), SCRIPT_LIMIT);
    expect_text(&rt, "16,777,216 bytes", &most, "");
    let more = first_of_blanks(&rt, rt.alloc(), SCRIPT_LIMIT + 1);
    expect_text(&rt, "one byte more", &more, "16777217#|");
}

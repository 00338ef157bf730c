//! Languages that commands make of others, beside expressions for them.

use crate::tables::{ROW_END, table};
use crate::whole::{Ran, SURE, code_of, expect, expect_bytes, run_line, stored_in};
use std::process::Abort;
use wal_outside::Folder;

/// Scripts that make one language twice: by commands under the name `m`, and by an expression under `e`.
const TWINS: &str = table![
    ("reg a {0,1} \"0*1\"; reg b {0,1} \"1*0\"; union m a b; reg e {0,1} \"0*1|1*0\";"),
    ("reg a {0,1} \"0*1\"; reg b {0,1} \"1*0\"; concat m a b; reg e {0,1} \"0*11*0\";"),
    ("reg a {0,1} \"0*1\"; star m a; reg e {0,1} \"(0*1)*\";"),
    ("reg a {0,1} \"0*1\"; reverse m a; reg e {0,1} \"10*\";"),
    ("reg a {0,1} \"0*1\"; reg c {0,1} \"..\"; intersect m a c; reg e {0,1} \"01\";"),
    ("reg a {0,1} \"0*1\"; reg b {0,1} \"1*0\"; concat m a b a; reg e {0,1} \"0*11*00*1\";"),
    ("reg a {0,1} \"0*1\"; reg b {0,1} \"1*0\"; reg c {0,1} \"..\"; union m a b c; reg e {0,1} \"0*1|1*0|..\";"),
    ("reg c {0,1} \"..\"; star m c; reg e {0,1} \"(..)*\";"),
    ("reg a {0,1} \"(..)*\"; reg b {0,1} \"(...)*\"; intersect m a b; reg e {0,1} \"(......)*\";"),
    ("reg a {0,1} \"001.*\"; reverse m a; reg e {0,1} \".*100\";"),
    ("reg a {0,1} \"0*1\"; star s a; star m s; reg e {0,1} \"(0*1)*\";"),
    ("reg a {0,1} \"0*1\"; reg b {0,1} \"1*0\"; star s b; concat m a s; reg e {0,1} \"0*1(1*0)*\";"),
    ("reg a {0,1} \"0*1\"; reg b {0,1} \"1*0\"; concat c a b; reverse m c; reg e {0,1} \"01*10*\";"),
    ("reg a {0,1} \"0*1\"; union m a; reg e {0,1} \"0*1\";"),
    ("reg a {0,1} \".*1\"; reg b {0,1} \"1.*\"; intersect m a b; reg e {0,1} \"1|1.*1\";"),
    ("reg a {0,1} \".*0.*\"; reg b {0,1} \".*1.*\"; intersect m a b; reg e {0,1} \"00*1.*|11*0.*\";"),
    ("reg a {0,1} \"00\"; reg b {0,1} \"11\"; union u a b; star m u; reg e {0,1} \"(00|11)*\";"),
    ("reg a {0,1} \"001\"; star s a; reverse m s; reg e {0,1} \"(100)*\";"),
    ("reg a {0,1} {0,1} \"[0,1]*\"; reg b {0,1} {0,1} \"[1,1]\"; concat m a b; reg e {0,1} {0,1} \"[0,1]*[1,1]\";"),
    ("reg a {-1,1} \"[-1]\"; star m a; reg e {-1,1} \"[-1]*\";"),
];

/// Asserts that a run was accepted, and left one text under both names, and lets it go.
fn expect_twins(rt: &impl Abort, script: &str, ran: Ran) {
    expect(rt, script, &code_of(&ran), &0);
    let made = stored_in(&ran, Folder::Automata, "m");
    let read = stored_in(&ran, Folder::Automata, "e");
    expect(rt, script, &made.is_empty(), &false);
    expect_bytes(rt, script, made, read);
}

#[test]
fn commands_and_expressions_leave_one_text(rt: HostRuntime) {
    for script in TWINS.split_terminator(ROW_END) {
        let ran = run_line(&rt, rt.alloc(), "walnut", script.as_bytes(), &SURE);
        expect_twins(&rt, script, ran);
    }
}

//! Expressions over base systems: what is printed, the status and what is stored; and the same under a limit of states.

use crate::tables::table;
use crate::whole::{SURE, expect_run, run_line};

pub const SYSTEMS: &str = table![
    Row {
        script: "reg one msd_2 \"1\":",
        printed: "step 1 regex 3 2\nstep 2 pad 3 2\nstep 3 valid 3 2\n",
        code: 0,
        name: "one",
        text: "msd_2\n\n0 0\n0 -> 0\n1 -> 1\n\n1 1\n",
    },
    Row {
        script: "reg one lsd_2 \"1\":",
        printed: "step 1 regex 3 2\nstep 2 pad 5 2\nstep 3 valid 3 2\n",
        code: 0,
        name: "one",
        text: "lsd_2\n\n0 0\n1 -> 1\n\n1 1\n0 -> 1\n",
    },
    Row {
        script: "reg a msd_2 \"0010*\"::",
        printed: "step 1 regex 6 4\nstep 2 pad 3 2\nstep 3 valid 3 2\n",
        code: 0,
        name: "a",
        text: "msd_2\n\n0 0\n0 -> 0\n1 -> 1\n\n1 1\n0 -> 1\n",
    },
    Row {
        script: "reg a lsd_2 \"0*1 0 0\":",
        printed: "step 1 regex 6 4\nstep 2 pad 6 2\nstep 3 valid 3 2\n",
        code: 0,
        name: "a",
        text: "lsd_2\n\n0 0\n0 -> 0\n1 -> 1\n\n1 1\n0 -> 1\n",
    },
    Row {
        script: "reg a msd_2 \"()\":",
        printed: "step 1 regex 2 1\nstep 2 pad 2 1\nstep 3 valid 2 1\n",
        code: 0,
        name: "a",
        text: "msd_2\n\n0 1\n0 -> 0\n",
    },
    Row {
        script: "reg a lsd_10 \"00\":",
        printed: "step 1 regex 4 3\nstep 2 pad 5 1\nstep 3 valid 2 1\n",
        code: 0,
        name: "a",
        text: "lsd_10\n\n0 1\n0 -> 0\n",
    },
    Row {
        script: "reg a msd_3 \".*\":",
        printed: "step 1 regex 2 1\nstep 2 pad 2 1\nstep 3 valid 1 1\n",
        code: 0,
        name: "a",
        text: "msd_3\n\n0 1\n0 -> 0\n1 -> 0\n2 -> 0\n",
    },
    Row {
        script: "reg a lsd_3 \"1.\":",
        printed: "step 1 regex 4 3\nstep 2 pad 8 3\nstep 3 valid 4 3\n",
        code: 0,
        name: "a",
        text: "lsd_3\n\n0 0\n1 -> 1\n\n1 1\n0 -> 2\n1 -> 2\n2 -> 2\n\n2 1\n0 -> 2\n",
    },
    Row {
        script: "reg\ta msd_10\n\" 7 0\t+ \";",
        printed: "",
        code: 0,
        name: "a",
        text: "msd_10\n\n0 0\n0 -> 0\n7 -> 1\n\n1 0\n0 -> 2\n\n2 1\n0 -> 2\n",
    },
    Row {
        script: "reg a msd_40 \"[39]0?\":",
        printed: "step 1 regex 4 3\nstep 2 pad 4 3\nstep 3 valid 4 3\n",
        code: 0,
        name: "a",
        text: "msd_40\n\n0 0\n0 -> 0\n39 -> 1\n\n1 1\n0 -> 2\n\n2 1\n",
    },
    Row {
        script: "reg a lsd_40 \"0 [ 39 ] 0\":",
        printed: "step 1 regex 5 4\nstep 2 pad 7 3\nstep 3 valid 4 3\n",
        code: 0,
        name: "a",
        text: "lsd_40\n\n0 0\n0 -> 1\n\n1 0\n39 -> 2\n\n2 1\n0 -> 2\n",
    },
    Row {
        script: "reg a msd_2  msd_3\"[1,2]+\":",
        printed: "step 1 regex 3 2\nstep 2 pad 3 2\nstep 3 valid 3 2\n",
        code: 0,
        name: "a",
        text: "msd_2 msd_3\n\n0 0\n0 0 -> 0\n1 2 -> 1\n\n1 1\n1 2 -> 1\n",
    },
    Row {
        script: "reg a lsd_2 lsd_2 \"[1,0]*[0,1]([0,0]|[1,1])*\":",
        printed: "step 1 regex 6 2\nstep 2 pad 4 2\nstep 3 valid 3 2\n",
        code: 0,
        name: "a",
        text: "lsd_2 lsd_2\n\n0 0\n0 1 -> 1\n1 0 -> 0\n\n1 1\n0 0 -> 1\n1 1 -> 1\n",
    },
    Row {
        script: "reg a lsd_2 lsd_2 lsd_3 \"[0,0,0]*([1,1,2][0,0,0]|[1,0,1])\":",
        printed: "step 1 regex 6 3\nstep 2 pad 7 2\nstep 3 valid 3 2\n",
        code: 0,
        name: "a",
        text: "lsd_2 lsd_2 lsd_3\n\n0 0\n0 0 0 -> 0\n1 0 1 -> 1\n1 1 2 -> 1\n\n1 1\n0 0 0 -> 1\n",
    },
    Row {
        script: "reg a msd_2 msd_2 msd_2 msd_2 \"[0,0,0,0][0,1,0,1]\":",
        printed: "step 1 regex 4 3\nstep 2 pad 3 2\nstep 3 valid 3 2\n",
        code: 0,
        name: "a",
        text: "msd_2 msd_2 msd_2 msd_2\n\n0 0\n0 0 0 0 -> 0\n0 1 0 1 -> 1\n\n1 1\n",
    },
    Row {
        script: "reg a msd_40 msd_40 \"[0,0][0,39][39,0]\":",
        printed: "step 1 regex 5 4\nstep 2 pad 4 3\nstep 3 valid 4 3\n",
        code: 0,
        name: "a",
        text: "msd_40 msd_40\n\n0 0\n0 0 -> 0\n0 39 -> 1\n\n1 0\n39 0 -> 2\n\n2 1\n",
    },
    Row {
        script: "reg a msd_41 \"0\";",
        printed: "error 1: F14 SystemUnknown msd_41\n",
        code: 1,
        name: "",
        text: "",
    },
    Row {
        script: "reg a msd_1 \"0\";",
        printed: "error 1: F14 SystemUnknown msd_1\n",
        code: 1,
        name: "",
        text: "",
    },
    Row {
        script: "reg a msd_02 \"0\";",
        printed: "error 1: F14 SystemUnknown msd_02\n",
        code: 1,
        name: "",
        text: "",
    },
    Row {
        script: "reg a lsd_41 msd_2 \"(\";",
        printed: "error 1: F14 SystemUnknown lsd_41\n",
        code: 1,
        name: "",
        text: "",
    },
    Row {
        script: "reg a msd_2 lsd_2 msd_x msd_41 \"(\";",
        printed: "error 1: F14 SystemUnknown msd_x\n",
        code: 1,
        name: "",
        text: "",
    },
    Row {
        script: "reg a msd_2 lsd_2 \"[0,0]\";",
        printed: "error 1: F17 Direction msd_2 lsd_2\n",
        code: 1,
        name: "",
        text: "",
    },
    Row {
        script: "reg a lsd_2 lsd_3 msd_4 msd_2 \"(\";",
        printed: "error 1: F17 Direction lsd_2 msd_4\n",
        code: 1,
        name: "",
        text: "",
    },
    Row {
        script: "reg a msd_2 {0,1} \"[0,0]\";",
        printed: "error 1: F02 Syntax in command at 12\n",
        code: 1,
        name: "",
        text: "",
    },
    Row {
        script: "reg a {0,1} msd_2 \"[0,0]\";",
        printed: "error 1: F02 Syntax in command at 12\n",
        code: 1,
        name: "",
        text: "",
    },
    Row {
        script: "reg a msd_2 msd_2 \"1\";",
        printed: "error 1: F02 Syntax in regex at 0\n",
        code: 1,
        name: "",
        text: "",
    },
    Row {
        script: "reg a msd_3 \"3\";",
        printed: "error 1: F04 Number in regex at 0\n",
        code: 1,
        name: "",
        text: "",
    },
    Row {
        script: "reg a msd_40 msd_40 msd_40 msd_40 \"[0,0,0,39]\";",
        printed: "error 1: F18 Letters step 1\n",
        code: 1,
        name: "",
        text: "",
    },
    Row {
        script: "reg a msd_40 msd_40 msd_40 msd_40 \"[0,0,0,40]\";",
        printed: "error 1: F04 Number in regex at 7\n",
        code: 1,
        name: "",
        text: "",
    },
];

/// A command line that gives a limit of states, a script, what is printed of it, and the status.
struct Limited {
    line: &'static str,
    script: &'static str,
    printed: &'static str,
    code: u8,
}

static LIMITED: [Limited; 7] = [
    Limited {
        line: "walnut --states 16",
        script: "reg a lsd_2 \"...............\":",
        printed: "error 1: F19 States step 1\n",
        code: 1,
    },
    Limited {
        line: "walnut --states 17",
        script: "reg a lsd_2 \"...............\":",
        printed: "error 1: F19 States step 2\n",
        code: 1,
    },
    Limited {
        line: "walnut --states 24",
        script: "reg a lsd_2 \"(.....)*\":",
        printed: "error 1: F19 States step 2\n",
        code: 1,
    },
    Limited {
        line: "walnut --states 25",
        script: "reg a lsd_2 \"(.....)*\":",
        printed: "step 1 regex 6 5\nstep 2 pad 25 1\nstep 3 valid 1 1\n",
        code: 0,
    },
    Limited {
        line: "walnut --states 16",
        script: "reg a msd_2 \"(...1.)*\":",
        printed: "error 1: F19 States step 2\n",
        code: 1,
    },
    Limited {
        line: "walnut --states 31",
        script: "reg a msd_2 \"(...1.)*\":",
        printed: "error 1: F19 States step 2\n",
        code: 1,
    },
    Limited {
        line: "walnut --states 32",
        script: "reg a msd_2 \"(...1.)*\":",
        printed: "step 1 regex 7 5\nstep 2 pad 32 31\nstep 3 valid 32 31\n",
        code: 0,
    },
];

#[test]
fn steps_keep_to_the_limit_of_states(rt: HostRuntime) {
    for row in &LIMITED {
        let ran = run_line(&rt, rt.alloc(), row.line, row.script.as_bytes(), &SURE);
        let stored = usize::from(row.code == 0);
        expect_run(&rt, row.script, ran, row.printed, (row.code, stored));
    }
}

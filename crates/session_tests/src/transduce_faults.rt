//! The first faults of commands that run transducers.

use crate::given::{FailingRow, expect_failing, expect_scripts};
use crate::tables::table;
use crate::transduce_files::{broken, transduced};

/// Scripts of commands that are refused.
const REFUSED: &str = table![
    ("transduce;", "error 1: F02 Syntax in command at 9\n", 1, 43),
    (
        "transduce S;",
        "error 1: F02 Syntax in command at 11\n",
        1,
        43,
    ),
    (
        "transduce S sum;",
        "error 1: F02 Syntax in command at 15\n",
        1,
        43,
    ),
    (
        "transduce S sum T T;",
        "error 1: F02 Syntax in command at 18\n",
        1,
        43,
    ),
    (
        "transduce S sum T \"x\";",
        "error 1: F02 Syntax in command at 18\n",
        1,
        43,
    ),
    (
        "transduce 1 sum T;",
        "error 1: F02 Syntax in command at 10\n",
        1,
        43,
    ),
    (
        "transduce S 1 T;",
        "error 1: F02 Syntax in command at 12\n",
        1,
        43,
    ),
    (
        "transduce S sum 1;",
        "error 1: F02 Syntax in command at 16\n",
        1,
        43,
    ),
    (
        "transduce A sum T;",
        "error 1: F02 Syntax in command at 10\n",
        1,
        43,
    ),
    (
        "transduce Ex sum T;",
        "error 1: F02 Syntax in command at 10\n",
        1,
        43,
    ),
    (
        "transduce S sum I;",
        "error 1: F02 Syntax in command at 16\n",
        1,
        43,
    ),
    (
        "transduce S sum Ab;",
        "error 1: F02 Syntax in command at 16\n",
        1,
        43,
    ),
    (
        "transduce S \"sum\" T;",
        "error 1: F02 Syntax in command at 12\n",
        1,
        43,
    ),
    (
        "transduce S sum.txt T;",
        "error 1: F02 Syntax in command at 12\n",
        1,
        43,
    ),
    (
        "transduce S.txt sum T;",
        "error 1: F02 Syntax in command at 10\n",
        1,
        43,
    ),
    (
        "transduce S sum T.txt;",
        "error 1: F02 Syntax in command at 16\n",
        1,
        43,
    ),
    (
        "transduce S sum=1 T;",
        "error 1: F02 Syntax in command at 12\n",
        1,
        43,
    ),
    (
        "transduce S, sum T;",
        "error 1: F02 Syntax in command at 11\n",
        1,
        43,
    ),
    ("transduces S sum T;", "error 1: F01 Command\n", 1, 43),
    ("Transduce S sum T;", "error 1: F01 Command\n", 1, 43),
    (
        "transduce S {0,1} T;",
        "error 1: F02 Syntax in command at 12\n",
        1,
        43,
    ),
    (
        "transduce S sum T",
        "error 1: F02 Syntax in command at 17\n",
        1,
        43,
    ),
    (
        "transduce SSSSSSSSSSSSSSSSSSSSSSSSSSSSSSSSSSSSSSSSSSSSSSSSSSSSSSSSSSSSSSSSS sum T;",
        "error 1: F02 Syntax in command at 10\n",
        1,
        43,
    ),
    (
        "transduce S sssssssssssssssssssssssssssssssssssssssssssssssssssssssssssssssss T;",
        "error 1: F02 Syntax in command at 12\n",
        1,
        43,
    ),
    (
        "transduce S g T;",
        "error 1: F11 Unknown Transducer Library/g\n",
        1,
        43,
    ),
    (
        "transduce S A T;",
        "error 1: F11 Unknown Transducer Library/A\n",
        1,
        43,
    ),
    (
        "transduce S T T;",
        "error 1: F11 Unknown Transducer Library/T\n",
        1,
        43,
    ),
    (
        "transduce S sum g;",
        "error 1: F11 Unknown Word Automata Library/g\n",
        1,
        43,
    ),
    (
        "transduce S g g;",
        "error 1: F11 Unknown Transducer Library/g\n",
        1,
        43,
    ),
    (
        "transduce S sum sum;",
        "error 1: F11 Unknown Word Automata Library/sum\n",
        1,
        43,
    ),
    (
        "transduce S sum Y; transduce S g Y;",
        "error 1: F11 Unknown Transducer Library/g\n",
        1,
        44,
    ),
    (
        "transduce S sum B;",
        "error 1: F12 File Word Automata Library/B line 4\n",
        1,
        43,
    ),
    (
        "transduce S g B;",
        "error 1: F11 Unknown Transducer Library/g\n",
        1,
        43,
    ),
    (
        "transduce S sum X;",
        "error 1: F14 SystemUnknown msd_far\n",
        1,
        43,
    ),
    (
        "transduce S sum K;",
        "error 1: F14 SystemUnknown msd_41\n",
        1,
        43,
    ),
    (
        "transduce S sum J;",
        "error 1: F14 SystemUnknown msd_far\n",
        1,
        43,
    ),
    (
        "transduce S sum W;",
        "error 1: F15 NotAdmitted msd_wrong SuccessorLaw\n",
        1,
        43,
    ),
    (
        "transduce S g X;",
        "error 1: F11 Unknown Transducer Library/g\n",
        1,
        43,
    ),
    (
        "transduce S g F;",
        "error 1: F11 Unknown Transducer Library/g\n",
        1,
        43,
    ),
    (
        "transduce S sum F;",
        "error 1: F33 BaseNeeded F msd_fib\n",
        1,
        43,
    ),
    (
        "transduce S sum L;",
        "error 1: F33 BaseNeeded L lsd_2\n",
        1,
        43,
    ),
    (
        "transduce S sum Q;",
        "error 1: F33 BaseNeeded Q msd_2 msd_3\n",
        1,
        43,
    ),
    (
        "transduce S sum U;",
        "error 1: F33 BaseNeeded U msd_bin\n",
        1,
        43,
    ),
    (
        "transduce S sum F:",
        "error 1: F33 BaseNeeded F msd_fib\n",
        1,
        43,
    ),
    (
        "transduce S zeros Q;",
        "error 1: F33 BaseNeeded Q msd_2 msd_3\n",
        1,
        43,
    ),
];

/// Files of transducers that break the format, each with the line at which it does; they are read before the word.
const LINES: &str = table![
    (
        "transduce S f0 T;",
        "error 1: F12 File Transducer Library/f0 line 1\n",
        1,
        33,
    ),
    (
        "transduce S f1 T;",
        "error 1: F12 File Transducer Library/f1 line 2\n",
        1,
        33,
    ),
    (
        "transduce S f2 T;",
        "error 1: F12 File Transducer Library/f2 line 3\n",
        1,
        33,
    ),
    (
        "transduce S f3 T;",
        "error 1: F12 File Transducer Library/f3 line 2\n",
        1,
        33,
    ),
    (
        "transduce S f4 T;",
        "error 1: F12 File Transducer Library/f4 line 2\n",
        1,
        33,
    ),
    (
        "transduce S f5 T;",
        "error 1: F12 File Transducer Library/f5 line 1\n",
        1,
        33,
    ),
    (
        "transduce S f6 T;",
        "error 1: F12 File Transducer Library/f6 line 1\n",
        1,
        33,
    ),
    (
        "transduce S f7 T;",
        "error 1: F12 File Transducer Library/f7 line 1\n",
        1,
        33,
    ),
    (
        "transduce S f8 T;",
        "error 1: F12 File Transducer Library/f8 line 1\n",
        1,
        33,
    ),
    (
        "transduce S f9 T;",
        "error 1: F12 File Transducer Library/f9 line 1\n",
        1,
        33,
    ),
    (
        "transduce S f10 T;",
        "error 1: F12 File Transducer Library/f10 line 2\n",
        1,
        33,
    ),
    (
        "transduce S f11 T;",
        "error 1: F12 File Transducer Library/f11 line 2\n",
        1,
        33,
    ),
    (
        "transduce S f12 T;",
        "error 1: F12 File Transducer Library/f12 line 2\n",
        1,
        33,
    ),
    (
        "transduce S f13 T;",
        "error 1: F12 File Transducer Library/f13 line 5\n",
        1,
        33,
    ),
    (
        "transduce S f14 T;",
        "error 1: F12 File Transducer Library/f14 line 3\n",
        1,
        33,
    ),
    (
        "transduce S f15 T;",
        "error 1: F12 File Transducer Library/f15 line 3\n",
        1,
        33,
    ),
    (
        "transduce S f16 T;",
        "error 1: F12 File Transducer Library/f16 line 3\n",
        1,
        33,
    ),
    (
        "transduce S f17 T;",
        "error 1: F12 File Transducer Library/f17 line 3\n",
        1,
        33,
    ),
    (
        "transduce S f18 T;",
        "error 1: F12 File Transducer Library/f18 line 3\n",
        1,
        33,
    ),
    (
        "transduce S f19 T;",
        "error 1: F12 File Transducer Library/f19 line 3\n",
        1,
        33,
    ),
    (
        "transduce S f20 T;",
        "error 1: F12 File Transducer Library/f20 line 3\n",
        1,
        33,
    ),
    (
        "transduce S f21 T;",
        "error 1: F12 File Transducer Library/f21 line 3\n",
        1,
        33,
    ),
    (
        "transduce S f22 T;",
        "error 1: F12 File Transducer Library/f22 line 4\n",
        1,
        33,
    ),
    (
        "transduce S f23 T;",
        "error 1: F12 File Transducer Library/f23 line 5\n",
        1,
        33,
    ),
    (
        "transduce S f24 T;",
        "error 1: F12 File Transducer Library/f24 line 3\n",
        1,
        33,
    ),
    (
        "transduce S f25 T;",
        "error 1: F12 File Transducer Library/f25 line 4\n",
        1,
        33,
    ),
    (
        "transduce S f26 T;",
        "error 1: F12 File Transducer Library/f26 line 4\n",
        1,
        33,
    ),
    (
        "transduce S f27 T;",
        "error 1: F12 File Transducer Library/f27 line 1\n",
        1,
        33,
    ),
    (
        "transduce S f28 T;",
        "error 1: F12 File Transducer Library/f28 line 3\n",
        1,
        33,
    ),
    (
        "transduce S f29 T;",
        "error 1: F12 File Transducer Library/f29 line 2\n",
        1,
        33,
    ),
    (
        "transduce S f0 B;",
        "error 1: F12 File Transducer Library/f0 line 1\n",
        1,
        33,
    ),
    (
        "transduce S f0 g;",
        "error 1: F12 File Transducer Library/f0 line 1\n",
        1,
        33,
    ),
    (
        "transduce S f0 F;",
        "error 1: F12 File Transducer Library/f0 line 1\n",
        1,
        33,
    ),
    (
        "transduce S f14 F; transduce S f14 B;",
        "error 1: F12 File Transducer Library/f14 line 3\nerror 1: F12 File Transducer Library/f14 line 3\n",
        1,
        33,
    ),
];

#[test]
fn transducers_are_refused_by_their_first_fault(rt: HostRuntime) {
    expect_scripts(&rt, rt.alloc(), transduced(), "walnut", REFUSED);
    expect_scripts(&rt, rt.alloc(), broken(), "walnut", LINES);
}

/// A call of the store that fails, what is printed then, the status, and how many texts the store has.
static FAILING: [FailingRow; 4] = [
    (1, "error 1: F26 Store Transducer Library/sum\n", 3, 43),
    (2, "error 1: F26 Store Word Automata Library/T\n", 3, 43),
    (3, "error 1: F26 Store Word Automata Library/S\n", 3, 43),
    (4, "", 0, 44),
];

// The transducer is read before the word.
#[test]
fn each_file_of_a_transducer_is_read_once(rt: HostRuntime) {
    expect_failing(
        &rt,
        rt.alloc(),
        transduced(),
        ("walnut", "transduce S sum T;"),
        &FAILING,
    );
}

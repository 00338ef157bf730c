//! The first faults of changes of base.

use crate::convert_files::converted;
use crate::given::{FailingRow, expect_failing, expect_scripts};
use crate::tables::table;

/// Scripts of commands that are refused.
const REFUSED: &str = table![
    ("convert;", "error 1: F02 Syntax in command at 7\n", 1, 27),
    ("convert V;", "error 1: F02 Syntax in command at 9\n", 1, 27),
    (
        "convert V msd_4;",
        "error 1: F02 Syntax in command at 15\n",
        1,
        27,
    ),
    (
        "convert V msd_4 T T;",
        "error 1: F02 Syntax in command at 18\n",
        1,
        27,
    ),
    (
        "convert V msd_4 T \"x\";",
        "error 1: F02 Syntax in command at 18\n",
        1,
        27,
    ),
    (
        "convert V msd_4 lsd_4 T;",
        "error 1: F02 Syntax in command at 22\n",
        1,
        27,
    ),
    (
        "convert 1 msd_4 T;",
        "error 1: F02 Syntax in command at 8\n",
        1,
        27,
    ),
    (
        "convert V 4 T;",
        "error 1: F02 Syntax in command at 10\n",
        1,
        27,
    ),
    (
        "convert V T msd_4;",
        "error 1: F02 Syntax in command at 10\n",
        1,
        27,
    ),
    (
        "convert V msd_4 1;",
        "error 1: F02 Syntax in command at 16\n",
        1,
        27,
    ),
    (
        "convert V \"msd_4\" T;",
        "error 1: F02 Syntax in command at 10\n",
        1,
        27,
    ),
    (
        "convert A msd_4 T;",
        "error 1: F02 Syntax in command at 8\n",
        1,
        27,
    ),
    (
        "convert V msd_4 E;",
        "error 1: F02 Syntax in command at 16\n",
        1,
        27,
    ),
    (
        "convert Ix msd_4 T;",
        "error 1: F02 Syntax in command at 8\n",
        1,
        27,
    ),
    (
        "convert V msd_4, T;",
        "error 1: F02 Syntax in command at 15\n",
        1,
        27,
    ),
    (
        "convert V {0,1} T;",
        "error 1: F02 Syntax in command at 10\n",
        1,
        27,
    ),
    (
        "convert V msd_ T;",
        "error 1: F02 Syntax in command at 10\n",
        1,
        27,
    ),
    (
        "convert V msd4 T;",
        "error 1: F02 Syntax in command at 10\n",
        1,
        27,
    ),
    (
        "convert V fib T;",
        "error 1: F02 Syntax in command at 10\n",
        1,
        27,
    ),
    (
        "convert V Msd_4 T;",
        "error 1: F02 Syntax in command at 10\n",
        1,
        27,
    ),
    (
        "convert V msd_4_4 T;",
        "error 1: F02 Syntax in command at 10\n",
        1,
        27,
    ),
    (
        "convert V msd_4.txt T;",
        "error 1: F02 Syntax in command at 10\n",
        1,
        27,
    ),
    (
        "convert V msd_4=1 T;",
        "error 1: F02 Syntax in command at 10\n",
        1,
        27,
    ),
    (
        "convert V ?msd_4 T;",
        "error 1: F02 Syntax in command at 10\n",
        1,
        27,
    ),
    ("converts V msd_4 T;", "error 1: F01 Command\n", 1, 27),
    ("Convert V msd_4 T;", "error 1: F01 Command\n", 1, 27),
    (
        "convert V msd_4 T",
        "error 1: F02 Syntax in command at 17\n",
        1,
        27,
    ),
    (
        "convert V msd_aaaaaaaaaaaaaaaaaaaaaaaaaaaaaaaaaaaaaaaaaaaaaaaaaaaaaaaaaa T;",
        "error 1: F34 NotRelated msd_2 msd_aaaaaaaaaaaaaaaaaaaaaaaaaaaaaaaaaaaaaaaaaaaaaaaaaaaaaaaaaa\n",
        1,
        27,
    ),
    (
        "convert V msd_aaaaaaaaaaaaaaaaaaaaaaaaaaaaaaaaaaaaaaaaaaaaaaaaaaaaaaaaaaa T;",
        "error 1: F02 Syntax in command at 10\n",
        1,
        27,
    ),
    (
        "convert VVVVVVVVVVVVVVVVVVVVVVVVVVVVVVVVVVVVVVVVVVVVVVVVVVVVVVVVVVVVVVVVV msd_4 T;",
        "error 1: F02 Syntax in command at 8\n",
        1,
        27,
    ),
    (
        "convert V msd_4 VVVVVVVVVVVVVVVVVVVVVVVVVVVVVVVVVVVVVVVVVVVVVVVVVVVVVVVVVVVVVVVVV;",
        "error 1: F02 Syntax in command at 16\n",
        1,
        27,
    ),
    (
        "convert V msd_4 T.txt;",
        "error 1: F02 Syntax in command at 16\n",
        1,
        27,
    ),
    (
        "convert V msd_4 g;",
        "error 1: F11 Unknown Word Automata Library/g\n",
        1,
        27,
    ),
    (
        "convert V msd_41 g;",
        "error 1: F11 Unknown Word Automata Library/g\n",
        1,
        27,
    ),
    (
        "convert V msd_6 g;",
        "error 1: F11 Unknown Word Automata Library/g\n",
        1,
        27,
    ),
    (
        "convert New msd_4 V;",
        "error 1: F12 File Word Automata Library/V line 4\n",
        1,
        27,
    ),
    (
        "convert New msd_41 V;",
        "error 1: F12 File Word Automata Library/V line 4\n",
        1,
        27,
    ),
    (
        "convert V msd_41 T;",
        "error 1: F14 SystemUnknown msd_41\n",
        1,
        27,
    ),
    (
        "convert V msd_1 T;",
        "error 1: F14 SystemUnknown msd_1\n",
        1,
        27,
    ),
    (
        "convert V msd_0 T;",
        "error 1: F14 SystemUnknown msd_0\n",
        1,
        27,
    ),
    (
        "convert V lsd_02 T;",
        "error 1: F14 SystemUnknown lsd_02\n",
        1,
        27,
    ),
    (
        "convert V msd_04 T;",
        "error 1: F14 SystemUnknown msd_04\n",
        1,
        27,
    ),
    (
        "convert V msd_99999999999999999999 T;",
        "error 1: F14 SystemUnknown msd_99999999999999999999\n",
        1,
        27,
    ),
    (
        "convert V lsd_41 T;",
        "error 1: F14 SystemUnknown lsd_41\n",
        1,
        27,
    ),
    (
        "convert V msd_41 X;",
        "error 1: F14 SystemUnknown msd_41\n",
        1,
        27,
    ),
    (
        "convert V msd_41 K;",
        "error 1: F14 SystemUnknown msd_41\n",
        1,
        27,
    ),
    (
        "convert V msd_42 K;",
        "error 1: F14 SystemUnknown msd_42\n",
        1,
        27,
    ),
    (
        "convert V msd_41 F;",
        "error 1: F14 SystemUnknown msd_41\n",
        1,
        27,
    ),
    (
        "convert V msd_41 W;",
        "error 1: F14 SystemUnknown msd_41\n",
        1,
        27,
    ),
    (
        "convert V msd_4 X;",
        "error 1: F14 SystemUnknown msd_far\n",
        1,
        27,
    ),
    (
        "convert V msd_4 K;",
        "error 1: F14 SystemUnknown msd_41\n",
        1,
        27,
    ),
    (
        "convert V msd_fib X;",
        "error 1: F14 SystemUnknown msd_far\n",
        1,
        27,
    ),
    (
        "convert V msd_6 W;",
        "error 1: F15 NotAdmitted msd_wrong SuccessorLaw\n",
        1,
        27,
    ),
    (
        "convert V msd_4 W;",
        "error 1: F15 NotAdmitted msd_wrong SuccessorLaw\n",
        1,
        27,
    ),
    (
        "convert V msd_4 F;",
        "error 1: F33 BaseNeeded F msd_fib\n",
        1,
        27,
    ),
    (
        "convert V msd_fib F;",
        "error 1: F33 BaseNeeded F msd_fib\n",
        1,
        27,
    ),
    (
        "convert V msd_2a F;",
        "error 1: F33 BaseNeeded F msd_fib\n",
        1,
        27,
    ),
    (
        "convert V msd_4 J;",
        "error 1: F33 BaseNeeded J msd_2 msd_2\n",
        1,
        27,
    ),
    (
        "convert V msd_6 J;",
        "error 1: F33 BaseNeeded J msd_2 msd_2\n",
        1,
        27,
    ),
    (
        "convert V msd_4 U;",
        "error 1: F33 BaseNeeded U msd_bin\n",
        1,
        27,
    ),
    (
        "convert V msd_bin U;",
        "error 1: F33 BaseNeeded U msd_bin\n",
        1,
        27,
    ),
    (
        "convert V msd_4 F:",
        "error 1: F33 BaseNeeded F msd_fib\n",
        1,
        27,
    ),
    (
        "convert V lsd_fib J;",
        "error 1: F33 BaseNeeded J msd_2 msd_2\n",
        1,
        27,
    ),
    (
        "convert V msd_6 T;",
        "error 1: F34 NotRelated msd_2 msd_6\n",
        1,
        27,
    ),
    (
        "convert V msd_3 T;",
        "error 1: F34 NotRelated msd_2 msd_3\n",
        1,
        27,
    ),
    (
        "convert V lsd_6 T;",
        "error 1: F34 NotRelated msd_2 lsd_6\n",
        1,
        27,
    ),
    (
        "convert V msd_12 C;",
        "error 1: F34 NotRelated msd_4 msd_12\n",
        1,
        27,
    ),
    (
        "convert V msd_40 T;",
        "error 1: F34 NotRelated msd_2 msd_40\n",
        1,
        27,
    ),
    (
        "convert V msd_10 L;",
        "error 1: F34 NotRelated lsd_2 msd_10\n",
        1,
        27,
    ),
    (
        "convert V msd_fib T;",
        "error 1: F34 NotRelated msd_2 msd_fib\n",
        1,
        27,
    ),
    (
        "convert V lsd_fib T;",
        "error 1: F34 NotRelated msd_2 lsd_fib\n",
        1,
        27,
    ),
    (
        "convert V msd_bin T;",
        "error 1: F34 NotRelated msd_2 msd_bin\n",
        1,
        27,
    ),
    (
        "convert V msd_2a T;",
        "error 1: F34 NotRelated msd_2 msd_2a\n",
        1,
        27,
    ),
    (
        "convert V msd_none T;",
        "error 1: F34 NotRelated msd_2 msd_none\n",
        1,
        27,
    ),
    (
        "convert V msd_wrong T;",
        "error 1: F34 NotRelated msd_2 msd_wrong\n",
        1,
        27,
    ),
    (
        "convert V msd_2 M;",
        "error 1: F34 NotRelated msd_3 msd_2\n",
        1,
        27,
    ),
    (
        "convert V msd_2 S;",
        "error 1: F34 NotRelated msd_6 msd_2\n",
        1,
        27,
    ),
    (
        "convert V msd_18 S;",
        "error 1: F34 NotRelated msd_6 msd_18\n",
        1,
        27,
    ),
    (
        "convert V msd_20 P;",
        "error 1: F34 NotRelated msd_40 msd_20\n",
        1,
        27,
    ),
    (
        "convert V msd_9 Q;",
        "error 1: F34 NotRelated msd_25 msd_9\n",
        1,
        27,
    ),
    (
        "convert V msd_6 T:",
        "error 1: F34 NotRelated msd_2 msd_6\n",
        1,
        27,
    ),
    (
        "convert V lsd_far Y;",
        "error 1: F34 NotRelated msd_2 lsd_far\n",
        1,
        27,
    ),
];

#[test]
fn changes_of_base_are_refused_by_their_first_fault(rt: HostRuntime) {
    expect_scripts(&rt, rt.alloc(), converted(), "walnut", REFUSED);
}

/// A call of the store that fails, what is printed then, the status, and how many texts the store has.
static FAILING: [FailingRow; 3] = [
    (1, "error 1: F26 Store Word Automata Library/T\n", 3, 27),
    (2, "error 1: F26 Store Word Automata Library/New\n", 3, 27),
    (3, "", 0, 28),
];

/// The files of the new system are not read.
static UNREAD: [FailingRow; 1] = [(2, "error 1: F34 NotRelated msd_2 msd_bin\n", 1, 27)];

#[test]
fn a_change_of_base_reads_the_word_alone(rt: HostRuntime) {
    expect_failing(
        &rt,
        rt.alloc(),
        converted(),
        ("walnut", "convert New msd_4 T;"),
        &FAILING,
    );
    expect_failing(
        &rt,
        rt.alloc(),
        converted(),
        ("walnut", "convert New msd_bin T;"),
        &UNREAD,
    );
}

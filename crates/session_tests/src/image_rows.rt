//! Images of words in commands: letters in formulas, faults and their order, stores that fail and limits.

use crate::given::{FailingRow, LimitRow, expect_failing, expect_scripts, expect_within};
use crate::image_files::imaged;
use crate::tables::{files, table};

/// Scripts of one command, refused or not.
const REFUSED: &str = table![
    (
        "image W k T;",
        "error 1: F11 Unknown Morphism Library/k\n",
        1,
        63,
    ),
    (
        "image W g k;",
        "error 1: F11 Unknown Word Automata Library/k\n",
        1,
        63,
    ),
    (
        "image W k k;",
        "error 1: F11 Unknown Morphism Library/k\n",
        1,
        63,
    ),
    (
        "image W broken k;",
        "error 1: F12 File Morphism Library/broken line 3\n",
        1,
        63,
    ),
    (
        "image W broken T;",
        "error 1: F12 File Morphism Library/broken line 3\n",
        1,
        63,
    ),
    (
        "image W k B;",
        "error 1: F11 Unknown Morphism Library/k\n",
        1,
        63,
    ),
    (
        "image W g B;",
        "error 1: F12 File Word Automata Library/B line 4\n",
        1,
        63,
    ),
    (
        "image W bad B;",
        "error 1: F12 File Word Automata Library/B line 4\n",
        1,
        63,
    ),
    (
        "image W g K;",
        "error 1: F12 File Word Automata Library/K line 1\n",
        1,
        63,
    ),
    (
        "image W g N;",
        "error 1: F14 SystemUnknown msd_gone\n",
        1,
        63,
    ),
    (
        "image W bad N;",
        "error 1: F14 SystemUnknown msd_gone\n",
        1,
        63,
    ),
    (
        "image W g N2;",
        "error 1: F14 SystemUnknown msd_41\n",
        1,
        63,
    ),
    (
        "image W g V;",
        "error 1: F15 NotAdmitted msd_wrong SuccessorLaw\n",
        1,
        63,
    ),
    (
        "image W bad V;",
        "error 1: F15 NotAdmitted msd_wrong SuccessorLaw\n",
        1,
        63,
    ),
    (
        "image W long Y;",
        "error 1: F15 NotAdmitted msd_wrong SuccessorLaw\n",
        1,
        63,
    ),
    (
        "image W k N;",
        "error 1: F11 Unknown Morphism Library/k\n",
        1,
        63,
    ),
    (
        "image W broken N;",
        "error 1: F12 File Morphism Library/broken line 3\n",
        1,
        63,
    ),
    ("image W g Q;", "error 1: F13 Arity Q 2 1\n", 1, 63),
    ("image W bad Q;", "error 1: F13 Arity Q 2 1\n", 1, 63),
    ("image W only0 Q;", "error 1: F13 Arity Q 2 1\n", 1, 63),
    ("image W g J;", "error 1: F13 Arity J 2 1\n", 1, 63),
    ("image W long J;", "error 1: F13 Arity J 2 1\n", 1, 63),
    (
        "image W g Y;",
        "error 1: F15 NotAdmitted msd_wrong SuccessorLaw\n",
        1,
        63,
    ),
    (
        "image W bad T;",
        "error 1: F22 Morphism NotUniform 1\n",
        1,
        63,
    ),
    (
        "image W bad0 T;",
        "error 1: F22 Morphism NotUniform 0\n",
        1,
        63,
    ),
    ("image W long T;", "error 1: F22 Morphism Length 0\n", 1, 63),
    (
        "image W long5 T;",
        "error 1: F22 Morphism Length 1\n",
        1,
        63,
    ),
    (
        "image W odd T;",
        "error 1: F22 Morphism NotUniform 2\n",
        1,
        63,
    ),
    (
        "image W bad G;",
        "error 1: F22 Morphism NotUniform 1\n",
        1,
        63,
    ),
    ("image W long G;", "error 1: F22 Morphism Length 0\n", 1, 63),
    (
        "image W bad H;",
        "error 1: F22 Morphism NotUniform 1\n",
        1,
        63,
    ),
    ("image W g G;", "error 1: F23 LetterMissing 5\n", 1, 63),
    ("image W only0 G;", "error 1: F23 LetterMissing 5\n", 1, 63),
    ("image W only0 H;", "error 1: F23 LetterMissing 1\n", 1, 63),
    ("image W two H;", "", 0, 64),
    ("image W five G;", "", 0, 64),
    (
        "image W bad F;",
        "error 1: F22 Morphism NotUniform 1\n",
        1,
        63,
    ),
    ("image W long X;", "error 1: F22 Morphism Length 0\n", 1, 63),
    (
        "image W bad D;",
        "error 1: F22 Morphism NotUniform 1\n",
        1,
        63,
    ),
    ("image W only0 T;", "error 1: F23 LetterMissing 1\n", 1, 63),
    ("image W only1 T;", "error 1: F23 LetterMissing 0\n", 1, 63),
    ("image W only0 F;", "error 1: F23 LetterMissing 1\n", 1, 63),
    ("image W only1 L;", "error 1: F23 LetterMissing 0\n", 1, 63),
    ("image W only0 O;", "error 1: F23 LetterMissing 3\n", 1, 63),
    ("image W g O;", "error 1: F23 LetterMissing 3\n", 1, 63),
    ("image W five O;", "error 1: F23 LetterMissing 3\n", 1, 63),
    ("image W five T;", "error 1: F23 LetterMissing 0\n", 1, 63),
    ("image W two D;", "error 1: F23 LetterMissing -5\n", 1, 63),
    ("image W only0 D;", "error 1: F23 LetterMissing -5\n", 1, 63),
    ("image W no6 Wide;", "error 1: F23 LetterMissing 6\n", 1, 63),
    (
        "image W no25 Wide;",
        "error 1: F23 LetterMissing 2\n",
        1,
        63,
    ),
    ("image W one R;", "error 1: F23 LetterMissing 2\n", 1, 63),
    ("image W only0 X;", "error 1: F23 LetterMissing 1\n", 1, 63),
    ("image W only0 S;", "error 1: F23 LetterMissing 7\n", 1, 63),
    ("image W g;", "error 1: F02 Syntax in command at 9\n", 1, 63),
    ("image W;", "error 1: F02 Syntax in command at 7\n", 1, 63),
    ("image;", "error 1: F02 Syntax in command at 5\n", 1, 63),
    (
        "image A g T;",
        "error 1: F02 Syntax in command at 6\n",
        1,
        63,
    ),
    (
        "image W g A;",
        "error 1: F02 Syntax in command at 10\n",
        1,
        63,
    ),
    (
        "image W g T T;",
        "error 1: F02 Syntax in command at 12\n",
        1,
        63,
    ),
    (
        "image W \"g\" T;",
        "error 1: F02 Syntax in command at 8\n",
        1,
        63,
    ),
    (
        "image W g=1 T;",
        "error 1: F02 Syntax in command at 8\n",
        1,
        63,
    ),
    (
        "image W g T=1;",
        "error 1: F02 Syntax in command at 10\n",
        1,
        63,
    ),
    (
        "image W.txt g T;",
        "error 1: F02 Syntax in command at 6\n",
        1,
        63,
    ),
    (
        "image W g T.txt;",
        "error 1: F02 Syntax in command at 10\n",
        1,
        63,
    ),
    (
        "image W 1 T;",
        "error 1: F02 Syntax in command at 8\n",
        1,
        63,
    ),
    ("images W g T;", "error 1: F01 Command\n", 1, 63),
    (
        "image W Ag T;",
        "error 1: F11 Unknown Morphism Library/Ag\n",
        1,
        63,
    ),
];

/// Scripts with words that they make.
const READ: &str = table![
    (
        "image U g T; eval z \"U[2]=@1 & U[3]=@1 & U[5]=@0\"; eval y \"Ax U[3*x]=T[x] & U[3*x+1]=T[x] & U[3*x+2]!=T[x]\";",
        "TRUE\nTRUE\n",
        0,
        66,
    ),
    ("image U two T; eval z \"Ax U[x]=T[x]\";", "TRUE\n", 0, 65),
    (
        "image U one F; eval z \"?msd_fib Ax U[x]=F[x]\";",
        "TRUE\n",
        0,
        65,
    ),
    (
        "image U swap T; eval z \"Ax U[x]!=T[x]\"; image V swap U; eval y \"Ax V[x]=T[x]\";",
        "TRUE\nTRUE\n",
        0,
        66,
    ),
    (
        "image T swap T; eval z \"T[0]=@1 & T[1]=@0 & T[2]=@0\";",
        "TRUE\n",
        0,
        64,
    ),
    (
        "image T two T; image T two T; eval z \"Ax T[2*x]=T[x]\";",
        "TRUE\n",
        0,
        64,
    ),
    ("image U f40 O; eval z \"Ax U[x]=@4\";", "TRUE\n", 0, 65),
    (
        "image U three O; eval z \"Ax U[3*x]=@3 & U[3*x+1]=@4 & U[3*x+2]=@5\";",
        "TRUE\n",
        0,
        65,
    ),
    (
        "image U two L; eval z \"?lsd_2 Ax U[x]=L[x]\";",
        "TRUE\n",
        0,
        65,
    ),
    (
        "image U four R; eval z \"Ax U[2*x]=U[x] & U[4*x+1]=U[x] & U[4*x+3]!=U[2*x+1]\";",
        "TRUE\n",
        0,
        65,
    ),
    (
        "image U fold P; eval z \"Ax U[4*x]=@1 & U[4*x+2]=@0 & U[2*x+1]=U[x]\";",
        "TRUE\n",
        0,
        65,
    ),
    (
        "image U neg T; eval z \"Ax (T[x]=@0 => U[2*x]=@-1 & U[2*x+1]=@0) & (T[x]=@1 => U[2*x]=@0 & U[2*x+1]=@-1)\";",
        "TRUE\n",
        0,
        65,
    ),
    (
        "image U sev2 S; eval z \"U[0]=@7 & U[1]=@7 & U[2]=@7 & U[3]=@0 & (Ax x>=4 => U[x]=@7)\";",
        "TRUE\n",
        0,
        65,
    ),
    (
        "image U two X; eval z \"?msd_zeck Ax (X[x]=@0 => U[2*x]=@0 & U[2*x+1]=@1) & (X[x]=@1 => U[2*x]=@1 & U[2*x+1]=@0)\";",
        "TRUE\n",
        0,
        65,
    ),
    (
        "image U fibm F; eval z \"?msd_fib Ax U[2*x]=@0 & U[2*x+1]!=F[x]\";",
        "TRUE\n",
        0,
        65,
    ),
    (
        "morphism h \"0->01 1->10\"; promote T h; morphism g \"0->001 1->110\"; image U g T; eval z \"U[2]=@1 & U[3]=@1 & U[5]=@0\"; morphism m \"0->11\"; image Vv m T; eval y \"Vv[0]=@1\";",
        "TRUE\nerror 1: F23 LetterMissing 1\nerror 1: F11 Unknown Word Automata Library/Vv\n",
        1,
        67,
    ),
    (
        "morphism h \"5->56\";\nimage U h\n O;\nimage U h G;\nimage U five D;\neval z \"U[0]=@5 & U[1]=@6\";",
        "error 2: F23 LetterMissing 3\nTRUE\n",
        1,
        66,
    ),
];

/// A word, of which two images are made, one of the other.
const WORD: &str = files![(
    Folder::Words,
    "T",
    "msd_2\n0 0\n0 -> 0\n1 -> 1\n1 1\n0 -> 1\n1 -> 0\n",
)];

/// Rules, the images, and a formula with them.
const FOUR: &str = "morphism h \"0->1 1->0\"; image U h T; image V h U; eval t \"Ax V[x]=T[x]\";";

/// Which call of the store fails, what is printed of these, the status, and how many texts the store has then.
static FAILING: [FailingRow; 12] = [
    (
        1,
        "error 1: F26 Store Morphism Library/h\nerror 1: F11 Unknown Morphism Library/h\nerror 1: F11 Unknown Morphism Library/h\nerror 1: F11 Unknown Word Automata Library/V\n",
        3,
        1,
    ),
    (
        2,
        "error 1: F26 Store Morphism Library/h\nerror 1: F11 Unknown Word Automata Library/U\nerror 1: F11 Unknown Word Automata Library/V\n",
        3,
        2,
    ),
    (
        3,
        "error 1: F26 Store Word Automata Library/T\nerror 1: F11 Unknown Word Automata Library/U\nerror 1: F11 Unknown Word Automata Library/V\n",
        3,
        2,
    ),
    (
        4,
        "error 1: F26 Store Word Automata Library/U\nerror 1: F11 Unknown Word Automata Library/U\nerror 1: F11 Unknown Word Automata Library/V\n",
        3,
        2,
    ),
    (
        5,
        "error 1: F26 Store Morphism Library/h\nerror 1: F11 Unknown Word Automata Library/V\n",
        3,
        3,
    ),
    (
        6,
        "error 1: F26 Store Word Automata Library/U\nerror 1: F11 Unknown Word Automata Library/V\n",
        3,
        3,
    ),
    (
        7,
        "error 1: F26 Store Word Automata Library/V\nerror 1: F11 Unknown Word Automata Library/V\n",
        3,
        3,
    ),
    (8, "error 1: F26 Store Word Automata Library/V\n", 3, 4),
    (9, "error 1: F26 Store Word Automata Library/T\n", 3, 4),
    (10, "error 1: F26 Store Result/t\n", 3, 4),
    (11, "TRUE\n", 0, 5),
    (12, "TRUE\n", 0, 5),
];

/// How wide a step may be, a script, what it prints, the status, and how many texts the store has then.
static LIMITS: [LimitRow; 13] = [
    (16, "image W g T:", "error 1: F19 States step 27\n", 1, 63),
    (16, "image W two F:", "error 1: F19 States step 5\n", 1, 63),
    (25, "image W two F:", "error 1: F19 States step 5\n", 1, 63),
    (
        16,
        "image W w7 Wide:",
        "step 1 read 7 7\nstep 2 pad 8 7\nstep 3 valid 7 7\nstep 4 const 2 1\nstep 5 product 6 2\nstep 6 project 3 2\nstep 7 product 6 1\nstep 8 project 2 1\nstep 9 product 14 7\nstep 10 project 7 7\nstep 11 const 2 1\nstep 12 product 6 2\nstep 13 project 3 2\nstep 14 product 6 1\nstep 15 project 2 1\nstep 16 product 14 7\nstep 17 project 7 7\nstep 18 const 2 1\nstep 19 product 6 2\nstep 20 project 3 2\nstep 21 product 6 1\nstep 22 project 2 1\nstep 23 product 14 7\nstep 24 project 7 7\nstep 25 combine 7 7\n",
        0,
        64,
    ),
    (
        17,
        "image W w7 Wide:",
        "step 1 read 7 7\nstep 2 pad 8 7\nstep 3 valid 7 7\nstep 4 const 2 1\nstep 5 product 6 2\nstep 6 project 3 2\nstep 7 product 6 1\nstep 8 project 2 1\nstep 9 product 14 7\nstep 10 project 7 7\nstep 11 const 2 1\nstep 12 product 6 2\nstep 13 project 3 2\nstep 14 product 6 1\nstep 15 project 2 1\nstep 16 product 14 7\nstep 17 project 7 7\nstep 18 const 2 1\nstep 19 product 6 2\nstep 20 project 3 2\nstep 21 product 6 1\nstep 22 project 2 1\nstep 23 product 14 7\nstep 24 project 7 7\nstep 25 combine 7 7\n",
        0,
        64,
    ),
    (
        16,
        "image W only0 T:",
        "error 1: F23 LetterMissing 1\n",
        1,
        63,
    ),
    (
        16,
        "image W long F:",
        "error 1: F22 Morphism Length 0\n",
        1,
        63,
    ),
    (16, "image W two X:", "error 1: F19 States step 2\n", 1, 63),
    (63, "image W two Z:", "error 1: F19 States step 15\n", 1, 63),
    (60, "image W two X:", "error 1: F19 States step 11\n", 1, 63),
    (16, "image W g F:", "error 1: F19 States step 4\n", 1, 63),
    (40, "image W g F:", "error 1: F19 States step 4\n", 1, 63),
    (16, "image W two M:", "error 1: F19 States step 5\n", 1, 63),
];

#[test]
fn images_are_made_or_refused_as_listed(rt: HostRuntime) {
    expect_scripts(&rt, rt.alloc(), imaged(), "walnut", REFUSED);
}

#[test]
fn images_are_read_in_formulas(rt: HostRuntime) {
    expect_scripts(&rt, rt.alloc(), imaged(), "walnut", READ);
}

#[test]
fn a_store_that_fails_at_images(rt: HostRuntime) {
    expect_failing(&rt, rt.alloc(), WORD, ("walnut", FOUR), &FAILING);
}

#[test]
fn steps_of_images_have_the_limit_of_all(rt: HostRuntime) {
    expect_within(&rt, rt.alloc(), imaged(), &LIMITS);
}

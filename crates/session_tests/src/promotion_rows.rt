//! Fixed points of morphisms as commands make them: the line of the step, what is stored, and why there is none.

use crate::given::{LimitRow, expect_scripts, expect_within};
use crate::tables::table;

/// Morphisms whose fixed points are asked for, with the steps. The width is that of the letters that occur.
const SHOWN: &str = table![
    (
        "morphism h \"0->01 1->10\"; promote W h:",
        "step 1 promote 2 2\n",
        0,
        2,
    ),
    (
        "morphism h \"0->01 1->00\"; promote W h:",
        "step 1 promote 2 2\n",
        0,
        2,
    ),
    (
        "morphism h \"0->01 1->11\"; promote W h:",
        "step 1 promote 2 2\n",
        0,
        2,
    ),
    (
        "morphism h \"0->00\"; promote W h:",
        "step 1 promote 1 1\n",
        0,
        2,
    ),
    (
        "morphism h \"0->00 1->11\"; promote W h:",
        "step 1 promote 1 1\n",
        0,
        2,
    ),
    (
        "morphism h \"0->01 1->02 2->31 3->32\"; promote W h:",
        "step 1 promote 4 4\n",
        0,
        2,
    ),
    (
        "morphism h \"0->01 1->21 2->03 3->23\"; promote W h:",
        "step 1 promote 4 4\n",
        0,
        2,
    ),
    (
        "morphism h \"0->01 1->21 2->13 3->33\"; promote W h:",
        "step 1 promote 4 4\n",
        0,
        2,
    ),
    (
        "morphism h \"0->001 1->110\"; promote W h:",
        "step 1 promote 2 2\n",
        0,
        2,
    ),
    (
        "morphism h \"0->001 1->011\"; promote W h:",
        "step 1 promote 2 2\n",
        0,
        2,
    ),
    (
        "morphism h \"0->010 1->111\"; promote W h:",
        "step 1 promote 2 2\n",
        0,
        2,
    ),
    (
        "morphism h \"0->012 1->120 2->201\"; promote W h:",
        "step 1 promote 3 3\n",
        0,
        2,
    ),
    (
        "morphism h \"0->012 1->002 2->011\"; promote W h:",
        "step 1 promote 3 3\n",
        0,
        2,
    ),
    (
        "morphism h \"0->021 1->102 2->210\"; promote W h:",
        "step 1 promote 3 3\n",
        0,
        2,
    ),
    (
        "morphism h \"0->0[-1] [-1]->[-1]0\"; promote W h:",
        "step 1 promote 2 2\n",
        0,
        2,
    ),
    (
        "morphism h \"0->0[2147483647] [2147483647]->[-2147483648]0 [-2147483648]->00\"; promote W h:",
        "step 1 promote 3 3\n",
        0,
        2,
    ),
    (
        "morphism h \"0->05 5->50 7->07 [-3]->55\"; promote W h:",
        "step 1 promote 2 2\n",
        0,
        2,
    ),
    (
        "morphism h \"0->02 1->20 2->02\"; promote W h:",
        "step 1 promote 2 2\n",
        0,
        2,
    ),
    (
        "morphism h \"0->01 1->23 2->45 3->32 4->54 5->10\"; promote W h:",
        "step 1 promote 6 6\n",
        0,
        2,
    ),
    (
        "morphism h \"0->01 1->23 2->01 3->23\"; promote W h:",
        "step 1 promote 4 4\n",
        0,
        2,
    ),
    (
        "morphism h \"0->0123 1->1032 2->2301 3->3210\"; promote W h:",
        "step 1 promote 4 4\n",
        0,
        2,
    ),
    (
        "morphism h \"0->0001 1->1101\"; promote W h:",
        "step 1 promote 2 2\n",
        0,
        2,
    ),
    (
        "morphism h \"0->01 1->20 2->12\"; promote W h:",
        "step 1 promote 3 3\n",
        0,
        2,
    ),
    (
        "morphism h \"0->01 1->22 2->20\"; promote W h:",
        "step 1 promote 3 3\n",
        0,
        2,
    ),
    (
        "morphism h \"0->01234 1->12340 2->23401 3->34012 4->40123\"; promote W h:",
        "step 1 promote 5 5\n",
        0,
        2,
    ),
    (
        "morphism h \"0->0000000001 1->1111111110\"; promote W h:",
        "step 1 promote 2 2\n",
        0,
        2,
    ),
    (
        "morphism h \"0->0121021201210 1->1202102012021 2->2010210120102\"; promote W h:",
        "step 1 promote 3 3\n",
        0,
        2,
    ),
    (
        "morphism h \"0->0000000000000000000000000000000000000001 1->1111111111111111111111111111111111111110\"; promote W h:",
        "step 1 promote 2 2\n",
        0,
        2,
    ),
    (
        "morphism h \"[0]->[0][1] [1]->[1][2] [2]->[2][3] [3]->[3][4] [4]->[4][5] [5]->[5][6] [6]->[6][7] [7]->[7][8] [8]->[8][9] [9]->[9][10] [10]->[10][11] [11]->[11][12] [12]->[12][13] [13]->[13][14] [14]->[14][15] [15]->[15][16] [16]->[16][17] [17]->[17][18] [18]->[18][19] [19]->[19][0]\"; promote W h:",
        "step 1 promote 20 20\n",
        0,
        2,
    ),
];

/// Morphisms without such a word, heads, and words in formulas.
const REFUSED: &str = table![
    (
        "morphism h \"0->01 1->1\"; promote W h;",
        "error 1: F22 Morphism NotUniform 1\n",
        1,
        1,
    ),
    (
        "morphism h \"0->01 1->10 2->0\"; promote W h;",
        "error 1: F22 Morphism NotUniform 2\n",
        1,
        1,
    ),
    (
        "morphism h \"[-1]->0 0->01 1->10\"; promote W h;",
        "error 1: F22 Morphism NotUniform 0\n",
        1,
        1,
    ),
    (
        "morphism h \"0->0\"; promote W h;",
        "error 1: F22 Morphism Length 0\n",
        1,
        1,
    ),
    (
        "morphism h \"0->1\"; promote W h;",
        "error 1: F22 Morphism Length 0\n",
        1,
        1,
    ),
    (
        "morphism h \"1->1\"; promote W h;",
        "error 1: F22 Morphism Length 1\n",
        1,
        1,
    ),
    (
        "morphism h \"[-1]->0 0->0\"; promote W h;",
        "error 1: F22 Morphism Length -1\n",
        1,
        1,
    ),
    (
        "morphism h \"0->00000000000000000000000000000000000000000\"; promote W h;",
        "error 1: F22 Morphism Length 0\n",
        1,
        1,
    ),
    (
        "morphism h \"[-5]->00000000000000000000000000000000000000000 0->11111111111111111111111111111111111111111\"; promote W h;",
        "error 1: F22 Morphism Length -5\n",
        1,
        1,
    ),
    (
        "morphism h \"0->01\"; promote W h;",
        "error 1: F22 Morphism NotClosed 1\n",
        1,
        1,
    ),
    (
        "morphism h \"0->03 3->02\"; promote W h;",
        "error 1: F22 Morphism NotClosed 2\n",
        1,
        1,
    ),
    (
        "morphism h \"0->0[-5] 1->02\"; promote W h;",
        "error 1: F22 Morphism NotClosed -5\n",
        1,
        1,
    ),
    (
        "morphism h \"0->01 1->12 2->23\"; promote W h;",
        "error 1: F22 Morphism NotClosed 3\n",
        1,
        1,
    ),
    (
        "morphism h \"0->01 1->02 2->[-1]3\"; promote W h;",
        "error 1: F22 Morphism NotClosed -1\n",
        1,
        1,
    ),
    (
        "morphism h \"0->10 1->01\"; promote W h;",
        "error 1: F22 Morphism NotFixed 0\n",
        1,
        1,
    ),
    (
        "morphism h \"1->12 2->21\"; promote W h;",
        "error 1: F22 Morphism NotFixed 0\n",
        1,
        1,
    ),
    (
        "morphism h \"1->11\"; promote W h;",
        "error 1: F22 Morphism NotFixed 0\n",
        1,
        1,
    ),
    (
        "morphism h \"0->11 1->00\"; promote W h;",
        "error 1: F22 Morphism NotFixed 0\n",
        1,
        1,
    ),
    (
        "morphism h \"0->11 1->1\"; promote W h;",
        "error 1: F22 Morphism NotUniform 1\n",
        1,
        1,
    ),
    (
        "morphism h \"0->01 1->2\"; promote W h;",
        "error 1: F22 Morphism NotUniform 1\n",
        1,
        1,
    ),
    (
        "morphism h \"0->1 1->00\"; promote W h;",
        "error 1: F22 Morphism NotUniform 1\n",
        1,
        1,
    ),
    (
        "morphism h \"0->12\"; promote W h;",
        "error 1: F22 Morphism NotClosed 1\n",
        1,
        1,
    ),
    (
        "morphism h \"1->2\"; promote W h;",
        "error 1: F22 Morphism Length 1\n",
        1,
        1,
    ),
    (
        "morphism h \"1->23\"; promote W h;",
        "error 1: F22 Morphism NotClosed 2\n",
        1,
        1,
    ),
    (
        "morphism h \"0->1 1->0\"; promote W h;",
        "error 1: F22 Morphism Length 0\n",
        1,
        1,
    ),
    (
        "morphism h \"0->10 1->02\"; promote W h;",
        "error 1: F22 Morphism NotClosed 2\n",
        1,
        1,
    ),
    (
        "morphism h \"1->10\"; promote W h;",
        "error 1: F22 Morphism NotClosed 0\n",
        1,
        1,
    ),
    (
        "morphism h \"0->11111111111111111111111111111111111111111\"; promote W h;",
        "error 1: F22 Morphism Length 0\n",
        1,
        1,
    ),
    (
        "morphism h \"2->0 3->00 4->000\"; promote W h;",
        "error 1: F22 Morphism NotUniform 3\n",
        1,
        1,
    ),
    (
        "morphism h \"2->00 3->0 1->00\"; promote W h;",
        "error 1: F22 Morphism NotUniform 3\n",
        1,
        1,
    ),
    (
        "promote W h;",
        "error 1: F11 Unknown Morphism Library/h\n",
        1,
        0,
    ),
    (
        "promote W h:",
        "error 1: F11 Unknown Morphism Library/h\n",
        1,
        0,
    ),
    (
        "morphism h \"0->01 1->10\"; promote W g;",
        "error 1: F11 Unknown Morphism Library/g\n",
        1,
        1,
    ),
    (
        "promote A h;",
        "error 1: F02 Syntax in command at 8\n",
        1,
        0,
    ),
    (
        "promote Wx;",
        "error 1: F02 Syntax in command at 10\n",
        1,
        0,
    ),
    (
        "promote W h h;",
        "error 1: F02 Syntax in command at 12\n",
        1,
        0,
    ),
    (
        "promote W \"h\";",
        "error 1: F02 Syntax in command at 10\n",
        1,
        0,
    ),
    (
        "promote W h=1;",
        "error 1: F02 Syntax in command at 10\n",
        1,
        0,
    ),
    (
        "promote W 1;",
        "error 1: F02 Syntax in command at 10\n",
        1,
        0,
    ),
    ("promote;", "error 1: F02 Syntax in command at 7\n", 1, 0),
    ("promote W;", "error 1: F02 Syntax in command at 9\n", 1, 0),
    ("promotes W h;", "error 1: F01 Command\n", 1, 0),
    (
        "morphism h \"0->01 1->10\"; promote W h; promote V h; eval e \"Ax W[x]=V[x]\";",
        "TRUE\n",
        0,
        4,
    ),
    (
        "morphism h \"0->01 1->10\"; promote W h; morphism h \"0->00\"; eval e \"W[1]=@1\"; promote W h; eval f \"W[1]=@0\";",
        "TRUE\nTRUE\n",
        0,
        4,
    ),
    (
        "morphism W \"0->01 1->10\"; promote W W; def W \"W[x]=@1\"; eval e \"Ax $W(x) <=> W[x]=@1\";",
        "TRUE\n",
        0,
        4,
    ),
    (
        "morphism h \"0->01 1->1\"; promote W h; eval e \"W[0]=@0\";",
        "error 1: F22 Morphism NotUniform 1\nerror 1: F11 Unknown Word Automata Library/W\n",
        1,
        1,
    ),
    (
        "morphism h \"0->012 1->120 2->201\"; promote W h; eval e \"?msd_3 Ax W[3*x]=W[x]\"; eval f \"W[x]=@0 & x=1\";",
        "TRUE\nerror 1: F16 Clash x msd_3 msd_2\n",
        1,
        3,
    ),
    (
        "morphism h \"0->01 1->10\"; promote W h; eval e \"?lsd_2 Ax W[x]=@0 | W[x]=@1\"; eval f \"?lsd_2 x=1 & W[x]=@1\";",
        "TRUE\nerror 1: F16 Clash x lsd_2 msd_2\n",
        1,
        3,
    ),
    (
        "morphism h \"0->0[-7] [-7]->[-7]0\"; promote W h; eval e \"W[1]=@-7 & W[2]<@0 & W[3]>W[2]\";",
        "TRUE\n",
        0,
        3,
    ),
];

/// How wide a step may be, a script, what it prints, the status, and how many texts the store has then.
static LIMITS: [LimitRow; 8] = [
    (
        16,
        "morphism h \"[0]->[0][1] [1]->[1][2] [2]->[2][3] [3]->[3][4] [4]->[4][5] [5]->[5][6] [6]->[6][7] [7]->[7][8] [8]->[8][9] [9]->[9][10] [10]->[10][11] [11]->[11][12] [12]->[12][13] [13]->[13][14] [14]->[14][15] [15]->[15][0]\"; promote W h:",
        "step 1 promote 16 16\n",
        0,
        2,
    ),
    (
        16,
        "morphism h \"[0]->[0][1] [1]->[1][2] [2]->[2][3] [3]->[3][4] [4]->[4][5] [5]->[5][6] [6]->[6][7] [7]->[7][8] [8]->[8][9] [9]->[9][10] [10]->[10][11] [11]->[11][12] [12]->[12][13] [13]->[13][14] [14]->[14][15] [15]->[15][16] [16]->[16][0]\"; promote W h:",
        "error 1: F19 States step 1\n",
        1,
        1,
    ),
    (
        19,
        "morphism h \"[0]->[0][1] [1]->[1][2] [2]->[2][3] [3]->[3][4] [4]->[4][5] [5]->[5][6] [6]->[6][7] [7]->[7][8] [8]->[8][9] [9]->[9][10] [10]->[10][11] [11]->[11][12] [12]->[12][13] [13]->[13][14] [14]->[14][15] [15]->[15][16] [16]->[16][17] [17]->[17][18] [18]->[18][19] [19]->[19][0]\"; promote W h:",
        "error 1: F19 States step 1\n",
        1,
        1,
    ),
    (
        20,
        "morphism h \"[0]->[0][1] [1]->[1][2] [2]->[2][3] [3]->[3][4] [4]->[4][5] [5]->[5][6] [6]->[6][7] [7]->[7][8] [8]->[8][9] [9]->[9][10] [10]->[10][11] [11]->[11][12] [12]->[12][13] [13]->[13][14] [14]->[14][15] [15]->[15][16] [16]->[16][17] [17]->[17][18] [18]->[18][19] [19]->[19][0]\"; promote W h:",
        "step 1 promote 20 20\n",
        0,
        2,
    ),
    (
        16,
        "morphism h \"[0]->[0][1] [1]->[1][2] [2]->[2][3] [3]->[3][4] [4]->[4][5] [5]->[5][6] [6]->[6][7] [7]->[7][8] [8]->[8][9] [9]->[9][10] [10]->[10][11] [11]->[11][12] [12]->[12][13] [13]->[13][14] [14]->[14][15] [15]->[15][16] [16]->[16][0] [17]->[99]0\"; promote W h:",
        "error 1: F22 Morphism NotClosed 99\n",
        1,
        1,
    ),
    (
        16,
        "morphism h \"[0]->[0][1] [1]->[1][2] [2]->[2][3] [3]->[3][4] [4]->[4][5] [5]->[5][6] [6]->[6][7] [7]->[7][8] [8]->[8][9] [9]->[9][10] [10]->[10][11] [11]->[11][12] [12]->[12][13] [13]->[13][14] [14]->[14][15] [15]->[15][16] [16]->[16][0] [17]->0\"; promote W h:",
        "error 1: F22 Morphism NotUniform 17\n",
        1,
        1,
    ),
    (
        16,
        "morphism h \"0->00 1->11\"; promote W h:",
        "step 1 promote 1 1\n",
        0,
        2,
    ),
    (
        16,
        "morphism h \"[0]->00 [1]->00 [2]->00 [3]->00 [4]->00 [5]->00 [6]->00 [7]->00 [8]->00 [9]->00 [10]->00 [11]->00 [12]->00 [13]->00 [14]->00 [15]->00 [16]->00 [17]->00 [18]->00 [19]->00\"; promote W h:",
        "step 1 promote 1 1\n",
        0,
        2,
    ),
];

#[test]
fn fixed_points_show_their_step(rt: HostRuntime) {
    expect_scripts(&rt, rt.alloc(), "", "walnut", SHOWN);
}

#[test]
fn morphisms_without_a_fixed_point_are_refused_by_their_kind(rt: HostRuntime) {
    expect_scripts(&rt, rt.alloc(), "", "walnut", REFUSED);
}

#[test]
fn the_step_has_the_limit_of_all(rt: HostRuntime) {
    expect_within(&rt, rt.alloc(), "", &LIMITS);
}

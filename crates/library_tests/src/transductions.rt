//! Words that transducers make, the least digit first: the widths, tables and letters, from an independent program.

use crate::fixed_words::{Change, changed};
use crate::given::given;
use crate::outcomes::expect_text;
use crate::text_rows::{ROW_END, fields_of, table};

// A row's name, a transducer, the rules of a fixed point, a limit, and what is given. Each step has its width as limit, and one
// less.
const TRANSDUCED: &str = table![
    (
        "sums of thue morse",
        "{0,1}\n0\n0 -> 0 / 0\n1 -> 1 / 1\n1\n0 -> 1 / 1\n1 -> 0 / 0\n",
        "0->01 1->10",
        11,
        "transduce 11 7, /! 0>1 1>2/! 0>3 1>3/! 0>4 1>5/! 0>3 1>6/! 0>4 1>4/! 0>5 1>5/! 0>6 1>3 = 0 0 1 0 1 0 1",
    ),
    (
        "sums of thue morse, one less",
        "{0,1}\n0\n0 -> 0 / 0\n1 -> 1 / 1\n1\n0 -> 1 / 1\n1 -> 0 / 0\n",
        "0->01 1->10",
        10,
        "States(1)",
    ),
    (
        "copy of thue morse",
        "{0,1}\n0\n0 -> 0 / 0\n1 -> 0 / 1\n",
        "0->01 1->10",
        2,
        "transduce 2 2, /! 0>0 1>1/! 0>1 1>0 = 0 1",
    ),
    (
        "copy of thue morse, one less",
        "{0,1}\n0\n0 -> 0 / 0\n1 -> 0 / 1\n",
        "0->01 1->10",
        1,
        "States(1)",
    ),
    (
        "copy of doubling",
        "{0,1}\n0\n0 -> 0 / 0\n1 -> 0 / 1\n",
        "0->01 1->00",
        4,
        "transduce 4 4, /! 0>1 1>2/! 0>1 1>1/! 0>3 1>0/! 0>3 1>3 = 0 0 1 1",
    ),
    (
        "copy of doubling, one less",
        "{0,1}\n0\n0 -> 0 / 0\n1 -> 0 / 1\n",
        "0->01 1->00",
        3,
        "States(1)",
    ),
    (
        "first one of thue morse",
        "{0,1}\n0\n0 -> 0 / 5\n",
        "0->01 1->10",
        3,
        "transduce 3 1, /! 0>0 = 5",
    ),
    (
        "first one of thue morse, one less",
        "{0,1}\n0\n0 -> 0 / 5\n",
        "0->01 1->10",
        2,
        "States(1)",
    ),
    (
        "later of doubling",
        "{0,1}\n0\n0 -> 0 / 0\n1 -> 1 / 0\n1\n0 -> 0 / 1\n1 -> 1 / 1\n",
        "0->01 1->00",
        6,
        "transduce 6 4, /! 0>1 1>2/! 0>0 1>3/! 0>2 1>2/! 0>3 1>3 = 0 0 0 1",
    ),
    (
        "later of doubling, one less",
        "{0,1}\n0\n0 -> 0 / 0\n1 -> 1 / 0\n1\n0 -> 0 / 1\n1 -> 1 / 1\n",
        "0->01 1->00",
        5,
        "States(1)",
    ),
    (
        "nothing of thue morse",
        "{0}\n3\n",
        "0->01 1->10",
        1,
        "transduce 1 1, / = -",
    ),
    (
        "nothing of thue morse, one less",
        "{0}\n3\n",
        "0->01 1->10",
        0,
        "States(1)",
    ),
];

#[test]
fn transduced_letters_are_those_of_another_program(rt: HostRuntime) {
    for row in TRANSDUCED.split_terminator(ROW_END) {
        let (name, row) = fields_of(row);
        let (text, row) = fields_of(row);
        let (rules, row) = fields_of(row);
        let (limit, wanted) = fields_of(row);
        let limit = given(&rt, limit.parse());
        let change = Change::Transduced(text);
        let found = changed(&rt, rt.alloc(), change, rules, limit);
        expect_text(&rt, name, &found, wanted);
    }
}

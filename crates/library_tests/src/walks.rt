//! Walks through listed words, against rows worked by hand and against a plain loop over all words.

use crate::given::given;
use crate::outcomes::{expect_so, expect_text, expect_value};
use crate::table_texts::language;
use digit_tuple::dfa::Dfa;
use digit_tuple::direction::Direction;
use reference::words::all_words;
use std::alloc::Global;
use std::process::Abort;
use word_walk::infinity::is_infinite;
use word_walk::walk::Walk;

// An automaton's line, the words that are left out, the place, how many words are asked for, and the words: `()` is the
// empty one, and `.` says that there are no more.
struct Row {
    line: &'static str,
    skip: Option<Direction>,
    place: Option<&'static [u32]>,
    asked: u32,
    words: &'static str,
}

const MSD: Option<Direction> = Some(Direction::Msd);

const LSD: Option<Direction> = Some(Direction::Lsd);

// No words, the empty word, one word, three words, a word and longer ones, and all words.
const NOTHING: &str = "x:2 = /";

const EMPTY_WORD: &str = "x:2 = ()";

const ONE: &str = "x:2 = 101";

const THREE: &str = "x:2 = 1|10|011";

const ENDING: &str = "x:2 = .*1";

const ALL: &str = "x:2 = .*";

// Pairs of numbers of which the first is smaller, in both directions, and pairs of equal numbers.
const LESS_MSD: &str = "x:2 y:2 = / 0>0 1>1 3>0/! 0>1 1>1 2>1 3>1";

const LESS_LSD: &str = "x:2 y:2 = / 0>0 1>1 2>0 3>0/! 0>1 1>1 2>0 3>1";

const EQUAL: &str = "x:2 y:2 = /! 0>0 3>0";

// Words of 0s alone, and words that end with a 0.
const ZEROS: &str = "x:2 = 0*";

const EVEN: &str = "x:2 = .*0|()";

// The word 1 and words of which each is six letters longer.
const FAR: &str = "x:2 = / 1>1/! 0>2/ 0>3/ 0>4/ 0>5/ 0>6/ 0>1";

static ROWS: [Row; 30] = [
    Row {
        line: NOTHING,
        skip: None,
        place: None,
        asked: 2,
        words: ".",
    },
    Row {
        line: NOTHING,
        skip: MSD,
        place: Some(&[1]),
        asked: 2,
        words: ".",
    },
    Row {
        line: EMPTY_WORD,
        skip: None,
        place: None,
        asked: 3,
        words: "() .",
    },
    Row {
        line: EMPTY_WORD,
        skip: LSD,
        place: None,
        asked: 3,
        words: "() .",
    },
    Row {
        line: EMPTY_WORD,
        skip: None,
        place: Some(&[]),
        asked: 3,
        words: ".",
    },
    Row {
        line: ONE,
        skip: None,
        place: None,
        asked: 3,
        words: "101 .",
    },
    Row {
        line: ONE,
        skip: None,
        place: Some(&[1, 0, 0]),
        asked: 3,
        words: "101 .",
    },
    Row {
        line: ONE,
        skip: None,
        place: Some(&[1, 0, 1]),
        asked: 3,
        words: ".",
    },
    Row {
        line: THREE,
        skip: None,
        place: None,
        asked: 9,
        words: "1 10 011 .",
    },
    Row {
        line: THREE,
        skip: None,
        place: None,
        asked: 2,
        words: "1 10",
    },
    Row {
        line: THREE,
        skip: MSD,
        place: None,
        asked: 9,
        words: "1 10 .",
    },
    Row {
        line: THREE,
        skip: LSD,
        place: None,
        asked: 9,
        words: "1 011 .",
    },
    Row {
        line: THREE,
        skip: None,
        place: Some(&[1, 1]),
        asked: 9,
        words: "011 .",
    },
    Row {
        line: THREE,
        skip: None,
        place: Some(&[0, 0, 0, 0]),
        asked: 9,
        words: ".",
    },
    Row {
        line: THREE,
        skip: None,
        place: Some(&[7]),
        asked: 9,
        words: "10 011 .",
    },
    Row {
        line: ENDING,
        skip: None,
        place: None,
        asked: 5,
        words: "1 01 11 001 011",
    },
    Row {
        line: ENDING,
        skip: MSD,
        place: None,
        asked: 5,
        words: "1 11 101 111 1001",
    },
    Row {
        line: ENDING,
        skip: LSD,
        place: None,
        asked: 5,
        words: "1 01 11 001 011",
    },
    Row {
        line: ENDING,
        skip: MSD,
        place: Some(&[0, 1, 1]),
        asked: 2,
        words: "101 111",
    },
    Row {
        line: ALL,
        skip: None,
        place: None,
        asked: 8,
        words: "() 0 1 00 01 10 11 000",
    },
    Row {
        line: ALL,
        skip: MSD,
        place: None,
        asked: 6,
        words: "() 1 10 11 100 101",
    },
    Row {
        line: ALL,
        skip: LSD,
        place: None,
        asked: 6,
        words: "() 1 01 11 001 011",
    },
    Row {
        line: ALL,
        skip: LSD,
        place: Some(&[0, 1, 0]),
        asked: 2,
        words: "011 101",
    },
    Row {
        line: LESS_MSD,
        skip: MSD,
        place: None,
        asked: 4,
        words: "1 10 11 12",
    },
    Row {
        line: LESS_MSD,
        skip: MSD,
        place: Some(&[1, 1]),
        asked: 3,
        words: "12 13 31",
    },
    Row {
        line: LESS_LSD,
        skip: LSD,
        place: None,
        asked: 4,
        words: "1 01 11 13",
    },
    Row {
        line: EQUAL,
        skip: MSD,
        place: None,
        asked: 4,
        words: "() 3 30 33",
    },
    Row {
        line: ZEROS,
        skip: MSD,
        place: None,
        asked: 4,
        words: "() .",
    },
    Row {
        line: EVEN,
        skip: LSD,
        place: None,
        asked: 4,
        words: "() .",
    },
    Row {
        line: FAR,
        skip: None,
        place: None,
        asked: 3,
        words: "1 1000000 1000000000000",
    },
];

// So many next words of a walk.
fn walked(rt: &impl Abort, alloc: Global, row: &Row) -> String {
    let dfa = language(rt, alloc, row.line);
    let mut walk = match row.place {
        Some(place) => given(rt, Walk::resume(alloc, &dfa, row.skip, place)),
        None => given(rt, Walk::new(alloc, &dfa, row.skip)),
    };
    let mut word = Vec::new(alloc);
    let mut text = String::new(alloc);
    for number in 0..row.asked {
        if number > 0 {
            given(rt, text.push(' '));
        }
        if !given(rt, walk.next(&mut word)) {
            given(rt, text.push('.'));
            return text;
        }
        add_word(rt, alloc, &word, &mut text);
    }
    text
}

// Adds a word's letters.
fn add_word(rt: &impl Abort, alloc: Global, word: &[u32], text: &mut String) {
    if word.is_empty() {
        given(rt, text.push_str("()"));
    }
    for letter in word {
        given(rt, text.push_str(&given(rt, format!(in alloc; "{letter}"))));
    }
}

#[test]
fn walks_give_the_words_worked_out(rt: HostRuntime) {
    for row in &ROWS {
        expect_text(&rt, row.line, &walked(&rt, rt.alloc(), row), row.words);
    }
}

// Automata whose words are all looked at: sets with a negative member have their digits by place, so they are like these.
static LISTS: [&str; 9] = [
    NOTHING,
    ONE,
    THREE,
    ENDING,
    ALL,
    EVEN,
    FAR,
    "x:3 = (0|12)*2?",
    "x:3 = / 0>1 2>0/! 1>2/ 0>0 1>1 2>2",
];

// The longest words that are looked at.
const LONGEST: usize = 4;

// Whether a word is left out.
fn is_left_out(skip: Option<Direction>, word: &[u32]) -> bool {
    match skip {
        None => false,
        Some(Direction::Msd) => word.first() == Some(&0),
        Some(Direction::Lsd) => word.last() == Some(&0),
    }
}

// All words up to the longest, shorter ones first, and those of one length letter by letter.
fn short_words(rt: &impl Abort, alloc: Global, letters: u32) -> Vec<Vec<u32>> {
    let mut words = Vec::new(alloc);
    for length in 0..=LONGEST {
        for word in &given(rt, all_words(alloc, letters, length)) {
            given(
                rt,
                words.push(given(rt, Vec::from_slice(alloc, word.letters()))),
            );
        }
    }
    words
}

// The first of these words that is listed, by trying one after another.
fn first_listed<'a>(
    dfa: &Dfa,
    skip: Option<Direction>,
    words: &'a [Vec<u32>],
) -> Option<&'a Vec<u32>> {
    words
        .iter()
        .find(|word| dfa.accepts(word) && !is_left_out(skip, word))
}

// Whether a walk from the place, or from before all words, gives the first listed word of those after it, or a longer
// one than they are, or none.
fn goes_on(
    rt: &impl Abort,
    alloc: Global,
    (dfa, skip): (&Dfa, Option<Direction>),
    walk: &mut Walk,
    after: &[Vec<u32>],
) -> bool {
    let mut word = Vec::new(alloc);
    let found = given(rt, walk.next(&mut word));
    match first_listed(dfa, skip, after) {
        Some(wanted) => found && *wanted == word && walk.place() == Some(&word),
        None => !found || word.len() > LONGEST,
    }
}

// Whether a walk goes on to the first of these words that is listed, from a place, or from before all words.
fn goes_on_from(
    rt: &impl Abort,
    alloc: Global,
    (dfa, skip): (&Dfa, Option<Direction>),
    place: Option<&[u32]>,
    after: &[Vec<u32>],
) -> bool {
    let mut walk = match place {
        Some(place) => given(rt, Walk::resume(alloc, dfa, skip, place)),
        None => given(rt, Walk::new(alloc, dfa, skip)),
    };
    walk.place() == place && goes_on(rt, alloc, (dfa, skip), &mut walk, after)
}

// Whether walks go on from each of these words, listed or not, and from before them all.
fn goes_on_from_each(
    rt: &impl Abort,
    alloc: Global,
    listing: (&Dfa, Option<Direction>),
    words: &[Vec<u32>],
) -> bool {
    for (index, place) in words.iter().enumerate() {
        let after = words.get(index + 1..).unwrap_or(&[]);
        if !goes_on_from(rt, alloc, listing, Some(place.as_slice()), after) {
            return false;
        }
    }
    goes_on_from(rt, alloc, listing, None, words)
}

// Whether walks go on from each word up to the longest, and from before them all.
fn goes_on_everywhere(rt: &impl Abort, alloc: Global, line: &str, skip: Option<Direction>) -> bool {
    let dfa = language(rt, alloc, line);
    let words = short_words(rt, alloc, dfa.alphabet().letters());
    goes_on_from_each(rt, alloc, (&dfa, skip), &words)
}

#[test]
fn walks_go_on_from_each_place(rt: HostRuntime) {
    for line in &LISTS {
        for skip in [None, MSD, LSD] {
            expect_so(&rt, line, goes_on_everywhere(&rt, rt.alloc(), line, skip));
        }
    }
}

// Automata, the words that are left out, and whether infinitely many are listed.
static INFINITE: [(&str, Option<Direction>, bool); 16] = [
    (NOTHING, None, false),
    (EMPTY_WORD, None, false),
    (ONE, None, false),
    (THREE, MSD, false),
    (ENDING, None, true),
    (ENDING, MSD, true),
    (ENDING, LSD, true),
    (ALL, None, true),
    (ZEROS, None, true),
    (ZEROS, MSD, false),
    (ZEROS, LSD, false),
    (EVEN, MSD, true),
    (EVEN, LSD, false),
    (LESS_MSD, MSD, true),
    (LESS_LSD, LSD, true),
    (FAR, None, true),
];

#[test]
fn lists_are_infinite_as_worked_out(rt: HostRuntime) {
    for (line, skip, wanted) in &INFINITE {
        let dfa = language(&rt, rt.alloc(), line);
        let found = given(&rt, is_infinite(rt.alloc(), &dfa, *skip));
        expect_value(&rt, line, &found, wanted);
    }
}

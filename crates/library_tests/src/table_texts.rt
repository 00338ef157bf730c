//! Automata as lines of text, in and out.
//!
//! A line has the tracks, each its name, `:` and how many digits it has, then `=`, then an expression of the words or a
//! table: `/` for each state, `!` after it where it accepts, and its transitions, each a letter, `>` and a state. So
//! `x:2 = 0*1` and `x:2 = / 0>0 1>1/!` are one automaton. A width may come first, and is not read.

ghost use Rattle.std.specs.Prelude.{◌≡◌};
ghost use Rattle.minimise.specs.Canonical.{IsCanonical};

use crate::given::{given, no_answer};
use determinise::subset_construction::determinise;
use digit_tuple::alphabet::Alphabet;
use digit_tuple::dfa::Dfa;
use digit_tuple::header::Header;
use digit_tuple::letter_set::LetterSet;
use digit_tuple::limit::Limit;
use digit_tuple::name::Name;
use digit_tuple::names::are_distinct;
use digit_tuple::nfa::Nfa;
use digit_tuple::sets::Sets;
use digit_tuple::transitions::{NfaState, Transition};
use minimise::canonical::canonical;
use minimise::tracked::Tracked;
use regex_build::build::build;
use regex_build::parse;
use regex_build::regex::Regex;
use std::alloc::Global;
use std::process::Abort;
use std::rc::Rc;

// No step of a row is as wide.
const WIDE: u32 = 1000;

/// The automaton of a line, canonical, its tracks under their names.
pub fn tracked(rt: &impl Abort, alloc: Global, line: &str) -> Tracked {
    let names = names_of(rt, alloc, line);
    let dfa = language(rt, alloc, line);
    if names.len() == dfa.alphabet().sizes().len() && are_distinct(&names) {
        Tracked::of_canonical(dfa, names)
    } else {
        no_answer(rt)
    }
}

/// The automaton of a line, canonical.
pub fn language(rt: &impl Abort, alloc: Global, line: &str) -> Dfa
    ensures { IsCanonical result }
{
    if line.contains('/') {
        given(rt, canonical(alloc, &listed(rt, alloc, line)))
    } else {
        matching(rt, alloc, line)
    }
}

/// The languages of these lines.
pub fn languages(rt: &impl Abort, alloc: Global, lines: &[&str]) -> Vec<Rc<Dfa>> {
    let mut languages = Vec::new(alloc);
    for line in lines {
        given(
            rt,
            languages.push(given(rt, Rc::new(alloc, language(rt, alloc, line)))),
        );
    }
    languages
}

// The automaton of a line with an expression.
fn matching(rt: &impl Abort, alloc: Global, line: &str) -> Dfa
    ensures { IsCanonical result }
{
    let regex = expression(rt, alloc, line);
    given(rt, build(alloc, &regex, Limit::new(WIDE))).result
}

// The expression of a line with an expression.
fn expression(rt: &impl Abort, alloc: Global, line: &str) -> Regex {
    let header = Header::Sets(sets_of(rt, alloc, &sizes_of(rt, alloc, line)));
    given(rt, parse(alloc, after_tracks(line).as_bytes(), &header))
}

/// The deterministic table of a line with a table: the subsets of its states.
pub fn listed(rt: &impl Abort, alloc: Global, line: &str) -> Dfa {
    let table = table(rt, alloc, line);
    given(rt, determinise(alloc, &table, Limit::new(WIDE))).result
}

/// The table of a line with a table, in which a state may have more transitions by one letter.
pub fn table(rt: &impl Abort, alloc: Global, line: &str) -> Nfa {
    read_table(rt, alloc, line).expect(rt, "a table")
}

/// The table that a line lists, if it is one.
pub fn read_table(rt: &impl Abort, alloc: Global, line: &str) -> Option<Nfa> {
    let alphabet = given(rt, Alphabet::new(alloc, &sizes_of(rt, alloc, line)));
    let states = states_of(rt, alloc, after_tracks(line));
    given(rt, Nfa::try_from_states(alloc, alphabet, states))
}

// The states of a table's text.
fn states_of(rt: &impl Abort, alloc: Global, text: &str) -> Vec<NfaState> {
    let mut states = Vec::new(alloc);
    for state in text.split('/').skip(1) {
        given(
            rt,
            states.push(NfaState {
                accepting: state.starts_with('!'),
                transitions: transitions_of(rt, alloc, state),
            }),
        );
    }
    states
}

// The transitions of a state's text.
fn transitions_of(rt: &impl Abort, alloc: Global, text: &str) -> Vec<Transition> {
    let mut transitions = Vec::new(alloc);
    for transition in text.split_whitespace() {
        if let Some((letter, target)) = transition.split_once('>') {
            given(
                rt,
                transitions.push(Transition {
                    letter: given(rt, letter.parse()),
                    target: given(rt, target.parse()),
                }),
            );
        }
    }
    transitions
}

// The names of a line's tracks.
fn names_of(rt: &impl Abort, alloc: Global, line: &str) -> Vec<Name> {
    let mut names = Vec::new(alloc);
    for track in tracks(line).split_whitespace() {
        if let Some((name, _)) = track.split_once(':') {
            given(rt, names.push(given(rt, Name::new(alloc, name))));
        }
    }
    names
}

// The sizes of a line's tracks.
fn sizes_of(rt: &impl Abort, alloc: Global, line: &str) -> Vec<u32> {
    let mut sizes = Vec::new(alloc);
    for track in tracks(line).split_whitespace() {
        if let Some((_, size)) = track.split_once(':') {
            given(rt, sizes.push(given(rt, size.parse())));
        }
    }
    sizes
}

// What comes before the `=` of a line.
fn tracks(line: &str) -> &str {
    match line.split_once('=') {
        Some((tracks, _)) => tracks,
        None => "",
    }
}

// What follows the `=` of a line.
fn after_tracks(line: &str) -> &str {
    match line.split_once('=') {
        Some((_, text)) => text,
        None => "",
    }
}

/// Sets of the digits below each of these sizes.
pub fn sets_of(rt: &impl Abort, alloc: Global, sizes: &[u32]) -> Sets {
    let mut sets = Sets::new(alloc);
    for size in sizes {
        let digits: Vec<i32> = given(rt, (0..given(rt, i32::try_from(*size))).collect(alloc));
        given(
            rt,
            sets.push(LetterSet::try_new(digits).expect(rt, "a row in form")),
        );
    }
    sets
}

/// The line of an automaton, with its table.
pub fn line_of(rt: &impl Abort, alloc: Global, a: &Tracked) -> String {
    let mut line = String::new(alloc);
    for (name, size) in a.names().iter().zip(a.dfa().alphabet().sizes()) {
        let track = given(rt, format!(in alloc; "{}:{size} ", name.as_str()));
        given(rt, line.push_str(&track));
    }
    given(rt, line.push_str("= "));
    given(rt, line.push_str(&table_of(rt, alloc, a.dfa())));
    line
}

/// The text of a table.
pub fn table_of(rt: &impl Abort, alloc: Global, dfa: &Dfa) -> String {
    let mut text = String::new(alloc);
    let mut row = Vec::new(alloc);
    for state in 0..dfa.states() {
        given(
            rt,
            text.push_str(if dfa.accepting(state) { "/!" } else { "/" }),
        );
        given(rt, dfa.transitions_into(state, &mut row));
        add_transitions(rt, alloc, &row, &mut text);
    }
    text
}

/// The text of a table in which a state may have more transitions by one letter.
pub fn branches_of(rt: &impl Abort, alloc: Global, nfa: &Nfa) -> String {
    let mut text = String::new(alloc);
    for state in 0..nfa.states() {
        given(
            rt,
            text.push_str(if nfa.is_accepting(state) { "/!" } else { "/" }),
        );
        add_transitions(rt, alloc, nfa.transitions(state), &mut text);
    }
    text
}

// Adds transitions to the text of a table.
fn add_transitions(rt: &impl Abort, alloc: Global, transitions: &[Transition], text: &mut String) {
    for transition in transitions {
        let transition = given(
            rt,
            format!(in alloc; " {}>{}", transition.letter, transition.target),
        );
        given(rt, text.push_str(&transition));
    }
}

//! What texts give, as texts, and tables of texts with what they are to give.

use crate::given::{given, no_answer};
use crate::known_headers::headers;
use crate::long_texts::{parts_in, repeated};
use crate::macros::{MACROS, expansion, expansion_length};
use crate::outcomes::expect_text;
use crate::plans::{relations, steps};
use crate::resolution::{files_in, resolution_of, systems_in};
use crate::rules::rules_of;
use crate::text_rows::{ROW_END, last_field_of};
use crate::trees_written_out::tree_of;
use crate::truth::true_of;
use formula_parse::parse;
use formula_parse::tree::Formula;
use formula_resolve::Headers;
use morph_words::Morphism;
use std::alloc::Global;
use std::fmt::Debug;
use std::process::Abort;

/// What is asked of a text.
#[derive(Clone, Copy)]
pub(crate) enum Asked {
    Fault,
    Tree,
    Parts,
    Resolution,
    Files,
    Systems,
    Steps,
    Relations,
    /// The numbers below 6 of which it is true.
    Numbers,
    Expansion,
    ExpansionLength,
    Rules,
    RulesFault,
}

// What a text gives.
fn answer(rt: &impl Abort, alloc: Global, asked: Asked, text: &str) -> String {
    match asked {
        Asked::Fault => fault_text(rt, alloc, parse(alloc, text.as_bytes()).err()),
        Asked::Expansion => expansion(rt, alloc, MACROS, text),
        Asked::ExpansionLength => expansion_length(rt, alloc, text),
        Asked::Rules => rules_of(rt, alloc, text),
        Asked::RulesFault => fault_text(rt, alloc, Morphism::parse(alloc, text.as_bytes()).err()),
        _ => formula_answer(rt, alloc, asked, text),
    }
}

/// The name of a fault with what it keeps, or `none`.
pub(crate) fn fault_text<F: Debug + Drop>(
    rt: &impl Abort,
    alloc: Global,
    fault: Option<F>,
) -> String {
    let text = match fault {
        Some(fault) => format!(in alloc; "{fault:?}"),
        None => String::from_str(alloc, "none"),
    };
    given(rt, text)
}

// What the formula that a text is gives; after the text there may be its variables. The proof of a function that lets a formula
// go goes over all its parts, and that of a call of `drop` does not.
fn formula_answer(rt: &impl Abort, alloc: Global, asked: Asked, fields: &str) -> String {
    let (text, variables) = last_field_of(fields);
    let formula = given(rt, parse(alloc, text.as_bytes()));
    let headers = headers(rt, alloc);
    let found = match asked {
        Asked::Numbers => true_of(rt, alloc, &formula, variables),
        _ => answer_of(rt, alloc, asked, &formula, &headers),
    };
    drop(headers);
    drop(formula);
    found
}

// What a formula over the names in the rows gives.
fn answer_of(
    rt: &impl Abort,
    alloc: Global,
    asked: Asked,
    formula: &Formula,
    headers: &Headers,
) -> String {
    match asked {
        Asked::Tree => tree_of(rt, alloc, formula),
        Asked::Parts => given(rt, parts_in(formula).to_string(alloc)),
        Asked::Resolution => resolution_of(rt, alloc, formula, headers),
        Asked::Files => files_in(rt, alloc, formula),
        Asked::Systems => systems_in(rt, alloc, formula, headers),
        Asked::Steps => steps(rt, alloc, formula),
        Asked::Relations => relations(rt, alloc, formula),
        _ => no_answer(rt),
    }
}

/// Asserts that each text of a table gives its answer, which is the last field.
pub(crate) fn expect_answers(rt: &impl Abort, alloc: Global, asked: Asked, rows: &str) {
    for row in rows.split_terminator(ROW_END) {
        let (text, wanted) = last_field_of(row);
        expect_text(rt, text, &answer(rt, alloc, asked, text), wanted);
    }
}

/// Asserts that a long text has this length and gives this answer.
pub(crate) fn expect_long(rt: &impl Abort, alloc: Global, asked: Asked, text: &str, wanted: &str) {
    let found = answer(rt, alloc, asked, text);
    let found = given(rt, format!(in alloc; "{} bytes: {found}", text.len()));
    expect_text(rt, wanted, &found, wanted);
}

/// A part, how often it is, what follows once and what then follows as often; and what this text gives, after its length.
pub(crate) type Repeated = (
    &'static str,
    usize,
    &'static str,
    &'static str,
    &'static str,
);

/// Asserts that each row's text gives its answer.
pub(crate) fn expect_repeated(rt: &impl Abort, alloc: Global, asked: Asked, rows: &[Repeated]) {
    for (part, times, middle, closing, wanted) in rows {
        let text = repeated(rt, alloc, (part, *times, middle, closing));
        expect_long(rt, alloc, asked, &text, wanted);
    }
}

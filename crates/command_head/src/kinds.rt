//! Parts that have to be of one kind.
ghost use Rattle.std.specs.Prelude.{◌≡◌, ◌≢◌, ℕ, ◌-◌, List, [], length, true, false, MatchResult};
ghost use Rattle.command_head.specs.declared.fault.HeadFault.TheVariants.{Syntax};
ghost use Rattle.text_grammar.specs.declared.class.Class.TheVariants.{Blank};
ghost use Rattle.text_grammar.specs.Prefixes.{begins_in};
ghost use Rattle.text_grammar.specs.Systems.{is_system as is_system_part};
ghost use Rattle.command_head.specs.Grammar.{NamesFile};
ghost use Rattle.command_head.specs.Parts.{first_word_of, after_blanks, after_word as after_the_word, is_name as is_name_part, is_word as is_word_part, is_quoted as is_quoted_part, unquoted as inside_quotes};

use crate::bytes::place;
use crate::fault::HeadFault;
use crate::parts::{is_name, is_quoted, is_word, unquoted};
use crate::rest::{FirstPart, Rest, rest_of};
use text_grammar::{Class, is_system, prefix_len};

/// What is left after the first word of a text, which has to be this one.
pub(crate) fn after_word<'a>(word: &[u8], text: &'a [u8]) -> Result<Rest<'a>, HeadFault>
    ensures { MatchResult result
        (λ rest. (first_word_of text.now ≡ word.now) × (rest.whole ≡ length text.now) × (rest.blank ≡ begins_in Blank (after_the_word text.now)) × (rest.bytes.now ≡ after_blanks (after_the_word text.now)))
        (λ fault. (first_word_of text.now ≢ word.now) × (fault ≡ Syntax 0)) }
{
    let (first, suffix) = text.split_at(prefix_len(Class::Word, text));
    if first == word {
        Ok(rest_of(text.len(), suffix))
    } else {
        Err(HeadFault::Syntax(0))
    }
}

/// The name that a part has to be.
pub(crate) fn name_in<'a>(part: &FirstPart<'a>) -> Result<&'a [u8], HeadFault>
    ensures { MatchResult result (λ name. (name.now ≡ part.now.bytes.now) × (is_name_part part.now.bytes.now ≡ true))
        (λ fault. (is_name_part part.now.bytes.now ≡ false) × (fault ≡ Syntax part.now.at)) }
{
    if is_name(part.bytes) {
        Ok(part.bytes)
    } else {
        Err(HeadFault::Syntax(part.at))
    }
}

/// The name of a word that a part has to be.
pub(crate) fn word_in<'a>(part: &FirstPart<'a>) -> Result<&'a [u8], HeadFault>
    ensures { MatchResult result (λ word. (word.now ≡ part.now.bytes.now) × (is_word_part part.now.bytes.now ≡ true))
        (λ fault. (is_word_part part.now.bytes.now ≡ false) × (fault ≡ Syntax part.now.at)) }
{
    if is_word(part.bytes) {
        Ok(part.bytes)
    } else {
        Err(HeadFault::Syntax(part.at))
    }
}

/// The name of a system that a part has to be.
pub(crate) fn system_in<'a>(part: &FirstPart<'a>) -> Result<&'a [u8], HeadFault>
    ensures { MatchResult result (λ system. (system.now ≡ part.now.bytes.now) × (is_system_part part.now.bytes.now ≡ true))
        (λ fault. (is_system_part part.now.bytes.now ≡ false) × (fault ≡ Syntax part.now.at)) }
{
    if is_system(part.bytes) {
        Ok(part.bytes)
    } else {
        Err(HeadFault::Syntax(part.at))
    }
}

/// The name of the file that a part has to name: it may have `.txt` after it.
pub(crate) fn file_in<'a>(part: &FirstPart<'a>) -> Result<&'a [u8], HeadFault>
    ensures { MatchResult result (λ name. NamesFile part.now.bytes.now name.now)
        (λ fault. ((name : List ℕ) → NamesFile part.now.bytes.now name → ⊥) × (fault ≡ Syntax part.now.at)) }
{
    let (name, ending) = part.bytes.split_at(prefix_len(Class::NameByte, part.bytes));
    if is_name(name) && (ending.is_empty() || ending == b".txt".as_slice()) {
        Ok(name)
    } else {
        Err(HeadFault::Syntax(part.at))
    }
}

/// What is in the quotes of a part, which has to be a text in quotes.
pub(crate) fn body_in<'a>(part: &FirstPart<'a>) -> Result<&'a [u8], HeadFault>
    ensures { MatchResult result (λ body. (body.now ≡ inside_quotes part.now.bytes.now) × (is_quoted_part part.now.bytes.now ≡ true))
        (λ fault. (is_quoted_part part.now.bytes.now ≡ false) × (fault ≡ Syntax part.now.at)) }
{
    if is_quoted(part.bytes) {
        Ok(unquoted(part.bytes))
    } else {
        Err(HeadFault::Syntax(part.at))
    }
}

/// Where nothing may be left of a text.
pub(crate) fn at_end(rest: &Rest<'_>) -> Result<(), HeadFault>
    ensures { MatchResult result (λ _. rest.now.bytes.now ≡ []) (λ fault. (rest.now.bytes.now ≢ []) × (fault ≡ Syntax (rest.now.whole - length rest.now.bytes.now))) }
{
    if rest.bytes.is_empty() {
        Ok(())
    } else {
        Err(HeadFault::Syntax(place(rest.whole, rest.bytes)))
    }
}

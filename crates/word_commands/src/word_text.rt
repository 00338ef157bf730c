//! The text of a word that a command makes.

ghost use Rattle.std.specs.Prelude.{FitsSigned, MatchResult};
ghost use Rattle.std.specs.Int.{w32};
ghost use Rattle.std.specs.List.{All};
ghost use Rattle.command_parts.specs.WordPrinting.{HaveNames, IsWordTextOf, HasNoWordText, Keeps};

use command_parts::fault::Fault;
use command_parts::file_change::Made;
use command_parts::named_tracks::tracks_of;
use command_parts::printed::Printed;
use command_parts::refusal::Refusal;
use command_parts::text_refusal::TextRefusal;
use dfa_text::print_word_within;
use digit_tuple::header::Header;
use digit_tuple::name::Name;
use digit_tuple::steps::Steps;
use std::alloc::Global;
use wal_outside::TEXT_LIMIT;
use word_output::word::Word;

/// The text of a word under the names of its systems.
///
/// # Errors
/// `Long` if and only if the text has more bytes than a text may have, or `Memory`.
pub fn word_text(alloc: Global, names: &[Name], word: &Word) -> Result<Vec<u8>, Fault>
    requires { HaveNames names.now word.now.systems }
    ensures { MatchResult result (λ text. IsWordTextOf names.now word.now text.items) (HasNoWordText names.now word.now) }
{
    let function = word.function();
    let header = Header::Systems(tracks_of(alloc, names, word.systems())?);
    let outputs = function.outputs(alloc)?;
    match print_word_within(alloc, &header, function.dfa(), &outputs, TEXT_LIMIT)? {
        Some(text) => Ok(text),
        None => Err(Fault::Refused(Refusal::Text(TextRefusal::Long(TEXT_LIMIT)))),
    }
}

/// The text of a word under the names of its systems, and the lines of the steps, where they are shown.
///
/// # Errors
/// `Long` if and only if the text has more bytes than a text may have, or `Memory`.
pub fn word_made(
    alloc: Global,
    names: &[Name],
    word: &Word,
    steps: &Steps,
    shown: bool,
) -> Result<Made, Fault>
    requires { HaveNames names.now word.now.systems }
    ensures { Keeps names.now word.now shown steps.now.lines result }
{
    let stored = word_text(alloc, names, word)?;
    let printed = Printed::of_steps(alloc, steps, shown)?;
    Ok(Made { stored, printed })
}

/// The letters of a word are numbers of 32 bits, signed. It does nothing.
pub fn letters_fit(word: &Word)
    ensures { All (λ letter. FitsSigned w32 letter) word.now.function.letters }
{
    for letter in word.letters() {
        let _letter = *letter;
    }
}

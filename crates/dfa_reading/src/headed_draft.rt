//! What was read of the file of a user's system so far.

ghost use Rattle.std.specs.Prelude.{◌≡◌, IsTrue, ◌↔◌, pos, option_map};
ghost use Rattle.digit_tuple.specs.Systems.{digit_set};
ghost use Rattle.dfa_reading.specs.HeaderViews.{header_view};
ghost use Rattle.dfa_reading.specs.SystemFiles.{is_same_set, is_headed, may_head, is_language_header, is_adder_header};

use crate::draft::Draft;
use crate::fault::FileFault;
use crate::header::FileHeader;
use crate::line_reader::LineReader;
use crate::listed::Listed;
use crate::outputs::Outputs;
use crate::system_part::SystemPart;
use digit_tuple::faults::OutOfMemory;
use digit_tuple::letter_set::LetterSet;
use std::alloc::Global;

/// What was read, and which file it is of.
#[derive(Drop)]
pub struct HeadedDraft {
    pub draft: Draft,
    pub part: SystemPart,
}

impl HeadedDraft {
    ghost use Rattle.std.specs.Prelude.{◌≡◌};
    ghost use Rattle.dfa_reading.specs.Reading.{no_draft};
    ghost use Rattle.dfa_reading.specs.DraftViews.{draft_view};
    ghost use Rattle.dfa_reading.specs.HeadedDrafts.{IsHeadedReader};

    /// Nothing was read.
    pub fn new(alloc: Global, part: SystemPart) -> HeadedDraft
        ensures draft { draft_view result.draft ≡ no_draft }
        ensures part { result.part ≡ part }
        ensures reader { IsHeadedReader result }
    {
        HeadedDraft {
            draft: Draft::new(alloc),
            part,
        }
    }
}

impl LineReader for HeadedDraft {
    ghost use Rattle.dfa_reading.specs.DraftViews.{draft_view};
    ghost use Rattle.dfa_reading.specs.SystemFiles.{add_headed_line, may_head};
    ghost use Rattle.dfa_reading.specs.HeadedDrafts.{IsHeadedReader};

    ghost was_read = { λ d. draft_view d.draft };

    ghost adds = { λ d. add_headed_line (may_head d.part) };

    ghost is_prefix = { IsHeadedReader };

    fn add_line(&mut self, alloc: Global, at: u64, line: &[u8]) -> Result<bool, OutOfMemory> {
        let headed = self.draft.header.is_some();
        if !self.draft.add_line(alloc, Outputs::Numbers, at, line)? {
            return Ok(false);
        }
        Ok(headed || heads(self.part, &self.draft.header))
    }

    fn finish(self, alloc: Global, after: u64) -> Result<Listed, FileFault> {
        self.draft.finish(alloc, after)
    }
}

// Whether the header, if there is one, is that of such a file.
fn heads(part: SystemPart, header: &Option<FileHeader>) -> bool
    ensures { result ≡ is_headed (may_head part) (option_map header_view header.now) }
{
    match header {
        None => true,
        Some(header) => match part {
            SystemPart::Language => heads_language(header),
            SystemPart::Adder(digits) => heads_adder(digits, header),
        },
    }
}

// Whether the header is one track of digits from 0 on.
fn heads_language(header: &FileHeader) -> bool
    ensures { result ≡ is_language_header (header_view header.now) }
{
    let FileHeader::Sets(sets) = header else {
        return false;
    };
    match sets.as_slice() {
        [set] => is_digits(set, set.len()),
        _ => false,
    }
}

// Whether the header is three tracks of so many digits from 0 on.
fn heads_adder(digits: u32, header: &FileHeader) -> bool
    ensures { result ≡ is_adder_header digits (header_view header.now) }
{
    let FileHeader::Sets(sets) = header else {
        return false;
    };
    sets.as_slice().iter().all(|set| is_digits(set, digits)) && sets.len() == 3
}

// Whether the set has so many digits from 0 on, and no other member.
fn is_digits(set: &LetterSet, digits: u32) -> bool
    ensures { result ≡ is_same_set set.now (digit_set digits) }
{
    if set.len() != digits {
        return false;
    }
    let members = set.members();
    for (place, member) in members.iter().enumerate() {
        if !is_number(*member, place) {
            return false;
        }
    }
    true
}

// Whether the member is this number.
fn is_number(member: i32, number: usize) -> bool
    ensures { IsTrue result ↔ (member ≡ pos number) }
{
    member >= 0 && member as usize == number
}

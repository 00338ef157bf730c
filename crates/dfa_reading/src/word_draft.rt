//! What was read of a word's file so far.

ghost use Rattle.std.specs.Prelude.{◌≡◌, length, nat_lt, slice_get, IfOk, OnOk, IsTrue, option_map};
ghost use Rattle.dfa_reading.specs.Reading.{no_draft};
ghost use Rattle.dfa_reading.specs.WordFiles.{are_of_systems};
ghost use Rattle.dfa_reading.specs.HeaderViews.{header_view};
ghost use Rattle.dfa_reading.specs.DraftViews.{draft_lines_in, draft_view};
ghost use Rattle.dfa_reading.specs.Transitions.{transitions_in, AreIndexed};
ghost use Rattle.dfa_reading.specs.WordDrafts.{IsReader, after_line, agrees_line};

use crate::draft::Draft;
use crate::fault::FileFault;
use crate::header::FileHeader;
use crate::line_reader::LineReader;
use crate::listed::Listed;
use crate::outputs::Outputs;
use crate::transitions::Transitions;
use digit_tuple::faults::OutOfMemory;
use std::alloc::Global;

/// What was read, and the transitions of the state that was listed last.
#[derive(Drop)]
pub struct WordDraft {
    pub draft: Draft,
    pub last: Transitions,
}

impl WordDraft {
    /// Nothing was read.
    pub fn new(alloc: Global) -> WordDraft
        ensures draft { draft_view result.draft ≡ no_draft }
        ensures reader { IsReader result }
    {
        WordDraft {
            draft: Draft::new(alloc),
            last: Transitions::new(alloc),
        }
    }

    // Brings the transitions of the last state up to what was read, where before the line there were so many states and lines of
    // transitions, and says whether those of the line agree with the others.
    fn note_line(&mut self, alloc: Global, states: usize, lines: usize) -> Result<bool, OutOfMemory>
        requires { AreIndexed (transitions_in self.old.last.list.items) self.old.last.tables.items }
        ensures draft { OnOk result (self.new.draft ≡ self.old.draft) }
        ensures agrees { IfOk result (λ agrees. agrees ≡ agrees_line (nat_lt states (length self.old.draft.outputs.items)) (slice_get (draft_lines_in self.old.draft.lines.items) lines) (transitions_in self.old.last.list.items)) }
        ensures list { IfOk result (λ agrees. IsTrue agrees → transitions_in self.new.last.list.items ≡ after_line (nat_lt states (length self.old.draft.outputs.items)) (slice_get (draft_lines_in self.old.draft.lines.items) lines) (transitions_in self.old.last.list.items)) }
        ensures indexed { IfOk result (λ agrees. IsTrue agrees → AreIndexed (transitions_in self.new.last.list.items) self.new.last.tables.items) }
    {
        if states < self.draft.outputs.len() {
            self.last = Transitions::new(alloc);
            return Ok(true);
        }
        match self.draft.lines.get(lines) {
            None => Ok(true),
            Some(line) => self.last.add_all(alloc, &line.digits, &line.targets),
        }
    }
}

impl LineReader for WordDraft {
    ghost use Rattle.dfa_reading.specs.DraftViews.{draft_view};
    ghost use Rattle.dfa_reading.specs.WordFiles.{add_word_line};
    ghost use Rattle.dfa_reading.specs.WordDrafts.{IsReader};

    ghost was_read = { λ d. draft_view d.draft };

    ghost adds = { λ _. add_word_line };

    ghost is_prefix = { IsReader };

    /// Adds a line, and says whether it has the format's form there and leads by no tuple elsewhere than the lines before it.
    #[tactic(auto, unfolding(crate::specs::WordFiles::add_word_line))]
    fn add_line(&mut self, alloc: Global, at: u64, line: &[u8]) -> Result<bool, OutOfMemory> {
        let states = self.draft.outputs.len();
        let lines = self.draft.lines.len();
        if !self.draft.add_line(alloc, Outputs::Letters, at, line)? {
            return Ok(false);
        }
        if !are_systems(&self.draft.header) {
            return Ok(false);
        }
        Ok(self.note_line(alloc, states, lines)?)
    }

    fn finish(self, alloc: Global, after: u64) -> Result<Listed, FileFault> {
        self.draft.finish(alloc, after)
    }
}

// Whether the tracks that were read, if any, are of systems.
fn are_systems(header: &Option<FileHeader>) -> bool
    ensures { result ≡ are_of_systems (option_map header_view header.now) }
{
    match header {
        None => true,
        Some(FileHeader::Systems(_)) => true,
        Some(FileHeader::Truth(_)) => false,
        Some(FileHeader::Sets(_)) => false,
    }
}

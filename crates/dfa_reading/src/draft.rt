//! What was read of a file so far.

ghost use Rattle.std.specs.Prelude.{◌≡◌, None, Some, if◌then◌else◌, IfOk, MatchResult, option_map};
ghost use Rattle.dfa_reading.specs.Reading.{no_draft, with_header, add_entry as entry_added, add_line as line_added, state_at as place_of_state, placed_line as line_placed, placed_lines as lines_placed, finish as finished, IsDraft};
ghost use Rattle.dfa_reading.specs.Lines.{each_of};
ghost use Rattle.dfa_reading.specs.Headers.{header_of};
ghost use Rattle.dfa_reading.specs.LineViews.{line_view, lines_in};
ghost use Rattle.dfa_reading.specs.EntryViews.{entry_view};
ghost use Rattle.dfa_reading.specs.DraftViews.{Gives, draft_line_view, draft_lines_in, draft_view};

use crate::fault::FileFault;
use crate::header::FileHeader;
use crate::line_reader::LineReader;
use crate::listed::{Listed, ListedLine};
use crate::outputs::Outputs;
use crate::read_entries::{Entry, read_entry};
use crate::read_header::header;
use crate::read_lines::is_passed;
use digit_tuple::faults::OutOfMemory;
use indexmap::IndexSet;
use std::alloc::Global;

/// Transitions of a state, by its place, at a line, to states by their numbers.
#[derive(Drop)]
pub struct DraftLine {
    pub at: u64,
    pub state: usize,
    pub digits: Vec<Option<u32>>,
    pub targets: Vec<u32>,
}

/// The header, the numbers and the outputs of the states, and the transitions that were read.
#[derive(Drop)]
pub struct Draft {
    pub header: Option<FileHeader>,
    pub numbers: IndexSet<u32>,
    pub outputs: Vec<Option<i32>>,
    pub lines: Vec<DraftLine>,
}

impl Draft {
    /// Nothing was read.
    pub fn new(alloc: Global) -> Draft
        ensures { draft_view result ≡ no_draft }
    {
        Draft {
            header: None,
            numbers: IndexSet::new(alloc),
            outputs: Vec::new(alloc),
            lines: Vec::new(alloc),
        }
    }

    /// Adds a line, and says whether it has the form of a format with these outputs there.
    #[tactic(auto, unfolding(crate::specs::Reading::add_line))]
    pub fn add_line(
        &mut self,
        alloc: Global,
        outputs: Outputs,
        at: u64,
        line: &[u8],
    ) -> Result<bool, OutOfMemory>
        ensures { IfOk result (λ added. (if added then Some (draft_view self.new) else None) ≡ line_added outputs at (draft_view self.old) line.now) }
    {
        if is_passed(line) {
            return Ok(true);
        }
        let Some(header) = &self.header else {
            return self.add_header(alloc, line);
        };
        if !header.has_states() {
            return Ok(false);
        }
        match read_entry(alloc, header, outputs, line)? {
            None => Ok(false),
            Some(entry) => self.add_entry(at, entry),
        }
    }

    fn add_header(&mut self, alloc: Global, line: &[u8]) -> Result<bool, OutOfMemory>
        ensures { IfOk result (λ added. (if added then Some (draft_view self.new) else None) ≡ option_map (with_header (draft_view self.old)) (header_of line.now)) }
    {
        match header(alloc, line)? {
            None => Ok(false),
            Some(header) => {
                self.header = Some(header);
                Ok(true)
            }
        }
    }

    fn add_entry(&mut self, at: u64, entry: Entry) -> Result<bool, OutOfMemory>
        ensures { IfOk result (λ added. (if added then Some (draft_view self.new) else None) ≡ entry_added at (draft_view self.old) (entry_view entry)) }
    {
        match entry {
            Entry::State(number, output) => {
                let (_, added) = self.numbers.insert_full(number)?;
                if !added {
                    return Ok(false);
                }
                self.outputs.push(output)?;
                Ok(true)
            }
            Entry::Line(digits, targets) => {
                if self.outputs.is_empty() {
                    return Ok(false);
                }
                let state = self.outputs.len() - 1;
                self.lines.push(DraftLine {
                    at,
                    state,
                    digits,
                    targets,
                })?;
                Ok(true)
            }
        }
    }

    /// What the file lists, if it has a header, a state where it needs one, and each target is a state; `after` is the number of
    /// the line after the last.
    pub fn finish(self, alloc: Global, after: u64) -> Result<Listed, FileFault>
        requires { IsDraft (draft_view self) }
        ensures { Gives (λ listed. listed) result (finished after (draft_view self)) }
    {
        let Draft {
            header,
            numbers,
            outputs,
            lines,
        } = self;
        let Some(header) = header else {
            return Err(FileFault::File(after));
        };
        if header.has_states() && outputs.is_empty() {
            return Err(FileFault::File(after));
        }
        let lines = placed_lines(alloc, &numbers, lines)?;
        Ok(Listed::new(header, outputs, lines))
    }
}

impl LineReader for Draft {
    ghost use Rattle.dfa_reading.specs.Reading.{add_line, IsDraft};
    ghost use Rattle.dfa_reading.specs.declared.outputs.Outputs.TheVariants.{Numbers};
    ghost use Rattle.dfa_reading.specs.DraftViews.{draft_view};

    ghost was_read = { draft_view };

    ghost adds = { λ _. add_line Numbers };

    ghost is_prefix = { λ d. IsDraft (draft_view d) };

    fn add_line(&mut self, alloc: Global, at: u64, line: &[u8]) -> Result<bool, OutOfMemory> {
        Draft::add_line(self, alloc, Outputs::Numbers, at, line)
    }

    fn finish(self, alloc: Global, after: u64) -> Result<Listed, FileFault> {
        Draft::finish(self, alloc, after)
    }
}

// The lines with their targets by their places.
fn placed_lines(
    alloc: Global,
    numbers: &IndexSet<u32>,
    lines: Vec<DraftLine>,
) -> Result<Vec<ListedLine>, FileFault>
    ensures { Gives (λ placed. lines_in placed.items) result (lines_placed numbers.now.keys (draft_lines_in lines.items)) }
{
    let mut placed = Vec::new(alloc);
    for line in lines {
        let at = line.at;
        match placed_line(alloc, numbers, line)? {
            None => return Err(FileFault::File(at)),
            Some(line) => placed.push(line)?,
        }
    }
    Ok(placed)
}

// A line with its targets by their places, if each is a state.
fn placed_line(
    alloc: Global,
    numbers: &IndexSet<u32>,
    line: DraftLine,
) -> Result<Option<ListedLine>, OutOfMemory>
    ensures { IfOk result (λ placed. option_map line_view placed ≡ line_placed numbers.now.keys (draft_line_view line).1) }
{
    let DraftLine {
        at: _,
        state,
        digits,
        targets,
    } = line;
    match places(alloc, numbers, &targets)? {
        None => Ok(None),
        Some(targets) => Ok(Some(ListedLine {
            state,
            digits,
            targets,
        })),
    }
}

// The places of the states of these numbers, if each is a state.
fn places(
    alloc: Global,
    numbers: &IndexSet<u32>,
    targets: &[u32],
) -> Result<Option<Vec<usize>>, OutOfMemory>
    ensures { IfOk result (λ places. option_map (λ v. v.items) places ≡ each_of (place_of_state numbers.now.keys) targets.now) }
{
    let mut places = Vec::with_capacity(alloc, targets.len())?;
    for target in targets {
        match numbers.get_index_of(target) {
            None => return Ok(None),
            Some(place) => places.push(place)?,
        }
    }
    Ok(Some(places))
}

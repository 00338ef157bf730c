//! What was read of a transducer's file so far.

ghost use Rattle.std.specs.Prelude.{◌≡◌, None, Some, if◌then◌else◌, IfOk, IsTrue, option_map};
ghost use Rattle.dfa_reading.specs.DraftViews.{Gives};
ghost use Rattle.dfa_reading.specs.Reading.{has_number};
ghost use Rattle.transducer_reading.specs.Entries.{set_of, Line};
ghost use Rattle.transducer_reading.specs.Reading.{no_draft, with_set, with_state, add_entry as entry_added, add_line as line_added, placed_line as line_placed, placed_lines as lines_placed, finish as finished};
ghost use Rattle.transducer_reading.specs.Drafts.{draft_view, IsReading, IsLastKept};

use crate::read_entry::{Entry, read_entry};
use crate::read_lines::is_passed;
use crate::read_set::read_set;
use crate::results::Results;
use crate::transducer::{Transducer, TransducerLine};
use dfa_reading::FileFault;
use digit_tuple::faults::OutOfMemory;
use digit_tuple::letter_set::LetterSet;
use indexmap::IndexSet;
use std::alloc::Global;

/// The set, the numbers of the states, and the lines of states, each with the number of its line in the file and with its target by
/// its number; which line is the first of the state that was listed last, and the results of this state's lines.
#[derive(Drop)]
pub struct Draft {
    pub set: Option<LetterSet>,
    pub numbers: IndexSet<usize>,
    pub lines: Vec<(u64, TransducerLine)>,
    pub first: usize,
    pub results: Results,
}

impl Draft {
    /// Nothing was read.
    pub fn new(alloc: Global) -> Draft
        ensures draft { draft_view result ≡ no_draft }
        ensures reading { IsReading result }
    {
        Draft {
            set: None,
            numbers: IndexSet::new(alloc),
            lines: Vec::new(alloc),
            first: 0,
            results: Results::new(alloc),
        }
    }

    /// Adds a line of the file, and says whether it has the format there.
    #[tactic(auto, unfolding(crate::specs::Reading::add_line))]
    pub fn add_line(&mut self, alloc: Global, at: u64, line: &[u8]) -> Result<bool, OutOfMemory>
        requires { IsReading self.old }
        ensures added { IfOk result (λ added. (if added then Some (draft_view self.new) else None) ≡ line_added at (draft_view self.old) line.now) }
        ensures reading { IfOk result (λ added. IsTrue added → IsReading self.new) }
    {
        if is_passed(line) {
            return Ok(true);
        }
        let Some(set) = &self.set else {
            return self.add_set(alloc, line);
        };
        match read_entry(set, line) {
            None => Ok(false),
            Some(Entry::State(number)) => self.add_state(alloc, number),
            Some(Entry::Line(letter, target, output)) => {
                self.add_last(at, letter, target, output)
            }
        }
    }

    // Adds the set.
    fn add_set(&mut self, alloc: Global, line: &[u8]) -> Result<bool, OutOfMemory>
        requires { IsReading self.old }
        ensures added { IfOk result (λ added. (if added then Some (draft_view self.new) else None) ≡ option_map (with_set (draft_view self.old)) (set_of line.now)) }
        ensures last { IfOk result (λ added. IsTrue added → IsLastKept self.new) }
    {
        match read_set(alloc, line)? {
            None => Ok(false),
            Some(set) => {
                self.set = Some(set);
                Ok(true)
            }
        }
    }

    // Adds a state, if its number is new.
    fn add_state(&mut self, alloc: Global, number: usize) -> Result<bool, OutOfMemory>
        requires { IsReading self.old }
        ensures added { IfOk result (λ added. (if added then Some (draft_view self.new) else None) ≡ (if has_number self.old.numbers.keys number then None else Some (with_state (draft_view self.old) number))) }
        ensures last { IfOk result (λ added. IsTrue added → IsLastKept self.new) }
    {
        let (_, added) = self.numbers.insert_full(number)?;
        if !added {
            return Ok(false);
        }
        self.first = self.lines.len();
        self.results = Results::new(alloc);
        Ok(true)
    }

    // Adds a line of the state that was listed last, if there is one and the line is in no conflict with another.
    fn add_last(
        &mut self,
        at: u64,
        letter: Option<i32>,
        target: usize,
        output: i32,
    ) -> Result<bool, OutOfMemory>
        requires { IsReading self.old }
        ensures added { IfOk result (λ added. (if added then Some (draft_view self.new) else None) ≡ entry_added at (draft_view self.old) (Line letter (target, output))) }
        ensures last { IfOk result (λ added. IsTrue added → IsLastKept self.new) }
    {
        if self.numbers.is_empty() {
            return Ok(false);
        }
        let line = TransducerLine {
            state: self.numbers.len() - 1,
            letter,
            target,
            output,
        };
        if self.results.clash(&self.lines[self.first..], line) {
            return Ok(false);
        }
        self.results.add(line)?;
        self.lines.push((at, line))?;
        Ok(true)
    }

    /// The transducer, if there is a set and a state, and each target is a state; `after` is the number of the line after the last.
    pub fn finish(self, alloc: Global, after: u64) -> Result<Transducer, FileFault>
        requires { IsReading self }
        ensures { Gives (λ t. t) result (finished after (draft_view self)) }
    {
        let Draft {
            set,
            numbers,
            lines,
            first: _,
            results: _,
        } = self;
        let Some(set) = set else {
            return Err(FileFault::File(after));
        };
        if numbers.is_empty() {
            return Err(FileFault::File(after));
        }
        let lines = placed_lines(alloc, &numbers, &lines)?;
        Ok(Transducer::new(set, numbers.len(), lines))
    }
}

// The lines with their targets by their places.
fn placed_lines(
    alloc: Global,
    numbers: &IndexSet<usize>,
    lines: &[(u64, TransducerLine)],
) -> Result<Vec<TransducerLine>, FileFault>
    ensures { Gives (λ placed. placed.items) result (lines_placed numbers.now.keys lines.now) }
{
    let mut placed = Vec::with_capacity(alloc, lines.len())?;
    for entry in lines {
        let (at, line) = *entry;
        match placed_line(numbers, line) {
            None => return Err(FileFault::File(at)),
            Some(line) => placed.push(line)?,
        }
    }
    Ok(placed)
}

// A line with its target by its place, if it is a state.
fn placed_line(numbers: &IndexSet<usize>, line: TransducerLine) -> Option<TransducerLine>
    ensures { result ≡ line_placed numbers.now.keys line }
{
    let target = numbers.get_index_of(&line.target)?;
    Some(TransducerLine { target, ..line })
}

//! Files, read line by line. The time is in proportion to the bytes, with a look-up by hash for each number of a state.

ghost use Rattle.std.specs.Prelude.{◌≡◌, ◌<◌, ◌^◌, length};
ghost use Rattle.dfa_reading.specs.Lines.{lines_of, line_after};
ghost use Rattle.dfa_reading.specs.Reading.{no_draft, add_lines_by, then_read, finish, relation_of};
ghost use Rattle.dfa_reading.specs.WordFiles.{word_of};
ghost use Rattle.dfa_reading.specs.SystemFiles.{part_of};
ghost use Rattle.dfa_reading.specs.DraftViews.{Gives};

use crate::draft::Draft;
use crate::fault::FileFault;
use crate::headed_draft::HeadedDraft;
use crate::line_reader::LineReader;
use crate::listed::Listed;
use crate::read_lines::cut_at;
use crate::system_part::SystemPart;
use crate::word_draft::WordDraft;
use std::alloc::Global;

/// What a relation's file lists.
///
/// # Errors
/// `File` names the line of the first fault, counted from one: the first line that breaks the format, and where there is none,
/// that of the first transition with a target that is no state; a file that ends too early has the line after its last. Out of
/// memory gives nothing. No slice of bytes is as long as the condition forbids.
#[tactic(auto, unfolding(crate::specs::Reading::relation_of))]
pub fn read_relation(alloc: Global, text: &[u8]) -> Result<Listed, FileFault>
    requires { length text.now < 2 ^ 63 }
    ensures { Gives (λ listed. listed) result (relation_of text.now) }
{
    read_lines(alloc, Draft::new(alloc), text)
}

/// What the file of an automatic word lists: the output of a state is its letter, or `-` for none. The tracks are of systems, and from a state a
/// tuple leads to one state at most. Each line of transitions takes two look-ups by hash for each set of tracks on which lines of
/// its state have `*`, so the time is in proportion to the bytes and the number of these sets, which is 1 where there is no `*`.
///
/// # Errors
/// `File` names the line of the first fault, counted from one: the first line that breaks the format, and where there is none,
/// that of the first transition with a target that is no state; a file that ends too early has the line after its last. A line of
/// transitions by which, with those before it, a tuple leads from its state to two states breaks the format, be its digits below
/// the number of the system's digits or not. Out of memory gives nothing. No slice of bytes is as long as the condition forbids.
#[tactic(auto, unfolding(crate::specs::WordFiles::word_of))]
pub fn read_word(alloc: Global, text: &[u8]) -> Result<Listed, FileFault>
    requires { length text.now < 2 ^ 63 }
    ensures { Gives (λ listed. listed) result (word_of text.now) }
{
    read_lines(alloc, WordDraft::new(alloc), text)
}

/// What the file of this part of a user's system lists.
///
/// # Errors
/// `File` names the line of the first fault, counted from one, as for a relation's file; a header that this part may not have
/// breaks the format. Out of memory gives nothing. No slice of bytes is as long as the condition forbids.
#[tactic(auto, unfolding(crate::specs::SystemFiles::language_of, crate::specs::SystemFiles::adder_of))]
pub fn read_system(alloc: Global, part: SystemPart, text: &[u8]) -> Result<Listed, FileFault>
    requires { length text.now < 2 ^ 63 }
    ensures { Gives (λ listed. listed) result (part_of part text.now) }
{
    read_lines(alloc, HeadedDraft::new(alloc, part), text)
}

// What a file lists, line by line in the format of a reader that has read nothing.
fn read_lines<R: LineReader>(alloc: Global, mut reader: R, text: &[u8]) -> Result<Listed, FileFault>
    requires length { length text.now < 2 ^ 63 }
    requires nothing { R.was_read reader ≡ no_draft }
    requires prefix { R.is_prefix reader }
    ensures { Gives (λ listed. listed) result (then_read (add_lines_by (R.adds reader) 1 no_draft (lines_of text.now)) (finish (line_after (lines_of text.now)))) }
{
    let mut rest = text;
    let mut at: u64 = 1;
    'lines: loop {
        let (line, others) = cut_at(b'\n', rest);
        if !reader.add_line(alloc, at, line)? {
            return Err(FileFault::File(at));
        }
        let Some(next) = others else {
            let after = if line.is_empty() { at } else { at + 1 };
            return reader.finish(alloc, after);
        };
        rest = next;
        at += 1;
    }
}

//! Letters by which pairs of states lead to dead ones.

ghost use Rattle.std.specs.Prelude.{◌≡◌, ◌<◌, ℕ, length, IfOk, MatchOption};
ghost use Rattle.std.specs.List.{All, Contains};
ghost use Rattle.product_op.specs.DeadExits.{IsReaderAt, LeadsOut};
ghost use Rattle.product_op.specs.Readings.{part_read, reading_in};

use crate::reader::Reader;
use crate::reader_at::ReaderAt;
use digit_tuple::faults::OutOfMemory;

/// The first letter with a part of the one reader that leads the other to its sink, if there is one. The letters are
/// written over.
pub fn exit_beside(
    own: &Reader<'_>,
    part: u32,
    other: &ReaderAt<'_>,
    letters: &mut Vec<u32>,
) -> Result<Option<u32>, OutOfMemory>
    requires parts { length own.now.parts ≡ length other.now.reader.now.parts }
    requires other { IsReaderAt other.now }
    ensures { IfOk result (λ found. MatchOption found
        ((a : ℕ) → a < length own.now.parts → part_read (reading_in own.now) a ≡ part → ¬ LeadsOut (reading_in other.now.reader.now) other.now.state a)
        (λ a. (a < length own.now.parts) × (part_read (reading_in own.now) a ≡ part) × LeadsOut (reading_in other.now.reader.now) other.now.state a)) }
{
    letters.clear();
    own.parts.add_letters(part, letters)?;
    Ok(first_exit(other, letters))
}

// The first of the letters that leads the reader to its sink.
fn first_exit(at: &ReaderAt<'_>, letters: &[u32]) -> Option<u32>
    requires at { IsReaderAt at.now }
    requires letters { All (λ a. a < length at.now.reader.now.parts) letters.now }
    ensures { MatchOption result (All (λ a. ¬ LeadsOut (reading_in at.now.reader.now) at.now.state a) letters.now) (λ a. Contains letters.now a × LeadsOut (reading_in at.now.reader.now) at.now.state a) }
{
    for letter in letters {
        if at.leads_out(*letter) {
            return Some(*letter);
        }
    }
    None
}

/// The first letter that leads both readers to their sinks, if there is one.
pub fn common_exit(first: &ReaderAt<'_>, second: &ReaderAt<'_>, letters: u32) -> Option<u32>
    requires first { IsReaderAt first.now }
    requires second { IsReaderAt second.now }
    requires first_count { length first.now.reader.now.parts ≡ letters }
    requires second_count { length second.now.reader.now.parts ≡ letters }
    ensures { MatchOption result ((a : ℕ) → a < letters → ¬ (LeadsOut (reading_in first.now.reader.now) first.now.state a × LeadsOut (reading_in second.now.reader.now) second.now.state a))
        (λ a. (a < letters) × LeadsOut (reading_in first.now.reader.now) first.now.state a × LeadsOut (reading_in second.now.reader.now) second.now.state a) }
{
    if first.leads_on || second.leads_on {
        return None;
    }
    for letter in 0..letters {
        if first.leads_out(letter) && second.leads_out(letter) {
            return Some(letter);
        }
    }
    None
}

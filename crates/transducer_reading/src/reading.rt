//! A file, read line by line. The time is in proportion to the bytes, with two look-ups by hash for each line of a state, and one
//! for each number of a state.

ghost use Rattle.std.specs.Prelude.{◌<◌, ◌^◌, length};
ghost use Rattle.dfa_reading.specs.DraftViews.{Gives};
ghost use Rattle.transducer_reading.specs.Reading.{transducer_of};

use crate::draft::Draft;
use crate::read_lines::cut_at;
use crate::transducer::Transducer;
use dfa_reading::FileFault;
use std::alloc::Global;

/// The transducer of a text.
///
/// # Errors
/// `File` names the line of the first fault, counted from one: the first line that breaks the format, and where there is none,
/// that of the first line of a state with a target that is no state; a file that ends too early has the line after its last. A line by
/// which, with one before it, some letter has two different results from one state breaks the format. Out of memory gives nothing. No
/// slice of bytes is as long as the condition forbids.
#[tactic(auto, unfolding(crate::specs::Reading::transducer_of))]
pub fn read_transducer(alloc: Global, text: &[u8]) -> Result<Transducer, FileFault>
    requires { length text.now < 2 ^ 63 }
    ensures { Gives (λ t. t) result (transducer_of text.now) }
{
    let mut draft = Draft::new(alloc);
    let mut rest = text;
    let mut at: u64 = 1;
    'lines: loop {
        let (line, others) = cut_at(b'\n', rest);
        if !draft.add_line(alloc, at, line)? {
            return Err(FileFault::File(at));
        }
        let Some(next) = others else {
            let after = if line.is_empty() { at } else { at + 1 };
            return draft.finish(alloc, after);
        };
        rest = next;
        at += 1;
    }
}

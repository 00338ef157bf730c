ghost use Rattle.std.specs.Prelude.{map, string_bytes};
ghost use Rattle.command_line.specs.WordReading.{ReadsOptions};

use crate::numbers::{limit_in, number_in};
use crate::words::{WordsFault, names_of};
use std::alloc::Global;

/// What the words of the command line give.
#[derive(Clone, Copy)]
pub struct Options {
    /// The most values that a step may have: from 16 to 1,000,000, by `--states N`, and 100,000 without it.
    pub limit: u32,
    /// Whether the run ends at the first refused command: by `--stop`.
    pub stop: bool,
    /// The seed of the generated script that is to run: by `--make SEED`.
    pub seed: Option<u64>,
}

/// The most values of a step where the words name none.
const DEFAULT_LIMIT: u32 = 100_000;

/// What the words of the command line give: the program's name, and the options `--states N`, `--stop` and `--make SEED`, each once or
/// not at all, in any order, a value in a word of its own or after `=`. A last word may be `--`. Numbers are decimal digits without
/// a sign or a leading zero. Time and memory follow the words.
///
/// # Errors
/// `Refused` where the words give no options, or `Memory`.
pub fn options_of(alloc: Global, words: &[String]) -> Result<Options, WordsFault>
    ensures { ReadsOptions (map string_bytes words.now) result }
{
    let named = names_of(alloc, words)?;
    let limit = match named.limit {
        None => DEFAULT_LIMIT,
        Some(text) => limit_in(text).ok_or(WordsFault::Refused)?,
    };
    let seed = match named.seed {
        None => None,
        Some(text) => Some(number_in(text).ok_or(WordsFault::Refused)?),
    };
    Ok(Options {
        limit,
        stop: named.stop,
        seed,
    })
}

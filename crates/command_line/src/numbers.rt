ghost use Rattle.command_line.specs.WordReading.{ReadsLimit, ReadsNumber};

use itoa::Buffer;

/// The least limit that the words may name, and the greatest.
const LEAST: u64 = 16;

const GREATEST: u64 = 1_000_000;

/// The number that a text is, in decimal without a sign or a leading zero.
pub(crate) fn number_in(text: &str) -> Option<u64>
    ensures { ReadsNumber text.now result }
{
    let Ok(number) = text.parse::<u64>() else {
        return None;
    };
    let mut buffer = Buffer::new();
    if buffer.format(number) == text {
        Some(number)
    } else {
        None
    }
}

/// The limit that a text denotes: a number of the range.
pub(crate) fn limit_in(text: &str) -> Option<u32>
    ensures { ReadsLimit text.now result }
{
    let number = number_in(text)?;
    if LEAST <= number && number <= GREATEST {
        Some(number as u32)
    } else {
        None
    }
}

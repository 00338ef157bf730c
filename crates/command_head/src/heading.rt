ghost use Rattle.std.specs.Prelude.{◌≡◌, ◌<◌, ◌^◌, length, IfOk};
ghost use Rattle.command_head.specs.Readings.{Reads};
ghost use Rattle.command_head.specs.Parts.{first_word_of};
ghost use Rattle.command_head.specs.Heads.{reg_at};
ghost use Rattle.command_head.specs.HeadViews.{alphabets_of, head_view};
ghost use Rattle.command_head.specs.Formed.{AreFormed};

use crate::fault::HeadFault;
use crate::head::RegParts;
use crate::rest::rest_of;
use crate::stage::Stage;
use std::alloc::Global;
use text_grammar::{Class, prefix_len};

/// The first word of a command: its longest prefix without a blank or a quote.
pub fn first_word(text: &[u8]) -> &[u8]
    ensures { result.now ≡ first_word_of text.now }
{
    &text[..prefix_len(Class::Word, text)]
}

/// The parts of a `reg`: `reg NAME {a,b,..} .. "R"` with a set for each track, or `reg NAME SYSTEM .. "R"` with a
/// system for each track. Blanks may be between the parts, and in the braces beside each number and comma. The text is
/// shorter than 2^32 bytes. `Syntax` gives the first byte of the first part that no form continues, or the text's
/// length where it ends too early; `Number` that of a number that does not fit 32 bits, signed. The first such part
/// decides.
#[tactic(auto, unfolding(crate::specs::Heads::reg_at))]
pub fn reg_parts(alloc: Global, text: &[u8]) -> Result<RegParts<'_>, HeadFault>
    requires { length text.now < 2 ^ 32 }
    ensures read { Reads head_view result (reg_at text.now) }
    // There is a track at least. Each set has a member at least, and fewer than the text has bytes, in ascending order;
    // each system has a name of ASCII letters and digits after `msd_` or `lsd_`.
    ensures formed { IfOk result (λ parts. AreFormed (length text.now) (alphabets_of parts.alphabets)) }
{
    let whole = text.len();
    let (word, suffix) = text.split_at(prefix_len(Class::Word, text));
    let mut stage = Stage::AtWord.step(alloc, 0, word)?;
    let mut rest = rest_of(whole, suffix);
    'parts: while !rest.bytes.is_empty() {
        let part = rest.first_part();
        stage = stage.step(alloc, part.at, part.bytes)?;
        rest = part.rest;
    }
    stage.end(whole)
}

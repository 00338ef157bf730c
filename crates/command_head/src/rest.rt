//! The parts of a text, one after another.
ghost use Rattle.std.specs.Prelude.{◌≡◌, ◌-◌, length, take};
ghost use Rattle.text_grammar.specs.declared.class.Class.TheVariants.{Blank};
ghost use Rattle.text_grammar.specs.Prefixes.{begins_in as first_in_class};
ghost use Rattle.command_head.specs.Parts.{after_blanks as rest_after_blanks, after_first, first_in as part_in, part_len as len_of_part};

use crate::bytes::{after_blanks, place};
use crate::parts::part_len;
use text_grammar::{Class, begins_in};

/// What is left of a text after some of its parts, and after the blanks after them.
#[derive(Clone, Copy)]
pub(crate) struct Rest<'a> {
    /// How many bytes the text has.
    pub(crate) whole: usize,
    /// Whether a blank is directly before what is left.
    pub(crate) blank: bool,
    /// The bytes that are left.
    pub(crate) bytes: &'a [u8],
}

/// The part that comes first in what is left of a text.
#[derive(Clone, Copy)]
pub(crate) struct FirstPart<'a> {
    /// The byte at which it begins; the text's length where nothing is left.
    pub(crate) at: usize,
    /// Its bytes: none where nothing is left, or where it begins with a letter and lacks the blank before it.
    pub(crate) bytes: &'a [u8],
    /// What is left after it.
    pub(crate) rest: Rest<'a>,
}

/// The part that comes first, whether a blank comes before it or not, and what follows it.
fn split_first(rest: &[u8]) -> (&[u8], &[u8])
    ensures part { result.0.now ≡ take (len_of_part rest.now) rest.now }
    ensures suffix { result.1.now ≡ after_first rest.now }
{
    let len = if rest.is_empty() { 0 } else { part_len(rest) };
    rest.split_at(len)
}

/// What is left of a text of `whole` bytes where these come after a part.
pub(crate) fn rest_of(whole: usize, suffix: &[u8]) -> Rest<'_>
    ensures whole { result.whole ≡ whole }
    ensures blank { result.blank ≡ first_in_class Blank suffix.now }
    ensures bytes { result.bytes.now ≡ rest_after_blanks suffix.now }
{
    Rest {
        whole,
        blank: begins_in(Class::Blank, suffix),
        bytes: after_blanks(suffix),
    }
}

impl<'a> Rest<'a> {
    /// The part that comes first.
    #[tactic(auto, unfolding(crate::specs::Parts::first_in))]
    pub(crate) fn first_part(self) -> FirstPart<'a>
        ensures at { result.at ≡ self.entry.whole - length self.entry.bytes.now }
        ensures bytes { result.bytes.now ≡ part_in self.entry.blank self.entry.bytes.now }
        ensures whole { result.rest.whole ≡ self.entry.whole }
        ensures blank { result.rest.blank ≡ first_in_class Blank (after_first self.entry.bytes.now) }
        ensures rest { result.rest.bytes.now ≡ rest_after_blanks (after_first self.entry.bytes.now) }
    {
        let (part, suffix) = split_first(self.bytes);
        let rest = rest_of(self.whole, suffix);
        let lacks_blank = begins_in(Class::Letter, self.bytes) && !self.blank;
        FirstPart {
            at: place(self.whole, self.bytes),
            bytes: if lacks_blank { &part[..0] } else { part },
            rest,
        }
    }
}

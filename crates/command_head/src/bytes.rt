ghost use Rattle.std.specs.Prelude.{◌≡◌, ◌-◌, length};
ghost use Rattle.command_head.specs.Parts.{after_blanks as rest_after_blanks};

use text_grammar::{Class, prefix_len};

/// The byte of a text of `whole` bytes at which its rest begins.
pub(crate) fn place(whole: usize, rest: &[u8]) -> usize
    ensures { result ≡ whole - length rest.now }
{
    whole.saturating_sub(rest.len())
}

/// The bytes after the leading blanks.
pub(crate) fn after_blanks(bytes: &[u8]) -> &[u8]
    ensures { result.now ≡ rest_after_blanks bytes.now }
{
    &bytes[prefix_len(Class::Blank, bytes)..]
}

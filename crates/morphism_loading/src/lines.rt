//! Lines of a text.

ghost use Rattle.std.specs.Prelude.{◌≡◌, ◌≤◌, count_by, length};
ghost use Rattle.text_grammar.specs.Bytes.{is_line_end};
ghost use Rattle.wal_outside.specs.declared.store.TheConstants.{TEXT_LIMIT};
ghost use Rattle.morphism_loading.specs.MorphismFiles.{line_at as line_of_byte};

/// The line in which a byte is, counted from one: the bytes are counted from 0, and one at the text's length or past it comes
/// after the last. The time is in proportion to the bytes before it.
pub(crate) fn line_at(text: &[u8], at: usize) -> u64
    requires { length text.now ≤ TEXT_LIMIT }
    ensures { result ≡ line_of_byte text.now at }
{
    1 + line_ends(&text[..at.min(text.len())])
}

/// How many line ends some bytes have.
fn line_ends(bytes: &[u8]) -> u64
    requires { length bytes.now ≤ TEXT_LIMIT }
    ensures count { result ≡ count_by is_line_end bytes.now }
    ensures within { result ≤ length bytes.now }
{
    let mut count = 0;
    for byte in bytes {
        if *byte == b'\n' {
            count += 1;
        }
    }
    count
}

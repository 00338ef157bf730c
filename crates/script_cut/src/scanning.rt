// The gaps and the texts that bytes begin with.
ghost use Rattle.std.specs.Prelude.{◌≡◌, ◌≤◌, length};
ghost use Rattle.script_cut.specs.Texts.{is_gap as is_gap_byte, is_terminator as is_terminator_byte, comment_after, after_byte, line_ends as line_ends_of};
ghost use Rattle.script_cut.specs.Lengths.{gap_count, gap_open, text_count, text_open};

use text_grammar::Class;

/// How many bytes a leading stretch has, and whether a comment or a quote is open after it.
#[derive(Clone, Copy)]
pub(crate) struct Stretch {
    pub(crate) len: usize,
    pub(crate) open: bool,
}

/// What comes before the first command, where a comment is open or not.
pub(crate) fn gaps_of(bytes: &[u8], commented: bool) -> Stretch
    ensures len { result.len ≡ gap_count commented bytes.now }
    ensures open { result.open ≡ gap_open commented bytes.now }
    ensures within { result.len ≤ length bytes.now }
{
    let mut open = commented;
    for (index, byte) in bytes.iter().enumerate() {
        if !open && !is_gap(*byte) {
            return Stretch { len: index, open };
        }
        open = is_commented_after(open, *byte);
    }
    Stretch {
        len: bytes.len(),
        open,
    }
}

/// What comes before the first terminator outside quotes, where a quote is open or not.
pub(crate) fn text_of(bytes: &[u8], quoted: bool) -> Stretch
    ensures len { result.len ≡ text_count quoted bytes.now }
    ensures open { result.open ≡ text_open quoted bytes.now }
    ensures within { result.len ≤ length bytes.now }
{
    let mut open = quoted;
    for (index, byte) in bytes.iter().enumerate() {
        if is_terminator(*byte) && !open {
            return Stretch { len: index, open };
        }
        open = is_quoted_after(open, *byte);
    }
    Stretch {
        len: bytes.len(),
        open,
    }
}

/// How many line ends some bytes have.
pub(crate) fn line_ends(bytes: &[u8]) -> u64
    ensures count { result ≡ line_ends_of bytes.now }
    ensures within { result ≤ length bytes.now }
{
    let mut count = 0;
    for byte in bytes {
        if *byte == b'\n' {
            count += 1;
        }
    }
    count
}

fn is_gap(byte: u8) -> bool
    ensures { result ≡ is_gap_byte byte }
{
    Class::Blank.contains(byte) || is_terminator(byte) || byte == b'#'
}

fn is_terminator(byte: u8) -> bool
    ensures { result ≡ is_terminator_byte byte }
{
    byte == b';' || byte == b':'
}

fn is_commented_after(commented: bool, byte: u8) -> bool
    ensures { result ≡ comment_after commented byte }
{
    if commented {
        byte != b'\n'
    } else {
        byte == b'#'
    }
}

fn is_quoted_after(quoted: bool, byte: u8) -> bool
    ensures { result ≡ after_byte quoted byte }
{
    if byte == b'"' { !quoted } else { quoted }
}

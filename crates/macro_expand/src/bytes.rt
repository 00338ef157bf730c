//! Prefixes of texts, and what follows them.

ghost use Rattle.std.specs.Prelude.{◌≡◌, ◌≤◌, drop, length};
ghost use Rattle.macro_expand.specs.Views.{len_before as len_up_to};

/// How many bytes come before the first one that is this mark.
pub(crate) fn len_before(mark: u8, bytes: &[u8]) -> usize
    ensures len { result ≡ len_up_to mark bytes.now }
    ensures within { result ≤ length bytes.now }
{
    for (index, byte) in bytes.iter().enumerate() {
        if *byte == mark {
            return index;
        }
    }
    bytes.len()
}

/// What follows so many bytes.
pub(crate) fn after(len: usize, bytes: &[u8]) -> &[u8]
    requires { len ≤ length bytes.now }
    ensures { result.now ≡ drop len bytes.now }
{
    &bytes[len..]
}

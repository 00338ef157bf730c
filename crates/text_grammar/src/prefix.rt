ghost use Rattle.std.specs.Prelude.{◌≡◌, ◌≤◌, length};
ghost use Rattle.text_grammar.specs.Prefixes.{prefix_len as len_of_prefix, begins_in as first_in, all_in as all_in_class};

use super::class::Class;

/// The length of the longest prefix of `bytes` that is of the class.
pub fn prefix_len(class: Class, bytes: &[u8]) -> usize
    ensures len { result ≡ len_of_prefix class bytes.now }
    ensures within { result ≤ length bytes.now }
{
    for (index, byte) in bytes.iter().enumerate() {
        if !class.contains(*byte) {
            return index;
        }
    }
    bytes.len()
}

/// Whether the first byte is of the class.
pub fn begins_in(class: Class, bytes: &[u8]) -> bool
    ensures { result ≡ first_in class bytes.now }
{
    match bytes {
        [first, ..] => class.contains(*first),
        [] => false,
    }
}

/// Whether all bytes are of the class.
pub fn all_in(class: Class, bytes: &[u8]) -> bool
    ensures { result ≡ all_in_class class bytes.now }
{
    prefix_len(class, bytes) == bytes.len()
}

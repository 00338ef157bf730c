//! Calls in a text.

ghost use Rattle.std.specs.Prelude.{◌≡◌, ◌≤◌, ◌<◌, ◌+◌, length, IfSome, IsAscii};
ghost use Rattle.std.specs.Option.{option_map, option_copied};
ghost use Rattle.macro_expand.specs.Calls.{is_name as is_macro_name, parentheses_after as nested_after, inside_len as len_inside, enclosed as enclosed_there, call_after as call_there};
ghost use Rattle.macro_expand.specs.Views.{call_view};

use text_grammar::{Class, prefix_len};

/// The greatest length of a name.
const LONGEST_NAME: usize = 64;

/// A call: the macro's name, what is between the parentheses, and how many bytes come after the `#`.
#[derive(Clone, Copy)]
pub(crate) struct Call<'a> {
    pub name: &'a [u8],
    pub inside: &'a [u8],
    pub len: usize,
}

/// Whether some letters, digits and `_` are a name.
fn is_name(bytes: &[u8]) -> bool
    ensures { result ≡ is_macro_name bytes.now }
{
    match bytes {
        [first, ..] => Class::Letter.contains(*first) && bytes.len() <= LONGEST_NAME,
        [] => false,
    }
}

/// How many parentheses are open after a byte, before which some are.
pub(crate) fn parentheses_after(before: usize, byte: u8) -> usize
    requires { before < usize.MAX }
    ensures is { result ≡ nested_after before byte }
    ensures few { result ≤ before + 1 }
{
    match byte {
        b'(' => before + 1,
        b')' => before.saturating_sub(1),
        _ => before,
    }
}

/// How many bytes come before the `)` that closes the parenthesis before them; all of them where none does.
fn inside_len(bytes: &[u8]) -> usize
    ensures len { result ≡ len_inside 0 bytes.now }
    ensures within { result ≤ length bytes.now }
{
    let mut nested = 0;
    for (index, byte) in bytes.iter().enumerate() {
        if *byte == b')' && nested == 0 {
            return index;
        }
        nested = parentheses_after(nested, *byte);
    }
    bytes.len()
}

/// What the first byte encloses, if it is a `(` that a `)` closes.
fn enclosed(bytes: &[u8]) -> Option<&[u8]>
    ensures inside { option_copied result ≡ enclosed_there bytes.now }
    ensures within { IfSome result (λ inside. length inside.now + 2 ≤ length bytes.now) }
{
    let (first, after) = bytes.split_first()?;
    if *first != b'(' {
        return None;
    }
    let len = inside_len(after);
    if len == after.len() {
        return None;
    }
    Some(&after[..len])
}

/// The call that begins what follows its `#`, if one does.
#[tactic(auto, unfolding(crate::specs::Calls::call_after))]
pub(crate) fn call_after(bytes: &[u8]) -> Option<Call<'_>>
    ensures call { option_map call_view result ≡ call_there bytes.now }
    ensures named { IfSome result (λ call. IsAscii call.name.now) }
    ensures within { IfSome result (λ call. call.len ≤ length bytes.now) }
{
    let (name, after) = bytes.split_at(prefix_len(Class::NameByte, bytes));
    if !is_name(name) {
        return None;
    }
    let blanks = prefix_len(Class::Blank, after);
    let inside = enclosed(&after[blanks..])?;
    Some(Call {
        name,
        inside,
        len: name.len() + blanks + inside.len() + 2,
    })
}

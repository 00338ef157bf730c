//! Numbers printed at the end of a text.

ghost use Rattle.std.specs.Prelude.{◌≡◌, ◌∷◌, ◌++◌, codes, decimal, OnOk};
ghost use Rattle.std.specs.Fmt.{signed_decimal};
ghost use Rattle.std.specs.List.{join_by};

use digit_tuple::faults::OutOfMemory;
use itoa::Buffer;

/// Appends a number. One of a single digit, as members of tracks mostly are, takes no more than that byte.
pub fn push_number(out: &mut Vec<u8>, number: u32) -> Result<(), OutOfMemory>
    ensures { OnOk result (out.new.items ≡ out.old.items ++ decimal number) }
{
    if number < 10 {
        out.push(b'0' + number as u8)?;
        return Ok(());
    }
    let mut buffer = Buffer::new();
    out.extend_from_slice(buffer.format(number).as_bytes())?;
    Ok(())
}

/// Appends a signed number.
pub fn push_integer(out: &mut Vec<u8>, number: i32) -> Result<(), OutOfMemory>
    ensures { OnOk result (out.new.items ≡ out.old.items ++ signed_decimal number) }
{
    if number >= 0 {
        return push_number(out, number as u32);
    }
    let mut buffer = Buffer::new();
    out.extend_from_slice(buffer.format(number).as_bytes())?;
    Ok(())
}

/// Appends a byte and a signed number.
pub fn push_after(out: &mut Vec<u8>, before: u8, number: i32) -> Result<(), OutOfMemory>
    ensures { OnOk result (out.new.items ≡ out.old.items ++ (before ∷ signed_decimal number)) }
{
    out.push(before)?;
    push_integer(out, number)
}

/// Appends signed numbers, with commas between them.
pub fn push_integers(out: &mut Vec<u8>, numbers: &[i32]) -> Result<(), OutOfMemory>
    ensures { OnOk result (out.new.items ≡ out.old.items ++ join_by signed_decimal (codes ",") numbers.now) }
{
    if let [first, others @ ..] = numbers {
        push_integer(out, *first)?;
        for number in others {
            push_after(out, b',', *number)?;
        }
    }
    Ok(())
}

//! Letters and rules as text.

ghost use Rattle.std.specs.Prelude.{◌≡◌, ◌++◌, codes, OnOk};
ghost use Rattle.std.specs.Fmt.{signed_decimal};
ghost use Rattle.morph_words.specs.Printed.{letter_text, rule_text};

use crate::image::Image;
use digit_tuple::faults::OutOfMemory;
use itoa::Buffer;

/// Appends a number.
fn push_number(text: &mut Vec<u8>, number: i32) -> Result<(), OutOfMemory>
    ensures { OnOk result (text.new.items ≡ text.old.items ++ signed_decimal number) }
{
    let mut buffer = Buffer::new();
    text.extend_from_slice(buffer.format(number).as_bytes())?;
    Ok(())
}

/// Appends a letter: 0 to 9 as a digit, others in brackets.
fn push_letter(text: &mut Vec<u8>, letter: i32) -> Result<(), OutOfMemory>
    ensures { OnOk result (text.new.items ≡ text.old.items ++ letter_text letter) }
{
    if 0 <= letter && letter < 10 {
        return push_number(text, letter);
    }
    text.push(b'[')?;
    push_number(text, letter)?;
    text.push(b']')?;
    Ok(())
}

/// Appends a rule.
pub(crate) fn push_rule(text: &mut Vec<u8>, letter: i32, image: &Image) -> Result<(), OutOfMemory>
    ensures { OnOk result (text.new.items ≡ text.old.items ++ rule_text (letter, image.now)) }
{
    push_letter(text, letter)?;
    text.extend_from_slice(b"->")?;
    for letter in image.letters() {
        push_letter(text, *letter)?;
    }
    Ok(())
}

/// Appends a blank and a rule.
pub(crate) fn push_next_rule(
    text: &mut Vec<u8>,
    letter: i32,
    image: &Image,
) -> Result<(), OutOfMemory>
    ensures { OnOk result (text.new.items ≡ text.old.items ++ (codes " " ++ rule_text (letter, image.now))) }
{
    text.push(b' ')?;
    push_rule(text, letter, image)
}

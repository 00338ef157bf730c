ghost use Rattle.std.specs.Prelude.{◌≡◌, ◌++◌, IfOk, OnOk, decimal};
ghost use Rattle.made_script.specs.Scripts.{command_text, script_text};

use crate::draws::Draws;
use digit_tuple::faults::OutOfMemory;
use itoa::Buffer;
use std::alloc::Global;

/// The commands that the others use.
const FIRST: &[u8] =
    b"morphism h \"0->01 1->10\";\npromote T h;\nreg f1 msd_fib \"(0|1)*1\";\ncombine F f1=1;\n";

/// How many commands are drawn.
const DRAWN: u64 = 196;

/// The generated script of a seed: 200 commands, each with a line end after it, in less than 8,000 bytes.
///
/// # Errors
/// `OutOfMemory`.
pub fn generated_script(alloc: Global, seed: u64) -> Result<Vec<u8>, OutOfMemory>
    ensures { IfOk result (λ text. text.items ≡ script_text seed) }
{
    let mut text = Vec::new(alloc);
    text.extend_from_slice(FIRST)?;
    let mut draws = Draws::new(seed);
    for count in 0..DRAWN {
        let kind = draws.draw() % 4;
        let one = draws.draw() % 1000;
        let two = draws.draw() % 1000;
        push_command(&mut text, count + 1, kind, one, two)?;
    }
    Ok(text)
}

/// Appends a command of some kind over two numbers.
fn push_command(
    text: &mut Vec<u8>,
    number: u64,
    kind: u64,
    one: u64,
    two: u64,
) -> Result<(), OutOfMemory>
    ensures { OnOk result (text.new.items ≡ text.old.items ++ command_text number kind one two) }
{
    match kind {
        0 => {
            push_numbered(text, b"eval m", number)?;
            push_numbered(text, b" \"Ex x+x=", one)?;
            text.extend_from_slice(b"\";\n")?;
        }
        1 => {
            push_numbered(text, b"eval m", number)?;
            push_numbered(text, b" \"Ex T[x+", one)?;
            push_numbered(text, b"]=T[x+", two)?;
            text.extend_from_slice(b"] & x<8\";\n")?;
        }
        2 => {
            push_numbered(text, b"eval m", number)?;
            push_numbered(text, b" \"?msd_fib Ex F[x+", one)?;
            text.extend_from_slice(b"]=@1 & x<2\";\n")?;
        }
        _ => {
            push_numbered(text, b"def m", number)?;
            push_numbered(text, b" \"T[x+", one)?;
            push_numbered(text, b"]=@1 & x<", two)?;
            text.extend_from_slice(b"\";\n")?;
        }
    }
    Ok(())
}

/// Appends a text and a number after it.
fn push_numbered(text: &mut Vec<u8>, words: &[u8], number: u64) -> Result<(), OutOfMemory>
    ensures { OnOk result (text.new.items ≡ text.old.items ++ words.now ++ decimal number) }
{
    text.extend_from_slice(words)?;
    let mut buffer = Buffer::new();
    text.extend_from_slice(buffer.format(number).as_bytes())?;
    Ok(())
}

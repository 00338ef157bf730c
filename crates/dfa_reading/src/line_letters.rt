//! The letters by which a line leads: one for each tuple that its digits take.

ghost use Rattle.std.specs.Prelude.{◌≡◌, ◌+◌, ◌*◌, ◌<◌, ◌≤◌, ◌^◌, ◌++◌, length, IfOk, OnOk};
ghost use Rattle.std.specs.List.{All, flat_map, range_with_len};
ghost use Rattle.digit_tuple.specs.Letters.{product};
ghost use Rattle.dfa_reading.specs.LineLetters.{digits_taken, shifted, letters_taken as letters_by};

use digit_tuple::alphabet::Alphabet;
use digit_tuple::faults::OutOfMemory;
use std::alloc::Global;

/// The letters of the tuples that digits take, where None is each digit of its track. A digit outside its track takes no tuple.
/// The time is in proportion to the letters.
pub fn letters_taken(
    alloc: Global,
    alphabet: &Alphabet,
    digits: &[Option<u32>],
) -> Result<Vec<u32>, OutOfMemory>
    requires { length digits.now ≡ length alphabet.now }
    ensures { IfOk result (λ letters. letters.items ≡ letters_by alphabet.now digits.now) }
{
    if alphabet.letters() == 0 {
        return Ok(Vec::new(alloc));
    }
    letters_from_last(alloc, alphabet.sizes(), digits)
}

// The letters, from the last track on.
fn letters_from_last(
    alloc: Global,
    sizes: &[u32],
    digits: &[Option<u32>],
) -> Result<Vec<u32>, OutOfMemory>
    requires some { 0 < product sizes.now }
    requires few { product sizes.now ≤ 65536 }
    requires tracks { length digits.now ≡ length sizes.now }
    ensures { IfOk result (λ letters. letters.items ≡ letters_by sizes.now digits.now) }
{
    let mut letters: Vec<u32> = Vec::new(alloc);
    letters.push(0)?;
    let mut weight: u32 = 1;
    let mut track = sizes.len();
    'tracks: while track > 0 {
        track -= 1;
        letters = with_track(alloc, sizes[track], digits[track], weight, &letters)?;
        weight *= sizes[track];
    }
    Ok(letters)
}

// The letters with one track more before theirs.
fn with_track(
    alloc: Global,
    size: u32,
    wanted: Option<u32>,
    weight: u32,
    letters: &[u32],
) -> Result<Vec<u32>, OutOfMemory>
    requires small { size * weight ≤ 65536 }
    requires letters { All (λ letter. letter < weight) letters.now }
    ensures { IfOk result (λ more. more.items ≡ flat_map (λ digit. shifted (digit * weight) letters.now) (digits_taken size wanted)) }
{
    let mut more = Vec::new(alloc);
    match wanted {
        None => push_each(&mut more, size, weight, letters)?,
        Some(digit) => {
            if digit < size {
                push_digit(&mut more, size, digit, weight, letters)?;
            }
        }
    }
    Ok(more)
}

// Appends the letters with each digit before theirs.
fn push_each(out: &mut Vec<u32>, size: u32, weight: u32, letters: &[u32]) -> Result<(), OutOfMemory>
    requires small { size * weight ≤ 65536 }
    requires letters { All (λ letter. letter < weight) letters.now }
    ensures { OnOk result (out.new.items ≡ out.old.items ++ flat_map (λ digit. shifted (digit * weight) letters.now) (range_with_len 0 size)) }
{
    for digit in 0..size {
        push_digit(out, size, digit, weight, letters)?;
    }
    Ok(())
}

// Appends the letters with a digit before theirs.
fn push_digit(
    out: &mut Vec<u32>,
    size: u32,
    digit: u32,
    weight: u32,
    letters: &[u32],
) -> Result<(), OutOfMemory>
    requires digit { digit < size }
    requires small { size * weight ≤ 65536 }
    requires letters { All (λ letter. letter < weight) letters.now }
    ensures { OnOk result (out.new.items ≡ out.old.items ++ shifted (digit * weight) letters.now) }
{
    push_shifted(out, digit * weight, letters)
}

// Appends the letters, so many further.
fn push_shifted(out: &mut Vec<u32>, by: u32, letters: &[u32]) -> Result<(), OutOfMemory>
    requires { All (λ letter. by + letter < 2 ^ 32) letters.now }
    ensures { OnOk result (out.new.items ≡ out.old.items ++ shifted by letters.now) }
{
    for letter in letters {
        out.push(by + *letter)?;
    }
    Ok(())
}

//! Additions of the Fibonacci system, read from the most significant digit on, as a graph of keys.

ghost use Rattle.std.specs.Prelude.{◌≡◌, ◌+◌, ◌<◌, ◌≤◌, ⊤};
ghost use Rattle.fib_system.specs.Additions.{first_digit, second_digit, third_digit, may_follow, excess_after, key_after, no_digits, is_sum, IsAdditionKey, start_is_addition_key, after_is_addition_key};

use digit_tuple::faults::OutOfMemory;
use digit_tuple::key_graph::KeyGraph;
use digit_tuple::key_transitions::KeyTransitions;
use std::alloc::Global;

// How many letters three tracks over two digits have.
const LETTERS: u32 = 8;

/// Additions x + y = z, digit by digit. A key has the excess x + y - z of the digits read so far by the
/// weights 1, 2, 3, 5, .. from the last place on, raised by 2, then the lower excess by the weights 1, 1,
/// 2, 3, .., raised by 1, then the last letter. A letter leads to no key where a 1 follows a 1, or where no
/// digits to come can make x + y = z.
#[derive(Clone, Copy)]
pub struct Additions;

impl KeyGraph for Additions {
    ghost letters = { λ _. 8 };

    ghost is_graph = { λ _. ⊤ };

    ghost is_key = { λ _. IsAdditionKey };

    ghost start = { λ _. no_digits };

    ghost after = { λ _. key_after };

    ghost accepts = { λ _. is_sum };

    ghost start_is_key = { λ _ graph. start_is_addition_key };

    ghost after_is_key = { λ _ key letter graph is small. after_is_addition_key key letter is small };

    fn first_key(&self, alloc: Global) -> Result<Vec<u32>, OutOfMemory> {
        Ok(Vec::from_slice(alloc, &[2, 1, 0])?)
    }

    fn transitions(
        &self,
        _alloc: Global,
        key: &[u32],
        out: &mut KeyTransitions,
    ) -> Result<(), OutOfMemory> {
        for letter in 0..LETTERS {
            if let Some(next) = next_key(key, letter) {
                out.push(letter, &next)?;
            }
        }
        Ok(())
    }

    fn is_accepting(&self, key: &[u32]) -> bool {
        key[0] == 2
    }
}

// Where a letter leads from a key.
fn next_key(key: &[u32], letter: u32) -> Option<[u32; 3]>
    requires key { IsAdditionKey key.now }
    requires letter { letter < 8 }
    ensures { result ≡ key_after key.now letter }
{
    if may_follow(letter, key[2]) {
        excess_after(key[0], key[1], letter)
    } else {
        None
    }
}

// Whether on no track a 1 follows a 1.
fn may_follow(letter: u32, last: u32) -> bool
    ensures { result ≡ may_follow letter last }
{
    let one = Digits::of(last);
    let other = Digits::of(letter);
    one.first + other.first < 2 && one.second + other.second < 2 && one.third + other.third < 2
}

// The excess, the lower excess and the letter after it, unless no digits to come can make x + y = z.
fn excess_after(excess: u32, lower: u32, letter: u32) -> Option<[u32; 3]>
    requires sum { excess + lower ≤ 4 }
    requires letter { letter < 8 }
    ensures { result ≡ excess_after excess lower letter }
{
    let digits = Digits::of(letter);
    let next = (excess + digits.first + digits.second).checked_sub(digits.third + 1)?;
    if lower + next + next > 4 {
        None
    } else {
        Some([lower + next, next, letter])
    }
}

// The digits of a letter.
#[derive(Clone, Copy)]
struct Digits {
    first: u32,
    second: u32,
    third: u32,
}

impl Digits {
    fn of(letter: u32) -> Digits
        ensures first { result.first ≡ first_digit letter }
        ensures second { result.second ≡ second_digit letter }
        ensures third { result.third ≡ third_digit letter }
    {
        Digits {
            first: letter / 4,
            second: letter % 4 / 2,
            third: letter % 2,
        }
    }
}

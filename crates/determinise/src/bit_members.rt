//! The numbers whose bits are set.

ghost use Rattle.std.specs.Prelude.{◌≡◌, ◌+◌, ◌*◌, ◌<◌, ◌≤◌, ◌^◌, ◌++◌, [], length, OnOk};
ghost use Rattle.std.specs.List.{All, AllPairs};
ghost use Rattle.digit_tuple.specs.Groups.{some_set};
ghost use Rattle.digit_tuple.specs.Keys.{AreKeyTransitions, transitions_to, part_of};
ghost use Rattle.determinise.specs.Bits.{AddsMembers, members_in};
ghost use Rattle.determinise.specs.NumberSets.{AreAtPlaces};

use digit_tuple::faults::OutOfMemory;
use digit_tuple::key_transitions::KeyTransitions;
use std::alloc::Global;

/// Adds for each letter with a bit among its words a transition to the numbers whose bits are set.
pub fn push_member_letters(
    alloc: Global,
    words: &[u32],
    letters: u32,
    width: u32,
    out: &mut KeyTransitions,
) -> Result<(), OutOfMemory>
    requires room { length words.now ≡ letters * width }
    requires few { width ≤ 2 ^ 26 }
    requires empty { out.old ≡ [] }
    ensures { OnOk result (AreKeyTransitions letters (λ letter. some_set (members_in (part_of words.now width letter))) out.new) }
{
    let mut members = Vec::new(alloc);
    for letter in 0..letters {
        let start = letter as usize * width as usize;
        members.clear();
        push_members(&words[start..start + width as usize], &mut members)?;
        push_list(letter, &members, out)?;
    }
    Ok(())
}

// Adds a transition to the list, unless it is empty.
fn push_list(letter: u32, list: &[u32], out: &mut KeyTransitions) -> Result<(), OutOfMemory>
    ensures { OnOk result (out.new ≡ out.old ++ transitions_to letter (some_set list.now)) }
{
    if !list.is_empty() {
        out.push(letter, list)?;
    }
    Ok(())
}

/// Adds the numbers whose bits are set, in order.
pub fn push_members(words: &[u32], members: &mut Vec<u32>) -> Result<(), OutOfMemory>
    requires few { length words.now ≤ 2 ^ 26 }
    requires empty { members.old.items ≡ [] }
    ensures { OnOk result (members.new.items ≡ members_in words.now) }
{
    for place in 0..words.len() {
        push_bits(place as u32 * 32, words[place], members)?;
    }
    Ok(())
}

/// Adds the numbers whose bits are set, in order, where only the words at these places have bits.
pub fn push_at(words: &[u32], places: &[u32], members: &mut Vec<u32>) -> Result<(), OutOfMemory>
    requires few { length words.now ≤ 2 ^ 27 }
    requires within { All (λ place. place < length words.now) places.now }
    requires ascending { AllPairs (λ p q. p < q) places.now }
    requires places { AreAtPlaces words.now places.now }
    requires empty { members.old.items ≡ [] }
    ensures { OnOk result (members.new.items ≡ members_in words.now) }
{
    for place in places {
        push_bits(*place * 32, words[*place as usize], members)?;
    }
    Ok(())
}

// Adds the numbers, from the first one on, whose bits the word has.
fn push_bits(first: u32, word: u32, members: &mut Vec<u32>) -> Result<(), OutOfMemory>
    requires fits { first + 32 ≤ 2 ^ 32 }
    requires below { All (λ number. number < first) members.old.items }
    requires ascending { AllPairs (λ p q. p < q) members.old.items }
    ensures { OnOk result (AddsMembers members.old.items first word members.new.items) }
{
    let mut rest = word;
    while rest != 0 {
        let low = rest.trailing_zeros();
        members.push(first + low)?;
        rest &= rest - 1;
    }
    Ok(())
}

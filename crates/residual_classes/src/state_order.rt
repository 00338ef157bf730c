//! States in an order that changes, and where each is in it.

ghost use Rattle.std.specs.Prelude.{◌≡◌, ◌<◌, ◌≤◌, length, IfOk};
ghost use Rattle.std.specs.List.{All, range_with_len, swap};
ghost use Rattle.residual_classes.specs.StateOrder.{AreAtEnd, AreInverse};

use digit_tuple::faults::OutOfMemory;
use std::alloc::Global;

/// The states below the count, each at the place of its number.
pub fn numbered_states(alloc: Global, count: u32) -> Result<Vec<u32>, OutOfMemory>
    ensures { IfOk result (λ states. states.items ≡ range_with_len 0 count) }
{
    let mut states = Vec::with_capacity(alloc, count as usize)?;
    for state in 0..count {
        states.push(state)?;
    }
    Ok(states)
}

/// Moves those of the set that are from the start to the end to the last places there, and gives the first place that
/// they have then. Time follows the set.
pub fn move_to_end(
    states: &mut Vec<u32>,
    places: &mut Vec<u32>,
    start: u32,
    end: u32,
    set: &[u32],
) -> u32
    requires order { AreInverse states.old.items places.old.items }
    requires start { start ≤ end }
    requires end { end ≤ length states.old.items }
    requires set { All (λ q. q < length states.old.items) set.now }
    ensures order { AreInverse states.new.items places.new.items }
    ensures moved { AreAtEnd states.old.items states.new.items set.now start result end }
{
    let mut middle = end;
    for state in set {
        let place = places[*state as usize];
        if start <= place && place < middle {
            middle -= 1;
            swap_states(states, places, place, middle);
        }
    }
    middle
}

// Swaps the states at two places.
fn swap_states(states: &mut Vec<u32>, places: &mut Vec<u32>, first: u32, second: u32)
    requires order { AreInverse states.old.items places.old.items }
    requires first { first < length states.old.items }
    requires second { second < length states.old.items }
    ensures order { AreInverse states.new.items places.new.items }
    ensures swapped { states.new.items ≡ swap states.old.items first second }
{
    places.swap(
        states[first as usize] as usize,
        states[second as usize] as usize,
    );
    states.swap(first as usize, second as usize);
}

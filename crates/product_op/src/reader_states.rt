//! States of readers, one of each.

ghost use Rattle.std.specs.Prelude.{◌≡◌, ◌<◌, ◌≤◌, ℕ, length, drop, IfOk};
ghost use Rattle.product_op.specs.Readings.{readings_in, AreReadings, first_key, next_key, flags_at, all_true};
ghost use Rattle.product_op.specs.DeadPairs.{is_sink_at};
ghost use Rattle.product_op.specs.SinkKeys.{are_sinks};

use crate::reader::Reader;
use digit_tuple::faults::OutOfMemory;
use std::alloc::Global;

/// The first state of each.
pub fn initial_states(alloc: Global, readers: &[Reader<'_>]) -> Result<Vec<u32>, OutOfMemory>
    ensures { IfOk result (λ key. key.items ≡ first_key (readings_in readers.now)) }
{
    let mut key = Vec::with_capacity(alloc, readers.len())?;
    for reader in readers {
        key.push(reader.first())?;
    }
    Ok(key)
}

/// Writes where the letter leads from each state.
pub fn next_states(readers: &[Reader<'_>], key: &[u32], letter: u32, next: &mut [u32])
    requires readers { (letters : ℕ) × AreReadings letters (readings_in readers.now) × (letter < letters) }
    requires key { length key.now ≡ length readers.now }
    requires room { length next.old ≡ length readers.now }
    ensures { next.new ≡ next_key (readings_in readers.now) key.now letter }
{
    for (place, reader) in readers.iter().enumerate() {
        next[place] = reader.next(key[place], letter);
    }
}

/// Whether the state at a place is the sink of its reader.
pub fn is_sink_at(readers: &[Reader<'_>], key: &[u32], place: usize) -> bool
    requires readers { place < length readers.now }
    requires key { place < length key.now }
    ensures { result ≡ is_sink_at (readings_in readers.now) key.now place }
{
    readers[place].is_sink(key[place])
}

/// Whether each state is the sink of its reader.
pub fn are_sinks(readers: &[Reader<'_>], key: &[u32]) -> bool
    requires { length key.now ≡ length readers.now }
    ensures { result ≡ are_sinks (readings_in readers.now) key.now }
{
    for (place, reader) in readers.iter().enumerate() {
        if !reader.is_sink(key[place]) {
            return false;
        }
    }
    true
}

/// Whether all states accept from this place on.
pub fn all_accept(readers: &[Reader<'_>], key: &[u32], from: usize) -> bool
    requires key { length key.now ≡ length readers.now }
    requires from { from ≤ length readers.now }
    ensures { result ≡ all_true (drop from (flags_at (readings_in readers.now) key.now)) }
{
    for place in from..readers.len() {
        if !readers[place].accepts(key[place]) {
            return false;
        }
    }
    true
}

//! Outputs as they are in keys: four to a number where all of them are below 256.

ghost use Rattle.std.specs.Prelude.{◌≡◌, ℕ, ◌+◌, ◌*◌, ◌<◌, ◌≤◌, ◌++◌, true, length, map, slice_index, IfOk, OnOk};
ghost use Rattle.std.specs.List.{range_with_len};
ghost use Rattle.word_transduce.specs.PackedOutputs.{are_packed, group_of, key_output, output_of, packed, packed_len, unpacked};

use digit_tuple::faults::OutOfMemory;
use std::alloc::Global;
use transducer_reading::Transducer;

/// Whether the numbers of a transducer's outputs are below 256, so that keys have four of them to a number.
pub fn are_packed(transducer: &Transducer) -> bool
    ensures { result ≡ are_packed transducer.now }
{
    transducer.lines().len() < 255
}

/// How many numbers of a key so many outputs are in.
pub fn packed_len(is_packed: bool, count: usize) -> usize
    ensures { result ≡ packed_len is_packed count }
{
    if is_packed { count.div_ceil(4) } else { count }
}

/// Adds outputs to a key. Time is that of a step for each output.
pub fn push_packed(is_packed: bool, outputs: &[u32], key: &mut Vec<u32>) -> Result<(), OutOfMemory>
    ensures { OnOk result (key.new.items ≡ key.old.items ++ packed is_packed outputs.now) }
{
    if !is_packed {
        key.extend_from_slice(outputs)?;
        return Ok(());
    }
    for group in 0..outputs.len().div_ceil(4) {
        key.push(group_of(outputs, group))?;
    }
    Ok(())
}

// Four outputs in a number, the first one least.
fn group_of(outputs: &[u32], group: usize) -> u32
    requires { 4 * group < length outputs.now }
    ensures { result ≡ group_of outputs.now group }
{
    let start = 4 * group;
    number_at(outputs, start) % 0x100
        + number_at(outputs, start + 1) % 0x100 * 0x100
        + number_at(outputs, start + 2) % 0x100 * 0x1_0000
        + number_at(outputs, start + 3) % 0x100 * 0x100_0000
}

/// Writes the outputs at these positions, and 0 for those past the end, as they are in a key. Time is that of a step for each.
pub fn gather(is_packed: bool, outputs: &[u32], places: &[usize], found: &mut [u32])
    requires { length found.old ≡ packed_len is_packed (length places.now) }
    ensures { found.new ≡ packed is_packed (map (λ place. slice_index outputs.now place) places.now) }
{
    if is_packed {
        gather_groups(outputs, places, found)
    } else {
        gather_numbers(outputs, places, found)
    }
}

// Writes the outputs at these positions, four to a number.
fn gather_groups(outputs: &[u32], places: &[usize], found: &mut [u32])
    requires { length found.old ≡ packed_len true (length places.now) }
    ensures { found.new ≡ packed true (map (λ place. slice_index outputs.now place) places.now) }
{
    for group in 0..found.len() {
        found[group] = gathered_group(outputs, places, group);
    }
}

// Writes the outputs at these positions.
fn gather_numbers(outputs: &[u32], places: &[usize], found: &mut [u32])
    requires { length found.old ≡ length places.now }
    ensures { found.new ≡ map (λ place. slice_index outputs.now place) places.now }
{
    for at in 0..places.len() {
        found[at] = number_at(outputs, places[at]);
    }
}

// The outputs at four of the positions in a number, the first one least.
fn gathered_group(outputs: &[u32], places: &[usize], group: usize) -> u32
    requires { 4 * group < length places.now }
    ensures { result ≡ group_of (map (λ place. slice_index outputs.now place) places.now) group }
{
    let start = 4 * group;
    gathered_at(outputs, places, start) % 0x100
        + gathered_at(outputs, places, start + 1) % 0x100 * 0x100
        + gathered_at(outputs, places, start + 2) % 0x100 * 0x1_0000
        + gathered_at(outputs, places, start + 3) % 0x100 * 0x100_0000
}

// The output at one of the positions, and 0 past the last of them.
fn gathered_at(outputs: &[u32], places: &[usize], at: usize) -> u32
    ensures { result ≡ slice_index (map (λ place. slice_index outputs.now place) places.now) at }
{
    match places.get(at) {
        Some(place) => number_at(outputs, *place),
        None => 0,
    }
}

/// The first outputs of a key, so many. Time is that of a step for each.
pub fn unpacked(
    alloc: Global,
    is_packed: bool,
    count: usize,
    key: &[u32],
) -> Result<Vec<u32>, OutOfMemory>
    requires { packed_len is_packed count ≤ length key.now }
    ensures { IfOk result (λ outputs. outputs.items ≡ unpacked is_packed count key.now) }
{
    let mut outputs = Vec::new(alloc);
    if !is_packed {
        outputs.extend_from_slice(&key[..count])?;
        return Ok(outputs);
    }
    let groups = count.div_ceil(4);
    outputs.resize(4 * groups, 0)?;
    unpack_groups(key, groups, &mut outputs);
    outputs.truncate(count);
    Ok(outputs)
}

// Writes the outputs of the first numbers of a key, so many.
fn unpack_groups(key: &[u32], groups: usize, outputs: &mut [u32])
    requires { length outputs.old ≡ 4 * groups }
    ensures { outputs.new ≡ map (key_output true key.now) (range_with_len 0 (4 * groups)) }
{
    for at in 0..groups {
        write_group(number_at(key, at), 4 * at, outputs);
    }
}

// Writes the four outputs in a number from a position on.
fn write_group(group: u32, start: usize, outputs: &mut [u32])
    requires { start + 4 ≤ length outputs.old }
    ensures count { length outputs.new ≡ length outputs.old }
    ensures before { (at : ℕ) → at < start → slice_index outputs.new at ≡ slice_index outputs.old at }
    ensures written { (place : ℕ) → place < 4 → slice_index outputs.new (start + place) ≡ output_of group place }
{
    outputs[start] = group % 0x100;
    outputs[start + 1] = group / 0x100 % 0x100;
    outputs[start + 2] = group / 0x1_0000 % 0x100;
    outputs[start + 3] = group / 0x100_0000;
}

/// The output of a key at a position.
pub fn key_output(is_packed: bool, key: &[u32], place: usize) -> u32
    ensures { result ≡ key_output is_packed key.now place }
{
    if !is_packed {
        return number_at(key, place);
    }
    let group = number_at(key, place / 4);
    match place % 4 {
        0 => group % 0x100,
        1 => group / 0x100 % 0x100,
        2 => group / 0x1_0000 % 0x100,
        _ => group / 0x100_0000,
    }
}

/// The number at a position, and 0 past the end.
pub fn number_at(numbers: &[u32], place: usize) -> u32
    ensures { result ≡ slice_index numbers.now place }
{
    match numbers.get(place) {
        Some(number) => *number,
        None => 0,
    }
}

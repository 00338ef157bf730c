//! The first place of each number of a list, by open addressing (Donald Knuth, "The Art of Computer Programming",
//! volume 3, section 6.4). A number has a home among the slots, and its first place is in the first slot from there on
//! that was free when it came. The slots do not go round: where all up to the end are taken, one more is added. They
//! are as many as are needed from the start on, so that nothing is moved.

ghost use Rattle.std.specs.Prelude.{◌≡◌, ℕ, ◌+◌, ◌-◌, ◌<◌, ◌≤◌, ◌^◌, List, length, IfOk, OnOk};
ghost use Rattle.residual_classes.specs.FirstPlaces.{AreFirstPlaces, IsFirstPlace, number_at};
ghost use Rattle.residual_classes.specs.PlaceSlots.{ArePassed, HoldPlaces, home_of, link_at};

use digit_tuple::faults::OutOfMemory;
use std::alloc::Global;

// How many slots there are past the last home, which are seldom used up.
const SPARE_SLOTS: usize = 64;

/// For each place of a list the first place that has the same number. Numbers that are spread over their bits,
/// as hashes are, are found in constant time each on average. Memory: 4 bytes a place for what is given, and at
/// most about 6 bytes a place besides, which go when the call ends. OutOfMemory comes too where there are 2^32
/// numbers, which take 32 gigabytes.
pub fn first_places(alloc: Global, numbers: &[u64]) -> Result<Vec<u32>, OutOfMemory>
    ensures { IfOk result (λ places. AreFirstPlaces numbers.now places.items) }
{
    if numbers.len() > u32::MAX as usize {
        return Err(OutOfMemory);
    }
    let mut slots = PlaceSlots::new(alloc, numbers.len())?;
    let mut places = Vec::with_capacity(alloc, numbers.len())?;
    for place in 0..numbers.len() {
        places.push(slots.first_place(numbers, place)?)?;
    }
    Ok(places)
}

// First places in slots, of which the first are homes of numbers.
#[derive(Drop)]
struct PlaceSlots {
    homes: usize,
    // One more than a place, or 0 where the slot is free.
    slots: Vec<u32>,
}

impl PlaceSlots {
    // Slots for so many places, all of them free. A quarter of them stays free.
    fn new(alloc: Global, count: usize) -> Result<Self, OutOfMemory>
        requires small { count < 2 ^ 32 }
        ensures { IfOk result (λ slots. (numbers : List ℕ) → HoldPlaces slots numbers 0) }
    {
        let homes = count + count / 3 + 1;
        Ok(PlaceSlots {
            homes,
            slots: vec![in alloc; 0; homes + SPARE_SLOTS]?,
        })
    }

    // The first place that has the number of a place, where the slots hold the places before it. They hold this
    // one too afterwards.
    fn first_place(&mut self, numbers: &[u64], place: usize) -> Result<u32, OutOfMemory>
        requires small { length numbers.now < 2 ^ 32 }
        requires place { place < length numbers.now }
        requires before { HoldPlaces self.old numbers.now place }
        ensures first { IfOk result (λ first. IsFirstPlace numbers.now place first) }
        ensures held { OnOk result (HoldPlaces self.new numbers.now (place + 1)) }
    {
        let slot = self.slot_of(numbers, numbers[place]);
        if slot == self.slots.len() {
            self.slots.push(place as u32 + 1)?;
            return Ok(place as u32);
        }
        let link = self.slots[slot];
        if link != 0 {
            return Ok(link - 1);
        }
        self.slots[slot] = place as u32 + 1;
        Ok(place as u32)
    }

    // The first slot from the home of a number on that is free or holds a place with the number, or the end.
    fn slot_of(&self, numbers: &[u64], number: u64) -> usize
        requires homes { self.now.homes ≤ length self.now.slots.items }
        requires held { (slot : ℕ) → link_at self.now.slots.items slot ≤ length numbers.now }
        ensures from { home_of self.now.homes number ≤ result }
        ensures within { result ≤ length self.now.slots.items }
        ensures passed { ArePassed self.now numbers.now number result }
        ensures found { 0 < link_at self.now.slots.items result → number_at numbers.now (link_at self.now.slots.items result - 1) ≡ number }
    {
        for slot in self.home(number)..self.slots.len() {
            let link = self.slots[slot];
            if link == 0 || numbers[link as usize - 1] == number {
                return slot;
            }
        }
        self.slots.len()
    }

    // Where the search for a number starts: the share of the homes that the upper half of its bits is of all such halves.
    fn home(&self, number: u64) -> usize
        ensures home { result ≡ home_of self.now.homes number }
        ensures within { result ≤ self.now.homes }
    {
        let share = ((number >> 32) as usize).wrapping_mul(self.homes) >> 32;
        share.min(self.homes)
    }
}

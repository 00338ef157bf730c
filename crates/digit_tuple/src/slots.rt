//! Numbers in slots, by their hashes (open addressing: Donald Knuth, "The Art of Computer Programming", volume 3,
//! section 6.4). A hash has a home among the slots, and its number is in the first slot from there on that was free
//! when it came. The slots do not go round: where all up to the end are taken, one more is added.

ghost use Rattle.std.specs.Prelude.{◌≡◌, ℕ, ◌<◌, ◌≤◌, ◌++◌, ◌∷◌, [], List, length, IfOk, OnOk, OnErr};
ghost use Rattle.digit_tuple.specs.Slots.{AreSlotted, IsPut, home_of, slot_at};

use crate::faults::OutOfMemory;
use std::alloc::Global;

// The mask of the first slots.
const FIRST_MASK: usize = 15;

/// A hash, and one more than its number, or 0 where the slot is free.
#[derive(Clone, Copy)]
pub struct Slot {
    pub hash: u32,
    pub link: u32,
}

const FREE: Slot = Slot { hash: 0, link: 0 };

/// Numbers in slots. The mask gives the home of a hash.
#[derive(Drop)]
pub struct SlotTable {
    pub mask: usize,
    pub slots: Vec<Slot>,
}

impl SlotTable {
    /// No slots.
    pub fn new(alloc: Global) -> Self
        ensures { AreSlotted result [] }
    {
        SlotTable {
            mask: 0,
            slots: Vec::new(alloc),
        }
    }

    /// The same numbers in about twice as many slots, or in a few at first. It reads no key. It walks the slots
    /// in their order, which is about that of their homes, so that the new ones are written in two streams.
    pub fn doubled(&self, alloc: Global) -> Result<Self, OutOfMemory>
        requires { self.now.mask ≤ length self.now.slots.items }
        ensures { IfOk result (λ table. (hashes : List ℕ) → AreSlotted self.now hashes → AreSlotted table hashes) }
    {
        let mut more = self.twice(alloc)?;
        for slot in &self.slots {
            if slot.link > 0 {
                more.put_slot(*slot)?;
            }
        }
        Ok(more)
    }

    // About twice as many slots as there are, or a few at first, all of them free.
    fn twice(&self, alloc: Global) -> Result<Self, OutOfMemory>
        requires { self.now.mask ≤ length self.now.slots.items }
        ensures { IfOk result (λ table. AreSlotted table []) }
    {
        let mask = (self.mask * 2 + 1).max(FIRST_MASK);
        let mut slots = Vec::with_capacity(alloc, mask.saturating_add(mask / 8))?;
        slots.resize(mask, FREE)?;
        Ok(SlotTable { mask, slots })
    }

    /// Whether so many numbers leave a quarter of the slots free.
    pub fn has_room(&self, numbers: usize) -> bool {
        numbers < self.mask - self.mask / 4
    }

    /// Where the search for a hash starts.
    pub fn home(&self, hash: u32) -> usize
        ensures home { result ≡ home_of self.now.mask hash }
        ensures within { result ≤ self.now.mask }
    {
        hash as usize & self.mask
    }

    /// The slot at the home of a hash, or a free one where there are no slots.
    pub fn home_slot(&self, hash: u32) -> Slot
        ensures { result ≡ slot_at self.now.slots.items (home_of self.now.mask hash) }
    {
        self.slots.get(self.home(hash)).copied().unwrap_or(FREE)
    }

    /// Gives the next number to a hash. A refused call leaves the numbers. OutOfMemory comes too where
    /// the number is 2^32 - 1 or more.
    pub fn put(&mut self, hash: u32, number: usize) -> Result<(), OutOfMemory>
        requires { self.old.mask ≤ length self.old.slots.items }
        ensures ok { OnOk result ((hashes : List ℕ) → length hashes ≡ number → AreSlotted self.old hashes → AreSlotted self.new (hashes ++ hash ∷ [])) }
        ensures err { OnErr result ((hashes : List ℕ) → AreSlotted self.old hashes → AreSlotted self.new hashes) }
    {
        if number >= u32::MAX as usize {
            return Err(OutOfMemory);
        }
        let link = number as u32 + 1;
        self.put_slot(Slot { hash, link })
    }

    // Writes the slot at the first free place from the home of its hash on. A refused call leaves the numbers.
    fn put_slot(&mut self, slot: Slot) -> Result<(), OutOfMemory>
        requires { self.old.mask ≤ length self.old.slots.items }
        ensures ok { OnOk result (IsPut self.old self.new slot) }
        ensures err { OnErr result ((hashes : List ℕ) → AreSlotted self.old hashes → AreSlotted self.new hashes) }
    {
        let place = free_place(&self.slots, self.home(slot.hash));
        if place < self.slots.len() {
            self.slots[place] = slot;
        } else {
            self.slots.push(slot)?;
        }
        Ok(())
    }
}

// The first free slot from a place on, or the end.
fn free_place(slots: &[Slot], start: usize) -> usize
    requires { start ≤ length slots.now }
    ensures from { start ≤ result }
    ensures within { result ≤ length slots.now }
    ensures free { (slot_at slots.now result).link ≡ 0 }
    ensures taken { (p : ℕ) → start ≤ p → p < result → 0 < (slot_at slots.now p).link }
{
    for place in start..slots.len() {
        if slots[place].link == 0 {
            return place;
        }
    }
    slots.len()
}

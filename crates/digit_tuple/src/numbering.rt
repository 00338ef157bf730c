//! Keys, numbered in the order in which they were first seen.

ghost use Rattle.std.specs.Prelude.{◌≡◌, ◌↔◌, ℕ, ◌+◌, ◌<◌, ◌^◌, [], length, map, IfOk, IsOk, IsTrue, OnErr, MatchOption};
ghost use Rattle.std.specs.List.{Contains};
ghost use Rattle.digit_tuple.specs.Explored.{AreApart, IsNumbered, key_at};
ghost use Rattle.digit_tuple.specs.KeyHashes.{hash_of};
ghost use Rattle.digit_tuple.specs.Slots.{AreSlotted};

use crate::faults::OutOfMemory;
use crate::key_arena::KeyArena;
use crate::key_hashes::key_hash;
use crate::slots::SlotTable;
use std::alloc::Global;
use std::marker::Model;

/// Lists of numbers, no two the same, numbered in the order in which they were first seen. They are in one buffer, and
/// are found by their hashes. Numbers are below 2^32 - 1.
#[derive(Drop)]
pub struct Numbering {
    alloc: Global,
    keys: KeyArena,
    slots: SlotTable,
}

impl Model for Numbering {
    ghost use Rattle.std.specs.Prelude.{◌≡◌, ℕ, List, map};
    ghost use Rattle.digit_tuple.specs.Explored.{AreApart};
    ghost use Rattle.digit_tuple.specs.KeyHashes.{hash_of};
    ghost use Rattle.digit_tuple.specs.Slots.{AreSlotted};

    ghost Value = { List (List ℕ) };

    ghost view = { λ a. a.keys };

    ghost invariant = { λ a. AreApart a.keys × AreSlotted a.slots (map hash_of a.keys) };
}

/// What is read of a key before it is searched for: its hash, and the link that the hash's home held where
/// that was of the same hash, else 0. The link is a guess. Nothing rests on it, and keys may have come since.
#[derive(Clone, Copy)]
pub struct Lookup {
    pub hash: u32,
    pub guess: u32,
}

impl Numbering {
    /// No keys.
    pub fn new(alloc: Global) -> Self
        ensures { result ≡ [] }
    {
        Numbering {
            alloc,
            keys: KeyArena::new(alloc),
            slots: SlotTable::new(alloc),
        }
    }

    /// How many keys have numbers.
    pub fn len(&self) -> usize
        ensures len { result ≡ length self.now }
        ensures apart { AreApart self.now }
        ensures small { result < 2 ^ 63 }
    {
        self.keys.len()
    }

    /// The key with the number.
    pub fn key(&self, number: usize) -> &[u32]
        requires { number < length self.now }
        ensures { result.now ≡ key_at self.now number }
    {
        self.keys.key(number)
    }

    /// The number of a key, a new one if the key was not seen before. A key that was seen takes no
    /// memory. A refused call leaves the keys. OutOfMemory comes too where there are 2^32 - 1 keys.
    pub fn number_of(&mut self, key: &[u32]) -> Result<usize, OutOfMemory>
        ensures number { IfOk result (IsNumbered self.old self.new key.now) }
        ensures seen { Contains self.old key.now → IsOk result }
        ensures err { OnErr result (self.new ≡ self.old) }
    {
        let lookup = self.look_up(key);
        self.number_by(key, lookup)
    }

    /// What `number_by` takes of a key. It reads one slot, and none of the numbered keys, so that the reads
    /// of several lookups do not wait for one another.
    pub fn look_up(&self, key: &[u32]) -> Lookup
        ensures { result.hash ≡ hash_of key.now }
    {
        let hash = key_hash(key);
        let slot = self.slots.home_slot(hash);
        let guess = if slot.hash == hash { slot.link } else { 0 };
        Lookup { hash, guess }
    }

    /// The number of a key that was looked up before, also where keys have come since. What it gives and
    /// what it refuses is as of `number_of`.
    pub fn number_by(&mut self, key: &[u32], lookup: Lookup) -> Result<usize, OutOfMemory>
        requires { lookup.hash ≡ hash_of key.now }
        ensures number { IfOk result (IsNumbered self.old self.new key.now) }
        ensures seen { Contains self.old key.now → IsOk result }
        ensures err { OnErr result (self.new ≡ self.old) }
    {
        if let Some(number) = known_number(&self.keys, &self.slots, key, lookup) {
            return Ok(number);
        }
        let number = self.keys.len();
        make_room(self.alloc, &mut self.slots, &self.keys)?;
        self.keys.push(key)?;
        if let Err(fault) = self.slots.put(lookup.hash, number) {
            self.keys.pop();
            return Err(fault);
        }
        Ok(number)
    }
}

// The number of a key, if it has one: the guess where that is right.
fn known_number(keys: &KeyArena, table: &SlotTable, key: &[u32], lookup: Lookup) -> Option<usize>
    requires hash { lookup.hash ≡ hash_of key.now }
    requires slots { AreSlotted table.now (map hash_of keys.now) }
    ensures { MatchOption result (¬ Contains keys.now key.now) (λ number. (number < length keys.now) × (key_at keys.now number ≡ key.now)) }
{
    if is_linked(keys, key, lookup.guess) {
        return Some(lookup.guess as usize - 1);
    }
    find(keys, table, key, lookup.hash)
}

// Whether the link is one more than the number of the key.
fn is_linked(keys: &KeyArena, key: &[u32], link: u32) -> bool
    ensures { IsTrue result ↔ ((number : ℕ) × (link ≡ number + 1) × (number < length keys.now) × (key_at keys.now number ≡ key.now)) }
{
    link > 0 && link as usize <= keys.len() && keys.key(link as usize - 1) == key
}

// The number of a key with the hash, if it has one.
fn find(keys: &KeyArena, table: &SlotTable, key: &[u32], hash: u32) -> Option<usize>
    requires hash { hash ≡ hash_of key.now }
    requires slots { AreSlotted table.now (map hash_of keys.now) }
    ensures { MatchOption result (¬ Contains keys.now key.now) (λ number. (number < length keys.now) × (key_at keys.now number ≡ key.now)) }
{
    for place in table.home(hash)..table.slots.len() {
        let slot = table.slots[place];
        if slot.link == 0 {
            return None;
        }
        let number = slot.link as usize - 1;
        if slot.hash == hash && keys.key(number) == key {
            return Some(number);
        }
    }
    None
}

// Makes about twice as many slots where few are free. A refused call leaves the slots.
fn make_room(alloc: Global, table: &mut SlotTable, keys: &KeyArena) -> Result<(), OutOfMemory>
    requires { AreSlotted table.old (map hash_of keys.now) }
    ensures { AreSlotted table.new (map hash_of keys.now) }
{
    if table.has_room(keys.len()) {
        return Ok(());
    }
    let more = table.doubled(alloc)?;
    *table = more;
    Ok(())
}

//! The numbers of groups by their keys.

ghost use Rattle.std.specs.Prelude.{◌≡◌, ℕ, ◌-◌, ◌^◌, ◌<◌, [], IfOk, OnErr, length};
ghost use Rattle.gb_table.specs.Table.{AgreesInHash, IsTable, IsNumbered};
ghost use Rattle.gb_table.specs.Entry.{hashes_of, AgreeInHash, IsSpot};

use crate::slots::{Hashed, Spot, make_room, rebuilt};
use std::alloc::{AllocError, Global};
use std::marker::Model;

// A group's key and hash, side by side, since a search reads both.
#[derive(Drop)]
struct Entry<K> {
    key: K,
    hash: u64,
}

impl<K> Hashed for Entry<K> {
    ghost hash_of = { λ entry. entry.hash };

    #[inline]
    fn hash(&self) -> u64 {
        self.hash
    }
}

/// The groups' numbers by their keys. A search starts at the slot that the hash names and goes on to
/// the next ones, so that it is short where few slots are taken; at least half of them are free.
#[derive(Drop)]
pub struct GroupTable<K> {
    // 0 where a slot is free, else a group's number and 1.
    slots: Vec<u32>,
    entries: Vec<Entry<K>>,
}

impl<K> Model for GroupTable<K> {
    ghost use Rattle.std.specs.Prelude.{List, ℕ};
    ghost use Rattle.gb_table.specs.Table.{IsRoomy};
    ghost use Rattle.gb_table.specs.Entry.{pairs_of, hashes_of};

    ghost Value = { List (K × ℕ) };

    ghost view = { λ table. pairs_of table.entries.items };

    ghost invariant = { λ table. IsRoomy table.slots.items (hashes_of table.entries.items) };
}

impl<K: Copy + Eq> GroupTable<K> {
    /// No groups.
    pub fn new(alloc: Global) -> Result<GroupTable<K>, AllocError>
        ensures { IfOk result (λ table. table ≡ []) }
    {
        let entries = Vec::new(alloc);
        let slots = rebuilt(alloc, &entries, 16)?;
        Ok(GroupTable { slots, entries })
    }

    pub fn len(&self) -> usize
        ensures { result ≡ length self.now }
    {
        self.entries.len()
    }

    /// The number of the key's group, a new one where no group has the key. Any hash will do that
    /// equal keys share. Where the low bits of the hashes are spread, a call takes constant time, on
    /// average over all calls, since the table grows.
    #[inline]
    pub fn number_of(&mut self, key: K, hash: u64) -> Result<u32, AllocError>
        requires few { length self.old < 2 ^ 32 - 1 }
        requires alike { AgreesInHash K.eq self.old key hash }
        ensures found { IfOk result (λ number. IsNumbered K.eq self.old self.new key hash number) }
        ensures unchanged { OnErr result (self.new ≡ self.old) }
    {
        make_room(&mut self.slots, &self.entries)?;
        match probe(&self.slots, &self.entries, key, hash) {
            Spot::Known(number) => Ok(number),
            Spot::Free(at) => {
                let number = self.entries.len() as u32;
                self.entries.push(Entry { key, hash })?;
                self.slots[at] = number + 1;
                Ok(number)
            }
        }
    }
}

// The number of the key's group, or the slot that it would take. Hashes are compared first: they are
// at hand, and most other keys differ in them.
#[inline]
fn probe<K: Copy + Eq>(slots: &[u32], entries: &[Entry<K>], key: K, hash: u64) -> Spot
    requires table { IsTable slots.now (hashes_of entries.now) }
    requires room { length entries.now < length slots.now }
    requires alike { AgreeInHash K.eq entries.now key hash }
    ensures { IsSpot K.eq slots.now entries.now hash key result }
{
    let mask = slots.len() - 1;
    let mut at = (hash & mask as u64) as usize;
    for _probe in 0..slots.len() {
        let slot = slots[at];
        if slot == 0 {
            return Spot::Free(at);
        }
        let entry = &entries[(slot - 1) as usize];
        if entry.hash == hash && entry.key == key {
            return Spot::Known(slot - 1);
        }
        at = (at + 1) & mask;
    }
    unreachable!()
}

#[cfg(test)]
mod tests;

//! The slots of a table with open addressing. A search starts at the slot that a hash names and goes on
//! to the next ones.

ghost use Rattle.std.specs.Prelude.{◌≡◌, ℕ, ◌-◌, ◌*◌, ◌^◌, ◌<◌, ◌==◌, IfOk, OnOk, OnErr, length, map, count_by};
ghost use Rattle.gb_table.specs.Table.{IsTable, IsFreeFor, IsPowerOfTwo, IsRoomy};

use std::alloc::{AllocError, Global};

/// What has a hash.
pub(crate) trait Hashed {
    ghost hash_of: { Self → ℕ };

    fn hash(&self) -> u64
        ensures { result ≡ hash_of self.now };
}

/// The number of an entry that is sought, or the slot that it would take.
#[derive(Clone, Copy)]
pub(crate) enum Spot {
    Known(u32),
    Free(usize),
}

/// Doubles the slots where half of them are taken.
#[inline]
pub(crate) fn make_room<E: Hashed>(slots: &mut Vec<u32>, entries: &[E]) -> Result<(), AllocError>
    requires roomy { IsRoomy slots.old.items (map E.hash_of entries.now) }
    requires few { length entries.now < 2 ^ 32 }
    ensures roomy { OnOk result (IsRoomy slots.new.items (map E.hash_of entries.now)) }
    ensures room { OnOk result (2 * length entries.now < length slots.new.items) }
    ensures unchanged { OnErr result (slots.new.items ≡ slots.old.items) }
{
    if 2 * entries.len() < slots.len() {
        return Ok(());
    }
    *slots = rebuilt(*slots.allocator(), entries, 2 * slots.len())?;
    Ok(())
}

/// Slots for these entries, by their hashes alone.
#[cold]
#[inline(never)]
pub(crate) fn rebuilt<E: Hashed>(
    alloc: Global,
    entries: &[E],
    capacity: usize,
) -> Result<Vec<u32>, AllocError>
    requires power { IsPowerOfTwo capacity }
    requires room { length entries.now < capacity }
    requires few { length entries.now < 2 ^ 32 }
    ensures table { IfOk result (λ slots. IsTable slots.items (map E.hash_of entries.now)) }
    ensures len { IfOk result (λ slots. length slots.items ≡ capacity) }
{
    let mut slots = vec![in alloc; 0u32; capacity]?;
    for number in 0..entries.len() {
        let at = free_spot(&slots, entries[number].hash());
        slots[at] = number as u32 + 1;
    }
    Ok(slots)
}

// The first free slot from the hash on.
#[inline]
fn free_spot(slots: &[u32], hash: u64) -> usize
    requires power { IsPowerOfTwo (length slots.now) }
    requires room { 0 < count_by (λ s. s == 0) slots.now }
    ensures { IsFreeFor slots.now hash result }
{
    let mask = slots.len() - 1;
    let mut at = (hash & mask as u64) as usize;
    for _probe in 0..slots.len() {
        if slots[at] == 0 {
            return at;
        }
        at = (at + 1) & mask;
    }
    unreachable!()
}

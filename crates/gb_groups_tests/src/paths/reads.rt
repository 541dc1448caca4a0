//! How often a key is read. Steps are for proofs alone and leave no trace in a run, so these rows count
//! in a number of their own.

ghost use Rattle.std.specs.Prelude.{ℕ, pos, nat_eq};
ghost use Rattle.std.specs.Int.{w64};
ghost use Rattle.gb_defs.specs.Rows.{rows_of_slots};
ghost use Rattle.gb_defs.specs.Slot.{Num};
ghost use Rattle.gb_numbers.specs.Native.{Decides-pos};
ghost use Rattle.gb_hash.specs.Keys.{key_slots, keys_decide_by, slots_alike};

use super::Unmixed;
use gb_hash::dirty_hash::DirtyHash;
use gb_hash::key_rows::{KeyRows, Steps};
use gb_paths::group_by::group_uncounted;
use std::sync::atomic::{AtomicU64, Ordering};
use std::sync::ledger::Ledger;
use std::test::Fail;

#[derive(Drop)]
struct CountedRows<'a> {
    keys: &'a [u64],
    reads: &'a AtomicU64,
}

impl<'a> KeyRows for CountedRows<'a> {
    type Key = u64;

    ghost rows = { λ r. rows_of_slots w64 0 (λ x. x) (key_slots (λ (n : ℕ). pos n) r.keys.now) };

    ghost key_slot = { λ k. Num (pos k) };

    ghost keys_decide = { keys_decide_by nat_eq (λ (n : ℕ). pos n) Decides-pos };

    ghost hashes_alike = { λ r. slots_alike w64 0 (λ x. x) (key_slots (λ (n : ℕ). pos n) r.keys.now) };

    fn len(&self) -> usize {
        self.keys.len()
    }

    fn key_at<L: Ledger>(&self, i: usize, steps: &mut Steps<L>) -> u64 {
        self.reads.fetch_add(1, Ordering::Relaxed);
        steps.tick();
        self.keys[i]
    }

    fn hash_at(&self, i: usize) -> u64 {
        self.keys[i].dirty_hash(&Unmixed)
    }
}

#[test]
fn three_rows_are_read_three_times(rt: HostRuntime) -> Result<(), Fail> {
    let reads = AtomicU64::new(0);
    let rows = CountedRows {
        keys: &[4, 9, 4],
        reads: &reads,
    };
    let groups = group_uncounted(rt.alloc(), &rows, false)?;
    assert_eq!(rt; groups.len(), 2);
    assert_eq!(rt; reads.load(Ordering::Relaxed), 3);
    Ok(())
}

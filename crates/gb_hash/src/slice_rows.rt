//! The rows of a slice of numbers.

ghost use Rattle.std.specs.Prelude.{◌≡◌};
ghost use Rattle.gb_defs.specs.Slot.{Num};
ghost use Rattle.gb_defs.specs.Rows.{rows_of_slots};
ghost use Rattle.gb_hash.specs.Keys.{key_slots, keys_decide_by, slots_alike};

use crate::dirty_hash::{DirtyHash, Mixer};
use crate::key_rows::{KeyRows, Steps};
use std::hash::Hash;
use std::sync::ledger::Ledger;

/// The rows of a slice of numbers, which are its keys; no row is null.
#[derive(Drop)]
pub struct SliceRows<'a, K, M: Mixer> {
    pub keys: &'a [K],
    pub mixer: M,
}

impl<'a, K, M: Mixer> SliceRows<'a, K, M> {
    pub fn new(keys: &'a [K], mixer: M) -> Self
        ensures keys { result.keys.now ≡ keys.now }
        ensures mixer { result.mixer ≡ mixer }
    {
        SliceRows { keys, mixer }
    }
}

impl<'a, K: Copy + Eq + Hash + Send + Sync + DirtyHash, M: Mixer + Sync> KeyRows
    for SliceRows<'a, K, M> {
    type Key = K;

    ghost rows = { λ r. rows_of_slots K.width (M.seed_of r.mixer) (M.mix_of r.mixer) (key_slots K.number r.keys.now) };

    ghost key_slot = { λ k. Num (K.number k) };

    ghost keys_decide = { keys_decide_by K.eq K.number K.equal_by_number };

    ghost hashes_alike = { λ r. slots_alike K.width (M.seed_of r.mixer) (M.mix_of r.mixer) (key_slots K.number r.keys.now) };

    fn len(&self) -> usize {
        self.keys.len()
    }

    fn key_at<L: Ledger>(&self, i: usize, steps: &mut Steps<L>) -> K {
        steps.tick();
        self.keys[i]
    }

    fn hash_at(&self, i: usize) -> u64 {
        self.keys[i].dirty_hash(&self.mixer)
    }
}

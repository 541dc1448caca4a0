//! The rows of a column of numbers.

ghost use Rattle.std.specs.Prelude.{◌≡◌};
ghost use Rattle.gb_defs.specs.Rows.{rows_of_slots};
ghost use Rattle.gb_defs.specs.Hash.{hash_of};
ghost use Rattle.gb_values.specs.Array.{native_slot};
ghost use Rattle.gb_hash.specs.Keys.{numbers_decide, slots_alike};

use crate::dirty_hash::{DirtyHash, Mixer};
use crate::key_rows::{KeyRows, Steps};
use crate::row_mixer::RowMixer;
use gb_cols::chunked::ChunkedArray;
use gb_cols::series_trait::SeriesTrait;
use gb_numbers::numeric::{Native, PolarsNumericType};
use gb_values::primitive::NumberValues;
use std::sync::ledger::Ledger;

/// The rows of a column of numbers, with its numbers as keys.
#[derive(Drop)]
pub struct NumRows<'a, T: PolarsNumericType, M: Mixer> {
    pub column: &'a ChunkedArray<NumberValues<T>>,
    pub mixer: RowMixer<M>,
}

impl<'a, T: PolarsNumericType, M: Mixer> NumRows<'a, T, M> {
    pub fn new(column: &'a ChunkedArray<NumberValues<T>>, mixer: M) -> Self
        ensures column { result.column.now ≡ column.now }
        ensures mixer { result.mixer ≡ mixer }
    {
        let mixer = RowMixer::new(mixer);
        NumRows { column, mixer }
    }
}

impl<'a, T: PolarsNumericType, M: Mixer + Sync> KeyRows for NumRows<'a, T, M>
where
    T::Native: Send + Sync,
{
    type Key = Option<T::Native>;

    ghost rows = { λ r. rows_of_slots T.Native.width (M.seed_of r.mixer) (M.mix_of r.mixer) r.column.now.slots };

    ghost key_slot = { native_slot T.Native.number };

    ghost keys_decide = { numbers_decide T.Native.eq T.Native.number T.Native.equal_by_number };

    ghost hashes_alike = { λ r. slots_alike T.Native.width (M.seed_of r.mixer) (M.mix_of r.mixer) r.column.now.slots };

    fn len(&self) -> usize {
        self.column.len()
    }

    fn key_at<L: Ledger>(&self, i: usize, steps: &mut Steps<L>) -> Option<T::Native> {
        steps.tick();
        self.column.get(i)
    }

    fn hash_at(&self, i: usize) -> u64 {
        hash_option(&self.mixer, self.column.get(i))
    }
}

// The hash of a number, or that of null.
#[inline]
fn hash_option<N: Native, M: Mixer>(mixer: &RowMixer<M>, number: Option<N>) -> u64
    ensures { let slot = native_slot N.number number in
        result ≡ hash_of N.width (M.seed_of mixer.now) (M.mix_of mixer.now) slot }
{
    match number {
        None => mixer.hash_null(),
        Some(number) => number.dirty_hash(mixer.mixer()),
    }
}

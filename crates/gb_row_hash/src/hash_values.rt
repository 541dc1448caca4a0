//! The hash of one slot: each kind of values has its own, and its own way to put it to an earlier hash.

ghost use Rattle.std.specs.Prelude.{◌≡◌, ◌<◌, length};
ghost use Rattle.gb_defs.specs.Hash.{combine_of, multiply_combine};
ghost use Rattle.gb_defs.specs.Slot.{slot_at};
ghost use Rattle.gb_row_hash.specs.Hashes.{slot_hash};

use gb_hash::combine::{_boost_hash_combine, folded_multiply};
use gb_hash::dirty_hash::{DirtyHash, Mixer};
use gb_hash::row_mixer::RowMixer;
use gb_numbers::numeric::PolarsNumericType;
use gb_values::boolean::FlagValues;
use gb_values::nullable::{NullableArray, Values};
use gb_values::primitive::NumberValues;

/// Values whose slots have hashes.
pub trait HashValues: Values {
    /// The hash of the slot at a place of a chunk of such values.
    fn hash_at<M: Mixer>(chunk: &NullableArray<Self>, i: usize, mixer: &RowMixer<M>) -> u64
        requires { i < length chunk.now }
        ensures { let hash = slot_hash Self.dtype (M.seed_of mixer.now) (M.mix_of mixer.now) in
            result ≡ hash (slot_at chunk.now i) };

    /// The hash of a slot put to the hash of its row so far.
    fn combine(hash: u64, before: u64) -> u64
        ensures { result ≡ combine_of Self.dtype hash before };
}

impl<T: PolarsNumericType> HashValues for NumberValues<T> {
    #[inline]
    fn hash_at<M: Mixer>(chunk: &NullableArray<Self>, i: usize, mixer: &RowMixer<M>) -> u64 {
        match chunk.get(i) {
            Some(number) => number.dirty_hash(mixer.mixer()),
            None => mixer.hash_null(),
        }
    }

    #[inline]
    fn combine(hash: u64, before: u64) -> u64 {
        combine_by_multiply(hash, before)
    }
}

impl HashValues for FlagValues {
    #[inline]
    fn hash_at<M: Mixer>(chunk: &NullableArray<Self>, i: usize, mixer: &RowMixer<M>) -> u64 {
        match chunk.get(i) {
            Some(flag) => u64::from(flag).dirty_hash(mixer.mixer()),
            None => mixer.hash_null(),
        }
    }

    #[inline]
    fn combine(hash: u64, before: u64) -> u64 {
        _boost_hash_combine(hash, before)
    }
}

// The factor of both products.
const FACTOR: u64 = 6_364_136_223_846_793_005;

// The hash of a number put to the hash of its row so far.
#[inline]
fn combine_by_multiply(hash: u64, before: u64) -> u64
    ensures { result ≡ multiply_combine hash before }
{
    folded_multiply(hash ^ folded_multiply(before, FACTOR), FACTOR)
}

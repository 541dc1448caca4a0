//! The hashes of texts and of other bytes.

ghost use Rattle.std.specs.Prelude.{◌≡◌, ◌++◌, IfErr, OnOk, OnErr};
ghost use Rattle.gb_base.specs.PlSmallStr.{IsNoMemory};
ghost use Rattle.gb_row_hash.specs.Hashes.{slot_hashes};

use crate::column_hash::push_column;
use crate::hash_values::HashValues;
use gb_base::error::PolarsResult;
use gb_cols::binary::BinaryOffsetChunked;
use gb_cols::series_trait::SeriesTrait;
use gb_hash::combine::_boost_hash_combine;
use gb_hash::dirty_hash::Mixer;
use gb_hash::row_mixer::RowMixer;
use gb_values::bytes::{ByteKind, ByteValues};
use gb_values::nullable::NullableArray;

impl<K: ByteKind> HashValues for ByteValues<K> {
    #[inline]
    fn hash_at<M: Mixer>(chunk: &NullableArray<Self>, i: usize, mixer: &RowMixer<M>) -> u64 {
        match chunk.bytes_at(i) {
            Some(bytes) => mixer.hash_text(bytes),
            None => mixer.hash_null(),
        }
    }

    #[inline]
    fn combine(hash: u64, before: u64) -> u64 {
        _boost_hash_combine(hash, before)
    }
}

/// The hash of each row of a column of bytes behind what the buffer holds. After a refusal the buffer holds
/// what it did. One pass.
pub fn _hash_binary_array<M: Mixer>(
    arr: &BinaryOffsetChunked,
    random_state: M,
    buf: &mut Vec<u64>,
) -> PolarsResult<()>
    ensures ok { let hashes = slot_hashes (M.seed_of random_state) (M.mix_of random_state) in
        OnOk result (buf.new.items ≡ buf.old.items ++ hashes arr.now) }
    ensures err { IfErr result IsNoMemory }
    ensures unchanged { OnErr result (buf.new.items ≡ buf.old.items) }
{
    buf.reserve(arr.len())?;
    push_column(arr, random_state, buf);
    Ok(())
}

//! The hashes of flat columns of values and of nulls, chunk by chunk.

ghost use Rattle.std.specs.Prelude.{◌≡◌, ◌+◌, ◌++◌, ◌≤◌, length, map, vec_capacity, vec_len, OnOk, OnErr};
ghost use Rattle.gb_defs.specs.Hash.{combine_of};
ghost use Rattle.gb_row_hash.specs.Hashes.{IsCleared, combine_each, slot_hash, slot_hashes};

use crate::hash_values::HashValues;
use crate::vec_hash::VecHash;
use gb_base::error::PolarsResult;
use gb_cols::chunked::ChunkedArray;
use gb_cols::null::NullChunked;
use gb_cols::series_trait::SeriesTrait;
use gb_hash::combine::_boost_hash_combine;
use gb_hash::dirty_hash::{Mixer, hash_null};
use gb_hash::row_mixer::RowMixer;
use gb_values::nullable::NullableArray;
use std::alloc::AllocError;

impl<V: HashValues> VecHash for ChunkedArray<V> {
    fn vec_hash<M: Mixer>(&self, random_state: M, buf: &mut Vec<u64>) -> PolarsResult<()> {
        // The call tells the column's type.
        let _ = self.allocator();
        clear(buf, self.len())?;
        push_column(self, random_state, buf);
        Ok(())
    }

    fn vec_hash_combine<M: Mixer>(&self, random_state: M, hashes: &mut [u64]) -> PolarsResult<()> {
        // The call tells the column's type.
        let _ = self.allocator();
        let mixer = RowMixer::new(random_state);
        let (earlier, last) = self.chunks();
        let mut start = 0;
        for chunk in earlier {
            let end = start + chunk.len();
            combine_chunk(chunk, &mixer, &mut hashes[start..end]);
            start = end;
        }
        combine_chunk(last, &mixer, &mut hashes[start..]);
        Ok(())
    }
}

impl VecHash for NullChunked {
    fn vec_hash<M: Mixer>(&self, random_state: M, buf: &mut Vec<u64>) -> PolarsResult<()> {
        // The call tells the column's type, and that its slots are nulls.
        let _ = self.allocator();
        let null = hash_null(&random_state);
        let count = self.len();
        clear(buf, count)?;
        for _row in 0..count {
            buf.push_reserved(null);
        }
        Ok(())
    }

    fn vec_hash_combine<M: Mixer>(&self, random_state: M, hashes: &mut [u64]) -> PolarsResult<()> {
        // The call tells the column's type, and that its slots are nulls.
        let _ = self.allocator();
        let null = hash_null(&random_state);
        for hash in hashes.iter_mut() {
            *hash = _boost_hash_combine(null, *hash);
        }
        Ok(())
    }
}

// Empties a buffer, and makes room in it for so many hashes.
fn clear(buf: &mut Vec<u64>, count: usize) -> Result<(), AllocError>
    ensures ok { OnOk result (IsCleared count buf.new) }
    ensures err { OnErr result (buf.new.items ≡ buf.old.items) }
{
    buf.reserve(count.saturating_sub(buf.len()))?;
    buf.clear();
    Ok(())
}

// The hashes of a column behind those before, for which there is room.
pub(crate) fn push_column<V: HashValues, M: Mixer>(
    column: &ChunkedArray<V>,
    random_state: M,
    buf: &mut Vec<u64>,
)
    requires { vec_len buf.old + length column.now.slots ≤ vec_capacity buf.old }
    ensures { let hashes = slot_hashes (M.seed_of random_state) (M.mix_of random_state) in
        buf.new.items ≡ buf.old.items ++ hashes column.now }
{
    // The call tells the column's type.
    let _ = column.allocator();
    let mixer = RowMixer::new(random_state);
    let (earlier, last) = column.chunks();
    for chunk in earlier {
        push_hashes(chunk, &mixer, buf);
    }
    push_hashes(last, &mixer, buf);
}

// The hashes of a chunk behind those before, for which there is room.
fn push_hashes<V: HashValues, M: Mixer>(
    chunk: &NullableArray<V>,
    mixer: &RowMixer<M>,
    buf: &mut Vec<u64>,
)
    requires { vec_len buf.old + length chunk.now ≤ vec_capacity buf.old }
    ensures hashes { let hash = slot_hash V.dtype (M.seed_of mixer.now) (M.mix_of mixer.now) in
        buf.new.items ≡ buf.old.items ++ map hash chunk.now }
    ensures room { vec_capacity buf.new ≡ vec_capacity buf.old }
{
    for i in 0..chunk.len() {
        buf.push_reserved(V::hash_at(chunk, i, mixer));
    }
}

// The hash of each slot of a chunk put to the hash at its place.
fn combine_chunk<V: HashValues, M: Mixer>(
    chunk: &NullableArray<V>,
    mixer: &RowMixer<M>,
    hashes: &mut [u64],
)
    requires { length hashes.old ≡ length chunk.now }
    ensures { let hash = slot_hash V.dtype (M.seed_of mixer.now) (M.mix_of mixer.now) in
        hashes.new ≡ combine_each (combine_of V.dtype) (map hash chunk.now) hashes.old }
{
    for (i, hash) in hashes.iter_mut().enumerate() {
        *hash = V::combine(V::hash_at(chunk, i, mixer), *hash);
    }
}

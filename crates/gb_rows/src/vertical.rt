//! The bytes of rows of lent columns, made by several workers, each some rows that follow each other.

ghost use Rattle.std.specs.Prelude.{◌≡◌, ◌+◌, ◌<◌, ◌≤◌, ◌^◌, ℕ, length, map, IfOk, IfErr, OnOk, slice_index_or};
ghost use Rattle.std.specs.List.{flat_map, list_any};
ghost use Rattle.gb_base.specs.PlSmallStr.{IsNoMemory};
ghost use Rattle.gb_base.specs.Pool.{workers_of};
ghost use Rattle.gb_defs.specs.Column.{ColumnValue, frame_height};
ghost use Rattle.gb_defs.specs.Flat.{range_at};
ghost use Rattle.gb_rows.specs.Cells.{cells_of, is_null_cell};
ghost use Rattle.gb_rows.specs.Lent.{keys_in, lent_cells, share_of_cells, slot_of_cells, slots_by};
ghost use Rattle.gb_rows.specs.Parts.{AreRowChunks, broadcast_in_parts, in_parts, joined_chunks, rows_in_parts};
ghost use Rattle.gb_rows.specs.Rows.{AreOfOneLength, HaveRows};
ghost use Rattle.gb_rows.specs.Told.{AreToldByRows, FitTypes};

use crate::encode::encode;
use crate::full_rows::full_rows;
use crate::lent_key::LentKey;
use crate::row_nulls::RowNulls;
use gb_base::error::PolarsResult;
use gb_base::pool::Pool;
use gb_cols::binary::BinaryOffsetChunked;
use gb_cols::series_trait::SeriesTrait;
use gb_flat::shares::map_shares;
use gb_series::series::Column;
use std::alloc::Global;
use std::thread::Threads;

/// The bytes of each row, in a chunk for each worker, in a column with an empty name. Nothing is copied of
/// flat columns; nested ones are encoded whole before.
pub fn encode_rows_vertical_par_unordered<T: Threads + Sync>(
    rt: &T,
    alloc: Global,
    by: &[&Column],
    pool: &Pool,
) -> PolarsResult<BinaryOffsetChunked>
    requires some { 0 < length by.now }
    requires aligned { AreOfOneLength (keys_in by.now) }
    ensures ok { IfOk result (λ c. c ≡ rows_in_parts (workers_of pool.now) (keys_in by.now)) }
    ensures told { OnOk result (AreToldByRows (keys_in by.now)) }
    ensures err { IfErr result IsNoMemory }
{
    let rows = encode_vertical(rt, alloc, by, RowNulls::Encoded, pool)?;
    Ok(rows)
}

/// The same with a null for each row in which some key has one. One pass more over the keys that have nulls.
pub fn encode_rows_vertical_par_unordered_broadcast_nulls<T: Threads + Sync>(
    rt: &T,
    alloc: Global,
    by: &[&Column],
    pool: &Pool,
) -> PolarsResult<BinaryOffsetChunked>
    requires some { 0 < length by.now }
    requires aligned { AreOfOneLength (keys_in by.now) }
    ensures ok { IfOk result (λ c. c ≡ broadcast_in_parts (workers_of pool.now) (keys_in by.now)) }
    ensures told { OnOk result (AreToldByRows (keys_in by.now)) }
    ensures err { IfErr result IsNoMemory }
{
    let rows = encode_vertical(rt, alloc, by, RowNulls::Broadcast, pool)?;
    Ok(rows)
}

fn encode_vertical<T: Threads + Sync>(
    rt: &T,
    alloc: Global,
    by: &[&Column],
    nulls: RowNulls,
    pool: &Pool,
) -> PolarsResult<BinaryOffsetChunked>
    requires { AreOfOneLength (keys_in by.now) }
    ensures ok { let keys = keys_in by.now in IfOk result (λ c.
        c ≡ in_parts (workers_of pool.now) (frame_height keys) (slots_by nulls keys)) }
    ensures told { OnOk result (AreToldByRows (keys_in by.now)) }
    ensures err { IfErr result IsNoMemory }
{
    let keys = lend_keys(alloc, by)?;
    let height = height_of(by);
    let chunks = encode_shares(rt, alloc, &keys, nulls, height, pool.workers())?;
    let rows = join_chunks(chunks)?;
    Ok(rows)
}

fn height_of(by: &[&Column]) -> usize
    ensures value { result ≡ frame_height (keys_in by.now) }
    ensures small { result < 2 ^ 63 }
{
    match by.first() {
        Some(column) => column.len(),
        None => 0,
    }
}

// What gives the cells of each key.
fn lend_keys<'a>(alloc: Global, by: &[&'a Column]) -> PolarsResult<Vec<LentKey<'a>>>
    ensures ok { IfOk result (λ made.
        map lent_cells made.items ≡ map cells_of (keys_in by.now)) }
    ensures fits { OnOk result (FitTypes (keys_in by.now)) }
    ensures err { IfErr result IsNoMemory }
{
    let mut made = Vec::with_capacity(alloc, by.len())?;
    for key in by {
        made.push(LentKey::new(key)?)?;
    }
    Ok(made)
}

// Where no key has a null no row has one, and so none needs a flag.
fn nulls_among(keys: &[LentKey], nulls: RowNulls) -> RowNulls
    ensures { let columns = map lent_cells keys.now in
        (row : ℕ) → slot_of_cells result columns row ≡ slot_of_cells nulls columns row }
{
    if have_nulls(keys) {
        nulls
    } else {
        RowNulls::Encoded
    }
}

fn have_nulls(keys: &[LentKey]) -> bool
    ensures { result ≡ list_any (λ key. list_any is_null_cell (lent_cells key)) keys.now }
{
    keys.iter().any(|key| key.has_nulls())
}

// The rows of each of so many ranges that follow each other.
fn encode_shares<T: Threads + Sync>(
    rt: &T,
    alloc: Global,
    keys: &[LentKey],
    nulls: RowNulls,
    height: usize,
    workers: usize,
) -> PolarsResult<Vec<BinaryOffsetChunked>>
    requires some { 1 ≤ workers }
    requires long { HaveRows (map lent_cells keys.now) height }
    ensures len { IfOk result (λ made. length made.items ≡ workers) }
    ensures each { let columns = map lent_cells keys.now in IfOk result (λ made.
        (k : ℕ) (d : ColumnValue) → k < workers
        → slice_index_or made.items k d
        ≡ share_of_cells nulls columns (range_at height workers k)) }
    ensures err { IfErr result IsNoMemory }
{
    let nulls = nulls_among(keys, nulls);
    let part = |range: (usize, usize)|
        requires { HaveRows (map lent_cells keys.now) (range.0 + range.1) }
        ensures { IfOk result (λ c.
            c ≡ share_of_cells nulls (map lent_cells keys.entry.now) range)
            × IfErr result IsNoMemory }
    { encode_share(alloc, keys, nulls, range) };
    Ok(map_shares(rt, alloc, height, workers, &part)?)
}

// The rows of a range, its first and how many they are, in one chunk.
fn encode_share(
    alloc: Global,
    keys: &[LentKey],
    nulls: RowNulls,
    range: (usize, usize),
) -> PolarsResult<BinaryOffsetChunked>
    requires { HaveRows (map lent_cells keys.now) (range.0 + range.1) }
    ensures ok { IfOk result (λ c. c ≡ share_of_cells nulls (map lent_cells keys.now) range) }
    ensures err { IfErr result IsNoMemory }
{
    let (start, count) = range;
    let rows = encode(alloc, keys, start, start + count)?;
    match nulls {
        RowNulls::Encoded => Ok(rows.into_array()),
        RowNulls::Broadcast => {
            let full = full_rows(alloc, keys, start, start + count)?;
            Ok(rows.into_nullable(full))
        }
    }
}

// The chunks one behind the other. None is copied.
fn join_chunks(mut chunks: Vec<BinaryOffsetChunked>) -> PolarsResult<BinaryOffsetChunked>
    requires some { 0 < length chunks.items }
    requires each { AreRowChunks chunks.items }
    requires few { length (flat_map (λ c. c.slots) chunks.items) < 2 ^ 63 }
    ensures ok { IfOk result (λ c. c ≡ joined_chunks chunks.items) }
    ensures err { IfErr result IsNoMemory }
{
    let mut rows = chunks.remove(0);
    for chunk in chunks {
        rows.append(chunk)?;
    }
    Ok(rows)
}

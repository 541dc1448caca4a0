//! The hash of each row: asked of the row where it is wanted once, or taken ahead, by several workers,
//! where it is wanted more than once.

ghost use Rattle.std.specs.Prelude.{◌≡◌, ℕ, ◌+◌, ◌<◌, ◌≤◌, List, IfErr, IfOk, length, slice_index, map};
ghost use Rattle.std.specs.List.{range_with_len};
ghost use Rattle.gb_defs.specs.Rows.{AreHashes};
ghost use Rattle.gb_base.specs.PlSmallStr.{IsNoMemory};
ghost use Rattle.gb_paths.specs.Hashes.{HasChunks, HasRows, chunks_from, hashes_below, items_of};

use gb_base::error::PolarsResult;
use gb_base::pool::Pool;
use gb_flat::shares::{join_shares, map_shares};
use gb_hash::key_rows::KeyRows;
use std::alloc::{AllocError, Global};
use std::marker::Model;
use std::thread::Threads;

/// The hashes of so many rows are made by one worker, and for fewer no thread is started. It is a guess
/// at the rows that are hashed in the time that a thread takes to start: about 15 microseconds, at 2
/// nanoseconds a row. A power of two, so that a row's chunk and its place there are a shift and a mask.
pub(crate) const CHUNK_ROWS: usize = 8192;

/// The hashes of rows.
pub trait RowHashes {
    // The hash of each row, from the first on.
    ghost hashes: { Self → List ℕ };

    fn hash_of(&self, row: usize) -> u64
        requires { row < length (hashes self.now) }
        ensures { result ≡ slice_index (hashes self.now) row };
}

/// Hashes of which none is kept: each row is asked for its own.
#[derive(Drop)]
pub struct AskedHashes<'a, R: KeyRows> {
    pub rows: &'a R,
}

impl<'a, R: KeyRows> RowHashes for AskedHashes<'a, R> {
    ghost hashes = { λ asked. hashes_below (R.rows asked.rows.now) };

    #[inline(always)]
    fn hash_of(&self, row: usize) -> u64 {
        self.rows.hash_at(row)
    }
}

/// Hashes that were taken ahead, in chunks of which each but the last is full. So each worker makes its
/// own, and none makes room for all.
#[derive(Drop)]
pub struct HashChunks {
    chunks: Vec<Vec<u64>>,
    count: usize,
}

impl Model for HashChunks {
    ghost use Rattle.std.specs.Prelude.{List, ℕ};
    ghost use Rattle.gb_paths.specs.Hashes.{AreChunks, hashes_in};

    ghost Value = { List ℕ };

    ghost view = { λ hashes. hashes_in hashes.chunks.items hashes.count };

    ghost invariant = { λ hashes. AreChunks hashes.chunks.items hashes.count };
}

impl HashChunks {
    pub fn len(&self) -> usize
        ensures { result ≡ length self.now }
    {
        self.count
    }
}

impl RowHashes for HashChunks {
    ghost hashes = { λ hashes. hashes };

    #[inline(always)]
    fn hash_of(&self, row: usize) -> u64 {
        self.chunks[row / CHUNK_ROWS][row % CHUNK_ROWS]
    }
}

/// The hash of each row, taken by as many workers as the pool has, each some chunks that follow each
/// other.
pub fn hash_rows_par<T: Threads + Sync, R: KeyRows>(
    rt: &T,
    alloc: Global,
    rows: &R,
    pool: &Pool,
) -> PolarsResult<HashChunks>
    ensures hashes { IfOk result (λ hashes. AreHashes (R.rows rows.now) 0 hashes) }
    ensures all { IfOk result (λ hashes. length hashes ≡ (R.rows rows.now).count) }
    ensures err { IfErr result IsNoMemory }
{
    let count = rows.len();
    let n_chunks = count.div_ceil(CHUNK_ROWS);
    let workers = pool.workers().min(n_chunks).max(1);
    let part = |range: (usize, usize)|
        requires { HasChunks (R.rows rows.now) (range.0 + range.1) }
        ensures { IfOk result (λ chunks.
            items_of chunks.items ≡ chunks_from (R.rows rows.entry.now) range)
            × IfErr result IsNoMemory }
    { hash_chunks(alloc, rows, range) };
    let made = map_shares(rt, alloc, n_chunks, workers, &part)?;
    let chunks = join_shares(alloc, made)?;
    Ok(HashChunks { chunks, count })
}

// The chunks of a range, its first and how many they are.
fn hash_chunks<R: KeyRows>(
    alloc: Global,
    rows: &R,
    range: (usize, usize),
) -> PolarsResult<Vec<Vec<u64>>>
    requires { HasChunks (R.rows rows.now) (range.0 + range.1) }
    ensures ok { IfOk result (λ chunks.
        items_of chunks.items ≡ chunks_from (R.rows rows.now) range) }
    ensures err { IfErr result IsNoMemory }
{
    let (first, count) = range;
    let mut chunks = Vec::with_capacity(alloc, count)?;
    for place in 0..count {
        let start = (first + place) * CHUNK_ROWS;
        let long = CHUNK_ROWS.min(rows.len() - start);
        chunks.push_reserved(hash_rows(alloc, rows, start, long)?);
    }
    Ok(chunks)
}

// The hashes of so many rows from `start` on.
fn hash_rows<R: KeyRows>(
    alloc: Global,
    rows: &R,
    start: usize,
    count: usize,
) -> Result<Vec<u64>, AllocError>
    requires { HasRows (R.rows rows.now) start count }
    ensures { IfOk result (λ hashes.
        hashes.items ≡ map (R.rows rows.now).hash (range_with_len start count)) }
{
    let mut hashes = Vec::with_capacity(alloc, count)?;
    for place in 0..count {
        hashes.push_reserved(rows.hash_at(start + place));
    }
    Ok(hashes)
}

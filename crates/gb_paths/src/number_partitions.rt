//! The numbers of rows' groups by a table for each partition of the hashes. The partitions are dealt to the
//! workers.

ghost use Rattle.std.specs.Prelude.{◌≡◌, ℕ, ◌+◌, ◌<◌, ◌≤◌, All, IfErr, IfOk, get_or, length, map};
ghost use Rattle.gb_defs.specs.Classes.{rows_below};
ghost use Rattle.gb_defs.specs.Groups.{HasRowNumbers};
ghost use Rattle.gb_base.specs.PlSmallStr.{IsNoMemory};
ghost use Rattle.gb_paths.specs.Leaders.{ArePartitions, leader_among, led, led_by, led_partitions, put_parts};
ghost use Rattle.gb_paths.specs.Numbering.{AreNumbersAmong};
ghost use Rattle.gb_paths.specs.Partitions.{list_joined};

use crate::gathered_rows::number_gathered;
use crate::leaders::{LedRows, leaders_of, number_leaders, put_leaders};
use crate::row_hashes::{HashChunks, hash_rows_par};
use crate::row_numbers::RowNumbers;
use crate::row_partitions::{join_lists, partition_rows};
use gb_base::error::PolarsResult;
use gb_base::nullable_idx::IdxSize;
use gb_base::pool::Pool;
use gb_flat::shares::{join_shares, map_shares};
use gb_groups::groups_idx::IdxVec;
use gb_hash::key_rows::KeyRows;
use std::alloc::{AllocError, Global};
use std::thread::Threads;

/// So many rows have a partition, whose table the processor then has near.
const PARTITION_ROWS: usize = 16_384;

/// More partitions are more places that are written to side by side.
const MOST_PARTITIONS: usize = 256;

/// The numbers of all rows' groups.
pub(crate) fn number_by_partitions<T: Threads + Sync, R: KeyRows>(
    rt: &T,
    alloc: Global,
    rows: &R,
    pool: &Pool,
) -> PolarsResult<RowNumbers>
    requires few { HasRowNumbers (R.rows rows.now).count }
    ensures ok { let rows = R.rows rows.now in
        IfOk result (AreNumbersAmong rows (rows_below rows.count)) }
    ensures err { IfErr result IsNoMemory }
{
    let leaders = find_leaders(rt, alloc, rows, pool)?;
    let numbers = number_leaders(alloc, &leaders)?;
    Ok(numbers)
}

// The leader of each row.
fn find_leaders<T: Threads + Sync, R: KeyRows>(
    rt: &T,
    alloc: Global,
    rows: &R,
    pool: &Pool,
) -> PolarsResult<Vec<IdxSize>>
    requires few { HasRowNumbers (R.rows rows.now).count }
    ensures ok { let rows = R.rows rows.now in IfOk result (λ leaders.
        leaders.items ≡ map (leader_among rows) (rows_below rows.count)) }
    ensures err { IfErr result IsNoMemory }
{
    let partitions = (rows.len() / PARTITION_ROWS).min(MOST_PARTITIONS).max(1);
    let hashes = hash_rows_par(rt, alloc, rows, pool)?;
    let shares = partition_rows(rt, alloc, &hashes, partitions, pool)?;
    let parts = lead_partitions(rt, alloc, rows, &shares, partitions, &hashes, pool)?;
    let leaders = join_leaders(alloc, &parts, rows.len())?;
    Ok(leaders)
}

// The rows of each partition with their leaders, in order.
fn lead_partitions<T: Threads + Sync, R: KeyRows>(
    rt: &T,
    alloc: Global,
    rows: &R,
    shares: &[Vec<IdxVec>],
    partitions: usize,
    hashes: &HashChunks,
    pool: &Pool,
) -> PolarsResult<Vec<LedRows>>
    requires some { 1 ≤ partitions }
    requires split { ArePartitions (R.rows rows.now) hashes.now partitions shares.now }
    ensures ok { IfOk result (λ parts. map led parts.items
        ≡ led_partitions (R.rows rows.now) shares.now (0, partitions)) }
    ensures err { IfErr result IsNoMemory }
{
    let workers = pool.workers().min(partitions).max(1);
    let part = |range: (usize, usize)|
        requires { range.0 + range.1 ≤ partitions
            × ArePartitions (R.rows rows.now) hashes.now partitions shares.now }
        ensures { IfOk result (λ parts. map led parts.items
            ≡ led_partitions (R.rows rows.entry.now) shares.entry.now range)
            × IfErr result IsNoMemory }
    { lead_range(alloc, rows, shares, partitions, hashes, range) };
    let made = map_shares(rt, alloc, partitions, workers, &part)?;
    Ok(join_shares(alloc, made)?)
}

// The same of the partitions of a range, its first and how many they are.
fn lead_range<R: KeyRows>(
    alloc: Global,
    rows: &R,
    shares: &[Vec<IdxVec>],
    partitions: usize,
    hashes: &HashChunks,
    range: (usize, usize),
) -> PolarsResult<Vec<LedRows>>
    requires inside { range.0 + range.1 ≤ partitions }
    requires split { ArePartitions (R.rows rows.now) hashes.now partitions shares.now }
    ensures ok { IfOk result (λ parts.
        map led parts.items ≡ led_partitions (R.rows rows.now) shares.now range) }
    ensures err { IfErr result IsNoMemory }
{
    let (start, count) = range;
    let mut parts = Vec::with_capacity(alloc, count)?;
    for place in 0..count {
        let partition = start + place;
        parts.push_reserved(lead_partition(alloc, rows, shares, partitions, hashes, partition)?);
    }
    Ok(parts)
}

// The same of one partition.
fn lead_partition<R: KeyRows>(
    alloc: Global,
    rows: &R,
    shares: &[Vec<IdxVec>],
    partitions: usize,
    hashes: &HashChunks,
    partition: usize,
) -> PolarsResult<LedRows>
    requires inside { partition < partitions }
    requires split { ArePartitions (R.rows rows.now) hashes.now partitions shares.now }
    ensures ok { IfOk result (λ part.
        led part ≡ led_by (R.rows rows.now) (list_joined shares.now partition)) }
    ensures err { IfErr result IsNoMemory }
{
    let members = join_lists(alloc, shares, partition)?;
    let numbers = number_gathered(alloc, rows, &members, hashes)?;
    let leaders = leaders_of(alloc, &numbers)?;
    Ok(LedRows {
        rows: members,
        leaders,
    })
}

// The leaders of all rows, of which there are so many.
fn join_leaders(alloc: Global, parts: &[LedRows], rows: usize) -> Result<Vec<IdxSize>, AllocError>
    requires each { All (λ part. length part.leaders.items ≡ length part.rows.items) parts.now }
    requires inside { All (λ part. All (λ row. row < rows) part.rows.items) parts.now }
    ensures length { IfOk result (λ leaders. length leaders.items ≡ rows) }
    ensures each { IfOk result (λ leaders. (leader : ℕ → ℕ)
        → All (λ part. part.leaders.items ≡ map leader part.rows.items) parts.now
        → All (λ part. All (λ row. get_or leaders.items row 0 ≡ leader row) part.rows.items)
        parts.now) }
{
    let mut leaders = vec![in alloc; 0 as IdxSize; rows]?;
    put_all(leaders.as_mut_slice(), parts);
    Ok(leaders)
}

// Puts the leaders of all parts into their rows' places.
fn put_all(all: &mut [IdxSize], parts: &[LedRows])
    requires each { All (λ part. length part.leaders.items ≡ length part.rows.items) parts.now }
    requires inside { All (λ part. All (λ row. row < length all.old) part.rows.items) parts.now }
    ensures { all.new ≡ put_parts all.old parts.now }
{
    for part in parts {
        put_leaders(all, &part.rows, &part.leaders);
    }
}

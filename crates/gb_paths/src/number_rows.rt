//! The numbers of rows' groups, in the order of the groups' first rows: by one worker, or by several, each some
//! rows that follow each other.

ghost use Rattle.std.specs.Prelude.{◌≡◌, ◌+◌, ◌++◌, ◌<◌, ◌≤◌, All, IfErr, IfOk, IfSome, OnOk, get_or, length, map, true};
ghost use Rattle.std.specs.List.{range_with_len};
ghost use Rattle.gb_defs.specs.Classes.{rows_below};
ghost use Rattle.gb_defs.specs.Groups.{AreMembers, HasRowNumbers};
ghost use Rattle.gb_defs.specs.Rows.{AreHashes};
ghost use Rattle.gb_base.specs.PlSmallStr.{IsNoMemory};
ghost use Rattle.gb_paths.specs.Numbering.{AreNumbersAmong, firsts_in, renumbered};

use crate::number_partitions::number_by_partitions;
use crate::range_rows::RangeRows;
use crate::row_groups::number_groups;
use crate::row_hashes::{AskedHashes, RowHashes};
use crate::row_numbers::RowNumbers;
use gb_base::error::PolarsResult;
use gb_base::nullable_idx::IdxSize;
use gb_base::pool::Pool;
use gb_flat::shares::map_shares;
use gb_groups::row_lists::{AllRows, ListedRows, Members};
use gb_hash::key_rows::{KeyRows, Steps};
use std::alloc::{AllocError, Global};
use std::marker::Brand;
use std::sync::ledger::{Blank, Ledger};
use std::thread::Threads;

/// For fewer rows a worker no thread is started.
const SHARE_ROWS: usize = 65_536;

/// For fewer rows one table is small enough.
const PARTED_ROWS: usize = 131_072;

/// So many rows tell whether groups are few: a guess at what takes a hundredth of the time of a grouping.
const SAMPLE_ROWS: usize = 16_384;

/// The numbers of rows' groups: by one table, by one a worker, or, where there are likely many groups, by one a
/// partition.
pub(crate) fn number_rows<T: Threads + Sync, R: KeyRows>(
    rt: &T,
    alloc: Global,
    rows: &R,
    pool: &Pool,
) -> PolarsResult<RowNumbers>
    requires few { HasRowNumbers (R.rows rows.now).count }
    ensures ok { let rows = R.rows rows.now in
        IfOk result (AreNumbersAmong rows (rows_below rows.count)) }
    ensures err { IfErr result IsNoMemory }
{
    if rows.len() >= PARTED_ROWS && has_many_groups(alloc, rows)? {
        let numbers = number_by_partitions(rt, alloc, rows, pool)?;
        return Ok(numbers);
    }
    let workers = pool.workers().min(rows.len() / SHARE_ROWS);
    if workers > 1 {
        number_by_workers(rt, alloc, rows, workers)
    } else {
        number_all(alloc, rows)
    }
}

/// Whether nearly all of the first rows are each in a group of its own: then there are likely more groups than one
/// table keeps near.
pub(crate) fn has_many_groups<R: KeyRows>(alloc: Global, rows: &R) -> PolarsResult<bool>
    requires few { HasRowNumbers (R.rows rows.now).count }
    ensures err { IfErr result IsNoMemory }
{
    let sample = SAMPLE_ROWS.min(rows.len());
    let some = number_range(alloc, rows, (0, sample))?;
    Ok(some.first.len() > sample / 32 * 31)
}

// The numbers of all rows by one table.
pub(crate) fn number_all<R: KeyRows>(alloc: Global, rows: &R) -> PolarsResult<RowNumbers>
    requires few { HasRowNumbers (R.rows rows.now).count }
    ensures ok { let rows = R.rows rows.now in
        IfOk result (AreNumbersAmong rows (rows_below rows.count)) }
    ensures err { IfErr result IsNoMemory }
{
    let count = rows.len();
    number_members(alloc, rows, &AllRows::new(count))
}

// The numbers of all rows: each worker numbers the groups of some rows that follow each other, and the first rows
// of these are numbered then.
fn number_by_workers<T: Threads + Sync, R: KeyRows>(
    rt: &T,
    alloc: Global,
    rows: &R,
    workers: usize,
) -> PolarsResult<RowNumbers>
    requires some { 1 ≤ workers }
    requires few { HasRowNumbers (R.rows rows.now).count }
    ensures ok { let rows = R.rows rows.now in
        IfOk result (AreNumbersAmong rows (rows_below rows.count)) }
    ensures err { IfErr result IsNoMemory }
{
    let count = rows.len();
    let part = |range: (usize, usize)|
        requires { (range.0 + range.1 ≤ (R.rows rows.now).count)
            × HasRowNumbers (R.rows rows.now).count }
        ensures { IfOk result
            (AreNumbersAmong (R.rows rows.entry.now) (range_with_len range.0 range.1))
            × IfErr result IsNoMemory }
    { number_range(alloc, rows, range) };
    let parts = map_shares(rt, alloc, count, workers, &part)?;
    let firsts = join_firsts(alloc, &parts)?;
    let all = number_members(alloc, rows, &ListedRows { rows: &firsts })?;
    let of_rows = renumber(alloc, &parts, &all.of_rows, count)?;
    Ok(RowNumbers {
        first: all.first,
        of_rows,
    })
}

// The numbers of the groups of a range of rows among themselves.
fn number_range<R: KeyRows>(
    alloc: Global,
    rows: &R,
    range: (usize, usize),
) -> PolarsResult<RowNumbers>
    requires inside { range.0 + range.1 ≤ (R.rows rows.now).count }
    requires few { HasRowNumbers (R.rows rows.now).count }
    ensures ok { IfOk result
        (AreNumbersAmong (R.rows rows.now) (range_with_len range.0 range.1)) }
    ensures err { IfErr result IsNoMemory }
{
    number_members(alloc, rows, &RangeRows::new(range.0, range.1))
}

// The numbers of the groups of some rows among themselves.
pub(crate) fn number_members<R: KeyRows, M: Members>(
    alloc: Global,
    rows: &R,
    members: &M,
) -> PolarsResult<RowNumbers>
    requires few { HasRowNumbers (R.rows rows.now).count }
    requires members { AreMembers (R.rows rows.now).count (M.listed members.now) }
    ensures ok { IfOk result (AreNumbersAmong (R.rows rows.now) (M.listed members.now)) }
    ensures err { IfErr result IsNoMemory }
{
    number_hashed(alloc, rows, members, &AskedHashes { rows })
}

/// The numbers of the groups of some rows among themselves, by hashes of all rows.
pub(crate) fn number_hashed<R: KeyRows, M: Members, H: RowHashes>(
    alloc: Global,
    rows: &R,
    members: &M,
    hashes: &H,
) -> PolarsResult<RowNumbers>
    requires few { HasRowNumbers (R.rows rows.now).count }
    requires members { AreMembers (length (H.hashes hashes.now)) (M.listed members.now) }
    requires hashes { AreHashes (R.rows rows.now) 0 (H.hashes hashes.now) }
    ensures ok { IfOk result (AreNumbersAmong (R.rows rows.now) (M.listed members.now)) }
    ensures err { IfErr result IsNoMemory }
{
    // The counter is for proofs alone and takes no memory: `Brand` is its name, and it is in one part.
    number_blank::<R, M, H, Brand>(alloc, rows, members, hashes, Blank::new(1))
}

// The same with a counter of its own.
fn number_blank<R: KeyRows, M: Members, H: RowHashes, L: Ledger>(
    alloc: Global,
    rows: &R,
    members: &M,
    hashes: &H,
    blank: Blank,
) -> PolarsResult<RowNumbers>
    requires name { blank.name ≡ L.name }
    requires parts { blank.parts ≡ L.parts }
    requires some { 0 < L.parts }
    requires few { HasRowNumbers (R.rows rows.now).count }
    requires members { AreMembers (length (H.hashes hashes.now)) (M.listed members.now) }
    requires hashes { AreHashes (R.rows rows.now) 0 (H.hashes hashes.now) }
    ensures ok { IfOk result (AreNumbersAmong (R.rows rows.now) (M.listed members.now)) }
    ensures err { IfErr result IsNoMemory }
{
    let mut steps: Steps<L> = Steps::new(blank);
    let found = number_groups(alloc, rows, members, hashes, &mut steps)?;
    Ok(RowNumbers {
        first: found.first,
        of_rows: found.of_rows,
    })
}

// The first rows of the parts, part after part.
pub(crate) fn join_firsts(alloc: Global, parts: &[RowNumbers]) -> Result<Vec<IdxSize>, AllocError>
    ensures { IfOk result (λ firsts. firsts.items ≡ firsts_in parts.now) }
{
    let mut firsts = Vec::new(alloc);
    for part in parts {
        firsts.extend_from_slice(&part.first)?;
    }
    Ok(firsts)
}

// The numbers of the rows, part after part: each row has that of the first row of its part.
pub(crate) fn renumber(
    alloc: Global,
    parts: &[RowNumbers],
    numbers: &[u32],
    rows: usize,
) -> Result<Vec<u32>, AllocError>
    requires { length numbers.now ≡ length (firsts_in parts.now) }
    ensures { IfOk result (λ all. all.items ≡ renumbered numbers.now parts.now) }
{
    let mut all = Vec::with_capacity(alloc, rows)?;
    let mut rest = numbers;
    for part in parts {
        let (mine, later) = rest.split_at(part.first.len());
        push_numbers(&mut all, &part.of_rows, mine)?;
        rest = later;
    }
    Ok(all)
}

// The numbers at these places, behind others.
fn push_numbers(all: &mut Vec<u32>, places: &[u32], numbers: &[u32]) -> Result<(), AllocError>
    requires { All (λ place. place < length numbers.now) places.now }
    ensures { OnOk result (all.new.items ≡ all.old.items ++ map (λ place.
        get_or numbers.now place 0) places.now) }
{
    for place in places {
        all.push(numbers[*place as usize])?;
    }
    Ok(())
}

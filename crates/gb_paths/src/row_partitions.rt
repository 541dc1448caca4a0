//! The rows of each partition of the hashes. The rows are dealt to the workers, and each worker lists
//! those that it has by their partitions: the rows of a partition are its lists, share after share.

ghost use Rattle.std.specs.Prelude.{◌≡◌, ℕ, ◌+◌, ◌<◌, ◌≤◌, All, length, IfOk, IfErr, OnOk, slice_index};
ghost use Rattle.std.specs.List.{AllZip, range_with_len};
ghost use Rattle.gb_defs.specs.Classes.{rows_below};
ghost use Rattle.gb_defs.specs.Groups.{AreMembers, HasRowNumbers};
ghost use Rattle.gb_defs.specs.Rows.{AreHashes, Rows};
ghost use Rattle.gb_base.specs.PlSmallStr.{IsNoMemory};
ghost use Rattle.gb_groups.specs.Groups.{lists_of};
ghost use Rattle.gb_groups.specs.Numbers.{IsRoomFor, counts_by, lists_by};
ghost use Rattle.gb_paths.specs.Partitions.{AreDealt, AreWithin, Lists, list_joined, lists_joined, partitions_by, rows_by_partition, share_of};

use crate::row_hashes::{CHUNK_ROWS, HashChunks, RowHashes};
use gb_base::error::{PolarsError, PolarsResult};
use gb_base::nullable_idx::IdxSize;
use gb_base::pool::Pool;
use gb_flat::shares::map_shares;
use gb_groups::groups_idx::IdxVec;
use gb_groups::row_lists::empty_lists;
use gb_hash::combine::hash_to_partition;
use std::alloc::{AllocError, Global};
use std::thread::Threads;

/// The rows of so many partitions, by the hashes of all rows: a list for each partition from each share
/// of the rows. Where there are several shares, each has at least the rows that are worth a thread.
pub fn partition_rows<T: Threads + Sync>(
    rt: &T,
    alloc: Global,
    hashes: &HashChunks,
    n_partitions: usize,
    pool: &Pool,
) -> PolarsResult<Vec<Vec<IdxVec>>>
    requires some { 1 ≤ n_partitions }
    requires few { HasRowNumbers (length hashes.now) }
    ensures rows { IfOk result (λ shares. (r : Rows) → AreHashes r 0 hashes.now
        → lists_joined n_partitions shares.items
        ≡ rows_by_partition r.hash n_partitions (rows_below (length hashes.now))) }
    ensures members { IfOk result (λ shares.
        All (AreMembers (length hashes.now)) (lists_joined n_partitions shares.items)) }
    ensures each { IfOk result (λ shares. All (Lists n_partitions) shares.items) }
    ensures within { OnOk result (AreWithin n_partitions hashes.now) }
    ensures err { IfErr result IsNoMemory }
{
    let workers = pool.workers().min(hashes.len() / CHUNK_ROWS).max(1);
    let part = |share: (usize, usize)|
        requires { 1 ≤ n_partitions × HasRowNumbers (length hashes.now)
            × share.0 + share.1 ≤ length hashes.now }
        ensures { IfOk result (λ lists. AreDealt n_partitions hashes.entry.now share lists.items)
            × IfErr result IsNoMemory }
    { partition_share(alloc, hashes, share, n_partitions) };
    Ok(map_shares(rt, alloc, hashes.len(), workers, &part)?)
}

// The lists of the rows of a share, its first and how many they are.
fn partition_share(
    alloc: Global,
    hashes: &HashChunks,
    share: (usize, usize),
    n_partitions: usize,
) -> PolarsResult<Vec<IdxVec>>
    requires some { 1 ≤ n_partitions }
    requires few { HasRowNumbers (length hashes.now) }
    requires inside { share.0 + share.1 ≤ length hashes.now }
    ensures ok { IfOk result (λ lists. AreDealt n_partitions hashes.now share lists.items) }
    ensures err { IfErr result IsNoMemory }
{
    // More lists than a row number counts are more than memory holds.
    if n_partitions > u32::MAX as usize {
        return Err(PolarsError::NoMemory);
    }
    let counts = partition_counts(alloc, hashes, share, n_partitions)?;
    let mut lists = empty_lists(alloc, counts.as_slice())?;
    fill_partitions(lists.as_mut_slice(), hashes, share);
    Ok(lists)
}

// How many hashes of a share each partition has.
fn partition_counts(
    alloc: Global,
    hashes: &HashChunks,
    share: (usize, usize),
    n: usize,
) -> Result<Vec<IdxSize>, AllocError>
    requires some { 1 ≤ n }
    requires few { HasRowNumbers (length hashes.now) }
    requires inside { share.0 + share.1 ≤ length hashes.now }
    ensures counts { IfOk result (λ counts.
        counts.items ≡ counts_by (partitions_by n (share_of hashes.now share)) n) }
    ensures within { OnOk result (AreWithin n (share_of hashes.now share)) }
{
    let mut counts = vec![in alloc; 0 as IdxSize; n]?;
    count_partitions(counts.as_mut_slice(), hashes, share);
    Ok(counts)
}

// Adds one to a partition's count for each of its hashes in a share.
fn count_partitions(counts: &mut [IdxSize], hashes: &HashChunks, share: (usize, usize))
    requires some { 1 ≤ length counts.old }
    requires few { HasRowNumbers (length hashes.now) }
    requires inside { share.0 + share.1 ≤ length hashes.now }
    requires zero { (k : ℕ) → slice_index counts.old k ≡ 0 }
    ensures counts { let n = length counts.old in
        counts.new ≡ counts_by (partitions_by n (share_of hashes.now share)) n }
    ensures within { AreWithin (length counts.old) (share_of hashes.now share) }
{
    let n = counts.len();
    let (start, count) = share;
    for place in 0..count {
        counts[hash_to_partition(hashes.hash_of(start + place), n)] += 1;
    }
}

// Puts each row of a share into the list of its hash's partition.
fn fill_partitions(lists: &mut [IdxVec], hashes: &HashChunks, share: (usize, usize))
    requires some { 1 ≤ length lists.old }
    requires few { HasRowNumbers (length hashes.now) }
    requires inside { share.0 + share.1 ≤ length hashes.now }
    requires room { let n = length lists.old in
        AllZip IsRoomFor (counts_by (partitions_by n (share_of hashes.now share)) n) lists.old }
    ensures { let n = length lists.old in let mine = share_of hashes.now share in lists_of lists.new
        ≡ lists_by (range_with_len share.0 share.1) (partitions_by n mine) n }
{
    let n = lists.len();
    let (start, count) = share;
    for place in 0..count {
        let row = start + place;
        let partition = hash_to_partition(hashes.hash_of(row), n);
        lists[partition].push_reserved(row as IdxSize);
    }
}

/// The rows of a partition: those that each share lists of it, share after share.
pub fn join_lists(
    alloc: Global,
    shares: &[Vec<IdxVec>],
    partition: usize,
) -> Result<Vec<IdxSize>, AllocError>
    requires each { All (λ share. partition < length share.items) shares.now }
    requires few { HasRowNumbers (length (list_joined shares.now partition)) }
    ensures { IfOk result (λ rows. rows.items ≡ list_joined shares.now partition) }
{
    let mut rows = Vec::with_capacity(alloc, joined_len(shares, partition))?;
    for share in shares {
        rows.extend_from_slice(&share[partition])?;
    }
    Ok(rows)
}

// How many rows a partition has.
fn joined_len(shares: &[Vec<IdxVec>], partition: usize) -> usize
    requires each { All (λ share. partition < length share.items) shares.now }
    requires few { HasRowNumbers (length (list_joined shares.now partition)) }
    ensures { result ≡ length (list_joined shares.now partition) }
{
    let mut count = 0usize;
    for share in shares {
        count += share[partition].len();
    }
    count
}

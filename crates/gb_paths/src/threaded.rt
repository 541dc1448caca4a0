//! Groups by a table for each partition of the hashes. The partitions are dealt to the workers, each of
//! which takes its own one after another.

ghost use Rattle.std.specs.Prelude.{◌≡◌, ℕ, ◌+◌, ◌<◌, ◌≤◌, All, length, IfOk, IfErr};
ghost use Rattle.gb_defs.specs.Groups.{AreMembers, HasRowNumbers, IsWellFormed};
ghost use Rattle.gb_defs.specs.Rows.{AreHashes, hashed_groups, rows_of_slots};
ghost use Rattle.gb_base.specs.PlSmallStr.{IsNoMemory};
ghost use Rattle.gb_groups.specs.Groups.{pairs_of};
ghost use Rattle.gb_groups.specs.GroupsType.{groups_of};
ghost use Rattle.gb_hash.specs.Keys.{key_slots};
ghost use Rattle.gb_paths.specs.Numbers.{groups_among};
ghost use Rattle.gb_paths.specs.Partitions.{AreListed, groups_of_partitions, groups_of_parts, list_joined};

use crate::row_groups::group_members;
use crate::row_hashes::{HashChunks, hash_rows_par};
use crate::row_partitions::{join_lists, partition_rows};
use gb_base::device::Gate;
use gb_base::error::PolarsResult;
use gb_base::nullable_idx::IdxSize;
use gb_base::pool::Pool;
use gb_flat::shares::{join_shares, map_shares};
use gb_groups::groups_idx::{GroupsIdx, IdxItem, IdxVec};
use gb_groups::groups_type::GroupsType;
use gb_groups::row_lists::ListedRows;
use gb_hash::dirty_hash::{DirtyHash, Mixer};
use gb_hash::key_rows::{KeyRows, Steps};
use gb_hash::slice_rows::SliceRows;
use std::alloc::Global;
use std::hash::Hash;
use std::marker::Brand;
use std::sync::ledger::{Blank, Ledger};
use std::thread::Threads;

/// The rows that hold one key, by the partition of their hash and then by first row; where `sorted`, by
/// first row and flagged. Each partition enters the gate with its number, and leaves it.
pub fn group_by_threaded_iter<T: Threads + Sync, R: KeyRows, G: Gate + Sync>(
    rt: &T,
    alloc: Global,
    rows: &R,
    n_partitions: usize,
    sorted: bool,
    pool: &Pool,
    gate: &G,
) -> PolarsResult<GroupsType>
    requires few { HasRowNumbers (R.rows rows.now).count }
    requires some { 1 ≤ n_partitions }
    ensures ok { IfOk result (λ g.
        groups_of g ≡ hashed_groups (R.rows rows.now) n_partitions sorted) }
    ensures formed { IfOk result (λ g. IsWellFormed (R.rows rows.now).count (groups_of g).pairs) }
    ensures err { IfErr result IsNoMemory }
{
    let hashes = hash_rows_par(rt, alloc, rows, pool)?;
    let shares = partition_rows(rt, alloc, &hashes, n_partitions, pool)?;
    let parts = deal_partitions(rt, alloc, rows, &shares, n_partitions, &hashes, pool, gate)?;
    let mut groups = GroupsIdx::from_parts(rt, alloc, parts, pool)?;
    if sorted {
        groups.sort()?;
    }
    Ok(GroupsType::from(groups))
}

/// `group_by_threaded_iter` over keys in a list.
pub fn group_by_threaded_slice<
    T: Threads + Sync,
    K: Copy + Eq + Hash + Send + Sync + DirtyHash,
    M: Mixer + Sync,
    G: Gate + Sync,
>(
    rt: &T,
    alloc: Global,
    keys: &[K],
    mixer: M,
    n_partitions: usize,
    sorted: bool,
    pool: &Pool,
    gate: &G,
) -> PolarsResult<GroupsType>
    requires few { HasRowNumbers (length keys.now) }
    requires some { 1 ≤ n_partitions }
    ensures ok { let slots = key_slots K.number keys.now in
        let rows = rows_of_slots K.width (M.seed_of mixer) (M.mix_of mixer) slots in
        IfOk result (λ g. groups_of g ≡ hashed_groups rows n_partitions sorted) }
    ensures formed { IfOk result (λ g. IsWellFormed (length keys.now) (groups_of g).pairs) }
    ensures err { IfErr result IsNoMemory }
{
    let rows = SliceRows::new(keys, mixer);
    group_by_threaded_iter(rt, alloc, &rows, n_partitions, sorted, pool, gate)
}

// The groups of each partition, in order. Each worker has some partitions that follow each other, and
// with one worker no thread is started.
fn deal_partitions<T: Threads + Sync, R: KeyRows, G: Gate + Sync>(
    rt: &T,
    alloc: Global,
    rows: &R,
    shares: &[Vec<IdxVec>],
    n_partitions: usize,
    hashes: &HashChunks,
    pool: &Pool,
    gate: &G,
) -> PolarsResult<Vec<Vec<IdxItem>>>
    requires listed { AreListed (R.rows rows.now) hashes.now n_partitions shares.now }
    ensures ok { IfOk result (λ parts. groups_of_parts parts.items
        ≡ groups_of_partitions (R.rows rows.now) shares.now (0, n_partitions)) }
    ensures err { IfErr result IsNoMemory }
{
    let workers = pool.workers().min(n_partitions).max(1);
    let part = |range: (usize, usize)|
        requires { range.0 + range.1 ≤ n_partitions
            × AreListed (R.rows rows.now) hashes.now n_partitions shares.now }
        ensures { IfOk result (λ parts. groups_of_parts parts.items
            ≡ groups_of_partitions (R.rows rows.entry.now) shares.entry.now range)
            × IfErr result IsNoMemory }
    { group_partitions(alloc, rows, shares, n_partitions, hashes, range, gate) };
    let made = map_shares(rt, alloc, n_partitions, workers, &part)?;
    Ok(join_shares(alloc, made)?)
}

// The groups of the partitions of a range, its first and how many they are, in order.
fn group_partitions<R: KeyRows, G: Gate>(
    alloc: Global,
    rows: &R,
    shares: &[Vec<IdxVec>],
    n_partitions: usize,
    hashes: &HashChunks,
    range: (usize, usize),
    gate: &G,
) -> PolarsResult<Vec<Vec<IdxItem>>>
    requires inside { range.0 + range.1 ≤ n_partitions }
    requires listed { AreListed (R.rows rows.now) hashes.now n_partitions shares.now }
    ensures ok { IfOk result (λ parts. groups_of_parts parts.items
        ≡ groups_of_partitions (R.rows rows.now) shares.now range) }
    ensures err { IfErr result IsNoMemory }
{
    let (start, count) = range;
    let mut parts = Vec::with_capacity(alloc, count)?;
    for place in 0..count {
        let partition = start + place;
        parts.push_reserved(join_partition(alloc, rows, shares, hashes, partition, gate)?);
    }
    Ok(parts)
}

// The groups of a partition, whose rows are copied only where several shares list some of them.
fn join_partition<R: KeyRows, G: Gate>(
    alloc: Global,
    rows: &R,
    shares: &[Vec<IdxVec>],
    hashes: &HashChunks,
    partition: usize,
    gate: &G,
) -> PolarsResult<Vec<IdxItem>>
    requires few { HasRowNumbers (R.rows rows.now).count }
    requires each { All (λ share. partition < length share.items) shares.now }
    requires members { AreMembers (length hashes.now) (list_joined shares.now partition) }
    requires hashes { AreHashes (R.rows rows.now) 0 hashes.now }
    ensures ok { IfOk result (λ items. pairs_of items.items
        ≡ groups_among (R.rows rows.now) (list_joined shares.now partition)) }
    ensures err { IfErr result IsNoMemory }
{
    let number = partition as u64;
    if shares.len() == 1 {
        return enter_partition(alloc, rows, &shares[0][partition], hashes, number, gate);
    }
    let members = join_lists(alloc, shares, partition)?;
    enter_partition(alloc, rows, &members, hashes, number, gate)
}

// The groups of a partition, which is within the gate from before its first key until after its last.
fn enter_partition<R: KeyRows, G: Gate>(
    alloc: Global,
    rows: &R,
    members: &[IdxSize],
    hashes: &HashChunks,
    partition: u64,
    gate: &G,
) -> PolarsResult<Vec<IdxItem>>
    requires few { HasRowNumbers (R.rows rows.now).count }
    requires members { AreMembers (length hashes.now) members.now }
    requires hashes { AreHashes (R.rows rows.now) 0 hashes.now }
    ensures ok { IfOk result (λ items.
        pairs_of items.items ≡ groups_among (R.rows rows.now) members.now) }
    ensures err { IfErr result IsNoMemory }
{
    gate.enter(partition);
    // The counter is for proofs alone and takes no memory: `Brand` is its name, and it is in one part.
    let groups = group_partition::<R, Brand>(alloc, rows, members, hashes, Blank::new(1));
    gate.leave(partition);
    groups
}

// The groups of a partition, with a counter of its own.
fn group_partition<R: KeyRows, L: Ledger>(
    alloc: Global,
    rows: &R,
    members: &[IdxSize],
    hashes: &HashChunks,
    blank: Blank,
) -> PolarsResult<Vec<IdxItem>>
    requires name { blank.name ≡ L.name }
    requires parts { blank.parts ≡ L.parts }
    requires some { 0 < L.parts }
    requires few { HasRowNumbers (R.rows rows.now).count }
    requires members { AreMembers (length hashes.now) members.now }
    requires hashes { AreHashes (R.rows rows.now) 0 hashes.now }
    ensures ok { IfOk result (λ items.
        pairs_of items.items ≡ groups_among (R.rows rows.now) members.now) }
    ensures err { IfErr result IsNoMemory }
{
    let mut steps: Steps<L> = Steps::new(blank);
    let members = ListedRows { rows: members };
    let groups = group_members(alloc, rows, &members, hashes, &mut steps)?;
    GroupsIdx::new(groups.first, groups.all, false).into_items()
}

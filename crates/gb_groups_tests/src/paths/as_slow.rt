//! Both paths beside the slow program of the definitions.

use super::{AllAlike, Unmixed};
use gb_base::error::PolarsResult;
use gb_base::memory::FreeGate;
use gb_base::nullable_idx::IdxSize;
use gb_base::pool::Pool;
use gb_defs::slow;
use gb_groups::groups_type::{GroupsIndicator, GroupsType};
use gb_hash::dirty_hash::{Mixer, SeedMixer};
use gb_hash::slice_rows::SliceRows;
use gb_paths::group_by::group_uncounted;
use gb_paths::threaded::group_by_threaded_slice;
use std::alloc::{AllocError, Global};
use std::test::Fail;
use std::thread::Threads;

// Whether the group has the form of a row list, and this one.
fn has_list(group: &GroupsIndicator<'_>, wanted: &[usize]) -> bool {
    match group {
        GroupsIndicator::Idx((_, rows)) => same_rows(rows, wanted),
        GroupsIndicator::Slice(_) => false,
    }
}

fn same_rows(rows: &[IdxSize], wanted: &[usize]) -> bool {
    if rows.len() != wanted.len() {
        return false;
    }
    for (row, place) in rows.iter().zip(wanted.iter()) {
        if *row as usize != *place {
            return false;
        }
    }
    true
}

// Whether the groups are those that the slow program finds, in its order.
fn are_as_slow(alloc: Global, groups: &GroupsType, keys: &[u64]) -> Result<bool, AllocError> {
    let firsts = slow::firsts(alloc, keys)?;
    if groups.len() != firsts.len() {
        return Ok(false);
    }
    for (group, wanted) in groups.iter().zip(firsts.iter()) {
        if group.first() as usize != *wanted || *wanted >= keys.len() {
            return Ok(false);
        }
        let class = slow::class_of(alloc, keys, *wanted)?;
        if !has_list(&group, class.as_slice()) {
            return Ok(false);
        }
    }
    Ok(true)
}

// Whether either path groups a few keys as the slow program does.
fn paths_are_as_slow<T: Threads + Sync, M: Mixer + Sync>(
    rt: &T,
    alloc: Global,
    keys: &[u64],
    mixer: M,
    pool: &Pool,
) -> PolarsResult<bool> {
    if keys.len() > 1000 {
        return Ok(false);
    }
    let table = group_uncounted(alloc, &SliceRows::new(keys, mixer), true)?;
    if !are_as_slow(alloc, &table, keys)? {
        return Ok(false);
    }
    let groups = group_by_threaded_slice(rt, alloc, keys, mixer, 3, true, pool, &FreeGate)?;
    Ok(are_as_slow(alloc, &groups, keys)?)
}

// The same where keys hash alike, where a hash is the key's bits, and where hashes are spread.
fn all_mixers_are_as_slow<T: Threads + Sync>(
    rt: &T,
    alloc: Global,
    keys: &[u64],
    pool: &Pool,
) -> PolarsResult<bool> {
    Ok(
        paths_are_as_slow(rt, alloc, keys, AllAlike, pool)?
            && paths_are_as_slow(rt, alloc, keys, Unmixed, pool)?
            && paths_are_as_slow(rt, alloc, keys, SeedMixer::new(9), pool)?,
    )
}

// Forty keys, all of them twice, so that a table of them grows.
fn forty_twice(alloc: Global) -> Result<Vec<u64>, AllocError> {
    let mut keys = Vec::new(alloc);
    for i in 0..80u64 {
        keys.push((i % 40) * 1000)?;
    }
    Ok(keys)
}

#[test]
fn paths_group_as_the_slow_program(rt: HostRuntime) -> Result<(), Fail> {
    let alloc = rt.alloc();
    let many = forty_twice(alloc)?;
    let lists: [&[u64]; 5] = [&[], &[7], &[3, 1, 3, 2, 1], &[5, 5, 5], many.as_slice()];
    let pools = [
        Pool::new(1, 1, 1, 1, 0),
        Pool::new(2, 2, 1, 1, 0),
        Pool::new(4, 2, 1, 1, 0),
    ];
    for pool in &pools {
        for keys in &lists {
            assert!(rt; all_mixers_are_as_slow(&rt, alloc, keys, pool)?);
        }
    }
    Ok(())
}

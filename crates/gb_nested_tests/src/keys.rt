//! Keys that hold others are grouped by what they hold, alone and beside other keys, and a null of them is a
//! group of its own.

use crate::makers::{arrays, holds, lists, structs};
use gb_base::memory::FreeGate;
use gb_base::nullable_idx::IdxSize;
use gb_base::pool::Pool;
use gb_cols::series_trait::SeriesTrait;
use gb_groups::groups_type::{GroupsIndicator, GroupsType};
use gb_paths::by_keys::group_by_keys;
use gb_paths::into_groups::group_tuples_gated;
use gb_series::series::Series;
use std::test::Fail;
use std::thread::Threads;

fn has_list(group: &GroupsIndicator<'_>, rows: &[IdxSize]) -> bool {
    match group {
        GroupsIndicator::Idx((_, list)) => list.as_slice() == rows,
        GroupsIndicator::Slice(_) => false,
    }
}

// Whether the first row and the last are one group, and those between another.
fn are_outer_and_inner(groups: &GroupsType) -> bool {
    let wanted: [[IdxSize; 2]; 2] = [[0, 3], [1, 2]];
    if groups.len() != 2 {
        return false;
    }
    for (group, rows) in groups.iter().zip(wanted.iter()) {
        if !has_list(&group, rows) {
            return false;
        }
    }
    true
}

fn is_grouped<T: Threads + Sync>(rt: &T, pool: &Pool, key: &Series) -> bool {
    if key.len() != 4 {
        return false;
    }
    match group_tuples_gated(rt, key, true, true, pool, &FreeGate) {
        Ok(groups) => are_outer_and_inner(&groups),
        Err(_) => false,
    }
}

fn are_grouped<T: Threads + Sync>(rt: &T, pool: &Pool, keys: &[&Series]) -> bool {
    if keys.len() != 2 || keys[0].len() != 4 || keys[1].len() != 4 {
        return false;
    }
    match group_by_keys(rt, keys, true, true, pool, &FreeGate) {
        Ok(groups) => are_outer_and_inner(&groups),
        Err(_) => false,
    }
}

// Whether a column's first two rows, the second said twice between the first, are grouped as they are.
fn groups_by<T: Threads + Sync>(rt: &T, pool: &Pool, key: &Series) -> bool {
    if key.len() < 2 {
        return false;
    }
    match key.take(&[0, 1, 1, 0]) {
        Ok(rows) => is_grouped(rt, pool, &rows) && are_grouped(rt, pool, &[&rows, &rows]),
        Err(_) => false,
    }
}

#[test]
fn keys_that_hold_others(rt: HostRuntime) -> Result<(), Fail> {
    let pool = Pool::new(2, 2, 1, 2, 0);
    assert!(rt; holds(lists(rt.alloc()), |key| groups_by(&rt, &pool, key)));
    assert!(rt; holds(arrays(rt.alloc()), |key| groups_by(&rt, &pool, key)));
    assert!(rt; holds(structs(rt.alloc()), |key| groups_by(&rt, &pool, key)));
    Ok(())
}

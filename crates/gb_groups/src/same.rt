//! Parts of lists, their copies, and whether two lists are the same groups.

ghost use Rattle.std.specs.Prelude.{◌≡◌, ◌↔◌, ◌+◌, ◌≤◌, IfErr, IfOk, IsTrue, drop, length, take};
ghost use Rattle.gb_base.specs.PlSmallStr.{IsNoMemory};
ghost use Rattle.gb_groups.specs.Groups.{lists_of, paired};
ghost use Rattle.gb_groups.specs.Slices.{slice_pairs};

use crate::groups_idx::{IdxSize, IdxVec};
use gb_base::error::PolarsResult;
use smallvec::SmallVec;
use std::alloc::Global;

/// So many values from a place on.
pub(crate) fn part_of<T>(values: &[T], start: usize, count: usize) -> &[T]
    requires { start + count ≤ length values.now }
    ensures { result.now ≡ take count (drop start values.now) }
{
    &values[start..][..count]
}

/// Whether first rows and row lists are those of the same groups.
pub(crate) fn same_lists(
    first: &[IdxSize],
    all: &[IdxVec],
    other_first: &[IdxSize],
    other_all: &[IdxVec],
) -> bool
    requires each { length first.now ≡ length all.now }
    requires other_each { length other_first.now ≡ length other_all.now }
    ensures { IsTrue result ↔ paired first.now all.now ≡ paired other_first.now other_all.now }
{
    first == other_first && all == other_all
}

/// Whether runs are the same groups.
pub(crate) fn same_runs(runs: &[[IdxSize; 2]], others: &[[IdxSize; 2]]) -> bool
    ensures { IsTrue result ↔ slice_pairs runs.now ≡ slice_pairs others.now }
{
    if runs.len() != others.len() {
        return false;
    }
    for (place, run) in runs.iter().enumerate() {
        let other = others[place];
        if run[0] != other[0] || run[1] != other[1] {
            return false;
        }
    }
    true
}

/// These values, copied.
pub(crate) fn copy_of<T: Copy + Drop>(alloc: Global, values: &[T]) -> PolarsResult<Vec<T>>
    ensures ok { IfOk result (λ copy. copy.items ≡ values.now) }
    ensures err { IfErr result IsNoMemory }
{
    let mut copy = Vec::with_capacity(alloc, values.len())?;
    copy.extend_from_slice(values)?;
    Ok(copy)
}

/// These row lists, copied.
pub(crate) fn copy_lists(alloc: Global, lists: &[IdxVec]) -> PolarsResult<Vec<IdxVec>>
    ensures ok { IfOk result (λ copy. lists_of copy.items ≡ lists_of lists.now) }
    ensures err { IfErr result IsNoMemory }
{
    let mut copy = Vec::with_capacity(alloc, lists.len())?;
    for rows in lists {
        copy.push_reserved(SmallVec::from_slice(alloc, rows.as_slice())?);
    }
    Ok(copy)
}

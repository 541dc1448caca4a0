//! The rows of a frame in groups, by the names of columns and by columns.

ghost use Rattle.std.specs.Prelude.{◌≡◌, ◌<◌, None, IfErr, IfOk, OnOk, length, map};
ghost use Rattle.std.specs.Thread.{IsSync};
ghost use Rattle.gb_base.specs.PlSmallStr.{IsNoMemory};
ghost use Rattle.gb_base.specs.PolarsError.{Explains};
ghost use Rattle.gb_defs.specs.Column.{Frame, IsFrame, first_repeated, frame_height};
ghost use Rattle.gb_defs.specs.Fault.{duplicate_of};
ghost use Rattle.gb_defs.specs.Groups.{HasRowNumbers};
ghost use Rattle.gb_rows.specs.Rows.{AreOfOneLength};
ghost use Rattle.gb_series.specs.Series.{value_of};
ghost use Rattle.gb_frame.specs.Agg.{names_of};
ghost use Rattle.gb_frame.specs.GroupBy.{AreGroupsBy, GroupsByKeys, GroupsByNames, as_found, in_order};
ghost use Rattle.gb_frame.specs.Key.{columns_of};

use crate::checks::find_keys;
use crate::group_by::GroupBy;
use crate::key::{Key, fit_keys, lend, lent_keys, owned_keys};
use crate::options::GroupOptions;
use gb_base::error::{PolarsError, PolarsResult};
use gb_base::memory::FreeGate;
use gb_base::name_set::repeated;
use gb_base::pool::Pool;
use gb_base::small_str::PlSmallStr;
use gb_groups::positions::GroupPositions;
use gb_paths::by_keys::group_by_detected;
use gb_series::frame::DataFrame;
use gb_series::series::Series;
use std::alloc::Global;
use std::thread::Threads;

/// A frame whose rows are grouped: those that agree in each key, where null alone agrees with null.
pub trait FrameGroupBy {
    // The frame.
    ghost frame: { Self → Frame };

    /// By the columns of these names and by as many workers as the pool has, in the order in which the groups are
    /// found.
    fn group_by<'a, R: Threads + Sync>(
        &'a self,
        rt: &R,
        alloc: Global,
        by: &[PlSmallStr],
        pool: &Pool,
    ) -> PolarsResult<GroupBy<'a>>
        requires row_type { IsSync R.row }
        ensures { GroupsByNames (frame self.now) (names_of by.now) as_found pool.now result };

    /// The same, in the order of first rows.
    fn group_by_stable<'a, R: Threads + Sync>(
        &'a self,
        rt: &R,
        alloc: Global,
        by: &[PlSmallStr],
        pool: &Pool,
    ) -> PolarsResult<GroupBy<'a>>
        requires row_type { IsSync R.row }
        ensures { GroupsByNames (frame self.now) (names_of by.now) in_order pool.now result };

    /// By these columns. One of one row stands for it in every row of the frame.
    fn group_by_with_series<'a, R: Threads + Sync>(
        &'a self,
        rt: &R,
        alloc: Global,
        by: Vec<Series>,
        options: GroupOptions,
        pool: &Pool,
    ) -> PolarsResult<GroupBy<'a>>
        requires row_type { IsSync R.row }
        ensures { GroupsByKeys (frame self.now) (map value_of by.items) options pool.now result };
}

impl FrameGroupBy for DataFrame {
    ghost frame = { λ frame. frame };

    fn group_by<'a, R: Threads + Sync>(
        &'a self,
        rt: &R,
        alloc: Global,
        by: &[PlSmallStr],
        pool: &Pool,
    ) -> PolarsResult<GroupBy<'a>> {
        let options = GroupOptions {
            multithreaded: true,
            sorted: false,
        };
        group_by_names(rt, alloc, self, by, options, pool)
    }

    fn group_by_stable<'a, R: Threads + Sync>(
        &'a self,
        rt: &R,
        alloc: Global,
        by: &[PlSmallStr],
        pool: &Pool,
    ) -> PolarsResult<GroupBy<'a>> {
        let options = GroupOptions {
            multithreaded: true,
            sorted: true,
        };
        group_by_names(rt, alloc, self, by, options, pool)
    }

    fn group_by_with_series<'a, R: Threads + Sync>(
        &'a self,
        rt: &R,
        alloc: Global,
        by: Vec<Series>,
        options: GroupOptions,
        pool: &Pool,
    ) -> PolarsResult<GroupBy<'a>> {
        let keys = owned_keys(alloc, by)?;
        group_by_keys(rt, alloc, self, keys, options, pool)
    }
}

// The rows of a frame by the columns of these names.
fn group_by_names<'a, R: Threads + Sync>(
    rt: &R,
    alloc: Global,
    frame: &'a DataFrame,
    by: &[PlSmallStr],
    options: GroupOptions,
    pool: &Pool,
) -> PolarsResult<GroupBy<'a>>
    ensures { GroupsByNames frame.now (names_of by.now) options pool.now result }
{
    if by.is_empty() {
        return Err(PolarsError::ComputeError);
    }
    let keys = find_keys(alloc, frame, by)?;
    check_names(alloc, by)?;
    let keys = lent_keys(alloc, &keys)?;
    group_by_keys(rt, alloc, frame, keys, options, pool)
}

// The rows of a frame by keys.
fn group_by_keys<'a, R: Threads + Sync>(
    rt: &R,
    alloc: Global,
    frame: &'a DataFrame,
    keys: Vec<Key<'a>>,
    options: GroupOptions,
    pool: &Pool,
) -> PolarsResult<GroupBy<'a>>
    ensures made { GroupsByKeys frame.now (columns_of keys.entry.items) options pool.now result }
    ensures frame { IsFrame frame.now }
{
    let keys = fit_keys(alloc, frame, keys)?;
    let groups = groups_of_keys(rt, alloc, &keys, options, pool)?;
    Ok(GroupBy::new(frame, keys, groups, None))
}

// The groups of the rows by keys that all have as many.
fn groups_of_keys<R: Threads + Sync>(
    rt: &R,
    alloc: Global,
    keys: &[Key<'_>],
    options: GroupOptions,
    pool: &Pool,
) -> PolarsResult<GroupPositions>
    requires some { 0 < length keys.now }
    requires aligned { AreOfOneLength (columns_of keys.now) }
    requires few { HasRowNumbers (frame_height (columns_of keys.now)) }
    ensures ok { IfOk result (AreGroupsBy (columns_of keys.now) options pool.now) }
    ensures err { IfErr result IsNoMemory }
{
    let GroupOptions {
        multithreaded,
        sorted,
    } = options;
    let lent = lend(alloc, keys)?;
    let (groups, _) = group_by_detected(rt, &lent, multithreaded, sorted, pool, &FreeGate)?;
    let shared = groups.into_sliceable(alloc)?;
    Ok(shared)
}

// That no name stands twice.
fn check_names(alloc: Global, names: &[PlSmallStr]) -> PolarsResult<()>
    ensures ok { OnOk result (first_repeated (names_of names.now) ≡ None) }
    ensures err { IfErr result (λ e.
        Explains e (duplicate_of (first_repeated (names_of names.now)))) }
{
    match repeated(alloc, names)? {
        Some(name) => Err(PolarsError::Duplicate(name.try_clone()?)),
        None => Ok(()),
    }
}

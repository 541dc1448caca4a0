//! Groups by the runs of a column's rows: rows that hold one slot stand together.

ghost use Rattle.std.specs.Prelude.{◌≡◌, ◌+◌, length, IfOk, IfErr};
ghost use Rattle.gb_defs.specs.Groups.{HasRowNumbers};
ghost use Rattle.gb_defs.specs.Path.{run_groups};
ghost use Rattle.gb_base.specs.PlSmallStr.{IsNoMemory};
ghost use Rattle.gb_groups.specs.GroupsType.{groups_of};
ghost use Rattle.gb_runs.specs.Codes.{rows_in};
ghost use Rattle.gb_runs.specs.Runs.{AreTogether, HasRowsTo, run_starts, starts_in};
ghost use Rattle.gb_paths.specs.Keys.{HasRuns};

use crate::keys::KeyColumn;
use gb_base::error::PolarsResult;
use gb_base::nullable_idx::IdxSize;
use gb_base::pool::Pool;
use gb_cols::series_trait::SeriesTrait;
use gb_flat::shares::{join_shares, map_shares};
use gb_groups::groups_slice::GroupsSlice;
use gb_groups::groups_type::GroupsType;
use gb_runs::runs::runs_between;
use std::thread::Threads;

/// For fewer rows a worker no thread is started.
const SHARE_ROWS: usize = 65_536;

/// The runs of rows that hold one slot, in their order: all rows of a slot are one run.
pub(crate) fn group_runs<C: KeyColumn>(column: &C) -> PolarsResult<GroupsType>
    requires runs { HasRuns (C.value column.now).dtype }
    requires few { HasRowNumbers (length (C.value column.now).slots) }
    requires together { AreTogether (C.value column.now).slots }
    ensures ok { let rows = rows_in (C.value column.now).slots in
        IfOk result (λ g. groups_of g ≡ run_groups rows) }
    ensures err { IfErr result IsNoMemory }
{
    let starts = starts_of_part(column, (0, column.len()))?;
    let groups = runs_from(column, starts.as_slice())?;
    Ok(groups)
}

/// `group_runs`, where each worker finds the first rows of runs among some rows that follow each other, so
/// that no run is cut.
pub(crate) fn group_runs_threaded<T: Threads + Sync, C: KeyColumn + Sync>(
    rt: &T,
    column: &C,
    pool: &Pool,
) -> PolarsResult<GroupsType>
    requires runs { HasRuns (C.value column.now).dtype }
    requires few { HasRowNumbers (length (C.value column.now).slots) }
    requires together { AreTogether (C.value column.now).slots }
    ensures ok { let rows = rows_in (C.value column.now).slots in
        IfOk result (λ g. groups_of g ≡ run_groups rows) }
    ensures err { IfErr result IsNoMemory }
{
    let starts = find_starts(rt, column, pool)?;
    let groups = runs_from(column, starts.as_slice())?;
    Ok(groups)
}

// The runs that begin at these rows.
fn runs_from<C: KeyColumn>(column: &C, starts: &[IdxSize]) -> PolarsResult<GroupsType>
    requires few { HasRowNumbers (length (C.value column.now).slots) }
    requires together { AreTogether (C.value column.now).slots }
    requires starts { starts.now ≡ run_starts (rows_in (C.value column.now).slots) }
    ensures ok { let rows = rows_in (C.value column.now).slots in
        IfOk result (λ g. groups_of g ≡ run_groups rows) }
    ensures err { IfErr result IsNoMemory }
{
    let count = column.len() as IdxSize;
    let runs = runs_between(column.allocator(), starts, count)?;
    Ok(GroupsType::Slice {
        groups: GroupsSlice::from_vec(runs),
        rolling: false,
    })
}

// The first row of each run.
fn find_starts<T: Threads + Sync, C: KeyColumn + Sync>(
    rt: &T,
    column: &C,
    pool: &Pool,
) -> PolarsResult<Vec<IdxSize>>
    requires runs { HasRuns (C.value column.now).dtype }
    requires few { HasRowNumbers (length (C.value column.now).slots) }
    ensures starts { let rows = rows_in (C.value column.now).slots in
        IfOk result (λ starts. starts.items ≡ run_starts rows) }
    ensures err { IfErr result IsNoMemory }
{
    let alloc = column.allocator();
    let count = column.len();
    let workers = pool.workers().min(count / SHARE_ROWS).max(1);
    let part = |range: (usize, usize)|
        requires { HasRuns (C.value column.now).dtype
            × HasRowsTo (C.value column.now).slots (range.0 + range.1) }
        ensures { IfOk result (λ starts.
            starts.items ≡ starts_in (rows_in (C.value column.entry.now).slots) range)
            × IfErr result IsNoMemory }
    { starts_of_part(column, range) };
    let made = map_shares(rt, alloc, count, workers, &part)?;
    let starts = join_shares(alloc, made)?;
    Ok(starts)
}

// The first rows of runs among those of a range.
fn starts_of_part<C: KeyColumn>(column: &C, range: (usize, usize)) -> PolarsResult<Vec<IdxSize>>
    requires runs { HasRuns (C.value column.now).dtype }
    requires rows { HasRowsTo (C.value column.now).slots (range.0 + range.1) }
    ensures ok { let rows = rows_in (C.value column.now).slots in
        IfOk result (λ starts. starts.items ≡ starts_in rows range) }
    ensures err { IfErr result IsNoMemory }
{
    let starts = column.run_starts(range)?;
    Ok(starts)
}

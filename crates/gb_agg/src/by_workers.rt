//! The aggregate over all groups, each worker some groups that follow each other.

ghost use Rattle.std.specs.Prelude.{◌≡◌, ◌+◌, ◌<◌, ◌≤◌, ◌^◌, All, None, IfErr, IfOk, OnOk, length, true};
ghost use Rattle.gb_defs.specs.Column.{content};
ghost use Rattle.gb_defs.specs.Fold.{NUnique};
ghost use Rattle.gb_defs.specs.Groups.{HasRowNumbers, lists_in};
ghost use Rattle.gb_base.specs.PlSmallStr.{IsNoMemory};
ghost use Rattle.gb_base.specs.PolarsError.{Explains};
ghost use Rattle.gb_series.specs.Series.{value_of};
ghost use Rattle.gb_agg.specs.Folds.{AreGroupsOf, IsAggregateOf, folded, joined_content, slots_of_parts, unfit_of};
ghost use Rattle.gb_groups.specs.Views.{part_from};
ghost use Rattle.gb_agg.specs.Method.{goes_by_parts, method_of};

use crate::aggregate::aggregate;
use crate::distinct::distinct_counts;
use crate::method::GroupByMethod;
use gb_base::error::PolarsResult;
use gb_base::pool::Pool;
use gb_cols::series_trait::SeriesTrait;
use gb_flat::shares::map_shares;
use gb_groups::view::GroupsView;
use gb_series::into_series::IntoSeries;
use gb_series::series::Series;
use std::alloc::Global;
use std::thread::Threads;

// So many rows are worth a thread: it is a guess at the rows that are folded while one starts.
const ROWS_A_WORKER: usize = 16_384;

// Whether an aggregate over so many groups reads a column's chunks as they lie: one that looks at no slot, and one
// that seeks chunks from the last one on where passing them once for each group takes less than a copy.
fn reads_chunks(method: GroupByMethod, chunks: usize, rows: usize, groups: usize) -> bool {
    match method {
        GroupByMethod::Sum | GroupByMethod::First | GroupByMethod::Last => {
            groups.saturating_mul(chunks) <= rows.saturating_mul(8)
        }
        GroupByMethod::Count { include_nulls } => include_nulls,
        GroupByMethod::Groups | GroupByMethod::Implode => true,
        GroupByMethod::Min | GroupByMethod::Max | GroupByMethod::NUnique => false,
    }
}

// `aggregate_by_parts` of a column of one chunk.
fn aggregate_whole<R: Threads + Sync>(
    rt: &R,
    alloc: Global,
    column: &Series,
    method: GroupByMethod,
    groups: &GroupsView<'_>,
    pool: &Pool,
) -> PolarsResult<Series>
    requires parts { goes_by_parts method ≡ true }
    requires groups { AreGroupsOf (value_of column.now) groups.now }
    requires short { HasRowNumbers (length (value_of column.now).slots) }
    ensures fits { OnOk result (unfit_of (method_of method) (value_of column.now) ≡ None) }
    ensures ok { IfOk result (IsAggregateOf method (value_of column.now) groups.now) }
    ensures err { IfErr result (λ e.
        Explains e (unfit_of (method_of method) (value_of column.now))) }
{
    let workers = pool.workers().min(column.len() / ROWS_A_WORKER);
    if workers < 2 {
        return aggregate(column, method, groups);
    }
    // Over no groups: what the column's type has not is refused here.
    let none = aggregate(column, method, &groups.part(0, 0))?;
    let part = |range: (usize, usize)| -> PolarsResult<Series>
        requires { range.0 + range.1 ≤ length groups.now.pairs
            × AreGroupsOf (value_of column.now) groups.now
            × HasRowNumbers (length (value_of column.now).slots)
            × goes_by_parts method ≡ true
            × unfit_of (method_of method) (value_of column.now) ≡ None }
        ensures { IfOk result (IsAggregateOf method (value_of column.entry.now)
            (part_from groups.entry.now range.0 range.1))
            × IfErr result IsNoMemory }
    { aggregate_part(column, method, groups, range) };
    let count = groups.len();
    let made = map_shares(rt, alloc, count, workers, &part)?;
    append_all(none, made)
}

/// The aggregate over the rows of each group, under the column's name, unless the type of the column has none; by
/// as many workers as the pool has where there are many rows. With one worker no thread is started. The rows of
/// a group stand in all chunks of a column, so where there are many groups several chunks are put into one before.
pub fn aggregate_all<R: Threads + Sync>(
    rt: &R,
    alloc: Global,
    column: &Series,
    method: GroupByMethod,
    groups: &GroupsView<'_>,
    pool: &Pool,
) -> PolarsResult<Series>
    requires groups { AreGroupsOf (value_of column.now) groups.now }
    requires short { HasRowNumbers (length (value_of column.now).slots) }
    ensures fits { OnOk result (unfit_of (method_of method) (value_of column.now) ≡ None) }
    ensures ok { IfOk result (IsAggregateOf method (value_of column.now) groups.now) }
    ensures err { IfErr result (λ e.
        Explains e (unfit_of (method_of method) (value_of column.now))) }
{
    match method {
        GroupByMethod::NUnique => all_distinct(rt, column, groups, pool),
        _ => aggregate_by_parts(rt, alloc, column, method, groups, pool),
    }
}

// How many slots of each group differ.
fn all_distinct<R: Threads + Sync>(
    rt: &R,
    column: &Series,
    groups: &GroupsView<'_>,
    pool: &Pool,
) -> PolarsResult<Series>
    requires groups { AreGroupsOf (value_of column.now) groups.now }
    requires short { HasRowNumbers (length (value_of column.now).slots) }
    ensures ok { let c = value_of column.now in IfOk result (λ s.
        value_of s ≡ folded NUnique c (lists_in groups.now)) }
    ensures err { IfErr result IsNoMemory }
{
    let counts = distinct_counts(rt, column, groups, pool)?;
    Ok(counts.into_series())
}

// `aggregate_all` by a method that goes by parts of the groups.
fn aggregate_by_parts<R: Threads + Sync>(
    rt: &R,
    alloc: Global,
    column: &Series,
    method: GroupByMethod,
    groups: &GroupsView<'_>,
    pool: &Pool,
) -> PolarsResult<Series>
    requires parts { goes_by_parts method ≡ true }
    requires groups { AreGroupsOf (value_of column.now) groups.now }
    requires short { HasRowNumbers (length (value_of column.now).slots) }
    ensures fits { OnOk result (unfit_of (method_of method) (value_of column.now) ≡ None) }
    ensures ok { IfOk result (IsAggregateOf method (value_of column.now) groups.now) }
    ensures err { IfErr result (λ e.
        Explains e (unfit_of (method_of method) (value_of column.now))) }
{
    let chunks = column.n_chunks();
    if chunks == 1 || reads_chunks(method, chunks, column.len(), groups.len()) {
        return aggregate_whole(rt, alloc, column, method, groups, pool);
    }
    let whole = column.rechunk()?;
    aggregate_whole(rt, alloc, &whole, method, groups, pool)
}

// `aggregate` over the groups of a range, its first and how many they are, where the type of the column has
// it.
fn aggregate_part(
    column: &Series,
    method: GroupByMethod,
    groups: &GroupsView<'_>,
    range: (usize, usize),
) -> PolarsResult<Series>
    requires parts { goes_by_parts method ≡ true }
    requires inside { range.0 + range.1 ≤ length groups.now.pairs }
    requires groups { AreGroupsOf (value_of column.now) groups.now }
    requires short { HasRowNumbers (length (value_of column.now).slots) }
    requires fits { unfit_of (method_of method) (value_of column.now) ≡ None }
    ensures ok { IfOk result (IsAggregateOf method (value_of column.now)
        (part_from groups.now range.0 range.1)) }
    ensures err { IfErr result IsNoMemory }
{
    aggregate(column, method, &groups.part(range.0, range.1))
}

// The slots of the others behind those of a column.
fn append_all(mut all: Series, others: Vec<Series>) -> PolarsResult<Series>
    requires typed { All (λ s. (value_of s).dtype ≡ (value_of all).dtype) others.items }
    requires few { length (value_of all).slots + length (slots_of_parts others.items) < 2 ^ 63 }
    ensures ok { IfOk result (λ s. content (value_of s)
        ≡ joined_content (value_of all) others.items) }
    ensures err { IfErr result IsNoMemory }
{
    for other in others {
        all.append(other)?;
    }
    Ok(all)
}

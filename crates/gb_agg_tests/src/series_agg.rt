//! Each aggregate as a call of a series, over runs of which one has no rows.

ghost use Rattle.std.specs.Prelude.{◌≡◌, All, IfOk, length};
ghost use Rattle.gb_defs.specs.Groups.{AreMembers, HasRowNumbers, lists_in};
ghost use Rattle.gb_groups.specs.GroupsType.{groups_of};
ghost use Rattle.gb_series.specs.Series.{value_of};
ghost use Rattle.gb_agg.specs.Folds.{AreGroupsOf};

use crate::methods::put_cell;
use gb_agg::series_agg::{SeriesAgg, slice_from_offsets};
use gb_base::error::PolarsResult;
use gb_base::pool::Pool;
use gb_base::small_str::PlSmallStr;
use gb_cols::primitive::Int32Chunked;
use gb_cols::series_trait::SeriesTrait;
use gb_groups::groups_slice::GroupsSlice;
use gb_groups::groups_type::GroupsType;
use gb_series::into_series::IntoSeries;
use gb_series::series::Series;
use std::alloc::Global;
use std::test::Fail;
use std::thread::Threads;

fn temps(alloc: Global) -> PolarsResult<Series> {
    let name = PlSmallStr::from_str(alloc, "temp")?;
    let column = Int32Chunked::from_slice(alloc, name, &[20, 10, 7, 9, 1])?;
    Ok(column.into_series())
}

// The first two rows, the next two, the last, and none.
fn four_runs(alloc: Global) -> PolarsResult<GroupsType>
    ensures { IfOk result (λ g. All (AreMembers 5) (lists_in (groups_of g))) }
{
    let runs = vec![in alloc; [0u32, 2], [2, 2], [4, 1], [4, 0]]?;
    Ok(GroupsType::Slice {
        groups: GroupsSlice::from_vec(runs),
        rolling: false,
    })
}

// The cells of a column, a slash behind each, and a line's end.
fn put_line(column: PolarsResult<Series>, cells: &mut Vec<u8>) -> PolarsResult<()> {
    let column = column?;
    for row in 0..column.len() {
        put_cell(&column, row, cells)?;
    }
    cells.push(b'\n')?;
    Ok(())
}

// A line for each aggregate of the groups.
fn put_aggregates<R: Threads + Sync>(
    rt: &R,
    column: &Series,
    groups: &GroupsType,
    lines: &mut Vec<u8>,
) -> PolarsResult<()>
    requires groups { AreGroupsOf (value_of column.now) (groups_of groups.now) }
    requires short { HasRowNumbers (length (value_of column.now).slots) }
{
    let pool = Pool::new(2, 2, 1, 1, 0);
    put_line(column.agg_sum(rt, groups, &pool), lines)?;
    put_line(column.agg_min(rt, groups, &pool), lines)?;
    put_line(column.agg_max(rt, groups, &pool), lines)?;
    put_line(column.agg_first(rt, groups, &pool), lines)?;
    put_line(column.agg_last(rt, groups, &pool), lines)?;
    put_line(column.agg_n_unique(rt, groups, &pool), lines)?;
    put_line(column.agg_valid_count(rt, groups, &pool), lines)?;
    put_line(column.agg_list(rt, groups, &pool), lines)?;
    Ok(())
}

// Whether the lines of the aggregates of the runs are these.
fn makes<R: Threads + Sync>(rt: &R, column: &Series, wanted: &str) -> PolarsResult<bool> {
    if column.len() != 5 {
        return Ok(false);
    }
    let groups = four_runs(column.allocator())?;
    if groups.len() != 4 {
        return Ok(false);
    }
    let mut lines = Vec::new(column.allocator());
    put_aggregates(rt, column, &groups, &mut lines)?;
    Ok(lines.as_slice() == wanted.as_bytes())
}

// Whether the cells of the rows between are these.
fn has_rows(column: &Series, first: u32, len: u32, wanted: &str) -> PolarsResult<bool> {
    if column.len() != 5 || first > 2 || len > 3 {
        return Ok(false);
    }
    let mut line = Vec::new(column.allocator());
    put_line(slice_from_offsets(column, first, len), &mut line)?;
    Ok(line.as_slice() == wanted.as_bytes())
}

const LINES: &str = "30/16/1/0/\n10/7/1/-/\n20/9/1/-/\n20/7/1/-/\n10/9/1/-/\n\
    2/2/1/0/\n2/2/1/-/\n[20,10]/[7,9]/[1]/[]/\n";

#[test]
fn aggregates_are_calls(rt: HostRuntime) -> Result<(), Fail> {
    let column = temps(rt.alloc())?;
    assert!(rt; makes(&rt, &column, LINES)?);
    assert!(rt; column.name().as_str() == "temp");
    Ok(())
}

#[test]
fn rows_are_cut_at_offsets(rt: HostRuntime) -> Result<(), Fail> {
    let column = temps(rt.alloc())?;
    assert!(rt; has_rows(&column, 1, 3, "10/7/9/\n")?);
    assert!(rt; has_rows(&column, 2, 0, "\n")?);
    Ok(())
}

//! Keys that are known to be in order, and keys that are codes: the form and the order of their groups.

ghost use Rattle.std.specs.Prelude.{◌≡◌, ◌<◌, length, IfOk};
ghost use Rattle.gb_defs.specs.Groups.{HasRowNumbers};
ghost use Rattle.gb_series.specs.Series.{value_of};

use crate::paths::texts;
use gb_base::data_type::CategoricalOrdering;
use gb_base::error::PolarsResult;
use gb_base::memory::FreeGate;
use gb_base::nullable_idx::IdxSize;
use gb_base::pool::Pool;
use gb_base::small_str::PlSmallStr;
use gb_cols::chunked::StringChunked;
use gb_cols::primitive::{Int32Chunked, UInt8Chunked};
use gb_cols::series_trait::SeriesTrait;
use gb_cols::undo_append::UndoAppend;
use gb_flat_series::series::FlatSeries;
use gb_groups::groups_type::{GroupsIndicator, GroupsType};
use gb_logical::categorical::CategoricalChunked;
use gb_paths::categories::CategoryGroups;
use gb_paths::into_groups::IntoGroupsType;
use gb_paths::path::Path;
use gb_paths::trace::{Trace, group_tuples_traced};
use gb_runs::perfect::PerfectGroups;
use gb_series::series::Series;
use std::alloc::Global;
use std::test::Fail;
use std::thread::Threads;

fn name_of(alloc: Global) -> PolarsResult<PlSmallStr> {
    PlSmallStr::from_str(alloc, "key")
}

/// Runs as a test wants them: the first row of each and its length.
type Runs<'a> = &'a [[IdxSize; 2]];

// Whether the groups are these runs, in this order.
fn are_runs(groups: &GroupsType, wanted: Runs<'_>) -> bool {
    if groups.len() != wanted.len() || !groups.is_sorted_flag() {
        return false;
    }
    for (group, run) in groups.iter().zip(wanted.iter()) {
        if !is_run(&group, *run) {
            return false;
        }
    }
    true
}

fn is_run(group: &GroupsIndicator<'_>, wanted: [IdxSize; 2]) -> bool {
    match group {
        GroupsIndicator::Idx(_) => false,
        GroupsIndicator::Slice(run) => run[0] == wanted[0] && run[1] == wanted[1],
    }
}

/// A group as a test wants it.
type Wanted<'a> = (IdxSize, &'a [IdxSize]);

// Whether the groups are these lists in this order, with this flag.
fn are_lists(groups: &GroupsType, flagged: bool, wanted: &[Wanted<'_>]) -> bool {
    if groups.is_sorted_flag() != flagged || groups.len() != wanted.len() {
        return false;
    }
    for (group, (first, rows)) in groups.iter().zip(wanted.iter()) {
        if group.first() != *first || !has_list(&group, rows) {
            return false;
        }
    }
    true
}

fn has_list(group: &GroupsIndicator<'_>, rows: &[IdxSize]) -> bool {
    match group {
        GroupsIndicator::Idx((_, list)) => list.as_slice() == rows,
        GroupsIndicator::Slice(_) => false,
    }
}

// Whether a column is flagged, and its groups are these runs, by any number of workers.
fn groups_by_runs<T: Threads + Sync, C: IntoGroupsType>(
    rt: &T,
    column: &C,
    wanted: Runs<'_>,
) -> PolarsResult<bool>
    requires few { HasRowNumbers (length (C.value column.now).slots) }
{
    let pool = Pool::new(4, 7, 1, 2, 9);
    let groups = column.group_tuples(rt, true, false, &pool)?;
    Ok(are_runs(&groups, wanted))
}

// The flag of the order that the column is in.
fn note_order<C: SeriesTrait>(column: &mut C)
    ensures { length (C.value column.new).slots ≡ length (C.value column.old).slots }
{
    let sorted = column.detect_sorted();
    column.set_sorted_flag(sorted);
}

// Whether numbers are found to be in this order, and have these runs.
fn numbers_run<T: Threads + Sync>(
    rt: &T,
    alloc: Global,
    numbers: &[Option<i32>],
    wanted: Runs<'_>,
) -> PolarsResult<bool>
    requires { HasRowNumbers (length numbers.now) }
{
    let mut column = Int32Chunked::from_slice_options(alloc, name_of(alloc)?, numbers)?;
    note_order(&mut column);
    groups_by_runs(rt, &column, wanted)
}

#[test]
fn numbers_in_order_have_runs(rt: HostRuntime) -> Result<(), Fail> {
    let alloc = rt.alloc();
    let cases: [(&[Option<i32>], Runs<'_>); 5] = [
        (&[None, Some(1), Some(1)], &[[0, 1], [1, 2]]),
        (
            &[Some(-2), Some(-2), Some(3), None, None],
            &[[0, 2], [2, 1], [3, 2]],
        ),
        (
            &[Some(5), Some(5), Some(4), Some(-1)],
            &[[0, 2], [2, 1], [3, 1]],
        ),
        (
            &[None, None, Some(2), Some(1), Some(1)],
            &[[0, 2], [2, 1], [3, 2]],
        ),
        (&[None, None], &[[0, 2]]),
    ];
    for (numbers, wanted) in &cases {
        assert!(rt;
            numbers_run(&rt, alloc, numbers, wanted)?,
            "{}",
            numbers.len()
        );
    }
    Ok(())
}

// Whether a key is told to be grouped by these runs, and none of it hashed.
fn traces_runs<T: Threads + Sync>(rt: &T, key: &Series, wanted: Runs<'_>) -> PolarsResult<bool>
    requires few { HasRowNumbers (length (value_of key.now).slots) }
{
    let pool = Pool::new(4, 7, 1, 2, 9);
    let (groups, trace) = group_tuples_traced(rt, key, true, false, &pool, &FreeGate)?;
    let told = Trace {
        path: Path::Sorted,
        groups: groups.len() as u64,
        keys_read: 0,
    };
    Ok(trace == told && are_runs(&groups, wanted))
}

// Whether a null and numbers behind it trace their runs.
fn numbers_trace<T: Threads + Sync>(rt: &T, alloc: Global) -> PolarsResult<bool> {
    let numbers = [None, Some(1), Some(1)];
    let mut column = Int32Chunked::from_slice_options(alloc, name_of(alloc)?, &numbers)?;
    note_order(&mut column);
    traces_runs(
        rt,
        &Series::Flat(FlatSeries::Int32(column)),
        &[[0, 1], [1, 2]],
    )
}

#[test]
fn runs_are_traced(rt: HostRuntime) -> Result<(), Fail> {
    assert!(rt; numbers_trace(&rt, rt.alloc())?);
    Ok(())
}

// Whether texts in one chunk have these runs, and in two chunks lists.
fn texts_run<T: Threads + Sync>(rt: &T, alloc: Global) -> PolarsResult<bool> {
    let mut column = StringChunked::new(alloc, name_of(alloc)?);
    column.push(Some("a"))?;
    column.push(Some("b"))?;
    column.push(Some("b"))?;
    note_order(&mut column);
    groups_by_runs(rt, &column, &[[0, 1], [1, 2]])
}

#[test]
fn texts_in_order_have_runs(rt: HostRuntime) -> Result<(), Fail> {
    assert!(rt; texts_run(&rt, rt.alloc())?);
    Ok(())
}

// The groups of numbers that are codes of so many, or none where they are not.
fn grouped_codes<T: Threads + Sync>(
    _rt: &T,
    alloc: Global,
    codes: &[Option<u8>],
    count: usize,
) -> PolarsResult<Option<GroupsType>>
    requires { HasRowNumbers (length codes.now) }
{
    let column = UInt8Chunked::from_slice_options(alloc, name_of(alloc)?, codes)?;
    if !column.codes_fit(count) {
        return Ok(None);
    }
    let pool = Pool::new(1, 1, 1, 1, 0);
    Ok(Some(column.group_tuples_perfect(count, false, 0, &pool)?))
}

// Whether numbers are codes of so many with these groups, and not codes of one more or one fewer.
fn codes_group<T: Threads + Sync>(rt: &T, alloc: Global) -> PolarsResult<bool> {
    let codes = [Some(1), None, Some(0), Some(1)];
    if grouped_codes(rt, alloc, &codes, 1)?.is_some()
        || grouped_codes(rt, alloc, &codes, 3)?.is_some()
    {
        return Ok(false);
    }
    match grouped_codes(rt, alloc, &codes, 2)? {
        Some(groups) => Ok(are_lists(&groups, false, &[(2, &[2]), (0, &[0, 3]), (1, &[1])])),
        None => Ok(false),
    }
}

#[test]
fn codes_have_lists(rt: HostRuntime) -> Result<(), Fail> {
    assert!(rt; codes_group(&rt, rt.alloc())?);
    Ok(())
}

// Categories of texts, all of which are used.
fn categories(alloc: Global, cells: &[Option<&str>]) -> PolarsResult<CategoricalChunked>
    requires { HasRowNumbers (length cells.now) }
    ensures { IfOk result (λ c. length c.slots ≡ length cells.now) }
{
    let column = texts(alloc, cells)?;
    CategoricalChunked::from_strings(&column, CategoricalOrdering::Physical, 7)
}

// Whether categories have these groups in the order of first rows, and these in that of their codes.
fn categories_group<T: Threads + Sync>(rt: &T, alloc: Global) -> PolarsResult<bool> {
    let column = categories(alloc, &[None, Some("b"), Some("a"), Some("b")])?;
    let pool = Pool::new(4, 7, 1, 2, 9);
    let sorted = column.group_tuples_perfect(rt, true, true, &pool)?;
    let coded = column.group_tuples_perfect(rt, true, false, &pool)?;
    Ok(
        are_lists(&sorted, true, &[(0, &[0]), (1, &[1, 3]), (2, &[2])])
            && are_lists(&coded, false, &[(1, &[1, 3]), (2, &[2]), (0, &[0])]),
    )
}

#[test]
fn categories_have_lists(rt: HostRuntime) -> Result<(), Fail> {
    assert!(rt; categories_group(&rt, rt.alloc())?);
    Ok(())
}

//! Each method over columns of each kind: over rows with a null, over nulls alone, over one row, and over none.

ghost use Rattle.std.specs.Prelude.{◌≡◌, All, IfOk, length};
ghost use Rattle.gb_defs.specs.Groups.{AreMembers, HasRowNumbers, lists_in};
ghost use Rattle.gb_groups.specs.GroupsType.{groups_of};
ghost use Rattle.gb_series.specs.Series.{value_of};
ghost use Rattle.gb_agg.specs.Folds.{AreGroupsOf};

use gb_agg::by_workers::aggregate_all;
use gb_agg::method::GroupByMethod;
use gb_base::data_type::CategoricalOrdering;
use gb_base::error::{PolarsError, PolarsResult};
use gb_base::pool::Pool;
use gb_base::small_str::PlSmallStr;
use gb_cols::boolean::BooleanChunked;
use gb_cols::chunked::StringChunked;
use gb_cols::null::NullChunked;
use gb_cols::primitive::Int64Chunked;
use gb_cols::series_trait::SeriesTrait;
use gb_groups::groups_slice::GroupsSlice;
use gb_groups::groups_type::GroupsType;
use gb_logical::categorical::CategoricalChunked;
use gb_series::into_series::IntoSeries;
use gb_series::series::Series;
use std::alloc::Global;
use std::test::Fail;
use std::thread::Threads;

// All four rows, the second, the last two, and none.
fn four_runs(alloc: Global) -> PolarsResult<GroupsType>
    ensures { IfOk result (λ g. All (AreMembers 4) (lists_in (groups_of g))) }
{
    let runs = vec![in alloc; [0u32, 4], [1, 1], [2, 2], [3, 0]]?;
    Ok(GroupsType::Slice {
        groups: GroupsSlice::from_vec(runs),
        rolling: true,
    })
}

fn named(alloc: Global) -> PolarsResult<PlSmallStr> {
    PlSmallStr::from_str(alloc, "v")
}

fn numbers(alloc: Global) -> PolarsResult<Series> {
    let mut column = Int64Chunked::new(alloc, named(alloc)?);
    column.push(Some(3))?;
    column.push(None)?;
    column.push(Some(-1))?;
    column.push(Some(5))?;
    Ok(column.into_series())
}

fn flags(alloc: Global) -> PolarsResult<Series> {
    let mut column = BooleanChunked::new(alloc, named(alloc)?);
    column.push(Some(true))?;
    column.push(None)?;
    column.push(Some(false))?;
    column.push(Some(true))?;
    Ok(column.into_series())
}

fn strings(alloc: Global) -> PolarsResult<StringChunked> {
    let mut column = StringChunked::new(alloc, named(alloc)?);
    column.push(Some("y"))?;
    column.push(None)?;
    column.push(Some("x"))?;
    column.push(Some("yy"))?;
    Ok(column)
}

fn categories(alloc: Global, ordering: CategoricalOrdering) -> PolarsResult<Series> {
    let texts = strings(alloc)?;
    if texts.len() > 99 {
        return Err(PolarsError::NoMemory);
    }
    Ok(CategoricalChunked::from_strings(&texts, ordering, 7)?.into_series())
}

// Whether the cells of the aggregate over the four runs, each with a slash behind it, are this text.
fn makes<R: Threads + Sync>(
    rt: &R,
    column: PolarsResult<Series>,
    method: GroupByMethod,
    text: &str,
) -> PolarsResult<bool> {
    let column = column?;
    if column.len() != 4 {
        return Ok(false);
    }
    let groups = four_runs(column.allocator())?;
    if groups.len() != 4 {
        return Ok(false);
    }
    let alloc = column.allocator();
    let pool = Pool::new(2, 2, 1, 1, 0);
    let folded = aggregate_all(rt, alloc, &column, method, &groups.view(), &pool)?;
    let mut cells = Vec::new(alloc);
    for row in 0..folded.len() {
        put_cell(&folded, row, &mut cells)?;
    }
    Ok(cells.as_slice() == text.as_bytes())
}

// The cell of a row and a slash, behind what is there.
pub(crate) fn put_cell(column: &Series, row: usize, cells: &mut Vec<u8>) -> PolarsResult<()> {
    if row < column.len() {
        column.write_cell(row, "-", cells)?;
    }
    cells.push(b'/')?;
    Ok(())
}

const COUNT: GroupByMethod = GroupByMethod::Count {
    include_nulls: true,
};

const VALID: GroupByMethod = GroupByMethod::Count {
    include_nulls: false,
};

#[test]
fn numbers_are_aggregated(rt: HostRuntime) -> Result<(), Fail> {
    let alloc = rt.alloc();
    assert!(rt; makes(&rt, numbers(alloc), GroupByMethod::Min, "-1/-/-1/-/")?);
    assert!(rt; makes(&rt, numbers(alloc), GroupByMethod::Max, "5/-/5/-/")?);
    assert!(rt; makes(&rt, numbers(alloc), GroupByMethod::First, "3/-/-1/-/")?);
    assert!(rt; makes(&rt, numbers(alloc), GroupByMethod::Last, "5/-/5/-/")?);
    assert!(rt; makes(&rt, numbers(alloc), GroupByMethod::Sum, "7/0/4/0/")?);
    assert!(rt; makes(&rt, numbers(alloc), COUNT, "4/1/2/0/")?);
    assert!(rt; makes(&rt, numbers(alloc), VALID, "3/0/2/-/")?);
    assert!(rt; makes(&rt, numbers(alloc), GroupByMethod::NUnique, "4/1/2/0/")?);
    Ok(())
}

#[test]
fn flags_are_aggregated(rt: HostRuntime) -> Result<(), Fail> {
    let alloc = rt.alloc();
    assert!(rt; makes(&rt, flags(alloc), GroupByMethod::Min, "false/-/false/-/")?);
    assert!(rt; makes(&rt, flags(alloc), GroupByMethod::Max, "true/-/true/-/")?);
    assert!(rt; makes(&rt, flags(alloc), GroupByMethod::Sum, "2/0/1/0/")?);
    Ok(())
}

#[test]
fn categories_are_aggregated(rt: HostRuntime) -> Result<(), Fail> {
    let alloc = rt.alloc();
    let by_code = CategoricalOrdering::Physical;
    let by_text = CategoricalOrdering::Lexical;
    assert!(rt;
        makes(
            &rt,
            categories(alloc, by_code),
            GroupByMethod::Min,
            "y/-/x/-/"
        )?
    );
    assert!(rt;
        makes(
            &rt,
            categories(alloc, by_code),
            GroupByMethod::Max,
            "yy/-/yy/-/"
        )?
    );
    assert!(rt;
        makes(
            &rt,
            categories(alloc, by_text),
            GroupByMethod::Min,
            "x/-/x/-/"
        )?
    );
    assert!(rt;
        makes(
            &rt,
            categories(alloc, by_text),
            GroupByMethod::Max,
            "yy/-/yy/-/"
        )?
    );
    assert!(rt;
        makes(
            &rt,
            categories(alloc, by_text),
            GroupByMethod::Last,
            "yy/-/yy/-/"
        )?
    );
    Ok(())
}

#[test]
fn lists_are_made(rt: HostRuntime) -> Result<(), Fail> {
    let alloc = rt.alloc();
    let rows = "[0,1,2,3]/[1]/[2,3]/[]/";
    assert!(rt; makes(&rt, numbers(alloc), GroupByMethod::Groups, rows)?);
    let slots = "[3,null,-1,5]/[null]/[-1,5]/[]/";
    assert!(rt; makes(&rt, numbers(alloc), GroupByMethod::Implode, slots)?);
    let slots = "[\"y\",null,\"x\",\"yy\"]/[null]/[\"x\",\"yy\"]/[]/";
    assert!(rt; makes(&rt, texts(alloc), GroupByMethod::Implode, slots)?);
    Ok(())
}

// Whether these are the counts of a column whose first and last slots are alike, and whose others are.
fn counts_alike<R: Threads + Sync>(rt: &R, alloc: Global, text: &str) -> PolarsResult<bool> {
    let mut column = Int64Chunked::new(alloc, named(alloc)?);
    column.push(None)?;
    column.push(Some(7))?;
    column.push(Some(7))?;
    column.push(None)?;
    makes(rt, Ok(column.into_series()), GroupByMethod::NUnique, text)
}

#[test]
fn slots_that_are_alike_count_once(rt: HostRuntime) -> Result<(), Fail> {
    assert!(rt; counts_alike(&rt, rt.alloc(), "2/1/2/0/")?);
    Ok(())
}

fn texts(alloc: Global) -> PolarsResult<Series> {
    Ok(strings(alloc)?.into_series())
}

fn nulls(alloc: Global) -> PolarsResult<Series> {
    Ok(NullChunked::new(alloc, named(alloc)?, 4).into_series())
}

// Whether a method is refused.
fn is_refused(made: PolarsResult<bool>) -> bool {
    match made {
        Err(PolarsError::InvalidOperation(_, name)) => name.as_str() == "v",
        _ => false,
    }
}

#[test]
fn texts_and_nulls_are_aggregated(rt: HostRuntime) -> Result<(), Fail> {
    let alloc = rt.alloc();
    assert!(rt; makes(&rt, texts(alloc), GroupByMethod::Min, "x/-/x/-/")?);
    assert!(rt; makes(&rt, texts(alloc), GroupByMethod::Max, "yy/-/yy/-/")?);
    assert!(rt; makes(&rt, nulls(alloc), GroupByMethod::First, "-/-/-/-/")?);
    assert!(rt; makes(&rt, nulls(alloc), VALID, "0/0/0/-/")?);
    assert!(rt; makes(&rt, nulls(alloc), GroupByMethod::NUnique, "1/1/1/0/")?);
    assert!(rt; is_refused(makes(&rt, texts(alloc), GroupByMethod::Sum, "")));
    assert!(rt; is_refused(makes(&rt, nulls(alloc), GroupByMethod::Max, "")));
    Ok(())
}

//! Frames grouped by columns that are none of theirs.

use crate::group_by::{days, refusal, writes};
use gb_agg::method::GroupByMethod;
use gb_base::error::PolarsResult;
use gb_base::memory::FreeGate;
use gb_base::pool::Pool;
use gb_base::small_str::PlSmallStr;
use gb_cols::null::NullChunked;
use gb_cols::primitive::Int32Chunked;
use gb_frame::agg::Agg;
use gb_frame::by_names::FrameGroupBy;
use gb_frame::group_agg::{group_agg, group_agg_traced};
use gb_frame::options::GroupOptions;
use gb_paths::path::Path;
use gb_series::frame::DataFrame;
use gb_series::into_series::IntoSeries;
use gb_series::series::Series;
use std::alloc::Global;
use std::test::Fail;
use std::thread::Threads;

const IN_ORDER: GroupOptions = GroupOptions {
    multithreaded: true,
    sorted: true,
};

fn numbers(alloc: Global, name: &str, values: &[i32]) -> PolarsResult<Series> {
    let name = PlSmallStr::from_str(alloc, name)?;
    Ok(Int32Chunked::from_slice(alloc, name, values)?.into_series())
}

// A key of nulls alone. So many rows are none that a `usize` of other columns counts.
fn nulls(alloc: Global, len: u32, more: usize) -> PolarsResult<Series> {
    let name = PlSmallStr::from_str(alloc, "n")?;
    Ok(NullChunked::new(alloc, name, len as usize + more.min(1)).into_series())
}

fn sum_of(alloc: Global, name: &str) -> PolarsResult<Vec<Agg>> {
    let mut aggs = Vec::new(alloc);
    aggs.push(Agg {
        column: PlSmallStr::from_str(alloc, name)?,
        method: GroupByMethod::Sum,
    })?;
    Ok(aggs)
}

// The sums of a column by keys.
fn sums<R: Threads + Sync>(
    rt: &R,
    alloc: Global,
    frame: &DataFrame,
    keys: &[&Series],
    name: &str,
) -> PolarsResult<DataFrame> {
    let pool = Pool::new(2, 2, 1, 1, 0);
    let aggs = sum_of(alloc, name)?;
    group_agg(rt, alloc, frame, keys, &aggs, IN_ORDER, &pool, &FreeGate)
}

#[test]
fn keys_beside_a_frame(rt: HostRuntime) -> Result<(), Fail> {
    let alloc = rt.alloc();
    let frame = days(&rt, alloc)?;
    let each = numbers(alloc, "k", &[1, 1, 2, 2, 2])?;
    let made = sums(&rt, alloc, &frame, &[&each], "temp");
    assert!(rt; writes(&rt, alloc, made, "k:i32,temp_sum:i32\n1,30\n2,17\n")?);
    let one = numbers(alloc, "o", &[7])?;
    let made = sums(&rt, alloc, &frame, &[&one], "temp");
    assert!(rt; writes(&rt, alloc, made, "o:i32,temp_sum:i32\n7,47\n")?);
    let made = sums(&rt, alloc, &frame, &[&one, &each], "temp");
    assert!(rt;
        writes(
            &rt,
            alloc,
            made,
            "o:i32,k:i32,temp_sum:i32\n7,1,30\n7,2,17\n"
        )?
    );
    Ok(())
}

#[test]
fn refused_keys_and_aggregates(rt: HostRuntime) -> Result<(), Fail> {
    let alloc = rt.alloc();
    let frame = days(&rt, alloc)?;
    let each = numbers(alloc, "temp_sum", &[1, 1, 2, 2, 2])?;
    let three = numbers(alloc, "k", &[1, 1, 2])?;
    let cases: [(&[&Series], &str, &str); 6] = [
        (&[], "warmth", "compute"),
        (&[&three], "warmth", "shape mismatch"),
        (&[&each, &three], "temp", "shape mismatch"),
        (&[&each], "warmth", "column not found: warmth"),
        (&[&each], "date", "invalid operation: sum of date"),
        (&[&each], "temp", "duplicate column: temp_sum"),
    ];
    for (keys, name, told) in cases {
        let made = sums(&rt, alloc, &frame, keys, name);
        assert_eq!(rt; refusal(alloc, made)?.as_str(), told);
    }
    Ok(())
}

// By keys alone, of a frame of no columns, and of one of a column and no rows.
#[test]
fn keys_beside_no_rows(rt: HostRuntime) -> Result<(), Fail> {
    let alloc = rt.alloc();
    let pool = Pool::new(1, 1, 1, 1, 0);
    let empty = DataFrame::empty(alloc);
    let mut columns = Vec::new(alloc);
    columns.push(numbers(alloc, "v", &[])?)?;
    let rowless = DataFrame::new(columns)?;
    let one = numbers(alloc, "k", &[7])?;
    let two = numbers(alloc, "j", &[3, 3])?;
    let made = group_agg(
        &rt,
        alloc,
        &rowless,
        &[&one],
        &[],
        IN_ORDER,
        &pool,
        &FreeGate,
    );
    assert!(rt; writes(&rt, alloc, made, "k:i32\n")?);
    let made = group_agg(&rt, alloc, &empty, &[&one], &[], IN_ORDER, &pool, &FreeGate);
    assert!(rt; writes(&rt, alloc, made, "k:i32\n7\n")?);
    let made = group_agg(
        &rt,
        alloc,
        &empty,
        &[&one, &two],
        &[],
        IN_ORDER,
        &pool,
        &FreeGate,
    );
    assert!(rt; writes(&rt, alloc, made, "k:i32,j:i32\n7,3\n")?);
    Ok(())
}

#[test]
fn nulls_beyond_number(rt: HostRuntime) -> Result<(), Fail> {
    let alloc = rt.alloc();
    let pool = Pool::new(1, 1, 1, 1, 0);
    let empty = DataFrame::empty(alloc);
    let most = nulls(alloc, u32::MAX, 0)?;
    let keys = [&most];
    let (answer, trace) = group_agg_traced(
        &rt,
        alloc,
        &empty,
        &keys,
        &[],
        IN_ORDER,
        &pool,
        &FreeGate,
    )?;
    assert_eq!(rt; answer.height(), 1);
    assert_eq!(rt; trace.path, Path::Nulls);
    let more = nulls(alloc, u32::MAX, 1)?;
    let made = group_agg(
        &rt,
        alloc,
        &empty,
        &[&more],
        &[],
        IN_ORDER,
        &pool,
        &FreeGate,
    );
    assert_eq!(rt; refusal(alloc, made)?.as_str(), "too many rows: 4294967296");
    Ok(())
}

#[test]
fn a_grouping_by_columns(rt: HostRuntime) -> Result<(), Fail> {
    let alloc = rt.alloc();
    let pool = Pool::new(1, 1, 1, 1, 0);
    let frame = days(&rt, alloc)?;
    let mut by = Vec::new(alloc);
    by.push(numbers(alloc, "k", &[1, 1, 2, 2, 2])?)?;
    by.push(numbers(alloc, "o", &[7])?)?;
    let mut grouped = frame.group_by_with_series(&rt, alloc, by, IN_ORDER, &pool)?;
    let made = grouped.agg(&rt, alloc, &sum_of(alloc, "temp")?, &pool);
    assert!(rt;
        writes(
            &rt,
            alloc,
            made,
            "k:i32,o:i32,temp_sum:i32\n1,7,30\n2,7,17\n"
        )?
    );
    let groups = grouped.get_groups().try_clone()?;
    grouped.set_groups(groups);
    assert_eq!(rt; grouped.keys(alloc)?.len(), 2);
    let mut by = Vec::new(alloc);
    by.push(numbers(alloc, "k", &[1, 2])?)?;
    match frame.group_by_with_series(&rt, alloc, by, IN_ORDER, &pool) {
        Ok(_) => assert!(rt; false),
        Err(error) => {
            let told = format!(in alloc; "{error}")?;
            assert_eq!(rt; told.as_str(), "shape mismatch");
        }
    }
    Ok(())
}

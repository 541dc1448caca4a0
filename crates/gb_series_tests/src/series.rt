//! Each public call of the crate once. A check pays for each value that a function may let go, and a series
//! may hold any type: so a function owns one series at most, and others look at it.

use gb_base::any_value::AnyValue;
use gb_base::data_type::{CategoricalOrdering, DataType, IsSorted};
use gb_base::error::PolarsResult;
use gb_base::small_str::PlSmallStr;
use gb_cols::chunked::StringChunked;
use gb_cols::primitive::{Int64Chunked, UInt32Chunked};
use gb_cols::series_trait::SeriesTrait;
use gb_logical::categorical::CategoricalChunked;
use gb_series::flatten::flatten_series;
use gb_series::into_series::IntoSeries;
use gb_series::series::Series;
use std::alloc::Global;
use std::test::Fail;

// ---- columns

fn numbers(alloc: Global, name: &str, values: &[i64]) -> PolarsResult<Series> {
    let name = PlSmallStr::from_str(alloc, name)?;
    Ok(Int64Chunked::from_slice(alloc, name, values)?.into_series())
}

// Whether a test holds of a column.
fn holds_of<F: Fn(&Series) -> bool>(column: PolarsResult<Series>, test: F) -> bool
    requires { F.IsAlwaysCallable test }
{
    match column {
        Ok(column) => test(&column),
        Err(_) => false,
    }
}

fn has_type(column: &Series, dtype: &DataType) -> bool {
    match column.dtype() {
        Ok(found) => found == *dtype,
        Err(_) => false,
    }
}

fn no_texts(alloc: Global) -> PolarsResult<Series> {
    let name = PlSmallStr::from_str(alloc, "t")?;
    Ok(StringChunked::new(alloc, name).into_series())
}

fn one_and_null(alloc: Global) -> PolarsResult<Series> {
    let name = PlSmallStr::from_str(alloc, "u")?;
    Ok(UInt32Chunked::from_slice_options(alloc, name, &[Some(1), None])?.into_series())
}

fn renamed(alloc: Global) -> PolarsResult<Series> {
    let name = PlSmallStr::from_str(alloc, "s")?;
    let mut column = no_texts(alloc)?;
    column.rename(name);
    Ok(column)
}

fn is_empty_text(column: &Series) -> bool {
    column.is_empty() && has_type(column, &DataType::String)
}

fn has_a_null(column: &Series) -> bool {
    column.len() == 2 && column.null_count() == 1 && has_type(column, &DataType::UInt32)
}

#[test]
fn columns_of_each_type(rt: HostRuntime) -> Result<(), Fail> {
    assert!(rt; holds_of(no_texts(rt.alloc()), is_empty_text));
    assert!(rt; holds_of(renamed(rt.alloc()), |column| column.name().as_str() == "s"));
    assert!(rt; holds_of(one_and_null(rt.alloc()), has_a_null));
    Ok(())
}

fn two_nulls(alloc: Global) -> PolarsResult<Series> {
    Series::full_null(alloc, PlSmallStr::from_str(alloc, "n")?, 2, DataType::Int32)
}

fn are_two_nulls(column: &Series) -> bool {
    column.len() == 2 && column.null_count() == 2 && has_type(column, &DataType::Int32)
}

#[test]
fn nulls_alone(rt: HostRuntime) -> Result<(), Fail> {
    assert!(rt; holds_of(two_nulls(rt.alloc()), are_two_nulls));
    Ok(())
}

// Values with a null behind them.
fn with_null(alloc: Global, values: &[i64]) -> PolarsResult<Series> {
    let mut column = numbers(alloc, "a", values)?;
    if column.len() < 9 {
        column.push_null()?;
    }
    Ok(column)
}

// Whether the column is a value and a null, with no flag.
fn ends_in_null(column: &Series) -> bool {
    column.len() == 2
        && column.is_valid(0)
        && !column.is_valid(1)
        && column.is_sorted_flag() == IsSorted::Not
}

#[test]
fn a_null_more(rt: HostRuntime) -> Result<(), Fail> {
    assert!(rt; holds_of(with_null(rt.alloc(), &[7]), ends_in_null));
    Ok(())
}

fn has_one_chunk(column: &Series) -> bool {
    match column.chunk_lengths() {
        Ok(lengths) => lengths.as_slice() == [3].as_slice() && column.n_chunks() == 1,
        Err(_) => false,
    }
}

fn has_ends(column: &Series) -> bool {
    column.has_nulls() && column.first_non_null() == Some(0) && column.last_non_null() == Some(1)
}

fn part_is_a_value(column: &Series) -> bool {
    holds_of(
        column.slice(-2, 1),
        |part| part.len() == 1 && part.null_count() == 0,
    )
}

fn copies_are_as_long(column: &Series) -> bool {
    holds_of(column.rechunk(), |copy| copy.len() == 3)
        && holds_of(column.try_clone(), |copy| copy.len() == 3)
}

fn null_is_repeated(column: &Series) -> bool {
    column.len() == 3 && holds_of(column.new_from_index(2, 4), |nulls| nulls.null_count() == 4)
}

#[test]
fn parts_and_copies(rt: HostRuntime) -> Result<(), Fail> {
    let alloc = rt.alloc();
    assert!(rt; holds_of(with_null(alloc, &[7, 8]), has_one_chunk));
    assert!(rt; holds_of(with_null(alloc, &[7, 8]), has_ends));
    assert!(rt; holds_of(with_null(alloc, &[7, 8]), part_is_a_value));
    assert!(rt; holds_of(with_null(alloc, &[7, 8]), copies_are_as_long));
    assert!(rt; holds_of(with_null(alloc, &[7, 8]), null_is_repeated));
    Ok(())
}

// Puts a copy of a short column behind itself.
fn append_copy(column: &mut Series) -> PolarsResult<()> {
    if column.len() > 9 {
        return Ok(());
    }
    let copy = column.try_clone()?;
    column.append(copy)
}

fn doubled(alloc: Global, values: &[i64]) -> PolarsResult<Series> {
    let mut column = numbers(alloc, "a", values)?;
    append_copy(&mut column)?;
    Ok(column)
}

fn has_two_parts(column: &Series) -> bool {
    match flatten_series(column) {
        Ok(parts) => parts.len() == 2,
        Err(_) => false,
    }
}

#[test]
fn one_column_is_two(rt: HostRuntime) -> Result<(), Fail> {
    assert!(rt; holds_of(doubled(rt.alloc(), &[7, 8]), has_two_parts));
    Ok(())
}

#[test]
fn two_columns_are_one(rt: HostRuntime) -> Result<(), Fail> {
    assert!(rt;
        holds_of(doubled(rt.alloc(), &[7, 8]), |column| {
            column.len() == 4 && column.n_chunks() == 2 && column.first_non_null() == Some(0)
        })
    );
    Ok(())
}

// Sets the flag for ascending slots, where they ascend.
fn flag_ascending(column: &mut Series) {
    if column.check_sorted(IsSorted::Ascending) {
        column.set_sorted_flag(IsSorted::Ascending);
    }
}

fn flagged(alloc: Global, values: &[i64]) -> PolarsResult<Series> {
    let mut column = numbers(alloc, "a", values)?;
    flag_ascending(&mut column);
    Ok(column)
}

fn is_detected(alloc: Global, values: &[i64], found: IsSorted) -> bool {
    holds_of(
        numbers(alloc, "a", values),
        |column| column.detect_sorted() == found,
    )
}

#[test]
fn orders(rt: HostRuntime) -> Result<(), Fail> {
    let alloc = rt.alloc();
    assert!(rt; holds_of(flagged(alloc, &[7, 8]), |c| c.is_sorted_ascending_flag()));
    assert!(rt; holds_of(flagged(alloc, &[8, 7]), |c| !c.is_sorted_any()));
    assert!(rt; is_detected(alloc, &[8, 7], IsSorted::Descending));
    assert!(rt; is_detected(alloc, &[7, 8, 7], IsSorted::Not));
    Ok(())
}

// ---- values

// The texts b, null, a and b as categories.
fn categories(alloc: Global) -> PolarsResult<Series> {
    let mut texts = StringChunked::new(alloc, PlSmallStr::from_str(alloc, "c")?);
    texts.push(Some("b"))?;
    texts.push(None)?;
    texts.push(Some("a"))?;
    texts.push(Some("b"))?;
    let codes = CategoricalChunked::from_strings(&texts, CategoricalOrdering::Physical, 7)?;
    Ok(codes.into_series())
}

fn one_text(alloc: Global) -> PolarsResult<Series> {
    let mut texts = StringChunked::new(alloc, PlSmallStr::from_str(alloc, "t")?);
    texts.push(Some("x"))?;
    Ok(texts.into_series())
}

// Whether a row holds a value.
fn is_at(column: &Series, row: usize, value: &AnyValue) -> bool {
    if row >= column.len() {
        return false;
    }
    match column.get(row) {
        Ok(found) => found == *value,
        Err(_) => false,
    }
}

fn has_codes(column: &Series) -> bool {
    is_at(column, 0, &AnyValue::Category(0))
        && is_at(column, 1, &AnyValue::Null)
        && is_at(column, 2, &AnyValue::Category(1))
        && is_at(column, 3, &AnyValue::Category(0))
}

#[test]
fn values_of_rows(rt: HostRuntime) -> Result<(), Fail> {
    let alloc = rt.alloc();
    assert!(rt; holds_of(categories(alloc), has_codes));
    let text = AnyValue::String(PlSmallStr::from_str(alloc, "x")?);
    assert!(rt; holds_of(one_text(alloc), |column| is_at(column, 0, &text)));
    let number = AnyValue::Int64(-1);
    assert!(rt;
        holds_of(
            numbers(alloc, "n", &[-1]),
            |column| is_at(column, 0, &number)
        )
    );
    Ok(())
}

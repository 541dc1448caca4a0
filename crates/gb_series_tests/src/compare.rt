//! The slots of columns of each type, each compared with each: with the nulls first, and with them last.

ghost use Rattle.std.specs.Prelude.{◌≡◌, ◌<◌, ◌≤◌, length};
ghost use Rattle.gb_cols.specs.Column.{ReadsCells};

use gb_base::data_type::{CategoricalOrdering, TimeUnit};
use gb_base::error::PolarsResult;
use gb_base::rev_mapping::RevMapping;
use gb_base::small_str::PlSmallStr;
use gb_cols::binary::AnyBytes;
use gb_cols::chunked::{ChunkedArray, StringChunked};
use gb_cols::codes::codes_in_range;
use gb_cols::null::NullChunked;
use gb_cols::primitive::UInt32Chunked;
use gb_cols::series_trait::SeriesTrait;
use gb_compare::inner::{TotalEqInner, TotalOrdInner};
use gb_compare::layout::{EqInner, IntoTotalInner, OrdInner};
use gb_compare::null_order::{NonNull, NullOrderCmp};
use gb_compare::total_ord::{Number, TotalEq, TotalOrd};
use gb_logical::categorical::CategoricalChunked;
use gb_logical::logical::{
    DateChunked, DatetimeChunked, DecimalChunked, DurationChunked, TimeChunked,
};
use gb_numbers::numeric::{
    Int8Type, Int16Type, Int32Type, Int64Type, Int128Type, UInt8Type, UInt16Type, UInt32Type,
    UInt64Type,
};
use gb_series::into_series::IntoSeries;
use gb_series::series::Series;
use gb_values::binary::{Binary, BinaryOffset};
use gb_values::boolean::FlagValues;
use gb_values::bytes::ByteValues;
use gb_values::nullable::Values;
use gb_values::primitive::NumberValues;
use gb_values::utf8::TextValues;
use std::alloc::Global;
use std::cmp::Ordering;
use std::sync::Arc;
use std::test::Fail;

// ---- columns

fn name_of(alloc: Global) -> PolarsResult<PlSmallStr> {
    PlSmallStr::from_str(alloc, "c")
}

// Puts a cell at the end of a short column; a stroke begins a chunk.
fn put<V: Values>(column: &mut ChunkedArray<V>, cell: &str) -> PolarsResult<()>
    requires { ReadsCells V.dtype }
{
    // The name tells the type.
    let _ = column.name();
    if column.len() > 9 {
        return Ok(());
    }
    if cell == "|" {
        let alloc = column.allocator();
        return column.append(ChunkedArray::new(alloc, name_of(alloc)?));
    }
    column.push_cell(cell.as_bytes(), false, "null")?;
    Ok(())
}

// The column of these cells.
fn column_of<V: Values>(alloc: Global, cells: &[&str]) -> PolarsResult<ChunkedArray<V>>
    requires { ReadsCells V.dtype }
{
    let mut column = ChunkedArray::new(alloc, name_of(alloc)?);
    for cell in cells {
        put(&mut column, *cell)?;
    }
    Ok(column)
}

// Four slots of bytes.
fn bytes_of<K: AnyBytes>(alloc: Global) -> PolarsResult<ChunkedArray<ByteValues<K>>> {
    let mut column: ChunkedArray<ByteValues<K>> = ChunkedArray::new(alloc, name_of(alloc)?);
    column.push(Some(b"b".as_slice()))?;
    column.push(None)?;
    column.push(Some(b"\xff".as_slice()))?;
    column.push(Some(b"ba".as_slice()))?;
    Ok(column)
}

fn dates(alloc: Global, cells: &[&str]) -> PolarsResult<DateChunked> {
    Ok(DateChunked::new(column_of(alloc, cells)?))
}

fn times(alloc: Global, cells: &[&str]) -> PolarsResult<TimeChunked> {
    Ok(TimeChunked::new(column_of(alloc, cells)?))
}

fn moments(alloc: Global, cells: &[&str]) -> PolarsResult<DatetimeChunked> {
    Ok(DatetimeChunked::new(column_of(alloc, cells)?, TimeUnit::Milliseconds))
}

fn spans(alloc: Global, cells: &[&str]) -> PolarsResult<DurationChunked> {
    Ok(DurationChunked::new(column_of(alloc, cells)?, TimeUnit::Nanoseconds))
}

fn decimals(alloc: Global, cells: &[&str]) -> PolarsResult<DecimalChunked> {
    Ok(DecimalChunked::new(column_of(alloc, cells)?, None, 2))
}

fn nulls(alloc: Global) -> PolarsResult<NullChunked> {
    Ok(NullChunked::new(alloc, name_of(alloc)?, 2))
}

// The texts y, null, x, y as categories: the code of y is below that of x.
fn categories(alloc: Global) -> PolarsResult<CategoricalChunked> {
    let mut texts = StringChunked::new(alloc, name_of(alloc)?);
    texts.push(Some("y"))?;
    texts.push(None)?;
    texts.push(Some("x"))?;
    texts.push(Some("y"))?;
    CategoricalChunked::from_strings(&texts, CategoricalOrdering::Physical, 7)
}

// The map of y and x.
fn mapped(alloc: Global) -> PolarsResult<RevMapping> {
    let mut map = RevMapping::new(alloc, 7);
    map.code_of("y")?;
    map.code_of("x")?;
    Ok(map)
}

// The codes 1 and 0 as an enum of y and x.
fn enumerated(alloc: Global) -> PolarsResult<CategoricalChunked> {
    let codes = UInt32Chunked::from_slice(alloc, name_of(alloc)?, &[1, 0])?;
    let map = Arc::new(alloc, mapped(alloc)?)?;
    if !codes_in_range(&codes, map.len()) {
        return categories(alloc);
    }
    let ordering = CategoricalOrdering::Physical;
    Ok(CategoricalChunked::from_codes(codes, map, ordering, true))
}

// ---- slots and their ranks

// Whether the slot of a row is equal to those of the rows of its rank alone.
fn row_is_equal<C: TotalEqInner>(column: &C, ranks: &[u8], row: usize) -> bool
    requires inside { length ranks.now ≤ length (C.column column.now).slots }
    requires row { row < length ranks.now }
{
    for other in 0..ranks.len() {
        if column.eq_element(row, other) != (ranks[row] == ranks[other]) {
            return false;
        }
    }
    true
}

fn are_equal<C: TotalEqInner>(column: &C, ranks: &[u8]) -> bool
    requires { length ranks.now ≤ length (C.column column.now).slots }
{
    for row in 0..ranks.len() {
        if !row_is_equal(column, ranks, row) {
            return false;
        }
    }
    true
}

// Whether the slot of a row compares to each as its rank does.
fn row_is_placed<C: TotalOrdInner>(column: &C, ranks: &[u8], nulls_last: bool, row: usize) -> bool
    requires inside { length ranks.now ≤ length (C.column column.now).slots }
    requires compares { C.compares column.now }
    requires row { row < length ranks.now }
{
    for other in 0..ranks.len() {
        if column.cmp_element(row, other, nulls_last) != ranks[row].cmp(&ranks[other]) {
            return false;
        }
    }
    true
}

fn are_placed<C: TotalOrdInner>(column: &C, ranks: &[u8], nulls_last: bool) -> bool
    requires inside { length ranks.now ≤ length (C.column column.now).slots }
    requires compares { C.compares column.now }
{
    for row in 0..ranks.len() {
        if !row_is_placed(column, ranks, nulls_last, row) {
            return false;
        }
    }
    true
}

// Whether slots compare as their ranks do, in the series and in its layouts.
fn has_ranks(series: &Series, first: &[u8], last: &[u8]) -> bool {
    if !series.has_order() || series.len() != first.len() || series.len() != last.len() {
        return false;
    }
    let equal = series.into_total_eq_inner();
    let ordered = series.into_total_ord_inner();
    are_equal(series, first)
        && are_equal(&equal, first)
        && are_equal(&ordered, first)
        && are_placed(series, first, false)
        && are_placed(series, last, true)
        && are_placed(&ordered, first, false)
        && are_placed(&ordered, last, true)
}

// The same of a column of any type.
fn ranked<C: IntoSeries>(column: PolarsResult<C>, first: &[u8], last: &[u8]) -> bool {
    match column {
        Ok(column) => has_ranks(&column.into_series(), first, last),
        Err(_) => false,
    }
}

#[test]
fn numbers_with_no_sign(rt: HostRuntime) -> Result<(), Fail> {
    let alloc = rt.alloc();
    let cells = ["7", "null", "|", "2", "7"];
    let (first, last) = ([2, 0, 1, 2], [1, 2, 0, 1]);
    assert!(rt;
        ranked(
            column_of::<NumberValues<UInt8Type>>(alloc, &cells),
            &first,
            &last
        )
    );
    assert!(rt;
        ranked(
            column_of::<NumberValues<UInt16Type>>(alloc, &cells),
            &first,
            &last
        )
    );
    assert!(rt;
        ranked(
            column_of::<NumberValues<UInt32Type>>(alloc, &cells),
            &first,
            &last
        )
    );
    assert!(rt;
        ranked(
            column_of::<NumberValues<UInt64Type>>(alloc, &cells),
            &first,
            &last
        )
    );
    Ok(())
}

#[test]
fn numbers_with_a_sign(rt: HostRuntime) -> Result<(), Fail> {
    let alloc = rt.alloc();
    let cells = ["-7", "null", "|", "2", "|", "-7"];
    let (first, last) = ([1, 0, 2, 1], [0, 2, 1, 0]);
    assert!(rt;
        ranked(
            column_of::<NumberValues<Int8Type>>(alloc, &cells),
            &first,
            &last
        )
    );
    assert!(rt;
        ranked(
            column_of::<NumberValues<Int16Type>>(alloc, &cells),
            &first,
            &last
        )
    );
    assert!(rt;
        ranked(
            column_of::<NumberValues<Int32Type>>(alloc, &cells),
            &first,
            &last
        )
    );
    assert!(rt;
        ranked(
            column_of::<NumberValues<Int64Type>>(alloc, &cells),
            &first,
            &last
        )
    );
    assert!(rt;
        ranked(
            column_of::<NumberValues<Int128Type>>(alloc, &cells),
            &first,
            &last
        )
    );
    Ok(())
}

#[test]
fn numbers_that_mean_more(rt: HostRuntime) -> Result<(), Fail> {
    let alloc = rt.alloc();
    let cells = ["-7", "null", "|", "2", "-7"];
    let (first, last) = ([1, 0, 2, 1], [0, 2, 1, 0]);
    assert!(rt; ranked(dates(alloc, &cells), &first, &last));
    assert!(rt; ranked(times(alloc, &cells), &first, &last));
    assert!(rt; ranked(moments(alloc, &cells), &first, &last));
    assert!(rt; ranked(spans(alloc, &cells), &first, &last));
    assert!(rt; ranked(decimals(alloc, &cells), &first, &last));
    Ok(())
}

#[test]
fn flags_texts_and_bytes(rt: HostRuntime) -> Result<(), Fail> {
    let alloc = rt.alloc();
    let flags = ["true", "null", "|", "false"];
    assert!(rt;
        ranked(
            column_of::<FlagValues>(alloc, &flags),
            &[2, 0, 1],
            &[1, 2, 0]
        )
    );
    let texts = ["b", "null", "", "|", "é", "ba"];
    let (first, last) = ([2, 0, 1, 4, 3], [1, 4, 0, 3, 2]);
    assert!(rt; ranked(column_of::<TextValues>(alloc, &texts), &first, &last));
    let (first, last) = ([1, 0, 3, 2], [0, 3, 2, 1]);
    assert!(rt; ranked(bytes_of::<Binary>(alloc), &first, &last));
    assert!(rt; ranked(bytes_of::<BinaryOffset>(alloc), &first, &last));
    Ok(())
}

#[test]
fn nulls_and_categories(rt: HostRuntime) -> Result<(), Fail> {
    let alloc = rt.alloc();
    assert!(rt; ranked(nulls(alloc), &[0, 0], &[0, 0]));
    assert!(rt; ranked(categories(alloc), &[2, 0, 1, 2], &[1, 2, 0, 1]));
    assert!(rt; ranked(enumerated(alloc), &[0, 1], &[0, 1]));
    Ok(())
}

// ---- layouts

fn eq_layout(inner: &EqInner<'_>) -> &'static str {
    match inner {
        EqInner::SingleNoNull(_) => "one chunk",
        EqInner::Single(_) => "one chunk with nulls",
        EqInner::MultiNoNull(_) => "chunks",
        EqInner::Multi(_) => "chunks with nulls",
        EqInner::Null(_) => "nulls",
    }
}

fn ord_layout(inner: &OrdInner<'_>) -> &'static str {
    match inner {
        OrdInner::SingleNoNull(_) => "one chunk",
        OrdInner::Single(_) => "one chunk with nulls",
        OrdInner::MultiNoNull(_) => "chunks",
        OrdInner::Multi(_) => "chunks with nulls",
        OrdInner::Null(_) => "nulls",
        OrdInner::Local(_) => "texts",
    }
}

// Whether a series has these layouts.
fn has_layouts(series: &Series, equal: &str, ordered: &str) -> bool {
    series.has_order()
        && eq_layout(&series.into_total_eq_inner()) == equal
        && ord_layout(&series.into_total_ord_inner()) == ordered
}

// The same of a column of any type.
fn laid<C: IntoSeries>(column: PolarsResult<C>, equal: &str, ordered: &str) -> bool {
    match column {
        Ok(column) => has_layouts(&column.into_series(), equal, ordered),
        Err(_) => false,
    }
}

#[test]
fn layouts(rt: HostRuntime) -> Result<(), Fail> {
    let alloc = rt.alloc();
    for (cells, layout) in [
        (["1", "2"].as_slice(), "one chunk"),
        (["1", "null"].as_slice(), "one chunk with nulls"),
        (["1", "|", "2"].as_slice(), "chunks"),
        (["1", "|", "null"].as_slice(), "chunks with nulls"),
    ] {
        assert!(rt; laid(column_of::<TextValues>(alloc, cells), layout, layout));
    }
    assert!(rt; laid(nulls(alloc), "nulls", "nulls"));
    assert!(rt; laid(categories(alloc), "one chunk with nulls", "texts"));
    Ok(())
}

// ---- values

// Whether a value is below another, with no null between them.
fn is_below<T: TotalOrd + Copy>(a: T, b: T) -> bool {
    a.tot_cmp(&b) == Ordering::Less
        && NonNull(b).null_order_cmp(&NonNull(a), true) == Ordering::Greater
        && !NonNull(a).tot_eq(&NonNull(b))
        && a.tot_eq(&a)
}

// Whether a null comes before a value, or behind it.
fn is_by_null<T: TotalOrd + Copy>(value: T) -> bool {
    let value = Some(value);
    let null: Option<T> = None;
    null.null_order_cmp(&value, false) == Ordering::Less
        && null.null_order_cmp(&value, true) == Ordering::Greater
        && value.null_order_cmp(&None, false) == Ordering::Greater
        && value.null_order_cmp(&None, true) == Ordering::Less
        && !value.tot_eq(&None)
}

#[test]
fn values(rt: HostRuntime) -> Result<(), Fail> {
    assert!(rt; is_below(false, true) && is_by_null(false));
    assert!(rt; is_below(Number(-1_i64), Number(0)) && is_by_null(Number(7_u8)));
    assert!(rt; is_below("b", "ba") && is_by_null("b"));
    assert!(rt; is_below(b"b".as_slice(), b"\xff".as_slice()) && is_by_null(b"".as_slice()));
    Ok(())
}

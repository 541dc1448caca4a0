//! The orders of columns of each kind, and their flags.

ghost use Rattle.gb_cols.specs.Column.{ReadsCells};

use gb_base::data_type::IsSorted;
use gb_base::error::PolarsResult;
use gb_base::small_str::PlSmallStr;
use gb_cols::boolean::BooleanChunked;
use gb_cols::chunked::ChunkedArray;
use gb_cols::null::NullChunked;
use gb_cols::primitive::Int64Chunked;
use gb_cols::series_trait::SeriesTrait;
use gb_logical::logical::DateChunked;
use gb_numbers::numeric::{Int32Type, Int64Type};
use gb_values::nullable::Values;
use gb_values::primitive::NumberValues;
use gb_values::utf8::TextValues;
use std::alloc::Global;
use std::test::Fail;

fn name_of(alloc: Global) -> PolarsResult<PlSmallStr> {
    PlSmallStr::from_str(alloc, "o")
}

// Puts a cell of one byte at the end of a short column; a stroke begins a chunk.
fn put<V: Values>(column: &mut ChunkedArray<V>, cell: u8) -> PolarsResult<()>
    requires { ReadsCells V.dtype }
{
    // The name tells the type.
    let _ = column.name();
    if column.len() > 9 {
        return Ok(());
    }
    if cell == b'|' {
        let alloc = column.allocator();
        return column.append(ChunkedArray::new(alloc, name_of(alloc)?));
    }
    column.push_cell(&[cell], false, "-")?;
    Ok(())
}

// The column of these cells.
fn column_of<V: Values>(alloc: Global, cells: &[u8]) -> PolarsResult<ChunkedArray<V>>
    requires { ReadsCells V.dtype }
{
    let mut column = ChunkedArray::new(alloc, name_of(alloc)?);
    for cell in cells {
        put(&mut column, *cell)?;
    }
    Ok(column)
}

// Whether this flag is found, and is true with no other one, but that a column may descend too.
fn is_found<C: SeriesTrait>(column: &C, found: IsSorted, descends: bool) -> bool {
    column.detect_sorted() == found
        && column.check_sorted(IsSorted::Ascending) == (found == IsSorted::Ascending)
        && column.check_sorted(IsSorted::Descending) == descends
        && column.check_sorted(IsSorted::Not)
}

fn has_order<V: Values>(
    alloc: Global,
    cells: &[u8],
    found: IsSorted,
    descends: bool,
) -> PolarsResult<bool>
    requires { ReadsCells V.dtype }
{
    let column: ChunkedArray<V> = column_of(alloc, cells)?;
    Ok(is_found(&column, found, descends))
}

#[test]
fn numbers(rt: HostRuntime) -> Result<(), Fail> {
    for (cells, found, descends) in [
        (b"".as_slice(), IsSorted::Ascending, true),
        (b"--|-".as_slice(), IsSorted::Ascending, true),
        (b"22||2".as_slice(), IsSorted::Ascending, true),
        (b"--1|13".as_slice(), IsSorted::Ascending, false),
        (b"13|3-|-".as_slice(), IsSorted::Ascending, false),
        (b"33||1--".as_slice(), IsSorted::Descending, true),
        (b"-|-31".as_slice(), IsSorted::Descending, true),
        (b"1-2".as_slice(), IsSorted::Not, false),
        (b"1|-|1".as_slice(), IsSorted::Not, false),
        (b"-1|-".as_slice(), IsSorted::Not, false),
        (b"12|1".as_slice(), IsSorted::Not, false),
    ] {
        assert!(rt; has_order::<NumberValues<Int64Type>>(rt.alloc(), cells, found, descends)?);
    }
    Ok(())
}

#[test]
fn texts(rt: HostRuntime) -> Result<(), Fail> {
    for (cells, found, descends) in [
        (b"-Z|ab".as_slice(), IsSorted::Ascending, false),
        (b"ba|Z".as_slice(), IsSorted::Descending, true),
        (b"ab|a".as_slice(), IsSorted::Not, false),
    ] {
        assert!(rt; has_order::<TextValues>(rt.alloc(), cells, found, descends)?);
    }
    Ok(())
}

fn flags_ascend(alloc: Global) -> PolarsResult<bool> {
    let slots = [None, Some(false), Some(true)];
    let column = BooleanChunked::from_slice_options(alloc, name_of(alloc)?, &slots)?;
    Ok(is_found(&column, IsSorted::Ascending, false))
}

fn days_descend(alloc: Global) -> PolarsResult<bool> {
    let days: ChunkedArray<NumberValues<Int32Type>> = column_of(alloc, b"3|1-")?;
    Ok(is_found(&DateChunked::new(days), IsSorted::Descending, true))
}

fn nulls_have_none(alloc: Global) -> PolarsResult<bool> {
    let column = NullChunked::new(alloc, name_of(alloc)?, 2);
    Ok(is_found(&column, IsSorted::Not, false))
}

#[test]
fn other_kinds(rt: HostRuntime) -> Result<(), Fail> {
    let alloc = rt.alloc();
    assert!(rt; flags_ascend(alloc)?);
    assert!(rt; days_descend(alloc)?);
    assert!(rt; nulls_have_none(alloc)?);
    Ok(())
}

// Whether a column with no flag takes one that is true of it.
fn takes_flag<C: SeriesTrait>(column: &mut C) -> bool {
    if column.is_sorted_any() || !column.check_sorted(IsSorted::Ascending) {
        return false;
    }
    column.set_sorted_flag(IsSorted::Ascending);
    column.is_sorted_any()
        && column.is_sorted_ascending_flag()
        && !column.is_sorted_descending_flag()
}

fn numbers_take(alloc: Global) -> PolarsResult<bool> {
    let mut column: Int64Chunked = column_of(alloc, b"1|2")?;
    Ok(takes_flag(&mut column))
}

fn dates_take(alloc: Global) -> PolarsResult<bool> {
    let mut column = DateChunked::new(column_of(alloc, b"1|2")?);
    Ok(takes_flag(&mut column))
}

#[test]
fn flags_are_taken(rt: HostRuntime) -> Result<(), Fail> {
    assert!(rt; numbers_take(rt.alloc())?);
    assert!(rt; dates_take(rt.alloc())?);
    Ok(())
}

//! Parts and copies of columns of each shape.

use gb_base::error::PolarsResult;
use gb_base::small_str::PlSmallStr;
use gb_cols::boolean::BooleanChunked;
use gb_cols::chunked::StringChunked;
use gb_cols::null::NullChunked;
use gb_cols::primitive::{Int32Chunked, Int64Chunked};
use gb_cols::series_trait::SeriesTrait;
use gb_logical::logical::DateChunked;
use std::alloc::Global;
use std::process::Abort;
use std::test::Fail;

fn name_of(alloc: Global) -> PolarsResult<PlSmallStr> {
    PlSmallStr::from_str(alloc, "c")
}

// The numbers 1 and 2, and in a second chunk null and 4.
fn numbers_in_chunks(alloc: Global) -> PolarsResult<Int64Chunked> {
    let mut column = Int64Chunked::from_slice(alloc, name_of(alloc)?, &[1, 2])?;
    let later = [None, Some(4)];
    column.append(Int64Chunked::from_slice_options(alloc, name_of(alloc)?, &later)?)?;
    Ok(column)
}

// The same as dates.
fn dates_in_chunks(alloc: Global) -> PolarsResult<DateChunked> {
    let mut days = Int32Chunked::from_slice(alloc, name_of(alloc)?, &[1, 2])?;
    let later = [None, Some(4)];
    days.append(Int32Chunked::from_slice_options(alloc, name_of(alloc)?, &later)?)?;
    Ok(DateChunked::new(days))
}

// The same as texts.
fn texts_in_chunks(alloc: Global) -> PolarsResult<StringChunked> {
    let mut column = StringChunked::new(alloc, name_of(alloc)?);
    column.push(Some("1"))?;
    column.push(Some("2"))?;
    let mut later = StringChunked::new(alloc, name_of(alloc)?);
    later.push(None)?;
    later.push(Some("4"))?;
    column.append(later)?;
    Ok(column)
}

// True and false, and in a second chunk null and true.
fn flags_in_chunks(alloc: Global) -> PolarsResult<BooleanChunked> {
    let mut column = BooleanChunked::from_slice(alloc, name_of(alloc)?, &[true, false])?;
    let later = [None, Some(true)];
    column.append(BooleanChunked::from_slice_options(alloc, name_of(alloc)?, &later)?)?;
    Ok(column)
}

// Two nulls, and in a second chunk two more.
fn nulls_in_chunks(alloc: Global) -> PolarsResult<NullChunked> {
    let mut column = NullChunked::new(alloc, name_of(alloc)?, 2);
    column.append(NullChunked::new(alloc, name_of(alloc)?, 2))?;
    Ok(column)
}

// The cells of a column, a comma behind each.
fn told<C: SeriesTrait>(column: &C) -> PolarsResult<Vec<u8>> {
    let mut text = Vec::new(column.allocator());
    for row in 0..column.len() {
        column.write_cell(row, "-", &mut text)?;
        text.push(b',')?;
    }
    Ok(text)
}

// The cells at these places, a comma behind each.
fn picked(alloc: Global, cells: &[&str], rows: &[usize]) -> PolarsResult<Vec<u8>> {
    let mut text = Vec::new(alloc);
    for row in rows {
        if let Some(cell) = cells.get(*row) {
            text.extend_from_slice(cell.as_bytes())?;
        }
        text.push(b',')?;
    }
    Ok(text)
}

// The column has the cells at these places, and chunks of these lengths.
fn assert_column<C: SeriesTrait>(
    rt: &impl Abort,
    column: &C,
    cells: &[&str],
    rows: &[usize],
    lengths: &[usize],
) -> Result<(), Fail> {
    let wanted = picked(column.allocator(), cells, rows)?;
    assert_eq!(rt; told(column)?.as_slice(), wanted.as_slice());
    assert_eq!(rt; column.n_chunks(), lengths.len());
    assert_eq!(rt; column.chunk_lengths()?.as_slice(), lengths);
    Ok(())
}

fn assert_copies<C: SeriesTrait>(rt: &impl Abort, column: &C, cells: &[&str]) -> Result<(), Fail> {
    assert_eq!(rt; column.len(), 4);
    assert_column(rt, column, cells, &[0, 1, 2, 3], &[2, 2])?;
    assert_column(rt, &column.try_clone()?, cells, &[0, 1, 2, 3], &[2, 2])?;
    assert_column(rt, &column.rechunk()?, cells, &[0, 1, 2, 3], &[4])?;
    assert_column(rt, &column.take(&[2, 0])?, cells, &[2, 0], &[2])?;
    assert_column(rt, &column.new_from_index(1, 3)?, cells, &[1, 1, 1], &[3])?;
    Ok(())
}

fn assert_slices<C: SeriesTrait>(rt: &impl Abort, column: &C, cells: &[&str]) -> Result<(), Fail> {
    for (offset, len, rows, lengths) in [
        (-3, 2, [1, 2].as_slice(), [1, 1].as_slice()),
        (-7, 5, [0, 1].as_slice(), [2].as_slice()),
        (2, usize::MAX, [2, 3].as_slice(), [2].as_slice()),
        (9, 1, [].as_slice(), [0].as_slice()),
    ] {
        assert_column(rt, &column.slice(offset, len)?, cells, rows, lengths)?;
    }
    Ok(())
}

// Of slots of which the third alone is null.
fn assert_places<C: SeriesTrait>(rt: &impl Abort, column: &C) -> Result<(), Fail> {
    for (offset, len, first, last, has_nulls) in [
        (0, 4, Some(0), Some(3), true),
        (0, 2, Some(0), Some(1), false),
        (2, 2, Some(1), Some(1), true),
        (2, 1, None, None, true),
        (0, 0, None, None, false),
    ] {
        let part = column.slice(offset, len)?;
        assert_eq!(rt; part.first_non_null(), first);
        assert_eq!(rt; part.last_non_null(), last);
        assert_eq!(rt; part.has_nulls(), has_nulls);
    }
    Ok(())
}

fn assert_calls<C: SeriesTrait>(rt: &impl Abort, column: &C, cells: &[&str]) -> Result<(), Fail> {
    assert_copies(rt, column, cells)?;
    assert_slices(rt, column, cells)?;
    assert_places(rt, column)
}

#[test]
fn numbers(rt: HostRuntime) -> Result<(), Fail> {
    assert_calls(&rt, &numbers_in_chunks(rt.alloc())?, &["1", "2", "-", "4"])
}

#[test]
fn dates(rt: HostRuntime) -> Result<(), Fail> {
    assert_calls(&rt, &dates_in_chunks(rt.alloc())?, &["1", "2", "-", "4"])
}

#[test]
fn texts(rt: HostRuntime) -> Result<(), Fail> {
    assert_calls(&rt, &texts_in_chunks(rt.alloc())?, &["1", "2", "-", "4"])
}

#[test]
fn flags(rt: HostRuntime) -> Result<(), Fail> {
    let cells = ["true", "false", "-", "true"];
    assert_calls(&rt, &flags_in_chunks(rt.alloc())?, &cells)
}

#[test]
fn nulls(rt: HostRuntime) -> Result<(), Fail> {
    let column = nulls_in_chunks(rt.alloc())?;
    assert_copies(&rt, &column, &["-", "-", "-", "-"])?;
    assert_slices(&rt, &column, &["-", "-", "-", "-"])?;
    assert_eq!(rt; column.first_non_null(), None);
    assert_eq!(rt; column.last_non_null(), None);
    assert!(rt; column.has_nulls());
    Ok(())
}

//! Rows of the cells of several columns: first how long each row is, then the bytes, one pass a column.

ghost use Rattle.std.specs.Prelude.{◌≡◌, ◌≤◌, ◌-◌, All, length, map, IfOk, IfErr};
ghost use Rattle.gb_base.specs.PlSmallStr.{IsNoMemory};
ghost use Rattle.gb_rows.specs.Rows.{rows_of_cells};

use crate::row_buffer::RowBuffer;
use crate::row_cells::RowCells;
use crate::row_lengths::RowLengths;
use crate::rows_encoded::RowsEncoded;
use gb_base::error::PolarsResult;
use std::alloc::{AllocError, Global};

/// The rows from one up to another of the cells of some columns, each of which has as many.
pub(crate) fn encode<C: RowCells>(
    alloc: Global,
    columns: &[C],
    start: usize,
    end: usize,
) -> PolarsResult<RowsEncoded>
    requires order { start ≤ end }
    requires long { All (λ cells. end ≤ length cells) (map C.cells columns.now) }
    ensures ok { IfOk result (λ e. e ≡ rows_of_cells start end (map C.cells columns.now)) }
    ensures err { IfErr result IsNoMemory }
{
    let lengths = lengths_of(alloc, columns, start, end)?;
    let rows = write(alloc, columns, start, end, &lengths)?;
    let encoded = RowsEncoded::from_rows(alloc, rows)?;
    Ok(encoded)
}

// How long each row is.
fn lengths_of<C: RowCells>(
    alloc: Global,
    columns: &[C],
    start: usize,
    end: usize,
) -> Result<Vec<usize>, AllocError>
    requires order { start ≤ end }
    requires long { All (λ cells. end ≤ length cells) (map C.cells columns.now) }
    ensures { let rows = rows_of_cells start end (map C.cells columns.now) in
        IfOk result (λ lengths. lengths.items ≡ map length rows) }
{
    let mut lengths = RowLengths::new(alloc, end - start)?;
    for column in columns {
        lengths.rewind();
        column.put_cells(start, end, &mut lengths)?;
    }
    Ok(lengths.into_lengths())
}

// The rows, of which the lengths are known.
fn write<C: RowCells>(
    alloc: Global,
    columns: &[C],
    start: usize,
    end: usize,
    lengths: &[usize],
) -> Result<RowBuffer, AllocError>
    requires order { start ≤ end }
    requires long { All (λ cells. end ≤ length cells) (map C.cells columns.now) }
    requires each { length lengths.now ≡ end - start }
    ensures rows { let columns = map C.cells columns.now in
        IfOk result (λ b. b.rows ≡ rows_of_cells start end columns) }
    ensures room { IfOk result (λ b. b.room ≡ lengths.now) }
{
    let mut rows = RowBuffer::new(alloc, lengths)?;
    for column in columns {
        rows.rewind();
        column.put_cells(start, end, &mut rows)?;
    }
    Ok(rows)
}

//! The cells of rows that hold others, whose bytes are known.

ghost use Rattle.std.specs.Prelude.{◌≡◌, ◌≤◌, ◌∷◌, ◌++◌, length, IfOk, IfErr, OnOk};
ghost use Rattle.gb_defs.specs.Slices.{between};
ghost use Rattle.gb_base.specs.PlSmallStr.{IsNoMemory};
ghost use Rattle.gb_rows.specs.Cells.{cells_of, made_cells, marked};
ghost use Rattle.gb_rows.specs.Keys.{AreFieldCells, AreItemCells, HoldsItems, items_body};

use crate::rows_encoded::RowsEncoded;
use gb_base::error::PolarsResult;
use gb_base::small_str::PlSmallStr;
use gb_cols::binary::BinaryOffsetChunked;
use gb_cols::series_trait::SeriesTrait;
use gb_series::nested::rows::start_at;
use gb_series::nested::structs::StructChunked;
use std::alloc::AllocError;

/// The cells of rows that hold items. A mark stands before each item, and an end behind all.
pub(crate) fn cells_of_items<C: SeriesTrait>(
    column: &C,
    items: &RowsEncoded,
    ends: &[usize],
    mark: &[u8],
    end: &[u8],
) -> PolarsResult<BinaryOffsetChunked>
    requires { AreItemCells (C.value column.now) items.now ends.now mark.now end.now }
    ensures ok { IfOk result (λ made. made_cells made ≡ cells_of (C.value column.now)) }
    ensures err { IfErr result IsNoMemory }
{
    let alloc = column.allocator();
    let mut made = BinaryOffsetChunked::new(alloc, PlSmallStr::from_str(alloc, "")?);
    let mut cell = Vec::new(alloc);
    for row in 0..column.len() {
        cell.clear();
        if column.is_valid(row) {
            push_items(&mut cell, items, ends, row, mark, end)?;
        } else {
            cell.push(0)?;
        }
        made.push(Some(&cell))?;
    }
    Ok(made)
}

// The cell of a row that is no null.
fn push_items(
    cell: &mut Vec<u8>,
    items: &RowsEncoded,
    ends: &[usize],
    row: usize,
    mark: &[u8],
    end: &[u8],
) -> Result<(), AllocError>
    requires { HoldsItems ends.now items.now row }
    ensures { let body = items_body ends.now items.now row mark.now end.now in
        OnOk result (cell.new.items ≡ cell.old.items ++ 1 ∷ body) }
{
    cell.push(1)?;
    push_marked(cell, items, start_at(ends, row), ends[row], mark)?;
    cell.extend_from_slice(end)?;
    Ok(())
}

// The items from a place up to another, each with a mark before it.
fn push_marked(
    cell: &mut Vec<u8>,
    items: &RowsEncoded,
    start: usize,
    end: usize,
    mark: &[u8],
) -> Result<(), AllocError>
    requires low { start ≤ end }
    requires high { end ≤ length items.now }
    ensures { let some = between start end items.now in
        OnOk result (cell.new.items ≡ cell.old.items ++ marked mark.now some) }
{
    for place in start..end {
        cell.extend_from_slice(mark)?;
        cell.extend_from_slice(items.get(place))?;
    }
    Ok(())
}

/// The cells of structs, the rows of whose fields are known.
pub(crate) fn cells_of_fields(
    column: &StructChunked,
    rows: &RowsEncoded,
) -> PolarsResult<BinaryOffsetChunked>
    requires { AreFieldCells column.now rows.now }
    ensures ok { IfOk result (λ made. made_cells made ≡ cells_of column.now) }
    ensures err { IfErr result IsNoMemory }
{
    let alloc = column.allocator();
    let mut made = BinaryOffsetChunked::new(alloc, PlSmallStr::from_str(alloc, "")?);
    let mut cell = Vec::new(alloc);
    for row in 0..column.len() {
        cell.clear();
        if column.is_valid(row) {
            cell.push(1)?;
            cell.extend_from_slice(rows.get(row))?;
        } else {
            cell.push(0)?;
        }
        made.push(Some(&cell))?;
    }
    Ok(made)
}

//! The rows of columns of any type. What a list, an array or a struct holds is encoded first, and its own
//! cells are made of that.

ghost use Rattle.std.specs.Prelude.{◌≡◌, ◌<◌, ◌≤◌, All, length, map, IfOk, IfErr, OnOk};
ghost use Rattle.std.specs.List.{range_with_len};
ghost use Rattle.gb_base.specs.PlSmallStr.{IsNoMemory};
ghost use Rattle.gb_defs.specs.RowBytes.{row_bytes};
ghost use Rattle.gb_defs.specs.Slices.{between};
ghost use Rattle.gb_defs.specs.Slot.{slot_at};
ghost use Rattle.gb_series.specs.Series.{value_of};
ghost use Rattle.gb_rows.specs.Cells.{bytes_held, cells_of, made_cells};
ghost use Rattle.gb_rows.specs.Keys.{key_cells};

use crate::cell_sink::CellSink;
use crate::encode::encode;
use crate::nested_cells::{cells_of_fields, cells_of_items};
use crate::row_cells::RowCells;
use crate::rows_encoded::RowsEncoded;
use gb_base::error::PolarsResult;
use gb_cols::binary::BinaryOffsetChunked;
use gb_cols::series_trait::SeriesTrait;
use gb_flat_series::series::FlatSeries;
use gb_series::nested::array::ArrayChunked;
use gb_series::nested::list::ListChunked;
use gb_series::nested::structs::StructChunked;
use gb_series::series::Series;
use std::alloc::{AllocError, Global};
use std::slice;

/// What gives the cells of a key: a flat column as it lies, or the cells that were made of a nested one.
#[derive(Drop)]
pub(crate) enum KeyCells<'a> {
    Flat(&'a FlatSeries),
    Made(BinaryOffsetChunked),
}

impl<'a> RowCells for KeyCells<'a> {
    ghost use Rattle.gb_rows.specs.Keys.{key_cells};

    ghost cells = { key_cells };

    fn put_cells<S: CellSink>(
        &self,
        start: usize,
        end: usize,
        sink: &mut S,
    ) -> Result<(), AllocError> {
        match self {
            KeyCells::Flat(column) => column.put_cells(start, end, sink),
            KeyCells::Made(cells) => put_made(cells, start, end, sink),
        }
    }
}

// The cells that are a column's bytes.
fn put_made<S: CellSink>(
    cells: &BinaryOffsetChunked,
    start: usize,
    end: usize,
    sink: &mut S,
) -> Result<(), AllocError>
    ensures { let some = between start end (made_cells cells.now) in
        OnOk result (S.HasTaken some sink.old sink.new) }
{
    for row in start..end.min(cells.len()) {
        sink.put(made_cell(cells, row))?;
    }
    Ok(())
}

#[inline]
fn made_cell(cells: &BinaryOffsetChunked, row: usize) -> &[u8]
    requires { row < length cells.now.slots }
    ensures { result.now ≡ bytes_held (slot_at cells.now.slots row) }
{
    match cells.get(row) {
        Some(bytes) => bytes,
        None => &[],
    }
}

/// The first rows of the keys, so many.
#[cycle(encode)]
pub(crate) fn encode_keys(alloc: Global, keys: &[Series], count: usize) -> PolarsResult<RowsEncoded>
    requires { All (λ key. count ≤ length key.slots) (map value_of keys.now) }
    ensures ok { let keys = map value_of keys.now in
        IfOk result (λ e. e ≡ map (row_bytes keys) (range_with_len 0 count)) }
    ensures err { IfErr result IsNoMemory }
{
    let cells = all_cells(alloc, keys)?;
    let rows = encode(alloc, &cells, 0, count)?;
    Ok(rows)
}

// The cells of each key.
#[cycle(encode)]
fn all_cells(alloc: Global, keys: &[Series]) -> PolarsResult<Vec<KeyCells<'_>>>
    ensures ok { IfOk result (λ made.
        map key_cells made.items ≡ map cells_of (map value_of keys.now)) }
    ensures err { IfErr result IsNoMemory }
{
    let mut made = Vec::with_capacity(alloc, keys.len())?;
    for key in keys {
        made.push(cells_of_key(key)?)?;
    }
    Ok(made)
}

/// The cells of a key.
#[cycle(encode)]
pub(crate) fn cells_of_key(key: &Series) -> PolarsResult<KeyCells<'_>>
    ensures ok { IfOk result (λ made. key_cells made ≡ cells_of (value_of key.now)) }
    ensures err { IfErr result IsNoMemory }
{
    match key {
        Series::Flat(column) => Ok(KeyCells::Flat(column)),
        Series::List(column) => Ok(KeyCells::Made(list_cells(column)?)),
        Series::Array(column) => Ok(KeyCells::Made(array_cells(column)?)),
        Series::Struct(column) => Ok(KeyCells::Made(struct_cells(column)?)),
    }
}

// The cells of lists: each item has a mark before it, and a zero ends them.
#[cycle(encode)]
fn list_cells(column: &ListChunked) -> PolarsResult<BinaryOffsetChunked>
    ensures ok { IfOk result (λ made. made_cells made ≡ cells_of column.now) }
    ensures err { IfErr result IsNoMemory }
{
    let (items, ends) = column.items_by_row();
    let held = encode_keys(column.allocator(), slice::from_ref(items), items.len())?;
    let cells = cells_of_items(column, &held, ends, &[1], &[0])?;
    Ok(cells)
}

// The cells of arrays, whose items are as many in each.
#[cycle(encode)]
fn array_cells(column: &ArrayChunked) -> PolarsResult<BinaryOffsetChunked>
    ensures ok { IfOk result (λ made. made_cells made ≡ cells_of column.now) }
    ensures err { IfErr result IsNoMemory }
{
    let (items, ends) = column.items_by_row();
    let held = encode_keys(column.allocator(), slice::from_ref(items), items.len())?;
    let cells = cells_of_items(column, &held, ends, &[], &[])?;
    Ok(cells)
}

// The cells of structs.
#[cycle(encode)]
fn struct_cells(column: &StructChunked) -> PolarsResult<BinaryOffsetChunked>
    ensures ok { IfOk result (λ made. made_cells made ≡ cells_of column.now) }
    ensures err { IfErr result IsNoMemory }
{
    let held = encode_keys(column.allocator(), column.fields(), column.len())?;
    let cells = cells_of_fields(column, &held)?;
    Ok(cells)
}

//! The cells of a column, whatever its type: each kind of values writes its own.

ghost use Rattle.std.specs.Prelude.{◌∷◌, [], List, ℕ, map, OnOk};
ghost use Rattle.gb_defs.specs.ColumnType.{Boolean, Flat};
ghost use Rattle.gb_defs.specs.RowBytes.{slot_bytes};
ghost use Rattle.gb_defs.specs.Slices.{between};
ghost use Rattle.gb_defs.specs.Slot.{Num};
ghost use Rattle.gb_base.specs.AnyValue.{flag_number};
ghost use Rattle.gb_values.specs.Array.{native_slot};
ghost use Rattle.gb_values.specs.Keys.{bytes_slot};

use crate::cell_sink::CellSink;
use gb_cols::chunked::ChunkedArray;
use gb_cols::null::NullChunked;
use gb_cols::series_trait::SeriesTrait;
use gb_numbers::numeric::{Native, PolarsNumericType};
use gb_values::boolean::FlagValues;
use gb_values::bytes::{ByteKind, ByteValues};
use gb_values::nullable::{NullableArray, Values};
use gb_values::primitive::NumberValues;
use std::alloc::AllocError;

/// What has the bytes of a slot for each row.
pub(crate) trait RowCells {
    // The cells, one a row.
    ghost cells: { Self → List (List ℕ) };

    /// The cells from a row up to another, in order. One pass over the chunks.
    fn put_cells<S: CellSink>(
        &self,
        start: usize,
        end: usize,
        sink: &mut S,
    ) -> Result<(), AllocError>
        ensures { let some = between start end (cells self.now) in
            OnOk result (S.HasTaken some sink.old sink.new) };
}

/// Values whose slots have bytes.
pub(crate) trait CellValues: Values {
    /// The cells of a chunk of such values, from a place up to another.
    fn put_chunk<S: CellSink>(
        chunk: &NullableArray<Self>,
        start: usize,
        end: usize,
        sink: &mut S,
    ) -> Result<(), AllocError>
        ensures { let some = map (slot_bytes Self.dtype) (between start end chunk.now) in
            OnOk result (S.HasTaken some sink.old sink.new) };
}

impl<V: CellValues> RowCells for ChunkedArray<V> {
    ghost use Rattle.gb_rows.specs.Cells.{cells_of};

    ghost cells = { cells_of };

    fn put_cells<S: CellSink>(
        &self,
        mut start: usize,
        mut end: usize,
        sink: &mut S,
    ) -> Result<(), AllocError> {
        // The call tells the column's type.
        let _ = self.allocator();
        let (earlier, last) = self.chunks();
        for chunk in earlier {
            V::put_chunk(chunk, start, end, sink)?;
            start = start.saturating_sub(chunk.len());
            end = end.saturating_sub(chunk.len());
        }
        V::put_chunk(last, start, end, sink)?;
        Ok(())
    }
}

impl RowCells for NullChunked {
    ghost use Rattle.gb_rows.specs.Cells.{cells_of};

    ghost cells = { cells_of };

    fn put_cells<S: CellSink>(
        &self,
        start: usize,
        end: usize,
        sink: &mut S,
    ) -> Result<(), AllocError> {
        let _ = self.allocator();
        for _ in start..end.min(self.len()) {
            sink.put(&[0])?;
        }
        Ok(())
    }
}

impl<T: PolarsNumericType> CellValues for NumberValues<T> {
    fn put_chunk<S: CellSink>(
        chunk: &NullableArray<Self>,
        start: usize,
        end: usize,
        sink: &mut S,
    ) -> Result<(), AllocError> {
        for i in start..end.min(chunk.len()) {
            put_number(chunk.get(i), sink)?;
        }
        Ok(())
    }
}

impl CellValues for FlagValues {
    fn put_chunk<S: CellSink>(
        chunk: &NullableArray<Self>,
        start: usize,
        end: usize,
        sink: &mut S,
    ) -> Result<(), AllocError> {
        for i in start..end.min(chunk.len()) {
            put_flag(chunk.get(i), sink)?;
        }
        Ok(())
    }
}

impl<K: ByteKind> CellValues for ByteValues<K> {
    fn put_chunk<S: CellSink>(
        chunk: &NullableArray<Self>,
        start: usize,
        end: usize,
        sink: &mut S,
    ) -> Result<(), AllocError> {
        for i in start..end.min(chunk.len()) {
            put_bytes::<K, S>(chunk.bytes_at(i), sink)?;
        }
        Ok(())
    }
}

// The cell of a number that may be missing.
#[inline]
fn put_number<N: Native, S: CellSink>(number: Option<N>, sink: &mut S) -> Result<(), AllocError>
    ensures { let slot = native_slot N.number number in
        OnOk result (S.HasTaken (slot_bytes (Flat N.flat) slot ∷ []) sink.old sink.new) }
{
    match number {
        Some(number) => put_valid(number, sink),
        None => sink.put(&[0]),
    }
}

// The cell of a number.
#[inline]
fn put_valid<N: Native, S: CellSink>(number: N, sink: &mut S) -> Result<(), AllocError>
    ensures { let slot = Num (N.number number) in
        OnOk result (S.HasTaken (slot_bytes (Flat N.flat) slot ∷ []) sink.old sink.new) }
{
    let mut cell = [1; 17];
    let end = N::ordered_len() + 1;
    number.write_ordered(&mut cell[1..end]);
    sink.put(&cell[..end])
}

// The cell of a flag that may be missing.
#[inline]
fn put_flag<S: CellSink>(flag: Option<bool>, sink: &mut S) -> Result<(), AllocError>
    ensures { let slot = native_slot flag_number flag in
        OnOk result (S.HasTaken (slot_bytes (Flat Boolean) slot ∷ []) sink.old sink.new) }
{
    match flag {
        Some(true) => sink.put(&[1, 1]),
        Some(false) => sink.put(&[1, 0]),
        None => sink.put(&[0]),
    }
}

// The cell of bytes that may be missing.
#[inline]
fn put_bytes<K: ByteKind, S: CellSink>(value: Option<&[u8]>, sink: &mut S) -> Result<(), AllocError>
    ensures { let slot = bytes_slot value.entry in
        OnOk result (S.HasTaken (slot_bytes (Flat K.flat) slot ∷ []) sink.old sink.new) }
{
    match value {
        Some(value) => sink.put_bytes(value),
        None => sink.put(&[0]),
    }
}

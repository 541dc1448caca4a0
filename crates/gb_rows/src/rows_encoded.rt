//! The bytes of rows, one byte string a row.

ghost use Rattle.std.specs.Prelude.{◌≡◌, ◌<◌, [], length, map, get_or, IfOk, IfErr};
ghost use Rattle.gb_defs.specs.Column.{fresh_column};
ghost use Rattle.gb_defs.specs.ColumnType as typed;
ghost use Rattle.gb_defs.specs.Slot.{Bytes};
ghost use Rattle.gb_base.specs.PlSmallStr.{IsNoMemory};
ghost use Rattle.gb_values.specs.Array.{flagged_slots};

use crate::row_buffer::RowBuffer;
use gb_base::error::PolarsResult;
use gb_base::small_str::PlSmallStr;
use gb_cols::binary::BinaryOffsetChunked;
use gb_cols::chunked::ChunkedArray;
use gb_values::binary::BinaryOffset;
use gb_values::bytes::ByteValues;
use gb_values::nullable::{NullableArray, Values};
use std::alloc::Global;
use std::marker::Model;

/// A list of byte strings, one a row, in one buffer.
#[derive(Drop)]
pub struct RowsEncoded {
    alloc: Global,
    // A column of them has no name; it is here so that `into_array` takes no memory.
    name: PlSmallStr,
    rows: ByteValues<BinaryOffset>,
}

impl Model for RowsEncoded {
    ghost use Rattle.std.specs.Prelude.{◌≡◌, List, ℕ, []};
    ghost use Rattle.gb_base.specs.PlSmallStr.{name_of};

    ghost Value = { List (List ℕ) };

    ghost view = { λ e. e.rows };

    ghost invariant = { λ e. name_of e.name ≡ [] };
}

impl RowsEncoded {
    /// Rows whose bytes are all written.
    pub(crate) fn from_rows(alloc: Global, rows: RowBuffer) -> PolarsResult<RowsEncoded>
        requires { map length rows.rows ≡ rows.room }
        ensures ok { IfOk result (λ e. e ≡ rows.rows) }
        ensures err { IfErr result IsNoMemory }
    {
        let name = PlSmallStr::from_str(alloc, "")?;
        let (bytes, ends) = rows.into_parts();
        Ok(RowsEncoded {
            alloc,
            name,
            rows: ByteValues::from_parts(bytes, ends),
        })
    }

    /// How many rows there are.
    pub fn len(&self) -> usize
        ensures { result ≡ length self.now }
    {
        self.rows.len()
    }

    /// The bytes of a row.
    #[inline]
    pub fn get(&self, row: usize) -> &[u8]
        requires { row < length self.now }
        ensures { result.now ≡ get_or self.now row [] }
    {
        self.rows.bytes_at(row)
    }

    /// The rows in one chunk of a column with an empty name, none of them null.
    pub fn into_array(self) -> BinaryOffsetChunked
        ensures { let slots = map (λ bytes. Bytes bytes) self in
            result ≡ fresh_column [] (typed.Flat typed.BinaryOffset) slots }
    {
        let RowsEncoded { alloc, name, rows } = self;
        ChunkedArray::from_chunk(alloc, name, NullableArray::from_values(alloc, rows))
    }

    /// The same with a null for each row whose flag is false.
    pub(crate) fn into_nullable(self, full: Vec<bool>) -> BinaryOffsetChunked
        requires { length full.items ≡ length self }
        ensures { let slots = flagged_slots (map (λ bytes. Bytes bytes) self) full.items in
            result ≡ fresh_column [] (typed.Flat typed.BinaryOffset) slots }
    {
        let RowsEncoded { alloc, name, rows } = self;
        ChunkedArray::from_chunk(alloc, name, NullableArray::from_flags(rows, full))
    }
}

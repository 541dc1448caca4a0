//! Columns of bytes: plain ones, and those of whole rows.

ghost use Rattle.std.specs.Prelude.{ℕ, List, ◌≡◌, ◌<◌, length, IfErr, OnOk, OnErr};
ghost use Rattle.gb_defs.specs.ColumnType.{FitsBytes};
ghost use Rattle.gb_defs.specs.Slot.{slot_at};
ghost use Rattle.gb_cols.specs.Column.{HasRoom, pushed};
ghost use Rattle.gb_values.specs.Keys.{bytes_slot};
ghost use Rattle.gb_base.specs.PlSmallStr.{IsNoMemory};

use crate::chunked::ChunkedArray;
use gb_base::error::PolarsResult;
use gb_values::binary::{Binary, BinaryOffset};
use gb_values::bytes::{ByteKind, ByteValues};

pub type BinaryChunked = ChunkedArray<ByteValues<Binary>>;

pub type BinaryOffsetChunked = ChunkedArray<ByteValues<BinaryOffset>>;

/// A kind of which any bytes are a value.
pub trait AnyBytes: ByteKind {
    ghost any_fit: { (bytes : List ℕ) → FitsBytes Self.flat bytes };
}

impl AnyBytes for Binary {
    ghost any_fit = { λ bytes. tt };
}

impl AnyBytes for BinaryOffset {
    ghost any_fit = { λ bytes. tt };
}

impl<K: AnyBytes> ChunkedArray<ByteValues<K>> {
    /// The bytes of a row.
    pub fn get(&self, row: usize) -> Option<&[u8]>
        requires { row < length self.now.slots }
        ensures { bytes_slot result ≡ slot_at self.now.slots row }
    {
        self.bytes_at(row)
    }

    /// One slot more at the end of the last chunk.
    pub fn push(&mut self, slot: Option<&[u8]>) -> PolarsResult<()>
        requires { HasRoom self.old }
        ensures ok { OnOk result (self.new ≡ pushed self.old (bytes_slot slot.entry)) }
        ensures err { IfErr result IsNoMemory }
        ensures unchanged { OnErr result (self.new ≡ self.old) }
    {
        self.push_bytes(slot)
    }
}

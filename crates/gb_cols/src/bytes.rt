//! Columns of bytes of any kind.

ghost use Rattle.std.specs.Prelude.{◌≡◌, ◌-◌, Option, ◌<◌, length, map, IfOk, IfErr, IfSome, OnOk, OnErr};
ghost use Rattle.gb_defs.specs.ColumnType.{FitsBytes};
ghost use Rattle.gb_defs.specs.Slot.{Bytes, slot_at};
ghost use Rattle.gb_cols.specs.Column.{HasRoom, pushed};
ghost use Rattle.gb_values.specs.Keys.{bytes_slot};
ghost use Rattle.gb_base.specs.PlSmallStr.{IsNoMemory};

use crate::chunked::ChunkedArray;
use crate::series_trait::SeriesTrait;
use gb_base::data_type::IsSorted;
use gb_base::error::PolarsResult;
use gb_values::bytes::{ByteKind, ByteValues};

impl<K: ByteKind> ChunkedArray<ByteValues<K>> {
    /// The bytes of a row.
    pub fn bytes_at(&self, row: usize) -> Option<&[u8]>
        requires { row < length self.now.slots }
        ensures { bytes_slot result ≡ slot_at self.now.slots row }
    {
        let (chunk, place) = self.locate(row);
        chunk.bytes_at(place)
    }

    /// One slot more at the end of the last chunk.
    pub fn push_bytes(&mut self, slot: Option<&[u8]>) -> PolarsResult<()>
        requires room { HasRoom self.old }
        requires fits { IfSome slot (λ bytes. FitsBytes K.flat bytes.now) }
        ensures ok { OnOk result (self.new ≡ pushed self.old (bytes_slot slot.entry)) }
        ensures err { IfErr result IsNoMemory }
        ensures unchanged { OnErr result (self.new ≡ self.old) }
    {
        self.last.push_bytes(slot)?;
        self.sorted = IsSorted::Not;
        Ok(())
    }

    /// The values as they lie, where they are in one chunk and none is null.
    pub fn all_valid(&self) -> Option<&ByteValues<K>>
        ensures { IfSome result (λ values. map (λ bytes. Bytes bytes) values.now ≡ self.now.slots) }
    {
        if self.earlier.is_empty() {
            self.last.all_valid()
        } else {
            None
        }
    }

    /// The bytes of the values, null as `None`. One pass over the chunks.
    pub fn byte_slices(&self) -> PolarsResult<Vec<Option<&[u8]>>>
        ensures ok { IfOk result (λ keys. map bytes_slot keys.items ≡ self.now.slots) }
        ensures err { IfErr result IsNoMemory }
    {
        let mut keys = Vec::with_capacity(self.allocator(), self.len())?;
        for chunk in &self.earlier {
            chunk.push_slices(&mut keys)?;
        }
        self.last.push_slices(&mut keys)?;
        Ok(keys)
    }
}

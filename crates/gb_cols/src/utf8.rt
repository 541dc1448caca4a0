//! Columns of texts.

ghost use Rattle.std.specs.Prelude.{◌≡◌, ◌<◌, length, IfErr, OnOk, OnErr};
ghost use Rattle.gb_defs.specs.Slot.{slot_at};
ghost use Rattle.gb_values.specs.Array.{text_slot};
ghost use Rattle.gb_cols.specs.Column.{HasRoom, pushed};
ghost use Rattle.gb_base.specs.PlSmallStr.{IsNoMemory};

use crate::chunked::ChunkedArray;
use gb_base::error::PolarsResult;
use gb_values::bytes::ByteValues;
use gb_values::utf8::Text;

impl ChunkedArray<ByteValues<Text>> {
    /// The text of a row.
    pub fn get(&self, row: usize) -> Option<&str>
        requires { row < length self.now.slots }
        ensures { text_slot result ≡ slot_at self.now.slots row }
    {
        let (chunk, place) = self.locate(row);
        chunk.get(place)
    }

    /// One slot more at the end of the last chunk.
    pub fn push(&mut self, slot: Option<&str>) -> PolarsResult<()>
        requires { HasRoom self.old }
        ensures ok { OnOk result (self.new ≡ pushed self.old (text_slot slot.entry)) }
        ensures err { IfErr result IsNoMemory }
        ensures unchanged { OnErr result (self.new ≡ self.old) }
    {
        match slot {
            Some(text) => self.push_bytes(Some(text.as_bytes())),
            None => self.push_bytes(None),
        }
    }
}

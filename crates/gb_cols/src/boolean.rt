//! Columns of flags.

ghost use Rattle.std.specs.Prelude.{◌≡◌, ◌<◌, length, map, IfOk, IfErr, OnOk, OnErr};
ghost use Rattle.gb_defs.specs.Column.{fresh_column};
ghost use Rattle.gb_defs.specs.ColumnType.{Boolean, Flat};
ghost use Rattle.gb_defs.specs.Slot.{slot_at};
ghost use Rattle.gb_base.specs.AnyValue.{flag_number};
ghost use Rattle.gb_values.specs.Array.{flag_slot, native_slot};
ghost use Rattle.gb_cols.specs.Column.{HasRoom, pushed};
ghost use Rattle.gb_values.specs.Keys.{AreWords};
ghost use Rattle.gb_base.specs.PlSmallStr.{name_of, IsNoMemory};

use crate::chunked::ChunkedArray;
use crate::series_trait::SeriesTrait;
use gb_base::data_type::IsSorted;
use gb_base::error::PolarsResult;
use gb_base::small_str::PlSmallStr;
use gb_values::boolean::{BooleanArray, FlagValues};
use std::alloc::Global;

pub type BooleanChunked = ChunkedArray<FlagValues>;

impl ChunkedArray<FlagValues> {
    /// These flags in one chunk, none of them null.
    pub fn from_slice(alloc: Global, name: PlSmallStr, v: &[bool]) -> PolarsResult<Self>
        ensures ok { let slots = map flag_slot v.now in
            IfOk result (λ c. c ≡ fresh_column (name_of name) (Flat Boolean) slots) }
        ensures err { IfErr result IsNoMemory }
    {
        let chunk = BooleanArray::from_slice(alloc, v)?;
        Ok(ChunkedArray::from_chunk(alloc, name, chunk))
    }

    /// These flags in one chunk, `None` as null.
    pub fn from_slice_options(
        alloc: Global,
        name: PlSmallStr,
        v: &[Option<bool>],
    ) -> PolarsResult<Self>
        ensures ok { let slots = map (native_slot flag_number) v.now in
            IfOk result (λ c. c ≡ fresh_column (name_of name) (Flat Boolean) slots) }
        ensures err { IfErr result IsNoMemory }
    {
        let mut chunk = BooleanArray::empty(alloc);
        chunk.reserve(v.len())?;
        for slot in v {
            chunk.push(*slot)?;
        }
        Ok(ChunkedArray::from_chunk(alloc, name, chunk))
    }

    /// The flag of a row.
    pub fn get(&self, row: usize) -> Option<bool>
        requires { row < length self.now.slots }
        ensures { native_slot flag_number result ≡ slot_at self.now.slots row }
    {
        let (chunk, place) = self.locate(row);
        chunk.get(place)
    }

    /// One slot more at the end of the last chunk.
    pub fn push(&mut self, slot: Option<bool>) -> PolarsResult<()>
        requires { HasRoom self.old }
        ensures ok { OnOk result (self.new ≡ pushed self.old (native_slot flag_number slot)) }
        ensures err { IfErr result IsNoMemory }
        ensures unchanged { OnErr result (self.new ≡ self.old) }
    {
        self.last.push(slot)?;
        self.sorted = IsSorted::Not;
        Ok(())
    }

    /// The flags as words of 64 bits, 0 or 1, null as `None`. One pass over the chunks.
    pub fn words(&self) -> PolarsResult<Vec<Option<u64>>>
        ensures ok { IfOk result (λ keys. AreWords Boolean self.now.slots keys.items) }
        ensures err { IfErr result IsNoMemory }
    {
        let mut keys = Vec::with_capacity(self.allocator(), self.len())?;
        for chunk in &self.earlier {
            chunk.push_words(&mut keys)?;
        }
        self.last.push_words(&mut keys)?;
        Ok(keys)
    }
}

//! Columns of numbers.

ghost use Rattle.std.specs.Prelude.{◌≡◌, ◌<◌, length, false, map, IfOk, IfErr, OnOk, OnErr};
ghost use Rattle.gb_defs.specs.Column.{fresh_column};
ghost use Rattle.gb_defs.specs.ColumnType.{Flat};
ghost use Rattle.gb_defs.specs.Slot.{Num, slot_at};
ghost use Rattle.gb_values.specs.Array.{native_slot};
ghost use Rattle.gb_cols.specs.Column.{HasRoom, pushed};
ghost use Rattle.gb_values.specs.Keys.{AreWide, AreWords};
ghost use Rattle.gb_base.specs.PlSmallStr.{name_of, IsNoMemory};
ghost use Rattle.gb_numbers.specs.Native.{is_wide};

use crate::chunked::ChunkedArray;
use crate::series_trait::SeriesTrait;
use gb_base::data_type::IsSorted;
use gb_base::error::PolarsResult;
use gb_base::small_str::PlSmallStr;
use gb_numbers::numeric::{
    Int8Type, Int16Type, Int32Type, Int64Type, Int128Type, PolarsNumericType, UInt8Type,
    UInt16Type, UInt32Type, UInt64Type,
};
use gb_values::primitive::{NumberValues, PrimitiveArray};
use std::alloc::{AllocError, Global};

pub type Int8Chunked = ChunkedArray<NumberValues<Int8Type>>;

pub type Int16Chunked = ChunkedArray<NumberValues<Int16Type>>;

pub type Int32Chunked = ChunkedArray<NumberValues<Int32Type>>;

pub type Int64Chunked = ChunkedArray<NumberValues<Int64Type>>;

pub type Int128Chunked = ChunkedArray<NumberValues<Int128Type>>;

pub type UInt8Chunked = ChunkedArray<NumberValues<UInt8Type>>;

pub type UInt16Chunked = ChunkedArray<NumberValues<UInt16Type>>;

pub type UInt32Chunked = ChunkedArray<NumberValues<UInt32Type>>;

pub type UInt64Chunked = ChunkedArray<NumberValues<UInt64Type>>;

impl<T: PolarsNumericType> ChunkedArray<NumberValues<T>> {
    /// These numbers in one chunk, none of them null.
    pub fn from_slice(alloc: Global, name: PlSmallStr, v: &[T::Native]) -> PolarsResult<Self>
        ensures ok { let slots = map (λ n. Num (T.Native.number n)) v.now in
            IfOk result (λ c. c ≡ fresh_column (name_of name) (Flat T.Native.flat) slots) }
        ensures err { IfErr result IsNoMemory }
    {
        let chunk = PrimitiveArray::from_slice(alloc, v)?;
        Ok(ChunkedArray::from_chunk(alloc, name, chunk))
    }

    /// These numbers in one chunk, `None` as null.
    pub fn from_slice_options(
        alloc: Global,
        name: PlSmallStr,
        v: &[Option<T::Native>],
    ) -> PolarsResult<Self>
        ensures ok { let slots = map (native_slot T.Native.number) v.now in
            IfOk result (λ c. c ≡ fresh_column (name_of name) (Flat T.Native.flat) slots) }
        ensures err { IfErr result IsNoMemory }
    {
        let mut chunk: PrimitiveArray<T> = PrimitiveArray::empty(alloc);
        chunk.reserve(v.len())?;
        for slot in v {
            chunk.push(*slot)?;
        }
        Ok(ChunkedArray::from_chunk(alloc, name, chunk))
    }

    /// The number of a row.
    pub fn get(&self, row: usize) -> Option<T::Native>
        requires { row < length self.now.slots }
        ensures { native_slot T.Native.number result ≡ slot_at self.now.slots row }
    {
        let (chunk, place) = self.locate(row);
        chunk.get(place)
    }

    /// One slot more at the end of the last chunk.
    pub fn push(&mut self, slot: Option<T::Native>) -> PolarsResult<()>
        requires { HasRoom self.old }
        ensures ok { OnOk result (self.new ≡ pushed self.old (native_slot T.Native.number slot)) }
        ensures err { IfErr result IsNoMemory }
        ensures unchanged { OnErr result (self.new ≡ self.old) }
    {
        self.put(slot)?;
        Ok(())
    }

    /// The same, with an error that is small, for what is called for each cell.
    #[inline]
    pub fn put(&mut self, slot: Option<T::Native>) -> Result<(), AllocError>
        requires { HasRoom self.old }
        ensures ok { OnOk result (self.new ≡ pushed self.old (native_slot T.Native.number slot)) }
        ensures unchanged { OnErr result (self.new ≡ self.old) }
    {
        self.last.push(slot)?;
        self.sorted = IsSorted::Not;
        Ok(())
    }

    /// The numbers as words of 64 bits, null as `None`. One pass over the chunks.
    pub fn words(&self) -> PolarsResult<Vec<Option<u64>>>
        requires narrow { is_wide T.Native.width ≡ false }
        ensures ok { IfOk result (λ keys. AreWords T.Native.flat self.now.slots keys.items) }
        ensures err { IfErr result IsNoMemory }
    {
        let mut keys = Vec::with_capacity(self.allocator(), self.len())?;
        for chunk in &self.earlier {
            chunk.push_words(&mut keys)?;
        }
        self.last.push_words(&mut keys)?;
        Ok(keys)
    }

    /// The numbers as words of 128 bits, null as `None`. One pass over the chunks.
    pub fn wide_words(&self) -> PolarsResult<Vec<Option<u128>>>
        ensures ok { IfOk result (λ keys. AreWide T.Native.flat self.now.slots keys.items) }
        ensures err { IfErr result IsNoMemory }
    {
        let mut keys = Vec::with_capacity(self.allocator(), self.len())?;
        for chunk in &self.earlier {
            chunk.push_wide(&mut keys)?;
        }
        self.last.push_wide(&mut keys)?;
        Ok(keys)
    }
}

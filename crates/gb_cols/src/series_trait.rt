//! What every column can be asked, whatever its type.

ghost use Rattle.std.specs.Prelude.{◌≡◌, ◌≢◌, ◌↔◌, ◌==◌, IsTrue, ◌⊎◌, ℕ, ◌+◌, ◌++◌, ◌<◌, ◌^◌, true, is_some, not, length, sum, IfOk, IfErr, OnOk, OnErr, MatchOption, All};
ghost use Rattle.std.specs.Bool.{OnFalse};
ghost use Rattle.std.specs.List.{count_by, list_any, position};
ghost use Rattle.std.specs.Str.{IsUtf8};
ghost use Rattle.gb_defs.specs.Cell.{cell_slot};
ghost use Rattle.gb_defs.specs.Slot.{Nil, is_nil, slot_at};
ghost use Rattle.gb_defs.specs.Column.{Ascending, Descending, NotSorted, ColumnValue, IsDetected, IsFlagTrue, IsLastValid, flagged, is_valid, rechunked, repeated, sliced, taken};
ghost use Rattle.gb_defs.specs.ColumnType.{Fits};
ghost use Rattle.gb_cols.specs.Column.{HasRoom, ReadsCells, TakesCell, appended, cell_of, pushed};
ghost use Rattle.gb_values.specs.Valid.{IsNull};
ghost use Rattle.gb_base.specs.DataType.{type_of};
ghost use Rattle.gb_base.specs.PlSmallStr.{name_of, IsNoMemory};
ghost use Rattle.gb_values.specs.SlotOrder.{IsOrderOf};
ghost use Rattle.gb_base.specs.Sorted.{flag_of};

use gb_base::data_type::{DataType, IsSorted};
use gb_base::error::PolarsResult;
use gb_base::nullable_idx::IdxSize;
use gb_base::small_str::PlSmallStr;
use gb_values::slot_order::SlotOrder;
use std::alloc::{AllocError, Global};

/// A named column. Contracts see it as its name, type, slots, chunk lengths and flags.
pub trait SeriesTrait: Drop {
    // The column.
    ghost value: { Self → ColumnValue };

    fn name(&self) -> &PlSmallStr
        ensures { name_of result.now ≡ (value self.now).name };

    /// What its chunks are allocated by.
    fn allocator(&self) -> Global;

    fn rename(&mut self, name: PlSmallStr)
        ensures { value self.new ≡ record (value self.old) { name = name_of name } };

    /// The type. It takes no memory today.
    fn dtype(&self) -> PolarsResult<DataType>
        ensures ok { IfOk result (λ dtype. type_of dtype ≡ (value self.now).dtype) }
        ensures err { IfErr result IsNoMemory };

    /// One pass over the chunks. It also tells what holds of each column's slots and chunks.
    fn len(&self) -> usize
        ensures value { result ≡ length (value self.now).slots }
        ensures small { result < 2 ^ 63 }
        ensures chunks { sum (value self.now).chunks ≡ length (value self.now).slots }
        ensures fitting { All (Fits (value self.now).dtype) (value self.now).slots };

    fn is_empty(&self) -> bool
        ensures { result ≡ (length (value self.now).slots == 0) };

    /// One pass over the chunks.
    fn null_count(&self) -> usize
        ensures { result ≡ count_by is_nil (value self.now).slots };

    /// Whether some slot is null. One pass over the chunks.
    fn has_nulls(&self) -> bool
        ensures { result ≡ list_any is_nil (value self.now).slots }
    {
        self.null_count() > 0
    }

    /// One at least.
    fn n_chunks(&self) -> usize
        ensures value { result ≡ length (value self.now).chunks }
        ensures some { 0 < result };

    fn chunk_lengths(&self) -> PolarsResult<Vec<usize>>
        ensures ok { IfOk result (λ lengths. lengths.items ≡ (value self.now).chunks) }
        ensures err { IfErr result IsNoMemory };

    /// The first row whose slot is no null.
    fn first_non_null(&self) -> Option<usize>
        ensures { result ≡ position is_valid (value self.now).slots };

    /// The last row whose slot is no null. It looks into each chunk.
    fn last_non_null(&self) -> Option<usize>
        ensures { let slots = (value self.now).slots in
            MatchOption result (All IsNull slots) (IsLastValid slots) };

    /// Whether the slot of a row is no null.
    fn is_valid(&self, row: usize) -> bool
        requires { row < length (value self.now).slots }
        ensures { result ≡ not (is_nil (slot_at (value self.now).slots row)) };

    /// What is known of the order of the slots.
    fn is_sorted_flag(&self) -> IsSorted
        ensures value { flag_of result ≡ (value self.now).sorted }
        ensures holds { let c = value self.now in IsFlagTrue c.sorted c.dtype c.slots };

    /// Whether the slots are known to ascend.
    fn is_sorted_ascending_flag(&self) -> bool
        ensures { IsTrue result ↔ ((value self.now).sorted ≡ Ascending) }
    {
        match self.is_sorted_flag() {
            IsSorted::Ascending => true,
            IsSorted::Descending => false,
            IsSorted::Not => false,
        }
    }

    /// Whether the slots are known to descend.
    fn is_sorted_descending_flag(&self) -> bool
        ensures { IsTrue result ↔ ((value self.now).sorted ≡ Descending) }
    {
        match self.is_sorted_flag() {
            IsSorted::Ascending => false,
            IsSorted::Descending => true,
            IsSorted::Not => false,
        }
    }

    /// Whether the slots are known to be in some order.
    fn is_sorted_any(&self) -> bool
        ensures { IsTrue result ↔ ((value self.now).sorted ≢ NotSorted) }
    {
        match self.is_sorted_flag() {
            IsSorted::Ascending => true,
            IsSorted::Descending => true,
            IsSorted::Not => false,
        }
    }

    /// The flag replaced.
    fn set_sorted_flag(&mut self, sorted: IsSorted)
        requires { let c = value self.old in IsFlagTrue (flag_of sorted) c.dtype c.slots }
        ensures { value self.new ≡ flagged (flag_of sorted) (value self.old) };

    /// The orders that the column is in. One pass, no memory.
    fn order(&self) -> SlotOrder
        ensures { IsOrderOf (value self.now) result };

    /// Whether the flag would be true. One pass, no memory.
    fn check_sorted(&self, sorted: IsSorted) -> bool
        ensures { let c = value self.now in
            IsTrue result ↔ IsFlagTrue (flag_of sorted) c.dtype c.slots }
    {
        match sorted {
            IsSorted::Ascending => self.order().ascending,
            IsSorted::Descending => self.order().descending,
            IsSorted::Not => true,
        }
    }

    /// Ascending where that is true, else descending where that is, else neither. One pass, no memory.
    fn detect_sorted(&self) -> IsSorted
        ensures { IsDetected (flag_of result) (value self.now) }
    {
        let order = self.order();
        if order.ascending {
            IsSorted::Ascending
        } else if order.descending {
            IsSorted::Descending
        } else {
            IsSorted::Not
        }
    }

    /// One null more at the end of the last chunk.
    fn push_null(&mut self) -> PolarsResult<()>
        requires { HasRoom (value self.old) }
        ensures ok { OnOk result (value self.new ≡ pushed (value self.old) Nil) }
        ensures err { IfErr result IsNoMemory }
        ensures unchanged { OnErr result (value self.new ≡ value self.old) };

    /// The slot that a cell of a table reads as at the end of the last chunk, and whether it reads. A
    /// cell that is known to be a text is not looked at again. Its error is small, since this is called
    /// for each cell.
    fn push_cell(&mut self, cell: &[u8], is_text: bool, null_word: &str) -> Result<bool, AllocError>
        requires reads { ReadsCells (value self.old).dtype }
        requires room { HasRoom (value self.old) }
        requires is_text { is_text ≡ true → IsUtf8 cell.now }
        ensures ok { IfOk result
            (TakesCell null_word.now (value self.old) (value self.new) cell.now) }
        ensures refused { IfOk result (λ took. OnFalse took (value self.new ≡ value self.old)) }
        ensures unchanged { OnErr result (value self.new ≡ value self.old) };

    /// Whether a cell of a table reads as a slot. A cell that is known to be a text is not looked at again.
    fn reads_cell(&self, cell: &[u8], is_text: bool, null_word: &str) -> bool
        requires reads { ReadsCells (value self.now).dtype }
        requires is_text { is_text ≡ true → IsUtf8 cell.now }
        ensures { let t = (value self.now).dtype in
            result ≡ is_some (cell_slot null_word.now t cell.now) };

    /// The text of the slot of a row, behind what is there.
    fn write_cell(&self, row: usize, null_word: &str, to: &mut Vec<u8>) -> Result<(), AllocError>
        requires { row < length (value self.now).slots }
        ensures { let cell = cell_of null_word.now (value self.now) row in
            OnOk result (to.new.items ≡ to.old.items ++ cell) };

    /// The other's chunks come last. Both have one type.
    fn append(&mut self, other: Self) -> PolarsResult<()>
        requires typed { (value other).dtype ≡ (value self.old).dtype }
        requires few { length (value self.old).slots + length (value other).slots < 2 ^ 63 }
        ensures ok { OnOk result (value self.new ≡ appended (value self.old) (value other)) }
        ensures err { IfErr result IsNoMemory }
        ensures unchanged { OnErr result (value self.new ≡ value self.old) };

    /// The slots of these rows, in one chunk.
    fn take(&self, rows: &[IdxSize]) -> PolarsResult<Self>
        requires { All (λ row. row < length (value self.now).slots) rows.now }
        ensures ok { IfOk result (λ c. value c ≡ taken rows.now (value self.now)) }
        ensures err { IfErr result IsNoMemory };

    /// The slots from an offset on, so many at most, with the flag. A negative offset counts from the
    /// end. Copies what it shows.
    fn slice(&self, offset: i64, len: usize) -> PolarsResult<Self>
        ensures ok { IfOk result (λ c. value c ≡ sliced offset len (value self.now)) }
        ensures err { IfErr result IsNoMemory };

    /// The same slots and flags, in one chunk.
    fn rechunk(&self) -> PolarsResult<Self>
        ensures ok { IfOk result (λ c. value c ≡ rechunked (value self.now)) }
        ensures err { IfErr result IsNoMemory };

    /// The same column.
    fn try_clone(&self) -> PolarsResult<Self>
        ensures ok { IfOk result (λ c. value c ≡ value self.now) }
        ensures err { IfErr result IsNoMemory };

    /// The slot of a row so many times, in one chunk.
    fn new_from_index(&self, i: usize, len: usize) -> PolarsResult<Self>
        requires inside { (i < length (value self.now).slots) ⊎ (len ≡ 0) }
        requires few { len < 2 ^ 63 }
        ensures ok { IfOk result (λ c. value c ≡ repeated i len (value self.now)) }
        ensures err { IfErr result IsNoMemory };
}

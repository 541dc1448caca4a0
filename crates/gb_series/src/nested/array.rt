//! Columns of arrays of one width.

ghost use Rattle.std.specs.Prelude.{◌≡◌, [], ◌<◌, length, IfOk, IfErr, IfSome, OnOk, OnErr};
ghost use Rattle.gb_base.specs.PlSmallStr.{name_of, IsNoMemory};
ghost use Rattle.gb_cols.specs.Column.{HasRoom, pushed};
ghost use Rattle.gb_defs.specs.Column.{fresh_column};
ghost use Rattle.gb_defs.specs.ColumnType.{ArrayOf, part_type};
ghost use Rattle.gb_defs.specs.Slot.{Items, Nil, items_of, slot_at};
ghost use Rattle.gb_series.specs.Rows.{AreRowsOf};
ghost use Rattle.gb_series.specs.Arrays.{width_of};
ghost use Rattle.gb_series.specs.Series.{lent_slot, row_slot_of};
ghost use Rattle.gb_series.specs.Series.{value_of};

use crate::nested::list::ListChunked;
use crate::series::Series;
use gb_base::data_type::{DataType, IsSorted};
use gb_base::error::PolarsResult;
use gb_base::nullable_idx::IdxSize;
use gb_base::small_str::PlSmallStr;
use gb_cols::series_trait::SeriesTrait;
use gb_cols::undo_append::UndoAppend;
use gb_values::slot_order::SlotOrder;
use std::alloc::{AllocError, Global};
use std::marker::Model;

/// A named column of arrays of one width: lists that all have so many items. A null has none, which is why
/// it keeps where each ends.
#[derive(Drop)]
#[cycle(series)]
pub struct ArrayChunked {
    width: usize,
    lists: ListChunked,
}

impl Model for ArrayChunked {
    ghost use Rattle.gb_defs.specs.Column.{ColumnValue, column_code};

    ghost Value = { ColumnValue };

    ghost coded = { column_code };

    ghost use Rattle.gb_series.specs.Arrays.{IsArray, array_column};
    ghost use Rattle.gb_series.specs.Depth.{depth};

    ghost view = { λ c. array_column c.width c.lists };

    ghost invariant = { λ c. IsArray c.width c.lists };

    ghost size = { λ c. depth c.dtype };

    ghost use Rattle.gb_series.specs.Falls.{lists_fall};

    ghost size_decreases = { λ c h. lists_fall c.width c.lists h };
}

impl SeriesTrait for ArrayChunked {
    ghost value = { λ c. c };

    fn name(&self) -> &PlSmallStr {
        self.lists.name()
    }

    fn allocator(&self) -> Global {
        self.lists.allocator()
    }

    fn rename(&mut self, name: PlSmallStr) {
        self.lists.rename(name)
    }

    #[cycle(dtype)]
    #[tactic(auto, using(gb_base::proofs::DataTypeLemmas::array_type))]
    fn dtype(&self) -> PolarsResult<DataType> {
        let items = self.lists.item_type()?;
        Ok(DataType::Array(Box::new(self.lists.allocator(), items)?, self.width))
    }

    #[cycle(len)]
    fn len(&self) -> usize {
        self.lists.tell_type();
        self.lists.len()
    }

    fn is_empty(&self) -> bool {
        self.lists.is_empty()
    }

    fn null_count(&self) -> usize {
        self.lists.null_count()
    }

    fn n_chunks(&self) -> usize {
        self.lists.n_chunks()
    }

    fn chunk_lengths(&self) -> PolarsResult<Vec<usize>> {
        self.lists.chunk_lengths()
    }

    fn first_non_null(&self) -> Option<usize> {
        self.lists.first_non_null()
    }

    fn last_non_null(&self) -> Option<usize> {
        self.lists.last_non_null()
    }

    fn is_valid(&self, row: usize) -> bool {
        self.lists.is_valid(row)
    }

    // Arrays are never flagged.
    fn is_sorted_flag(&self) -> IsSorted {
        let _ = &self.lists;
        IsSorted::Not
    }

    // Only what is no order is asked of it.
    fn set_sorted_flag(&mut self, _sorted: IsSorted) {
        let _ = &self.lists;
    }

    fn order(&self) -> SlotOrder {
        let _ = &self.lists;
        SlotOrder {
            ascending: false,
            descending: false,
        }
    }

    fn push_null(&mut self) -> PolarsResult<()> {
        self.lists.push_null()
    }

    fn push_cell(
        &mut self,
        cell: &[u8],
        _is_text: bool,
        null_word: &str,
    ) -> Result<bool, AllocError> {
        let _ = &self.lists;
        if cell == null_word.as_bytes() {
            self.put_null()?;
            return Ok(true);
        }
        Ok(false)
    }

    #[tactic(auto, unfolding(gb_defs::specs::Cell::cell_slot))]
    fn reads_cell(&self, cell: &[u8], _is_text: bool, null_word: &str) -> bool {
        let _ = &self.lists;
        cell == null_word.as_bytes()
    }

    #[cycle(write_cell)]
    fn write_cell(&self, row: usize, null_word: &str, to: &mut Vec<u8>) -> Result<(), AllocError> {
        self.lists.tell_type();
        self.lists.write_cell(row, null_word, to)?;
        Ok(())
    }

    #[cycle(append)]
    fn append(&mut self, other: Self) -> PolarsResult<()> {
        let ArrayChunked { width: _, lists } = other;
        self.lists.tell_type();
        lists.tell_type();
        self.lists.append(lists)
    }

    #[cycle(take)]
    fn take(&self, rows: &[IdxSize]) -> PolarsResult<Self> {
        Ok(ArrayChunked {
            width: self.width,
            lists: self.lists.take(rows)?,
        })
    }

    #[cycle(slice)]
    fn slice(&self, offset: i64, len: usize) -> PolarsResult<Self> {
        Ok(ArrayChunked {
            width: self.width,
            lists: self.lists.slice(offset, len)?,
        })
    }

    #[cycle(rechunk)]
    fn rechunk(&self) -> PolarsResult<Self> {
        Ok(ArrayChunked {
            width: self.width,
            lists: self.lists.rechunk()?,
        })
    }

    #[cycle(try_clone)]
    fn try_clone(&self) -> PolarsResult<Self> {
        Ok(ArrayChunked {
            width: self.width,
            lists: self.lists.try_clone()?,
        })
    }

    fn new_from_index(&self, i: usize, len: usize) -> PolarsResult<Self> {
        Ok(ArrayChunked {
            width: self.width,
            lists: self.lists.new_from_index(i, len)?,
        })
    }
}

impl UndoAppend for ArrayChunked {
    fn uses_all(&self) -> bool {
        let _ = &self.lists;
        false
    }

    fn keep_chunks(&mut self, count: usize) {
        self.lists.keep_chunks(count);
    }
}

impl ArrayChunked {
    /// No rows, of arrays of so many items. The column of items is empty, and tells the type.
    pub fn new(alloc: Global, name: PlSmallStr, items: Series, width: usize) -> Self
        requires { (value_of items).slots ≡ [] }
        ensures { result ≡ fresh_column (name_of name) (ArrayOf (value_of items).dtype width) [] }
    {
        ArrayChunked {
            width,
            lists: ListChunked::new(alloc, name, items),
        }
    }

    /// One row more at the end of the last chunk: a null, or the slots of a column, as many as the arrays have
    /// items, and of their type. These stay a chunk of the items until the column is rechunked.
    pub fn push(&mut self, row: Option<&Series>) -> PolarsResult<()>
        requires typed { IfSome row (λ lent. let slots = value_of lent.now in
            ArrayOf slots.dtype (length slots.slots) ≡ self.old.dtype) }
        requires room { HasRoom self.old }
        ensures ok { OnOk result (self.new ≡ pushed self.old (lent_slot row.entry)) }
        ensures err { IfErr result IsNoMemory }
        ensures unchanged { OnErr result (self.new ≡ self.old) }
    {
        match row {
            Some(slots) => self.put_slots(slots),
            None => self.push_null(),
        }
    }

    /// How many items each array has.
    pub fn width(&self) -> usize
        ensures { result ≡ width_of self.now.dtype }
    {
        let _ = &self.lists;
        self.width
    }

    // The items of all rows, and maybe more behind them.
    pub(crate) fn items(&self) -> &Series
        ensures { self.now.dtype ≡ ArrayOf (value_of result.now).dtype (width_of self.now.dtype) }
    {
        self.lists.items()
    }

    /// That the column is one of arrays.
    pub fn tell_type(&self)
        ensures { let t = self.now.dtype in t ≡ ArrayOf (part_type t 0) (width_of t) }
    {
        let _ = &self.lists;
    }

    // One null more. Its error is small, for what is called for each cell.
    fn put_null(&mut self) -> Result<(), AllocError>
        requires { HasRoom self.old }
        ensures ok { OnOk result (self.new ≡ pushed self.old Nil) }
        ensures unchanged { OnErr result (self.new ≡ self.old) }
    {
        let Ok(()) = self.lists.push_null() else {
            return Err(AllocError);
        };
        Ok(())
    }

    // One array more.
    fn put_slots(&mut self, slots: &Series) -> PolarsResult<()>
        requires typed { let column = value_of slots.now in
            ArrayOf column.dtype (length column.slots) ≡ self.old.dtype }
        requires room { HasRoom self.old }
        ensures ok { let array = Items (items_of (value_of slots.now).slots) in
            OnOk result (self.new ≡ pushed self.old array) }
        ensures err { IfErr result IsNoMemory }
        ensures unchanged { OnErr result (self.new ≡ self.old) }
    {
        self.lists.tell_type();
        self.lists.put_slots(slots)?;
        Ok(())
    }

    /// The items of all rows, and maybe more behind them, and where those of each row end.
    pub fn items_by_row(&self) -> (&Series, &[usize])
        ensures typed { let width = width_of self.now.dtype in
            self.now.dtype ≡ ArrayOf (value_of result.0.now).dtype width }
        ensures rows { AreRowsOf self.now.slots (value_of result.0.now).slots result.1.now }
    {
        self.lists.items_by_row()
    }

    /// The slots of a row as a column, unless the row is null.
    pub fn get_as_series(&self, row: usize) -> PolarsResult<Option<Series>>
        requires { row < length self.now.slots }
        ensures slot { IfOk result (λ found. row_slot_of found ≡ slot_at self.now.slots row) }
        ensures typed { IfOk result (λ found. IfSome found (λ series. let slots = value_of series in
            ArrayOf slots.dtype (length slots.slots) ≡ self.now.dtype)) }
        ensures err { IfErr result IsNoMemory }
    {
        let slots = self.lists.get_as_series(row)?;
        Ok(slots)
    }
}

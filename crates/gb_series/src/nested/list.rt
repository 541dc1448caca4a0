//! Columns of lists.

ghost use Rattle.std.specs.Prelude.{◌≡◌, [], ◌<◌, length, IfOk, IfErr, IfSome, OnOk, OnErr};
ghost use Rattle.gb_base.specs.DataType.{type_of};
ghost use Rattle.gb_base.specs.PlSmallStr.{name_of, IsNoMemory};
ghost use Rattle.gb_cols.specs.Column.{HasRoom, pushed};
ghost use Rattle.gb_defs.specs.Column.{fresh_column};
ghost use Rattle.gb_defs.specs.ColumnType.{ListOf, part_type};
ghost use Rattle.gb_defs.specs.Slot.{Items, Nil, items_of, slot_at};
ghost use Rattle.gb_values.specs.Array.{Rises};
ghost use Rattle.gb_series.specs.Rows.{AreRowsOf, lists_of};
ghost use Rattle.gb_series.specs.Series.{lent_slot, row_slot_of};
ghost use Rattle.gb_series.specs.Series.{value_of};

use crate::nested::fields::{cut, put_behind, refused};
use crate::nested::rows::{
    end_of, ends_behind, first_present, flags_at, items_of_rows, join_rows, last_present,
    null_count, push_ends, push_flags, slice_bounds, start_at,
};
use crate::nested::text::{has_quotes, write_items};
use crate::series::Series;
use gb_base::data_type::{DataType, IsSorted};
use gb_base::error::{PolarsError, PolarsResult};
use gb_base::nullable_idx::IdxSize;
use gb_base::small_str::PlSmallStr;
use gb_cols::null::NullChunked;
use gb_cols::series_trait::SeriesTrait;
use gb_cols::undo_append::UndoAppend;
use gb_values::slot_order::SlotOrder;
use std::alloc::{AllocError, Global};
use std::marker::Model;

/// A named column of lists: one column of the items of all rows, one row's behind the other's, where the items
/// of each row end, and which rows are null. A column of nulls has the name and tells the rows of each chunk.
/// More items may stand behind those of the last row, where rows were taken back: these are not seen.
#[derive(Drop)]
#[cycle(series)]
pub struct ListChunked {
    rows: NullChunked,
    present: Vec<bool>,
    ends: Vec<usize>,
    items: Series,
}

impl Model for ListChunked {
    ghost use Rattle.gb_defs.specs.Column.{ColumnValue, column_code};

    ghost Value = { ColumnValue };

    ghost coded = { column_code };

    ghost use Rattle.gb_series.specs.Depth.{depth};
    ghost use Rattle.gb_series.specs.Rows.{IsListed, list_column};
    ghost use Rattle.gb_series.specs.Series.{value_of};

    ghost view = { λ c. list_column c.rows c.present.items c.ends.items (value_of c.items) };

    ghost invariant = { λ c. IsListed c.rows c.present.items c.ends.items (value_of c.items) };

    ghost size = { λ c. depth c.dtype };

    ghost use Rattle.gb_series.specs.Falls.{items_fall};

    ghost size_decreases = { λ c h. items_fall c.items };
}

impl SeriesTrait for ListChunked {
    ghost value = { λ c. c };

    fn name(&self) -> &PlSmallStr {
        self.rows.name()
    }

    fn allocator(&self) -> Global {
        self.rows.allocator()
    }

    fn rename(&mut self, name: PlSmallStr) {
        self.rows.rename(name)
    }

    #[cycle(dtype)]
    #[tactic(auto, using(gb_base::proofs::DataTypeLemmas::list_type))]
    fn dtype(&self) -> PolarsResult<DataType> {
        let items = self.items.dtype()?;
        Ok(DataType::List(Box::new(self.rows.allocator(), items)?))
    }

    #[cycle(len)]
    fn len(&self) -> usize {
        // Its clauses say that each item fits the type.
        let _ = self.items.len();
        self.rows.len()
    }

    fn is_empty(&self) -> bool {
        self.len() == 0
    }

    fn null_count(&self) -> usize {
        null_count(&self.present)
    }

    fn n_chunks(&self) -> usize {
        self.rows.n_chunks()
    }

    fn chunk_lengths(&self) -> PolarsResult<Vec<usize>> {
        self.rows.chunk_lengths()
    }

    fn first_non_null(&self) -> Option<usize> {
        first_present(&self.present)
    }

    fn last_non_null(&self) -> Option<usize> {
        last_present(&self.present)
    }

    fn is_valid(&self, row: usize) -> bool {
        self.present[row]
    }

    // Lists are never flagged.
    fn is_sorted_flag(&self) -> IsSorted {
        let _ = &self.rows;
        IsSorted::Not
    }

    // Only what is no order is asked of it.
    fn set_sorted_flag(&mut self, _sorted: IsSorted) {
        let _ = &self.rows;
    }

    fn order(&self) -> SlotOrder {
        let _ = &self.rows;
        SlotOrder {
            ascending: false,
            descending: false,
        }
    }

    fn push_null(&mut self) -> PolarsResult<()> {
        self.put_null()?;
        Ok(())
    }

    fn push_cell(
        &mut self,
        cell: &[u8],
        _is_text: bool,
        null_word: &str,
    ) -> Result<bool, AllocError> {
        let _ = &self.rows;
        if cell == null_word.as_bytes() {
            self.put_null()?;
            return Ok(true);
        }
        Ok(false)
    }

    #[tactic(auto, unfolding(gb_defs::specs::Cell::cell_slot))]
    fn reads_cell(&self, cell: &[u8], _is_text: bool, null_word: &str) -> bool {
        let _ = &self.rows;
        cell == null_word.as_bytes()
    }

    #[cycle(write_cell)]
    fn write_cell(&self, row: usize, null_word: &str, to: &mut Vec<u8>) -> Result<(), AllocError> {
        if !self.present[row] {
            to.extend_from_slice(null_word.as_bytes())?;
            return Ok(());
        }
        let quotes = has_quotes(&self.items)?;
        let start = start_at(&self.ends, row);
        write_items(&self.items, start, self.ends[row], quotes, to)?;
        Ok(())
    }

    #[cycle(append)]
    fn append(&mut self, other: Self) -> PolarsResult<()> {
        let ListChunked {
            rows,
            present,
            ends,
            items,
        } = other;
        let before = end_of(&self.ends);
        let flags = present.len();
        let places = ends.len();
        match join_rows(
            &self.rows,
            rows,
            &mut self.present,
            flags,
            &mut self.ends,
            places,
        ) {
            Ok(joined) => {
                put_behind(&mut self.items, items, before)?;
                self.rows = joined;
                push_flags(&mut self.present, &present);
                push_ends(&mut self.ends, &ends, before);
                Ok(())
            }
            Err(error) => refused(items, error),
        }
    }

    #[cycle(take)]
    fn take(&self, rows: &[IdxSize]) -> PolarsResult<Self> {
        let alloc = self.rows.allocator();
        let (ends, places) = items_of_rows(alloc, &self.ends, rows)?;
        Ok(ListChunked {
            rows: self.rows.take(rows)?,
            present: flags_at(alloc, &self.present, rows)?,
            ends,
            items: self.items.take(&places)?,
        })
    }

    #[cycle(slice)]
    fn slice(&self, offset: i64, len: usize) -> PolarsResult<Self> {
        let alloc = self.rows.allocator();
        let (from, to) = slice_bounds(self.rows.len(), offset, len);
        let to = to.max(from);
        let start = start_at(&self.ends, from);
        let end = start_at(&self.ends, to);
        // Its clauses say that the places of items are few.
        let _ = self.items.len();
        Ok(ListChunked {
            rows: self.rows.slice(offset, len)?,
            present: Vec::from_slice(alloc, &self.present.as_slice()[from..to])?,
            ends: ends_behind(alloc, &self.ends.as_slice()[from..to], start)?,
            items: self.items.slice(start as i64, end - start)?,
        })
    }

    #[cycle(rechunk)]
    fn rechunk(&self) -> PolarsResult<Self> {
        let alloc = self.rows.allocator();
        Ok(ListChunked {
            rows: self.rows.rechunk()?,
            present: Vec::from_slice(alloc, &self.present)?,
            ends: Vec::from_slice(alloc, &self.ends)?,
            items: self.items.rechunk()?,
        })
    }

    #[cycle(try_clone)]
    fn try_clone(&self) -> PolarsResult<Self> {
        let alloc = self.rows.allocator();
        Ok(ListChunked {
            rows: self.rows.try_clone()?,
            present: Vec::from_slice(alloc, &self.present)?,
            ends: Vec::from_slice(alloc, &self.ends)?,
            items: self.items.try_clone()?,
        })
    }

    fn new_from_index(&self, i: usize, len: usize) -> PolarsResult<Self> {
        let Ok(row) = IdxSize::try_from(i) else {
            return Err(PolarsError::NoMemory);
        };
        let mut rows = Vec::new(self.rows.allocator());
        rows.resize(len, row)?;
        let repeated = self.take(&rows)?;
        Ok(repeated)
    }
}

impl UndoAppend for ListChunked {
    fn uses_all(&self) -> bool {
        let _ = &self.rows;
        false
    }

    fn keep_chunks(&mut self, count: usize) {
        self.rows.keep_chunks(count);
        let kept = self.rows.len();
        self.present.truncate(kept);
        self.ends.truncate(kept);
    }
}

impl ListChunked {
    /// No rows. The column of items is empty, and tells the type.
    pub fn new(alloc: Global, name: PlSmallStr, items: Series) -> Self
        requires { (value_of items).slots ≡ [] }
        ensures { result ≡ fresh_column (name_of name) (ListOf (value_of items).dtype) [] }
    {
        ListChunked {
            rows: NullChunked::new(alloc, name, 0),
            present: Vec::new(alloc),
            ends: Vec::new(alloc),
            items,
        }
    }

    /// As many rows as there are ends, none of them null: each holds the items up to its end, from the end of the
    /// row before it on. Nothing is copied.
    pub fn from_items(
        alloc: Global,
        name: PlSmallStr,
        items: Series,
        ends: Vec<usize>,
    ) -> PolarsResult<Self>
        requires { Rises 0 ends.items (length (value_of items).slots) }
        ensures ok { IfOk result (λ c. c ≡ lists_of (name_of name) ends.items (value_of items)) }
        ensures err { IfErr result IsNoMemory }
    {
        let count = ends.len();
        let mut present = Vec::new(alloc);
        present.resize(count, true)?;
        Ok(ListChunked {
            rows: NullChunked::new(alloc, name, count),
            present,
            ends,
            items,
        })
    }

    /// One row more at the end of the last chunk: a null, or the slots of a column of the items' type. These
    /// stay a chunk of the items until the column is rechunked.
    pub fn push(&mut self, row: Option<&Series>) -> PolarsResult<()>
        requires typed { IfSome row (λ slots. ListOf (value_of slots.now).dtype ≡ self.old.dtype) }
        requires room { HasRoom self.old }
        ensures ok { OnOk result (self.new ≡ pushed self.old (lent_slot row.entry)) }
        ensures err { IfErr result IsNoMemory }
        ensures unchanged { OnErr result (self.new ≡ self.old) }
    {
        match row {
            Some(slots) => self.put_slots(slots),
            None => self.push_null(),
        }
    }

    // One null more. Its error is small, for what is called for each cell.
    fn put_null(&mut self) -> Result<(), AllocError>
        requires { HasRoom self.old }
        ensures ok { OnOk result (self.new ≡ pushed self.old Nil) }
        ensures unchanged { OnErr result (self.new ≡ self.old) }
    {
        let end = end_of(&self.ends);
        self.present.reserve(1)?;
        self.ends.reserve(1)?;
        let Ok(()) = self.rows.push_null() else {
            return Err(AllocError);
        };
        self.present.push_reserved(false);
        self.ends.push_reserved(end);
        Ok(())
    }

    /// That the column is one of lists.
    pub fn tell_type(&self)
        ensures { self.now.dtype ≡ ListOf (part_type self.now.dtype 0) }
    {
        let _ = &self.rows;
    }

    // The items of all rows, and maybe more behind them.
    pub(crate) fn items(&self) -> &Series
        ensures { self.now.dtype ≡ ListOf (value_of result.now).dtype }
    {
        &self.items
    }

    /// The type of the items.
    #[cycle(dtype)]
    pub(crate) fn item_type(&self) -> PolarsResult<DataType>
        ensures ok { IfOk result (λ dtype. type_of dtype ≡ part_type self.now.dtype 0) }
        ensures err { IfErr result IsNoMemory }
    {
        let items = self.items.dtype()?;
        Ok(items)
    }

    // One list more.
    pub(crate) fn put_slots(&mut self, slots: &Series) -> PolarsResult<()>
        requires typed { ListOf (value_of slots.now).dtype ≡ self.old.dtype }
        requires room { HasRoom self.old }
        ensures ok { let list = Items (items_of (value_of slots.now).slots) in
            OnOk result (self.new ≡ pushed self.old list) }
        ensures err { IfErr result IsNoMemory }
        ensures unchanged { OnErr result (self.new ≡ self.old) }
    {
        let before = end_of(&self.ends);
        // Its clauses say that the items are few.
        let _ = self.items.len();
        let end = before + slots.len();
        if end >= 1 << 63 {
            return Err(PolarsError::NoMemory);
        }
        self.present.reserve(1)?;
        self.ends.reserve(1)?;
        let mut rows = self.rows.try_clone()?;
        rows.push_null()?;
        cut(&mut self.items, before)?;
        self.items.append(slots.try_clone()?)?;
        self.rows = rows;
        self.present.push_reserved(true);
        self.ends.push_reserved(end);
        Ok(())
    }

    /// The items of all rows, and maybe more behind them, and where those of each row end.
    pub fn items_by_row(&self) -> (&Series, &[usize])
        ensures typed { self.now.dtype ≡ ListOf (value_of result.0.now).dtype }
        ensures rows { AreRowsOf self.now.slots (value_of result.0.now).slots result.1.now }
    {
        (&self.items, self.ends.as_slice())
    }

    /// The slots of a row as a column, unless the row is null.
    pub fn get_as_series(&self, row: usize) -> PolarsResult<Option<Series>>
        requires { row < length self.now.slots }
        ensures slot { IfOk result (λ found. row_slot_of found ≡ slot_at self.now.slots row) }
        ensures typed { IfOk result (λ found.
            IfSome found (λ slots. ListOf (value_of slots).dtype ≡ self.now.dtype)) }
        ensures err { IfErr result IsNoMemory }
    {
        if !self.present[row] {
            return Ok(None);
        }
        // Its clauses say that the places of items are few.
        let _ = self.items.len();
        let start = start_at(&self.ends, row);
        let slots = self.items.slice(start as i64, self.ends[row] - start)?;
        Ok(Some(slots))
    }
}

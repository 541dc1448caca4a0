//! Columns of nothing but nulls, which take no memory for them.

ghost use Rattle.std.specs.Prelude.{◌≡◌, ◌<◌, ◌^◌, ◌++◌, ◌∷◌, [], sum, OnOk};
ghost use Rattle.gb_defs.specs.Slices.{or_one};
ghost use Rattle.gb_defs.specs.ColumnType.{Flat, Null};
ghost use Rattle.gb_cols.specs.Null.{AreNulls, counted_part};

use crate::series_trait::SeriesTrait;
use crate::slices::slice_bounds;
use crate::undo_append::UndoAppend;
use gb_base::data_type::{DataType, IsSorted};
use gb_base::error::{PolarsError, PolarsResult};
use gb_base::nullable_idx::IdxSize;
use gb_base::small_str::PlSmallStr;
use gb_values::slot_order::SlotOrder;
use std::alloc::{AllocError, Global};
use std::marker::Model;
use std::mem;

/// A named column of nulls: how many each chunk has, the last one apart, so that there is one always.
pub struct NullChunked {
    name: PlSmallStr,
    earlier: Vec<usize>,
    last: usize,
}

impl Model for NullChunked {
    ghost use Rattle.std.specs.Prelude.{◌++◌, ◌∷◌, ◌<◌, ◌^◌, [], sum};
    ghost use Rattle.gb_defs.specs.Column.{ColumnValue, column_code};
    ghost use Rattle.gb_cols.specs.Null.{null_column};
    ghost use Rattle.gb_base.specs.PlSmallStr.{name_of};

    ghost Value = { ColumnValue };

    ghost coded = { column_code };

    ghost view = { λ c. null_column (name_of c.name) (c.earlier.items ++ c.last ∷ []) };

    ghost invariant = { λ c. sum (c.earlier.items ++ c.last ∷ []) < 2 ^ 63 };
}

impl NullChunked {
    ghost use Rattle.std.specs.Prelude.{◌≡◌, ◌∷◌, ◌<◌, ◌^◌, [], None, length};
    ghost use Rattle.gb_cols.specs.Column.{HasRoom, pushed};
    ghost use Rattle.gb_defs.specs.Slot.{Nil, slot_at};
    ghost use Rattle.gb_cols.specs.Null.{null_column};
    ghost use Rattle.gb_base.specs.PlSmallStr.{name_of};

    /// So many nulls, in one chunk.
    pub fn new(alloc: Global, name: PlSmallStr, len: usize) -> Self
        requires { len < 2 ^ 63 }
        ensures { result ≡ null_column (name_of name) (len ∷ []) }
    {
        NullChunked {
            name,
            earlier: Vec::new(alloc),
            last: len,
        }
    }

    /// The slot of a row: there is never a value.
    pub fn get(&self, _row: usize) -> Option<()>
        requires { _row < length self.now.slots }
        ensures none { result ≡ None }
        ensures null { slot_at self.now.slots _row ≡ Nil }
    {
        // Its clauses say that every slot is null.
        let _ = self.allocator();
        None
    }

    // One null more in the last chunk.
    fn put_null(&mut self)
        requires { HasRoom self.old }
        ensures { self.new ≡ pushed self.old Nil }
    {
        self.last += 1;
    }
}

// How many there are in all.
fn total(counts: &[usize]) -> usize
    requires { sum counts.now < 2 ^ 63 }
    ensures { result ≡ sum counts.now }
{
    counts.iter().sum()
}

// By a call, as every flat column is let go of.
impl Drop for NullChunked {
    fn drop(self) {
        let NullChunked {
            name: _,
            earlier: _,
            last: _,
        } = self;
    }
}

impl SeriesTrait for NullChunked {
    ghost value = { λ c. c };

    fn name(&self) -> &PlSmallStr {
        &self.name
    }

    fn allocator(&self) -> Global
        ensures typed { self.now.dtype ≡ Flat Null }
        ensures nulls { AreNulls self.now.slots }
    {
        *self.earlier.allocator()
    }

    fn rename(&mut self, name: PlSmallStr) {
        self.name = name;
    }

    fn dtype(&self) -> PolarsResult<DataType> {
        // The use of a field brings in what the type says.
        let _ = &self.name;
        Ok(DataType::Null)
    }

    fn len(&self) -> usize {
        total(&self.earlier) + self.last
    }

    fn is_empty(&self) -> bool {
        self.len() == 0
    }

    fn null_count(&self) -> usize {
        let _ = &self.name;
        self.len()
    }

    fn n_chunks(&self) -> usize {
        self.earlier.len() + 1
    }

    fn chunk_lengths(&self) -> PolarsResult<Vec<usize>> {
        let mut lengths = Vec::with_capacity(self.allocator(), self.n_chunks())?;
        lengths.extend_from_slice(&self.earlier)?;
        lengths.push(self.last)?;
        Ok(lengths)
    }

    fn first_non_null(&self) -> Option<usize> {
        let _ = &self.name;
        None
    }

    fn last_non_null(&self) -> Option<usize> {
        let _ = &self.name;
        None
    }

    fn is_valid(&self, _row: usize) -> bool {
        let _ = &self.name;
        false
    }

    fn is_sorted_flag(&self) -> IsSorted {
        let _ = &self.name;
        IsSorted::Not
    }

    // Only what is no order is asked of it.
    fn set_sorted_flag(&mut self, _sorted: IsSorted) {
        let _ = &self.name;
    }

    fn order(&self) -> SlotOrder {
        let _ = &self.name;
        SlotOrder {
            ascending: false,
            descending: false,
        }
    }

    fn push_null(&mut self) -> PolarsResult<()> {
        self.put_null();
        Ok(())
    }

    fn push_cell(
        &mut self,
        cell: &[u8],
        _is_text: bool,
        null_word: &str,
    ) -> Result<bool, AllocError> {
        let _ = &self.name;
        if cell == null_word.as_bytes() {
            self.put_null();
            return Ok(true);
        }
        Ok(false)
    }

    #[tactic(auto, unfolding(gb_defs::specs::Cell::cell_slot))]
    fn reads_cell(&self, cell: &[u8], _is_text: bool, null_word: &str) -> bool {
        let _ = &self.name;
        cell == null_word.as_bytes()
    }

    fn write_cell(&self, _row: usize, null_word: &str, to: &mut Vec<u8>) -> Result<(), AllocError> {
        let _ = &self.name;
        to.extend_from_slice(null_word.as_bytes())?;
        Ok(())
    }

    fn append(&mut self, other: Self) -> PolarsResult<()> {
        let NullChunked {
            name: _,
            earlier: mut later,
            last,
        } = other;
        let Some(chunks) = later.len().checked_add(1) else {
            return Err(PolarsError::NoMemory);
        };
        self.earlier.reserve(chunks)?;
        self.earlier
            .push_reserved(mem::replace(&mut self.last, last));
        self.earlier.append(&mut later)?;
        Ok(())
    }

    fn take(&self, rows: &[IdxSize]) -> PolarsResult<Self> {
        Ok(NullChunked::new(self.allocator(), self.name.try_clone()?, rows.len()))
    }

    fn slice(&self, offset: i64, len: usize) -> PolarsResult<Self> {
        let (mut from, mut to) = slice_bounds(self.len(), offset, len);
        let mut counts = Vec::new(self.allocator());
        for chunk in &self.earlier {
            push_count(&mut counts, *chunk, from, to)?;
            from = from.saturating_sub(*chunk);
            to = to.saturating_sub(*chunk);
        }
        push_count(&mut counts, self.last, from, to)?;
        let last = pop_count(&mut counts);
        Ok(NullChunked {
            name: self.name.try_clone()?,
            earlier: counts,
            last,
        })
    }

    fn rechunk(&self) -> PolarsResult<Self> {
        let name = self.name.try_clone()?;
        Ok(NullChunked::new(self.allocator(), name, self.len()))
    }

    fn try_clone(&self) -> PolarsResult<Self> {
        Ok(NullChunked {
            name: self.name.try_clone()?,
            earlier: Vec::from_slice(self.allocator(), &self.earlier)?,
            last: self.last,
        })
    }

    fn new_from_index(&self, _i: usize, len: usize) -> PolarsResult<Self> {
        let name = self.name.try_clone()?;
        Ok(NullChunked::new(self.allocator(), name, len))
    }
}

impl UndoAppend for NullChunked {
    fn uses_all(&self) -> bool {
        let _ = &self.name;
        false
    }

    fn keep_chunks(&mut self, count: usize) {
        if count <= self.earlier.len() {
            self.earlier.truncate(count);
            self.last = pop_count(&mut self.earlier);
        }
    }
}

// How many of a chunk's places stand from one up to another, as a chunk more, unless there are none.
fn push_count(
    counts: &mut Vec<usize>,
    chunk: usize,
    from: usize,
    to: usize,
) -> Result<(), AllocError>
    ensures { OnOk result (counts.new.items ≡ counts.old.items ++ counted_part from to chunk) }
{
    let end = to.min(chunk);
    if from < end {
        counts.push(end - from)?;
    }
    Ok(())
}

// The last count, taken off the others: 0 where there is none.
fn pop_count(counts: &mut Vec<usize>) -> usize
    ensures { counts.new.items ++ result ∷ [] ≡ or_one 0 counts.old.items }
{
    counts.pop().unwrap_or(0)
}

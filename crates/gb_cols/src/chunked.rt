//! Named columns of any values.

ghost use Rattle.std.specs.Prelude.{◌≡◌, ◌⊎◌, ◌+◌, ◌++◌, ◌∷◌, ◌<◌, ◌^◌, [], true, length, replicate, option_map, IfOk, IfErr, IfSome, OnOk, OnErr};
ghost use Rattle.std.specs.Bool.{OnFalse};
ghost use Rattle.std.specs.Str.{IsUtf8};
ghost use Rattle.gb_defs.specs.Slot.{Nil, slot_at};
ghost use Rattle.gb_cols.specs.Column.{later_place};
ghost use Rattle.gb_values.specs.SlotOrder.{last_slot, later_slot};

use crate::near_chunk::NearChunk;
use crate::primitive::UInt32Chunked;
use crate::series_trait::SeriesTrait;
use crate::slices::{pop_chunk, push_part, slice_bounds};
use crate::undo_append::UndoAppend;
use gb_base::data_type::{DataType, IsSorted};
use gb_base::error::{PolarsError, PolarsResult};
use gb_base::nullable_idx::IdxSize;
use gb_base::small_str::PlSmallStr;
use gb_values::nullable::{NullableArray, Values};
use gb_values::slot_order::{OrderWalk, SlotOrder};
use gb_values::utf8::TextValues;
use std::alloc::{AllocError, Global};
use std::marker::Model;
use std::mem;

/// A named column of any values: its chunks in order, the last one apart, so that there is one always.
pub struct ChunkedArray<V: Values> {
    name: PlSmallStr,
    pub(crate) earlier: Vec<NullableArray<V>>,
    pub(crate) last: NullableArray<V>,
    pub(crate) sorted: IsSorted,
}

pub type IdxCa = UInt32Chunked;

pub type StringChunked = ChunkedArray<TextValues>;

impl<V: Values> Model for ChunkedArray<V> {
    ghost use Rattle.std.specs.Prelude.{◌++◌, ◌∷◌, []};
    ghost use Rattle.gb_defs.specs.Column.{ColumnValue, column_code};
    ghost use Rattle.gb_cols.specs.Column.{column_of, IsSmallColumn};
    ghost use Rattle.gb_base.specs.Sorted.{flag_of};
    ghost use Rattle.gb_base.specs.PlSmallStr.{name_of};

    ghost Value = { ColumnValue };

    ghost coded = { column_code };

    ghost view = { λ c. column_of V.dtype (name_of c.name) (flag_of c.sorted)
        (c.earlier.items ++ c.last ∷ []) };

    ghost invariant = { λ c. IsSmallColumn (column_of V.dtype (name_of c.name)
        (flag_of c.sorted) (c.earlier.items ++ c.last ∷ [])) };
}

// With an impl of its own a column is let go of by a call. With a derive each function that lets go of one
// does so part by part, at each exit.
impl<V: Values> Drop for ChunkedArray<V> {
    fn drop(self) {
        let ChunkedArray {
            name: _,
            earlier: _,
            last: _,
            sorted: _,
        } = self;
    }
}

impl<V: Values> SeriesTrait for ChunkedArray<V> {
    ghost use Rattle.std.specs.Prelude.{◌≡◌};
    ghost use Rattle.gb_base.specs.PlSmallStr.{name_of};

    ghost value = { λ c. c };

    fn name(&self) -> &PlSmallStr
        ensures name { name_of result.now ≡ self.now.name }
        ensures typed { self.now.dtype ≡ V.dtype }
    {
        &self.name
    }

    fn allocator(&self) -> Global
        ensures typed { self.now.dtype ≡ V.dtype }
    {
        *self.earlier.allocator()
    }

    fn rename(&mut self, name: PlSmallStr) {
        self.name = name;
    }

    fn dtype(&self) -> PolarsResult<DataType> {
        // The use of a field brings in the type's invariant.
        let _ = &self.name;
        Ok(V::data_type())
    }

    fn len(&self) -> usize {
        let mut total = 0;
        for chunk in &self.earlier {
            total += chunk.len();
        }
        total + self.last.len()
    }

    fn is_empty(&self) -> bool {
        self.len() == 0
    }

    fn null_count(&self) -> usize {
        let mut total = 0;
        for chunk in &self.earlier {
            total += chunk.null_count();
        }
        total + self.last.null_count()
    }

    fn n_chunks(&self) -> usize {
        self.earlier.len() + 1
    }

    fn chunk_lengths(&self) -> PolarsResult<Vec<usize>> {
        let mut lengths = Vec::with_capacity(self.allocator(), self.n_chunks())?;
        for chunk in &self.earlier {
            lengths.push(chunk.len())?;
        }
        lengths.push(self.last.len())?;
        Ok(lengths)
    }

    fn first_non_null(&self) -> Option<usize> {
        let mut before = 0;
        for chunk in &self.earlier {
            match chunk.first_non_null() {
                Some(place) => return Some(before + place),
                None => before += chunk.len(),
            }
        }
        match self.last.first_non_null() {
            Some(place) => Some(before + place),
            None => None,
        }
    }

    fn last_non_null(&self) -> Option<usize> {
        let mut found = None;
        let mut before = 0;
        for chunk in &self.earlier {
            found = later(found, before, chunk.last_non_null());
            before += chunk.len();
        }
        later(found, before, self.last.last_non_null())
    }

    fn is_valid(&self, row: usize) -> bool {
        let (chunk, place) = self.locate(row);
        chunk.is_valid(place)
    }

    fn is_sorted_flag(&self) -> IsSorted {
        self.sorted
    }

    fn set_sorted_flag(&mut self, sorted: IsSorted) {
        self.sorted = sorted;
    }

    fn order(&self) -> SlotOrder {
        // Its clauses say that each slot fits the type.
        let _ = self.len();
        let mut walk = OrderWalk::new();
        let mut before: Option<&NullableArray<V>> = None;
        for chunk in &self.earlier {
            if !walk.is_open() {
                return walk.found();
            }
            walk = walk.over(before, chunk);
            before = later_chunk(before, chunk);
        }
        walk.over(before, &self.last).found()
    }

    fn push_null(&mut self) -> PolarsResult<()> {
        self.put_null()?;
        Ok(())
    }

    fn push_cell(
        &mut self,
        cell: &[u8],
        is_text: bool,
        null_word: &str,
    ) -> Result<bool, AllocError> {
        if cell == null_word.as_bytes() {
            self.put_null()?;
            return Ok(true);
        }
        self.put_cell(cell, is_text)
    }

    #[tactic(auto, unfolding(gb_defs::specs::Cell::cell_slot))]
    fn reads_cell(&self, cell: &[u8], is_text: bool, null_word: &str) -> bool {
        // The name tells the type.
        let _ = self.name();
        cell == null_word.as_bytes() || V::reads_cell(cell, is_text)
    }

    fn write_cell(&self, row: usize, null_word: &str, to: &mut Vec<u8>) -> Result<(), AllocError> {
        let (chunk, place) = self.locate(row);
        chunk.write_cell(place, null_word, to)
    }

    fn append(&mut self, other: Self) -> PolarsResult<()> {
        let ChunkedArray {
            name: _,
            earlier: mut later,
            last,
            sorted: _,
        } = other;
        // One chunk more than come: the lengths of the chunks are to have a count.
        let Some(chunks) = later.len().checked_add(2) else {
            return Err(PolarsError::NoMemory);
        };
        self.earlier.reserve(chunks)?;
        self.earlier
            .push_reserved(mem::replace(&mut self.last, last));
        self.earlier.append(&mut later)?;
        self.sorted = IsSorted::Not;
        Ok(())
    }

    fn take(&self, rows: &[IdxSize]) -> PolarsResult<Self> {
        let mut taken: NullableArray<V> = NullableArray::empty(self.allocator());
        taken.reserve(rows.len())?;
        let mut near = NearChunk::new(self);
        for row in rows {
            let (chunk, place) = near.locate(*row as usize);
            taken.push_from(chunk, place)?;
        }
        let name = self.name.try_clone()?;
        Ok(ChunkedArray::from_chunk(self.allocator(), name, taken))
    }

    fn slice(&self, offset: i64, len: usize) -> PolarsResult<Self> {
        let (mut from, mut to) = slice_bounds(self.len(), offset, len);
        let mut parts = Vec::new(self.allocator());
        for chunk in &self.earlier {
            push_part(&mut parts, chunk, from, to)?;
            from = from.saturating_sub(chunk.len());
            to = to.saturating_sub(chunk.len());
        }
        push_part(&mut parts, &self.last, from, to)?;
        let last = pop_chunk(&mut parts);
        Ok(ChunkedArray {
            name: self.name.try_clone()?,
            earlier: parts,
            last,
            sorted: self.sorted,
        })
    }

    fn rechunk(&self) -> PolarsResult<Self> {
        let mut whole: NullableArray<V> = NullableArray::empty(self.allocator());
        whole.reserve(self.len())?;
        for chunk in &self.earlier {
            whole.extend_from(chunk, 0, chunk.len())?;
        }
        whole.extend_from(&self.last, 0, self.last.len())?;
        Ok(ChunkedArray {
            name: self.name.try_clone()?,
            earlier: Vec::new(self.allocator()),
            last: whole,
            sorted: self.sorted,
        })
    }

    fn try_clone(&self) -> PolarsResult<Self> {
        let mut earlier = Vec::new(self.allocator());
        earlier.reserve(self.earlier.len())?;
        for chunk in &self.earlier {
            earlier.push(chunk.try_clone()?)?;
        }
        Ok(ChunkedArray {
            name: self.name.try_clone()?,
            earlier,
            last: self.last.try_clone()?,
            sorted: self.sorted,
        })
    }

    fn new_from_index(&self, i: usize, len: usize) -> PolarsResult<Self> {
        let repeated = self.repeated(i, len)?;
        let name = self.name.try_clone()?;
        Ok(ChunkedArray::from_chunk(self.allocator(), name, repeated))
    }
}

impl<V: Values> UndoAppend for ChunkedArray<V> {
    ghost use Rattle.std.specs.Prelude.{◌≡◌, false, true};
    ghost use Rattle.gb_defs.specs.Column.{UsesAll};

    fn uses_all(&self) -> bool
        ensures value { result ≡ self.now.all_used }
        ensures holds { result ≡ true → UsesAll self.now.dtype self.now.slots }
        ensures never { result ≡ false }
    {
        let _ = &self.name;
        false
    }

    fn keep_chunks(&mut self, count: usize) {
        self.sorted = IsSorted::Not;
        if count <= self.earlier.len() {
            self.earlier.truncate(count);
            self.last = pop_chunk(&mut self.earlier);
        }
    }
}

impl<V: Values> ChunkedArray<V> {
    ghost use Rattle.gb_numbers.specs.Taken.{if_taken};
    ghost use Rattle.gb_cols.specs.Column.{HasRoom, column_of, pushed, unflagged};
    ghost use Rattle.gb_base.specs.PlSmallStr.{name_of, IsNoMemory};
    ghost use Rattle.gb_defs.specs.Cell.{value_of_field};
    ghost use Rattle.gb_defs.specs.Column.{fresh_column};

    /// No slots.
    pub fn new(alloc: Global, name: PlSmallStr) -> Self
        ensures { result ≡ fresh_column (name_of name) V.dtype [] }
    {
        ChunkedArray {
            name,
            earlier: Vec::new(alloc),
            last: NullableArray::empty(alloc),
            sorted: IsSorted::Not,
        }
    }

    /// The column of one chunk.
    pub fn from_chunk(alloc: Global, name: PlSmallStr, chunk: NullableArray<V>) -> Self
        ensures { result ≡ fresh_column (name_of name) V.dtype chunk }
    {
        // Its clauses say that the chunk is not too long.
        let _ = chunk.len();
        ChunkedArray {
            name,
            earlier: Vec::new(alloc),
            last: chunk,
            sorted: IsSorted::Not,
        }
    }

    /// So many nulls, in one chunk.
    pub fn full_null(alloc: Global, name: PlSmallStr, len: usize) -> PolarsResult<Self>
        ensures ok { let nulls = replicate len Nil in
            IfOk result (λ c. c ≡ fresh_column (name_of name) V.dtype nulls) }
        ensures err { IfErr result IsNoMemory }
    {
        let nulls = NullableArray::nulls(alloc, len)?;
        Ok(ChunkedArray::from_chunk(alloc, name, nulls))
    }

    /// The column with no flag.
    pub fn unflagged(mut self) -> Self
        ensures value { result ≡ unflagged self }
        ensures typed { self.dtype ≡ V.dtype }
    {
        self.sorted = IsSorted::Not;
        self
    }

    /// Makes room for so many slots more in the last chunk.
    pub fn reserve(&mut self, additional: usize) -> PolarsResult<()>
        ensures same { self.new ≡ self.old }
        ensures err { IfErr result IsNoMemory }
    {
        self.last.reserve(additional)?;
        Ok(())
    }

    /// The chunks: the earlier ones, and the last.
    pub fn chunks(&self) -> (&[NullableArray<V>], &NullableArray<V>)
        ensures { let c = self.now in
            c ≡ column_of c.dtype c.name c.sorted (result.0.now ++ result.1.now ∷ []) }
    {
        (self.earlier.as_slice(), &self.last)
    }

    /// One null more at the end of the last chunk. Its error is small, for what is called for each cell.
    #[inline]
    pub fn put_null(&mut self) -> Result<(), AllocError>
        requires { HasRoom self.old }
        ensures ok { OnOk result (self.new ≡ pushed self.old Nil) }
        ensures unchanged { OnErr result (self.new ≡ self.old) }
    {
        self.last.push_null()?;
        self.sorted = IsSorted::Not;
        Ok(())
    }

    // The value that a cell reads as at the end of the last chunk, and whether it reads.
    #[inline(always)]
    fn put_cell(&mut self, cell: &[u8], is_text: bool) -> Result<bool, AllocError>
        requires room { HasRoom self.old }
        requires is_text { is_text ≡ true → IsUtf8 cell.now }
        ensures ok { IfOk result (λ took. if_taken took self.new
            ≡ option_map (pushed self.old) (value_of_field self.old.dtype cell.now)) }
        ensures refused { IfOk result (λ took. OnFalse took (self.new ≡ self.old)) }
        ensures unchanged { OnErr result (self.new ≡ self.old) }
    {
        if !self.last.push_cell(cell, is_text)? {
            return Ok(false);
        }
        self.sorted = IsSorted::Not;
        Ok(true)
    }

    // The slot of a row so many times.
    fn repeated(&self, i: usize, len: usize) -> Result<NullableArray<V>, AllocError>
        requires { (i < length self.now.slots) ⊎ (len ≡ 0) }
        ensures { IfOk result (λ chunk. chunk ≡ replicate len (slot_at self.now.slots i)) }
    {
        let mut repeated: NullableArray<V> = NullableArray::empty(self.allocator());
        if len == 0 {
            return Ok(repeated);
        }
        let (chunk, place) = self.locate(i);
        repeated.push_times(chunk, place, len)?;
        Ok(repeated)
    }

    // The chunk that a row stands in, and its place there.
    pub(crate) fn locate(&self, row: usize) -> (&NullableArray<V>, usize)
        requires { row < length self.now.slots }
        ensures inside { result.1 < length result.0.now }
        ensures slot { slot_at result.0.now result.1 ≡ slot_at self.now.slots row }
        ensures typed { self.now.dtype ≡ V.dtype }
    {
        let mut place = row;
        for chunk in &self.earlier {
            if place < chunk.len() {
                return (chunk, place);
            }
            place -= chunk.len();
        }
        (&self.last, place)
    }
}

// A place behind so many, or what was found among those where there is none.
fn later(found: Option<usize>, before: usize, place: Option<usize>) -> Option<usize>
    requires { IfSome place (λ k. before + k < 2 ^ 64) }
    ensures { result ≡ later_place found before place }
{
    match place {
        Some(place) => Some(before + place),
        None => found,
    }
}

// A chunk that has a slot, or the last chunk before it that has one.
fn later_chunk<'a, V: Values>(
    before: Option<&'a NullableArray<V>>,
    chunk: &'a NullableArray<V>,
) -> Option<&'a NullableArray<V>>
    requires { IfSome before (λ chunk. 0 < length chunk.now) }
    ensures some { IfSome result (λ chunk. 0 < length chunk.now) }
    ensures slot { last_slot result ≡ later_slot (last_slot before.entry) chunk.now }
{
    if chunk.len() > 0 { Some(chunk) } else { before }
}

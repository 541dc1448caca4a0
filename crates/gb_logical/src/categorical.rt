//! Columns of categories: codes, each of which stands for a text of a map.

ghost use Rattle.std.specs.Prelude.{◌≡◌, ◌<◌, ◌≤◌, ◌↔◌, pos, IsTrue, All, Some, false, true, length, replicate, IfOk, IfErr};
ghost use Rattle.std.specs.Arc.{arc_value};
ghost use Rattle.gb_defs.specs.Column.{ColumnValue, UsesAll, categories_of, fresh_column};
ghost use Rattle.gb_defs.specs.ColumnType.{Flat, uint32};
ghost use Rattle.gb_defs.specs.Slot.{Nil, slot_at};
ghost use Rattle.gb_defs.specs.Table.{category_column};
ghost use Rattle.gb_values.specs.Array.{native_slot};
ghost use Rattle.gb_cols.specs.Codes.{IsCodeBelow};
ghost use Rattle.gb_logical.specs.Categorical.{category_type, coded_as, is_enum_type, is_lexical_type};
ghost use Rattle.gb_base.specs.DataType.{ordering_of};
ghost use Rattle.gb_base.specs.PlSmallStr.{IsNoMemory, name_of};

pub mod builder;
mod codes;

use builder::CategoricalBuilder;
use gb_base::data_type::{CategoricalOrdering, DataType, IsSorted};
use gb_base::error::PolarsResult;
use gb_base::nullable_idx::IdxSize;
use gb_base::rev_mapping::RevMapping;
use gb_base::small_str::PlSmallStr;
use gb_cols::chunked::StringChunked;
use gb_cols::codes::codes_used;
use gb_cols::primitive::UInt32Chunked;
use gb_cols::series_trait::SeriesTrait;
use gb_cols::undo_append::UndoAppend;
use gb_values::slot_order::SlotOrder;
use std::alloc::{AllocError, Global};
use std::marker::Model;
use std::sync::Arc;

/// A column of categories. Its slots are codes, and its type has the text of each.
pub struct CategoricalChunked {
    physical: UInt32Chunked,
    map: Arc<RevMapping>,
    ordering: CategoricalOrdering,
    is_enum: bool,
    all_used: bool,
}

impl Model for CategoricalChunked {
    ghost use Rattle.std.specs.Arc.{arc_value};
    ghost use Rattle.gb_defs.specs.Column.{ColumnValue, column_code};
    ghost use Rattle.gb_defs.specs.ColumnType.{Flat};
    ghost use Rattle.gb_logical.specs.Categorical.{AreCodesOf, category_type, coded_as};
    ghost use Rattle.gb_base.specs.DataType.{ordering_of};

    ghost Value = { ColumnValue };

    ghost coded = { column_code };

    ghost view = { λ c. coded_as
        (Flat (category_type c.is_enum (arc_value c.map) (ordering_of c.ordering)))
        c.all_used c.physical };

    ghost invariant = { λ c. AreCodesOf (arc_value c.map) c.physical c.all_used };
}

// By a call, as every flat column is let go of.
impl Drop for CategoricalChunked {
    fn drop(self) {
        let CategoricalChunked {
            physical: _,
            map: _,
            ordering: _,
            is_enum: _,
            all_used: _,
        } = self;
    }
}

impl CategoricalChunked {
    /// The texts of a column as categories, with codes by the order in which they first stand. They are
    /// hashed under the seed, of which no code depends.
    pub fn from_strings(
        texts: &StringChunked,
        ordering: CategoricalOrdering,
        seed: u64,
    ) -> PolarsResult<CategoricalChunked>
        requires { length texts.now.slots ≤ 4294967295 }
        ensures ok { IfOk result (λ c.
            c ≡ category_column texts.now.name (ordering_of ordering) texts.now.slots) }
        ensures err { IfErr result IsNoMemory }
    {
        let name = texts.name().try_clone()?;
        let mut builder = CategoricalBuilder::new(texts.allocator(), name, ordering, seed);
        builder.push_texts(texts)?;
        builder.finish()
    }

    /// The codes of a column with the texts of a map.
    pub fn from_codes(
        codes: UInt32Chunked,
        map: Arc<RevMapping>,
        ordering: CategoricalOrdering,
        is_enum: bool,
    ) -> CategoricalChunked
        requires { All (IsCodeBelow (length (arc_value map))) codes.slots }
        ensures { let t = category_type is_enum (arc_value map) (ordering_of ordering) in
            result ≡ coded_as (Flat t) false codes }
    {
        // The name tells the type.
        let _ = codes.name();
        CategoricalChunked {
            physical: codes,
            map,
            ordering,
            is_enum,
            all_used: false,
        }
    }

    /// So many nulls, with the texts of a map.
    pub fn full_null(
        alloc: Global,
        name: PlSmallStr,
        len: usize,
        map: Arc<RevMapping>,
        ordering: CategoricalOrdering,
        is_enum: bool,
    ) -> PolarsResult<CategoricalChunked>
        ensures ok { let t = Flat (category_type is_enum (arc_value map) (ordering_of ordering)) in
            IfOk result (λ c. c ≡ fresh_column (name_of name) t (replicate len Nil)) }
        ensures err { IfErr result IsNoMemory }
    {
        let codes = UInt32Chunked::full_null(alloc, name, len)?;
        Ok(CategoricalChunked::from_codes(codes, map, ordering, is_enum))
    }

    /// The codes.
    pub fn physical(&self) -> &UInt32Chunked
        ensures column { self.now ≡ coded_as self.now.dtype self.now.all_used result.now }
        ensures typed { result.now.dtype ≡ uint32 }
    {
        &self.physical
    }

    /// The code of a row.
    pub fn get(&self, row: usize) -> Option<u32>
        requires { row < length self.now.slots }
        ensures { native_slot (λ n. pos n) result ≡ slot_at self.now.slots row }
    {
        self.physical.get(row)
    }

    /// The text of each code.
    pub fn get_rev_map(&self) -> &Arc<RevMapping>
        ensures { categories_of self.now.dtype ≡ Some (arc_value result.now) }
    {
        &self.map
    }

    /// Whether slots compare by their texts, where that is asked.
    pub fn uses_lexical_ordering(&self) -> bool
        ensures { result ≡ is_lexical_type self.now.dtype }
    {
        self.ordering == CategoricalOrdering::Lexical
    }

    pub fn is_enum(&self) -> bool
        ensures { result ≡ is_enum_type self.now.dtype }
    {
        self.is_enum
    }

    /// Whether every code is known to occur.
    pub fn _can_fast_unique(&self) -> bool
        ensures value { result ≡ self.now.all_used }
        ensures holds { result ≡ true → UsesAll self.now.dtype self.now.slots }
    {
        self.all_used
    }

    /// Whether every code occurs. One pass over the codes for each 16,384 texts; it takes no memory.
    pub fn check_all_used(&self) -> bool
        ensures { IsTrue result ↔ UsesAll self.now.dtype self.now.slots }
    {
        codes_used(&self.physical, self.map.len())
    }

    /// Notes that every code occurs.
    pub fn set_all_used(&mut self)
        requires { UsesAll self.old.dtype self.old.slots }
        ensures { self.new ≡ record self.old { all_used = true } }
    {
        self.all_used = true;
    }
}

impl SeriesTrait for CategoricalChunked {
    ghost value = { λ c. c };

    fn name(&self) -> &PlSmallStr {
        self.physical.name()
    }

    fn allocator(&self) -> Global {
        self.physical.allocator()
    }

    fn rename(&mut self, name: PlSmallStr) {
        self.physical.rename(name)
    }

    fn dtype(&self) -> PolarsResult<DataType> {
        let map = Some(Arc::try_clone(&self.map)?);
        if self.is_enum {
            Ok(DataType::Enum(map, self.ordering))
        } else {
            Ok(DataType::Categorical(map, self.ordering))
        }
    }

    fn len(&self) -> usize {
        self.physical.len()
    }

    fn is_empty(&self) -> bool {
        self.physical.is_empty()
    }

    fn null_count(&self) -> usize {
        self.physical.null_count()
    }

    fn n_chunks(&self) -> usize {
        self.physical.n_chunks()
    }

    fn chunk_lengths(&self) -> PolarsResult<Vec<usize>> {
        self.physical.chunk_lengths()
    }

    fn first_non_null(&self) -> Option<usize> {
        self.physical.first_non_null()
    }

    fn last_non_null(&self) -> Option<usize> {
        self.physical.last_non_null()
    }

    fn is_valid(&self, row: usize) -> bool {
        self.physical.is_valid(row)
    }

    fn is_sorted_flag(&self) -> IsSorted {
        self.physical.is_sorted_flag()
    }

    fn set_sorted_flag(&mut self, sorted: IsSorted) {
        self.physical.set_sorted_flag(sorted)
    }

    fn order(&self) -> SlotOrder {
        self.physical.order()
    }

    fn push_null(&mut self) -> PolarsResult<()> {
        self.physical.push_null()?;
        self.all_used = false;
        Ok(())
    }

    // A cell reads as its text, and no slot is a text.
    fn push_cell(
        &mut self,
        _cell: &[u8],
        _is_text: bool,
        _null_word: &str,
    ) -> Result<bool, AllocError> {
        let _ = &self.physical;
        unreachable!()
    }

    // As for `push_cell`.
    fn reads_cell(&self, _cell: &[u8], _is_text: bool, _null_word: &str) -> bool {
        let _ = &self.physical;
        unreachable!()
    }

    fn write_cell(&self, row: usize, null_word: &str, to: &mut Vec<u8>) -> Result<(), AllocError> {
        match self.physical.get(row) {
            Some(code) => to.extend_from_slice(self.map.get(code).as_bytes())?,
            None => to.extend_from_slice(null_word.as_bytes())?,
        }
        Ok(())
    }

    fn append(&mut self, other: Self) -> PolarsResult<()> {
        let CategoricalChunked {
            physical,
            map: _,
            ordering: _,
            is_enum: _,
            all_used: _,
        } = other;
        self.physical.append(physical)?;
        self.all_used = false;
        Ok(())
    }

    fn take(&self, rows: &[IdxSize]) -> PolarsResult<Self> {
        Ok(CategoricalChunked {
            physical: self.physical.take(rows)?,
            map: Arc::try_clone(&self.map)?,
            ordering: self.ordering,
            is_enum: self.is_enum,
            all_used: false,
        })
    }

    fn slice(&self, offset: i64, len: usize) -> PolarsResult<Self> {
        Ok(CategoricalChunked {
            physical: self.physical.slice(offset, len)?,
            map: Arc::try_clone(&self.map)?,
            ordering: self.ordering,
            is_enum: self.is_enum,
            all_used: false,
        })
    }

    fn rechunk(&self) -> PolarsResult<Self> {
        Ok(CategoricalChunked {
            physical: self.physical.rechunk()?,
            map: Arc::try_clone(&self.map)?,
            ordering: self.ordering,
            is_enum: self.is_enum,
            all_used: self.all_used,
        })
    }

    fn try_clone(&self) -> PolarsResult<Self> {
        Ok(CategoricalChunked {
            physical: self.physical.try_clone()?,
            map: Arc::try_clone(&self.map)?,
            ordering: self.ordering,
            is_enum: self.is_enum,
            all_used: self.all_used,
        })
    }

    fn new_from_index(&self, i: usize, len: usize) -> PolarsResult<Self> {
        Ok(CategoricalChunked {
            physical: self.physical.new_from_index(i, len)?,
            map: Arc::try_clone(&self.map)?,
            ordering: self.ordering,
            is_enum: self.is_enum,
            all_used: false,
        })
    }
}

impl UndoAppend for CategoricalChunked {
    fn uses_all(&self) -> bool {
        self.all_used
    }

    fn keep_chunks(&mut self, count: usize) {
        self.physical.keep_chunks(count);
        self.all_used = false;
    }
}

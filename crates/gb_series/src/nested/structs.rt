//! Columns of structs.

ghost use Rattle.std.specs.Prelude.{◌≡◌, ◌<◌, ◌^◌, ◌∷◌, [], length, map, None, IfOk, IfErr, OnOk, OnErr};
ghost use Rattle.gb_base.specs.PlSmallStr.{name_of, IsNoMemory};
ghost use Rattle.gb_base.specs.PolarsError.{Explains};
ghost use Rattle.gb_cols.specs.Column.{HasRoom, pushed};
ghost use Rattle.gb_cols.specs.Null.{null_column};
ghost use Rattle.gb_defs.specs.ColumnType.{StructOf};
ghost use Rattle.gb_defs.specs.Slot.{Nil};
ghost use Rattle.gb_series.specs.Series.{value_of};
ghost use Rattle.gb_series.specs.Structs.{AreFieldsOf, fields_in, struct_column, struct_fault};

use crate::frame::{all_have_length, repeated_name};
use crate::nested::fields::{
    append_fields, clone_fields, field_types, lengthen_fields, rechunk_fields, slice_fields,
    take_fields, tell_fitting,
};
use crate::nested::rows::{
    first_present, flags_at, last_present, null_count, push_flags, rows_joined, slice_bounds,
};
use crate::nested::text::write_fields;
use crate::series::Series;
use gb_base::data_type::{DataType, IsSorted};
use gb_base::error::{PolarsError, PolarsResult};
use gb_base::nullable_idx::IdxSize;
use gb_base::small_str::PlSmallStr;
use gb_cols::null::NullChunked;
use gb_cols::series_trait::SeriesTrait;
use gb_cols::undo_append::UndoAppend;
use gb_values::slot_order::SlotOrder;
use std::alloc::{AllocError, Global};
use std::marker::Model;

/// A named column of structs: a column for each field, and which rows are null. A column of nulls has the name
/// and tells the rows of each chunk. A field may be longer, where a call wanted memory half way: what stands
/// behind the rows is not seen.
#[derive(Drop)]
#[cycle(series)]
pub struct StructChunked {
    rows: NullChunked,
    present: Vec<bool>,
    fields: Vec<Series>,
}

impl Model for StructChunked {
    ghost use Rattle.gb_defs.specs.Column.{ColumnValue, column_code};

    ghost Value = { ColumnValue };

    ghost coded = { column_code };

    ghost use Rattle.std.specs.Prelude.{map};
    ghost use Rattle.gb_series.specs.Depth.{depth};
    ghost use Rattle.gb_series.specs.Series.{value_of};
    ghost use Rattle.gb_series.specs.Structs.{IsStruct, struct_column};

    ghost view = { λ c. struct_column c.rows c.present.items (map value_of c.fields.items) };

    ghost invariant = { λ c. IsStruct c.rows c.present.items (map value_of c.fields.items) };

    ghost size = { λ c. depth c.dtype };

    ghost use Rattle.gb_series.specs.Falls.{fields_fall};

    ghost size_decreases = { λ c h. fields_fall c.fields.items };
}

impl SeriesTrait for StructChunked {
    ghost value = { λ c. c };

    fn name(&self) -> &PlSmallStr {
        self.rows.name()
    }

    fn allocator(&self) -> Global {
        self.rows.allocator()
    }

    fn rename(&mut self, name: PlSmallStr) {
        self.rows.rename(name)
    }

    #[cycle(dtype)]
    #[tactic(auto, using(gb_base::proofs::DataTypeLemmas::struct_type))]
    fn dtype(&self) -> PolarsResult<DataType> {
        Ok(DataType::Struct(field_types(&self.fields, self.rows.allocator())?))
    }

    #[cycle(len)]
    fn len(&self) -> usize {
        tell_fitting(&self.fields);
        self.rows.len()
    }

    fn is_empty(&self) -> bool {
        self.len() == 0
    }

    fn null_count(&self) -> usize {
        null_count(&self.present)
    }

    fn n_chunks(&self) -> usize {
        self.rows.n_chunks()
    }

    fn chunk_lengths(&self) -> PolarsResult<Vec<usize>> {
        self.rows.chunk_lengths()
    }

    fn first_non_null(&self) -> Option<usize> {
        first_present(&self.present)
    }

    fn last_non_null(&self) -> Option<usize> {
        last_present(&self.present)
    }

    fn is_valid(&self, row: usize) -> bool {
        self.present[row]
    }

    // Structs are never flagged.
    fn is_sorted_flag(&self) -> IsSorted {
        let _ = &self.rows;
        IsSorted::Not
    }

    // Only what is no order is asked of it.
    fn set_sorted_flag(&mut self, _sorted: IsSorted) {
        let _ = &self.rows;
    }

    fn order(&self) -> SlotOrder {
        let _ = &self.rows;
        SlotOrder {
            ascending: false,
            descending: false,
        }
    }

    #[cycle(push_null)]
    fn push_null(&mut self) -> PolarsResult<()> {
        self.put_null()?;
        Ok(())
    }

    fn push_cell(
        &mut self,
        cell: &[u8],
        _is_text: bool,
        null_word: &str,
    ) -> Result<bool, AllocError> {
        let _ = &self.rows;
        if cell == null_word.as_bytes() {
            self.put_null()?;
            return Ok(true);
        }
        Ok(false)
    }

    #[tactic(auto, unfolding(gb_defs::specs::Cell::cell_slot))]
    fn reads_cell(&self, cell: &[u8], _is_text: bool, null_word: &str) -> bool {
        let _ = &self.rows;
        cell == null_word.as_bytes()
    }

    #[cycle(write_cell)]
    fn write_cell(&self, row: usize, null_word: &str, to: &mut Vec<u8>) -> Result<(), AllocError> {
        if !self.present[row] {
            to.extend_from_slice(null_word.as_bytes())?;
            return Ok(());
        }
        write_fields(&self.fields, row, to)?;
        Ok(())
    }

    #[cycle(append)]
    fn append(&mut self, other: Self) -> PolarsResult<()> {
        let StructChunked {
            rows,
            present,
            fields,
        } = other;
        let count = self.present.len();
        let more = present.len();
        self.present.reserve(more)?;
        let joined = rows_joined(&self.rows, rows)?;
        append_fields(&mut self.fields, fields, count, more)?;
        self.rows = joined;
        push_flags(&mut self.present, &present);
        Ok(())
    }

    #[cycle(take)]
    fn take(&self, rows: &[IdxSize]) -> PolarsResult<Self> {
        let alloc = self.rows.allocator();
        Ok(StructChunked {
            rows: self.rows.take(rows)?,
            present: flags_at(alloc, &self.present, rows)?,
            fields: take_fields(&self.fields, rows, alloc)?,
        })
    }

    #[cycle(slice)]
    fn slice(&self, offset: i64, len: usize) -> PolarsResult<Self> {
        let alloc = self.rows.allocator();
        let (from, to) = slice_bounds(self.rows.len(), offset, len);
        let to = to.max(from);
        Ok(StructChunked {
            rows: self.rows.slice(offset, len)?,
            present: Vec::from_slice(alloc, &self.present.as_slice()[from..to])?,
            fields: slice_fields(&self.fields, from as i64, to - from, alloc)?,
        })
    }

    #[cycle(rechunk)]
    fn rechunk(&self) -> PolarsResult<Self> {
        let alloc = self.rows.allocator();
        Ok(StructChunked {
            rows: self.rows.rechunk()?,
            present: Vec::from_slice(alloc, &self.present)?,
            fields: rechunk_fields(&self.fields, alloc)?,
        })
    }

    #[cycle(try_clone)]
    fn try_clone(&self) -> PolarsResult<Self> {
        let alloc = self.rows.allocator();
        Ok(StructChunked {
            rows: self.rows.try_clone()?,
            present: Vec::from_slice(alloc, &self.present)?,
            fields: clone_fields(&self.fields, alloc)?,
        })
    }

    fn new_from_index(&self, i: usize, len: usize) -> PolarsResult<Self> {
        let Ok(row) = IdxSize::try_from(i) else {
            return Err(PolarsError::NoMemory);
        };
        let mut rows = Vec::new(self.rows.allocator());
        rows.resize(len, row)?;
        let repeated = self.take(&rows)?;
        Ok(repeated)
    }
}

impl UndoAppend for StructChunked {
    fn uses_all(&self) -> bool {
        let _ = &self.rows;
        false
    }

    fn keep_chunks(&mut self, count: usize) {
        self.rows.keep_chunks(count);
        let kept = self.rows.len();
        self.present.truncate(kept);
    }
}

impl StructChunked {
    /// The structs of these fields, in one chunk. A row is null where it is not present, whatever its fields hold.
    /// Two fields of one name are refused, and then fields that are not as long as the rows.
    pub fn from_fields(
        name: PlSmallStr,
        present: Vec<bool>,
        fields: Vec<Series>,
    ) -> PolarsResult<StructChunked>
        requires { length present.items < 2 ^ 63 }
        ensures ok { let rows = null_column (name_of name) (length present.items ∷ []) in
            IfOk result (λ c. c ≡ struct_column rows present.items (map value_of fields.items)) }
        ensures sound { let frame = map value_of fields.items in
            IfOk result (λ _. struct_fault (length present.items) frame ≡ None) }
        ensures err { let fault = struct_fault (length present.items) (map value_of fields.items) in
            IfErr result (λ e. Explains e fault) }
    {
        if let Some(name) = repeated_name(&fields)? {
            return Err(PolarsError::Duplicate(name.try_clone()?));
        }
        if !all_have_length(&fields, present.len()) {
            return Err(PolarsError::ShapeMismatch);
        }
        let rows = NullChunked::new(*present.allocator(), name, present.len());
        Ok(StructChunked {
            rows,
            present,
            fields,
        })
    }

    /// The fields, in order. A field may be longer than the column: only its first rows are those of the structs.
    pub fn fields(&self) -> &[Series]
        ensures { AreFieldsOf self.now (map value_of result.now) }
    {
        &self.fields
    }

    /// That the column is one of structs.
    pub fn tell_type(&self)
        ensures { self.now.dtype ≡ StructOf (fields_in self.now.dtype) }
    {
        let _ = &self.rows;
    }

    // One null more. Its error is small, for what is called for each cell.
    #[cycle(push_null)]
    fn put_null(&mut self) -> Result<(), AllocError>
        requires { HasRoom self.old }
        ensures ok { OnOk result (self.new ≡ pushed self.old Nil) }
        ensures unchanged { OnErr result (self.new ≡ self.old) }
    {
        let count = self.present.len();
        self.present.reserve(1)?;
        if !lengthen_fields(&mut self.fields, count) {
            return Err(AllocError);
        }
        let Ok(()) = self.rows.push_null() else {
            return Err(AllocError);
        };
        self.present.push_reserved(false);
        Ok(())
    }
}

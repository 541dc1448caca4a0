//! Columns of numbers that mean something else: dates, times, spans and decimals. Each meaning is a file.

ghost use Rattle.std.specs.Prelude.{◌≡◌, ◌++◌, ◌<◌, length, true, false, option_map, IfOk, IfErr, OnOk};
ghost use Rattle.gb_defs.specs.Cell.{flat_value};
ghost use Rattle.gb_defs.specs.CellText.{number_text};
ghost use Rattle.gb_defs.specs.ColumnType.{FlatType, Flat};
ghost use Rattle.gb_defs.specs.Fault.{sums_flat};
ghost use Rattle.gb_defs.specs.Slot.{Num, slot_at};
ghost use Rattle.gb_values.specs.Array.{native_slot};
ghost use Rattle.gb_cols.specs.Column.{ReadsCells};
ghost use Rattle.gb_base.specs.DataType.{type_of};
ghost use Rattle.gb_values.specs.Keys.{AreWide, AreWords};
ghost use Rattle.gb_logical.specs.Logical.{StandsFor, SumsAs, flat_in, logical_column, typed_as};
ghost use Rattle.gb_numbers.specs.Native.{is_wide};
ghost use Rattle.gb_base.specs.PlSmallStr.{IsNoMemory};

mod date;
mod datetime;
mod decimal;
mod duration;
mod time;

pub use date::{DateChunked, DateKind};
pub use datetime::{DatetimeChunked, DatetimeKind};
pub use decimal::{DecimalChunked, DecimalKind};
pub use duration::{DurationChunked, DurationKind};
use gb_base::data_type::{DataType, IsSorted};
use gb_base::error::PolarsResult;
use gb_base::nullable_idx::IdxSize;
use gb_base::small_str::PlSmallStr;
use gb_cols::chunked::ChunkedArray;
use gb_cols::series_trait::SeriesTrait;
use gb_cols::undo_append::UndoAppend;
use gb_numbers::numeric::PolarsNumericType;
use gb_values::primitive::NumberValues;
use gb_values::slot_order::SlotOrder;
use std::alloc::{AllocError, Global};
use std::marker::Model;
pub use time::{TimeChunked, TimeKind};

/// What the numbers of a column mean.
pub trait LogicalKind: Copy {
    /// What the numbers are stored as.
    type Physical: PolarsNumericType;

    // The type of a column of this meaning.
    ghost flat: { Self → FlatType };

    fn data_type(&self) -> DataType
        ensures { type_of result ≡ Flat (flat self.now) };

    /// The number that a cell of a table reads as.
    fn read(&self, cell: &[u8]) -> Option<<Self::Physical as PolarsNumericType>::Native>
        ensures { option_map (λ n. Num (Self.Physical.Native.number n)) result
            ≡ flat_value (flat self.now) cell.now };

    /// The text of a number, behind what is there.
    fn write(
        &self,
        number: <Self::Physical as PolarsNumericType>::Native,
        to: &mut Vec<u8>,
    ) -> Result<(), AllocError>
        ensures { let n = Self.Physical.Native.number number in
            OnOk result (to.new.items ≡ to.old.items ++ number_text (Flat (flat self.now)) n) };

    /// Whether a column of this meaning has sums.
    fn has_sum(&self) -> bool
        ensures { result ≡ sums_flat (flat self.now) };

    // The stored numbers may stand for it.
    ghost stands: { (kind : Self) → StandsFor Self.Physical.Native.flat (flat kind) };

    // Its sums are those of the stored numbers.
    ghost sums: { (kind : Self) → sums_flat (flat kind) ≡ true
        → SumsAs Self.Physical.Native.flat (flat kind) };
}

/// A column of numbers that mean something else: a date, a time, a span, a decimal.
pub struct Logical<K: LogicalKind> {
    physical: ChunkedArray<NumberValues<K::Physical>>,
    kind: K,
}

impl<K: LogicalKind> Model for Logical<K> {
    ghost use Rattle.std.specs.Prelude.{◌≡◌};
    ghost use Rattle.gb_defs.specs.Column.{ColumnValue, column_code};
    ghost use Rattle.gb_defs.specs.ColumnType.{Flat};
    ghost use Rattle.gb_logical.specs.Logical.{typed_as};

    ghost Value = { ColumnValue };

    ghost coded = { column_code };

    ghost view = { λ c. typed_as (Flat (K.flat c.kind)) c.physical };

    ghost invariant = { λ c. c.physical.dtype ≡ Flat K.Physical.Native.flat };
}

// By a call, as every flat column is let go of.
impl<K: LogicalKind> Drop for Logical<K> {
    fn drop(self) {
        let Logical {
            physical: _,
            kind: _,
        } = self;
    }
}

impl<K: LogicalKind> Logical<K> {
    /// The numbers of a column, with a meaning.
    pub fn with_kind(physical: ChunkedArray<NumberValues<K::Physical>>, kind: K) -> Self
        ensures { result ≡ logical_column (K.flat kind) physical }
    {
        Logical {
            physical: physical.unflagged(),
            kind,
        }
    }

    /// What the numbers mean.
    pub fn kind(&self) -> K
        ensures kind { self.now.dtype ≡ Flat (K.flat result) }
        ensures reads { ReadsCells self.now.dtype }
    {
        self.kind
    }

    /// The numbers.
    pub fn physical(&self) -> &ChunkedArray<NumberValues<K::Physical>>
        ensures column { self.now ≡ typed_as self.now.dtype result.now }
        ensures typed { result.now.dtype ≡ Flat K.Physical.Native.flat }
    {
        &self.physical
    }

    /// The number of a row.
    pub fn get(&self, row: usize) -> Option<<K::Physical as PolarsNumericType>::Native>
        requires { row < length self.now.slots }
        ensures { native_slot K.Physical.Native.number result ≡ slot_at self.now.slots row }
    {
        self.physical.get(row)
    }

    /// The numbers as words of 64 bits, null as `None`. One pass over the chunks.
    pub fn words(&self) -> PolarsResult<Vec<Option<u64>>>
        requires narrow { is_wide K.Physical.Native.width ≡ false }
        ensures ok { let t = flat_in self.now.dtype in
            IfOk result (λ keys. AreWords t self.now.slots keys.items) }
        ensures err { IfErr result IsNoMemory }
    {
        self.physical.words()
    }

    /// The numbers as words of 128 bits, null as `None`. One pass over the chunks.
    pub fn wide_words(&self) -> PolarsResult<Vec<Option<u128>>>
        ensures ok { let t = flat_in self.now.dtype in
            IfOk result (λ keys. AreWide t self.now.slots keys.items) }
        ensures err { IfErr result IsNoMemory }
    {
        self.physical.wide_words()
    }
}

impl<K: LogicalKind> SeriesTrait for Logical<K> {
    ghost value = { λ c. c };

    fn name(&self) -> &PlSmallStr {
        self.physical.name()
    }

    fn allocator(&self) -> Global {
        self.physical.allocator()
    }

    fn rename(&mut self, name: PlSmallStr) {
        self.physical.rename(name)
    }

    fn dtype(&self) -> PolarsResult<DataType> {
        Ok(self.kind.data_type())
    }

    fn len(&self) -> usize {
        self.physical.len()
    }

    fn is_empty(&self) -> bool {
        self.physical.is_empty()
    }

    fn null_count(&self) -> usize {
        self.physical.null_count()
    }

    fn n_chunks(&self) -> usize {
        self.physical.n_chunks()
    }

    fn chunk_lengths(&self) -> PolarsResult<Vec<usize>> {
        self.physical.chunk_lengths()
    }

    fn first_non_null(&self) -> Option<usize> {
        self.physical.first_non_null()
    }

    fn last_non_null(&self) -> Option<usize> {
        self.physical.last_non_null()
    }

    fn is_valid(&self, row: usize) -> bool {
        self.physical.is_valid(row)
    }

    fn is_sorted_flag(&self) -> IsSorted {
        self.physical.is_sorted_flag()
    }

    fn set_sorted_flag(&mut self, sorted: IsSorted) {
        self.physical.set_sorted_flag(sorted)
    }

    fn order(&self) -> SlotOrder {
        self.physical.order()
    }

    fn push_null(&mut self) -> PolarsResult<()> {
        self.physical.push_null()
    }

    fn push_cell(
        &mut self,
        cell: &[u8],
        _is_text: bool,
        null_word: &str,
    ) -> Result<bool, AllocError> {
        if cell == null_word.as_bytes() {
            self.physical.put_null()?;
            return Ok(true);
        }
        match self.kind.read(cell) {
            Some(number) => {
                self.physical.put(Some(number))?;
                Ok(true)
            }
            None => Ok(false),
        }
    }

    #[tactic(auto, unfolding(gb_defs::specs::Cell::cell_slot))]
    fn reads_cell(&self, cell: &[u8], _is_text: bool, null_word: &str) -> bool {
        cell == null_word.as_bytes() || self.kind.read(cell).is_some()
    }

    fn write_cell(&self, row: usize, null_word: &str, to: &mut Vec<u8>) -> Result<(), AllocError> {
        match self.physical.get(row) {
            Some(number) => self.kind.write(number, to),
            None => {
                to.extend_from_slice(null_word.as_bytes())?;
                Ok(())
            }
        }
    }

    fn append(&mut self, other: Self) -> PolarsResult<()> {
        let Logical { physical, kind: _ } = other;
        self.physical.append(physical)
    }

    fn take(&self, rows: &[IdxSize]) -> PolarsResult<Self> {
        Ok(Logical {
            physical: self.physical.take(rows)?,
            kind: self.kind,
        })
    }

    fn slice(&self, offset: i64, len: usize) -> PolarsResult<Self> {
        Ok(Logical {
            physical: self.physical.slice(offset, len)?,
            kind: self.kind,
        })
    }

    fn rechunk(&self) -> PolarsResult<Self> {
        Ok(Logical {
            physical: self.physical.rechunk()?,
            kind: self.kind,
        })
    }

    fn try_clone(&self) -> PolarsResult<Self> {
        Ok(Logical {
            physical: self.physical.try_clone()?,
            kind: self.kind,
        })
    }

    fn new_from_index(&self, i: usize, len: usize) -> PolarsResult<Self> {
        Ok(Logical {
            physical: self.physical.new_from_index(i, len)?,
            kind: self.kind,
        })
    }
}

impl<K: LogicalKind> UndoAppend for Logical<K> {
    fn uses_all(&self) -> bool {
        self.physical.uses_all()
    }

    fn keep_chunks(&mut self, count: usize) {
        self.physical.keep_chunks(count)
    }
}

//! A column of any type.

ghost use Rattle.std.specs.Prelude.{◌≡◌};

use crate::nested::array::ArrayChunked;
use crate::nested::list::ListChunked;
use crate::nested::structs::StructChunked;
use gb_base::data_type::{DataType, IsSorted};
use gb_base::error::PolarsResult;
use gb_base::nullable_idx::IdxSize;
use gb_base::small_str::PlSmallStr;
use gb_cols::series_trait::SeriesTrait;
use gb_cols::undo_append::UndoAppend;
use gb_flat_series::series::FlatSeries;
use gb_values::slot_order::SlotOrder;
use std::alloc::{AllocError, Global};

/// A named column of any type.
#[derive(Drop)]
#[cycle(series)]
pub enum Series {
    Flat(FlatSeries),
    List(Box<ListChunked>),
    Array(Box<ArrayChunked>),
    Struct(Box<StructChunked>),
}

pub type Column = Series;

// What a call gives on the column that a series holds.
macro_rules! of_series {
    ($series:expr, $column:ident => $call:expr) => {
        match $series {
            Series::Flat($column) => $call,
            Series::List($column) => $call,
            Series::Array($column) => $call,
            Series::Struct($column) => $call,
        }
    };
}

// The series of what a call gives on the column that a series holds.
macro_rules! map_series {
    ($series:expr, $column:ident => $call:expr) => {
        match $series {
            Series::Flat($column) => Series::Flat($call),
            Series::List($column) => Series::List(Box::new(*Box::allocator($column), $call)?),
            Series::Array($column) => Series::Array(Box::new(*Box::allocator($column), $call)?),
            Series::Struct($column) => Series::Struct(Box::new(*Box::allocator($column), $call)?),
        }
    };
}

// What appending gives where both columns are in a box of one variant.
macro_rules! append_boxed {
    ($variant:ident, $column:expr, $other:expr) => {
        match $other {
            Series::$variant(other) => $column.append(Box::into_inner(other)),
            // A type is that of one variant.
            _ => unreachable!(),
        }
    };
}

impl SeriesTrait for Series {
    ghost use Rattle.gb_series.specs.Series.{value_of};

    ghost value = { value_of };

    fn name(&self) -> &PlSmallStr {
        of_series!(self, column => column.name())
    }

    fn allocator(&self) -> Global {
        of_series!(self, column => column.allocator())
    }

    fn rename(&mut self, name: PlSmallStr) {
        of_series!(self, column => column.rename(name))
    }

    #[cycle(dtype)]
    fn dtype(&self) -> PolarsResult<DataType> {
        of_series!(self, column => column.dtype())
    }

    #[cycle(len)]
    fn len(&self) -> usize {
        of_series!(self, column => column.len())
    }

    fn is_empty(&self) -> bool {
        self.len() == 0
    }

    fn null_count(&self) -> usize {
        of_series!(self, column => column.null_count())
    }

    fn n_chunks(&self) -> usize {
        of_series!(self, column => column.n_chunks())
    }

    fn chunk_lengths(&self) -> PolarsResult<Vec<usize>> {
        of_series!(self, column => column.chunk_lengths())
    }

    fn first_non_null(&self) -> Option<usize> {
        of_series!(self, column => column.first_non_null())
    }

    fn last_non_null(&self) -> Option<usize> {
        of_series!(self, column => column.last_non_null())
    }

    fn is_valid(&self, row: usize) -> bool {
        of_series!(self, column => column.is_valid(row))
    }

    fn is_sorted_flag(&self) -> IsSorted {
        of_series!(self, column => column.is_sorted_flag())
    }

    fn set_sorted_flag(&mut self, sorted: IsSorted) {
        of_series!(self, column => column.set_sorted_flag(sorted))
    }

    fn order(&self) -> SlotOrder {
        of_series!(self, column => column.order())
    }

    #[cycle(push_null)]
    fn push_null(&mut self) -> PolarsResult<()> {
        of_series!(self, column => column.push_null())
    }

    #[inline(always)]
    fn push_cell(
        &mut self,
        cell: &[u8],
        is_text: bool,
        null_word: &str,
    ) -> Result<bool, AllocError> {
        of_series!(self, column => column.push_cell(cell, is_text, null_word))
    }

    fn reads_cell(&self, cell: &[u8], is_text: bool, null_word: &str) -> bool {
        of_series!(self, column => column.reads_cell(cell, is_text, null_word))
    }

    #[cycle(write_cell)]
    fn write_cell(&self, row: usize, null_word: &str, to: &mut Vec<u8>) -> Result<(), AllocError> {
        of_series!(self, column => column.write_cell(row, null_word, to))
    }

    #[cycle(append)]
    fn append(&mut self, other: Series) -> PolarsResult<()> {
        self.tell_variant();
        other.tell_variant();
        match self {
            Series::Flat(column) => match other {
                Series::Flat(other) => column.append(other),
                _ => unreachable!(),
            },
            Series::List(column) => append_boxed!(List, column, other),
            Series::Array(column) => append_boxed!(Array, column, other),
            Series::Struct(column) => append_boxed!(Struct, column, other),
        }
    }

    #[cycle(take)]
    fn take(&self, rows: &[IdxSize]) -> PolarsResult<Series> {
        Ok(map_series!(self, column => column.take(rows)?))
    }

    #[cycle(slice)]
    fn slice(&self, offset: i64, len: usize) -> PolarsResult<Series> {
        Ok(map_series!(self, column => column.slice(offset, len)?))
    }

    #[cycle(rechunk)]
    fn rechunk(&self) -> PolarsResult<Series> {
        Ok(map_series!(self, column => column.rechunk()?))
    }

    #[cycle(try_clone)]
    fn try_clone(&self) -> PolarsResult<Series> {
        Ok(map_series!(self, column => column.try_clone()?))
    }

    fn new_from_index(&self, i: usize, len: usize) -> PolarsResult<Series> {
        Ok(map_series!(self, column => column.new_from_index(i, len)?))
    }
}

impl UndoAppend for Series {
    fn uses_all(&self) -> bool {
        of_series!(self, column => column.uses_all())
    }

    fn keep_chunks(&mut self, count: usize) {
        of_series!(self, column => column.keep_chunks(count))
    }
}

impl Series {
    ghost use Rattle.std.specs.Prelude.{IfOk, IfErr};
    ghost use Rattle.gb_base.specs.PlSmallStr.{IsNoMemory};
    ghost use Rattle.gb_series.specs.Series.{value_of};

    /// The series of a column of lists, which takes memory for the box.
    pub fn from_lists(column: ListChunked) -> PolarsResult<Series>
        ensures ok { IfOk result (λ s. value_of s ≡ column) }
        ensures err { IfErr result IsNoMemory }
    {
        let alloc = column.allocator();
        Ok(Series::List(Box::new(alloc, column)?))
    }

    /// The series of a column of arrays, which takes memory for the box.
    pub fn from_arrays(column: ArrayChunked) -> PolarsResult<Series>
        ensures ok { IfOk result (λ s. value_of s ≡ column) }
        ensures err { IfErr result IsNoMemory }
    {
        let alloc = column.allocator();
        Ok(Series::Array(Box::new(alloc, column)?))
    }

    /// The series of a column of structs, which takes memory for the box.
    pub fn from_structs(column: StructChunked) -> PolarsResult<Series>
        ensures ok { IfOk result (λ s. value_of s ≡ column) }
        ensures err { IfErr result IsNoMemory }
    {
        let alloc = column.allocator();
        Ok(Series::Struct(Box::new(alloc, column)?))
    }
}

//! A column of any flat type.

use gb_base::data_type::{DataType, IsSorted};
use gb_base::error::PolarsResult;
use gb_base::nullable_idx::IdxSize;
use gb_base::small_str::PlSmallStr;
use gb_cols::binary::{BinaryChunked, BinaryOffsetChunked};
use gb_cols::boolean::BooleanChunked;
use gb_cols::chunked::StringChunked;
use gb_cols::null::NullChunked;
use gb_cols::primitive::{
    Int8Chunked, Int16Chunked, Int32Chunked, Int64Chunked, Int128Chunked, UInt8Chunked,
    UInt16Chunked, UInt32Chunked, UInt64Chunked,
};
use gb_cols::series_trait::SeriesTrait;
use gb_logical::categorical::CategoricalChunked;
use gb_logical::logical::{
    DateChunked, DatetimeChunked, DecimalChunked, DurationChunked, TimeChunked,
};
use gb_values::slot_order::SlotOrder;
use std::alloc::{AllocError, Global};

/// A named column of any flat type.
pub enum FlatSeries {
    Null(NullChunked),
    Boolean(BooleanChunked),
    UInt8(UInt8Chunked),
    UInt16(UInt16Chunked),
    UInt32(UInt32Chunked),
    UInt64(UInt64Chunked),
    Int8(Int8Chunked),
    Int16(Int16Chunked),
    Int32(Int32Chunked),
    Int64(Int64Chunked),
    Int128(Int128Chunked),
    Decimal(DecimalChunked),
    Date(DateChunked),
    Datetime(DatetimeChunked),
    Duration(DurationChunked),
    Time(TimeChunked),
    String(StringChunked),
    Binary(BinaryChunked),
    BinaryOffset(BinaryOffsetChunked),
    Categorical(CategoricalChunked),
}

/// What a call gives on the column that a series holds.
#[macro_export]
macro_rules! of_column {
    ($series:expr, $column:ident => $call:expr) => {
        match $series {
            $crate::series::FlatSeries::Null($column) => $call,
            $crate::series::FlatSeries::Boolean($column) => $call,
            $crate::series::FlatSeries::UInt8($column) => $call,
            $crate::series::FlatSeries::UInt16($column) => $call,
            $crate::series::FlatSeries::UInt32($column) => $call,
            $crate::series::FlatSeries::UInt64($column) => $call,
            $crate::series::FlatSeries::Int8($column) => $call,
            $crate::series::FlatSeries::Int16($column) => $call,
            $crate::series::FlatSeries::Int32($column) => $call,
            $crate::series::FlatSeries::Int64($column) => $call,
            $crate::series::FlatSeries::Int128($column) => $call,
            $crate::series::FlatSeries::Decimal($column) => $call,
            $crate::series::FlatSeries::Date($column) => $call,
            $crate::series::FlatSeries::Datetime($column) => $call,
            $crate::series::FlatSeries::Duration($column) => $call,
            $crate::series::FlatSeries::Time($column) => $call,
            $crate::series::FlatSeries::String($column) => $call,
            $crate::series::FlatSeries::Binary($column) => $call,
            $crate::series::FlatSeries::BinaryOffset($column) => $call,
            $crate::series::FlatSeries::Categorical($column) => $call,
        }
    };
}

/// The series of what a call gives on the column that a series holds.
#[macro_export]
macro_rules! map_column {
    ($series:expr, $column:ident => $call:expr) => {
        match $series {
            $crate::series::FlatSeries::Null($column) => $crate::series::FlatSeries::Null($call),
            $crate::series::FlatSeries::Boolean($column) => $crate::series::FlatSeries::Boolean($call),
            $crate::series::FlatSeries::UInt8($column) => $crate::series::FlatSeries::UInt8($call),
            $crate::series::FlatSeries::UInt16($column) => $crate::series::FlatSeries::UInt16($call),
            $crate::series::FlatSeries::UInt32($column) => $crate::series::FlatSeries::UInt32($call),
            $crate::series::FlatSeries::UInt64($column) => $crate::series::FlatSeries::UInt64($call),
            $crate::series::FlatSeries::Int8($column) => $crate::series::FlatSeries::Int8($call),
            $crate::series::FlatSeries::Int16($column) => $crate::series::FlatSeries::Int16($call),
            $crate::series::FlatSeries::Int32($column) => $crate::series::FlatSeries::Int32($call),
            $crate::series::FlatSeries::Int64($column) => $crate::series::FlatSeries::Int64($call),
            $crate::series::FlatSeries::Int128($column) => $crate::series::FlatSeries::Int128($call),
            $crate::series::FlatSeries::Decimal($column) => $crate::series::FlatSeries::Decimal($call),
            $crate::series::FlatSeries::Date($column) => $crate::series::FlatSeries::Date($call),
            $crate::series::FlatSeries::Datetime($column) => $crate::series::FlatSeries::Datetime($call),
            $crate::series::FlatSeries::Duration($column) => $crate::series::FlatSeries::Duration($call),
            $crate::series::FlatSeries::Time($column) => $crate::series::FlatSeries::Time($call),
            $crate::series::FlatSeries::String($column) => $crate::series::FlatSeries::String($call),
            $crate::series::FlatSeries::Binary($column) => $crate::series::FlatSeries::Binary($call),
            $crate::series::FlatSeries::BinaryOffset($column) => $crate::series::FlatSeries::BinaryOffset($call),
            $crate::series::FlatSeries::Categorical($column) => $crate::series::FlatSeries::Categorical($call),
        }
    };
}

/// `Ok` of the series of the sums that a call gives, where the column that a series holds has any.
#[macro_export]
macro_rules! map_sums {
    ($series:expr, $column:ident => $call:expr) => {
        match $series {
            $crate::series::FlatSeries::Null($column) => match $call {
                Some(sums) => Ok(Some($crate::series::FlatSeries::Null(sums))),
                None => Ok(None),
            },
            $crate::series::FlatSeries::Boolean($column) => match $call {
                Some(sums) => Ok(Some($crate::series::FlatSeries::UInt32(sums))),
                None => Ok(None),
            },
            $crate::series::FlatSeries::UInt8($column) => match $call {
                Some(sums) => Ok(Some($crate::series::FlatSeries::UInt8(sums))),
                None => Ok(None),
            },
            $crate::series::FlatSeries::UInt16($column) => match $call {
                Some(sums) => Ok(Some($crate::series::FlatSeries::UInt16(sums))),
                None => Ok(None),
            },
            $crate::series::FlatSeries::UInt32($column) => match $call {
                Some(sums) => Ok(Some($crate::series::FlatSeries::UInt32(sums))),
                None => Ok(None),
            },
            $crate::series::FlatSeries::UInt64($column) => match $call {
                Some(sums) => Ok(Some($crate::series::FlatSeries::UInt64(sums))),
                None => Ok(None),
            },
            $crate::series::FlatSeries::Int8($column) => match $call {
                Some(sums) => Ok(Some($crate::series::FlatSeries::Int8(sums))),
                None => Ok(None),
            },
            $crate::series::FlatSeries::Int16($column) => match $call {
                Some(sums) => Ok(Some($crate::series::FlatSeries::Int16(sums))),
                None => Ok(None),
            },
            $crate::series::FlatSeries::Int32($column) => match $call {
                Some(sums) => Ok(Some($crate::series::FlatSeries::Int32(sums))),
                None => Ok(None),
            },
            $crate::series::FlatSeries::Int64($column) => match $call {
                Some(sums) => Ok(Some($crate::series::FlatSeries::Int64(sums))),
                None => Ok(None),
            },
            $crate::series::FlatSeries::Int128($column) => match $call {
                Some(sums) => Ok(Some($crate::series::FlatSeries::Int128(sums))),
                None => Ok(None),
            },
            $crate::series::FlatSeries::Decimal($column) => match $call {
                Some(sums) => Ok(Some($crate::series::FlatSeries::Decimal(sums))),
                None => Ok(None),
            },
            $crate::series::FlatSeries::Date($column) => match $call {
                Some(sums) => Ok(Some($crate::series::FlatSeries::Date(sums))),
                None => Ok(None),
            },
            $crate::series::FlatSeries::Datetime($column) => match $call {
                Some(sums) => Ok(Some($crate::series::FlatSeries::Datetime(sums))),
                None => Ok(None),
            },
            $crate::series::FlatSeries::Duration($column) => match $call {
                Some(sums) => Ok(Some($crate::series::FlatSeries::Duration(sums))),
                None => Ok(None),
            },
            $crate::series::FlatSeries::Time($column) => match $call {
                Some(sums) => Ok(Some($crate::series::FlatSeries::Time(sums))),
                None => Ok(None),
            },
            $crate::series::FlatSeries::String($column) => match $call {
                Some(sums) => Ok(Some($crate::series::FlatSeries::String(sums))),
                None => Ok(None),
            },
            $crate::series::FlatSeries::Binary($column) => match $call {
                Some(sums) => Ok(Some($crate::series::FlatSeries::Binary(sums))),
                None => Ok(None),
            },
            $crate::series::FlatSeries::BinaryOffset($column) => match $call {
                Some(sums) => Ok(Some($crate::series::FlatSeries::BinaryOffset(sums))),
                None => Ok(None),
            },
            $crate::series::FlatSeries::Categorical($column) => match $call {
                Some(sums) => Ok(Some($crate::series::FlatSeries::Categorical(sums))),
                None => Ok(None),
            },
        }
    };
}

// What appending gives where both columns are of one variant.
macro_rules! append_as {
    ($variant:ident, $column:expr, $other:expr) => {
        match $other {
            FlatSeries::$variant(other) => $column.append(other),
            // A type is that of one variant.
            _ => unreachable!(),
        }
    };
}

// With an impl of its own a series is let go of by a call. With a derive each function that lets go of one
// does so by its variants, and pays for each in its check.
impl Drop for FlatSeries {
    fn drop(self) {
        of_column!(self, column => drop(column))
    }
}

impl SeriesTrait for FlatSeries {
    ghost use Rattle.gb_flat_series.specs.FlatSeries.{column_of};

    ghost value = { column_of };

    fn name(&self) -> &PlSmallStr {
        of_column!(self, column => column.name())
    }

    fn allocator(&self) -> Global {
        of_column!(self, column => column.allocator())
    }

    fn rename(&mut self, name: PlSmallStr) {
        of_column!(self, column => column.rename(name))
    }

    fn dtype(&self) -> PolarsResult<DataType> {
        of_column!(self, column => column.dtype())
    }

    fn len(&self) -> usize {
        of_column!(self, column => column.len())
    }

    fn is_empty(&self) -> bool {
        self.len() == 0
    }

    fn null_count(&self) -> usize {
        of_column!(self, column => column.null_count())
    }

    fn n_chunks(&self) -> usize {
        of_column!(self, column => column.n_chunks())
    }

    fn chunk_lengths(&self) -> PolarsResult<Vec<usize>> {
        of_column!(self, column => column.chunk_lengths())
    }

    fn first_non_null(&self) -> Option<usize> {
        of_column!(self, column => column.first_non_null())
    }

    fn last_non_null(&self) -> Option<usize> {
        of_column!(self, column => column.last_non_null())
    }

    fn is_valid(&self, row: usize) -> bool {
        of_column!(self, column => column.is_valid(row))
    }

    fn is_sorted_flag(&self) -> IsSorted {
        of_column!(self, column => column.is_sorted_flag())
    }

    fn set_sorted_flag(&mut self, sorted: IsSorted) {
        of_column!(self, column => column.set_sorted_flag(sorted))
    }

    fn order(&self) -> SlotOrder {
        of_column!(self, column => column.order())
    }

    fn push_null(&mut self) -> PolarsResult<()> {
        of_column!(self, column => column.push_null())
    }

    #[inline(always)]
    fn push_cell(
        &mut self,
        cell: &[u8],
        is_text: bool,
        null_word: &str,
    ) -> Result<bool, AllocError> {
        of_column!(self, column => column.push_cell(cell, is_text, null_word))
    }

    fn reads_cell(&self, cell: &[u8], is_text: bool, null_word: &str) -> bool {
        of_column!(self, column => column.reads_cell(cell, is_text, null_word))
    }

    fn write_cell(&self, row: usize, null_word: &str, to: &mut Vec<u8>) -> Result<(), AllocError> {
        of_column!(self, column => column.write_cell(row, null_word, to))
    }

    fn append(&mut self, other: FlatSeries) -> PolarsResult<()> {
        self.tell_variant();
        other.tell_variant();
        match self {
            FlatSeries::Null(column) => append_as!(Null, column, other),
            FlatSeries::Boolean(column) => append_as!(Boolean, column, other),
            FlatSeries::UInt8(column) => append_as!(UInt8, column, other),
            FlatSeries::UInt16(column) => append_as!(UInt16, column, other),
            FlatSeries::UInt32(column) => append_as!(UInt32, column, other),
            FlatSeries::UInt64(column) => append_as!(UInt64, column, other),
            FlatSeries::Int8(column) => append_as!(Int8, column, other),
            FlatSeries::Int16(column) => append_as!(Int16, column, other),
            FlatSeries::Int32(column) => append_as!(Int32, column, other),
            FlatSeries::Int64(column) => append_as!(Int64, column, other),
            FlatSeries::Int128(column) => append_as!(Int128, column, other),
            FlatSeries::Decimal(column) => append_as!(Decimal, column, other),
            FlatSeries::Date(column) => append_as!(Date, column, other),
            FlatSeries::Datetime(column) => append_as!(Datetime, column, other),
            FlatSeries::Duration(column) => append_as!(Duration, column, other),
            FlatSeries::Time(column) => append_as!(Time, column, other),
            FlatSeries::String(column) => append_as!(String, column, other),
            FlatSeries::Binary(column) => append_as!(Binary, column, other),
            FlatSeries::BinaryOffset(column) => append_as!(BinaryOffset, column, other),
            FlatSeries::Categorical(column) => append_as!(Categorical, column, other),
        }
    }

    fn take(&self, rows: &[IdxSize]) -> PolarsResult<FlatSeries> {
        Ok(map_column!(self, column => column.take(rows)?))
    }

    fn slice(&self, offset: i64, len: usize) -> PolarsResult<FlatSeries> {
        Ok(map_column!(self, column => column.slice(offset, len)?))
    }

    fn rechunk(&self) -> PolarsResult<FlatSeries> {
        Ok(map_column!(self, column => column.rechunk()?))
    }

    fn try_clone(&self) -> PolarsResult<FlatSeries> {
        Ok(map_column!(self, column => column.try_clone()?))
    }

    fn new_from_index(&self, i: usize, len: usize) -> PolarsResult<FlatSeries> {
        Ok(map_column!(self, column => column.new_from_index(i, len)?))
    }
}

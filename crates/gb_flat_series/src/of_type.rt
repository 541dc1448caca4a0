//! Columns made by their type.

ghost use Rattle.std.specs.Prelude.{◌≡◌, ◌<◌, ◌^◌, [], Some, replicate, IfOk, IfErr};
ghost use Rattle.gb_defs.specs.Column.{fresh_column};
ghost use Rattle.gb_defs.specs.ColumnType.{Decimal, Flat};
ghost use Rattle.gb_defs.specs.Slot.{Nil};
ghost use Rattle.gb_base.specs.DataType.{type_of};
ghost use Rattle.gb_base.specs.PlSmallStr.{IsNoMemory, name_of};
ghost use Rattle.gb_flat_series.specs.FlatSeries.{HasNulls, column_of};

use crate::series::FlatSeries;
use gb_base::data_type::DataType;
use gb_base::error::PolarsResult;
use gb_base::small_str::PlSmallStr;
use gb_cols::chunked::ChunkedArray;
use gb_cols::null::NullChunked;
use gb_logical::categorical::CategoricalChunked;
use gb_logical::logical::{
    DateChunked, DatetimeChunked, DecimalChunked, DurationChunked, TimeChunked,
};
use std::alloc::Global;
use std::sync::Arc;

impl FlatSeries {
    ghost use Rattle.gb_flat_series.specs.FlatSeries.{HasColumn, HasNulls, column_of};

    /// A column with no slots.
    #[tactic(auto, using(crate::proofs::ColumnLemmas::no_list, crate::proofs::ColumnLemmas::no_array, crate::proofs::ColumnLemmas::no_struct,))]
    pub fn new_empty(alloc: Global, name: PlSmallStr, dtype: DataType) -> FlatSeries
        requires { HasColumn dtype }
        ensures { column_of result ≡ fresh_column (name_of name) (type_of dtype) [] }
    {
        match dtype {
            DataType::Null => FlatSeries::Null(NullChunked::new(alloc, name, 0)),
            DataType::Boolean => FlatSeries::Boolean(ChunkedArray::new(alloc, name)),
            DataType::UInt8 => FlatSeries::UInt8(ChunkedArray::new(alloc, name)),
            DataType::UInt16 => FlatSeries::UInt16(ChunkedArray::new(alloc, name)),
            DataType::UInt32 => FlatSeries::UInt32(ChunkedArray::new(alloc, name)),
            DataType::UInt64 => FlatSeries::UInt64(ChunkedArray::new(alloc, name)),
            DataType::Int8 => FlatSeries::Int8(ChunkedArray::new(alloc, name)),
            DataType::Int16 => FlatSeries::Int16(ChunkedArray::new(alloc, name)),
            DataType::Int32 => FlatSeries::Int32(ChunkedArray::new(alloc, name)),
            DataType::Int64 => FlatSeries::Int64(ChunkedArray::new(alloc, name)),
            DataType::Int128 => FlatSeries::Int128(ChunkedArray::new(alloc, name)),
            DataType::Decimal(precision, scale) => match scale {
                Some(scale) => FlatSeries::Decimal(decimals(alloc, name, precision, scale)),
                None => unreachable!(),
            },
            DataType::Date => FlatSeries::Date(DateChunked::new(ChunkedArray::new(alloc, name))),
            DataType::Datetime(unit) => {
                FlatSeries::Datetime(DatetimeChunked::new(ChunkedArray::new(alloc, name), unit))
            }
            DataType::Duration(unit) => {
                FlatSeries::Duration(DurationChunked::new(ChunkedArray::new(alloc, name), unit))
            }
            DataType::Time => FlatSeries::Time(TimeChunked::new(ChunkedArray::new(alloc, name))),
            DataType::String => FlatSeries::String(ChunkedArray::new(alloc, name)),
            DataType::Binary => FlatSeries::Binary(ChunkedArray::new(alloc, name)),
            DataType::BinaryOffset => FlatSeries::BinaryOffset(ChunkedArray::new(alloc, name)),
            // Texts become categories as a whole.
            DataType::Categorical(_, _) => unreachable!(),
            DataType::Enum(_, _) => unreachable!(),
            // No flat column has parts.
            DataType::List(_) => unreachable!(),
            DataType::Array(_, _) => unreachable!(),
            DataType::Struct(_) => unreachable!(),
        }
    }

    /// So many nulls, in one chunk.
    #[tactic(auto, using(crate::proofs::ColumnLemmas::no_nulls_in_list, crate::proofs::ColumnLemmas::no_nulls_in_array, crate::proofs::ColumnLemmas::no_nulls_in_struct,))]
    pub fn full_null(
        alloc: Global,
        name: PlSmallStr,
        len: usize,
        dtype: &DataType,
    ) -> PolarsResult<FlatSeries>
        requires column { HasNulls dtype.now }
        requires few { len < 2 ^ 63 }
        ensures ok { let nulls = replicate len Nil in
            IfOk result (λ c. column_of c ≡ fresh_column (name_of name) (type_of dtype.now) nulls) }
        ensures err { IfErr result IsNoMemory }
    {
        match dtype {
            DataType::Null => Ok(FlatSeries::Null(NullChunked::new(alloc, name, len))),
            DataType::Boolean => Ok(FlatSeries::Boolean(ChunkedArray::full_null(
                alloc, name, len,
            )?)),
            DataType::UInt8 => Ok(FlatSeries::UInt8(ChunkedArray::full_null(alloc, name, len)?)),
            DataType::UInt16 => Ok(FlatSeries::UInt16(ChunkedArray::full_null(alloc, name, len)?)),
            DataType::UInt32 => Ok(FlatSeries::UInt32(ChunkedArray::full_null(alloc, name, len)?)),
            DataType::UInt64 => Ok(FlatSeries::UInt64(ChunkedArray::full_null(alloc, name, len)?)),
            DataType::Int8 => Ok(FlatSeries::Int8(ChunkedArray::full_null(alloc, name, len)?)),
            DataType::Int16 => Ok(FlatSeries::Int16(ChunkedArray::full_null(alloc, name, len)?)),
            DataType::Int32 => Ok(FlatSeries::Int32(ChunkedArray::full_null(alloc, name, len)?)),
            DataType::Int64 => Ok(FlatSeries::Int64(ChunkedArray::full_null(alloc, name, len)?)),
            DataType::Int128 => Ok(FlatSeries::Int128(ChunkedArray::full_null(alloc, name, len)?)),
            DataType::Decimal(precision, scale) => {
                let Some(scale) = *scale else { unreachable!() };
                let nulls = ChunkedArray::full_null(alloc, name, len)?;
                Ok(FlatSeries::Decimal(DecimalChunked::new(nulls, *precision, scale)))
            }
            DataType::Date => {
                let nulls = ChunkedArray::full_null(alloc, name, len)?;
                Ok(FlatSeries::Date(DateChunked::new(nulls)))
            }
            DataType::Datetime(unit) => {
                let nulls = ChunkedArray::full_null(alloc, name, len)?;
                Ok(FlatSeries::Datetime(DatetimeChunked::new(nulls, *unit)))
            }
            DataType::Duration(unit) => {
                let nulls = ChunkedArray::full_null(alloc, name, len)?;
                Ok(FlatSeries::Duration(DurationChunked::new(nulls, *unit)))
            }
            DataType::Time => {
                let nulls = ChunkedArray::full_null(alloc, name, len)?;
                Ok(FlatSeries::Time(TimeChunked::new(nulls)))
            }
            DataType::String => Ok(FlatSeries::String(ChunkedArray::full_null(alloc, name, len)?)),
            DataType::Binary => Ok(FlatSeries::Binary(ChunkedArray::full_null(alloc, name, len)?)),
            DataType::BinaryOffset => {
                Ok(FlatSeries::BinaryOffset(ChunkedArray::full_null(alloc, name, len)?))
            }
            DataType::Categorical(map, ordering) => {
                let Some(map) = map else { unreachable!() };
                let map = Arc::try_clone(map)?;
                let nulls = CategoricalChunked::full_null(alloc, name, len, map, *ordering, false)?;
                Ok(FlatSeries::Categorical(nulls))
            }
            DataType::Enum(map, ordering) => {
                let Some(map) = map else { unreachable!() };
                let map = Arc::try_clone(map)?;
                let nulls = CategoricalChunked::full_null(alloc, name, len, map, *ordering, true)?;
                Ok(FlatSeries::Categorical(nulls))
            }
            // No flat column has parts.
            DataType::List(_) => unreachable!(),
            DataType::Array(_, _) => unreachable!(),
            DataType::Struct(_) => unreachable!(),
        }
    }
}

// A column of decimals with no slots.
fn decimals(
    alloc: Global,
    name: PlSmallStr,
    precision: Option<usize>,
    scale: usize,
) -> DecimalChunked
    ensures { let dtype = Flat (Decimal precision (Some scale)) in
        result ≡ fresh_column (name_of name) dtype [] }
{
    DecimalChunked::new(ChunkedArray::new(alloc, name), precision, scale)
}

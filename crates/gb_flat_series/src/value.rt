//! The slot of a row of a series, as a value of any type.

ghost use Rattle.std.specs.Prelude.{◌≡◌, ◌<◌, length, IfOk, IfErr, Ok};
ghost use Rattle.gb_defs.specs.Slot.{slot_at};
ghost use Rattle.gb_base.specs.AnyValue.{slot_of};
ghost use Rattle.gb_base.specs.PlSmallStr.{IsNoMemory};
ghost use Rattle.gb_values.specs.Array.{text_slot};
ghost use Rattle.gb_values.specs.Keys.{bytes_slot};
ghost use Rattle.gb_flat_series.specs.Value.{IsBytesOrNull, IsTextOrNull};

use crate::series::FlatSeries;
use gb_base::any_value::AnyValue;
use gb_base::byte_str::ByteStr;
use gb_base::error::PolarsResult;
use gb_base::small_str::PlSmallStr;
use gb_cols::null::NullChunked;
use gb_cols::series_trait::SeriesTrait;
use std::alloc::Global;

// `Ok` of the value of a slot under a name, null where there is none.
macro_rules! some_value {
    ($slot:expr, $name:ident) => {
        match $slot {
            Some(value) => Ok(AnyValue::$name(value)),
            None => Ok(AnyValue::Null),
        }
    };
}

impl FlatSeries {
    ghost use Rattle.gb_flat_series.specs.FlatSeries.{column_of};
    ghost use Rattle.gb_flat_series.specs.Value.{IsNamedFor};

    /// The slot of a row as a value of any type. Texts and bytes are copied.
    pub fn get(&self, row: usize) -> PolarsResult<AnyValue>
        requires { row < length (column_of self.now).slots }
        ensures slot { let slots = (column_of self.now).slots in
            IfOk result (λ value. slot_of value ≡ slot_at slots row) }
        ensures named { IfOk result (IsNamedFor self.now) }
        ensures err { IfErr result IsNoMemory }
    {
        match self {
            FlatSeries::Null(column) => null_at(column, row),
            FlatSeries::Boolean(column) => some_value!(column.get(row), Boolean),
            FlatSeries::UInt8(column) => some_value!(column.get(row), UInt8),
            FlatSeries::UInt16(column) => some_value!(column.get(row), UInt16),
            FlatSeries::UInt32(column) => some_value!(column.get(row), UInt32),
            FlatSeries::UInt64(column) => some_value!(column.get(row), UInt64),
            FlatSeries::Int8(column) => some_value!(column.get(row), Int8),
            FlatSeries::Int16(column) => some_value!(column.get(row), Int16),
            FlatSeries::Int32(column) => some_value!(column.get(row), Int32),
            FlatSeries::Int64(column) => some_value!(column.get(row), Int64),
            FlatSeries::Int128(column) => some_value!(column.get(row), Int128),
            FlatSeries::Decimal(column) => some_value!(column.get(row), Decimal),
            FlatSeries::Date(column) => some_value!(column.get(row), Date),
            FlatSeries::Datetime(column) => some_value!(column.get(row), Datetime),
            FlatSeries::Duration(column) => some_value!(column.get(row), Duration),
            FlatSeries::Time(column) => some_value!(column.get(row), Time),
            FlatSeries::String(column) => text_value(column.allocator(), column.get(row)),
            FlatSeries::Binary(column) => bytes_value(column.allocator(), column.get(row)),
            FlatSeries::BinaryOffset(column) => bytes_value(column.allocator(), column.get(row)),
            FlatSeries::Categorical(column) => some_value!(column.get(row), Category),
        }
    }
}

// A null of a column of nulls.
fn null_at(column: &NullChunked, row: usize) -> PolarsResult<AnyValue>
    requires { row < length column.now.slots }
    ensures slot { IfOk result (λ value. slot_of value ≡ slot_at column.now.slots row) }
    ensures null { result ≡ Ok AnyValue.Null }
{
    let _ = column.get(row);
    Ok(AnyValue::Null)
}

// A text that may be missing, as a value.
fn text_value(alloc: Global, text: Option<&str>) -> PolarsResult<AnyValue>
    ensures slot { IfOk result (λ value. slot_of value ≡ text_slot text.entry) }
    ensures text { IfOk result IsTextOrNull }
    ensures err { IfErr result IsNoMemory }
{
    match text {
        Some(text) => Ok(AnyValue::String(PlSmallStr::from_str(alloc, text)?)),
        None => Ok(AnyValue::Null),
    }
}

// Bytes that may be missing, as a value.
fn bytes_value(alloc: Global, bytes: Option<&[u8]>) -> PolarsResult<AnyValue>
    ensures slot { IfOk result (λ value. slot_of value ≡ bytes_slot bytes.entry) }
    ensures bytes { IfOk result IsBytesOrNull }
    ensures err { IfErr result IsNoMemory }
{
    match bytes {
        Some(bytes) => Ok(AnyValue::Binary(ByteStr::from_slice(alloc, bytes)?)),
        None => Ok(AnyValue::Null),
    }
}

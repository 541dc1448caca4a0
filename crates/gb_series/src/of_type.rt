//! Series made by their type.

ghost use Rattle.std.specs.Prelude.{◌≡◌, ◌<◌, ◌^◌, [], None, map, replicate, IfOk, IfErr};
ghost use Rattle.gb_defs.specs.Column.{fresh_column};
ghost use Rattle.gb_defs.specs.ColumnType.{ArrayOf, ListOf, StructOf};
ghost use Rattle.gb_defs.specs.Slot.{Nil};
ghost use Rattle.gb_base.specs.DataType.{fields_of, part_of, type_of};
ghost use Rattle.gb_base.specs.PlSmallStr.{IsNoMemory, name_of};
ghost use Rattle.gb_series.specs.Nulls.{ArePartsOfNulls, HasNulls, empty_part};
ghost use Rattle.gb_series.specs.Series.{value_of};
ghost use Rattle.gb_series.specs.Structs.{struct_fault, struct_type};

use crate::nested::array::ArrayChunked;
use crate::nested::list::ListChunked;
use crate::nested::structs::StructChunked;
use crate::series::Series;
use gb_base::data_type::DataType;
use gb_base::error::{PolarsError, PolarsResult};
use gb_base::field::Field;
use gb_base::small_str::PlSmallStr;
use gb_cols::series_trait::SeriesTrait;
use gb_flat_series::series::FlatSeries;
use std::alloc::Global;

impl Series {
    ghost use Rattle.gb_series.specs.Nulls.{HasNulls};
    ghost use Rattle.gb_flat_series.specs.FlatSeries.{HasColumn};
    ghost use Rattle.gb_series.specs.Series.{value_of};

    /// A column with no slots.
    pub fn new_empty(alloc: Global, name: PlSmallStr, dtype: DataType) -> Series
        requires { HasColumn dtype }
        ensures { value_of result ≡ fresh_column (name_of name) (type_of dtype) [] }
    {
        Series::Flat(FlatSeries::new_empty(alloc, name, dtype))
    }

    /// So many nulls, in one chunk.
    pub fn full_null(
        alloc: Global,
        name: PlSmallStr,
        len: usize,
        dtype: DataType,
    ) -> PolarsResult<Series>
        requires column { HasNulls dtype }
        requires few { len < 2 ^ 63 }
        ensures ok { let nulls = replicate len Nil in
            IfOk result (λ c. value_of c ≡ fresh_column (name_of name) (type_of dtype) nulls) }
        ensures err { IfErr result IsNoMemory }
    {
        nulls_of(alloc, name, len, &dtype)
    }
}

// So many nulls of a type that is only lent, in one chunk.
#[cycle(nulls)]
#[tactic(auto, using(crate::proofs::ColumnLemmas::nulls_in_lists, crate::proofs::ColumnLemmas::nulls_in_arrays, crate::proofs::ColumnLemmas::nulls_in_structs, gb_base::proofs::DataTypeLemmas::list_type, gb_base::proofs::DataTypeLemmas::array_type, gb_base::proofs::DataTypeLemmas::struct_type))]
fn nulls_of(alloc: Global, name: PlSmallStr, len: usize, dtype: &DataType) -> PolarsResult<Series>
    requires column { HasNulls dtype.now }
    requires few { len < 2 ^ 63 }
    ensures ok { let nulls = replicate len Nil in
        IfOk result (λ c. value_of c ≡ fresh_column (name_of name) (type_of dtype.now) nulls) }
    ensures err { IfErr result IsNoMemory }
{
    match dtype {
        DataType::List(items) => {
            let items = nulls_of(alloc, PlSmallStr::from_str(alloc, "")?, 0, items)?;
            Ok(null_lists(alloc, name, len, items)?)
        }
        DataType::Array(items, width) => {
            let items = nulls_of(alloc, PlSmallStr::from_str(alloc, "")?, 0, items)?;
            Ok(null_arrays(alloc, name, len, items, *width)?)
        }
        DataType::Struct(fields) => {
            let parts = empty_parts(alloc, fields)?;
            Ok(null_structs(alloc, name, len, parts)?)
        }
        _ => Ok(Series::Flat(FlatSeries::full_null(alloc, name, len, dtype)?)),
    }
}

// So many null lists, of items that an empty column tells the type of.
fn null_lists(alloc: Global, name: PlSmallStr, len: usize, items: Series) -> PolarsResult<Series>
    requires empty { (value_of items).slots ≡ [] }
    requires few { len < 2 ^ 63 }
    ensures ok { let dtype = ListOf (value_of items).dtype in IfOk result
        (λ c. value_of c ≡ fresh_column (name_of name) dtype (replicate len Nil)) }
    ensures err { IfErr result IsNoMemory }
{
    let column = Series::from_lists(ListChunked::new(alloc, name, items))?;
    Ok(with_nulls(column, len)?)
}

// So many null arrays, of items that an empty column tells the type of.
fn null_arrays(
    alloc: Global,
    name: PlSmallStr,
    len: usize,
    items: Series,
    width: usize,
) -> PolarsResult<Series>
    requires empty { (value_of items).slots ≡ [] }
    requires few { len < 2 ^ 63 }
    ensures ok { let dtype = ArrayOf (value_of items).dtype width in IfOk result
        (λ c. value_of c ≡ fresh_column (name_of name) dtype (replicate len Nil)) }
    ensures err { IfErr result IsNoMemory }
{
    let column = Series::from_arrays(ArrayChunked::new(alloc, name, items, width))?;
    Ok(with_nulls(column, len)?)
}

// So many null structs, of parts that are empty.
fn null_structs(
    alloc: Global,
    name: PlSmallStr,
    len: usize,
    parts: Vec<Series>,
) -> PolarsResult<Series>
    requires parts { struct_fault 0 (map value_of parts.items) ≡ None }
    requires few { len < 2 ^ 63 }
    ensures ok { let dtype = struct_type (map value_of parts.items) in IfOk result
        (λ c. value_of c ≡ fresh_column (name_of name) dtype (replicate len Nil)) }
    ensures err { IfErr result IsNoMemory }
{
    let column = Series::from_structs(empty_structs(alloc, name, parts)?)?;
    Ok(with_nulls(column, len)?)
}

// The columns of a struct's parts, with no slots.
#[cycle(nulls)]
fn empty_parts(alloc: Global, fields: &Vec<Field>) -> PolarsResult<Vec<Series>>
    requires { ArePartsOfNulls fields.now.items }
    ensures ok { IfOk result
        (λ made. map value_of made.items ≡ map empty_part fields.now.items) }
    ensures sound { IfOk result (λ made. struct_fault 0 (map value_of made.items) ≡ None) }
    ensures typed { let dtype = StructOf (fields_of (map part_of fields.now.items)) in
        IfOk result (λ made. struct_type (map value_of made.items) ≡ dtype) }
    ensures err { IfErr result IsNoMemory }
{
    let mut made = Vec::with_capacity(alloc, fields.len())?;
    for field in fields {
        made.push(nulls_of(alloc, field.name.try_clone()?, 0, &field.dtype)?)?;
    }
    Ok(made)
}

// A column of structs with no slots.
fn empty_structs(alloc: Global, name: PlSmallStr, parts: Vec<Series>) -> PolarsResult<StructChunked>
    requires { struct_fault 0 (map value_of parts.items) ≡ None }
    ensures ok { let dtype = struct_type (map value_of parts.items) in
        IfOk result (λ c. c ≡ fresh_column (name_of name) dtype []) }
    ensures err { IfErr result IsNoMemory }
{
    match StructChunked::from_fields(name, Vec::new(alloc), parts) {
        Ok(column) => Ok(column),
        // No other cause is left.
        Err(_) => Err(PolarsError::NoMemory),
    }
}

// So many nulls in a column that has no slots.
#[tactic(auto, using(crate::proofs::ColumnLemmas::fresh_pushed))]
fn with_nulls(column: Series, len: usize) -> PolarsResult<Series>
    requires empty { let c = value_of column in c ≡ fresh_column c.name c.dtype [] }
    requires few { len < 2 ^ 63 }
    ensures ok { let c = value_of column in
        IfOk result (λ made. value_of made ≡ fresh_column c.name c.dtype (replicate len Nil)) }
    ensures err { IfErr result IsNoMemory }
{
    let mut made = column;
    for _ in 0..len {
        made.push_null()?;
    }
    Ok(made)
}

//! The slot of a row of a series, as a value of any type.

ghost use Rattle.std.specs.Prelude.{◌≡◌, ◌<◌, length, map, All, IfOk, IfErr};
ghost use Rattle.gb_defs.specs.Slot.{Items, items_of, slot_at};
ghost use Rattle.gb_base.specs.AnyValue.{slot_of};
ghost use Rattle.gb_base.specs.PlSmallStr.{IsNoMemory};
ghost use Rattle.gb_series.specs.Rows.{IsPlaced, row_piece};
ghost use Rattle.gb_series.specs.Series.{value_of};
ghost use Rattle.gb_series.specs.Structs.{across};
ghost use Rattle.gb_series.specs.Value.{IsItemsOrNull};

use crate::nested::array::ArrayChunked;
use crate::nested::list::ListChunked;
use crate::nested::rows::start_at;
use crate::nested::structs::StructChunked;
use crate::series::Series;
use gb_base::any_value::{AnyList, AnyValue};
use gb_base::error::PolarsResult;
use gb_cols::series_trait::SeriesTrait;
use std::alloc::Global;

impl Series {
    ghost use Rattle.gb_series.specs.Series.{value_of};
    ghost use Rattle.gb_series.specs.Value.{IsNamedFor};

    /// The slot of a row as a value of any type. Texts and bytes are copied.
    #[cycle(get)]
    pub fn get(&self, row: usize) -> PolarsResult<AnyValue>
        requires { row < length (value_of self.now).slots }
        ensures slot { let slots = (value_of self.now).slots in
            IfOk result (λ value. slot_of value ≡ slot_at slots row) }
        ensures named { IfOk result (IsNamedFor self.now) }
        ensures err { IfErr result IsNoMemory }
    {
        match self {
            Series::Flat(column) => column.get(row),
            Series::List(column) => list_value(column, row),
            Series::Array(column) => array_value(column, row),
            Series::Struct(column) => struct_value(column, row),
        }
    }
}

// The list of a row of lists as a value.
#[cycle(get)]
fn list_value(column: &ListChunked, row: usize) -> PolarsResult<AnyValue>
    requires { row < length column.now.slots }
    ensures slot { IfOk result (λ value. slot_of value ≡ slot_at column.now.slots row) }
    ensures items { IfOk result IsItemsOrNull }
    ensures err { IfErr result IsNoMemory }
{
    if !column.is_valid(row) {
        return Ok(AnyValue::Null);
    }
    let (items, ends) = column.items_by_row();
    Ok(values_of_row(items, ends, row)?)
}

// The array of a row of arrays as a value.
#[cycle(get)]
fn array_value(column: &ArrayChunked, row: usize) -> PolarsResult<AnyValue>
    requires { row < length column.now.slots }
    ensures slot { IfOk result (λ value. slot_of value ≡ slot_at column.now.slots row) }
    ensures items { IfOk result IsItemsOrNull }
    ensures err { IfErr result IsNoMemory }
{
    if !column.is_valid(row) {
        return Ok(AnyValue::Null);
    }
    let (items, ends) = column.items_by_row();
    Ok(values_of_row(items, ends, row)?)
}

// The items of a row as one value.
#[cycle(get)]
fn values_of_row(items: &Series, ends: &[usize], row: usize) -> PolarsResult<AnyValue>
    requires { IsPlaced ends.now (value_of items.now).slots row }
    ensures slot { let piece = row_piece ends.now row (value_of items.now).slots in
        IfOk result (λ value. slot_of value ≡ Items (items_of piece)) }
    ensures items { IfOk result IsItemsOrNull }
    ensures err { IfErr result IsNoMemory }
{
    let start = start_at(ends, row);
    let end = ends[row];
    let mut values = Vec::with_capacity(items.allocator(), end - start)?;
    for place in start..end {
        values.push(items.get(place)?)?;
    }
    Ok(list_of(values))
}

// Values as one.
#[tactic(auto, using(gb_base::proofs::AnyValueLemmas::items_slot))]
fn list_of(values: Vec<AnyValue>) -> AnyValue
    ensures slot { slot_of result ≡ Items (items_of (map slot_of values.items)) }
    ensures items { IsItemsOrNull result }
{
    AnyValue::Items(AnyList::new(values))
}

// The struct of a row of structs as a value.
#[cycle(get)]
fn struct_value(column: &StructChunked, row: usize) -> PolarsResult<AnyValue>
    requires { row < length column.now.slots }
    ensures slot { IfOk result (λ value. slot_of value ≡ slot_at column.now.slots row) }
    ensures items { IfOk result IsItemsOrNull }
    ensures err { IfErr result IsNoMemory }
{
    if !column.is_valid(row) {
        return Ok(AnyValue::Null);
    }
    Ok(values_across(column.fields(), row, column.allocator())?)
}

// The slots of a row of some columns as one value.
#[cycle(get)]
fn values_across(fields: &[Series], row: usize, alloc: Global) -> PolarsResult<AnyValue>
    requires { All (λ f. row < length f.slots) (map value_of fields.now) }
    ensures slot { let list = Items (items_of (across (map value_of fields.now) row)) in
        IfOk result (λ value. slot_of value ≡ list) }
    ensures items { IfOk result IsItemsOrNull }
    ensures err { IfErr result IsNoMemory }
{
    let mut values = Vec::with_capacity(alloc, fields.len())?;
    for field in fields {
        values.push(field.get(row)?)?;
    }
    Ok(list_of(values))
}

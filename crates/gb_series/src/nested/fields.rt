//! The fields of a column of structs.

ghost use Rattle.std.specs.Prelude.{Err, ◌≡◌, ◌+◌, ◌<◌, ◌≤◌, ◌^◌, length, map, true, All, IfOk, IfErr, IsTrue, OnOk, OnErr};
ghost use Rattle.gb_base.specs.DataType.{part_of};
ghost use Rattle.gb_base.specs.PlSmallStr.{IsNoMemory};
ghost use Rattle.gb_defs.specs.Column.{rechunked, sliced, taken};
ghost use Rattle.gb_series.specs.Series.{value_of};
ghost use Rattle.gb_series.specs.Structs.{AreJoined, FitsOwn, HasRows, IsJoined, IsPutBehind, KeepAll, KeepsRows, field_part};

use crate::series::Series;
use gb_base::error::{PolarsError, PolarsResult};
use gb_base::field::Field;
use gb_base::nullable_idx::IdxSize;
use gb_cols::series_trait::SeriesTrait;
use std::alloc::Global;

/// That each slot of each field fits the field's type.
#[cycle(len)]
pub(crate) fn tell_fitting(fields: &Vec<Series>)
    ensures { All FitsOwn (map value_of fields.now.items) }
{
    for field in fields {
        let _ = field.len();
    }
}

/// The names and types of the fields.
#[cycle(dtype)]
pub(crate) fn field_types(fields: &Vec<Series>, alloc: Global) -> PolarsResult<Vec<Field>>
    ensures ok { let parts = map field_part (map value_of fields.now.items) in
        IfOk result (λ types. map part_of types.items ≡ parts) }
    ensures err { IfErr result IsNoMemory }
{
    let mut types = Vec::with_capacity(alloc, fields.len())?;
    for field in fields {
        types.push(field_type(field)?)?;
    }
    Ok(types)
}

// The name and type of a field.
#[cycle(dtype)]
fn field_type(field: &Series) -> PolarsResult<Field>
    ensures ok { IfOk result (λ f. part_of f ≡ field_part (value_of field.now)) }
    ensures err { IfErr result IsNoMemory }
{
    Ok(Field {
        name: field.name().try_clone()?,
        dtype: field.dtype()?,
    })
}

/// These rows of each field.
#[cycle(take)]
pub(crate) fn take_fields(
    fields: &Vec<Series>,
    rows: &[IdxSize],
    alloc: Global,
) -> PolarsResult<Vec<Series>>
    requires { All (HasRows rows.now) (map value_of fields.now.items) }
    ensures ok { let frame = map value_of fields.now.items in
        IfOk result (λ made. map value_of made.items ≡ map (taken rows.now) frame) }
    ensures err { IfErr result IsNoMemory }
{
    let mut made = Vec::with_capacity(alloc, fields.len())?;
    for field in fields {
        made.push(field.take(rows)?)?;
    }
    Ok(made)
}

/// The rows of each field from an offset on, so many at most.
#[cycle(slice)]
pub(crate) fn slice_fields(
    fields: &Vec<Series>,
    offset: i64,
    len: usize,
    alloc: Global,
) -> PolarsResult<Vec<Series>>
    ensures ok { let frame = map value_of fields.now.items in
        IfOk result (λ made. map value_of made.items ≡ map (sliced offset len) frame) }
    ensures err { IfErr result IsNoMemory }
{
    let mut made = Vec::with_capacity(alloc, fields.len())?;
    for field in fields {
        made.push(field.slice(offset, len)?)?;
    }
    Ok(made)
}

/// Each field in one chunk.
#[cycle(rechunk)]
pub(crate) fn rechunk_fields(fields: &Vec<Series>, alloc: Global) -> PolarsResult<Vec<Series>>
    ensures ok { let frame = map value_of fields.now.items in
        IfOk result (λ made. map value_of made.items ≡ map rechunked frame) }
    ensures err { IfErr result IsNoMemory }
{
    let mut made = Vec::with_capacity(alloc, fields.len())?;
    for field in fields {
        made.push(field.rechunk()?)?;
    }
    Ok(made)
}

/// The same fields.
#[cycle(try_clone)]
pub(crate) fn clone_fields(fields: &Vec<Series>, alloc: Global) -> PolarsResult<Vec<Series>>
    ensures ok { IfOk result (λ made. map value_of made.items ≡ map value_of fields.now.items) }
    ensures err { IfErr result IsNoMemory }
{
    let mut made = Vec::with_capacity(alloc, fields.len())?;
    for field in fields {
        made.push(field.try_clone()?)?;
    }
    Ok(made)
}

/// Gives each field a row more than so many, and whether all went well. Where it did not, the first rows of
/// each are as they were.
#[cycle(push_null)]
pub(crate) fn lengthen_fields(fields: &mut Vec<Series>, count: usize) -> bool
    requires long { All (λ f. count ≤ length f.slots) (map value_of fields.old.items) }
    requires few { count + 1 < 2 ^ 63 }
    ensures kept { let before = map value_of fields.old.items in
        KeepAll count before (map value_of fields.new.items) }
    ensures long { let after = map value_of fields.new.items in
        IsTrue result → All (λ f. count + 1 ≤ length f.slots) after }
{
    for place in 0..fields.len() {
        if !lengthen(&mut fields[place], count) {
            return false;
        }
    }
    true
}

// Gives a field a row more than so many, unless it has one, and whether that went well.
#[cycle(push_null)]
fn lengthen(field: &mut Series, count: usize) -> bool
    requires long { count ≤ length (value_of field.old).slots }
    requires few { count + 1 < 2 ^ 63 }
    ensures kept { KeepsRows count (value_of field.old) (value_of field.new) }
    ensures long { IsTrue result → count + 1 ≤ length (value_of field.new).slots }
{
    if field.len() > count {
        return true;
    }
    match field.push_null() {
        Ok(()) => true,
        Err(_) => false,
    }
}

/// The first rows of each field, so many, and behind them the first rows of another's, so many. Where memory is
/// wanting, the first rows of each are as they were.
#[cycle(append)]
pub(crate) fn append_fields(
    fields: &mut Vec<Series>,
    others: Vec<Series>,
    count: usize,
    more: usize,
) -> PolarsResult<()>
    requires typed { let parts = map field_part (map value_of fields.old.items) in
        map field_part (map value_of others.items) ≡ parts }
    requires long { All (λ f. count ≤ length f.slots) (map value_of fields.old.items) }
    requires others_long { All (λ f. more ≤ length f.slots) (map value_of others.items) }
    requires few { count + more < 2 ^ 63 }
    ensures ok { let before = map value_of fields.old.items in
        OnOk result
        (AreJoined count more before (map value_of others.items) (map value_of fields.new.items)) }
    ensures err { IfErr result IsNoMemory }
    ensures kept { let before = map value_of fields.old.items in
        KeepAll count before (map value_of fields.new.items) }
{
    let mut others = others.into_iter();
    for place in 0..fields.len() {
        let Some(other) = others.next() else {
            unreachable!();
        };
        append_field(&mut fields[place], other, count, more)?;
    }
    Ok(())
}

// The first rows of a field, so many, and behind them the first rows of another, so many.
#[cycle(append)]
fn append_field(field: &mut Series, other: Series, count: usize, more: usize) -> PolarsResult<()>
    requires typed { (value_of other).dtype ≡ (value_of field.old).dtype }
    requires long { count ≤ length (value_of field.old).slots }
    requires other_long { more ≤ length (value_of other).slots }
    requires few { count + more < 2 ^ 63 }
    ensures ok { let before = value_of field.old in
        OnOk result (IsJoined count more before (value_of other) (value_of field.new)) }
    ensures err { IfErr result IsNoMemory }
    ensures kept { KeepsRows count (value_of field.old) (value_of field.new) }
{
    let other = first_rows(other, more)?;
    match cut(field, count) {
        Ok(()) => {
            field.append(other)?;
            Ok(())
        }
        Err(error) => refused(other, error),
    }
}

// The first rows of a column, so many.
fn first_rows(column: Series, count: usize) -> PolarsResult<Series>
    requires long { count ≤ length (value_of column).slots }
    requires few { count < 2 ^ 63 }
    ensures kept { IfOk result (λ first. KeepsRows count (value_of column) (value_of first)) }
    ensures exact { IfOk result (λ first. length (value_of first).slots ≡ count) }
    ensures err { IfErr result IsNoMemory }
{
    if column.len() <= count {
        return Ok(column);
    }
    column.slice(0, count)
}

/// Puts a column behind the first rows of another, so many.
#[cycle(append)]
pub(crate) fn put_behind(field: &mut Series, other: Series, count: usize) -> PolarsResult<()>
    requires typed { (value_of other).dtype ≡ (value_of field.old).dtype }
    requires long { count ≤ length (value_of field.old).slots }
    ensures ok { let before = value_of field.old in
        OnOk result (IsPutBehind count before (value_of other) (value_of field.new)) }
    ensures err { IfErr result IsNoMemory }
    ensures kept { OnErr result (KeepsRows count (value_of field.old) (value_of field.new)) }
{
    match cut_for(field, count, &other) {
        Ok(()) => {
            field.append(other)?;
            Ok(())
        }
        Err(error) => refused(other, error),
    }
}

/// The error of a call that has a column to let go of. That is done here, for it takes a check that owns the
/// column at several exits too much memory.
pub(crate) fn refused(_column: Series, error: PolarsError) -> PolarsResult<()>
    ensures { result ≡ Err error }
{
    Err(error)
}

// Takes the rows behind the first, so many, off a column that another is to come behind.
fn cut_for(field: &mut Series, count: usize, other: &Series) -> PolarsResult<()>
    requires long { count ≤ length (value_of field.old).slots }
    ensures ok { OnOk result (length (value_of field.new).slots ≡ count) }
    ensures few { OnOk result (count + length (value_of other.now).slots < 2 ^ 63) }
    ensures err { IfErr result IsNoMemory }
    ensures kept { KeepsRows count (value_of field.old) (value_of field.new) }
{
    // Its clauses say that the rows are few.
    let _ = field.len();
    if count + other.len() >= 1 << 63 {
        return Err(PolarsError::NoMemory);
    }
    cut(field, count)?;
    Ok(())
}

/// Takes the rows behind the first, so many, off a column.
pub(crate) fn cut(field: &mut Series, count: usize) -> PolarsResult<()>
    requires long { count ≤ length (value_of field.old).slots }
    requires few { count < 2 ^ 63 }
    ensures ok { OnOk result (length (value_of field.new).slots ≡ count) }
    ensures err { IfErr result IsNoMemory }
    ensures kept { KeepsRows count (value_of field.old) (value_of field.new) }
{
    if field.len() <= count {
        return Ok(());
    }
    *field = field.slice(0, count)?;
    Ok(())
}

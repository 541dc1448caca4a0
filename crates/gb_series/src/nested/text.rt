//! The text of the items inside a list.

ghost use Rattle.std.specs.Prelude.{◌≡◌, ◌<◌, ◌≤◌, ◌++◌, length, map, All, IfOk, OnOk};
ghost use Rattle.gb_base.specs.DataType.{type_of};
ghost use Rattle.gb_defs.specs.CellText.{is_quoted, part_text, quoted};
ghost use Rattle.gb_defs.specs.Slices.{between};
ghost use Rattle.gb_defs.specs.Slot.{slot_at};
ghost use Rattle.gb_series.specs.Structs.{struct_text};
ghost use Rattle.gb_series.specs.Text.{comma_behind, escaped, list_text};
ghost use Rattle.gb_series.specs.Series.{value_of};

use crate::series::Series;
use gb_base::data_type::DataType;
use gb_cols::series_trait::SeriesTrait;
use std::alloc::AllocError;

// Whether the values of a type stand between quotes inside a list.
fn is_quoted(dtype: &DataType) -> bool
    ensures { result ≡ is_quoted (type_of dtype.now) }
{
    match dtype {
        DataType::String => true,
        DataType::Categorical(_, _) => true,
        DataType::Enum(_, _) => true,
        _ => false,
    }
}

/// Whether the items of a column stand between quotes inside a list.
pub(crate) fn has_quotes(items: &Series) -> Result<bool, AllocError>
    ensures { IfOk result (λ quotes. quotes ≡ is_quoted (value_of items.now).dtype) }
{
    match items.dtype() {
        Ok(dtype) => Ok(is_quoted(&dtype)),
        Err(_) => Err(AllocError),
    }
}

// A byte of a text between quotes.
fn push_escaped(byte: u8, to: &mut Vec<u8>) -> Result<(), AllocError>
    ensures { OnOk result (to.new.items ≡ to.old.items ++ escaped byte) }
{
    if byte == b'"' || byte == b'\\' {
        to.push(b'\\')?;
    }
    to.push(byte)?;
    Ok(())
}

// The text between quotes.
fn write_quoted(text: &[u8], to: &mut Vec<u8>) -> Result<(), AllocError>
    ensures { OnOk result (to.new.items ≡ to.old.items ++ quoted text.now) }
{
    to.push(b'"')?;
    for byte in text {
        push_escaped(*byte, to)?;
    }
    to.push(b'"')?;
    Ok(())
}

// The comma in front of an item, unless it is the first.
fn push_comma(before: usize, to: &mut Vec<u8>) -> Result<(), AllocError>
    ensures { OnOk result (to.new.items ≡ to.old.items ++ comma_behind before) }
{
    if before == 0 {
        return Ok(());
    }
    to.push(b',')?;
    Ok(())
}

// The text of an item, which is quoted where its type is.
#[cycle(write_cell)]
fn write_item(
    items: &Series,
    place: usize,
    quotes: bool,
    to: &mut Vec<u8>,
) -> Result<(), AllocError>
    requires inside { place < length (value_of items.now).slots }
    requires quotes { quotes ≡ is_quoted (value_of items.now).dtype }
    ensures { let item = slot_at (value_of items.now).slots place in
        OnOk result (to.new.items ≡ to.old.items ++ part_text (value_of items.now).dtype item) }
{
    // Its clauses say that each item fits the type.
    let _ = items.len();
    if !quotes || !items.is_valid(place) {
        return items.write_cell(place, "null", to);
    }
    let mut text = Vec::new(items.allocator());
    items.write_cell(place, "null", &mut text)?;
    write_quoted(&text, to)?;
    Ok(())
}

/// The text of the items from one place up to another, as of a list.
#[cycle(write_cell)]
pub(crate) fn write_items(
    items: &Series,
    start: usize,
    end: usize,
    quotes: bool,
    to: &mut Vec<u8>,
) -> Result<(), AllocError>
    requires rising { start ≤ end }
    requires inside { end ≤ length (value_of items.now).slots }
    requires quotes { quotes ≡ is_quoted (value_of items.now).dtype }
    ensures { let slots = between start end (value_of items.now).slots in
        OnOk result (to.new.items ≡ to.old.items ++ list_text (value_of items.now).dtype slots) }
{
    to.push(b'[')?;
    for place in start..end {
        push_comma(place - start, to)?;
        write_item(items, place, quotes, to)?;
    }
    to.push(b']')?;
    Ok(())
}

/// The text of a row of fields, as of a struct.
#[cycle(write_cell)]
pub(crate) fn write_fields(
    fields: &Vec<Series>,
    row: usize,
    to: &mut Vec<u8>,
) -> Result<(), AllocError>
    requires { All (λ f. row < length f.slots) (map value_of fields.now.items) }
    ensures { let frame = map value_of fields.now.items in
        OnOk result (to.new.items ≡ to.old.items ++ struct_text frame row) }
{
    to.push(b'[')?;
    for (place, field) in fields.iter().enumerate() {
        push_comma(place, to)?;
        write_item(field, row, has_quotes(field)?, to)?;
    }
    to.push(b']')?;
    Ok(())
}

//! The bytes of rows of columns: each slot ascending, a null before all others, a category by its code.

ghost use Rattle.std.specs.Prelude.{◌≡◌, [], map, IfOk, IfErr, OnOk};
ghost use Rattle.gb_base.specs.PlSmallStr.{name_of, IsNoMemory};
ghost use Rattle.gb_defs.specs.Column.{fresh_column, frame_height};
ghost use Rattle.gb_defs.specs.ColumnType as typed;
ghost use Rattle.gb_series.specs.Series.{value_of};
ghost use Rattle.gb_rows.specs.Rows.{AreOfOneLength, all_row_bytes, row_slots};
ghost use Rattle.gb_rows.specs.Told.{AreToldByRows, FitTypes};

use crate::keys::encode_keys;
use crate::rows_encoded::RowsEncoded;
use gb_base::error::PolarsResult;
use gb_base::small_str::PlSmallStr;
use gb_cols::binary::BinaryOffsetChunked;
use gb_cols::series_trait::SeriesTrait;
use gb_series::series::Column;
use std::alloc::Global;

/// The bytes of each row. Without columns there are no rows. Two passes a column: one for how long the rows
/// are, and one for the bytes.
pub fn _get_rows_encoded_unordered(alloc: Global, by: &[Column]) -> PolarsResult<RowsEncoded>
    requires { AreOfOneLength (map value_of by.now) }
    ensures ok { IfOk result (λ rows. rows ≡ all_row_bytes (map value_of by.now)) }
    ensures told { OnOk result (AreToldByRows (map value_of by.now)) }
    ensures err { IfErr result IsNoMemory }
{
    tell_keys(by);
    let rows = encode_keys(alloc, by, height_of(by))?;
    Ok(rows)
}

fn height_of(by: &[Column]) -> usize
    ensures { result ≡ frame_height (map value_of by.now) }
{
    match by.first() {
        Some(column) => column.len(),
        None => 0,
    }
}

// A column's length tells that its slots fit its type.
fn tell_keys(keys: &[Column])
    ensures { FitTypes (map value_of keys.now) }
{
    for key in keys {
        let _ = key.len();
    }
}

/// The same in one chunk of a column with an empty name.
pub fn encode_rows_unordered(alloc: Global, by: &[Column]) -> PolarsResult<BinaryOffsetChunked>
    requires { AreOfOneLength (map value_of by.now) }
    ensures ok { let slots = row_slots (map value_of by.now) in
        IfOk result (λ c. c ≡ fresh_column [] (typed.Flat typed.BinaryOffset) slots) }
    ensures told { OnOk result (AreToldByRows (map value_of by.now)) }
    ensures err { IfErr result IsNoMemory }
{
    let rows = _get_rows_encoded_unordered(alloc, by)?;
    Ok(rows.into_array())
}

/// The same in one chunk of a column with a name.
pub fn _get_rows_encoded_ca_unordered(
    alloc: Global,
    name: PlSmallStr,
    by: &[Column],
) -> PolarsResult<BinaryOffsetChunked>
    requires { AreOfOneLength (map value_of by.now) }
    ensures ok { let slots = row_slots (map value_of by.now) in IfOk result
        (λ c. c ≡ fresh_column (name_of name) (typed.Flat typed.BinaryOffset) slots) }
    ensures told { OnOk result (AreToldByRows (map value_of by.now)) }
    ensures err { IfErr result IsNoMemory }
{
    let mut rows = encode_rows_unordered(alloc, by)?;
    rows.rename(name);
    Ok(rows)
}

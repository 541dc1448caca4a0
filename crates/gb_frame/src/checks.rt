//! What is asked of a frame before its rows are grouped.

ghost use Rattle.std.specs.Prelude.{◌≡◌, None, Ok, IfErr, IfOk, OnOk};
ghost use Rattle.std.specs.Result.{result_err};
ghost use Rattle.gb_base.specs.PolarsError.{Explains};
ghost use Rattle.gb_defs.specs.Fault.{missing_fault, rows_fault};
ghost use Rattle.gb_defs.specs.Groups.{HasRowNumbers};
ghost use Rattle.gb_defs.specs.Outcome.{find_columns};
ghost use Rattle.gb_rows.specs.Lent.{keys_in};
ghost use Rattle.gb_frame.specs.Agg.{aggs_of, names_of};
ghost use Rattle.gb_frame.specs.Grouping.{missing_cause};

use crate::agg::Agg;
use crate::named_columns::NamedColumns;
use gb_base::error::{PolarsError, PolarsResult};
use gb_base::small_str::PlSmallStr;
use gb_series::frame::DataFrame;
use gb_series::series::Series;
use std::alloc::Global;

// The columns of these names, or the first name that is missing.
pub(crate) fn find_keys<'a>(
    alloc: Global,
    frame: &'a DataFrame,
    by: &[PlSmallStr],
) -> PolarsResult<Vec<&'a Series>>
    ensures ok { IfOk result (λ keys.
        find_columns frame.now (names_of by.now) ≡ Ok (keys_in keys.items)) }
    ensures err { IfErr result (λ e.
        Explains e (result_err (find_columns frame.now (names_of by.now)))) }
{
    let mut keys = Vec::with_capacity(alloc, by.len())?;
    for name in by {
        keys.push(frame.column(name.as_str())?)?;
    }
    Ok(keys)
}

// That so many rows have numbers.
pub(crate) fn check_height(height: usize) -> PolarsResult<()>
    ensures ok { OnOk result (HasRowNumbers height) }
    ensures err { IfErr result (λ e. Explains e (rows_fault height)) }
{
    if height > u32::MAX as usize {
        return Err(PolarsError::TooManyRows(height as u64));
    }
    Ok(())
}

// That the frame has the columns.
pub(crate) fn check_columns(frame: &NamedColumns<'_>, aggs: &[Agg]) -> PolarsResult<()>
    ensures ok { OnOk result (missing_fault frame.now (aggs_of aggs.now) ≡ None) }
    ensures err { IfErr result (λ e. Explains e (missing_fault frame.now (aggs_of aggs.now))) }
{
    for agg in aggs {
        check_column(frame, agg)?;
    }
    Ok(())
}

// That the frame has the column of an aggregate that needs one.
fn check_column(frame: &NamedColumns<'_>, agg: &Agg) -> PolarsResult<()>
    ensures ok { OnOk result (missing_cause frame.now agg.now ≡ None) }
    ensures err { IfErr result (λ e. Explains e (missing_cause frame.now agg.now)) }
{
    if !agg.method.needs_column() {
        return Ok(());
    }
    frame.column(agg.column.as_str())?;
    Ok(())
}

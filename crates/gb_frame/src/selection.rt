//! Which columns of a grouped frame are aggregated.

ghost use Rattle.std.specs.Prelude.{◌≡◌, None, IfErr, IfOk};
ghost use Rattle.std.specs.List.{list_any};
ghost use Rattle.std.specs.Str.{bytes_eq};
ghost use Rattle.gb_defs.specs.Column.{names_of as frame_names};
ghost use Rattle.gb_base.specs.PlSmallStr.{IsNoMemory};
ghost use Rattle.gb_agg.specs.Method.{method_of};
ghost use Rattle.gb_rows.specs.Lent.{keys_in};
ghost use Rattle.gb_frame.specs.Agg.{aggs_of, names_of};
ghost use Rattle.gb_frame.specs.Refusals.{chosen, each_by};

use crate::agg::Agg;
use gb_agg::method::GroupByMethod;
use gb_base::error::PolarsResult;
use gb_base::small_str::PlSmallStr;
use gb_cols::series_trait::SeriesTrait;
use gb_series::frame::DataFrame;
use gb_series::series::Series;
use std::alloc::Global;

// A method of the columns of these names.
pub(crate) fn named_aggs(
    alloc: Global,
    names: &[PlSmallStr],
    method: GroupByMethod,
) -> PolarsResult<Vec<Agg>>
    ensures ok { IfOk result (λ aggs.
        aggs_of aggs.items ≡ each_by (method_of method) (names_of names.now)) }
    ensures err { IfErr result IsNoMemory }
{
    let mut aggs = Vec::with_capacity(alloc, names.len())?;
    for name in names {
        let column = name.try_clone()?;
        aggs.push(Agg { column, method })?;
    }
    Ok(aggs)
}

// A method of the columns whose name is no key's.
pub(crate) fn other_aggs(
    alloc: Global,
    frame: &DataFrame,
    keys: &[&Series],
    method: GroupByMethod,
) -> PolarsResult<Vec<Agg>>
    ensures ok { let names = chosen frame.now (keys_in keys.now) None in IfOk result (λ aggs.
        aggs_of aggs.items ≡ each_by (method_of method) names) }
    ensures err { IfErr result IsNoMemory }
{
    let mut aggs = Vec::new(alloc);
    for column in frame.get_columns() {
        if !is_key(keys, column.name().as_str()) {
            let column = column.name().try_clone()?;
            aggs.push(Agg { column, method })?;
        }
    }
    Ok(aggs)
}

// Whether a key has this name.
fn is_key(keys: &[&Series], name: &str) -> bool
    ensures { result ≡ list_any (bytes_eq name.now) (frame_names (keys_in keys.now)) }
{
    for key in keys {
        if name == key.name().as_str() {
            return true;
        }
    }
    false
}

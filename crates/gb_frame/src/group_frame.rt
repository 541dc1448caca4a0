//! A frame grouped by the names of its columns.

ghost use Rattle.std.specs.Prelude.{◌≡◌, ◌<◌, Ok, length, map, IfErr, IfOk};
ghost use Rattle.gb_base.specs.PolarsError.{Explains};
ghost use Rattle.gb_base.specs.Pool.{threshold_of, workers_of};
ghost use Rattle.gb_defs.specs.Column.{content};
ghost use Rattle.gb_defs.specs.Notes.{IsTraced};
ghost use Rattle.gb_defs.specs.Outcome.{grouped};
ghost use Rattle.gb_paths.specs.Tuples.{trace_value};
ghost use Rattle.gb_frame.specs.Agg.{aggs_of, names_of};
ghost use Rattle.gb_frame.specs.Refusals.{grouping_fault};

use crate::agg::Agg;
use crate::checks::find_keys;
use crate::group_agg::group_agg_traced;
use crate::options::GroupOptions;
use gb_base::device::Gate;
use gb_base::error::PolarsResult;
use gb_base::pool::Pool;
use gb_base::small_str::PlSmallStr;
use gb_paths::trace::Trace;
use gb_series::frame::DataFrame;
use std::alloc::Global;
use std::thread::Threads;

/// `group_agg_traced` by the columns of these names, in the order of first rows and by as many workers as the
/// pool has.
pub fn group_frame<R: Threads + Sync, G: Gate + Sync>(
    rt: &R,
    alloc: Global,
    frame: &DataFrame,
    by: &[PlSmallStr],
    aggs: &[Agg],
    pool: &Pool,
    gate: &G,
) -> PolarsResult<(DataFrame, Trace)>
    requires some { 0 < length by.now }
    ensures ok { IfOk result (λ made.
        grouped frame.now (names_of by.now) (aggs_of aggs.now) ≡ Ok (map content made.0)) }
    ensures traced { IfOk result (λ made. IsTraced frame.now (names_of by.now)
        (workers_of pool.now) (threshold_of pool.now) (trace_value made.1)) }
    ensures err { IfErr result (λ e.
        Explains e (grouping_fault frame.now (names_of by.now) (aggs_of aggs.now))) }
{
    let keys = find_keys(alloc, frame, by)?;
    let options = GroupOptions {
        multithreaded: true,
        sorted: true,
    };
    group_agg_traced(rt, alloc, frame, &keys, aggs, options, pool, gate)
}

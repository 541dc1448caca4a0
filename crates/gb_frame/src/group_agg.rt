//! From a frame and keys to the frame of the groups: one row for each class of rows whose keys agree.

ghost use Rattle.std.specs.Prelude.{◌≡◌, ◌<◌, All, None, Ok, length, map, true, IfErr, IfOk, OnOk};
ghost use Rattle.gb_base.specs.PolarsError.{Explains};
ghost use Rattle.gb_defs.specs.Column.{IsFrame, content, frame_height};
ghost use Rattle.gb_defs.specs.Fault.{fault, missing_fault, unfit_fault};
ghost use Rattle.gb_defs.specs.Groups.{HasRowNumbers, lists_in};
ghost use Rattle.gb_defs.specs.Outcome.{grouped_by};
ghost use Rattle.gb_paths.specs.Classes.{grouping_of};
ghost use Rattle.gb_agg.specs.Method.{goes_by_numbers};
ghost use Rattle.gb_paths.specs.Tuples.{trace_value};
ghost use Rattle.gb_rows.specs.Lent.{keys_in};
ghost use Rattle.gb_rows.specs.Rows.{AreOfOneLength};
ghost use Rattle.gb_frame.specs.Agg.{aggs_of};
ghost use Rattle.gb_frame.specs.Answers.{IsAnswer, IsAnswerOver, IsTracedAnswer};
ghost use Rattle.gb_frame.specs.Grouping.{AreGroupsIn, AreMadeOver, HasHeight, IsGrouping, aggregates_over, answer_parts, contents_of, firsts_in};
ghost use Rattle.gb_frame.specs.Refusals.{aggs_fault};

use crate::agg::Agg;
use crate::checks::check_columns;
use crate::columns::{aggregates, keys_by_workers};
use crate::key::{fit_keys, lend, lent_keys};
use crate::named_columns::NamedColumns;
use crate::options::GroupOptions;
use gb_agg::over::Over;
use gb_base::device::Gate;
use gb_base::error::PolarsResult;
use gb_base::pool::Pool;
use gb_cols::series_trait::SeriesTrait;
use gb_paths::by_keys::classes_by_detected;
use gb_paths::classes::Classes;
use gb_paths::trace::Trace;
use gb_series::frame::DataFrame;
use gb_series::series::Series;
use std::alloc::Global;
use std::thread::Threads;

/// The keys at the first row of each group, and the aggregates over its rows. A key of one row stands for it in
/// every row of the frame.
pub fn group_agg<R: Threads + Sync, G: Gate + Sync>(
    rt: &R,
    alloc: Global,
    frame: &DataFrame,
    by: &[&Series],
    aggs: &[Agg],
    options: GroupOptions,
    pool: &Pool,
    gate: &G,
) -> PolarsResult<DataFrame>
    ensures ok { IfOk result (λ made. IsAnswer frame.now (keys_in by.now) (aggs_of aggs.now)
        options pool.now (map content made)) }
    ensures sorted { IfOk result (λ made. options.sorted ≡ true →
        grouped_by frame.now (keys_in by.now) (aggs_of aggs.now) ≡ Ok (map content made)) }
    ensures fits { OnOk result (fault frame.now (keys_in by.now) (aggs_of aggs.now) ≡ None) }
    ensures err { IfErr result (λ e.
        Explains e (fault frame.now (keys_in by.now) (aggs_of aggs.now))) }
{
    let (answer, _) = group_agg_traced(rt, alloc, frame, by, aggs, options, pool, gate)?;
    Ok(answer)
}

/// The same, and how the rows were grouped.
pub fn group_agg_traced<R: Threads + Sync, G: Gate + Sync>(
    rt: &R,
    alloc: Global,
    frame: &DataFrame,
    by: &[&Series],
    aggs: &[Agg],
    options: GroupOptions,
    pool: &Pool,
    gate: &G,
) -> PolarsResult<(DataFrame, Trace)>
    ensures ok { IfOk result (λ made. IsTracedAnswer frame.now (keys_in by.now)
        (aggs_of aggs.now) options pool.now (map content made.0) (trace_value made.1)) }
    ensures sorted { IfOk result (λ made. options.sorted ≡ true →
        grouped_by frame.now (keys_in by.now) (aggs_of aggs.now) ≡ Ok (map content made.0)) }
    ensures fits { OnOk result (fault frame.now (keys_in by.now) (aggs_of aggs.now) ≡ None) }
    ensures err { IfErr result (λ e.
        Explains e (fault frame.now (keys_in by.now) (aggs_of aggs.now))) }
{
    let keys = fit_keys(alloc, frame, lent_keys(alloc, by)?)?;
    let named = NamedColumns::new(alloc, frame.get_columns())?;
    check_columns(&named, aggs)?;
    let lent = lend(alloc, &keys)?;
    answer_over(rt, alloc, &named, &lent, aggs, options, pool, gate)
}

// The same by keys that all have as many rows as the frame, or as each other.
fn answer_over<R: Threads + Sync, G: Gate + Sync>(
    rt: &R,
    alloc: Global,
    frame: &NamedColumns<'_>,
    keys: &[&Series],
    aggs: &[Agg],
    options: GroupOptions,
    pool: &Pool,
    gate: &G,
) -> PolarsResult<(DataFrame, Trace)>
    requires frame { IsFrame frame.now }
    requires some { 0 < length keys.now }
    requires aligned { AreOfOneLength (keys_in keys.now) }
    requires high { HasHeight frame.now (frame_height (keys_in keys.now)) }
    requires few { HasRowNumbers (frame_height (keys_in keys.now)) }
    requires found { missing_fault frame.now (aggs_of aggs.now) ≡ None }
    ensures ok { IfOk result (λ made. IsAnswerOver frame.now (keys_in keys.now)
        (aggs_of aggs.now) options pool.now (map content made.0) (trace_value made.1)) }
    ensures fits { OnOk result
        (aggs_fault frame.now (keys_in keys.now) (aggs_of aggs.now) ≡ None) }
    ensures err { IfErr result (λ e.
        Explains e (aggs_fault frame.now (keys_in keys.now) (aggs_of aggs.now))) }
{
    let GroupOptions {
        multithreaded,
        sorted,
    } = options;
    let by_numbers = go_by_numbers(aggs);
    let (classes, path) = classes_by_detected(
        rt,
        keys,
        multithreaded,
        sorted,
        by_numbers,
        pool,
        gate,
    )?;
    let trace = Trace::new(path, keys[0].len(), classes.len());
    let columns = answer_columns(rt, alloc, frame, keys, aggs, classes, pool)?;
    let answer = DataFrame::new(columns)?;
    Ok((answer, trace))
}

// Whether each aggregate can be made from the number of each row's group.
fn go_by_numbers(aggs: &[Agg]) -> bool
    ensures { result ≡ true → All (λ agg. goes_by_numbers agg.method ≡ true) aggs.now }
{
    for agg in aggs {
        if !agg.method.goes_by_numbers() {
            return false;
        }
    }
    true
}

// The columns of the answer. The first rows are moved out of the classes, so the aggregates are made first.
fn answer_columns<R: Threads + Sync>(
    rt: &R,
    alloc: Global,
    frame: &NamedColumns<'_>,
    keys: &[&Series],
    aggs: &[Agg],
    classes: Classes,
    pool: &Pool,
) -> PolarsResult<Vec<Series>>
    requires grouped { IsGrouping frame.now (keys_in keys.now) (grouping_of classes) }
    requires takes { AreMadeOver frame.now aggs.now classes }
    requires found { missing_fault frame.now (aggs_of aggs.now) ≡ None }
    ensures ok { IfOk result (λ columns. contents_of columns.items
        ≡ answer_parts frame.now (keys_in keys.now) (aggs_of aggs.now)
        (firsts_in (grouping_of classes)) (lists_in (grouping_of classes))) }
    ensures fits { OnOk result (unfit_fault frame.now (aggs_of aggs.now) ≡ None) }
    ensures err { IfErr result (λ e. Explains e (unfit_fault frame.now (aggs_of aggs.now))) }
{
    let mut folded = class_aggregates(rt, alloc, frame, aggs, &classes, pool)?;
    let firsts = classes.take_firsts()?;
    let mut columns = keys_by_workers(rt, alloc, keys, &firsts, pool)?;
    columns.append(&mut folded)?;
    Ok(columns)
}

// The aggregates over classes.
fn class_aggregates<R: Threads + Sync>(
    rt: &R,
    alloc: Global,
    frame: &NamedColumns<'_>,
    aggs: &[Agg],
    classes: &Classes,
    pool: &Pool,
) -> PolarsResult<Vec<Series>>
    requires groups { AreGroupsIn frame.now (grouping_of classes.now) }
    requires takes { AreMadeOver frame.now aggs.now classes.now }
    requires found { missing_fault frame.now (aggs_of aggs.now) ≡ None }
    ensures ok { IfOk result (λ columns. contents_of columns.items
        ≡ aggregates_over frame.now (aggs_of aggs.now) (lists_in (grouping_of classes.now))) }
    ensures fits { OnOk result (unfit_fault frame.now (aggs_of aggs.now) ≡ None) }
    ensures err { IfErr result (λ e. Explains e (unfit_fault frame.now (aggs_of aggs.now))) }
{
    match classes {
        Classes::Groups(groups) => {
            aggregates(rt, alloc, frame, aggs, &Over::Groups(groups.view()), pool)
        }
        Classes::Numbers(numbers) => {
            aggregates(rt, alloc, frame, aggs, &Over::Numbers(numbers), pool)
        }
    }
}

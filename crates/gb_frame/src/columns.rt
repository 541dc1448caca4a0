//! The columns of an answer: the keys at the first rows of groups, and the aggregates over their rows.

ghost use Rattle.std.specs.Prelude.{◌≡◌, ◌+◌, ◌<◌, ◌≤◌, All, drop, length, take, None, false, is_none, map, IfErr, IfOk, OnOk};
ghost use Rattle.std.specs.Bool.{OnTrue};
ghost use Rattle.gb_base.specs.PlSmallStr.{IsNoMemory, name_of};
ghost use Rattle.gb_base.specs.PolarsError.{Explains};
ghost use Rattle.gb_defs.specs.Answer.{aggregated};
ghost use Rattle.gb_defs.specs.Classes.{rows_below};
ghost use Rattle.gb_defs.specs.Column.{content, find_column, taken};
ghost use Rattle.gb_defs.specs.Fault.{missing_fault, unfit_fault};
ghost use Rattle.gb_defs.specs.Groups.{lists_in};
ghost use Rattle.gb_rows.specs.Lent.{keys_in};
ghost use Rattle.gb_series.specs.Series.{value_of};
ghost use Rattle.gb_agg.specs.Over.{Takes, grouping_over};
ghost use Rattle.gb_frame.specs.Agg.{agg_of, aggs_of};
ghost use Rattle.gb_frame.specs.Grouping.{AreGroupsIn, AreMadeTo, HasColumn, HasRows, MakesAt, NumberRowsIn, taken_at, aggregates_over, contents_of, firsts_in, unfit_cause};

use crate::agg::Agg;
use crate::named_columns::NamedColumns;
use gb_agg::method::fmt_group_by_column;
use gb_agg::over::{Over, aggregate_over};
use gb_base::error::PolarsResult;
use gb_base::nullable_idx::IdxSize;
use gb_base::pool::Pool;
use gb_cols::series_trait::SeriesTrait;
use gb_flat::shares::{join_shares, map_shares};
use gb_groups::view::GroupsView;
use gb_series::series::Series;
use std::alloc::{AllocError, Global};
use std::thread::{self, Threads};

// For fewer rows no thread is started to take keys at them.
const SHARE_ROWS: usize = 65_536;

// Whether rows are all rows of so many as they are, in order.
fn are_all(rows: &[IdxSize]) -> bool
    ensures { OnTrue result (rows.now ≡ rows_below (length rows.now)) }
{
    for place in 0..rows.len() {
        if rows[place] as usize != place {
            return false;
        }
    }
    true
}

// A key at some rows. Where they are all of them it is copied chunk by chunk, and no row is looked at.
fn key_at(key: &Series, rows: &[IdxSize], all: bool) -> PolarsResult<Series>
    requires rows { HasRows rows.now (value_of key.now) }
    requires all { OnTrue all (rows.now ≡ rows_below (length rows.now)) }
    ensures ok { IfOk result (λ column.
        content (value_of column) ≡ content (taken rows.now (value_of key.now))) }
    ensures err { IfErr result IsNoMemory }
{
    if all && rows.len() == key.len() {
        return key.rechunk();
    }
    key.take(rows)
}

// The keys at some rows.
pub(crate) fn keys_at(
    alloc: Global,
    keys: &[&Series],
    rows: &[IdxSize],
) -> PolarsResult<Vec<Series>>
    requires { All (HasRows rows.now) (keys_in keys.now) }
    ensures ok { let taken = map (λ key. content (taken rows.now key)) (keys_in keys.now) in
        IfOk result (λ columns. contents_of columns.items ≡ taken) }
    ensures err { IfErr result IsNoMemory }
{
    let all = are_all(rows);
    let mut columns = Vec::with_capacity(alloc, keys.len())?;
    for key in keys {
        columns.push(key_at(key, rows, all)?)?;
    }
    Ok(columns)
}

// The same by so many workers as the pool has, each some keys that follow each other, where there are many rows.
pub(crate) fn keys_by_workers<R: Threads + Sync>(
    rt: &R,
    alloc: Global,
    keys: &[&Series],
    rows: &[IdxSize],
    pool: &Pool,
) -> PolarsResult<Vec<Series>>
    requires { All (HasRows rows.now) (keys_in keys.now) }
    ensures ok { let taken = map (λ key. content (taken rows.now key)) (keys_in keys.now) in
        IfOk result (λ columns. contents_of columns.items ≡ taken) }
    ensures err { IfErr result IsNoMemory }
{
    let workers = pool.workers().min(keys.len());
    if workers < 2 || rows.len() < SHARE_ROWS {
        return keys_at(alloc, keys, rows);
    }
    let part = |range: (usize, usize)|
        requires { range.0 + range.1 ≤ length keys.now
            × All (HasRows rows.now) (keys_in keys.now) }
        ensures { IfOk result (λ columns. contents_of columns.items
            ≡ map (taken_at rows.entry.now) (take range.1 (drop range.0 keys.entry.now)))
            × IfErr result IsNoMemory }
    { keys_of_range(alloc, keys, range, rows) };
    let made = map_shares(rt, alloc, keys.len(), workers, &part)?;
    let columns = join_shares(alloc, made)?;
    Ok(columns)
}

// Those of a range of keys, its first and how many they are.
fn keys_of_range(
    alloc: Global,
    keys: &[&Series],
    range: (usize, usize),
    rows: &[IdxSize],
) -> PolarsResult<Vec<Series>>
    requires inside { range.0 + range.1 ≤ length keys.now }
    requires rows { All (HasRows rows.now) (keys_in keys.now) }
    ensures ok { IfOk result (λ columns. contents_of columns.items
        ≡ map (taken_at rows.now) (take range.1 (drop range.0 keys.now))) }
    ensures err { IfErr result IsNoMemory }
{
    let (first, count) = range;
    keys_at(alloc, &keys[first..first + count], rows)
}

// The first row of each group.
pub(crate) fn first_rows(alloc: Global, groups: &GroupsView<'_>) -> Result<Vec<IdxSize>, AllocError>
    ensures { IfOk result (λ rows. rows.items ≡ firsts_in groups.now) }
{
    let mut rows = Vec::with_capacity(alloc, groups.len())?;
    for place in 0..groups.len() {
        rows.push(groups.get(place).first())?;
    }
    Ok(rows)
}

// The aggregates over the rows of each group, some of them at a time.
pub(crate) fn aggregates<R: Threads + Sync>(
    rt: &R,
    alloc: Global,
    frame: &NamedColumns<'_>,
    aggs: &[Agg],
    over: &Over<'_>,
    pool: &Pool,
) -> PolarsResult<Vec<Series>>
    requires groups { AreGroupsIn frame.now (grouping_over over.now) }
    requires takes { All (λ agg. Takes over.now agg.method) aggs.now }
    requires rows { NumberRowsIn frame.now over.now }
    requires found { missing_fault frame.now (aggs_of aggs.now) ≡ None }
    ensures ok { IfOk result (λ columns. contents_of columns.items
        ≡ aggregates_over frame.now (aggs_of aggs.now) (lists_in (grouping_over over.now))) }
    ensures fits { OnOk result (unfit_fault frame.now (aggs_of aggs.now) ≡ None) }
    ensures err { IfErr result (λ e. Explains e (unfit_fault frame.now (aggs_of aggs.now))) }
{
    let at_once = over.at_once(pool);
    let mut columns = Vec::with_capacity(alloc, aggs.len())?;
    let mut place = 0;
    while place < aggs.len() {
        let count = at_once.min(aggs.len() - place);
        push_aggregates(
            rt,
            alloc,
            frame,
            aggs,
            (place, count),
            over,
            pool,
            &mut columns,
        )?;
        place += count;
    }
    Ok(columns)
}

// Those of a range, its first and how many they are, behind those before, each in a thread of its own where there are
// several.
fn push_aggregates<R: Threads + Sync>(
    rt: &R,
    alloc: Global,
    frame: &NamedColumns<'_>,
    aggs: &[Agg],
    range: (usize, usize),
    over: &Over<'_>,
    pool: &Pool,
    columns: &mut Vec<Series>,
) -> PolarsResult<()>
    requires inside { range.0 + range.1 ≤ length aggs.now }
    requires groups { AreGroupsIn frame.now (grouping_over over.now) }
    requires takes { All (λ agg. Takes over.now agg.method) aggs.now }
    requires rows { NumberRowsIn frame.now over.now }
    requires found { missing_fault frame.now (aggs_of aggs.now) ≡ None }
    requires before { AreMadeTo frame.now over.now aggs.now range.0 columns.old.items }
    ensures ok { OnOk result
        (AreMadeTo frame.now over.now aggs.now (range.0 + range.1) columns.new.items) }
    ensures err { IfErr result (λ e. Explains e (unfit_fault frame.now (aggs_of aggs.now))) }
{
    let (first, count) = range;
    let part = |k: usize| -> PolarsResult<Series>
        requires { (first + k < length aggs.now)
            × AreGroupsIn frame.now (grouping_over over.now)
            × All (λ agg. Takes over.now agg.method) aggs.now
            × NumberRowsIn frame.now over.now
            × (missing_fault frame.now (aggs_of aggs.now) ≡ None) }
        ensures { MakesAt frame.entry.now over.entry.now aggs.entry.now (first + k) result }
    { aggregate_at(rt, alloc, frame, aggs, first + k, over, pool) };
    let found = thread::map_indices(rt, alloc, count, &part)?;
    for column in found {
        let made = column?;
        columns.push(made)?;
    }
    Ok(())
}

// The one at a place.
fn aggregate_at<R: Threads + Sync>(
    rt: &R,
    alloc: Global,
    frame: &NamedColumns<'_>,
    aggs: &[Agg],
    place: usize,
    over: &Over<'_>,
    pool: &Pool,
) -> PolarsResult<Series>
    requires inside { place < length aggs.now }
    requires groups { AreGroupsIn frame.now (grouping_over over.now) }
    requires takes { All (λ agg. Takes over.now agg.method) aggs.now }
    requires rows { NumberRowsIn frame.now over.now }
    requires found { missing_fault frame.now (aggs_of aggs.now) ≡ None }
    ensures { MakesAt frame.now over.now aggs.now place result }
{
    agg_column(rt, alloc, frame, &aggs[place], over, pool)
}

// An aggregate over the rows of each group.
fn agg_column<R: Threads + Sync>(
    rt: &R,
    alloc: Global,
    frame: &NamedColumns<'_>,
    agg: &Agg,
    over: &Over<'_>,
    pool: &Pool,
) -> PolarsResult<Series>
    requires groups { AreGroupsIn frame.now (grouping_over over.now) }
    requires takes { Takes over.now agg.now.method }
    requires rows { NumberRowsIn frame.now over.now }
    requires found { HasColumn frame.now agg.now }
    ensures ok { IfOk result (λ s. content (value_of s) ≡ aggregated (agg_of agg.now)
        (find_column frame.now (name_of agg.now.column)) (lists_in (grouping_over over.now))) }
    ensures fits { OnOk result (unfit_cause frame.now agg.now ≡ None) }
    ensures err { IfErr result (λ e. Explains e (unfit_cause frame.now agg.now)) }
{
    if agg.method.needs_column() {
        return found_aggregate(rt, alloc, frame, agg, over, pool);
    }
    let name = fmt_group_by_column(alloc, agg.column.as_str(), agg.method)?;
    over.row_lists(alloc, name)
}

// The aggregate of a column that the frame has.
fn found_aggregate<R: Threads + Sync>(
    rt: &R,
    alloc: Global,
    frame: &NamedColumns<'_>,
    agg: &Agg,
    over: &Over<'_>,
    pool: &Pool,
) -> PolarsResult<Series>
    requires groups { AreGroupsIn frame.now (grouping_over over.now) }
    requires takes { Takes over.now agg.now.method }
    requires rows { NumberRowsIn frame.now over.now }
    requires found { is_none (find_column frame.now (name_of agg.now.column)) ≡ false }
    ensures ok { IfOk result (λ s. content (value_of s) ≡ aggregated (agg_of agg.now)
        (find_column frame.now (name_of agg.now.column)) (lists_in (grouping_over over.now))) }
    ensures fits { OnOk result (unfit_cause frame.now agg.now ≡ None) }
    ensures err { IfErr result (λ e. Explains e (unfit_cause frame.now agg.now)) }
{
    let name = agg.column.as_str();
    let column = frame.column(name)?;
    let mut folded = aggregate_over(rt, alloc, column, agg.method, over, pool)?;
    folded.rename(fmt_group_by_column(alloc, name, agg.method)?);
    Ok(folded)
}

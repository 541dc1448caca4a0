//! An aggregate of a column over some groups, by its method.

ghost use Rattle.std.specs.Prelude.{◌≡◌, IfErr, IfOk, None, OnOk, Some, false, length, option_map, true};
ghost use Rattle.gb_defs.specs.ColumnType.{uint32};
ghost use Rattle.gb_defs.specs.Fault.{InvalidOperation, has_least, has_sum};
ghost use Rattle.gb_defs.specs.Fold.{Count, Groups, Sum, sum_type};
ghost use Rattle.gb_defs.specs.Groups.{HasRowNumbers, lists_in};
ghost use Rattle.gb_base.specs.PlSmallStr.{IsNoMemory, name_of};
ghost use Rattle.gb_base.specs.PolarsError.{Explains, operation_of};
ghost use Rattle.gb_flat_series.specs.FlatSeries.{column_of};
ghost use Rattle.gb_series.specs.Series.{value_of};
ghost use Rattle.gb_agg.specs.Folds.{AreGroupsOf, extreme, extremes_of_column, fold_column, fold_in, folded, sums_of_column, unfit_of};
ghost use Rattle.gb_agg.specs.Method.{goes_by_numbers, goes_by_parts, method_of};
ghost use Rattle.gb_paths.specs.Numbering.{numbered};

use crate::extremes::GroupExtremes;
use crate::fold_groups::FoldGroups;
use crate::group_sums::GroupSums;
use crate::lists::{row_lists, slot_lists};
use crate::method::GroupByMethod;
use crate::numbered_counts::GroupCounts;
use crate::row_pick::{FirstRow, LastRow, RowPick, take_picks};
use gb_base::error::{Operation, PolarsError, PolarsResult};
use gb_base::small_str::PlSmallStr;
use gb_cols::primitive::UInt32Chunked;
use gb_cols::series_trait::SeriesTrait;
use gb_flat_series::series::FlatSeries;
use gb_flat_series::{map_column, map_sums, of_column};
use gb_groups::view::GroupsView;
use gb_paths::row_numbers::RowNumbers;
use gb_series::into_series::IntoSeries;
use gb_series::series::Series;

/// The aggregate over the rows of each group of a part, under the column's name, unless the type of the column
/// has none. A row's slot is read fast where the column has one chunk.
pub(crate) fn aggregate(
    column: &Series,
    method: GroupByMethod,
    groups: &GroupsView<'_>,
) -> PolarsResult<Series>
    requires parts { goes_by_parts method ≡ true }
    requires groups { AreGroupsOf (value_of column.now) groups.now }
    requires short { HasRowNumbers (length (value_of column.now).slots) }
    ensures fits { OnOk result (unfit_of (method_of method) (value_of column.now) ≡ None) }
    ensures ok { IfOk result (λ s. value_of s
        ≡ folded (method_of method) (value_of column.now) (lists_in groups.now)) }
    ensures err { IfErr result (λ e.
        Explains e (unfit_of (method_of method) (value_of column.now))) }
{
    match method {
        GroupByMethod::Min => column_extremes(column, false, groups),
        GroupByMethod::Max => column_extremes(column, true, groups),
        GroupByMethod::First => picked(column, &FirstRow::new(column), groups),
        GroupByMethod::Last => picked(column, &LastRow::new(column), groups),
        GroupByMethod::Sum => column_sums(column, groups),
        GroupByMethod::Groups => column_rows(column, groups),
        GroupByMethod::NUnique => unreachable!(),
        GroupByMethod::Count { include_nulls } => column_counts(column, include_nulls, groups),
        GroupByMethod::Implode => slot_lists(column, groups),
    }
}

/// The same from the number of each row's group, by a method that needs no list of a group's rows.
pub fn aggregate_numbered(
    column: &Series,
    method: GroupByMethod,
    numbers: &RowNumbers,
) -> PolarsResult<Series>
    requires goes { goes_by_numbers method ≡ true }
    requires rows { length numbers.now.of_rows.items ≡ length (value_of column.now).slots }
    ensures fits { OnOk result (unfit_of (method_of method) (value_of column.now) ≡ None) }
    ensures ok { IfOk result (λ s. value_of s
        ≡ folded (method_of method) (value_of column.now) (lists_in (numbered numbers.now))) }
    ensures err { IfErr result (λ e.
        Explains e (unfit_of (method_of method) (value_of column.now))) }
{
    match method {
        GroupByMethod::Min => column_extremes(column, false, numbers),
        GroupByMethod::Max => column_extremes(column, true, numbers),
        GroupByMethod::First => picked(column, &FirstRow::new(column), numbers),
        GroupByMethod::Last => picked(column, &LastRow::new(column), numbers),
        GroupByMethod::Sum => column_sums(column, numbers),
        GroupByMethod::Count { include_nulls } => column_counts(column, include_nulls, numbers),
        _ => unreachable!(),
    }
}

// The slots at the rows that are picked.
fn picked<P: RowPick, G: FoldGroups>(column: &Series, pick: &P, groups: &G) -> PolarsResult<Series>
    requires column { P.column pick.now ≡ value_of column.now }
    requires groups { G.suits groups.now (length (value_of column.now).slots) }
    requires short { HasRowNumbers (length (value_of column.now).slots) }
    ensures ok { let c = value_of column.now in IfOk result (λ s. value_of s
        ≡ fold_column c.name c.dtype (P.fold pick.now) (lists_in (G.grouping groups.now))) }
    ensures err { IfErr result IsNoMemory }
{
    let rows = groups.pick_rows(column.allocator(), pick)?;
    take_picks(column, &rows)
}

// The refusal of an operation that a column's type does not have.
fn unfit(column: &Series, operation: Operation) -> PolarsError
    ensures { Explains result
        (Some (InvalidOperation (operation_of operation) (value_of column.now).name)) }
{
    match column.name().try_clone() {
        Ok(name) => PolarsError::InvalidOperation(operation, name),
        Err(e) => e,
    }
}

// The least slots, or the greatest, None where the column's type has none.
fn series_extremes<G: FoldGroups>(
    column: &Series,
    greatest: bool,
    groups: &G,
) -> PolarsResult<Option<Series>>
    requires suits { G.suits groups.now (length (value_of column.now).slots) }
    requires short { HasRowNumbers (length (value_of column.now).slots) }
    ensures ok { let lists = lists_in (G.grouping groups.now) in
        IfOk result (λ found. option_map value_of found
        ≡ extremes_of_column greatest (value_of column.now) lists) }
    ensures err { IfErr result IsNoMemory }
{
    match column {
        Series::Flat(column) => {
            if !is_ordered(column) {
                return Ok(None);
            }
            let found = flat_extremes(column, greatest, groups)?;
            Ok(Some(Series::Flat(found)))
        }
        // The calls tell the column's type, which has no least slot.
        Series::List(column) => {
            column.tell_type();
            Ok(None)
        }
        Series::Array(column) => {
            column.tell_type();
            Ok(None)
        }
        Series::Struct(column) => {
            column.tell_type();
            Ok(None)
        }
    }
}

// Whether a column's type has a least slot.
fn is_ordered(column: &FlatSeries) -> bool
    ensures { result ≡ has_least (column_of column.now).dtype }
{
    of_column!(column, column => column.has_least())
}

// The least slots of a column of a flat type, or the greatest.
fn flat_extremes<G: FoldGroups>(
    column: &FlatSeries,
    greatest: bool,
    groups: &G,
) -> PolarsResult<FlatSeries>
    requires ordered { has_least (column_of column.now).dtype ≡ true }
    requires suits { G.suits groups.now (length (column_of column.now).slots) }
    requires short { HasRowNumbers (length (column_of column.now).slots) }
    ensures ok { let lists = lists_in (G.grouping groups.now) in IfOk result (λ found.
        column_of found ≡ folded (extreme greatest) (column_of column.now) lists) }
    ensures err { IfErr result IsNoMemory }
{
    Ok(map_column!(column, column => column.group_extremes(greatest, groups)?))
}

// The least slots, or the greatest, unless the column's type has none.
fn column_extremes<G: FoldGroups>(
    column: &Series,
    greatest: bool,
    groups: &G,
) -> PolarsResult<Series>
    requires suits { G.suits groups.now (length (value_of column.now).slots) }
    requires short { HasRowNumbers (length (value_of column.now).slots) }
    ensures fits { OnOk result (unfit_of (extreme greatest) (value_of column.now) ≡ None) }
    ensures ok { IfOk result (λ s. value_of s
        ≡ folded (extreme greatest) (value_of column.now) (lists_in (G.grouping groups.now))) }
    ensures err { IfErr result (λ e.
        Explains e (unfit_of (extreme greatest) (value_of column.now))) }
{
    match series_extremes(column, greatest, groups)? {
        Some(found) => Ok(found),
        None if greatest => Err(unfit(column, Operation::Max)),
        None => Err(unfit(column, Operation::Min)),
    }
}

// The sums of a column, None where its type has none.
fn series_sums<G: FoldGroups>(column: &Series, groups: &G) -> PolarsResult<Option<Series>>
    requires { G.suits groups.now (length (value_of column.now).slots) }
    ensures ok { let lists = lists_in (G.grouping groups.now) in
        IfOk result (λ sums. option_map value_of sums
        ≡ sums_of_column (value_of column.now).name (value_of column.now) lists) }
    ensures err { IfErr result IsNoMemory }
{
    let name = column.name().try_clone()?;
    match column {
        Series::Flat(column) => match flat_sums(name, column, groups)? {
            Some(sums) => Ok(Some(Series::Flat(sums))),
            None => Ok(None),
        },
        // The calls tell the column's type, which has no sum.
        Series::List(column) => {
            column.tell_type();
            Ok(None)
        }
        Series::Array(column) => {
            column.tell_type();
            Ok(None)
        }
        Series::Struct(column) => {
            column.tell_type();
            Ok(None)
        }
    }
}

// The sums of a column of a flat type, None where its type has none.
fn flat_sums<G: FoldGroups>(
    name: PlSmallStr,
    column: &FlatSeries,
    groups: &G,
) -> PolarsResult<Option<FlatSeries>>
    requires { G.suits groups.now (length (column_of column.now).slots) }
    ensures ok { let lists = lists_in (G.grouping groups.now) in
        IfOk result (λ sums. option_map column_of sums
        ≡ sums_of_column (name_of name) (column_of column.now) lists) }
    ensures err { IfErr result IsNoMemory }
{
    map_sums!(column, column => column.group_sums(name, groups)?)
}

// The sums of a column, unless its type has none.
fn column_sums<G: FoldGroups>(column: &Series, groups: &G) -> PolarsResult<Series>
    requires { G.suits groups.now (length (value_of column.now).slots) }
    ensures fits { OnOk result (has_sum (value_of column.now).dtype ≡ true) }
    ensures ok { IfOk result (λ s. value_of s
        ≡ folded Sum (value_of column.now) (lists_in (G.grouping groups.now))) }
    ensures err { IfErr result (λ e. Explains e (unfit_of Sum (value_of column.now))) }
{
    match series_sums(column, groups)? {
        Some(sums) => Ok(sums),
        None => Err(unfit(column, Operation::Sum)),
    }
}

// The rows of each group as a list, under the column's name.
fn column_rows(column: &Series, groups: &GroupsView<'_>) -> PolarsResult<Series>
    requires groups { AreGroupsOf (value_of column.now) groups.now }
    requires short { HasRowNumbers (length (value_of column.now).slots) }
    ensures ok { IfOk result (λ s. value_of s
        ≡ folded Groups (value_of column.now) (lists_in groups.now)) }
    ensures err { IfErr result IsNoMemory }
{
    let name = column.name().try_clone()?;
    row_lists(column.allocator(), name, groups)
}

// The number of rows, or of valid slots, of each group, under the column's name.
fn column_counts<G: FoldGroups>(
    column: &Series,
    include_nulls: bool,
    groups: &G,
) -> PolarsResult<Series>
    requires suits { G.suits groups.now (length (value_of column.now).slots) }
    requires short { HasRowNumbers (length (value_of column.now).slots) }
    ensures ok { let lists = lists_in (G.grouping groups.now) in IfOk result (λ s.
        value_of s ≡ folded (Count include_nulls) (value_of column.now) lists) }
    ensures err { IfErr result IsNoMemory }
{
    let name = column.name().try_clone()?;
    if include_nulls {
        let counts = groups.row_counts(column.allocator(), name)?;
        return Ok(counts.into_series());
    }
    let counts = valid_counts(name, column, groups)?;
    Ok(counts.into_series())
}

// The number of valid slots of each group.
fn valid_counts<G: FoldGroups>(
    name: PlSmallStr,
    column: &Series,
    groups: &G,
) -> PolarsResult<UInt32Chunked>
    requires suits { G.suits groups.now (length (value_of column.now).slots) }
    requires short { HasRowNumbers (length (value_of column.now).slots) }
    ensures ok { let lists = lists_in (G.grouping groups.now) in IfOk result (λ counts. counts
        ≡ fold_column (name_of name) uint32 (fold_in (Count false) (value_of column.now)) lists) }
    ensures err { IfErr result IsNoMemory }
{
    match column {
        Series::Flat(column) => of_column!(column, column => column.group_counts(name, groups)),
        _ => groups.valid_rows(name, column),
    }
}

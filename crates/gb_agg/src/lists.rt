//! Lists of each group's rows, and of the slots there.

ghost use Rattle.std.specs.Prelude.{◌≡◌, ◌++◌, length, All, IfErr, IfOk, OnOk};
ghost use Rattle.gb_base.specs.PlSmallStr.{IsNoMemory, name_of};
ghost use Rattle.gb_defs.specs.Fold.{Implode};
ghost use Rattle.gb_defs.specs.Groups.{HasRowNumbers, lists_in};
ghost use Rattle.gb_defs.specs.ColumnType.{ListOf, uint32};
ghost use Rattle.gb_series.specs.Series.{value_of};
ghost use Rattle.gb_agg.specs.Folds.{AreGroupsOf, fold_column, folded, list_of_rows};
ghost use Rattle.gb_groups.specs.GroupsIndicator.{pair_of};
ghost use Rattle.gb_agg.specs.Lists.{AreListed, HaveNumbers};

use crate::group_rows::{GroupRows, RowList, RowRun};
use gb_base::error::PolarsResult;
use gb_base::nullable_idx::IdxSize;
use gb_base::small_str::PlSmallStr;
use gb_cols::primitive::UInt32Chunked;
use gb_cols::series_trait::SeriesTrait;
use gb_groups::groups_type::GroupsIndicator;
use gb_groups::view::GroupsView;
use gb_series::into_series::IntoSeries;
use gb_series::nested::list::ListChunked;
use gb_series::series::Series;
use std::alloc::{AllocError, Global};

// The rows of all groups, one group's behind the other's, and where those of each end.
fn listed_rows(
    alloc: Global,
    groups: &GroupsView<'_>,
) -> Result<(Vec<IdxSize>, Vec<usize>), AllocError>
    requires { All HaveNumbers (lists_in groups.now) }
    ensures { IfOk result (λ made.
        AreListed (lists_in groups.now) made.0.items made.1.items) }
{
    let mut rows = Vec::new(alloc);
    let mut ends = Vec::with_capacity(alloc, groups.len())?;
    for place in 0..groups.len() {
        push_group(&mut rows, &groups.get(place))?;
        ends.push(rows.len())?;
    }
    Ok((rows, ends))
}

// The rows of a group behind others.
fn push_group(rows: &mut Vec<IdxSize>, group: &GroupsIndicator<'_>) -> Result<(), AllocError>
    requires { HaveNumbers (pair_of group.now).1 }
    ensures { OnOk result (rows.new.items ≡ rows.old.items ++ (pair_of group.now).1) }
{
    match group {
        GroupsIndicator::Idx((_, list)) => push_rows(rows, &RowList::new(list)),
        GroupsIndicator::Slice([start, count]) => push_rows(rows, &RowRun::new(*start, *count)),
    }
}

// Some rows behind others.
fn push_rows<R: GroupRows>(rows: &mut Vec<IdxSize>, more: &R) -> Result<(), AllocError>
    requires { HaveNumbers (R.rows more.now) }
    ensures { OnOk result (rows.new.items ≡ rows.old.items ++ R.rows more.now) }
{
    let count = more.count();
    rows.reserve(count)?;
    for place in 0..count {
        rows.push_reserved(more.row_at(place) as IdxSize);
    }
    Ok(())
}

/// The slots at the rows of each group as a list, under the column's name. All are taken at once.
pub(crate) fn slot_lists(column: &Series, groups: &GroupsView<'_>) -> PolarsResult<Series>
    requires groups { AreGroupsOf (value_of column.now) groups.now }
    requires short { HasRowNumbers (length (value_of column.now).slots) }
    ensures ok { IfOk result (λ s. value_of s
        ≡ folded Implode (value_of column.now) (lists_in groups.now)) }
    ensures err { IfErr result IsNoMemory }
{
    let alloc = column.allocator();
    let name = column.name().try_clone()?;
    let (rows, ends) = listed_rows(alloc, groups)?;
    let items = column.take(&rows)?;
    let lists = ListChunked::from_items(alloc, name, items, ends)?;
    Series::from_lists(lists)
}

/// The rows of each group as a list.
pub fn row_lists(alloc: Global, name: PlSmallStr, groups: &GroupsView<'_>) -> PolarsResult<Series>
    requires { All HaveNumbers (lists_in groups.now) }
    ensures ok { IfOk result (λ s. value_of s ≡ fold_column (name_of name) (ListOf uint32)
        list_of_rows (lists_in groups.now)) }
    ensures err { IfErr result IsNoMemory }
{
    let inner = PlSmallStr::from_str(alloc, "")?;
    let (rows, ends) = listed_rows(alloc, groups)?;
    let items = UInt32Chunked::from_slice(alloc, inner, &rows)?.into_series();
    let lists = ListChunked::from_items(alloc, name, items, ends)?;
    Series::from_lists(lists)
}

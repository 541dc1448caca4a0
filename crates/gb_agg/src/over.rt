//! What columns are aggregated over: groups with their rows, or the number of each row's group.

ghost use Rattle.std.specs.Prelude.{◌≡◌, ◌≤◌, All, IfErr, IfOk, None, OnOk, length};
ghost use Rattle.gb_defs.specs.ColumnType.{ListOf, uint32};
ghost use Rattle.gb_defs.specs.Groups.{HasRowNumbers, lists_in};
ghost use Rattle.gb_base.specs.PlSmallStr.{IsNoMemory, name_of};
ghost use Rattle.gb_base.specs.PolarsError.{Explains};
ghost use Rattle.gb_series.specs.Series.{value_of};
ghost use Rattle.gb_agg.specs.Folds.{AreGroupsOf, IsAggregateOf, fold_column, list_of_rows, unfit_of};
ghost use Rattle.gb_agg.specs.Lists.{HaveNumbers};
ghost use Rattle.gb_agg.specs.Method.{method_of};
ghost use Rattle.gb_agg.specs.Over.{NumberRows, Takes, grouping_over};
ghost use Rattle.gb_agg.specs.declared.method.GroupByMethod.TheVariants.{Groups};

use crate::aggregate::aggregate_numbered;
use crate::by_workers::aggregate_all;
use crate::lists::row_lists;
use crate::method::GroupByMethod;
use gb_base::error::PolarsResult;
use gb_base::pool::Pool;
use gb_base::small_str::PlSmallStr;
use gb_groups::view::GroupsView;
use gb_paths::row_numbers::RowNumbers;
use gb_series::series::Series;
use std::alloc::Global;
use std::thread::Threads;

/// What columns are aggregated over.
#[derive(Drop)]
pub enum Over<'a> {
    Groups(GroupsView<'a>),
    /// Methods that need a list of a group's rows cannot be made over numbers.
    Numbers(&'a RowNumbers),
}

// For fewer rows a worker no thread is started.
const SHARE_ROWS: usize = 65_536;

impl<'a> Over<'a> {
    /// How many aggregates are best made at a time: as many as there are workers where each is made by one of
    /// them, and one where all of them share it.
    pub fn at_once(&self, pool: &Pool) -> usize
        ensures { 1 ≤ result }
    {
        match self {
            Over::Groups(_) => 1,
            Over::Numbers(numbers) => {
                let rows = numbers.of_rows.len();
                pool.workers().min(rows / SHARE_ROWS).max(1)
            }
        }
    }

    /// The rows of each group as a list.
    pub fn row_lists(&self, alloc: Global, name: PlSmallStr) -> PolarsResult<Series>
        requires takes { Takes self.now Groups }
        requires numbers { All HaveNumbers (lists_in (grouping_over self.now)) }
        ensures ok { let lists = lists_in (grouping_over self.now) in IfOk result (λ s.
            value_of s ≡ fold_column (name_of name) (ListOf uint32) list_of_rows lists) }
        ensures err { IfErr result IsNoMemory }
    {
        match self {
            Over::Groups(groups) => row_lists(alloc, name, groups),
            Over::Numbers(_) => unreachable!(),
        }
    }
}

/// `aggregate_all` over groups or over numbers.
pub fn aggregate_over<R: Threads + Sync>(
    rt: &R,
    alloc: Global,
    column: &Series,
    method: GroupByMethod,
    over: &Over<'_>,
    pool: &Pool,
) -> PolarsResult<Series>
    requires takes { Takes over.now method }
    requires rows { NumberRows (length (value_of column.now).slots) over.now }
    requires groups { AreGroupsOf (value_of column.now) (grouping_over over.now) }
    requires short { HasRowNumbers (length (value_of column.now).slots) }
    ensures fits { OnOk result (unfit_of (method_of method) (value_of column.now) ≡ None) }
    ensures ok { IfOk result
        (IsAggregateOf method (value_of column.now) (grouping_over over.now)) }
    ensures err { IfErr result (λ e.
        Explains e (unfit_of (method_of method) (value_of column.now))) }
{
    match over {
        Over::Groups(groups) => aggregate_all(rt, alloc, column, method, groups, pool),
        Over::Numbers(numbers) => aggregate_numbered(column, method, numbers),
    }
}

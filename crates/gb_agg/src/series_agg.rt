//! Aggregates as calls of a series.

ghost use Rattle.std.specs.Prelude.{◌≡◌, ◌+◌, ◌≤◌, IfErr, IfOk, false, length, pos};
ghost use Rattle.std.specs.Thread.{IsSync};
ghost use Rattle.gb_base.specs.PlSmallStr.{IsNoMemory};
ghost use Rattle.gb_defs.specs.Column.{ColumnValue, sliced};
ghost use Rattle.gb_defs.specs.Groups.{HasRowNumbers};
ghost use Rattle.gb_groups.specs.GroupsType.{groups_of};
ghost use Rattle.gb_series.specs.Series.{value_of};
ghost use Rattle.gb_agg.specs.Folds.{AreGroupsOf, Aggregates};
ghost use Rattle.gb_agg.specs.declared.method.GroupByMethod.TheVariants.{Count, First, Implode, Last, Max, Min, NUnique, Sum};

use crate::by_workers::aggregate_all;
use crate::method::GroupByMethod;
use gb_base::error::PolarsResult;
use gb_base::nullable_idx::IdxSize;
use gb_base::pool::Pool;
use gb_cols::series_trait::SeriesTrait;
use gb_groups::groups_type::GroupsType;
use gb_series::series::Series;
use std::thread::Threads;

/// What is made of a column at the rows of each group, under the column's name and with no flag, by as many
/// workers as the pool has where there are many rows. A type that has no such aggregate is refused.
pub trait SeriesAgg {
    // The column.
    ghost column: { Self → ColumnValue };

    /// The valid slots of each group added, wrapping in the column's type; 0 for none. Booleans are counted.
    fn agg_sum<R: Threads + Sync>(
        &self,
        rt: &R,
        groups: &GroupsType,
        pool: &Pool,
    ) -> PolarsResult<Series>
        requires row_type { IsSync R.row }
        requires groups { AreGroupsOf (column self.now) (groups_of groups.now) }
        requires short { HasRowNumbers (length (column self.now).slots) }
        ensures { Aggregates Sum (column self.now) (groups_of groups.now) result };

    /// The least valid slot of each group, null for none.
    fn agg_min<R: Threads + Sync>(
        &self,
        rt: &R,
        groups: &GroupsType,
        pool: &Pool,
    ) -> PolarsResult<Series>
        requires row_type { IsSync R.row }
        requires groups { AreGroupsOf (column self.now) (groups_of groups.now) }
        requires short { HasRowNumbers (length (column self.now).slots) }
        ensures { Aggregates Min (column self.now) (groups_of groups.now) result };

    /// The greatest valid slot of each group, null for none.
    fn agg_max<R: Threads + Sync>(
        &self,
        rt: &R,
        groups: &GroupsType,
        pool: &Pool,
    ) -> PolarsResult<Series>
        requires row_type { IsSync R.row }
        requires groups { AreGroupsOf (column self.now) (groups_of groups.now) }
        requires short { HasRowNumbers (length (column self.now).slots) }
        ensures { Aggregates Max (column self.now) (groups_of groups.now) result };

    /// The slot at the first row of each group, null for no rows.
    fn agg_first<R: Threads + Sync>(
        &self,
        rt: &R,
        groups: &GroupsType,
        pool: &Pool,
    ) -> PolarsResult<Series>
        requires row_type { IsSync R.row }
        requires groups { AreGroupsOf (column self.now) (groups_of groups.now) }
        requires short { HasRowNumbers (length (column self.now).slots) }
        ensures { Aggregates First (column self.now) (groups_of groups.now) result };

    /// The slot at the last row of each group, null for no rows.
    fn agg_last<R: Threads + Sync>(
        &self,
        rt: &R,
        groups: &GroupsType,
        pool: &Pool,
    ) -> PolarsResult<Series>
        requires row_type { IsSync R.row }
        requires groups { AreGroupsOf (column self.now) (groups_of groups.now) }
        requires short { HasRowNumbers (length (column self.now).slots) }
        ensures { Aggregates Last (column self.now) (groups_of groups.now) result };

    /// How many slots of each group differ, null as one of them.
    fn agg_n_unique<R: Threads + Sync>(
        &self,
        rt: &R,
        groups: &GroupsType,
        pool: &Pool,
    ) -> PolarsResult<Series>
        requires row_type { IsSync R.row }
        requires groups { AreGroupsOf (column self.now) (groups_of groups.now) }
        requires short { HasRowNumbers (length (column self.now).slots) }
        ensures { Aggregates NUnique (column self.now) (groups_of groups.now) result };

    /// How many slots of each group are valid, null for no rows.
    fn agg_valid_count<R: Threads + Sync>(
        &self,
        rt: &R,
        groups: &GroupsType,
        pool: &Pool,
    ) -> PolarsResult<Series>
        requires row_type { IsSync R.row }
        requires groups { AreGroupsOf (column self.now) (groups_of groups.now) }
        requires short { HasRowNumbers (length (column self.now).slots) }
        ensures { Aggregates (Count false) (column self.now) (groups_of groups.now) result };

    /// The slots of each group as a list.
    fn agg_list<R: Threads + Sync>(
        &self,
        rt: &R,
        groups: &GroupsType,
        pool: &Pool,
    ) -> PolarsResult<Series>
        requires row_type { IsSync R.row }
        requires groups { AreGroupsOf (column self.now) (groups_of groups.now) }
        requires short { HasRowNumbers (length (column self.now).slots) }
        ensures { Aggregates Implode (column self.now) (groups_of groups.now) result };
}

impl SeriesAgg for Series {
    ghost column = { value_of };

    fn agg_sum<R: Threads + Sync>(
        &self,
        rt: &R,
        groups: &GroupsType,
        pool: &Pool,
    ) -> PolarsResult<Series> {
        let method = GroupByMethod::Sum;
        aggregate_all(rt, self.allocator(), self, method, &groups.view(), pool)
    }

    fn agg_min<R: Threads + Sync>(
        &self,
        rt: &R,
        groups: &GroupsType,
        pool: &Pool,
    ) -> PolarsResult<Series> {
        let method = GroupByMethod::Min;
        aggregate_all(rt, self.allocator(), self, method, &groups.view(), pool)
    }

    fn agg_max<R: Threads + Sync>(
        &self,
        rt: &R,
        groups: &GroupsType,
        pool: &Pool,
    ) -> PolarsResult<Series> {
        let method = GroupByMethod::Max;
        aggregate_all(rt, self.allocator(), self, method, &groups.view(), pool)
    }

    fn agg_first<R: Threads + Sync>(
        &self,
        rt: &R,
        groups: &GroupsType,
        pool: &Pool,
    ) -> PolarsResult<Series> {
        let method = GroupByMethod::First;
        aggregate_all(rt, self.allocator(), self, method, &groups.view(), pool)
    }

    fn agg_last<R: Threads + Sync>(
        &self,
        rt: &R,
        groups: &GroupsType,
        pool: &Pool,
    ) -> PolarsResult<Series> {
        let method = GroupByMethod::Last;
        aggregate_all(rt, self.allocator(), self, method, &groups.view(), pool)
    }

    fn agg_n_unique<R: Threads + Sync>(
        &self,
        rt: &R,
        groups: &GroupsType,
        pool: &Pool,
    ) -> PolarsResult<Series> {
        let method = GroupByMethod::NUnique;
        aggregate_all(rt, self.allocator(), self, method, &groups.view(), pool)
    }

    fn agg_valid_count<R: Threads + Sync>(
        &self,
        rt: &R,
        groups: &GroupsType,
        pool: &Pool,
    ) -> PolarsResult<Series> {
        let method = GroupByMethod::Count {
            include_nulls: false,
        };
        aggregate_all(rt, self.allocator(), self, method, &groups.view(), pool)
    }

    fn agg_list<R: Threads + Sync>(
        &self,
        rt: &R,
        groups: &GroupsType,
        pool: &Pool,
    ) -> PolarsResult<Series> {
        let method = GroupByMethod::Implode;
        aggregate_all(rt, self.allocator(), self, method, &groups.view(), pool)
    }
}

/// So many rows of a column from a row on, with its flag.
pub fn slice_from_offsets(column: &Series, first: IdxSize, len: IdxSize) -> PolarsResult<Series>
    requires { first + len ≤ length (value_of column.now).slots }
    ensures ok { IfOk result (λ s. value_of s ≡ sliced (pos first) len (value_of column.now)) }
    ensures err { IfErr result IsNoMemory }
{
    column.slice(i64::from(first), len as usize)
}

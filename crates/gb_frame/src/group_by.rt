//! A frame whose rows are in groups: what is made of it between the grouping and the aggregates.

ghost use Rattle.gb_frame.specs.Grouping.{IsGrouping};
ghost use Rattle.gb_frame.specs.Key.{columns_of};

use crate::agg::Agg;
use crate::checks::check_columns;
use crate::columns::{aggregates, first_rows, keys_at};
use crate::key::{Key, lend};
use crate::named_columns::NamedColumns;
use crate::selection::{named_aggs, other_aggs};
use gb_agg::method::GroupByMethod;
use gb_agg::over::Over;
use gb_base::error::PolarsResult;
use gb_base::pool::Pool;
use gb_base::small_str::PlSmallStr;
use gb_groups::positions::GroupPositions;
use gb_series::frame::DataFrame;
use gb_series::series::Series;
use std::alloc::Global;
use std::thread::Threads;

/// The rows of a frame in groups, by keys.
#[derive(Drop)]
pub struct GroupBy<'a> {
    frame: &'a DataFrame,
    keys: Vec<Key<'a>>,
    groups: GroupPositions,
    selected: Option<Vec<PlSmallStr>>,
    ghost grouped: { IsGrouping frame.now (columns_of keys.items) groups },
}

impl<'a> GroupBy<'a> {
    ghost use Rattle.std.specs.Prelude.{◌≡◌, ◌∷◌, [], map, None, Some, IfErr, IfOk, true};
    ghost use Rattle.gb_defs.specs.Column.{content, taken};
    ghost use Rattle.gb_defs.specs.Fold.{Count, First, Groups, Implode, Last, Max, Min, NUnique, Sum};
    ghost use Rattle.gb_base.specs.PlSmallStr.{IsNoMemory};
    ghost use Rattle.gb_agg.specs.Method.{method_of};
    ghost use Rattle.gb_frame.specs.Agg.{aggs_of, names_of};
    ghost use Rattle.gb_frame.specs.GroupBy.{Answers, each_of, frame_of, grouping_of, keys_of, named, selected_of};
    ghost use Rattle.gb_frame.specs.Grouping.{contents_of, firsts_in};

    /// The rows of a frame in these groups, by these keys. The columns of these names are aggregated, or all whose
    /// name is no key's.
    pub fn new(
        frame: &'a DataFrame,
        keys: Vec<Key<'a>>,
        groups: GroupPositions,
        selected: Option<Vec<PlSmallStr>>,
    ) -> GroupBy<'a>
        requires { IsGrouping frame.now (columns_of keys.items) groups }
        ensures frame { frame_of result ≡ frame.now }
        ensures keys { keys_of result ≡ columns_of keys.entry.items }
        ensures groups { grouping_of result ≡ groups }
        ensures selected { selected_of result ≡ named selected }
    {
        GroupBy {
            frame,
            keys,
            groups,
            selected,
        }
    }

    /// The frame that is grouped.
    pub fn df(&self) -> &'a DataFrame
        ensures { result.now ≡ frame_of self.now }
    {
        self.frame
    }

    pub fn get_groups(&self) -> &GroupPositions
        ensures { result.now ≡ grouping_of self.now }
    {
        &self.groups
    }

    pub fn take_groups(self) -> GroupPositions
        ensures { result ≡ grouping_of self.entry }
    {
        self.groups
    }

    /// Other groups of the rows, in place of those that were.
    pub fn set_groups(&mut self, groups: GroupPositions)
        requires { IsGrouping (frame_of self.old) (keys_of self.old) groups }
        ensures frame { frame_of self.new ≡ frame_of self.old }
        ensures keys { keys_of self.new ≡ keys_of self.old }
        ensures groups { grouping_of self.new ≡ groups }
        ensures selected { selected_of self.new ≡ selected_of self.old }
    {
        self.groups = groups;
    }

    /// With the columns of these names to aggregate, in place of those that were.
    pub fn select(self, selection: Vec<PlSmallStr>) -> GroupBy<'a>
        ensures frame { frame_of result ≡ frame_of self.entry }
        ensures keys { keys_of result ≡ keys_of self.entry }
        ensures groups { grouping_of result ≡ grouping_of self.entry }
        ensures selected { selected_of result ≡ Some (names_of selection.items) }
    {
        GroupBy {
            frame: self.frame,
            keys: self.keys,
            groups: self.groups,
            selected: Some(selection),
        }
    }

    /// The keys at the first row of each group.
    pub fn keys(&self, alloc: Global) -> PolarsResult<Vec<Series>>
        ensures ok { let rows = firsts_in (grouping_of self.now) in IfOk result (λ columns.
            contents_of columns.items ≡ map (λ key. content (taken rows key)) (keys_of self.now)) }
        ensures err { IfErr result IsNoMemory }
    {
        let rows = first_rows(alloc, &self.groups.view())?;
        let keys = lend(alloc, &self.keys)?;
        keys_at(alloc, &keys, &rows)
    }

    /// The keys, and these aggregates over the rows of each group.
    pub fn agg<R: Threads + Sync>(
        &self,
        rt: &R,
        alloc: Global,
        aggs: &[Agg],
        pool: &Pool,
    ) -> PolarsResult<DataFrame>
        ensures { Answers self.now (aggs_of aggs.now) result }
    {
        let named = NamedColumns::new(alloc, self.frame.get_columns())?;
        check_columns(&named, aggs)?;
        let over = Over::Groups(self.groups.view());
        let mut folded = aggregates(rt, alloc, &named, aggs, &over, pool)?;
        let mut columns = self.keys(alloc)?;
        columns.append(&mut folded)?;
        DataFrame::new(columns)
    }

    /// The keys, and an aggregate of each column that is chosen: of those selected, or else of all whose name is no
    /// key's.
    pub fn each<R: Threads + Sync>(
        &self,
        rt: &R,
        alloc: Global,
        method: GroupByMethod,
        pool: &Pool,
    ) -> PolarsResult<DataFrame>
        ensures { Answers self.now (each_of self.now (method_of method)) result }
    {
        let aggs = self.aggs_by(alloc, method)?;
        self.agg(rt, alloc, &aggs, pool)
    }

    // One method of each column that is chosen.
    fn aggs_by(&self, alloc: Global, method: GroupByMethod) -> PolarsResult<Vec<Agg>>
        ensures ok { IfOk result (λ aggs.
            aggs_of aggs.items ≡ each_of self.now (method_of method)) }
        ensures err { IfErr result IsNoMemory }
    {
        match &self.selected {
            Some(names) => named_aggs(alloc, names, method),
            None => {
                let keys = lend(alloc, &self.keys)?;
                other_aggs(alloc, self.frame, &keys, method)
            }
        }
    }

    /// The sums of each column that is chosen, behind the keys.
    pub fn sum<R: Threads + Sync>(
        &self,
        rt: &R,
        alloc: Global,
        pool: &Pool,
    ) -> PolarsResult<DataFrame>
        ensures { Answers self.now (each_of self.now Sum) result }
    {
        self.each(rt, alloc, GroupByMethod::Sum, pool)
    }

    /// The least valid slots of each column that is chosen, behind the keys.
    pub fn min<R: Threads + Sync>(
        &self,
        rt: &R,
        alloc: Global,
        pool: &Pool,
    ) -> PolarsResult<DataFrame>
        ensures { Answers self.now (each_of self.now Min) result }
    {
        self.each(rt, alloc, GroupByMethod::Min, pool)
    }

    /// The greatest valid slots of each column that is chosen, behind the keys.
    pub fn max<R: Threads + Sync>(
        &self,
        rt: &R,
        alloc: Global,
        pool: &Pool,
    ) -> PolarsResult<DataFrame>
        ensures { Answers self.now (each_of self.now Max) result }
    {
        self.each(rt, alloc, GroupByMethod::Max, pool)
    }

    /// The slots at the first rows of each column that is chosen, behind the keys.
    pub fn first<R: Threads + Sync>(
        &self,
        rt: &R,
        alloc: Global,
        pool: &Pool,
    ) -> PolarsResult<DataFrame>
        ensures { Answers self.now (each_of self.now First) result }
    {
        self.each(rt, alloc, GroupByMethod::First, pool)
    }

    /// The slots at the last rows of each column that is chosen, behind the keys.
    pub fn last<R: Threads + Sync>(
        &self,
        rt: &R,
        alloc: Global,
        pool: &Pool,
    ) -> PolarsResult<DataFrame>
        ensures { Answers self.now (each_of self.now Last) result }
    {
        self.each(rt, alloc, GroupByMethod::Last, pool)
    }

    /// How many slots differ of each column that is chosen, behind the keys.
    pub fn n_unique<R: Threads + Sync>(
        &self,
        rt: &R,
        alloc: Global,
        pool: &Pool,
    ) -> PolarsResult<DataFrame>
        ensures { Answers self.now (each_of self.now NUnique) result }
    {
        self.each(rt, alloc, GroupByMethod::NUnique, pool)
    }

    /// The slots as lists of each column that is chosen, behind the keys.
    pub fn agg_list<R: Threads + Sync>(
        &self,
        rt: &R,
        alloc: Global,
        pool: &Pool,
    ) -> PolarsResult<DataFrame>
        ensures { Answers self.now (each_of self.now Implode) result }
    {
        self.each(rt, alloc, GroupByMethod::Implode, pool)
    }

    /// The number of rows for each column that is chosen, behind the keys.
    pub fn count<R: Threads + Sync>(
        &self,
        rt: &R,
        alloc: Global,
        pool: &Pool,
    ) -> PolarsResult<DataFrame>
        ensures { Answers self.now (each_of self.now (Count true)) result }
    {
        let include_nulls = true;
        self.each(rt, alloc, GroupByMethod::Count { include_nulls }, pool)
    }

    /// The row numbers as lists, in one column `groups` behind the keys.
    pub fn groups<R: Threads + Sync>(
        &self,
        rt: &R,
        alloc: Global,
        pool: &Pool,
    ) -> PolarsResult<DataFrame>
        ensures { Answers self.now (([], Groups) ∷ []) result }
    {
        let mut aggs = Vec::with_capacity(alloc, 1)?;
        aggs.push(Agg {
            column: PlSmallStr::from_str(alloc, "")?,
            method: GroupByMethod::Groups,
        })?;
        self.agg(rt, alloc, &aggs, pool)
    }
}

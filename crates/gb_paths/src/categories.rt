//! The groups of categories by their codes.

ghost use Rattle.std.specs.Prelude.{◌≡◌, length, IfOk, IfErr};
ghost use Rattle.std.specs.Thread.{IsSync};
ghost use Rattle.gb_defs.specs.Groups.{HasRowNumbers, IsWellFormed};
ghost use Rattle.gb_base.specs.PlSmallStr.{IsNoMemory};
ghost use Rattle.gb_groups.specs.GroupsType.{groups_of};
ghost use Rattle.gb_paths.specs.Tuples.{tuples_of};

use crate::into_groups::IntoGroupsType;
use gb_base::error::PolarsResult;
use gb_base::pool::Pool;
use gb_cols::series_trait::SeriesTrait;
use gb_groups::groups_type::GroupsType;
use gb_logical::categorical::CategoricalChunked;
use std::thread::Threads;

/// Categories, whose codes are known to be few.
pub trait CategoryGroups: SeriesTrait {
    /// The rows that hold one category: by its code where all codes are known to be held, those of none
    /// last, and else as a column of the codes is grouped. Where `sorted`, in the order of their first rows.
    fn group_tuples_perfect<T: Threads + Sync>(
        &self,
        rt: &T,
        multithreaded: bool,
        sorted: bool,
        pool: &Pool,
    ) -> PolarsResult<GroupsType>
        requires row_type { IsSync T.row }
        requires few { HasRowNumbers (length (Self.value self.now).slots) }
        ensures ok { IfOk result (λ g.
            groups_of g ≡ tuples_of (Self.value self.now) multithreaded sorted pool.now) }
        ensures formed { IfOk result (λ g.
            IsWellFormed (length (Self.value self.now).slots) (groups_of g).pairs) }
        ensures err { IfErr result IsNoMemory };
}

impl CategoryGroups for CategoricalChunked {
    fn group_tuples_perfect<T: Threads + Sync>(
        &self,
        rt: &T,
        multithreaded: bool,
        sorted: bool,
        pool: &Pool,
    ) -> PolarsResult<GroupsType> {
        self.group_tuples(rt, multithreaded, sorted, pool)
    }
}

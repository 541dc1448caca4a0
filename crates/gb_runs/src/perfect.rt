//! Whether the slots of a column are codes, and the groups by them.

ghost use Rattle.std.specs.Prelude.{◌≡◌, ◌↔◌, IsTrue, false, length, IfOk, IfErr};
ghost use Rattle.gb_defs.specs.Groups.{HasRowNumbers};
ghost use Rattle.gb_defs.specs.Path.{Perfect, path_groups};
ghost use Rattle.gb_base.specs.PlSmallStr.{IsNoMemory};
ghost use Rattle.gb_groups.specs.GroupsType.{groups_of};
ghost use Rattle.gb_runs.specs.Codes.{AreCodes, rows_in};

use crate::codes::group_codes;
use gb_base::error::PolarsResult;
use gb_base::pool::Pool;
use gb_cols::chunked::ChunkedArray;
use gb_cols::codes::{codes_in_range, codes_used};
use gb_cols::series_trait::SeriesTrait;
use gb_groups::groups_type::GroupsType;
use gb_numbers::numeric::PolarsNumericType;
use gb_values::primitive::NumberValues;

/// A column whose slots may be codes.
pub trait PerfectGroups: SeriesTrait {
    /// Whether each slot is null or one of so many codes, from 0 on, and each of these is held. One pass for
    /// each 16,384 codes; it takes no memory.
    fn codes_fit(&self, num_groups: usize) -> bool
        ensures { IsTrue result ↔ AreCodes num_groups (Self.value self.now).slots };

    /// The rows of each code, in the order of the codes, and behind them the rows of none, if there are any.
    /// One worker counts the rows, whatever the pool.
    fn group_tuples_perfect(
        &self,
        num_groups: usize,
        multithreaded: bool,
        group_capacity: usize,
        pool: &Pool,
    ) -> PolarsResult<GroupsType>
        requires codes { AreCodes num_groups (Self.value self.now).slots }
        requires few { HasRowNumbers (length (Self.value self.now).slots) }
        ensures ok { let rows = rows_in (Self.value self.now).slots in IfOk result (λ g.
            groups_of g ≡ path_groups Perfect rows num_groups 0 false) }
        ensures err { IfErr result IsNoMemory };
}

impl<T: PolarsNumericType> PerfectGroups for ChunkedArray<NumberValues<T>> {
    fn codes_fit(&self, num_groups: usize) -> bool {
        if codes_in_range(self, num_groups) {
            codes_used(self, num_groups)
        } else {
            false
        }
    }

    fn group_tuples_perfect(
        &self,
        num_groups: usize,
        _multithreaded: bool,
        _group_capacity: usize,
        _pool: &Pool,
    ) -> PolarsResult<GroupsType> {
        group_codes(self, num_groups, false)
    }
}

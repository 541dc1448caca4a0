//! The number of each row's group.

ghost use Rattle.std.specs.Prelude.{◌<◌, All, length};
ghost use Rattle.std.specs.List.Sorted.{IsNonDecreasing};
ghost use Rattle.gb_defs.specs.Groups.{HasRowNumbers};

use gb_base::error::PolarsResult;
use gb_base::nullable_idx::IdxSize;
use gb_groups::groups_idx::GroupsIdx;
use gb_groups::groups_type::GroupsType;
use gb_groups::row_lists::{AllRows, row_lists};
use std::alloc::Global;

/// The first row of each group, in the order of the groups' numbers, and the number of each row's group.
#[derive(Drop)]
pub struct RowNumbers {
    pub first: Vec<IdxSize>,
    pub of_rows: Vec<u32>,
    ghost known: { All (λ number. number < length first.items) of_rows.items },
    ghost ascend: { IsNonDecreasing first.items },
    ghost few: { HasRowNumbers (length of_rows.items) },
}

impl RowNumbers {
    ghost use Rattle.std.specs.Prelude.{◌≡◌, IfErr, IfOk};
    ghost use Rattle.gb_base.specs.PlSmallStr.{IsNoMemory};
    ghost use Rattle.gb_groups.specs.GroupsType.{groups_of};
    ghost use Rattle.gb_paths.specs.Numbering.{numbered};

    /// The groups, each with a list of its rows.
    pub fn into_groups(self, alloc: Global) -> PolarsResult<GroupsType>
        ensures ok { IfOk result (λ g. groups_of g ≡ numbered self) }
        ensures err { IfErr result IsNoMemory }
    {
        let rows = AllRows::new(self.of_rows.len());
        let all = row_lists(alloc, &rows, &self.of_rows, self.first.len())?;
        Ok(GroupsType::from(GroupsIdx::new(self.first, all, true)))
    }
}

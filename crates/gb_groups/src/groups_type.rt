//! Groups in the form that the path to them gave.

ghost use Rattle.std.specs.Prelude.{◌≡◌, ◌↔◌, ◌<◌, ◌==◌, [], All, length, map, slice_index_or, IsTrue, true, IfErr, IfOk, OnOk, OnErr};
ghost use Rattle.std.specs.List.Sorted.{IsNonDecreasing};
ghost use Rattle.gb_base.specs.PlSmallStr.{IsNoMemory};
ghost use Rattle.gb_defs.specs.Groups.{FitsRows, IsWellFormed, first_of, Idx};

use crate::fits::{rows_fit, run_fits};
use crate::groups_idx::{BorrowIdxItem, GroupsIdx, IdxSize};
use crate::groups_slice::GroupsSlice;
use crate::iter::GroupsTypeIter;
use crate::positions::GroupPositions;
use crate::view::GroupsView;
use gb_base::error::PolarsResult;
use gb_base::pool::Pool;
use std::alloc::Global;
use std::thread::Threads;

/// Groups in the form that the path to them gave.
#[derive(Drop)]
pub enum GroupsType {
    Idx(GroupsIdx),
    /// Runs that roll may overlap.
    Slice { groups: GroupsSlice, rolling: bool },
}

/// One group, lent in the form that it has.
#[derive(Drop)]
pub enum GroupsIndicator<'a> {
    Idx(BorrowIdxItem<'a>),
    /// Its first row and its length.
    Slice([IdxSize; 2]),
}

impl<'a> GroupsIndicator<'a> {
    ghost use Rattle.gb_groups.specs.GroupsIndicator.{pair_of};

    /// How many rows the group has.
    pub fn len(&self) -> usize
        ensures { result ≡ length (pair_of self.now).1 }
    {
        match self {
            GroupsIndicator::Idx((_, rows)) => rows.len(),
            GroupsIndicator::Slice(slice) => slice[1] as usize,
        }
    }

    pub fn is_empty(&self) -> bool
        ensures { result ≡ (length (pair_of self.now).1 == 0) }
    {
        self.len() == 0
    }

    /// The first row of the group.
    pub fn first(&self) -> IdxSize
        ensures { result ≡ (pair_of self.now).0 }
    {
        match self {
            GroupsIndicator::Idx((first, _)) => *first,
            GroupsIndicator::Slice(slice) => slice[0],
        }
    }

    /// Whether the first row and all rows are below `n`, and the rows ascend from the first row on.
    pub fn fits(&self, n: usize) -> bool
        ensures { IsTrue result ↔ FitsRows n (pair_of self.now) }
    {
        match self {
            GroupsIndicator::Idx((first, rows)) => rows_fit(n, *first, rows.as_slice()),
            GroupsIndicator::Slice(slice) => run_fits(n, *slice),
        }
    }
}

impl From<GroupsIdx> for GroupsType {
    ghost use Rattle.gb_groups.specs.GroupsType.{groups_of};

    ghost from_gives = { λ groups made. groups_of made ≡ groups };

    fn from(groups: GroupsIdx) -> GroupsType {
        GroupsType::Idx(groups)
    }
}

impl PartialEq for GroupsType {
    ghost use Rattle.std.specs.Cmp.{on_equiv, partial_equiv_from_equiv};
    ghost use Rattle.gb_groups.specs.GroupsType.{groups_of};
    ghost use Rattle.gb_groups.specs.Same.{same_equiv, same_groups};

    ghost eq = { λ one other. same_groups (groups_of one) (groups_of other) };

    ghost laws = { partial_equiv_from_equiv (on_equiv groups_of same_equiv) };

    fn eq(&self, other: &GroupsType) -> bool {
        self.view() == other.view()
    }
}

impl Eq for GroupsType {
    ghost use Rattle.std.specs.Cmp.{on_equiv};
    ghost use Rattle.gb_groups.specs.GroupsType.{groups_of};
    ghost use Rattle.gb_groups.specs.Same.{same_equiv};

    ghost laws = { on_equiv groups_of same_equiv };
}

impl GroupsType {
    ghost use Rattle.gb_groups.specs.GroupsType.{groups_of};
    ghost use Rattle.gb_groups.specs.GroupsIndicator.{pair_of};
    ghost use Rattle.gb_groups.specs.Calls.{GivesOfGroups, TakesGroups};
    ghost use Rattle.gb_groups.specs.Order.{IsByFirst};

    /// How many groups there are.
    pub fn len(&self) -> usize
        ensures { result ≡ length (groups_of self.now).pairs }
    {
        match self {
            GroupsType::Idx(groups) => groups.len(),
            GroupsType::Slice { groups, .. } => groups.as_slice().len(),
        }
    }

    pub fn is_empty(&self) -> bool
        ensures { result ≡ (length (groups_of self.now).pairs == 0) }
    {
        self.len() == 0
    }

    /// Whether the groups are flagged as sorted. Unflagged groups may be in order too.
    pub fn is_sorted_flag(&self) -> bool
        ensures flag { result ≡ (groups_of self.now).flagged }
        ensures ascend { IsTrue result → IsNonDecreasing (map first_of (groups_of self.now).pairs) }
    {
        match self {
            GroupsType::Idx(groups) => groups.is_sorted_flag(),
            GroupsType::Slice { groups, .. } => {
                let _ = groups.as_slice();
                true
            }
        }
    }

    /// One group.
    pub fn get(&self, index: usize) -> GroupsIndicator<'_>
        requires { index < length (groups_of self.now).pairs }
        ensures { pair_of result ≡ slice_index_or (groups_of self.now).pairs index (0, []) }
    {
        match self {
            GroupsType::Idx(groups) => GroupsIndicator::Idx(groups.get(index)),
            GroupsType::Slice { groups, .. } => GroupsIndicator::Slice(groups.as_slice()[index]),
        }
    }

    /// The first row of each group. Those of row lists are moved out.
    pub fn take_group_firsts(self) -> PolarsResult<Vec<IdxSize>>
        ensures ok { IfOk result (λ firsts. firsts.items ≡ map first_of (groups_of self).pairs) }
        ensures err { IfErr result IsNoMemory }
    {
        match self {
            GroupsType::Idx(groups) => Ok(groups.into_first()),
            GroupsType::Slice { groups, .. } => groups.starts(),
        }
    }

    /// The groups in order.
    pub fn iter(&self) -> GroupsTypeIter<'_>
        ensures { result ≡ (groups_of self.now).pairs }
    {
        match self {
            GroupsType::Idx(groups) => GroupsTypeIter::over_lists(groups.iter()),
            GroupsType::Slice { groups, .. } => GroupsTypeIter::over_slices(groups.as_slice()),
        }
    }

    /// Puts the groups in the order of their first rows. Groups of one first row keep their order.
    pub fn sort(&mut self) -> PolarsResult<()>
        ensures sorted { OnOk result
            (IsByFirst (groups_of self.old).pairs (groups_of self.new).pairs) }
        ensures flagged { OnOk result ((groups_of self.new).flagged ≡ true) }
        ensures form { (groups_of self.new).form ≡ (groups_of self.old).form }
        ensures known { IsTrue (groups_of self.old).flagged
            → groups_of self.new ≡ groups_of self.old }
        ensures unchanged { OnErr result (groups_of self.new ≡ groups_of self.old) }
        ensures err { IfErr result IsNoMemory }
    {
        match self {
            GroupsType::Idx(groups) => groups.sort(),
            GroupsType::Slice { groups, rolling: _ } => {
                let _ = groups.as_slice();
                Ok(())
            }
        }
    }

    /// All groups, of which parts can be shown.
    pub fn view(&self) -> GroupsView<'_>
        ensures { result ≡ groups_of self.now }
    {
        GroupsView::new(self, 0, self.len())
    }

    /// What `f` gives for each group, in order, by as many workers as the pool has, each some groups that
    /// follow each other. With one worker no thread is started.
    pub fn par_map<R: Threads + Sync, X: Send + Drop, F: Fn(GroupsIndicator<'_>) -> X + Sync>(
        &self,
        rt: &R,
        alloc: Global,
        pool: &Pool,
        f: &F,
    ) -> PolarsResult<Vec<X>>
        requires { TakesGroups F.Fn f.now (groups_of self.now).pairs }
        ensures len { IfOk result (λ made.
            length made.items ≡ length (groups_of self.now).pairs) }
        ensures each { IfOk result (λ made.
            GivesOfGroups F.Fn f.now (groups_of self.now).pairs made.items) }
        ensures err { IfErr result IsNoMemory }
    {
        self.view().par_map(rt, alloc, pool, f)
    }

    /// Whether every first row and every row is below `n`, and the rows of each group ascend from its
    /// first row on. One pass over the rows of lists, and over the ends of runs.
    pub fn fits(&self, n: usize) -> bool
        ensures { IsTrue result ↔ All (FitsRows n) (groups_of self.now).pairs }
    {
        self.view().fits(n)
    }

    /// Whether the groups fit `n` rows, and none is empty.
    pub fn is_well_formed(&self, n: usize) -> bool
        ensures { IsTrue result ↔ IsWellFormed n (groups_of self.now).pairs }
    {
        self.view().is_well_formed(n)
    }

    /// The same groups once more.
    pub fn try_clone(&self) -> PolarsResult<GroupsType>
        ensures ok { IfOk result (λ g. g ≡ self.now) }
        ensures err { IfErr result IsNoMemory }
    {
        match self {
            GroupsType::Idx(groups) => Ok(GroupsType::Idx(groups.try_clone()?)),
            GroupsType::Slice { groups, rolling } => Ok(GroupsType::Slice {
                groups: groups.try_clone()?,
                rolling: *rolling,
            }),
        }
    }

    /// All groups, to be cut and shared.
    pub fn into_sliceable(self, alloc: Global) -> PolarsResult<GroupPositions>
        ensures ok { IfOk result (λ positions. positions ≡ groups_of self) }
        ensures err { IfErr result IsNoMemory }
    {
        GroupPositions::over(alloc, self)
    }

    /// The groups as row lists.
    pub fn unwrap_idx(&self) -> &GroupsIdx
        requires { (groups_of self.now).form ≡ Idx }
        ensures { result.now ≡ groups_of self.now }
    {
        match self {
            GroupsType::Idx(groups) => groups,
            GroupsType::Slice { .. } => unreachable!(),
        }
    }
}

#[cfg(test)]
mod tests {
    use super::*;
    use crate::groups_idx::IdxVec;
    use smallvec::SmallVec;
    use std::test::Fail;

    // Rows 0 and 2, and row 1.
    fn two_groups(alloc: Global) -> Result<GroupsType, Fail> {
        let mut all: Vec<IdxVec> = Vec::new(alloc);
        all.push(SmallVec::from_slice(alloc, &[0, 2])?)?;
        all.push(SmallVec::from_slice(alloc, &[1])?)?;
        let first = vec![in alloc; 0, 1]?;
        Ok(GroupsType::from(GroupsIdx::new(first, all, false)))
    }

    #[test]
    fn groups_are_read_in_order(rt: HostRuntime) -> Result<(), Fail> {
        let groups = two_groups(rt.alloc())?;
        assert_eq!(rt; groups.len(), 2);
        assert!(rt; !groups.is_empty());
        assert!(rt; !groups.is_sorted_flag());
        let rows = [2, 1];
        let mut seen = 0;
        for (group, count) in groups.iter().zip(rows.iter()) {
            assert_eq!(rt; group.len(), *count);
            assert_eq!(rt; group.first(), seen);
            assert!(rt; !group.is_empty());
            seen = 1;
        }
        assert_eq!(rt; groups.get(1).first(), 1);
        let lists = groups.unwrap_idx();
        assert_eq!(rt; lists.first(), [0, 1].as_slice());
        assert_eq!(rt; lists.all().len(), 2);
        assert!(rt; GroupsIdx::firsts_ascend(lists.first()));
        assert!(rt; !GroupsIdx::firsts_ascend(&[1, 0]));
        assert_eq!(rt; lists.iter().count(), 2);
        assert!(rt; GroupsIdx::empty(rt.alloc()).is_empty());
        Ok(())
    }

    #[test]
    fn runs_are_groups(rt: HostRuntime) -> Result<(), Fail> {
        let runs = vec![in rt.alloc(); [0u32, 2], [1, 0], [1, 3]]?;
        assert!(rt; GroupsSlice::slices_fit(&runs));
        let groups = GroupsSlice::from_vec(runs);
        assert_eq!(rt; groups.as_slice().len(), 3);
        let mut groups = GroupsType::Slice {
            groups,
            rolling: true,
        };
        groups.sort()?;
        assert_eq!(rt; groups.len(), 3);
        assert!(rt; groups.is_sorted_flag());
        assert_eq!(rt; (groups.get(2).first(), groups.get(2).len()), (1, 3));
        let lengths = [2, 0, 3];
        for (group, length) in groups.iter().zip(lengths.iter()) {
            assert_eq!(rt; group.len(), *length);
            assert_eq!(rt; group.is_empty(), *length == 0);
        }
        let firsts = groups.take_group_firsts()?;
        assert_eq!(rt; firsts.as_slice(), [0, 1, 1].as_slice());
        let firsts = two_groups(rt.alloc())?.take_group_firsts()?;
        assert_eq!(rt; firsts.as_slice(), [0, 1].as_slice());
        Ok(())
    }
}

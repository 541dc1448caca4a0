//! Some groups that follow each other, seen as groups of their own.

ghost use Rattle.std.specs.Prelude.{◌≡◌, ◌↔◌, ◌+◌, ◌<◌, ◌≤◌, ◌==◌, [], All, IsTrue, length, map, slice_index_or, IfErr, IfOk};
ghost use Rattle.std.specs.List.Sorted.{IsNonDecreasing};
ghost use Rattle.gb_base.specs.PlSmallStr.{IsNoMemory};
ghost use Rattle.gb_defs.specs.Groups.{FitsRows, IsWellFormed, first_of};
ghost use Rattle.gb_groups.specs.GroupsIndicator.{pair_of};
ghost use Rattle.gb_groups.specs.Calls.{GivesOfGroup, GivesOfGroups, TakesGroups};
ghost use Rattle.gb_groups.specs.GroupsType.{groups_of};
ghost use Rattle.gb_groups.specs.Views.{part_from};

use crate::by_workers::map_places;
use crate::groups_type::{GroupsIndicator, GroupsType};
use crate::iter::{GroupsIdxIter, GroupsTypeIter};
use crate::same::{same_lists, same_runs};
use gb_base::error::PolarsResult;
use gb_base::pool::Pool;
use std::alloc::Global;
use std::marker::Model;
use std::thread::Threads;

/// So many groups from a place on, seen as groups of their own in the form and with the flag of all.
#[derive(Drop)]
pub struct GroupsView<'a> {
    groups: &'a GroupsType,
    start: usize,
    count: usize,
}

impl<'a> Model for GroupsView<'a> {
    ghost use Rattle.std.specs.Prelude.{◌+◌, ◌≤◌, length};
    ghost use Rattle.gb_defs.specs.Groups.{Grouping};
    ghost use Rattle.gb_groups.specs.Views.{part_from};

    ghost Value = { Grouping };

    ghost use Rattle.gb_groups.specs.GroupsType.{groups_of};

    ghost view = { λ v. part_from (groups_of v.groups.now) v.start v.count };

    ghost invariant = { λ v. v.start + v.count ≤ length (groups_of v.groups.now).pairs };
}

impl<'a> PartialEq for GroupsView<'a> {
    ghost use Rattle.std.specs.Cmp.{partial_equiv_from_equiv};
    ghost use Rattle.gb_groups.specs.Same.{same_equiv, same_groups};

    ghost eq = { same_groups };

    ghost laws = { partial_equiv_from_equiv same_equiv };

    fn eq(&self, other: &GroupsView<'a>) -> bool {
        match (self.groups, other.groups) {
            (GroupsType::Idx(groups), GroupsType::Idx(others)) => {
                let (first, all) = groups.lists(self.start, self.count);
                let (other_first, other_all) = others.lists(other.start, other.count);
                groups.is_sorted_flag() == others.is_sorted_flag()
                    && same_lists(first, all, other_first, other_all)
            }
            (
                GroupsType::Slice { groups, rolling },
                GroupsType::Slice {
                    groups: others,
                    rolling: roll,
                },
            ) => {
                let runs = groups.runs(self.start, self.count);
                let other_runs = others.runs(other.start, other.count);
                rolling == roll && same_runs(runs, other_runs)
            }
            // The clause of the flag says that these are lists.
            (GroupsType::Idx(groups), GroupsType::Slice { .. }) => {
                let _ = groups.is_sorted_flag();
                false
            }
            (GroupsType::Slice { .. }, GroupsType::Idx(others)) => {
                let _ = others.is_sorted_flag();
                false
            }
        }
    }
}

impl<'a> Eq for GroupsView<'a> {
    ghost use Rattle.gb_groups.specs.Same.{same_equiv};

    ghost laws = { same_equiv };
}

impl<'a> GroupsView<'a> {
    /// So many groups from a place on.
    pub(crate) fn new(groups: &'a GroupsType, start: usize, count: usize) -> GroupsView<'a>
        requires { start + count ≤ length (groups_of groups.now).pairs }
        ensures { result ≡ part_from (groups_of groups.now) start count }
    {
        GroupsView {
            groups,
            start,
            count,
        }
    }

    /// So many of these groups from a place on.
    pub fn part(&self, start: usize, count: usize) -> GroupsView<'a>
        requires { start + count ≤ length self.now.pairs }
        ensures { result ≡ part_from self.now start count }
    {
        // Its clause says that places have numbers.
        let _ = self.groups.len();
        GroupsView::new(self.groups, self.start + start, count)
    }

    /// How many groups there are.
    #[inline]
    pub fn len(&self) -> usize
        ensures { result ≡ length self.now.pairs }
    {
        self.count
    }

    pub fn is_empty(&self) -> bool
        ensures { result ≡ (length self.now.pairs == 0) }
    {
        self.len() == 0
    }

    /// One group.
    #[inline]
    pub fn get(&self, index: usize) -> GroupsIndicator<'a>
        requires { index < length self.now.pairs }
        ensures { pair_of result ≡ slice_index_or self.now.pairs index (0, []) }
    {
        // Its clause says that places have numbers.
        let _ = self.groups.len();
        self.groups.get(self.start + index)
    }

    /// The groups in order.
    pub fn iter(&self) -> GroupsTypeIter<'a>
        ensures { result ≡ self.now.pairs }
    {
        match self.groups {
            GroupsType::Idx(groups) => {
                let (first, all) = groups.lists(self.start, self.count);
                GroupsTypeIter::over_lists(GroupsIdxIter::new(first, all))
            }
            GroupsType::Slice { groups, .. } => {
                GroupsTypeIter::over_slices(groups.runs(self.start, self.count))
            }
        }
    }

    /// Whether the groups are flagged as sorted. Unflagged groups may be in order too.
    pub fn is_sorted_flag(&self) -> bool
        ensures flag { result ≡ self.now.flagged }
        ensures ascend { IsTrue result → IsNonDecreasing (map first_of self.now.pairs) }
    {
        self.groups.is_sorted_flag()
    }

    /// The groups copied, in the form and with the flag that they have.
    pub fn to_type(&self, alloc: Global) -> PolarsResult<GroupsType>
        ensures ok { IfOk result (λ g. groups_of g ≡ self.now) }
        ensures err { IfErr result IsNoMemory }
    {
        match self.groups {
            GroupsType::Idx(groups) => Ok(GroupsType::Idx(groups.part(
                alloc, self.start, self.count,
            )?)),
            GroupsType::Slice { groups, rolling } => Ok(GroupsType::Slice {
                groups: groups.part(alloc, self.start, self.count)?,
                rolling: *rolling,
            }),
        }
    }

    /// Whether every first row and every row is below `n`, and the rows of each group ascend from its
    /// first row on. One pass over the rows of lists, and over the ends of runs.
    pub fn fits(&self, n: usize) -> bool
        ensures { IsTrue result ↔ All (FitsRows n) self.now.pairs }
    {
        for place in 0..self.len() {
            if !self.get(place).fits(n) {
                return false;
            }
        }
        true
    }

    /// Whether the groups fit `n` rows, and none is empty.
    pub fn is_well_formed(&self, n: usize) -> bool
        ensures { IsTrue result ↔ IsWellFormed n self.now.pairs }
    {
        self.fits(n) && self.all_have_rows()
    }

    /// What `f` gives for each group, in order, by as many workers as the pool has, each some groups that
    /// follow each other. With one worker no thread is started.
    pub fn par_map<R: Threads + Sync, X: Send + Drop, F: Fn(GroupsIndicator<'_>) -> X + Sync>(
        &self,
        rt: &R,
        alloc: Global,
        pool: &Pool,
        f: &F,
    ) -> PolarsResult<Vec<X>>
        requires { TakesGroups F.Fn f.now self.now.pairs }
        ensures len { IfOk result (λ made. length made.items ≡ length self.now.pairs) }
        ensures each { IfOk result (λ made. GivesOfGroups F.Fn f.now self.now.pairs made.items) }
        ensures err { IfErr result IsNoMemory }
    {
        let call = |place: usize| -> X
            requires { (place < length self.now.pairs)
                × TakesGroups F.Fn f.now self.now.pairs }
            ensures { GivesOfGroup F.Fn f.entry.now
                (slice_index_or self.entry.now.pairs place (0, [])) result }
        { f(self.get(place)) };
        map_places(rt, alloc, self.len(), pool, &call)
    }

    // Whether no group is empty.
    fn all_have_rows(&self) -> bool
        ensures { IsTrue result ↔ All (λ group. 0 < length group.1) self.now.pairs }
    {
        for place in 0..self.len() {
            if self.get(place).is_empty() {
                return false;
            }
        }
        true
    }
}

#[cfg(test)]
pub(crate) mod tests {
    use super::*;
    use crate::groups_idx::GroupsIdx;
    use crate::groups_idx::tests::{Pair, items};
    use crate::groups_slice::GroupsSlice;
    use std::process::Abort;
    use std::test::Fail;

    pub(crate) fn lists(alloc: Global, pairs: &[Pair<'_>]) -> Result<GroupsType, Fail> {
        let groups = GroupsIdx::from_items(alloc, items(alloc, pairs)?)?;
        Ok(GroupsType::from(groups))
    }

    // Rows 0 and 1, and row 2.
    pub(crate) fn runs<R: Abort>(rt: &R, alloc: Global, rolling: bool) -> Result<GroupsType, Fail> {
        let runs = vec![in alloc; [0u32, 2], [2, 1]]?;
        assert!(rt; GroupsSlice::slices_fit(&runs));
        Ok(GroupsType::Slice {
            groups: GroupsSlice::from_vec(runs),
            rolling,
        })
    }

    #[test]
    fn lists_that_fit(rt: HostRuntime) -> Result<(), Fail> {
        let all: [(&[Pair<'_>], usize, bool, bool); 6] = [
            (&[(0, &[0, 1]), (2, &[2, 4]), (3, &[3])], 5, true, true),
            (&[(0, &[0, 1]), (4, &[])], 5, true, false),
            (&[(0, &[0, 1]), (4, &[])], 4, false, false),
            (&[(0, &[0, 2])], 2, false, false),
            (&[(1, &[0, 1])], 2, false, false),
            (&[(1, &[1, 1])], 2, false, false),
        ];
        for (pairs, n, fit, formed) in all {
            let groups = lists(rt.alloc(), pairs)?;
            assert_eq!(rt; groups.fits(n), fit, "{pairs:?} of {n}");
            assert_eq!(rt; groups.is_well_formed(n), formed, "{pairs:?} of {n}");
        }
        Ok(())
    }

    #[test]
    fn runs_that_fit(rt: HostRuntime) -> Result<(), Fail> {
        let all: [(usize, bool); 2] = [(3, true), (2, false)];
        for (n, fit) in all {
            let groups = runs(&rt, rt.alloc(), false)?;
            assert_eq!(rt; groups.fits(n), fit);
            assert_eq!(rt; groups.is_well_formed(n), fit);
        }
        Ok(())
    }

    #[test]
    fn forms_and_flags_differ(rt: HostRuntime) -> Result<(), Fail> {
        let alloc = rt.alloc();
        let groups = lists(alloc, &[(0, &[0, 1]), (2, &[2])])?;
        let mut flagged = groups.try_clone()?;
        assert!(rt; flagged == groups);
        flagged.sort()?;
        let run = runs(&rt, alloc, false)?;
        assert!(rt; run == run.try_clone()?);
        let rolling = runs(&rt, alloc, true)?;
        let others = lists(alloc, &[(0, &[0, 1]), (2, &[3])])?;
        for other in [&flagged, &run, &rolling, &others] {
            assert!(rt; groups != *other);
        }
        assert!(rt; run != rolling);
        Ok(())
    }

    #[test]
    fn each_group_is_mapped(rt: HostRuntime) -> Result<(), Fail> {
        let alloc = rt.alloc();
        for workers in [1, 2, 4] {
            let pool = Pool::new(workers, 1, 1, 1, 0);
            let pairs: [Pair<'_>; 3] = [(0, &[0, 1]), (2, &[2, 4]), (3, &[3])];
            let groups = GroupsIdx::from_items(alloc, items(alloc, &pairs)?)?;
            let firsts = groups.map_par(&rt, alloc, &pool, &|first, _| first)?;
            assert_eq!(rt; firsts.as_slice(), [0, 2, 3].as_slice());
            let groups = GroupsType::from(groups);
            let lengths = groups.par_map(&rt, alloc, &pool, &|group| group.len())?;
            assert_eq!(rt; lengths.as_slice(), [2, 2, 1].as_slice());
        }
        Ok(())
    }
}

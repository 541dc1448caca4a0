//! Groups that are shared, of which a part is shown.

ghost use Rattle.std.specs.Prelude.{◌≡◌, [], false, IfErr, IfOk};
ghost use Rattle.gb_base.specs.PlSmallStr.{IsNoMemory};
ghost use Rattle.gb_defs.specs.Groups.{idx_groups};
ghost use Rattle.gb_defs.specs.Slices.{moved_into, slice_end, slice_start};
ghost use Rattle.gb_groups.specs.GroupsType.{groups_of};
ghost use Rattle.gb_groups.specs.Views.{sliced_groups};

use crate::groups_idx::GroupsIdx;
use crate::groups_type::GroupsType;
use crate::view::GroupsView;
use gb_base::error::PolarsResult;
use std::alloc::Global;
use std::marker::Model;
use std::sync::Arc;

/// So many groups from a place on, of groups that are shared, seen as the groups that are shown.
#[derive(Drop)]
pub struct GroupPositions {
    groups: Arc<GroupsType>,
    start: usize,
    count: usize,
}

impl Model for GroupPositions {
    ghost use Rattle.std.specs.Prelude.{◌+◌, ◌≤◌, length};
    ghost use Rattle.std.specs.Arc.{arc_value};
    ghost use Rattle.gb_defs.specs.Groups.{Grouping};
    ghost use Rattle.gb_groups.specs.Views.{part_from};

    ghost Value = { Grouping };

    ghost use Rattle.gb_groups.specs.GroupsType.{groups_of};

    ghost view = { λ p. part_from (groups_of (arc_value p.groups)) p.start p.count };

    ghost invariant = { λ p. p.start + p.count ≤ length (groups_of (arc_value p.groups)).pairs };
}

impl PartialEq for GroupPositions {
    ghost use Rattle.std.specs.Cmp.{partial_equiv_from_equiv};
    ghost use Rattle.gb_groups.specs.Same.{same_equiv, same_groups};

    ghost eq = { same_groups };

    ghost laws = { partial_equiv_from_equiv same_equiv };

    fn eq(&self, other: &GroupPositions) -> bool {
        self.view() == other.view()
    }
}

impl Eq for GroupPositions {
    ghost use Rattle.gb_groups.specs.Same.{same_equiv};

    ghost laws = { same_equiv };
}

impl GroupPositions {
    /// No groups, as row lists that are not flagged as sorted.
    pub fn empty(alloc: Global) -> PolarsResult<GroupPositions>
        ensures ok { IfOk result (λ positions. positions ≡ idx_groups [] false) }
        ensures err { IfErr result IsNoMemory }
    {
        GroupPositions::over(alloc, GroupsType::Idx(GroupsIdx::empty(alloc)))
    }

    /// All of these groups.
    pub(crate) fn over(alloc: Global, groups: GroupsType) -> PolarsResult<GroupPositions>
        ensures ok { IfOk result (λ positions. positions ≡ groups_of groups) }
        ensures err { IfErr result IsNoMemory }
    {
        let count = groups.len();
        Ok(GroupPositions {
            groups: Arc::new(alloc, groups)?,
            start: 0,
            count,
        })
    }

    /// The groups that are shown.
    pub fn view(&self) -> GroupsView<'_>
        ensures { result ≡ self.now }
    {
        GroupsView::new(&self.groups, self.start, self.count)
    }

    /// So many of the groups that are shown from an offset on, which counts from the end where it is
    /// negative. Both ends are moved into the groups that are shown. No group is copied.
    pub fn slice(self, offset: i64, len: usize) -> GroupPositions
        ensures { result ≡ sliced_groups offset len self }
    {
        // Its clause says that places have numbers.
        let _ = self.groups.len();
        let (from, to) = slice_bounds(self.count, offset, len);
        let GroupPositions { groups, start, .. } = self;
        GroupPositions {
            groups,
            start: start + from,
            count: to.saturating_sub(from),
        }
    }

    /// The same part of the same groups, which are shared and not copied.
    pub fn try_clone(&self) -> PolarsResult<GroupPositions>
        ensures ok { IfOk result (λ positions. positions ≡ self.now) }
        ensures err { IfErr result IsNoMemory }
    {
        Ok(GroupPositions {
            groups: Arc::try_clone(&self.groups)?,
            start: self.start,
            count: self.count,
        })
    }
}

// A place moved into so many groups.
fn moved_into(count: usize, place: i128) -> usize
    ensures { result ≡ moved_into count place }
{
    if place <= 0 {
        return 0;
    }
    place.unsigned_abs().min(count as u128) as usize
}

// The first group that a slice shows, and the first behind those.
fn slice_bounds(count: usize, offset: i64, len: usize) -> (usize, usize)
    ensures start { result.0 ≡ slice_start count offset }
    ensures end { result.1 ≡ slice_end count offset len }
{
    let from = if offset < 0 {
        count as i128 + i128::from(offset)
    } else {
        i128::from(offset)
    };
    (
        moved_into(count, from),
        moved_into(count, from + len as i128),
    )
}

#[cfg(test)]
mod tests {
    use super::*;
    use crate::groups_idx::tests::Pair;
    use crate::view::tests::{lists, runs};
    use std::test::Fail;

    const PAIRS: [Pair<'static>; 2] = [(3, &[3]), (0, &[0, 1])];

    #[test]
    fn groups_are_shared(rt: HostRuntime) -> Result<(), Fail> {
        let alloc = rt.alloc();
        let positions = lists(alloc, &PAIRS)?.into_sliceable(alloc)?;
        let again = positions.try_clone()?;
        assert!(rt; positions == again);
        let view = again.view();
        assert_eq!(rt; view.len(), 2);
        assert!(rt; !view.is_empty());
        assert_eq!(rt; view.get(1).len(), 2);
        assert_eq!(rt; view.iter().count(), 2);
        assert!(rt; view.fits(4));
        assert!(rt; view.is_well_formed(4));
        assert!(rt; !view.is_sorted_flag());
        let groups = view.to_type(alloc)?;
        assert!(rt; groups == lists(alloc, &PAIRS)?);
        Ok(())
    }

    #[test]
    fn no_groups(rt: HostRuntime) -> Result<(), Fail> {
        let none = GroupPositions::empty(rt.alloc())?;
        assert!(rt; none.view().is_empty());
        assert!(rt; none != runs(&rt, rt.alloc(), false)?.into_sliceable(rt.alloc())?);
        Ok(())
    }

    #[test]
    fn slices_show_a_part(rt: HostRuntime) -> Result<(), Fail> {
        let alloc = rt.alloc();
        let all: [(i64, usize, &[Pair<'_>]); 7] = [
            (0, 9, &PAIRS),
            (1, 1, &[(0, &[0, 1])]),
            (-1, 9, &[(0, &[0, 1])]),
            (-2, 1, &[(3, &[3])]),
            (-3, 2, &[(3, &[3])]),
            (2, 1, &[]),
            (i64::MIN, usize::MAX, &PAIRS),
        ];
        for (offset, len, shown) in all {
            let whole = lists(alloc, &PAIRS)?.into_sliceable(alloc)?;
            let part = whole.slice(offset, len);
            let expected = lists(alloc, shown)?.into_sliceable(alloc)?;
            assert!(rt; part == expected, "{offset} {len}");
        }
        Ok(())
    }

    #[test]
    fn runs_of_a_part(rt: HostRuntime) -> Result<(), Fail> {
        let alloc = rt.alloc();
        let part = runs(&rt, alloc, true)?.into_sliceable(alloc)?.slice(0, 9);
        let part = part.slice(1, 1);
        assert!(rt; part.view().is_sorted_flag());
        assert_eq!(rt; part.view().iter().count(), 1);
        for group in part.view().iter() {
            assert_eq!(rt; (group.first(), group.len()), (2, 1));
        }
        assert!(rt; part == part.view().to_type(alloc)?.into_sliceable(alloc)?);
        Ok(())
    }
}

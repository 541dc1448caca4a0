//! Iterators over groups, in order.

ghost use Rattle.std.specs.Prelude.{◌≡◌, length};
ghost use Rattle.std.specs.Iterator.{YieldsFirstBy, item_count};
ghost use Rattle.gb_groups.specs.Groups.{lent_pair, paired};
ghost use Rattle.gb_groups.specs.Slices.{slice_pairs};

use crate::groups_idx::{BorrowIdxItem, IdxSize, IdxVec};
use crate::groups_type::GroupsIndicator;
use std::marker::Model;

/// The groups that are left, seen as their list.
#[derive(Drop)]
pub struct GroupsIdxIter<'a> {
    first: &'a [IdxSize],
    all: &'a [IdxVec],
}

impl<'a> Model for GroupsIdxIter<'a> {
    ghost use Rattle.std.specs.Prelude.{◌≡◌, ℕ, List, length};
    ghost use Rattle.gb_groups.specs.Groups.{paired};

    ghost Value = { List (ℕ × List ℕ) };

    ghost view = { λ it. paired it.first.now it.all.now };

    ghost invariant = { λ it. length it.first.now ≡ length it.all.now };
}

impl<'a> GroupsIdxIter<'a> {
    pub(crate) fn new(first: &'a [IdxSize], all: &'a [IdxVec]) -> GroupsIdxIter<'a>
        requires { length first.now ≡ length all.now }
        ensures { result ≡ paired first.now all.now }
    {
        GroupsIdxIter { first, all }
    }
}

impl<'a> Iterator for GroupsIdxIter<'a> {
    type Item = BorrowIdxItem<'a>;

    ghost next_gives = { YieldsFirstBy lent_pair (λ rest. rest) };

    ghost remaining = { item_count (λ rest. rest) };

    fn next(&mut self) -> Option<BorrowIdxItem<'a>> {
        let (first, later_firsts) = self.first.split_first()?;
        let (rows, later_rows) = self.all.split_first()?;
        self.first = later_firsts;
        self.all = later_rows;
        Some((*first, rows))
    }
}

// The groups that are left, as lists or as runs.
#[derive(Drop)]
enum Left<'a> {
    Idx(GroupsIdxIter<'a>),
    Slice(&'a [[IdxSize; 2]]),
}

/// The groups that are left, in the form that they have.
#[derive(Drop)]
pub struct GroupsTypeIter<'a> {
    left: Left<'a>,
}

impl<'a> Model for GroupsTypeIter<'a> {
    ghost use Rattle.std.specs.Prelude.{ℕ, List};
    ghost use Rattle.gb_groups.specs.Left.{left_pairs};

    ghost Value = { List (ℕ × List ℕ) };

    ghost view = { λ it. left_pairs it.left };
}

impl<'a> GroupsTypeIter<'a> {
    pub(crate) fn over_lists(groups: GroupsIdxIter<'a>) -> GroupsTypeIter<'a>
        ensures { result ≡ groups.entry }
    {
        GroupsTypeIter {
            left: Left::Idx(groups),
        }
    }

    pub(crate) fn over_slices(slices: &'a [[IdxSize; 2]]) -> GroupsTypeIter<'a>
        ensures { result ≡ slice_pairs slices.now }
    {
        GroupsTypeIter {
            left: Left::Slice(slices),
        }
    }
}

impl<'a> Iterator for GroupsTypeIter<'a> {
    ghost use Rattle.gb_groups.specs.GroupsIndicator.{pair_of};

    type Item = GroupsIndicator<'a>;

    ghost next_gives = { YieldsFirstBy pair_of (λ rest. rest) };

    ghost remaining = { item_count (λ rest. rest) };

    fn next(&mut self) -> Option<GroupsIndicator<'a>> {
        match &mut self.left {
            Left::Idx(groups) => Some(GroupsIndicator::Idx(groups.next()?)),
            Left::Slice(slices) => {
                let (slice, later) = slices.split_first()?;
                *slices = later;
                Some(GroupsIndicator::Slice(*slice))
            }
        }
    }
}

//! Groups as first rows and row lists, flagged where the first rows are known never to descend.

ghost use Rattle.std.specs.Prelude.{◌≡◌, ◌+◌, ◌<◌, ◌≤◌, [], drop, length, IsTrue, ◌↔◌, ◌==◌, true, false, map, slice_index_or, take, IfOk, IfErr, OnOk, OnErr};
ghost use Rattle.std.specs.List.Sorted.{IsNonDecreasing};
ghost use Rattle.gb_base.specs.PlSmallStr.{IsNoMemory};
ghost use Rattle.gb_defs.specs.Groups.{Idx, first_of, idx_groups, lists_in};
ghost use Rattle.gb_flat.specs.Buffers.{joined};

use crate::by_workers::map_places;
use crate::items::{join_parts, push_items, spread_parts, take_items};
use crate::iter::GroupsIdxIter;
use crate::same::{copy_lists, copy_of, part_of, same_lists};
use gb_base::error::PolarsResult;
pub use gb_base::nullable_idx::IdxSize;
use gb_base::pool::Pool;
use gb_flat::shares::cap_and_offsets;
use smallvec::SmallVec;
use std::alloc::Global;
use std::marker::Model;
use std::thread::Threads;

/// The rows of a group. One row takes no allocation.
pub type IdxVec = SmallVec<IdxSize, 1>;

/// A group: its first row and its rows.
pub type IdxItem = (IdxSize, IdxVec);

/// A group that is lent.
pub type BorrowIdxItem<'a> = (IdxSize, &'a IdxVec);

/// Groups by the first row and the list of rows of each.
#[derive(Drop)]
pub struct GroupsIdx {
    first: Vec<IdxSize>,
    all: Vec<IdxVec>,
    sorted: bool,
}

impl Model for GroupsIdx {
    ghost use Rattle.std.specs.Prelude.{◌≡◌, length, IsTrue};
    ghost use Rattle.std.specs.List.Sorted.{IsNonDecreasing};
    ghost use Rattle.gb_defs.specs.Groups.{Grouping, idx_groups};
    ghost use Rattle.gb_groups.specs.Groups.{paired};

    ghost Value = { Grouping };

    ghost view = { λ g. idx_groups (paired g.first.items g.all.items) g.sorted };

    ghost invariant = { λ g. (length g.first.items ≡ length g.all.items) × (IsTrue g.sorted → IsNonDecreasing g.first.items) };
}

impl PartialEq for GroupsIdx {
    ghost use Rattle.std.specs.Prelude.{◌≡◌, ◌↔◌, IsTrue};
    ghost use Rattle.std.specs.Cmp.{partial_equiv_from_equiv};
    ghost use Rattle.gb_groups.specs.Same.{same_equiv, same_groups};

    ghost eq = { same_groups };

    ghost laws = { partial_equiv_from_equiv same_equiv };

    fn eq(&self, other: &GroupsIdx) -> bool {
        self.sorted == other.sorted
            && same_lists(
                self.first.as_slice(),
                self.all.as_slice(),
                other.first.as_slice(),
                other.all.as_slice(),
            )
    }
}

impl Eq for GroupsIdx {
    ghost use Rattle.gb_groups.specs.Same.{same_equiv};

    ghost laws = { same_equiv };
}

impl GroupsIdx {
    ghost use Rattle.gb_groups.specs.Groups.{lists_of, lent_pair, paired, pairs_of};
    ghost use Rattle.gb_groups.specs.Calls.{GivesOfList, GivesOfLists, TakesLists};
    ghost use Rattle.gb_groups.specs.Order.{IsByFirst};
    ghost use Rattle.gb_groups.specs.Views.{part_from};

    /// No groups, not flagged as sorted.
    pub fn empty(alloc: Global) -> GroupsIdx
        ensures { result ≡ idx_groups [] false }
    {
        GroupsIdx {
            first: Vec::new(alloc),
            all: Vec::new(alloc),
            sorted: false,
        }
    }

    /// Groups with these first rows and lists of rows.
    pub fn new(first: Vec<IdxSize>, all: Vec<IdxVec>, sorted: bool) -> GroupsIdx
        requires as_many { length first.items ≡ length all.items }
        requires ascend { IsTrue sorted → IsNonDecreasing first.items }
        ensures { result ≡ idx_groups (paired first.items all.items) sorted }
    {
        GroupsIdx { first, all, sorted }
    }

    /// The groups that these items are, in order.
    pub fn from_items(alloc: Global, items: Vec<IdxItem>) -> PolarsResult<GroupsIdx>
        ensures ok { IfOk result (λ g. g ≡ idx_groups (pairs_of items.items) false) }
        ensures err { IfErr result IsNoMemory }
    {
        let mut first = Vec::with_capacity(alloc, items.len())?;
        let mut all = Vec::with_capacity(alloc, items.len())?;
        push_items(&mut first, &mut all, items);
        Ok(GroupsIdx::new(first, all, false))
    }

    /// The groups of each part in order, part after part, moved by as many workers as the pool has, each
    /// some parts.
    pub fn from_parts<R: Threads + Sync>(
        rt: &R,
        alloc: Global,
        parts: Vec<Vec<IdxItem>>,
        pool: &Pool,
    ) -> PolarsResult<GroupsIdx>
        ensures ok { IfOk result (λ g. g ≡ idx_groups (pairs_of (joined parts.items)) false) }
        ensures err { IfErr result IsNoMemory }
    {
        let (count, starts) = cap_and_offsets(alloc, &parts)?;
        let workers = pool.workers().min(parts.len());
        if workers < 2 {
            let (first, all) = join_parts(alloc, parts, count)?;
            return Ok(GroupsIdx::new(first, all, false));
        }
        let (first, all) = spread_parts(rt, alloc, parts, count, &starts, workers)?;
        Ok(GroupsIdx::new(first, all, false))
    }

    /// The groups as items, in order.
    pub fn into_items(self) -> PolarsResult<Vec<IdxItem>>
        ensures ok { IfOk result (λ items. pairs_of items.items ≡ self.pairs) }
        ensures err { IfErr result IsNoMemory }
    {
        let mut first = self.first;
        let mut all = self.all;
        Ok(take_items(&mut first, &mut all)?)
    }

    /// Whether no row stands before a smaller one, as `new` asks of groups that are flagged as sorted.
    pub fn firsts_ascend(first: &[IdxSize]) -> bool
        ensures { IsTrue result ↔ IsNonDecreasing first.now }
    {
        first.is_sorted()
    }

    /// How many groups there are.
    pub fn len(&self) -> usize
        ensures { result ≡ length self.now.pairs }
    {
        self.first.len()
    }

    pub fn is_empty(&self) -> bool
        ensures { result ≡ (length self.now.pairs == 0) }
    {
        self.first.is_empty()
    }

    /// The first row of each group.
    pub fn first(&self) -> &[IdxSize]
        ensures { result.now ≡ map first_of self.now.pairs }
    {
        self.first.as_slice()
    }

    /// The first row of each group, moved out.
    pub(crate) fn into_first(self) -> Vec<IdxSize>
        ensures { result.items ≡ map first_of self.pairs }
    {
        self.first
    }

    /// The rows of each group.
    pub fn all(&self) -> &[IdxVec]
        ensures { lists_of result.now ≡ lists_in self.now }
    {
        self.all.as_slice()
    }

    /// One group.
    pub fn get(&self, index: usize) -> BorrowIdxItem<'_>
        requires { index < length self.now.pairs }
        ensures { lent_pair result ≡ slice_index_or self.now.pairs index (0, []) }
    {
        (self.first[index], &self.all[index])
    }

    /// The groups in order.
    pub fn iter(&self) -> GroupsIdxIter<'_>
        ensures { result ≡ self.now.pairs }
    {
        GroupsIdxIter::new(self.first.as_slice(), self.all.as_slice())
    }

    /// What `f` gives for the first row and the rows of each group, in order, by as many workers as the pool
    /// has, each some groups that follow each other. With one worker no thread is started.
    pub fn map_par<R: Threads + Sync, X: Send + Drop, F: Fn(IdxSize, &IdxVec) -> X + Sync>(
        &self,
        rt: &R,
        alloc: Global,
        pool: &Pool,
        f: &F,
    ) -> PolarsResult<Vec<X>>
        requires { TakesLists F.Fn f.now self.now.pairs }
        ensures len { IfOk result (λ made. length made.items ≡ length self.now.pairs) }
        ensures each { IfOk result (λ made. GivesOfLists F.Fn f.now self.now.pairs made.items) }
        ensures err { IfErr result IsNoMemory }
    {
        let call = |place: usize| -> X
            requires { (place < length self.now.pairs) × TakesLists F.Fn f.now self.now.pairs }
            ensures { GivesOfList F.Fn f.entry.now
                (slice_index_or self.entry.now.pairs place (0, [])) result }
        {
            let (first, rows) = self.get(place);
            f(first, rows)
        };
        map_places(rt, alloc, self.len(), pool, &call)
    }

    /// The first rows and the row lists of so many groups from a place on.
    pub(crate) fn lists(&self, start: usize, count: usize) -> (&[IdxSize], &[IdxVec])
        requires { start + count ≤ length self.now.pairs }
        ensures pairs { paired result.0.now result.1.now
            ≡ take count (drop start self.now.pairs) }
        ensures each { length result.0.now ≡ length result.1.now }
        ensures ascend { IsTrue self.now.flagged → IsNonDecreasing result.0.now }
    {
        (
            part_of(self.first.as_slice(), start, count),
            part_of(self.all.as_slice(), start, count),
        )
    }

    /// So many groups from a place on, copied, and flagged as all are.
    pub(crate) fn part(&self, alloc: Global, start: usize, count: usize) -> PolarsResult<GroupsIdx>
        requires { start + count ≤ length self.now.pairs }
        ensures ok { IfOk result (λ g. g ≡ part_from self.now start count) }
        ensures err { IfErr result IsNoMemory }
    {
        let (first, all) = self.lists(start, count);
        let first = copy_of(alloc, first)?;
        let all = copy_lists(alloc, all)?;
        Ok(GroupsIdx::new(first, all, self.sorted))
    }

    /// The same groups once more.
    pub fn try_clone(&self) -> PolarsResult<GroupsIdx>
        ensures ok { IfOk result (λ g. g ≡ self.now) }
        ensures err { IfErr result IsNoMemory }
    {
        self.part(*self.first.allocator(), 0, self.len())
    }

    /// Puts the groups in the order of their first rows. Groups of one first row keep their order.
    pub fn sort(&mut self) -> PolarsResult<()>
        ensures sorted { OnOk result (IsByFirst self.old.pairs self.new.pairs) }
        ensures flagged { OnOk result (self.new.flagged ≡ true) }
        ensures form { self.new.form ≡ self.old.form }
        ensures known { IsTrue self.old.flagged → self.new ≡ self.old }
        ensures unchanged { OnErr result (self.new ≡ self.old) }
        ensures err { IfErr result IsNoMemory }
    {
        if self.sorted {
            return Ok(());
        }
        let mut items = take_items(&mut self.first, &mut self.all)?;
        let sorted = items.sort_by_key(|item| item.0);
        push_items(&mut self.first, &mut self.all, items);
        sorted?;
        self.sorted = true;
        Ok(())
    }

    /// Whether the groups are flagged as sorted. Unflagged groups may be in order too.
    pub fn is_sorted_flag(&self) -> bool
        ensures form { self.now.form ≡ Idx }
        ensures flag { result ≡ self.now.flagged }
        ensures ascend { IsTrue result → IsNonDecreasing (map first_of self.now.pairs) }
    {
        self.sorted
    }
}

#[cfg(test)]
pub(crate) mod tests {
    use super::*;
    use crate::groups_type::GroupsType;
    use std::process::Abort;
    use std::test::Fail;

    /// A first row, and the rows of its group.
    pub(crate) type Pair<'a> = (u32, &'a [u32]);

    pub(crate) fn items(alloc: Global, pairs: &[Pair<'_>]) -> Result<Vec<IdxItem>, Fail> {
        let mut items: Vec<IdxItem> = Vec::new(alloc);
        for (first, rows) in pairs {
            items.push((*first, SmallVec::from_slice(alloc, *rows)?))?;
        }
        Ok(items)
    }

    fn expect_pairs<R: Abort>(rt: &R, groups: &GroupsIdx, pairs: &[Pair<'_>]) {
        assert_eq!(rt; groups.len(), pairs.len());
        for ((first, rows), pair) in groups.iter().zip(pairs.iter()) {
            assert_eq!(rt; first, pair.0);
            assert_eq!(rt; rows.as_slice(), pair.1);
        }
    }

    #[test]
    fn groups_of_one_first_row_keep_their_order(rt: HostRuntime) -> Result<(), Fail> {
        let alloc = rt.alloc();
        let given: [Pair<'_>; 4] = [(3, &[3]), (0, &[0, 1]), (3, &[4]), (2, &[5])];
        let more: [Pair<'_>; 2] = [(0, &[6]), (1, &[7])];
        let joined: [Pair<'_>; 6] = [
            (3, &[3]),
            (0, &[0, 1]),
            (3, &[4]),
            (2, &[5]),
            (0, &[6]),
            (1, &[7]),
        ];
        let sorted: [Pair<'_>; 6] = [
            (0, &[0, 1]),
            (0, &[6]),
            (1, &[7]),
            (2, &[5]),
            (3, &[3]),
            (3, &[4]),
        ];

        for workers in [1, 2, 4] {
            let pool = Pool::new(workers, 1, 1, 1, 0);
            let groups = GroupsIdx::from_items(alloc, items(alloc, &given)?)?;
            expect_pairs(&rt, &groups, &given);
            let mut parts = Vec::new(alloc);
            parts.push(groups.into_items()?)?;
            parts.push(Vec::new(alloc))?;
            parts.push(items(alloc, &more)?)?;
            let groups = GroupsIdx::from_parts(&rt, alloc, parts, &pool)?;
            assert!(rt; !groups.is_sorted_flag());
            expect_pairs(&rt, &groups, &joined);
            let mut groups = GroupsType::from(groups);
            groups.sort()?;
            assert!(rt; groups.is_sorted_flag());
            expect_pairs(&rt, groups.unwrap_idx(), &sorted);
        }
        Ok(())
    }

    #[test]
    fn groups_are_put_in_order(rt: HostRuntime) -> Result<(), Fail> {
        let alloc = rt.alloc();
        let pairs: [Pair<'_>; 2] = [(3, &[3]), (0, &[0, 1])];
        let mut groups = GroupsIdx::from_items(alloc, items(alloc, &pairs)?)?;
        assert!(rt; !groups.is_sorted_flag());
        expect_pairs(&rt, &groups, &pairs);
        groups.sort()?;
        assert!(rt; groups.is_sorted_flag());
        expect_pairs(&rt, &groups, &[(0, &[0, 1]), (3, &[3])]);
        Ok(())
    }
}

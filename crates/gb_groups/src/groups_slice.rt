//! Groups as runs of rows: of each its first row and its length.

ghost use Rattle.std.specs.Prelude.{◌≡◌, ◌↔◌, ◌+◌, ◌≤◌, drop, length, map, take, IsTrue, IfErr, IfOk};
ghost use Rattle.gb_base.specs.PlSmallStr.{IsNoMemory};
ghost use Rattle.gb_defs.specs.Groups.{first_of};
ghost use Rattle.gb_groups.specs.Slices.{slice_pairs, SlicesFit};

use crate::same::{copy_of, part_of};
use gb_base::error::PolarsResult;
use gb_base::nullable_idx::IdxSize;
use std::alloc::Global;
use std::marker::Model;

/// Runs of rows, each `[start, length]`, that end at a row number. The starts never descend.
#[derive(Drop)]
pub struct GroupsSlice {
    slices: Vec<[IdxSize; 2]>,
}

impl Model for GroupsSlice {
    ghost use Rattle.std.specs.Prelude.{ℕ, List};
    ghost use Rattle.gb_groups.specs.Slices.{SlicesFit};

    ghost Value = { List (List ℕ) };

    ghost view = { λ g. g.slices.items };

    ghost invariant = { λ g. SlicesFit g.slices.items };
}

impl PartialEq for GroupsSlice {
    ghost use Rattle.std.specs.Prelude.{nat_eq};
    ghost use Rattle.std.specs.Cmp.{partial_equiv_from_equiv};
    ghost use Rattle.std.specs.Cmp.Lexicographic.{lists_equiv, nat_list_eq_equiv, pointwise};

    ghost eq = { pointwise (pointwise nat_eq) };

    ghost laws = { partial_equiv_from_equiv (lists_equiv nat_list_eq_equiv) };

    fn eq(&self, other: &GroupsSlice) -> bool {
        self.slices == other.slices
    }
}

impl Eq for GroupsSlice {
    ghost use Rattle.std.specs.Cmp.Lexicographic.{lists_equiv, nat_list_eq_equiv};

    ghost laws = { lists_equiv nat_list_eq_equiv };
}

impl GroupsSlice {
    /// Groups that are these runs.
    pub fn from_vec(slices: Vec<[IdxSize; 2]>) -> GroupsSlice
        requires { SlicesFit slices.items }
        ensures { result ≡ slices.items }
    {
        GroupsSlice { slices }
    }

    /// Whether runs end at row numbers and their starts never descend, as `from_vec` asks.
    pub fn slices_fit(slices: &[[IdxSize; 2]]) -> bool
        ensures { IsTrue result ↔ SlicesFit slices.now }
    {
        let mut least = 0;
        for slice in slices {
            let [start, length] = *slice;
            if start < least || start.checked_add(length).is_none() {
                return false;
            }
            least = start;
        }
        true
    }

    /// The runs in order.
    pub fn as_slice(&self) -> &[[IdxSize; 2]]
        ensures fit { SlicesFit self.now }
        ensures value { result.now ≡ self.now }
    {
        self.slices.as_slice()
    }

    /// So many runs from a place on.
    pub(crate) fn runs(&self, start: usize, count: usize) -> &[[IdxSize; 2]]
        requires { start + count ≤ length self.now }
        ensures fit { SlicesFit result.now }
        ensures value { result.now ≡ take count (drop start self.now) }
    {
        part_of(self.slices.as_slice(), start, count)
    }

    /// So many runs from a place on, copied.
    pub(crate) fn part(
        &self,
        alloc: Global,
        start: usize,
        count: usize,
    ) -> PolarsResult<GroupsSlice>
        requires { start + count ≤ length self.now }
        ensures ok { IfOk result (λ g. g ≡ take count (drop start self.now)) }
        ensures err { IfErr result IsNoMemory }
    {
        let slices = copy_of(alloc, self.runs(start, count))?;
        Ok(GroupsSlice::from_vec(slices))
    }

    /// The same runs once more.
    pub fn try_clone(&self) -> PolarsResult<GroupsSlice>
        ensures ok { IfOk result (λ g. g ≡ self.now) }
        ensures err { IfErr result IsNoMemory }
    {
        self.part(*self.slices.allocator(), 0, self.slices.len())
    }

    /// The first row of each group.
    pub(crate) fn starts(&self) -> PolarsResult<Vec<IdxSize>>
        ensures ok { IfOk result (λ firsts. firsts.items ≡ map first_of (slice_pairs self.now)) }
        ensures err { IfErr result IsNoMemory }
    {
        let mut firsts = Vec::with_capacity(*self.slices.allocator(), self.slices.len())?;
        for slice in &self.slices {
            firsts.push_reserved(slice[0]);
        }
        Ok(firsts)
    }
}

#[cfg(test)]
mod tests {
    use super::*;

    #[test]
    fn runs_that_fit(rt: HostRuntime) {
        let all: [(&[[u32; 2]], bool); 7] = [
            (&[], true),
            (&[[0, 2], [1, 3], [1, 0]], true),
            (&[[2, 1], [1, 1]], false),
            (&[[4294967294, 1]], true),
            (&[[4294967295, 1]], false),
            (&[[0, 4294967295]], true),
            (&[[1, 4294967295]], false),
        ];
        for (runs, fit) in all {
            assert_eq!(rt; GroupsSlice::slices_fit(runs), fit, "{runs:?}");
        }
    }
}

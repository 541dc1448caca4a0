//! The groups of all or of some of the rows, by one table: first the number of each row's group, where
//! groups are numbered in the order of their first rows, and from it the rows of each group.

ghost use Rattle.std.specs.Prelude.{◌≡◌, ◌+◌, ◌<◌, ◌≤◌, length, zip, IfOk, IfErr, OnOk};
ghost use Rattle.std.specs.List.{All};
ghost use Rattle.std.specs.List.Sorted.{IsNonDecreasing};
ghost use Rattle.gb_defs.specs.Groups.{AreMembers, HasRowNumbers};
ghost use Rattle.gb_defs.specs.Rows.{AreHashes};
ghost use Rattle.gb_base.specs.PlSmallStr.{IsNoMemory};
ghost use Rattle.gb_groups.specs.Groups.{lists_of};
ghost use Rattle.gb_paths.specs.Numbers.{AreEntries, groups_among, pairs_by};

use crate::row_hashes::RowHashes;
use gb_base::error::PolarsResult;
use gb_base::nullable_idx::IdxSize;
use gb_groups::groups_idx::IdxVec;
use gb_groups::row_lists::{Members, row_lists};
use gb_hash::key_rows::{KeyRows, Steps};
use gb_table::group_table::GroupTable;
use std::alloc::Global;
use std::sync::ledger::Ledger;

/// The first row of each group, and the number of each row's group. The table tells a group's number by
/// its key.
#[derive(Drop)]
pub struct GroupNumbers<K> {
    pub table: GroupTable<K>,
    pub first: Vec<IdxSize>,
    pub of_rows: Vec<u32>,
}

/// Numbers the groups of some of the rows by one table, in one step a row. The hashes are those of the
/// rows from the first on.
pub fn number_groups<R: KeyRows, M: Members, H: RowHashes, L: Ledger>(
    alloc: Global,
    rows: &R,
    members: &M,
    hashes: &H,
    steps: &mut Steps<L>,
) -> PolarsResult<GroupNumbers<R::Key>>
    requires few { HasRowNumbers (R.rows rows.now).count }
    requires members { AreMembers (length (H.hashes hashes.now)) (M.listed members.now) }
    requires hashes { AreHashes (R.rows rows.now) 0 (H.hashes hashes.now) }
    ensures classes { IfOk result (λ found.
        pairs_by (M.listed members.now) found.of_rows.items found.first.items
        ≡ groups_among (R.rows rows.now) (M.listed members.now)) }
    ensures entries { IfOk result (λ found.
        AreEntries R.key_slot (R.rows rows.now) found.first.items found.table) }
    ensures ascend { IfOk result (λ found. IsNonDecreasing found.first.items) }
    ensures known { IfOk result (λ found.
        All (λ number. number < length found.first.items) found.of_rows.items) }
    ensures each { IfOk result (λ found.
        length found.of_rows.items ≡ length (M.listed members.now)) }
    ensures err { IfErr result IsNoMemory }
    ensures steps { OnOk result (steps.new ≡ steps.old + length (M.listed members.now)) }
    ensures steps_at_most { steps.new ≤ steps.old + length (M.listed members.now) }
{
    let mut table: GroupTable<R::Key> = GroupTable::new(alloc)?;
    let mut first = Vec::new(alloc);
    let count = members.len();
    let mut of_rows = Vec::with_capacity(alloc, count)?;
    for place in 0..count {
        let row = members.row_at(place);
        let key = rows.key_at(row as usize, steps);
        let number = table.number_of(key, hashes.hash_of(row as usize))?;
        if number as usize == first.len() {
            first.push(row)?;
        }
        of_rows.push_reserved(number);
    }
    Ok(GroupNumbers {
        table,
        first,
        of_rows,
    })
}

/// The first row of each group, and its rows.
#[derive(Drop)]
pub struct RowGroups {
    pub first: Vec<IdxSize>,
    pub all: Vec<IdxVec>,
}

/// The groups of the members in the order of their first rows, in one step a member. The hashes are
/// those of the rows from the first on.
pub fn group_members<R: KeyRows, M: Members, H: RowHashes, L: Ledger>(
    alloc: Global,
    rows: &R,
    members: &M,
    hashes: &H,
    steps: &mut Steps<L>,
) -> PolarsResult<RowGroups>
    requires few { HasRowNumbers (R.rows rows.now).count }
    requires members { AreMembers (length (H.hashes hashes.now)) (M.listed members.now) }
    requires hashes { AreHashes (R.rows rows.now) 0 (H.hashes hashes.now) }
    ensures as_many { IfOk result (λ g. length g.first.items ≡ length g.all.items) }
    ensures classes { IfOk result (λ g. zip g.first.items (lists_of g.all.items)
        ≡ groups_among (R.rows rows.now) (M.listed members.now)) }
    ensures ascend { IfOk result (λ g. IsNonDecreasing g.first.items) }
    ensures err { IfErr result IsNoMemory }
    ensures steps { OnOk result (steps.new ≡ steps.old + length (M.listed members.now)) }
    ensures steps_at_most { steps.new ≤ steps.old + length (M.listed members.now) }
{
    let found = number_groups(alloc, rows, members, hashes, steps)?;
    let groups = found.first.len();
    let all = row_lists(alloc, members, found.of_rows.as_slice(), groups)?;
    Ok(RowGroups {
        first: found.first,
        all,
    })
}

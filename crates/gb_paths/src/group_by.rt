//! Groups of any rows that have keys, by one hash table.

ghost use Rattle.std.specs.Prelude.{◌≡◌, ℕ, ◌+◌, ◌<◌, ◌≤◌, IfOk, IfErr, OnOk};
ghost use Rattle.gb_defs.specs.Groups.{HasRowNumbers, IsWellFormed};
ghost use Rattle.gb_defs.specs.Rows.{table_groups};
ghost use Rattle.gb_base.specs.PlSmallStr.{IsNoMemory};
ghost use Rattle.gb_groups.specs.GroupsType.{groups_of};

use crate::row_groups::group_members;
use crate::row_hashes::AskedHashes;
use gb_base::error::PolarsResult;
use gb_groups::groups_idx::GroupsIdx;
use gb_groups::groups_type::GroupsType;
use gb_groups::row_lists::AllRows;
use gb_hash::key_rows::{KeyRows, Steps};
use std::alloc::Global;
use std::marker::Brand;
use std::sync::ledger::{Blank, Ledger};

/// The rows that hold one key, in the order of their first rows, flagged as sorted where that is asked
/// for. It takes one step a row.
pub fn group_by<R: KeyRows, L: Ledger>(
    alloc: Global,
    rows: &R,
    sorted: bool,
    steps: &mut Steps<L>,
) -> PolarsResult<GroupsType>
    requires { HasRowNumbers (R.rows rows.now).count }
    ensures ok { IfOk result (λ g. groups_of g ≡ table_groups (R.rows rows.now) sorted) }
    ensures formed { IfOk result (λ g. IsWellFormed (R.rows rows.now).count (groups_of g).pairs) }
    ensures err { IfErr result IsNoMemory }
    ensures steps { OnOk result (steps.new ≡ steps.old + (R.rows rows.now).count) }
    ensures steps_at_most { steps.new ≤ steps.old + (R.rows rows.now).count }
{
    let members = AllRows::new(rows.len());
    let hashes = AskedHashes { rows };
    let groups = group_members(alloc, rows, &members, &hashes, steps)?;
    Ok(GroupsType::from(GroupsIdx::new(groups.first, groups.all, sorted)))
}

// `group_by`, with a counter of its own.
fn group_blank<R: KeyRows, L: Ledger>(
    alloc: Global,
    rows: &R,
    sorted: bool,
    blank: Blank,
) -> PolarsResult<GroupsType>
    requires name { blank.name ≡ L.name }
    requires parts { blank.parts ≡ L.parts }
    requires some { 0 < L.parts }
    requires few { HasRowNumbers (R.rows rows.now).count }
    ensures ok { IfOk result (λ g. groups_of g ≡ table_groups (R.rows rows.now) sorted) }
    ensures formed { IfOk result (λ g. IsWellFormed (R.rows rows.now).count (groups_of g).pairs) }
    ensures err { IfErr result IsNoMemory }
{
    let mut steps: Steps<L> = Steps::new(blank);
    group_by(alloc, rows, sorted, &mut steps)
}

/// `group_by`, with no steps counted.
pub fn group_uncounted<R: KeyRows>(
    alloc: Global,
    rows: &R,
    sorted: bool,
) -> PolarsResult<GroupsType>
    requires { HasRowNumbers (R.rows rows.now).count }
    ensures ok { IfOk result (λ g. groups_of g ≡ table_groups (R.rows rows.now) sorted) }
    ensures formed { IfOk result (λ g. IsWellFormed (R.rows rows.now).count (groups_of g).pairs) }
    ensures err { IfErr result IsNoMemory }
{
    // The counter is for proofs alone and takes no memory: `Brand` is its name, and it is in one part.
    group_blank::<R, Brand>(alloc, rows, sorted, Blank::new(1))
}

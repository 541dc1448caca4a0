//! Rows by their keys: as groups, or as the number of each row's group, from which what is made of a group's
//! slots one after another is made without a list of its rows.

ghost use Rattle.std.specs.Prelude.{◌≡◌, ◌≢◌, length, map, true, IfErr, IfOk};
ghost use Rattle.gb_defs.specs.Classes.{rows_below};
ghost use Rattle.gb_defs.specs.Groups.{HasRowNumbers, first_of};
ghost use Rattle.gb_defs.specs.Path.{NoValues, kind_of, path_groups};
ghost use Rattle.gb_base.specs.PlSmallStr.{IsNoMemory};
ghost use Rattle.gb_base.specs.Pool.{partitions_of, seed_of};
ghost use Rattle.gb_groups.specs.GroupsType.{groups_of};
ghost use Rattle.gb_hash.specs.Keys.{key_slots};
ghost use Rattle.gb_paths.specs.Classes.{NumberAll, grouping_of};
ghost use Rattle.gb_paths.specs.Keys.{byte_rows, rows_of_keys};
ghost use Rattle.gb_paths.specs.Numbering.{AreNumbersAmong, numbered};
ghost use Rattle.gb_paths.specs.Tuples.{key_path_value, tuples_on};
ghost use Rattle.gb_paths.specs.declared.path.KeyPath.{KeyPath};

use crate::into_groups::group_keys;
use crate::keys::{KeyColumn, Keys, byte_chunks, with_rows};
use crate::number_rows::number_rows;
use crate::number_texts::number_texts;
use crate::path::KeyPath;
use crate::row_numbers::RowNumbers;
use gb_base::device::Gate;
use gb_base::error::PolarsResult;
use gb_base::nullable_idx::IdxSize;
use gb_base::pool::Pool;
use gb_cols::binary::BinaryOffsetChunked;
use gb_groups::groups_type::GroupsType;
use gb_hash::dirty_hash::SeedMixer;
use gb_hash::list_rows::{ChunkRows, ListRows};
use gb_hash::slice_rows::SliceRows;
use std::alloc::Global;
use std::thread::Threads;

/// Groups, or the number of each row's group.
#[derive(Drop)]
pub enum Classes {
    Groups(GroupsType),
    Numbers(RowNumbers),
}

impl Classes {
    /// How many groups there are.
    pub fn len(&self) -> usize
        ensures { result ≡ length (grouping_of self.now).pairs }
    {
        match self {
            Classes::Groups(groups) => groups.len(),
            Classes::Numbers(numbers) => numbers.first.len(),
        }
    }

    /// The first row of each group.
    pub fn take_firsts(self) -> PolarsResult<Vec<IdxSize>>
        ensures ok { IfOk result (λ firsts. firsts.items ≡ map first_of (grouping_of self).pairs) }
        ensures err { IfErr result IsNoMemory }
    {
        match self {
            Classes::Groups(groups) => groups.take_group_firsts(),
            Classes::Numbers(numbers) => Ok(numbers.first),
        }
    }

    /// The groups. From numbers they are made, each with a list of its rows.
    pub fn into_groups(self, alloc: Global) -> PolarsResult<GroupsType>
        ensures ok { IfOk result (λ g. groups_of g ≡ grouping_of self) }
        ensures err { IfErr result IsNoMemory }
    {
        match self {
            Classes::Groups(groups) => Ok(groups),
            Classes::Numbers(numbers) => Ok(numbers.into_groups(alloc)?),
        }
    }
}

/// The groups of a column's rows by their keys, by numbers where these are wanted.
pub(crate) fn classes_by_path<T: Threads + Sync, C: KeyColumn, G: Gate + Sync>(
    rt: &T,
    column: &C,
    path: KeyPath,
    sorted: bool,
    by_numbers: bool,
    pool: &Pool,
    gate: &G,
) -> PolarsResult<Classes>
    requires few { HasRowNumbers (length (C.value column.now).slots) }
    requires keyed { kind_of (C.value column.now).dtype ≢ NoValues }
    ensures ok { IfOk result (λ made. grouping_of made
        ≡ tuples_on (key_path_value path) (C.value column.now) sorted pool.now) }
    ensures all { IfOk result (NumberAll by_numbers (length (C.value column.now).slots)) }
    ensures err { IfErr result IsNoMemory }
{
    match column.keys()? {
        Some(keys) => {
            classes_of_keys(
                rt,
                column.allocator(),
                &keys,
                path,
                sorted,
                by_numbers,
                pool,
                gate,
            )
        }
        None => unreachable!(),
    }
}

/// The groups of rows by keys in any form: by numbers, where these are wanted and the groups are to be in the
/// order of their first rows.
pub(crate) fn classes_of_keys<T: Threads + Sync, G: Gate + Sync>(
    rt: &T,
    alloc: Global,
    keys: &Keys<'_>,
    path: KeyPath,
    sorted: bool,
    by_numbers: bool,
    pool: &Pool,
    gate: &G,
) -> PolarsResult<Classes>
    requires few { HasRowNumbers (rows_of_keys (seed_of pool.now) keys.now).count }
    ensures ok { let rows = rows_of_keys (seed_of pool.now) keys.now in
        let parts = partitions_of pool.now in IfOk result (λ made.
        grouping_of made ≡ path_groups (key_path_value path) rows 0 parts sorted) }
    ensures all { let rows = rows_of_keys (seed_of pool.now) keys.now in
        IfOk result (NumberAll by_numbers rows.count) }
    ensures err { IfErr result IsNoMemory }
{
    if by_numbers && sorted {
        let numbers = number_keys(rt, alloc, keys, pool)?;
        return Ok(Classes::Numbers(numbers));
    }
    if sorted && path == KeyPath::Table {
        let groups = groups_in_order(rt, alloc, keys, pool)?;
        return Ok(Classes::Groups(groups));
    }
    let groups = group_keys(rt, alloc, keys, path, sorted, pool, gate)?;
    Ok(Classes::Groups(groups))
}

// The groups of rows by keys in any form, in the order of their first rows, made from their numbers by one worker:
// many groups are numbered sooner than by one table of all.
fn groups_in_order<T: Threads + Sync>(
    rt: &T,
    alloc: Global,
    keys: &Keys<'_>,
    pool: &Pool,
) -> PolarsResult<GroupsType>
    requires few { HasRowNumbers (rows_of_keys (seed_of pool.now) keys.now).count }
    ensures ok { let rows = rows_of_keys (seed_of pool.now) keys.now in
        let parts = partitions_of pool.now in (path : KeyPath) → IfOk result (λ g.
        groups_of g ≡ path_groups (key_path_value path) rows 0 parts true) }
    ensures err { IfErr result IsNoMemory }
{
    let single = Pool::new(1, 1, 1, 1, pool.seed());
    let numbers = number_keys(rt, alloc, keys, &single)?;
    numbers.into_groups(alloc)
}

/// The numbers of the groups of rows by keys in any form.
#[tactic(auto, using(crate::proofs::TextLemmas::texts_few))]
pub(crate) fn number_keys<T: Threads + Sync>(
    rt: &T,
    alloc: Global,
    keys: &Keys<'_>,
    pool: &Pool,
) -> PolarsResult<RowNumbers>
    requires few { HasRowNumbers (rows_of_keys (seed_of pool.now) keys.now).count }
    ensures ok { let rows = rows_of_keys (seed_of pool.now) keys.now in
        IfOk result (AreNumbersAmong rows (rows_below rows.count)) }
    ensures err { IfErr result IsNoMemory }
{
    if let Keys::Texts(texts) = keys {
        return number_texts(rt, alloc, texts, pool);
    }
    let mixer = SeedMixer::new(pool.seed());
    with_rows!(
        keys, mixer,
        rows => number_rows(rt, alloc, &rows, pool),
        bytes => number_bytes(rt, alloc, bytes, pool)
    )
}

// The same of rows by their bytes, which are read as they lie where no row is null.
fn number_bytes<T: Threads + Sync>(
    rt: &T,
    alloc: Global,
    bytes: &BinaryOffsetChunked,
    pool: &Pool,
) -> PolarsResult<RowNumbers>
    requires few { HasRowNumbers (length bytes.now.slots) }
    ensures ok { let rows = byte_rows (seed_of pool.now) bytes.now.slots in
        IfOk result (AreNumbersAmong rows (rows_below rows.count)) }
    ensures err { IfErr result IsNoMemory }
{
    let mixer = SeedMixer::new(pool.seed());
    match byte_chunks(bytes)? {
        Some(chunks) => {
            let rows = ChunkRows::new(&chunks, mixer);
            number_rows(rt, alloc, &rows, pool)
        }
        None => {
            let slices = bytes.byte_slices()?;
            let rows = ListRows::new(slices.as_slice(), mixer);
            number_rows(rt, alloc, &rows, pool)
        }
    }
}

//! The groups of a column's rows, by the path that its type, its flags and its length choose. Rows of a type
//! without values are one run.

ghost use Rattle.std.specs.Prelude.{◌≡◌, ◌≢◌, ◌<◌, [], true, length, IfOk, IfErr};
ghost use Rattle.std.specs.Thread.{IsSync};
ghost use Rattle.gb_defs.specs.Column.{IsFlagTrue};
ghost use Rattle.gb_defs.specs.Groups.{HasRowNumbers, IsWellFormed, idx_groups};
ghost use Rattle.gb_defs.specs.Path.{NoValues, Perfect, kind_of, path_groups, run_groups};
ghost use Rattle.gb_base.specs.PlSmallStr.{IsNoMemory};
ghost use Rattle.gb_base.specs.Pool.{partitions_of, seed_of};
ghost use Rattle.gb_base.specs.Sorted.{flag_of};
ghost use Rattle.gb_base.specs.declared.pool.Pool.{Pool};
ghost use Rattle.gb_groups.specs.GroupsType.{groups_of};
ghost use Rattle.gb_series.specs.Series.{value_of};
ghost use Rattle.gb_paths.specs.Keys.{byte_rows, null_rows, rows_of_keys};
ghost use Rattle.gb_paths.specs.Tuples.{IsPerfect, key_path_value, ordered, tuples_of, tuples_on};

use crate::group_by::group_uncounted;
use crate::keys::{KeyColumn, Keys, byte_chunks, with_rows};
use crate::path::{KeyOrder, KeyPath, Path, order_of, path_of};
use crate::run_groups::{group_runs, group_runs_threaded};
use crate::threaded::group_by_threaded_iter;
use gb_base::device::Gate;
use gb_base::error::PolarsResult;
use gb_base::memory::FreeGate;
use gb_base::nullable_idx::IdxSize;
use gb_base::pool::Pool;
use gb_cols::binary::BinaryOffsetChunked;
use gb_cols::series_trait::SeriesTrait;
use gb_cols::undo_append::UndoAppend;
use gb_groups::groups_idx::GroupsIdx;
use gb_groups::groups_slice::GroupsSlice;
use gb_groups::groups_type::GroupsType;
use gb_hash::dirty_hash::SeedMixer;
use gb_hash::key_rows::KeyRows;
use gb_hash::list_rows::{ChunkRows, ListRows};
use gb_hash::slice_rows::SliceRows;
use gb_runs::codes::group_codes;
use gb_series::series::Series;
use std::alloc::Global;
use std::thread::Threads;

/// What gives the groups of its rows.
pub trait IntoGroupsType: SeriesTrait {
    /// The rows that hold one slot: in the order of their first rows, or by the partitions of their
    /// hashes where more than one worker is to group them and `sorted` is not asked for.
    fn group_tuples<T: Threads + Sync>(
        &self,
        rt: &T,
        multithreaded: bool,
        sorted: bool,
        pool: &Pool,
    ) -> PolarsResult<GroupsType>
        requires row_type { IsSync T.row }
        requires few { HasRowNumbers (length (Self.value self.now).slots) }
        ensures ok { IfOk result (λ g.
            groups_of g ≡ tuples_of (Self.value self.now) multithreaded sorted pool.now) }
        ensures formed { IfOk result (λ g.
            IsWellFormed (length (Self.value self.now).slots) (groups_of g).pairs) }
        ensures err { IfErr result IsNoMemory };
}

impl<C: KeyColumn> IntoGroupsType for C {
    fn group_tuples<T: Threads + Sync>(
        &self,
        rt: &T,
        multithreaded: bool,
        sorted: bool,
        pool: &Pool,
    ) -> PolarsResult<GroupsType> {
        group_column(
            rt,
            self,
            order_of(self),
            multithreaded,
            sorted,
            pool,
            &FreeGate,
        )
    }
}

/// `group_tuples` of a series; each partition enters the gate with its number, and leaves it.
pub fn group_tuples_gated<T: Threads + Sync, G: Gate + Sync>(
    rt: &T,
    key: &Series,
    multithreaded: bool,
    sorted: bool,
    pool: &Pool,
    gate: &G,
) -> PolarsResult<GroupsType>
    requires few { HasRowNumbers (length (value_of key.now).slots) }
    ensures ok { IfOk result (λ g.
        groups_of g ≡ tuples_of (value_of key.now) multithreaded sorted pool.now) }
    ensures formed { IfOk result (λ g.
        IsWellFormed (length (value_of key.now).slots) (groups_of g).pairs) }
    ensures err { IfErr result IsNoMemory }
{
    group_series(rt, key, order_of(key), multithreaded, sorted, pool, gate)
}

/// `group_column` of a series, whose runs are found by all workers: what a thread may be sent is known of a
/// type with a name, and not of the parameter of an `impl`.
pub(crate) fn group_series<T: Threads + Sync, G: Gate + Sync>(
    rt: &T,
    key: &Series,
    order: KeyOrder,
    multithreaded: bool,
    sorted: bool,
    pool: &Pool,
    gate: &G,
) -> PolarsResult<GroupsType>
    requires few { HasRowNumbers (length (value_of key.now).slots) }
    requires holds { let key = value_of key.now in
        IsFlagTrue (flag_of order.sorted) key.dtype key.slots }
    ensures ok { let key = ordered order (value_of key.now) in IfOk result (λ g.
        groups_of g ≡ tuples_of key multithreaded sorted pool.now) }
    ensures formed { IfOk result (λ g.
        IsWellFormed (length (value_of key.now).slots) (groups_of g).pairs) }
    ensures err { IfErr result IsNoMemory }
{
    let groups = group_series_on_path(rt, key, order, multithreaded, sorted, pool, gate)?;
    Ok(groups)
}

// The same, whatever else holds of groups.
fn group_series_on_path<T: Threads + Sync, G: Gate + Sync>(
    rt: &T,
    key: &Series,
    order: KeyOrder,
    multithreaded: bool,
    sorted: bool,
    pool: &Pool,
    gate: &G,
) -> PolarsResult<GroupsType>
    requires few { HasRowNumbers (length (value_of key.now).slots) }
    requires holds { let key = value_of key.now in
        IsFlagTrue (flag_of order.sorted) key.dtype key.slots }
    ensures ok { let key = ordered order (value_of key.now) in IfOk result (λ g.
        groups_of g ≡ tuples_of key multithreaded sorted pool.now) }
    ensures err { IfErr result IsNoMemory }
{
    match path_of(key, order, multithreaded, pool) {
        Path::Sorted => group_runs_threaded(rt, key, pool),
        _ => group_column(rt, key, order, multithreaded, sorted, pool, gate),
    }
}

/// The groups of a column's rows by the path of its type and length, where they stand in an order; each
/// partition enters the gate with its number, and leaves it.
pub fn group_column<T: Threads + Sync, C: KeyColumn, G: Gate + Sync>(
    rt: &T,
    column: &C,
    order: KeyOrder,
    multithreaded: bool,
    sorted: bool,
    pool: &Pool,
    gate: &G,
) -> PolarsResult<GroupsType>
    requires few { HasRowNumbers (length (C.value column.now).slots) }
    requires holds { let c = C.value column.now in
        IsFlagTrue (flag_of order.sorted) c.dtype c.slots }
    ensures ok { let key = ordered order (C.value column.now) in IfOk result (λ g.
        groups_of g ≡ tuples_of key multithreaded sorted pool.now) }
    ensures formed { IfOk result (λ g.
        IsWellFormed (length (C.value column.now).slots) (groups_of g).pairs) }
    ensures err { IfErr result IsNoMemory }
{
    let groups = group_on_path(rt, column, order, multithreaded, sorted, pool, gate)?;
    Ok(groups)
}

// The same, whatever else holds of groups.
fn group_on_path<T: Threads + Sync, C: KeyColumn, G: Gate + Sync>(
    rt: &T,
    column: &C,
    order: KeyOrder,
    multithreaded: bool,
    sorted: bool,
    pool: &Pool,
    gate: &G,
) -> PolarsResult<GroupsType>
    requires few { HasRowNumbers (length (C.value column.now).slots) }
    requires holds { let c = C.value column.now in
        IsFlagTrue (flag_of order.sorted) c.dtype c.slots }
    ensures ok { let key = ordered order (C.value column.now) in IfOk result (λ g.
        groups_of g ≡ tuples_of key multithreaded sorted pool.now) }
    ensures err { IfErr result IsNoMemory }
{
    match path_of(column, order, multithreaded, pool) {
        Path::Nulls => one_run(column.allocator(), column.len()),
        Path::Sorted => group_runs(column),
        Path::Perfect => group_perfect(column, sorted),
        Path::Table => group_by_path(rt, column, KeyPath::Table, sorted, pool, gate),
        Path::Threaded => group_by_path(rt, column, KeyPath::Threaded, sorted, pool, gate),
    }
}

// The groups of a column's rows by their keys.
fn group_by_path<T: Threads + Sync, C: KeyColumn, G: Gate + Sync>(
    rt: &T,
    column: &C,
    path: KeyPath,
    sorted: bool,
    pool: &Pool,
    gate: &G,
) -> PolarsResult<GroupsType>
    requires few { HasRowNumbers (length (C.value column.now).slots) }
    requires keyed { kind_of (C.value column.now).dtype ≢ NoValues }
    ensures ok { IfOk result (λ g. groups_of g
        ≡ tuples_on (key_path_value path) (C.value column.now) sorted pool.now) }
    ensures err { IfErr result IsNoMemory }
{
    match column.keys()? {
        Some(keys) => group_keys(rt, column.allocator(), &keys, path, sorted, pool, gate),
        None => unreachable!(),
    }
}

// The groups of a column's rows by their codes, where each code is held or there are no rows.
fn group_perfect<C: KeyColumn>(column: &C, sorted: bool) -> PolarsResult<GroupsType>
    requires few { HasRowNumbers (length (C.value column.now).slots) }
    requires perfect { IsPerfect (C.value column.now) }
    ensures ok { (pool : Pool) → IfOk result (λ g.
        groups_of g ≡ tuples_on Perfect (C.value column.now) sorted pool) }
    ensures err { IfErr result IsNoMemory }
{
    if column.len() == 0 {
        return Ok(no_groups(column.allocator()));
    }
    // The call tells that each code is held.
    let _ = column.uses_all();
    match column.codes() {
        Some((codes, count)) => group_codes(codes, count, sorted),
        None => unreachable!(),
    }
}

/// All rows as one run, where there are any.
pub(crate) fn one_run(alloc: Global, rows: usize) -> PolarsResult<GroupsType>
    requires few { HasRowNumbers rows }
    ensures ok { IfOk result (λ g. groups_of g ≡ run_groups (null_rows rows)) }
    ensures formed { IfOk result (λ g. IsWellFormed rows (groups_of g).pairs) }
    ensures err { IfErr result IsNoMemory }
{
    let mut runs = Vec::new(alloc);
    if rows > 0 {
        runs.push([0, rows as IdxSize])?;
    }
    Ok(GroupsType::Slice {
        groups: GroupsSlice::from_vec(runs),
        rolling: false,
    })
}

// No groups, which are in order.
fn no_groups(alloc: Global) -> GroupsType
    ensures { groups_of result ≡ idx_groups [] true }
{
    GroupsType::from(GroupsIdx::new(Vec::new(alloc), Vec::new(alloc), true))
}

/// The groups of rows by keys in any form. What a thread may be sent is known of a type with a name, and
/// not of a parameter, so each form has its own.
pub(crate) fn group_keys<T: Threads + Sync, G: Gate + Sync>(
    rt: &T,
    alloc: Global,
    keys: &Keys<'_>,
    path: KeyPath,
    sorted: bool,
    pool: &Pool,
    gate: &G,
) -> PolarsResult<GroupsType>
    requires few { HasRowNumbers (rows_of_keys (seed_of pool.now) keys.now).count }
    ensures ok { let rows = rows_of_keys (seed_of pool.now) keys.now in IfOk result (λ g.
        groups_of g ≡ path_groups (key_path_value path) rows 0 (partitions_of pool.now) sorted) }
    ensures err { IfErr result IsNoMemory }
{
    let mixer = SeedMixer::new(pool.seed());
    with_rows!(
        keys, mixer,
        rows => group_rows(rt, alloc, &rows, path, sorted, pool, gate),
        bytes => group_bytes(rt, alloc, bytes, path, sorted, pool, gate)
    )
}

// The groups of rows by their bytes, which are read as they lie where no row is null.
fn group_bytes<T: Threads + Sync, G: Gate + Sync>(
    rt: &T,
    alloc: Global,
    bytes: &BinaryOffsetChunked,
    path: KeyPath,
    sorted: bool,
    pool: &Pool,
    gate: &G,
) -> PolarsResult<GroupsType>
    requires few { HasRowNumbers (length bytes.now.slots) }
    ensures ok { let rows = byte_rows (seed_of pool.now) bytes.now.slots in IfOk result (λ g.
        groups_of g ≡ path_groups (key_path_value path) rows 0 (partitions_of pool.now) sorted) }
    ensures err { IfErr result IsNoMemory }
{
    let mixer = SeedMixer::new(pool.seed());
    match byte_chunks(bytes)? {
        Some(chunks) => {
            let rows = ChunkRows::new(&chunks, mixer);
            group_rows(rt, alloc, &rows, path, sorted, pool, gate)
        }
        None => {
            let slices = bytes.byte_slices()?;
            let rows = ListRows::new(slices.as_slice(), mixer);
            group_rows(rt, alloc, &rows, path, sorted, pool, gate)
        }
    }
}

// The groups of any rows by a path.
fn group_rows<T: Threads + Sync, R: KeyRows, G: Gate + Sync>(
    rt: &T,
    alloc: Global,
    rows: &R,
    path: KeyPath,
    sorted: bool,
    pool: &Pool,
    gate: &G,
) -> PolarsResult<GroupsType>
    requires few { HasRowNumbers (R.rows rows.now).count }
    ensures ok { IfOk result (λ g. groups_of g
        ≡ path_groups (key_path_value path) (R.rows rows.now) 0 (partitions_of pool.now) sorted) }
    ensures err { IfErr result IsNoMemory }
{
    match path {
        KeyPath::Table => group_uncounted(alloc, rows, sorted),
        KeyPath::Threaded => {
            group_by_threaded_iter(rt, alloc, rows, pool.partitions(), sorted, pool, gate)
        }
    }
}

//! The groups of rows by several keys: rows that hold one slot in each. Where numbers of the groups are wanted each
//! key is numbered by itself; else, and where one alone has about as many groups as there are rows, the keys are put
//! into the bytes of rows, which are grouped as one column is.

ghost use Rattle.std.specs.Prelude.{◌≡◌, ◌∷◌, ◌<◌, [], All, false, length, true, OnOk, IfOk, IfErr, IfSome};
ghost use Rattle.std.specs.List.{AllZip};
ghost use Rattle.gb_defs.specs.Classes.{agree_by, groups, rows_below};
ghost use Rattle.gb_defs.specs.Column.{frame_height};
ghost use Rattle.gb_defs.specs.Groups.{HasRowNumbers, IsWellFormed};
ghost use Rattle.gb_defs.specs.Notes as notes;
ghost use Rattle.gb_base.specs.PlSmallStr.{IsNoMemory};
ghost use Rattle.gb_cols.specs.Null.{AreNulls};
ghost use Rattle.gb_groups.specs.GroupsType.{groups_of};
ghost use Rattle.gb_flat_series.specs.FlatSeries.{column_of};
ghost use Rattle.gb_series.specs.Series.{value_of};
ghost use Rattle.gb_rows.specs.Lent.{keys_in};
ghost use Rattle.gb_rows.specs.Rows.{AreOfOneLength};
ghost use Rattle.gb_rows.specs.Told.{AreToldByRows};
ghost use Rattle.gb_paths.specs.Classes.{NumberAll, grouping_of};
ghost use Rattle.gb_paths.specs.Tuples.{AreClasses, AreFound, IsNullUnlessValued, all_path, path_value, slots_of, tuples_by, tuples_of_bytes};

use crate::classes::{Classes, classes_by_path, classes_of_keys};
use crate::into_groups::{group_series, group_tuples_gated, one_run};
use crate::keys::Keys;
use crate::number_several::number_several;
use crate::path::{KeyOrder, KeyPath, Path, choose_path, path_of};
use gb_base::device::Gate;
use gb_base::error::PolarsResult;
use gb_base::pool::Pool;
use gb_cols::series_trait::SeriesTrait;
use gb_flat_series::series::FlatSeries;
use gb_groups::groups_type::GroupsType;
use gb_rows::vertical::encode_rows_vertical_par_unordered;
use gb_series::series::Series;
use std::alloc::{AllocError, Global};
use std::thread::Threads;

/// The rows that hold one slot in each key: in the order of their first rows, or by the partitions of their
/// hashes where more than one worker is to group them and `sorted` is not asked for. One key is grouped as
/// by `group_tuples`, and a key of the null type adds nothing to others. Each partition enters the gate
/// with its number, and leaves it.
pub fn group_by_keys<T: Threads + Sync, G: Gate + Sync>(
    rt: &T,
    keys: &[&Series],
    multithreaded: bool,
    sorted: bool,
    pool: &Pool,
    gate: &G,
) -> PolarsResult<GroupsType>
    requires some { 0 < length keys.now }
    requires aligned { AreOfOneLength (keys_in keys.now) }
    requires few { HasRowNumbers (frame_height (keys_in keys.now)) }
    ensures ok { IfOk result (λ g.
        groups_of g ≡ tuples_by (keys_in keys.now) multithreaded sorted pool.now) }
    ensures classes { IfOk result (λ g. sorted ≡ true
        → (groups_of g).pairs ≡ groups (agree_by (slots_of (keys_in keys.now)))
        (rows_below (frame_height (keys_in keys.now)))) }
    ensures whole { let keys = keys_in keys.now in IfOk result (λ g.
        AreClasses (agree_by (slots_of keys)) (frame_height keys) (groups_of g).pairs) }
    ensures formed { IfOk result (λ g.
        IsWellFormed (frame_height (keys_in keys.now)) (groups_of g).pairs) }
    ensures err { IfErr result IsNoMemory }
{
    if keys.len() == 1 {
        return group_tuples_gated(rt, keys[0], multithreaded, sorted, pool, gate);
    }
    let (classes, _) = classes_several(rt, keys, multithreaded, sorted, false, pool, gate)?;
    let groups = classes.into_groups(keys[0].allocator())?;
    Ok(groups)
}

/// The same, where one key alone is grouped by the order that it is found to be in, in however many chunks
/// it lies, and the path to the groups. It looks at such a key once more, up to the first row that is out
/// of order.
pub fn group_by_detected<T: Threads + Sync, G: Gate + Sync>(
    rt: &T,
    keys: &[&Series],
    multithreaded: bool,
    sorted: bool,
    pool: &Pool,
    gate: &G,
) -> PolarsResult<(GroupsType, Path)>
    requires some { 0 < length keys.now }
    requires aligned { AreOfOneLength (keys_in keys.now) }
    requires few { HasRowNumbers (frame_height (keys_in keys.now)) }
    ensures ok { IfOk result (λ made. AreFound (keys_in keys.now) multithreaded sorted pool.now
        (groups_of made.0) (path_value made.1)) }
    ensures classes { IfOk result (λ made. sorted ≡ true
        → (groups_of made.0).pairs ≡ groups (agree_by (slots_of (keys_in keys.now)))
        (rows_below (frame_height (keys_in keys.now)))) }
    ensures whole { let keys = keys_in keys.now in IfOk result (λ made.
        AreClasses (agree_by (slots_of keys)) (frame_height keys) (groups_of made.0).pairs) }
    ensures formed { IfOk result (λ made.
        IsWellFormed (frame_height (keys_in keys.now)) (groups_of made.0).pairs) }
    ensures err { IfErr result IsNoMemory }
{
    let (classes, path) = classes_by_detected(rt, keys, multithreaded, sorted, false, pool, gate)?;
    let groups = classes.into_groups(keys[0].allocator())?;
    Ok((groups, path))
}

/// The same, as the number of each row's group where that is wanted, the groups are to be in the order of their
/// first rows, and their rows are grouped by a table.
pub fn classes_by_detected<T: Threads + Sync, G: Gate + Sync>(
    rt: &T,
    keys: &[&Series],
    multithreaded: bool,
    sorted: bool,
    by_numbers: bool,
    pool: &Pool,
    gate: &G,
) -> PolarsResult<(Classes, Path)>
    requires some { 0 < length keys.now }
    requires aligned { AreOfOneLength (keys_in keys.now) }
    requires few { HasRowNumbers (frame_height (keys_in keys.now)) }
    ensures ok { IfOk result (λ made. AreFound (keys_in keys.now) multithreaded sorted pool.now
        (grouping_of made.0) (path_value made.1)) }
    ensures classes { IfOk result (λ made. sorted ≡ true
        → (grouping_of made.0).pairs ≡ groups (agree_by (slots_of (keys_in keys.now)))
        (rows_below (frame_height (keys_in keys.now)))) }
    ensures whole { let keys = keys_in keys.now in IfOk result (λ made.
        AreClasses (agree_by (slots_of keys)) (frame_height keys) (grouping_of made.0).pairs) }
    ensures formed { IfOk result (λ made.
        IsWellFormed (frame_height (keys_in keys.now)) (grouping_of made.0).pairs) }
    ensures all { let rows = frame_height (keys_in keys.now) in
        IfOk result (λ made. NumberAll by_numbers rows made.0) }
    ensures err { IfErr result IsNoMemory }
{
    if keys.len() == 1 {
        return classes_in_order(rt, keys[0], multithreaded, sorted, by_numbers, pool, gate);
    }
    classes_several(rt, keys, multithreaded, sorted, by_numbers, pool, gate)
}

// The groups of the rows of a key, by the order that it is found to be in, and the path to them.
fn classes_in_order<T: Threads + Sync, G: Gate + Sync>(
    rt: &T,
    key: &Series,
    multithreaded: bool,
    sorted: bool,
    by_numbers: bool,
    pool: &Pool,
    gate: &G,
) -> PolarsResult<(Classes, Path)>
    requires few { HasRowNumbers (length (value_of key.now).slots) }
    ensures ok { IfOk result (λ made. AreFound (value_of key.now ∷ []) multithreaded sorted
        pool.now (grouping_of made.0) (path_value made.1)) }
    ensures formed { IfOk result (λ made.
        IsWellFormed (length (value_of key.now).slots) (grouping_of made.0).pairs) }
    ensures all { let rows = length (value_of key.now).slots in
        IfOk result (λ made. NumberAll by_numbers rows made.0) }
    ensures err { IfErr result IsNoMemory }
{
    let order = KeyOrder {
        sorted: key.detect_sorted(),
        whole: true,
    };
    let path = path_of(key, order, multithreaded, pool);
    match path {
        Path::Table => {
            let keyed = KeyPath::Table;
            let made = classes_by_path(rt, key, keyed, sorted, by_numbers, pool, gate)?;
            Ok((made, path))
        }
        Path::Threaded => {
            let keyed = KeyPath::Threaded;
            let made = classes_by_path(rt, key, keyed, sorted, by_numbers, pool, gate)?;
            Ok((made, path))
        }
        _ => {
            let groups = group_series(rt, key, order, multithreaded, sorted, pool, gate)?;
            Ok((Classes::Groups(groups), path))
        }
    }
}

// The groups of the rows of several keys, and the path to them.
fn classes_several<T: Threads + Sync, G: Gate + Sync>(
    rt: &T,
    keys: &[&Series],
    multithreaded: bool,
    sorted: bool,
    by_numbers: bool,
    pool: &Pool,
    gate: &G,
) -> PolarsResult<(Classes, Path)>
    requires several { 1 < length keys.now }
    requires aligned { AreOfOneLength (keys_in keys.now) }
    requires few { HasRowNumbers (frame_height (keys_in keys.now)) }
    ensures ok { IfOk result (λ made.
        grouping_of made.0 ≡ tuples_by (keys_in keys.now) multithreaded sorted pool.now) }
    ensures path { IfOk result (λ made.
        path_value made.1 ≡ all_path (keys_in keys.now) multithreaded pool.now) }
    ensures formed { IfOk result (λ made.
        IsWellFormed (frame_height (keys_in keys.now)) (grouping_of made.0).pairs) }
    ensures all { let rows = frame_height (keys_in keys.now) in
        IfOk result (λ made. NumberAll by_numbers rows made.0) }
    ensures err { IfErr result IsNoMemory }
{
    let alloc = keys[0].allocator();
    let valued = valued_keys(alloc, keys)?;
    if valued.is_empty() {
        let groups = one_run(alloc, keys[0].len())?;
        return Ok((Classes::Groups(groups), Path::Nulls));
    }
    let path = choose_path(true, keys[0].len(), multithreaded, pool);
    if by_numbers && sorted {
        if let Some(numbers) = number_several(rt, alloc, &valued, pool)? {
            return Ok((Classes::Numbers(numbers), Path::from(path)));
        }
    }
    let made = classes_of_row_bytes(
        rt,
        alloc,
        &valued,
        multithreaded,
        sorted,
        by_numbers,
        pool,
        gate,
    )?;
    Ok((made, Path::from(path)))
}

// The keys that tell rows apart.
fn valued_keys<'a>(alloc: Global, keys: &[&'a Series]) -> Result<Vec<&'a Series>, AllocError>
    ensures valued { IfOk result (λ some.
        keys_in some.items ≡ notes.valued_keys (keys_in keys.now)) }
    ensures nulls { OnOk result (All IsNullUnlessValued (keys_in keys.now)) }
{
    let mut valued = Vec::with_capacity(alloc, keys.len())?;
    for key in keys {
        if is_valued(key) {
            valued.push(*key)?;
        }
    }
    Ok(valued)
}

// Whether a key tells rows apart. One of the null type does not.
#[tactic(auto, using(crate::proofs::SeveralLemmas::parts_valued))]
fn is_valued(key: &Series) -> bool
    ensures value { result ≡ notes.is_valued (value_of key.now) }
    ensures nulls { result ≡ false → AreNulls (value_of key.now).slots }
{
    key.tell_variant();
    match key {
        Series::Flat(column) => is_valued_flat(column),
        _ => true,
    }
}

#[tactic(auto, using(crate::proofs::SeveralLemmas::valued_by_variant))]
fn is_valued_flat(column: &FlatSeries) -> bool
    ensures value { result ≡ notes.is_valued (column_of column.now) }
    ensures nulls { result ≡ false → AreNulls (column_of column.now).slots }
{
    column.tell_variant();
    match column {
        FlatSeries::Null(nulls) => {
            // The call tells that its slots are nulls.
            let _ = nulls.allocator();
            false
        }
        _ => true,
    }
}

// The groups of the rows of keys by their bytes.
fn classes_of_row_bytes<T: Threads + Sync, G: Gate + Sync>(
    rt: &T,
    alloc: Global,
    keys: &[&Series],
    multithreaded: bool,
    sorted: bool,
    by_numbers: bool,
    pool: &Pool,
    gate: &G,
) -> PolarsResult<Classes>
    requires some { 0 < length keys.now }
    requires aligned { AreOfOneLength (keys_in keys.now) }
    requires few { HasRowNumbers (frame_height (keys_in keys.now)) }
    ensures ok { IfOk result (λ made.
        grouping_of made ≡ tuples_of_bytes (keys_in keys.now) multithreaded sorted pool.now) }
    ensures told { OnOk result (AreToldByRows (keys_in keys.now)) }
    ensures formed { IfOk result (λ made.
        IsWellFormed (frame_height (keys_in keys.now)) (grouping_of made).pairs) }
    ensures all { IfOk result (NumberAll by_numbers (frame_height (keys_in keys.now))) }
    ensures err { IfErr result IsNoMemory }
{
    let single = Pool::new(1, 1, 1, 1, 0);
    let encoders = if multithreaded { pool } else { &single };
    let bytes = encode_rows_vertical_par_unordered(rt, alloc, keys, encoders)?;
    let path = choose_path(true, bytes.len(), multithreaded, pool);
    let rows = Keys::RowBytes(bytes);
    classes_of_keys(rt, alloc, &rows, path, sorted, by_numbers, pool, gate)
}

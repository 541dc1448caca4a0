//! Both paths on a few rows, under mixers that bring all keys together or keep them apart.

ghost use Rattle.std.specs.Prelude.{ℕ, ◌≡◌, ◌<◌, length, IfOk};
ghost use Rattle.gb_defs.specs.ColumnType.{Flat, String};
ghost use Rattle.gb_defs.specs.Groups.{HasRowNumbers};

mod as_slow;
mod reads;

use gb_base::error::PolarsResult;
use gb_base::memory::FreeGate;
use gb_base::nullable_idx::IdxSize;
use gb_base::pool::Pool;
use gb_base::small_str::PlSmallStr;
use gb_cols::chunked::StringChunked;
use gb_cols::primitive::{Int64Chunked, UInt32Chunked};
use gb_cols::series_trait::SeriesTrait;
use gb_groups::groups_type::{GroupsIndicator, GroupsType};
use gb_hash::dirty_hash::{Mixer, SeedMixer};
use gb_hash::num_rows::NumRows;
use gb_paths::group_by::group_uncounted;
use gb_paths::into_groups::IntoGroupsType;
use gb_paths::threaded::{group_by_threaded_iter, group_by_threaded_slice};
use gb_series::into_series::IntoSeries;
use gb_series::series::Series;
use std::alloc::Global;
use std::process::Abort;
use std::test::Fail;
use std::thread::Threads;

/// Mixes every word to 0.
#[derive(Clone, Copy)]
struct AllAlike;

impl Mixer for AllAlike {
    ghost seed_of = { λ _. 0 };

    ghost mix_of = { λ _ _. 0 };

    fn seed(&self) -> u64 {
        0
    }

    fn mix(&self, _x: u64) -> u64 {
        0
    }
}

/// Leaves every word as it is.
#[derive(Clone, Copy)]
struct Unmixed;

impl Mixer for Unmixed {
    ghost seed_of = { λ _. 0 };

    ghost mix_of = { λ _ x. x };

    fn seed(&self) -> u64 {
        0
    }

    fn mix(&self, x: u64) -> u64 {
        x
    }
}

/// A group as a test wants it.
type Wanted<'a> = (IdxSize, &'a [IdxSize]);

// Whether the groups are these in this order, with this flag.
fn are(groups: &GroupsType, flagged: bool, wanted: &[Wanted<'_>]) -> bool {
    if groups.is_sorted_flag() != flagged || groups.len() != wanted.len() {
        return false;
    }
    for (group, (first, rows)) in groups.iter().zip(wanted.iter()) {
        if group.first() != *first || !has_list(&group, rows) {
            return false;
        }
    }
    true
}

// Whether the group has the form of a row list, and this one.
fn has_list(group: &GroupsIndicator<'_>, rows: &[IdxSize]) -> bool {
    match group {
        GroupsIndicator::Idx((_, list)) => list.as_slice() == rows,
        GroupsIndicator::Slice(_) => false,
    }
}

fn numbers(alloc: Global, values: &[Option<i64>]) -> PolarsResult<Int64Chunked>
    requires { HasRowNumbers (length values.now) }
    ensures { IfOk result (λ c. length c.slots ≡ length values.now) }
{
    let name = PlSmallStr::from_str(alloc, "key")?;
    Ok(Int64Chunked::from_slice_options(alloc, name, values)?)
}

pub(crate) fn texts(alloc: Global, values: &[Option<&str>]) -> PolarsResult<StringChunked>
    requires { HasRowNumbers (length values.now) }
    ensures len { IfOk result (λ c. length c.slots ≡ length values.now) }
    ensures typed { IfOk result (λ c. c.dtype ≡ Flat String) }
{
    let mut column = StringChunked::new(alloc, PlSmallStr::from_str(alloc, "key")?);
    for text in values {
        column.push(*text)?;
    }
    Ok(column)
}

// Partitions of rows that all hash alike, and of rows whose hashes are their own bits.
fn group_in_partitions<T: Abort + Threads + Sync>(
    rt: &T,
    alloc: Global,
    pool: &Pool,
) -> PolarsResult<()> {
    let one_and_two = [1i64, 2, 1];
    let groups = group_by_threaded_slice(
        rt,
        alloc,
        &one_and_two,
        AllAlike,
        4,
        false,
        pool,
        &FreeGate,
    )?;
    assert!(rt; are(&groups, false, &[(0, &[0, 2]), (1, &[1])]));
    let column = numbers(alloc, &[Some(1), None, Some(1)])?;
    let rows = NumRows::new(&column, AllAlike);
    let groups = group_by_threaded_iter(rt, alloc, &rows, 4, false, pool, &FreeGate)?;
    assert!(rt; are(&groups, false, &[(0, &[0, 2]), (1, &[1])]));

    let least_and_zero = [i64::MIN, 0, i64::MIN];
    let groups = group_by_threaded_slice(
        rt,
        alloc,
        &least_and_zero,
        Unmixed,
        2,
        false,
        pool,
        &FreeGate,
    )?;
    assert!(rt; are(&groups, false, &[(1, &[1]), (0, &[0, 2])]));
    let groups = group_by_threaded_slice(
        rt,
        alloc,
        &least_and_zero,
        Unmixed,
        2,
        true,
        pool,
        &FreeGate,
    )?;
    assert!(rt; are(&groups, true, &[(0, &[0, 2]), (1, &[1])]));
    let column = numbers(alloc, &[Some(i64::MIN), Some(0), Some(i64::MIN)])?;
    let rows = NumRows::new(&column, Unmixed);
    let groups = group_by_threaded_iter(rt, alloc, &rows, 2, false, pool, &FreeGate)?;
    assert!(rt; are(&groups, false, &[(1, &[1]), (0, &[0, 2])]));
    let groups = group_by_threaded_iter(rt, alloc, &rows, 2, true, pool, &FreeGate)?;
    assert!(rt; are(&groups, true, &[(0, &[0, 2]), (1, &[1])]));
    Ok(())
}

// Whether rows enough for two workers, to hash and to put into partitions, have two groups.
fn many_rows_are_two<T: Threads + Sync>(rt: &T, alloc: Global, pool: &Pool) -> PolarsResult<bool> {
    let mut keys = vec![in alloc; 5i64; 20_000]?;
    keys[19_999] = 6;
    let mixer = SeedMixer::new(pool.seed());
    let groups = group_by_threaded_slice(rt, alloc, &keys, mixer, 3, true, pool, &FreeGate)?;
    let mut rows = 0usize;
    for group in groups.iter() {
        rows = rows.wrapping_add(group.len());
    }
    Ok(groups.len() == 2 && rows == 20_000)
}

// Whether a column has these groups: of all rows by partitions and sorted, or by one table.
fn has_groups<T: Threads + Sync, C: IntoGroupsType>(
    rt: &T,
    pool: &Pool,
    column: &C,
    sorted: bool,
    wanted: &[Wanted<'_>],
) -> PolarsResult<bool>
    requires few { HasRowNumbers (length (C.value column.now).slots) }
{
    let groups = column.group_tuples(rt, sorted, sorted, pool)?;
    Ok(are(&groups, sorted, wanted))
}

// Whether a column of texts, and a series of them, have these groups.
fn texts_are<T: Threads + Sync>(
    rt: &T,
    alloc: Global,
    pool: &Pool,
    values: &[Option<&str>],
    wanted: &[Wanted<'_>],
) -> PolarsResult<bool>
    requires few { HasRowNumbers (length values.now) }
{
    let column = texts(alloc, values)?;
    if !has_groups(rt, pool, &column, true, wanted)? {
        return Ok(false);
    }
    has_groups(rt, pool, &column.into_series(), false, wanted)
}

// The same of a column of numbers.
fn numbers_are<T: Threads + Sync>(
    rt: &T,
    alloc: Global,
    pool: &Pool,
    values: &[Option<i64>],
    wanted: &[Wanted<'_>],
) -> PolarsResult<bool>
    requires few { HasRowNumbers (length values.now) }
{
    let column = numbers(alloc, values)?;
    if !has_groups(rt, pool, &column, true, wanted)? {
        return Ok(false);
    }
    has_groups(rt, pool, &column.into_series(), false, wanted)
}

// Whether numbers in chunks have their groups, with no null and with one in the last chunk.
fn chunks_of_numbers_group<T: Threads + Sync>(
    rt: &T,
    alloc: Global,
    pool: &Pool,
) -> PolarsResult<bool> {
    let mut column = numbers(alloc, &[Some(-3), Some(4)])?;
    column.append(numbers(alloc, &[Some(4), Some(-3)])?)?;
    if !has_groups(rt, pool, &column, true, &[(0, &[0, 3]), (1, &[1, 2])])? {
        return Ok(false);
    }
    column.append(numbers(alloc, &[Some(4), None])?)?;
    has_groups(
        rt,
        pool,
        &column,
        true,
        &[(0, &[0, 3]), (1, &[1, 2, 4]), (5, &[5])],
    )
}

// Columns of each type.
fn group_columns<T: Abort + Threads + Sync>(
    rt: &T,
    alloc: Global,
    pool: &Pool,
) -> PolarsResult<()> {
    assert!(rt; texts_are(rt, alloc, pool, &[], &[])?);
    let values = [Some("b"), None, Some("a"), Some("b"), None];
    assert!(rt;
        texts_are(
            rt,
            alloc,
            pool,
            &values,
            &[(0, &[0, 3]), (1, &[1, 4]), (2, &[2])]
        )?
    );
    let values = [None, Some(""), None];
    assert!(rt; texts_are(rt, alloc, pool, &values, &[(0, &[0, 2]), (1, &[1])])?);
    let mut column = texts(alloc, &[Some("b"), Some("a")])?;
    column.append(texts(alloc, &[Some("a"), Some("c"), Some("b")])?)?;
    assert!(rt;
        has_groups(
            rt,
            pool,
            &column,
            true,
            &[(0, &[0, 4]), (1, &[1, 2]), (3, &[3])]
        )?
    );
    let values = [Some(-3), None, Some(-3), None];
    assert!(rt; numbers_are(rt, alloc, pool, &values, &[(0, &[0, 2]), (1, &[1, 3])])?);
    let name = PlSmallStr::from_str(alloc, "key")?;
    let column = UInt32Chunked::from_slice(alloc, name, &[7, 8, 7])?;
    let groups = column.group_tuples(rt, true, true, pool)?;
    assert!(rt; are(&groups, true, &[(0, &[0, 2]), (1, &[1])]));
    Ok(())
}

#[test]
fn rows_with_one_key_are_a_group(rt: HostRuntime) -> Result<(), Fail> {
    let alloc = rt.alloc();
    let column = numbers(alloc, &[Some(1), None, Some(1)])?;
    let rows = NumRows::new(&column, SeedMixer::new(0));
    let groups = group_uncounted(alloc, &rows, false)?;
    assert!(rt; are(&groups, false, &[(0, &[0, 2]), (1, &[1])]));
    let pools = [
        Pool::new(1, 1, 1, 1, 0),
        Pool::new(2, 2, 1, 2, 0),
        Pool::new(4, 7, 3, 2, 9),
    ];
    for pool in &pools {
        group_in_partitions(&rt, alloc, pool)?;
        group_columns(&rt, alloc, pool)?;
        assert!(rt; chunks_of_numbers_group(&rt, alloc, pool)?);
        assert!(rt; many_rows_are_two(&rt, alloc, pool)?);
    }
    Ok(())
}

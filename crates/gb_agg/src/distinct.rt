//! How many slots of each group differ, by the number of each slot's class.

ghost use Rattle.std.specs.Prelude.{◌≡◌, ◌<◌, ◌≤◌, length, All, IfErr, IfOk};
ghost use Rattle.gb_base.specs.PlSmallStr.{IsNoMemory, name_of};
ghost use Rattle.gb_defs.specs.ColumnType.{uint32};
ghost use Rattle.gb_defs.specs.Groups.{AreMembers, HasRowNumbers, lists_in};
ghost use Rattle.gb_groups.specs.GroupsIndicator.{pair_of};
ghost use Rattle.gb_defs.specs.Fold.{NUnique};
ghost use Rattle.gb_series.specs.Series.{value_of};
ghost use Rattle.gb_agg.specs.Distinct.{AreClasses, different, different_fold, numbers_at};
ghost use Rattle.gb_agg.specs.Folds.{AreGroupsOf, fold_column, folded};

use crate::classes::class_numbers;
use crate::group_rows::{GroupRows, RowList, RowRun};
use gb_base::error::PolarsResult;
use gb_base::memory::FreeGate;
use gb_base::pool::Pool;
use gb_base::small_str::PlSmallStr;
use gb_cols::primitive::UInt32Chunked;
use gb_cols::series_trait::SeriesTrait;
use gb_groups::groups_type::GroupsIndicator;
use gb_groups::view::GroupsView;
use gb_paths::by_keys::classes_by_detected;
use gb_paths::classes::Classes;
use gb_series::series::Series;
use std::alloc::Global;
use std::thread::Threads;

/// How many slots of each group differ, null as one of them, under the column's name. The column is grouped once,
/// by as many workers as the pool has.
pub(crate) fn distinct_counts<R: Threads + Sync>(
    rt: &R,
    column: &Series,
    groups: &GroupsView<'_>,
    pool: &Pool,
) -> PolarsResult<UInt32Chunked>
    requires groups { AreGroupsOf (value_of column.now) groups.now }
    requires short { HasRowNumbers (length (value_of column.now).slots) }
    ensures ok { let c = value_of column.now in IfOk result (λ counts.
        counts ≡ folded NUnique c (lists_in groups.now)) }
    ensures err { IfErr result IsNoMemory }
{
    let (numbers, count) = column_classes(rt, column, pool)?;
    let name = column.name().try_clone()?;
    let counts = count_groups(column.allocator(), name, &numbers, count, groups)?;
    Ok(counts)
}

// The number of each row's class, and how many classes there are.
fn column_classes<R: Threads + Sync>(
    rt: &R,
    column: &Series,
    pool: &Pool,
) -> PolarsResult<(Vec<u32>, usize)>
    requires { HasRowNumbers (length (value_of column.now).slots) }
    ensures ok { IfOk result (λ made.
        AreClasses (value_of column.now).slots made.1 made.0.items) }
    ensures err { IfErr result IsNoMemory }
{
    let (multithreaded, sorted, by_numbers) = (true, true, true);
    let (classes, _) = classes_by_detected(
        rt,
        &[column],
        multithreaded,
        sorted,
        by_numbers,
        pool,
        &FreeGate,
    )?;
    match classes {
        Classes::Numbers(numbers) => {
            let count = numbers.first.len();
            Ok((numbers.of_rows, count))
        }
        Classes::Groups(groups) => {
            let numbers = class_numbers(column.allocator(), &groups, column.len())?;
            Ok((numbers, groups.len()))
        }
    }
}

// How many of the numbers of each group's rows differ. There are so many numbers.
fn count_groups(
    alloc: Global,
    name: PlSmallStr,
    numbers: &[u32],
    count: usize,
    groups: &GroupsView<'_>,
) -> PolarsResult<UInt32Chunked>
    requires rows { All (AreMembers (length numbers.now)) (lists_in groups.now) }
    requires known { All (λ number. number < count) numbers.now }
    requires few { HasRowNumbers (length groups.now.pairs) }
    requires short { HasRowNumbers (length numbers.now) }
    ensures ok { IfOk result (λ c. c ≡ fold_column (name_of name) uint32
        (different_fold numbers.now) (lists_in groups.now)) }
    ensures err { IfErr result IsNoMemory }
{
    let mut seen = Vec::new(alloc);
    seen.resize(count, 0)?;
    let mut counts = UInt32Chunked::new(alloc, name);
    counts.reserve(groups.len())?;
    for place in 0..groups.len() {
        let group = place as u32 + 1;
        let count = count_group(numbers, seen.as_mut_slice(), group, &groups.get(place));
        counts.push(Some(count))?;
    }
    Ok(counts)
}

// How many of the numbers of a group's rows differ.
fn count_group(numbers: &[u32], seen: &mut [u32], number: u32, group: &GroupsIndicator<'_>) -> u32
    requires rows { AreMembers (length numbers.now) (pair_of group.now).1 }
    requires short { HasRowNumbers (length numbers.now) }
    requires known { All (λ number. number < length seen.old) numbers.now }
    requires fresh { All (λ last. last < number) seen.old }
    ensures count { result ≡ different (numbers_at numbers.now (pair_of group.now).1) }
    ensures seen { All (λ last. last ≤ number) seen.new }
    ensures as_many { length seen.new ≡ length seen.old }
{
    match group {
        GroupsIndicator::Idx((_, rows)) => {
            count_different(numbers, seen, number, &RowList::new(rows))
        }
        GroupsIndicator::Slice([start, count]) => {
            count_different(numbers, seen, number, &RowRun::new(*start, *count))
        }
    }
}

// How many of the numbers of some rows differ. For each number it is kept which group had it last.
fn count_different<R: GroupRows>(numbers: &[u32], seen: &mut [u32], group: u32, rows: &R) -> u32
    requires rows { AreMembers (length numbers.now) (R.rows rows.now) }
    requires short { HasRowNumbers (length numbers.now) }
    requires known { All (λ number. number < length seen.old) numbers.now }
    requires fresh { All (λ last. last < group) seen.old }
    ensures count { result ≡ different (numbers_at numbers.now (R.rows rows.now)) }
    ensures seen { All (λ last. last ≤ group) seen.new }
    ensures as_many { length seen.new ≡ length seen.old }
{
    let mut count = 0;
    for place in 0..rows.count() {
        let number = numbers[rows.row_at(place)] as usize;
        if seen[number] != group {
            seen[number] = group;
            count += 1;
        }
    }
    count
}

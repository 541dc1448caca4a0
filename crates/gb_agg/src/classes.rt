//! The number of each row's class.

ghost use Rattle.std.specs.Prelude.{◌≡◌, ◌<◌, [], length, All, IfOk};
ghost use Rattle.gb_defs.specs.Groups.{AreMembers, HasRowNumbers, lists_in};
ghost use Rattle.gb_groups.specs.GroupsIndicator.{pair_of};
ghost use Rattle.gb_groups.specs.GroupsType.{groups_of};
ghost use Rattle.gb_agg.specs.Distinct.{AreNumbered, numbered};

use crate::group_rows::{GroupRows, RowList, RowRun};
use gb_groups::groups_type::{GroupsIndicator, GroupsType};
use std::alloc::{AllocError, Global};

/// For each of so many rows the place of the last group that has it.
pub(crate) fn class_numbers(
    alloc: Global,
    groups: &GroupsType,
    rows: usize,
) -> Result<Vec<u32>, AllocError>
    requires rows { All (AreMembers rows) (lists_in (groups_of groups.now)) }
    requires few { HasRowNumbers (length (groups_of groups.now).pairs) }
    ensures { IfOk result (λ numbers.
        AreNumbered rows (lists_in (groups_of groups.now)) numbers.items) }
{
    let mut numbers = Vec::new(alloc);
    numbers.resize(rows, 0)?;
    number_groups(numbers.as_mut_slice(), groups);
    Ok(numbers)
}

// Gives the rows of each group its place.
fn number_groups(numbers: &mut [u32], groups: &GroupsType)
    requires rows { All (AreMembers (length numbers.old)) (lists_in (groups_of groups.now)) }
    requires few { HasRowNumbers (length (groups_of groups.now).pairs) }
    requires fresh { AreNumbered (length numbers.old) [] numbers.old }
    ensures { AreNumbered (length numbers.old) (lists_in (groups_of groups.now)) numbers.new }
{
    for place in 0..groups.len() {
        number_group(numbers, &groups.get(place), place as u32);
    }
}

// Gives the rows of a group a number.
fn number_group(numbers: &mut [u32], group: &GroupsIndicator<'_>, number: u32)
    requires { All (λ row. row < length numbers.old) (pair_of group.now).1 }
    ensures { numbers.new ≡ numbered number (pair_of group.now).1 numbers.old }
{
    match group {
        GroupsIndicator::Idx((_, rows)) => number_rows(numbers, &RowList::new(rows), number),
        GroupsIndicator::Slice([start, count]) => {
            number_rows(numbers, &RowRun::new(*start, *count), number);
        }
    }
}

// Gives these rows a number.
fn number_rows<R: GroupRows>(numbers: &mut [u32], rows: &R, number: u32)
    requires { All (λ row. row < length numbers.old) (R.rows rows.now) }
    ensures { numbers.new ≡ numbered number (R.rows rows.now) numbers.old }
{
    for place in 0..rows.count() {
        numbers[rows.row_at(place)] = number;
    }
}

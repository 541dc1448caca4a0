//! The groups of rows by the codes that they hold, where each of some codes is held. Rows are counted by
//! their codes, and no key is looked up.

ghost use Rattle.std.specs.Prelude.{◌≡◌, ◌+◌, ◌++◌, ◌<◌, ◌^◌, All, false, length, IfOk, IfErr, OnOk, if◌then◌else◌};
ghost use Rattle.gb_defs.specs.Groups.{HasRowNumbers};
ghost use Rattle.gb_defs.specs.Path.{Perfect, path_groups};
ghost use Rattle.gb_base.specs.PlSmallStr.{IsNoMemory};
ghost use Rattle.gb_groups.specs.Groups.{lists_of};
ghost use Rattle.gb_groups.specs.GroupsType.{groups_of};
ghost use Rattle.gb_values.specs.Array.{native_slot};
ghost use Rattle.gb_cols.specs.Codes.{IsCodeBelow};
ghost use Rattle.gb_runs.specs.Codes.{AreCodes, head_or_zero, heads_of, number_of, numbers_of, rows_in};

use gb_base::error::PolarsResult;
use gb_base::nullable_idx::IdxSize;
use gb_cols::chunked::ChunkedArray;
use gb_cols::series_trait::SeriesTrait;
use gb_groups::groups_idx::{GroupsIdx, IdxVec};
use gb_groups::groups_type::GroupsType;
use gb_groups::row_lists::{AllRows, row_lists};
use gb_numbers::numeric::{Native, PolarsNumericType};
use gb_values::primitive::{NumberValues, PrimitiveArray};
use std::alloc::{AllocError, Global};

/// The groups of the rows of a column of codes, each of which is held: one for each code, and behind them
/// one for the rows that hold none, if there are any; where `sorted` in the order of their first rows.
pub fn group_codes<T: PolarsNumericType>(
    column: &ChunkedArray<NumberValues<T>>,
    count: usize,
    sorted: bool,
) -> PolarsResult<GroupsType>
    requires codes { AreCodes count column.now.slots }
    requires few { HasRowNumbers (length column.now.slots) }
    ensures ok { IfOk result (λ g.
        groups_of g ≡ path_groups Perfect (rows_in column.now.slots) count 0 sorted) }
    ensures err { IfErr result IsNoMemory }
{
    let mut groups = groups_by_code(column, count)?;
    if sorted {
        groups.sort()?;
        return Ok(groups);
    }
    Ok(groups)
}

// Those in the order of their codes.
fn groups_by_code<T: PolarsNumericType>(
    column: &ChunkedArray<NumberValues<T>>,
    count: usize,
) -> PolarsResult<GroupsType>
    requires codes { AreCodes count column.now.slots }
    requires few { HasRowNumbers (length column.now.slots) }
    ensures ok { IfOk result (λ g.
        groups_of g ≡ path_groups Perfect (rows_in column.now.slots) count 0 false) }
    ensures err { IfErr result IsNoMemory }
{
    let alloc = column.allocator();
    let numbers = code_numbers(column, count)?;
    let groups = group_count(count, column.has_nulls());
    let members = AllRows::new(numbers.len());
    let all = row_lists(alloc, &members, numbers.as_slice(), groups)?;
    let first = first_rows(alloc, all.as_slice())?;
    let sorted = GroupsIdx::firsts_ascend(first.as_slice());
    Ok(GroupsType::from(GroupsIdx::new(first, all, sorted)))
}

// How many groups there are.
fn group_count(count: usize, has_nulls: bool) -> usize
    requires { count < 2 ^ 32 }
    ensures { result ≡ count + (if has_nulls then 1 else 0) }
{
    if has_nulls { count + 1 } else { count }
}

// The number of each row's group. One pass over the chunks.
fn code_numbers<T: PolarsNumericType>(
    column: &ChunkedArray<NumberValues<T>>,
    count: usize,
) -> Result<Vec<u32>, AllocError>
    requires few { count < 2 ^ 32 }
    requires codes { All (IsCodeBelow count) column.now.slots }
    ensures { IfOk result (λ numbers. numbers.items ≡ numbers_of count column.now.slots) }
{
    let mut numbers = Vec::with_capacity(column.allocator(), column.len())?;
    let (earlier, last) = column.chunks();
    for chunk in earlier {
        push_numbers(&mut numbers, chunk, count)?;
    }
    push_numbers(&mut numbers, last, count)?;
    Ok(numbers)
}

// Those of a chunk behind those before.
fn push_numbers<T: PolarsNumericType>(
    numbers: &mut Vec<u32>,
    chunk: &PrimitiveArray<T>,
    count: usize,
) -> Result<(), AllocError>
    requires few { count < 2 ^ 32 }
    requires codes { All (IsCodeBelow count) chunk.now }
    ensures { OnOk result
        (numbers.new.items ≡ numbers.old.items ++ numbers_of count chunk.now) }
{
    let rows = chunk.len();
    numbers.reserve(rows)?;
    for row in 0..rows {
        numbers.push_reserved(code_number(chunk.get(row), count));
    }
    Ok(())
}

// The number of the group of a code, or of none.
#[inline]
fn code_number<N: Native>(code: Option<N>, count: usize) -> u32
    requires few { count < 2 ^ 32 }
    requires code { IsCodeBelow count (native_slot N.number code) }
    ensures { result ≡ number_of count (native_slot N.number code) }
{
    match code {
        Some(code) => code.to_word() as u32,
        None => count as u32,
    }
}

// The first of each list of rows.
fn first_rows(alloc: Global, lists: &[IdxVec]) -> Result<Vec<IdxSize>, AllocError>
    ensures { IfOk result (λ first. first.items ≡ heads_of (lists_of lists.now)) }
{
    let mut first = Vec::with_capacity(alloc, lists.len())?;
    for rows in lists {
        first.push_reserved(first_row(rows));
    }
    Ok(first)
}

// The first row of a list. Each list here has one.
fn first_row(rows: &IdxVec) -> IdxSize
    ensures { result ≡ head_or_zero rows.now.items }
{
    match rows.first() {
        Some(row) => *row,
        None => 0,
    }
}

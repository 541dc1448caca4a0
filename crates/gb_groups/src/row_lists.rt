//! The rows of each group, from the number of each row's group.

ghost use Rattle.std.specs.Prelude.{◌≡◌, ℕ, ◌<◌, ◌^◌, length, IfOk, List, OnOk, slice_index};
ghost use Rattle.std.specs.List.{All, AllZip};
ghost use Rattle.gb_defs.specs.Classes.{rows_below};
ghost use Rattle.gb_defs.specs.Groups.{HasRowNumbers};
ghost use Rattle.gb_groups.specs.Groups.{lists_of};
ghost use Rattle.gb_groups.specs.Numbers.{HaveMore, HaveRoom, IsRoomFor, counts_by, lists_by};

use crate::groups_idx::IdxVec;
use crate::row_buckets::{NEAR_GROUPS, RowBucket, bucket_rows};
use gb_base::nullable_idx::IdxSize;
use smallvec::SmallVec;
use std::alloc::{AllocError, Global};

/// The rows that are grouped, by their places.
pub trait Members {
    // The rows, in order.
    ghost listed: { Self → List ℕ };

    fn len(&self) -> usize
        ensures { result ≡ length (listed self.now) };

    fn row_at(&self, place: usize) -> IdxSize
        requires { place < length (listed self.now) }
        ensures { result ≡ slice_index (listed self.now) place };
}

/// All rows of so many, of which no list is made.
#[derive(Drop)]
pub struct AllRows {
    pub count: usize,
    ghost few: { HasRowNumbers count },
}

impl AllRows {
    pub fn new(count: usize) -> AllRows
        requires { HasRowNumbers count }
        ensures { result.count ≡ count }
    {
        AllRows { count }
    }
}

impl Members for AllRows {
    ghost listed = { λ all. rows_below all.count };

    #[inline(always)]
    fn len(&self) -> usize {
        self.count
    }

    #[inline(always)]
    fn row_at(&self, place: usize) -> IdxSize {
        place as IdxSize
    }
}

/// The rows of a list.
#[derive(Drop)]
pub struct ListedRows<'a> {
    pub rows: &'a [IdxSize],
}

impl<'a> Members for ListedRows<'a> {
    ghost listed = { λ some. some.rows.now };

    #[inline(always)]
    fn len(&self) -> usize {
        self.rows.len()
    }

    #[inline(always)]
    fn row_at(&self, place: usize) -> IdxSize {
        self.rows[place]
    }
}

/// The rows of each group, in their order.
pub fn row_lists<M: Members>(
    alloc: Global,
    rows: &M,
    numbers: &[u32],
    groups: usize,
) -> Result<Vec<IdxVec>, AllocError>
    requires each { length numbers.now ≡ length (M.listed rows.now) }
    requires few { length numbers.now < 2 ^ 32 }
    requires known { All (λ number. number < groups) numbers.now }
    ensures { IfOk result (λ lists.
        lists_of lists.items ≡ lists_by (M.listed rows.now) numbers.now groups) }
{
    let counts = row_counts(alloc, numbers, groups)?;
    let mut lists = empty_lists(alloc, counts.as_slice())?;
    fill_lists(
        alloc,
        lists.as_mut_slice(),
        rows,
        numbers,
        counts.as_slice(),
    )?;
    Ok(lists)
}

/// How many rows each group has.
pub fn row_counts(alloc: Global, numbers: &[u32], groups: usize) -> Result<Vec<IdxSize>, AllocError>
    requires few { length numbers.now < 2 ^ 32 }
    requires known { All (λ number. number < groups) numbers.now }
    ensures { IfOk result (λ counts. counts.items ≡ counts_by numbers.now groups) }
{
    let mut counts = vec![in alloc; 0 as IdxSize; groups]?;
    count_rows(counts.as_mut_slice(), numbers);
    Ok(counts)
}

// Adds one to a group's count for each of its rows.
fn count_rows(counts: &mut [IdxSize], numbers: &[u32])
    requires few { length numbers.now < 2 ^ 32 }
    requires known { All (λ number. number < length counts.old) numbers.now }
    requires zero { (k : ℕ) → slice_index counts.old k ≡ 0 }
    ensures { counts.new ≡ counts_by numbers.now (length counts.old) }
{
    for number in numbers {
        counts[*number as usize] += 1;
    }
}

/// A list for each count, empty, with room for so many rows.
pub fn empty_lists(alloc: Global, counts: &[IdxSize]) -> Result<Vec<IdxVec>, AllocError>
    ensures { IfOk result (λ lists. AllZip IsRoomFor counts.now lists.items) }
{
    let mut lists = Vec::with_capacity(alloc, counts.len())?;
    for count in counts {
        lists.push_reserved(SmallVec::with_capacity(alloc, *count as usize)?);
    }
    Ok(lists)
}

// Puts each row behind those in the list of its group.
fn add_rows<M: Members>(lists: &mut [IdxVec], rows: &M, numbers: &[u32])
    requires each { length numbers.now ≡ length (M.listed rows.now) }
    requires known { All (λ number. number < length lists.old) numbers.now }
    requires room { HaveRoom numbers.now lists.old }
    ensures { HaveMore (M.listed rows.now) numbers.now lists.old lists.new }
{
    for (place, number) in numbers.iter().enumerate() {
        lists[*number as usize].push_reserved(rows.row_at(place));
    }
}

// Puts each row into the list of its group, where there are many lists by buckets of near ones.
fn fill_lists<M: Members>(
    alloc: Global,
    lists: &mut [IdxVec],
    rows: &M,
    numbers: &[u32],
    counts: &[IdxSize],
) -> Result<(), AllocError>
    requires each { length numbers.now ≡ length (M.listed rows.now) }
    requires known { All (λ number. number < length lists.old) numbers.now }
    requires room { AllZip IsRoomFor (counts_by numbers.now (length lists.old)) lists.old }
    requires counted { length counts.now ≡ length lists.old }
    ensures { OnOk result
        (lists_of lists.new ≡ lists_by (M.listed rows.now) numbers.now (length lists.old)) }
{
    if lists.len() <= NEAR_GROUPS {
        add_rows(lists, rows, numbers);
        return Ok(());
    }
    let buckets = bucket_rows(alloc, rows, numbers, counts)?;
    for bucket in &buckets {
        let listed = ListedRows {
            rows: bucket.rows.as_slice(),
        };
        add_rows(lists, &listed, bucket.numbers.as_slice());
    }
    Ok(())
}

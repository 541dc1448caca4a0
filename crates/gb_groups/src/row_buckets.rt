//! Rows by buckets of near groups, for lists of so many groups that a processor does not keep all of them.

ghost use Rattle.std.specs.Prelude.{◌≡◌, ◌+◌, ◌++◌, ◌∷◌, ◌<◌, ◌≤◌, [], length, All, IfOk, OnOk};
ghost use Rattle.gb_groups.specs.Buckets.{AreBuckets, bucket_of};

use crate::groups_idx::IdxVec;
use crate::row_lists::Members;
use gb_base::nullable_idx::IdxSize;
use std::alloc::{AllocError, Global};

/// The lists of so many groups are written to side by side.
pub(crate) const NEAR_GROUPS: usize = 2048;

/// Some rows, and the number of each one's group.
#[derive(Drop)]
pub(crate) struct RowBucket {
    pub(crate) rows: Vec<IdxSize>,
    pub(crate) numbers: Vec<u32>,
}

impl RowBucket {
    // No rows, and room for so many.
    fn new(alloc: Global, rows: usize) -> Result<RowBucket, AllocError>
        ensures { IfOk result (λ b. (b.rows.items ≡ []) × (b.numbers.items ≡ [])) }
    {
        Ok(RowBucket {
            rows: Vec::with_capacity(alloc, rows)?,
            numbers: Vec::with_capacity(alloc, rows)?,
        })
    }

    // One row more.
    fn push(&mut self, row: IdxSize, number: u32) -> Result<(), AllocError>
        ensures rows { OnOk result (self.new.rows.items ≡ self.old.rows.items ++ row ∷ []) }
        ensures numbers { OnOk result
            (self.new.numbers.items ≡ self.old.numbers.items ++ number ∷ []) }
    {
        self.rows.push(row)?;
        self.numbers.push(number)?;
        Ok(())
    }
}

/// The rows by buckets of their groups, in their order in each. One pass over the rows.
pub(crate) fn bucket_rows<M: Members>(
    alloc: Global,
    rows: &M,
    numbers: &[u32],
    counts: &[IdxSize],
) -> Result<Vec<RowBucket>, AllocError>
    requires each { length numbers.now ≡ length (M.listed rows.now) }
    requires known { All (λ number. number < length counts.now) numbers.now }
    ensures buckets { IfOk result (λ buckets.
        AreBuckets (M.listed rows.now) numbers.now buckets.items) }
    ensures all { IfOk result (λ buckets.
        bucket_of (length counts.now) < length buckets.items) }
{
    let mut buckets = empty_buckets(alloc, counts)?;
    deal_rows(buckets.as_mut_slice(), rows, numbers)?;
    Ok(buckets)
}

// A bucket for the rows of each so many groups, empty, with room for them.
fn empty_buckets(alloc: Global, counts: &[IdxSize]) -> Result<Vec<RowBucket>, AllocError>
    ensures empty { IfOk result (λ buckets. AreBuckets [] [] buckets.items) }
    ensures all { IfOk result (λ buckets.
        length buckets.items ≡ bucket_of (length counts.now) + 1) }
{
    let count = counts.len() / NEAR_GROUPS + 1;
    let mut buckets = Vec::with_capacity(alloc, count)?;
    for bucket in 0..count {
        buckets.push(RowBucket::new(alloc, count_rows(counts, bucket))?)?;
    }
    Ok(buckets)
}

// How many rows the groups of a bucket have.
fn count_rows(counts: &[IdxSize], bucket: usize) -> usize {
    let first = bucket.saturating_mul(NEAR_GROUPS).min(counts.len());
    let mut rows: usize = 0;
    for count in counts[first..].iter().take(NEAR_GROUPS) {
        rows = rows.saturating_add(*count as usize);
    }
    rows
}

// Puts each row into the bucket of its group.
fn deal_rows<M: Members>(
    buckets: &mut [RowBucket],
    rows: &M,
    numbers: &[u32],
) -> Result<(), AllocError>
    requires each { length numbers.now ≡ length (M.listed rows.now) }
    requires known { All (λ number. bucket_of number < length buckets.old) numbers.now }
    requires empty { AreBuckets [] [] buckets.old }
    ensures buckets { OnOk result (AreBuckets (M.listed rows.now) numbers.now buckets.new) }
    ensures as_many { OnOk result (length buckets.new ≡ length buckets.old) }
{
    for (place, number) in numbers.iter().enumerate() {
        buckets[*number as usize / NEAR_GROUPS].push(rows.row_at(place), *number)?;
    }
    Ok(())
}

//! The runs of a column's rows: rows that follow each other and hold one slot.

ghost use Rattle.std.specs.Prelude.{◌≡◌, ◌+◌, ◌++◌, ◌∷◌, ◌<◌, [], false, length, not, slice_index_or, IfOk, OnOk, if◌then◌else◌};
ghost use Rattle.gb_defs.specs.Slot.{is_nil, slot_at, slot_eq};
ghost use Rattle.gb_runs.specs.Codes.{rows_in};
ghost use Rattle.gb_runs.specs.Runs.{AreStarts, HasRowsTo, begins_run, runs_to, starts_in};

use gb_base::nullable_idx::IdxSize;
use gb_cols::chunked::ChunkedArray;
use gb_cols::near_chunk::NearChunk;
use gb_cols::series_trait::SeriesTrait;
use gb_values::nullable::{NullableArray, Values};
use std::alloc::{AllocError, Global};

/// The first rows of runs among those of a range, its first row and how many they are. The row before the
/// range is looked at too, so that no run is cut.
pub fn run_starts<V: Values>(
    column: &ChunkedArray<V>,
    range: (usize, usize),
) -> Result<Vec<IdxSize>, AllocError>
    requires { HasRowsTo column.now.slots (range.0 + range.1) }
    ensures { IfOk result (λ starts. starts.items ≡ starts_in (rows_in column.now.slots) range) }
{
    let (first, count) = range;
    let mut starts = Vec::new(column.allocator());
    let mut near = NearChunk::new(column);
    for place in 0..count {
        let row = first + place;
        let begun = begins(&mut near, row);
        push_if(&mut starts, row as IdxSize, begun)?;
    }
    Ok(starts)
}

// Whether a run begins at a row.
#[inline]
fn begins<V: Values>(near: &mut NearChunk<'_, V>, row: usize) -> bool
    requires { row < length near.old }
    ensures tells { result ≡ begins_run (slot_at near.old) row }
    ensures same { near.new ≡ near.old }
{
    if row == 0 {
        return true;
    }
    let (before, i) = near.locate(row - 1);
    let (chunk, j) = near.locate(row);
    differ(before, i, chunk, j)
}

// Whether two slots are not the same.
#[inline]
fn differ<V: Values>(a: &NullableArray<V>, i: usize, b: &NullableArray<V>, j: usize) -> bool
    requires inside { i < length a.now }
    requires other_inside { j < length b.now }
    ensures { result ≡ not (slot_eq (slot_at a.now i) (slot_at b.now j)) }
{
    let valid = a.is_valid(i);
    if valid != b.is_valid(j) {
        return true;
    }
    if !valid {
        return false;
    }
    valid_differ(a, i, b, j)
}

// The same of slots that are no nulls.
#[inline]
fn valid_differ<V: Values>(a: &NullableArray<V>, i: usize, b: &NullableArray<V>, j: usize) -> bool
    requires inside { i < length a.now }
    requires other_inside { j < length b.now }
    requires valid { is_nil (slot_at a.now i) ≡ false }
    requires other_valid { is_nil (slot_at b.now j) ≡ false }
    ensures { result ≡ not (slot_eq (slot_at a.now i) (slot_at b.now j)) }
{
    // The calls tell that the slots fit the type.
    let _ = a.len();
    let _ = b.len();
    let order = a.cmp_at(i, b, j);
    order.is_lt() || order.is_gt()
}

// One row more where a run begins.
#[inline]
fn push_if(starts: &mut Vec<IdxSize>, row: IdxSize, begins: bool) -> Result<(), AllocError>
    ensures { OnOk result
        (starts.new.items ≡ starts.old.items ++ (if begins then row ∷ [] else [])) }
{
    if begins {
        starts.push(row)?;
        return Ok(());
    }
    Ok(())
}

/// The runs that begin at these rows, of which the last goes up to the end of so many rows.
pub fn runs_between(
    alloc: Global,
    starts: &[IdxSize],
    count: IdxSize,
) -> Result<Vec<[IdxSize; 2]>, AllocError>
    requires { AreStarts count starts.now }
    ensures { IfOk result (λ runs. runs.items ≡ runs_to starts.now count) }
{
    let mut runs = Vec::with_capacity(alloc, starts.len())?;
    for place in 0..starts.len() {
        let start = starts[place];
        let next = start_or(starts, place + 1, count);
        runs.push_reserved([start, next - start]);
    }
    Ok(runs)
}

// The start at a place, or the count where none stands there.
fn start_or(starts: &[IdxSize], place: usize, count: IdxSize) -> IdxSize
    ensures { result ≡ slice_index_or starts.now place count }
{
    match starts.get(place) {
        Some(start) => *start,
        None => count,
    }
}

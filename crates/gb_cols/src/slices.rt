//! The part of a column that a slice shows.

ghost use Rattle.std.specs.Prelude.{◌≡◌, ◌++◌, ◌∷◌, [], OnOk};
ghost use Rattle.gb_defs.specs.Slices.{moved_into, or_one, slice_end, slice_start};
ghost use Rattle.gb_values.specs.Array.{filled_part};

use gb_values::nullable::{NullableArray, Values};
use std::alloc::{AllocError, Global};

// A place moved into so many slots.
fn moved_into(count: usize, place: i128) -> usize
    ensures { result ≡ moved_into count place }
{
    if place <= 0 {
        return 0;
    }
    place.unsigned_abs().min(count as u128) as usize
}

/// The first row that a slice shows, and the first behind those.
pub(crate) fn slice_bounds(count: usize, offset: i64, len: usize) -> (usize, usize)
    ensures start { result.0 ≡ slice_start count offset }
    ensures end { result.1 ≡ slice_end count offset len }
{
    let from = if offset < 0 {
        count as i128 + i128::from(offset)
    } else {
        i128::from(offset)
    };
    (
        moved_into(count, from),
        moved_into(count, from + len as i128),
    )
}

/// The slots of a chunk from one place up to another, as a chunk more, unless there are none.
pub(crate) fn push_part<V: Values>(
    parts: &mut Vec<NullableArray<V>>,
    chunk: &NullableArray<V>,
    from: usize,
    to: usize,
) -> Result<(), AllocError>
    ensures { OnOk result (parts.new.items ≡ parts.old.items ++ filled_part from to chunk.now) }
{
    let end = to.min(chunk.len());
    if from < end {
        let mut part = NullableArray::empty(*parts.allocator());
        part.extend_from(chunk, from, end - from)?;
        parts.push(part)?;
    }
    Ok(())
}

/// The last chunk, taken off the others: an empty one where there is none.
pub(crate) fn pop_chunk<V: Values>(chunks: &mut Vec<NullableArray<V>>) -> NullableArray<V>
    ensures { chunks.new.items ++ result ∷ [] ≡ or_one [] chunks.old.items }
{
    match chunks.pop() {
        Some(chunk) => chunk,
        None => NullableArray::empty(*chunks.allocator()),
    }
}

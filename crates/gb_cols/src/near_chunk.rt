//! The slots of a column in its chunks, read by rows of which most stand in the chunk of the row before.

ghost use Rattle.std.specs.Prelude.{◌+◌, ◌<◌, ◌≤◌, List, length};
ghost use Rattle.gb_defs.specs.Slot.{Slot};
ghost use Rattle.gb_cols.specs.Near.{IsNear, IsStart, slots_in_chunks};

use crate::chunked::ChunkedArray;
use crate::series_trait::SeriesTrait;
use gb_values::nullable::{NullableArray, Values};
use std::marker::Model;

/// The chunks of a column, of which the one that was read last is looked at first. Contracts see the slots.
#[derive(Drop)]
pub struct NearChunk<'a, V: Values> {
    earlier: &'a [NullableArray<V>],
    last: &'a NullableArray<V>,
    // The chunk that was read last, how many stand before it, and the row that it begins at.
    chunk: &'a NullableArray<V>,
    place: usize,
    start: usize,
}

impl<'a, V: Values> Model for NearChunk<'a, V> {
    ghost use Rattle.std.specs.Prelude.{List};
    ghost use Rattle.std.specs.Coded.{coded_list};
    ghost use Rattle.gb_defs.specs.Slot.{Slot, slot_code};
    ghost use Rattle.gb_cols.specs.Near.{IsNear, slots_in_chunks};

    ghost Value = { List Slot };

    ghost coded = { coded_list slot_code };

    ghost view = { λ near. slots_in_chunks near.earlier.now near.last.now };

    ghost invariant = { λ near.
        IsNear near.earlier.now near.last.now near.place near.start near.chunk.now };
}

impl<'a, V: Values> NearChunk<'a, V> {
    ghost use Rattle.std.specs.Prelude.{◌≡◌, ◌<◌, length};
    ghost use Rattle.gb_defs.specs.Slot.{slot_at};

    pub fn new(column: &'a ChunkedArray<V>) -> NearChunk<'a, V>
        ensures { result ≡ column.now.slots }
    {
        let rows = column.len();
        let (earlier, last) = column.chunks();
        NearChunk {
            earlier,
            last,
            chunk: last,
            place: earlier.len(),
            start: rows - last.len(),
        }
    }

    /// The chunk that a row stands in, and its place there.
    #[inline]
    pub fn locate(&mut self, row: usize) -> (&'a NullableArray<V>, usize)
        requires { row < length self.old }
        ensures inside { result.1 < length result.0.now }
        ensures slot { slot_at result.0.now result.1 ≡ slot_at self.old row }
        ensures same { self.new ≡ self.old }
    {
        if row < self.start || row - self.start >= self.chunk.len() {
            let (place, start) = front_of(self.place, self.start, row);
            let (chunk, place, start) = chunk_of(self.earlier, self.last, place, start, row);
            self.chunk = chunk;
            self.place = place;
            self.start = start;
        }
        (self.chunk, row - self.start)
    }
}

// The chunk to seek a row from: the one that was read last, where it begins at or before the row, or the first.
#[inline]
fn front_of(place: usize, start: usize, row: usize) -> (usize, usize)
    ensures before { result.1 ≤ row }
    ensures start { (earlier : List (List Slot)) → IsStart earlier place start
        → IsStart earlier result.0 result.1 }
{
    if row < start { (0, 0) } else { (place, start) }
}

// The chunk of a row, how many stand before it, and the row that it begins at. It is sought from a chunk on that
// begins at or before the row.
fn chunk_of<'a, V: Values>(
    earlier: &'a [NullableArray<V>],
    last: &'a NullableArray<V>,
    from: usize,
    begin: usize,
    row: usize,
) -> (&'a NullableArray<V>, usize, usize)
    requires from { IsStart earlier.now from begin }
    requires before { begin ≤ row }
    requires inside { row < length (slots_in_chunks earlier.now last.now) }
    ensures near { IsNear earlier.now last.now result.1 result.2 result.0.now }
    ensures from { result.2 ≤ row }
    ensures inside { row < result.2 + length result.0.now }
{
    let mut start = begin;
    for place in from..earlier.len() {
        let chunk = &earlier[place];
        if row - start < chunk.len() {
            return (chunk, place, start);
        }
        start += chunk.len();
    }
    (last, earlier.len(), start)
}

//! How long rows of bytes will be.

ghost use Rattle.std.specs.Prelude.{◌≡◌, ◌==◌, ◌+◌, List, ℕ, ◌∷◌, [], length, replicate, IfOk, OnOk};
ghost use Rattle.std.specs.List.{count_by};
ghost use Rattle.gb_rows.specs.Cells.{bytes_cell, longer};
ghost use Rattle.gb_rows.specs.Zipped.{IsZipped};

use crate::cell_sink::CellSink;
use std::alloc::{AllocError, Global};

/// The length of each row, as far as its cells have come.
#[derive(Drop)]
pub(crate) struct RowLengths {
    lengths: Vec<usize>,
    // Which row takes the next cell.
    next: usize,
}

impl RowLengths {
    /// So many rows of no bytes.
    pub(crate) fn new(alloc: Global, count: usize) -> Result<RowLengths, AllocError>
        ensures rows { IfOk result (λ rows. rows.lengths.items ≡ replicate count 0) }
        ensures first { IfOk result (λ rows. rows.next ≡ 0) }
    {
        Ok(RowLengths {
            lengths: vec![in alloc; 0; count]?,
            next: 0,
        })
    }

    /// The next cell is that of the first row.
    pub(crate) fn rewind(&mut self)
        ensures rows { self.new.lengths.items ≡ self.old.lengths.items }
        ensures first { self.new.next ≡ 0 }
    {
        self.next = 0;
    }

    /// The lengths.
    pub(crate) fn into_lengths(self) -> Vec<usize>
        ensures { result.items ≡ self.lengths.items }
    {
        self.lengths
    }

    // The next row is longer by so many bytes.
    #[inline]
    fn add(&mut self, count: usize) -> Result<(), AllocError>
        ensures { OnOk result ((cell : List ℕ) → length cell ≡ count → IsZipped longer (cell ∷ [])
            self.old.lengths.items self.old.next self.new.lengths.items self.new.next) }
    {
        if self.next >= self.lengths.len() {
            return Ok(());
        }
        let length = sum_of(self.lengths[self.next], count)?;
        self.lengths[self.next] = length;
        self.next += 1;
        Ok(())
    }
}

impl CellSink for RowLengths {
    ghost use Rattle.gb_rows.specs.Cells.{longer};
    ghost use Rattle.gb_rows.specs.Zipped.{IsZipped};

    ghost HasTaken = { λ cells a b. IsZipped longer cells a.lengths.items a.next b.lengths.items b.next };

    ghost use Rattle.gb_rows.specs.Zipped.{zipped_none, zipped_more};

    ghost took_none = { λ sink. zipped_none longer sink.lengths.items sink.next };

    ghost took_more = { λ front back a b c. zipped_more longer front back a.lengths.items a.next b.lengths.items b.next c.lengths.items c.next };

    #[inline]
    fn put(&mut self, cell: &[u8]) -> Result<(), AllocError> {
        self.add(cell.len())
    }

    #[inline]
    fn put_bytes(&mut self, value: &[u8]) -> Result<(), AllocError> {
        let count = bytes_cell_len(value)?;
        self.add(count)
    }
}

// How long the cell of some bytes is.
#[inline]
#[tactic(auto, using(crate::proofs::CellLemmas::bytes_length))]
fn bytes_cell_len(value: &[u8]) -> Result<usize, AllocError>
    ensures { IfOk result (λ count. length (bytes_cell value.now) ≡ count) }
{
    sum_of(sum_of(value.len(), zeros_in(value))?, 3)
}

/// The sum. More bytes than a `usize` counts are more than memory holds.
#[inline]
pub(crate) fn sum_of(a: usize, b: usize) -> Result<usize, AllocError>
    ensures { IfOk result (λ sum. sum ≡ a + b) }
{
    a.checked_add(b).ok_or(AllocError)
}

#[inline]
fn zeros_in(value: &[u8]) -> usize
    ensures { result ≡ count_by (λ byte. byte == 0) value.now }
{
    value.iter().filter(|byte| **byte == 0).count()
}

//! Which rows have a value in every key.

ghost use Rattle.std.specs.Prelude.{◌≡◌, ◌≤◌, ◌∷◌, [], List, ℕ, true, All, length, map, replicate, IfOk};
ghost use Rattle.gb_rows.specs.Cells.{is_null_cell, still_full};
ghost use Rattle.gb_rows.specs.Lent.{lent_cells};
ghost use Rattle.gb_rows.specs.Rows.{full_of_cells};
ghost use Rattle.gb_rows.specs.Zipped.{IsZipped};

use crate::cell_sink::CellSink;
use crate::lent_key::LentKey;
use crate::row_cells::RowCells;
use std::alloc::{AllocError, Global};

/// Whether each row from one up to another has a value in every key. One pass over a key that has nulls.
pub(crate) fn full_rows(
    alloc: Global,
    keys: &[LentKey],
    start: usize,
    end: usize,
) -> Result<Vec<bool>, AllocError>
    requires order { start ≤ end }
    requires long { All (λ cells. end ≤ length cells) (map lent_cells keys.now) }
    ensures { let columns = map lent_cells keys.now in
        IfOk result (λ full. full.items ≡ full_of_cells start end columns) }
{
    let mut rows = FullRows::new(alloc, end - start)?;
    for key in keys {
        if key.has_nulls() {
            rows.rewind();
            key.put_cells(start, end, &mut rows)?;
        }
    }
    Ok(rows.into_flags())
}

/// Whether each row has a value in every cell so far.
#[derive(Drop)]
struct FullRows {
    full: Vec<bool>,
    // Which row takes the next cell.
    next: usize,
}

impl FullRows {
    // So many rows of no cells.
    fn new(alloc: Global, count: usize) -> Result<FullRows, AllocError>
        ensures { IfOk result (λ rows. rows.full.items ≡ replicate count true) }
    {
        Ok(FullRows {
            full: vec![in alloc; true; count]?,
            next: 0,
        })
    }

    // The next cell is that of the first row.
    fn rewind(&mut self)
        ensures rows { self.new.full.items ≡ self.old.full.items }
        ensures first { self.new.next ≡ 0 }
    {
        self.next = 0;
    }

    fn into_flags(self) -> Vec<bool>
        ensures { result.items ≡ self.full.items }
    {
        self.full
    }

    // The next row has a cell more, which is a null's or is not.
    #[inline]
    fn add(&mut self, is_null: bool)
        ensures { (cell : List ℕ) → is_null_cell cell ≡ is_null → IsZipped still_full (cell ∷ [])
            self.old.full.items self.old.next self.new.full.items self.new.next }
    {
        if self.next >= self.full.len() {
            return;
        }
        let full = self.full[self.next] && !is_null;
        self.full[self.next] = full;
        self.next += 1;
    }
}

impl CellSink for FullRows {
    ghost use Rattle.gb_rows.specs.Cells.{still_full};
    ghost use Rattle.gb_rows.specs.Zipped.{IsZipped};

    ghost HasTaken = { λ cells a b. IsZipped still_full cells a.full.items a.next b.full.items b.next };

    ghost use Rattle.gb_rows.specs.Zipped.{zipped_none, zipped_more};

    ghost took_none = { λ sink. zipped_none still_full sink.full.items sink.next };

    ghost took_more = { λ front back a b c. zipped_more still_full front back a.full.items a.next b.full.items b.next c.full.items c.next };

    #[inline]
    fn put(&mut self, cell: &[u8]) -> Result<(), AllocError> {
        self.add(is_null(cell));
        Ok(())
    }

    #[inline]
    fn put_bytes(&mut self, _value: &[u8]) -> Result<(), AllocError> {
        self.add(false);
        Ok(())
    }
}

// Whether a cell has the mark of a null.
#[inline]
fn is_null(cell: &[u8]) -> bool
    ensures { result ≡ is_null_cell cell.now }
{
    match cell.first() {
        Some(mark) => *mark == 0,
        None => false,
    }
}

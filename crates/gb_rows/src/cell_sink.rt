//! What takes the bytes of rows.

ghost use Rattle.std.specs.Prelude.{◌∷◌, ◌++◌, [], List, ℕ, OnOk};
ghost use Rattle.gb_rows.specs.Cells.{bytes_cell};

use std::alloc::AllocError;

/// What takes the bytes of rows, one cell a row, and begins with the first row again for each column.
pub(crate) trait CellSink: Drop {
    // What it came to behind some cells, a row each.
    ghost HasTaken: { List (List ℕ) → Self → Self → Type 0 };

    /// The cell of the next row. Where there is none it is left out.
    fn put(&mut self, cell: &[u8]) -> Result<(), AllocError>
        ensures { OnOk result (HasTaken (cell.now ∷ []) self.old self.new) };

    /// The same, of a text or of other bytes.
    fn put_bytes(&mut self, value: &[u8]) -> Result<(), AllocError>
        ensures { OnOk result (HasTaken (bytes_cell value.now ∷ []) self.old self.new) };

    // No cells change nothing.
    ghost took_none: { (sink : Self) → HasTaken [] sink sink };

    // Cells behind cells.
    ghost took_more: { (front back : List (List ℕ)) (a b c : Self)
        → HasTaken front a b → HasTaken back b c → HasTaken (front ++ back) a c };
}

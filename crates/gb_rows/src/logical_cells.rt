//! The cells of columns of numbers that mean something else, and of categories: those of the numbers.

ghost use Rattle.std.specs.Prelude.{◌≡◌, ℤ};
ghost use Rattle.gb_defs.specs.RowBytes.{number_bytes};

use crate::cell_sink::CellSink;
use crate::row_cells::RowCells;
use gb_flat_series::of_column;
use gb_flat_series::series::FlatSeries;
use gb_logical::categorical::CategoricalChunked;
use gb_logical::logical::{
    DateKind, DatetimeKind, DecimalKind, DurationKind, Logical, LogicalKind, TimeKind,
};
use std::alloc::AllocError;

/// A meaning of numbers whose bytes are those of the stored ones.
pub(crate) trait RowKind: LogicalKind {
    // A number has one body under both types.
    ghost alike: { (kind : Self) (n : ℤ)
        → number_bytes (Self.flat kind) n ≡ number_bytes Self.Physical.Native.flat n };
}

impl RowKind for DateKind {
    ghost use Rattle.std.specs.Prelude.{refl};

    ghost alike = { λ kind n. refl };
}

impl RowKind for TimeKind {
    ghost use Rattle.std.specs.Prelude.{refl};

    ghost alike = { λ kind n. refl };
}

impl RowKind for DatetimeKind {
    ghost use Rattle.std.specs.Prelude.{refl};

    ghost alike = { λ kind n. refl };
}

impl RowKind for DurationKind {
    ghost use Rattle.std.specs.Prelude.{refl};

    ghost alike = { λ kind n. refl };
}

impl RowKind for DecimalKind {
    ghost use Rattle.std.specs.Prelude.{refl};

    ghost alike = { λ kind n. refl };
}

impl<K: RowKind> RowCells for Logical<K> {
    ghost use Rattle.gb_rows.specs.Cells.{cells_of};

    ghost cells = { cells_of };

    fn put_cells<S: CellSink>(
        &self,
        start: usize,
        end: usize,
        sink: &mut S,
    ) -> Result<(), AllocError> {
        // The call tells the column's type.
        let _ = self.kind();
        self.physical().put_cells(start, end, sink)?;
        Ok(())
    }
}

impl RowCells for CategoricalChunked {
    ghost use Rattle.gb_rows.specs.Cells.{cells_of};

    ghost cells = { cells_of };

    fn put_cells<S: CellSink>(
        &self,
        start: usize,
        end: usize,
        sink: &mut S,
    ) -> Result<(), AllocError> {
        // The call tells the column's type.
        let _ = self.get_rev_map();
        self.physical().put_cells(start, end, sink)?;
        Ok(())
    }
}

impl RowCells for FlatSeries {
    ghost use Rattle.gb_flat_series.specs.FlatSeries.{column_of};
    ghost use Rattle.gb_rows.specs.Cells.{cells_of};

    ghost cells = { λ c. cells_of (column_of c) };

    fn put_cells<S: CellSink>(
        &self,
        start: usize,
        end: usize,
        sink: &mut S,
    ) -> Result<(), AllocError> {
        of_column!(self, column => column.put_cells(start, end, sink))
    }
}

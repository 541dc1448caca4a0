//! Keys that are lent, of whose rows several workers make some each.

ghost use Rattle.std.specs.Prelude.{◌≡◌};
ghost use Rattle.std.specs.List.{list_any};
ghost use Rattle.gb_rows.specs.Cells.{is_null_cell};
ghost use Rattle.gb_rows.specs.Keys.{key_cells};

use crate::cell_sink::CellSink;
use crate::keys::{KeyCells, cells_of_key};
use crate::row_cells::RowCells;
use gb_base::error::PolarsResult;
use gb_cols::series_trait::SeriesTrait;
use gb_series::series::Column;
use std::alloc::{AllocError, Global};

/// What gives the cells of a key that is lent, and whether one of them is a null's.
#[derive(Drop)]
pub(crate) struct LentKey<'a> {
    cells: KeyCells<'a>,
    has_nulls: bool,
    ghost nulls: { has_nulls ≡ list_any is_null_cell (key_cells cells) },
}

impl<'a> RowCells for LentKey<'a> {
    ghost use Rattle.gb_rows.specs.Lent.{lent_cells};

    ghost cells = { lent_cells };

    fn put_cells<S: CellSink>(
        &self,
        start: usize,
        end: usize,
        sink: &mut S,
    ) -> Result<(), AllocError> {
        self.cells.put_cells(start, end, sink)
    }
}

impl<'a> LentKey<'a> {
    ghost use Rattle.std.specs.Prelude.{IfOk, IfErr, OnOk};
    ghost use Rattle.gb_base.specs.PlSmallStr.{IsNoMemory};
    ghost use Rattle.gb_series.specs.Series.{value_of};
    ghost use Rattle.gb_rows.specs.Cells.{cells_of};
    ghost use Rattle.gb_rows.specs.Lent.{lent_cells};
    ghost use Rattle.gb_rows.specs.Told.{FitsType};

    /// The cells of a nested key are made for all its rows.
    pub(crate) fn new(key: &'a Column) -> PolarsResult<LentKey<'a>>
        ensures ok { IfOk result (λ made. lent_cells made ≡ cells_of (value_of key.now)) }
        ensures fits { OnOk result (FitsType (value_of key.now)) }
        ensures err { IfErr result IsNoMemory }
    {
        // The call tells that the slots fit the type.
        let _ = key.len();
        Ok(LentKey {
            cells: cells_of_key(key)?,
            has_nulls: key.has_nulls(),
        })
    }

    /// Whether a cell is a null's.
    pub(crate) fn has_nulls(&self) -> bool
        ensures { result ≡ list_any is_null_cell (lent_cells self.now) }
    {
        self.has_nulls
    }
}

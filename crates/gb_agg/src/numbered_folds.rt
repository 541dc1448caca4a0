//! Folds of columns from the number of each row's group: in one pass, with no list of rows.

ghost use Rattle.std.specs.Prelude.{◌≡◌, length};
ghost use Rattle.gb_defs.specs.Groups.{HasRowNumbers};
ghost use Rattle.gb_agg.specs.Picks.{IsPicked};
ghost use Rattle.gb_paths.specs.Numbering.{numbered};

use crate::fold_groups::FoldGroups;
use crate::numbered_counts::{numbered_counts, numbered_valid};
use crate::row_fold::{RowFold, fold_row_numbers};
use crate::row_pick::RowPick;
use crate::slot_fold::{ExtremeFold, SumFold, ValidFold, fold_numbered};
use gb_base::error::PolarsResult;
use gb_base::nullable_idx::IdxSize;
use gb_base::small_str::PlSmallStr;
use gb_cols::boolean::BooleanChunked;
use gb_cols::chunked::ChunkedArray;
use gb_cols::primitive::UInt32Chunked;
use gb_cols::series_trait::SeriesTrait;
use gb_groups::row_lists::AllRows;
use gb_numbers::numeric::PolarsNumericType;
use gb_paths::row_numbers::RowNumbers;
use gb_values::nullable::Values;
use gb_values::primitive::NumberValues;
use std::alloc::Global;

impl FoldGroups for RowNumbers {
    ghost grouping = { numbered };

    ghost suits = { λ numbers n. length numbers.of_rows.items ≡ n };

    fn number_sums<T: PolarsNumericType>(
        &self,
        name: PlSmallStr,
        column: &ChunkedArray<NumberValues<T>>,
    ) -> PolarsResult<ChunkedArray<NumberValues<T>>> {
        let alloc = column.allocator();
        let rows = AllRows::new(self.of_rows.len());
        let groups = self.first.len();
        let sums = fold_numbered(alloc, column, &SumFold, &rows, &self.of_rows, groups)?;
        let made = ChunkedArray::<NumberValues<T>>::from_slice(alloc, name, &sums)?;
        Ok(made)
    }

    fn number_extremes<T: PolarsNumericType>(
        &self,
        name: PlSmallStr,
        column: &ChunkedArray<NumberValues<T>>,
        greatest: bool,
    ) -> PolarsResult<ChunkedArray<NumberValues<T>>> {
        let alloc = column.allocator();
        let rows = AllRows::new(self.of_rows.len());
        let groups = self.first.len();
        let fold = ExtremeFold { greatest };
        let best = fold_numbered(alloc, column, &fold, &rows, &self.of_rows, groups)?;
        let made = ChunkedArray::<NumberValues<T>>::from_slice_options(alloc, name, &best)?;
        Ok(made)
    }

    fn flag_sums(&self, name: PlSmallStr, column: &BooleanChunked) -> PolarsResult<UInt32Chunked> {
        let alloc = column.allocator();
        let rows = AllRows::new(self.of_rows.len());
        let groups = self.first.len();
        let sums = fold_numbered(alloc, column, &SumFold, &rows, &self.of_rows, groups)?;
        let made = UInt32Chunked::from_slice(alloc, name, &sums)?;
        Ok(made)
    }

    fn row_counts(&self, alloc: Global, name: PlSmallStr) -> PolarsResult<UInt32Chunked> {
        numbered_counts(alloc, name, self)
    }

    fn valid_slots<V: Values>(
        &self,
        name: PlSmallStr,
        column: &ChunkedArray<V>,
    ) -> PolarsResult<UInt32Chunked> {
        let alloc = column.allocator();
        let rows = AllRows::new(self.of_rows.len());
        let groups = self.first.len();
        let counts = fold_numbered(alloc, column, &ValidFold, &rows, &self.of_rows, groups)?;
        let made = UInt32Chunked::from_slice_options(alloc, name, &counts)?;
        Ok(made)
    }

    fn valid_rows<C: SeriesTrait>(
        &self,
        name: PlSmallStr,
        column: &C,
    ) -> PolarsResult<UInt32Chunked> {
        numbered_valid(name, column, self)
    }

    fn pick_rows<P: RowPick>(&self, alloc: Global, pick: &P) -> PolarsResult<Vec<IdxSize>> {
        let rows = fold_row_numbers(alloc, &PickFold { pick }, self)?;
        Ok(rows)
    }
}

// A pick that takes rows one after another.
#[derive(Drop)]
struct PickFold<'a, P: RowPick> {
    pick: &'a P,
    ghost short: { HasRowNumbers (length (P.column pick.now).slots) },
}

impl<'a, P: RowPick> RowFold for PickFold<'a, P> {
    type State = IdxSize;

    ghost height = { λ fold. length (P.column fold.pick.now).slots };

    ghost holds = { λ fold. IsPicked (P.column fold.pick.now) (P.fold fold.pick.now) };

    fn start(&self) -> IdxSize {
        self.pick.none() as IdxSize
    }

    #[inline]
    fn with_row(&self, state: IdxSize, row: usize) -> IdxSize {
        let picked = state as usize;
        if picked >= self.pick.none() {
            return row as IdxSize;
        }
        if self.pick.prefers(row, picked) {
            row as IdxSize
        } else {
            state
        }
    }
}

//! Groups that columns are folded over: with lists of rows or with runs, or as the number of each row's group.

ghost use Rattle.std.specs.Prelude.{◌≡◌, ℕ, ◌<◌, All, false, length, IfOk, IfErr};
ghost use Rattle.gb_defs.specs.ColumnType.{Boolean, Flat, uint32};
ghost use Rattle.gb_defs.specs.Fold.{Count, Sum};
ghost use Rattle.gb_defs.specs.Groups.{AreMembers, Grouping, HasRowNumbers, lists_in};
ghost use Rattle.gb_base.specs.PlSmallStr.{IsNoMemory, name_of};
ghost use Rattle.gb_agg.specs.Folds.{extreme, fold_column, fold_in, rows_fold};
ghost use Rattle.gb_agg.specs.Picks.{ArePicks};

use crate::number_fold::{ExtremeOf, FlagSum, RowCount, SumOf, ValidCount, fold_groups};
use crate::row_pick::{RowPick, pick_groups};
use gb_base::error::PolarsResult;
use gb_base::nullable_idx::IdxSize;
use gb_base::small_str::PlSmallStr;
use gb_cols::boolean::BooleanChunked;
use gb_cols::chunked::ChunkedArray;
use gb_cols::primitive::UInt32Chunked;
use gb_cols::series_trait::SeriesTrait;
use gb_groups::view::GroupsView;
use gb_numbers::numeric::PolarsNumericType;
use gb_values::nullable::Values;
use gb_values::primitive::NumberValues;
use std::alloc::Global;

/// Groups that columns are folded over.
pub trait FoldGroups {
    // The groups.
    ghost grouping: { Self → Grouping };

    // Their rows are among so many.
    ghost suits: { Self → ℕ → Type 0 };

    /// The sum over the rows of each group, in the type of the numbers.
    fn number_sums<T: PolarsNumericType>(
        &self,
        name: PlSmallStr,
        column: &ChunkedArray<NumberValues<T>>,
    ) -> PolarsResult<ChunkedArray<NumberValues<T>>>
        requires { suits self.now (length column.now.slots) }
        ensures typed { column.now.dtype ≡ Flat T.Native.flat }
        ensures ok { let lists = lists_in (grouping self.now) in IfOk result (λ c.
            c ≡ fold_column (name_of name) (Flat T.Native.flat) (fold_in Sum column.now) lists) }
        ensures err { IfErr result IsNoMemory };

    /// The least number of each group, or the greatest.
    fn number_extremes<T: PolarsNumericType>(
        &self,
        name: PlSmallStr,
        column: &ChunkedArray<NumberValues<T>>,
        greatest: bool,
    ) -> PolarsResult<ChunkedArray<NumberValues<T>>>
        requires { suits self.now (length column.now.slots) }
        ensures typed { column.now.dtype ≡ Flat T.Native.flat }
        ensures ok { let lists = lists_in (grouping self.now) in
            let fold = fold_in (extreme greatest) column.now in IfOk result (λ c.
            c ≡ fold_column (name_of name) (Flat T.Native.flat) fold lists) }
        ensures err { IfErr result IsNoMemory };

    /// How many flags are true at the rows of each group.
    fn flag_sums(&self, name: PlSmallStr, column: &BooleanChunked) -> PolarsResult<UInt32Chunked>
        requires { suits self.now (length column.now.slots) }
        ensures typed { column.now.dtype ≡ Flat Boolean }
        ensures ok { let lists = lists_in (grouping self.now) in IfOk result (λ c.
            c ≡ fold_column (name_of name) uint32 (fold_in Sum column.now) lists) }
        ensures err { IfErr result IsNoMemory };

    /// How many rows each group has.
    fn row_counts(&self, alloc: Global, name: PlSmallStr) -> PolarsResult<UInt32Chunked>
        requires { (n : ℕ) × HasRowNumbers n × suits self.now n }
        ensures ok { let lists = lists_in (grouping self.now) in IfOk result (λ c.
            c ≡ fold_column (name_of name) uint32 rows_fold lists) }
        ensures err { IfErr result IsNoMemory };

    /// How many valid slots of a column each group has.
    fn valid_slots<V: Values>(
        &self,
        name: PlSmallStr,
        column: &ChunkedArray<V>,
    ) -> PolarsResult<UInt32Chunked>
        requires suits { suits self.now (length column.now.slots) }
        requires short { HasRowNumbers (length column.now.slots) }
        ensures ok { let lists = lists_in (grouping self.now) in IfOk result (λ c.
            c ≡ fold_column (name_of name) uint32 (fold_in (Count false) column.now) lists) }
        ensures err { IfErr result IsNoMemory };

    /// The same of a column of any type, row by row.
    fn valid_rows<C: SeriesTrait>(
        &self,
        name: PlSmallStr,
        column: &C,
    ) -> PolarsResult<UInt32Chunked>
        requires suits { suits self.now (length (C.value column.now).slots) }
        requires short { HasRowNumbers (length (C.value column.now).slots) }
        ensures ok { let lists = lists_in (grouping self.now) in
            let fold = fold_in (Count false) (C.value column.now) in IfOk result (λ c.
            c ≡ fold_column (name_of name) uint32 fold lists) }
        ensures err { IfErr result IsNoMemory };

    /// The row that is picked of each group.
    fn pick_rows<P: RowPick>(&self, alloc: Global, pick: &P) -> PolarsResult<Vec<IdxSize>>
        requires suits { suits self.now (length (P.column pick.now).slots) }
        requires short { HasRowNumbers (length (P.column pick.now).slots) }
        ensures ok { IfOk result (λ rows. ArePicks (P.column pick.now) (P.fold pick.now)
            (lists_in (grouping self.now)) rows.items) }
        ensures err { IfErr result IsNoMemory };
}

impl<'a> FoldGroups for GroupsView<'a> {
    ghost grouping = { λ groups. groups };

    ghost suits = { λ groups n. All (AreMembers n) (lists_in groups)
        × HasRowNumbers (length groups.pairs) };

    fn number_sums<T: PolarsNumericType>(
        &self,
        name: PlSmallStr,
        column: &ChunkedArray<NumberValues<T>>,
    ) -> PolarsResult<ChunkedArray<NumberValues<T>>> {
        let alloc = column.allocator();
        fold_groups(alloc, name, &SumOf::new(column), self)
    }

    fn number_extremes<T: PolarsNumericType>(
        &self,
        name: PlSmallStr,
        column: &ChunkedArray<NumberValues<T>>,
        greatest: bool,
    ) -> PolarsResult<ChunkedArray<NumberValues<T>>> {
        let alloc = column.allocator();
        fold_groups(alloc, name, &ExtremeOf::new(column, greatest), self)
    }

    fn flag_sums(&self, name: PlSmallStr, column: &BooleanChunked) -> PolarsResult<UInt32Chunked> {
        let alloc = column.allocator();
        fold_groups(alloc, name, &FlagSum::new(column), self)
    }

    fn row_counts(&self, alloc: Global, name: PlSmallStr) -> PolarsResult<UInt32Chunked> {
        fold_groups(alloc, name, &RowCount, self)
    }

    fn valid_slots<V: Values>(
        &self,
        name: PlSmallStr,
        column: &ChunkedArray<V>,
    ) -> PolarsResult<UInt32Chunked> {
        fold_groups(column.allocator(), name, &ValidCount::new(column), self)
    }

    fn valid_rows<C: SeriesTrait>(
        &self,
        name: PlSmallStr,
        column: &C,
    ) -> PolarsResult<UInt32Chunked> {
        fold_groups(column.allocator(), name, &ValidCount::new(column), self)
    }

    fn pick_rows<P: RowPick>(&self, alloc: Global, pick: &P) -> PolarsResult<Vec<IdxSize>> {
        pick_groups(alloc, pick, self)
    }
}

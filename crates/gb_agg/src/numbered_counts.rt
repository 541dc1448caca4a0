//! How many rows, and how many valid slots, each group has.

ghost use Rattle.std.specs.Prelude.{◌≡◌, ◌<◌, false, length, IfErr, IfOk};
ghost use Rattle.gb_defs.specs.Column.{ColumnValue};
ghost use Rattle.gb_defs.specs.ColumnType.{uint32};
ghost use Rattle.gb_defs.specs.Fold.{Count, picked};
ghost use Rattle.gb_defs.specs.Groups.{HasRowNumbers, lists_in};
ghost use Rattle.gb_base.specs.PlSmallStr.{IsNoMemory, name_of};
ghost use Rattle.gb_agg.specs.Folds.{fold_column, fold_in, rows_fold};
ghost use Rattle.gb_agg.specs.Numbered.{HoldsCount};
ghost use Rattle.gb_paths.specs.Numbering.{numbered};

use crate::fold_groups::FoldGroups;
use crate::row_fold::{RowFold, fold_row_numbers};
use crate::slot_fold::with_validity;
use gb_base::error::PolarsResult;
use gb_base::small_str::PlSmallStr;
use gb_cols::chunked::ChunkedArray;
use gb_cols::null::NullChunked;
use gb_cols::primitive::UInt32Chunked;
use gb_cols::series_trait::SeriesTrait;
use gb_groups::row_lists::row_counts;
use gb_logical::categorical::CategoricalChunked;
use gb_logical::logical::{Logical, LogicalKind};
use gb_paths::row_numbers::RowNumbers;
use gb_values::nullable::Values;
use std::alloc::Global;

/// A column of a flat type, whose valid slots are counted.
pub trait GroupCounts {
    // The column.
    ghost column: { Self → ColumnValue };

    /// How many valid slots each group has.
    fn group_counts<G: FoldGroups>(
        &self,
        name: PlSmallStr,
        groups: &G,
    ) -> PolarsResult<UInt32Chunked>
        requires suits { G.suits groups.now (length (column self.now).slots) }
        requires short { HasRowNumbers (length (column self.now).slots) }
        ensures ok { let lists = lists_in (G.grouping groups.now) in IfOk result (λ counts.
            counts ≡ fold_column (name_of name) uint32 (fold_in (Count false) (column self.now))
            lists) }
        ensures err { IfErr result IsNoMemory };
}

impl<V: Values> GroupCounts for ChunkedArray<V> {
    ghost column = { λ c. c };

    fn group_counts<G: FoldGroups>(
        &self,
        name: PlSmallStr,
        groups: &G,
    ) -> PolarsResult<UInt32Chunked> {
        groups.valid_slots(name, self)
    }
}

impl<K: LogicalKind> GroupCounts for Logical<K> {
    ghost column = { λ c. c };

    fn group_counts<G: FoldGroups>(
        &self,
        name: PlSmallStr,
        groups: &G,
    ) -> PolarsResult<UInt32Chunked> {
        groups.valid_slots(name, self.physical())
    }
}

impl GroupCounts for CategoricalChunked {
    ghost column = { λ c. c };

    fn group_counts<G: FoldGroups>(
        &self,
        name: PlSmallStr,
        groups: &G,
    ) -> PolarsResult<UInt32Chunked> {
        groups.valid_slots(name, self.physical())
    }
}

impl GroupCounts for NullChunked {
    ghost column = { λ c. c };

    fn group_counts<G: FoldGroups>(
        &self,
        name: PlSmallStr,
        groups: &G,
    ) -> PolarsResult<UInt32Chunked> {
        groups.valid_rows(name, self)
    }
}

// The number of valid slots by the rows of a column of any type, none for no rows.
#[derive(Drop)]
struct ValidRows<'a, C: SeriesTrait> {
    column: &'a C,
}

impl<'a, C: SeriesTrait> RowFold for ValidRows<'a, C> {
    type State = Option<u32>;

    ghost height = { λ fold. length (C.value fold.column.now).slots };

    ghost holds = { λ fold rows. HoldsCount (picked (C.value fold.column.now).slots rows) };

    fn start(&self) -> Option<u32> {
        None
    }

    #[inline]
    fn with_row(&self, count: Option<u32>, row: usize) -> Option<u32> {
        with_validity(count, self.column.is_valid(row))
    }
}

/// How many valid slots of a column of any type each group has.
pub(crate) fn numbered_valid<C: SeriesTrait>(
    name: PlSmallStr,
    column: &C,
    numbers: &RowNumbers,
) -> PolarsResult<UInt32Chunked>
    requires { length numbers.now.of_rows.items ≡ length (C.value column.now).slots }
    ensures ok { let lists = lists_in (numbered numbers.now) in IfOk result (λ counts.
        counts ≡ fold_column (name_of name) uint32 (fold_in (Count false) (C.value column.now))
        lists) }
    ensures err { IfErr result IsNoMemory }
{
    let alloc = column.allocator();
    let counts = fold_row_numbers(alloc, &ValidRows { column }, numbers)?;
    let made = UInt32Chunked::from_slice_options(alloc, name, &counts)?;
    Ok(made)
}

/// How many rows each group has.
pub(crate) fn numbered_counts(
    alloc: Global,
    name: PlSmallStr,
    numbers: &RowNumbers,
) -> PolarsResult<UInt32Chunked>
    ensures ok { let lists = lists_in (numbered numbers.now) in IfOk result (λ counts.
        counts ≡ fold_column (name_of name) uint32 rows_fold lists) }
    ensures err { IfErr result IsNoMemory }
{
    let counts = row_counts(alloc, &numbers.of_rows, numbers.first.len())?;
    let made = UInt32Chunked::from_slice(alloc, name, &counts)?;
    Ok(made)
}

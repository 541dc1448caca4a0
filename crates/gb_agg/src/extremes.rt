//! The least and the greatest slot of each group, by what a column's values are.

ghost use Rattle.std.specs.Prelude.{◌≡◌, ◌<◌, IfErr, IfOk, length, true};
ghost use Rattle.gb_defs.specs.Column.{ColumnValue};
ghost use Rattle.gb_defs.specs.Fault.{has_least};
ghost use Rattle.gb_defs.specs.Groups.{AreMembers, HasRowNumbers, lists_in};
ghost use Rattle.gb_defs.specs.Slot.{slot_at};
ghost use Rattle.gb_base.specs.PlSmallStr.{IsNoMemory};
ghost use Rattle.gb_agg.specs.Folds.{extreme, fold_in, folded};

use crate::fold_groups::FoldGroups;
use crate::fold_order::FoldOrder;
use crate::group_rows::GroupRows;
use crate::row_pick::{RowPick, take_picks};
use gb_base::error::PolarsResult;
use gb_cols::binary::{BinaryChunked, BinaryOffsetChunked};
use gb_cols::boolean::BooleanChunked;
use gb_cols::chunked::{ChunkedArray, StringChunked};
use gb_cols::null::NullChunked;
use gb_cols::series_trait::SeriesTrait;
use gb_logical::categorical::CategoricalChunked;
use gb_logical::logical::{Logical, LogicalKind};
use gb_numbers::numeric::PolarsNumericType;
use gb_values::primitive::NumberValues;

/// A column that may have a least and a greatest slot.
pub trait GroupExtremes {
    // The column.
    // `SeriesTrait` is no part of it: the checker refuses such a trait for a column of flags.
    ghost column: { Self → ColumnValue };

    /// Whether the column's type has a least slot.
    fn has_least(&self) -> bool
        ensures { result ≡ has_least (column self.now).dtype };

    /// The least slot of each group, or the greatest.
    fn group_extremes<G: FoldGroups>(&self, greatest: bool, groups: &G) -> PolarsResult<Self>
        requires ordered { has_least (column self.now).dtype ≡ true }
        requires suits { G.suits groups.now (length (column self.now).slots) }
        requires short { HasRowNumbers (length (column self.now).slots) }
        ensures ok { let lists = lists_in (G.grouping groups.now) in IfOk result (λ found.
            column found ≡ folded (extreme greatest) (column self.now) lists) }
        ensures err { IfErr result IsNoMemory };
}

impl<T: PolarsNumericType> GroupExtremes for ChunkedArray<NumberValues<T>> {
    ghost column = { λ c. c };

    fn has_least(&self) -> bool {
        // The name tells the type.
        let _ = self.name();
        true
    }

    fn group_extremes<G: FoldGroups>(&self, greatest: bool, groups: &G) -> PolarsResult<Self> {
        let name = self.name().try_clone()?;
        groups.number_extremes(name, self, greatest)
    }
}

impl<K: LogicalKind> GroupExtremes for Logical<K> {
    ghost column = { λ c. c };

    fn has_least(&self) -> bool {
        // The kind tells the type.
        let _ = self.kind();
        true
    }

    fn group_extremes<G: FoldGroups>(&self, greatest: bool, groups: &G) -> PolarsResult<Self> {
        let kind = self.kind();
        let name = self.name().try_clone()?;
        let found = groups.number_extremes(name, self.physical(), greatest)?;
        Ok(Logical::with_kind(found, kind))
    }
}

impl GroupExtremes for NullChunked {
    ghost column = { λ c. c };

    fn has_least(&self) -> bool {
        // The allocator tells the type.
        let _ = self.allocator();
        false
    }

    fn group_extremes<G: FoldGroups>(&self, _greatest: bool, _groups: &G) -> PolarsResult<Self> {
        let _ = self.allocator();
        unreachable!()
    }
}

impl GroupExtremes for BooleanChunked {
    ghost column = { λ c. c };

    fn has_least(&self) -> bool {
        let _ = self.name();
        true
    }

    fn group_extremes<G: FoldGroups>(&self, greatest: bool, groups: &G) -> PolarsResult<Self> {
        picked_extremes(self, greatest, groups)
    }
}

impl GroupExtremes for StringChunked {
    ghost column = { λ c. c };

    fn has_least(&self) -> bool {
        let _ = self.name();
        true
    }

    fn group_extremes<G: FoldGroups>(&self, greatest: bool, groups: &G) -> PolarsResult<Self> {
        picked_extremes(self, greatest, groups)
    }
}

impl GroupExtremes for BinaryChunked {
    ghost column = { λ c. c };

    fn has_least(&self) -> bool {
        let _ = self.name();
        true
    }

    fn group_extremes<G: FoldGroups>(&self, greatest: bool, groups: &G) -> PolarsResult<Self> {
        picked_extremes(self, greatest, groups)
    }
}

impl GroupExtremes for BinaryOffsetChunked {
    ghost column = { λ c. c };

    fn has_least(&self) -> bool {
        let _ = self.name();
        true
    }

    fn group_extremes<G: FoldGroups>(&self, greatest: bool, groups: &G) -> PolarsResult<Self> {
        picked_extremes(self, greatest, groups)
    }
}

impl GroupExtremes for CategoricalChunked {
    ghost column = { λ c. c };

    fn has_least(&self) -> bool {
        // The map tells that the type is one of categories.
        let _ = self.get_rev_map();
        true
    }

    fn group_extremes<G: FoldGroups>(&self, greatest: bool, groups: &G) -> PolarsResult<Self> {
        picked_extremes(self, greatest, groups)
    }
}

// The slots at the rows of the least ones, or of the greatest. Rows are compared that stand anywhere, so that several
// chunks are put into one before.
fn picked_extremes<C: FoldOrder + SeriesTrait, G: FoldGroups>(
    column: &C,
    greatest: bool,
    groups: &G,
) -> PolarsResult<C>
    requires column { (c : C) → C.column c ≡ C.value c }
    requires suits { G.suits groups.now (length (C.value column.now).slots) }
    requires short { HasRowNumbers (length (C.value column.now).slots) }
    ensures ok { let lists = lists_in (G.grouping groups.now) in IfOk result (λ found.
        C.value found ≡ folded (extreme greatest) (C.value column.now) lists) }
    ensures err { IfErr result IsNoMemory }
{
    if column.n_chunks() == 1 {
        return whole_extremes(column, greatest, groups);
    }
    let whole = column.rechunk()?;
    whole_extremes(&whole, greatest, groups)
}

// The same of a column in one chunk.
fn whole_extremes<C: FoldOrder + SeriesTrait, G: FoldGroups>(
    column: &C,
    greatest: bool,
    groups: &G,
) -> PolarsResult<C>
    requires column { C.column column.now ≡ C.value column.now }
    requires suits { G.suits groups.now (length (C.value column.now).slots) }
    requires short { HasRowNumbers (length (C.value column.now).slots) }
    ensures ok { let lists = lists_in (G.grouping groups.now) in IfOk result (λ found.
        C.value found ≡ folded (extreme greatest) (C.value column.now) lists) }
    ensures err { IfErr result IsNoMemory }
{
    let rows = groups.pick_rows(column.allocator(), &ExtremeRow { column, greatest })?;
    take_picks(column, &rows)
}

// The row of the least slot, or of the greatest.
#[derive(Drop)]
struct ExtremeRow<'a, C: FoldOrder> {
    column: &'a C,
    greatest: bool,
}

impl<'a, C: FoldOrder> RowPick for ExtremeRow<'a, C> {
    ghost column = { λ pick. C.column pick.column.now };

    ghost fold = { λ pick. fold_in (extreme pick.greatest) (C.column pick.column.now) };

    fn over<R: GroupRows>(&self, rows: &R) -> usize {
        if rows.count() == 0 {
            self.column.row_count()
        } else {
            extreme_row(self.column, self.greatest, rows)
        }
    }

    fn none(&self) -> usize {
        self.column.row_count()
    }

    fn prefers(&self, row: usize, picked: usize) -> bool {
        self.column.is_better(self.greatest, row, picked)
    }
}

// The first row of those of the least slot, or of the greatest. It is a null's where all are null.
fn extreme_row<C: FoldOrder, R: GroupRows>(column: &C, greatest: bool, rows: &R) -> usize
    requires some { 0 < length (R.rows rows.now) }
    requires members { AreMembers (length (C.column column.now).slots) (R.rows rows.now) }
    ensures inside { result < length (C.column column.now).slots }
    ensures picked { slot_at (C.column column.now).slots result
        ≡ fold_in (extreme greatest) (C.column column.now) (R.rows rows.now) }
{
    let mut best = rows.row_at(0);
    for place in 1..rows.count() {
        let row = rows.row_at(place);
        if column.is_better(greatest, row, best) {
            best = row;
        }
    }
    best
}

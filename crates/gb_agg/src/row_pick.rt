//! Folds that pick one of the rows of a group, whose slot is then taken.

ghost use Rattle.std.specs.Prelude.{◌≡◌, ℕ, ◌<◌, ◌≤◌, ◌++◌, ◌∷◌, [], List, length, All, IfErr, IfOk, if◌then◌else◌};
ghost use Rattle.gb_defs.specs.Column.{ColumnValue, taken};
ghost use Rattle.gb_defs.specs.Fold.{First, Last};
ghost use Rattle.gb_defs.specs.Groups.{AreMembers, HasRowNumbers, lists_in};
ghost use Rattle.gb_defs.specs.Slot.{Slot, slot_at};
ghost use Rattle.gb_base.specs.PlSmallStr.{IsNoMemory};
ghost use Rattle.gb_groups.specs.GroupsIndicator.{pair_of};
ghost use Rattle.gb_agg.specs.Folds.{fold_in};
ghost use Rattle.gb_agg.specs.Picks.{ArePicks, IsPick};

use crate::group_rows::{GroupRows, RowList, RowRun};
use gb_base::error::PolarsResult;
use gb_base::nullable_idx::IdxSize;
use gb_cols::series_trait::SeriesTrait;
use gb_groups::groups_type::GroupsIndicator;
use gb_groups::view::GroupsView;
use std::alloc::Global;

/// What picks one of some rows of a column.
pub trait RowPick {
    // The column.
    ghost column: { Self → ColumnValue };

    // What is picked of these rows.
    ghost fold: { Self → List ℕ → Slot };

    /// The row that is picked, and the row behind the column's last one where none is.
    fn over<R: GroupRows>(&self, rows: &R) -> usize
        requires { AreMembers (length (column self.now).slots) (R.rows rows.now) }
        ensures inside { IsPick (column self.now) result }
        ensures picked { slot_at (column self.now).slots result ≡ fold self.now (R.rows rows.now) };

    /// The row behind the column's last one, which is picked of no rows.
    fn none(&self) -> usize
        ensures behind { result ≡ length (column self.now).slots }
        ensures of_none { slot_at (column self.now).slots result ≡ fold self.now [] }
        ensures of_one { (row : ℕ)
            → slot_at (column self.now).slots row ≡ fold self.now (row ∷ []) };

    /// Whether a row behind some rows is picked in the place of the one that was picked of them.
    fn prefers(&self, row: usize, picked: usize) -> bool
        requires row { row < length (column self.now).slots }
        requires picked { picked < length (column self.now).slots }
        ensures { (rows : List ℕ) → 0 < length rows
            → slot_at (column self.now).slots picked ≡ fold self.now rows
            → slot_at (column self.now).slots (if result then row else picked)
            ≡ fold self.now (rows ++ row ∷ []) };
}

/// The first of the rows.
#[derive(Drop)]
pub struct FirstRow<'a, C: SeriesTrait> {
    column: &'a C,
}

impl<'a, C: SeriesTrait> FirstRow<'a, C> {
    pub fn new(column: &'a C) -> FirstRow<'a, C>
        ensures { result.column.now ≡ column.now }
    {
        FirstRow { column }
    }
}

impl<'a, C: SeriesTrait> RowPick for FirstRow<'a, C> {
    ghost column = { λ pick. C.value pick.column.now };

    ghost fold = { λ pick. fold_in First (C.value pick.column.now) };

    fn over<R: GroupRows>(&self, rows: &R) -> usize {
        if rows.count() == 0 {
            self.column.len()
        } else {
            rows.row_at(0)
        }
    }

    fn none(&self) -> usize {
        self.column.len()
    }

    fn prefers(&self, _row: usize, _picked: usize) -> bool {
        false
    }
}

/// The last of the rows.
#[derive(Drop)]
pub struct LastRow<'a, C: SeriesTrait> {
    column: &'a C,
}

impl<'a, C: SeriesTrait> LastRow<'a, C> {
    pub fn new(column: &'a C) -> LastRow<'a, C>
        ensures { result.column.now ≡ column.now }
    {
        LastRow { column }
    }
}

impl<'a, C: SeriesTrait> RowPick for LastRow<'a, C> {
    ghost column = { λ pick. C.value pick.column.now };

    ghost fold = { λ pick. fold_in Last (C.value pick.column.now) };

    fn over<R: GroupRows>(&self, rows: &R) -> usize {
        let count = rows.count();
        if count == 0 {
            self.column.len()
        } else {
            rows.row_at(count - 1)
        }
    }

    fn none(&self) -> usize {
        self.column.len()
    }

    fn prefers(&self, _row: usize, _picked: usize) -> bool {
        true
    }
}

/// The row that is picked of each group.
pub fn pick_groups<P: RowPick>(
    alloc: Global,
    pick: &P,
    groups: &GroupsView<'_>,
) -> PolarsResult<Vec<IdxSize>>
    requires rows { All (AreMembers (length (P.column pick.now).slots)) (lists_in groups.now) }
    requires short { HasRowNumbers (length (P.column pick.now).slots) }
    ensures ok { IfOk result (λ rows. ArePicks (P.column pick.now) (P.fold pick.now)
        (lists_in groups.now) rows.items) }
    ensures err { IfErr result IsNoMemory }
{
    let mut rows = Vec::with_capacity(alloc, groups.len())?;
    for place in 0..groups.len() {
        rows.push(pick_group(pick, &groups.get(place)))?;
    }
    Ok(rows)
}

// The row that is picked of one group.
fn pick_group<P: RowPick>(pick: &P, group: &GroupsIndicator<'_>) -> IdxSize
    requires members { AreMembers (length (P.column pick.now).slots) (pair_of group.now).1 }
    requires short { HasRowNumbers (length (P.column pick.now).slots) }
    ensures inside { IsPick (P.column pick.now) result }
    ensures picked { slot_at (P.column pick.now).slots result
        ≡ P.fold pick.now (pair_of group.now).1 }
{
    let row = match group {
        GroupsIndicator::Idx((_, rows)) => pick.over(&RowList::new(rows)),
        GroupsIndicator::Slice([start, count]) => pick.over(&RowRun::new(*start, *count)),
    };
    row as IdxSize
}

/// The slots of these rows, in one chunk, a null behind the column's last row. The column is copied where there
/// is such a row.
pub fn take_picks<C: SeriesTrait>(column: &C, rows: &[IdxSize]) -> PolarsResult<C>
    requires inside { All (IsPick (C.value column.now)) rows.now }
    requires short { HasRowNumbers (length (C.value column.now).slots) }
    ensures ok { IfOk result (λ c. C.value c ≡ taken rows.now (C.value column.now)) }
    ensures err { IfErr result IsNoMemory }
{
    let height = column.len();
    if rows.iter().all(|row| (*row as usize) < height) {
        return column.take(rows);
    }
    let mut longer = column.try_clone()?;
    longer.push_null()?;
    longer.take(rows)
}

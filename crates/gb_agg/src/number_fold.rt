//! Folds that make a number, or null, of the rows of a group.

ghost use Rattle.std.specs.Prelude.{◌≡◌, ℕ, ◌<◌, List, length, All, IfErr, IfOk, false};
ghost use Rattle.gb_defs.specs.ColumnType.{Boolean, Flat};
ghost use Rattle.gb_defs.specs.Slot.{Slot};
ghost use Rattle.gb_defs.specs.Fold.{valid, picked, Count, Sum, fold_of};
ghost use Rattle.gb_defs.specs.Groups.{AreMembers, HasRowNumbers, lists_in};
ghost use Rattle.gb_base.specs.PlSmallStr.{IsNoMemory, name_of};
ghost use Rattle.gb_values.specs.Array.{native_slot};
ghost use Rattle.gb_groups.specs.GroupsIndicator.{pair_of};
ghost use Rattle.gb_agg.specs.Folds.{extreme, fold_column, fold_in, rows_fold};

use crate::group_rows::{GroupRows, RowList, RowRun};
use crate::slot_fold::{ExtremeFold, SumFold, fold_rows};
use gb_base::error::PolarsResult;
use gb_base::small_str::PlSmallStr;
use gb_cols::boolean::BooleanChunked;
use gb_cols::chunked::ChunkedArray;
use gb_cols::series_trait::SeriesTrait;
use gb_groups::groups_type::GroupsIndicator;
use gb_groups::view::GroupsView;
use gb_numbers::numeric::{PolarsNumericType, UInt32Type};
use gb_values::primitive::NumberValues;
use std::alloc::Global;

/// What makes a number, or null, of some rows.
pub trait NumberFold {
    type Out: PolarsNumericType;

    // What is made of these rows.
    ghost fold: { Self → List ℕ → Slot };

    // The rows are below it.
    ghost height: { Self → ℕ };

    fn over<R: GroupRows>(&self, rows: &R) -> Option<<Self::Out as PolarsNumericType>::Native>
        requires { AreMembers (height self.now) (R.rows rows.now) }
        ensures { native_slot Self.Out.Native.number result ≡ fold self.now (R.rows rows.now) };
}

/// The fold over each group, as a column.
pub fn fold_groups<F: NumberFold>(
    alloc: Global,
    name: PlSmallStr,
    fold: &F,
    groups: &GroupsView<'_>,
) -> PolarsResult<ChunkedArray<NumberValues<F::Out>>>
    requires rows { All (AreMembers (F.height fold.now)) (lists_in groups.now) }
    requires few { HasRowNumbers (length groups.now.pairs) }
    ensures ok { IfOk result (λ c. c ≡ fold_column (name_of name) (Flat F.Out.Native.flat)
        (F.fold fold.now) (lists_in groups.now)) }
    ensures err { IfErr result IsNoMemory }
{
    let mut folded: ChunkedArray<NumberValues<F::Out>> = ChunkedArray::new(alloc, name);
    folded.reserve(groups.len())?;
    for place in 0..groups.len() {
        folded.push(fold_group(fold, &groups.get(place)))?;
    }
    Ok(folded)
}

/// The fold over the rows of one group.
pub fn fold_group<F: NumberFold>(
    fold: &F,
    group: &GroupsIndicator<'_>,
) -> Option<<F::Out as PolarsNumericType>::Native>
    requires { AreMembers (F.height fold.now) (pair_of group.now).1 }
    ensures { native_slot F.Out.Native.number result ≡ F.fold fold.now (pair_of group.now).1 }
{
    match group {
        GroupsIndicator::Idx((_, rows)) => fold.over(&RowList::new(rows)),
        GroupsIndicator::Slice([start, count]) => fold.over(&RowRun::new(*start, *count)),
    }
}

/// The sum of a column of numbers, wrapped in its type.
#[derive(Drop)]
pub struct SumOf<'a, T: PolarsNumericType> {
    column: &'a ChunkedArray<NumberValues<T>>,
}

impl<'a, T: PolarsNumericType> SumOf<'a, T> {
    pub fn new(column: &'a ChunkedArray<NumberValues<T>>) -> SumOf<'a, T>
        ensures { result.column.now ≡ column.now }
    {
        SumOf { column }
    }
}

#[tactic(auto, unfolding(gb_defs::specs::Fold::fold_picked))]
impl<'a, T: PolarsNumericType> NumberFold for SumOf<'a, T> {
    type Out = T;

    ghost fold = { λ f. fold_of Sum (Flat T.Native.flat) f.column.now.slots };

    ghost height = { λ f. length f.column.now.slots };

    fn over<R: GroupRows>(&self, rows: &R) -> Option<T::Native> {
        let sum = fold_rows(self.column, &SumFold, rows);
        Some(sum)
    }
}

/// The least of a column of numbers, or the greatest, null where all are null.
#[derive(Drop)]
pub struct ExtremeOf<'a, T: PolarsNumericType> {
    column: &'a ChunkedArray<NumberValues<T>>,
    greatest: bool,
}

impl<'a, T: PolarsNumericType> ExtremeOf<'a, T> {
    pub fn new(column: &'a ChunkedArray<NumberValues<T>>, greatest: bool) -> ExtremeOf<'a, T>
        ensures column { result.column.now ≡ column.now }
        ensures greatest { result.greatest ≡ greatest }
    {
        ExtremeOf { column, greatest }
    }
}

impl<'a, T: PolarsNumericType> NumberFold for ExtremeOf<'a, T> {
    type Out = T;

    ghost fold = { λ f. fold_of (extreme f.greatest) (Flat T.Native.flat) f.column.now.slots };

    ghost height = { λ f. length f.column.now.slots };

    fn over<R: GroupRows>(&self, rows: &R) -> Option<T::Native> {
        let fold = ExtremeFold {
            greatest: self.greatest,
        };
        fold_rows(self.column, &fold, rows)
    }
}

/// How many flags of a column are true, wrapped in 32 bits.
#[derive(Drop)]
pub struct FlagSum<'a> {
    column: &'a BooleanChunked,
}

impl<'a> FlagSum<'a> {
    pub fn new(column: &'a BooleanChunked) -> FlagSum<'a>
        ensures { result.column.now ≡ column.now }
    {
        FlagSum { column }
    }
}

#[tactic(auto, unfolding(gb_defs::specs::Fold::fold_picked))]
impl<'a> NumberFold for FlagSum<'a> {
    type Out = UInt32Type;

    ghost fold = { λ f. fold_of Sum (Flat Boolean) f.column.now.slots };

    ghost height = { λ f. length f.column.now.slots };

    fn over<R: GroupRows>(&self, rows: &R) -> Option<u32> {
        let trues = fold_rows(self.column, &SumFold, rows);
        Some(trues)
    }
}

/// The number of rows.
#[derive(Drop)]
pub struct RowCount;

impl NumberFold for RowCount {
    type Out = UInt32Type;

    ghost fold = { λ _. rows_fold };

    // Rows are numbers of 32 bits.
    ghost height = { λ _. 4294967295 };

    fn over<R: GroupRows>(&self, rows: &R) -> Option<u32> {
        Some(rows.count() as u32)
    }
}

/// The number of rows that are not null in a column, null for no rows.
#[derive(Drop)]
pub struct ValidCount<'a, C: SeriesTrait> {
    column: &'a C,
    ghost short: { HasRowNumbers (length (C.value column.now).slots) },
}

impl<'a, C: SeriesTrait> ValidCount<'a, C> {
    pub fn new(column: &'a C) -> ValidCount<'a, C>
        requires { HasRowNumbers (length (C.value column.now).slots) }
        ensures { result.column.now ≡ column.now }
    {
        ValidCount { column }
    }
}

#[tactic(auto, unfolding(gb_defs::specs::Fold::fold_picked))]
impl<'a, C: SeriesTrait> NumberFold for ValidCount<'a, C> {
    type Out = UInt32Type;

    ghost fold = { λ f. fold_in (Count false) (C.value f.column.now) };

    ghost height = { λ f. length (C.value f.column.now).slots };

    fn over<R: GroupRows>(&self, rows: &R) -> Option<u32> {
        if rows.count() == 0 {
            None
        } else {
            Some(valid_at(self.column, rows))
        }
    }
}

// The number of valid slots at these rows.
fn valid_at<C: SeriesTrait, R: GroupRows>(column: &C, rows: &R) -> u32
    requires rows { AreMembers (length (C.value column.now).slots) (R.rows rows.now) }
    requires short { HasRowNumbers (length (C.value column.now).slots) }
    ensures { result ≡ length (valid (picked (C.value column.now).slots (R.rows rows.now))) }
{
    let mut count = 0;
    for place in 0..rows.count() {
        if column.is_valid(rows.row_at(place)) {
            count += 1;
        }
    }
    count
}

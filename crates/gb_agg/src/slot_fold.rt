//! Folds that take the slots of a column one after another: those of a list of rows, or all of a column at once,
//! each into what is known of its row's group.

ghost use Rattle.std.specs.Prelude.{◌≡◌, ◌<◌, ◌++◌, ◌∷◌, [], All, IfOk, List, length, pos, if◌then◌else◌};
ghost use Rattle.gb_defs.specs.ColumnType.{Boolean, Flat};
ghost use Rattle.gb_defs.specs.Fold.{is_valid, picked, total, valid, wrap};
ghost use Rattle.gb_defs.specs.Slot.{Num, Slot, slot_at};
ghost use Rattle.gb_values.specs.Array.{native_slot};
ghost use Rattle.gb_agg.specs.Extremes.{extreme_of, is_better};
ghost use Rattle.gb_agg.specs.Numbered.{HoldEach, HoldsCount};

use crate::group_rows::GroupRows;
use crate::row_fold::repeated;
use gb_cols::chunked::ChunkedArray;
use gb_cols::near_chunk::NearChunk;
use gb_groups::row_lists::Members;
use gb_numbers::numeric::{Native, PolarsNumericType};
use gb_values::boolean::FlagValues;
use gb_values::nullable::{NullableArray, Values};
use gb_values::primitive::NumberValues;
use std::alloc::{AllocError, Global};

/// What takes slots one after another.
pub trait SlotFold<V: Values> {
    /// What is known of the slots so far.
    type State: Copy;

    // That it is known of these slots.
    ghost holds: { Self → List Slot → Self.State → Type 0 };

    /// Before any slot.
    fn start(&self) -> Self::State
        ensures { holds self.now [] result };

    /// With one slot more.
    fn with_slot(&self, state: Self::State, chunk: &NullableArray<V>, at: usize) -> Self::State
        requires { at < length chunk.now }
        ensures { (slots : List Slot) → holds self.now slots state
            → holds self.now (slots ++ slot_at chunk.now at ∷ []) result };
}

/// The sum of numbers, wrapped in their type, or how many flags are true, wrapped in 32 bits.
#[derive(Drop)]
pub struct SumFold;

impl<T: PolarsNumericType> SlotFold<NumberValues<T>> for SumFold {
    type State = T::Native;

    ghost holds = { λ _ slots sum. T.Native.number sum ≡ wrap (Flat T.Native.flat) (total (valid slots)) };

    #[inline]
    fn start(&self) -> T::Native {
        T::Native::zero()
    }

    #[inline]
    fn with_slot(
        &self,
        sum: T::Native,
        chunk: &NullableArray<NumberValues<T>>,
        at: usize,
    ) -> T::Native {
        match chunk.get(at) {
            Some(number) => sum.add_wrapped(number),
            None => sum,
        }
    }
}

impl SlotFold<FlagValues> for SumFold {
    type State = u32;

    ghost holds = { λ _ slots sum. pos sum ≡ wrap (Flat Boolean) (total (valid slots)) };

    #[inline]
    fn start(&self) -> u32 {
        0
    }

    #[inline]
    fn with_slot(&self, sum: u32, chunk: &NullableArray<FlagValues>, at: usize) -> u32 {
        match chunk.get(at) {
            Some(flag) => sum.add_wrapped(u32::from(flag)),
            None => sum,
        }
    }
}

/// How many slots are valid, none for no slots.
#[derive(Drop)]
pub struct ValidFold;

impl<V: Values> SlotFold<V> for ValidFold {
    type State = Option<u32>;

    ghost holds = { λ _ slots count. HoldsCount slots count };

    #[inline]
    fn start(&self) -> Option<u32> {
        None
    }

    #[inline]
    fn with_slot(&self, count: Option<u32>, chunk: &NullableArray<V>, at: usize) -> Option<u32> {
        with_validity(count, chunk.is_valid(at))
    }
}

/// The count of valid slots with one more that is valid or not. Slots have numbers of 32 bits.
#[inline]
pub(crate) fn with_validity(count: Option<u32>, valid: bool) -> Option<u32>
    ensures { (slots : List Slot) (s : Slot) → valid ≡ is_valid s → HoldsCount slots count
        → HoldsCount (slots ++ s ∷ []) result }
{
    let so_far = count.unwrap_or(0);
    if valid {
        Some(so_far.saturating_add(1))
    } else {
        Some(so_far)
    }
}

/// The least of numbers, or the greatest, none where all are null.
#[derive(Drop)]
pub struct ExtremeFold {
    pub greatest: bool,
}

impl<T: PolarsNumericType> SlotFold<NumberValues<T>> for ExtremeFold {
    type State = Option<T::Native>;

    ghost holds = { λ fold slots best. native_slot T.Native.number best
        ≡ extreme_of fold.greatest (Flat T.Native.flat) (valid slots) };

    #[inline]
    fn start(&self) -> Option<T::Native> {
        None
    }

    #[inline]
    fn with_slot(
        &self,
        best: Option<T::Native>,
        chunk: &NullableArray<NumberValues<T>>,
        at: usize,
    ) -> Option<T::Native> {
        better_of(self.greatest, best, chunk.get(at))
    }
}

// A number where it is better than the best so far, or else this one.
#[inline]
fn better_of<N: Native>(greatest: bool, best: Option<N>, other: Option<N>) -> Option<N>
    ensures { let t = Flat N.flat in let other = native_slot N.number other in
        let best = native_slot N.number best in
        native_slot N.number result ≡ (if is_better greatest t other best then other else best) }
{
    match (other, best) {
        (Some(number), Some(so_far)) => {
            if is_number_better(greatest, number, so_far) {
                Some(number)
            } else {
                Some(so_far)
            }
        }
        (Some(number), None) => Some(number),
        (None, best) => best,
    }
}

// Whether a number is less than another, or greater where that is asked.
#[inline]
fn is_number_better<N: Native>(greatest: bool, number: N, other: N) -> bool
    ensures { result ≡ is_better greatest (Flat N.flat) (Num (N.number number))
        (Num (N.number other)) }
{
    let order = number.cmp(&other);
    if greatest {
        order.is_gt()
    } else {
        order.is_lt()
    }
}

/// What is known of the slots at these rows.
pub fn fold_rows<V: Values, F: SlotFold<V>, R: GroupRows>(
    column: &ChunkedArray<V>,
    fold: &F,
    rows: &R,
) -> F::State
    requires { All (λ row. row < length column.now.slots) (R.rows rows.now) }
    ensures { F.holds fold.now (picked column.now.slots (R.rows rows.now)) result }
{
    let mut near = NearChunk::new(column);
    let mut state = fold.start();
    for place in 0..rows.count() {
        let (chunk, at) = near.locate(rows.row_at(place));
        state = fold.with_slot(state, chunk, at);
    }
    state
}

/// What is known of each group's slots, from the number of each row's group.
pub fn fold_numbered<V: Values, F: SlotFold<V>, M: Members>(
    alloc: Global,
    column: &ChunkedArray<V>,
    fold: &F,
    rows: &M,
    numbers: &[u32],
    groups: usize,
) -> Result<Vec<F::State>, AllocError>
    requires inside { All (λ row. row < length column.now.slots) (M.listed rows.now) }
    requires each { length numbers.now ≡ length (M.listed rows.now) }
    requires known { All (λ number. number < groups) numbers.now }
    ensures { IfOk result (λ states. HoldEach (F.holds fold.now) column.now.slots
        (M.listed rows.now) numbers.now groups states.items) }
{
    let mut near = NearChunk::new(column);
    let mut states = repeated(alloc, fold.start(), groups)?;
    for (place, number) in numbers.iter().enumerate() {
        let (chunk, at) = near.locate(rows.row_at(place) as usize);
        let state = states[*number as usize];
        states[*number as usize] = fold.with_slot(state, chunk, at);
    }
    Ok(states)
}

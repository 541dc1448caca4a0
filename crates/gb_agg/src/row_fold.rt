//! Folds that take the rows of all groups one after another, each into what is known of its group, from the number
//! of each row's group.

ghost use Rattle.std.specs.Prelude.{◌≡◌, ℕ, ◌<◌, ◌++◌, ◌∷◌, [], IfOk, List, length, replicate};
ghost use Rattle.gb_defs.specs.Classes.{rows_below};
ghost use Rattle.gb_agg.specs.Numbered.{HoldRows};

use gb_paths::row_numbers::RowNumbers;
use std::alloc::{AllocError, Global};

/// What takes rows one after another.
pub(crate) trait RowFold {
    /// What is known of the rows so far.
    type State: Copy;

    // The rows are below it.
    ghost height: { Self → ℕ };

    // That it is known of these rows.
    ghost holds: { Self → List ℕ → Self.State → Type 0 };

    /// Before any row.
    fn start(&self) -> Self::State
        ensures { holds self.now [] result };

    /// With one row more.
    fn with_row(&self, state: Self::State, row: usize) -> Self::State
        requires { row < height self.now }
        ensures { (rows : List ℕ) → holds self.now rows state
            → holds self.now (rows ++ row ∷ []) result };
}

/// What is known of each group's rows.
pub(crate) fn fold_row_numbers<F: RowFold>(
    alloc: Global,
    fold: &F,
    numbers: &RowNumbers,
) -> Result<Vec<F::State>, AllocError>
    requires { length numbers.now.of_rows.items ≡ F.height fold.now }
    ensures { let all = numbers.now.of_rows.items in IfOk result (λ states. HoldRows
        (F.holds fold.now) (rows_below (length all)) all (length numbers.now.first.items)
        states.items) }
{
    let mut states = repeated(alloc, fold.start(), numbers.first.len())?;
    for (row, number) in numbers.of_rows.iter().enumerate() {
        let state = states[*number as usize];
        states[*number as usize] = fold.with_row(state, row);
    }
    Ok(states)
}

/// One state, so many times.
pub(crate) fn repeated<S: Copy>(alloc: Global, state: S, count: usize) -> Result<Vec<S>, AllocError>
    ensures { IfOk result (λ states. states.items ≡ replicate count state) }
{
    let mut states = Vec::with_capacity(alloc, count)?;
    for _ in 0..count {
        states.push(state)?;
    }
    Ok(states)
}

//! Slots that are codes: whether each is below a number, and whether each number below it is held.

ghost use Rattle.std.specs.Prelude.{◌≡◌, ◌≤◌, ◌<◌, ◌↔◌, ◌∷◌, [], IsTrue, All, length, true};
ghost use Rattle.gb_values.specs.Array.{native_slot};
ghost use Rattle.gb_cols.specs.Codes.{HasMarked, HoldsAll, HoldsFrom, IsCodeBelow};

use crate::chunked::ChunkedArray;
use gb_numbers::numeric::{Native, PolarsNumericType};
use gb_values::primitive::{NumberValues, PrimitiveArray};

/// Whether every slot is null or a number below another. One pass.
pub fn codes_in_range<T: PolarsNumericType>(codes: &ChunkedArray<NumberValues<T>>, n: usize) -> bool
    ensures { IsTrue result ↔ All (IsCodeBelow n) codes.now.slots }
{
    let (earlier, last) = codes.chunks();
    for chunk in earlier {
        if !chunk_in_range(chunk, n) {
            return false;
        }
    }
    chunk_in_range(last, n)
}

// Whether every slot of a chunk is null or a number below another.
fn chunk_in_range<T: PolarsNumericType>(codes: &PrimitiveArray<T>, n: usize) -> bool
    ensures { IsTrue result ↔ All (IsCodeBelow n) codes.now }
{
    for i in 0..codes.len() {
        if !code_in_range(codes.get(i), n) {
            return false;
        }
    }
    true
}

// Whether a code that may be missing is below a number.
#[inline]
fn code_in_range<N: Native>(code: Option<N>, n: usize) -> bool
    ensures { IsTrue result ↔ IsCodeBelow n (native_slot N.number code) }
{
    match code {
        Some(code) => code.to_wide() < n as u128,
        None => true,
    }
}

/// How many codes are marked at a time.
const WINDOW: usize = 16_384;

/// Whether each number below another is held, where no slot is another. One pass for each 16,384 numbers;
/// it takes no memory.
pub fn codes_used<T: PolarsNumericType>(codes: &ChunkedArray<NumberValues<T>>, n: usize) -> bool
    requires { All (IsCodeBelow n) codes.now.slots }
    ensures { IsTrue result ↔ HoldsAll n codes.now.slots }
{
    for window in 0..n.div_ceil(WINDOW) {
        let first = window * WINDOW;
        if !window_used(codes, first, WINDOW.min(n - first), n) {
            return false;
        }
    }
    true
}

// Whether so many numbers from a first on are held.
fn window_used<T: PolarsNumericType>(
    codes: &ChunkedArray<NumberValues<T>>,
    first: usize,
    count: usize,
    n: usize,
) -> bool
    requires fits { count ≤ 16384 }
    requires below { All (IsCodeBelow n) codes.now.slots }
    ensures { IsTrue result ↔ HoldsFrom first count codes.now.slots }
{
    let mut marks = [false; WINDOW];
    mark_all(codes, first, n, marks.as_mut_slice());
    all_marked(&marks[..count])
}

// Marks the places of the codes of a column, of which the first has the first place.
fn mark_all<T: PolarsNumericType>(
    codes: &ChunkedArray<NumberValues<T>>,
    first: usize,
    n: usize,
    marks: &mut [bool],
)
    requires { All (IsCodeBelow n) codes.now.slots }
    ensures { HasMarked first codes.now.slots marks.old marks.new }
{
    let (earlier, last) = codes.chunks();
    for chunk in earlier {
        mark_codes(chunk, first, n, marks);
    }
    mark_codes(last, first, n, marks);
}

// The same for the codes of a chunk.
fn mark_codes<T: PolarsNumericType>(
    codes: &PrimitiveArray<T>,
    first: usize,
    n: usize,
    marks: &mut [bool],
)
    requires { All (IsCodeBelow n) codes.now }
    ensures { HasMarked first codes.now marks.old marks.new }
{
    for i in 0..codes.len() {
        mark_code(codes.get(i), first, n, marks);
    }
}

// The same for a code that may be missing.
#[inline]
fn mark_code<N: Native>(code: Option<N>, first: usize, n: usize, marks: &mut [bool])
    requires { IsCodeBelow n (native_slot N.number code) }
    ensures { HasMarked first (native_slot N.number code ∷ []) marks.old marks.new }
{
    if let Some(code) = code {
        let number = code.to_word() as usize;
        if number >= first && number - first < marks.len() {
            marks[number - first] = true;
        }
    }
}

// Whether every place is marked.
fn all_marked(marks: &[bool]) -> bool
    ensures { IsTrue result ↔ All (λ mark. mark ≡ true) marks.now }
{
    for mark in marks {
        if !*mark {
            return false;
        }
    }
    true
}

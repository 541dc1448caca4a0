//! How a length is dealt out, where each of several buffers begins, and work by shares with its results
//! in order.

ghost use Rattle.std.specs.Prelude.{◌≡◌, ℕ, ◌+◌, ◌<◌, ◌≤◌, All, length, map, IfOk, IfErr, slice_index_or, Ok, Err};
ghost use Rattle.gb_defs.specs.Flat.{range_at, ranges_of};
ghost use Rattle.gb_base.specs.PlSmallStr.{IsNoMemory};
ghost use Rattle.gb_flat.specs.Buffers.{item_count, joined, starts_of};

use gb_base::error::{PolarsError, PolarsResult};
use std::alloc::{AllocError, Global};
use std::thread::{self, Threads};

/// So many ranges that follow each other and cover the length. The last has what the others leave.
pub fn split_offsets(alloc: Global, len: usize, n: usize) -> PolarsResult<Vec<(usize, usize)>>
    requires { 1 ≤ n }
    ensures ok { IfOk result (λ ranges. ranges.items ≡ ranges_of len n) }
    ensures err { IfErr result IsNoMemory }
{
    let each = len / n;
    let mut ranges = Vec::with_capacity(alloc, n)?;
    for k in 0..n - 1 {
        ranges.push_reserved((k * each, each));
    }
    let start = (n - 1) * each;
    ranges.push_reserved((start, len - start));
    Ok(ranges)
}

/// How long the buffers are together, and where each begins. A total that a `usize` does not hold is
/// more than memory holds.
pub fn cap_and_offsets<I>(alloc: Global, v: &[Vec<I>]) -> PolarsResult<(usize, Vec<usize>)>
    ensures total { IfOk result (λ r. r.0 ≡ item_count v.now) }
    ensures starts { IfOk result (λ r. r.1.items ≡ starts_of 0 v.now) }
    ensures err { IfErr result IsNoMemory }
{
    let mut total = 0usize;
    let mut starts = Vec::with_capacity(alloc, v.len())?;
    for list in v {
        starts.push_reserved(total);
        total = total.checked_add(list.len()).ok_or(PolarsError::NoMemory)?;
    }
    Ok((total, starts))
}

/// What `part` gives for each range of `split_offsets`, in order, each range in a thread of its own where
/// one can be made. A range is its start and its length.
pub fn map_shares<
    T: Threads + Sync,
    X: Send + Drop,
    F: Fn((usize, usize)) -> PolarsResult<X> + Sync,
>(rt: &T, alloc: Global, len: usize, workers: usize, part: &F) -> PolarsResult<Vec<X>>
    requires some { 1 ≤ workers }
    requires accepts { (share : ℕ × ℕ) → share.0 + share.1 ≤ len → F.pre part.now share }
    requires lacks { (share : ℕ × ℕ) (e : PolarsError)
        → F.post part.now share (Err e)
        → IsNoMemory e }
    ensures len { IfOk result (λ made. length made.items ≡ workers) }
    ensures each { IfOk result (λ made.
        (k : ℕ) (d : X) → k < workers
        → F.post part.now (range_at len workers k) (Ok (slice_index_or made.items k d))) }
    ensures err { IfErr result IsNoMemory }
{
    let shares = split_offsets(alloc, len, workers)?;
    let made = thread::map_vec(rt, shares, part)?;
    let all = all_ok(alloc, made)?;
    Ok(all)
}

// The values, where none is an error.
fn all_ok<X: Drop>(alloc: Global, made: Vec<PolarsResult<X>>) -> PolarsResult<Vec<X>>
    requires lacks { All (λ r. IfErr r IsNoMemory) made.items }
    ensures ok { IfOk result (λ v. made.items ≡ map (λ x. Ok x) v.items) }
    ensures err { IfErr result IsNoMemory }
{
    let mut all = Vec::new(alloc);
    for value in made {
        all.push(value?)?;
    }
    Ok(all)
}

/// The items of the lists, one list after another.
pub fn join_shares<X: Drop>(alloc: Global, shares: Vec<Vec<X>>) -> Result<Vec<X>, AllocError>
    ensures { IfOk result (λ all. all.items ≡ joined shares.items) }
{
    let mut all = Vec::new(alloc);
    for mut share in shares {
        all.append(&mut share)?;
    }
    Ok(all)
}

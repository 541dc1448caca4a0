//! The items of several buffers in one vector.

ghost use Rattle.std.specs.Prelude.{◌≡◌, [], IfOk, IfErr, IfNone};
ghost use Rattle.gb_base.specs.PlSmallStr.{IsNoMemory};
ghost use Rattle.gb_flat.specs.Buffers.{joined};

use crate::fill::fill_shares;
use crate::shares::{cap_and_offsets, split_offsets};
use gb_base::error::PolarsResult;
use gb_base::pool::Pool;
use std::alloc::Global;
use std::thread::Threads;

/// The items of the buffers in order, copied by as many workers as the pool has, each some buffers.
pub fn flatten_par<T: Copy + Send + Sync, R: Threads + Sync>(
    rt: &R,
    alloc: Global,
    bufs: &[Vec<T>],
    pool: &Pool,
) -> PolarsResult<Vec<T>>
    ensures ok { IfOk result (λ v. v.items ≡ joined bufs.now) }
    ensures err { IfErr result IsNoMemory }
{
    let (total, starts) = cap_and_offsets(alloc, bufs)?;
    let workers = pool.workers().min(bufs.len());
    if workers < 2 {
        return flatten(alloc, bufs, total);
    }
    let Some(filler) = first_item(bufs) else {
        return Ok(Vec::new(alloc));
    };
    let shares = split_offsets(alloc, bufs.len(), workers)?;
    let mut flat = vec![in alloc; filler; total]?;
    fill_shares(rt, &shares, 0, &starts, bufs, flat.as_mut_slice());
    Ok(flat)
}

// The same by one worker, in a vector with room for so many.
fn flatten<T: Copy>(alloc: Global, bufs: &[Vec<T>], total: usize) -> PolarsResult<Vec<T>>
    ensures ok { IfOk result (λ v. v.items ≡ joined bufs.now) }
    ensures err { IfErr result IsNoMemory }
{
    let mut flat = Vec::with_capacity(alloc, total)?;
    for buf in bufs {
        flat.extend_from_slice(buf)?;
    }
    Ok(flat)
}

// The first item of the first buffer that has one.
fn first_item<T: Copy>(bufs: &[Vec<T>]) -> Option<T>
    ensures { IfNone result (joined bufs.now ≡ []) }
{
    for buf in bufs {
        if let Some(item) = buf.first() {
            return Some(*item);
        }
    }
    None
}

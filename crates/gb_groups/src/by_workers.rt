//! What is made of each of some places, by several workers.

ghost use Rattle.std.specs.Prelude.{◌≡◌, ℕ, ◌+◌, ◌<◌, ◌≤◌, length, slice_index_or, IfErr, IfOk};
ghost use Rattle.gb_base.specs.PlSmallStr.{IsNoMemory};
ghost use Rattle.gb_groups.specs.Workers.{GivesFrom};

use gb_base::error::PolarsResult;
use gb_base::pool::Pool;
use gb_flat::shares::{join_shares, map_shares};
use std::alloc::Global;
use std::thread::Threads;

/// What is made of each place below `count`, in order, by as many workers as the pool has, each some
/// places that follow each other. With one worker no thread is started.
pub(crate) fn map_places<R: Threads + Sync, X: Send + Drop, F: Fn(usize) -> X + Sync>(
    rt: &R,
    alloc: Global,
    count: usize,
    pool: &Pool,
    f: &F,
) -> PolarsResult<Vec<X>>
    requires { (place : ℕ) → place < count → F.pre f.now place }
    ensures len { IfOk result (λ made. length made.items ≡ count) }
    ensures each { IfOk result (λ made. GivesFrom F.Fn f.now 0 count made.items) }
    ensures err { IfErr result IsNoMemory }
{
    let workers = pool.workers().min(count);
    if workers < 2 {
        return map_range(alloc, f, (0, count));
    }
    let part = |range: (usize, usize)| -> PolarsResult<Vec<X>>
        requires { range.0 + range.1 ≤ usize.MAX
            × ((place : ℕ) → place < range.0 + range.1 → F.pre f.now place) }
        ensures { IfOk result (λ made. length made.items ≡ range.1)
            × IfOk result (λ made. GivesFrom F.Fn f.entry.now range.0 range.1 made.items)
            × IfErr result IsNoMemory }
    { map_range(alloc, f, range) };
    let made = map_shares(rt, alloc, count, workers, &part)?;
    Ok(join_shares(alloc, made)?)
}

// What is made of each place of a range, its start and its length, in order.
fn map_range<X: Drop, F: Fn(usize) -> X>(
    alloc: Global,
    f: &F,
    range: (usize, usize),
) -> PolarsResult<Vec<X>>
    requires inside { range.0 + range.1 ≤ usize.MAX }
    requires accepts { (place : ℕ) → place < range.0 + range.1 → F.pre f.now place }
    ensures len { IfOk result (λ made. length made.items ≡ range.1) }
    ensures each { IfOk result (λ made. GivesFrom F.Fn f.now range.0 range.1 made.items) }
    ensures err { IfErr result IsNoMemory }
{
    let mut made = Vec::with_capacity(alloc, range.1)?;
    for place in 0..range.1 {
        made.push_reserved(f(range.0 + place));
    }
    Ok(made)
}

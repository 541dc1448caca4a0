//! Groups as first rows and row lists apart, and as items, of one part or of several. Row lists are
//! moved, never copied.

ghost use Rattle.std.specs.Prelude.{◌≡◌, ◌+◌, ◌<◌, ◌≤◌, [], ◌++◌, length, map, slice_index_or, IfErr, IfOk, OnOk, OnErr};
ghost use Rattle.std.specs.Vec.{vec_capacity};
ghost use Rattle.gb_base.specs.PlSmallStr.{IsNoMemory};
ghost use Rattle.gb_flat.specs.Buffers.{item_count, joined, starts_of};
ghost use Rattle.gb_flat.specs.Shares.{DealsOut};
ghost use Rattle.gb_groups.specs.Groups.{paired, pairs_of};
ghost use Rattle.gb_groups.specs.Parts.{HaveRoomFor, Hold};

use crate::groups_idx::{IdxItem, IdxSize, IdxVec};
use gb_base::error::PolarsResult;
use gb_flat::shares::split_offsets;
use smallvec::SmallVec;
use std::alloc::{AllocError, Global};
use std::mem;
use std::thread::{Threads, join_mut};

/// Moves the items to the ends of both vectors.
pub(crate) fn push_items(first: &mut Vec<IdxSize>, all: &mut Vec<IdxVec>, items: Vec<IdxItem>)
    requires first_room { length first.old.items + length items.items ≤ vec_capacity first.old }
    requires all_room { length all.old.items + length items.items ≤ vec_capacity all.old }
    ensures first_rows { first.new.items ≡ first.old.items ++ map (λ item. item.0) items.items }
    ensures lists { all.new.items ≡ all.old.items ++ map (λ item. item.1) items.items }
    ensures first_capacity { vec_capacity first.new ≡ vec_capacity first.old }
    ensures all_capacity { vec_capacity all.new ≡ vec_capacity all.old }
{
    for (row, rows) in items {
        first.push_reserved(row);
        all.push_reserved(rows);
    }
}

/// Moves all groups out of both vectors, which keep their room.
pub(crate) fn take_items(
    first: &mut Vec<IdxSize>,
    all: &mut Vec<IdxVec>,
) -> Result<Vec<IdxItem>, AllocError>
    requires { length first.old.items ≡ length all.old.items }
    ensures ok { IfOk result (λ made. pairs_of made.items ≡ paired first.old.items all.old.items) }
    ensures count { IfOk result (λ made. length made.items ≡ length first.old.items) }
    ensures first_empty { OnOk result (first.new.items ≡ []) }
    ensures all_empty { OnOk result (all.new.items ≡ []) }
    ensures first_capacity { vec_capacity first.new ≡ vec_capacity first.old }
    ensures all_capacity { vec_capacity all.new ≡ vec_capacity all.old }
    ensures first_kept { OnErr result (first.new.items ≡ first.old.items) }
    ensures all_kept { OnErr result (all.new.items ≡ all.old.items) }
{
    let alloc = *first.allocator();
    let mut items = Vec::with_capacity(alloc, first.len())?;
    for (place, rows) in all.iter_mut().enumerate() {
        items.push_reserved((first[place], mem::replace(rows, SmallVec::new(alloc))));
    }
    first.clear();
    all.clear();
    Ok(items)
}

/// The first rows and the row lists of the items of several parts, part after part, by one worker. The
/// parts have so many items.
pub(crate) fn join_parts(
    alloc: Global,
    parts: Vec<Vec<IdxItem>>,
    count: usize,
) -> PolarsResult<(Vec<IdxSize>, Vec<IdxVec>)>
    requires { count ≡ item_count parts.items }
    ensures ok { IfOk result (λ made. Hold (joined parts.items) made.0.items made.1.items) }
    ensures err { IfErr result IsNoMemory }
{
    let mut first = Vec::with_capacity(alloc, count)?;
    let mut all = Vec::with_capacity(alloc, count)?;
    for part in parts {
        push_items(&mut first, &mut all, part);
    }
    Ok((first, all))
}

/// The same by so many workers, each some of the parts, which have so many items and begin at these starts.
pub(crate) fn spread_parts<R: Threads + Sync>(
    rt: &R,
    alloc: Global,
    mut parts: Vec<Vec<IdxItem>>,
    count: usize,
    starts: &[usize],
    workers: usize,
) -> PolarsResult<(Vec<IdxSize>, Vec<IdxVec>)>
    requires count { count ≡ item_count parts.items }
    requires starts { starts.now ≡ starts_of 0 parts.items }
    requires workers { (0 < workers) × (workers ≤ length parts.items) }
    ensures ok { IfOk result (λ made. Hold (joined parts.items) made.0.items made.1.items) }
    ensures err { IfErr result IsNoMemory }
{
    let shares = split_offsets(alloc, parts.len(), workers)?;
    let mut first = vec![in alloc; 0; count]?;
    let mut all = empty_lists(alloc, count)?;
    move_shares(
        rt,
        &shares,
        starts,
        parts.as_mut_slice(),
        first.as_mut_slice(),
        all.as_mut_slice(),
    );
    Ok((first, all))
}

// So many lists with no rows. None takes an allocation.
fn empty_lists(alloc: Global, count: usize) -> PolarsResult<Vec<IdxVec>>
    ensures ok { IfOk result (λ lists. length lists.items ≡ count) }
    ensures err { IfErr result IsNoMemory }
{
    let mut lists = Vec::with_capacity(alloc, count)?;
    for _ in 0..count {
        lists.push_reserved(SmallVec::new(alloc));
    }
    Ok(lists)
}

// Moves the items of the parts one after another into both slices, which they fill. Each share of the
// parts but the last is moved in a thread of its own.
#[cycle(shares)]
fn move_shares<R: Threads + Sync>(
    rt: &R,
    shares: &[(usize, usize)],
    starts: &[usize],
    parts: &mut [Vec<IdxItem>],
    first: &mut [IdxSize],
    all: &mut [IdxVec],
)
    requires dealt { DealsOut shares.now (length parts.old) }
    requires starts { starts.now ≡ starts_of (slice_index_or starts.now 0 0) parts.old }
    requires room { HaveRoomFor (item_count parts.old) first.old all.old }
    ensures { Hold (joined parts.old) first.new all.new }
{
    let Some((share, later)) = shares.split_first() else {
        move_parts(parts, first, all);
        return;
    };
    if later.is_empty() {
        move_parts(parts, first, all);
        return;
    }
    let (_, later_starts) = starts.split_at(share.1);
    let count = later_starts[0] - starts[0];
    let (mine, others) = parts.split_at_mut(share.1);
    let (front, back) = first.split_at_mut(count);
    let (front_lists, back_lists) = all.split_at_mut(count);
    join_mut(
        rt,
        &mut ||
            requires { HaveRoomFor (item_count mine.now) front.now front_lists.now }
            ensures { Hold (joined mine.entry.now) front.exit.now front_lists.exit.now }
        { move_parts(mine, front, front_lists) },
        &mut ||
            requires { DealsOut later.now (length others.now)
                × (later_starts.now ≡ starts_of (slice_index_or later_starts.now 0 0) others.now)
                × HaveRoomFor (item_count others.now) back.now back_lists.now }
            ensures { Hold (joined others.entry.now) back.exit.now back_lists.exit.now }
        { move_shares(rt, later, later_starts, others, back, back_lists) },
    );
}

// The same by one worker.
fn move_parts(parts: &mut [Vec<IdxItem>], first: &mut [IdxSize], all: &mut [IdxVec])
    requires room { HaveRoomFor (item_count parts.old) first.old all.old }
    ensures { Hold (joined parts.old) first.new all.new }
{
    let mut at = 0;
    for part in parts.iter_mut() {
        let alloc = *part.allocator();
        let items = mem::replace(part, Vec::new(alloc));
        let end = at + items.len();
        move_items(items, &mut first[at..end], &mut all[at..end]);
        at = end;
    }
}

// Moves the items of one part.
fn move_items(items: Vec<IdxItem>, first: &mut [IdxSize], all: &mut [IdxVec])
    requires room { HaveRoomFor (length items.items) first.old all.old }
    ensures { Hold items.items first.new all.new }
{
    let mut place = 0;
    for (row, rows) in items {
        first[place] = row;
        all[place] = rows;
        place += 1;
    }
}

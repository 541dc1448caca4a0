//! Buffers copied one after another into a slice.

ghost use Rattle.std.specs.Prelude.{◌≡◌, length};
ghost use Rattle.gb_flat.specs.Buffers.{item_count, joined, starts_of};
ghost use Rattle.gb_flat.specs.Shares.{DealsOut};

use std::thread::{Threads, join_mut};

/// Copies the buffers one after another into the slice, which they fill.
pub(crate) fn fill<T: Copy>(bufs: &[Vec<T>], room: &mut [T])
    requires { length room.old ≡ item_count bufs.now }
    ensures { room.new ≡ joined bufs.now }
{
    let mut at = 0;
    for buf in bufs {
        let end = at + buf.len();
        room[at..end].copy_from_slice(buf);
        at = end;
    }
}

/// The same, each share of the buffers but the last in a thread of its own. The first buffer begins at
/// `base` of some whole, and each at its start there.
#[cycle(shares)]
pub(crate) fn fill_shares<T: Copy + Send + Sync, R: Threads + Sync>(
    rt: &R,
    shares: &[(usize, usize)],
    base: usize,
    starts: &[usize],
    bufs: &[Vec<T>],
    room: &mut [T],
)
    requires dealt { DealsOut shares.now (length bufs.now) }
    requires starts { starts.now ≡ starts_of base bufs.now }
    requires room { length room.old ≡ item_count bufs.now }
    ensures { room.new ≡ joined bufs.now }
{
    let Some((share, later)) = shares.split_first() else {
        fill(bufs, room);
        return;
    };
    if later.is_empty() {
        fill(bufs, room);
        return;
    }
    let (mine, others) = bufs.split_at(share.1);
    let (_, starts) = starts.split_at(share.1);
    let next = starts[0];
    let (front, back) = room.split_at_mut(next - base);
    fill_both(rt, mine, front, later, next, starts, others, back);
}

// Fills the front with one share, and the back with the later ones.
#[cycle(shares)]
fn fill_both<T: Copy + Send + Sync, R: Threads + Sync>(
    rt: &R,
    mine: &[Vec<T>],
    front: &mut [T],
    later: &[(usize, usize)],
    next: usize,
    starts: &[usize],
    others: &[Vec<T>],
    back: &mut [T],
)
    requires front { length front.old ≡ item_count mine.now }
    requires dealt { DealsOut later.now (length others.now) }
    requires starts { starts.now ≡ starts_of next others.now }
    requires back { length back.old ≡ item_count others.now }
    ensures front { front.new ≡ joined mine.now }
    ensures back { back.new ≡ joined others.now }
{
    join_mut(
        rt,
        &mut ||
            requires { length front.now ≡ item_count mine.now }
            ensures { front.exit.now ≡ joined mine.entry.now }
        { fill(mine, front) },
        &mut ||
            requires { DealsOut later.now (length others.now)
                × (starts.now ≡ starts_of next others.now)
                × (length back.now ≡ item_count others.now) }
            ensures { back.exit.now ≡ joined others.entry.now }
        { fill_shares(rt, later, next, starts, others, back) },
    );
}

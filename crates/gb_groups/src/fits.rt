//! Whether the rows of a group are rows of a frame, in order.

ghost use Rattle.std.specs.Prelude.{◌↔◌, ◌∷◌, IsTrue};
ghost use Rattle.gb_defs.specs.Groups.{AreMembers, FitsRows};
ghost use Rattle.gb_groups.specs.Slices.{slice_pair};

use gb_base::nullable_idx::IdxSize;

/// Whether a list of rows, of which the first one is told, ascends below `n` from that row on.
pub(crate) fn rows_fit(n: usize, first: IdxSize, rows: &[IdxSize]) -> bool
    ensures { IsTrue result ↔ FitsRows n (first, rows.now) }
{
    match rows.split_first() {
        Some((head, later)) => *head == first && rise_from(n, *head, later),
        None => (first as usize) < n,
    }
}

// Whether later rows ascend below `n` from a row on.
fn rise_from(n: usize, row: IdxSize, later: &[IdxSize]) -> bool
    ensures { IsTrue result ↔ AreMembers n (row ∷ later.now) }
{
    let mut last = row;
    for next in later {
        if *next <= last {
            return false;
        }
        last = *next;
    }
    (last as usize) < n
}

/// Whether a run begins and ends below `n`. No row is looked at.
pub(crate) fn run_fits(n: usize, slice: [IdxSize; 2]) -> bool
    ensures { IsTrue result ↔ FitsRows n (slice_pair slice) }
{
    let start = slice[0] as usize;
    start < n && slice[1] as usize <= n - start
}

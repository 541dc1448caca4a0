//! Rows that follow each other.

ghost use Rattle.std.specs.Prelude.{◌≡◌, ◌+◌};
ghost use Rattle.std.specs.List.{range_with_len};
ghost use Rattle.gb_defs.specs.Groups.{HasRowNumbers};

use gb_base::nullable_idx::IdxSize;
use gb_groups::row_lists::Members;

/// So many rows from a row on.
#[derive(Drop)]
pub struct RangeRows {
    start: usize,
    count: usize,
    ghost few: { HasRowNumbers (start + count) },
}

impl RangeRows {
    pub fn new(start: usize, count: usize) -> RangeRows
        requires { HasRowNumbers (start + count) }
        ensures start { result.start ≡ start }
        ensures count { result.count ≡ count }
    {
        RangeRows { start, count }
    }
}

impl Members for RangeRows {
    ghost listed = { λ some. range_with_len some.start some.count };

    #[inline(always)]
    fn len(&self) -> usize {
        self.count
    }

    #[inline(always)]
    fn row_at(&self, place: usize) -> IdxSize {
        (self.start + place) as IdxSize
    }
}

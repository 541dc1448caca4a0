//! The rows of a group, in each form that a group has.

ghost use Rattle.std.specs.Prelude.{◌≡◌, ℕ, ◌<◌, List, length, slice_index};
ghost use Rattle.std.specs.List.{range_with_len};

use gb_groups::groups_idx::IdxSize;

/// The rows of a group, by place.
pub trait GroupRows {
    // The rows.
    ghost rows: { Self → List ℕ };

    fn count(&self) -> usize
        ensures { result ≡ length (rows self.now) };

    fn row_at(&self, place: usize) -> usize
        requires { place < length (rows self.now) }
        ensures { result ≡ slice_index (rows self.now) place };
}

/// Rows that are listed.
#[derive(Drop)]
pub struct RowList<'a> {
    rows: &'a [IdxSize],
}

impl<'a> RowList<'a> {
    pub fn new(rows: &'a [IdxSize]) -> RowList<'a>
        ensures { result.rows.now ≡ rows.now }
    {
        RowList { rows }
    }
}

impl<'a> GroupRows for RowList<'a> {
    ghost rows = { λ list. list.rows.now };

    #[inline]
    fn count(&self) -> usize {
        self.rows.len()
    }

    #[inline]
    fn row_at(&self, place: usize) -> usize {
        self.rows[place] as usize
    }
}

/// Rows that follow each other: so many, from the start on.
#[derive(Drop)]
pub struct RowRun {
    start: IdxSize,
    count: IdxSize,
}

impl RowRun {
    pub fn new(start: IdxSize, count: IdxSize) -> RowRun
        ensures start { result.start ≡ start }
        ensures count { result.count ≡ count }
    {
        RowRun { start, count }
    }
}

impl GroupRows for RowRun {
    ghost rows = { λ run. range_with_len run.start run.count };

    #[inline]
    fn count(&self) -> usize {
        self.count as usize
    }

    #[inline]
    fn row_at(&self, place: usize) -> usize {
        self.start as usize + place
    }
}

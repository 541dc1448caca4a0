//! What takes an append back: the chunks that were there, and the flags.

ghost use Rattle.std.specs.Prelude.{◌≡◌, ◌<◌, ◌≤◌, length, true};
ghost use Rattle.gb_defs.specs.Column.{UsesAll};
ghost use Rattle.gb_cols.specs.Column.{first_chunks};

use crate::series_trait::SeriesTrait;

/// A column of which an append can be taken back. It takes no memory.
pub trait UndoAppend: SeriesTrait {
    /// Whether every code of the texts of a column of categories is known to occur.
    fn uses_all(&self) -> bool
        ensures value { result ≡ (Self.value self.now).all_used }
        ensures holds { let c = Self.value self.now in
            result ≡ true → UsesAll c.dtype c.slots };

    /// The first chunks, so many, with no flag.
    fn keep_chunks(&mut self, count: usize)
        requires some { 0 < count }
        requires within { count ≤ length (Self.value self.old).chunks }
        ensures { Self.value self.new ≡ first_chunks count (Self.value self.old) };
}

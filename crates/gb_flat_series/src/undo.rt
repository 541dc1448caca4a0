//! What takes appending back.

ghost use Rattle.std.specs.Prelude.{◌≡◌, true};
ghost use Rattle.gb_defs.specs.Column.{UsesAll};

use crate::of_column;
use crate::series::FlatSeries;
use gb_cols::undo_append::UndoAppend;

impl UndoAppend for FlatSeries {
    fn uses_all(&self) -> bool {
        of_column!(self, column => column.uses_all())
    }

    fn keep_chunks(&mut self, count: usize) {
        of_column!(self, column => column.keep_chunks(count))
    }
}

impl FlatSeries {
    ghost use Rattle.gb_flat_series.specs.FlatSeries.{column_of};

    /// Notes that every code of a column of categories occurs.
    #[tactic(auto, using(crate::proofs::UndoLemmas::uses_categories))]
    pub fn note_all_used(&mut self)
        requires { let c = column_of self.old in UsesAll c.dtype c.slots }
        ensures { column_of self.new ≡ record (column_of self.old) { all_used = true } }
    {
        self.tell_variant();
        match self {
            FlatSeries::Categorical(column) => column.set_all_used(),
            // No other type has codes.
            _ => unreachable!(),
        }
    }
}

//! Slots of a column compared, by their rows.

ghost use Rattle.std.specs.Prelude.{◌≡◌, ◌↔◌, ◌<◌, IsTrue, length};
ghost use Rattle.gb_defs.specs.Column.{ColumnValue};
ghost use Rattle.gb_defs.specs.Slot.{slot_at};
ghost use Rattle.gb_compare.specs.Placed.{PlacedAs};

use std::cmp::Ordering;

/// A column whose slots can be told to be equal. A null is equal to a null alone.
pub trait TotalEqInner {
    // The column.
    ghost column: { Self → ColumnValue };

    /// Whether the slots of two rows are equal.
    fn eq_element(&self, idx_a: usize, idx_b: usize) -> bool
        requires inside_a { idx_a < length (column self.now).slots }
        requires inside_b { idx_b < length (column self.now).slots }
        ensures { let slots = (column self.now).slots in
            IsTrue result ↔ (slot_at slots idx_a ≡ slot_at slots idx_b) };
}

/// A column whose slots have an order. Categories are in that of their texts.
pub trait TotalOrdInner {
    // The column.
    ghost column: { Self → ColumnValue };

    // What is to hold for its slots to have an order.
    ghost compares: { Self → Type 0 } = { λ _. Unit {0} };

    /// How the slots of two rows compare, with a null before every value, or behind every value where
    /// `nulls_last`.
    fn cmp_element(&self, idx_a: usize, idx_b: usize, nulls_last: bool) -> Ordering
        requires inside_a { idx_a < length (column self.now).slots }
        requires inside_b { idx_b < length (column self.now).slots }
        requires compares { compares self.now }
        ensures { let c = column self.now in
            PlacedAs c.dtype nulls_last (slot_at c.slots idx_a) (slot_at c.slots idx_b) result };
}

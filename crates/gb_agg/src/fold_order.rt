//! The order in which the rows of a column's least and greatest slots are sought, where these are no numbers.

ghost use Rattle.std.specs.Prelude.{◌≡◌, ◌<◌, ◌&&◌, length, not};
ghost use Rattle.gb_defs.specs.Column.{ColumnValue};
ghost use Rattle.gb_defs.specs.Slot.{slot_at};
ghost use Rattle.gb_logical.specs.Categorical.{is_enum_type, is_lexical_type};
ghost use Rattle.gb_agg.specs.Extremes.{compares_better, is_better};

use gb_cols::boolean::BooleanChunked;
use gb_cols::chunked::ChunkedArray;
use gb_cols::series_trait::SeriesTrait;
use gb_compare::inner::TotalOrdInner;
use gb_logical::categorical::CategoricalChunked;
use gb_values::bytes::{ByteKind, ByteValues};

/// A column whose rows are compared.
// `SeriesTrait` is no part of it: the checker refuses such a trait for a column of flags.
pub trait FoldOrder {
    // The column.
    ghost column: { Self → ColumnValue };

    fn row_count(&self) -> usize
        ensures { result ≡ length (column self.now).slots };

    /// Whether the slot of a row is less than that of another, or greater where that is asked. A null is neither.
    fn is_better(&self, greatest: bool, row: usize, other: usize) -> bool
        requires row { row < length (column self.now).slots }
        requires other { other < length (column self.now).slots }
        ensures { let c = column self.now in
            result ≡ is_better greatest c.dtype (slot_at c.slots row) (slot_at c.slots other) };
}

// The same by how the column compares its slots.
#[inline]
fn compares_better<C: TotalOrdInner>(column: &C, greatest: bool, row: usize, other: usize) -> bool
    requires row { row < length (C.column column.now).slots }
    requires other { other < length (C.column column.now).slots }
    requires compares { C.compares column.now }
    ensures { let c = C.column column.now in result
        ≡ compares_better greatest c.dtype (slot_at c.slots row) (slot_at c.slots other) }
{
    let order = column.cmp_element(row, other, !greatest);
    if greatest {
        order.is_gt()
    } else {
        order.is_lt()
    }
}

impl FoldOrder for BooleanChunked {
    ghost column = { λ c. c };

    fn row_count(&self) -> usize {
        self.len()
    }

    fn is_better(&self, greatest: bool, row: usize, other: usize) -> bool {
        let _ = self.name();
        compares_better(self, greatest, row, other)
    }
}

impl<K: ByteKind> FoldOrder for ChunkedArray<ByteValues<K>> {
    ghost column = { λ c. c };

    fn row_count(&self) -> usize {
        self.len()
    }

    fn is_better(&self, greatest: bool, row: usize, other: usize) -> bool {
        let _ = self.name();
        compares_better(self, greatest, row, other)
    }
}

// Whether folds take the categories of a column in the order of their texts: where that is lexical, but no enum's.
fn is_by_text(column: &CategoricalChunked) -> bool
    ensures { let t = column.now.dtype in result ≡ (is_lexical_type t && not (is_enum_type t)) }
{
    column.uses_lexical_ordering() && !column.is_enum()
}

// By text, or else by code.
impl FoldOrder for CategoricalChunked {
    ghost column = { λ c. c };

    fn row_count(&self) -> usize {
        self.len()
    }

    fn is_better(&self, greatest: bool, row: usize, other: usize) -> bool {
        let _ = self.get_rev_map();
        if is_by_text(self) {
            compares_better(self, greatest, row, other)
        } else {
            compares_better(self.physical(), greatest, row, other)
        }
    }
}

//! The slots of columns of lists, arrays and structs told to be equal. They have no order.

ghost use Rattle.std.specs.Prelude.{◌≡◌, ◌↔◌, ◌+◌, ◌<◌, ◌≤◌, IsTrue, length, map, All};
ghost use Rattle.gb_defs.specs.Slices.{between};
ghost use Rattle.gb_series.specs.Rows.{IsPlaced, row_piece};
ghost use Rattle.gb_series.specs.Series.{value_of};
ghost use Rattle.gb_series.specs.Structs.{across};

use crate::inner::TotalEqInner;
use gb_cols::series_trait::SeriesTrait;
use gb_series::nested::array::ArrayChunked;
use gb_series::nested::list::ListChunked;
use gb_series::nested::rows::start_at;
use gb_series::nested::structs::StructChunked;
use gb_series::series::Series;

impl TotalEqInner for ListChunked {
    ghost column = { λ c. c };

    #[cycle(eq_element)]
    fn eq_element(&self, idx_a: usize, idx_b: usize) -> bool {
        if !self.is_valid(idx_a) {
            return !self.is_valid(idx_b);
        }
        if !self.is_valid(idx_b) {
            return false;
        }
        let (items, ends) = self.items_by_row();
        same_pieces(items, ends, idx_a, idx_b)
    }
}

impl TotalEqInner for ArrayChunked {
    ghost column = { λ c. c };

    #[cycle(eq_element)]
    fn eq_element(&self, idx_a: usize, idx_b: usize) -> bool {
        if !self.is_valid(idx_a) {
            return !self.is_valid(idx_b);
        }
        if !self.is_valid(idx_b) {
            return false;
        }
        let (items, ends) = self.items_by_row();
        same_pieces(items, ends, idx_a, idx_b)
    }
}

impl TotalEqInner for StructChunked {
    ghost column = { λ c. c };

    #[cycle(eq_element)]
    fn eq_element(&self, idx_a: usize, idx_b: usize) -> bool {
        if !self.is_valid(idx_a) {
            return !self.is_valid(idx_b);
        }
        if !self.is_valid(idx_b) {
            return false;
        }
        same_across(self.fields(), idx_a, idx_b)
    }
}

// Whether two rows hold the same items.
#[cycle(eq_element)]
fn same_pieces(items: &Series, ends: &[usize], a: usize, b: usize) -> bool
    requires placed_a { IsPlaced ends.now (value_of items.now).slots a }
    requires placed_b { IsPlaced ends.now (value_of items.now).slots b }
    ensures { let slots = (value_of items.now).slots in
        IsTrue result ↔ (row_piece ends.now a slots ≡ row_piece ends.now b slots) }
{
    let start_a = start_at(ends, a);
    let start_b = start_at(ends, b);
    let count = ends[a] - start_a;
    if ends[b] - start_b != count {
        return false;
    }
    same_items(items, start_a, start_b, count)
}

// Whether so many items from one place on are those from another place on.
#[cycle(eq_element)]
fn same_items(items: &Series, a: usize, b: usize, count: usize) -> bool
    requires a_inside { a + count ≤ length (value_of items.now).slots }
    requires b_inside { b + count ≤ length (value_of items.now).slots }
    ensures { let slots = (value_of items.now).slots in
        IsTrue result ↔ (between a (a + count) slots ≡ between b (b + count) slots) }
{
    // Its clauses say that the places of items are few.
    let _ = items.len();
    for place in 0..count {
        if !items.eq_element(a + place, b + place) {
            return false;
        }
    }
    true
}

// Whether two rows of fields hold the same slots.
#[cycle(eq_element)]
fn same_across(fields: &[Series], a: usize, b: usize) -> bool
    requires a_inside { All (λ f. a < length f.slots) (map value_of fields.now) }
    requires b_inside { All (λ f. b < length f.slots) (map value_of fields.now) }
    ensures { let frame = map value_of fields.now in
        IsTrue result ↔ (across frame a ≡ across frame b) }
{
    for field in fields {
        if !field.eq_element(a, b) {
            return false;
        }
    }
    true
}

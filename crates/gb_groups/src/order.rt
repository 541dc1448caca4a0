//! What the order of groups by their first rows settles.

ghost use Rattle.gb_groups.specs.Order.{OrderIsOne};

/// So the contract of `sort` leaves no choice.
pub fn order_is_one()
    ensures { OrderIsOne }
{}

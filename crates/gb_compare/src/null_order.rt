//! The order of values that may be null.

ghost use Rattle.std.specs.Prelude.{◌≡◌, ◌↔◌, IsTrue, if◌then◌else◌};
ghost use Rattle.std.specs.declared.cmp.Ordering.TheVariants.{Greater, Less};
ghost use Rattle.gb_defs.specs.ColumnType.{ColumnType};
ghost use Rattle.gb_defs.specs.Slot.{Slot};
ghost use Rattle.gb_compare.specs.Placed.{PlacedAs, value_slot};

use crate::total_ord::{TotalEq, TotalOrd};
use std::cmp::Ordering;

/// The order of values of which some may be null.
pub trait NullOrderCmp: TotalEq {
    // The type of a column of such values.
    ghost dtype: { ColumnType };

    /// How they compare, with a null before every value, or behind every value where `nulls_last`.
    fn null_order_cmp(&self, other: &Self, nulls_last: bool) -> Ordering
        ensures { PlacedAs dtype nulls_last (Self.slot self.now) (Self.slot other.now) result };
}

// That no value is a null is a law of `TotalOrd`.
impl<T: TotalOrd> TotalEq for Option<T> {
    ghost slot = { value_slot T.slot };

    fn tot_eq(&self, other: &Option<T>) -> bool {
        match (self, other) {
            (Some(a), Some(b)) => a.tot_eq(b),
            (None, None) => true,
            (Some(_), None) => false,
            (None, Some(_)) => false,
        }
    }
}

impl<T: TotalOrd> NullOrderCmp for Option<T> {
    ghost dtype = { T.dtype };

    fn null_order_cmp(&self, other: &Option<T>, nulls_last: bool) -> Ordering {
        match (self, other) {
            (Some(a), Some(b)) => a.tot_cmp(b),
            (None, None) => Ordering::Equal,
            (Some(_), None) => null_against(!nulls_last),
            (None, Some(_)) => null_against(nulls_last),
        }
    }
}

/// What is no null, so that `nulls_last` says nothing of it.
#[derive(Clone, Copy)]
pub struct NonNull<T>(pub T);

impl<T: TotalEq> TotalEq for NonNull<T> {
    ghost slot = { λ value. T.slot value.0 };

    fn tot_eq(&self, other: &NonNull<T>) -> bool {
        self.0.tot_eq(&other.0)
    }
}

impl<T: TotalOrd> NullOrderCmp for NonNull<T> {
    ghost dtype = { T.dtype };

    fn null_order_cmp(&self, other: &NonNull<T>, _nulls_last: bool) -> Ordering {
        self.0.tot_cmp(&other.0)
    }
}

// How a slot compares to another at one end: greater at the last one, and less at the first.
fn null_against(last: bool) -> Ordering
    ensures { result ≡ (if last then Greater else Less) }
{
    if last {
        Ordering::Greater
    } else {
        Ordering::Less
    }
}

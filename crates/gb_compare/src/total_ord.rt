//! Equality and order of values: of numbers, flags, texts and bytes.

ghost use Rattle.std.specs.Prelude.{◌≡◌, ◌↔◌, IsTrue, false, refl};
ghost use Rattle.gb_defs.specs.ColumnType.{ColumnType, Boolean, Binary, Flat, String};
ghost use Rattle.gb_defs.specs.Slot.{Slot, Bytes, Num, is_nil};
ghost use Rattle.gb_base.specs.AnyValue.{flag_number};
ghost use Rattle.gb_compare.specs.Placed.{OrderedAs};

use gb_numbers::numeric::Native;
use std::cmp::Ordering;

/// Equality of values.
pub trait TotalEq {
    // The slot that holds the value.
    ghost slot: { Self → Slot };

    /// Whether they are one value.
    fn tot_eq(&self, other: &Self) -> bool
        ensures { IsTrue result ↔ (slot self.now ≡ slot other.now) };
}

/// The order of values.
pub trait TotalOrd: TotalEq {
    // The type of a column of such values.
    ghost dtype: { ColumnType };

    /// Numbers by their size, false before true, texts and bytes byte by byte with a front before the whole.
    fn tot_cmp(&self, other: &Self) -> Ordering
        ensures { OrderedAs dtype (Self.slot self.now) (Self.slot other.now) result };

    // No value is a null.
    ghost none_null: { (v : Self) → is_nil (Self.slot v) ≡ false };
}

/// A native whole number as a value.
// An impl for every `Native` would stand beside those of flags, texts and bytes, and so be refused.
#[derive(Clone, Copy)]
pub struct Number<N: Native>(pub N);

impl<N: Native> TotalEq for Number<N> {
    ghost slot = { λ n. Num (N.number n.0) };

    fn tot_eq(&self, other: &Number<N>) -> bool {
        self.0 == other.0
    }
}

impl<N: Native> TotalOrd for Number<N> {
    ghost dtype = { Flat N.flat };

    ghost none_null = { λ n. refl };

    fn tot_cmp(&self, other: &Number<N>) -> Ordering {
        self.0.cmp(&other.0)
    }
}

impl TotalEq for bool {
    ghost slot = { λ flag. Num (flag_number flag) };

    fn tot_eq(&self, other: &bool) -> bool {
        self == other
    }
}

impl TotalOrd for bool {
    ghost dtype = { Flat Boolean };

    ghost none_null = { λ flag. refl };

    fn tot_cmp(&self, other: &bool) -> Ordering {
        self.cmp(other)
    }
}

impl TotalEq for &str {
    ghost slot = { λ text. Bytes text.now };

    fn tot_eq(&self, other: &&str) -> bool {
        *self == *other
    }
}

impl TotalOrd for &str {
    ghost dtype = { Flat String };

    ghost none_null = { λ text. refl };

    fn tot_cmp(&self, other: &&str) -> Ordering {
        (*self).cmp(*other)
    }
}

impl TotalEq for &[u8] {
    ghost slot = { λ bytes. Bytes bytes.now };

    fn tot_eq(&self, other: &&[u8]) -> bool {
        *self == *other
    }
}

impl TotalOrd for &[u8] {
    ghost dtype = { Flat Binary };

    ghost none_null = { λ bytes. refl };

    fn tot_cmp(&self, other: &&[u8]) -> Ordering {
        (*self).cmp(*other)
    }
}

//! Numbers of 128 bits with no sign.

use super::Native;
use crate::number_cell::unsigned_wide;

impl Native for u128 {
    ghost use Rattle.std.specs.Prelude.{pos, refl};
    ghost use Rattle.std.specs.Int.{w128};
    ghost use Rattle.std.proofs.Common.{inr};
    ghost use Rattle.gb_defs.specs.ColumnType.{Unsigned};
    ghost use Rattle.gb_numbers.specs.Native.{Decides-pos, cmp-pos};

    ghost number = { λ n. pos n };

    ghost width = { w128 };

    ghost flat = { Unsigned w128 };

    ghost whole = { inr refl };

    ghost equal_by_number = { Decides-pos };

    ghost ordered_by_number = { cmp-pos };

    ghost printed = { λ n. refl };

    fn zero() -> u128 {
        0
    }

    #[inline]
    fn add_wrapped(self, other: u128) -> u128 {
        self.wrapping_add(other)
    }

    #[inline]
    fn is_wide() -> bool {
        true
    }

    #[inline]
    fn to_word(self) -> u64 {
        (self & 0xffff_ffff_ffff_ffff) as u64
    }

    #[inline]
    fn to_wide(self) -> u128 {
        self
    }

    #[inline(always)]
    fn from_cell(cell: &[u8]) -> Option<u128> {
        unsigned_wide(cell)
    }

    #[inline]
    fn ordered_len() -> usize {
        16
    }

    #[inline(always)]
    fn write_ordered(self, to: &mut [u8]) {
        to.copy_from_slice(&self.to_be_bytes());
    }

    #[inline]
    fn value_fits(self) {}

    #[inline]
    fn values_are_few(_values: &[u128]) {}
}

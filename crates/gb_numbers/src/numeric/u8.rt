//! Numbers of 8 bits with no sign.

use super::{Native, PolarsNumericType};
use crate::number_cell::unsigned_number;
use gb_base::data_type::DataType;

/// The type of columns of `u8`.
pub struct UInt8Type;

impl PolarsNumericType for UInt8Type {
    type Native = u8;

    fn data_type() -> DataType {
        DataType::UInt8
    }
}

impl Native for u8 {
    ghost use Rattle.std.specs.Prelude.{pos, refl};
    ghost use Rattle.std.specs.Int.{w8};
    ghost use Rattle.std.proofs.Common.{inr};
    ghost use Rattle.gb_defs.specs.ColumnType.{Unsigned};
    ghost use Rattle.gb_numbers.specs.Native.{Decides-pos, cmp-pos};

    ghost number = { λ n. pos n };

    ghost width = { w8 };

    ghost flat = { Unsigned w8 };

    ghost whole = { inr refl };

    ghost equal_by_number = { Decides-pos };

    ghost ordered_by_number = { cmp-pos };

    ghost printed = { λ n. refl };

    fn zero() -> u8 {
        0
    }

    #[inline]
    fn add_wrapped(self, other: u8) -> u8 {
        self.wrapping_add(other)
    }

    #[inline]
    fn is_wide() -> bool {
        false
    }

    #[inline]
    fn to_word(self) -> u64 {
        u64::from(self)
    }

    #[inline]
    fn to_wide(self) -> u128 {
        u128::from(self)
    }

    #[inline(always)]
    fn from_cell(cell: &[u8]) -> Option<u8> {
        u8::try_from(unsigned_number(cell)?).ok()
    }

    #[inline]
    fn ordered_len() -> usize {
        1
    }

    #[inline(always)]
    fn write_ordered(self, to: &mut [u8]) {
        to[0] = self;
    }

    #[inline]
    fn value_fits(self) {}

    #[inline]
    fn values_are_few(_values: &[u8]) {}
}

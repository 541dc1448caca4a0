//! Numbers of 16 bits with no sign.

use super::{Native, PolarsNumericType};
use crate::number_cell::unsigned_number;
use gb_base::data_type::DataType;

/// The type of columns of `u16`.
pub struct UInt16Type;

impl PolarsNumericType for UInt16Type {
    type Native = u16;

    fn data_type() -> DataType {
        DataType::UInt16
    }
}

impl Native for u16 {
    ghost use Rattle.std.specs.Prelude.{pos, refl};
    ghost use Rattle.std.specs.Int.{w16};
    ghost use Rattle.std.proofs.Common.{inr};
    ghost use Rattle.gb_defs.specs.ColumnType.{Unsigned};
    ghost use Rattle.gb_numbers.specs.Native.{Decides-pos, cmp-pos};

    ghost number = { λ n. pos n };

    ghost width = { w16 };

    ghost flat = { Unsigned w16 };

    ghost whole = { inr refl };

    ghost equal_by_number = { Decides-pos };

    ghost ordered_by_number = { cmp-pos };

    ghost printed = { λ n. refl };

    fn zero() -> u16 {
        0
    }

    #[inline]
    fn add_wrapped(self, other: u16) -> u16 {
        self.wrapping_add(other)
    }

    #[inline]
    fn is_wide() -> bool {
        false
    }

    #[inline]
    fn to_word(self) -> u64 {
        u64::from(self)
    }

    #[inline]
    fn to_wide(self) -> u128 {
        u128::from(self)
    }

    #[inline(always)]
    fn from_cell(cell: &[u8]) -> Option<u16> {
        u16::try_from(unsigned_number(cell)?).ok()
    }

    #[inline]
    fn ordered_len() -> usize {
        2
    }

    #[inline(always)]
    fn write_ordered(self, to: &mut [u8]) {
        to.copy_from_slice(&self.to_be_bytes());
    }

    #[inline]
    fn value_fits(self) {}

    #[inline]
    fn values_are_few(_values: &[u16]) {}
}

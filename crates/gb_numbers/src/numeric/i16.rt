//! Numbers of 16 bits with a sign.

use super::{Native, PolarsNumericType};
use crate::number_cell::signed_number;
use gb_base::data_type::DataType;

/// The type of columns of `i16`.
pub struct Int16Type;

impl PolarsNumericType for Int16Type {
    type Native = i16;

    fn data_type() -> DataType {
        DataType::Int16
    }
}

impl Native for i16 {
    ghost use Rattle.std.specs.Prelude.{refl};
    ghost use Rattle.std.specs.Int.{w16};
    ghost use Rattle.std.proofs.Common.{inl};
    ghost use Rattle.std.proofs.lemmas.Bool.Decides.{Decides-int_eq};
    ghost use Rattle.gb_defs.specs.ColumnType.{Signed};

    ghost number = { λ n. n };

    ghost width = { w16 };

    ghost flat = { Signed w16 };

    ghost whole = { inl refl };

    ghost equal_by_number = { Decides-int_eq };

    ghost ordered_by_number = { λ a b. refl };

    ghost printed = { λ n. refl };

    fn zero() -> i16 {
        0
    }

    #[inline]
    fn add_wrapped(self, other: i16) -> i16 {
        self.wrapping_add(other)
    }

    #[inline]
    fn is_wide() -> bool {
        false
    }

    #[inline]
    fn to_word(self) -> u64 {
        i64::from(self).cast_unsigned()
    }

    #[inline]
    fn to_wide(self) -> u128 {
        i128::from(self).cast_unsigned()
    }

    #[inline(always)]
    fn from_cell(cell: &[u8]) -> Option<i16> {
        i16::try_from(signed_number(cell)?).ok()
    }

    #[inline]
    fn ordered_len() -> usize {
        2
    }

    #[inline(always)]
    fn write_ordered(self, to: &mut [u8]) {
        (self.cast_unsigned() ^ (1 << 15)).write_ordered(to);
    }

    #[inline]
    fn value_fits(self) {}

    #[inline]
    fn values_are_few(_values: &[i16]) {}
}

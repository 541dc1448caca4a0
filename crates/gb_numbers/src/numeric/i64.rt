//! Numbers of 64 bits with a sign.

use super::{Native, PolarsNumericType};
use crate::number_cell::signed_number;
use gb_base::data_type::DataType;

/// The type of columns of `i64`.
pub struct Int64Type;

impl PolarsNumericType for Int64Type {
    type Native = i64;

    fn data_type() -> DataType {
        DataType::Int64
    }
}

impl Native for i64 {
    ghost use Rattle.std.specs.Prelude.{refl};
    ghost use Rattle.std.specs.Int.{w64};
    ghost use Rattle.std.proofs.Common.{inl};
    ghost use Rattle.std.proofs.lemmas.Bool.Decides.{Decides-int_eq};
    ghost use Rattle.gb_defs.specs.ColumnType.{Signed};

    ghost number = { λ n. n };

    ghost width = { w64 };

    ghost flat = { Signed w64 };

    ghost whole = { inl refl };

    ghost equal_by_number = { Decides-int_eq };

    ghost ordered_by_number = { λ a b. refl };

    ghost printed = { λ n. refl };

    fn zero() -> i64 {
        0
    }

    #[inline]
    fn add_wrapped(self, other: i64) -> i64 {
        self.wrapping_add(other)
    }

    #[inline]
    fn is_wide() -> bool {
        false
    }

    #[inline]
    fn to_word(self) -> u64 {
        self.cast_unsigned()
    }

    #[inline]
    fn to_wide(self) -> u128 {
        i128::from(self).cast_unsigned()
    }

    #[inline(always)]
    fn from_cell(cell: &[u8]) -> Option<i64> {
        signed_number(cell)
    }

    #[inline]
    fn ordered_len() -> usize {
        8
    }

    #[inline(always)]
    fn write_ordered(self, to: &mut [u8]) {
        (self.cast_unsigned() ^ (1 << 63)).write_ordered(to);
    }

    #[inline]
    fn value_fits(self) {}

    #[inline]
    fn values_are_few(_values: &[i64]) {}
}

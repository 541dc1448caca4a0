//! Numbers of 128 bits with a sign.

use super::{Native, PolarsNumericType};
use crate::number_cell::signed_wide;
use gb_base::data_type::DataType;

/// The type of columns of `i128`.
pub struct Int128Type;

impl PolarsNumericType for Int128Type {
    type Native = i128;

    fn data_type() -> DataType {
        DataType::Int128
    }
}

impl Native for i128 {
    ghost use Rattle.std.specs.Prelude.{refl};
    ghost use Rattle.std.specs.Int.{w128};
    ghost use Rattle.std.proofs.Common.{inl};
    ghost use Rattle.std.proofs.lemmas.Bool.Decides.{Decides-int_eq};
    ghost use Rattle.gb_defs.specs.ColumnType.{Signed};

    ghost number = { λ n. n };

    ghost width = { w128 };

    ghost flat = { Signed w128 };

    ghost whole = { inl refl };

    ghost equal_by_number = { Decides-int_eq };

    ghost ordered_by_number = { λ a b. refl };

    ghost printed = { λ n. refl };

    fn zero() -> i128 {
        0
    }

    #[inline]
    fn add_wrapped(self, other: i128) -> i128 {
        self.wrapping_add(other)
    }

    #[inline]
    fn is_wide() -> bool {
        true
    }

    #[inline]
    fn to_word(self) -> u64 {
        (self.cast_unsigned() & 0xffff_ffff_ffff_ffff) as u64
    }

    #[inline]
    fn to_wide(self) -> u128 {
        self.cast_unsigned()
    }

    #[inline(always)]
    fn from_cell(cell: &[u8]) -> Option<i128> {
        signed_wide(cell)
    }

    #[inline]
    fn ordered_len() -> usize {
        16
    }

    #[inline(always)]
    fn write_ordered(self, to: &mut [u8]) {
        (self.cast_unsigned() ^ (1 << 127)).write_ordered(to);
    }

    #[inline]
    fn value_fits(self) {}

    #[inline]
    fn values_are_few(_values: &[i128]) {}
}

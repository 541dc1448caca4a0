//! Whole numbers as columns hold them: what a native number means, and the types of columns of them. Each
//! type is a file, with its native type.

ghost use Rattle.std.specs.Prelude.{◌≡◌, ◌<◌, ◌^◌, ◌%◌, ℤ, pos, ◌+ℤ◌, ◌++◌, length, false, option_map, OnOk};
ghost use Rattle.std.specs.Bool.{Decides};
ghost use Rattle.std.specs.Ordering.{int_cmp};
ghost use Rattle.std.specs.Int.{Width, byte_len, w128, cast_unsigned};
ghost use Rattle.gb_defs.specs.Cell.{flat_value};
ghost use Rattle.gb_defs.specs.CellText.{number_text};
ghost use Rattle.gb_defs.specs.ColumnType.{FlatType, Flat, FitsNumber};
ghost use Rattle.gb_defs.specs.Fold.{wrap_flat};
ghost use Rattle.gb_defs.specs.Hash.{word_of};
ghost use Rattle.gb_defs.specs.RowBytes.{number_bytes};
ghost use Rattle.gb_defs.specs.Slot.{Num};
ghost use Rattle.gb_numbers.specs.Native.{IsWhole, is_wide, unworded, unwidened};
ghost use Rattle.gb_base.specs.DataType.{type_of};

mod i128;
mod i16;
mod i32;
mod i64;
mod i8;
mod u128;
mod u16;
mod u32;
mod u64;
mod u8;

use gb_base::data_type::DataType;
pub use i8::Int8Type;
pub use i16::Int16Type;
pub use i32::Int32Type;
pub use i64::Int64Type;
pub use i128::Int128Type;
use itoa::{Buffer, Integer};
use std::alloc::AllocError;
use std::hash::Hash;
pub use u8::UInt8Type;
pub use u16::UInt16Type;
pub use u32::UInt32Type;
pub use u64::UInt64Type;

/// A whole number of a fixed width: all that columns, hashes and tables ask of it.
// No Send or Sync here: an impl that calls a function with that bound would get no proof.
pub trait Native: Copy + Eq + Ord + Hash + Integer {
    // The integer that a value is.
    ghost number: { Self → ℤ };

    // The width.
    ghost width: { Width };

    // The type of a column of these numbers.
    ghost flat: { FlatType };

    fn zero() -> Self
        ensures { number result ≡ pos 0 };

    /// The sum, modulo 2 to the width.
    fn add_wrapped(self, other: Self) -> Self
        ensures { number result ≡ wrap_flat flat (number self +ℤ number other) };

    /// Whether 64 bits are too few.
    fn is_wide() -> bool
        ensures { result ≡ is_wide width };

    /// The low 64 bits, with the sign extended. They tell a number that is not wide.
    fn to_word(self) -> u64
        ensures low { result ≡ cast_unsigned w128 (number self) % 2 ^ 64 }
        ensures word { is_wide width ≡ false → result ≡ word_of (number self) }
        ensures back { is_wide width ≡ false
            → unworded flat (word_of (number self)) ≡ number self };

    /// The 128 bits, with the sign extended. They tell the number.
    fn to_wide(self) -> u128
        ensures wide { result ≡ cast_unsigned w128 (number self) }
        ensures back { unwidened flat (cast_unsigned w128 (number self)) ≡ number self };

    /// The number that a cell of a table reads as.
    fn from_cell(cell: &[u8]) -> Option<Self>
        ensures { option_map (λ n. Num (number n)) result ≡ flat_value flat cell.now };

    /// How many bytes `write_ordered` writes.
    fn ordered_len() -> usize
        ensures { result ≡ byte_len width };

    /// The bytes that stand for it in the bytes of a row: highest first, with the bit of a sign turned.
    fn write_ordered(self, to: &mut [u8])
        requires { length to.old ≡ byte_len width }
        ensures { to.new ≡ number_bytes flat (number self) };

    /// Tells that a value fits the type. It does nothing when it runs.
    fn value_fits(self)
        ensures { FitsNumber flat (number self) };

    /// Tells that a slice of values is not too long. It does nothing when it runs.
    fn values_are_few(values: &[Self])
        ensures { length values.now < 2 ^ 63 };

    // The type is that of the whole numbers of the width.
    ghost whole: { IsWhole width flat };

    // Values are equal where their numbers are.
    ghost equal_by_number: { (a b : Self) → Decides (Self.eq a b) (number a ≡ number b) };

    // Values are in the order of their numbers.
    ghost ordered_by_number: { (a b : Self) → Self.cmp a b ≡ int_cmp (number a) (number b) };

    // A value is printed as its number.
    ghost printed: { (n : Self) → Self.text n ≡ number_text (Flat flat) (number n) };
}

/// A whole-number type of columns.
pub trait PolarsNumericType {
    type Native: Native;

    fn data_type() -> DataType
        ensures { type_of result ≡ Flat Self.Native.flat };
}

/// The digits of a number, behind what is there.
#[inline]
pub fn write_number<N: Native>(number: N, to: &mut Vec<u8>) -> Result<(), AllocError>
    ensures { let text = number_text (Flat N.flat) (N.number number) in
        OnOk result (to.new.items ≡ to.old.items ++ text) }
{
    let mut digits = Buffer::new();
    to.extend_from_slice(digits.format(number).as_bytes())?;
    Ok(())
}

//! Decimals.

use super::{Logical, LogicalKind};
use gb_base::data_type::DataType;
use gb_cols::primitive::Int128Chunked;
use gb_numbers::decimal_cell::{decimal_number, write_decimal};
use gb_numbers::numeric::Int128Type;
use std::alloc::AllocError;

/// Numbers that count parts of 10 ^ scale. The precision is a label, and bounds no number.
#[derive(Clone, Copy)]
pub struct DecimalKind {
    pub precision: Option<usize>,
    pub scale: usize,
}

pub type DecimalChunked = Logical<DecimalKind>;

impl LogicalKind for DecimalKind {
    ghost use Rattle.std.specs.Prelude.{Some, refl};
    ghost use Rattle.gb_defs.specs.ColumnType.{Decimal};
    ghost use Rattle.gb_logical.specs.Logical.{decimal_stands};

    type Physical = Int128Type;

    ghost flat = { λ kind. Decimal kind.precision (Some kind.scale) };

    ghost stands = { λ kind. decimal_stands kind.precision (Some kind.scale) };

    ghost sums = { λ kind h. record { wraps = λ s. refl; same_type = refl } };

    fn data_type(&self) -> DataType {
        DataType::Decimal(self.precision, Some(self.scale))
    }

    #[inline]
    fn read(&self, cell: &[u8]) -> Option<i128> {
        decimal_number(cell, self.scale)
    }

    fn write(&self, number: i128, to: &mut Vec<u8>) -> Result<(), AllocError> {
        write_decimal(number, self.scale, to)
    }

    fn has_sum(&self) -> bool {
        true
    }
}

impl Logical<DecimalKind> {
    ghost use Rattle.std.specs.Prelude.{◌≡◌, Some};
    ghost use Rattle.gb_defs.specs.ColumnType.{Decimal};
    ghost use Rattle.gb_logical.specs.Logical.{logical_column};

    /// The decimals that a column counts in parts of 10 ^ scale.
    pub fn new(physical: Int128Chunked, precision: Option<usize>, scale: usize) -> Self
        ensures { result ≡ logical_column (Decimal precision (Some scale)) physical }
    {
        Logical::with_kind(physical, DecimalKind { precision, scale })
    }
}

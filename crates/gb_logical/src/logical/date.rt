//! Dates.

use super::{Logical, LogicalKind};
use gb_base::data_type::DataType;
use gb_cols::primitive::Int32Chunked;
use gb_numbers::numeric::{Int32Type, Native, write_number};
use std::alloc::AllocError;

/// Days since the first of January 1970.
#[derive(Clone, Copy)]
pub struct DateKind;

pub type DateChunked = Logical<DateKind>;

impl LogicalKind for DateKind {
    ghost use Rattle.gb_defs.specs.ColumnType.{Date};
    ghost use Rattle.gb_logical.specs.Logical.{date_stands, no_sums};

    type Physical = Int32Type;

    ghost flat = { λ kind. Date };

    ghost stands = { λ kind. date_stands };

    ghost sums = { λ kind h. no_sums h };

    fn data_type(&self) -> DataType {
        DataType::Date
    }

    #[inline]
    fn read(&self, cell: &[u8]) -> Option<i32> {
        i32::from_cell(cell)
    }

    fn write(&self, number: i32, to: &mut Vec<u8>) -> Result<(), AllocError> {
        write_number(number, to)
    }

    fn has_sum(&self) -> bool {
        false
    }
}

impl Logical<DateKind> {
    ghost use Rattle.std.specs.Prelude.{◌≡◌};
    ghost use Rattle.gb_defs.specs.ColumnType.{Date};
    ghost use Rattle.gb_logical.specs.Logical.{logical_column};

    /// The dates that a column counts in days.
    pub fn new(physical: Int32Chunked) -> Self
        ensures { result ≡ logical_column Date physical }
    {
        Logical::with_kind(physical, DateKind)
    }
}

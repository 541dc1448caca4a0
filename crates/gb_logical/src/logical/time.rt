//! Times of a day.

use super::{Logical, LogicalKind};
use gb_base::data_type::DataType;
use gb_cols::primitive::Int64Chunked;
use gb_numbers::numeric::{Int64Type, Native, write_number};
use std::alloc::AllocError;

/// Nanoseconds since midnight.
#[derive(Clone, Copy)]
pub struct TimeKind;

pub type TimeChunked = Logical<TimeKind>;

impl LogicalKind for TimeKind {
    ghost use Rattle.gb_defs.specs.ColumnType.{Time};
    ghost use Rattle.gb_logical.specs.Logical.{time_stands, no_sums};

    type Physical = Int64Type;

    ghost flat = { λ kind. Time };

    ghost stands = { λ kind. time_stands };

    ghost sums = { λ kind h. no_sums h };

    fn data_type(&self) -> DataType {
        DataType::Time
    }

    #[inline]
    fn read(&self, cell: &[u8]) -> Option<i64> {
        i64::from_cell(cell)
    }

    fn write(&self, number: i64, to: &mut Vec<u8>) -> Result<(), AllocError> {
        write_number(number, to)
    }

    fn has_sum(&self) -> bool {
        false
    }
}

impl Logical<TimeKind> {
    ghost use Rattle.std.specs.Prelude.{◌≡◌};
    ghost use Rattle.gb_defs.specs.ColumnType.{Time};
    ghost use Rattle.gb_logical.specs.Logical.{logical_column};

    /// The times that a column counts in nanoseconds.
    pub fn new(physical: Int64Chunked) -> Self
        ensures { result ≡ logical_column Time physical }
    {
        Logical::with_kind(physical, TimeKind)
    }
}

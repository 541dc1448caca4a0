//! Points in time.

use super::{Logical, LogicalKind};
use gb_base::data_type::{DataType, TimeUnit};
use gb_cols::primitive::Int64Chunked;
use gb_numbers::numeric::{Int64Type, Native, write_number};
use std::alloc::AllocError;

/// So many units since the start of 1970.
#[derive(Clone, Copy)]
pub struct DatetimeKind {
    pub unit: TimeUnit,
}

pub type DatetimeChunked = Logical<DatetimeKind>;

impl LogicalKind for DatetimeKind {
    ghost use Rattle.gb_defs.specs.ColumnType.{Datetime};
    ghost use Rattle.gb_base.specs.DataType.{unit_of};
    ghost use Rattle.gb_logical.specs.Logical.{datetime_stands, no_sums};

    type Physical = Int64Type;

    ghost flat = { λ kind. Datetime (unit_of kind.unit) };

    ghost stands = { λ kind. datetime_stands (unit_of kind.unit) };

    ghost sums = { λ kind h. no_sums h };

    fn data_type(&self) -> DataType {
        DataType::Datetime(self.unit)
    }

    #[inline]
    fn read(&self, cell: &[u8]) -> Option<i64> {
        i64::from_cell(cell)
    }

    fn write(&self, number: i64, to: &mut Vec<u8>) -> Result<(), AllocError> {
        write_number(number, to)
    }

    fn has_sum(&self) -> bool {
        false
    }
}

impl Logical<DatetimeKind> {
    ghost use Rattle.std.specs.Prelude.{◌≡◌};
    ghost use Rattle.gb_defs.specs.ColumnType.{Datetime};
    ghost use Rattle.gb_base.specs.DataType.{unit_of};
    ghost use Rattle.gb_logical.specs.Logical.{logical_column};

    /// The points in time that a column counts in a unit.
    pub fn new(physical: Int64Chunked, unit: TimeUnit) -> Self
        ensures { result ≡ logical_column (Datetime (unit_of unit)) physical }
    {
        Logical::with_kind(physical, DatetimeKind { unit })
    }
}

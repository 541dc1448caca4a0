//! Spans of time.

use super::{Logical, LogicalKind};
use gb_base::data_type::{DataType, TimeUnit};
use gb_cols::primitive::Int64Chunked;
use gb_numbers::numeric::{Int64Type, Native, write_number};
use std::alloc::AllocError;

/// So many units.
#[derive(Clone, Copy)]
pub struct DurationKind {
    pub unit: TimeUnit,
}

pub type DurationChunked = Logical<DurationKind>;

impl LogicalKind for DurationKind {
    ghost use Rattle.gb_defs.specs.ColumnType.{Duration};
    ghost use Rattle.gb_base.specs.DataType.{unit_of};
    ghost use Rattle.std.specs.Prelude.{refl};
    ghost use Rattle.gb_logical.specs.Logical.{duration_stands};

    type Physical = Int64Type;

    ghost flat = { λ kind. Duration (unit_of kind.unit) };

    ghost stands = { λ kind. duration_stands (unit_of kind.unit) };

    ghost sums = { λ kind h. record { wraps = λ s. refl; same_type = refl } };

    fn data_type(&self) -> DataType {
        DataType::Duration(self.unit)
    }

    #[inline]
    fn read(&self, cell: &[u8]) -> Option<i64> {
        i64::from_cell(cell)
    }

    fn write(&self, number: i64, to: &mut Vec<u8>) -> Result<(), AllocError> {
        write_number(number, to)
    }

    fn has_sum(&self) -> bool {
        true
    }
}

impl Logical<DurationKind> {
    ghost use Rattle.std.specs.Prelude.{◌≡◌};
    ghost use Rattle.gb_defs.specs.ColumnType.{Duration};
    ghost use Rattle.gb_base.specs.DataType.{unit_of};
    ghost use Rattle.gb_logical.specs.Logical.{logical_column};

    /// The spans that a column counts in a unit.
    pub fn new(physical: Int64Chunked, unit: TimeUnit) -> Self
        ensures { result ≡ logical_column (Duration (unit_of unit)) physical }
    {
        Logical::with_kind(physical, DurationKind { unit })
    }
}

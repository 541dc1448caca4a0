//! How a run of the program ends, and why a table is refused.

ghost use Rattle.std.specs.Prelude.{◌≡◌};

use gb_base::error::PolarsError;
use std::alloc::AllocError;
use std::fmt;
use thiserror::Error;

/// Where a table's text is at fault. Rows count from 0, the header, and columns from 1.
#[derive(Clone, Copy, Debug, PartialEq, Eq)]
pub enum TableFault {
    /// There is no record.
    NoHeader,
    /// The column whose name stood before.
    SameName(u64),
    /// The row, its fields, and the fields that are wanted.
    Ragged(u64, u64, u64),
    /// The row and the column of a cell that does not read; of the header, a field that is no text or
    /// names a type that is not read yet.
    BadCell(u64, u64),
}

impl fmt::Display for TableFault {
    ghost use Rattle.std.specs.Prelude.{Some};
    ghost use Rattle.gb_text.specs.FaultText.{fault_text};

    ghost output = { λ fault. Some (fault_text fault) };

    fn fmt<W: fmt::Write>(&self, f: &mut fmt::Formatter<W>) -> fmt::Result {
        match self {
            TableFault::NoHeader => write!(f, "no header"),
            TableFault::SameName(column) => write!(f, "column {column}: name used before"),
            TableFault::Ragged(row, found, wanted) => {
                write!(f, "row {row}: {found} fields, {wanted} wanted")
            }
            TableFault::BadCell(row, column) => {
                write!(f, "row {row}, column {column}: bad cell")
            }
        }
    }
}

/// Why a table was not read.
#[derive(Debug, Drop, Error)]
pub enum TableError {
    #[error("table: {0}")]
    Fault(TableFault),
    #[error("no memory")]
    NoMemory,
}

/// How a run of the program ended.
#[derive(Debug, Drop)]
pub enum Status {
    Done,
    Usage,
    Table(TableFault),
    Group(PolarsError),
    ReadFault,
    WriteFault,
    TooLong,
    NoMemory,
}

impl Status {
    ghost use Rattle.gb_text.specs.Status.{code_of};

    /// The exit status of the program.
    pub fn code(&self) -> u8
        ensures { result ≡ code_of self.now }
    {
        match self {
            Status::Done => 0,
            Status::Usage => 2,
            Status::Table(_) => 3,
            Status::Group(_) => 4,
            Status::ReadFault => 5,
            Status::WriteFault => 6,
            Status::TooLong => 7,
            Status::NoMemory => 9,
        }
    }
}

impl From<AllocError> for Status {
    ghost use Rattle.gb_text.specs.declared.status.Status.TheVariants.{NoMemory};

    ghost from_gives = { λ _ status. status ≡ NoMemory };

    fn from(_: AllocError) -> Status {
        Status::NoMemory
    }
}

impl From<TableError> for Status {
    ghost use Rattle.gb_text.specs.Status.{of_table};

    ghost from_gives = { λ e status. status ≡ of_table e };

    fn from(e: TableError) -> Status {
        match e {
            TableError::Fault(fault) => Status::Table(fault),
            TableError::NoMemory => Status::NoMemory,
        }
    }
}

impl From<PolarsError> for Status {
    ghost use Rattle.gb_text.specs.Status.{IsStatusOf};

    ghost from_gives = { λ e status. IsStatusOf e status };

    fn from(e: PolarsError) -> Status {
        match e {
            PolarsError::NoMemory => Status::NoMemory,
            e => Status::Group(e),
        }
    }
}

//! Why a call was refused, and the line that tells it.

ghost use Rattle.std.specs.Prelude.{Some};
ghost use Rattle.gb_base.specs.ErrorText.{error_text, operation_text};

use crate::small_str::PlSmallStr;
use std::alloc::{AllocError, AllocFailed};
use std::fmt;

/// What was asked of a column that its type does not have.
#[derive(Clone, Copy, Debug, PartialEq, Eq)]
pub enum Operation {
    Sum,
    Product,
    Min,
    Max,
    Hash,
    RowEncoding,
}

impl fmt::Display for Operation {
    ghost output = { λ operation. Some (operation_text operation) };

    fn fmt<W: fmt::Write>(&self, f: &mut fmt::Formatter<W>) -> fmt::Result {
        match self {
            Operation::Sum => write!(f, "sum"),
            Operation::Product => write!(f, "product"),
            Operation::Min => write!(f, "min"),
            Operation::Max => write!(f, "max"),
            Operation::Hash => write!(f, "hash"),
            Operation::RowEncoding => write!(f, "row encoding"),
        }
    }
}

/// Why a call was refused. A name that an error holds is that of the first offending column.
#[derive(Debug, Drop)]
pub enum PolarsError {
    ComputeError,
    ShapeMismatch,
    TooManyRows(u64),
    ColumnNotFound(PlSmallStr),
    InvalidOperation(Operation, PlSmallStr),
    Duplicate(PlSmallStr),
    SchemaMismatch(PlSmallStr),
    NoMemory,
}

pub type PolarsResult<T> = Result<T, PolarsError>;

impl fmt::Display for PolarsError {
    ghost output = { λ e. Some (error_text e) };

    fn fmt<W: fmt::Write>(&self, f: &mut fmt::Formatter<W>) -> fmt::Result {
        match self {
            PolarsError::ComputeError => write!(f, "compute"),
            PolarsError::ShapeMismatch => write!(f, "shape mismatch"),
            PolarsError::TooManyRows(rows) => write!(f, "too many rows: {rows}"),
            PolarsError::ColumnNotFound(name) => {
                let name = name.as_str();
                write!(f, "column not found: {name}")
            }
            PolarsError::InvalidOperation(operation, name) => {
                let name = name.as_str();
                write!(f, "invalid operation: {operation} of {name}")
            }
            PolarsError::Duplicate(name) => {
                let name = name.as_str();
                write!(f, "duplicate column: {name}")
            }
            PolarsError::SchemaMismatch(name) => {
                let name = name.as_str();
                write!(f, "schema mismatch: {name}")
            }
            PolarsError::NoMemory => write!(f, "no memory"),
        }
    }
}

impl std::error::Error for PolarsError {}

impl From<AllocError> for PolarsError {
    ghost use Rattle.gb_base.specs.PlSmallStr.{IsNoMemory};

    ghost from_gives = { λ _ e. IsNoMemory e };

    fn from(_: AllocError) -> PolarsError {
        PolarsError::NoMemory
    }
}

impl<T: Drop> From<AllocFailed<T>> for PolarsError {
    ghost use Rattle.gb_base.specs.PlSmallStr.{IsNoMemory};

    ghost from_gives = { λ _ e. IsNoMemory e };

    fn from(_: AllocFailed<T>) -> PolarsError {
        PolarsError::NoMemory
    }
}

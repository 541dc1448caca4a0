//! The types of columns, and what may be known of the order of a column.

use crate::field::{Field, clone_fields};
use crate::rev_mapping::RevMapping;
use std::alloc::AllocError;
use std::sync::Arc;

/// What a time is counted in.
#[derive(Clone, Copy, Debug, PartialEq, Eq)]
pub enum TimeUnit {
    Nanoseconds,
    Microseconds,
    Milliseconds,
}

/// How the slots of a category column compare: by their codes, or by the texts of these.
#[derive(Clone, Copy, Debug, Default, PartialEq, Eq)]
pub enum CategoricalOrdering {
    #[default]
    Physical,
    Lexical,
}

/// The type of a column. A decimal has a precision, which is a label alone, and a scale: how many of its
/// digits stand behind the point. A category has its texts, where they are known. A list has the type of its
/// items, an array also how many they are, and a struct has its parts.
#[derive(Debug, PartialEq, Eq, Drop)]
#[cycle(data_type)]
pub enum DataType {
    Null,
    Boolean,
    UInt8,
    UInt16,
    UInt32,
    UInt64,
    Int8,
    Int16,
    Int32,
    Int64,
    Int128,
    Decimal(Option<usize>, Option<usize>),
    Date,
    Datetime(TimeUnit),
    Duration(TimeUnit),
    Time,
    String,
    Binary,
    BinaryOffset,
    Categorical(Option<Arc<RevMapping>>, CategoricalOrdering),
    Enum(Option<Arc<RevMapping>>, CategoricalOrdering),
    List(Box<DataType>),
    Array(Box<DataType>, usize),
    Struct(Vec<Field>),
}

impl Clone for DataType {
    ghost use Rattle.std.specs.Prelude.{◌≡◌};
    ghost use Rattle.gb_base.specs.DataType.{type_of};

    ghost is_clone = { λ dtype copy. type_of copy ≡ type_of dtype };

    #[cycle(clone)]
    #[tactic(auto, using(crate::proofs::DataTypeLemmas::struct_type))]
    fn clone(&self) -> Result<DataType, AllocError> {
        match self {
            DataType::Null => Ok(DataType::Null),
            DataType::Boolean => Ok(DataType::Boolean),
            DataType::UInt8 => Ok(DataType::UInt8),
            DataType::UInt16 => Ok(DataType::UInt16),
            DataType::UInt32 => Ok(DataType::UInt32),
            DataType::UInt64 => Ok(DataType::UInt64),
            DataType::Int8 => Ok(DataType::Int8),
            DataType::Int16 => Ok(DataType::Int16),
            DataType::Int32 => Ok(DataType::Int32),
            DataType::Int64 => Ok(DataType::Int64),
            DataType::Int128 => Ok(DataType::Int128),
            DataType::Decimal(precision, scale) => Ok(DataType::Decimal(*precision, *scale)),
            DataType::Date => Ok(DataType::Date),
            DataType::Datetime(unit) => Ok(DataType::Datetime(*unit)),
            DataType::Duration(unit) => Ok(DataType::Duration(*unit)),
            DataType::Time => Ok(DataType::Time),
            DataType::String => Ok(DataType::String),
            DataType::Binary => Ok(DataType::Binary),
            DataType::BinaryOffset => Ok(DataType::BinaryOffset),
            DataType::Categorical(map, ordering) => {
                Ok(DataType::Categorical(map.clone()?, *ordering))
            }
            DataType::Enum(map, ordering) => Ok(DataType::Enum(map.clone()?, *ordering)),
            DataType::List(inner) => {
                let copy = inner.as_ref().clone()?;
                Ok(DataType::List(Box::new(*Box::allocator(inner), copy)?))
            }
            DataType::Array(inner, width) => {
                let copy = inner.as_ref().clone()?;
                Ok(DataType::Array(Box::new(*Box::allocator(inner), copy)?, *width))
            }
            DataType::Struct(fields) => Ok(DataType::Struct(clone_fields(fields)?)),
        }
    }
}

/// Whether a column is known to be in order.
#[derive(Clone, Copy, Debug, PartialEq, Eq)]
pub enum IsSorted {
    Ascending,
    Descending,
    Not,
}

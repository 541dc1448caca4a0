//! What the encoding of a type's values rests on besides the type.

ghost use Rattle.std.specs.Prelude.{◌≡◌, false, is_some, map, IfOk, IfErr};
ghost use Rattle.std.specs.List.{list_any};
ghost use Rattle.gb_base.specs.DataType.{fields_of, part_of, texts_of, type_of};
ghost use Rattle.gb_base.specs.PlSmallStr.{IsNoMemory};
ghost use Rattle.gb_defs.specs.ColumnType.{StructOf};
ghost use Rattle.gb_rows.specs.Context.{IsContextOf, categories_context, decimal_of};

use gb_base::data_type::DataType;
use gb_base::error::PolarsResult;
use gb_base::field::Field;
use gb_base::rev_mapping::RevMapping;
use std::alloc::Global;
use std::sync::Arc;

/// What the encoding of a type's values rests on besides the type.
#[derive(Drop)]
pub enum RowEncodingContext {
    /// Those of a struct's fields, one of which has one.
    Struct(Vec<Option<RowEncodingContext>>),
    Categorical(RowEncodingCategoricalContext),
    /// How many digits a decimal has.
    Decimal(usize),
}

/// What the encoding of categories rests on.
#[derive(Drop)]
pub struct RowEncodingCategoricalContext {
    /// The greatest number where the categories are not known.
    pub num_known_categories: u32,
    pub is_enum: bool,
    /// The place of each category among all in the order of their texts, where they are to be in it.
    pub lexical_sort_idxs: Option<Vec<u32>>,
}

/// The context of a type, where it has one.
#[cycle(context)]
pub fn get_row_encoding_context(
    alloc: Global,
    dtype: &DataType,
    ordered: bool,
) -> PolarsResult<Option<RowEncodingContext>>
    requires { ordered ≡ false }
    ensures ok { IfOk result (IsContextOf (type_of dtype.now)) }
    ensures err { IfErr result IsNoMemory }
{
    match dtype {
        DataType::Null
        | DataType::Boolean
        | DataType::UInt8
        | DataType::UInt16
        | DataType::UInt32
        | DataType::UInt64
        | DataType::Int8
        | DataType::Int16
        | DataType::Int32
        | DataType::Int64
        | DataType::Int128
        | DataType::Date
        | DataType::Datetime(_)
        | DataType::Duration(_)
        | DataType::Time
        | DataType::String
        | DataType::Binary
        | DataType::BinaryOffset => Ok(None),
        DataType::Decimal(precision, _) => Ok(Some(decimal_context(*precision))),
        DataType::Categorical(map, _) => Ok(Some(categorical_context(map, false))),
        DataType::Enum(map, _) => Ok(Some(categorical_context(map, true))),
        DataType::List(inner) => get_row_encoding_context(alloc, inner, ordered),
        DataType::Array(inner, _) => get_row_encoding_context(alloc, inner, ordered),
        DataType::Struct(fields) => struct_context(alloc, fields, ordered),
    }
}

fn decimal_context(precision: Option<usize>) -> RowEncodingContext
    ensures { result ≡ decimal_of precision }
{
    RowEncodingContext::Decimal(precision.unwrap_or(38))
}

fn categorical_context(map: &Option<Arc<RevMapping>>, is_enum: bool) -> RowEncodingContext
    ensures { result ≡ categories_context (texts_of map.now) is_enum }
{
    let num_known_categories = match map {
        Some(map) => map.len() as u32,
        None => u32::MAX,
    };
    RowEncodingContext::Categorical(RowEncodingCategoricalContext {
        num_known_categories,
        is_enum,
        lexical_sort_idxs: None,
    })
}

// That of a struct: one for each field, where some field has one.
#[cycle(context)]
fn struct_context(
    alloc: Global,
    fields: &[Field],
    ordered: bool,
) -> PolarsResult<Option<RowEncodingContext>>
    requires { ordered ≡ false }
    ensures ok { let parts = fields_of (map part_of fields.now) in
        IfOk result (IsContextOf (StructOf parts)) }
    ensures err { IfErr result IsNoMemory }
{
    let mut contexts = Vec::with_capacity(alloc, fields.len())?;
    for field in fields {
        contexts.push(get_row_encoding_context(alloc, &field.dtype, ordered)?)?;
    }
    if has_one(&contexts) {
        Ok(Some(RowEncodingContext::Struct(contexts)))
    } else {
        Ok(None)
    }
}

fn has_one(contexts: &[Option<RowEncodingContext>]) -> bool
    ensures { result ≡ list_any is_some contexts.now }
{
    contexts.iter().any(|context| context.is_some())
}

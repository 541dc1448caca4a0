//! The columns that a header names, each by a field.

ghost use Rattle.std.specs.Prelude.{◌≡◌, [], IfOk, IfErr, IfSome, Ok, option_map};
ghost use Rattle.gb_defs.specs.Table.{Head, head_of};
ghost use Rattle.gb_base.specs.DataType.{type_of};
ghost use Rattle.gb_text.specs.Asked.{is_asked, names_in};
ghost use Rattle.gb_text.specs.Builder.{IsNamed};
ghost use Rattle.gb_text.specs.Head.{head_from, readable_field};
ghost use Rattle.gb_text.specs.Refusal.{IsRefusedTable};
ghost use Rattle.gb_text.specs.Table.{built_of, columns_of_header as builders_of};
ghost use Rattle.csv.specs.Records.{fields_of};

use crate::status::{TableError, TableFault};
use crate::table::builder::ColumnBuilder;
use crate::table::only_memory;
use crate::type_word::dtype_of;
use csv::ByteRecord;
use gb_base::data_type::DataType;
use gb_base::name_set::NameSet;
use gb_base::small_str::PlSmallStr;
use std::alloc::{AllocError, Global};

// The name and the type of the column that a header field names.
fn read_head(field: &str) -> (&str, DataType)
    ensures value { head_from result ≡ head_of field.now }
    ensures named { IsNamed result.1 }
{
    let Some((name, word)) = field.rsplit_once(':') else {
        return (field, DataType::String);
    };
    match dtype_of(word) {
        Some(dtype) => (name, dtype),
        None => (field, DataType::String),
    }
}

// The name and the type of the column that a header field names, None for bytes that are no text.
fn read_field(field: &[u8]) -> Option<(&str, DataType)>
    ensures value { option_map head_from result ≡ readable_field field.now }
    ensures named { IfSome result (λ head. IsNamed head.1) }
{
    let text = str::from_utf8(field).ok()?;
    Some(read_head(text))
}

// A column with no slots, which keeps them or not.
fn empty_column(
    alloc: Global,
    name: &str,
    dtype: DataType,
    keeps: bool,
) -> Result<ColumnBuilder, AllocError>
    requires { IsNamed dtype }
    ensures { let head : Head = record { name = name.now; dtype = type_of dtype } in
        IfOk result (λ b. b ≡ built_of keeps head []) }
{
    let name = only_memory(PlSmallStr::from_str(alloc, name))?;
    Ok(ColumnBuilder::new(alloc, name, dtype, keeps))
}

/// The columns that a header names, with no slots, or its first fault: a field that does not read, or
/// the name of a column before. Those that are asked for will keep their slots.
pub fn columns_of_header(
    alloc: Global,
    header: &ByteRecord,
    names: &[&str],
) -> Result<Vec<ColumnBuilder>, TableError>
    ensures ok { let asked = is_asked (names_in names.now) in
        IfOk result (λ columns. builders_of asked (fields_of header.now) ≡ Ok columns.items) }
    ensures err { let asked = is_asked (names_in names.now) in
        IfErr result (λ e. IsRefusedTable e (builders_of asked (fields_of header.now))) }
{
    let mut columns = Vec::with_capacity(alloc, header.len())?;
    let asked = NameSet::of(alloc, names)?;
    let mut seen = NameSet::new(alloc);
    for field in header {
        let place = columns.len() as u64 + 1;
        let Some((name, dtype)) = read_field(field) else {
            return Err(TableError::Fault(TableFault::BadCell(0, place)));
        };
        if !seen.insert(name)? {
            return Err(TableError::Fault(TableFault::SameName(place)));
        }
        let keeps = asked.contains(name);
        columns.push(empty_column(alloc, name, dtype, keeps)?)?;
    }
    Ok(columns)
}

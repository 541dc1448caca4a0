//! Whether two series have one type.

ghost use Rattle.std.specs.Prelude.{◌≡◌, ◌↔◌, map, IsTrue};
ghost use Rattle.std.specs.Str.{bytes_eq};
ghost use Rattle.gb_series.specs.Series.{value_of};
ghost use Rattle.gb_series.specs.Structs.{field_part};

use crate::nested::array::ArrayChunked;
use crate::nested::list::ListChunked;
use crate::nested::structs::StructChunked;
use crate::series::Series;
use gb_cols::series_trait::SeriesTrait;

// Whether two columns have one type.
#[cycle(same_type)]
pub(crate) fn same_type(a: &Series, b: &Series) -> bool
    ensures { IsTrue result ↔ ((value_of a.now).dtype ≡ (value_of b.now).dtype) }
{
    a.tell_variant();
    b.tell_variant();
    match a {
        Series::Flat(a) => match b {
            Series::Flat(b) => a.has_type_of(b),
            _ => false,
        },
        Series::List(a) => match b {
            Series::List(b) => same_lists(a, b),
            _ => false,
        },
        Series::Array(a) => match b {
            Series::Array(b) => same_arrays(a, b),
            _ => false,
        },
        Series::Struct(a) => match b {
            Series::Struct(b) => same_structs(a, b),
            _ => false,
        },
    }
}

// Whether lists have items of one type.
#[cycle(same_type)]
fn same_lists(a: &ListChunked, b: &ListChunked) -> bool
    ensures { IsTrue result ↔ (a.now.dtype ≡ b.now.dtype) }
{
    same_type(a.items(), b.items())
}

// Whether arrays have one width and items of one type.
#[cycle(same_type)]
fn same_arrays(a: &ArrayChunked, b: &ArrayChunked) -> bool
    ensures { IsTrue result ↔ (a.now.dtype ≡ b.now.dtype) }
{
    if a.width() != b.width() {
        return false;
    }
    same_type(a.items(), b.items())
}

// Whether structs have the same fields.
#[cycle(same_type)]
fn same_structs(a: &StructChunked, b: &StructChunked) -> bool
    ensures { IsTrue result ↔ (a.now.dtype ≡ b.now.dtype) }
{
    same_fields(a.fields(), b.fields())
}

// Whether fields have the same names and types, in one order.
#[cycle(same_type)]
fn same_fields(a: &[Series], b: &[Series]) -> bool
    ensures { let parts = map field_part (map value_of a.now) in
        IsTrue result ↔ (parts ≡ map field_part (map value_of b.now)) }
{
    if a.len() != b.len() {
        return false;
    }
    for (place, field) in a.iter().enumerate() {
        if !same_name(field, &b[place]) {
            return false;
        }
        if !same_type(field, &b[place]) {
            return false;
        }
    }
    true
}

// Whether two columns have one name.
pub(crate) fn same_name(a: &Series, b: &Series) -> bool
    ensures { result ≡ bytes_eq (value_of a.now).name (value_of b.now).name }
{
    a.name().as_str() == b.name().as_str()
}

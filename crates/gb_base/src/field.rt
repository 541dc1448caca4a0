//! The parts of a struct's type.

ghost use Rattle.std.specs.Prelude.{◌≡◌, map, IfOk};
ghost use Rattle.gb_base.specs.DataType.{part_of};

use crate::data_type::DataType;
use crate::small_str::PlSmallStr;
use std::alloc::AllocError;

/// A named part of a struct.
#[derive(Debug, PartialEq, Eq, Drop)]
#[cycle(data_type)]
pub struct Field {
    pub name: PlSmallStr,
    pub dtype: DataType,
}

impl Clone for Field {
    ghost is_clone = { λ field copy. part_of copy ≡ part_of field };

    #[cycle(clone)]
    fn clone(&self) -> Result<Field, AllocError> {
        Ok(Field {
            name: self.name.clone()?,
            dtype: self.dtype.clone()?,
        })
    }
}

/// The same fields.
#[cycle(clone)]
pub(crate) fn clone_fields(fields: &Vec<Field>) -> Result<Vec<Field>, AllocError>
    ensures { IfOk result (λ copies. map part_of copies.items ≡ map part_of fields.now.items) }
{
    let mut copies = Vec::with_capacity(*fields.allocator(), fields.len())?;
    for field in fields {
        copies.push(field.clone()?)?;
    }
    Ok(copies)
}

//! One value with its type.

ghost use Rattle.std.specs.Prelude.{◌≡◌};
ghost use Rattle.gb_defs.specs.ColumnType.{Fits};
ghost use Rattle.gb_base.specs.AnyValue.{slot_of};
ghost use Rattle.gb_base.specs.DataType.{type_of};

use crate::any_value::AnyValue;
use crate::data_type::DataType;
use std::marker::Model;

/// A value and the type that it is of. A null is of any type.
#[derive(Debug, Drop)]
pub struct Scalar {
    dtype: DataType,
    value: AnyValue,
}

impl Model for Scalar {
    ghost use Rattle.gb_base.specs.Scalar.{TypedValue, IsOfType, typed_value_code};

    ghost Value = { TypedValue };

    ghost coded = { typed_value_code };

    ghost view = { λ s. record { dtype = s.dtype; value = s.value } };

    ghost invariant = { λ s. IsOfType (record { dtype = s.dtype; value = s.value }) };
}

impl Scalar {
    pub fn new(dtype: DataType, value: AnyValue) -> Scalar
        requires { Fits (type_of dtype) (slot_of value) }
        ensures dtype { result.dtype ≡ dtype }
        ensures value { result.value ≡ value }
    {
        Scalar { dtype, value }
    }

    pub fn dtype(&self) -> &DataType
        ensures { result.now ≡ self.now.dtype }
    {
        &self.dtype
    }

    pub fn value(&self) -> &AnyValue
        ensures value { result.now ≡ self.now.value }
        ensures fits { Fits (type_of self.now.dtype) (slot_of result.now) }
    {
        &self.value
    }
}

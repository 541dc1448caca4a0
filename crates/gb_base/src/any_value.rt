//! One value of a column, of any type.

ghost use Rattle.std.specs.Prelude.{◌≡◌};

use crate::byte_str::ByteStr;
use crate::small_str::PlSmallStr;

/// One value of a column. A category is its code, and the items of a list or an array, like the parts of a
/// struct, are values in turn.
#[derive(Debug, PartialEq, Eq, Drop)]
#[cycle(value)]
pub enum AnyValue {
    Null,
    Boolean(bool),
    UInt8(u8),
    UInt16(u16),
    UInt32(u32),
    UInt64(u64),
    Int8(i8),
    Int16(i16),
    Int32(i32),
    Int64(i64),
    Int128(i128),
    Decimal(i128),
    Date(i32),
    Datetime(i64),
    Duration(i64),
    Time(i64),
    String(PlSmallStr),
    Binary(ByteStr),
    Category(u32),
    Items(AnyList),
}

/// Values inside a value, in order.
#[derive(Debug, PartialEq, Eq, Drop)]
#[cycle(value)]
pub struct AnyList {
    items: Vec<AnyValue>,
}

impl AnyList {
    ghost use Rattle.gb_base.specs.AnyValue.{values_in};

    pub fn new(items: Vec<AnyValue>) -> AnyList
        ensures { values_in result ≡ items.items }
    {
        AnyList { items }
    }

    pub fn as_slice(&self) -> &[AnyValue]
        ensures { result.now ≡ values_in self.now }
    {
        self.items.as_slice()
    }
}

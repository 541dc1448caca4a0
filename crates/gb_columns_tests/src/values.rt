//! Storages of values that may be null.

use gb_numbers::numeric::Int64Type;
use gb_values::primitive::PrimitiveArray;
use gb_values::utf8::Utf8Array;
use std::test::Fail;

#[test]
fn storages_are_copied(rt: HostRuntime) -> Result<(), Fail> {
    let mut texts = Utf8Array::empty(rt.alloc());
    texts.push(Some("ab"))?;
    texts.push(None)?;
    let copy = texts.try_clone()?;
    assert_eq!(rt; copy.len(), 2);
    assert_eq!(rt; copy.get(0), Some("ab"));
    assert_eq!(rt; copy.get(1), None);
    let numbers: PrimitiveArray<Int64Type> = PrimitiveArray::from_slice(rt.alloc(), &[3, 4])?;
    let copy = numbers.try_clone()?;
    assert_eq!(rt; copy.len(), 2);
    assert_eq!(rt; copy.get(1), Some(4));
    Ok(())
}

//! Numbers in a row.

ghost use Rattle.std.specs.Prelude.{◌≡◌, ◌++◌, ◌∷◌, ◌<◌, [], length, false, map, get_or, pos, IfOk, OnOk, OnErr};
ghost use Rattle.gb_defs.specs.ColumnType.{Flat};
ghost use Rattle.gb_defs.specs.Slot.{Num, slot_at};
ghost use Rattle.gb_values.specs.Array.{native_slot};
ghost use Rattle.gb_values.specs.Keys.{HasWideMore, HasWordsMore, IsToldByWide, IsToldByWord, wide_key, word_key};
ghost use Rattle.gb_numbers.specs.Native.{is_wide, whole_sortable};
ghost use Rattle.gb_values.specs.NoNil.{numbers_no_nil};

use crate::nullable::{NullableArray, Values};
use gb_base::data_type::DataType;
use gb_numbers::numeric::{Native, PolarsNumericType, write_number};
use std::alloc::{AllocError, Global};
use std::cmp::Ordering;
use std::marker::Model;

/// Numbers in a row.
#[derive(Drop)]
pub struct NumberValues<T: PolarsNumericType> {
    values: Vec<T::Native>,
}

/// Numbers that may be null.
pub type PrimitiveArray<T> = NullableArray<NumberValues<T>>;

impl<T: PolarsNumericType> Model for NumberValues<T> {
    ghost use Rattle.std.specs.Prelude.{List, map, ℤ};
    ghost use Rattle.std.specs.Coded.{coded_list, coded_ℤ};
    ghost use Rattle.std.specs.List.{All};
    ghost use Rattle.gb_defs.specs.ColumnType.{FitsNumber};

    ghost Value = { List ℤ };

    ghost coded = { coded_list coded_ℤ };

    ghost view = { λ v. map T.Native.number v.values.items };

    ghost invariant = { λ v. All (FitsNumber T.Native.flat) (map T.Native.number v.values.items) };
}

impl<T: PolarsNumericType> NumberValues<T> {
    /// The number at a place.
    #[inline]
    pub(crate) fn get(&self, i: usize) -> T::Native
        requires { i < length self.now }
        ensures { T.Native.number result ≡ get_or self.now i (pos 0) }
    {
        self.values[i]
    }

    /// One number more at the end.
    #[inline(always)]
    pub(crate) fn push(&mut self, value: T::Native) -> Result<(), AllocError>
        ensures ok { OnOk result (self.new ≡ self.old ++ T.Native.number value ∷ []) }
        ensures err { OnErr result (self.new ≡ self.old) }
    {
        self.values.reserve(1)?;
        value.value_fits();
        self.values.push_reserved(value);
        Ok(())
    }
}

impl<T: PolarsNumericType> Values for NumberValues<T> {
    ghost slots = { λ v. map (λ n. Num n) v };

    ghost dtype = { Flat T.Native.flat };

    ghost none_null = { numbers_no_nil };

    ghost sortable = { whole_sortable T.Native.width T.Native.flat T.Native.whole };

    fn empty(alloc: Global) -> Self {
        NumberValues {
            values: Vec::new(alloc),
        }
    }

    fn data_type() -> DataType {
        T::data_type()
    }

    fn len(&self) -> usize {
        T::Native::values_are_few(&self.values);
        self.values.len()
    }

    fn reserve(&mut self, additional: usize) -> Result<(), AllocError> {
        self.values.reserve(additional)
    }

    fn push_filler(&mut self) -> Result<(), AllocError> {
        self.push(T::Native::zero())
    }

    fn push_from(&mut self, other: &Self, i: usize) -> Result<(), AllocError> {
        self.push(other.get(i))
    }

    fn extend_from(&mut self, other: &Self, start: usize, count: usize) -> Result<(), AllocError> {
        let part = &other.values.as_slice()[start..start + count];
        self.values.extend_from_slice(part)?;
        Ok(())
    }

    #[inline(always)]
    fn push_cell(&mut self, cell: &[u8], _is_text: bool) -> Result<bool, AllocError> {
        match T::Native::from_cell(cell) {
            Some(value) => {
                self.push(value)?;
                Ok(true)
            }
            None => Ok(false),
        }
    }

    #[inline(always)]
    fn reads_cell(cell: &[u8], _is_text: bool) -> bool {
        T::Native::from_cell(cell).is_some()
    }

    fn write_cell(&self, i: usize, to: &mut Vec<u8>) -> Result<(), AllocError> {
        write_number(self.get(i), to)
    }

    fn cmp_at(&self, i: usize, other: &Self, j: usize) -> Ordering {
        self.get(i).cmp(&other.get(j))
    }

    fn try_clone(&self) -> Result<Self, AllocError> {
        Ok(NumberValues {
            values: Vec::from_slice(*self.values.allocator(), &self.values)?,
        })
    }
}

impl<T: PolarsNumericType> NullableArray<NumberValues<T>> {
    /// These numbers, none of them null.
    pub fn from_slice(alloc: Global, values: &[T::Native]) -> Result<Self, AllocError>
        ensures { IfOk result (λ a. a ≡ map (λ n. Num (T.Native.number n)) values.now) }
    {
        let mut array: Self = NullableArray::empty(alloc);
        array.reserve(values.len())?;
        for value in values {
            array.push_valid(*value)?;
        }
        Ok(array)
    }

    /// The number at a place.
    #[inline]
    pub fn get(&self, i: usize) -> Option<T::Native>
        requires { i < length self.now }
        ensures { native_slot T.Native.number result ≡ slot_at self.now i }
    {
        if self.validity.is_valid(i) {
            Some(self.values.get(i))
        } else {
            None
        }
    }

    /// One slot more at the end.
    pub fn push(&mut self, value: Option<T::Native>) -> Result<(), AllocError>
        ensures ok { OnOk result (self.new ≡ self.old ++ native_slot T.Native.number value ∷ []) }
        ensures err { OnErr result (self.new ≡ self.old) }
    {
        match value {
            Some(value) => self.push_valid(value),
            None => self.push_null(),
        }
    }

    // One number more at the end.
    #[inline]
    fn push_valid(&mut self, value: T::Native) -> Result<(), AllocError>
        ensures ok { OnOk result (self.new ≡ self.old ++ Num (T.Native.number value) ∷ []) }
        ensures err { OnErr result (self.new ≡ self.old) }
    {
        self.validity.reserve_one()?;
        self.values.push(value)?;
        self.validity.push_reserved_valid();
        Ok(())
    }

    /// The words of the numbers behind the keys before, null as `None`.
    pub fn push_words(&self, keys: &mut Vec<Option<u64>>) -> Result<(), AllocError>
        requires narrow { is_wide T.Native.width ≡ false }
        ensures { OnOk result
            (HasWordsMore T.Native.flat self.now keys.old.items keys.new.items) }
    {
        let count = self.len();
        keys.reserve(count)?;
        for i in 0..count {
            keys.push_reserved(word_of(self.get(i)));
        }
        Ok(())
    }

    /// The wide words of the numbers behind the keys before, null as `None`.
    pub fn push_wide(&self, keys: &mut Vec<Option<u128>>) -> Result<(), AllocError>
        ensures { OnOk result (HasWideMore T.Native.flat self.now keys.old.items keys.new.items) }
    {
        let count = self.len();
        keys.reserve(count)?;
        for i in 0..count {
            keys.push_reserved(wide_of(self.get(i)));
        }
        Ok(())
    }
}

// The word of a number, None of a null.
#[inline]
fn word_of<N: Native>(number: Option<N>) -> Option<u64>
    requires narrow { is_wide N.width ≡ false }
    ensures key { result ≡ word_key (native_slot N.number number) }
    ensures back { IsToldByWord N.flat (native_slot N.number number) }
{
    match number {
        Some(number) => Some(number.to_word()),
        None => None,
    }
}

// The wide word of a number, None of a null.
#[inline]
fn wide_of<N: Native>(number: Option<N>) -> Option<u128>
    ensures key { result ≡ wide_key (native_slot N.number number) }
    ensures back { IsToldByWide N.flat (native_slot N.number number) }
{
    match number {
        Some(number) => Some(number.to_wide()),
        None => None,
    }
}

//! Flags in a row.

ghost use Rattle.std.specs.Prelude.{◌≡◌, ◌++◌, ◌∷◌, ◌<◌, [], length, refl, false, map, get_or, option_map, IfOk, OnOk, OnErr};
ghost use Rattle.gb_defs.specs.Cell.{boolean_value};
ghost use Rattle.gb_defs.specs.CellText.{boolean_text};
ghost use Rattle.gb_defs.specs.ColumnType.{Boolean, Flat};
ghost use Rattle.gb_defs.specs.Slot.{slot_at};
ghost use Rattle.gb_base.specs.AnyValue.{flag_number};
ghost use Rattle.gb_values.specs.Array.{flag_slot, native_slot};
ghost use Rattle.gb_values.specs.Keys.{HasWordsMore, IsToldByWord, word_key};
ghost use Rattle.gb_values.specs.NoNil.{flags_no_nil};

use crate::nullable::{NullableArray, Values};
use crate::validity::Validity;
use gb_base::data_type::DataType;
use std::alloc::{AllocError, Global};
use std::cmp::Ordering;
use std::marker::Model;

/// Flags in a row.
#[derive(Drop)]
pub struct FlagValues {
    flags: Vec<bool>,
}

/// Flags that may be null.
pub type BooleanArray = NullableArray<FlagValues>;

impl Model for FlagValues {
    ghost use Rattle.std.specs.Prelude.{Bool, List};
    ghost use Rattle.std.specs.Coded.{coded_bool, coded_list};

    ghost Value = { List Bool };

    ghost coded = { coded_list coded_bool };

    ghost view = { λ v. v.flags.items };
}

impl FlagValues {
    // These flags.
    fn from_slice(alloc: Global, flags: &[bool]) -> Result<FlagValues, AllocError>
        ensures { IfOk result (λ v. v ≡ flags.now) }
    {
        Ok(FlagValues {
            flags: Vec::from_slice(alloc, flags)?,
        })
    }

    /// The flag at a place.
    #[inline]
    pub(crate) fn get(&self, i: usize) -> bool
        requires { i < length self.now }
        ensures { result ≡ get_or self.now i false }
    {
        self.flags[i]
    }

    /// One flag more at the end.
    #[inline]
    pub(crate) fn push(&mut self, flag: bool) -> Result<(), AllocError>
        ensures ok { OnOk result (self.new ≡ self.old ++ flag ∷ []) }
        ensures err { OnErr result (self.new ≡ self.old) }
    {
        self.flags.reserve(1)?;
        self.flags.push_reserved(flag);
        Ok(())
    }
}

impl Values for FlagValues {
    ghost slots = { λ v. map flag_slot v };

    ghost dtype = { Flat Boolean };

    ghost none_null = { flags_no_nil };

    ghost sortable = { refl };

    fn empty(alloc: Global) -> Self {
        FlagValues {
            flags: Vec::new(alloc),
        }
    }

    fn data_type() -> DataType {
        DataType::Boolean
    }

    fn len(&self) -> usize {
        self.flags.len()
    }

    fn reserve(&mut self, additional: usize) -> Result<(), AllocError> {
        self.flags.reserve(additional)
    }

    fn push_filler(&mut self) -> Result<(), AllocError> {
        self.push(false)
    }

    fn push_from(&mut self, other: &Self, i: usize) -> Result<(), AllocError> {
        self.push(other.get(i))
    }

    fn extend_from(&mut self, other: &Self, start: usize, count: usize) -> Result<(), AllocError> {
        let part = &other.flags.as_slice()[start..start + count];
        self.flags.extend_from_slice(part)?;
        Ok(())
    }

    #[inline(always)]
    fn push_cell(&mut self, cell: &[u8], _is_text: bool) -> Result<bool, AllocError> {
        match flag_of_cell(cell) {
            Some(flag) => {
                self.push(flag)?;
                Ok(true)
            }
            None => Ok(false),
        }
    }

    #[inline(always)]
    fn reads_cell(cell: &[u8], _is_text: bool) -> bool {
        flag_of_cell(cell).is_some()
    }

    fn write_cell(&self, i: usize, to: &mut Vec<u8>) -> Result<(), AllocError> {
        to.extend_from_slice(word_for(self.get(i)))?;
        Ok(())
    }

    fn cmp_at(&self, i: usize, other: &Self, j: usize) -> Ordering {
        self.get(i).cmp(&other.get(j))
    }

    fn try_clone(&self) -> Result<Self, AllocError> {
        FlagValues::from_slice(*self.flags.allocator(), &self.flags)
    }
}

impl NullableArray<FlagValues> {
    /// These flags, none of them null.
    pub fn from_slice(alloc: Global, flags: &[bool]) -> Result<Self, AllocError>
        ensures { IfOk result (λ a. a ≡ map flag_slot flags.now) }
    {
        Ok(NullableArray {
            values: FlagValues::from_slice(alloc, flags)?,
            validity: Validity::new(alloc),
        })
    }

    /// The flag at a place.
    #[inline]
    pub fn get(&self, i: usize) -> Option<bool>
        requires { i < length self.now }
        ensures { native_slot flag_number result ≡ slot_at self.now i }
    {
        if self.validity.is_valid(i) {
            Some(self.values.get(i))
        } else {
            None
        }
    }

    /// One slot more at the end.
    pub fn push(&mut self, flag: Option<bool>) -> Result<(), AllocError>
        ensures ok { OnOk result (self.new ≡ self.old ++ native_slot flag_number flag ∷ []) }
        ensures err { OnErr result (self.new ≡ self.old) }
    {
        match flag {
            Some(flag) => self.push_valid(flag),
            None => self.push_null(),
        }
    }

    // One flag more at the end.
    #[inline]
    fn push_valid(&mut self, flag: bool) -> Result<(), AllocError>
        ensures ok { OnOk result (self.new ≡ self.old ++ flag_slot flag ∷ []) }
        ensures err { OnErr result (self.new ≡ self.old) }
    {
        self.validity.reserve_one()?;
        self.values.push(flag)?;
        self.validity.push_reserved_valid();
        Ok(())
    }

    /// The words of the flags behind the keys before, null as `None`.
    pub fn push_words(&self, keys: &mut Vec<Option<u64>>) -> Result<(), AllocError>
        ensures { OnOk result (HasWordsMore Boolean self.now keys.old.items keys.new.items) }
    {
        let count = self.len();
        keys.reserve(count)?;
        for i in 0..count {
            keys.push_reserved(word_of(self.get(i)));
        }
        Ok(())
    }
}

// The flag that a table's cell is.
#[inline]
fn flag_of_cell(cell: &[u8]) -> Option<bool>
    ensures { option_map flag_slot result ≡ boolean_value cell.now }
{
    if cell == b"true".as_slice() {
        return Some(true);
    }
    if cell == b"false".as_slice() {
        return Some(false);
    }
    None
}

// The cell of a flag.
#[inline]
fn word_for(flag: bool) -> &'static [u8]
    ensures { result.now ≡ boolean_text (flag_number flag) }
{
    if flag { b"true" } else { b"false" }
}

// The word of a flag, None of a null.
#[inline]
fn word_of(flag: Option<bool>) -> Option<u64>
    ensures key { result ≡ word_key (native_slot flag_number flag) }
    ensures back { IsToldByWord Boolean (native_slot flag_number flag) }
{
    match flag {
        Some(flag) => Some(u64::from(flag)),
        None => None,
    }
}

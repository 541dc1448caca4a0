//! Values in a row, and such values that may be null: the storage of every column with a buffer of its
//! own.

ghost use Rattle.std.specs.Prelude.{◌≡◌, ◌+◌, ◌++◌, ◌∷◌, ◌<◌, ◌≤◌, ◌^◌, [], List, is_some, length, IsTrue, take, drop, replicate, not, true, false, All, IfOk, OnOk, OnErr, MatchOption};
ghost use Rattle.std.specs.List.{AllByRecursion, count_by};
ghost use Rattle.std.specs.Bool.{OnFalse};
ghost use Rattle.std.specs.Str.{IsUtf8};
ghost use Rattle.gb_defs.specs.Cell.{value_of_field};
ghost use Rattle.gb_defs.specs.CellText.{cell_text};
ghost use Rattle.gb_defs.specs.Column.{IsLastValid};
ghost use Rattle.gb_defs.specs.ColumnType.{ColumnType, Fits};
ghost use Rattle.gb_defs.specs.Column.{may_be_sorted};
ghost use Rattle.gb_defs.specs.Slot.{Slot, Nil, is_nil, slot_at};
ghost use Rattle.gb_values.specs.Array.{HasOneMore, TakesField, flagged_slots};
ghost use Rattle.gb_values.specs.Valid.{IsFirstValid, IsNull};
ghost use Rattle.gb_base.specs.DataType.{type_of};
ghost use Rattle.gb_values.specs.SlotOrder.{ComparesAs};

use crate::validity::Validity;
use gb_base::data_type::DataType;
use std::alloc::{AllocError, Global};
use std::cmp::Ordering;
use std::marker::Model;

/// Values in a row, none of them null.
pub trait Values: Drop {
    // The values, as slots.
    ghost slots: { Self → List Slot };

    // The type of a column of these values.
    ghost dtype: { ColumnType };

    /// No values, and no memory.
    fn empty(alloc: Global) -> Self
        ensures { slots result ≡ [] };

    fn data_type() -> DataType
        ensures { type_of result ≡ dtype };

    /// How many values there are. Each fits the type.
    fn len(&self) -> usize
        ensures value { result ≡ length (slots self.now) }
        ensures small { result < 2 ^ 63 }
        ensures fitting { All (Fits dtype) (slots self.now) };

    /// Makes room for so many values more, as far as their number tells how much that is.
    fn reserve(&mut self, additional: usize) -> Result<(), AllocError>
        ensures { slots self.new ≡ slots self.old };

    /// Some value more, on which a null stands.
    fn push_filler(&mut self) -> Result<(), AllocError>
        ensures ok { OnOk result (HasOneMore (slots self.old) (slots self.new)) }
        ensures err { OnErr result (slots self.new ≡ slots self.old) };

    /// The other's value at a place, once more at the end.
    fn push_from(&mut self, other: &Self, i: usize) -> Result<(), AllocError>
        requires { i < length (slots other.now) }
        ensures ok { OnOk result
            (slots self.new ≡ slots self.old ++ slot_at (slots other.now) i ∷ []) }
        ensures err { OnErr result (slots self.new ≡ slots self.old) };

    /// The other's values from a place on, so many, once more at the end.
    fn extend_from(&mut self, other: &Self, start: usize, count: usize) -> Result<(), AllocError>
        requires { start + count ≤ length (slots other.now) }
        ensures ok { let part = take count (drop start (slots other.now)) in
            OnOk result (slots self.new ≡ slots self.old ++ part) }
        ensures err { OnErr result (slots self.new ≡ slots self.old) };

    /// The value that a table's cell reads as at the end, and whether it reads. A cell that is known to
    /// be a text is not looked at again.
    fn push_cell(&mut self, cell: &[u8], is_text: bool) -> Result<bool, AllocError>
        requires { is_text ≡ true → IsUtf8 cell.now }
        ensures ok { IfOk result (TakesField dtype (slots self.old) (slots self.new) cell.now) }
        ensures refused { IfOk result (λ took. OnFalse took (slots self.new ≡ slots self.old)) }
        ensures err { OnErr result (slots self.new ≡ slots self.old) };

    /// Whether a table's cell reads as a value. A cell that is known to be a text is not looked at again.
    fn reads_cell(cell: &[u8], is_text: bool) -> bool
        requires { is_text ≡ true → IsUtf8 cell.now }
        ensures { result ≡ is_some (value_of_field dtype cell.now) };

    /// The text of the value at a place, behind what is there.
    fn write_cell(&self, i: usize, to: &mut Vec<u8>) -> Result<(), AllocError>
        requires { i < length (slots self.now) }
        ensures { let text = cell_text [] dtype (slot_at (slots self.now) i) in
            OnOk result (to.new.items ≡ to.old.items ++ text) };

    /// How the value at a place compares to another's.
    fn cmp_at(&self, i: usize, other: &Self, j: usize) -> Ordering
        requires inside { i < length (slots self.now) }
        requires other_inside { j < length (slots other.now) }
        ensures { let b = slot_at (slots other.now) j in
            ComparesAs dtype (slot_at (slots self.now) i) b result };

    /// The same values.
    fn try_clone(&self) -> Result<Self, AllocError>
        ensures { IfOk result (λ copy. slots copy ≡ slots self.now) };

    // No value is a null.
    ghost none_null: { (v : Self) → AllByRecursion (λ slot. is_nil slot ≡ false) (slots v) };

    // A column of these values may be in order.
    ghost sortable: { IsTrue (may_be_sorted dtype) };
}

/// Values that may be null: the values, and which of them are valid; no flags where none is null.
#[derive(Drop)]
pub struct NullableArray<V: Values> {
    pub(crate) values: V,
    pub(crate) validity: Validity,
}

impl<V: Values> Model for NullableArray<V> {
    ghost use Rattle.std.specs.Prelude.{List, length};
    ghost use Rattle.std.specs.Coded.{coded_list};
    ghost use Rattle.gb_defs.specs.Slot.{Slot, slot_code};
    ghost use Rattle.gb_values.specs.Array.{flagged_slots, FitsFlags};

    ghost Value = { List Slot };

    ghost coded = { coded_list slot_code };

    ghost view = { λ a. flagged_slots (V.slots a.values) a.validity.flags.items };

    ghost invariant = { λ a. FitsFlags (length a.validity.flags.items) (length (V.slots a.values)) };
}

impl<V: Values> NullableArray<V> {
    /// No slots, and no memory.
    pub fn empty(alloc: Global) -> Self
        ensures { result ≡ [] }
    {
        NullableArray {
            values: V::empty(alloc),
            validity: Validity::new(alloc),
        }
    }

    /// These values, none of them null.
    #[tactic(auto, using(crate::proofs::FlagLemmas::flagged_none))]
    pub fn from_values(alloc: Global, values: V) -> Self
        ensures { result ≡ V.slots values }
    {
        NullableArray {
            values,
            validity: Validity::new(alloc),
        }
    }

    /// These values, each null where its flag is false.
    pub fn from_flags(values: V, flags: Vec<bool>) -> Self
        requires { length flags.items ≡ length (V.slots values) }
        ensures { result ≡ flagged_slots (V.slots values) flags.items }
    {
        NullableArray {
            values,
            validity: Validity::from_flags(flags),
        }
    }

    /// How many slots there are. Each fits the type.
    pub fn len(&self) -> usize
        ensures value { result ≡ length self.now }
        ensures small { result < 2 ^ 63 }
        ensures fitting { All (Fits V.dtype) self.now }
    {
        self.values.len()
    }

    /// Whether the slot at a place is no null.
    pub fn is_valid(&self, i: usize) -> bool
        requires { i < length self.now }
        ensures { result ≡ not (is_nil (slot_at self.now i)) }
    {
        self.validity.is_valid(i)
    }

    pub fn null_count(&self) -> usize
        ensures { result ≡ count_by is_nil self.now }
    {
        self.validity.null_count()
    }

    /// Makes room for so many slots more, as far as their number tells how much that is.
    pub fn reserve(&mut self, additional: usize) -> Result<(), AllocError>
        ensures { self.new ≡ self.old }
    {
        self.values.reserve(additional)
    }

    /// One null more at the end.
    pub fn push_null(&mut self) -> Result<(), AllocError>
        ensures ok { OnOk result (self.new ≡ self.old ++ Nil ∷ []) }
        ensures err { OnErr result (self.new ≡ self.old) }
    {
        self.validity.fill(self.values.len(), 1)?;
        self.values.push_filler()?;
        self.validity.push_reserved_null();
        Ok(())
    }

    /// The other's slot at a place, once more at the end.
    pub fn push_from(&mut self, other: &Self, i: usize) -> Result<(), AllocError>
        requires { i < length other.now }
        ensures ok { OnOk result (self.new ≡ self.old ++ slot_at other.now i ∷ []) }
        ensures err { OnErr result (self.new ≡ self.old) }
    {
        if other.validity.is_valid(i) {
            self.push_value(other, i)
        } else {
            self.push_null()
        }
    }

    // The other's valid value at a place, once more at the end.
    fn push_value(&mut self, other: &Self, i: usize) -> Result<(), AllocError>
        requires inside { i < length other.now }
        requires valid { is_nil (slot_at other.now i) ≡ false }
        ensures ok { OnOk result (self.new ≡ self.old ++ slot_at other.now i ∷ []) }
        ensures err { OnErr result (self.new ≡ self.old) }
    {
        self.validity.reserve_one()?;
        self.values.push_from(&other.values, i)?;
        self.validity.push_reserved_valid();
        Ok(())
    }

    /// The other's slots from a place on, so many, once more at the end.
    pub fn extend_from(
        &mut self,
        other: &Self,
        start: usize,
        count: usize,
    ) -> Result<(), AllocError>
        requires { start + count ≤ length other.now }
        ensures ok { OnOk result (self.new ≡ self.old ++ take count (drop start other.now)) }
        ensures err { OnErr result (self.new ≡ self.old) }
    {
        if self.validity.is_empty() && other.validity.is_empty() {
            self.values.extend_from(&other.values, start, count)?;
            return Ok(());
        }
        self.validity.fill(self.values.len(), count)?;
        self.values.extend_from(&other.values, start, count)?;
        self.validity.extend_reserved(&other.validity, start, count);
        Ok(())
    }

    /// The other's slot at a place, so many times more at the end.
    pub fn push_times(&mut self, other: &Self, i: usize, count: usize) -> Result<(), AllocError>
        requires { i < length other.now }
        ensures { OnOk result (self.new ≡ self.old ++ replicate count (slot_at other.now i)) }
    {
        self.reserve(count)?;
        for _time in 0..count {
            self.push_from(other, i)?;
        }
        Ok(())
    }

    /// So many nulls.
    pub fn nulls(alloc: Global, count: usize) -> Result<Self, AllocError>
        ensures { IfOk result (λ nulls. nulls ≡ replicate count Nil) }
    {
        let mut nulls: NullableArray<V> = NullableArray::empty(alloc);
        nulls.reserve(count)?;
        for _null in 0..count {
            nulls.push_null()?;
        }
        Ok(nulls)
    }

    /// The first place whose slot is no null.
    pub fn first_non_null(&self) -> Option<usize>
        ensures { MatchOption result (All IsNull self.now) (IsFirstValid self.now) }
    {
        for i in 0..self.len() {
            if self.is_valid(i) {
                return Some(i);
            }
        }
        None
    }

    /// The last place whose slot is no null.
    pub fn last_non_null(&self) -> Option<usize>
        ensures { MatchOption result (All IsNull self.now) (IsLastValid self.now) }
    {
        let mut end = self.len();
        while end > 0 {
            end -= 1;
            if self.is_valid(end) {
                return Some(end);
            }
        }
        None
    }

    /// The slot that a table's cell reads as at the end, and whether it reads. A cell that is known to be
    /// a text is not looked at again; the null word is for the caller to meet.
    #[inline(always)]
    pub fn push_cell(&mut self, cell: &[u8], is_text: bool) -> Result<bool, AllocError>
        requires { is_text ≡ true → IsUtf8 cell.now }
        ensures ok { IfOk result (TakesField V.dtype self.old self.new cell.now) }
        ensures refused { IfOk result (λ took. OnFalse took (self.new ≡ self.old)) }
        ensures err { OnErr result (self.new ≡ self.old) }
    {
        self.validity.reserve_one()?;
        if !self.values.push_cell(cell, is_text)? {
            return Ok(false);
        }
        self.validity.push_reserved_valid();
        Ok(true)
    }

    /// The text of the slot at a place, behind what is there.
    pub fn write_cell(&self, i: usize, null_word: &str, to: &mut Vec<u8>) -> Result<(), AllocError>
        requires { i < length self.now }
        ensures { let text = cell_text null_word.now V.dtype (slot_at self.now i) in
            OnOk result (to.new.items ≡ to.old.items ++ text) }
    {
        if self.validity.is_valid(i) {
            self.values.write_cell(i, to)
        } else {
            to.extend_from_slice(null_word.as_bytes())?;
            Ok(())
        }
    }

    /// How the slot at a place compares to another's, where neither is null.
    #[inline]
    pub fn cmp_at(&self, i: usize, other: &Self, j: usize) -> Ordering
        requires inside { i < length self.now }
        requires other_inside { j < length other.now }
        requires valid { is_nil (slot_at self.now i) ≡ false }
        requires other_valid { is_nil (slot_at other.now j) ≡ false }
        ensures { ComparesAs V.dtype (slot_at self.now i) (slot_at other.now j) result }
    {
        self.values.cmp_at(i, &other.values, j)
    }

    /// The same slots.
    pub fn try_clone(&self) -> Result<Self, AllocError>
        ensures { IfOk result (λ copy. copy ≡ self.now) }
    {
        Ok(NullableArray {
            values: self.values.try_clone()?,
            validity: self.validity.try_clone()?,
        })
    }
}

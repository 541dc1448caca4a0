//! Values of bytes in a row, as texts.

ghost use Rattle.std.specs.Prelude.{◌≡◌, ℕ, ◌+◌, ◌-◌, ◌^◌, List, Option, Some, ◌++◌, ◌∷◌, ◌<◌, ◌≤◌, [], length, vec_len, vec_capacity, map, true, get_or, is_some, option_map, All, IfOk, IfSome, OnOk, OnErr};
ghost use Rattle.std.specs.Bool.{OnFalse};
ghost use Rattle.std.specs.Str.{IsUtf8};
ghost use Rattle.gb_defs.specs.Cell.{flat_value};
ghost use Rattle.gb_defs.specs.CellText.{bytes_text};
ghost use Rattle.gb_defs.specs.ColumnType.{FlatType, Flat, FitsBytes};
ghost use Rattle.gb_defs.specs.Slot.{Bytes, slot_at};
ghost use Rattle.gb_numbers.specs.Taken.{if_taken};
ghost use Rattle.gb_values.specs.Array.{start_of};
ghost use Rattle.gb_base.specs.DataType.{type_of};
ghost use Rattle.gb_values.specs.Keys.{bytes_slot};
ghost use Rattle.gb_values.specs.ByteKind.{bytes_sortable};
ghost use Rattle.gb_values.specs.NoNil.{bytes_no_nil};

use crate::nullable::{NullableArray, Values};
use gb_base::data_type::DataType;
use std::alloc::{AllocError, Global};
use std::cmp::Ordering;
use std::marker::{Model, PhantomData};

/// A kind of values of bytes: the type of their columns, and what their cells are.
pub trait ByteKind {
    // The type of a column of these values, which says the bytes that a value may have.
    ghost flat: { FlatType };

    // The bytes that a cell of a table reads as.
    ghost read: { List ℕ → Option (List ℕ) };

    fn data_type() -> DataType
        ensures { type_of result ≡ Flat flat };

    /// What a table's cell reads as, behind the bytes before, and whether it reads. A cell that is known
    /// to be a text is not looked at again.
    fn push_cell(bytes: &mut Vec<u8>, cell: &[u8], is_text: bool) -> Result<bool, AllocError>
        requires { is_text ≡ true → IsUtf8 cell.now }
        ensures ok { IfOk result (λ took. if_taken took bytes.new.items
            ≡ option_map (λ more. bytes.old.items ++ more) (read cell.now)) }
        ensures refused { IfOk result (λ took. OnFalse took (bytes.new.items ≡ bytes.old.items)) }
        ensures err { OnErr result (bytes.new.items ≡ bytes.old.items) };

    /// Whether a table's cell reads as a value. A cell that is known to be a text is not looked at again.
    fn reads_cell(cell: &[u8], is_text: bool) -> bool
        requires { is_text ≡ true → IsUtf8 cell.now }
        ensures { result ≡ is_some (read cell.now) };

    /// The text of a value, behind what is there.
    fn write_cell(value: &[u8], to: &mut Vec<u8>) -> Result<(), AllocError>
        ensures { OnOk result (to.new.items ≡ to.old.items ++ bytes_text (Flat flat) value.now) };

    // A cell reads by the definitions.
    ghost reads: { (cell : List ℕ)
        → flat_value flat cell ≡ option_map (λ bytes. Bytes bytes) (read cell) };

    // What a cell reads as fits the type.
    ghost read_fits: { (cell bytes : List ℕ) → read cell ≡ Some bytes → FitsBytes flat bytes };

    // No bytes fit the type.
    ghost none_fit: { FitsBytes flat [] };
}

/// Values of bytes in a row: one buffer of bytes, and where each value ends in it.
#[derive(Drop)]
pub struct ByteValues<K: ByteKind> {
    bytes: Vec<u8>,
    ends: Vec<usize>,
    kind: PhantomData<K>,
}

impl<K: ByteKind> Model for ByteValues<K> {
    ghost use Rattle.std.specs.Prelude.{List, ℕ};
    ghost use Rattle.std.specs.Coded.{coded_list, coded_ℕ};
    ghost use Rattle.gb_values.specs.Array.{pieces_from, ArePieces};

    ghost Value = { List (List ℕ) };

    ghost coded = { coded_list (coded_list coded_ℕ) };

    ghost view = { λ v. pieces_from 0 v.ends.items v.bytes.items };

    ghost invariant = { λ v. ArePieces K.flat v.bytes.items v.ends.items };
}

// Where the value at a place starts, or the last one ends.
#[inline]
fn start_at(ends: &Vec<usize>, i: usize) -> usize
    requires { i ≤ length ends.now.items }
    ensures { result ≡ start_of 0 ends.now.items i }
{
    if i == 0 { 0 } else { ends[i - 1] }
}

// Where the value at a place starts and ends.
#[inline]
fn bounds(ends: &Vec<usize>, i: usize) -> (usize, usize)
    requires { i < length ends.now.items }
    ensures start { result.0 ≡ start_of 0 ends.now.items i }
    ensures end { result.1 ≡ get_or ends.now.items i 0 }
{
    (start_at(ends, i), ends[i])
}

// Ends more, for which there is room, as far behind a base as they are behind a start.
fn push_shifted(ends: &mut Vec<usize>, more: &[usize], from: usize, base: usize)
    requires room { vec_len ends.old + length more.now ≤ vec_capacity ends.old }
    requires fits { All (λ end. (from ≤ end) × (base + (end - from) < 2 ^ 64)) more.now }
    ensures { ends.new.items
        ≡ ends.old.items ++ map (λ end. base + (end - from)) more.now }
{
    for end in more {
        ends.push_reserved(base + (*end - from));
    }
}

impl<K: ByteKind> ByteValues<K> {
    ghost use Rattle.gb_values.specs.Array.{ArePieces, pieces_from};

    /// The pieces of a buffer that end at these places.
    pub fn from_parts(bytes: Vec<u8>, ends: Vec<usize>) -> Self
        requires { ArePieces K.flat bytes.items ends.items }
        ensures { result ≡ pieces_from 0 ends.items bytes.items }
    {
        ByteValues {
            bytes,
            ends,
            kind: PhantomData,
        }
    }

    /// The value at a place.
    #[inline]
    pub fn bytes_at(&self, i: usize) -> &[u8]
        requires { i < length self.now }
        ensures value { result.now ≡ get_or self.now i [] }
        ensures fits { FitsBytes K.flat result.now }
    {
        let (start, end) = bounds(&self.ends, i);
        &self.bytes.as_slice()[start..end]
    }

    /// One value more at the end.
    #[inline]
    pub(crate) fn push_bytes(&mut self, value: &[u8]) -> Result<(), AllocError>
        requires { FitsBytes K.flat value.now }
        ensures ok { OnOk result (self.new ≡ self.old ++ value.now ∷ []) }
        ensures err { OnErr result (self.new ≡ self.old) }
    {
        self.ends.reserve(1)?;
        self.bytes.extend_from_slice(value)?;
        self.ends.push_reserved(self.bytes.len());
        Ok(())
    }
}

impl<K: ByteKind> Values for ByteValues<K> {
    ghost slots = { λ v. map (λ bytes. Bytes bytes) v };

    ghost dtype = { Flat K.flat };

    ghost none_null = { bytes_no_nil };

    ghost sortable = { bytes_sortable K.flat K.none_fit };

    fn empty(alloc: Global) -> Self {
        ByteValues {
            bytes: Vec::new(alloc),
            ends: Vec::new(alloc),
            kind: PhantomData,
        }
    }

    fn data_type() -> DataType {
        K::data_type()
    }

    fn len(&self) -> usize {
        self.ends.len()
    }

    // How many bytes the values will have is not known.
    fn reserve(&mut self, additional: usize) -> Result<(), AllocError> {
        self.ends.reserve(additional)
    }

    fn push_filler(&mut self) -> Result<(), AllocError> {
        self.push_bytes(&[])
    }

    fn push_from(&mut self, other: &Self, i: usize) -> Result<(), AllocError> {
        self.push_bytes(other.bytes_at(i))
    }

    fn extend_from(&mut self, other: &Self, start: usize, count: usize) -> Result<(), AllocError> {
        let from = start_at(&other.ends, start);
        let to = start_at(&other.ends, start + count);
        self.ends.reserve(count)?;
        let base = self.bytes.len();
        self.bytes
            .extend_from_slice(&other.bytes.as_slice()[from..to])?;
        let more = &other.ends.as_slice()[start..start + count];
        push_shifted(&mut self.ends, more, from, base);
        Ok(())
    }

    #[inline(always)]
    fn push_cell(&mut self, cell: &[u8], is_text: bool) -> Result<bool, AllocError> {
        self.ends.reserve(1)?;
        if !K::push_cell(&mut self.bytes, cell, is_text)? {
            return Ok(false);
        }
        self.ends.push_reserved(self.bytes.len());
        Ok(true)
    }

    #[inline(always)]
    fn reads_cell(cell: &[u8], is_text: bool) -> bool {
        K::reads_cell(cell, is_text)
    }

    fn write_cell(&self, i: usize, to: &mut Vec<u8>) -> Result<(), AllocError> {
        K::write_cell(self.bytes_at(i), to)
    }

    fn cmp_at(&self, i: usize, other: &Self, j: usize) -> Ordering {
        self.bytes_at(i).cmp(other.bytes_at(j))
    }

    fn try_clone(&self) -> Result<Self, AllocError> {
        Ok(ByteValues {
            bytes: Vec::from_slice(*self.bytes.allocator(), &self.bytes)?,
            ends: Vec::from_slice(*self.ends.allocator(), &self.ends)?,
            kind: PhantomData,
        })
    }
}

impl<K: ByteKind> NullableArray<ByteValues<K>> {
    /// The value at a place.
    #[inline]
    pub fn bytes_at(&self, i: usize) -> Option<&[u8]>
        requires { i < length self.now }
        ensures { bytes_slot result ≡ slot_at self.now i }
    {
        if self.validity.is_valid(i) {
            Some(self.values.bytes_at(i))
        } else {
            None
        }
    }

    /// One slot more at the end.
    pub fn push_bytes(&mut self, value: Option<&[u8]>) -> Result<(), AllocError>
        requires { IfSome value (λ bytes. FitsBytes K.flat bytes.now) }
        ensures ok { OnOk result (self.new ≡ self.old ++ bytes_slot value.entry ∷ []) }
        ensures err { OnErr result (self.new ≡ self.old) }
    {
        match value {
            Some(value) => self.push_valid(value),
            None => self.push_null(),
        }
    }

    // One value more at the end.
    #[inline]
    fn push_valid(&mut self, value: &[u8]) -> Result<(), AllocError>
        requires { FitsBytes K.flat value.now }
        ensures ok { OnOk result (self.new ≡ self.old ++ Bytes value.now ∷ []) }
        ensures err { OnErr result (self.new ≡ self.old) }
    {
        self.validity.reserve_one()?;
        self.values.push_bytes(value)?;
        self.validity.push_reserved_valid();
        Ok(())
    }

    /// The values where no slot is null.
    pub fn all_valid(&self) -> Option<&ByteValues<K>>
        ensures { IfSome result (λ values. map (λ bytes. Bytes bytes) values.now ≡ self.now) }
    {
        if self.validity.is_empty() {
            Some(&self.values)
        } else {
            None
        }
    }

    /// The values behind the keys before, null as `None`.
    pub fn push_slices<'a>(&'a self, keys: &mut Vec<Option<&'a [u8]>>) -> Result<(), AllocError>
        ensures { OnOk result
            (map bytes_slot keys.new.items ≡ map bytes_slot keys.old.items ++ self.now) }
    {
        let count = self.len();
        keys.reserve(count)?;
        for i in 0..count {
            keys.push_reserved(self.bytes_at(i));
        }
        Ok(())
    }
}

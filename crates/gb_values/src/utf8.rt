//! Texts in a row.

ghost use Rattle.std.specs.Prelude.{◌≡◌, ◌++◌, ◌∷◌, ◌<◌, [], length, true, get_or, OnOk, OnErr};
ghost use Rattle.std.specs.Str.{IsUtf8, is_utf8};
ghost use Rattle.gb_defs.specs.Slot.{slot_at};
ghost use Rattle.gb_values.specs.Array.{text_slot};

use crate::bytes::{ByteKind, ByteValues};
use crate::nullable::NullableArray;
use gb_base::data_type::DataType;
use std::alloc::AllocError;

/// The kind of texts.
pub struct Text;

/// Texts in a row.
pub type TextValues = ByteValues<Text>;

/// Texts that may be null.
pub type Utf8Array = NullableArray<TextValues>;

impl ByteKind for Text {
    ghost use Rattle.std.proofs.lemmas.Str.{IsUtf8-nil};
    ghost use Rattle.gb_defs.specs.ColumnType.{String};
    ghost use Rattle.gb_values.specs.ByteKind.{text_read, text_read_fits, text_reads};

    ghost flat = { String };

    ghost read = { text_read };

    ghost reads = { text_reads };

    ghost read_fits = { text_read_fits };

    ghost none_fit = { IsUtf8-nil };

    fn data_type() -> DataType {
        DataType::String
    }

    #[inline(always)]
    fn push_cell(bytes: &mut Vec<u8>, cell: &[u8], is_text: bool) -> Result<bool, AllocError> {
        if !is_utf8(cell, is_text) {
            return Ok(false);
        }
        bytes.extend_from_slice(cell)?;
        Ok(true)
    }

    #[inline(always)]
    fn reads_cell(cell: &[u8], is_text: bool) -> bool {
        is_utf8(cell, is_text)
    }

    fn write_cell(value: &[u8], to: &mut Vec<u8>) -> Result<(), AllocError> {
        to.extend_from_slice(value)?;
        Ok(())
    }
}

/// Whether a cell is a text, with no look at one that is known to be.
#[inline]
pub fn is_utf8(cell: &[u8], is_text: bool) -> bool
    requires { is_text ≡ true → IsUtf8 cell.now }
    ensures { result ≡ is_utf8 cell.now }
{
    is_text || str::from_utf8(cell).is_ok()
}

impl ByteValues<Text> {
    /// The text at a place.
    #[inline]
    pub fn get(&self, i: usize) -> &str
        requires { i < length self.now }
        ensures { result.now ≡ get_or self.now i [] }
    {
        unsafe { str::from_utf8_unchecked(self.bytes_at(i)) }
    }
}

impl NullableArray<ByteValues<Text>> {
    /// The text at a place.
    #[inline]
    pub fn get(&self, i: usize) -> Option<&str>
        requires { i < length self.now }
        ensures { text_slot result ≡ slot_at self.now i }
    {
        if self.validity.is_valid(i) {
            Some(self.values.get(i))
        } else {
            None
        }
    }

    /// One slot more at the end.
    pub fn push(&mut self, text: Option<&str>) -> Result<(), AllocError>
        ensures ok { OnOk result (self.new ≡ self.old ++ text_slot text.entry ∷ []) }
        ensures err { OnErr result (self.new ≡ self.old) }
    {
        match text {
            Some(text) => self.push_bytes(Some(text.as_bytes())),
            None => self.push_null(),
        }
    }
}

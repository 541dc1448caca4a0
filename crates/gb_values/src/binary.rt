//! The kinds of bytes that are no texts: plain ones, which a table writes in hexadecimal digits, and those
//! of whole rows, which no table reads.

use crate::bytes::ByteKind;
use gb_base::data_type::DataType;
use gb_numbers::hex_cell::{is_hexadecimal, push_hexadecimal, write_hexadecimal};
use std::alloc::AllocError;

/// The kind of plain bytes.
pub struct Binary;

/// The kind of the bytes of whole rows.
pub struct BinaryOffset;

impl ByteKind for Binary {
    ghost use Rattle.std.specs.Prelude.{refl};
    ghost use Rattle.gb_defs.specs.Cell.{hexadecimal};
    ghost use Rattle.gb_defs.specs.ColumnType as column;

    ghost flat = { column.Binary };

    ghost read = { hexadecimal };

    ghost reads = { λ cell. refl };

    ghost read_fits = { λ cell bytes is. tt };

    ghost none_fit = { tt };

    fn data_type() -> DataType {
        DataType::Binary
    }

    fn push_cell(bytes: &mut Vec<u8>, cell: &[u8], _is_text: bool) -> Result<bool, AllocError> {
        push_hexadecimal(bytes, cell)
    }

    fn reads_cell(cell: &[u8], _is_text: bool) -> bool {
        is_hexadecimal(cell)
    }

    fn write_cell(value: &[u8], to: &mut Vec<u8>) -> Result<(), AllocError> {
        write_hexadecimal(value, to)
    }
}

impl ByteKind for BinaryOffset {
    ghost use Rattle.std.specs.Prelude.{None, refl};
    ghost use Rattle.gb_defs.specs.ColumnType as column;

    ghost flat = { column.BinaryOffset };

    ghost read = { λ cell. None };

    ghost reads = { λ cell. refl };

    ghost read_fits = { λ cell bytes is. tt };

    ghost none_fit = { tt };

    fn data_type() -> DataType {
        DataType::BinaryOffset
    }

    fn push_cell(_bytes: &mut Vec<u8>, _cell: &[u8], _is_text: bool) -> Result<bool, AllocError> {
        Ok(false)
    }

    fn reads_cell(_cell: &[u8], _is_text: bool) -> bool {
        false
    }

    fn write_cell(value: &[u8], to: &mut Vec<u8>) -> Result<(), AllocError> {
        write_hexadecimal(value, to)
    }
}

//! Each public call of the columns once.

ghost use Rattle.gb_cols.specs.Column.{ReadsCells};

use gb_base::data_type::{DataType, IsSorted};
use gb_base::error::PolarsResult;
use gb_base::small_str::PlSmallStr;
use gb_cols::binary::{BinaryChunked, BinaryOffsetChunked};
use gb_cols::boolean::BooleanChunked;
use gb_cols::chunked::StringChunked;
use gb_cols::null::NullChunked;
use gb_cols::primitive::{Int8Chunked, Int32Chunked, Int64Chunked, Int128Chunked, UInt32Chunked};
use gb_cols::series_trait::SeriesTrait;
use gb_cols::undo_append::UndoAppend;
use std::alloc::Global;
use std::test::Fail;

#[test]
fn numbers_and_nulls(rt: HostRuntime) -> Result<(), Fail> {
    let alloc = rt.alloc();
    let name = PlSmallStr::from_str(alloc, "n")?;
    let mut column = Int64Chunked::from_slice_options(alloc, name, &[Some(3), None])?;
    column.push(Some(-1))?;
    column.push_null()?;
    let slots = [Some(3), None, Some(-1), None];
    assert_eq!(rt; column.len(), slots.len());
    for (row, slot) in slots.iter().enumerate() {
        assert_eq!(rt; column.get(row), *slot, "at {row}");
    }
    assert_eq!(rt; column.null_count(), 2);
    Ok(())
}

#[test]
fn numbers_in_two_chunks(rt: HostRuntime) -> Result<(), Fail> {
    let alloc = rt.alloc();
    let name = PlSmallStr::from_str(alloc, "u")?;
    let mut column = UInt32Chunked::from_slice(alloc, name, &[4294967295, 6])?;
    column.append(UInt32Chunked::from_slice(alloc, name_of(alloc)?, &[7, 8])?)?;
    assert_eq!(rt; column.len(), 4);
    assert_eq!(rt; column.get(2), Some(7));
    let taken = column.take(&[3, 0])?;
    assert_eq!(rt; taken.len(), 2);
    assert_eq!(rt; taken.get(0), Some(8));
    assert_eq!(rt; taken.get(1), Some(4294967295));
    Ok(())
}

#[test]
fn keys_of_each_form(rt: HostRuntime) -> Result<(), Fail> {
    let alloc = rt.alloc();
    let mut column = Int32Chunked::from_slice_options(alloc, name_of(alloc)?, &[Some(-1), None])?;
    column.append(Int32Chunked::from_slice(alloc, name_of(alloc)?, &[1])?)?;
    let words = [Some(u64::MAX), None, Some(1)];
    assert_eq!(rt; column.words()?.as_slice(), words.as_slice());
    let column = Int128Chunked::from_slice(alloc, name_of(alloc)?, &[-1, 1 << 64])?;
    let wide = [Some(u128::MAX), Some(1 << 64)];
    assert_eq!(rt; column.wide_words()?.as_slice(), wide.as_slice());
    Ok(())
}

// Whether a cell reads at the end of a short column.
fn push_flag(column: &mut BooleanChunked, cell: &str) -> PolarsResult<bool> {
    // The name tells the type.
    let _ = column.name();
    if column.len() > 9 {
        return Ok(false);
    }
    Ok(column.push_cell(cell.as_bytes(), true, "")?)
}

#[test]
fn flags_and_nulls(rt: HostRuntime) -> Result<(), Fail> {
    let alloc = rt.alloc();
    let mut column = BooleanChunked::from_slice_options(
        alloc,
        name_of(alloc)?,
        &[Some(false), None],
    )?;
    column.append(BooleanChunked::from_slice(alloc, name_of(alloc)?, &[true])?)?;
    assert_eq!(rt; column.len(), 3);
    column.push(Some(false))?;
    let slots = [Some(false), None, Some(true), Some(false)];
    assert_eq!(rt; column.len(), slots.len());
    for (row, slot) in slots.iter().enumerate() {
        assert_eq!(rt; column.get(row), *slot, "at {row}");
    }
    let words = [Some(0), None, Some(1), Some(0)];
    assert_eq!(rt; column.words()?.as_slice(), words.as_slice());
    assert_eq!(rt; column.dtype()?, DataType::Boolean);
    Ok(())
}

#[test]
fn flags_read_and_written(rt: HostRuntime) -> Result<(), Fail> {
    let alloc = rt.alloc();
    let mut column = BooleanChunked::new(alloc, name_of(alloc)?);
    let cells = ["true", "", "false", "True", "1", "true "];
    for (place, cell) in cells.iter().enumerate() {
        assert_eq!(rt; push_flag(&mut column, cell)?, place < 3, "{cell}");
    }
    assert_eq!(rt; column.len(), 3);
    let mut text = Vec::new(alloc);
    column.write_cell(0, "null", &mut text)?;
    column.write_cell(1, "null", &mut text)?;
    column.write_cell(2, "null", &mut text)?;
    assert_eq!(rt; text.as_slice(), b"truenullfalse".as_slice());
    Ok(())
}

#[test]
fn nulls_have_no_value(rt: HostRuntime) -> Result<(), Fail> {
    let alloc = rt.alloc();
    let mut column = NullChunked::new(alloc, name_of(alloc)?, 1);
    column.append(NullChunked::new(alloc, name_of(alloc)?, 2))?;
    assert_eq!(rt; column.len(), 3);
    assert!(rt; column.get(2).is_none());
    column.keep_chunks(1);
    assert_eq!(rt; column.len(), 1);
    Ok(())
}

#[test]
fn texts_as_bytes(rt: HostRuntime) -> Result<(), Fail> {
    let alloc = rt.alloc();
    let mut column = StringChunked::new(alloc, name_of(alloc)?);
    column.push(Some("ab"))?;
    column.push(None)?;
    assert!(rt; column.all_valid().is_none());
    let bytes = column.byte_slices()?;
    assert_eq!(rt; bytes.len(), 2);
    assert!(rt; bytes[0] == Some(b"ab".as_slice()) && bytes[1].is_none());
    Ok(())
}

#[test]
fn bytes_and_nulls(rt: HostRuntime) -> Result<(), Fail> {
    let alloc = rt.alloc();
    let mut column = BinaryChunked::new(alloc, name_of(alloc)?);
    column.push(Some(b"a\xff"))?;
    column.push(None)?;
    assert_eq!(rt; column.dtype()?, DataType::Binary);
    assert_eq!(rt; column.null_count(), 1);
    assert_eq!(rt; column.len(), 2);
    assert!(rt; column.get(0) == Some(b"a\xff".as_slice()) && column.get(1).is_none());
    let bytes = column.byte_slices()?;
    assert_eq!(rt; bytes.len(), 2);
    assert!(rt; bytes[0] == Some(b"a\xff".as_slice()) && bytes[1].is_none());
    Ok(())
}

#[test]
fn bytes_of_rows_and_nulls(rt: HostRuntime) -> Result<(), Fail> {
    let alloc = rt.alloc();
    let mut column = BinaryOffsetChunked::new(alloc, name_of(alloc)?);
    column.push(Some(b"a"))?;
    assert!(rt; column.all_valid().is_some());
    column.push(None)?;
    assert_eq!(rt; column.dtype()?, DataType::BinaryOffset);
    assert_eq!(rt; column.null_count(), 1);
    assert_eq!(rt; column.len(), 2);
    assert!(rt; column.get(0) == Some(b"a".as_slice()) && column.get(1).is_none());
    assert!(rt; !column.push_cell(b"61", true, "")?);
    let bytes = column.byte_slices()?;
    assert_eq!(rt; bytes.len(), 2);
    assert!(rt; bytes[0] == Some(b"a".as_slice()) && bytes[1].is_none());
    Ok(())
}

// Puts a cell at the end of a short column.
fn push_short(column: &mut Int8Chunked, cell: &str) -> PolarsResult<bool> {
    // The name tells the type.
    let _ = column.name();
    if column.len() > 9 {
        return Ok(false);
    }
    Ok(column.push_cell(cell.as_bytes(), true, "")?)
}

#[test]
fn cells_read_and_written(rt: HostRuntime) -> Result<(), Fail> {
    let alloc = rt.alloc();
    let mut column = Int8Chunked::new(alloc, name_of(alloc)?);
    let cells = ["-128", "", "+7", "128", "x", "-"];
    for (place, cell) in cells.iter().enumerate() {
        assert_eq!(rt; push_short(&mut column, cell)?, place < 3, "{cell}");
    }
    assert_eq!(rt; column.len(), 3);
    assert!(rt; !column.is_valid(1));
    let mut text = Vec::new(alloc);
    column.write_cell(0, "null", &mut text)?;
    column.write_cell(1, "null", &mut text)?;
    column.write_cell(2, "null", &mut text)?;
    assert_eq!(rt; text.as_slice(), b"-128null7".as_slice());
    Ok(())
}

fn name_of(alloc: Global) -> PolarsResult<PlSmallStr> {
    PlSmallStr::from_str(alloc, "m")
}

// Whether a column reads the null word and a cell, and another cell not.
fn reads_but<C: SeriesTrait>(column: &C, cell: &[u8], other: &[u8]) -> bool
    requires { ReadsCells (C.value column.now).dtype }
{
    column.reads_cell(b"none", false, "none")
        && column.reads_cell(cell, false, "none")
        && !column.reads_cell(other, false, "none")
}

fn numbers_know_cells(alloc: Global) -> PolarsResult<bool> {
    let column = Int8Chunked::new(alloc, name_of(alloc)?);
    Ok(reads_but(&column, b"-128", b"128"))
}

fn flags_know_cells(alloc: Global) -> PolarsResult<bool> {
    let column = BooleanChunked::new(alloc, name_of(alloc)?);
    Ok(reads_but(&column, b"true", b"True"))
}

fn texts_know_cells(alloc: Global) -> PolarsResult<bool> {
    let column = StringChunked::new(alloc, name_of(alloc)?);
    Ok(reads_but(&column, "é".as_bytes(), b"\xff") && column.reads_cell(b"x", true, ""))
}

fn bytes_know_cells(alloc: Global) -> PolarsResult<bool> {
    let column = BinaryChunked::new(alloc, name_of(alloc)?);
    Ok(reads_but(&column, b"fF00", b"0"))
}

fn bytes_of_rows_know_cells(alloc: Global) -> PolarsResult<bool> {
    let column = BinaryOffsetChunked::new(alloc, name_of(alloc)?);
    Ok(reads_but(&column, b"none", b"00"))
}

fn nulls_know_cells(alloc: Global) -> PolarsResult<bool> {
    let column = NullChunked::new(alloc, name_of(alloc)?, 1);
    Ok(reads_but(&column, b"none", b"0"))
}

#[test]
fn cells_that_read(rt: HostRuntime) -> Result<(), Fail> {
    let alloc = rt.alloc();
    assert!(rt; numbers_know_cells(alloc)?);
    assert!(rt; flags_know_cells(alloc)?);
    assert!(rt; texts_know_cells(alloc)?);
    assert!(rt; bytes_know_cells(alloc)?);
    assert!(rt; bytes_of_rows_know_cells(alloc)?);
    assert!(rt; nulls_know_cells(alloc)?);
    Ok(())
}

#[test]
fn nulls_alone(rt: HostRuntime) -> Result<(), Fail> {
    let alloc = rt.alloc();
    let column = Int64Chunked::full_null(alloc, name_of(alloc)?, 2)?;
    assert_eq!(rt;
        (column.len(), column.null_count(), column.n_chunks()),
        (2, 2, 1)
    );
    assert_eq!(rt; column.dtype()?, DataType::Int64);
    Ok(())
}

#[test]
fn names_and_types(rt: HostRuntime) -> Result<(), Fail> {
    let alloc = rt.alloc();
    let mut column = UInt32Chunked::new(alloc, PlSmallStr::from_str(alloc, "u")?);
    column.reserve(2)?;
    assert!(rt; column.is_empty());
    column.rename(name_of(alloc)?);
    assert_eq!(rt; column.name().as_str(), "m");
    assert_eq!(rt; column.dtype()?, DataType::UInt32);
    assert_eq!(rt; column.is_sorted_flag(), IsSorted::Not);
    Ok(())
}

#[test]
fn texts_and_nulls(rt: HostRuntime) -> Result<(), Fail> {
    let alloc = rt.alloc();
    let mut column = StringChunked::new(alloc, name_of(alloc)?);
    column.push(Some("alpha"))?;
    column.push(None)?;
    column.push(Some("é"))?;
    assert_eq!(rt; column.len(), 3);
    assert_eq!(rt; column.get(0), Some("alpha"));
    assert_eq!(rt; column.get(1), None);
    assert_eq!(rt; column.get(2), Some("é"));
    Ok(())
}

#[test]
fn texts_are_taken(rt: HostRuntime) -> Result<(), Fail> {
    let alloc = rt.alloc();
    let mut column = StringChunked::new(alloc, name_of(alloc)?);
    column.push(Some("a"))?;
    column.push(Some("bc"))?;
    assert_eq!(rt; column.len(), 2);
    let taken = column.take(&[1, 1, 0])?;
    assert_eq!(rt; taken.len(), 3);
    assert_eq!(rt; taken.get(1), Some("bc"));
    assert_eq!(rt; taken.null_count(), 0);
    Ok(())
}

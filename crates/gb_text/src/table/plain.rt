//! A table that begins with its header, read in place. What does not read, and a closing quote that
//! something else than a comma or a line end follows, is left to `csv`, which reads the same records more
//! slowly and tells each fault.

ghost use Rattle.std.specs.Prelude.{◌≡◌, ◌≢◌, ◌⊎◌, ◌≤◌, true, length, map, All, IfErr, IfOk, IfSome, Ok};
ghost use Rattle.std.specs.Bool.{OnFalse, OnTrue};
ghost use Rattle.std.specs.Str.{IsAscii};
ghost use Rattle.csv.specs.Reading.{strip_bom};
ghost use Rattle.csv.specs.Records.{fields_of};
ghost use Rattle.gb_defs.specs.Column.{rechunked};
ghost use Rattle.gb_defs.specs.Table.{table};
ghost use Rattle.gb_text.specs.Asked.{asked_table, names_in};
ghost use Rattle.gb_text.specs.Building.{BuildsCell, IsRoomy};
ghost use Rattle.gb_text.specs.Plain.{BeginsWith, IsMarked, TakesFront, TakesLine};
ghost use Rattle.gb_text.specs.Refusal.{IsRefusedTable};

use crate::status::TableError;
use crate::table::blocks::Reading;
use crate::table::builder::ColumnBuilder;
use crate::table::cell::{begins_with_digits, cell_of, marked_cell, marks_ahead};
use crate::table::frame_of;
use crate::table::grown::grown_columns;
use crate::table::lines::Lines;
use csv::ByteRecord;
use gb_series::frame::DataFrame;
use std::alloc::{AllocError, Global};
use std::thread::Threads;

/// The record in front of a text, and the text behind it. None where it is not plain.
pub fn plain_header(alloc: Global, text: &[u8]) -> Result<Option<(ByteRecord, &[u8])>, AllocError>
    ensures { IfOk result (λ cut. IfSome cut (λ h. BeginsWith (fields_of h.0) text.now h.1.now)) }
{
    let mut fields = ByteRecord::new(alloc);
    let mut room = Vec::new(alloc);
    let mut left = text;
    for _ in 0..u64::MAX {
        let Some((cell, rest, last)) = cell_of(left, &mut room)? else {
            return Ok(None);
        };
        fields.push_field(cell)?;
        if last {
            return Ok(Some((fields, rest)));
        }
        left = rest;
    }
    Err(AllocError)
}

// Puts a cell at the end of a column. False where it does not read. A text is not looked at where a column passes it.
#[inline(always)]
fn push_cell(
    column: &mut ColumnBuilder,
    cell: &[u8],
    ascii: bool,
    null_word: &str,
) -> Result<bool, AllocError>
    requires room { IsRoomy column.old }
    requires ascii { ascii ≡ true → IsAscii cell.now }
    ensures { IfOk result (λ took. OnTrue took
        (BuildsCell null_word.now column.old column.new cell.now true)) }
{
    if ascii && column.passes_texts() {
        column.pass_text();
        return Ok(true);
    }
    column.push_cell(cell, ascii, null_word)
}

// Puts the cell in front of a text at the end of a column, and gives the text behind it, whether its record ends
// there, and the marks of that text. None where it is not plain or does not read. Digits are not read where a
// column passes them.
#[inline(always)]
fn push_front<'a>(
    column: &mut ColumnBuilder,
    text: &'a [u8],
    marks: u64,
    ascii: bool,
    null_word: &str,
    room: &mut Vec<u8>,
) -> Result<Option<(&'a [u8], bool, u64)>, AllocError>
    requires room { IsRoomy column.old }
    requires ascii { ascii ≡ true → IsAscii text.now }
    requires marks { IsMarked text.now marks }
    ensures front { IfOk result (λ found. IfSome found (λ end.
        TakesFront null_word.now column.old column.new text.now end.0.now end.1)) }
    ensures marks { IfOk result (λ found. IfSome found (λ end. IsMarked end.0.now end.2)) }
{
    if let Some((cell, rest, last, left)) = marked_cell(text, marks_ahead(text, marks)) {
        if column.passes_digits() && begins_with_digits(text, cell.len()) {
            column.pass_digits();
            return Ok(Some((rest, last, left)));
        }
        if push_cell(column, cell, ascii, null_word)? {
            return Ok(Some((rest, last, left)));
        }
        return Ok(None);
    }
    let Some((cell, rest, last)) = cell_of(text, room)? else {
        return Ok(None);
    };
    if push_cell(column, cell, ascii, null_word)? {
        return Ok(Some((rest, last, 0)));
    }
    Ok(None)
}

/// Puts the cells of the record in front of a text at the ends of the columns, and gives the text behind
/// it. None where it is not plain, has not a cell for each column, or a cell does not read. The room is
/// for cells that do not stand in the text as they are.
pub fn push_line<'a>(
    columns: &mut [ColumnBuilder],
    text: &'a [u8],
    mut marks: u64,
    ascii: bool,
    null_word: &str,
    room: &mut Vec<u8>,
) -> Result<Option<(&'a [u8], u64)>, AllocError>
    requires room { All IsRoomy columns.old }
    requires ascii { ascii ≡ true → IsAscii text.now }
    requires marks { IsMarked text.now marks }
    ensures ok { IfOk result (λ found. IfSome found (λ end.
        TakesLine null_word.now columns.old columns.new text.now end.0.now)) }
    ensures ascii { IfOk result (λ found. IfSome found (λ end. ascii ≡ true → IsAscii end.0.now)) }
    ensures marks { IfOk result (λ found. IfSome found (λ end. IsMarked end.0.now end.1)) }
{
    let mut left = text;
    let mut ended = false;
    for column in columns.iter_mut() {
        if ended {
            return Ok(None);
        }
        let found = push_front(column, left, marks, ascii, null_word, room)?;
        let Some((rest, last, next)) = found else {
            return Ok(None);
        };
        left = rest;
        ended = last;
        marks = next;
    }
    if !ended {
        return Ok(None);
    }
    Ok(Some((left, marks)))
}

/// Whether a line end stands where a record would begin: it is passed over.
pub fn is_line_end(first: u8) -> bool
    ensures yes { OnTrue result ((first ≡ 10) ⊎ (first ≡ 13)) }
    ensures no { OnFalse result ((first ≢ 10) × (first ≢ 13)) }
{
    first == b'\n' || first == b'\r'
}

/// The bytes behind a byte order mark, where they begin with one.
pub fn without_mark(bytes: &[u8]) -> &[u8]
    ensures { result.now ≡ strip_bom bytes.now }
{
    if bytes.len() > 2 && bytes[0] == 0xEF && bytes[1] == 0xBB && bytes[2] == 0xBF {
        return &bytes[3..];
    }
    bytes
}

/// The frame of the columns that are asked for, where the bytes are plain and every record reads. They are
/// read in so many parts. A fault of a plain header is told here, and one behind it is left to `csv`.
pub fn plain_table<R: Threads + Sync>(
    rt: &R,
    alloc: Global,
    bytes: &[u8],
    reading: &Reading<'_>,
    parts: usize,
) -> Result<Option<DataFrame>, TableError>
    requires few { length bytes.now ≤ 4294967295 }
    requires some { 1 ≤ parts }
    ensures ok { let names = names_in reading.now.names.now in
        IfOk result (λ found. IfSome found (λ frame.
        asked_table names bytes.now reading.now.null_word.now ≡ Ok (map rechunked frame))) }
    ensures err { IfErr result (λ e.
        IsRefusedTable e (table bytes.now reading.now.null_word.now)) }
{
    let text = without_mark(bytes);
    if text.is_empty() || is_line_end(text[0]) {
        return Ok(None);
    }
    let Some((header, text)) = plain_header(alloc, text)? else {
        return Ok(None);
    };
    let lines = Lines {
        header: &header,
        names: reading.names,
        null_word: reading.null_word,
        text,
        ascii: text.is_ascii(),
    };
    let Some(columns) = lines.read_to(rt, alloc, text.len(), parts)? else {
        return Ok(None);
    };
    let grown = grown_columns(columns, reading.seed)?;
    Ok(Some(frame_of(grown)?))
}

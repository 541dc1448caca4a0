//! The text of a frame: a row of header fields, and a row of cells for each row.

ghost use Rattle.std.specs.Prelude.{◌≡◌, ℕ, ◌+◌, ◌++◌, ◌<◌, ◌≤◌, ◌^◌, [], All, IfErr, IfOk, List, OnOk, length, map};
ghost use Rattle.gb_defs.specs.Column.{content};
ghost use Rattle.gb_defs.specs.Text.{frame_text, header_field, header_line, row_line};
ghost use Rattle.gb_cols.specs.Column.{cell_of};
ghost use Rattle.gb_base.specs.PlSmallStr.{IsNoMemory};
ghost use Rattle.gb_flat.specs.Buffers.{joined};
ghost use Rattle.gb_series.specs.Series.{value_of};
ghost use Rattle.gb_text.specs.Text.{EndsRow, HasBegun, TakesField, TakesRows, contents_of, rows_text};

use crate::table::only_memory;
use crate::type_word::put_word;
use csv::{Writer, WriterBuilder};
use gb_base::error::{PolarsError, PolarsResult};
use gb_cols::series_trait::SeriesTrait;
use gb_flat::shares::map_shares;
use gb_series::frame::DataFrame;
use gb_series::series::Series;
use std::alloc::{AllocError, Global};
use std::thread::Threads;

// For fewer rows a worker no thread is started.
const SHARE_ROWS: usize = 16_384;

// So many rows tell how many bytes the rows of a part take.
const SAMPLE_ROWS: usize = 1024;

// One field more of the record.
fn put_field(writer: &mut Writer<Vec<u8>>, field: &[u8]) -> Result<(), AllocError>
    ensures { OnOk result (TakesField writer.old writer.new field.now) }
{
    match writer.write_field(field) {
        Ok(()) => Ok(()),
        Err(_) => Err(AllocError),
    }
}

// The end of the record.
fn end_row(writer: &mut Writer<Vec<u8>>) -> Result<(), AllocError>
    ensures { OnOk result (EndsRow writer.old writer.new) }
{
    match writer.end_record() {
        Ok(()) => Ok(()),
        Err(_) => Err(AllocError),
    }
}

// The header field of a column, made in `field`.
fn put_head(
    writer: &mut Writer<Vec<u8>>,
    column: &Series,
    field: &mut Vec<u8>,
) -> Result<(), AllocError>
    ensures { let field = header_field (content (value_of column.now)) in
        OnOk result (TakesField writer.old writer.new field) }
{
    let dtype = only_memory(column.dtype())?;
    field.clear();
    field.extend_from_slice(column.name().as_str().as_bytes())?;
    field.push(b':')?;
    put_word(&dtype, field)?;
    put_field(writer, field.as_slice())
}

// The cell of a column at a row, made in `cell`.
fn put_cell(
    writer: &mut Writer<Vec<u8>>,
    column: &Series,
    row: usize,
    null_word: &str,
    cell: &mut Vec<u8>,
) -> Result<(), AllocError>
    requires { row < length (value_of column.now).slots }
    ensures { let cell = cell_of null_word.now (value_of column.now) row in
        OnOk result (TakesField writer.old writer.new cell) }
{
    cell.clear();
    column.write_cell(row, null_word, cell)?;
    put_field(writer, cell.as_slice())
}

// The row of header fields.
fn put_header(
    alloc: Global,
    writer: &mut Writer<Vec<u8>>,
    columns: &[Series],
) -> Result<(), AllocError>
    ensures { let line = header_line (contents_of columns.now) in
        OnOk result (TakesRows writer.old writer.new line) }
{
    let mut field = Vec::new(alloc);
    for column in columns {
        put_head(writer, column, &mut field)?;
    }
    end_row(writer)
}

// A row of cells.
fn put_row(
    writer: &mut Writer<Vec<u8>>,
    columns: &[Series],
    row: usize,
    null_word: &str,
    cell: &mut Vec<u8>,
) -> Result<(), AllocError>
    requires { All (λ column. row < length (value_of column).slots) columns.now }
    ensures { let line = row_line null_word.now (contents_of columns.now) row in
        OnOk result (TakesRows writer.old writer.new line) }
{
    for column in columns {
        put_cell(writer, column, row, null_word, cell)?;
    }
    end_row(writer)
}

// The rows of cells of a range, its first row and how many they are.
fn put_rows(
    writer: &mut Writer<Vec<u8>>,
    columns: &[Series],
    range: (usize, usize),
    null_word: &str,
    cell: &mut Vec<u8>,
) -> Result<(), AllocError>
    requires rows { All (λ column. range.0 + range.1 ≤ length (value_of column).slots) columns.now }
    requires few { range.0 + range.1 < 2 ^ 64 }
    ensures { let text = rows_text null_word.now (contents_of columns.now) range in
        OnOk result (TakesRows writer.old writer.new text) }
{
    let (first, count) = range;
    for place in 0..count {
        put_row(writer, columns, first + place, null_word, cell)?;
    }
    Ok(())
}

// A writer to which nothing was written, with room for so many bytes.
fn fresh_writer(alloc: Global, bytes: usize) -> Result<Writer<Vec<u8>>, AllocError>
    ensures { IfOk result (λ writer. HasBegun writer [] []) }
{
    let room = Vec::with_capacity(alloc, bytes)?;
    Ok(WriterBuilder::new().from_writer(room))
}

// What was written.
fn written(writer: Writer<Vec<u8>>) -> PolarsResult<Vec<u8>>
    ensures ok { (text : List ℕ) → HasBegun writer text []
        → IfOk result (λ t. t.items ≡ text) }
    ensures err { IfErr result IsNoMemory }
{
    match writer.into_inner() {
        Ok(text) => Ok(text),
        Err(_) => Err(PolarsError::NoMemory),
    }
}

// How many bytes the rows of cells of a range likely take, by the first of them: text that grows is moved again and
// again.
fn likely_bytes(
    alloc: Global,
    columns: &[Series],
    range: (usize, usize),
    null_word: &str,
) -> PolarsResult<usize>
    requires rows { All (λ column. range.0 + range.1 ≤ length (value_of column).slots) columns.now }
    requires few { range.0 + range.1 < 2 ^ 64 }
    ensures err { IfErr result IsNoMemory }
{
    let (first, count) = range;
    if count < SAMPLE_ROWS {
        return Ok(0);
    }
    let mut writer = fresh_writer(alloc, 0)?;
    let mut cell = Vec::new(alloc);
    put_rows(
        &mut writer,
        columns,
        (first, SAMPLE_ROWS),
        null_word,
        &mut cell,
    )?;
    let text = written(writer)?;
    let each = text.len() / SAMPLE_ROWS + 2;
    Ok(each.saturating_mul(count))
}

// The row of header fields, and the rows of cells of a range.
fn text_from_header(
    alloc: Global,
    columns: &[Series],
    range: (usize, usize),
    null_word: &str,
) -> PolarsResult<Vec<u8>>
    requires rows { All (λ column. range.0 + range.1 ≤ length (value_of column).slots) columns.now }
    requires few { range.0 + range.1 < 2 ^ 64 }
    ensures ok { let contents = contents_of columns.now in IfOk result (λ t.
        t.items ≡ header_line contents ++ rows_text null_word.now contents range) }
    ensures err { IfErr result IsNoMemory }
{
    let bytes = likely_bytes(alloc, columns, range, null_word)?;
    let mut writer = fresh_writer(alloc, bytes)?;
    put_header(alloc, &mut writer, columns)?;
    let mut cell = Vec::new(alloc);
    put_rows(&mut writer, columns, range, null_word, &mut cell)?;
    let text = written(writer)?;
    Ok(text)
}

// The rows of cells of a range.
fn text_of_rows(
    alloc: Global,
    columns: &[Series],
    range: (usize, usize),
    null_word: &str,
) -> PolarsResult<Vec<u8>>
    requires rows { All (λ column. range.0 + range.1 ≤ length (value_of column).slots) columns.now }
    requires few { range.0 + range.1 < 2 ^ 64 }
    ensures ok { let contents = contents_of columns.now in
        IfOk result (λ t. t.items ≡ rows_text null_word.now contents range) }
    ensures err { IfErr result IsNoMemory }
{
    let bytes = likely_bytes(alloc, columns, range, null_word)?;
    let mut writer = fresh_writer(alloc, bytes)?;
    let mut cell = Vec::new(alloc);
    put_rows(&mut writer, columns, range, null_word, &mut cell)?;
    let text = written(writer)?;
    Ok(text)
}

// The whole text, in which each worker writes some rows that follow each other, a part each.
fn text_by_workers<T: Threads + Sync>(
    rt: &T,
    alloc: Global,
    columns: &[Series],
    height: usize,
    null_word: &str,
    workers: usize,
) -> PolarsResult<Vec<Vec<u8>>>
    requires some { 1 ≤ workers }
    requires high { All (λ column. length (value_of column).slots ≡ height) columns.now }
    ensures ok { let contents = contents_of columns.now in IfOk result (λ parts. joined parts.items
        ≡ header_line contents ++ rows_text null_word.now contents (0, height)) }
    ensures err { IfErr result IsNoMemory }
{
    let part = |range: (usize, usize)|
        requires { All (λ column. range.0 + range.1 ≤ length (value_of column).slots) columns.now
            × (range.0 + range.1 < 2 ^ 64) }
        ensures { IfOk result (λ t. t.items
            ≡ rows_text null_word.entry.now (contents_of columns.entry.now) range)
            × IfErr result IsNoMemory }
    { text_of_rows(alloc, columns, range, null_word) };
    let mut rows = map_shares(rt, alloc, height, workers, &part)?;
    let mut parts = Vec::with_capacity(alloc, workers + 1)?;
    parts.push(text_from_header(alloc, columns, (0, 0), null_word)?)?;
    parts.append(&mut rows)?;
    Ok(parts)
}

/// The text of the frame, with this word for null, in parts that follow each other: by so many workers, a part
/// each, if it has many rows, else in one. With one worker no thread is started.
pub fn text_of<T: Threads + Sync>(
    rt: &T,
    alloc: Global,
    frame: &DataFrame,
    null_word: &str,
    workers: usize,
) -> PolarsResult<Vec<Vec<u8>>>
    ensures ok { IfOk result (λ parts.
        joined parts.items ≡ frame_text (map content frame.now) null_word.now) }
    ensures err { IfErr result IsNoMemory }
{
    let columns = frame.get_columns();
    if columns.is_empty() {
        return Ok(Vec::new(alloc));
    }
    let height = frame.height();
    let workers = workers.min(height / SHARE_ROWS);
    if workers < 2 {
        let mut parts = Vec::new(alloc);
        parts.push(text_from_header(alloc, columns, (0, height), null_word)?)?;
        return Ok(parts);
    }
    let parts = text_by_workers(rt, alloc, columns, height, null_word, workers)?;
    Ok(parts)
}

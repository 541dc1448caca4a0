//! A table's text, read as a frame: in place where it is plain, and else by `csv`, which tells each
//! fault at its place.

pub mod blocks;
mod builder;
mod cell;
pub mod grown;
mod header;
mod jobs;
mod lines;
pub mod plain;
mod queue;

ghost use Rattle.std.specs.Prelude.{◌≡◌, ◌≤◌, ◌++◌, [], List, ℕ, true, length, map, All, Ok, Err, OnOk, OnErr, IfOk, IfErr};
ghost use Rattle.std.specs.List.{cons_option, filter_map};
ghost use Rattle.gb_defs.specs.Column.{IsFrame, rechunked};
ghost use Rattle.gb_defs.specs.Table.{table};
ghost use Rattle.gb_base.specs.PlSmallStr.{IsNoMemory};
ghost use Rattle.gb_text.specs.Asked.{asked_table, names_in};
ghost use Rattle.gb_text.specs.Building.{IsRoomy, IsWhole, read_if_kept};
ghost use Rattle.gb_text.specs.Builder.{read_in};
ghost use Rattle.gb_text.specs.Refusal.{IsRefusedTable};
ghost use Rattle.gb_text.specs.Stream.{IsFront, IsSomeFront, rows_read};
ghost use Rattle.gb_text.specs.Table.{GivesRecords, HasRecordsOf, columns_with, left_of};
ghost use Rattle.gb_text.specs.Taking.{IsFewTaking, IsTaking};
ghost use Rattle.csv.specs.Reading.{ReadRecord};
ghost use Rattle.csv.specs.Records.{AllText, fields_of};

use crate::status::{TableError, TableFault};
use crate::table::blocks::Reading;
use crate::table::grown::{GrownColumn, grown_columns};
use crate::table::header::columns_of_header;
use crate::table::lines::count_parts;
use crate::table::plain::plain_table;
use csv::{ByteRecord, Reader, ReaderBuilder};
use gb_base::error::{PolarsError, PolarsResult};
use gb_series::frame::DataFrame;
use gb_series::series::Series;
use std::alloc::{AllocError, AllocFailed, Global};
use std::thread::Threads;

impl From<AllocError> for TableError {
    ghost use Rattle.std.specs.Prelude.{◌≡◌};
    ghost use Rattle.gb_text.specs.declared.status.TableError.TheVariants.{NoMemory};

    ghost from_gives = { λ _ e. e ≡ NoMemory };

    fn from(_: AllocError) -> TableError {
        TableError::NoMemory
    }
}

impl<T: Drop> From<AllocFailed<T>> for TableError {
    ghost use Rattle.std.specs.Prelude.{◌≡◌};
    ghost use Rattle.gb_text.specs.declared.status.TableError.TheVariants.{NoMemory};

    ghost from_gives = { λ _ e. e ≡ NoMemory };

    fn from(_: AllocFailed<T>) -> TableError {
        TableError::NoMemory
    }
}

/// What a call gave that can fail for want of memory alone.
pub fn only_memory<T>(called: PolarsResult<T>) -> Result<T, AllocError>
    requires { IfErr called IsNoMemory }
    ensures ok { IfOk result (λ value. called ≡ Ok value) }
    ensures err { OnErr result (called ≡ Err PolarsError.NoMemory) }
{
    match called {
        Ok(value) => Ok(value),
        Err(_) => Err(AllocError),
    }
}

// The column of a builder behind those before, where its slots were kept.
fn push_finished(columns: &mut Vec<Series>, builder: GrownColumn) -> Result<(), AllocError>
    requires { IsWhole builder }
    ensures { let kept = cons_option (read_if_kept builder) [] in
        OnOk result (read_in columns.new.items ≡ read_in columns.old.items ++ kept) }
{
    match builder.finish()? {
        Some(column) => {
            columns.push(column)?;
            Ok(())
        }
        None => Ok(()),
    }
}

// The columns whose slots were kept.
fn finished(builders: Vec<GrownColumn>) -> Result<Vec<Series>, AllocError>
    requires { All IsWhole builders.items }
    ensures { let kept = filter_map read_if_kept builders.items in
        IfOk result (λ columns. read_in columns.items ≡ kept) }
{
    let mut columns = Vec::new(*builders.allocator());
    for builder in builders {
        push_finished(&mut columns, builder)?;
    }
    Ok(columns)
}

// The frame of the columns whose slots were kept. They have one length and different names.
fn frame_of(builders: Vec<GrownColumn>) -> Result<DataFrame, AllocError>
    requires whole { All IsWhole builders.items }
    requires frame { IsFrame (filter_map read_if_kept builders.items) }
    ensures { IfOk result (λ frame. map rechunked frame ≡ filter_map read_if_kept builders.items) }
{
    match DataFrame::new(finished(builders)?) {
        Ok(frame) => Ok(frame),
        Err(PolarsError::NoMemory) => Err(AllocError),
        Err(_) => unreachable!(),
    }
}

/// The columns of these names of the frame that the bytes are, by typed CSV, in any chunks. Every cell of
/// every column is checked, and the first fault in reading order is told with its row and column. A plain
/// table is read by all workers; with one no thread is started.
pub fn table_of<R: Threads + Sync>(
    rt: &R,
    alloc: Global,
    bytes: &[u8],
    reading: &Reading<'_>,
) -> Result<DataFrame, TableError>
    requires { length bytes.now ≤ 4294967295 }
    ensures ok { let names = names_in reading.now.names.now in
        IfOk result (λ frame. asked_table names bytes.now reading.now.null_word.now
        ≡ Ok (map rechunked frame)) }
    ensures err { IfErr result (λ e.
        IsRefusedTable e (table bytes.now reading.now.null_word.now)) }
{
    let parts = count_parts(bytes.len(), reading.workers);
    if let Some(frame) = plain_table(rt, alloc, bytes, reading, parts)? {
        return Ok(frame);
    }
    csv_table(alloc, bytes, reading)
}

// A reader of the records of a text, the header among them.
fn reader_of(alloc: Global, bytes: &[u8]) -> Reader<&[u8]>
    ensures { HasRecordsOf bytes.now result }
{
    ReaderBuilder::new()
        .has_headers(false)
        .flexible(true)
        .from_reader(alloc, bytes)
}

// The next record, false where there is none. Of a reader over bytes in memory that takes records of
// any length, every error is want of memory.
fn read_record(reader: &mut Reader<&[u8]>, fields: &mut ByteRecord) -> Result<bool, AllocError>
    requires { GivesRecords reader.old }
    ensures read { IfOk result (λ found.
        ReadRecord left_of reader.old reader.new found (fields_of fields.new)) }
    ensures gives { OnOk result (GivesRecords reader.new) }
{
    match reader.read_byte_record(fields) {
        Ok(found) => Ok(found),
        Err(_) => Err(AllocError),
    }
}

// Whether all bytes of the record are ASCII, by one look at them.
fn is_ascii(fields: &ByteRecord) -> bool
    ensures { result ≡ true → AllText (fields_of fields.now) }
{
    fields.as_slice().is_ascii()
}

// Puts the cells of the record of this row at the ends of the columns, or tells its first fault:
// another number of fields than columns, or a cell that does not read. After a fault some columns may
// have a slot more.
fn push_record(
    columns: &mut [GrownColumn],
    fields: &ByteRecord,
    row: u64,
    null_word: &str,
) -> Result<(), TableError>
    requires room { All IsRoomy columns.old }
    ensures ok { let more = columns_with null_word.now row columns.old (fields_of fields.now) in
        OnOk result (more ≡ Ok columns.new) }
    ensures err { let more = columns_with null_word.now row columns.old (fields_of fields.now) in
        IfErr result (λ e. IsRefusedTable e more) }
{
    let found = fields.len();
    let wanted = columns.len();
    if found != wanted {
        let fault = TableFault::Ragged(row, found as u64, wanted as u64);
        return Err(TableError::Fault(fault));
    }
    let is_text = is_ascii(fields);
    for (place, column) in columns.iter_mut().enumerate() {
        let Some(cell) = fields.get(place) else {
            unreachable!();
        };
        if !column.push_cell(cell, is_text, null_word)? {
            return Err(TableError::Fault(TableFault::BadCell(row, place as u64 + 1)));
        }
    }
    Ok(())
}

/// The columns of these names of the frame that the bytes are, read by `csv` alone.
pub fn csv_table(
    alloc: Global,
    bytes: &[u8],
    reading: &Reading<'_>,
) -> Result<DataFrame, TableError>
    requires { length bytes.now ≤ 4294967295 }
    ensures ok { let names = names_in reading.now.names.now in
        IfOk result (λ frame. asked_table names bytes.now reading.now.null_word.now
        ≡ Ok (map rechunked frame)) }
    ensures err { IfErr result (λ e.
        IsRefusedTable e (table bytes.now reading.now.null_word.now)) }
{
    let mut reader = reader_of(alloc, bytes);
    let mut fields = ByteRecord::new(alloc);
    let found = read_record(&mut reader, &mut fields)?;
    if !found {
        return Err(TableError::Fault(TableFault::NoHeader));
    }
    let columns = columns_of_header(alloc, &fields, reading.names)?;
    let grown = grown_columns(columns, reading.seed)?;
    let frame = csv_rows(reader, grown, 1, reading.null_word)?;
    Ok(frame)
}

// The frame of the columns that have read so many rows of a table, the header among them, with those that
// the reader has yet to give.
fn csv_rows(
    mut reader: Reader<&[u8]>,
    mut columns: Vec<GrownColumn>,
    rows: u64,
    null_word: &str,
) -> Result<DataFrame, TableError>
    requires { IsFewTaking null_word.now rows columns.items reader }
    ensures ok { IfOk result (λ frame. (names : List (List ℕ)) (bytes : List ℕ) →
        IsTaking names null_word.now bytes rows columns.items reader.entry →
        asked_table names bytes null_word.now ≡ Ok (map rechunked frame)) }
    ensures err { IfErr result (λ e. (names : List (List ℕ)) (bytes : List ℕ) →
        IsTaking names null_word.now bytes rows columns.items reader.entry →
        IsRefusedTable e (table bytes null_word.now)) }
{
    let mut fields = ByteRecord::new(*columns.allocator());
    for row in rows..u64::MAX {
        let found = read_record(&mut reader, &mut fields)?;
        if !found {
            return Ok(frame_of(columns)?);
        }
        push_record(&mut columns, &fields, row, null_word)?;
    }
    Err(TableError::NoMemory)
}

// How many rows columns have read, by the first of them.
fn count_rows(columns: &[GrownColumn]) -> usize
    ensures { result ≡ rows_read columns.now }
{
    match columns.first() {
        Some(column) => column.len(),
        None => 0,
    }
}

// The frame of the columns, and of all that is held behind what they have read, by `csv`.
fn csv_behind(
    alloc: Global,
    columns: Vec<GrownColumn>,
    mut held: Vec<u8>,
    null_word: &str,
) -> Result<DataFrame, TableError>
    requires { IsSomeFront null_word.now held.items columns.items }
    ensures ok { IfOk result (λ frame.
        (names header : List (List ℕ)) (bytes : List ℕ) → length bytes ≤ 4294967295 →
        IsFront names null_word.now header bytes held.items columns.items →
        asked_table names bytes null_word.now ≡ Ok (map rechunked frame)) }
    ensures err { IfErr result (λ e.
        (names header : List (List ℕ)) (bytes : List ℕ) → length bytes ≤ 4294967295 →
        IsFront names null_word.now header bytes held.items columns.items →
        IsRefusedTable e (table bytes null_word.now)) }
{
    // Behind a line feed nothing is a byte order mark.
    held.insert(0, b'\n')?;
    let reader = reader_of(alloc, &held);
    let rows = count_rows(&columns) as u64 + 1;
    let frame = csv_rows(reader, columns, rows, null_word)?;
    Ok(frame)
}

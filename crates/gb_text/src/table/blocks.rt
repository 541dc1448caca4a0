//! A table read from its source block by block, so that its text is not held whole: each block in turn, or
//! several by threads. What is left in the end is read by all workers.

ghost use Rattle.std.specs.Prelude.{◌≡◌, ◌≢◌, ◌≤◌, ◌+◌, ◌<◌, [], List, ℕ, Option, Err, Ok, true, drop, length, map, IfErr, IfOk, IfSome, OnOk};
ghost use Rattle.std.specs.Bool.{OnTrue};
ghost use Rattle.std.specs.Str.{IsAscii};
ghost use Rattle.csv.specs.Records.{fields_of};
ghost use Rattle.gb_defs.specs.Column.{rechunked};
ghost use Rattle.gb_defs.specs.Table.{table};
ghost use Rattle.gb_text.specs.Asked.{asked_table, names_in};
ghost use Rattle.gb_text.specs.Building.{in_one_chunk};
ghost use Rattle.gb_text.specs.Part.{HasPart, IsHeaderRefused};
ghost use Rattle.gb_text.specs.Refusal.{IsRefusedTable};
ghost use Rattle.gb_text.specs.Moved.{HasTaken};
ghost use Rattle.gb_text.specs.Stream.{HasReadAll, IsFewFront, IsFilled, IsFrontBy, IsReadBy, IsRefusedInput, IsSomeStreamed, IsStarted, ReadsOn};
ghost use Rattle.gb_text.specs.declared.status.Status.TheVariants as status;

use crate::status::{Status, TableError};
use crate::streams::{Progress, fill, fill_all};
use crate::table::builder::ColumnBuilder;
use crate::table::grown::{GrownColumn, append_block, grown_columns};
use crate::table::header::columns_of_header;
use crate::table::lines::{Lines, count_parts};
use crate::table::plain::{is_line_end, plain_header, without_mark};
use crate::table::queue::read_queued;
use crate::table::{csv_behind, frame_of, table_of};
use csv::ByteRecord;
use gb_base::device::Source;
use gb_series::frame::DataFrame;
use std::alloc::{AllocError, Global};
use std::mem::swap;
use std::thread::Threads;

/// How many bytes the first block has at most, so that its lines are soon read. With one worker each later one has
/// at most twice as many as the one before.
pub const FIRST_BLOCK: usize = 131_072;

/// What a table is read for, and how.
#[derive(Clone, Copy)]
pub struct Reading<'a> {
    /// The columns that are kept.
    pub names: &'a [&'a str],
    pub null_word: &'a str,
    pub workers: usize,
    /// How many bytes are held at a time, one line at least.
    pub block: usize,
    /// What texts of categories are hashed under. Where a table comes from a stranger it has to be one that they
    /// do not know.
    pub seed: u64,
}

/// A header with its columns, and where the lines behind it begin.
#[derive(Drop)]
struct Start {
    header: ByteRecord,
    columns: Vec<ColumnBuilder>,
    lines: usize,
}

// The header in front of the first bytes of a table. None where it is not plain or at fault, or where
// nothing stands behind it.
fn start_of(alloc: Global, held: &[u8], names: &[&str]) -> Result<Option<Start>, AllocError>
    ensures { IfOk result (λ found. IfSome found (IsStarted (names_in names.now) held.now)) }
{
    let text = without_mark(held);
    if held.len() < 3 || text.is_empty() || is_line_end(text[0]) {
        return Ok(None);
    }
    let Some((header, rest)) = plain_header(alloc, text)? else {
        return Ok(None);
    };
    if rest.is_empty() {
        return Ok(None);
    }
    let lines = held.len() - rest.len();
    match columns_of_header(alloc, &header, names) {
        Ok(columns) => Ok(Some(Start {
            header,
            columns,
            lines,
        })),
        Err(TableError::Fault(_)) => Ok(None),
        Err(TableError::NoMemory) => Err(AllocError),
    }
}

/// Leaves of the bytes those from a place on.
pub fn keep_from(held: &mut Vec<u8>, place: usize) -> Result<(), AllocError>
    requires { place ≤ length held.old.items }
    ensures { OnOk result (held.new.items ≡ drop place held.old.items) }
{
    let rest = Vec::from_slice(*held.allocator(), &held[place..])?;
    held.clear();
    held.extend_from_slice(&rest)?;
    Ok(())
}

/// Where the last line begins, if one ends before it.
pub fn last_line(text: &[u8]) -> Option<usize>
    ensures { IfSome result (λ place. place < length text.now) }
{
    for place in (1..text.len()).rev() {
        if text[place - 1] == b'\n' {
            return Some(place);
        }
    }
    None
}

// What is held of a table, the room for the block behind it, and how far the source was read.
#[derive(Drop)]
struct Window {
    held: Vec<u8>,
    next: Vec<u8>,
    now: Progress,
}

// The columns of the lines up to a place, and then the next bytes of the source behind those of another text.
fn read_and_fill<R: Threads + Sync, S: Source>(
    rt: &R,
    alloc: Global,
    lines: &Lines<'_>,
    place: usize,
    source: &mut S,
    next: &mut Vec<u8>,
    read: u64,
    limit: u64,
    enough: usize,
) -> (
    Result<Option<Vec<ColumnBuilder>>, TableError>,
    Result<Progress, Status>,
)
    requires place { place ≤ length lines.now.text.now }
    requires few { length lines.now.text.now ≤ 4294967295 }
    requires ascii { lines.now.ascii ≡ true → IsAscii lines.now.text.now }
    requires within { read ≤ limit }
    requires limit { limit ≤ 4294967295 }
    ensures ok { IfOk result.0 (λ found. IfSome found (λ columns.
        HasPart lines.now 0 place columns.items)) }
    ensures err { IfErr result.0 (IsHeaderRefused lines.now) }
    ensures filled { IsFilled limit read next.old.items next.new.items (S.left source.old)
        (S.left source.new) (S.faults source.old) (S.faults source.new) result.1 }
{
    let found = lines.read_to(rt, alloc, place, 1);
    (found, fill(source, next, read, limit, enough))
}

// Moves the lines of a block, but for the last, to the ends of the columns, and the next bytes of the source
// behind the last. False where the source has ended, where the lines are not plain or do not read, or where
// there is one line alone: then the columns are as they were.
fn push_block<R: Threads + Sync, S: Source>(
    rt: &R,
    alloc: Global,
    source: &mut S,
    limit: u64,
    reading: &Reading<'_>,
    header: &ByteRecord,
    columns: &mut Vec<GrownColumn>,
    window: &mut Window,
) -> Result<bool, Status>
    requires limit { limit ≤ 4294967295 }
    requires streamed { IsSomeStreamed (names_in reading.now.names.now) reading.now.null_word.now
        (fields_of header.now) limit (S.left source.old) window.old.now.read
        window.old.held.items columns.old.items }
    requires ended { OnTrue window.old.now.ended (IfSome (S.left source.old) (λ rest. rest ≡ [])) }
    requires ascii { OnTrue window.old.now.ascii (IsAscii window.old.held.items) }
    ensures ok { OnOk result ((first : Option (List ℕ)) →
        IsReadBy reading.now header.now limit first (S.left source.old)
        window.old.now.read window.old.held.items columns.old.items →
        IsReadBy reading.now header.now limit first (S.left source.new)
        window.new.now.read window.new.held.items columns.new.items) }
    ensures ended { OnOk result
        (OnTrue window.new.now.ended (IfSome (S.left source.new) (λ rest. rest ≡ []))) }
    ensures ascii { OnOk result (OnTrue window.new.now.ascii (IsAscii window.new.held.items)) }
    ensures err { IfErr result (λ s. (first : Option (List ℕ)) →
        IsReadBy reading.now header.now limit first (S.left source.old)
        window.old.now.read window.old.held.items columns.old.items →
        IsRefusedInput reading.now.null_word.now (S.faults source.old) (S.faults source.new)
        limit first (S.left source.new) s) }
    ensures taken { result ≢ Err status.ReadFault → (first : Option (List ℕ)) →
        IsReadBy reading.now header.now limit first (S.left source.old)
        window.old.now.read window.old.held.items columns.old.items →
        HasTaken (limit + 65536) first (S.left source.new) }
    ensures kept { S.faults source.old ≤ S.faults source.new }
{
    let Window { held, next, now } = window;
    if now.ended {
        return Ok(false);
    }
    let Some(place) = last_line(held) else {
        return Ok(false);
    };
    next.clear();
    next.extend_from_slice(&held[place..])?;
    let lines = Lines {
        header,
        names: reading.names,
        null_word: reading.null_word,
        text: held.as_slice(),
        ascii: now.ascii,
    };
    let enough = reading.block.min(held.len().saturating_mul(2));
    let (found, filled) = read_and_fill(
        rt, alloc, &lines, place, source, next, now.read, limit, enough,
    );
    *now = filled?;
    // The header is not at fault, so that an error is want of memory.
    let Ok(found) = found else {
        return Err(Status::NoMemory);
    };
    match found {
        Some(more) => {
            append_block(columns, more)?;
            swap(held, next);
            Ok(true)
        }
        None => {
            held.truncate(place);
            held.extend_from_slice(next)?;
            now.ascii = false;
            Ok(false)
        }
    }
}

// The frame of the columns and of all that is held behind them.
fn finish<R: Threads + Sync>(
    rt: &R,
    alloc: Global,
    reading: &Reading<'_>,
    header: &ByteRecord,
    mut columns: Vec<GrownColumn>,
    held: Vec<u8>,
    ascii: bool,
) -> Result<DataFrame, TableError>
    requires few { IsFewFront (names_in reading.now.names.now) reading.now.null_word.now
        (fields_of header.now) held.items columns.items }
    requires ascii { OnTrue ascii (IsAscii held.items) }
    ensures ok { IfOk result (λ frame. (bytes : List ℕ) → length bytes ≤ 4294967295 →
        IsFrontBy reading.now header.now bytes held.items columns.items →
        asked_table (names_in reading.now.names.now) bytes reading.now.null_word.now
        ≡ Ok (map rechunked frame)) }
    ensures err { IfErr result (λ e. (bytes : List ℕ) → length bytes ≤ 4294967295 →
        IsFrontBy reading.now header.now bytes held.items columns.items →
        IsRefusedTable e (table bytes reading.now.null_word.now)) }
{
    let lines = Lines {
        header,
        names: reading.names,
        null_word: reading.null_word,
        text: held.as_slice(),
        ascii,
    };
    let parts = count_parts(lines.text.len(), reading.workers);
    // The header is not at fault, so that an error is want of memory.
    let Ok(found) = lines.read_to(rt, alloc, lines.text.len(), parts) else {
        return Err(TableError::NoMemory);
    };
    match found {
        Some(more) => {
            append_block(&mut columns, more)?;
            Ok(frame_of(columns)?)
        }
        None => Ok(csv_behind(alloc, columns, held, reading.null_word)?),
    }
}

/// The frame of the columns and of all that the source has left, behind what is held.
pub fn finish_all<R: Threads + Sync, S: Source>(
    rt: &R,
    alloc: Global,
    source: &mut S,
    limit: u64,
    reading: &Reading<'_>,
    header: &ByteRecord,
    columns: Vec<GrownColumn>,
    mut held: Vec<u8>,
    now: Progress,
) -> Result<DataFrame, Status>
    requires limit { limit ≤ 4294967295 }
    requires streamed { IsSomeStreamed (names_in reading.now.names.now) reading.now.null_word.now
        (fields_of header.now) limit (S.left source.old) now.read held.items columns.items }
    requires ended { OnTrue now.ended (IfSome (S.left source.old) (λ rest. rest ≡ [])) }
    requires ascii { OnTrue now.ascii (IsAscii held.items) }
    ensures { ReadsOn reading.now header.now limit (S.left source.old) (S.left source.new)
        now.read held.items columns.items (S.faults source.old) (S.faults source.new) result }
{
    let all = fill_all(source, &mut held, now, limit)?;
    let frame = finish(rt, alloc, reading, header, columns, held, all.ascii)?;
    Ok(frame)
}

// `finish_all`, where the lines of each block but the last are read before the next is moved.
fn read_in_turn<R: Threads + Sync, S: Source>(
    rt: &R,
    alloc: Global,
    source: &mut S,
    limit: u64,
    reading: &Reading<'_>,
    header: &ByteRecord,
    mut columns: Vec<GrownColumn>,
    held: Vec<u8>,
    now: Progress,
) -> Result<DataFrame, Status>
    requires limit { limit ≤ 4294967295 }
    requires streamed { IsSomeStreamed (names_in reading.now.names.now) reading.now.null_word.now
        (fields_of header.now) limit (S.left source.old) now.read held.items columns.items }
    requires ended { OnTrue now.ended (IfSome (S.left source.old) (λ rest. rest ≡ [])) }
    requires ascii { OnTrue now.ascii (IsAscii held.items) }
    ensures { ReadsOn reading.now header.now limit (S.left source.old) (S.left source.new)
        now.read held.items columns.items (S.faults source.old) (S.faults source.new) result }
{
    let mut window = Window {
        held,
        next: Vec::new(alloc),
        now,
    };
    'rounds: for _ in 0..u64::MAX {
        if !push_block(
            rt,
            alloc,
            source,
            limit,
            reading,
            header,
            &mut columns,
            &mut window,
        )? {
            let Window { held, next: _, now } = window;
            let frame = finish_all(
                rt, alloc, source, limit, reading, header, columns, held, now,
            )?;
            return Ok(frame);
        }
    }
    Err(Status::NoMemory)
}

// `finish_all`, by threads where there are several workers.
fn read_on<R: Threads + Sync, S: Source>(
    rt: &R,
    alloc: Global,
    source: &mut S,
    limit: u64,
    reading: &Reading<'_>,
    header: &ByteRecord,
    columns: Vec<GrownColumn>,
    held: Vec<u8>,
    now: Progress,
) -> Result<DataFrame, Status>
    requires limit { limit ≤ 4294967295 }
    requires streamed { IsSomeStreamed (names_in reading.now.names.now) reading.now.null_word.now
        (fields_of header.now) limit (S.left source.old) now.read held.items columns.items }
    requires ended { OnTrue now.ended (IfSome (S.left source.old) (λ rest. rest ≡ [])) }
    requires ascii { OnTrue now.ascii (IsAscii held.items) }
    ensures { ReadsOn reading.now header.now limit (S.left source.old) (S.left source.new)
        now.read held.items columns.items (S.faults source.old) (S.faults source.new) result }
{
    if reading.workers > 1 {
        read_queued(
            rt, alloc, source, limit, reading, header, columns, held, now,
        )
    } else {
        read_in_turn(
            rt, alloc, source, limit, reading, header, columns, held, now,
        )
    }
}

/// The columns that are asked for of the table that the source has left, if it is at most `limit` bytes,
/// in any chunks. Every cell of every column is checked, and the first fault in reading order is told with
/// its row and column, once the source is read to its end. With one worker no thread is started.
pub fn read_table<R: Threads + Sync, S: Source>(
    rt: &R,
    alloc: Global,
    source: &mut S,
    limit: u64,
    reading: &Reading<'_>,
) -> Result<DataFrame, Status>
    requires { limit ≤ 4294967295 }
    ensures ok { let names = names_in reading.now.names.now in
        IfOk result (λ frame. HasReadAll limit (S.left source.old) (S.left source.new)
        (λ bytes. asked_table names bytes reading.now.null_word.now
        ≡ Ok (map rechunked frame))) }
    ensures err { IfErr result (IsRefusedInput reading.now.null_word.now
        (S.faults source.old) (S.faults source.new) limit
        (S.left source.old) (S.left source.new)) }
    ensures taken { result ≢ Err status.ReadFault
        → HasTaken (limit + 65536) (S.left source.old) (S.left source.new) }
    ensures kept { S.faults source.old ≤ S.faults source.new }
{
    let mut held = Vec::new(alloc);
    let first = fill(source, &mut held, 0, limit, 1)?;
    let Some(start) = start_of(alloc, &held, reading.names)? else {
        fill_all(source, &mut held, first, limit)?;
        let frame = table_of(rt, alloc, &held, reading)?;
        return Ok(frame);
    };
    let Start {
        header,
        columns,
        lines,
    } = start;
    let grown = grown_columns(columns, reading.seed)?;
    keep_from(&mut held, lines)?;
    let enough = reading.block.min(FIRST_BLOCK);
    let now = fill(source, &mut held, first.read, limit, enough)?;
    let frame = read_on(rt, alloc, source, limit, reading, &header, grown, held, now)?;
    Ok(frame)
}

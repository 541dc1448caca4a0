//! A table read from its source by threads, each of which reads the lines of a block, while this one moves
//! the next blocks from the source and puts the columns of those before in their order.

ghost use Rattle.std.specs.Prelude.{◌≡◌, ◌≢◌, ◌≤◌, ◌+◌, ◌<◌, ◌++◌, [], List, ℕ, Option, Err, Ok, length, map, take, IfErr, IfOk, IfSome, OnOk};
ghost use Rattle.std.specs.Bool.{OnFalse, OnTrue};
ghost use Rattle.std.specs.Str.{IsAscii};
ghost use Rattle.csv.specs.Records.{fields_of};
ghost use Rattle.gb_defs.specs.Column.{rechunked};
ghost use Rattle.gb_text.specs.Asked.{asked_table, names_in};
ghost use Rattle.gb_text.specs.Queue.{IsQueueBy, IsQueuedBy, IsSomeLast, IsSomeQueue, IsSomeQueueOf, IsSomeQueued, PassesLast, StaysQueue, unread};
ghost use Rattle.gb_text.specs.Moved.{HasTaken};
ghost use Rattle.gb_text.specs.Stream.{IsReadBy, IsRefusedInput, IsSomeStreamed, ReadsOn};
ghost use Rattle.gb_text.specs.declared.status.Status.TheVariants as status;

use crate::status::Status;
use crate::streams::{Progress, ROOM, fill};
use crate::table::blocks::{Reading, finish_all, keep_from, last_line};
use crate::table::grown::{GrownColumn, append_block};
use crate::table::header::columns_of_header;
use crate::table::jobs::{Block, Done, Job};
use csv::ByteRecord;
use gb_base::device::Source;
use gb_series::frame::DataFrame;
use std::alloc::{AllocError, Global};
use std::collections::VecDeque;
use std::mem::replace;
use std::thread::Threads;

// How many bytes a thread reads at most. No block has more than there were before it, so that all threads soon have
// one.
const THREAD_BLOCK: usize = 1_048_576;

// The blocks that threads read, the oldest first, what is held behind them, and a room that is free.
#[derive(Drop)]
struct Ahead {
    jobs: VecDeque<Job>,
    held: Vec<u8>,
    spare: Vec<u8>,
}

// Puts the lines of a block, and those of all that threads read, before what is held.
fn put_back<R: Threads>(
    rt: &R,
    ahead: &mut Ahead,
    mut text: Vec<u8>,
    place: usize,
) -> Result<(), AllocError>
    requires { place ≤ length text.items }
    ensures held { OnOk result (ahead.new.held.items
        ≡ take place text.items ++ unread ahead.old.jobs.items ahead.old.held.items) }
    ensures none { OnOk result (ahead.new.jobs.items ≡ []) }
{
    text.truncate(place);
    for _ in 0..u64::MAX {
        let Some(job) = ahead.jobs.pop_front() else {
            text.extend_from_slice(&ahead.held)?;
            ahead.held = text;
            return Ok(());
        };
        let Done {
            text: other,
            place,
            found: _,
        } = job.join(rt);
        text.extend_from_slice(&other[..place])?;
    }
    Err(AllocError)
}

// Waits for the oldest thread, and moves what it read to the ends of the columns. False where some line does
// not read: then all is held again.
fn join_oldest<R: Threads>(
    rt: &R,
    ahead: &mut Ahead,
    columns: &mut Vec<GrownColumn>,
) -> Result<bool, AllocError>
    requires queue { IsSomeQueue ahead.old.jobs.items ahead.old.held.items columns.old.items }
    ensures stays { OnOk result (StaysQueue ahead.old.jobs.items ahead.old.held.items
        columns.old.items ahead.new.jobs.items ahead.new.held.items columns.new.items) }
    ensures held { IfOk result (λ took. OnTrue took
        (ahead.new.held.items ≡ ahead.old.held.items)) }
    ensures none { IfOk result (λ took. OnFalse took (ahead.new.jobs.items ≡ [])) }
{
    let Some(job) = ahead.jobs.pop_front() else {
        return Ok(true);
    };
    let done = job.join(rt);
    let Done { text, place, found } = done;
    let found = found?;
    match found {
        Some(more) => {
            append_block(columns, more)?;
            ahead.spare = text;
            Ok(true)
        }
        None => {
            put_back(rt, ahead, text, place)?;
            Ok(false)
        }
    }
}

// Waits for the oldest thread where there are two for each worker: while the oldest is waited for, none is idle. False
// where some line does not read: then all is held again.
fn make_room<R: Threads>(
    rt: &R,
    workers: usize,
    ahead: &mut Ahead,
    columns: &mut Vec<GrownColumn>,
) -> Result<bool, AllocError>
    requires queue { IsSomeQueue ahead.old.jobs.items ahead.old.held.items columns.old.items }
    ensures stays { OnOk result (StaysQueue ahead.old.jobs.items ahead.old.held.items
        columns.old.items ahead.new.jobs.items ahead.new.held.items columns.new.items) }
    ensures held { IfOk result (λ took. OnTrue took
        (ahead.new.held.items ≡ ahead.old.held.items)) }
{
    if ahead.jobs.len() < workers.saturating_mul(2) {
        return Ok(true);
    }
    let took = join_oldest(rt, ahead, columns)?;
    Ok(took)
}

// Waits for all threads, and moves what they read to the ends of the columns. False where some line does not
// read: then that and all behind it is held again.
fn join_all<R: Threads>(
    rt: &R,
    ahead: &mut Ahead,
    columns: &mut Vec<GrownColumn>,
) -> Result<bool, AllocError>
    requires queue { IsSomeQueue ahead.old.jobs.items ahead.old.held.items columns.old.items }
    ensures stays { OnOk result (StaysQueue ahead.old.jobs.items ahead.old.held.items
        columns.old.items ahead.new.jobs.items ahead.new.held.items columns.new.items) }
    ensures held { IfOk result (λ took. OnTrue took
        (ahead.new.held.items ≡ ahead.old.held.items)) }
    ensures none { OnOk result (ahead.new.jobs.items ≡ []) }
{
    for _ in 0..u64::MAX {
        if ahead.jobs.is_empty() {
            return Ok(true);
        }
        if !join_oldest(rt, ahead, columns)? {
            return Ok(false);
        }
    }
    Err(AllocError)
}

// Moves what was read of the last block, for which no thread could be started, to the ends of the columns,
// once those before it are there. False where some line does not read: then all is held again.
fn take_last<R: Threads>(
    rt: &R,
    ahead: &mut Ahead,
    columns: &mut Vec<GrownColumn>,
    done: Done,
) -> Result<bool, AllocError>
    requires last { IsSomeLast ahead.old.jobs.items done columns.old.items }
    ensures { OnOk result (PassesLast ahead.old.jobs.items done columns.old.items
        ahead.new.jobs.items ahead.new.held.items columns.new.items) }
{
    let Done { text, place, found } = done;
    ahead.held = text;
    if !join_all(rt, ahead, columns)? {
        return Ok(false);
    }
    let found = found?;
    match found {
        Some(more) => {
            append_block(columns, more)?;
            keep_from(&mut ahead.held, place)?;
            Ok(true)
        }
        None => Ok(false),
    }
}

// A room of so many bytes that holds none: the one that is given, where it is as large. A room that grows while
// other threads work keeps all of them waiting.
fn emptied(alloc: Global, mut room: Vec<u8>, bytes: usize) -> Result<Vec<u8>, AllocError>
    ensures { IfOk result (λ room. room.items ≡ []) }
{
    if room.capacity() < bytes {
        return Vec::with_capacity(alloc, bytes);
    }
    room.clear();
    Ok(room)
}

// Has a thread read the lines that are held, but for the last. False where there is one line alone, or where
// lines do not read: then all is held again.
fn send_block<R: Threads>(
    rt: &R,
    alloc: Global,
    reading: &Reading<'_>,
    header: &ByteRecord,
    columns: &mut Vec<GrownColumn>,
    ahead: &mut Ahead,
    ascii: bool,
) -> Result<bool, AllocError>
    requires queue { IsSomeQueueOf (names_in reading.now.names.now) reading.now.null_word.now
        (fields_of header.now) ahead.old.jobs.items ahead.old.held.items columns.old.items }
    requires ascii { OnTrue ascii (IsAscii ahead.old.held.items) }
    ensures { OnOk result ((bytes : List ℕ) → IsQueueBy reading.now header.now bytes
        ahead.old.jobs.items ahead.old.held.items columns.old.items →
        IsQueueBy reading.now header.now bytes
        ahead.new.jobs.items ahead.new.held.items columns.new.items) }
{
    let Some(place) = last_line(&ahead.held) else {
        return Ok(false);
    };
    // The header is not at fault, so that an error is want of memory.
    let Ok(started) = columns_of_header(alloc, header, reading.names) else {
        return Err(AllocError);
    };
    let null_word = String::from_str(alloc, reading.null_word)?;
    let spare = replace(&mut ahead.spare, Vec::new(alloc));
    let mut next = emptied(alloc, spare, reading.block.min(THREAD_BLOCK) + ROOM)?;
    next.extend_from_slice(&ahead.held[place..])?;
    let text = replace(&mut ahead.held, next);
    let block = Block {
        text,
        place,
        ascii,
        columns: started,
        null_word,
    };
    match Job::start(rt, alloc, block) {
        Ok(job) => {
            ahead.jobs.push_back(job)?;
            Ok(true)
        }
        Err(done) => {
            let took = take_last(rt, ahead, columns, done)?;
            Ok(took)
        }
    }
}

// Waits for the oldest thread where there are two for each worker, and has one more read what is held. False
// where the source has ended, there is one line alone, or lines do not read.
fn turn<R: Threads>(
    rt: &R,
    alloc: Global,
    reading: &Reading<'_>,
    header: &ByteRecord,
    columns: &mut Vec<GrownColumn>,
    ahead: &mut Ahead,
    now: Progress,
) -> Result<bool, AllocError>
    requires queue { IsSomeQueueOf (names_in reading.now.names.now) reading.now.null_word.now
        (fields_of header.now) ahead.old.jobs.items ahead.old.held.items columns.old.items }
    requires ascii { OnTrue now.ascii (IsAscii ahead.old.held.items) }
    ensures { OnOk result ((bytes : List ℕ) → IsQueueBy reading.now header.now bytes
        ahead.old.jobs.items ahead.old.held.items columns.old.items →
        IsQueueBy reading.now header.now bytes
        ahead.new.jobs.items ahead.new.held.items columns.new.items) }
{
    if now.ended {
        return Ok(false);
    }
    if !make_room(rt, reading.workers, ahead, columns)? {
        return Ok(false);
    }
    let sent = send_block(rt, alloc, reading, header, columns, ahead, now.ascii)?;
    Ok(sent)
}

// The same, and moves the next bytes of the source behind what is held then.
fn step<R: Threads, S: Source>(
    rt: &R,
    alloc: Global,
    source: &mut S,
    limit: u64,
    reading: &Reading<'_>,
    header: &ByteRecord,
    columns: &mut Vec<GrownColumn>,
    ahead: &mut Ahead,
    now: Progress,
) -> Result<(bool, Progress), Status>
    requires limit { limit ≤ 4294967295 }
    requires queued { IsSomeQueued (names_in reading.now.names.now) reading.now.null_word.now
        (fields_of header.now) limit (S.left source.old) now.read
        ahead.old.jobs.items ahead.old.held.items columns.old.items }
    requires ended { OnTrue now.ended (IfSome (S.left source.old) (λ rest. rest ≡ [])) }
    requires ascii { OnTrue now.ascii (IsAscii ahead.old.held.items) }
    ensures ok { IfOk result (λ r. (first : Option (List ℕ)) →
        IsQueuedBy reading.now header.now limit first (S.left source.old) now.read
        ahead.old.jobs.items ahead.old.held.items columns.old.items →
        IsQueuedBy reading.now header.now limit first (S.left source.new) r.1.read
        ahead.new.jobs.items ahead.new.held.items columns.new.items) }
    ensures ended { IfOk result (λ r.
        OnTrue r.1.ended (IfSome (S.left source.new) (λ rest. rest ≡ []))) }
    ensures ascii { IfOk result (λ r.
        OnTrue r.0 (OnTrue r.1.ascii (IsAscii ahead.new.held.items))) }
    ensures err { IfErr result (λ s. (first : Option (List ℕ)) →
        IsQueuedBy reading.now header.now limit first (S.left source.old) now.read
        ahead.old.jobs.items ahead.old.held.items columns.old.items →
        IsRefusedInput reading.now.null_word.now (S.faults source.old) (S.faults source.new)
        limit first (S.left source.new) s) }
    ensures taken { result ≢ Err status.ReadFault → (first : Option (List ℕ)) →
        IsQueuedBy reading.now header.now limit first (S.left source.old) now.read
        ahead.old.jobs.items ahead.old.held.items columns.old.items →
        HasTaken (limit + 65536) first (S.left source.new) }
    ensures kept { S.faults source.old ≤ S.faults source.new }
{
    if !turn(rt, alloc, reading, header, columns, ahead, now)? {
        return Ok((false, now));
    }
    let enough = reading.block.min(THREAD_BLOCK).min(now.read as usize);
    let next = fill(source, &mut ahead.held, now.read, limit, enough)?;
    Ok((true, next))
}

// How far the source was read, with what is known of the bytes that are held now.
fn seen(now: Progress, held: &[u8]) -> Progress
    ensures read { result.read ≡ now.read }
    ensures ended { result.ended ≡ now.ended }
    ensures ascii { OnTrue result.ascii (IsAscii held.now) }
{
    Progress {
        read: now.read,
        ended: now.ended,
        ascii: held.is_ascii(),
    }
}

// Reads the table by threads until its source has ended, a line is longer than a block, or lines do not read,
// and waits for all of them: what is held then is still to be read.
fn read_ahead<R: Threads, S: Source>(
    rt: &R,
    alloc: Global,
    source: &mut S,
    limit: u64,
    reading: &Reading<'_>,
    header: &ByteRecord,
    columns: &mut Vec<GrownColumn>,
    ahead: &mut Ahead,
    now: Progress,
) -> Result<Progress, Status>
    requires limit { limit ≤ 4294967295 }
    requires queued { IsSomeQueued (names_in reading.now.names.now) reading.now.null_word.now
        (fields_of header.now) limit (S.left source.old) now.read
        ahead.old.jobs.items ahead.old.held.items columns.old.items }
    requires ended { OnTrue now.ended (IfSome (S.left source.old) (λ rest. rest ≡ [])) }
    requires ascii { OnTrue now.ascii (IsAscii ahead.old.held.items) }
    ensures ok { IfOk result (λ p. (first : Option (List ℕ)) →
        IsQueuedBy reading.now header.now limit first (S.left source.old) now.read
        ahead.old.jobs.items ahead.old.held.items columns.old.items →
        IsReadBy reading.now header.now limit first (S.left source.new) p.read
        ahead.new.held.items columns.new.items) }
    ensures ended { IfOk result (λ p.
        OnTrue p.ended (IfSome (S.left source.new) (λ rest. rest ≡ []))) }
    ensures ascii { IfOk result (λ p. OnTrue p.ascii (IsAscii ahead.new.held.items)) }
    ensures err { IfErr result (λ s. (first : Option (List ℕ)) →
        IsQueuedBy reading.now header.now limit first (S.left source.old) now.read
        ahead.old.jobs.items ahead.old.held.items columns.old.items →
        IsRefusedInput reading.now.null_word.now (S.faults source.old) (S.faults source.new)
        limit first (S.left source.new) s) }
    ensures taken { result ≢ Err status.ReadFault → (first : Option (List ℕ)) →
        IsQueuedBy reading.now header.now limit first (S.left source.old) now.read
        ahead.old.jobs.items ahead.old.held.items columns.old.items →
        HasTaken (limit + 65536) first (S.left source.new) }
    ensures kept { S.faults source.old ≤ S.faults source.new }
{
    let mut now = now;
    'rounds: for _ in 0..u64::MAX {
        let (goes_on, next) = step(
            rt, alloc, source, limit, reading, header, columns, ahead, now,
        )?;
        now = next;
        if !goes_on {
            join_all(rt, ahead, columns)?;
            return Ok(seen(now, &ahead.held));
        }
    }
    Err(Status::NoMemory)
}

// Waits for threads of which nothing is wanted any more.
fn let_go<R: Threads>(rt: &R, ahead: Ahead) {
    for job in ahead.jobs {
        let _ = job.join(rt);
    }
}

/// The frame of the columns and of all that the source has left, behind what is held. It is read by two threads
/// for each worker.
pub fn read_queued<R: Threads + Sync, S: Source>(
    rt: &R,
    alloc: Global,
    source: &mut S,
    limit: u64,
    reading: &Reading<'_>,
    header: &ByteRecord,
    mut columns: Vec<GrownColumn>,
    held: Vec<u8>,
    now: Progress,
) -> Result<DataFrame, Status>
    requires limit { limit ≤ 4294967295 }
    requires streamed { IsSomeStreamed (names_in reading.now.names.now) reading.now.null_word.now
        (fields_of header.now) limit (S.left source.old) now.read held.items columns.items }
    requires ended { OnTrue now.ended (IfSome (S.left source.old) (λ rest. rest ≡ [])) }
    requires ascii { OnTrue now.ascii (IsAscii held.items) }
    ensures { ReadsOn reading.now header.now limit (S.left source.old) (S.left source.new)
        now.read held.items columns.items (S.faults source.old) (S.faults source.new) result }
{
    let mut ahead = Ahead {
        jobs: VecDeque::new(alloc),
        held,
        spare: Vec::new(alloc),
    };
    match read_ahead(
        rt,
        alloc,
        source,
        limit,
        reading,
        header,
        &mut columns,
        &mut ahead,
        now,
    ) {
        Ok(now) => {
            let held = ahead.held;
            let frame = finish_all(
                rt, alloc, source, limit, reading, header, columns, held, now,
            )?;
            Ok(frame)
        }
        Err(status) => {
            let_go(rt, ahead);
            Err(status)
        }
    }
}

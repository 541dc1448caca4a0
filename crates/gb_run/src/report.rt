//! From the table that a source has to the text of the answer.

ghost use Rattle.std.specs.Prelude.{◌≡◌, ◌≢◌, ◌<◌, ◌≤◌, ◌+◌, length, Err, IfErr, IfOk};
ghost use Rattle.std.specs.String.{string_bytes};
ghost use Rattle.gb_flat.specs.Buffers.{joined};
ghost use Rattle.gb_defs.specs.Notes.{IsTraceLine, bounded_threshold, bounded_workers};
ghost use Rattle.gb_defs.specs.Outcome.{outcome};
ghost use Rattle.gb_base.specs.Pool.{threshold_of, workers_of};
ghost use Rattle.gb_paths.specs.Tuples.{trace_value};
ghost use Rattle.gb_text.specs.Asked.{names_in};
ghost use Rattle.gb_frame.specs.Agg.{aggs_of, names_of};
ghost use Rattle.gb_run.specs.Request.{HasKeys, asked_names, group_by, options_of, request_of};
ghost use Rattle.gb_text.specs.Moved.{HasTaken};
ghost use Rattle.gb_run.specs.Run.{IsAnswerTo, IsRefusedText};
ghost use Rattle.gb_text.specs.Stream.{HasReadAll};
ghost use Rattle.gb_text.specs.declared.status.Status.TheVariants as status;

use crate::limits::Limits;
use crate::words::{Request, ToolOptions};
use gb_base::device::{Gate, Source};
use gb_base::pool::Pool;
use gb_base::small_str::PlSmallStr;
use gb_frame::agg::Agg;
use gb_frame::group_frame::group_frame;
use gb_paths::trace::Trace;
use gb_text::status::Status;
use gb_text::table::blocks::{Reading, read_table};
use gb_text::text;
use std::alloc::{AllocError, Global};
use std::thread::Threads;

// The pool that the options ask, each within its bounds. No answer depends on its seed, which nobody knows who
// does not know the salt.
fn pool_of(options: &ToolOptions, salt: u64) -> Pool
    ensures workers { workers_of result ≡ bounded_workers (options_of options.now) }
    ensures threshold { threshold_of result ≡ bounded_threshold (options_of options.now) }
{
    Pool::new(
        options.workers.clamp(1, 64),
        options.partitions.clamp(1, 1024),
        options.threshold.max(1),
        options.piece.max(1),
        options.seed ^ salt,
    )
}

// How many bytes of the input are held at a time.
const BLOCK_BYTES: usize = 1_048_576;

/// The text of an answer, and the line of its trace: empty where none is asked for.
#[derive(Drop)]
pub struct Answer {
    /// In parts that follow each other.
    pub text: Vec<Vec<u8>>,
    pub line: String,
}

/// The answer to the request over the table that the source has left, if it is no longer than the limit. The
/// request has a key.
pub fn report<R: Threads + Sync, S: Source, G: Gate + Sync>(
    rt: &R,
    alloc: Global,
    request: &Request,
    source: &mut S,
    limits: Limits,
    gate: &G,
) -> Result<Answer, Status>
    requires limit { limits.input_bytes ≤ 4294967295 }
    requires some { HasKeys (request_of request.now) }
    ensures ok { let asked = request_of request.now in IfOk result (λ answer.
        HasReadAll limits.input_bytes (S.left source.old) (S.left source.new) (λ bytes.
        IsAnswerTo asked bytes (joined answer.text.items) (string_bytes answer.line))) }
    ensures err { IfErr result (IsRefusedText (outcome (request_of request.now))
        (S.faults source.old) (S.faults source.new) limits.input_bytes
        (S.left source.old) (S.left source.new)) }
    ensures taken { result ≢ Err status.ReadFault
        → HasTaken (limits.input_bytes + 65536) (S.left source.old) (S.left source.new) }
    ensures kept { S.faults source.old ≤ S.faults source.new }
{
    match request {
        Request::Group { by, aggs, options } => {
            group_report(rt, alloc, by, aggs, options, source, limits, gate)
        }
    }
}

// The names of the keys.
fn key_names(alloc: Global, by: &[PlSmallStr]) -> Result<Vec<&str>, AllocError>
    ensures { IfOk result (λ names. names_in names.items ≡ names_of by.now) }
{
    let mut names = Vec::with_capacity(alloc, by.len())?;
    for name in by {
        names.push(name.as_str())?;
    }
    Ok(names)
}

// The names of the keys and of the columns that are aggregated.
fn names_asked<'a>(
    alloc: Global,
    by: &'a [PlSmallStr],
    aggs: &'a [Agg],
) -> Result<Vec<&'a str>, AllocError>
    ensures { let asked = asked_names (names_of by.now) (aggs_of aggs.now) in
        IfOk result (λ names. names_in names.items ≡ asked) }
{
    let mut names = key_names(alloc, by)?;
    for agg in aggs {
        names.push(agg.column.as_str())?;
    }
    Ok(names)
}

// The line of a trace, where it is asked for.
fn trace_line(alloc: Global, asked: bool, trace: &Trace) -> Result<String, AllocError>
    ensures { IfOk result (λ line.
        IsTraceLine asked (λ told. told ≡ trace_value trace.now) (string_bytes line)) }
{
    if asked {
        format!(in alloc; "{trace}\n")
    } else {
        Ok(String::new(alloc))
    }
}

// The text of the grouped table, and the line of its trace.
fn group_report<R: Threads + Sync, S: Source, G: Gate + Sync>(
    rt: &R,
    alloc: Global,
    by: &[PlSmallStr],
    aggs: &[Agg],
    options: &ToolOptions,
    source: &mut S,
    limits: Limits,
    gate: &G,
) -> Result<Answer, Status>
    requires limit { limits.input_bytes ≤ 4294967295 }
    requires some { 0 < length by.now }
    ensures ok { let request = group_by by.now aggs.now options.now in IfOk result (λ answer.
        HasReadAll limits.input_bytes (S.left source.old) (S.left source.new) (λ bytes.
        IsAnswerTo request bytes (joined answer.text.items) (string_bytes answer.line))) }
    ensures err { IfErr result (IsRefusedText (outcome (group_by by.now aggs.now options.now))
        (S.faults source.old) (S.faults source.new) limits.input_bytes
        (S.left source.old) (S.left source.new)) }
    ensures taken { result ≢ Err status.ReadFault
        → HasTaken (limits.input_bytes + 65536) (S.left source.old) (S.left source.new) }
    ensures kept { S.faults source.old ≤ S.faults source.new }
{
    let names = names_asked(alloc, by, aggs)?;
    let pool = pool_of(options, limits.salt);
    let reading = Reading {
        names: &names,
        null_word: options.null_word.as_str(),
        workers: pool.workers(),
        block: BLOCK_BYTES,
        seed: pool.seed(),
    };
    let frame = read_table(rt, alloc, source, limits.input_bytes, &reading)?;
    let (answer, trace) = group_frame(rt, alloc, &frame, by, aggs, &pool, gate)?;
    let null_word = options.null_word.as_str();
    let text = text::text_of(rt, alloc, &answer, null_word, pool.workers())?;
    let line = trace_line(alloc, options.explain, &trace)?;
    Ok(Answer { text, line })
}

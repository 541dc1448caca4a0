//! The lines that a run writes beside its answer.

ghost use Rattle.std.specs.Prelude.{◌≡◌, ◌⊎◌, ◌≤◌, ◌++◌, false, true, None, IfOk, IfSome};
ghost use Rattle.std.specs.String.{string_bytes};
ghost use Rattle.gb_base.specs.Device.{Rose};
ghost use Rattle.gb_flat.specs.Buffers.{joined};
ghost use Rattle.gb_text.specs.Moved.{HasWritten, Holds, HoldsPart};
ghost use Rattle.gb_text.specs.declared.status.Status.TheVariants.{Done, WriteFault};
ghost use Rattle.gb_text.specs.StatusLine.{IsToldAs, names_fault, status_line};

use crate::status::Status;
use crate::streams::{write_all, write_parts};
use gb_base::device::{Failed, Sink};
use std::alloc::{AllocError, Global};

/// Writes a line as far as the notes take it, and says whether they took it whole.
pub fn note<E: Sink>(notes: &mut E, line: &[u8]) -> bool
    ensures whole { result ≡ true → Holds line.now (E.held notes.old) (E.held notes.new) }
    ensures failed { result ≡ false → Rose (E.faults notes.old) (E.faults notes.new) }
    ensures part { result ≡ false
        → HoldsPart line.now (E.held notes.old) (E.held notes.new) }
    ensures kept { E.faults notes.old ≤ E.faults notes.new }
{
    match write_all(notes, line) {
        Ok(()) => true,
        Err(Failed) => false,
    }
}

/// Writes why a run has no answer, and gives the status that was told: want of memory where there is none
/// for the line of another. Of a run with an answer nothing is told.
pub fn tell<E: Sink>(alloc: Global, notes: &mut E, status: Status) -> Status
    ensures told { IsToldAs status result }
    ensures written { HasWritten (status_line result) (E.held notes.old) (E.held notes.new)
        (E.faults notes.old) (E.faults notes.new) }
{
    if let Some(line) = plain_line(&status) {
        note(notes, line.as_bytes());
        return status;
    }
    match fault_line(alloc, &status) {
        Ok(line) => {
            note(notes, line.as_bytes());
            status
        }
        Err(AllocError) => {
            note(notes, NO_MEMORY.as_bytes());
            Status::NoMemory
        }
    }
}

/// Writes a line to the notes and the text of an answer to the sink, and says how the run ends. Where the
/// sink fails, that is told behind the line.
pub fn deliver<W: Sink, E: Sink>(
    sink: &mut W,
    notes: &mut E,
    text: &[Vec<u8>],
    line: &[u8],
) -> Status
    ensures ends { result ≡ Done ⊎ result ≡ WriteFault }
    ensures done { result ≡ Done → Holds (joined text.now) (W.held sink.old) (W.held sink.new) }
    ensures failed { result ≡ WriteFault → Rose (W.faults sink.old) (W.faults sink.new) }
    ensures part { result ≡ WriteFault
        → HoldsPart (joined text.now) (W.held sink.old) (W.held sink.new) }
    ensures kept { W.faults sink.old ≤ W.faults sink.new }
    ensures noted { HasWritten (line.now ++ status_line result) (E.held notes.old)
        (E.held notes.new) (E.faults notes.old) (E.faults notes.new) }
{
    let told = note(notes, line);
    match write_parts(sink, text) {
        Ok(()) => Status::Done,
        Err(Failed) => {
            note_behind(notes, told, WRITE_FAULT.as_bytes());
            Status::WriteFault
        }
    }
}

// Writes a line behind another that the notes took.
fn note_behind<E: Sink>(notes: &mut E, told: bool, line: &[u8])
    ensures written { told ≡ true → HasWritten line.now (E.held notes.old) (E.held notes.new)
        (E.faults notes.old) (E.faults notes.new) }
    ensures nothing { told ≡ false → notes.new ≡ notes.old }
    ensures kept { E.faults notes.old ≤ E.faults notes.new }
{
    if told {
        note(notes, line);
    }
}

const WRITE_FAULT: &str = "error: write fault\n";

const NO_MEMORY: &str = "error: no memory\n";

/// The line of a status that names no fault of the table or of the grouping.
pub fn plain_line(status: &Status) -> Option<&'static str>
    ensures line { IfSome result (λ line. line.now ≡ status_line status.now) }
    ensures none { result ≡ None → names_fault status.now ≡ true }
{
    match status {
        Status::Done => Some(""),
        Status::Usage => Some("error: usage\n"),
        Status::Table(_) => None,
        Status::Group(_) => None,
        Status::ReadFault => Some("error: read fault\n"),
        Status::WriteFault => Some(WRITE_FAULT),
        Status::TooLong => Some("error: input too long\n"),
        Status::NoMemory => Some(NO_MEMORY),
    }
}

// The line of a status that names a fault.
fn fault_line(alloc: Global, status: &Status) -> Result<String, AllocError>
    requires { names_fault status.now ≡ true }
    ensures { IfOk result (λ line. string_bytes line ≡ status_line status.now) }
{
    match status {
        Status::Table(fault) => format!(in alloc; "error: table: {fault}\n"),
        Status::Group(error) => format!(in alloc; "error: {error}\n"),
        _ => unreachable!(),
    }
}

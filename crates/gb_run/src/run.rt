//! The top call of the program.

ghost use Rattle.std.specs.Prelude.{◌≡◌, ◌≢◌, ◌≤◌, ◌+◌, ◌⊎◌, [], ◌∷◌, ◌<◌, ℕ, Err, IfErr, IfOk, IsSome, List, None, OnOk, Some, length, true};
ghost use Rattle.gb_defs.specs.Fault as fault;
ghost use Rattle.gb_defs.specs.Outcome.{BadGroup, BadTable, Report};
ghost use Rattle.gb_defs.specs.Table as table;
ghost use Rattle.gb_base.specs.Device.{Rose};
ghost use Rattle.gb_base.specs.declared.error.PolarsError.{PolarsError};
ghost use Rattle.std.specs.String.{string_bytes};
ghost use Rattle.gb_flat.specs.Buffers.{joined};
ghost use Rattle.gb_run.specs.Run.{AreNotes, Comes, HasCause, HasNoAnswer, IsAnswer, IsOneOf};
ghost use Rattle.gb_text.specs.Moved.{HasTaken, Holds, HoldsPart};
ghost use Rattle.gb_run.specs.Run.{IsTable, IsTooLong, OfOutcome, Run, WhereTold, Writes};
ghost use Rattle.gb_text.specs.Moved.{IsReadToEnd};
ghost use Rattle.gb_run.specs.Run.{asked_by, has_ended, task_of};
ghost use Rattle.gb_text.specs.Status.{IsTold, Tells, fault_value};
ghost use Rattle.gb_text.specs.declared.status.TableFault.{TableFault};
ghost use Rattle.gb_text.specs.declared.status.Status.TheVariants as status;

use crate::limits::Limits;
use crate::report::{Answer, report};
use crate::words::request_of;
use gb_base::device::{Gate, Sink, Source};
use gb_text::notes::{deliver, tell};
use gb_text::status::Status;
use std::alloc::Global;
use std::thread::Threads;

// Reads the table and answers the request of the words over it; the error is the status of a run with no
// answer.
fn prepare<R: Threads + Sync, S: Source, G: Gate + Sync>(
    rt: &R,
    alloc: Global,
    words: &[String],
    limits: Limits,
    source: &mut S,
    gate: &G,
) -> Result<Answer, Status>
    requires limit { limits.input_bytes ≤ 4294967295 }
    ensures ok { let task = task_of words.now (S.left source.old) limits.input_bytes in
        IfOk result (λ answer. IsAnswer task (joined answer.text.items)
        (string_bytes answer.line)) }
    ensures err { let task = task_of words.now (S.left source.old) limits.input_bytes in
        IfErr result (HasNoAnswer task (S.faults source.old) (S.faults source.new)) }
    ensures read { OnOk result (IsReadToEnd (S.left source.old) (S.left source.new)) }
    ensures ended { IfErr result (λ s. has_ended s ≡ true
        → IsReadToEnd (S.left source.old) (S.left source.new)) }
    ensures taken { result ≢ Err status.ReadFault
        → HasTaken (limits.input_bytes + 65536) (S.left source.old) (S.left source.new) }
    ensures kept { S.faults source.old ≤ S.faults source.new }
{
    match request_of(alloc, words) {
        Ok(Some(request)) => report(rt, alloc, &request, source, limits, gate),
        Ok(None) => Err(Status::Usage),
        Err(_) => Err(Status::NoMemory),
    }
}

// Reads, answers, writes, and tells on the notes how that went.
fn answer<R: Threads + Sync, S: Source, W: Sink, E: Sink, G: Gate + Sync>(
    rt: &R,
    alloc: Global,
    words: &[String],
    limits: Limits,
    source: &mut S,
    sink: &mut W,
    notes: &mut E,
    gate: &G,
) -> Status
    requires limit { limits.input_bytes ≤ 4294967295 }
    ensures cause { let run : Run = record {
      task = task_of words.now (S.left source.old) limits.input_bytes;
      read_faults = S.faults source.old;
      read_faults_after = S.faults source.new;
      held = W.held sink.old;
      held_after = W.held sink.new;
      write_faults = W.faults sink.old;
      write_faults_after = W.faults sink.new;
    } in HasCause run result }
    ensures ended { has_ended result ≡ true
        → IsReadToEnd (S.left source.old) (S.left source.new) }
    ensures unchanged { result ≢ status.Done → result ≢ status.WriteFault → sink.new ≡ sink.old }
    ensures notes { AreNotes (task_of words.now (S.left source.old) limits.input_bytes) result
        (E.held notes.old) (E.held notes.new) (E.faults notes.old) (E.faults notes.new) }
    ensures taken { result ≢ status.ReadFault
        → HasTaken (limits.input_bytes + 65536) (S.left source.old) (S.left source.new) }
    ensures read_faults { S.faults source.old ≤ S.faults source.new }
    ensures write_faults { W.faults sink.old ≤ W.faults sink.new }
{
    match prepare(rt, alloc, words, limits, source, gate) {
        Ok(answer) => deliver(sink, notes, answer.text.as_slice(), answer.line.as_bytes()),
        Err(status) => tell(alloc, notes, status),
    }
}

/// Reads the table, answers the request of the words over it, and writes the answer's text. How the rows
/// were grouped goes to the notes, where that is asked, and why there is no answer, where there is none.
/// Each partition that a thread groups enters the gate, and leaves it: only a test's gate waits there.
pub fn run<R: Threads + Sync, S: Source, W: Sink, E: Sink, G: Gate + Sync>(
    rt: &R,
    alloc: Global,
    words: &[String],
    limits: Limits,
    source: &mut S,
    sink: &mut W,
    notes: &mut E,
    gate: &G,
) -> Status
    requires { limits.input_bytes ≤ 4294967295 }

    // The words spell no request.
    ensures usage { result ≡ status.Usage → asked_by words.now ≡ None }
    ensures no_request { asked_by words.now ≡ None
        → IsOneOf (status.Usage ∷ status.NoMemory ∷ []) result }

    // The source failed.
    ensures read_fault { result ≡ status.ReadFault
        → IsSome (asked_by words.now) × Rose (S.faults source.old) (S.faults source.new) }

    // The input is longer than the limit.
    ensures too_long { result ≡ status.TooLong
        → IsTooLong (task_of words.now (S.left source.old) limits.input_bytes) }
    ensures long_input { WhereTold (task_of words.now (S.left source.old) limits.input_bytes)
        (λ q bytes. limits.input_bytes < length bytes
        → IsOneOf (status.TooLong ∷ status.ReadFault ∷ status.NoMemory ∷ []) result) }

    // The table is at fault.
    ensures table { (f : TableFault) → result ≡ status.Table f
        → Comes (task_of words.now (S.left source.old) limits.input_bytes)
        (BadTable (fault_value f)) }
    ensures bad_table { OfOutcome (task_of words.now (S.left source.old) limits.input_bytes)
        (λ o. (f : table.TableFault) → o ≡ BadTable f
        → IsTable f result ⊎ IsOneOf (status.ReadFault ∷ status.NoMemory ∷ []) result) }

    // The grouping is at fault.
    ensures group { (e : PolarsError) → result ≡ status.Group e
        → (f : fault.Fault) × Tells e f
        × Comes (task_of words.now (S.left source.old) limits.input_bytes) (BadGroup f) }
    ensures bad_group { OfOutcome (task_of words.now (S.left source.old) limits.input_bytes)
        (λ o. (f : fault.Fault) → o ≡ BadGroup f
        → IsTold f result ⊎ IsOneOf (status.ReadFault ∷ status.NoMemory ∷ []) result) }

    // The sink failed, and has taken a part of the text.
    ensures write_fault { result ≡ status.WriteFault
        → Rose (W.faults sink.old) (W.faults sink.new) }
    ensures part { result ≡ status.WriteFault
        → Writes (task_of words.now (S.left source.old) limits.input_bytes)
        (λ text. HoldsPart text (W.held sink.old) (W.held sink.new)) }

    // The text was written whole.
    ensures done { result ≡ status.Done
        → Writes (task_of words.now (S.left source.old) limits.input_bytes)
        (λ text. Holds text (W.held sink.old) (W.held sink.new)) }

    // No device failed, and there is a text to write.
    ensures complete { OfOutcome (task_of words.now (S.left source.old) limits.input_bytes)
        (λ o. (text : List ℕ) → o ≡ Report text
        → ¬ (Rose (S.faults source.old) (S.faults source.new))
        → ¬ (Rose (W.faults sink.old) (W.faults sink.new))
        → IsOneOf (status.Done ∷ status.NoMemory ∷ []) result) }

    // What the devices hold and have left.
    ensures ended { has_ended result ≡ true
        → IsReadToEnd (S.left source.old) (S.left source.new) }
    ensures unchanged { result ≢ status.Done → result ≢ status.WriteFault → sink.new ≡ sink.old }
    ensures notes { AreNotes (task_of words.now (S.left source.old) limits.input_bytes) result
        (E.held notes.old) (E.held notes.new) (E.faults notes.old) (E.faults notes.new) }
    ensures taken { result ≢ status.ReadFault
        → HasTaken (limits.input_bytes + 65536) (S.left source.old) (S.left source.new) }
    ensures read_faults { S.faults source.old ≤ S.faults source.new }
    ensures write_faults { W.faults sink.old ≤ W.faults sink.new }
{
    answer(rt, alloc, words, limits, source, sink, notes, gate)
}

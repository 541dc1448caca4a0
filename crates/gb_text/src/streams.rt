//! Reading the input, and writing the answer whole.

ghost use Rattle.std.specs.Prelude.{◌≡◌, ◌≢◌, ◌≤◌, ◌+◌, ◌-◌, ◌<◌, ◌++◌, [], length, take, Err, IfErr, IfOk, IfSome, OnErr, OnOk, Some, option_map};
ghost use Rattle.std.specs.Bool.{OnFalse, OnTrue};
ghost use Rattle.std.specs.Str.{IsAscii};
ghost use Rattle.gb_base.specs.Device.{Rose};
ghost use Rattle.gb_flat.specs.Buffers.{joined};
ghost use Rattle.gb_text.specs.Moved.{HasMoved, HasTaken, Holds, HoldsPart, IsPieceFault};
ghost use Rattle.gb_text.specs.Stream.{IsFilled};
ghost use Rattle.gb_text.specs.declared.status.Status.TheVariants as status;

use crate::status::Status;
use gb_base::device::{Failed, Sink, Source};

/// How many bytes are asked for at a time.
pub(crate) const ROOM: usize = 65536;

// Moves the next bytes of the source behind `bytes`, into the room where they stay, and says how many they
// were.
fn read_piece<S: Source>(source: &mut S, bytes: &mut Vec<u8>) -> Result<usize, Status>
    ensures moved { IfOk result (λ count.
        HasMoved count bytes.old.items bytes.new.items (S.left source.old) (S.left source.new)) }
    ensures fits { IfOk result (λ count. count ≤ 65536) }
    ensures ends { IfOk result (λ count. count ≡ 0
        → IfSome (S.left source.new) (λ rest. rest ≡ [])) }
    ensures err { IfErr result (λ s. IsPieceFault (S.faults source.old) (S.faults source.new) s) }
    ensures taken { result ≢ Err status.ReadFault
        → HasTaken 65536 (S.left source.old) (S.left source.new) }
    ensures kept { S.faults source.old ≤ S.faults source.new }
{
    let held = bytes.len();
    bytes.resize(held + ROOM, 0)?;
    match source.read(&mut bytes[held..]) {
        Ok(count) => {
            bytes.truncate(held + count);
            Ok(count)
        }
        Err(Failed) => Err(Status::ReadFault),
    }
}

/// How many bytes of the input were read, whether it has ended, and whether those that are held are known to
/// be ASCII.
#[derive(Clone, Copy)]
pub struct Progress {
    pub read: u64,
    pub ended: bool,
    pub ascii: bool,
}

// Whether bytes are ASCII, where it is known whether those up to a place are.
fn are_ascii(known: bool, bytes: &[u8], place: usize) -> bool
    requires place { place ≤ length bytes.now }
    requires known { OnTrue known (IsAscii (take place bytes.now)) }
    ensures { OnTrue result (IsAscii bytes.now) }
{
    if !known {
        return false;
    }
    if !bytes[place..].is_ascii() {
        return false;
    }
    true
}

/// Moves the next bytes of the source behind those that are held, until these are at least so many or the
/// source has ended. Of the input so many bytes were read before, and at most `limit` may be.
pub fn fill<S: Source>(
    source: &mut S,
    held: &mut Vec<u8>,
    read: u64,
    limit: u64,
    enough: usize,
) -> Result<Progress, Status>
    requires within { read ≤ limit }
    requires limit { limit ≤ 4294967295 }
    ensures filled { IsFilled limit read held.old.items held.new.items (S.left source.old)
        (S.left source.new) (S.faults source.old) (S.faults source.new) result }
    ensures enough { IfOk result (λ p. OnFalse p.ended (enough ≤ length held.new.items)) }
{
    let mut now = read;
    // Each piece is looked at while it is near.
    let mut ascii = held.is_ascii();
    // The label names the loop in its proof.
    'pieces: for _ in 0..u64::MAX {
        let place = held.len();
        if place >= enough {
            return Ok(Progress {
                read: now,
                ended: false,
                ascii,
            });
        }
        let count = read_piece(source, held)?;
        ascii = are_ascii(ascii, held, place);
        if count == 0 {
            return Ok(Progress {
                read: now,
                ended: true,
                ascii,
            });
        }
        now += count as u64;
        if now > limit {
            return Err(Status::TooLong);
        }
    }
    Err(Status::NoMemory)
}

/// Moves all that the source has left behind the bytes that are held, where it has not ended.
pub fn fill_all<S: Source>(
    source: &mut S,
    held: &mut Vec<u8>,
    progress: Progress,
    limit: u64,
) -> Result<Progress, Status>
    requires within { progress.read ≤ limit }
    requires limit { limit ≤ 4294967295 }
    requires ended { OnTrue progress.ended (IfSome (S.left source.old) (λ rest. rest ≡ [])) }
    requires ascii { OnTrue progress.ascii (IsAscii held.old.items) }
    ensures filled { IsFilled limit progress.read held.old.items held.new.items
        (S.left source.old) (S.left source.new) (S.faults source.old) (S.faults source.new) result }
    ensures ended { OnOk result (IfSome (S.left source.new) (λ rest. rest ≡ [])) }
{
    if progress.ended {
        return Ok(progress);
    }
    let all = fill(source, held, progress.read, limit, usize::MAX)?;
    if !all.ended {
        return Err(Status::NoMemory);
    }
    Ok(all)
}

/// Writes the text. A sink that fails has taken a part of it.
pub fn write_all<W: Sink>(sink: &mut W, text: &[u8]) -> Result<(), Failed>
    ensures ok { OnOk result (Holds text.now (W.held sink.old) (W.held sink.new)) }
    ensures err { OnErr result (Rose (W.faults sink.old) (W.faults sink.new)) }
    ensures part { OnErr result (HoldsPart text.now (W.held sink.old) (W.held sink.new)) }
    ensures kept { W.faults sink.old ≤ W.faults sink.new }
{
    let mut done = 0;
    while done < text.len() {
        let rest = &text[done..];
        done += sink.write(rest)?;
    }
    Ok(())
}

/// Writes a text that is in parts.
pub fn write_parts<W: Sink>(sink: &mut W, parts: &[Vec<u8>]) -> Result<(), Failed>
    ensures ok { OnOk result (Holds (joined parts.now) (W.held sink.old) (W.held sink.new)) }
    ensures err { OnErr result (Rose (W.faults sink.old) (W.faults sink.new)) }
    ensures part { OnErr result
        (HoldsPart (joined parts.now) (W.held sink.old) (W.held sink.new)) }
    ensures kept { W.faults sink.old ≤ W.faults sink.new }
{
    for part in parts {
        write_all(sink, part)?;
    }
    Ok(())
}

/// `write_all`, as the last step of a run.
pub fn write_text<W: Sink>(sink: &mut W, text: &[u8]) -> Result<(), Status>
    ensures ok { OnOk result (Holds text.now (W.held sink.old) (W.held sink.new)) }
    ensures err { IfErr result (λ s. s ≡ status.WriteFault) }
    ensures failed { OnErr result (Rose (W.faults sink.old) (W.faults sink.new)) }
    ensures part { OnErr result (HoldsPart text.now (W.held sink.old) (W.held sink.new)) }
    ensures kept { W.faults sink.old ≤ W.faults sink.new }
{
    match write_all(sink, text) {
        Ok(()) => Ok(()),
        Err(Failed) => Err(Status::WriteFault),
    }
}

//! The cell in front of a text, as `csv` reads it.

ghost use Rattle.std.specs.Bool.{OnTrue};
ghost use Rattle.std.specs.Prelude.{◌≡◌, ℕ, ◌<◌, ◌≤◌, ◌∷◌, true, length, slice_index, take, IfOk, IfSome};
ghost use Rattle.gb_text.specs.Plain.{AreFewDigits, IsClosed, IsCut, IsMarked, IsReturned};

use std::alloc::AllocError;
use std::simd::prelude::*;

// What stands behind a carriage return, and behind a line feed that follows it.
#[inline(never)]
fn behind_return(left: &[u8]) -> &[u8]
    ensures { IsReturned left.now result.now }
{
    let Some((first, rest)) = left.split_first() else {
        return left;
    };
    if *first == b'\n' {
        return rest;
    }
    left
}

// What stands behind a quote that closes a cell, and whether the record ends there. None where something
// else than a comma or a line end follows.
fn behind_close(behind: &[u8]) -> Option<(&[u8], bool)>
    ensures { IfSome result (λ end. IsClosed behind.now end.0.now end.1) }
{
    let Some((end, left)) = behind.split_first() else {
        return Some((behind, true));
    };
    if *end == b',' {
        return Some((left, false));
    }
    if *end == b'\n' {
        return Some((left, true));
    }
    if *end == b'\r' {
        return Some((behind_return(left), true));
    }
    None
}

// The cell between quotes of which this is the text behind the first, what stands behind its end, and
// whether its record ends there. None where a quote in it is doubled, where it does not end, or where
// something else than a comma or a line end follows it.
#[inline(never)]
fn quoted_cell(body: &[u8]) -> Option<(&[u8], &[u8], bool)>
    ensures { IfSome result (λ cut. IsCut (34 ∷ body.now) cut.0.now cut.1.now cut.2) }
{
    for i in 0..body.len() {
        if body[i] == b'"' {
            let (rest, last) = behind_close(&body[i + 1..])?;
            return Some((&body[..i], rest, last));
        }
    }
    None
}

// So many of the next 16 bytes stand before the first that is at most a bound.
#[inline(always)]
fn count_high(text: &[u8], bound: u8) -> usize
    requires { 16 ≤ length text.now }
    ensures within { result ≤ 16 }
    ensures high { (k : ℕ) → k < result → bound < slice_index text.now k }
{
    let low = u8x16::from_slice(text).simd_le(u8x16::splat(bound));
    let marks = low.to_bitmask();
    if marks == 0 {
        return 16;
    }
    marks.trailing_zeros() as usize
}

// So many of the next 16 bytes stand before the first that is at least a bound.
#[inline(always)]
fn count_low(text: &[u8], bound: u8) -> usize
    requires { 16 ≤ length text.now }
    ensures within { result ≤ 16 }
    ensures low { (k : ℕ) → k < result → slice_index text.now k < bound }
{
    let high = u8x16::from_slice(text).simd_ge(u8x16::splat(bound));
    let marks = high.to_bitmask();
    if marks == 0 {
        return 16;
    }
    marks.trailing_zeros() as usize
}

/// Whether a text begins with so many digits, 1 to 15. False near its end.
#[inline(always)]
pub fn begins_with_digits(text: &[u8], count: usize) -> bool
    ensures { OnTrue result (AreFewDigits (take count text.now)) }
{
    if text.len() < 16 || count == 0 || count > 15 {
        return false;
    }
    if count_high(text, b'/').min(count_low(text, b':')) < count {
        return false;
    }
    true
}

/// Marks for the next bytes of a text that may end a cell, the first byte's as the lowest bit: those at hand, and where
/// none is left those of the next 64 bytes. None near the text's end.
#[inline(always)]
pub fn marks_ahead(text: &[u8], marks: u64) -> u64
    requires { IsMarked text.now marks }
    ensures { IsMarked text.now result }
{
    if marks != 0 || text.len() < 64 {
        return marks;
    }
    u8x64::from_slice(text)
        .simd_le(u8x64::splat(b','))
        .to_bitmask()
}

/// The cell in front of a text up to its first mark, what stands behind its end, whether its record ends there, and the
/// marks of what stands there. None where no mark is at hand, or that is of another byte than a comma or a line feed.
#[inline(always)]
pub fn marked_cell(text: &[u8], marks: u64) -> Option<(&[u8], &[u8], bool, u64)>
    requires { IsMarked text.now marks }
    ensures cut { IfSome result (λ cut. IsCut text.now cut.0.now cut.1.now cut.2) }
    ensures cell { IfSome result (λ cut. cut.0.now ≡ take (length cut.0.now) text.now) }
    ensures marks { IfSome result (λ cut. IsMarked cut.1.now cut.3) }
{
    if marks == 0 {
        return None;
    }
    let count = marks.trailing_zeros() as usize;
    let left = marks >> count >> 1;
    if text[count] == b',' {
        return Some((&text[..count], &text[count + 1..], false, left));
    }
    if text[count] == b'\n' {
        return Some((&text[..count], &text[count + 1..], true, left));
    }
    None
}

// So many of the first bytes of a text, 16 at most, are no end of a cell.
#[inline(always)]
fn count_skipped(text: &[u8]) -> usize
    ensures within { result ≤ length text.now }
    ensures high { (k : ℕ) → k < result → 44 < slice_index text.now k }
{
    if text.len() < 16 {
        return 0;
    }
    count_high(text, b',')
}

// The cell in front of a text, what stands behind its end, and whether its record ends there. None where
// it begins with a quote. All bytes that are sought are at most a comma.
#[inline(always)]
fn next_cell(text: &[u8]) -> Option<(&[u8], &[u8], bool)>
    ensures { IfSome result (λ cut. IsCut text.now cut.0.now cut.1.now cut.2) }
{
    for i in count_skipped(text)..text.len() {
        let byte = text[i];
        if byte > b',' {
            continue;
        }
        if byte == b',' {
            return Some((&text[..i], &text[i + 1..], false));
        }
        if byte == b'\n' {
            return Some((&text[..i], &text[i + 1..], true));
        }
        if byte == b'\r' {
            return Some((&text[..i], behind_return(&text[i + 1..]), true));
        }
        if i == 0 && byte == b'"' {
            return None;
        }
    }
    Some((text, &text[text.len()..], true))
}

// Puts the cell between quotes of which this is the text behind the first into the room, each doubled
// quote as one, and gives what stands behind it, and whether its record ends there. None where it does
// not end, or where something else than a comma or a line end follows it.
#[inline(never)]
fn unquoted_cell<'a>(
    body: &'a [u8],
    room: &mut Vec<u8>,
) -> Result<Option<(&'a [u8], bool)>, AllocError>
    ensures { IfOk result (λ found. IfSome found (λ cut.
        IsCut (34 ∷ body.now) room.new.items cut.0.now cut.1)) }
{
    room.clear();
    // Whether the byte before is a quote that closes the cell or is the first of two.
    let mut half = false;
    for i in 0..body.len() {
        let byte = body[i];
        if byte == b'"' && !half {
            half = true;
            continue;
        }
        if byte != b'"' && half {
            return Ok(behind_close(&body[i..]));
        }
        room.push(byte)?;
        half = false;
    }
    if half {
        return Ok(behind_close(&body[body.len()..]));
    }
    Ok(None)
}

// The cell between quotes in front of a text, what stands behind its end, and whether its record ends
// there. None where the text begins with no quote, and as for `cell_of`.
#[inline(never)]
fn cell_in_quotes<'t: 'r, 'r>(
    text: &'t [u8],
    room: &'r mut Vec<u8>,
) -> Result<Option<(&'r [u8], &'t [u8], bool)>, AllocError>
    ensures { IfOk result (λ found. IfSome found (λ cut.
        IsCut text.now cut.0.now cut.1.now cut.2)) }
{
    if text.is_empty() || text[0] != b'"' {
        return Ok(None);
    }
    if let Some(cut) = quoted_cell(&text[1..]) {
        return Ok(Some(cut));
    }
    let Some((rest, last)) = unquoted_cell(&text[1..], room)? else {
        return Ok(None);
    };
    Ok(Some((room.as_slice(), rest, last)))
}

/// The cell in front of a text, what stands behind its end, and whether its record ends there. A cell with
/// a doubled quote is put together in the room, and every other is lent from the text. None where
/// something else than a comma or a line end follows a closing quote, or where none closes.
#[inline(always)]
pub fn cell_of<'t: 'r, 'r>(
    text: &'t [u8],
    room: &'r mut Vec<u8>,
) -> Result<Option<(&'r [u8], &'t [u8], bool)>, AllocError>
    ensures { IfOk result (λ found. IfSome found (λ cut.
        IsCut text.now cut.0.now cut.1.now cut.2)) }
{
    match next_cell(text) {
        Some(cut) => Ok(Some(cut)),
        None => cell_in_quotes(text, room),
    }
}

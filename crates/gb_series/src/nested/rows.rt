//! The rows of a nested column: which of them are null, and where the items of each stand.

ghost use Rattle.std.specs.Prelude.{◌≡◌, ℕ, ◌+◌, ◌-◌, ◌<◌, ◌≤◌, ◌^◌, ◌++◌, length, map, not, slice_index_or, vec_len, vec_capacity, true, false, All, IfOk, IfErr, OnOk, MatchOption};
ghost use Rattle.std.specs.List.{count_by, position, range_with_len};
ghost use Rattle.gb_base.specs.PlSmallStr.{IsNoMemory};
ghost use Rattle.gb_cols.specs.Column.{appended};
ghost use Rattle.gb_defs.specs.Slices.{moved_into, slice_end, slice_start};
ghost use Rattle.gb_values.specs.Array.{start_of};
ghost use Rattle.gb_series.specs.Rows.{AreItems, IsAbsent, IsLastPresent, end_of};

use gb_base::error::{PolarsError, PolarsResult};
use gb_base::nullable_idx::IdxSize;
use gb_cols::null::NullChunked;
use gb_cols::series_trait::SeriesTrait;
use std::alloc::{AllocError, Global};

/// How many rows are null.
pub(crate) fn null_count(present: &[bool]) -> usize
    ensures { result ≡ count_by not present.now }
{
    present.iter().filter(|is_present| !**is_present).count()
}

/// The first row that is not null.
pub(crate) fn first_present(present: &[bool]) -> Option<usize>
    ensures { result ≡ position (λ present. present) present.now }
{
    present.iter().position(|is_present| *is_present)
}

/// The last row that is not null.
pub(crate) fn last_present(present: &[bool]) -> Option<usize>
    ensures { MatchOption result (All IsAbsent present.now) (IsLastPresent present.now) }
{
    let mut end = present.len();
    while end > 0 {
        end -= 1;
        if present[end] {
            return Some(end);
        }
    }
    None
}

/// Where the items of a row begin: where those of the row before it end.
pub fn start_at(ends: &[usize], row: usize) -> usize
    requires { row ≤ length ends.now }
    ensures { result ≡ start_of 0 ends.now row }
{
    if row == 0 { 0 } else { ends[row - 1] }
}

/// Where the items of the last row end.
pub(crate) fn end_of(ends: &[usize]) -> usize
    ensures { result ≡ end_of ends.now }
{
    start_at(ends, ends.len())
}

/// Whether each of these rows is not null.
pub(crate) fn flags_at(
    alloc: Global,
    present: &[bool],
    rows: &[IdxSize],
) -> Result<Vec<bool>, AllocError>
    requires { All (λ row. row < length present.now) rows.now }
    ensures { let flag = λ (row : ℕ). slice_index_or present.now row false in
        IfOk result (λ flags. flags.items ≡ map flag rows.now) }
{
    let mut flags = Vec::with_capacity(alloc, rows.len())?;
    for row in rows {
        flags.push(present[*row as usize])?;
    }
    Ok(flags)
}

/// The places from one up to another behind those that are there. More places than there are row numbers
/// are refused as want of memory.
#[tactic(auto, using(crate::proofs::PieceLemmas::place_more))]
fn push_places(places: &mut Vec<IdxSize>, start: usize, end: usize) -> PolarsResult<()>
    ensures ok { let more = range_with_len start (end - start) in
        OnOk result (places.new.items ≡ places.old.items ++ more) }
    ensures err { IfErr result IsNoMemory }
{
    for place in start..end {
        let Ok(place) = IdxSize::try_from(place) else {
            return Err(PolarsError::NoMemory);
        };
        places.push(place)?;
    }
    Ok(())
}

/// Where the items of these rows end once they stand one after the other, and where they stand now. More
/// items than there are row numbers are refused as want of memory.
pub(crate) fn items_of_rows(
    alloc: Global,
    ends: &[usize],
    rows: &[IdxSize],
) -> PolarsResult<(Vec<usize>, Vec<IdxSize>)>
    requires { All (λ row. row < length ends.now) rows.now }
    ensures ok { IfOk result
        (λ found. AreItems ends.now rows.now found.0.items found.1.items) }
    ensures err { IfErr result IsNoMemory }
{
    let mut found = Vec::with_capacity(alloc, rows.len())?;
    let mut places = Vec::new(alloc);
    for row in rows {
        let row = *row as usize;
        push_places(&mut places, start_at(ends, row), ends[row])?;
        found.push(places.len())?;
    }
    Ok((found, places))
}

/// Room for so many flags and so many ends more.
fn reserve_rows(
    present: &mut Vec<bool>,
    flags: usize,
    ends: &mut Vec<usize>,
    places: usize,
) -> Result<(), AllocError>
    ensures flags { present.new.items ≡ present.old.items }
    ensures places { ends.new.items ≡ ends.old.items }
    ensures flags_room { OnOk result (vec_len present.new + flags ≤ vec_capacity present.new) }
    ensures places_room { OnOk result (vec_len ends.new + places ≤ vec_capacity ends.new) }
{
    present.reserve(flags)?;
    ends.reserve(places)?;
    Ok(())
}

/// Other flags behind those that are there, which have the room.
pub(crate) fn push_flags(present: &mut Vec<bool>, more: &[bool])
    requires { vec_len present.old + length more.now ≤ vec_capacity present.old }
    ensures { present.new.items ≡ present.old.items ++ more.now }
{
    let Ok(()) = present.extend_from_slice(more) else {
        unreachable!();
    };
}

/// Other ends behind those that are there, which have the room, each so many places further on.
pub(crate) fn push_ends(ends: &mut Vec<usize>, more: &[usize], by: usize)
    requires room { vec_len ends.old + length more.now ≤ vec_capacity ends.old }
    requires fits { All (λ end. by + end < 2 ^ 64) more.now }
    ensures { ends.new.items ≡ ends.old.items ++ map (λ end. by + end) more.now }
{
    for end in more {
        ends.push_reserved(by + *end);
    }
}

/// The ends, each so many places further to the front.
pub(crate) fn ends_behind(
    alloc: Global,
    ends: &[usize],
    by: usize,
) -> Result<Vec<usize>, AllocError>
    ensures { IfOk result (λ moved. moved.items ≡ map (λ end. end - by) ends.now) }
{
    let mut moved = Vec::with_capacity(alloc, ends.len())?;
    for end in ends {
        moved.push(end.saturating_sub(by))?;
    }
    Ok(moved)
}

// A place moved into so many rows.
fn moved_into(count: usize, place: i128) -> usize
    ensures { result ≡ moved_into count place }
{
    if place <= 0 {
        return 0;
    }
    place.unsigned_abs().min(count as u128) as usize
}

/// The first row that a slice shows, and the first behind those.
pub(crate) fn slice_bounds(count: usize, offset: i64, len: usize) -> (usize, usize)
    ensures start { result.0 ≡ slice_start count offset }
    ensures end { result.1 ≡ slice_end count offset len }
{
    let from = if offset < 0 {
        count as i128 + i128::from(offset)
    } else {
        i128::from(offset)
    };
    (
        moved_into(count, from),
        moved_into(count, from + len as i128),
    )
}

/// `rows_joined`, and room for so many flags and places more.
pub(crate) fn join_rows(
    rows: &NullChunked,
    more: NullChunked,
    present: &mut Vec<bool>,
    flags: usize,
    ends: &mut Vec<usize>,
    places: usize,
) -> PolarsResult<NullChunked>
    requires { length rows.now.slots + length more.slots < 2 ^ 63 }
    ensures ok { IfOk result (λ joined. joined ≡ appended rows.now more) }
    ensures err { IfErr result IsNoMemory }
    ensures flags { present.new.items ≡ present.old.items }
    ensures places { ends.new.items ≡ ends.old.items }
    ensures flags_room { OnOk result (vec_len present.new + flags ≤ vec_capacity present.new) }
    ensures places_room { OnOk result (vec_len ends.new + places ≤ vec_capacity ends.new) }
{
    reserve_rows(present, flags, ends, places)?;
    rows_joined(rows, more)
}

/// The rows of one column and behind them those of another.
pub(crate) fn rows_joined(rows: &NullChunked, more: NullChunked) -> PolarsResult<NullChunked>
    requires { length rows.now.slots + length more.slots < 2 ^ 63 }
    ensures ok { IfOk result (λ joined. joined ≡ appended rows.now more) }
    ensures err { IfErr result IsNoMemory }
{
    // Both tell their type.
    let _ = (rows.allocator(), more.allocator());
    let mut joined = rows.try_clone()?;
    joined.append(more)?;
    Ok(joined)
}

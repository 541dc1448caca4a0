//! Worked hashes, by mixers that leave each word as it is or mix it to 0, and each call once. A check pays for
//! each value that a function may let go, and a series may hold any type: so a function owns one series at
//! most.

ghost use Rattle.std.specs.Prelude.{◌≡◌, ◌<◌, true, All, length, if◌then◌else◌};

use gb_base::data_type::DataType;
use gb_base::error::{Operation, PolarsError, PolarsResult};
use gb_base::small_str::PlSmallStr;
use gb_cols::binary::BinaryOffsetChunked;
use gb_cols::boolean::BooleanChunked;
use gb_cols::chunked::StringChunked;
use gb_cols::null::NullChunked;
use gb_cols::primitive::{Int32Chunked, UInt64Chunked};
use gb_cols::series_trait::SeriesTrait;
use gb_hash::dirty_hash::Mixer;
use gb_logical::logical::DateChunked;
use gb_row_hash::byte_hash::_hash_binary_array;
use gb_row_hash::frames_hash::_df_rows_to_hashes_threaded_vertical;
use gb_row_hash::series_hash::columns_to_hashes;
use gb_row_hash::vec_hash::VecHash;
use gb_series::frame::DataFrame;
use gb_series::into_series::IntoSeries;
use gb_series::nested::list::ListChunked;
use gb_series::series::Series;
use std::alloc::Global;
use std::test::Fail;
use std::thread::Threads;

/// Leaves each word as it is, or mixes it to 0.
#[derive(Clone, Copy)]
struct Plain {
    keeps: bool,
}

impl Mixer for Plain {
    ghost seed_of = { λ _. 0 };

    ghost mix_of = { λ mixer x. if mixer.keeps then x else 0 };

    fn seed(&self) -> u64 {
        0
    }

    fn mix(&self, x: u64) -> u64 {
        if self.keeps { x } else { 0 }
    }
}

const ALIKE: Plain = Plain { keeps: false };

const UNMIXED: Plain = Plain { keeps: true };

fn name(alloc: Global) -> PolarsResult<PlSmallStr> {
    PlSmallStr::from_str(alloc, "c")
}

// Whether the hashes of a column are these, in place of what a buffer held.
fn are_hashes<C: VecHash>(
    alloc: Global,
    column: &C,
    mixer: Plain,
    wanted: &[u64],
) -> PolarsResult<bool> {
    let mut buf = vec![in alloc; 9]?;
    column.vec_hash(mixer, &mut buf)?;
    Ok(buf.as_slice() == wanted)
}

// What the hash of a column's only slot makes of an earlier one.
fn combined<C: VecHash>(column: &C, mixer: Plain, before: u64) -> Option<u64> {
    if column.len() != 1 {
        return None;
    }
    let mut hashes = [before];
    match column.vec_hash_combine(mixer, &mut hashes) {
        Ok(()) => Some(hashes[0]),
        Err(_) => None,
    }
}

// A column of one text.
fn text(alloc: Global) -> PolarsResult<StringChunked> {
    let mut texts = StringChunked::new(alloc, name(alloc)?);
    texts.push(Some("x"))?;
    Ok(texts)
}

#[test]
fn hashes_of_columns(rt: HostRuntime) -> Result<(), Fail> {
    let alloc = rt.alloc();
    let numbers = Int32Chunked::from_slice_options(alloc, name(alloc)?, &[Some(1), None])?;
    assert!(rt; are_hashes(alloc, &numbers, ALIKE, &[0, 0])?);
    let words = UInt64Chunked::from_slice(alloc, name(alloc)?, &[5, 7])?;
    assert!(rt; are_hashes(alloc, &words, UNMIXED, &[5, 7])?);
    Ok(())
}

#[test]
fn hashes_of_other_types(rt: HostRuntime) -> Result<(), Fail> {
    let alloc = rt.alloc();
    let nulls = NullChunked::new(alloc, name(alloc)?, 2);
    // A null hashes as its word, 3188347919, twice: in itself, and under itself.
    assert!(rt; are_hashes(alloc, &nulls, UNMIXED, &[3188347919, 3188347919])?);
    let days = Int32Chunked::from_slice(alloc, name(alloc)?, &[-1])?;
    let dates = DateChunked::new(days);
    assert!(rt; are_hashes(alloc, &dates, UNMIXED, &[18446744073709551615])?);
    Ok(())
}

#[test]
fn hashes_put_to_earlier_ones(rt: HostRuntime) -> Result<(), Fail> {
    let alloc = rt.alloc();
    assert!(rt; combined(&text(alloc)?, ALIKE, 4) == Some(2654435774));
    let flags = BooleanChunked::from_slice(alloc, name(alloc)?, &[true])?;
    assert!(rt; combined(&flags, ALIKE, 0) == Some(2654435769));
    let number = Int32Chunked::from_slice(alloc, name(alloc)?, &[1])?;
    assert!(rt; combined(&number, ALIKE, 0) == Some(0));
    Ok(())
}

#[test]
fn hashes_behind_others(rt: HostRuntime) -> Result<(), Fail> {
    let alloc = rt.alloc();
    let mut rows = BinaryOffsetChunked::new(alloc, name(alloc)?);
    rows.push(Some(b"a"))?;
    let mut buf = vec![in alloc; 9]?;
    _hash_binary_array(&rows, ALIKE, &mut buf)?;
    assert!(rt; buf.as_slice() == [9, 0].as_slice());
    Ok(())
}

// ---- rows of several columns

fn numbers(alloc: Global, values: &[i32]) -> PolarsResult<Series> {
    let name = PlSmallStr::from_str(alloc, "n")?;
    Ok(Int32Chunked::from_slice(alloc, name, values)?.into_series())
}

fn lists(alloc: Global) -> PolarsResult<Series> {
    let name = PlSmallStr::from_str(alloc, "l")?;
    let items = Series::new_empty(alloc, name.try_clone()?, DataType::Int32);
    Series::from_lists(ListChunked::new(alloc, name, items))
}

fn frame_of(alloc: Global, column: PolarsResult<Series>) -> PolarsResult<DataFrame> {
    let mut columns = Vec::new(alloc);
    columns.push(column?)?;
    DataFrame::new(columns)
}

fn number_and_text(alloc: Global) -> PolarsResult<DataFrame> {
    let mut columns = Vec::new(alloc);
    columns.push(numbers(alloc, &[1])?)?;
    columns.push(text(alloc)?.into_series())?;
    DataFrame::new(columns)
}

// The hashes of a frame's rows in place of what a list held, if it has a column.
fn hashes_of(alloc: Global, frame: &DataFrame) -> PolarsResult<Vec<u64>> {
    // The height tells that the columns are of one length.
    let _ = frame.height();
    let mut hashes = vec![in alloc; 9]?;
    if frame.width() > 0 {
        columns_to_hashes(frame.get_columns(), ALIKE, &mut hashes)?;
    }
    Ok(hashes)
}

fn have_hashes(alloc: Global, frame: PolarsResult<DataFrame>, wanted: &[u64]) -> bool {
    match frame {
        Ok(frame) => match hashes_of(alloc, &frame) {
            Ok(hashes) => hashes.as_slice() == wanted,
            Err(_) => false,
        },
        Err(_) => false,
    }
}

fn are_refused(alloc: Global, frame: PolarsResult<DataFrame>, name: &str) -> bool {
    match frame {
        Ok(frame) => match hashes_of(alloc, &frame) {
            Err(PolarsError::InvalidOperation(Operation::Hash, found)) => found.as_str() == name,
            _ => false,
        },
        Err(_) => false,
    }
}

#[test]
fn hashes_of_rows(rt: HostRuntime) -> Result<(), Fail> {
    let alloc = rt.alloc();
    assert!(rt; have_hashes(alloc, number_and_text(alloc), &[2654435769]));
    assert!(rt; are_refused(alloc, frame_of(alloc, lists(alloc)), "l"));
    Ok(())
}

fn have_columns(frames: &[DataFrame]) -> bool
    ensures { result ≡ true → All (λ frame. 0 < length frame) frames.now }
{
    for frame in frames {
        if frame.width() == 0 {
            return false;
        }
    }
    true
}

// Frames of one column, of one row and of two.
fn two_frames(alloc: Global) -> PolarsResult<Vec<DataFrame>> {
    let mut frames = Vec::new(alloc);
    frames.push(frame_of(alloc, numbers(alloc, &[1]))?)?;
    frames.push(frame_of(alloc, numbers(alloc, &[1, 2]))?)?;
    Ok(frames)
}

// Whether a column is of so many zeros.
fn are_zeros(column: &UInt64Chunked, count: usize) -> bool {
    if column.len() != count {
        return false;
    }
    for row in 0..column.len() {
        if column.get(row) != Some(0) {
            return false;
        }
    }
    true
}

fn hash_to_zeros<T: Threads + Sync>(rt: &T, alloc: Global, frames: &[DataFrame]) -> bool {
    if !have_columns(frames) {
        return false;
    }
    match _df_rows_to_hashes_threaded_vertical(rt, alloc, frames, ALIKE) {
        Ok((columns, _)) => {
            columns.len() == 2 && are_zeros(&columns[0], 1) && are_zeros(&columns[1], 2)
        }
        Err(_) => false,
    }
}

#[test]
fn hashes_of_frames(rt: HostRuntime) -> Result<(), Fail> {
    let frames = two_frames(rt.alloc())?;
    assert!(rt; hash_to_zeros(&rt, rt.alloc(), &frames));
    Ok(())
}

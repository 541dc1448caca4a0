//! The hashes of the rows of several frames, each frame in a thread of its own.

ghost use Rattle.std.specs.Prelude.{◌≡◌, ◌+◌, ◌<◌, ◌≤◌, None, All, drop, length, map, take, IfOk, IfErr, OnOk};
ghost use Rattle.gb_base.specs.PlSmallStr.{IsNoMemory};
ghost use Rattle.gb_base.specs.PolarsError.{Explains};
ghost use Rattle.gb_row_hash.specs.Rows.{HasHashes, first_frame_fault, hash_column};

use crate::series_hash::{columns_to_hashes, refuse_nested};
use gb_base::error::PolarsResult;
use gb_base::small_str::PlSmallStr;
use gb_cols::primitive::UInt64Chunked;
use gb_flat::shares::{join_shares, map_shares};
use gb_hash::dirty_hash::Mixer;
use gb_series::frame::DataFrame;
use std::alloc::Global;
use std::thread::Threads;

/// The hash of each row of each frame, a column with no name for each; and the mixer again. Each frame is
/// hashed as by `columns_to_hashes`, in a thread of its own where one can be made. Columns of lists, arrays
/// and structs are refused before any hash is taken, by the name of the first in the first frame that has
/// one.
pub fn _df_rows_to_hashes_threaded_vertical<T: Threads + Sync, M: Mixer + Sync>(
    rt: &T,
    alloc: Global,
    keys: &[DataFrame],
    build_hasher: M,
) -> PolarsResult<(Vec<UInt64Chunked>, M)>
    requires { All (λ frame. 0 < length frame) keys.now }
    ensures ok { let hashed = hash_column (M.seed_of build_hasher) (M.mix_of build_hasher) in
        IfOk result (λ r. r.0.items ≡ map hashed keys.now) }
    ensures mixer { IfOk result (λ r. r.1 ≡ build_hasher) }
    ensures sound { OnOk result (first_frame_fault keys.now ≡ None) }
    ensures err { IfErr result (λ e. Explains e (first_frame_fault keys.now)) }
{
    refuse_frames(keys)?;
    let columns = hash_apart(rt, alloc, keys, &build_hasher)?;
    Ok((columns, build_hasher))
}

// The hashes of the rows of frames that have some, each frame in a thread of its own.
fn hash_apart<T: Threads + Sync, M: Mixer + Sync>(
    rt: &T,
    alloc: Global,
    keys: &[DataFrame],
    mixer: &M,
) -> PolarsResult<Vec<UInt64Chunked>>
    requires { All HasHashes keys.now }
    ensures ok { let hashed = hash_column (M.seed_of mixer.now) (M.mix_of mixer.now) in
        IfOk result (λ made. made.items ≡ map hashed keys.now) }
    ensures err { IfErr result IsNoMemory }
{
    let part = |range: (usize, usize)|
        requires { range.0 + range.1 ≤ length keys.now × All HasHashes keys.now }
        ensures { IfOk result (λ made. made.items
            ≡ map (hash_column (M.seed_of mixer.entry.now) (M.mix_of mixer.entry.now))
            (take range.1 (drop range.0 keys.entry.now)))
            × IfErr result IsNoMemory }
    { hash_frames(alloc, keys, mixer, range) };
    let made = map_shares(rt, alloc, keys.len(), keys.len().max(1), &part)?;
    Ok(join_shares(alloc, made)?)
}

// Refuses the first column without hashes of the first frame that has one.
fn refuse_frames(frames: &[DataFrame]) -> PolarsResult<()>
    ensures ok { OnOk result (first_frame_fault frames.now ≡ None) }
    ensures err { IfErr result (λ e. Explains e (first_frame_fault frames.now)) }
{
    for frame in frames {
        refuse_nested(frame.get_columns())?;
    }
    Ok(())
}

// The hashes of the rows of some frames, the first and how many they are.
fn hash_frames<M: Mixer>(
    alloc: Global,
    keys: &[DataFrame],
    mixer: &M,
    range: (usize, usize),
) -> PolarsResult<Vec<UInt64Chunked>>
    requires inside { range.0 + range.1 ≤ length keys.now }
    requires hashed { All HasHashes keys.now }
    ensures ok { let frames = take range.1 (drop range.0 keys.now) in
        let columns = map (hash_column (M.seed_of mixer.now) (M.mix_of mixer.now)) frames in
        IfOk result (λ made. made.items ≡ columns) }
    ensures err { IfErr result IsNoMemory }
{
    let (first, count) = range;
    let frames = &keys[first..first + count];
    let mut columns = Vec::with_capacity(alloc, count)?;
    for frame in frames {
        columns.push(hash_frame(alloc, frame, mixer)?)?;
    }
    Ok(columns)
}

// The hashes of a frame's rows as a column with no name.
fn hash_frame<M: Mixer>(alloc: Global, frame: &DataFrame, mixer: &M) -> PolarsResult<UInt64Chunked>
    requires { HasHashes frame.now }
    ensures ok { let column = hash_column (M.seed_of mixer.now) (M.mix_of mixer.now) frame.now in
        IfOk result (λ made. made ≡ column) }
    ensures err { IfErr result IsNoMemory }
{
    // The height tells that the columns are of one length.
    let _ = frame.height();
    let mut hashes = Vec::new(alloc);
    columns_to_hashes(frame.get_columns(), *mixer, &mut hashes)?;
    let name = PlSmallStr::from_str(alloc, "")?;
    UInt64Chunked::from_slice(alloc, name, &hashes)
}

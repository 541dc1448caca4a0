//! A column taken apart into its chunks, and a frame.

ghost use Rattle.std.specs.Prelude.{◌≡◌, ◌<◌, ◌^◌, true, map, All, IfOk, IfErr};
ghost use Rattle.std.specs.Iterator.{item_count};
ghost use Rattle.gb_base.specs.PlSmallStr.{IsNoMemory};
ghost use Rattle.gb_series.specs.Frame.{GivesFrame, IsInOneChunk, are_aligned, frames_of};
ghost use Rattle.gb_series.specs.Series.{cut_at, part_at, value_of};

use crate::frame::DataFrame;
use crate::series::Series;
use gb_base::data_type::IsSorted;
use gb_base::error::PolarsResult;
use gb_cols::series_trait::SeriesTrait;
use std::marker::Model;

/// One series for each chunk, in order, empty ones too, with no flag. Copies all rows.
pub fn flatten_series(s: &Series) -> PolarsResult<Vec<Series>>
    ensures ok { let column = value_of s.now in
        IfOk result (λ parts. map value_of parts.items ≡ cut_at column 0 column.chunks) }
    ensures err { IfErr result IsNoMemory }
{
    // It tells that the chunks are all rows, fewer than 2^63.
    let _ = s.len();
    let lengths = s.chunk_lengths()?;
    let mut parts = Vec::with_capacity(s.allocator(), lengths.len())?;
    let mut start = 0;
    for &len in &lengths {
        parts.push(part_of(s, start, len)?)?;
        start += len;
    }
    Ok(parts)
}

// So many rows from a row on, with no flag. Copies them.
pub(crate) fn part_of(s: &Series, start: usize, len: usize) -> PolarsResult<Series>
    requires { start < 2 ^ 63 }
    ensures ok { IfOk result (λ part. value_of part ≡ part_at start len (value_of s.now)) }
    ensures err { IfErr result IsNoMemory }
{
    let mut part = s.slice(start as i64, len)?;
    part.set_sorted_flag(IsSorted::Not);
    Ok(part)
}

/// The chunks of a frame that are left, seen as the list of their frames.
#[derive(Drop)]
pub struct FlattenDf<'a> {
    frame: &'a DataFrame,
    // Of the chunks that have rows: how long each is, which is next, and where that begins.
    lengths: Vec<usize>,
    chunk: usize,
    start: usize,
}

impl<'a> Model for FlattenDf<'a> {
    ghost use Rattle.std.specs.Prelude.{◌+◌, ◌<◌, ◌^◌, List, drop, sum};
    ghost use Rattle.std.specs.Coded.{coded_list};
    ghost use Rattle.gb_defs.specs.Column.{Frame, frame_code};
    ghost use Rattle.gb_series.specs.Frame.{frames_at};

    ghost Value = { List Frame };

    ghost coded = { coded_list frame_code };

    ghost view = { λ it. frames_at it.frame.now it.start (drop it.chunk it.lengths.items) };

    ghost invariant = { λ it. it.start + sum (drop it.chunk it.lengths.items) < 2 ^ 63 };
}

/// One frame for each chunk that has rows, in order, with no flags. The lengths of the chunks are listed
/// here, and the rows of each are copied when it is its turn. An item that lacks memory stands in the
/// place of its frame.
pub fn flatten_df_iter(df: &DataFrame) -> PolarsResult<FlattenDf<'_>>
    requires aligned { are_aligned df.now ≡ true }
    ensures ok { IfOk result (λ frames. frames ≡ frames_of df.now) }
    ensures whole { IfOk result (λ frames. All IsInOneChunk frames) }
    ensures err { IfErr result IsNoMemory }
{
    let mut lengths = df.chunk_lengths()?;
    lengths.retain(|len| *len > 0);
    // It tells that the rows are fewer than 2^63.
    let _ = df.height();
    Ok(FlattenDf {
        frame: df,
        lengths,
        chunk: 0,
        start: 0,
    })
}

impl<'a> Iterator for FlattenDf<'a> {
    type Item = PolarsResult<DataFrame>;

    ghost next_gives = { GivesFrame };

    ghost remaining = { item_count (λ left. left) };

    fn next(&mut self) -> Option<PolarsResult<DataFrame>> {
        let len = *self.lengths.get(self.chunk)?;
        let start = self.start;
        self.chunk += 1;
        self.start += len;
        Some(self.frame.part(start, len))
    }
}

//! The numbers of rows' groups by texts.

ghost use Rattle.std.specs.Prelude.{◌≡◌, IfErr, IfOk, length};
ghost use Rattle.gb_defs.specs.Classes.{rows_below};
ghost use Rattle.gb_defs.specs.Groups.{HasRowNumbers};
ghost use Rattle.gb_base.specs.PlSmallStr.{IsNoMemory};
ghost use Rattle.gb_base.specs.Pool.{seed_of};
ghost use Rattle.gb_paths.specs.Numbering.{AreNumbersAmong};
ghost use Rattle.gb_paths.specs.Numbers.{text_rows};

use crate::number_rows::number_rows;
use crate::row_numbers::RowNumbers;
use gb_base::error::PolarsResult;
use gb_base::pool::Pool;
use gb_hash::dirty_hash::SeedMixer;
use gb_hash::list_rows::{ByteChunks, ChunkRows};
use gb_hash::short_rows::ShortRows;
use gb_values::utf8::Text;
use std::alloc::Global;
use std::thread::Threads;

/// The numbers of the groups of rows by texts, none of them null, which are told apart by words where all are
/// short.
pub(crate) fn number_texts<T: Threads + Sync>(
    rt: &T,
    alloc: Global,
    texts: &ByteChunks<'_, Text>,
    pool: &Pool,
) -> PolarsResult<RowNumbers>
    requires few { HasRowNumbers (length texts.now) }
    ensures ok { let rows = text_rows (seed_of pool.now) texts.now in
        IfOk result (AreNumbersAmong rows (rows_below rows.count)) }
    ensures err { IfErr result IsNoMemory }
{
    match ShortRows::new(texts, pool.seed()) {
        Some(rows) => number_rows(rt, alloc, &rows, pool),
        None => {
            let rows = ChunkRows::new(texts, SeedMixer::new(pool.seed()));
            number_rows(rt, alloc, &rows, pool)
        }
    }
}
